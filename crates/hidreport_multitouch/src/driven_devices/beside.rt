//! What is known of an event behind all usages.
use super::DrivenDevices;
use crate::driven_event::{DrivenEvent, Giver};
use crate::silent::Silent;
use hidreport_linux::{Axis, EventCode, EventType, InputDevices};

/// The numbers of `ABS_MT_POSITION_X` and `Y`, `ABS_MT_TOOL_X`, `PRESSURE`, `ORIENTATION`,
/// `TOUCH_MINOR` and `SLOT`.
const POSITION_X: u16 = 0x35;

const POSITION_Y: u16 = 0x36;

const MIDDLE_X: u16 = 0x3c;

const PRESSURE: u16 = 0x3a;

const ORIENTATION: u16 = 0x34;

const MINOR: u16 = 0x31;

const SLOT: u16 = 0x2f;

macro_rules! axis_code {
    ($number:literal) => {
        EventCode {
            event_type: EventType::Absolute,
            number: $number,
        }
    };
}

static X: [EventCode; 1] = [axis_code!(0x00)];

static Y: [EventCode; 1] = [axis_code!(0x01)];

static SINGLE_PRESSURE: [EventCode; 1] = [axis_code!(0x18)];

static WIDER: [EventCode; 1] = [axis_code!(0x34)];

static TOOL: [EventCode; 1] = [axis_code!(0x37)];

static TRACKING: [EventCode; 1] = [axis_code!(0x39)];

impl DrivenDevices {
    ghost use Rattle.std.specs.Prelude.{◌≡◌, option_copied};
    ghost use Rattle.hidreport_multitouch.specs.Settled.{axis_for, beside_for, beside_touch, has_azimuth, inputs_for, own_axis, pointer_axis, points, registers, settled, touch_axis_for};

    /// What a usage's answer is in the end: a code that nothing registers is none.
    ///
    /// # Errors
    ///
    /// - `Unregistered`: nothing registers it.
    /// - The reason of an answer that is one.
    #[tactic(auto, unfolding(crate::specs::Settled::settled))]
    pub fn settled(&self, answer: Result<DrivenEvent, Silent>) -> Result<DrivenEvent, Silent>
        ensures { result ≡ settled self.now answer }
    {
        match answer {
            Ok(event) if matches!(event.giver, Giver::Nobody) && !self.registers(&event) => {
                Err(Silent::Unregistered)
            }
            answer => answer,
        }
    }

    /// Whether hid-multitouch registers the code of an event for another usage.
    fn registers(&self, event: &DrivenEvent) -> bool
        ensures { result ≡ registers self.now event.now }
    {
        let is_touch = matches!(event.code.event_type, EventType::Key)
            && event.code.number == 0x14a;
        match self.touched.get(event.device) {
            Some(touched) => touched.has(event.code) || is_touch && self.points(event.device),
            None => false,
        }
    }

    /// Whether an input device with touch reports also stands for a pointer.
    fn points(&self, device: usize) -> bool
        ensures { result ≡ points self.now device }
    {
        self.applications
            .iter()
            .any(|one| one.device == device && one.points)
    }

    /// What the axis of an event says of itself; `None` of a code that is no axis.
    #[tactic(auto, unfolding(crate::specs::Settled::axis_for))]
    pub fn axis(&self, event: &DrivenEvent) -> Option<Axis>
        ensures { result ≡ axis_for self.now event.now }
    {
        let own = self.own_axis(event);
        match event.giver {
            Giver::HidInput(_) => self.pointer_axis(event).or(own),
            _ => own,
        }
    }

    /// The same as what gives the event its code has it.
    fn own_axis(&self, event: &DrivenEvent) -> Option<Axis>
        ensures { result ≡ own_axis self.now event.now }
    {
        match event.giver {
            Giver::HidInput(role) => {
                let device = if self.is_by_id() { 0 } else { event.device };
                self.inputs_for(event)?
                    .axis(&event.as_of_hid_input(role, device))
            }
            Giver::Multitouch { is_dial: _ } | Giver::Nobody => self.touch_axis(event),
        }
    }

    /// The input devices of hid-input that an event is of.
    fn inputs_for(&self, event: &DrivenEvent) -> Option<&InputDevices>
        ensures { option_copied result ≡ inputs_for self.now event.now }
    {
        let index = if self.is_by_id() { event.device } else { 0 };
        self.inputs.get(index)
    }

    /// The axis of an event's code as hid-multitouch has registered it.
    fn touch_axis(&self, event: &DrivenEvent) -> Option<Axis>
        ensures { result ≡ touch_axis_for self.now event.now }
    {
        if matches!(event.code.event_type, EventType::Absolute) {
            self.touched.get(event.device)?.axis(event.code.number)
        } else {
            None
        }
    }

    /// The same of an axis of the pointer that an input device with touch reports stands for.
    fn pointer_axis(&self, event: &DrivenEvent) -> Option<Axis>
        ensures { result ≡ pointer_axis self.now event.now }
    {
        if !matches!(event.code.event_type, EventType::Absolute) || !self.points(event.device) {
            return None;
        }
        let touched = self.touched.get(event.device)?;
        match event.code.number {
            0x00 => touched.axis(POSITION_X),
            0x01 => touched.axis(POSITION_Y),
            0x18 => touched.axis(PRESSURE),
            _ => None,
        }
    }

    /// The codes that the usage of an event also has: those of the pointer beside a position and a
    /// pressure, `ABS_MT_TRACKING_ID` beside a slot, and an orientation beside a height, where
    /// nothing else says it.
    #[tactic(auto, unfolding(crate::specs::Settled::beside_for))]
    pub fn beside(&self, event: &DrivenEvent) -> &'static [EventCode]
        ensures { result.now ≡ beside_for self.now event.now }
    {
        match event.giver {
            Giver::HidInput(role) => match self.inputs_for(event) {
                Some(inputs) => inputs.beside(&event.as_of_hid_input(role, event.device)),
                None => &[],
            },
            Giver::Multitouch { is_dial } => self.beside_touch(event, is_dial),
            Giver::Nobody => &[],
        }
    }

    /// The same of a usage of a touch report.
    fn beside_touch(&self, event: &DrivenEvent, is_dial: bool) -> &'static [EventCode]
        ensures { result.now ≡ beside_touch self.now event.now is_dial }
    {
        if !matches!(event.code.event_type, EventType::Absolute) {
            return &[];
        }
        let points = self.points(event.device);
        match event.code.number {
            SLOT => &TRACKING,
            POSITION_X | MIDDLE_X if is_dial => &TOOL,
            POSITION_X if points => &X,
            POSITION_Y if points => &Y,
            PRESSURE if points => &SINGLE_PRESSURE,
            MINOR if !self.has_azimuth(event.device) => &WIDER,
            _ => &[],
        }
    }

    /// Whether a usage of an input device says how a contact is turned.
    fn has_azimuth(&self, device: usize) -> bool
        ensures { result ≡ has_azimuth self.now device }
    {
        match self.touched.get(device) {
            Some(touched) => touched.axis(ORIENTATION).is_some(),
            None => false,
        }
    }
}
