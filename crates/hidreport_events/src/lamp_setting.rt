//! Lamps that a program sets, and what is written to the device then.
ghost use Rattle.std.specs.Prelude.{◌≡◌};

use crate::errors::EventsError;
use crate::event_reader::{EventReader, ReportEvents};
use crate::input_event::InputEvent;
use crate::lamp::{take_events, written_behind};
use crate::sender::Sender;
use hidreport_linux::{EventCode, EventType};
use std::alloc::{AllocError, Global};

impl EventReader {
    ghost use Rattle.std.specs.Prelude.{◌≡◌, length, IfErr, IfOk, OnOk};
    ghost use Rattle.hidreport_events.specs.Lamps.{IsWritten, written_behind};
    ghost use Rattle.hidreport_events.specs.Readers.{IsRefused, IsSent};
    ghost use Rattle.hidreport_events.specs.Setting.{behind_handing, handed_on, has_lamp_at, sets, with_setting};

    /// The events behind a program that sets a lamp: that writes `EV_LED` with its number and a
    /// value, 0 for a lamp that is put out, and `SYN_REPORT` to the input device at an index. None
    /// where the lamp is as it was.
    ///
    /// # Errors
    ///
    /// - `Lost`: memory was refused before.
    /// - `NoLamp`: there is no such input device, or it has no such lamp.
    /// - `OutOfMemory`: memory is refused, and what the device holds may be lost.
    ///
    /// But for `OutOfMemory` the reader is as before.
    #[tactic(auto, unfolding(crate::specs::Setting::sets))]
    pub fn set_lamp(
        &mut self,
        alloc: Global,
        device: usize,
        lamp: u16,
        value: i32,
    ) -> Result<ReportEvents, EventsError>
        ensures sent { IfOk result (λ events.
            IsSent (sets device lamp value self.old) events self.new) }
        ensures refused { IfErr result (λ fault.
            IsRefused (sets device lamp value self.old) fault self.old self.new) }
    {
        if self.is_lost {
            return Err(EventsError::Lost);
        }
        if !self.has_lamp(device, lamp) {
            return Err(EventsError::NoLamp);
        }
        self.take_setting(device, lamp, value)?;
        let events = self.hand_on(alloc, device);
        Ok(ReportEvents { device, events })
    }

    /// How many input devices there are, which are counted from 0.
    pub fn device_count(&self) -> usize
        ensures { result ≡ length self.now.senders }
    {
        self.senders.len()
    }

    /// Whether there is an input device at an index, with a lamp of this number of `EV_LED`.
    #[tactic(auto, unfolding(crate::specs::Setting::has_lamp_at))]
    pub fn has_lamp(&self, device: usize, lamp: u16) -> bool
        ensures { result ≡ has_lamp_at device lamp self.now }
    {
        match self.senders.get(device) {
            Some(sender) => sender.has_lamp(lamp),
            None => false,
        }
    }

    /// Has an input device take a lamp's value, if it is there.
    #[tactic(auto, unfolding(crate::specs::Setting::with_setting))]
    fn take_setting(&mut self, device: usize, lamp: u16, value: i32) -> Result<(), AllocError>
        ensures { OnOk result (self.new ≡ with_setting device lamp value self.old) }
    {
        self.is_lost = true;
        if device < self.senders.len() {
            self.senders[device].take_setting(lamp, value)?;
        }
        Ok(())
    }

    /// What an input device handed on, which is forgotten; the lamps are as it says.
    #[tactic(auto, unfolding(crate::specs::Setting::behind_handing))]
    fn hand_on(&mut self, alloc: Global, device: usize) -> Vec<InputEvent>
        ensures sent { result.items ≡ handed_on device self.old }
        ensures next { self.new ≡ behind_handing device self.old }
    {
        self.is_lost = false;
        if device >= self.senders.len() {
            return Vec::new(alloc);
        }
        let events = self.senders[device].take_sent(alloc);
        take_events(&mut self.lamps, &events);
        events
    }

    /// The bytes of the output report that Linux writes to the device behind these events, which
    /// are those of the last call: where they light a lamp of an output report, or put one out, the
    /// report of the first lamp, its id first if it has one; else `None` (Section 5.6).
    ///
    /// # Errors
    ///
    /// - `AllocError`: memory for the bytes is refused.
    pub fn written(
        &self,
        alloc: Global,
        events: &ReportEvents,
    ) -> Result<Option<Vec<u8>>, AllocError>
        ensures { IfOk result (λ bytes.
            IsWritten (written_behind events.now.events.items self.now.lamps) bytes) }
    {
        written_behind(alloc, &events.events, &self.lamps)
    }
}

impl Sender {
    ghost use Rattle.std.specs.Prelude.{◌≡◌, OnOk};
    ghost use Rattle.hidreport_events.specs.Setting.{behind_setting};

    /// Takes what a program writes that sets a lamp.
    #[tactic(auto, unfolding(crate::specs::Setting::behind_setting))]
    fn take_setting(&mut self, lamp: u16, value: i32) -> Result<(), AllocError>
        ensures { OnOk result (self.new ≡ behind_setting lamp value self.old) }
    {
        let code = EventCode {
            event_type: EventType::Led,
            number: lamp,
        };
        self.send(code, value)?;
        self.sync()
    }
}
