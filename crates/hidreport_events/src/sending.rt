//! What a value of a usage sends.
ghost use Rattle.std.specs.Prelude.{◌≡◌};
ghost use Rattle.hidreport_events.specs.Sending.{across, down, is_key, pad_direction};

use crate::event_field::EventField;
use crate::sender::Sender;
use crate::source::Source;
use hidreport_linux::{Event, EventCode, EventType, Role};
use std::alloc::AllocError;

/// `MSC_SCAN`: the usage of a key that is pressed or let go.
const SCAN: EventCode = EventCode {
    event_type: EventType::Other,
    number: 0x04,
};

impl Sender {
    ghost use Rattle.std.specs.Prelude.{◌≡◌, OnOk};
    ghost use Rattle.hidreport_events.specs.Sending.{behind_event, behind_hat, behind_new, behind_number, behind_scan, behind_value, tells};

    /// Takes a value of a source, behind the one before it.
    #[tactic(auto, unfolding(crate::specs::Sending::behind_value))]
    pub(crate) fn take_value(
        &mut self,
        field: &EventField,
        source: &Source,
        before: i32,
        value: i32,
    ) -> Result<(), AllocError>
        ensures { OnOk result
            (self.new ≡ behind_value field.now source.now before value self.old) }
    {
        match source.event {
            Some(event) => self.take_event(field, source, event, before, value),
            None => Ok(()),
        }
    }

    /// The same of a usage that has an event.
    #[tactic(auto, unfolding(crate::specs::Sending::behind_event))]
    fn take_event(
        &mut self,
        field: &EventField,
        source: &Source,
        event: Event,
        before: i32,
        value: i32,
    ) -> Result<(), AllocError>
        ensures { OnOk result
            (self.new ≡ behind_event field.now source.now event before value self.old) }
    {
        match event.role {
            Role::Hat => self.send_hat(event.code, field.hat_direction(value)),
            Role::Direction => self.send_hat(event.code, pad_direction(source.usage)),
            _ => self.take_number(field, source, event, before, value),
        }
    }

    /// The two axes of a hat, or of a D-pad.
    #[tactic(auto, unfolding(crate::specs::Sending::behind_hat))]
    fn send_hat(&mut self, code: EventCode, direction: i32) -> Result<(), AllocError>
        ensures { OnOk result (self.new ≡ behind_hat code direction self.old) }
    {
        self.send(code, across(direction))?;
        self.send(EventCode::absolute(0x11), down(direction))
    }

    /// The same of a usage that has no two axes.
    #[tactic(auto, unfolding(crate::specs::Sending::behind_number))]
    fn take_number(
        &mut self,
        field: &EventField,
        source: &Source,
        event: Event,
        before: i32,
        value: i32,
    ) -> Result<(), AllocError>
        ensures { OnOk result
            (self.new ≡ behind_number field.now source.now event before value self.old) }
    {
        let Some(value) = field.kept_value(value) else {
            return Ok(());
        };
        if !self.pass_tool(source.usage, event.code, field, value)? {
            return Ok(());
        }
        self.tell(field, source, event, before, value)
    }

    /// What a value that is kept says.
    #[tactic(auto, unfolding(crate::specs::Sending::tells))]
    fn tell(
        &mut self,
        field: &EventField,
        source: &Source,
        event: Event,
        before: i32,
        value: i32,
    ) -> Result<(), AllocError>
        ensures { OnOk result
            (self.new ≡ tells field.now source.now event before value self.old) }
    {
        match event.role {
            Role::Wheel => self.turn_wheel(source.multiplier, value),
            Role::SideWheel => self.turn_side_wheel(source.multiplier, value),
            Role::Volume => self.turn_volume(value),
            _ => self.send_new(field, source.usage, event.code, before, value),
        }
    }

    /// A value, if it is new; a key that tells of its press alone is let go at once.
    #[tactic(auto, unfolding(crate::specs::Sending::behind_new))]
    fn send_new(
        &mut self,
        field: &EventField,
        usage: u32,
        code: EventCode,
        before: i32,
        value: i32,
    ) -> Result<(), AllocError>
        ensures { OnOk result
            (self.new ≡ behind_new field.now usage code before value self.old) }
    {
        if field.stays(before, value) {
            return Ok(());
        }
        self.send_scan(usage, code, value)?;
        self.send(code, value)?;
        if field.is_relative && is_key(code) && value != 0 {
            self.sync()?;
            return self.send(code, 0);
        }
        Ok(())
    }

    /// The usage of a key that is pressed or let go.
    #[tactic(auto, unfolding(crate::specs::Sending::behind_scan))]
    fn send_scan(&mut self, usage: u32, code: EventCode, value: i32) -> Result<(), AllocError>
        ensures { OnOk result (self.new ≡ behind_scan usage code value self.old) }
    {
        let other = if self.is_down(code.number) { 0 } else { 1 };
        if is_key(code) && value == other {
            return self.send(SCAN, usage.cast_signed());
        }
        Ok(())
    }
}

/// Whether it is the code of a key.
fn is_key(code: EventCode) -> bool
    ensures { result ≡ is_key code }
{
    matches!(code.event_type, EventType::Key)
}

/// Which of eight directions a usage of a D-pad is.
#[tactic(auto, unfolding(crate::specs::Sending::pad_direction))]
fn pad_direction(usage: u32) -> i32
    ensures { result ≡ pad_direction usage }
{
    match usage {
        0x0001_0090 => 1,
        0x0001_0091 => 5,
        0x0001_0092 => 3,
        _ => 7,
    }
}

/// How far a direction goes to the right.
#[tactic(auto, unfolding(crate::specs::Sending::across))]
fn across(direction: i32) -> i32
    ensures { result ≡ across direction }
{
    match direction {
        2 | 3 | 4 => 1,
        6 | 7 | 8 => -1,
        _ => 0,
    }
}

/// How far a direction goes down.
#[tactic(auto, unfolding(crate::specs::Sending::down))]
fn down(direction: i32) -> i32
    ensures { result ≡ down direction }
{
    match direction {
        4 | 5 | 6 => 1,
        1 | 2 | 8 => -1,
        _ => 0,
    }
}
