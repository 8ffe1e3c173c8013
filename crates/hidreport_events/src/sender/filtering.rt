//! What an input device hands on of the events that it takes.
use crate::sender::Sender;
use crate::sender::steady::steadied;
use hidreport_linux::{EventCode, EventType};
use std::alloc::AllocError;

impl Sender {
    ghost use Rattle.std.specs.Prelude.{◌≡◌, OnOk};
    ghost use Rattle.hidreport_events.specs.Senders.{behind_axis, behind_key, behind_lamp, behind_motion, sends};

    /// Takes an event, and hands it on where it says something new.
    #[tactic(auto, unfolding(crate::specs::Senders::sends))]
    pub(crate) fn send(&mut self, code: EventCode, value: i32) -> Result<(), AllocError>
        ensures { OnOk result (self.new ≡ sends code value self.old) }
    {
        match code.event_type {
            EventType::Key => self.send_key(code, value),
            EventType::Relative => self.send_motion(code, value),
            EventType::Absolute => self.send_axis(code, value),
            EventType::Other => self.put(code, value),
            EventType::Led => self.send_lamp(code, value),
        }
    }

    /// A key: 2 is one that is held down, which changes nothing.
    fn send_key(&mut self, code: EventCode, value: i32) -> Result<(), AllocError>
        ensures { OnOk result (self.new ≡ behind_key code value self.old) }
    {
        if value == 2 {
            return self.put(code, value);
        }
        let down = value != 0;
        if self.is_down(code.number) == down {
            return Ok(());
        }
        self.set_key(code.number, down);
        self.put(code, value)
    }

    /// A movement, which is none where it is 0.
    fn send_motion(&mut self, code: EventCode, value: i32) -> Result<(), AllocError>
        ensures { OnOk result (self.new ≡ behind_motion code value self.old) }
    {
        if value == 0 {
            return Ok(());
        }
        self.put(code, value)
    }

    /// A place, which is kept where it is close to the last one.
    fn send_axis(&mut self, code: EventCode, value: i32) -> Result<(), AllocError>
        ensures { OnOk result (self.new ≡ behind_axis code value self.old) }
    {
        let before = self.axis_at(code.number);
        let value = steadied(value, before, self.fuzz_at(code.number));
        if value == before {
            return Ok(());
        }
        self.set_axis(code.number, value);
        self.put(code, value)
    }

    /// A lamp.
    fn send_lamp(&mut self, code: EventCode, value: i32) -> Result<(), AllocError>
        ensures { OnOk result (self.new ≡ behind_lamp code value self.old) }
    {
        let lit = value != 0;
        if self.is_lit(code.number) == lit {
            return Ok(());
        }
        self.set_lamp(code.number, lit);
        self.put(code, value)
    }
}
