//! What an input device holds, and what it hands on.
mod filtering;
mod steady;

use crate::input_event::InputEvent;
use hidreport_linux::{EventCode, EventType};
use std::alloc::{AllocError, Global};
use std::marker::Model;
use std::mem;

/// How many keys there are.
const KEYS: usize = 0x300;

/// How many axes there are.
const AXES: usize = 0x40;

/// How many lamps there are.
const LAMPS: usize = 0x10;

/// How many movements there are.
const MOTIONS: usize = 0x10;

/// How many events go together beside those of axes and movements.
const OTHER_EVENTS: usize = 8;

/// The tool of a pen that a report says to be near: its code, 0 for none, and whether a part of the
/// report says so.
#[derive(Clone, Copy)]
pub(crate) struct Tool {
    code: u16,
    is_near: bool,
}

impl Tool {
    ghost use Rattle.std.specs.Prelude.{◌≡◌};
    ghost use Rattle.hidreport_events.specs.Senders.{no_tool_near};

    /// No tool is near.
    pub(crate) fn none() -> Tool
        ensures { result ≡ no_tool_near }
    {
        Tool {
            code: 0,
            is_near: false,
        }
    }
}

/// An input device: which keys are down, where its axes are, and what it hands on.
#[derive(Drop)]
pub(crate) struct Sender {
    keys: [bool; KEYS],
    lamps: [bool; LAMPS],
    axes: [i32; AXES],

    /// By how much each axis may tremble.
    fuzz: [i32; AXES],

    /// Whether it has keys at all.
    pub(crate) has_keys: bool,

    /// Whether pressures say `BTN_TOUCH`.
    pub(crate) says_touch: bool,

    /// Whether an eraser alone says that the pen is turned.
    pub(crate) lacks_invert: bool,

    /// Whether it can say that the pen is turned.
    pub(crate) has_rubber: bool,

    /// Which axes, and which movements, it has.
    has_axes: [bool; AXES],
    has_motions: [bool; MOTIONS],

    /// Which lamps it has.
    has_lamps: [bool; LAMPS],

    /// How many events go together, at most.
    room: usize,

    /// How many events wait for the end of those that belong together.
    waiting: usize,

    /// The code of the tool that the report says to be near, 0 for none.
    pub(crate) tool: u16,

    /// Whether a part of the report says that the tool is near.
    pub(crate) is_near: bool,

    /// By how much the wheels are turned behind the last click, in parts of 120.
    pub(crate) wheel: i16,
    pub(crate) side_wheel: i16,

    sent: Vec<InputEvent>,
}

impl Model for Sender {
    ghost use Rattle.hidreport_events.specs.Senders.{SenderRecord};

    ghost Value = { SenderRecord };

    ghost view = { λ s. record {
      keys = s.keys;
      lamps = s.lamps;
      axes = s.axes;
      fuzz = s.fuzz;
      has_keys = s.has_keys;
      says_touch = s.says_touch;
      lacks_invert = s.lacks_invert;
      has_rubber = s.has_rubber;
      has_axes = s.has_axes;
      has_motions = s.has_motions;
      has_lamps = s.has_lamps;
      room = s.room;
      waiting = s.waiting;
      tool = s.tool;
      is_near = s.is_near;
      wheel = s.wheel;
      side_wheel = s.side_wheel;
      sent = s.sent.items;
    } };
}

impl Sender {
    ghost use Rattle.std.specs.Prelude.{◌≡◌, OnOk};
    ghost use Rattle.hidreport_events.specs.Senders.{axis_at, ended, fuzz_at, has_lamp, holding, is_down, new_sender, is_lit, put, synced, tool_in, with_axis, with_axis_code, with_code, with_fuzz, with_key, with_lamp, with_lamp_code, with_motion_code, without_sent};

    /// One without codes, with all keys up and all axes at 0.
    pub(crate) fn new(alloc: Global) -> Sender
        ensures { result ≡ new_sender }
    {
        Sender {
            keys: [false; KEYS],
            lamps: [false; LAMPS],
            axes: [0; AXES],
            fuzz: [0; AXES],
            has_keys: false,
            says_touch: false,
            lacks_invert: false,
            has_rubber: false,
            has_axes: [false; AXES],
            has_motions: [false; MOTIONS],
            has_lamps: [false; LAMPS],
            room: OTHER_EVENTS,
            waiting: 0,
            tool: 0,
            is_near: false,
            wheel: 0,
            side_wheel: 0,
            sent: Vec::new(alloc),
        }
    }

    /// That it has a code: of an axis or a movement one event more goes together.
    pub(crate) fn claim(&mut self, code: EventCode)
        ensures { self.new ≡ with_code code self.old }
    {
        match code.event_type {
            EventType::Absolute => self.claim_axis(code.number),
            EventType::Relative => self.claim_motion(code.number),
            EventType::Key => self.has_keys = true,
            EventType::Led => self.claim_lamp(code.number),
            EventType::Other => {}
        }
    }

    /// That it has an axis.
    fn claim_axis(&mut self, number: u16)
        ensures { self.new ≡ with_axis_code number self.old }
    {
        let number = usize::from(number);
        if number < AXES && !self.has_axes[number] {
            self.has_axes[number] = true;
            self.room = self.room.saturating_add(1);
        }
    }

    /// That it has a movement.
    fn claim_motion(&mut self, number: u16)
        ensures { self.new ≡ with_motion_code number self.old }
    {
        let number = usize::from(number);
        if number < MOTIONS && !self.has_motions[number] {
            self.has_motions[number] = true;
            self.room = self.room.saturating_add(1);
        }
    }

    /// That it has a lamp.
    fn claim_lamp(&mut self, number: u16)
        ensures { self.new ≡ with_lamp_code number self.old }
    {
        let number = usize::from(number);
        if number < LAMPS {
            self.has_lamps[number] = true;
        }
    }

    /// Whether it has a lamp.
    pub(crate) fn has_lamp(&self, number: u16) -> bool
        ensures { result ≡ has_lamp number self.now }
    {
        let number = usize::from(number);
        number < LAMPS && self.has_lamps[number]
    }

    /// By how much an axis may tremble.
    pub(crate) fn set_fuzz(&mut self, number: u16, fuzz: i32)
        ensures { self.new ≡ with_fuzz number fuzz self.old }
    {
        let number = usize::from(number);
        if number < AXES {
            self.fuzz[number] = fuzz;
        }
    }

    /// Whether a key is down.
    pub(crate) fn is_down(&self, number: u16) -> bool
        ensures { result ≡ is_down number self.now }
    {
        let number = usize::from(number);
        number < KEYS && self.keys[number]
    }

    /// That a key is down, or isn't.
    fn set_key(&mut self, number: u16, down: bool)
        ensures { self.new ≡ with_key number down self.old }
    {
        let number = usize::from(number);
        if number < KEYS {
            self.keys[number] = down;
        }
    }

    /// Whether a lamp is lit.
    fn is_lit(&self, number: u16) -> bool
        ensures { result ≡ is_lit number self.now }
    {
        let number = usize::from(number);
        number < LAMPS && self.lamps[number]
    }

    /// That a lamp is lit, or isn't.
    fn set_lamp(&mut self, number: u16, lit: bool)
        ensures { self.new ≡ with_lamp number lit self.old }
    {
        let number = usize::from(number);
        if number < LAMPS {
            self.lamps[number] = lit;
        }
    }

    /// Where an axis is.
    fn axis_at(&self, number: u16) -> i32
        ensures { result ≡ axis_at number self.now }
    {
        let number = usize::from(number);
        if number < AXES { self.axes[number] } else { 0 }
    }

    /// By how much an axis may tremble.
    fn fuzz_at(&self, number: u16) -> i32
        ensures { result ≡ fuzz_at number self.now }
    {
        let number = usize::from(number);
        if number < AXES { self.fuzz[number] } else { 0 }
    }

    /// That an axis is somewhere else.
    fn set_axis(&mut self, number: u16, value: i32)
        ensures { self.new ≡ with_axis number value self.old }
    {
        let number = usize::from(number);
        if number < AXES {
            self.axes[number] = value;
        }
    }

    /// Hands an event on; where no more go together, they end.
    fn put(&mut self, code: EventCode, value: i32) -> Result<(), AllocError>
        ensures { OnOk result (self.new ≡ put code value self.old) }
    {
        self.sent.push(InputEvent {
            code: Some(code),
            value,
        })?;
        self.waiting = self.waiting.saturating_add(1);
        if self.waiting >= self.room {
            self.end(1)
        } else {
            Ok(())
        }
    }

    /// Ends the events that belong together.
    fn end(&mut self, value: i32) -> Result<(), AllocError>
        ensures { OnOk result (self.new ≡ ended value self.old) }
    {
        self.sent.push(InputEvent { code: None, value })?;
        self.waiting = 0;
        Ok(())
    }

    /// Ends them, if there are any.
    #[tactic(auto, unfolding(crate::specs::Senders::synced))]
    pub(crate) fn sync(&mut self) -> Result<(), AllocError>
        ensures { OnOk result (self.new ≡ synced self.old) }
    {
        if self.waiting == 0 {
            return Ok(());
        }
        self.end(0)
    }

    /// The tool that is near.
    pub(crate) fn tool(&self) -> Tool
        ensures { result ≡ tool_in self.now }
    {
        Tool {
            code: self.tool,
            is_near: self.is_near,
        }
    }

    /// That a tool is near.
    pub(crate) fn hold_tool(&mut self, tool: Tool)
        ensures { self.new ≡ holding tool self.old }
    {
        self.tool = tool.code;
        self.is_near = tool.is_near;
    }

    /// What it handed on, which is forgotten.
    pub(crate) fn take_sent(&mut self, alloc: Global) -> Vec<InputEvent>
        ensures sent { result.items ≡ self.old.sent }
        ensures forgotten { self.new ≡ without_sent self.old }
    {
        mem::replace(&mut self.sent, Vec::new(alloc))
    }
}
