//! Event codes, and what they are called.
ghost use Rattle.std.specs.Prelude.{◌≡◌, map, option_copied};
ghost use Rattle.hidreport_linux.specs.Names.{key_text, name_in, text_at, text_of};

use crate::name_table::{AXES, HIGH_KEYS, LAMPS, LOW_KEYS, MIDDLE_KEYS, MOTIONS, OTHERS};
use std::fmt;

/// The type of an event.
#[derive(Clone, Copy, Debug, PartialEq, Eq)]
pub enum EventType {
    /// `EV_KEY`: keys and buttons.
    Key,

    /// `EV_REL`: by how much something moved.
    Relative,

    /// `EV_ABS`: where something is.
    Absolute,

    /// `EV_MSC`: others.
    Other,

    /// `EV_LED`: lamps of the device.
    Led,
}

impl EventType {
    ghost use Rattle.std.specs.Prelude.{◌≡◌};
    ghost use Rattle.hidreport_linux.specs.Types.{type_name, type_number};

    /// The type's number.
    pub fn number(self) -> u16
        ensures { result ≡ type_number self }
    {
        match self {
            EventType::Key => 0x01,
            EventType::Relative => 0x02,
            EventType::Absolute => 0x03,
            EventType::Other => 0x04,
            EventType::Led => 0x11,
        }
    }

    /// The type's name, such as `EV_KEY`.
    pub fn name(self) -> &'static str
        ensures { result.now ≡ type_name self }
    {
        match self {
            EventType::Key => "EV_KEY",
            EventType::Relative => "EV_REL",
            EventType::Absolute => "EV_ABS",
            EventType::Other => "EV_MSC",
            EventType::Led => "EV_LED",
        }
    }
}

/// An event code: its type, and its number within the type.
#[derive(Clone, Copy, Debug, PartialEq, Eq)]
pub struct EventCode {
    /// The type.
    pub event_type: EventType,

    /// The number.
    pub number: u16,
}

impl EventCode {
    ghost use Rattle.std.specs.Prelude.{◌≡◌, option_copied};
    ghost use Rattle.hidreport_linux.specs.declared.event_code.EventType.TheVariants.{
      Absolute,
      Key,
      Relative,
    };
    ghost use Rattle.hidreport_linux.specs.Events.{code};
    ghost use Rattle.hidreport_linux.specs.Names.{code_name};

    /// A key or a button.
    pub fn key(number: u16) -> EventCode
        ensures { result ≡ code Key number }
    {
        EventCode {
            event_type: EventType::Key,
            number,
        }
    }

    /// A movement.
    pub fn relative(number: u16) -> EventCode
        ensures { result ≡ code Relative number }
    {
        EventCode {
            event_type: EventType::Relative,
            number,
        }
    }

    /// An axis.
    pub fn absolute(number: u16) -> EventCode
        ensures { result ≡ code Absolute number }
    {
        EventCode {
            event_type: EventType::Absolute,
            number,
        }
    }

    /// The name, such as `KEY_A`; `None` where the number has none.
    ///
    /// Where a number has several names, it is the first that isn't the name of a range.
    pub fn name(self) -> Option<&'static str>
        ensures { option_copied result ≡ code_name self }
    {
        name_in(text_of(self.event_type, usize::from(self.number)))
    }
}

/// A text as a name; an empty one is none.
fn name_in(text: &'static str) -> Option<&'static str>
    ensures { option_copied result ≡ name_in text.now }
{
    if text.is_empty() { None } else { Some(text) }
}

/// The text of a number of a type, empty where it has no name.
#[tactic(auto, unfolding(crate::specs::Names::text_of))]
fn text_of(event_type: EventType, number: usize) -> &'static str
    ensures { result.now ≡ text_of event_type number }
{
    match event_type {
        EventType::Key => key_text(number),
        EventType::Relative => text_at(&MOTIONS, number),
        EventType::Absolute => text_at(&AXES, number),
        EventType::Other => text_at(&OTHERS, number),
        EventType::Led => text_at(&LAMPS, number),
    }
}

/// The text of a key.
#[tactic(auto, unfolding(crate::specs::Names::key_text))]
fn key_text(number: usize) -> &'static str
    ensures { result.now ≡ key_text number }
{
    if number < 256 {
        text_at(&LOW_KEYS, number)
    } else if number < 512 {
        text_at(&MIDDLE_KEYS, number - 256)
    } else {
        text_at(&HIGH_KEYS, number - 512)
    }
}

/// The text at a place of a table, empty past its end.
fn text_at(texts: &[&'static str], place: usize) -> &'static str
    ensures { result.now ≡ text_at (map (λ text. text.now) texts.now) place }
{
    match texts.get(place) {
        Some(text) => text,
        None => "",
    }
}

/// Writes the name, or the type and the number where there is none.
impl fmt::Display for EventCode {
    fn fmt<W: fmt::Write>(&self, f: &mut fmt::Formatter<W>) -> fmt::Result {
        match self.name() {
            Some(name) => f.write_str(name),
            None => write!(f, "{} {:#x}", self.event_type.name(), self.number),
        }
    }
}
