//! The commands, and the words that ask for them.
ghost use Rattle.std.specs.Prelude.{◌≡◌, IfSome, IsNone, map, string_bytes};
ghost use Rattle.hidreport_program.specs.Command.{AsksFor, has_limit, reads_report};

use super::limits::limit_of;

/// What the program is asked to do.
#[derive(Debug, Clone, Copy, PartialEq)]
pub enum Command {
    /// The items of a descriptor.
    Items,
    /// The fields of a report, with their values.
    Values,
    /// The same, unless listing the descriptor's fields passes this limit.
    ValuesWithin(usize),
    /// The same as `Values`, of a descriptor whose Pushes keep globals alone.
    ValuesGlobals,
    /// The same under a limit, as `ValuesWithin`.
    ValuesGlobalsWithin(usize),
    /// The canonical bytes of a descriptor's items.
    Rebuild,
}

impl Command {
    /// Whether it reads a report beside the descriptor.
    pub fn reads_report(self) -> bool
        ensures { result ≡ reads_report self }
    {
        match self {
            Command::Values
            | Command::ValuesWithin(_)
            | Command::ValuesGlobals
            | Command::ValuesGlobalsWithin(_) => true,
            Command::Items | Command::Rebuild => false,
        }
    }

    /// Whether it has a limit of what may be listed.
    pub fn has_limit(self) -> bool
        ensures { result ≡ has_limit self }
    {
        match self {
            Command::ValuesWithin(_) | Command::ValuesGlobalsWithin(_) => true,
            Command::Items | Command::Values | Command::ValuesGlobals | Command::Rebuild => false,
        }
    }
}

/// The command that `words` ask for, the words after the program's name.
///
/// It is the one whose name is the first word, with one more word for `items` and `rebuild`, the
/// name of a file, two for `values` and `values-globals`, and for `values-within` and
/// `values-globals-within` a limit before these two: one or more ASCII digits, of a number that a
/// `usize` holds.
/// Answers `None` for all other words: none, an unknown first word, one missing or one too many,
/// another limit.
pub fn command_of(words: &[String]) -> Option<Command>
    ensures asked { IfSome result (AsksFor (map string_bytes words.now)) }
    ensures wrong { IsNone result → (command : Command)
        → ¬ AsksFor (map string_bytes words.now) command }
{
    match words {
        [name, _] if name.as_str() == "items" => Some(Command::Items),
        [name, _, _] if name.as_str() == "values" => Some(Command::Values),
        [name, limit, _, _] if name.as_str() == "values-within" => {
            Some(Command::ValuesWithin(limit_of(limit.as_str())?))
        }
        [name, _, _] if name.as_str() == "values-globals" => Some(Command::ValuesGlobals),
        [name, limit, _, _] if name.as_str() == "values-globals-within" => {
            Some(Command::ValuesGlobalsWithin(limit_of(limit.as_str())?))
        }
        [name, _] if name.as_str() == "rebuild" => Some(Command::Rebuild),
        _ => None,
    }
}
