//! A command with the names of its files.
ghost use Rattle.std.specs.Prelude.{◌≡◌, ◌+◌, IfSome, IsNone, Some, map, option_copied, slice_get, string_bytes};
ghost use Rattle.hidreport_program.specs.Command.{AsksFor, file_index};

use super::commands::{Command, command_of};

/// A command and the files that it reads.
#[derive(Clone, Copy, Debug)]
pub struct Request<'a> {
    /// What is to be done.
    pub command: Command,
    /// The name of the descriptor's file.
    pub file: &'a str,
    /// The name of the report's file, where the command reads one.
    pub report: Option<&'a str>,
}

/// What `words` ask for, the words after the program's name: the command, and the words behind it,
/// and behind a limit, as the files' names.
///
/// Every word is a name as it stands; `-` is one too.
pub fn request_of(words: &[String]) -> Option<Request<'_>>
    ensures asked { IfSome result (λ request. AsksFor
        (map string_bytes words.now) request.command) }
    ensures wrong { IsNone result → (command : Command)
        → ¬ AsksFor (map string_bytes words.now) command }
    ensures file { IfSome result (λ request. slice_get (map string_bytes words.now)
        (file_index request.command) ≡ Some request.file.now) }
    ensures report { IfSome result (λ request. slice_get (map string_bytes words.now)
        (file_index request.command + 1) ≡ option_copied request.report) }
{
    let command = command_of(words)?;
    match words {
        [_, file] => Some(Request {
            command,
            file: file.as_str(),
            report: None,
        }),
        [_, file, report] | [_, _, file, report] => Some(Request {
            command,
            file: file.as_str(),
            report: Some(report.as_str()),
        }),
        _ => None,
    }
}
