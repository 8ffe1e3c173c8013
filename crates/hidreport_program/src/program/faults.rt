//! What the program ends with: its status, and the line of a fault.
ghost use Rattle.std.specs.Prelude.{◌≡◌};
ghost use Rattle.hidreport_program.specs.Ending.{fault_line, status};

use super::ending::Outcome;
use hidreport_transfer::RunFault;

/// Why the program ends without an outcome.
#[derive(Debug, Clone, Copy, PartialEq)]
pub enum Fault {
    /// The words ask for nothing, or the system refuses to give them.
    Arguments,
    /// A file can't be opened.
    Open,
    /// The run was cut short.
    Run(RunFault),
}

/// The status that the program ends with: 0 done, 1 refused, 2 for every fault.
pub fn status_of(answer: Result<Outcome, Fault>) -> u8
    ensures { result ≡ status answer }
{
    match answer {
        Ok(Outcome::Done) => 0,
        Ok(Outcome::Refused) => 1,
        Err(_) => 2,
    }
}

/// The line that tells a fault.
pub fn line_of(fault: Fault) -> &'static str
    ensures { result.now ≡ fault_line fault }
{
    match fault {
        Fault::Arguments => {
            "usage: hidreport items FILE | values FILE REPORT | values-within LIMIT FILE REPORT | values-globals FILE REPORT | values-globals-within LIMIT FILE REPORT | rebuild FILE"
        }
        Fault::Open => "fault: open",
        Fault::Run(RunFault::Read) => "fault: read",
        Fault::Run(RunFault::Write) => "fault: write",
        Fault::Run(RunFault::OutOfMemory) => "fault: memory",
    }
}
