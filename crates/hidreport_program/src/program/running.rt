//! A run of the program: its inputs are read, and then its text is written.
ghost use Rattle.std.specs.Prelude.{◌≡◌, ◌⊎◌, false, IfSome, IsErrOf, IsTrue, OnOk};
ghost use Rattle.std.specs.Io.KnownBytes.{IsAtEnd};
ghost use Rattle.hidreport_program.specs.Command.{reads_report, report_given};
ghost use Rattle.hidreport_program.specs.Output.{output};
ghost use Rattle.hidreport_program.specs.Run.{BeganWriting, Wrote};

use super::commands::Command;
use super::ending::Outcome;
use super::output::text_of;
use hidreport_transfer::{RunFault, Sink, Source, read_to_end, write_all};
use std::alloc::Global;

/// Reads a descriptor to its end, then a report where `command` reads one, and writes what the
/// command says of them. A report that isn't read is left as it is.
///
/// Answers `Done` after the command's text, and `Refused` after a line that says why there is
/// none. Refuses with `Read` where a reader has failed, and with `OutOfMemory` where memory ran
/// out: nothing is written then. Refuses with `Write` where the writer has failed: a beginning of
/// the text is written then. How much is read at most is the readers' (`Bounded`).
pub fn run<D: Source, R: Source, K: Sink>(
    alloc: Global,
    command: Command,
    descriptor: &mut D,
    report: &mut R,
    out: &mut K,
) -> Result<Outcome, RunFault>
    ensures descriptor_end { BeganWriting result → IsAtEnd (D.left descriptor.new) }
    ensures descriptor_sound { BeganWriting result → D.has_failed descriptor.new ≡ false }
    ensures report_end { IsTrue (reads_report command) → BeganWriting result
        → IsAtEnd (R.left report.new) }
    ensures report_sound { IsTrue (reads_report command) → BeganWriting result
        → R.has_failed report.new ≡ false }
    ensures report_unread { reads_report command ≡ false → report.new ≡ report.old }
    // A report is read only after a whole descriptor.
    ensures order { IsTrue (D.has_failed descriptor.new) → report.new ≡ report.old }
    ensures read_fault { IsErrOf result RunFault.Read → IsTrue (D.has_failed descriptor.new)
        ⊎ (IsTrue (reads_report command) × IsTrue (R.has_failed report.new)) }
    ensures write_fault { IsErrOf result RunFault.Write → IsTrue (K.has_failed out.new) }
    ensures out_sound { OnOk result (K.has_failed out.new ≡ false) }
    ensures unwritten { ¬ BeganWriting result → out.new ≡ out.old }
    // Where the readers tell their bytes, this is the text of what was read.
    ensures written { IfSome (D.left descriptor.old) (λ description.
        IfSome (report_given command (R.left report.old)) (λ bytes.
        Wrote result (output command description bytes) (K.taken out.old) (K.taken out.new))) }
{
    let description = read_to_end(alloc, descriptor)?;
    let mut bytes = Vec::new(alloc);
    if command.reads_report() {
        bytes = read_to_end(alloc, report)?;
    }
    let Ok(written) = text_of(alloc, command, &description, &bytes) else {
        return Err(RunFault::OutOfMemory);
    };
    write_all(out, written.text.as_bytes())?;
    Ok(written.outcome)
}
