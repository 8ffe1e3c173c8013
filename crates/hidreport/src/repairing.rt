//! Descriptors that hosts accept, made such as are read.
ghost use Rattle.std.specs.Prelude.{◌≡◌, ◌≢◌, ◌⊎◌, ℕ, [], false, Err, IfErr, IfOk, IsOk, IsTrue, None, Ok};
ghost use Rattle.hidreport_lists.specs.Answer.{AnswersBy};
ghost use Rattle.hidreport.specs.Options.{parse_as};
ghost use Rattle.hidreport.specs.Repair.{mending, repaired, repaired_view};
ghost use Rattle.hidreport.specs.RepairLaws.{IsRepairOf, KeepsBits, RebuildsAlike, StaysRepaired};
ghost use Rattle.hidreport.specs.Taken.{IsOfLimits, IsReadIfAny, IsTakenByHosts, LeavesNothing};

mod change;
mod mending;
mod repair_options;

use crate::outline::Outline;
use crate::parse_options::ParseOptions;
pub use change::{Change, Repaired};
use hidreport_lists::{ParserError, pieces};
use mending::mend_all;
pub use repair_options::RepairOptions;
use std::alloc::Global;

/// Repairs a descriptor that hosts accept, as Linux's hid-core reads it, so that `try_from_with`
/// reads it by these options (Section 6.2.2).
///
/// An item that needs data and has none gets the data 0. A main item whose tag the standard doesn't
/// know is left out, with the local items that would have been its own. An Input, Output or Feature
/// that makes fields with data and has no usages becomes padding of the same size, its flag
/// Constant set. Where it is asked for, a negative maximum is written without a sign where no
/// negative minimum is in force (`25 ff` as `26 ff 00`), and an item that is cut short is left out.
/// Each other item stands as it stood, in order.
///
/// What is written is read by these options (`accepted`); what no change names stands as it stood,
/// in order (`kept`); each field lies in the bits of its report where the items that hid-core reads
/// put it (`bits`); and a descriptor that is read stays as it is, without a change, unless maxima
/// are asked for (`untouched`). So a second repair changes nothing, unless it asks for maxima
/// (`again`), and what `hid::rebuild` writes of the repair is read as the repair is (`rebuilt`).
///
/// # Errors
///
/// - `BudgetExceeded` with the number `longest`: there are more bytes than that.
/// - `InvalidData` at the item's offset, `Insufficient data`: an item is cut short, and it isn't
///   left out.
/// - The first fault of meaning that stays, as `ReportDescriptor::try_from_with` says it, with its
///   offset in the bytes that were given: `InvalidData`, `OutOfBounds` or `BudgetExceeded`.
/// - `InvalidData` at 0, `Empty report descriptor`: there are no bytes, or none stay.
/// - `BudgetExceeded` with the number `longest`: the repaired bytes are more than that.
/// - `OutOfMemory`: memory is refused; this says nothing of the bytes.
///
/// `MismatchingReportId` never comes (`own_bytes`), nor without `limit` and `longest`
/// `BudgetExceeded` (`unlimited`).
///
/// # Examples
///
/// ```rust
/// use hidreport::{RepairOptions, repair};
///
/// // An Input that lacks usages becomes padding.
/// let repaired = repair(alloc, b"\x75\x08\x95\x01\x81\x02", RepairOptions::default())?;
/// assert_eq!(rt; repaired.bytes.as_slice(), b"\x75\x08\x95\x01\x81\x03".as_slice());
/// assert_eq!(rt; repaired.changes.len(), 1);
/// ```
pub fn repair(alloc: Global, bytes: &[u8], options: RepairOptions) -> Result<Repaired, ParserError>
    ensures exact { AnswersBy repaired_view result (repaired options bytes.now) }
    ensures untouched { options.unsigned_maxima ≡ false → IsOk (parse_as options.parse bytes.now)
        → AnswersBy repaired_view result (Ok (record { bytes = bytes.now; changes = [] })) }
    ensures kept { IfOk result (λ repaired. IsRepairOf bytes.now (repaired_view repaired)) }
    ensures bits { IfOk result (λ repaired. KeepsBits options bytes.now (repaired_view repaired)) }
    ensures accepted { IfOk result (λ repaired. IsOk (parse_as options.parse repaired.bytes.items)) }
    ensures again { IfOk result (λ repaired. StaysRepaired options (repaired_view repaired)) }
    ensures rebuilt { IfOk result (λ repaired. RebuildsAlike options (repaired_view repaired)) }
    ensures taken { IsTakenByHosts options bytes.now → IfErr result
        (λ e. IsOfLimits e ⊎ LeavesNothing (mending options bytes.now)) }
    ensures own_bytes { result ≢ Err ParserError.MismatchingReportId }
    ensures unlimited { options.parse.limit ≡ None → options.parse.longest ≡ None
        → (offset : ℕ) → result ≢ Err (ParserError.BudgetExceeded offset) }
{
    mended(alloc, bytes, options)
}

/// Mends a descriptor as `repair` does, and doesn't ask whether what is written is read.
///
/// What hosts take is mended, and what is written of it is read by the same options, unless a limit
/// refuses it, or nothing of it is left, as of `00` (`taken`, `read`).
///
/// # Errors
///
/// - `BudgetExceeded` with the number `longest`: there are more bytes than that.
/// - `InvalidData` at the item's offset, `Insufficient data`: an item is cut short, and it isn't
///   left out.
/// - The first fault of meaning that stays, as `repair` says it; without `limit` and `longest` it is
///   no `BudgetExceeded` (`unlimited`).
/// - `OutOfMemory`: memory is refused; this says nothing of the bytes.
pub fn mend(alloc: Global, bytes: &[u8], options: RepairOptions) -> Result<Repaired, ParserError>
    ensures exact { AnswersBy repaired_view result (mending options bytes.now) }
    ensures taken { IsTakenByHosts options bytes.now → IfErr result IsOfLimits }
    ensures read { IsTakenByHosts options bytes.now
        → IfOk result (λ mended. IsReadIfAny options.parse mended.bytes.items) }
    ensures unlimited { options.parse.limit ≡ None → options.parse.longest ≡ None
        → (offset : ℕ) → result ≢ Err (ParserError.BudgetExceeded offset) }
{
    mend_whole(alloc, bytes, options)
}

/// What `mend` answers, by the definition alone.
fn mend_whole(alloc: Global, bytes: &[u8], options: RepairOptions) -> Result<Repaired, ParserError>
    ensures { AnswersBy repaired_view result (mending options bytes.now) }
{
    if let Some(offset) = options.parse.past_longest(bytes.len()) {
        return Err(ParserError::BudgetExceeded { offset });
    }
    let mut pieces = pieces(alloc, bytes, options.leave_out_cut_short)?;
    mend_all(alloc, pieces.as_mut_slice(), options)?;
    let mended = Repaired::of(alloc, pieces.as_slice())?;
    Ok(mended)
}

/// What `repair` answers, by the definition alone: what is read needs no repair; of all else each
/// piece is mended, and it is read then.
fn mended(alloc: Global, bytes: &[u8], options: RepairOptions) -> Result<Repaired, ParserError>
    ensures { AnswersBy repaired_view result (repaired options bytes.now) }
{
    if !options.unsigned_maxima && is_read(alloc, bytes, options.parse) {
        let unchanged = Repaired::unchanged(alloc, bytes)?;
        return Ok(unchanged);
    }
    let repaired = mend_whole(alloc, bytes, options)?;
    Outline::try_from_with(alloc, repaired.bytes.as_slice(), options.parse)?;
    Ok(repaired)
}

/// Whether bytes are read by these options.
fn is_read(alloc: Global, bytes: &[u8], options: ParseOptions) -> bool
    ensures { IsTrue result → IsOk (parse_as options bytes.now) }
{
    match Outline::try_from_with(alloc, bytes, options) {
        Ok(_outline) => true,
        Err(_fault) => false,
    }
}
