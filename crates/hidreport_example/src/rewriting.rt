//! What a caller proves of descriptors that are written anew or repaired.
ghost use Rattle.std.specs.Prelude.{◌≡◌, ◌≢◌, ◌↔◌, [], List, ℕ, false, Err, IfErr, IfOk, IfSome, IsOk, Ok};
ghost use Rattle.hidreport.specs.Answer.{IsOfItems};
ghost use Rattle.hidreport.specs.Entry.{Entry};
ghost use Rattle.hidreport.specs.Itemising.{Itemises};
ghost use Rattle.hidreport.specs.Options.{parse_as};
ghost use Rattle.hidreport.specs.Rebuilt.{canonical_entries, items_of, kept_entries, rebuilt_bytes};
ghost use Rattle.hidreport.specs.Spelling.{item_of};
ghost use Rattle.hidreport_example.specs.Refusals.{IsOfDescriptor};

use hidreport::hid::{ReportDescriptorItems, rebuild};
use hidreport::{ParseOptions, ParserError, RepairOptions, Repaired, ReportDescriptor, repair};
use std::alloc::Global;

/// A descriptor rebuilt twice: what is rebuilt is as it was; none where no item is kept.
pub fn rebuilt_twice(alloc: Global, bytes: &[u8]) -> Result<Option<(Vec<u8>, Vec<u8>)>, ParserError>
    ensures same { IfOk result (λ found. IfSome found (λ both. both.0.items ≡ both.1.items)) }
    ensures named { IfErr result IsOfItems }
{
    let first = rebuild(alloc, bytes)?;
    if first.is_empty() {
        return Ok(None);
    }
    let second = rebuild(alloc, &first)?;
    Ok(Some((first, second)))
}

/// A descriptor's items and its rebuilt bytes: these itemise to just the kept ones, and are those
/// of another descriptor just where that keeps the same items.
pub fn items_and_rebuilt(
    alloc: Global,
    bytes: &[u8],
) -> Result<(ReportDescriptorItems, Vec<u8>), ParserError>
    ensures again { IfOk result (λ both. both.1.items ≢ [] → Itemises item_of both.1.items
        (canonical_entries 0 (items_of (kept_entries both.0)))) }
    ensures alike { IfOk result (λ both. (other : List ℕ) (others : List Entry)
        → Itemises item_of other others → (rebuilt_bytes both.0 ≡ rebuilt_bytes others)
        ↔ (items_of (kept_entries both.0) ≡ items_of (kept_entries others))) }
    ensures named { IfErr result IsOfItems }
{
    let items = ReportDescriptorItems::try_from(alloc, bytes)?;
    let rebuilt = rebuild(alloc, bytes)?;
    Ok((items, rebuilt))
}

/// A descriptor that is read by the same options has nothing to be repaired.
pub fn repaired_as_it_is(
    alloc: Global,
    bytes: &[u8],
    options: RepairOptions,
) -> Result<Repaired, ParserError>
    requires signed { options.unsigned_maxima ≡ false }
    requires read { IsOk (parse_as options.parse bytes.now) }
    ensures bytes { IfOk result (λ repaired. repaired.bytes.items ≡ bytes.now) }
    ensures memory { IfErr result (λ error. error ≡ ParserError.OutOfMemory) }
{
    repair(alloc, bytes, options)
}

/// A descriptor that is read: nothing but memory can be wanting.
fn read_again(
    alloc: Global,
    bytes: &[u8],
    options: ParseOptions,
) -> Result<ReportDescriptor, ParserError>
    requires { IsOk (parse_as options bytes.now) }
    ensures { IfErr result (λ error. error ≡ ParserError.OutOfMemory) }
{
    ReportDescriptor::try_from_with(alloc, bytes, options)
}

/// A repair and what it is read as: where there is a repair, it is read.
pub fn repaired_and_read(
    alloc: Global,
    bytes: &[u8],
    options: RepairOptions,
) -> Result<(Repaired, ReportDescriptor), ParserError>
    ensures own_bytes { result ≢ Err ParserError.MismatchingReportId }
{
    let repaired = repair(alloc, bytes, options)?;
    let read = read_again(alloc, &repaired.bytes, options.parse)?;
    Ok((repaired, read))
}

/// A repair without limits passes none.
pub fn repair_by_default(alloc: Global, bytes: &[u8]) -> Result<Repaired, ParserError>
    ensures { IfErr result IsOfDescriptor }
{
    repair(alloc, bytes, RepairOptions::default())
}

/// A descriptor repaired twice: the second repair has the bytes of the first.
pub fn repaired_twice(
    alloc: Global,
    bytes: &[u8],
    options: RepairOptions,
) -> Result<(Repaired, Repaired), ParserError>
    requires { options.unsigned_maxima ≡ false }
    ensures { IfOk result (λ both. both.0.bytes.items ≡ both.1.bytes.items) }
{
    let first = repair(alloc, bytes, options)?;
    let second = repair(alloc, &first.bytes, options)?;
    Ok((first, second))
}
