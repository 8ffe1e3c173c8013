//! What a caller proves by the library's laws, from its public clauses alone.
ghost use Rattle.std.specs.Prelude.{◌≡◌, IfOk, IfSome};
ghost use Rattle.hidreport_example.specs.Laws.{FieldsAreApart, HasNoPushItem, IsRebuilt, LacksSegment};

use hidreport::hid::{ReportDescriptorItems, rebuild};
use hidreport::{ParseOptions, ParserError, ReportDescriptor};
use std::alloc::Global;

/// A descriptor by options, and what its rebuilt bytes announce by them: the same; none where no item
/// is kept.
pub fn read_again(
    alloc: Global,
    bytes: &[u8],
    options: ParseOptions,
) -> Result<Option<(ReportDescriptor, ReportDescriptor)>, ParserError>
    ensures { IfOk result (λ found. IfSome found (λ both. both.0 ≡ both.1)) }
{
    let first = ReportDescriptor::try_from_with(alloc, bytes, options)?;
    let rebuilt = rebuilt_of(alloc, bytes)?;
    if rebuilt.is_empty() {
        return Ok(None);
    }
    let again = ReportDescriptor::try_from_with(alloc, &rebuilt, options)?;
    Ok(Some((first, again)))
}

/// The rebuilt bytes of a descriptor; no bytes where no item is kept.
fn rebuilt_of(alloc: Global, bytes: &[u8]) -> Result<Vec<u8>, ParserError>
    ensures { IfOk result (λ written. IsRebuilt bytes.now written.items) }
{
    let _items = ReportDescriptorItems::try_from(alloc, bytes)?;
    let rebuilt = rebuild(alloc, bytes)?;
    Ok(rebuilt)
}

/// A descriptor by both readings of Push: the same where there is no Push.
pub fn read_by_both(
    alloc: Global,
    bytes: &[u8],
) -> Result<(ReportDescriptor, ReportDescriptor), ParserError>
    ensures { HasNoPushItem bytes.now → IfOk result (λ both. both.0 ≡ both.1) }
{
    let locals = ReportDescriptor::try_from(alloc, bytes)?;
    let globals = ReportDescriptor::try_from_globals_only(alloc, bytes)?;
    Ok((locals, globals))
}

/// A descriptor: of two fields of one of its input reports the bits of the first lie before those
/// of the second, so none covers a bit of the other.
pub fn read_apart(alloc: Global, bytes: &[u8]) -> Result<ReportDescriptor, ParserError>
    ensures { IfOk result FieldsAreApart }
{
    ReportDescriptor::try_from(alloc, bytes)
}

/// Two descriptors, of which the second lacks a Push, some matched items and its Pop: what is read
/// of them by any options is the same, so each report has the same values. Where a Push keeps globals
/// alone no local item is among the matched ones.
pub fn read_without_segment(
    alloc: Global,
    bytes: &[u8],
    without: &[u8],
    options: ParseOptions,
) -> Result<(ReportDescriptor, ReportDescriptor), ParserError>
    ensures { LacksSegment options.push_keeps bytes.now without.now
        → IfOk result (λ both. both.0 ≡ both.1) }
{
    let first = ReportDescriptor::try_from_with(alloc, bytes, options)?;
    let second = ReportDescriptor::try_from_with(alloc, without, options)?;
    Ok((first, second))
}
