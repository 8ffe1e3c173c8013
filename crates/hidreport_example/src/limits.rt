//! What a caller proves of the errors that can come, and of what a descriptor may ask for.
ghost use Rattle.std.specs.Prelude.{◌≡◌, ◌≢◌, ◌<◌, ◌≤◌, Err, IfErr, IfOk, IfSome, Ok, length};
ghost use Rattle.hidreport.specs.Answer.{Answers, BudgetExceeded};
ghost use Rattle.hidreport.specs.Meaning.{parse, parse_by};
ghost use Rattle.hidreport.specs.Options.{reading_of};
ghost use Rattle.hidreport.specs.Weight.{descriptor_weight};
ghost use Rattle.hidreport_example.specs.Refusals.{IsOfDescriptor};

use hidreport::{ParseOptions, ParserError, ReportDescriptor};
use std::alloc::Global;

/// A descriptor by the default options: without a limit none is passed, and no report's id is
/// looked at.
pub fn read_by_default(alloc: Global, bytes: &[u8]) -> Result<ReportDescriptor, ParserError>
    ensures { IfErr result IsOfDescriptor }
{
    ReportDescriptor::try_from_with(alloc, bytes, ParseOptions::default())
}

/// The same by the call that has no options.
pub fn read(alloc: Global, bytes: &[u8]) -> Result<ReportDescriptor, ParserError>
    ensures { IfErr result IsOfDescriptor }
{
    ReportDescriptor::try_from(alloc, bytes)
}

/// The same where a Push keeps globals alone.
pub fn read_globals_only(alloc: Global, bytes: &[u8]) -> Result<ReportDescriptor, ParserError>
    ensures { IfErr result IsOfDescriptor }
{
    ReportDescriptor::try_from_globals_only(alloc, bytes)
}

/// A descriptor of bytes that nobody vouches for, none where it asks for more than a limit: what is
/// given weighs no more, and is what is read without a limit.
pub fn read_within(
    alloc: Global,
    bytes: &[u8],
    limit: usize,
) -> Result<Option<ReportDescriptor>, ParserError>
    ensures light { IfOk result (λ found.
        IfSome found (λ descriptor. descriptor_weight descriptor ≤ limit)) }
    ensures whole { IfOk result (λ found.
        IfSome found (λ descriptor. parse bytes.now ≡ Ok descriptor)) }
    ensures own_bytes { result ≢ Err ParserError.MismatchingReportId }
{
    match ReportDescriptor::try_from_within(alloc, bytes, limit) {
        Ok(descriptor) => Ok(Some(descriptor)),
        Err(ParserError::BudgetExceeded { .. }) => Ok(None),
        Err(error) => Err(error),
    }
}

/// The same by options.
pub fn read_by_options(
    alloc: Global,
    bytes: &[u8],
    options: ParseOptions,
) -> Result<ReportDescriptor, ParserError>
    ensures light { IfOk result (λ descriptor.
        IfSome options.limit (λ limit. descriptor_weight descriptor ≤ limit)) }
    ensures whole { IfOk result (λ descriptor.
        parse_by (reading_of options) bytes.now ≡ Ok descriptor) }
    ensures own_bytes { result ≢ Err ParserError.MismatchingReportId }
{
    ReportDescriptor::try_from_with(alloc, bytes, options)
}

/// A descriptor by the bounds for bytes that nobody vouches for: 65,536 is the most that it may
/// list, and the most bytes that it may have.
pub fn read_bounded(alloc: Global, bytes: &[u8]) -> Result<ReportDescriptor, ParserError>
    ensures light { IfOk result (λ descriptor. descriptor_weight descriptor ≤ 65536) }
    ensures long { 65536 < length bytes.now → Answers result (Err (BudgetExceeded 65536)) }
{
    ReportDescriptor::try_from_with(alloc, bytes, ParseOptions::bounded())
}
