//! The whole text of a command.
ghost use Rattle.std.specs.Prelude.{◌≡◌, ◌<◌, IfOk, IsSomeAnd, string_bytes, string_len};
ghost use Rattle.hidreport_items.specs.Spelling.{item_of};
ghost use Rattle.hidreport_lists.specs.Itemising.{as_refusal, itemise};
ghost use Rattle.hidreport_lists.specs.Rebuilt.{rebuild_answer};
ghost use Rattle.hidreport.specs.Lookup.{find_report};
ghost use Rattle.hidreport.specs.Options.{parse_limited, reading_by};
ghost use Rattle.hidreport.specs.declared.parser.usages_by.UsagesBy.TheVariants as usages_by;
ghost use Rattle.hidreport_program.specs.Lines.{refusal_line};
ghost use Rattle.hidreport_program.specs.Output.{output, found_output, items_output, rebuild_output, refusal_of, values_output};

use super::commands::Command;
use super::ending::Outcome;
use super::fields::add_report;
use super::items::add_items;
use super::numbers::add_bytes;
use hidreport::hid::{ReportDescriptorItems, rebuild};
use hidreport::{ParseOptions, ParserError, PushKeeps, ReportDescriptor, UsagesBy};
use std::alloc::{AllocError, Global};

/// A whole text, and whether it is the command's or a refusal.
#[derive(Debug, Drop)]
pub struct Written {
    /// The text, never empty.
    pub text: String,
    /// What it is.
    pub outcome: Outcome,
}

/// What `command` writes of a descriptor's and a report's bytes.
///
/// The text isn't empty. Refuses only where memory runs out.
#[tactic(auto, unfolding(crate::specs::Output::output))]
pub fn text_of(
    alloc: Global,
    command: Command,
    descriptor: &[u8],
    report: &[u8],
) -> Result<Written, AllocError>
    ensures some { IfOk result (λ w. 0 < string_len w.text) }
    ensures text { IfOk result (λ w.
        string_bytes w.text ≡ (output command descriptor.now report.now).text) }
    ensures outcome { IfOk result (λ w.
        w.outcome ≡ (output command descriptor.now report.now).outcome) }
{
    match command {
        Command::Items => items(alloc, descriptor),
        Command::Values => values(alloc, PushKeeps::All, None, descriptor, report),
        Command::ValuesWithin(limit) => {
            values(alloc, PushKeeps::All, Some(limit), descriptor, report)
        }
        Command::ValuesGlobals => values(alloc, PushKeeps::Globals, None, descriptor, report),
        Command::ValuesGlobalsWithin(limit) => {
            values(alloc, PushKeeps::Globals, Some(limit), descriptor, report)
        }
        Command::Rebuild => rebuilt(alloc, descriptor),
    }
}

/// What `items` writes of a descriptor's bytes: some text, since there is an item or a refusal.
fn items(alloc: Global, descriptor: &[u8]) -> Result<Written, AllocError>
    ensures some { IfOk result (λ w. 0 < string_len w.text) }
    ensures text { IfOk result (λ w. string_bytes w.text
        ≡ (items_output (as_refusal (itemise item_of descriptor.now))).text) }
    ensures outcome { IfOk result (λ w. w.outcome
        ≡ (items_output (as_refusal (itemise item_of descriptor.now))).outcome) }
{
    match ReportDescriptorItems::try_from(alloc, descriptor) {
        Ok(items) => {
            let mut text = String::new(alloc);
            add_items(&mut text, items.as_slice())?;
            let outcome = Outcome::Done;
            Ok(Written { text, outcome })
        }
        Err(error) => refused(alloc, &error),
    }
}

/// What `rebuild` writes of a descriptor's bytes.
fn rebuilt(alloc: Global, descriptor: &[u8]) -> Result<Written, AllocError>
    ensures text { IfOk result (λ w. string_bytes w.text
        ≡ (rebuild_output (as_refusal (rebuild_answer (itemise item_of descriptor.now)))).text) }
    ensures outcome { IfOk result (λ w. w.outcome
        ≡ (rebuild_output (as_refusal (rebuild_answer (itemise item_of descriptor.now)))).outcome) }
{
    match rebuild(alloc, descriptor) {
        Ok(bytes) => {
            let mut text = String::new(alloc);
            add_bytes(&mut text, &bytes)?;
            text.push_str("\n")?;
            let outcome = Outcome::Done;
            Ok(Written { text, outcome })
        }
        Err(error) => refused(alloc, &error),
    }
}

/// What `values` and its siblings write of a descriptor's and a report's bytes.
fn values(
    alloc: Global,
    push_keeps: PushKeeps,
    limit: Option<usize>,
    descriptor: &[u8],
    report: &[u8],
) -> Result<Written, AllocError>
    ensures text { IfOk result (λ w. string_bytes w.text ≡ (values_output
        (parse_limited (reading_by push_keeps usages_by.Standard) limit descriptor.now) report.now).text) }
    ensures outcome { IfOk result (λ w. w.outcome ≡ (values_output
        (parse_limited (reading_by push_keeps usages_by.Standard) limit descriptor.now) report.now).outcome) }
{
    let options = ParseOptions {
        push_keeps,
        usages: UsagesBy::Standard,
        limit,
        longest: None,
    };
    match ReportDescriptor::try_from_with(alloc, descriptor, options) {
        Ok(announced) => found(alloc, &announced, report),
        Err(error) => refused(alloc, &error),
    }
}

/// The values of the input report that `bytes` are of, or that there is none.
fn found(alloc: Global, descriptor: &ReportDescriptor, bytes: &[u8]) -> Result<Written, AllocError>
    ensures text { IfOk result (λ w.
        string_bytes w.text ≡ (found_output
        (find_report descriptor.now.input bytes.now) bytes.now).text) }
    ensures outcome { IfOk result (λ w.
        w.outcome ≡ (found_output (find_report descriptor.now.input bytes.now) bytes.now).outcome) }
{
    match descriptor.find_input_report(bytes) {
        Some(report) => {
            let mut text = String::new(alloc);
            add_report(&mut text, report, bytes)?;
            let outcome = Outcome::Done;
            Ok(Written { text, outcome })
        }
        None => {
            let text = String::from_str(alloc, "refused: no report\n")?;
            let outcome = Outcome::Refused;
            Ok(Written { text, outcome })
        }
    }
}

/// The line that says why a descriptor is refused.
fn refused(alloc: Global, error: &ParserError) -> Result<Written, AllocError>
    ensures text { IfOk result (λ w. IsSomeAnd (refusal_of error.now) (λ refusal.
        string_bytes w.text ≡ refusal_line refusal)) }
    ensures outcome { IfOk result (λ w. w.outcome ≡ Outcome.Refused) }
{
    let text = refusal_text(alloc, error)?;
    let outcome = Outcome::Refused;
    Ok(Written { text, outcome })
}

fn refusal_text(alloc: Global, error: &ParserError) -> Result<String, AllocError>
    ensures { IfOk result (λ text. IsSomeAnd (refusal_of error.now) (λ refusal.
        string_bytes text ≡ refusal_line refusal)) }
{
    match error {
        ParserError::InvalidData { offset, message } => {
            format!(in alloc; "refused: invalid data at offset {offset}: {message}\n")
        }
        ParserError::OutOfBounds | ParserError::MismatchingReportId => {
            String::from_str(alloc, "refused: out of bounds\n")
        }
        ParserError::BudgetExceeded { offset } => {
            format!(in alloc; "refused: budget exceeded at offset {offset}\n")
        }
        ParserError::OutOfMemory => Err(AllocError),
    }
}
