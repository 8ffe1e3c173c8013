//! The lines of fields that differ, one for those behind each other that differ alike.
use crate::report_diff::Changed;
use hid_words::{Colour, add_field, add_name, add_page};
use hidreport::{Field, Report};
use std::alloc::AllocError;
use std::fmt::Write;

/// Fields behind each other that differ alike.
#[derive(Clone, Copy)]
struct Run<'a> {
    changed: &'a Changed<'a>,
    last: &'a Changed<'a>,
    count: usize,
}

/// Appends a line for each field, one for those behind each other that differ alike; in colour those
/// that one descriptor alone has.
pub fn add_runs(
    text: &mut String,
    fields: &[Changed],
    is_coloured: bool,
) -> Result<(), AllocError> {
    let mut run: Option<Run> = None;
    for changed in fields {
        run = match run {
            Some(before) if are_alike(before.last, changed) => Some(Run {
                changed: before.changed,
                last: changed,
                count: before.count.saturating_add(1),
            }),
            Some(before) => {
                add_run(text, before, is_coloured)?;
                Some(begun(changed))
            }
            None => Some(begun(changed)),
        };
    }
    match run {
        Some(run) => add_run(text, run, is_coloured),
        None => Ok(()),
    }
}

/// A run of one field.
fn begun<'a>(changed: &'a Changed<'a>) -> Run<'a> {
    Run {
        changed,
        last: changed,
        count: 1,
    }
}

/// Whether two fields differ from their pairs in the same parts, and by the same bits.
fn are_alike(before: &Changed, changed: &Changed) -> bool {
    match (moved_by(before), moved_by(changed)) {
        (Some(own), Some(other)) => own == other && before.parts.as_str() == changed.parts.as_str(),
        _ => false,
    }
}

/// The bits by which the first bit and the end of a field lie later than they did.
fn moved_by(changed: &Changed) -> Option<(i128, i128)> {
    let (before, now) = (changed.first?.bits(), changed.second?.bits());
    Some((
        i128::from(now.start as u64) - i128::from(before.start as u64),
        i128::from(now.end as u64) - i128::from(before.end as u64),
    ))
}

/// Appends a line for fields that differ alike.
fn add_run(text: &mut String, run: Run, is_coloured: bool) -> Result<(), AllocError> {
    let (changed, last) = (run.changed, run.last);
    match (changed.first, changed.second, last.first, last.second) {
        (Some(first), Some(second), Some(end), Some(end_now)) => {
            text.push_str("  ")?;
            add_short_name(text, first)?;
            if run.count != 1 {
                let count = run.count;
                text.push_str(" to ")?;
                add_short_name(text, end)?;
                write!(text, " ({count} fields)")?;
            }
            let (from, to) = (first.bits().start, end.bits().end);
            let (from_now, to_now) = (second.bits().start, end_now.bits().end);
            write!(text, " {from}..{to}")?;
            if (from, to) != (from_now, to_now) {
                write!(text, ", now {from_now}..{to_now}")?;
            }
            text.push_str(&changed.parts)?;
            text.push_str("\n")
        }
        (Some(first), _, _, _) => {
            Colour::Red.begin(text, is_coloured)?;
            add_lone(text, "- ", first)?;
            end_line(text, is_coloured)
        }
        (None, Some(second), _, _) => {
            Colour::Green.begin(text, is_coloured)?;
            add_lone(text, "+ ", second)?;
            end_line(text, is_coloured)
        }
        _ => Ok(()),
    }
}

/// Ends a line, and its colour.
fn end_line(text: &mut String, is_coloured: bool) -> Result<(), AllocError> {
    Colour::end(text, is_coloured)?;
    text.push_str("\n")
}

/// Appends what a field is called: an array by its page.
fn add_short_name(text: &mut String, field: &Field) -> Result<(), AllocError> {
    match field {
        Field::Array(field) => {
            if let Some(usage) = field.usages().first() {
                add_page(text, usage.usage_page)?;
            }
            text.push_str(" array")
        }
        _ => add_name(text, field),
    }
}

/// Appends a field that one descriptor alone has, without the line's end.
fn add_lone(text: &mut String, mark: &str, field: &Field) -> Result<(), AllocError> {
    text.push_str(mark)?;
    add_field(text, field, 2)
}
