//! Reports: what they are called, what their bytes say, and their bits as rows.
//! Licence: MIT (LICENSE).
#![tactic(auto)]

mod alike_fields;
mod block;
mod choices;
mod field_line;
mod id_runs;
mod line;
mod line_style;
mod reading;
mod rows;
mod same_reports;
mod svg;

use anyhow::Result;
pub use block::Block;
pub use choices::{add_choice, add_choices};
pub use field_line::{FieldLine, around, field_lines};
use hid_words::{plural, title_of, word_of};
use hidreport::{Direction, RDescReport, Report, ReportDescriptor};
pub use line::Lines;
pub use line_style::LineStyle;
pub use reading::{Amount, Choice, amount_of, choice_of, element_width, is_outside, readable};
pub use rows::{Cell, Row, more_rows, rows_of};
pub use same_reports::SameReports;
use std::alloc::AllocError;
use std::fmt::Write;
pub use svg::{Picture, height_of};

/// Appends a report's direction and id.
pub fn add_title(
    text: &mut String,
    direction: Direction,
    report: &RDescReport,
) -> Result<(), AllocError> {
    text.push_str(title_of(direction))?;
    match report.report_id() {
        Some(id) => write!(text, " {id}"),
        None => Ok(()),
    }
}

/// Appends the line that names a report.
pub fn add_head(
    text: &mut String,
    direction: Direction,
    report: &RDescReport,
) -> Result<(), AllocError> {
    add_title(text, direction, report)?;
    add_size(text, report)?;
    text.push_str("\n")
}

/// Appends how many bits and bytes a report has.
fn add_size(text: &mut String, report: &RDescReport) -> Result<(), AllocError> {
    let (bits, bytes) = (report.size_in_bits(), report.size_in_bytes());
    let (one, other) = (plural(bits), plural(bytes));
    write!(text, ": {bits} bit{one}, {bytes} byte{other}")
}

/// Appends which reports of a direction there are: their ids, and whether one has none.
pub fn add_reports(
    text: &mut String,
    descriptor: &ReportDescriptor,
    direction: Direction,
) -> Result<(), AllocError> {
    let reports = descriptor.reports(direction);
    if reports.is_empty() {
        return text.push_str("none");
    }
    let mut gap = if reports.len() == 1 { "id " } else { "ids " };
    let mut has_none = false;
    for report in reports {
        match report.report_id() {
            Some(id) => {
                write!(text, "{gap}{id}")?;
                gap = ", ";
            }
            None => has_none = true,
        }
    }
    match (has_none, reports.len()) {
        (false, _) => Ok(()),
        (true, 1) => text.push_str("one without an id"),
        (true, _) => text.push_str(" and one without"),
    }
}

/// Says on standard error where a direction has reports with an id behind one without, as which all
/// bytes are read (Section 5.6).
pub fn tell_mixed<R: Eprint>(
    rt: &R,
    descriptor: &ReportDescriptor,
    direction: Direction,
) -> Result<()> {
    let mut reports = descriptor.reports(direction).iter();
    let is_without = reports
        .next()
        .is_some_and(|report| report.report_id().is_none());
    if is_without && reports.any(|report| report.report_id().is_some()) {
        let word = word_of(direction);
        eprintln!(rt;
            "hid: {word} reports with an id and one without: bytes are read as the one without"
        )?;
    }
    Ok(())
}

/// Says on standard error how many reports are of none of the descriptors, if any is.
pub fn tell_unknown<R: Eprint>(rt: &R, count: u64) -> Result<()> {
    match count {
        0 => Ok(()),
        1 => Ok(eprintln!(rt; "hid: 1 report isn't of this descriptor")?),
        _ => Ok(eprintln!(rt; "hid: {count} reports aren't of this descriptor")?),
    }
}

/// Says on standard error where a report has more bytes or fewer than it should.
pub fn tell_size<R: Eprint>(rt: &R, report: &RDescReport, bytes: &[u8]) -> Result<()> {
    let (wanted, got) = (report.size_in_bytes(), bytes.len());
    if got < wanted {
        let s = plural(got);
        eprintln!(rt;
            "hid: the report has {got} byte{s} of {wanted}; what is missing isn't shown"
        )?;
    } else if wanted < got {
        let (s, verb) = (plural(got), if wanted == 1 { "is" } else { "are" });
        eprintln!(rt; "hid: the report has {got} byte{s}, of which {wanted} {verb} read")?;
    }
    Ok(())
}
