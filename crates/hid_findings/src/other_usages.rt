//! Where the letter of the standard gives fields other usages than hosts read.
use crate::finding::{Finding, tell};
use crate::rule::Rule;
use hid_input::settings::Settings;
use hid_report::add_title;
use hid_words::{add_name, fault_offset, fault_words};
use hidreport::{
    Direction, Field, ParseOptions, ParserError, RDescReport, Report, ReportDescriptor, UsagesBy,
};
use std::alloc::{AllocError, Global};
use std::fmt::Write;

/// Notes the first field of each report that has other usages by the letter of the standard, and how
/// many more have; or why the descriptor is refused by it.
pub fn tell_other_usages(
    alloc: Global,
    settings: &Settings,
    bytes: &[u8],
    read: &ReportDescriptor,
    findings: &mut Vec<Finding>,
) -> Result<(), AllocError> {
    let options = ParseOptions {
        usages: UsagesBy::Standard,
        ..settings.parse
    };
    match ReportDescriptor::try_from_with(alloc, bytes, options) {
        Ok(other) => tell_reports(alloc, read, &other, findings),
        Err(ParserError::OutOfMemory) => Err(AllocError),
        Err(fault) => tell_fault(alloc, &fault, findings),
    }
}

fn tell_fault(
    alloc: Global,
    fault: &ParserError,
    findings: &mut Vec<Finding>,
) -> Result<(), AllocError> {
    let mut remark = String::from_str(alloc, fault_words(fault))?;
    remark.push_str(", by the letter of the standard; hosts read it")?;
    let offset = fault_offset(fault);
    tell(findings, offset, &remark, Rule::RefusedByStandard)
}

fn tell_reports(
    alloc: Global,
    read: &ReportDescriptor,
    other: &ReportDescriptor,
    findings: &mut Vec<Finding>,
) -> Result<(), AllocError> {
    for direction in Direction::ALL {
        for report in read.reports(direction) {
            let id = report.report_id();
            if let Some(by_standard) = other.report(direction, *id) {
                tell_report(alloc, direction, report, by_standard, findings)?;
            }
        }
    }
    Ok(())
}

fn tell_report(
    alloc: Global,
    direction: Direction,
    report: &RDescReport,
    by_standard: &RDescReport,
    findings: &mut Vec<Finding>,
) -> Result<(), AllocError> {
    let mut more: usize = 0;
    let mut first = None;
    for (field, other) in report.fields().iter().zip(by_standard.fields()) {
        if have_same_usages(field, other) {
            continue;
        }
        if first.is_none() {
            first = Some((field, other));
        } else {
            more = more.saturating_add(1);
        }
    }
    let Some((field, other)) = first else {
        return Ok(());
    };
    let mut remark = String::new(alloc);
    add_title(&mut remark, direction, report)?;
    add_both(&mut remark, field, other, more)?;
    tell(findings, None, &remark, Rule::OtherUsages)
}

/// Appends what a field is for as hosts read it and by the letter of the standard.
fn add_both(
    text: &mut String,
    field: &Field,
    other: &Field,
    more: usize,
) -> Result<(), AllocError> {
    let (start, end) = (field.bits().start, field.bits().end);
    write!(text, ": bits {start}..{end} are ")?;
    add_name(text, field)?;
    text.push_str(" to hosts, ")?;
    add_name(text, other)?;
    text.push_str(" by the letter of the standard")?;
    if more > 0 {
        write!(text, "; {more} more differ")?;
    }
    Ok(())
}

fn have_same_usages(field: &Field, other: &Field) -> bool {
    let (own, others) = (field.usages(), other.usages());
    own.len() == others.len()
        && own
            .iter()
            .zip(others)
            .all(|(usage, other)| u32::from(usage) == u32::from(other))
}
