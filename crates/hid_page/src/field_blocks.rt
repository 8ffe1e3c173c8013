//! The reports and fields in a page.
use crate::sheet::Sheet;
use anyhow::Result;
use hid_objects::field_object::add_field_object;
use hid_objects::line_object::{add_line_object, add_report_object};
use hid_report::{FieldLine, field_lines};
use hidreport::{Direction, RDescReport, Report, ReportDescriptor};

/// Writes the blocks of the reports with their lines and of the fields.
pub fn show_fields<R: AllocGlobal + Print>(
    rt: &R,
    descriptor: &ReportDescriptor,
    sheet: &mut Sheet,
) -> Result<()> {
    sheet.begin("lines")?;
    let mut most = sheet.left_out.most.fields;
    for direction in Direction::ALL {
        let reports = descriptor.reports(direction);
        most = show_reports(rt, direction, reports, sheet, most)?;
    }
    sheet.end()?;
    show_all_objects(rt, descriptor, sheet)
}

/// Writes reports with the lines of their first fields, so many at most; answers how many fields may
/// follow.
fn show_reports<R: AllocGlobal + Print>(
    rt: &R,
    direction: Direction,
    reports: &[RDescReport],
    sheet: &mut Sheet,
    most: usize,
) -> Result<usize> {
    let mut most = most;
    for report in reports {
        add_report_object(&mut sheet.lines, direction, report)?;
        sheet.take(rt)?;
        most = show_lines(rt, report, sheet, most)?;
    }
    Ok(most)
}

/// Writes the block of the first fields.
fn show_all_objects<R: Print>(
    rt: &R,
    descriptor: &ReportDescriptor,
    sheet: &mut Sheet,
) -> Result<()> {
    sheet.begin("fields")?;
    let (mut most, mut count) = (sheet.left_out.most.fields, 0usize);
    for direction in Direction::ALL {
        for report in descriptor.reports(direction) {
            most = show_objects(rt, direction, report, sheet, most)?;
            count = count.saturating_add(report.fields().len());
        }
    }
    sheet.left_out.fields = count.saturating_sub(sheet.left_out.most.fields);
    Ok(sheet.end()?)
}

/// Writes the lines of the first fields of a report, so many at most; answers how many fields may
/// follow.
fn show_lines<R: AllocGlobal + Print>(
    rt: &R,
    report: &RDescReport,
    sheet: &mut Sheet,
    most: usize,
) -> Result<usize> {
    if most == 0 {
        return Ok(0);
    }
    let mut most = most;
    let lines = field_lines(rt.alloc(), report, true)?;
    for line in lines.iter() {
        if most == 0 {
            break;
        }
        add_line_object(&mut sheet.lines, *line)?;
        sheet.take(rt)?;
        if let FieldLine::Fields(..) = line {
            most = most.saturating_sub(1);
        }
    }
    Ok(most)
}

/// Writes the first fields of a report, so many at most; answers how many may follow.
fn show_objects<R: Print>(
    rt: &R,
    direction: Direction,
    report: &RDescReport,
    sheet: &mut Sheet,
    most: usize,
) -> Result<usize> {
    let mut most = most;
    for field in report.fields() {
        if most == 0 {
            break;
        }
        add_field_object(&mut sheet.lines, direction, report, field)?;
        sheet.take(rt)?;
        most = most.saturating_sub(1);
    }
    Ok(most)
}
