//! What is odd in the reports of a descriptor, and what the standard says.
use crate::finding::{Finding, tell};
use crate::rule::Rule;
use hid_report::add_title;
use hidreport::{Collection, Direction, Field, RDescReport, Report, ReportDescriptor};
use std::alloc::AllocError;

/// The most bytes of an interrupt transaction at full speed (USB 2.0, 5.7.3).
const TRANSACTION: usize = 64;

/// Usages of Digitizers.
const TOUCH_PAD: u32 = 0x000d_0005;

const CONTACT_ID: u32 = 0x000d_0051;

const CONTACT_COUNT_MAXIMUM: u32 = 0x000d_0055;

/// Notes what is odd in each report.
pub fn tell_reports(
    descriptor: &ReportDescriptor,
    findings: &mut Vec<Finding>,
) -> Result<(), AllocError> {
    let have_ids = have_ids(descriptor);
    for direction in Direction::ALL {
        for report in descriptor.reports(direction) {
            tell_size(direction, report, findings)?;
            tell_fields(direction, report, findings)?;
            tell_transactions(direction, report, findings)?;
            if have_ids && !has_id(report) {
                let said = ": it has no id, and others have";
                tell_report(direction, report, said, Rule::ReportWithoutId, findings)?;
            }
        }
    }
    tell_contacts(descriptor, findings)
}

/// Notes that a touch pad which names its contacts doesn't say how many it has.
fn tell_contacts(
    descriptor: &ReportDescriptor,
    findings: &mut Vec<Finding>,
) -> Result<(), AllocError> {
    let mut is_touch_pad = false;
    for report in descriptor.reports(Direction::Input) {
        is_touch_pad = is_touch_pad || report.fields().iter().any(is_contact_of_pad);
    }
    let mut says_maximum = false;
    for report in descriptor.reports(Direction::Feature) {
        says_maximum = says_maximum || report.fields().iter().any(is_contact_maximum);
    }
    if !is_touch_pad || says_maximum {
        return Ok(());
    }
    let remark = "a Touch Pad with contacts has no Feature for Contact Count Maximum";
    tell(findings, None, remark, Rule::NoContactMaximum)
}

/// Whether a field is the id of a contact in a Touch Pad.
fn is_contact_of_pad(field: &Field) -> bool {
    let is_in_pad = match field.collections().first() {
        Some(outermost) => outermost
            .usages()
            .iter()
            .any(|usage| u32::from(usage) == TOUCH_PAD),
        None => false,
    };
    is_in_pad && is_of(field, CONTACT_ID)
}

/// Whether a field is the most contacts that a device has.
fn is_contact_maximum(field: &Field) -> bool {
    is_of(field, CONTACT_COUNT_MAXIMUM)
}

/// Whether a field is of a usage.
fn is_of(field: &Field, usage: u32) -> bool {
    field.usages().iter().any(|own| u32::from(own) == usage)
}

/// Whether some report has an id.
fn have_ids(descriptor: &ReportDescriptor) -> bool {
    for direction in Direction::ALL {
        if descriptor.reports(direction).iter().any(has_id) {
            return true;
        }
    }
    false
}

fn has_id(report: &RDescReport) -> bool {
    report.report_id().is_some()
}

/// Notes a report that is no whole number of bytes.
fn tell_size(
    direction: Direction,
    report: &RDescReport,
    findings: &mut Vec<Finding>,
) -> Result<(), AllocError> {
    if report.size_in_bits() % 8 == 0 {
        return Ok(());
    }
    let said = ": its bits are no whole number of bytes";
    tell_report(direction, report, said, Rule::PartialByte, findings)
}

/// Notes an input report that takes more than one interrupt transaction at full speed.
fn tell_transactions(
    direction: Direction,
    report: &RDescReport,
    findings: &mut Vec<Finding>,
) -> Result<(), AllocError> {
    let bytes = report.size_in_bytes();
    if direction != Direction::Input || bytes <= TRANSACTION {
        return Ok(());
    }
    let alloc = *findings.allocator();
    let said = format!(in alloc;
        ": its {bytes} bytes are more than {TRANSACTION}, the most in a transaction at full speed"
    )?;
    tell_report(direction, report, &said, Rule::PastTransaction, findings)
}

/// Notes fields that lie in too many bytes, and those of several outermost collections.
fn tell_fields(
    direction: Direction,
    report: &RDescReport,
    findings: &mut Vec<Finding>,
) -> Result<(), AllocError> {
    if report.fields().iter().any(is_in_five_bytes) {
        let said = ": a field lies in more than four bytes";
        tell_report(direction, report, said, Rule::FieldPastFourBytes, findings)?;
    }
    if are_apart(report.fields()) {
        let said = ": its fields lie in several outermost collections";
        tell_report(direction, report, said, Rule::ReportApart, findings)?;
    }
    Ok(())
}

/// Whether a value lies in more than four bytes.
fn is_in_five_bytes(field: &Field) -> bool {
    match field {
        Field::Variable(field) => {
            let last = field.bits.end.saturating_sub(1) / 8;
            last.saturating_sub(field.bits.start / 8) > 3
        }
        _ => false,
    }
}

/// Whether fields lie in different outermost collections.
fn are_apart(fields: &[Field]) -> bool {
    let mut first: Option<&Collection> = None;
    for field in fields {
        let Some(outermost) = field.collections().first() else {
            continue;
        };
        match first {
            Some(first) if first != outermost => return true,
            Some(_) => {}
            None => first = Some(outermost),
        }
    }
    false
}

/// Notes what is odd in a report.
fn tell_report(
    direction: Direction,
    report: &RDescReport,
    said: &str,
    rule: Rule,
    findings: &mut Vec<Finding>,
) -> Result<(), AllocError> {
    let mut remark = String::new(*findings.allocator());
    add_title(&mut remark, direction, report)?;
    remark.push_str(said)?;
    tell(findings, None, &remark, rule)
}
