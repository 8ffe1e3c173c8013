//! What a descriptor announces in a direction: its reports and their fields.
ghost use Rattle.std.specs.Prelude.{◌≡◌, ◌<◌, ◌^◌, Err, Ok, IfErr, IfOk, IfSome, length, map, option_copied};
ghost use Rattle.hidreport.specs.Groups.{fields_of_groups, listed_report};
ghost use Rattle.hidreport.specs.Lookup.{find_report};
ghost use Rattle.hidreport_c.specs.Answer.{IsRead, Lists, ListsOf};
ghost use Rattle.hidreport_c.specs.Options.{reading_of};
ghost use Rattle.hidreport_c.specs.Describe.{AreReports, described_fields, fields_as_c, found_fields, fields_or_none, reports_in_direction};
ghost use Rattle.hidreport_c.specs.Report.{described_reports, report_as_c};
ghost use Rattle.hidreport.specs.UsageNumber.{usage_number};
ghost use Rattle.hidreport_c.specs.Lookup.{given_id, report_in, report_listed, report_or_none};

use crate::answer::{outline, read, write_list};
use crate::group;
use crate::part::{Part, write, write_behind};
use crate::status::OUT_OF_MEMORY;
use crate::structs::{HidreportAnswer, HidreportField, HidreportOptions, HidreportReport};
use hidreport::{
    Direction, Group, OutlineReport, RDescReport, Report, ReportDescriptor, ReportId, Usage,
};
use std::alloc::{AllocError, Global};
use std::slice;

/// The fields that a descriptor announces in a direction, in the order of its reports and of their
/// bits (Section 6.2.2): 0 from the device, 1 from the host, 2 features, and none for any other
/// number.
///
/// As many as there is room for are written; the answer is how many there are. A descriptor is
/// refused as `ReportDescriptor::try_from_with` refuses it by these options, and then nothing is
/// written; nor is it where memory is refused, which is 4, or where an option says nothing, which
/// is 6.
#[unsafe(no_mangle)]
pub extern "C" fn hidreport_describe(
    alloc: Global,
    descriptor: &[u8],
    options: HidreportOptions,
    direction: u32,
    fields: &mut [HidreportField],
) -> HidreportAnswer
    ensures { ListsOf (described_fields direction) options descriptor.now fields.old fields.new
        result }
{
    match reports_in(alloc, descriptor, options, direction) {
        Ok(reports) => write_fields(&reports, fields),
        Err(refused) => refused,
    }
}

/// The fields of the report that a report's bytes are of (Section 5.6): of a direction's first
/// report where that has no id, else of the one with the first byte as its id; none where there is
/// none, or no bytes. It depends on nothing but the first byte.
///
/// They are written, counted and refused as `hidreport_describe` says.
#[unsafe(no_mangle)]
pub extern "C" fn hidreport_find(
    alloc: Global,
    descriptor: &[u8],
    options: HidreportOptions,
    direction: u32,
    report: &[u8],
    fields: &mut [HidreportField],
) -> HidreportAnswer
    ensures { ListsOf (found_fields direction report.now) options descriptor.now fields.old
        fields.new result }
{
    match read(alloc, descriptor, options) {
        Ok(descriptor) => write_found(report_of(&descriptor, direction, report), fields),
        Err(refused) => refused,
    }
}

/// An id, or that there is none.
pub(crate) fn given_id(has_id: bool, id: u8) -> Option<ReportId>
    ensures { result ≡ given_id has_id id }
{
    if has_id {
        Some(ReportId::from(id))
    } else {
        None
    }
}

/// The reports of a direction of the descriptor that bytes are, read by these options, or what C is
/// told in their place. Fields of other directions aren't listed.
pub(crate) fn reports_in(
    alloc: Global,
    bytes: &[u8],
    options: HidreportOptions,
    direction: u32,
) -> Result<Vec<RDescReport>, HidreportAnswer>
    ensures read { IfOk result (λ reports.
        AreReports direction reports.items (reading_of options) bytes.now) }
    ensures refused { IfErr result (λ told. IsRead (Err told) (reading_of options) bytes.now) }
{
    let outline = outline(alloc, bytes, options)?;
    match laid_out(alloc, group::reports_of(&outline, direction)) {
        Ok(reports) => Ok(reports),
        Err(_) => Err(HidreportAnswer::refused(OUT_OF_MEMORY)),
    }
}

/// Reports with their fields listed.
fn laid_out(alloc: Global, reports: &[OutlineReport]) -> Result<Vec<RDescReport>, AllocError>
    ensures { IfOk result (λ list. list.items ≡ map listed_report reports.now) }
{
    let mut list = Vec::with_capacity(alloc, reports.len())?;
    for report in reports {
        list.push_reserved(report.lay_out(alloc)?);
    }
    Ok(list)
}

/// The report of a direction that these bytes are of.
pub(crate) fn report_of<'a>(
    descriptor: &'a ReportDescriptor,
    direction: u32,
    report: &[u8],
) -> Option<&'a RDescReport>
    ensures { option_copied result
        ≡ find_report (reports_in_direction direction descriptor.now) report.now }
{
    match direction {
        0 => descriptor.find_input_report(report),
        1 => descriptor.find_output_report(report),
        2 => descriptor.find_feature_report(report),
        _ => None,
    }
}

/// The report of a direction with this id.
pub(crate) fn report_with_id(
    descriptor: &ReportDescriptor,
    direction: u32,
    id: Option<ReportId>,
) -> Option<&RDescReport>
    ensures { option_copied result ≡ report_in direction id descriptor.now }
{
    match direction {
        0 => descriptor.report(Direction::Input, id),
        1 => descriptor.report(Direction::Output, id),
        2 => descriptor.report(Direction::Feature, id),
        _ => None,
    }
}

/// Writes reports, or says that memory was refused.
fn write_reports(
    alloc: Global,
    reports: &[OutlineReport],
    array: &mut [HidreportReport],
) -> HidreportAnswer
    ensures { Lists (Ok (map report_as_c (map listed_report reports.now))) array.old array.new
        result }
{
    match reports_as_c(alloc, reports) {
        Some(list) => write_list(&list, array),
        None => HidreportAnswer::refused(OUT_OF_MEMORY),
    }
}

/// Reports as C has them; none where memory is refused, or could not hold the fields of one.
fn reports_as_c(alloc: Global, reports: &[OutlineReport]) -> Option<Vec<HidreportReport>>
    ensures { IfSome result (λ list.
        list.items ≡ map report_as_c (map listed_report reports.now)) }
{
    let mut list = Vec::with_capacity(alloc, reports.len()).ok()?;
    for report in reports {
        list.push_reserved(grouped_as_c(report)?);
    }
    Some(list)
}

/// A report as C has it; none where memory could not hold its fields.
fn grouped_as_c(report: &OutlineReport) -> Option<HidreportReport>
    ensures { IfSome result (λ told. told ≡ report_as_c (listed_report report.now)) }
{
    let id = *report.report_id();
    Some(HidreportReport {
        size_in_bits: report.size_in_bits(),
        size_in_bytes: report.size_in_bytes(),
        field_count: count_listed(report.groups())?,
        has_id: id.is_some(),
        id: match id {
            Some(id) => u8::from(id),
            None => 0,
        },
    })
}

/// How many fields groups make; none where there are more than memory could hold.
fn count_listed(groups: &[Group]) -> Option<usize>
    ensures { IfSome result (λ count. count ≡ length (fields_of_groups groups.now)) }
{
    let mut count: usize = 0;
    for group in groups {
        count = count.checked_add(group.field_count())?;
    }
    Some(count)
}

/// Writes a report, if there is one.
fn write_report(report: Option<&RDescReport>, reports: &mut [HidreportReport]) -> HidreportAnswer
    ensures { Lists (Ok (report_or_none (option_copied report.entry))) reports.old reports.new
        result }
{
    match report {
        Some(report) => write(slice::from_ref(report), reports),
        None => HidreportAnswer::counted(0),
    }
}

/// Writes the fields of a report, if there is one.
fn write_found(report: Option<&RDescReport>, fields: &mut [HidreportField]) -> HidreportAnswer
    ensures { Lists (Ok (fields_or_none (option_copied report.entry))) fields.old fields.new
        result }
{
    match report {
        Some(report) => write(report.fields(), fields),
        None => HidreportAnswer::counted(0),
    }
}

/// Writes the fields of these reports, those of each behind those of the one before.
fn write_fields(reports: &[RDescReport], fields: &mut [HidreportField]) -> HidreportAnswer
    ensures { Lists (Ok (fields_as_c reports.now)) fields.old fields.new result }
{
    let Some(count) = count_fields(reports) else {
        return HidreportAnswer::refused(OUT_OF_MEMORY);
    };
    let mut written = 0;
    for report in reports {
        write_behind(report.fields(), written, fields);
        written += report.fields().len();
    }
    HidreportAnswer::counted(count)
}

/// How many fields there are; none where there are more than memory could hold.
fn count_fields(reports: &[RDescReport]) -> Option<usize>
    ensures counted { IfSome result (λ count. count ≡ length (fields_as_c reports.now)) }
    ensures fits { IfSome result (λ count. count < 2 ^ 64) }
{
    let mut count: usize = 0;
    for report in reports {
        count = count.checked_add(report.fields().len())?;
    }
    Some(count)
}

impl Part for RDescReport {
    type InC = HidreportReport;

    ghost in_c = { report_as_c };

    fn in_c(&self) -> HidreportReport {
        let id = *self.report_id();
        HidreportReport {
            size_in_bits: self.size_in_bits(),
            size_in_bytes: self.size_in_bytes(),
            field_count: self.fields().len(),
            has_id: id.is_some(),
            id: match id {
                Some(id) => u8::from(id),
                None => 0,
            },
        }
    }
}

impl Part for Usage {
    type InC = u32;

    ghost in_c = { usage_number };

    fn in_c(&self) -> u32 {
        u32::from(self)
    }
}

/// The reports that a descriptor announces in a direction (Section 5.6), in the order of their
/// first fields; the directions are those of `hidreport_describe`.
///
/// No field is listed for it, so that the memory which is taken is that of the descriptor's items
/// and of the usages of collections. They are written, counted and refused as `hidreport_describe`
/// says.
#[unsafe(no_mangle)]
pub extern "C" fn hidreport_reports(
    alloc: Global,
    descriptor: &[u8],
    options: HidreportOptions,
    direction: u32,
    reports: &mut [HidreportReport],
) -> HidreportAnswer
    ensures { ListsOf (described_reports direction) options descriptor.now reports.old reports.new
        result }
{
    match outline(alloc, descriptor, options) {
        Ok(outline) => write_reports(alloc, group::reports_of(&outline, direction), reports),
        Err(refused) => refused,
    }
}

/// The report of a direction with this id (Section 5.6), or without one, where `has_id` is off;
/// none where there is no such report. The directions are those of `hidreport_describe`.
///
/// It is written, counted and refused as `hidreport_describe` says.
#[unsafe(no_mangle)]
pub extern "C" fn hidreport_report_with(
    alloc: Global,
    descriptor: &[u8],
    options: HidreportOptions,
    direction: u32,
    has_id: bool,
    id: u8,
    reports: &mut [HidreportReport],
) -> HidreportAnswer
    ensures { ListsOf (report_listed direction (given_id has_id id)) options descriptor.now
        reports.old reports.new result }
{
    match read(alloc, descriptor, options) {
        Ok(descriptor) => {
            let found = report_with_id(&descriptor, direction, given_id(has_id, id));
            write_report(found, reports)
        }
        Err(refused) => refused,
    }
}
