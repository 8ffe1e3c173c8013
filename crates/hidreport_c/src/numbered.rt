//! What is asked of a field by its number, or by a usage: the field, its usages, its collections.
ghost use Rattle.std.specs.Prelude.{◌≡◌, ◌==◌, find, map, option_copied, option_map, Ok};
ghost use Rattle.hidreport.specs.Records.{FieldRecord, fields_in_all, place_of};
ghost use Rattle.hidreport.specs.Views.{field_id, field_record};
ghost use Rattle.hidreport_c.specs.Numbered.{field_numbered, numbered};
ghost use Rattle.hidreport_c.specs.Answer.{ListsOf, Lists};
ghost use Rattle.hidreport_c.specs.Collection.{collection_as_c, collection_usages, collections_or_none, listed_collections, usages_or_none};
ghost use Rattle.hidreport_c.specs.Usages.{listed_usages, usage_numbers};
ghost use Rattle.hidreport_c.specs.Lookup.{field_listed, field_for_listed, field_or_none, field_with_usage, given_id};

use crate::answer::read;
use crate::describe::{given_id, report_with_id};
use crate::part::{Part, write};
use crate::structs::{HidreportAnswer, HidreportCollection, HidreportField, HidreportOptions};
use hidreport::{Collection, Field, RDescReport, Report, ReportDescriptor, Usage};
use std::alloc::Global;
use std::slice;

/// The field with this number, in whichever direction; none where no field of the descriptor has
/// it.
///
/// It is written, counted and refused as `hidreport_describe` says.
#[unsafe(no_mangle)]
pub extern "C" fn hidreport_field_numbered(
    alloc: Global,
    descriptor: &[u8],
    options: HidreportOptions,
    number: u32,
    fields: &mut [HidreportField],
) -> HidreportAnswer
    ensures { ListsOf (field_listed number) options descriptor.now fields.old fields.new result }
{
    match read(alloc, descriptor, options) {
        Ok(descriptor) => write_field(field_numbered(&descriptor, number), fields),
        Err(refused) => refused,
    }
}

/// The usages of the field with this number, in the order of the descriptor (Section 6.2.2.8): the
/// one of a variable field, those that an array's values choose among, none of padding; none where
/// no field of the descriptor has the number.
///
/// They are written, counted and refused as `hidreport_describe` says.
#[unsafe(no_mangle)]
pub extern "C" fn hidreport_usages(
    alloc: Global,
    descriptor: &[u8],
    options: HidreportOptions,
    field: u32,
    usages: &mut [u32],
) -> HidreportAnswer
    ensures { ListsOf (listed_usages field) options descriptor.now usages.old usages.new result }
{
    match read(alloc, descriptor, options) {
        Ok(descriptor) => write_usages(field_numbered(&descriptor, field), usages),
        Err(refused) => refused,
    }
}

/// The first field with this usage of the report of a direction with this id (Sections 5.6 and
/// 6.2.2.8), or without one, where `has_id` is off: a variable field's usage, or one that an array
/// chooses among. None where there is no such report, or no such field.
///
/// It is written, counted and refused as `hidreport_describe` says.
#[unsafe(no_mangle)]
pub extern "C" fn hidreport_field_for(
    alloc: Global,
    descriptor: &[u8],
    options: HidreportOptions,
    direction: u32,
    has_id: bool,
    id: u8,
    usage: u32,
    fields: &mut [HidreportField],
) -> HidreportAnswer
    ensures { ListsOf (field_for_listed direction (given_id has_id id) usage) options
        descriptor.now fields.old fields.new result }
{
    match read(alloc, descriptor, options) {
        Ok(descriptor) => {
            let report = report_with_id(&descriptor, direction, given_id(has_id, id));
            write_field(field_with_usage(report, usage), fields)
        }
        Err(refused) => refused,
    }
}

impl Part for Collection {
    type InC = HidreportCollection;

    ghost in_c = { collection_as_c };

    fn in_c(&self) -> HidreportCollection {
        let usages = self.usages();
        HidreportCollection {
            number: u32::from(self.id()),
            kind: u32::from(u8::from(self.collection_type())),
            usage_count: usages.len(),
            usage: usages.first().map_or(0, |usage| u32::from(usage)),
        }
    }
}

/// The collections that the field with this number lies in, outermost first (Section 6.2.2.6); none
/// where no field of the descriptor has the number, and for padding.
///
/// They are written, counted and refused as `hidreport_describe` says.
#[unsafe(no_mangle)]
pub extern "C" fn hidreport_collections(
    alloc: Global,
    descriptor: &[u8],
    options: HidreportOptions,
    field: u32,
    collections: &mut [HidreportCollection],
) -> HidreportAnswer
    ensures { ListsOf (listed_collections field) options descriptor.now collections.old
        collections.new result }
{
    match read(alloc, descriptor, options) {
        Ok(descriptor) => {
            let found = field_numbered(&descriptor, field);
            write(collections_of(found), collections)
        }
        Err(refused) => refused,
    }
}

/// The usages of one of these collections, counted from 0 as `hidreport_collections` lists them, in
/// the order of the descriptor; none where there is no such one.
///
/// They are written, counted and refused as `hidreport_describe` says.
#[unsafe(no_mangle)]
pub extern "C" fn hidreport_collection_usages(
    alloc: Global,
    descriptor: &[u8],
    options: HidreportOptions,
    field: u32,
    index: usize,
    usages: &mut [u32],
) -> HidreportAnswer
    ensures { ListsOf (collection_usages field index) options descriptor.now usages.old
        usages.new result }
{
    match read(alloc, descriptor, options) {
        Ok(descriptor) => {
            let collections = collections_of(field_numbered(&descriptor, field));
            write(usages_of(collections.get(index)), usages)
        }
        Err(refused) => refused,
    }
}

/// The first field of a report that has a usage.
fn field_with_usage(report: Option<&RDescReport>, usage: u32) -> Option<&Field>
    ensures { option_map field_record (option_copied result)
        ≡ field_with_usage usage (option_copied report.entry) }
{
    match report {
        Some(report) => report.field_for(Usage::from(usage)),
        None => None,
    }
}

/// Writes a field, if there is one.
fn write_field(field: Option<&Field>, fields: &mut [HidreportField]) -> HidreportAnswer
    ensures { Lists (Ok (field_or_none (option_map field_record (option_copied field.entry))))
        fields.old fields.new result }
{
    match field {
        Some(field) => write(slice::from_ref(field), fields),
        None => HidreportAnswer::counted(0),
    }
}

/// Writes the usages of a field, if there is one.
fn write_usages(field: Option<&Field>, usages: &mut [u32]) -> HidreportAnswer
    ensures { Lists (Ok (usage_numbers (option_map field_record (option_copied field.entry))))
        usages.old usages.new result }
{
    match field {
        Some(Field::Variable(field)) => write(slice::from_ref(&field.usage), usages),
        Some(Field::Array(field)) => write(field.usages(), usages),
        Some(Field::Constant(_)) | None => HidreportAnswer::counted(0),
    }
}

/// The collections of a field, if there is one.
fn collections_of(field: Option<&Field>) -> &[Collection]
    ensures { result.now
        ≡ collections_or_none (option_map field_record (option_copied field.entry)) }
{
    match field {
        Some(field) => field.collections(),
        None => &[],
    }
}

/// The usages of a collection, if there is one.
fn usages_of(collection: Option<&Collection>) -> &[Usage]
    ensures { result.now ≡ usages_or_none (option_copied collection.entry) }
{
    match collection {
        Some(collection) => collection.usages(),
        None => &[],
    }
}

/// The field with this number, in whichever direction.
pub(crate) fn field_numbered(descriptor: &ReportDescriptor, number: u32) -> Option<&Field>
    ensures { option_map field_record (option_copied result)
        ≡ field_numbered number descriptor.now }
{
    if let Some(field) = field_in_reports(descriptor.input_reports(), number) {
        return Some(field);
    }
    if let Some(field) = field_in_reports(descriptor.output_reports(), number) {
        return Some(field);
    }
    field_in_reports(descriptor.feature_reports(), number)
}

/// The field with this number in these reports.
fn field_in_reports(reports: &[RDescReport], number: u32) -> Option<&Field>
    ensures { option_map field_record (option_copied result)
        ≡ numbered number (fields_in_all reports.now) }
{
    for report in reports {
        if let Some(field) = field_in(report.fields(), number) {
            return Some(field);
        }
    }
    None
}

/// The field with this number among these.
fn field_in(fields: &[Field], number: u32) -> Option<&Field>
    ensures { option_map field_record (option_copied result)
        ≡ numbered number (map field_record fields.now) }
{
    for field in fields {
        if u32::from(field.id()) == number {
            return Some(field);
        }
    }
    None
}
