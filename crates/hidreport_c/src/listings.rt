//! What C gets of all fields of a direction, or of a report, in one call: their usages, their
//! collections, and the usages of these.
ghost use Rattle.std.specs.Prelude.{◌≡◌, ◌≤◌, ◌^◌, IfSome, IsNone, flat_map, length, map, option_to_list};
ghost use Rattle.hidreport.specs.Lookup.{find_report};
ghost use Rattle.hidreport.specs.Records.{collections_of, usages_in};
ghost use Rattle.hidreport.specs.UsageNumber.{usage_number};
ghost use Rattle.hidreport.specs.Views.{field_record};
ghost use Rattle.hidreport_c.specs.Answer.{ListsOf, array_after};
ghost use Rattle.hidreport_c.specs.Collection.{collection_as_c};
ghost use Rattle.hidreport_c.specs.Describe.{reports_in_direction};
ghost use Rattle.hidreport_c.specs.Listings.{collection_numbers, described_collection_usages, described_collections, described_usages, found_usages, usage_numbers};

use crate::answer::read;
use crate::describe::{report_of, reports_in};
use crate::listing::{Listing, write_all};
use crate::part::write;
use crate::structs::{HidreportAnswer, HidreportCollection, HidreportOptions};
use hidreport::{Collection, Field, RDescReport, ReportDescriptor, Usage};
use std::alloc::Global;
use std::slice;

/// The usages of a field.
struct Usages {}

/// The collections that a field lies in.
struct Collections {}

/// The usages of the collections that a field lies in.
struct CollectionUsages {}

/// The usages of all fields that `hidreport_describe` lists (Section 6.2.2.8), those of each field
/// behind those of the field before, as many as its `usages.count`.
///
/// They are written, counted and refused as `hidreport_describe` says.
#[unsafe(no_mangle)]
pub extern "C" fn hidreport_describe_usages(
    alloc: Global,
    descriptor: &[u8],
    options: HidreportOptions,
    direction: u32,
    usages: &mut [u32],
) -> HidreportAnswer
    ensures { ListsOf (described_usages direction) options descriptor.now usages.old usages.new
        result }
{
    match reports_in(alloc, descriptor, options, direction) {
        Ok(reports) => write_all::<Usages>(&reports, usages),
        Err(refused) => refused,
    }
}

/// The same of the fields that `hidreport_find` finds.
///
/// They are written, counted and refused as `hidreport_describe` says.
#[unsafe(no_mangle)]
pub extern "C" fn hidreport_find_usages(
    alloc: Global,
    descriptor: &[u8],
    options: HidreportOptions,
    direction: u32,
    report: &[u8],
    usages: &mut [u32],
) -> HidreportAnswer
    ensures { ListsOf (found_usages direction report.now) options descriptor.now usages.old
        usages.new result }
{
    match read(alloc, descriptor, options) {
        Ok(descriptor) => write_all::<Usages>(found_of(&descriptor, direction, report), usages),
        Err(refused) => refused,
    }
}

/// The collections of all fields that `hidreport_describe` lists (Section 6.2.2.6), those of each
/// field, outermost first, behind those of the field before, as many as its `collections.count`.
///
/// They are written, counted and refused as `hidreport_describe` says.
#[unsafe(no_mangle)]
pub extern "C" fn hidreport_describe_collections(
    alloc: Global,
    descriptor: &[u8],
    options: HidreportOptions,
    direction: u32,
    collections: &mut [HidreportCollection],
) -> HidreportAnswer
    ensures { ListsOf (described_collections direction) options descriptor.now collections.old
        collections.new result }
{
    match reports_in(alloc, descriptor, options, direction) {
        Ok(reports) => write_all::<Collections>(&reports, collections),
        Err(refused) => refused,
    }
}

/// The usages of all collections that `hidreport_describe_collections` lists (Section 6.2.2.8),
/// those of each behind those of the one before, as many as its `usage_count`.
///
/// They are written, counted and refused as `hidreport_describe` says.
#[unsafe(no_mangle)]
pub extern "C" fn hidreport_describe_collection_usages(
    alloc: Global,
    descriptor: &[u8],
    options: HidreportOptions,
    direction: u32,
    usages: &mut [u32],
) -> HidreportAnswer
    ensures { ListsOf (described_collection_usages direction) options descriptor.now usages.old
        usages.new result }
{
    match reports_in(alloc, descriptor, options, direction) {
        Ok(reports) => write_all::<CollectionUsages>(&reports, usages),
        Err(refused) => refused,
    }
}

/// The report of a direction that these bytes are of, or none.
fn found_of<'a>(
    descriptor: &'a ReportDescriptor,
    direction: u32,
    report: &[u8],
) -> &'a [RDescReport]
    ensures { result.now
        ≡ option_to_list (find_report (reports_in_direction direction descriptor.now) report.now) }
{
    match report_of(descriptor, direction, report) {
        Some(found) => slice::from_ref(found),
        None => &[],
    }
}

impl Listing for Usages {
    type InC = u32;

    ghost listed = { usage_numbers };

    fn put(field: &Field, array: &mut [u32]) -> Option<usize> {
        Some(write(usages_of(field), array).count)
    }
}

impl Listing for Collections {
    type InC = HidreportCollection;

    ghost listed = { λ field. map collection_as_c (collections_of field) };

    fn put(field: &Field, array: &mut [HidreportCollection]) -> Option<usize> {
        Some(write(field.collections(), array).count)
    }
}

impl Listing for CollectionUsages {
    type InC = u32;

    ghost listed = { λ field. flat_map collection_numbers (collections_of field) };

    fn put(field: &Field, array: &mut [u32]) -> Option<usize> {
        put_usages(field.collections(), array)
    }
}

/// Puts the usages of these collections in place of the first of `usages`, as many as there is room
/// for; how many there are, unless there are more than memory could hold.
fn put_usages(collections: &[Collection], usages: &mut [u32]) -> Option<usize>
    ensures some { IfSome result (λ count.
        (count ≡ length (flat_map collection_numbers collections.now))
        × (usages.new ≡ array_after (flat_map collection_numbers collections.now) usages.old)) }
    ensures none { IsNone result → 2 ^ 64 ≤ length (flat_map collection_numbers collections.now) }
{
    let mut count: usize = 0;
    for collection in collections {
        let begun = count.min(usages.len());
        let listed = collection.usages();
        write(listed, &mut usages[begun..]);
        count = count.checked_add(listed.len())?;
    }
    Some(count)
}

/// The usages of a field.
fn usages_of(field: &Field) -> &[Usage]
    ensures { result.now ≡ usages_in (field_record field.now) }
{
    match field {
        Field::Variable(field) => slice::from_ref(&field.usage),
        Field::Array(field) => field.usages(),
        Field::Constant(_) => &[],
    }
}
