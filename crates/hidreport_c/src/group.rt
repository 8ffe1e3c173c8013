//! The fields of one main item, said once for all of them.
ghost use Rattle.std.specs.Prelude.{◌≡◌, ◌&&◌, nat_le, [], ◌∷◌, Ok, MatchResult, option_map, ◌++◌, IfOk, OnOk};
ghost use Rattle.hidreport.specs.Views.{field_record};
ghost use Rattle.hidreport_c.specs.Answer.{GroupsOf, Lists, array_after, counted, no_memory};
ghost use Rattle.hidreport_c.specs.Field.{collections_as_c};
ghost use Rattle.hidreport_c.specs.Group.{all_groups, field_placed, flags_in, group_as_c, groups_as_c, groups_of};
ghost use Rattle.hidreport_c.specs.Group.{kind_in, lent, measures_in, one_field, one_usage, usage_in, usage_listed};
ghost use Rattle.hidreport_c.specs.Lookup.{field_or_none};
ghost use Rattle.hidreport_c.specs.Describe.{reports_in_direction};

use crate::answer::outline;
use crate::field::{
    ARRAY, CONSTANT, VARIABLE, attributes_of, measures, nothing_measured, nothing_set,
};
use crate::part::{Part, write};
use crate::status::OUT_OF_MEMORY;
use crate::structs::{
    HidreportAnswer, HidreportCollections, HidreportField, HidreportFlags, HidreportGroup,
    HidreportMeasures, HidreportOptions,
};
use hidreport::{Field, Group, Outline, OutlineReport};
use std::alloc::{AllocError, Global};
use std::slice;

impl Part for &Group {
    type InC = HidreportGroup;

    ghost in_c = { λ group. group_as_c group.now };

    fn in_c(&self) -> HidreportGroup {
        as_c(*self)
    }
}

/// The groups of the fields that a descriptor announces in a direction (Section 6.2.2.4), one for
/// each item that makes some, in the order of its reports and of their bits; the directions are those
/// of `hidreport_describe`. Laid out, they are the fields that it lists.
///
/// Neither a field nor a field's usage is listed, so that the memory which is taken is that of the
/// descriptor's items and of the usages of collections. They are written, counted and refused as
/// `hidreport_describe` says.
#[unsafe(no_mangle)]
pub extern "C" fn hidreport_groups(
    alloc: Global,
    descriptor: &[u8],
    options: HidreportOptions,
    direction: u32,
    groups: &mut [HidreportGroup],
) -> HidreportAnswer
    ensures { GroupsOf (all_groups direction) options descriptor.now groups.old groups.new result }
{
    match outline(alloc, descriptor, options) {
        Ok(outline) => write_groups(alloc, reports_of(&outline, direction), groups),
        Err(refused) => refused,
    }
}

/// The usage at place `index` of group `group`, both counted from 0, the group as
/// `hidreport_groups` lists it: that of variable field `index`, the last usage where there are fewer
/// (Section 6.2.2.8), or of those that an array's values choose among; 0 where there is none, as of
/// padding and behind the last variable field. None where there is no such group.
///
/// It is written, counted and refused as `hidreport_describe` says, and no usage is listed.
#[unsafe(no_mangle)]
pub extern "C" fn hidreport_group_usage(
    alloc: Global,
    descriptor: &[u8],
    options: HidreportOptions,
    direction: u32,
    group: usize,
    index: usize,
    usages: &mut [u32],
) -> HidreportAnswer
    ensures { GroupsOf (one_usage direction group index) options descriptor.now usages.old
        usages.new result }
{
    match outline(alloc, descriptor, options) {
        Ok(outline) => {
            let reports = reports_of(&outline, direction);
            write_usage(alloc, reports, (group, index), usages)
        }
        Err(refused) => refused,
    }
}

/// Field `index` of group `group`, both counted from 0, the group as `hidreport_groups` lists it, as
/// `hidreport_describe` lists it; none where there is no such field or group.
///
/// It is written, counted and refused as `hidreport_describe` says. No other field is listed; memory
/// is taken for the usages of an array.
#[unsafe(no_mangle)]
pub extern "C" fn hidreport_group_field(
    alloc: Global,
    descriptor: &[u8],
    options: HidreportOptions,
    direction: u32,
    group: usize,
    index: usize,
    fields: &mut [HidreportField],
) -> HidreportAnswer
    ensures { GroupsOf (one_field direction group index) options descriptor.now fields.old
        fields.new result }
{
    match outline(alloc, descriptor, options) {
        Ok(outline) => {
            let reports = reports_of(&outline, direction);
            write_field(alloc, reports, (group, index), fields)
        }
        Err(refused) => refused,
    }
}

/// The reports of a direction.
pub(crate) fn reports_of(outline: &Outline, direction: u32) -> &[OutlineReport]
    ensures { result.now ≡ reports_in_direction direction outline.now }
{
    match direction {
        0 => outline.input_reports(),
        1 => outline.output_reports(),
        2 => outline.feature_reports(),
        _ => &[],
    }
}

/// The groups of these reports, in order.
fn groups_of<'a>(alloc: Global, reports: &'a [OutlineReport]) -> Result<Vec<&'a Group>, AllocError>
    ensures { IfOk result (λ groups. lent groups.items ≡ groups_of reports.now) }
{
    let mut groups = Vec::new(alloc);
    for report in reports {
        add_groups(report.groups(), &mut groups)?;
    }
    Ok(groups)
}

/// Adds groups to those that are there.
fn add_groups<'a>(added: &'a [Group], groups: &mut Vec<&'a Group>) -> Result<(), AllocError>
    ensures { OnOk result (lent groups.new.items ≡ lent groups.old.items ++ added.now) }
{
    for group in added {
        groups.push(group)?;
    }
    Ok(())
}

/// Writes the groups of these reports, or says that memory was refused.
fn write_groups(
    alloc: Global,
    reports: &[OutlineReport],
    groups: &mut [HidreportGroup],
) -> HidreportAnswer
    ensures { Lists (Ok (groups_as_c (groups_of reports.now))) groups.old groups.new result }
{
    match groups_of(alloc, reports) {
        Ok(found) => write(&found, groups),
        Err(_) => HidreportAnswer::refused(OUT_OF_MEMORY),
    }
}

/// Writes the usage of a field by the places of its group and of itself, or says that memory was
/// refused.
fn write_usage(
    alloc: Global,
    reports: &[OutlineReport],
    place: (usize, usize),
    usages: &mut [u32],
) -> HidreportAnswer
    ensures { Lists (Ok (usage_listed place.0 place.1 (groups_of reports.now))) usages.old
        usages.new result }
{
    match groups_of(alloc, reports) {
        Ok(found) => match found.get(place.0) {
            Some(group) => write_one(usage_of(*group, place.1), usages),
            None => HidreportAnswer::counted(0),
        },
        Err(_) => HidreportAnswer::refused(OUT_OF_MEMORY),
    }
}

/// Writes a field by the places of its group and of itself, or says that memory was refused.
fn write_field(
    alloc: Global,
    reports: &[OutlineReport],
    place: (usize, usize),
    fields: &mut [HidreportField],
) -> HidreportAnswer
    ensures { Lists (Ok (field_placed place.0 place.1 (groups_of reports.now))) fields.old
        fields.new result }
{
    match groups_of(alloc, reports) {
        Ok(found) => match found.get(place.0) {
            Some(group) => write_made(group.field(alloc, place.1), fields),
            None => HidreportAnswer::counted(0),
        },
        Err(_) => HidreportAnswer::refused(OUT_OF_MEMORY),
    }
}

/// Writes a field that was made, if there is one, or says that memory was refused.
fn write_made(
    made: Result<Option<Field>, AllocError>,
    fields: &mut [HidreportField],
) -> HidreportAnswer
    ensures { MatchResult made (λ field. Lists
        (Ok (field_or_none (option_map field_record field))) fields.old fields.new result)
        (λ _. (result ≡ no_memory) × (fields.new ≡ fields.old)) }
{
    match made {
        Ok(made) => write_if_there(&made, fields),
        Err(_) => HidreportAnswer::refused(OUT_OF_MEMORY),
    }
}

/// Writes a field, if there is one.
fn write_if_there(field: &Option<Field>, fields: &mut [HidreportField]) -> HidreportAnswer
    ensures { Lists (Ok (field_or_none (option_map field_record field.now))) fields.old fields.new
        result }
{
    match field {
        Some(field) => write(slice::from_ref(field), fields),
        None => HidreportAnswer::counted(0),
    }
}

/// Writes one number, if there is room.
fn write_one(number: u32, numbers: &mut [u32]) -> HidreportAnswer
    ensures count { result ≡ counted 1 }
    ensures written { numbers.new ≡ array_after (number ∷ []) numbers.old }
{
    if let Some(first) = numbers.first_mut() {
        *first = number;
    }
    HidreportAnswer::counted(1)
}

fn as_c(group: &Group) -> HidreportGroup
    ensures { result ≡ group_as_c group.now }
{
    let report_id = group.report_id();
    HidreportGroup {
        kind: kind_of(group),
        first_bit: group.first_bit(),
        element_width: group.element_width(),
        element_count: group.element_count(),
        field_count: group.field_count(),
        usage: usage_of(group, 0),
        measures: measures_of(group),
        collections: collections_around(group),
        flags: flags_of(group),
        has_report_id: report_id.is_some(),
        report_id: match report_id {
            Some(id) => u8::from(id),
            None => 0,
        },
    }
}

fn collections_around(group: &Group) -> HidreportCollections
    ensures { result ≡ collections_as_c group.now.shared.collections }
{
    let count = group.collection_count();
    HidreportCollections {
        count,
        innermost: match group.collection(count.saturating_sub(1)) {
            Some(collection) => u32::from(collection.id()),
            None => 0,
        },
    }
}

fn kind_of(group: &Group) -> u32
    ensures { result ≡ kind_in group.now }
{
    if group.is_constant() {
        CONSTANT
    } else if group.is_variable() {
        VARIABLE
    } else {
        ARRAY
    }
}

/// The usage of a field by its place, 0 where there is none.
fn usage_of(group: &Group, index: usize) -> u32
    ensures { result ≡ usage_in group.now index }
{
    if group.is_constant() || is_behind(group, index) {
        return 0;
    }
    match group.usage(index) {
        Some(usage) => u32::from(usage),
        None => 0,
    }
}

/// Whether a place is behind the last of variable fields.
fn is_behind(group: &Group, index: usize) -> bool
    ensures { result ≡ (group.now.flags.variable && nat_le group.now.extent.count index) }
{
    group.is_variable() && group.element_count() <= index
}

fn measures_of(group: &Group) -> HidreportMeasures
    ensures { result ≡ measures_in group.now }
{
    if group.is_constant() {
        return nothing_measured();
    }
    measures(
        (group.logical_minimum(), group.logical_maximum()),
        (group.physical_minimum(), group.physical_maximum()),
        (group.unit(), group.unit_exponent()),
    )
}

fn flags_of(group: &Group) -> HidreportFlags
    ensures { result ≡ flags_in group.now }
{
    if group.is_constant() {
        return nothing_set();
    }
    attributes_of(group)
}
