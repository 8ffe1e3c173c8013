//! The report that a data item adds its fields to (Sections 5.6 and 6.2.2.7).
ghost use Rattle.std.specs.Prelude.{◌≡◌, ◌+◌, ◌*◌, ◌<◌, ◌≤◌, ◌^◌, ◌∷◌, [], IfSome, IsSomeAnd, OnOk, IsTrue};
ghost use Rattle.hidreport.specs.ItemState.{first_of};
ghost use Rattle.hidreport_fields.specs.ReportIds.{same_key};
ghost use Rattle.hidreport.specs.Parser.Ids.{AllBelow};
ghost use Rattle.hidreport.specs.Parser.Groups.{group_of};
ghost use Rattle.hidreport.specs.Parser.Layout.{IsPossible};
ghost use Rattle.hidreport.specs.Parser.Machine.{added_to, first_id, index_in, size_in};
ghost use Rattle.hidreport.specs.Parser.Usages.{usage_list};
ghost use Rattle.hidreport_fields.specs.ReportIds.{id_bits};

use crate::parser::layout::Layout;
use crate::parser::usages::Usages;
use crate::report::group::Group;
use crate::report::outline_report::OutlineReport;
use hidreport_types::ReportId;
use std::alloc::{AllocError, Global};

/// How many groups a report has room for at first: mostly a few follow.
const FEW_GROUPS: usize = 4;

/// The id of a report and its index, which is the number of reports where it has to be made.
#[derive(Clone, Copy)]
pub(crate) struct Slot {
    pub(crate) key: Option<ReportId>,
    pub(crate) index: usize,
}

/// Where an item's fields begin: the report that they go to, and its first bit that is free.
#[derive(Clone, Copy)]
pub(crate) struct Room {
    pub(crate) slot: Slot,
    pub(crate) first_bit: usize,
}

/// The report that a field with this id in force goes to: without one to the first. The reports are
/// gone over only where it is neither that of the last slot nor past all ids.
pub(crate) fn slot_of(
    reports: &[OutlineReport],
    last: Option<Slot>,
    ids_below: Option<usize>,
    id: Option<ReportId>,
) -> Slot
    requires last { IfSome last (λ slot. slot.index ≡ index_in slot.key reports.now) }
    requires below { IfSome ids_below (λ bound. AllBelow bound reports.now) }
    ensures key { result.key ≡ first_of id (first_id reports.now) }
    ensures index { result.index ≡ index_in result.key reports.now }
{
    let key = key_of(reports, id);
    if let Some(last) = last {
        if is_same(&last.key, &key) {
            return Slot {
                key,
                index: last.index,
            };
        }
    }
    if is_past(ids_below, &key) {
        return Slot {
            key,
            index: reports.len(),
        };
    }
    let index = report_index(reports, &key);
    Slot { key, index }
}

/// Whether this is an id past all others, so that no report has it yet.
fn is_past(ids_below: Option<usize>, key: &Option<ReportId>) -> bool
    ensures { IsTrue result → IsSomeAnd ids_below (λ bound. IsSomeAnd key.now (λ id. bound ≤ id)) }
{
    match (ids_below, key) {
        (Some(bound), Some(id)) => bound <= usize::from(u8::from(*id)),
        _ => false,
    }
}

/// A number that this id is below, and all that were below the number before.
pub(crate) fn widened(ids_below: Option<usize>, key: &Option<ReportId>) -> Option<usize>
    ensures { IfSome result (λ above.
        IsSomeAnd ids_below (λ bound. (bound ≤ above) × IfSome key.now (λ id. id < above))) }
{
    match (ids_below, key) {
        (Some(bound), Some(id)) => Some(bound.max(usize::from(u8::from(*id)) + 1)),
        (bound, _) => bound,
    }
}

/// The id of the report that a field with this id in force goes to.
fn key_of(reports: &[OutlineReport], id: Option<ReportId>) -> Option<ReportId>
    ensures { result ≡ first_of id (first_id reports.now) }
{
    match (id, reports.first()) {
        (Some(id), _) => Some(id),
        (None, Some(first)) => first.id,
        (None, None) => None,
    }
}

/// Whether a report with the first id is the one with the second.
fn is_same(own: &Option<ReportId>, key: &Option<ReportId>) -> bool
    ensures { result ≡ same_key own.now key.now }
{
    match (own, key) {
        (None, None) => true,
        (Some(own), Some(key)) => own == key,
        _ => false,
    }
}

/// The index of the report with this id, or the number of reports where it has to be made.
fn report_index(reports: &[OutlineReport], key: &Option<ReportId>) -> usize
    ensures { result ≡ index_in key.now reports.now }
{
    for (index, report) in reports.iter().enumerate() {
        if is_same(&report.id, key) {
            return index;
        }
    }
    reports.len()
}

/// A report with an id begins with one byte for it.
fn id_bits(id: Option<ReportId>) -> usize
    ensures { result ≡ id_bits id }
{
    match id {
        None => 0,
        Some(_) => 8,
    }
}

/// Where the report that `slot` names ends so far.
pub(crate) fn size_at(reports: &[OutlineReport], slot: &Slot) -> usize
    requires { slot.now.index ≡ index_in slot.now.key reports.now }
    ensures { result ≡ size_in slot.now.key reports.now }
{
    if slot.index < reports.len() {
        let report = &reports[slot.index];
        report.size
    } else {
        id_bits(slot.key)
    }
}

/// Adds an item's fields, which take so many bits, to the report that `slot` names; it is made at
/// need.
pub(crate) fn add_fields(
    alloc: Global,
    reports: &mut Vec<OutlineReport>,
    slot: Slot,
    bits: usize,
    layout: &Layout,
    usages: &Usages,
) -> Result<(), AllocError>
    requires slot { slot.index ≡ index_in slot.key reports.old.items }
    requires bits { size_in slot.key reports.old.items + bits < 2 ^ 64 }
    requires possible { IsPossible layout.now (usage_list usages.now) }
    ensures { OnOk result (reports.new.items
        ≡ added_to slot.key bits (group_of layout.now (usage_list usages.now) ∷ [])
        reports.old.items) }
{
    let group = Group::new(alloc, layout, usages)?;
    if slot.index < reports.len() {
        let report = &mut reports[slot.index];
        report.groups.push(group)?;
        report.size += bits;
        return Ok(());
    }
    let size = id_bits(slot.key) + bits;
    let mut groups = Vec::with_capacity(alloc, FEW_GROUPS)?;
    groups.push(group)?;
    reports.push(OutlineReport {
        id: slot.key,
        size,
        groups,
    })?;
    Ok(())
}
