//! The parser: one walk over the items of a descriptor, forward.
ghost use Rattle.std.specs.Prelude.{◌≡◌, ◌+◌, ◌++◌, ◌<◌, ◌^◌, ℕ, [], length, Err, Ok, IfOk, IfSome, IsOk, None, OnOk, option_to_list, true};
ghost use Rattle.hidreport_items.specs.Answer.{GrammarFault};
ghost use Rattle.hidreport_items.specs.Spelling.{item_of};
ghost use Rattle.hidreport_lists.specs.Answer.{Answers, AnswersBy, InvalidData};
ghost use Rattle.hidreport_lists.specs.Itemising.{items_from, itemise};
ghost use Rattle.hidreport_lists.specs.Messages.{grammar_message};
ghost use Rattle.hidreport.specs.Meaning.{empty_descriptor, refusal_at};
ghost use Rattle.hidreport.specs.Parser.Budget.{in_groups, walk_bytes_to};
ghost use Rattle.hidreport.specs.Parser.ItemPlaces.{placed};
ghost use Rattle.hidreport.specs.Parser.Machine.{first_state};
ghost use Rattle.hidreport.specs.Parser.Refusals.{IsRefusal, fault_named};

pub(crate) mod around;
pub(crate) mod budget;
mod extent;
mod fault;
mod globals;
pub(crate) mod group_usages;
mod host_usages;
mod item_state_table;
mod journal;
pub(crate) mod layout;
mod local_usages;
mod locals;
pub(crate) mod named_collection;
pub(crate) mod named_usages;
mod open_collections;
mod paged_local;
pub(crate) mod push_keeps;
mod report_list;
mod report_lists;
mod slot;
pub(crate) mod state;
mod usage_bounds;
mod usage_span;
pub(crate) mod usages;
pub(crate) mod usages_by;

use crate::parse_options::ParseOptions;
use crate::report::item_place::{GroupPlace, ItemPlace};
use crate::report::outline_reports::OutlineReports;
use budget::Budget;
use fault::{Fault, invalid_data};
use hidreport_lists::{ParserError, PlacedFault, check_items, front_item};
use state::State;
use std::alloc::{AllocError, Global};

/// What the items of a descriptor make, and, where it is kept, where those stand that make fields.
#[derive(Drop)]
pub(crate) struct Walked {
    pub(crate) reports: OutlineReports,
    pub(crate) places: Vec<GroupPlace>,
}

/// What is to be made beside the groups.
#[derive(Clone, Copy)]
pub(crate) struct Beside {
    /// Whether the fields will be listed, with the usages of their collections.
    pub(crate) lists_fields: bool,

    /// Whether the places of the items are kept.
    pub(crate) keeps_places: bool,
}

/// The reports that the bytes of a descriptor announce by these options, however many bytes they
/// are.
pub(crate) fn parse(
    alloc: Global,
    bytes: &[u8],
    options: ParseOptions,
    lists_fields: bool,
) -> Result<OutlineReports, ParserError>
    ensures { Answers result (walk_bytes_to in_groups options bytes.now) }
{
    let beside = Beside {
        lists_fields,
        keeps_places: false,
    };
    let Walked { reports, places: _ } = walk(alloc, bytes, options, beside)?;
    Ok(reports)
}

/// The same reports, and where the items stand that make their groups, where that is kept.
pub(crate) fn walk(
    alloc: Global,
    bytes: &[u8],
    options: ParseOptions,
    beside: Beside,
) -> Result<Walked, ParserError>
    ensures reports { AnswersBy (λ walked. walked.reports) result
        (walk_bytes_to in_groups options bytes.now) }
    ensures places { IfOk result (λ walked. beside.keeps_places ≡ true
        → placed [] (first_state options) 0 (itemise item_of bytes.now) ≡ Ok walked.places.items) }
{
    if bytes.is_empty() {
        return Err(empty_descriptor(alloc));
    }
    let mut state = State::new(alloc, options, beside.lists_fields);
    let mut budget = Budget::new(options.limit);
    let mut places = Vec::new(alloc);
    let mut place = ItemPlace {
        index: 0,
        offset: 0,
    };
    let mut rest = bytes;
    while !rest.is_empty() {
        let offset = place.offset;
        if let Some(size) = state.take_front(rest)? {
            rest = rest.split_at(size).1;
            place = place.behind(size);
            continue;
        }
        let front = match front_item(rest) {
            Ok(front) => front,
            Err(fault) => return Err(PlacedFault { offset, fault }.refusal(alloc)),
        };
        let behind = offset + front.size;
        rest = rest.split_at(front.size).1;
        let made = state.place_of(&front.item, place);
        if let Err(fault) = state.take(alloc, &mut budget, front.item) {
            return Err(refusal(alloc, offset, fault, behind, rest));
        }
        keep(&mut places, made, beside.keeps_places)?;
        place = place.behind(front.size);
    }
    Ok(Walked {
        reports: state.into_reports(),
        places,
    })
}

/// Keeps the place of an item that makes fields, where that is asked for.
fn keep(
    places: &mut Vec<GroupPlace>,
    made: Option<GroupPlace>,
    keeps_places: bool,
) -> Result<(), AllocError>
    ensures { OnOk result (keeps_places ≡ true
        → places.new.items ≡ places.old.items ++ option_to_list made) }
{
    if keeps_places && let Some(place) = made {
        places.push(place)?;
    }
    Ok(())
}

/// The refusal of no bytes at all.
fn empty_descriptor(alloc: Global) -> ParserError
    ensures { IsRefusal result (InvalidData 0 empty_descriptor) }
{
    invalid_data(alloc, 0, "Empty report descriptor")
}

/// The refusal of an item at an offset that has no meaning there, or of the first item behind it
/// that can't be read: grammar comes before meaning.
fn refusal(alloc: Global, offset: usize, fault: Fault, behind: usize, rest: &[u8]) -> ParserError
    requires { behind + length rest.now < 2 ^ 64 }
    ensures grammar { (first : ℕ × GrammarFault) → items_from item_of behind 0 rest.now ≡ Err first
        → IsRefusal result (InvalidData first.0 (grammar_message first.1)) }
    ensures meaning { IsOk (items_from item_of behind 0 rest.now)
        → IfSome (fault_named fault) (λ f. IsRefusal result (refusal_at offset f)) }
    ensures memory { IsOk (items_from item_of behind 0 rest.now)
        → fault_named fault ≡ None → result ≡ ParserError.OutOfMemory }
{
    match check_items(behind, rest) {
        Ok(()) => fault.at(alloc, offset),
        Err(first) => first.refusal(alloc),
    }
}
