//! What the parser knows between two items.
ghost use Rattle.std.specs.Prelude.{◌≡◌, ◌≢◌, None, IfOk, IfErr, OnOk, is_some};
ghost use Rattle.hidreport.specs.Kinds.{data_of};
ghost use Rattle.hidreport.specs.Parser.Refusals.{IsFaultOf, fault_named};
ghost use Rattle.hidreport.specs.Parser.Usages.{HasUsages, spans_in, usages_fault};

mod front;

use crate::parse_options::ParseOptions;
use crate::parser::budget::{Budget, weight_of_each};
use crate::parser::extent::bits_within;
use crate::parser::fault::Fault;
use crate::parser::item_state_table::ItemStateTable;
use crate::parser::layout::Layout;
use crate::parser::open_collections::OpenCollections;
use crate::parser::report_lists::ReportLists;
use crate::parser::usage_span::UsageSpan;
use crate::parser::usages::{Usages, spans_in, usages_of};
use crate::report::item_place::{GroupPlace, ItemPlace};
use crate::report::outline_reports::OutlineReports;
use hidreport_fields::DataItem;
use hidreport_items::{CollectionItem, GlobalItem, ItemType, MainItem};
use std::alloc::{AllocError, Global};
use std::marker::Model;

/// How many collections have an id.
const COLLECTION_IDS: u64 = 1 << 32;

/// How many fields have an id.
const FIELD_IDS: u64 = 1 << 32;

/// What the items so far have set, opened and made.
#[derive(Drop)]
pub(crate) struct State {
    item_states: ItemStateTable,
    reports: ReportLists,
    field_count: u64,
    collections: OpenCollections,
}

impl Model for State {
    ghost use Rattle.hidreport.specs.Groups.{listed};
    ghost use Rattle.hidreport.specs.Parser.Machine.{StateRecord};

    ghost Value = { StateRecord };

    ghost view = { λ s. record {
      push_keeps = s.item_states.push_keeps;
      item_state = s.item_states.now;
      stack = s.item_states.stack;
      descriptor = listed s.reports;
      outline = s.reports;
      fields = s.field_count;
      opened = s.collections.list;
      collections = s.collections.count;
    } };
}

impl State {
    ghost use Rattle.std.specs.Prelude.{◌≡◌, ◌+◌, false, None, Ok, Some, IfErr, IfOk, OnOk};
    ghost use Rattle.hidreport.specs.Repair.{is_meant_unsigned, is_missing_usages};
    ghost use Rattle.hidreport.specs.Parser.Budget.{is_past, left_behind, stop_in, weight_in};
    ghost use Rattle.hidreport.specs.Parser.ItemPlaces.{place_in};
    ghost use Rattle.hidreport.specs.Parser.Machine.{fault_in, first_state, next_opened, next_state, step};
    ghost use Rattle.hidreport.specs.Parser.Refusals.{IsFaultOf};
    ghost use Rattle.hidreport_fields.specs.DataItem.{as_item};
    ghost use Rattle.hidreport.specs.Parser.DataItem.{collection, end_collection};

    /// Before the first item, where fields are to be listed or not.
    pub(crate) fn new(alloc: Global, options: ParseOptions, lists_fields: bool) -> State
        ensures { result ≡ first_state options }
    {
        State {
            item_states: ItemStateTable::new(alloc, options.push_keeps, options.usages),
            reports: ReportLists::new(alloc),
            field_count: 0,
            collections: OpenCollections::new(alloc, lists_fields),
        }
    }

    /// Goes on by one item.
    pub(crate) fn take(
        &mut self,
        alloc: Global,
        budget: &mut Budget,
        item: ItemType,
    ) -> Result<(), Fault>
        ensures ok { OnOk result (step self.old item ≡ Ok self.new) }
        ensures within { OnOk result (is_past budget.old (weight_in self.old item) ≡ false) }
        ensures left { OnOk result (budget.new ≡ left_behind budget.old (weight_in self.old item)) }
        ensures err { IfErr result (λ e. IsFaultOf e (stop_in budget.old self.old item)) }
    {
        match item {
            ItemType::Global(item) => self.take_global(item)?,
            ItemType::Local(item) => self.item_states.add_local(item)?,
            ItemType::Main(item) => self.take_main(alloc, budget, item)?,
            ItemType::Long | ItemType::Reserved => {}
        }
        Ok(())
    }

    /// Where the next item stands, with the number of its first field, if it makes fields.
    pub(crate) fn place_of(&self, item: &ItemType, place: ItemPlace) -> Option<GroupPlace>
        ensures { result ≡ place_in self.now place item.now }
    {
        if !is_data(item) || self.item_states.globals().extent().is_none() {
            return None;
        }
        Some(GroupPlace {
            number: self.field_count,
            place,
        })
    }

    /// Whether an item is a data item that would make fields with data, and there are no usages.
    pub(crate) fn lacks_usages(&self, alloc: Global, item: &ItemType) -> Result<bool, AllocError>
        ensures { IfOk result (λ lacks. lacks ≡ is_missing_usages (fault_in self.now item.now)) }
    {
        let ItemType::Main(item) = item else {
            return Ok(false);
        };
        let item = match item {
            MainItem::Input(item) => DataItem::from(*item),
            MainItem::Output(item) => DataItem::from(*item),
            MainItem::Feature(item) => DataItem::from(*item),
            MainItem::Collection(_) => return Ok(false),
            MainItem::EndCollection => return Ok(false),
        };
        self.data_lacks_usages(alloc, &item)
    }

    /// The same of a data item.
    fn data_lacks_usages(&self, alloc: Global, item: &DataItem) -> Result<bool, AllocError>
        ensures { IfOk result (λ lacks.
            lacks ≡ is_missing_usages (fault_in self.now (as_item item.now))) }
    {
        if self.item_states.globals().extent().is_none() {
            return Ok(false);
        }
        let spans = spans_in(alloc, &self.item_states)?;
        match needed_usages(item, &self.item_states, spans.as_slice()) {
            Ok(_) => Ok(false),
            Err(fault) => Ok(fault.is_missing_usages()),
        }
    }

    /// Whether an item is a negative maximum, and no negative minimum is in force.
    pub(crate) fn is_meant_unsigned(&self, item: &ItemType) -> bool
        ensures { result ≡ is_meant_unsigned self.now.item_state (Some item.now) }
    {
        let globals = self.item_states.globals();
        match item {
            ItemType::Global(GlobalItem::LogicalMaximum(maximum)) => {
                i32::from(*maximum) < 0
                    && globals
                        .logical_minimum
                        .is_none_or(|minimum| i32::from(minimum) >= 0)
            }
            ItemType::Global(GlobalItem::PhysicalMaximum(maximum)) => {
                i32::from(*maximum) < 0
                    && globals
                        .physical_minimum
                        .is_none_or(|minimum| i32::from(minimum) >= 0)
            }
            _ => false,
        }
    }

    /// A Push keeps what is in force, a Pop brings it back, any other item sets a value.
    fn take_global(&mut self, item: GlobalItem) -> Result<(), Fault>
        ensures ok { OnOk result (step self.old (ItemType.Global item) ≡ Ok self.new) }
        ensures err { IfErr result (λ e. IsFaultOf e (fault_in self.old (ItemType.Global item))) }
    {
        match item {
            GlobalItem::Push => self.item_states.push()?,
            GlobalItem::Pop => {
                if !self.item_states.pop() {
                    return Err(Fault::TooManyPops);
                }
            }
            item => self.item_states.set(item)?,
        }
        Ok(())
    }

    /// The locals end with the item.
    fn take_main(&mut self, alloc: Global, budget: &mut Budget, item: MainItem) -> Result<(), Fault>
        ensures ok { OnOk result (step self.old (ItemType.Main item) ≡ Ok self.new) }
        ensures within { OnOk result
            (is_past budget.old (weight_in self.old (ItemType.Main item)) ≡ false) }
        ensures left { OnOk result (budget.new
            ≡ left_behind budget.old (weight_in self.old (ItemType.Main item))) }
        ensures err { IfErr result (λ e.
            IsFaultOf e (stop_in budget.old self.old (ItemType.Main item))) }
    {
        match item {
            MainItem::Input(item) => self.add_data(alloc, budget, &DataItem::from(item))?,
            MainItem::Output(item) => self.add_data(alloc, budget, &DataItem::from(item))?,
            MainItem::Feature(item) => self.add_data(alloc, budget, &DataItem::from(item))?,
            MainItem::Collection(item) => self.open_collection(alloc, budget, item)?,
            MainItem::EndCollection => self.close_collection()?,
        }
        self.item_states.end_locals()?;
        Ok(())
    }

    /// Adds the fields of a data item to their report, which is made at need.
    fn add_data(&mut self, alloc: Global, budget: &mut Budget, item: &DataItem) -> Result<(), Fault>
        ensures faultless { OnOk result (fault_in self.old (as_item item.now) ≡ None) }
        ensures within { OnOk result
            (is_past budget.old (weight_in self.old (as_item item.now)) ≡ false) }
        ensures left { OnOk result (budget.new
            ≡ left_behind budget.old (weight_in self.old (as_item item.now))) }
        ensures held { OnOk result (self.new ≡ record self.old {
          descriptor = (next_state self.old (as_item item.now)).descriptor;
          outline = (next_state self.old (as_item item.now)).outline;
          fields = (next_state self.old (as_item item.now)).fields;
        }) }
        ensures err { IfErr result (λ e.
            IsFaultOf e (stop_in budget.old self.old (as_item item.now))) }
    {
        let globals = self.item_states.globals();
        let Some(extent) = globals.extent() else {
            return Ok(());
        };
        let spans = spans_in(alloc, &self.item_states)?;
        let usages = match needed_usages(item, &self.item_states, spans.as_slice()) {
            Ok(usages) => usages,
            Err(fault) => return Err(fault),
        };
        let room = self.reports.begin(item.direction, globals.report_id);
        let bits = bits_within(room.first_bit, extent.size, extent.count)?;
        let field_count = item.field_count(extent.count) as u64;
        if field_count > FIELD_IDS || self.field_count > FIELD_IDS - field_count {
            return Err(Fault::OutOfBounds);
        }
        let each = weight_of_each(item, &usages, self.collections.weight());
        budget.spend(item.field_count(extent.count), each)?;
        let layout = Layout {
            report_id: globals.report_id,
            report_count: globals.report_count,
            measures: globals.measures(),
            item: *item,
            collections: self.collections.shared_by(alloc, item)?,
            first_id: self.field_count,
            first_bit: room.first_bit,
            size: extent.size,
            count: extent.count,
        };
        self.reports.add(alloc, room.slot, bits, &layout, &usages)?;
        self.collections.keep(layout.collections);
        self.field_count += field_count;
        Ok(())
    }

    /// Opens a collection with the usages in force.
    fn open_collection(
        &mut self,
        alloc: Global,
        budget: &mut Budget,
        item: CollectionItem,
    ) -> Result<(), Fault>
        ensures faultless { OnOk result (fault_in self.old (collection item) ≡ None) }
        ensures within { OnOk result
            (is_past budget.old (weight_in self.old (collection item)) ≡ false) }
        ensures left { OnOk result (budget.new
            ≡ left_behind budget.old (weight_in self.old (collection item))) }
        ensures held { OnOk result (self.new ≡ record self.old {
          opened = next_opened self.old (collection item);
          collections = self.old.collections + 1;
        }) }
        ensures err { IfErr result (λ e.
            IsFaultOf e (stop_in budget.old self.old (collection item))) }
    {
        let spans = spans_in(alloc, &self.item_states)?;
        let usages = match usages_of(&self.item_states, spans.as_slice()) {
            Ok(usages) => usages,
            Err(fault) => return Err(fault),
        };
        if self.collections.count() >= COLLECTION_IDS {
            return Err(Fault::OutOfBounds);
        }
        budget.spend(1, 1 + usages.count())?;
        self.collections.open(alloc, item, &usages)?;
        Ok(())
    }

    /// Closes the collection that was opened last.
    fn close_collection(&mut self) -> Result<(), Fault>
        ensures faultless { OnOk result (fault_in self.old end_collection ≡ None) }
        ensures held { OnOk result (self.new ≡ record self.old {
          opened = next_opened self.old end_collection;
        }) }
        ensures err { IfErr result (λ e. IsFaultOf e (fault_in self.old end_collection)) }
    {
        if self.collections.close() {
            Ok(())
        } else {
            Err(Fault::TooManyEnds)
        }
    }

    /// The reports that the items made.
    pub(crate) fn into_reports(self) -> OutlineReports
        ensures { result ≡ self.outline }
    {
        self.reports.into_reports()
    }
}

/// Whether an item is a data item.
fn is_data(item: &ItemType) -> bool
    ensures { result ≡ is_some (data_of item.now) }
{
    match item {
        ItemType::Main(MainItem::Input(_)) => true,
        ItemType::Main(MainItem::Output(_)) => true,
        ItemType::Main(MainItem::Feature(_)) => true,
        _ => false,
    }
}

/// The usages of a data item, of which it needs some unless it is constant.
fn needed_usages<'a>(
    item: &DataItem,
    item_states: &'a ItemStateTable,
    spans: &'a [UsageSpan],
) -> Result<Usages<'a>, Fault>
    requires { spans.now ≡ spans_in item_states.now.now }
    ensures faultless { OnOk result (usages_fault item.now.flags item_states.now.now ≡ None) }
    ensures usages { IfOk result (HasUsages item.now.flags item_states.now.now) }
    ensures err { IfErr result (λ e.
        IsFaultOf e (usages_fault item.now.flags item_states.now.now)) }
    ensures named { IfErr result (λ e. fault_named e ≢ None) }
{
    if item.flags.is_constant {
        return Ok(Usages::none());
    }
    let usages = match usages_of(item_states, spans) {
        Ok(usages) => usages,
        Err(fault) => return Err(fault),
    };
    if usages.count() == 0 {
        return Err(Fault::MissingUsages);
    }
    Ok(usages)
}
