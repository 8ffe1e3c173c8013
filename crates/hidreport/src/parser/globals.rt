//! The values of global items in force (Section 6.2.2.7).
use crate::parser::extent::Extent;
use hidreport_fields::Measures;
use hidreport_items::GlobalItem;
use hidreport_types::{
    LogicalMaximum, LogicalMinimum, PhysicalMaximum, PhysicalMinimum, ReportCount, ReportId,
    ReportSize, Unit, UnitExponent, UsagePage,
};

/// The values of global items that are in force (Section 6.2.2.7).
#[derive(Clone, Copy)]
pub(crate) struct Globals {
    pub(crate) usage_page: Option<UsagePage>,
    pub(crate) logical_minimum: Option<LogicalMinimum>,
    pub(crate) logical_maximum: Option<LogicalMaximum>,
    pub(crate) physical_minimum: Option<PhysicalMinimum>,
    pub(crate) physical_maximum: Option<PhysicalMaximum>,
    pub(crate) unit_exponent: Option<UnitExponent>,
    pub(crate) unit: Option<Unit>,
    pub(crate) report_size: Option<ReportSize>,
    pub(crate) report_id: Option<ReportId>,
    pub(crate) report_count: Option<ReportCount>,
}

impl Globals {
    ghost use Rattle.std.specs.Prelude.{◌≡◌, List, []};
    ghost use Rattle.hidreport.specs.Fields.{measures, physical_bound};
    ghost use Rattle.hidreport.specs.Making.{both_set};
    ghost use Rattle.hidreport_items.specs.declared.item.ItemType.TheVariants as items;
    ghost use Rattle.hidreport.specs.Parser.ItemStates.{item_state_of};
    ghost use Rattle.hidreport.specs.Parser.Machine.{next_item_state, no_item_state};
    ghost use Rattle.hidreport.specs.declared.parser.paged_local.PagedLocal.{PagedLocal};
    ghost use Rattle.hidreport.specs.declared.parser.usages_by.UsagesBy.{UsagesBy};

    /// Nothing is set.
    pub(crate) fn new() -> Globals
        ensures { (by : UsagesBy) → item_state_of by result [] ≡ no_item_state by }
    {
        Globals {
            usage_page: None,
            logical_minimum: None,
            logical_maximum: None,
            physical_minimum: None,
            physical_maximum: None,
            unit_exponent: None,
            unit: None,
            report_size: None,
            report_id: None,
            report_count: None,
        }
    }

    /// Sets the item's value; a Push, a Pop and a reserved item have none.
    #[inline(always)]
    pub(crate) fn set(&mut self, item: GlobalItem)
        ensures { (by : UsagesBy) (locals : List PagedLocal) → item_state_of by self.new locals
            ≡ record (next_item_state (item_state_of by self.old locals) (items.Global item)) {
              locals = locals;
            } }
    {
        match item {
            GlobalItem::UsagePage(page) => self.usage_page = Some(page),
            GlobalItem::LogicalMinimum(bound) => self.logical_minimum = Some(bound),
            GlobalItem::LogicalMaximum(bound) => self.logical_maximum = Some(bound),
            GlobalItem::PhysicalMinimum(bound) => self.physical_minimum = Some(bound),
            GlobalItem::PhysicalMaximum(bound) => self.physical_maximum = Some(bound),
            GlobalItem::UnitExponent(exponent) => self.unit_exponent = Some(exponent),
            GlobalItem::Unit(unit) => self.unit = Some(unit),
            GlobalItem::ReportSize(size) => self.report_size = Some(size),
            GlobalItem::ReportId(id) => self.report_id = Some(id),
            GlobalItem::ReportCount(count) => self.report_count = Some(count),
            GlobalItem::Push | GlobalItem::Pop | GlobalItem::Reserved => {}
        }
    }

    /// The size and the count that make fields: both are set, and neither is 0.
    pub(crate) fn extent(&self) -> Option<Extent>
        ensures { result ≡ both_set self.now.report_size self.now.report_count }
    {
        let size = usize::from(self.report_size?);
        let count = usize::from(self.report_count?);
        if size == 0 || count == 0 {
            None
        } else {
            Some(Extent { size, count })
        }
    }

    /// What fields with data have of them; logical bounds that aren't set are 0.
    #[inline(always)]
    pub(crate) fn measures(&self) -> Measures
        ensures { (by : UsagesBy) → result ≡ measures (item_state_of by self.now []) }
    {
        Measures {
            logical_minimum: self.logical_minimum.unwrap_or(LogicalMinimum::from(0)),
            logical_maximum: self.logical_maximum.unwrap_or(LogicalMaximum::from(0)),
            physical_minimum: self.physical_minimum(),
            physical_maximum: self.physical_maximum(),
            unit: self.unit,
            unit_exponent: self.unit_exponent,
        }
    }

    /// The physical minimum; where just the other physical bound is set it is 0.
    fn physical_minimum(&self) -> Option<PhysicalMinimum>
        ensures { result ≡ physical_bound self.now.physical_minimum self.now.physical_maximum }
    {
        self.physical_minimum
            .or(self.physical_maximum.map(|_| PhysicalMinimum::from(0)))
    }

    /// The same of the physical maximum.
    fn physical_maximum(&self) -> Option<PhysicalMaximum>
        ensures { result ≡ physical_bound self.now.physical_maximum self.now.physical_minimum }
    {
        self.physical_maximum
            .or(self.physical_minimum.map(|_| PhysicalMaximum::from(0)))
    }
}
