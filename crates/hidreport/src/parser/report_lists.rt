//! The reports of the three directions so far (Section 5.6).
use crate::parser::layout::Layout;
use crate::parser::report_list::ReportList;
use crate::parser::slot::{Room, Slot};
use crate::parser::usages::Usages;
use crate::report::outline_reports::OutlineReports;
use hidreport_fields::Direction;
use hidreport_types::ReportId;
use std::alloc::{AllocError, Global};
use std::marker::Model;

/// The reports of the three directions so far (Section 6.2.2.4).
#[derive(Drop)]
pub(crate) struct ReportLists {
    input: ReportList,
    output: ReportList,
    feature: ReportList,
}

impl Model for ReportLists {
    ghost use Rattle.hidreport.specs.Groups.{OutlineRecord};

    ghost Value = { OutlineRecord };

    ghost view = { λ r. record { input = r.input; output = r.output; feature = r.feature } };
}

impl ReportLists {
    ghost use Rattle.std.specs.Prelude.{◌≡◌, ◌+◌, ◌<◌, ◌^◌, ◌∷◌, [], OnOk};
    ghost use Rattle.hidreport.specs.Groups.{listed};
    ghost use Rattle.hidreport.specs.ItemState.{first_of};
    ghost use Rattle.hidreport.specs.Parser.Groups.{group_of};
    ghost use Rattle.hidreport.specs.Parser.Layout.{IsPossible};
    ghost use Rattle.hidreport_fields.specs.Lookup.{reports_of};
    ghost use Rattle.hidreport.specs.Parser.Machine.{added_to, first_id, index_in, size_in, with_reports};
    ghost use Rattle.hidreport.specs.Parser.Usages.{usage_list};

    /// There are none. It takes no memory.
    pub(crate) fn new(alloc: Global) -> ReportLists
        ensures { result ≡ record { input = []; output = []; feature = [] } }
    {
        ReportLists {
            input: ReportList::new(alloc),
            output: ReportList::new(alloc),
            feature: ReportList::new(alloc),
        }
    }

    /// Where fields of a direction begin with this id in force: without one in the first report.
    pub(crate) fn begin(&self, direction: Direction, id: Option<ReportId>) -> Room
        ensures key { result.slot.key
            ≡ first_of id (first_id (reports_of direction (listed self.now))) }
        ensures index { result.slot.index
            ≡ index_in result.slot.key (reports_of direction self.now) }
        ensures first { result.first_bit
            ≡ size_in result.slot.key (reports_of direction (listed self.now)) }
        ensures free { result.first_bit ≡ size_in result.slot.key (reports_of direction self.now) }
    {
        self.room(direction, id)
    }

    /// The same, said by the groups that are there.
    fn room(&self, direction: Direction, id: Option<ReportId>) -> Room
        ensures key { result.slot.key ≡ first_of id (first_id (reports_of direction self.now)) }
        ensures index { result.slot.index
            ≡ index_in result.slot.key (reports_of direction self.now) }
        ensures first { result.first_bit ≡ size_in result.slot.key (reports_of direction self.now) }
    {
        match direction {
            Direction::Input => self.input.begin(id),
            Direction::Output => self.output.begin(id),
            Direction::Feature => self.feature.begin(id),
        }
    }

    /// Adds an item's fields, which take so many bits, to the report that `slot` names.
    #[inline(always)]
    pub(crate) fn add(
        &mut self,
        alloc: Global,
        slot: Slot,
        bits: usize,
        layout: &Layout,
        usages: &Usages,
    ) -> Result<(), AllocError>
        requires slot { let old = reports_of layout.now.item.direction self.old in
            slot.index ≡ index_in slot.key old }
        requires bits { let old = reports_of layout.now.item.direction self.old in
            size_in slot.key old + bits < 2 ^ 64 }
        requires possible { IsPossible layout.now (usage_list usages.now) }
        ensures { let old = reports_of layout.now.item.direction self.old in
            OnOk result (self.new ≡ with_reports layout.now.item.direction
            (added_to slot.key bits (group_of layout.now (usage_list usages.now) ∷ []) old)
            self.old) }
    {
        match layout.item.direction {
            Direction::Input => self.input.add(alloc, slot, bits, layout, usages),
            Direction::Output => self.output.add(alloc, slot, bits, layout, usages),
            Direction::Feature => self.feature.add(alloc, slot, bits, layout, usages),
        }
    }

    /// All of them.
    pub(crate) fn into_reports(self) -> OutlineReports
        ensures { result ≡ self }
    {
        OutlineReports {
            input: self.input.into_reports(),
            output: self.output.into_reports(),
            feature: self.feature.into_reports(),
        }
    }
}
