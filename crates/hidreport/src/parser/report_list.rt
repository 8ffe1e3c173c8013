//! The reports of one direction so far (Section 5.6).
ghost use Rattle.std.specs.Prelude.{◌≡◌, ◌+◌, ◌<◌, ◌^◌, OnOk};

use crate::parser::layout::Layout;
use crate::parser::slot::{Room, Slot, add_fields, size_at, slot_of, widened};
use crate::parser::usages::Usages;
use crate::report::outline_report::OutlineReport;
use hidreport_types::ReportId;
use std::alloc::{AllocError, Global};
use std::marker::Model;

/// The reports of one direction so far, in the order of their first fields (Section 5.6).
///
/// Items of one report mostly follow each other, and ids mostly rise; so the slot of the last item
/// is remembered, and a number that all ids are below.
#[derive(Drop)]
pub(crate) struct ReportList {
    reports: Vec<OutlineReport>,
    last: Option<Slot>,
    ids_below: Option<usize>,
}

impl Model for ReportList {
    ghost use Rattle.std.specs.Prelude.{◌≡◌, ◌*◌, List, IfSome};
    ghost use Rattle.hidreport.specs.Parser.Ids.{AllBelow};
    ghost use Rattle.hidreport.specs.Parser.Machine.{index_in};
    ghost use Rattle.hidreport.specs.Groups.{GroupedReport};

    ghost Value = { List GroupedReport };

    ghost view = { λ l. l.reports.items };

    ghost invariant = { λ l.
        IfSome l.last (λ slot. slot.index ≡ index_in slot.key l.reports.items)
        × IfSome l.ids_below (λ bound. AllBelow bound l.reports.items) };
}

impl ReportList {
    ghost use Rattle.std.specs.Prelude.{◌≡◌, ◌+◌, ◌<◌, ◌^◌, ◌∷◌, [], OnOk};
    ghost use Rattle.hidreport.specs.ItemState.{first_of};
    ghost use Rattle.hidreport.specs.Parser.Groups.{group_of};
    ghost use Rattle.hidreport.specs.Parser.Layout.{IsPossible};
    ghost use Rattle.hidreport.specs.Parser.Machine.{added_to, first_id, index_in, size_in};
    ghost use Rattle.hidreport.specs.Parser.Usages.{usage_list};

    /// There are none. It takes no memory.
    pub(crate) fn new(alloc: Global) -> ReportList
        ensures { result ≡ [] }
    {
        ReportList {
            reports: Vec::new(alloc),
            last: None,
            ids_below: Some(0),
        }
    }

    /// Where fields with this id in force begin: without one in the first report.
    #[inline(always)]
    pub(crate) fn begin(&self, id: Option<ReportId>) -> Room
        ensures key { result.slot.key ≡ first_of id (first_id self.now) }
        ensures index { result.slot.index ≡ index_in result.slot.key self.now }
        ensures first { result.first_bit ≡ size_in result.slot.key self.now }
    {
        let slot = slot_of(&self.reports, self.last, self.ids_below, id);
        let first_bit = size_at(&self.reports, &slot);
        Room { slot, first_bit }
    }

    /// Adds an item's fields, which take so many bits, to the report that `slot` names.
    #[inline(always)]
    pub(crate) fn add(
        &mut self,
        alloc: Global,
        slot: Slot,
        bits: usize,
        layout: &Layout,
        usages: &Usages,
    ) -> Result<(), AllocError>
        requires slot { slot.index ≡ index_in slot.key self.old }
        requires bits { size_in slot.key self.old + bits < 2 ^ 64 }
        requires possible { IsPossible layout.now (usage_list usages.now) }
        ensures { OnOk result (self.new
            ≡ added_to slot.key bits (group_of layout.now (usage_list usages.now) ∷ [])
            self.old) }
    {
        let Slot { key, index } = slot;
        let ids_below = widened(self.ids_below, &key);
        self.last = None;
        self.ids_below = None;
        add_fields(alloc, &mut self.reports, slot, bits, layout, usages)?;
        self.last = Some(Slot { key, index });
        self.ids_below = ids_below;
        Ok(())
    }

    /// All of them.
    pub(crate) fn into_reports(self) -> Vec<OutlineReport>
        ensures { result.items ≡ self }
    {
        self.reports
    }
}
