//! What is kept behind an item that isn't refused.
use crate::driver::Driver;
use crate::input_devices::is_input_application;
use crate::linux_field::LinuxCollection;
use crate::reading::core_around::CoreAround;
use crate::reading::core_item::CoreItem;
use crate::reading::placed::{Doubt, Omission};
use crate::reading::reasons::{DoubtReason, LeftOut};
use crate::reading::{LinuxReading, is_feature, is_input};
use hidreport::Direction;
use std::alloc::AllocError;

/// The most items of a report that name usages.
const MOST_ITEMS: u32 = 256;

impl LinuxReading {
    ghost use Rattle.std.specs.Prelude.{◌≡◌, OnOk};
    ghost use Rattle.hidreport_linux.specs.CoreKept.{application_in_force, around_in_force, open_collection};
    ghost use Rattle.hidreport_linux.specs.CoreReading.{behind, behind_collection, behind_data, behind_elements, behind_end, behind_id, behind_local_item, behind_other, behind_page, behind_parts, behind_pop, driver_behind, if_contact, if_elements, if_past_items, overflows, with_cut, with_doubt, with_report};

    /// Goes over an item that isn't refused.
    pub(crate) fn pass(&mut self, offset: usize, item: CoreItem) -> Result<(), AllocError>
        ensures { OnOk result (self.new ≡ behind offset item self.old) }
    {
        if item.is_local() {
            return self.pass_local(offset, item);
        }
        self.pass_other(offset, item)
    }

    /// Goes over a main or a global item.
    fn pass_other(&mut self, offset: usize, item: CoreItem) -> Result<(), AllocError>
        ensures { OnOk result (self.new ≡ behind_other offset item self.old) }
    {
        match item {
            CoreItem::Push => self.pushed.push(self.globals)?,
            CoreItem::Pop => self.pop(),
            CoreItem::Collection(kind) => self.pass_collection(kind)?,
            CoreItem::EndCollection => self.close(),
            CoreItem::Data(direction, flags) => self.pass_data(offset, direction, flags)?,
            CoreItem::UnknownMain => self.locals.clear(),
            CoreItem::LogicalMinimum(number) => self.globals.minimum = number,
            CoreItem::LogicalMaximum(signed, number) => self.globals.set_maximum(signed, number),
            CoreItem::PhysicalMinimum(number) => self.globals.physical_minimum = number,
            CoreItem::PhysicalMaximum(signed, number) => {
                self.globals.set_physical_maximum(signed, number);
            }
            CoreItem::UnitExponent(number) => self.globals.set_exponent(number),
            CoreItem::Unit(number) => self.globals.unit = number,
            CoreItem::ReportSize(bits) => self.globals.size = bits,
            CoreItem::ReportCount(count) => self.globals.count = count,
            CoreItem::ReportId(id) => self.globals.id = id,
            CoreItem::UsagePage(page) => self.pass_page(offset, page),
            _ => {}
        }
        Ok(())
    }

    /// Goes over a Usage Page, whose number has 16 bits.
    fn pass_page(&mut self, offset: usize, page: u32)
        ensures { self.new ≡ behind_page offset page self.old }
    {
        if page > 0xffff {
            self.doubt_at(offset, DoubtReason::WidePage);
        } else {
            self.globals.page = page;
        }
    }

    /// Goes over a local item.
    fn pass_local(&mut self, offset: usize, item: CoreItem) -> Result<(), AllocError>
        ensures { OnOk result (self.new ≡ behind_local_item offset item self.old) }
    {
        if let Some(reason) = self.locals.doubt(item) {
            self.doubt_at(offset, reason);
        }
        if self.locals.cuts(item) {
            self.leave_out(offset, LeftOut::Usages);
        }
        self.locals.pass(item, self.globals.page)
    }

    /// The globals are those before the last Push again.
    fn pop(&mut self)
        ensures { self.new ≡ behind_pop self.old }
    {
        if let Some(globals) = self.pushed.pop() {
            self.globals = globals;
        }
    }

    /// A collection: what it is of is the first usage.
    fn pass_collection(&mut self, kind: u32) -> Result<(), AllocError>
        ensures { OnOk result (self.new ≡ behind_collection kind self.old) }
    {
        let usage = self.locals.first(self.globals.page);
        let number = self.collections.len();
        let parent = self.open_collection();
        self.collections.push(LinuxCollection {
            parent,
            is_logical: kind == 2,
        })?;
        let around = self.around_in_force().with(number, kind, usage);
        self.around.push(around)?;
        if kind == 1 && self.applications < 2 {
            self.applications += 1;
        }
        self.has_input = self.has_input || kind <= 1 && is_input_application(usage);
        self.driver = self.driver_behind(kind);
        self.locals.clear();
        Ok(())
    }

    /// The usage of the innermost open application, 0 where there is none.
    pub(crate) fn application_in_force(&self) -> u32
        ensures { result ≡ application_in_force self.now }
    {
        self.around_in_force().application
    }

    /// What is in force in the collections that are open.
    pub(crate) fn around_in_force(&self) -> CoreAround
        ensures { result ≡ around_in_force self.now }
    {
        match self.around.last() {
            Some(around) => *around,
            None => CoreAround::none(),
        }
    }

    /// The number of the collection that is open, if one is.
    fn open_collection(&self) -> Option<usize>
        ensures { result ≡ open_collection self.now }
    {
        if self.around.is_empty() {
            None
        } else {
            Some(self.around_in_force().collection)
        }
    }

    /// The driver that asks for the device behind a collection: one of sensors, or hid-vivaldi, which
    /// gives the same codes as hid-generic. The last item that asks for a driver gets its own.
    fn driver_behind(&self, kind: u32) -> Option<Driver>
        ensures { result ≡ driver_behind kind self.now }
    {
        let page = self.globals.page;
        if page == 0xffd1 && self.locals.have(page, 0xffd1_0001) {
            return None;
        }
        if kind <= 1 && page == 0x20 {
            return Some(Driver::SensorHub);
        }
        self.driver
    }

    fn close(&mut self)
        ensures { self.new ≡ behind_end self.old }
    {
        let _closed = self.around.pop();
        self.locals.clear();
    }

    /// An Input, Output or Feature.
    fn pass_data(
        &mut self,
        offset: usize,
        direction: Direction,
        flags: u32,
    ) -> Result<(), AllocError>
        ensures { OnOk result (self.new ≡ behind_data offset direction flags self.old) }
    {
        self.pass_parts(offset, direction, flags)?;
        self.locals.clear();
        Ok(())
    }

    /// All that it says, the local items before it among that.
    fn pass_parts(
        &mut self,
        offset: usize,
        direction: Direction,
        flags: u32,
    ) -> Result<(), AllocError>
        ensures { OnOk result (self.new ≡ behind_parts offset direction flags self.old) }
    {
        self.register_report(direction)?;
        self.add_to_report(direction);
        self.leave_items_out(offset, direction);
        self.ask_for_driver(direction, flags);
        self.note_elements(offset, direction);
        self.keep_field(offset, direction, flags)?;
        self.pass_id(offset);
        Ok(())
    }

    /// Its report has one item more.
    fn add_to_report(&mut self, direction: Direction)
        ensures { self.new ≡ with_report direction self.old }
    {
        let application = self.application_in_force();
        let (has_usages, bits) = (self.locals.have_usages(), self.bits());
        let id = self.globals.id;
        self.reports
            .add(direction, id, application, has_usages, bits);
    }

    /// Of a report 256 items that name usages are kept.
    fn leave_items_out(&mut self, offset: usize, direction: Direction)
        ensures { self.new ≡ if_past_items offset direction self.old }
    {
        if self.reports.of(direction, self.globals.id).items > MOST_ITEMS {
            self.leave_out(offset, LeftOut::Items);
        }
    }

    /// A Contact Identifier in an input item with data asks for hid-multitouch.
    fn ask_for_driver(&mut self, direction: Direction, flags: u32)
        ensures { self.new ≡ if_contact direction flags self.old }
    {
        let has_values = is_input(direction) && flags % 2 == 0;
        if has_values && self.locals.have(self.globals.page, 0x000d_0051) {
            self.driver = Some(Driver::Multitouch);
        }
    }

    /// The elements of an item that names usages.
    fn note_elements(&mut self, offset: usize, direction: Direction)
        ensures { self.new ≡ if_elements offset direction self.old }
    {
        if self.locals.have_usages() && self.globals.count > 0 {
            self.pass_elements(offset, direction);
        }
    }

    /// These elements, of which there are some. hid-core divides 0 less the minimum of a
    /// multiplier by the span of its bounds, in 32 bits each.
    fn pass_elements(&mut self, offset: usize, direction: Direction)
        ensures { self.new ≡ behind_elements offset direction self.old }
    {
        if self.globals.size == 0 {
            self.has_items_without_bits = true;
        }
        if self.overflow.is_none() && self.overflows(direction) {
            self.overflow = Some(offset);
        }
    }

    /// Whether hid-core divides the least number by -1 for an item.
    fn overflows(&self, direction: Direction) -> bool
        ensures { result ≡ overflows direction self.now }
    {
        is_feature(direction)
            && self.globals.are_widest()
            && self.locals.have(self.globals.page, 0x0001_0048)
    }

    /// Whether the report of an item has an id.
    fn pass_id(&mut self, offset: usize)
        ensures { self.new ≡ behind_id offset self.old }
    {
        let has_id = self.globals.id != 0;
        self.has_ids = self.has_ids || has_id;
        self.lacks_ids = self.lacks_ids || !has_id;
        if self.has_ids && self.lacks_ids {
            self.doubt_at(offset, DoubtReason::LacksId);
        }
    }

    /// That an item may be read otherwise, which is kept if it is the first.
    fn doubt_at(&mut self, offset: usize, reason: DoubtReason)
        ensures { self.new ≡ with_doubt offset reason self.old }
    {
        if self.doubt.is_none() {
            self.doubt = Some(Doubt { offset, reason });
        }
    }

    /// That something is left out, which is kept if it is the first.
    fn leave_out(&mut self, offset: usize, what: LeftOut)
        ensures { self.new ≡ with_cut offset what self.old }
    {
        if self.left_out.is_none() {
            self.left_out = Some(Omission { offset, what });
        }
    }
}
