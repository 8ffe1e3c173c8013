//! The items of a descriptor where they stand, and what is in force at each.
ghost use Rattle.std.specs.Iterator.{at_most};

use hidreport::hid::{GlobalItem, ItemType, MainItem};
use hidreport::types::UsagePage;
use hidreport_items::ItemFault;
use hidreport_lists::front_item;
use std::alloc::{AllocError, Global};

/// An item where it stands.
#[derive(Drop)]
pub struct PlacedItem<'a> {
    /// How many bytes stand before it.
    pub offset: usize,
    /// Its bytes.
    pub bytes: &'a [u8],
    /// The item.
    pub item: ItemType,
}

/// A descriptor's items one after the other, up to the end or to bytes that are none.
#[derive(Clone, Copy)]
pub struct ItemCursor<'a> {
    offset: usize,
    rest: &'a [u8],
    /// How many items may follow: at most one for each byte.
    left: usize,
}

impl<'a> ItemCursor<'a> {
    /// Before the first item.
    pub fn new(bytes: &'a [u8]) -> ItemCursor<'a> {
        ItemCursor {
            offset: 0,
            rest: bytes,
            left: bytes.len(),
        }
    }

    /// How many bytes stand before what is left.
    pub fn offset(&self) -> usize {
        self.offset
    }

    /// The bytes that are left.
    pub fn rest(&self) -> &'a [u8] {
        self.rest
    }
}

impl<'a> Iterator for ItemCursor<'a> {
    type Item = PlacedItem<'a>;

    ghost remaining = { λ s. at_most s.left };

    fn next(&mut self) -> Option<PlacedItem<'a>> {
        self.left = self.left.checked_sub(1)?;
        match front_item(self.rest) {
            Ok(front) => {
                let (bytes, rest) = self.rest.split_at(front.size);
                let offset = self.offset;
                self.offset = offset.saturating_add(front.size);
                self.rest = rest;
                Some(PlacedItem {
                    offset,
                    bytes,
                    item: front.item,
                })
            }
            Err(_fault) => None,
        }
    }
}

/// The globals in force that are shown or looked at.
#[derive(Clone, Copy)]
pub struct Globals {
    /// The usage page.
    pub page: UsagePage,
    /// The logical minimum.
    pub minimum: i32,
    /// The logical maximum.
    pub maximum: i32,
    /// Where the logical maximum stands.
    pub maximum_offset: usize,
    /// How many bytes its item has.
    pub maximum_size: usize,
    /// The physical minimum, 0 where none was said.
    pub physical_minimum: i32,
    /// The physical maximum, 0 where none was said.
    pub physical_maximum: i32,
    /// The power of ten of the unit.
    pub exponent: i8,
    /// The bits of a field.
    pub size: usize,
    /// The number of fields.
    pub count: usize,
    /// The report's id, or 0.
    pub report_id: u8,
    /// The unit.
    pub unit: u32,
    /// Where the unit stands.
    pub unit_offset: usize,
}

/// What is in force at an item: globals, open collections and Pushes.
#[derive(Drop)]
pub struct ItemState {
    /// The globals.
    pub globals: Globals,
    /// Where each open collection stands, outermost first.
    pub open: Vec<usize>,
    /// Where each Push stands that waits for its Pop, and what it keeps.
    pub pushed: Vec<(usize, Globals)>,
}

impl ItemState {
    /// Before the first item.
    pub fn new(alloc: Global) -> ItemState {
        ItemState {
            globals: Globals {
                page: UsagePage::from(0),
                minimum: 0,
                maximum: 0,
                maximum_offset: 0,
                maximum_size: 0,
                physical_minimum: 0,
                physical_maximum: 0,
                exponent: 0,
                size: 0,
                count: 0,
                report_id: 0,
                unit: 0,
                unit_offset: 0,
            },
            open: Vec::new(alloc),
            pushed: Vec::new(alloc),
        }
    }

    /// The usage page in force.
    pub fn page(&self) -> UsagePage {
        self.globals.page
    }

    /// How many collections are open around an item.
    pub fn depth_of(&self, item: &ItemType) -> usize {
        let open = self.open.len();
        match item {
            ItemType::Main(MainItem::EndCollection) => open.saturating_sub(1),
            _ => open,
        }
    }

    /// Goes over an item.
    pub fn pass(&mut self, entry: &PlacedItem) -> Result<(), AllocError> {
        match entry.item {
            ItemType::Main(MainItem::Collection(_)) => Ok(self.open.push(entry.offset)?),
            ItemType::Main(MainItem::EndCollection) => {
                let _ = self.open.pop();
                Ok(())
            }
            ItemType::Global(item) => self.pass_global(entry.offset, entry.bytes.len(), &item),
            _ => Ok(()),
        }
    }

    fn pass_global(
        &mut self,
        offset: usize,
        size: usize,
        item: &GlobalItem,
    ) -> Result<(), AllocError> {
        let globals = &mut self.globals;
        match item {
            GlobalItem::UsagePage(page) => globals.page = *page,
            GlobalItem::LogicalMinimum(number) => globals.minimum = i32::from(number),
            GlobalItem::LogicalMaximum(number) => {
                globals.maximum = i32::from(number);
                globals.maximum_offset = offset;
                globals.maximum_size = size;
            }
            GlobalItem::PhysicalMinimum(number) => globals.physical_minimum = i32::from(number),
            GlobalItem::PhysicalMaximum(number) => globals.physical_maximum = i32::from(number),
            GlobalItem::UnitExponent(number) => globals.exponent = number.exponent(),
            GlobalItem::ReportSize(number) => globals.size = usize::from(number),
            GlobalItem::ReportCount(number) => globals.count = usize::from(number),
            GlobalItem::ReportId(id) => globals.report_id = u8::from(id),
            GlobalItem::Unit(unit) => {
                globals.unit = u32::from(unit);
                globals.unit_offset = offset;
            }
            GlobalItem::Push => self.pushed.push((offset, self.globals))?,
            GlobalItem::Pop => {
                if let Some((_offset, globals)) = self.pushed.pop() {
                    self.globals = globals;
                }
            }
            _ => {}
        }
        Ok(())
    }
}
