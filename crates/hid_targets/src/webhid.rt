//! The collections of a descriptor as WebHID's `HIDDevice.collections` has them, as JSON.
mod item_object;
mod locals;

use crate::webhid::item_object::item_object;
use crate::webhid::locals::Locals;
use anyhow::{Result, ensure};
use hid_items::items::{ItemCursor, ItemState, PlacedItem};
use hid_output::add_json;
use hidreport::Direction;
use hidreport::hid::{ItemType, MainItem};
use hidreport_items::ItemFlags;
use std::alloc::{AllocError, Global};
use std::fmt::Write;

/// How many bytes the items of all reports may have.
const MOST: usize = 4 * 1024 * 1024;

/// The lists of a collection's reports.
static LISTS: [(Direction, &str); 3] = [
    (Direction::Input, "inputReports"),
    (Direction::Output, "outputReports"),
    (Direction::Feature, "featureReports"),
];

/// An item of a report in a collection.
#[derive(Clone, Copy)]
struct Listed {
    direction: Direction,
    /// The report's id, or 0.
    id: u8,
    /// Where it stands among the items of the outermost collection.
    place: usize,
}

/// What is written so far.
#[derive(Drop)]
struct Collections {
    text: String,
    state: ItemState,
    locals: Locals,
    /// The items in each open collection, outermost first.
    open: Vec<Vec<Listed>>,
    /// The items of the outermost collection that is open, as JSON.
    items: Vec<String>,
    /// How many bytes items may still have.
    left: usize,
    /// What stands before the next collection.
    gap: &'static str,
}

/// The collections of a descriptor that is read, as a list of JSON.
pub fn collections_of(alloc: Global, bytes: &[u8]) -> Result<String> {
    let mut collections = Collections::new(alloc);
    collections.write(bytes)?;
    Ok(collections.text)
}

impl Collections {
    /// Writes those of a descriptor.
    fn write(&mut self, bytes: &[u8]) -> Result<()> {
        self.text.push_str("[")?;
        for entry in ItemCursor::new(bytes) {
            self.pass(&entry)?;
            self.state.pass(&entry)?;
        }
        for _ in 0..self.open.len() {
            self.close()?;
        }
        Ok(self.text.push_str("\n]\n")?)
    }

    /// Before the first item.
    fn new(alloc: Global) -> Collections {
        Collections {
            text: String::new(alloc),
            state: ItemState::new(alloc),
            locals: Locals::new(alloc),
            open: Vec::new(alloc),
            items: Vec::new(alloc),
            left: MOST,
            gap: "\n",
        }
    }

    /// Goes over an item, before its globals are in force.
    fn pass(&mut self, entry: &PlacedItem) -> Result<()> {
        match &entry.item {
            ItemType::Main(item) => {
                self.pass_main(item)?;
                self.locals.clear();
                Ok(())
            }
            ItemType::Local(item) => Ok(self.locals.pass(self.state.page(), item)?),
            _ => Ok(()),
        }
    }

    fn pass_main(&mut self, item: &MainItem) -> Result<()> {
        match item {
            MainItem::Input(item) => self.add_item(Direction::Input, item.flags()),
            MainItem::Output(item) => self.add_item(Direction::Output, item.flags()),
            MainItem::Feature(item) => self.add_item(Direction::Feature, item.flags()),
            MainItem::Collection(kind) => Ok(self.open(u8::from(kind))?),
            MainItem::EndCollection => self.close(),
        }
    }

    /// Opens a collection of this kind.
    fn open(&mut self, kind: u8) -> Result<(), AllocError> {
        let usage = self.locals.first();
        let (gap, page, id) = (self.gap, usage >> 16, usage & 0xffff);
        write!(
            self.text,
            "{gap}{{\"usagePage\":{page},\"usage\":{id},\"type\":{kind},\"children\":["
        )?;
        self.gap = "\n";
        Ok(self.open.push(Vec::new(*self.text.allocator()))?)
    }

    /// Closes the collection that was opened last: its children are written, its reports follow.
    fn close(&mut self) -> Result<()> {
        let Some(mut listed) = self.open.pop() else {
            return Ok(());
        };
        listed.sort_by_key(|it| it.id)?;
        self.text.push_str("]")?;
        for (direction, name) in &LISTS {
            self.add_reports(*direction, name, &listed)?;
        }
        self.text.push_str("}")?;
        self.gap = ",\n";
        if self.open.is_empty() {
            self.items.clear();
        }
        Ok(())
    }

    /// Lists an item in each collection around it; one in none is in no report of WebHID.
    fn add_item(&mut self, direction: Direction, flags: ItemFlags) -> Result<()> {
        let depth = self.open.len();
        if depth == 0 {
            return Ok(());
        }
        let mut line = String::new(*self.text.allocator());
        let globals = &self.state.globals;
        add_json(&mut line, &item_object(flags, globals, &self.locals))?;
        let wanted = line.len().saturating_mul(depth);
        ensure!(
            wanted <= self.left,
            "items that each collection around them lists have more than {MOST} bytes of JSON"
        );
        self.left -= wanted;
        let listed = Listed {
            direction,
            id: globals.report_id,
            place: self.items.len(),
        };
        for own in self.open.iter_mut() {
            own.push(listed)?;
        }
        Ok(self.items.push(line)?)
    }

    /// Appends the list of the reports of a direction, whose items are in the order of their ids.
    fn add_reports(
        &mut self,
        direction: Direction,
        name: &str,
        listed: &[Listed],
    ) -> Result<(), AllocError> {
        write!(self.text, ",\n\"{name}\":[")?;
        let mut last = None;
        for own in listed {
            if own.direction != direction {
                continue;
            }
            self.add_gap(last, own.id)?;
            last = Some(own.id);
            if let Some(item) = self.items.get(own.place) {
                self.text.push_str(item.trim_end())?;
            }
        }
        self.text.push_str(if last.is_some() { "]}]" } else { "]" })
    }

    /// Appends what stands before an item of the report with this id, behind one of the last.
    fn add_gap(&mut self, last: Option<u8>, id: u8) -> Result<(), AllocError> {
        if last == Some(id) {
            return self.text.push_str(",\n");
        }
        let end = if last.is_some() { "]},\n" } else { "" };
        write!(self.text, "{end}{{\"reportId\":{id},\"items\":[\n")
    }
}
