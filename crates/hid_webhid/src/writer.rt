//! The items of a descriptor: of each collection its usage, its own items of reports, its children.
use crate::collection::{Collection, Report};
use crate::doubt::{Doubt, OF_ITEMS};
use crate::known::{Known, bytes_of, signed_size_of, size_of};
use crate::placing::{Placed, find_own};
use crate::report_item::{GLOBALS, ReportItem, is_low};
use anyhow::Result;
use std::alloc::{AllocError, Global};

/// The first bytes of items without their sizes.
const COLLECTION: u8 = 0xa0;

const PAGE: u8 = 0x04;

const USAGE: u8 = 0x08;

const MINIMUM: u8 = 0x18;

const MAXIMUM: u8 = 0x28;

const ID: u8 = 0x84;

/// Items of one byte.
const END: u8 = 0xc0;

const PUSH: u8 = 0xa4;

const POP: u8 = 0xb4;

/// A collection that is open.
#[derive(Drop)]
struct Open {
    /// Where it stands among all.
    place: usize,
    placed: Placed,
    /// How many of its children are written.
    gap: usize,
}

/// What is written so far.
#[derive(Drop)]
struct Writer {
    bytes: Vec<u8>,
    known: Known,
    /// The id in force, or 0.
    id: u8,
    /// What was in force before the first id.
    pushed: Known,
    /// Whether some reports have an id and others none.
    is_mixed: bool,
    /// What isn't told, each once, and where it is.
    doubts: Vec<(Doubt, String)>,
}

/// The descriptor of all collections; says in notes what they don't tell.
pub fn descriptor_of(
    alloc: Global,
    notes: &mut Vec<String>,
    all: &[Collection],
) -> Result<Vec<u8>> {
    let mut writer = Writer::new(alloc, all)?;
    let mut open: Vec<Open> = Vec::new(alloc);
    for (own, place) in all.iter().zip(0usize..) {
        let entry = Open {
            place,
            placed: find_own(alloc, all, own)?,
            gap: 0,
        };
        writer.add(all, &mut open, own, entry)?;
    }
    writer.close_to(all, &mut open, 0)?;
    for (doubt, path) in writer.doubts.iter() {
        notes.push(format!(in alloc; "{}: {}", path.as_str(), doubt.text())?)?;
    }
    Ok(writer.bytes)
}

/// Whether some reports have an id, and others none.
fn is_mixed(all: &[Collection]) -> bool {
    let has = |is_zero: bool| {
        all.iter().any(|own| own.reports.iter().any(|report| (report.id == 0) == is_zero))
    };
    has(true) && has(false)
}

impl Writer {
    /// Before the first item.
    fn new(alloc: Global, all: &[Collection]) -> Result<Writer, AllocError> {
        Ok(Writer {
            bytes: Vec::new(alloc),
            known: Known::new(alloc)?,
            id: 0,
            pushed: Known::new(alloc)?,
            is_mixed: is_mixed(all),
            doubts: Vec::new(alloc),
        })
    }

    /// Writes a collection up to its children, behind the end of those that don't hold it.
    fn add(
        &mut self,
        all: &[Collection],
        open: &mut Vec<Open>,
        own: &Collection,
        entry: Open,
    ) -> Result<()> {
        self.close_to(all, open, own.depth)?;
        self.open(own)?;
        self.tell_unsure(own, &entry.placed)?;
        self.add_runs(own, &entry)?;
        Ok(open.push(entry)?)
    }

    /// Writes a collection's usage, and its beginning.
    fn open(&mut self, own: &Collection) -> Result<(), AllocError> {
        if own.page != 0 || own.usage != 0 {
            self.set_page(own.page)?;
            self.put(USAGE, i64::from(own.usage), size_of(i64::from(own.usage)))?;
        }
        self.put(COLLECTION, i64::from(own.kind), 1)
    }

    /// Closes collections until so many are open; behind each come items of the one around it.
    fn close_to(&mut self, all: &[Collection], open: &mut Vec<Open>, depth: usize) -> Result<()> {
        for _ in depth..open.len() {
            open.pop();
            self.bytes.push(END)?;
            if let Some(last) = open.last_mut() {
                last.gap = last.gap.saturating_add(1);
                if let Some(own) = all.get(last.place) {
                    self.add_runs(own, last)?;
                }
            }
        }
        Ok(())
    }

    /// Writes the items of a collection that stand behind as many children as are written.
    fn add_runs(&mut self, own: &Collection, entry: &Open) -> Result<()> {
        for run in entry.placed.runs.iter() {
            if run.gap != entry.gap {
                continue;
            }
            let Some(report) = own.reports.get(run.report) else {
                continue;
            };
            for place in run.start..run.end {
                if let Some(item) = report.items.get(place) {
                    self.tell_doubts(report, place, item)?;
                    self.add_item(report, item)?;
                }
            }
        }
        Ok(())
    }

    /// Writes an item of a report.
    fn add_item(&mut self, report: &Report, item: &ReportItem) -> Result<(), AllocError> {
        self.set_id(report.id)?;
        self.set_globals(item)?;
        self.add_usages(item)?;
        let flags = i64::from(item.flags);
        self.put(report.tag, flags, size_of(flags))
    }

    /// Writes an id; one that is 0 again by a Pop.
    fn set_id(&mut self, id: u8) -> Result<(), AllocError> {
        if id == self.id {
            return Ok(());
        }
        if id == 0 {
            self.bytes.push(POP)?;
            self.known.take(&self.pushed)?;
        } else {
            if self.id == 0 && self.is_mixed {
                self.bytes.push(PUSH)?;
                self.pushed.take(&self.known)?;
            }
            self.put(ID, i64::from(id), 1)?;
        }
        self.id = id;
        Ok(())
    }

    /// Writes the globals of an item that are others than those in force.
    fn set_globals(&mut self, item: &ReportItem) -> Result<(), AllocError> {
        let mut minimum = 0;
        for (row, place) in GLOBALS.iter().zip(0usize..) {
            let (tag, is_signed) = (row.0, row.2 < 0);
            let number = item.globals.get(place).copied().unwrap_or(0);
            let least = if is_signed {
                signed_size_of(number)
            } else {
                size_of(number)
            };
            let is_low = matches!(tag, 0x24 | 0x44) && is_low(minimum, number);
            let size = if is_low {
                least.max(bytes_of(item.size()))
            } else {
                least
            };
            minimum = number;
            self.set_global(tag, place, number, size, is_low)?;
        }
        Ok(())
    }

    /// Writes a global that is another than the one in force; if it is low also where that stands
    /// in other bytes.
    fn set_global(
        &mut self,
        tag: u8,
        place: usize,
        number: i64,
        size: usize,
        is_low: bool,
    ) -> Result<(), AllocError> {
        let Some(known) = self.known.globals.get_mut(place) else {
            return Ok(());
        };
        if known.0 == number && (!is_low || known.1 == size) {
            return Ok(());
        }
        *known = (number, size);
        self.put(tag, number, size)
    }

    /// Writes the usages of an item: on the first one's page, those of other pages in four bytes.
    fn add_usages(&mut self, item: &ReportItem) -> Result<(), AllocError> {
        let Some(page) = page_of(item) else {
            return Ok(());
        };
        self.set_page(page)?;
        for usage in item.usages.iter() {
            self.add_usage(USAGE, *usage)?;
        }
        for (tag, usage) in [MINIMUM, MAXIMUM].iter().zip(item.bounds.iter()) {
            self.add_usage(*tag, *usage)?;
        }
        Ok(())
    }

    /// Writes a usage, under its page or in four bytes.
    fn add_usage(&mut self, tag: u8, usage: u32) -> Result<(), AllocError> {
        let number = if usage >> 16 == self.known.page {
            usage & 0xffff
        } else {
            usage
        };
        self.put(tag, i64::from(number), size_of(i64::from(number)))
    }

    /// Writes a page that is another than the one in force.
    fn set_page(&mut self, page: u32) -> Result<(), AllocError> {
        if self.known.page == page {
            return Ok(());
        }
        self.known.page = page;
        self.put(PAGE, i64::from(page), size_of(i64::from(page)))
    }

    /// Writes an item with so many bytes of data.
    fn put(&mut self, tag: u8, number: i64, size: usize) -> Result<(), AllocError> {
        let code = match size {
            1 => 1,
            2 => 2,
            _ => 3,
        };
        self.bytes.push(tag | code)?;
        for byte in number.to_le_bytes().iter().take(size) {
            self.bytes.push(*byte)?;
        }
        Ok(())
    }

    /// Takes what isn't told of an item.
    fn tell_doubts(
        &mut self,
        report: &Report,
        place: usize,
        item: &ReportItem,
    ) -> Result<(), AllocError> {
        let alloc = *self.bytes.allocator();
        for doubt in &OF_ITEMS {
            if doubt.is_of(item) {
                let path = report.path.as_str();
                self.tell(*doubt, format!(in alloc; "{path}.items[{place}]")?)?;
            }
        }
        Ok(())
    }

    /// Takes that a child's items may be others.
    fn tell_unsure(&mut self, own: &Collection, placed: &Placed) -> Result<(), AllocError> {
        let alloc = *self.bytes.allocator();
        let Some(place) = placed.unsure else {
            return Ok(());
        };
        match own.reports.get(place) {
            Some(report) => {
                self.tell(Doubt::Place, String::from_str(alloc, report.path.as_str())?)
            }
            None => Ok(()),
        }
    }

    /// Takes what isn't told, where it is the first of its kind.
    fn tell(&mut self, doubt: Doubt, path: String) -> Result<(), AllocError> {
        if self.doubts.iter().any(|own| own.0 == doubt) {
            return Ok(());
        }
        Ok(self.doubts.push((doubt, path))?)
    }
}

/// The page of an item's first usage; 0 where that is the page of one, since four bytes don't say
/// it.
fn page_of(item: &ReportItem) -> Option<u32> {
    let mut usages = item.usages.iter().chain(item.bounds.iter());
    let first = usages.next()?;
    if usages.any(|usage| *usage < 0x1_0000) {
        return Some(0);
    }
    Some(*first >> 16)
}
