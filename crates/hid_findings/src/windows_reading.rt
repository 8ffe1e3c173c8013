//! How Windows' parser reads a descriptor: what it refuses, by the refusals of its hidpddi.h.
//! Others of its rules aren't known.
use crate::finding::{Finding, tell};
use crate::local_usages::LocalUsages;
use crate::windows_items::WindowsItems;
use crate::windows_refusal::WindowsRefusal;
use hid_items::items::{ItemState, PlacedItem};
use hidreport::hid::{GlobalItem, ItemFlags, ItemType, LocalItem, MainItem};
use std::alloc::{AllocError, Global};
use std::fmt::Write;

/// How many report ids there are, with 0 for none.
const IDS: usize = 256;

/// What Windows has read so far; each kind of refusal is told where it first stands.
#[derive(Drop)]
struct WindowsReading {
    state: ItemState,
    usages: LocalUsages,
    is_in_set: bool,
    collections: usize,
    owners: Vec<usize>,
    has_ids: bool,
    lacks_ids: bool,
    told: Vec<(usize, WindowsRefusal)>,
}

/// Notes what Windows refuses in the items.
pub fn tell_windows(bytes: &[u8], findings: &mut Vec<Finding>) -> Result<(), AllocError> {
    let reading = WindowsReading::of(*findings.allocator(), bytes)?;
    for (offset, refusal) in &reading.told {
        let remark = refusal_remark(*findings.allocator(), *refusal)?;
        tell(findings, Some(*offset), &remark, refusal.rule())?;
    }
    Ok(())
}

/// What is said of a refusal.
pub fn refusal_remark(alloc: Global, refusal: WindowsRefusal) -> Result<String, AllocError> {
    let (name, reason) = (refusal.name(), refusal.reason());
    let mut remark = String::new(alloc);
    write!(
        remark,
        "Windows refuses it as HIDP_GETCOLDESC_{name}: {reason}"
    )?;
    Ok(remark)
}

impl WindowsReading {
    /// Reads a descriptor.
    fn of(alloc: Global, bytes: &[u8]) -> Result<WindowsReading, AllocError> {
        let mut owners = Vec::new(alloc);
        owners.resize(IDS, 0usize)?;
        let mut reading = WindowsReading {
            state: ItemState::new(alloc),
            usages: LocalUsages::new(),
            is_in_set: false,
            collections: 0,
            owners,
            has_ids: false,
            lacks_ids: false,
            told: Vec::new(alloc),
        };
        reading.pass_all(bytes)?;
        Ok(reading)
    }

    fn pass_all(&mut self, bytes: &[u8]) -> Result<(), AllocError> {
        let mut items = WindowsItems::new(bytes);
        for entry in items.by_ref() {
            self.pass(&entry)?;
            self.state.pass(&entry)?;
        }
        if self.collections == 0 {
            self.refuse(items.offset(), WindowsRefusal::NoData)?;
        }
        Ok(())
    }

    /// Keeps why it is refused, each kind once.
    fn refuse(&mut self, offset: usize, refusal: WindowsRefusal) -> Result<(), AllocError> {
        if self.told.iter().any(|(_offset, it)| *it == refusal) {
            return Ok(());
        }
        Ok(self.told.push((offset, refusal))?)
    }

    /// Goes over an item.
    fn pass(&mut self, entry: &PlacedItem) -> Result<(), AllocError> {
        let offset = entry.offset;
        match entry.item {
            ItemType::Main(item) => self.pass_main(offset, item),
            ItemType::Global(item) => self.pass_global(offset, &item),
            ItemType::Local(item) => {
                self.pass_local(offset, &item)?;
                self.usages.pass(offset, item);
                Ok(())
            }
            ItemType::Reserved => self.refuse(offset, WindowsRefusal::Unknown),
            ItemType::Long => Ok(()),
        }
    }

    fn pass_main(&mut self, offset: usize, item: MainItem) -> Result<(), AllocError> {
        if self.is_in_set {
            self.refuse(offset, WindowsRefusal::NotClosed)?;
        }
        match item {
            MainItem::Collection(_kind) => self.open(offset)?,
            MainItem::EndCollection => self.close(offset)?,
            MainItem::Input(item) => self.pass_data(offset, item.flags())?,
            MainItem::Output(item) => self.pass_data(offset, item.flags())?,
            MainItem::Feature(item) => self.pass_data(offset, item.flags())?,
        }
        self.usages = LocalUsages::new();
        Ok(())
    }

    /// An outermost collection has one usage, and each report an id where there are several.
    fn open(&mut self, offset: usize) -> Result<(), AllocError> {
        if !self.state.open.is_empty() {
            return Ok(());
        }
        self.collections = self.collections.saturating_add(1);
        if self.usages.count != 1 && !self.usages.has_sets {
            self.refuse(offset, WindowsRefusal::TopUsage)?;
        }
        if self.lacks_ids {
            self.refuse(offset, WindowsRefusal::NoId)?;
        }
        Ok(())
    }

    fn close(&mut self, offset: usize) -> Result<(), AllocError> {
        if self.state.open.is_empty() {
            return self.refuse(offset, WindowsRefusal::ExtraEnd);
        }
        Ok(())
    }

    /// An Input, Output or Feature.
    fn pass_data(&mut self, offset: usize, flags: ItemFlags) -> Result<(), AllocError> {
        if self.state.open.is_empty() {
            return self.refuse(offset, WindowsRefusal::Outside);
        }
        if self.usages.count == 0 && !flags.is_constant {
            self.refuse(offset, WindowsRefusal::NoUsage)?;
        }
        if self.usages.has_sets && !flags.is_variable {
            self.refuse(offset, WindowsRefusal::ArrayOfSets)?;
        }
        self.pass_id(offset)
    }

    /// A report has an id if one has, and lies in one outermost collection.
    fn pass_id(&mut self, offset: usize) -> Result<(), AllocError> {
        let id = self.state.globals.report_id;
        self.has_ids = self.has_ids || id != 0;
        self.lacks_ids = self.lacks_ids || id == 0;
        if self.has_ids && self.lacks_ids {
            self.refuse(offset, WindowsRefusal::NoId)?;
        }
        let collections = self.collections;
        let Some(owner) = self.owners.get_mut(usize::from(id)) else {
            return Ok(());
        };
        let is_shared = id != 0 && *owner != 0 && *owner != collections;
        *owner = collections;
        if is_shared {
            self.refuse(offset, WindowsRefusal::IdShared)?;
        }
        Ok(())
    }

    fn pass_global(&mut self, offset: usize, item: &GlobalItem) -> Result<(), AllocError> {
        match item {
            GlobalItem::ReportId(id) => self.pass_report_id(offset, u8::from(id)),
            GlobalItem::Reserved => self.refuse(offset, WindowsRefusal::Unknown),
            _ => Ok(()),
        }
    }

    fn pass_report_id(&mut self, offset: usize, id: u8) -> Result<(), AllocError> {
        if self.state.open.is_empty() {
            self.refuse(offset, WindowsRefusal::IdOutside)?;
        }
        if id == 0 {
            self.refuse(offset, WindowsRefusal::IdZero)?;
        }
        Ok(())
    }

    /// A set of usages that begins or ends, or an item that isn't known.
    fn pass_local(&mut self, offset: usize, item: &LocalItem) -> Result<(), AllocError> {
        match item {
            LocalItem::Delimiter(delimiter) => {
                self.is_in_set = u32::from(delimiter) != 0;
                Ok(())
            }
            LocalItem::Reserved { .. } => self.refuse(offset, WindowsRefusal::Unknown),
            _ => Ok(()),
        }
    }
}
