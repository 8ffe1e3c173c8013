//! What is odd in a descriptor, and what the standard says.
use crate::data_findings::{DataItem, tell_unit};
use crate::finding::{Finding, tell, tell_by};
use crate::host_findings::{Host, Verdict, tell_host};
use crate::local_usages::LocalUsages;
use crate::mistakes::tell_mistakes;
use crate::other_usages::tell_other_usages;
use crate::report_findings::tell_reports;
use crate::rule::Rule;
use crate::source::Source;
use hid_input::settings::Settings;
use hid_items::cut_data::cut_remark;
use hid_items::items::{ItemCursor, ItemState, PlacedItem};
use hid_words::{fault_offset, fault_words};
use hidreport::hid::{CollectionItem, GlobalItem, ItemFlags, ItemType, MainItem};
use hidreport::{ParserError, ReportDescriptor};
use std::alloc::{AllocError, Global};

/// What the items so far say.
#[derive(Drop)]
struct Watch {
    alloc: Global,
    findings: Vec<Finding>,
    state: ItemState,
    usages: LocalUsages,
    told_unit: Option<u32>,
    told_switches: Option<usize>,
}

/// What is odd in a descriptor.
#[derive(Drop)]
pub struct Checked {
    /// All that is odd, in the order of the offsets; what is of no item comes last.
    pub findings: Vec<Finding>,
    /// What the host does with the descriptor, where that is known.
    pub verdict: Option<Verdict>,
}

/// All that is odd, and what the host does.
pub fn findings(
    alloc: Global,
    settings: &Settings,
    bytes: &[u8],
    parsed: &Result<ReportDescriptor, ParserError>,
    host: Option<Host>,
) -> Result<Checked, AllocError> {
    let mut watch = Watch::new(alloc);
    watch.pass_all(bytes)?;
    match parsed {
        // Nothing is left of what Linux reads, so no other reading differs.
        Ok(_descriptor) if bytes.is_empty() => {}
        Ok(descriptor) => {
            tell_reports(descriptor, &mut watch.findings)?;
            tell_other_usages(alloc, settings, bytes, descriptor, &mut watch.findings)?;
        }
        Err(fault) => watch.tell_refusal(fault)?,
    }
    let mut findings = watch.findings;
    let verdict = match host {
        Some(host) => tell_host(settings, bytes, parsed, host, &mut findings)?,
        None => None,
    };
    findings.sort_by_key(|it| it.offset.unwrap_or(usize::MAX))?;
    Ok(Checked { findings, verdict })
}

impl Watch {
    /// Before the first item.
    fn new(alloc: Global) -> Watch {
        Watch {
            alloc,
            findings: Vec::new(alloc),
            state: ItemState::new(alloc),
            usages: LocalUsages::new(),
            told_unit: None,
            told_switches: None,
        }
    }

    /// Notes what is odd at an offset.
    fn tell(&mut self, offset: usize, remark: &str, rule: Rule) -> Result<(), AllocError> {
        tell(&mut self.findings, Some(offset), remark, rule)
    }

    /// Goes over all items.
    fn pass_all(&mut self, bytes: &[u8]) -> Result<(), AllocError> {
        let mut cursor = ItemCursor::new(bytes);
        for entry in cursor.by_ref() {
            self.pass(&entry)?;
            self.state.pass(&entry)?;
        }
        self.tell_unused()?;
        // What stands behind an item that can't be read may still close them.
        if cursor.rest().is_empty() {
            self.tell_open()?;
            self.tell_pushed()?;
        }
        Ok(())
    }

    /// Notes why a descriptor is refused.
    fn tell_refusal(&mut self, fault: &ParserError) -> Result<(), AllocError> {
        let remark = fault_words(fault);
        let remark = format!(in self.alloc; "refused: {remark}")?;
        let offset = fault_offset(fault);
        tell(&mut self.findings, offset, &remark, Rule::Refused)
    }

    /// Goes over an item.
    fn pass(&mut self, entry: &PlacedItem) -> Result<(), AllocError> {
        let offset = entry.offset;
        if let Some(remark) = cut_remark(self.alloc, entry)? {
            let (findings, source) = (&mut self.findings, section_of(&entry.item));
            tell_by(findings, Some(offset), &remark, Rule::DataCut, source)?;
            if matches!(entry.item, ItemType::Global(_)) {
                return Ok(());
            }
        }
        match entry.item {
            ItemType::Main(item) => self.pass_main(offset, item),
            ItemType::Global(item) => self.pass_global(offset, &item),
            ItemType::Local(item) => {
                self.usages.pass(offset, item);
                Ok(())
            }
            ItemType::Long => self.tell(offset, "a long item: none is defined", Rule::LongItem),
            ItemType::Reserved => self.tell(offset, "its type is reserved", Rule::ReservedType),
        }
    }

    fn pass_main(&mut self, offset: usize, item: MainItem) -> Result<(), AllocError> {
        match item {
            MainItem::Collection(kind) => self.open_collection(offset, kind)?,
            MainItem::EndCollection => self.tell_unused()?,
            MainItem::Input(item) => self.tell_data(offset, item.flags())?,
            MainItem::Output(item) => self.tell_data(offset, item.flags())?,
            MainItem::Feature(item) => self.tell_data(offset, item.flags())?,
        }
        self.usages = LocalUsages::new();
        Ok(())
    }

    /// Notes an outermost collection that is no Application, and an Application without a usage.
    fn open_collection(&mut self, offset: usize, kind: CollectionItem) -> Result<(), AllocError> {
        if kind == CollectionItem::Application {
            return self.tell_no_usage(offset);
        }
        if self.state.open.is_empty() {
            self.tell(
                offset,
                "an outermost collection is an Application",
                Rule::OutermostKind,
            )?;
        }
        Ok(())
    }

    /// Notes that a collection which names what the device is has no usage.
    fn tell_no_usage(&mut self, offset: usize) -> Result<(), AllocError> {
        if self.usages.count == 0 {
            return self.tell(
                offset,
                "an Application has no usage",
                Rule::NamelessApplication,
            );
        }
        Ok(())
    }

    /// Notes what is odd at an Input, Output or Feature.
    fn tell_data(&mut self, offset: usize, flags: ItemFlags) -> Result<(), AllocError> {
        self.tell_place(offset)?;
        self.tell_no_bits(offset)?;
        if flags.is_constant {
            return Ok(());
        }
        let is_variable = flags.is_variable;
        let item = DataItem {
            alloc: self.alloc,
            offset,
            is_variable,
            flags,
            globals: self.state.globals,
            usages: self.usages,
        };
        item.tell(&mut self.findings)?;
        tell_mistakes(&item, &mut self.told_switches, &mut self.findings)?;
        tell_unit(&mut self.findings, &item, &mut self.told_unit)
    }

    /// Notes that no collection is open.
    fn tell_place(&mut self, offset: usize) -> Result<(), AllocError> {
        if self.state.open.is_empty() {
            return self.tell(offset, "it lies in no collection", Rule::OutsideCollections);
        }
        Ok(())
    }

    /// Notes that there is nothing to hold a value.
    fn tell_no_bits(&mut self, offset: usize) -> Result<(), AllocError> {
        if self.state.globals.size == 0 || self.state.globals.count == 0 {
            return self.tell(offset, "it has no bits", Rule::NoBits);
        }
        Ok(())
    }

    fn pass_global(&mut self, offset: usize, item: &GlobalItem) -> Result<(), AllocError> {
        match item {
            GlobalItem::ReportId(id) if u8::from(id) == 0 => {
                self.tell(offset, "the report id 0 is reserved", Rule::ReportIdZero)
            }
            GlobalItem::Reserved => self.tell(offset, "its tag is reserved", Rule::ReservedTag),
            _ => Ok(()),
        }
    }

    /// Notes that usages stand behind the last item that could use them.
    fn tell_unused(&mut self) -> Result<(), AllocError> {
        if self.usages.count == 0 {
            return Ok(());
        }
        self.tell(
            self.usages.first_offset,
            "no item uses the usages from here on",
            Rule::UnusedUsages,
        )
    }

    fn tell_open(&mut self) -> Result<(), AllocError> {
        for index in 0..self.state.open.len() {
            if let Some(offset) = self.state.open.get(index).copied() {
                self.tell(offset, "the collection isn't closed", Rule::OpenCollection)?;
            }
        }
        Ok(())
    }

    fn tell_pushed(&mut self) -> Result<(), AllocError> {
        for index in 0..self.state.pushed.len() {
            if let Some((offset, _globals)) = self.state.pushed.get(index).copied() {
                self.tell(offset, "what is kept is never brought back", Rule::LonePush)?;
            }
        }
        Ok(())
    }
}

/// Where the standard says what an item's data is.
fn section_of(item: &ItemType) -> Source {
    match item {
        ItemType::Main(MainItem::Collection(_)) => Source::CollectionItems,
        ItemType::Main(_) => Source::DataItems,
        ItemType::Global(_) => Source::GlobalItems,
        _ => Source::LocalItems,
    }
}
