//! Collections of a device, each with the reports of its items.
use crate::members::{check_list, check_members, number_of};
use crate::report_item::{ReportItem, VOLATILE};
use anyhow::{Context, Result, ensure};
use serde_json::Value;
use std::alloc::Global;

/// The lists of a collection's reports, and the first byte of a main item of each without its size.
static LISTS: [(&str, u8); 3] = [
    ("inputReports", INPUT),
    ("outputReports", 0x90),
    ("featureReports", 0xb0),
];

/// The first byte of an Input without its size.
const INPUT: u8 = 0x80;

/// The members of a collection.
static MEMBERS: [&str; 7] = [
    "usagePage",
    "usage",
    "type",
    "children",
    "inputReports",
    "outputReports",
    "featureReports",
];

/// A collection.
#[derive(Drop)]
pub struct Collection {
    /// Where it stands in the text.
    pub path: String,
    /// In how many others it stands.
    pub depth: usize,
    pub page: u32,
    pub usage: u32,
    pub kind: u8,
    pub reports: Vec<Report>,
    /// Where its children stand among all collections.
    pub children: Vec<usize>,
}

/// The items of a report in a collection, and in those in it.
#[derive(Drop)]
pub struct Report {
    /// Where it stands in the text.
    pub path: String,
    /// The first byte of its main items without their sizes.
    pub tag: u8,
    /// Its id, or 0.
    pub id: u8,
    pub items: Vec<ReportItem>,
}

/// A collection that is still to be read.
#[derive(Drop)]
struct Pending<'a> {
    object: &'a Value,
    path: String,
    depth: usize,
    /// Where the one around it stands among all collections.
    parent: usize,
}

/// All collections of a list, each before its children.
pub fn collections_in(alloc: Global, list: &Value) -> Result<Vec<Collection>> {
    let mut collections: Vec<Collection> = Vec::new(alloc);
    let mut pending = Vec::new(alloc);
    add_pending(alloc, &mut pending, list, "", 0, 0)?;
    for place in 0..usize::MAX {
        let Some(next) = pending.pop() else {
            break;
        };
        add_collection(alloc, &mut collections, &next, place)?;
        add_children(alloc, &mut pending, &next, place)?;
    }
    ensure!(!collections.is_empty(), "has no collection");
    Ok(collections)
}

/// Reads a collection, which stands at this place among all.
fn add_collection(
    alloc: Global,
    collections: &mut Vec<Collection>,
    next: &Pending,
    place: usize,
) -> Result<()> {
    let path = String::from_str(alloc, next.path.as_str())?;
    let collection = read_collection(alloc, next.object, path, next.depth);
    let collection = collection.context(format_args!("{}", next.path.as_str()))?;
    if next.depth > 0
        && let Some(parent) = collections.get_mut(next.parent)
    {
        parent.children.push(place)?;
    }
    Ok(collections.push(collection)?)
}

/// Takes the collections in a collection as the next ones to be read.
fn add_children<'a>(
    alloc: Global,
    pending: &mut Vec<Pending<'a>>,
    next: &Pending<'a>,
    place: usize,
) -> Result<()> {
    let Some(children) = next.object.get("children") else {
        return Ok(());
    };
    let path = format!(in alloc; "{}.children", next.path.as_str())?;
    let depth = next.depth.saturating_add(1);
    add_pending(alloc, pending, children, path.as_str(), depth, place)
}

/// Takes the collections of a list as the next ones to be read.
fn add_pending<'a>(
    alloc: Global,
    pending: &mut Vec<Pending<'a>>,
    list: &'a Value,
    path: &str,
    depth: usize,
    parent: usize,
) -> Result<()> {
    let Value::Array(objects) = list else {
        return Ok(());
    };
    for place in (0..objects.len()).rev() {
        let Some(object) = objects.get(place) else {
            continue;
        };
        pending.push(Pending {
            object,
            path: format!(in alloc; "{path}[{place}]")?,
            depth,
            parent,
        })?;
    }
    Ok(())
}

/// The collection that an object says, but for its children.
fn read_collection(
    alloc: Global,
    object: &Value,
    path: String,
    depth: usize,
) -> Result<Collection> {
    check_members(object, &MEMBERS)?;
    check_list(object, "children")?;
    let mut collection = Collection {
        path,
        depth,
        page: u32::try_from(number_of(object, "usagePage", 0, 0xffff)?)?,
        usage: u32::try_from(number_of(object, "usage", 0, 0xffff)?)?,
        kind: u8::try_from(number_of(object, "type", 0, 0xff)?)?,
        reports: Vec::new(alloc),
        children: Vec::new(alloc),
    };
    collection.take_reports(alloc, object)?;
    Ok(collection)
}

impl Collection {
    /// Takes the reports of an object's lists.
    fn take_reports(&mut self, alloc: Global, object: &Value) -> Result<()> {
        for (name, tag) in &LISTS {
            check_list(object, name)?;
            if let Some(Value::Array(reports)) = object.get(*name) {
                for (report, place) in reports.iter().zip(0usize..) {
                    self.add_report(alloc, report, name, place, *tag)?;
                }
            }
        }
        Ok(())
    }

    /// Takes a report of the list with this name.
    fn add_report(
        &mut self,
        alloc: Global,
        object: &Value,
        name: &str,
        place: usize,
        tag: u8,
    ) -> Result<()> {
        let path = format!(in alloc; "{}.{name}[{place}]", self.path.as_str())?;
        let report = read_report(alloc, object, path, tag).context(format_args!(
            "{name}[{place}]"
        ))?;
        let id = report.id;
        ensure!(
            self.report(tag, id).is_none(),
            "{name} has two reports with the id {id}"
        );
        Ok(self.reports.push(report)?)
    }

    /// Its report of this direction with this id.
    pub fn report(&self, tag: u8, id: u8) -> Option<&Report> {
        self.reports
            .iter()
            .find(|own| own.tag == tag && own.id == id)
    }
}

/// The report that an object says.
fn read_report(alloc: Global, object: &Value, path: String, tag: u8) -> Result<Report> {
    check_members(object, &["reportId", "items"])?;
    check_list(object, "items")?;
    let mut report = Report {
        path,
        tag,
        id: u8::try_from(number_of(object, "reportId", 0, 0xff)?)?,
        items: Vec::new(alloc),
    };
    report.take_items(alloc, object)?;
    Ok(report)
}

impl Report {
    /// Takes the items of an object, of which it has one at least.
    fn take_items(&mut self, alloc: Global, object: &Value) -> Result<()> {
        if let Some(Value::Array(items)) = object.get("items") {
            for (item, place) in items.iter().zip(0usize..) {
                let item = read_item(alloc, item, self.tag);
                self.items
                    .push(item.context(format_args!("items[{place}]"))?)?;
            }
        }
        ensure!(!self.items.is_empty(), "items is empty");
        Ok(())
    }
}

/// The item that an object says.
fn read_item(alloc: Global, object: &Value, tag: u8) -> Result<ReportItem> {
    let item = ReportItem::read(alloc, object)?;
    ensure!(
        tag != INPUT || item.flags & VOLATILE == 0,
        "isVolatile is true, which no input is"
    );
    Ok(item)
}
