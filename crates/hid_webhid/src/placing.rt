//! Where the items of a collection's reports stand among its children, whose items are listed in it,
//! too.
use crate::collection::{Collection, Report};
use crate::report_item::ReportItem;
use anyhow::{Result, bail, ensure};
use std::alloc::Global;

/// Items of a report that stand in a collection and in no child of it, one behind the other.
#[derive(Drop)]
pub struct Run {
    /// How many children stand before them.
    pub gap: usize,
    /// Which report of the collection has them.
    pub report: usize,
    /// Which items they are: those from the first on, before the last.
    pub start: usize,
    pub end: usize,
}

/// What of a collection's reports stands in no child.
#[derive(Drop)]
pub struct Placed {
    /// The items.
    pub runs: Vec<Run>,
    /// A report in which a child may have others of several items that are alike.
    pub unsure: Option<usize>,
}

/// Which items of a collection's reports stand in no child.
pub fn find_own(alloc: Global, all: &[Collection], own: &Collection) -> Result<Placed> {
    check_children(all, own)?;
    let mut placed = Placed {
        runs: Vec::new(alloc),
        unsure: None,
    };
    for (report, place) in own.reports.iter().zip(0usize..) {
        placed.add_report(all, own, report, place)?;
    }
    Ok(placed)
}

/// Refuses a child with a report that the collection around it hasn't.
fn check_children(all: &[Collection], own: &Collection) -> Result<()> {
    for child in own.children.iter() {
        let Some(child) = all.get(*child) else {
            continue;
        };
        for report in child.reports.iter() {
            ensure!(
                own.report(report.tag, report.id).is_some(),
                "{} is no report of the collection around it",
                report.path.as_str()
            );
        }
    }
    Ok(())
}

/// The items of a child's report; none where it has no such report.
fn items_of<'a>(all: &'a [Collection], child: usize, report: &Report) -> &'a [ReportItem] {
    let none: &[ReportItem] = &[];
    match all.get(child) {
        Some(child) => match child.report(report.tag, report.id) {
            Some(own) => own.items.as_slice(),
            None => none,
        },
        None => none,
    }
}

impl Placed {
    /// Takes the items of a report: each child's stand together, in the order of the children.
    fn add_report(
        &mut self,
        all: &[Collection],
        own: &Collection,
        report: &Report,
        place: usize,
    ) -> Result<()> {
        let mut start = 0usize;
        for (child, gap) in own.children.iter().zip(0usize..) {
            let items = items_of(all, *child, report);
            if items.is_empty() {
                continue;
            }
            let Some(end) = found_from(&report.items, items, start) else {
                bail!(
                    "{} lacks items of its children, or has them in another order",
                    report.path.as_str()
                );
            };
            self.add_run(gap, place, start, end)?;
            start = end.saturating_add(items.len());
        }
        self.add_run(own.children.len(), place, start, report.items.len())?;
        if is_unsure(all, own, report) {
            self.unsure = Some(place);
        }
        Ok(())
    }

    /// Takes items, if there are any.
    fn add_run(&mut self, gap: usize, report: usize, start: usize, end: usize) -> Result<()> {
        if start < end {
            self.runs.push(Run {
                gap,
                report,
                start,
                end,
            })?;
        }
        Ok(())
    }
}

/// Where a child's items stand first, from a place on.
fn found_from(items: &[ReportItem], wanted: &[ReportItem], start: usize) -> Option<usize> {
    (start..items.len()).find(|place| stand_at(items, wanted, *place))
}

/// Whether a child's items stand at a place.
fn stand_at(items: &[ReportItem], wanted: &[ReportItem], place: usize) -> bool {
    match items.get(place..place.saturating_add(wanted.len())) {
        Some(own) => own
            .iter()
            .zip(wanted.iter())
            .all(|(own, it)| own.is_like(it)),
        None => false,
    }
}

/// Whether the items of a child may stand at another place than the first: looked for from the end,
/// they are found elsewhere.
fn is_unsure(all: &[Collection], own: &Collection, report: &Report) -> bool {
    let mut first = 0usize;
    let mut places = 0usize;
    for child in own.children.iter() {
        let items = items_of(all, *child, report);
        if let Some(place) = found_from(&report.items, items, first)
            && !items.is_empty()
        {
            places = places.wrapping_add(place);
            first = place.saturating_add(items.len());
        }
    }
    let mut end = report.items.len();
    for child in own.children.iter().rev() {
        let items = items_of(all, *child, report);
        let last = (0..end).rev().find(|place| {
            place.saturating_add(items.len()) <= end && stand_at(&report.items, items, *place)
        });
        if let Some(place) = last
            && !items.is_empty()
        {
            places = places.wrapping_sub(place);
            end = place;
        }
    }
    places != 0
}
