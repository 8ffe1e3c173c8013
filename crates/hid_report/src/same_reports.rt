//! Reports with the same fields, which are shown once.
use crate::alike_fields::are_fields_alike;
use crate::field_line::{are_collections_alike, around};
use crate::id_runs::IdRuns;
use crate::{add_head, add_size};
use hid_words::title_of;
use hidreport::{Collection, Direction, Field, RDescReport, Report};
use std::alloc::{AllocError, Global};

/// With how many reports of its size at most a report is compared.
const MOST: usize = 16;

/// The reports of a direction, by the first that has the same fields.
#[derive(Drop)]
pub struct SameReports {
    /// Of each report the place of the first with its fields.
    firsts: Vec<usize>,
}

impl SameReports {
    /// Puts reports with the same fields together, unless each is to be shown.
    pub fn of(
        alloc: Global,
        reports: &[RDescReport],
        shows_each: bool,
    ) -> Result<SameReports, AllocError> {
        let mut firsts: Vec<usize> = Vec::new(alloc);
        for (place, report) in reports.iter().enumerate() {
            let first = if shows_each {
                None
            } else {
                first_alike(reports, &firsts, report)
            };
            firsts.push(first.unwrap_or(place))?;
        }
        Ok(SameReports { firsts })
    }

    /// Whether a report is the first with its fields.
    pub fn is_first(&self, place: usize) -> bool {
        self.firsts.get(place) == Some(&place)
    }

    /// How many reports have the fields of the one at this place.
    fn count(&self, place: usize) -> usize {
        self.firsts.iter().filter(|first| **first == place).count()
    }

    /// Appends the line that names the reports that have the fields of the one at this place.
    pub fn add_head(
        &self,
        text: &mut String,
        direction: Direction,
        reports: &[RDescReport],
        place: usize,
    ) -> Result<(), AllocError> {
        let Some(report) = reports.get(place) else {
            return Ok(());
        };
        if self.count(place) == 1 {
            return add_head(text, direction, report);
        }
        text.push_str(title_of(direction))?;
        text.push_str("s")?;
        self.add_ids(text, reports, place)?;
        add_size(text, report)?;
        text.push_str(" each\n")
    }

    /// Appends the ids of the reports that have the fields of the one at this place.
    fn add_ids(
        &self,
        text: &mut String,
        reports: &[RDescReport],
        place: usize,
    ) -> Result<(), AllocError> {
        let mut ids = IdRuns::new();
        for (report, first) in reports.iter().zip(self.firsts.iter()) {
            if *first == place
                && let Some(id) = report.report_id()
            {
                ids.add(text, u8::from(id))?;
            }
        }
        ids.end(text)
    }
}

/// The place of the first report with the same fields, in collections of the same kinds, among the
/// last of its size.
fn first_alike(reports: &[RDescReport], firsts: &[usize], report: &RDescReport) -> Option<usize> {
    let mut compared = 0usize;
    for (place, first) in reports.iter().enumerate().take(firsts.len()).rev() {
        if firsts.get(place) != Some(&place) || !have_same_size(first, report) {
            continue;
        }
        if have_same_fields(first, report) {
            return Some(place);
        }
        compared = compared.saturating_add(1);
        if MOST <= compared {
            return None;
        }
    }
    None
}

/// Whether two reports have as many bits and as many fields.
fn have_same_size(first: &RDescReport, other: &RDescReport) -> bool {
    first.size_in_bits() == other.size_in_bits() && first.fields().len() == other.fields().len()
}

/// Whether the fields of two reports are shown alike.
fn have_same_fields(first: &RDescReport, other: &RDescReport) -> bool {
    let mut open: &[Collection] = &[];
    let mut others_open: &[Collection] = &[];
    for (field, others) in first.fields().iter().zip(other.fields().iter()) {
        let (near, others_near) = (around(open, field), around(others_open, others));
        if !are_placed_alike(field, others) || !open_alike(open, near, others_open, others_near) {
            return false;
        }
        open = near;
        others_open = others_near;
    }
    true
}

/// Whether two fields have the same bits and are alike.
fn are_placed_alike(field: &Field, other: &Field) -> bool {
    field.bits().start == other.bits().start && are_fields_alike(field, other)
}

/// Whether the same kinds of collection open between two fields of each of two reports.
fn open_alike(
    open: &[Collection],
    around: &[Collection],
    others_open: &[Collection],
    others_around: &[Collection],
) -> bool {
    let shared = Collection::shared(open, around);
    shared == Collection::shared(others_open, others_around)
        && around.len() == others_around.len()
        && around
            .iter()
            .zip(others_around.iter())
            .skip(shared)
            .all(|(one, other)| are_collections_alike(one, other))
}
