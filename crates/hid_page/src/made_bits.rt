//! Which bits of which report an item makes.
use hid_words::word_of;
use hidreport::{Direction, Group, OutlineReport, PlacedOutline, Report};
use serde::Serialize;
use std::alloc::{AllocError, Global};

/// The bits of a report that an item makes, as JSON.
#[derive(Clone, Copy, Serialize)]
pub struct MadeBits {
    offset: usize,
    direction: &'static str,
    report: Option<u8>,
    start: usize,
    end: usize,
}

impl MadeBits {
    /// Those of a group, whose item has this offset.
    fn of(direction: Direction, report: &OutlineReport, group: &Group, offset: usize) -> MadeBits {
        let start = group.first_bit();
        let bits = group.element_width().saturating_mul(group.element_count());
        MadeBits {
            offset,
            direction: word_of(direction),
            report: report.report_id().map(u8::from),
            start,
            end: start.saturating_add(bits),
        }
    }
}

/// The bits that each of so many first items makes, in the order of the items.
pub fn made_bits(
    alloc: Global,
    placed: &PlacedOutline,
    most: usize,
) -> Result<Vec<MadeBits>, AllocError> {
    let mut made = Vec::new(alloc);
    for direction in Direction::ALL {
        for report in placed.outline().reports(direction) {
            add_made(&mut made, placed, most, direction, report)?;
        }
    }
    made.sort_by_key(|it| it.offset)?;
    Ok(made)
}

/// Adds the bits of a report.
fn add_made(
    made: &mut Vec<MadeBits>,
    placed: &PlacedOutline,
    most: usize,
    direction: Direction,
    report: &OutlineReport,
) -> Result<(), AllocError> {
    for group in report.groups() {
        if let Some(place) = placed.item(group)
            && place.index < most
        {
            made.push(MadeBits::of(direction, report, group, place.offset))?;
        }
    }
    Ok(())
}
