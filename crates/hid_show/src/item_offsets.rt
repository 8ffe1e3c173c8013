//! Where the item of each group stands in the bytes of a descriptor as they were given.
use anyhow::Result;
use hid_input::parsing::with_advice;
use hid_input::settings::Settings;
use hidreport::{Change, Group, Outline, PlacedOutline};
use std::alloc::Global;

/// A descriptor that is read, and what was mended in it before.
#[derive(Drop)]
pub(crate) struct ItemOffsets<'a> {
    placed: PlacedOutline,
    changes: &'a [Change],
}

impl<'a> ItemOffsets<'a> {
    /// Those of a descriptor in which these changes were made, which may have left nothing.
    pub(crate) fn of(
        alloc: Global,
        settings: &Settings,
        bytes: &[u8],
        changes: &'a [Change],
    ) -> Result<ItemOffsets<'a>> {
        if bytes.is_empty() && !changes.is_empty() {
            let placed = PlacedOutline::empty(alloc);
            return Ok(ItemOffsets { placed, changes });
        }
        match PlacedOutline::try_from_with(alloc, bytes, settings.parse) {
            Ok(placed) => Ok(ItemOffsets { placed, changes }),
            Err(fault) => Err(with_advice(alloc, settings, bytes, fault)),
        }
    }

    /// The reports.
    pub(crate) fn outline(&self) -> &Outline {
        self.placed.outline()
    }

    /// The offset of a group's item.
    pub(crate) fn offset(&self, group: &Group) -> Option<usize> {
        let place = self.placed.item(group)?;
        Some(given_offset(self.changes, place.offset))
    }
}

/// Where what stands at an offset now stood before these changes.
fn given_offset(changes: &[Change], now: usize) -> usize {
    let mut given = now;
    for change in changes {
        let Some(inside) = given.checked_sub(change.offset) else {
            return given;
        };
        let Some(behind) = inside.checked_sub(change.stands.len()) else {
            return change.offset;
        };
        given = change
            .offset
            .saturating_add(change.stood.len())
            .saturating_add(behind);
    }
    given
}
