//! `hid fields --json`: each field as JSON, with the offset of its item.
use crate::item_offsets::ItemOffsets;
use anyhow::Result;
use hid_input::input::descriptor_named;
use hid_input::linux_read::mended;
use hid_input::settings::Settings;
use hid_input::world::World;
use hid_objects::field_object::object_of;
use hid_output::{add_json, flush, flush_piece};
use hidreport::{Change, Direction, Field, OutlineReport, RDescReport, Report, ReportDescriptor};

/// Shows the fields of a descriptor as JSON, and answers whether it has a report.
pub(crate) fn show_objects<R: World>(rt: &R, settings: &Settings, file: &str) -> Result<bool> {
    let given = descriptor_named(rt, settings, file)?;
    show_given(rt, settings, file, given.descriptor())
}

fn show_given<R: World>(rt: &R, settings: &Settings, file: &str, bytes: &[u8]) -> Result<bool> {
    if settings.reads_as_linux() {
        let device = mended(rt, settings, file, bytes)?;
        return show_mended(rt, settings, device.bytes(), device.changes());
    }
    show_mended(rt, settings, bytes, &[])
}

/// Shows the fields of a descriptor in which these changes were made.
fn show_mended<R: AllocGlobal + Print>(
    rt: &R,
    settings: &Settings,
    bytes: &[u8],
    changes: &[Change],
) -> Result<bool> {
    let offsets = ItemOffsets::of(rt.alloc(), settings, bytes, changes)?;
    show_read(rt, &offsets)
}

/// Shows the fields of a descriptor that is read.
fn show_read<R: AllocGlobal + Print>(rt: &R, offsets: &ItemOffsets) -> Result<bool> {
    let descriptor = offsets.outline().lay_out(rt.alloc())?;
    show_laid_out(rt, offsets, &descriptor)?;
    Ok(has_report(&descriptor))
}

fn show_laid_out<R: AllocGlobal + Print>(
    rt: &R,
    offsets: &ItemOffsets,
    descriptor: &ReportDescriptor,
) -> Result<()> {
    let mut text = String::new(rt.alloc());
    for direction in Direction::ALL {
        let reports = descriptor.reports(direction);
        show_direction(rt, &mut text, offsets, direction, reports)?;
    }
    flush(rt, &mut text)
}

/// Shows the fields of a direction's reports.
fn show_direction<R: Print>(
    rt: &R,
    text: &mut String,
    offsets: &ItemOffsets,
    direction: Direction,
    reports: &[RDescReport],
) -> Result<()> {
    let outlines = offsets.outline().reports(direction);
    for (place, report) in reports.iter().enumerate() {
        if let Some(outline) = outlines.get(place) {
            show_report(rt, text, offsets, outline, (direction, report))?;
        }
    }
    Ok(())
}

/// Shows the fields of a report, group by group.
fn show_report<R: Print>(
    rt: &R,
    text: &mut String,
    offsets: &ItemOffsets,
    outline: &OutlineReport,
    place: (Direction, &RDescReport),
) -> Result<()> {
    let mut fields = place.1.fields();
    for group in outline.groups() {
        let (own, rest) = fields.split_at(group.field_count().min(fields.len()));
        show_fields(rt, text, place, own, offsets.offset(group))?;
        fields = rest;
    }
    Ok(())
}

/// Shows the fields of an item that stands at an offset.
fn show_fields<R: Print>(
    rt: &R,
    text: &mut String,
    place: (Direction, &RDescReport),
    fields: &[Field],
    offset: Option<usize>,
) -> Result<()> {
    for field in fields {
        let mut object = object_of(*text.allocator(), place.0, place.1, field)?;
        object.add_offset(offset);
        add_json(text, &object)?;
        flush_piece(rt, text)?;
    }
    Ok(())
}

/// Whether a descriptor has a report in any direction.
pub(crate) fn has_report(descriptor: &ReportDescriptor) -> bool {
    Direction::ALL
        .iter()
        .any(|direction| !descriptor.reports(*direction).is_empty())
}
