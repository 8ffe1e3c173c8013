//! The reports of a device with what Linux gives each field.
use crate::fitting::add_fitted;
use crate::item_offsets::ItemOffsets;
use crate::linux_usages::{fields_of, left_of};
use anyhow::Result;
use hid_input::settings::Settings;
use hid_objects::field_object::{RestObject, object_of};
use hid_objects::linux::{Answered, add_answers, add_lines, answers_of, objects_of, stretch};
use hid_output::{add_json, flush, flush_piece};
use hid_report::{FieldLine, LineStyle, add_head, around};
use hid_words::{add_field, add_spaces};
use hidreport::{
    Collection, Direction, Field, Group, OutlineReport, RDescReport, Report, ReportDescriptor,
    Usage,
};
use hidreport_linux::{LinuxDevice, LinuxField, LinuxReport};
use hidreport_multitouch::{DrivenDevices, DrivenItem};
use std::alloc::{AllocError, Global};

/// How much deeper than its array the usages of an array stand: below its name, behind its bits.
const DEEPER: usize = 11;

/// What is shown so far; `all` are the input devices behind all usages.
#[derive(Drop)]
pub(crate) struct Shown<'c> {
    text: String,
    devices: DrivenDevices,
    all: DrivenDevices,
    offsets: ItemOffsets<'c>,
    is_json: bool,
    style: LineStyle,
    width: Option<usize>,
}

impl<'c> Shown<'c> {
    /// Before the first report of a device.
    pub(crate) fn of(
        alloc: Global,
        settings: &Settings,
        read: &'c LinuxDevice,
    ) -> Result<Shown<'c>> {
        Ok(Shown {
            text: String::new(alloc),
            devices: DrivenDevices::new(alloc, read.reading())?,
            all: DrivenDevices::behind(alloc, read.reading())?,
            offsets: ItemOffsets::of(alloc, settings, read.bytes(), read.changes())?,
            is_json: settings.is_json,
            style: LineStyle::of(settings.is_coloured, settings.width),
            width: settings.width,
        })
    }

    /// Shows all reports.
    pub(crate) fn show<R: Print>(
        &mut self,
        rt: &R,
        read: &LinuxDevice,
        descriptor: &ReportDescriptor,
        fields: &[LinuxField],
    ) -> Result<()> {
        for direction in Direction::ALL {
            self.show_reports(rt, read, descriptor, direction, fields)?;
        }
        flush(rt, &mut self.text)
    }

    /// Shows the reports of a direction in the order in which Linux meets them.
    fn show_reports<R: Print>(
        &mut self,
        rt: &R,
        read: &LinuxDevice,
        descriptor: &ReportDescriptor,
        direction: Direction,
        fields: &[LinuxField],
    ) -> Result<()> {
        for kept in read.reading().reports() {
            if kept.direction == direction {
                let fields = fields_of(kept, fields);
                let laid_out = laid_out(read, descriptor, kept);
                self.show_report(rt, read, direction, laid_out, fields)?;
            }
        }
        Ok(())
    }

    /// Shows a report, if it has bits, and goes over the usages of its other fields.
    fn show_report<R: Print>(
        &mut self,
        rt: &R,
        read: &LinuxDevice,
        direction: Direction,
        laid_out: Option<(&OutlineReport, &RDescReport)>,
        fields: &[LinuxField],
    ) -> Result<()> {
        let Some((outline, report)) = laid_out else {
            return Ok(self.pass_fields(read, fields)?);
        };
        if !self.is_json {
            let mut head = String::new(*self.text.allocator());
            add_head(&mut head, direction, report)?;
            add_fitted(&mut self.text, head.as_str(), self.width)?;
        }
        let rest = self.show_groups(rt, read, outline, (direction, report), fields)?;
        Ok(self.pass_fields(read, rest)?)
    }

    /// Goes over the usages of fields that aren't shown.
    fn pass_fields(&mut self, read: &LinuxDevice, fields: &[LinuxField]) -> Result<(), AllocError> {
        for field in fields {
            self.devices.pass_field(read.reading(), field)?;
        }
        Ok(())
    }

    /// Shows the groups of a report, and answers the fields behind them.
    fn show_groups<'a, R: Print>(
        &mut self,
        rt: &R,
        read: &LinuxDevice,
        outline: &OutlineReport,
        place: (Direction, &RDescReport),
        kept: &'a [LinuxField],
    ) -> Result<&'a [LinuxField]> {
        let mut kept = kept;
        let mut fields = place.1.fields();
        let mut open: &[Collection] = &[];
        for group in outline.groups() {
            let (own, rest) = fields.split_at(group.field_count().min(fields.len()));
            fields = rest;
            let mut field = None;
            if !group.is_constant() {
                let count = self.pass_hidden(read, kept)?;
                let rest = kept.get(count..).unwrap_or(&[]);
                field = rest.first();
                kept = rest.get(1..).unwrap_or(&[]);
            }
            let mut item = self.begin(read, place.0, group, field)?;
            let offset = self.offsets.offset(group);
            open = self.show_item(rt, place, offset, &mut item, own, open)?;
            if let Some(field) = field
                && group.is_variable()
            {
                let answers = self.rest_answers(read, field, group, &mut item)?;
                self.show_rest(place, group, &answers, open.len())?;
                flush_piece(rt, &mut self.text)?;
            }
        }
        Ok(kept)
    }

    /// Goes over the usages of the fields before the next that is shown, and answers how many fields
    /// these are: padding, and those without bits.
    fn pass_hidden(
        &mut self,
        read: &LinuxDevice,
        kept: &[LinuxField],
    ) -> Result<usize, AllocError> {
        let mut count: usize = 0;
        for field in kept {
            if !field.place.is_constant && field.size > 0 && field.count > 0 {
                break;
            }
            self.devices.pass_field(read.reading(), field)?;
            count = count.saturating_add(1);
        }
        Ok(count)
    }

    /// Goes on to a group, by the field that hid-core keeps of it; where hid-core may read otherwise, by
    /// the group alone.
    fn begin(
        &mut self,
        read: &LinuxDevice,
        direction: Direction,
        group: &Group,
        field: Option<&LinuxField>,
    ) -> Result<DrivenItem, AllocError> {
        match field {
            Some(field) if read.reading().doubt().is_none() => self.devices.begin_field(field),
            _ => Ok(self.devices.begin(direction, group)),
        }
    }

    /// What Linux gives the usages of a field that are left when each of its elements has one, up to
    /// as many as the group names.
    fn rest_answers(
        &mut self,
        read: &LinuxDevice,
        field: &LinuxField,
        group: &Group,
        item: &mut DrivenItem,
    ) -> Result<Vec<Answered>, AllocError> {
        let alloc = *self.text.allocator();
        let usages = read.reading().usages(field);
        let (mut rest, last) = left_of(alloc, usages, group.field_count(), group.usage_count())?;
        if field.left_out > 0 {
            rest.push(Usage::from(last.saturating_add(1)))?;
        }
        let mut answers = self.answers(item, &rest)?;
        stretch(&mut answers, field.left_out.saturating_sub(1));
        Ok(answers)
    }

    /// What Linux gives usages of an item.
    fn answers(
        &mut self,
        item: &mut DrivenItem,
        usages: &[Usage],
    ) -> Result<Vec<Answered>, AllocError> {
        let alloc = *self.text.allocator();
        answers_of(alloc, &mut self.devices, &self.all, item, usages)
    }

    /// Shows the fields of an item at an offset, and answers the collections around the last.
    fn show_item<'a, R: Print>(
        &mut self,
        rt: &R,
        place: (Direction, &RDescReport),
        offset: Option<usize>,
        item: &mut DrivenItem,
        fields: &'a [Field],
        before: &'a [Collection],
    ) -> Result<&'a [Collection]> {
        let mut open = before;
        for field in fields {
            let alloc = *self.text.allocator();
            let answers = self.answers(item, field.usages())?;
            if self.is_json {
                let mut object = object_of(alloc, place.0, place.1, field)?;
                object.add_offset(offset);
                object.add_linux(objects_of(alloc, &answers)?);
                add_json(&mut self.text, &object)?;
            } else {
                let around = around(open, field);
                let mut lines = String::new(alloc);
                add_opened(&mut lines, open, around, self.style)?;
                let indent = self.style.indent_in(around.len());
                add_answered(&mut lines, field, &answers, indent)?;
                add_fitted(&mut self.text, lines.as_str(), self.width)?;
                open = around;
            }
            flush_piece(rt, &mut self.text)?;
        }
        Ok(open)
    }

    /// Shows what the usages of an item get that are left when each field has one.
    fn show_rest(
        &mut self,
        place: (Direction, &RDescReport),
        group: &Group,
        answers: &[Answered],
        depth: usize,
    ) -> Result<()> {
        if answers.is_empty() {
            return Ok(());
        }
        if self.is_json {
            let (direction, report) = place;
            let objects = objects_of(*self.text.allocator(), answers)?;
            let offset = self.offsets.offset(group);
            let object = RestObject::of(direction, report, offset, group, objects)?;
            return add_json(&mut self.text, &object);
        }
        let indent = self.style.indent_in(depth);
        let mut lines = String::new(*self.text.allocator());
        add_spaces(&mut lines, indent)?;
        lines.push_str("usages without a field:")?;
        add_lines(&mut lines, answers, indent.saturating_add(DEEPER))?;
        lines.push_str("\n")?;
        Ok(add_fitted(&mut self.text, lines.as_str(), self.width)?)
    }
}

/// A report that has bits, as it is outlined and laid out.
fn laid_out<'a>(
    read: &'a LinuxDevice,
    descriptor: &'a ReportDescriptor,
    kept: &LinuxReport,
) -> Option<(&'a OutlineReport, &'a RDescReport)> {
    let outlines = read.outline().reports(kept.direction);
    let is_its = |outline: &OutlineReport| id_of(outline) == kept.id;
    let at = outlines.iter().position(is_its)?;
    let report = descriptor.reports(kept.direction).get(at)?;
    Some((outlines.get(at)?, report))
}

/// The id of a report, 0 where it has none.
fn id_of(report: &OutlineReport) -> u32 {
    report.report_id().map_or(0, |id| u32::from(u8::from(id)))
}

/// Appends a field so far in, and what Linux gives it.
fn add_answered(
    text: &mut String,
    field: &Field,
    answers: &[Answered],
    indent: usize,
) -> Result<(), AllocError> {
    add_spaces(text, indent)?;
    add_field(text, field, indent)?;
    add_answers(text, field, answers, indent.saturating_add(DEEPER))?;
    text.push_str("\n")
}

/// Appends the collections that a field lies in and the one before it doesn't.
fn add_opened(
    text: &mut String,
    before: &[Collection],
    around: &[Collection],
    style: LineStyle,
) -> Result<(), AllocError> {
    let shared = Collection::shared(before, around);
    for (depth, collection) in around.iter().enumerate().skip(shared) {
        FieldLine::Opens(depth, collection).add(text, style)?;
    }
    Ok(())
}
