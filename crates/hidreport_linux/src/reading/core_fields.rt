//! The items with data that hid-core keeps as fields.
ghost use Rattle.std.specs.Prelude.{◌≡◌, ◌++◌, OnOk};
ghost use Rattle.hidreport_linux.specs.FieldOrder.{fields_in, fields_of};

use crate::linux_field::{LinuxCollection, LinuxField, LinuxReport};
use crate::place::Place;
use crate::reading::LinuxReading;
use crate::reading::core_named::CoreNamed;
use crate::reading::core_reports::CoreReport;
use crate::reading::field_usages::FieldUsages;
use hidreport::Direction;
use std::alloc::{AllocError, Global};

impl LinuxReading {
    ghost use Rattle.std.specs.Prelude.{◌≡◌, ◌++◌, drop, IfOk, OnOk, take};
    ghost use Rattle.hidreport_linux.specs.CoreFields.{field_of, if_field, place_by, with_field, with_order};
    ghost use Rattle.hidreport_linux.specs.CoreKept.{around_in_force};
    ghost use Rattle.hidreport_linux.specs.CoreReports.{report_at};
    ghost use Rattle.hidreport_linux.specs.FieldOrder.{fields_in_order, usages_left, usages_named, usages_of};

    /// A report is registered at its first item.
    pub(crate) fn register_report(&mut self, direction: Direction) -> Result<(), AllocError>
        ensures { OnOk result (self.new ≡ with_order direction self.old) }
    {
        let id = self.globals.id;
        if self.reports.of(direction, id).is_there {
            return Ok(());
        }
        let application = self.application_in_force();
        self.order.push(LinuxReport {
            direction,
            id,
            application,
        })?;
        Ok(())
    }

    /// Keeps an item that names usages; another is padding.
    pub(crate) fn keep_field(
        &mut self,
        offset: usize,
        direction: Direction,
        flags: u32,
    ) -> Result<(), AllocError>
        ensures { OnOk result (self.new ≡ if_field offset direction flags self.old) }
    {
        if !self.locals.have_usages() {
            return Ok(());
        }
        self.add_field(offset, direction, flags)
    }

    /// Adds the field of an item, and what names its usages.
    fn add_field(
        &mut self,
        offset: usize,
        direction: Direction,
        flags: u32,
    ) -> Result<(), AllocError>
        ensures { OnOk result (self.new ≡ with_field offset direction flags self.old) }
    {
        let report = self.reports.of(direction, self.globals.id);
        let field = self.field_of(offset, direction, flags, report);
        self.fields.push(field)?;
        self.locals.add_to(self.globals.page, &mut self.named)
    }

    /// The field of an item, by what is kept of its report.
    fn field_of(
        &self,
        offset: usize,
        direction: Direction,
        flags: u32,
        report: CoreReport,
    ) -> LinuxField
        ensures { result ≡ field_of offset direction flags report self.now }
    {
        LinuxField {
            offset,
            report: LinuxReport {
                direction,
                id: self.globals.id,
                application: report.application,
            },
            is_first: report.items == 1,
            is_past: report.items > 256,
            is_variable: flags / 2 % 2 == 1,
            has_null_state: flags / 0x40 % 2 == 1,
            is_buffered: flags / 0x100 % 2 == 1,
            collection: self.around_in_force().collection,
            first_bit: report.bits.saturating_sub(self.bits()),
            size: self.globals.size,
            count: self.globals.count,
            usages: self.locals.count(),
            left_out: self.locals.left_out(),
            place: self.place_by(direction, flags),
            measures: self.globals.measures(),
            first_span: self.named.len(),
            spans: self.locals.spans(),
        }
    }

    /// Where the usages of an item with these flags lie.
    fn place_by(&self, direction: Direction, flags: u32) -> Place
        ensures { result
            ≡ place_by direction flags self.now.globals.size (around_in_force self.now) }
    {
        let around = self.around_in_force();
        Place {
            direction,
            is_constant: flags % 2 == 1,
            is_relative: flags / 4 % 2 == 1,
            is_bit: self.globals.size == 1,
            application: around.application,
            physical: around.physical,
            logical: around.logical,
            has_macros: around.has_macros,
        }
    }

    /// The collections that hid-core registers, in order.
    pub fn collections(&self) -> &[LinuxCollection]
        ensures { result.now ≡ self.now.collections }
    {
        &self.collections
    }

    /// The reports that hid-core registers, in the order of their first items.
    pub fn reports(&self) -> &[LinuxReport]
        ensures { result.now ≡ self.now.order }
    {
        &self.order
    }

    /// How many bits a report has, without its id.
    pub fn bits_of(&self, report: &LinuxReport) -> u32
        ensures { result ≡ (report_at report.now.direction report.now.id self.now.reports).bits }
    {
        self.reports.of(report.direction, report.id).bits
    }

    /// The items with data that name usages, in the order in which hid-input goes over them: those
    /// of input reports, of output reports, then of feature reports, report by report.
    ///
    /// # Errors
    ///
    /// - `AllocError`: memory for the list is refused.
    ///
    /// # Examples
    ///
    /// ```rust
    /// use hidreport_linux::LinuxDevice;
    ///
    /// // A mouse that says its X and Y.
    /// let bytes = b"\x05\x01\x09\x02\xa1\x01\x09\x30\x09\x31\x25\x7f\x75\x08\x95\x02\x81\x06\xc0";
    /// let device = LinuxDevice::of(alloc, bytes, None)?;
    /// let reading = device.reading();
    /// let mut devices = device.input_devices(alloc);
    /// let mut names = ["REL_X", "REL_Y"].iter();
    /// for field in &reading.fields(alloc)? {
    ///     let mut item = devices.begin_field(field)?;
    ///     for usage in reading.usages(field) {
    ///         let event = devices.event(&mut item, usage);
    ///         let name = event.ok().and_then(|event| event.code.name());
    ///         assert_eq!(rt; name, names.next().copied());
    ///     }
    /// }
    /// ```
    pub fn fields(&self, alloc: Global) -> Result<Vec<LinuxField>, AllocError>
        ensures { IfOk result (λ fields. fields.items ≡ fields_in_order self.now) }
    {
        let mut fields = Vec::new(alloc);
        add_fields_in(Direction::Input, &self.order, &self.fields, &mut fields)?;
        add_fields_in(Direction::Output, &self.order, &self.fields, &mut fields)?;
        add_fields_in(Direction::Feature, &self.order, &self.fields, &mut fields)?;
        Ok(fields)
    }

    /// The usages of one of the fields that hid-input goes over, at most 12,288: none where the
    /// field has no elements.
    pub fn usages(&self, field: &LinuxField) -> FieldUsages<'_>
        ensures { usages_left result.number result.more result.named.now
            ≡ usages_of field.now self.now }
    {
        FieldUsages::of(self.named_for(field))
    }

    /// What names the usages of a field that has elements.
    fn named_for(&self, field: &LinuxField) -> &[CoreNamed]
        ensures { usages_named result.now ≡ usages_of field.now self.now }
    {
        if field.count == 0 {
            return &[];
        }
        let behind = self.named.get(field.first_span..).unwrap_or(&[]);
        behind.get(..field.spans).unwrap_or(behind)
    }
}

/// Adds those of all fields that are of reports of a direction, report by report.
fn add_fields_in(
    direction: Direction,
    reports: &[LinuxReport],
    all: &[LinuxField],
    fields: &mut Vec<LinuxField>,
) -> Result<(), AllocError>
    ensures { OnOk result (fields.new.items
        ≡ fields.old.items ++ fields_in direction all.now reports.now) }
{
    for report in reports {
        if report.lies_in(direction) {
            add_fields_of(report, all, fields)?;
        }
    }
    Ok(())
}

/// Adds those of all fields that are of a report.
fn add_fields_of(
    report: &LinuxReport,
    all: &[LinuxField],
    fields: &mut Vec<LinuxField>,
) -> Result<(), AllocError>
    ensures { OnOk result (fields.new.items ≡ fields.old.items ++ fields_of report.now all.now) }
{
    for field in all {
        if report.has(field) {
            fields.push(*field)?;
        }
    }
    Ok(())
}
