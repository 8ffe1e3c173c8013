//! What hid-multitouch asks of a descriptor before its usages.
ghost use Rattle.std.specs.Prelude.{◌≡◌, IfOk};
ghost use Rattle.hidreport_linux.specs.CoreReports.{first_place};
ghost use Rattle.hidreport_linux.specs.declared.linux_field.LinuxReport.{LinuxReport};
ghost use Rattle.hidreport_multitouch.specs.Facts.{class_in, has_contact, has_signature, is_among, is_feature, is_of_contact, is_same, is_signature, names, says_slots, slots_in, slots_of, slots_or};

use crate::touch_class::TouchClass;
use hidreport::Direction;
use hidreport_linux::{LinuxField, LinuxReading, LinuxReport};
use std::alloc::{AllocError, Global};

/// The usages that it looks for.
const CONTACT_ID: u32 = 0x000d_0051;

const CONTACT_MAXIMUM: u32 = 0x000d_0055;

const FINGER: u32 = 0x000d_0022;

/// The usages of a feature report that says that a device is made for Windows 8: of 256 bytes, or
/// of one.
const SIGNATURE: u32 = 0xff00_00c5;

const SHORT_SIGNATURE: u32 = 0xff00_00c6;

/// The usages of an item that are kept, at most.
const MOST_USAGES: usize = 12_288;

/// What hid-multitouch asks of a descriptor before it goes over the usages.
#[derive(Drop)]
pub struct TouchFacts {
    class: TouchClass,
    slots: u8,
    reports: Vec<LinuxReport>,
}

impl TouchFacts {
    ghost use Rattle.std.specs.Prelude.{◌≡◌, IfOk};
    ghost use Rattle.hidreport_linux.specs.declared.linux_field.LinuxReport.{LinuxReport};
    ghost use Rattle.hidreport_multitouch.specs.Facts.{class_in, has_contact, is_among, slots_in};

    /// Those of a descriptor, with its fields in order.
    ///
    /// # Errors
    ///
    /// - `AllocError`: memory for the reports is refused.
    pub fn of(
        alloc: Global,
        reading: &LinuxReading,
        fields: &[LinuxField],
    ) -> Result<TouchFacts, AllocError>
        ensures class { IfOk result (λ facts. facts.class ≡ class_in reading.now fields.now) }
        ensures slots { IfOk result (λ facts. facts.slots ≡ slots_in reading.now fields.now) }
        ensures reports { IfOk result (λ facts. (report : LinuxReport)
            → is_among report facts.reports.items
            ≡ has_contact (class_in reading.now fields.now) reading.now report fields.now) }
    {
        let class = class_of(reading, fields);
        Ok(TouchFacts {
            class,
            slots: slots_in(reading, fields),
            reports: touch_reports(alloc, reading, fields, class)?,
        })
    }

    /// How the device is taken.
    pub fn class(&self) -> TouchClass
        ensures { result ≡ self.now.class }
    {
        self.class
    }

    /// How many contacts an input device with touch reports tells apart, where the device doesn't
    /// say it: from 1 on.
    pub fn slots(&self) -> u8
        ensures { result ≡ self.now.slots }
    {
        self.slots
    }

    /// Whether a report is one whose usages have the codes of contacts.
    pub fn is_touch_report(&self, report: &LinuxReport) -> bool
        ensures { result ≡ is_among report.now self.now.reports.items }
    {
        is_among(report, &self.reports)
    }
}

/// How a device is taken.
fn class_of(reading: &LinuxReading, fields: &[LinuxField]) -> TouchClass
    ensures { result ≡ class_in reading.now fields.now }
{
    if has_signature(reading, fields) {
        TouchClass::Windows8
    } else {
        TouchClass::Plain
    }
}

/// Whether one of the fields says that the device is made for Windows 8.
fn has_signature(reading: &LinuxReading, fields: &[LinuxField]) -> bool
    ensures { result ≡ has_signature reading.now fields.now }
{
    fields.iter().any(|field| is_signature(reading, field))
}

/// Whether a field says that the device is made for Windows 8.
fn is_signature(reading: &LinuxReading, field: &LinuxField) -> bool
    ensures { result ≡ is_signature reading.now field.now }
{
    if !is_feature(field) || field.size != 8 {
        return false;
    }
    match field.count {
        1 => names(reading, field, SHORT_SIGNATURE, MOST_USAGES),
        256 => names(reading, field, SIGNATURE, MOST_USAGES),
        _ => false,
    }
}

/// Whether a field is of a feature report.
fn is_feature(field: &LinuxField) -> bool
    ensures { result ≡ is_feature field.now.report.direction }
{
    matches!(field.report.direction, Direction::Feature)
}

/// How many slots a device has, by the last item that says it.
fn slots_in(reading: &LinuxReading, fields: &[LinuxField]) -> u8
    ensures { result ≡ slots_in reading.now fields.now }
{
    let mut slots = slots_of(0);
    for field in fields {
        slots = slots_or(slots, says_slots(reading, field), field.measures.maximum);
    }
    slots
}

/// Whether an item says how many slots a device has.
fn says_slots(reading: &LinuxReading, field: &LinuxField) -> bool
    ensures { result ≡ says_slots reading.now field.now }
{
    is_feature(field) && !field.is_past && names(reading, field, CONTACT_MAXIMUM, MOST_USAGES)
}

/// The slots by an item of this maximum, if it says it.
fn slots_or(before: u8, says_it: bool, maximum: i32) -> u8
    ensures { result ≡ slots_or before says_it maximum }
{
    if says_it { slots_of(maximum) } else { before }
}

/// The slots by the greatest number of contacts: its low byte where it isn't above 250, and ten
/// where this is none.
#[tactic(auto, unfolding(crate::specs::Facts::slots_of))]
fn slots_of(maximum: i32) -> u8
    ensures { result ≡ slots_of maximum }
{
    let low = (maximum.cast_unsigned() % 0x100) as u8;
    if maximum > 250 || low == 0 { 10 } else { low }
}

/// The reports with a field for a contact, each once.
fn touch_reports(
    alloc: Global,
    reading: &LinuxReading,
    fields: &[LinuxField],
    class: TouchClass,
) -> Result<Vec<LinuxReport>, AllocError>
    ensures { IfOk result (λ list. (report : LinuxReport) → is_among report list.items
        ≡ has_contact class reading.now report fields.now) }
{
    let mut list = Vec::new(alloc);
    for field in fields {
        if is_of_contact(reading, field, class) && !is_among(&field.report, &list) {
            list.push(field.report)?;
        }
    }
    Ok(list)
}

/// Whether a report is one of these.
fn is_among(report: &LinuxReport, reports: &[LinuxReport]) -> bool
    ensures { result ≡ is_among report.now reports.now }
{
    reports.iter().any(|one| is_same(report, one))
}

/// Whether two are the same report: a direction has one of each id.
fn is_same(one: &LinuxReport, other: &LinuxReport) -> bool
    ensures { result ≡ is_same one.now other.now }
{
    one.id == other.id && place_of(one.direction) == place_of(other.direction)
}

/// A number for each direction.
fn place_of(direction: Direction) -> u16
    ensures { result ≡ first_place direction }
{
    match direction {
        Direction::Input => 0,
        Direction::Output => 256,
        Direction::Feature => 512,
    }
}

/// Whether a field makes its report a touch report: it has an element for a Contact Identifier, of a
/// finger where the device is made for Windows 8.
fn is_of_contact(reading: &LinuxReading, field: &LinuxField, class: TouchClass) -> bool
    ensures { result ≡ is_of_contact class reading.now field.now }
{
    if !field.is_variable || field.is_past {
        return false;
    }
    if class.is_windows_8() && field.place.logical != FINGER {
        return false;
    }
    let count = (field.count as usize).min(MOST_USAGES);
    names(reading, field, CONTACT_ID, count)
}

/// Whether a field names a usage among its first ones.
fn names(reading: &LinuxReading, field: &LinuxField, wanted: u32, most: usize) -> bool
    ensures { result ≡ names wanted most field.now reading.now }
{
    let mut left = most;
    for usage in reading.usages(field) {
        if left == 0 {
            return false;
        }
        if u32::from(usage) == wanted {
            return true;
        }
        left -= 1;
    }
    false
}
