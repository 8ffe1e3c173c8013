//! All values of a report written at once, by fields that were listed.
ghost use Rattle.std.specs.Prelude.{◌≡◌, ◌==◌, List, OnOk, length, map};
ghost use Rattle.std.specs.List.{list_all, list_any};
ghost use Rattle.hidreport.specs.Records.{FieldRecord};
ghost use Rattle.hidreport.specs.ReportWriting.{IsReportWritten, report_written};
ghost use Rattle.hidreport.specs.Spelling.{AreBytes};
ghost use Rattle.hidreport.specs.Tiling.{Each};
ghost use Rattle.hidreport.specs.WritingValues.{fits, put};
ghost use Rattle.hidreport_c.specs.Field.{as_c};
ghost use Rattle.hidreport_c.specs.Insert.{Places, bytes_after, is_signed_in, status_after, width_of};
ghost use Rattle.hidreport_c.specs.Reading.{numbers_in};
ghost use Rattle.hidreport_c.specs.Status.{by_status};
ghost use Rattle.hidreport_c.specs.Value.{acceptance};
ghost use Rattle.hidreport_c.specs.Writing.{HasRoomAt, IsNarrowAt, all_fit_at, begins_in_own_id_at, count_at, put_all_at, report_written_at};

use crate::reading::check_all;
use crate::status::{ACCEPTED, DOES_NOT_FIT, OUT_OF_BOUNDS, WRONG_COUNT};
use crate::structs::HidreportField;
use hidreport::bits::{all_fit, put_values};

/// Writes the values of these fields, in order, into a report that has these bytes, as
/// `hidreport_insert` says of one: what `hidreport_read` gives for the new bytes (Sections 5.6 and
/// 5.8). The answer is 0, or the number of the refusal. It takes no memory.
///
/// More or fewer values than the fields have are refused with 8, before anything else. What can't be
/// read can't be written: 2 and 3 come as `hidreport_read` says. Then a field that begins in the
/// byte of the report's id is 2, and a number that its field's bits don't hold, signed or not as the
/// field is, is 7. A refusal leaves the bytes as they were.
///
/// Of the fields of a report that the library described it is what its `Reader::write` writes
/// (`writer`), and its laws hold (`laws`).
#[unsafe(no_mangle)]
pub extern "C" fn hidreport_write(
    fields: &[HidreportField],
    report: &mut [u8],
    values: &[i64],
) -> u32
    ensures status { result ≡ status_after (report_written_at fields.now values.now report.old) }
    ensures bytes { report.new
        ≡ bytes_after (report_written_at fields.now values.now report.old) report.old }
    ensures writer { (read : List FieldRecord) → fields.now ≡ map as_c read
        → report_written_at fields.now values.now report.old
        ≡ report_written read values.now report.old }
    ensures laws { (read : List FieldRecord) → fields.now ≡ map as_c read → result ≡ 0
        → IsReportWritten read values.now report.old report.new }
{
    match write_all(fields, report, values) {
        Ok(()) => ACCEPTED,
        Err(status) => status,
    }
}

/// Writes them, or tells the number of the refusal.
fn write_all(fields: &[HidreportField], report: &mut [u8], values: &[i64]) -> Result<(), u32>
    ensures answer { Places result report.old report.new
        (report_written_at fields.now values.now report.old) }
    ensures bytes { AreBytes report.old }
{
    if !have_count(fields, values.len()) {
        return Err(WRONG_COUNT);
    }
    check_room(fields, report)?;
    if begin_in_id(fields) {
        return Err(OUT_OF_BOUNDS);
    }
    if !all_hold(fields, values) {
        return Err(DOES_NOT_FIT);
    }
    put_all(fields, report, values);
    Ok(())
}

/// Whether fields have so many values.
fn have_count(fields: &[HidreportField], count: usize) -> bool
    ensures { result ≡ (count == count_at fields.now) }
{
    let mut left = count;
    for field in fields {
        let Some(rest) = left.checked_sub(field.value_count) else {
            return false;
        };
        left = rest;
    }
    left == 0
}

/// Refuses bytes that don't have all values.
fn check_room(fields: &[HidreportField], report: &[u8]) -> Result<(), u32>
    ensures answer { result ≡ by_status (acceptance (numbers_in fields.now report.now)) }
    ensures room { OnOk result (Each (HasRoomAt (length report.now)) fields.now) }
    ensures bytes { AreBytes report.now }
{
    check_all(fields, report)
}

/// Whether one of the fields begins in the byte of its report's id.
fn begin_in_id(fields: &[HidreportField]) -> bool
    ensures { result ≡ list_any begins_in_own_id_at fields.now }
{
    fields.iter().any(|field| field.begins_in_own_id())
}

/// Whether the bits of each field hold its values, the first of them those of the first field.
fn all_hold(fields: &[HidreportField], values: &[i64]) -> bool
    requires narrow { Each IsNarrowAt fields.now }
    requires counted { length values.now ≡ count_at fields.now }
    ensures { result ≡ all_fit_at fields.now values.now }
{
    let mut rest = values;
    for field in fields {
        let (own, behind) = rest.split_at(field.value_count);
        if !field.holds(own) {
            return false;
        }
        rest = behind;
    }
    true
}

/// Puts values in place of the bits of fields, the first of them those of the first field.
fn put_all(fields: &[HidreportField], report: &mut [u8], values: &[i64])
    requires room { Each (HasRoomAt (length report.now)) fields.now }
    requires counted { length values.now ≡ count_at fields.now }
    ensures { report.new ≡ put_all_at fields.now values.now report.old }
{
    let mut rest = values;
    for field in fields {
        let (own, behind) = rest.split_at(field.value_count);
        field.put_numbers(report, own);
        rest = behind;
    }
}

impl HidreportField {
    /// Whether the field begins in the byte of its report's id.
    fn begins_in_own_id(&self) -> bool
        ensures { result ≡ begins_in_own_id_at self.now }
    {
        self.begins_in_id(self.first_bit)
    }

    /// Whether the field's bits hold each of these numbers, as many as it has values.
    fn holds(&self, numbers: &[i64]) -> bool
        requires narrow { IsNarrowAt self.now }
        requires counted { length numbers.now ≡ self.now.value_count }
        ensures { result ≡ list_all (fits (width_of self.now) (is_signed_in self.now)) numbers.now }
    {
        all_fit(self.element_width(), self.is_signed(), numbers)
    }

    /// Puts numbers, as many as the field has values, in place of its bits; all others stay.
    fn put_numbers(&self, report: &mut [u8], numbers: &[i64])
        requires room { HasRoomAt (length report.now) self.now }
        requires counted { length numbers.now ≡ self.now.value_count }
        ensures { report.new ≡ put self.now.first_bit (width_of self.now) numbers.now report.old }
    {
        put_values(report, self.first_bit, self.element_width(), numbers);
    }
}
