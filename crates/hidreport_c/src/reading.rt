//! All values of a report at once, by fields that were listed.
ghost use Rattle.std.specs.Prelude.{◌≡◌, ◌<◌, ◌≤◌, ◌^◌, List, IfSome, IsNone, IsOk, length, map};
ghost use Rattle.std.specs.List.{list_any};
ghost use Rattle.hidreport.specs.Reader.{available_numbers, begins_otherwise, report_numbers};
ghost use Rattle.hidreport.specs.Records.{FieldRecord};
ghost use Rattle.hidreport_c.specs.Answer.{array_after, as_answer, list_or_nothing};
ghost use Rattle.hidreport_c.specs.Field.{as_c};
ghost use Rattle.hidreport_c.specs.Reading.{available_in, if_countable, numbers_in, there_at, there_in};
ghost use Rattle.hidreport_c.specs.Status.{by_status};
ghost use Rattle.hidreport_c.specs.Value.{acceptance, id_of};
ghost use Rattle.hidreport_c.specs.Writing.{count_at};
ghost use Rattle.hidreport_c.specs.declared.structs.HidreportField.{HidreportField};

use crate::status::{MISMATCHING_REPORT_ID, OUT_OF_BOUNDS};
use crate::structs::{HidreportAnswer, HidreportField};
use hidreport_fields::short_word;

/// The values of these fields, in order, in a report that has these bytes (Sections 5.6 and 5.8):
/// those of each field behind those of the field before; padding has none. As many as there is room
/// for are written; the answer is how many there are. It takes no memory.
///
/// They are refused as `hidreport_value` says of the first that is, and with 2 where there are more
/// than can be counted, and then nothing is written. Of the fields of a report that the library
/// described they are the numbers that its `Reader::read` reads (`reader`).
#[unsafe(no_mangle)]
#[tactic(auto, using(crate::proofs::ReadDescribedLemmas::described_read))]
pub extern "C" fn hidreport_read(
    fields: &[HidreportField],
    report: &[u8],
    values: &mut [i64],
) -> HidreportAnswer
    ensures answer { result ≡ as_answer (if_countable (numbers_in fields.now report.now)) }
    ensures written { values.new
        ≡ array_after (list_or_nothing (if_countable (numbers_in fields.now report.now)))
        values.old }
    ensures reader { (read : List FieldRecord) → fields.now ≡ map as_c read
        → numbers_in fields.now report.now ≡ report_numbers read report.now }
{
    if let Err(status) = check_all(fields, report) {
        return HidreportAnswer::refused(status);
    }
    let Some(count) = count_of(fields) else {
        return HidreportAnswer::refused(OUT_OF_BOUNDS);
    };
    put_all(fields, report, values);
    HidreportAnswer::counted(count)
}

/// The values that these bytes of a report have, in order, up to the first that they don't have:
/// what hosts do with a report that is cut short. Elements of an array count one by one. It takes
/// no memory.
///
/// Bytes that begin with another id than that of one of the fields are refused with 3, and more
/// than can be counted with 2; then nothing is written. Of the fields of a report that the library
/// described they are the numbers that its `Reader::read_available` reads (`reader`).
#[unsafe(no_mangle)]
#[tactic(auto, using(crate::proofs::ReadDescribedLemmas::described_available))]
pub extern "C" fn hidreport_read_available(
    fields: &[HidreportField],
    report: &[u8],
    values: &mut [i64],
) -> HidreportAnswer
    ensures answer { result ≡ as_answer (if_countable (available_in fields.now report.now)) }
    ensures written { values.new
        ≡ array_after (list_or_nothing (if_countable (available_in fields.now report.now)))
        values.old }
    ensures reader { (read : List FieldRecord) → fields.now ≡ map as_c read
        → available_in fields.now report.now ≡ available_numbers read report.now }
{
    if are_of_another(fields, report) {
        return HidreportAnswer::refused(MISMATCHING_REPORT_ID);
    }
    if put_available(fields, report, &mut []).is_none() {
        return HidreportAnswer::refused(OUT_OF_BOUNDS);
    }
    match put_available(fields, report, values) {
        Some(count) => HidreportAnswer::counted(count),
        None => HidreportAnswer::refused(OUT_OF_BOUNDS),
    }
}

/// Whether all values of all fields can be read.
pub(crate) fn check_all(fields: &[HidreportField], report: &[u8]) -> Result<(), u32>
    ensures { result ≡ by_status (acceptance (numbers_in fields.now report.now)) }
{
    for field in fields {
        field.check_values(report)?;
    }
    Ok(())
}

/// How many values fields have, if they can be counted.
fn count_of(fields: &[HidreportField]) -> Option<usize>
    ensures some { IfSome result (λ count. count ≡ count_at fields.now) }
    ensures bound { IfSome result (λ count. count < 2 ^ 64) }
    ensures none { IsNone result → 2 ^ 64 ≤ count_at fields.now }
{
    let mut count: usize = 0;
    for field in fields {
        count = count.checked_add(field.value_count)?;
    }
    Some(count)
}

/// Puts the values of all fields in place of the first of `values`, as many as there is room for.
fn put_all(fields: &[HidreportField], report: &[u8], values: &mut [i64])
    requires read { IsOk (numbers_in fields.now report.now) }
    requires counted { count_at fields.now < 2 ^ 64 }
    ensures { values.new
        ≡ array_after (list_or_nothing (numbers_in fields.now report.now)) values.old }
{
    let short = short_word(report);
    let mut count: usize = 0;
    for field in fields {
        let begun = count.min(values.len());
        field.write_values(report, short, &mut values[begun..]);
        count += field.value_count;
    }
}

/// Whether bytes begin with another id than that which one of the fields is read by.
fn are_of_another(fields: &[HidreportField], report: &[u8]) -> bool
    ensures { result
        ≡ list_any (λ (f : HidreportField). begins_otherwise report.now (id_of f)) fields.now }
{
    fields.iter().any(|field| field.is_of_another(report))
}

/// Puts the values that the bytes have in place of the first of `values`, as many as there is room
/// for; how many there are, if they can be counted.
fn put_available(fields: &[HidreportField], report: &[u8], values: &mut [i64]) -> Option<usize>
    ensures some { IfSome result (λ count. (count ≡ length (there_in fields.now report.now))
        × (values.new ≡ array_after (there_in fields.now report.now) values.old)) }
    ensures none { IsNone result → 2 ^ 64 ≤ length (there_in fields.now report.now) }
{
    let mut count: usize = 0;
    for field in fields {
        let begun = count.min(values.len());
        let there = field.put_available(report, &mut values[begun..]);
        count = count.checked_add(there)?;
        if there < field.value_count {
            return Some(count);
        }
    }
    Some(count)
}

impl HidreportField {
    /// Whether bytes begin with another id than that which the field is read by.
    fn is_of_another(&self, report: &[u8]) -> bool
        ensures { result ≡ begins_otherwise report.now (id_of self.now) }
    {
        match report.first() {
            Some(first) => self.has_report_id && *first != self.report_id,
            None => false,
        }
    }

    /// Puts the values that the bytes have in place of the first of `values`, whatever the report's
    /// id, as many as there is room for; how many there are.
    fn put_available(&self, report: &[u8], values: &mut [i64]) -> usize
        ensures values { values.new ≡ array_after (there_at self.now report.now) values.old }
        ensures count { result ≡ length (there_at self.now report.now) }
        ensures most { result ≤ self.now.value_count }
    {
        let width = self.element_width();
        for index in 0..self.value_count {
            let Some(value) = self.element(report, width, index) else {
                return index;
            };
            if index < values.len() {
                values[index] = i64::from(value);
            }
        }
        self.value_count
    }
}
