ghost use Rattle.std.specs.Prelude.{◌≡◌, ◌+◌, ◌*◌, ◌<◌, ◌≤◌, ◌^◌, if◌then◌else◌, false, Err, None, Ok, Some, IfSome, IsNone, IsOk, IsTrue, length, slice_set};
ghost use Rattle.hidreport_items.specs.Numbers.{word};
ghost use Rattle.hidreport.specs.Answer.{OutOfBounds};
ghost use Rattle.hidreport.specs.Spelling.{AreBytes};
ghost use Rattle.hidreport.specs.Reading.{element_width, reads, with_id};
ghost use Rattle.hidreport.specs.Records.{FieldRecord};
ghost use Rattle.hidreport_c.specs.Answer.{as_answer, list_or_nothing, array_after};
ghost use Rattle.hidreport_c.specs.Field.{as_c};
ghost use Rattle.hidreport_c.specs.Status.{by_status};
ghost use Rattle.hidreport_c.specs.Value.{IsNumberOf, acceptance, as_value, element_at, elements_at, extracted_value, id_of, value_numbers, value_at, values_at};

use crate::status::{ACCEPTED, MISMATCHING_REPORT_ID, OUT_OF_BOUNDS};
use crate::structs::{HidreportAnswer, HidreportField, HidreportValue};
use hidreport::FieldValue;
use hidreport_fields::{number_at, short_word};

/// The value `index` of a field, counted from 0, in a report that has these bytes (Sections 5.6
/// and 5.8). It takes no memory.
///
/// An index that isn't below the number of values, a report without bytes for a field with an id,
/// and bits that don't lie in the bytes are refused with 2; another first byte than the field's id
/// with 3. Whatever numbers the field has, nothing else is read. Of a field that the library
/// described it is the value that `extract` reads (`extract`).
#[unsafe(no_mangle)]
pub extern "C" fn hidreport_value(
    field: &HidreportField,
    report: &[u8],
    index: usize,
) -> HidreportValue
    ensures value { result ≡ as_value (value_at field.now report.now index) }
    ensures extract { (read : FieldRecord) → field.now ≡ as_c read
        → result ≡ as_value (extracted_value read report.now index) }
{
    field.value(report, index)
}

/// All values of a field, in order, in a report that has these bytes. As many as there is room for
/// are written; the answer is how many there are. It takes no memory.
///
/// They are refused as `hidreport_value` says of the first that is, where there are some, and then
/// nothing is written. Of a field that the library described they are the values that `extract`
/// reads (`extract`).
#[unsafe(no_mangle)]
pub extern "C" fn hidreport_values(
    field: &HidreportField,
    report: &[u8],
    values: &mut [i64],
) -> HidreportAnswer
    ensures answer { result ≡ as_answer (value_numbers (values_at field.now report.now)) }
    ensures written { values.new
        ≡ array_after (list_or_nothing (value_numbers (values_at field.now report.now)))
        values.old }
    ensures extract { (read : FieldRecord) → field.now ≡ as_c read
        → values_at field.now report.now ≡ reads read report.now }
{
    match field.check_values(report) {
        Ok(()) => field.write_values(report, short_word(report), values),
        Err(status) => HidreportAnswer::refused(status),
    }
}

impl HidreportField {
    /// One of the field's values as C has it.
    fn value(&self, report: &[u8], index: usize) -> HidreportValue
        ensures { result ≡ as_value (value_at self.now report.now index) }
    {
        match self.read(report, index) {
            Ok(value) => HidreportValue {
                number: i64::from(value),
                status: ACCEPTED,
            },
            Err(status) => HidreportValue { number: 0, status },
        }
    }

    /// One of the field's values, or the number of its refusal.
    pub(crate) fn read(&self, report: &[u8], index: usize) -> Result<FieldValue, u32>
        ensures value { result ≡ by_status (value_at self.now report.now index) }
        ensures bytes { AreBytes report.now }
    {
        if index >= self.value_count {
            return Err(OUT_OF_BOUNDS);
        }
        self.check_id(report)?;
        self.element(report, self.element_width(), index)
            .ok_or(OUT_OF_BOUNDS)
    }

    /// Bytes are read by a field with an id only where they begin with it.
    fn check_id(&self, report: &[u8]) -> Result<(), u32>
        ensures { result ≡ by_status (with_id (id_of self.now) report.now (Ok tt)) }
    {
        check_id(self.has_report_id, self.report_id, report)
    }

    /// Whether all values can be read.
    pub(crate) fn check_values(&self, report: &[u8]) -> Result<(), u32>
        ensures answer { result ≡ by_status (acceptance (values_at self.now report.now)) }
        ensures bytes { AreBytes report.now }
    {
        self.check_id(report)?;
        self.check_elements(report)
    }

    /// The same whatever the report's id: all have the same width, and the last ends in the bytes.
    fn check_elements(&self, report: &[u8]) -> Result<(), u32>
        ensures { result ≡ by_status (acceptance (elements_at self.now report.now)) }
    {
        if self.value_count == 0 {
            return Ok(());
        }
        let width = self.element_width();
        let end = self.first_bit + width * self.value_count;
        if are_readable(width, end, report.len()) {
            Ok(())
        } else {
            Err(OUT_OF_BOUNDS)
        }
    }

    /// Writes as many values as there is room for, by the bytes and what `short_word` gives of them.
    #[inline(always)]
    pub(crate) fn write_values(
        &self,
        report: &[u8],
        short: u64,
        values: &mut [i64],
    ) -> HidreportAnswer
        requires read { IsOk (elements_at self.now report.now) }
        requires short { length report.now < 8 → short ≡ word report.now }
        ensures answer { result ≡ as_answer (value_numbers (elements_at self.now report.now)) }
        ensures written { values.new
            ≡ array_after (list_or_nothing (value_numbers (elements_at self.now report.now)))
            values.old }
    {
        if self.value_count == 1 {
            self.write_only(report, short, values);
        } else {
            self.write_each(report, short, values);
        }
        HidreportAnswer::counted(self.value_count)
    }

    /// Writes the only value, if there is room for it.
    #[inline(always)]
    fn write_only(&self, report: &[u8], short: u64, values: &mut [i64])
        requires one { self.now.value_count ≡ 1 }
        requires read { IsOk (elements_at self.now report.now) }
        requires short { length report.now < 8 → short ≡ word report.now }
        ensures { values.new
            ≡ array_after (list_or_nothing (value_numbers (elements_at self.now report.now)))
            values.old }
    {
        let number = self.number(report, short, self.element_width(), 0);
        put_first(values, number);
    }

    /// Writes as many of several values as there is room for.
    fn write_each(&self, report: &[u8], short: u64, values: &mut [i64])
        requires read { IsOk (elements_at self.now report.now) }
        requires short { length report.now < 8 → short ≡ word report.now }
        ensures { values.new
            ≡ array_after (list_or_nothing (value_numbers (elements_at self.now report.now)))
            values.old }
    {
        let width = self.element_width();
        for index in 0..self.value_count.min(values.len()) {
            values[index] = self.number(report, short, width, index);
        }
    }

    /// The number of a value of so many bits, where all can be read, whatever the report's id.
    #[inline(always)]
    fn number(&self, report: &[u8], short: u64, width: usize, index: usize) -> i64
        requires there { index < self.now.value_count }
        requires width { width
            ≡ element_width self.now.first_bit self.now.end_bit self.now.value_count }
        requires counted { self.now.first_bit + width * self.now.value_count < 2 ^ 64 }
        requires read { IsOk (elements_at self.now report.now) }
        requires short { length report.now < 8 → short ≡ word report.now }
        ensures { IsNumberOf (element_at self.now report.now index) result }
    {
        let first = self.first_bit + width * index;
        let is_signed = self.measures.logical_minimum < 0;
        number_at(report, short, first, width, is_signed)
    }

    /// How many bits a value has: the field's bits divided by the number of values, if it isn't 0.
    pub(crate) fn element_width(&self) -> usize
        ensures width { result
            ≡ element_width self.now.first_bit self.now.end_bit self.now.value_count }
        ensures counted { self.now.first_bit + result * self.now.value_count < 2 ^ 64 }
    {
        let bits = self.end_bit.saturating_sub(self.first_bit);
        if self.value_count == 1 {
            return bits;
        }
        bits.checked_div(self.value_count).unwrap_or(0)
    }

    /// A value that is there, of so many bits, whatever the report's id.
    pub(crate) fn element(&self, report: &[u8], width: usize, index: usize) -> Option<FieldValue>
        requires there { index < self.now.value_count }
        requires width { width
            ≡ element_width self.now.first_bit self.now.end_bit self.now.value_count }
        requires counted { self.now.first_bit + width * self.now.value_count < 2 ^ 64 }
        ensures value { IfSome result (λ value. element_at self.now report.now index ≡ Ok value) }
        ensures outside { IsNone result → element_at self.now report.now index ≡ Err OutOfBounds }
    {
        let first = self.first_bit + width * index;
        let bits = first..first + width;
        FieldValue::from_bits(report, &bits, self.measures.logical_minimum < 0)
    }
}

/// Bytes are read by an id, if there is one, only where they begin with it.
pub(crate) fn check_id(has_id: bool, id: u8, report: &[u8]) -> Result<(), u32>
    ensures { result
        ≡ by_status (with_id (if has_id then Some id else None) report.now (Ok tt)) }
{
    if !has_id {
        return Ok(());
    }
    match report.first() {
        None => Err(OUT_OF_BOUNDS),
        Some(first) if *first != id => Err(MISMATCHING_REPORT_ID),
        Some(_) => Ok(()),
    }
}

/// Whether values of so many bits, of which the last ends at a bit, can be read from so many bytes.
fn are_readable(width: usize, end: usize, bytes: usize) -> bool
    ensures readable { IsTrue result → (0 < width) × (width ≤ 32) × (end ≤ 8 * bytes) }
    ensures outside { result ≡ false → 0 < width → width ≤ 32 → 8 * bytes < end }
{
    width > 0 && width <= 32 && end.div_ceil(8) <= bytes
}

/// Puts a number in place of the first value, if there is one.
#[inline(always)]
fn put_first(values: &mut [i64], number: i64)
    ensures { values.new ≡ slice_set values.old 0 number }
{
    if !values.is_empty() {
        values[0] = number;
    }
}
