//! Values of a field, written into a report's bytes.
ghost use Rattle.std.specs.Prelude.{◌≡◌, ◌≢◌, ◌+◌, ◌*◌, ◌<◌, ◌≤◌, ◌^◌, length};
ghost use Rattle.hidreport.specs.Records.{FieldRecord};
ghost use Rattle.hidreport.specs.Spelling.{AreBytes};
ghost use Rattle.hidreport.specs.WritingLaws.{IsWritten};
ghost use Rattle.hidreport.specs.WritingValues.{begins_in_id, written};
ghost use Rattle.hidreport_c.specs.Field.{as_c};
ghost use Rattle.hidreport_c.specs.Insert.{IsInserted, Places, bytes_after, inserted_at, inserted_value, is_signed_in, placed_at, status_after, width_of, written_at};
ghost use Rattle.hidreport_c.specs.Value.{id_of};

use crate::status::{ACCEPTED, DOES_NOT_FIT, OUT_OF_BOUNDS, WRONG_COUNT};
use crate::structs::HidreportField;
use hidreport::bits::{all_fit, put_values};
use std::slice;

/// Writes value `index` of a field, counted from 0, into a report that has these bytes: its bits
/// become those of the number in two's complement, the lowest first, and no other bit changes
/// (Sections 5.6 and 5.8). The answer is 0, or the number of the refusal. It takes no memory.
///
/// What can't be read can't be written: 2 and 3 come as `hidreport_value` says. A value that begins
/// in the byte of the report's id is 2, too. Then a number that so many bits don't hold, signed or
/// not as the field is, is 7; one outside the logical bounds is written, since it stands for no
/// value. A refusal leaves the bytes as they were. Whatever numbers the field has, nothing but the
/// bytes is read and written.
///
/// Of a field that the library described it is what `insert` and `insert_one` write (`insert`):
/// what was written is read again, all other bits and the report's other fields stay, and of two
/// writes the second counts (`laws`).
#[unsafe(no_mangle)]
pub extern "C" fn hidreport_insert(
    field: &HidreportField,
    report: &mut [u8],
    index: usize,
    value: i64,
) -> u32
    ensures status { result ≡ status_after (inserted_at field.now index value report.old) }
    ensures bytes { report.new
        ≡ bytes_after (inserted_at field.now index value report.old) report.old }
    ensures insert { (read : FieldRecord) → field.now ≡ as_c read
        → inserted_at field.now index value report.old
        ≡ inserted_value read index value report.old }
    ensures laws { (read : FieldRecord) → field.now ≡ as_c read → result ≡ 0
        → IsInserted read index value report.old report.new }
{
    match field.insert(report, index, value) {
        Ok(()) => ACCEPTED,
        Err(status) => status,
    }
}

/// Writes all values of a field, in order, into a report that has these bytes, as
/// `hidreport_insert` says of one. The answer is 0, or the number of the refusal. It takes no
/// memory.
///
/// More or fewer values than the field has are refused with 8, before anything else; then the first
/// value that is refused refuses all. A refusal leaves the bytes as they were.
///
/// Of a field that the library described it is what `insert` writes (`insert`), and its laws hold,
/// as `hidreport_insert` says (`laws`).
#[unsafe(no_mangle)]
pub extern "C" fn hidreport_insert_all(
    field: &HidreportField,
    report: &mut [u8],
    values: &[i64],
) -> u32
    ensures status { result ≡ status_after (written_at field.now values.now report.old) }
    ensures bytes { report.new
        ≡ bytes_after (written_at field.now values.now report.old) report.old }
    ensures insert { (read : FieldRecord) → field.now ≡ as_c read
        → written_at field.now values.now report.old ≡ written read values.now report.old }
    ensures laws { (read : FieldRecord) → field.now ≡ as_c read → result ≡ 0
        → IsWritten read values.now report.old report.new }
{
    match field.insert_all(report, values) {
        Ok(()) => ACCEPTED,
        Err(status) => status,
    }
}

impl HidreportField {
    /// Writes one of the field's values.
    fn insert(&self, report: &mut [u8], index: usize, value: i64) -> Result<(), u32>
        ensures answer { Places result report.old report.new
            (inserted_at self.now index value report.old) }
        ensures bytes { AreBytes report.old }
    {
        self.read(report, index)?;
        let width = self.element_width();
        self.place(
            report,
            self.first_bit + width * index,
            width,
            slice::from_ref(&value),
        )
    }

    /// Writes all of them.
    fn insert_all(&self, report: &mut [u8], values: &[i64]) -> Result<(), u32>
        ensures answer { Places result report.old report.new
            (written_at self.now values.now report.old) }
        ensures bytes { AreBytes report.old }
    {
        let readable = self.check_values(report);
        if values.len() != self.value_count {
            return Err(WRONG_COUNT);
        }
        readable?;
        self.place(report, self.first_bit, self.element_width(), values)
    }

    /// Writes values that are there, each of so many bits, from a bit on, where they don't begin in
    /// the byte of the id and each fits.
    fn place(
        &self,
        report: &mut [u8],
        first: usize,
        width: usize,
        values: &[i64],
    ) -> Result<(), u32>
        requires width { width ≡ width_of self.now }
        requires some { length values.now ≢ 0 → 0 < width }
        requires narrow { length values.now ≢ 0 → width ≤ 32 }
        requires within { length values.now ≢ 0
            → first + width * length values.now ≤ 8 * length report.now }
        requires counted { first + width * length values.now < 2 ^ 64 }
        ensures { Places result report.old report.new
            (placed_at self.now first values.now report.old) }
    {
        if self.begins_in_id(first) {
            return Err(OUT_OF_BOUNDS);
        }
        if !all_fit(width, self.is_signed(), values) {
            return Err(DOES_NOT_FIT);
        }
        put_values(report, first, width, values);
        Ok(())
    }

    /// Whether bits from this one on begin in the byte of the report's id.
    pub(crate) fn begins_in_id(&self, first: usize) -> bool
        ensures { result ≡ begins_in_id (id_of self.now) first }
    {
        self.has_report_id && first < 8
    }

    /// Whether its values can be below 0: the logical minimum is.
    pub(crate) fn is_signed(&self) -> bool
        ensures { result ≡ is_signed_in self.now }
    {
        self.measures.logical_minimum < 0
    }
}
