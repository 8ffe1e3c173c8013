//! Variable fields.
ghost use Rattle.std.specs.Prelude.{◌≡◌, ◌≢◌, [], ◌∷◌, pos, int_lt, ◌&&◌, IfErr, IfOk, OnOk};
ghost use Rattle.std.specs.Ordering.{int_eq};
ghost use Rattle.hidreport_lists.specs.Answer.{AnswersBy, IsOfReading};
ghost use Rattle.hidreport_fields.specs.Bits.{FixesBits};
ghost use Rattle.hidreport_fields.specs.Reading.{reads};
ghost use Rattle.hidreport_fields.specs.Scaling.{normalized, physical_between, physical_value};
ghost use Rattle.hidreport_items.specs.Spelling.{AreBytes};
ghost use Rattle.hidreport_fields.specs.WritingValues.{Inserts, written};
ghost use Rattle.hidreport_fields.specs.WritingLaws.{IsWritten, reads_numbers};
ghost use Rattle.hidreport_fields.specs.Views.{variable_attributes, variable_record};

use crate::field::FieldId;
use crate::field::collection::Collection;
use crate::field::data_item::DataItem;
use crate::field::field_attributes::FieldAttributes;
use crate::field::fraction::Fraction;
use crate::field::insert_error::InsertError;
use crate::field::usage::Usage;
use crate::field::value::{FieldValue, check_id, read_bits};
use crate::field::written_bits::{check_place, fits, put_bits};
use hidreport_items::ItemFlags;
use hidreport_lists::ParserError;
use hidreport_types::{
    LogicalMaximum, LogicalMinimum, PhysicalMaximum, PhysicalMinimum, ReportId, Unit, UnitExponent,
};
use std::alloc::AllocError;
use std::ops::Range;
use std::sync::ArcSlice;

/// A field with one value (Section 6.2.2.5).
///
/// The public fields may be changed; reading follows what they are then.
#[derive(Debug, Drop)]
pub struct VariableField {
    pub(crate) id: FieldId,
    pub(crate) report_id: Option<ReportId>,

    /// The field's bits in its report, counted from 0, the byte of its id among them: from the
    /// first up to the one after the last.
    pub bits: Range<usize>,

    /// What the value is for (Section 6.2.2.8).
    pub usage: Usage,

    /// The least value (Section 6.2.2.7); the field is signed where it is below 0.
    pub logical_minimum: LogicalMinimum,

    /// The greatest value (Section 6.2.2.7).
    pub logical_maximum: LogicalMaximum,

    /// What the least value stands for (Section 6.2.2.7); 0 where only the other physical bound was
    /// set.
    pub physical_minimum: Option<PhysicalMinimum>,

    /// What the greatest value stands for (Section 6.2.2.7); 0 where only the other physical bound
    /// was set.
    pub physical_maximum: Option<PhysicalMaximum>,

    /// The unit of the physical bounds (Section 6.2.2.7).
    pub unit: Option<Unit>,

    /// The power of ten of the unit (Section 6.2.2.7).
    pub unit_exponent: Option<UnitExponent>,

    /// The collections that the field lies in, outermost first (Section 6.2.2.6); the fields of an
    /// item share them.
    pub collections: ArcSlice<Collection>,

    pub(crate) item: DataItem,
}

impl VariableField {
    /// The flags of the item that made the field, all nine (Section 6.2.2.5); Volatile is off in an
    /// input report.
    pub fn flags(&self) -> ItemFlags
        ensures { result ≡ (variable_attributes self.now).flags }
    {
        self.item.flags
    }

    /// Whether the value can be below 0: the logical minimum is (Section 6.2.2.7).
    pub fn is_signed(&self) -> bool
        ensures { result ≡ int_lt self.now.logical_minimum (pos 0) }
    {
        self.logical_minimum < LogicalMinimum::from(0)
    }

    /// Reads the field's value from the bytes of a report (Section 5.8); takes no memory.
    ///
    /// Where two reports have values, these are equal just where all bits of the range are
    /// (`fixed`).
    ///
    /// # Errors
    ///
    /// - `OutOfBounds`: the field has a report id, and there are no bytes.
    /// - `MismatchingReportId`: the field has a report id, and the first byte is another.
    /// - `OutOfBounds`: the range of bits is empty or reversed, has more than 32 bits, or ends
    ///   after the bytes.
    ///
    /// # Examples
    ///
    /// ```rust
    /// use hidreport::{Field, Report, ReportDescriptor};
    ///
    /// let bytes = b"\x05\x01\x15\x81\x25\x7f\x75\x08\x95\x02\x09\x30\x09\x31\x81\x02";
    /// let descriptor = ReportDescriptor::try_from(alloc, bytes)?;
    /// let report = descriptor.find_input_report(b"\x05\xfb").ok_or("no report")?;
    /// let mut values = Vec::new(alloc);
    /// for field in report.fields() {
    ///     if let Field::Variable(field) = field {
    ///         values.push(i64::from(field.extract(b"\x05\xfb")?))?;
    ///     }
    /// }
    /// assert_eq!(rt; values.as_slice(), [5, -5].as_slice());
    /// ```
    pub fn extract(&self, bytes: &[u8]) -> Result<FieldValue, ParserError>
        ensures answer { AnswersBy (λ value. value ∷ []) result
            (reads (variable_record self.now) bytes.now) }
        ensures named { IfErr result IsOfReading }
        ensures fixed { FixesBits (variable_record self.now) bytes.now }
        ensures memory { result ≢ Err ParserError.OutOfMemory }
    {
        check_id(self.report_id, bytes)?;
        read_bits(bytes, &self.bits, self.is_signed()).ok_or(ParserError::OutOfBounds)
    }

    /// Writes the field's value into the bytes of a report (Section 5.8); takes no memory.
    ///
    /// The field's bits become those of the value in two's complement, the lowest first, and no
    /// other bit changes. A value outside the logical bounds is written, since it stands for no
    /// value. What was written is read again, all other bits and the report's other fields stay,
    /// and of two writes the second counts (`laws`); to write what was read changes nothing
    /// (`again`).
    ///
    /// # Errors
    ///
    /// The bytes stay as they were.
    ///
    /// - What `extract` refuses, in its order: `OutOfBounds`, `MismatchingReportId`.
    /// - `OutOfBounds`: the field has a report id, and its range begins in the byte of the id.
    /// - `DoesNotFit`: so many bits don't hold the value, signed or not as the field is.
    ///
    /// # Examples
    ///
    /// ```rust
    /// use hidreport::{Field, InsertError, Report, ReportDescriptor};
    ///
    /// let bytes = b"\x05\x01\x75\x04\x95\x01\x81\x01\x15\xf8\x25\x07\x09\x30\x81\x02";
    /// let descriptor = ReportDescriptor::try_from(alloc, bytes)?;
    /// let report = descriptor.input_reports().first().ok_or("no report")?;
    /// let mut bytes = [0xff, 0x00];
    /// if let Some(Field::Variable(field)) = report.fields().last() {
    ///     field.insert(&mut bytes, -3)?;
    ///     assert_eq!(rt; field.insert(&mut bytes, 8), Err(InsertError::DoesNotFit));
    /// }
    /// assert_eq!(rt; bytes, [0xdf, 0x00]);
    /// ```
    pub fn insert(&self, bytes: &mut [u8], value: i64) -> Result<(), InsertError>
        ensures answer { Inserts result bytes.old bytes.new
            (written (variable_record self.now) (value ∷ []) bytes.old) }
        ensures laws { OnOk result
            (IsWritten (variable_record self.now) (value ∷ []) bytes.old bytes.new) }
        ensures again { reads_numbers (variable_record self.now) bytes.old ≡ Ok (value ∷ [])
            → (bytes.new ≡ bytes.old) × (result ≢ Err InsertError.DoesNotFit) }
    {
        self.put_value(bytes, value)
    }

    /// What `insert` does, by the definition alone.
    #[inline(always)]
    fn put_value(&self, bytes: &mut [u8], value: i64) -> Result<(), InsertError>
        ensures answer { Inserts result bytes.old bytes.new
            (written (variable_record self.now) (value ∷ []) bytes.old) }
        ensures bytes { AreBytes bytes.old }
    {
        check_place(&self.report_id, &self.bits, bytes)?;
        let width = self.bits.end - self.bits.start;
        if !fits(width, self.is_signed(), value) {
            return Err(InsertError::DoesNotFit);
        }
        put_bits(bytes, self.bits.start, width, value);
        Ok(())
    }

    /// What a value of the field stands for, in its unit times ten to its exponent
    /// (Section 6.2.2.7).
    ///
    /// The logical bounds stand for the physical ones, and a value lies on the line through both,
    /// beyond them too. Physical bounds that are both 0 or unset are the logical ones. It is `None`
    /// where the logical minimum isn't below the maximum.
    ///
    /// # Examples
    ///
    /// ```rust
    /// use hidreport::{Field, Report, ReportDescriptor};
    ///
    /// // Values from 0 to 255 stand for 0 to 360.
    /// let bytes = b"\x05\x01\x09\x30\x26\xff\x00\x46\x68\x01\x75\x08\x95\x01\x81\x02";
    /// let descriptor = ReportDescriptor::try_from(alloc, bytes)?;
    /// let report = descriptor.input_reports().first().ok_or("no report")?;
    /// if let Some(Field::Variable(field)) = report.fields().first() {
    ///     let value = field.physical_value(128).ok_or("no value")?;
    ///     assert_eq!(rt; (value.numerator, value.denominator), (46_080, 255));
    /// }
    /// ```
    pub fn physical_value(&self, value: i64) -> Option<Fraction>
        ensures { result ≡ physical_value (variable_attributes self.now) value }
    {
        let first = self.physical_minimum.map_or(0, i32::from);
        let last = self.physical_maximum.map_or(0, i32::from);
        self.value_between(first, last, value)
    }

    /// The same, where these are the physical bounds.
    fn value_between(&self, first: i32, last: i32, value: i64) -> Option<Fraction>
        ensures { result ≡ physical_between first last (variable_attributes self.now) value }
    {
        let low = i32::from(self.logical_minimum);
        let high = i32::from(self.logical_maximum);
        if are_unset(first, last) {
            Fraction::on_line(value, low, high, low, high)
        } else {
            Fraction::on_line(value, low, high, first, last)
        }
    }

    /// A value of the field between -1, its logical minimum, and 1, its logical maximum
    /// (Section 6.2.2.7).
    ///
    /// Beyond them it goes on as it does between them. It is `None` where the minimum isn't below
    /// the maximum.
    pub fn normalized(&self, value: i64) -> Option<Fraction>
        ensures { result ≡ normalized (variable_attributes self.now) value }
    {
        let low = i32::from(self.logical_minimum);
        let high = i32::from(self.logical_maximum);
        Fraction::on_line(value, low, high, -1, 1)
    }

    /// A copy of the field, which takes no memory: both share the list of collections.
    ///
    /// # Errors
    ///
    /// - `AllocError`: the list of collections would have 2^63 owners.
    pub fn clone(&self) -> Result<VariableField, AllocError>
        ensures { IfOk result (λ copy. variable_record copy ≡ variable_record self.now) }
    {
        Ok(VariableField {
            id: self.id,
            report_id: self.report_id,
            bits: self.bits.start..self.bits.end,
            usage: self.usage,
            logical_minimum: self.logical_minimum,
            logical_maximum: self.logical_maximum,
            physical_minimum: self.physical_minimum,
            physical_maximum: self.physical_maximum,
            unit: self.unit,
            unit_exponent: self.unit_exponent,
            collections: self.collections.clone()?,
            item: self.item,
        })
    }
}

/// Whether physical bounds say nothing: both are 0.
fn are_unset(first: i32, last: i32) -> bool
    ensures { result ≡ (int_eq first (pos 0) && int_eq last (pos 0)) }
{
    first == 0 && last == 0
}

impl FieldAttributes for VariableField {
    ghost attributes = { variable_attributes };

    fn is_relative(&self) -> bool {
        self.item.flags.is_relative
    }

    fn wraps(&self) -> bool {
        self.item.flags.wraps
    }

    fn is_nonlinear(&self) -> bool {
        self.item.flags.is_nonlinear
    }

    fn has_no_preferred_state(&self) -> bool {
        self.item.flags.has_no_preferred_state
    }

    fn has_null_state(&self) -> bool {
        self.item.flags.has_null_state
    }

    fn is_buffered_bytes(&self) -> bool {
        self.item.flags.is_buffered_bytes
    }

    fn is_volatile(&self) -> Option<bool> {
        self.item.volatile()
    }

    fn flags(&self) -> ItemFlags {
        self.item.flags
    }
}
