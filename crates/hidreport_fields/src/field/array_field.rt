//! Array fields.
ghost use Rattle.std.specs.Prelude.{◌≡◌, ◌≢◌, ◌+◌, ◌*◌, ◌^◌, ◌<◌, ◌≤◌, length, pos, int_lt, IfErr, IfOk, IfSome, IsNone, IsOk, OnOk, Some, true, false, slice_get, ℕ, ℤ, ◌||◌};
ghost use Rattle.hidreport_lists.specs.Answer.{Answers, AnswersBy, OutOfBounds, IsOfReading, Refuses};
ghost use Rattle.hidreport_fields.specs.Bits.{FixesBits};
ghost use Rattle.hidreport_fields.specs.Choosing.{usage_chosen, value_number};
ghost use Rattle.hidreport_fields.specs.Reading.{element_of, element_width, reads, reads_element, values_of};
ghost use Rattle.hidreport_fields.specs.Records.{is_of_range, usages_in};
ghost use Rattle.hidreport_fields.specs.Standing.{IsLeastFor, IsLeastUnchosen, IsNullNumber, is_null, is_unchosen, null_number};
ghost use Rattle.hidreport_fields.specs.Tiling.{HasRange};
ghost use Rattle.hidreport_fields.specs.UsageRange.{range_of, HasExactly};
ghost use Rattle.hidreport_items.specs.Spelling.{AreBytes};
ghost use Rattle.hidreport_fields.specs.WritingValues.{Inserts, written, written_element};
ghost use Rattle.hidreport_fields.specs.WritingLaws.{IsElementWritten, IsWritten, number_in, reads_numbers};
ghost use Rattle.hidreport_fields.specs.Views.{array_attributes, array_record};

use crate::field::FieldId;
use crate::field::collection::Collection;
use crate::field::data_item::DataItem;
use crate::field::element_numbers::ElementNumbers;
use crate::field::field_attributes::FieldAttributes;
use crate::field::insert_error::InsertError;
use crate::field::usage::Usage;
use crate::field::usage_range::UsageRange;
use crate::field::value::{FieldValue, are_readable, check_id, read_bits};
use crate::field::written_bits::{
    all_fit, begins_in_id, check_place, check_written_id, fits, put_bits, put_values,
};
use hidreport_items::ItemFlags;
use hidreport_lists::ParserError;
use hidreport_types::{
    LogicalMaximum, LogicalMinimum, PhysicalMaximum, PhysicalMinimum, ReportCount, ReportId, Unit,
    UnitExponent,
};
use std::alloc::AllocError;
use std::ops::Range;
use std::sync::ArcSlice;

/// A field with several values, each of which chooses among the field's usages (Section 6.2.2.5).
///
/// Its values are elements of one width: the field's bits divided by the count, rounded down, so
/// that bits may be left over at the end. The public fields may be changed; reading follows what
/// they are then.
#[derive(Debug, Drop)]
pub struct ArrayField {
    pub(crate) id: FieldId,
    pub(crate) report_id: Option<ReportId>,
    pub(crate) is_usage_range: bool,

    /// The field's bits in its report, counted from 0, the byte of its id among them: from the
    /// first up to the one after the last.
    pub bits: Range<usize>,

    pub(crate) usages: Vec<Usage>,

    /// How many values the field has (Section 6.2.2.7).
    pub report_count: ReportCount,

    /// The least value (Section 6.2.2.7); the field is signed where it is below 0.
    pub logical_minimum: LogicalMinimum,

    /// The greatest value (Section 6.2.2.7).
    pub logical_maximum: LogicalMaximum,

    /// What the least value stands for (Section 6.2.2.7); 0 where only the other physical bound was
    /// set.
    pub physical_minimum: Option<PhysicalMinimum>,

    /// What the greatest value stands for (Section 6.2.2.7); 0 where only the other physical bound
    /// was set.
    pub physical_maximum: Option<PhysicalMaximum>,

    /// The unit of the physical bounds (Section 6.2.2.7).
    pub unit: Option<Unit>,

    /// The power of ten of the unit (Section 6.2.2.7).
    pub unit_exponent: Option<UnitExponent>,

    /// The collections that the field lies in, outermost first (Section 6.2.2.6); the fields of an
    /// item share them.
    pub collections: ArcSlice<Collection>,

    pub(crate) item: DataItem,
}

impl ArrayField {
    /// The usages that the values choose among, in the order of the descriptor (Section 6.2.2.8).
    pub fn usages(&self) -> &[Usage]
        ensures { result.now ≡ usages_in (array_record self.now) }
    {
        &self.usages
    }

    /// The range of the usages, from the first to the last, where a minimum and a maximum gave them
    /// (Section 6.2.2.8); `None` where they were given one by one.
    ///
    /// Where the last id less the first is one less than the number of usages, as it is whenever
    /// minimum and maximum have the same upper 16 bits, the range has exactly these usages
    /// (`listed`; a field that was read meets its premise by `tiled` of `try_from`).
    pub fn usage_range(&self) -> Option<UsageRange>
        ensures range { let field = array_record self.now in
            result ≡ range_of (is_of_range field) (usages_in field) }
        ensures listed { HasRange (array_record self.now) → IfSome result (λ range.
            HasExactly range (usages_in (array_record self.now))) }
    {
        if !self.is_usage_range {
            return None;
        }
        let first = self.usages.first()?;
        let last = self.usages.last()?;
        Some(UsageRange::new(*first, *last))
    }

    /// Whether the usages were given by a minimum and a maximum (Section 6.2.2.8).
    pub fn is_usage_range(&self) -> bool
        ensures { result ≡ is_of_range (array_record self.now) }
    {
        self.is_usage_range
    }

    /// The usage that a value of the field stands for: the one whose index, counted from 0, is the
    /// value less the logical minimum (Section 6.2.2.5).
    ///
    /// It is `None` where the value lies outside the logical bounds, as it does where no usage is
    /// meant, and where no usage has the index.
    pub fn usage_of(&self, value: FieldValue) -> Option<Usage>
        ensures { result ≡ usage_chosen (usages_in (array_record self.now))
            self.now.logical_minimum self.now.logical_maximum (value_number value) }
    {
        let number = i64::from(value);
        let minimum = i64::from(i32::from(self.logical_minimum));
        let maximum = i64::from(i32::from(self.logical_maximum));
        if number < minimum || maximum < number {
            return None;
        }
        let index = (number - minimum).unsigned_abs() as usize;
        self.usages.get(index).copied()
    }

    /// The value that stands for a usage, the inverse of `usage_of`: the logical minimum plus the
    /// usage's index, counted from 0 (Section 6.2.2.5); takes no memory.
    ///
    /// Where the usage is listed more than once, it is the least such value. It is `None` where the
    /// usage isn't listed, or only after the logical maximum.
    pub fn value_of(&self, usage: Usage) -> Option<i64>
        ensures { IsLeastFor (usages_in (array_record self.now))
            self.now.logical_minimum self.now.logical_maximum usage result }
    {
        let index = self.index_of(usage)?;
        self.element_numbers().choosing(index)
    }

    /// A value that stands for no usage, and that an element's bits hold (Section 6.2.2.5); takes
    /// no memory.
    ///
    /// It is one outside the logical bounds where there is one: 0 if that is, else the number below
    /// the logical minimum, else the one above the logical maximum. Else it is the least number
    /// within them that has no usage at its index. It is `None` where the bits hold no such value
    /// (`none`), and where an element has no bits or more than 32.
    pub fn null_value(&self) -> Option<i64>
        ensures null { IsNullNumber (usages_in (array_record self.now))
            (element_width self.now.bits.start self.now.bits.end self.now.report_count)
            (int_lt self.now.logical_minimum (pos 0))
            self.now.logical_minimum self.now.logical_maximum result }
        ensures stands { IfSome result (λ number. is_unchosen (usages_in (array_record self.now))
            (element_width self.now.bits.start self.now.bits.end self.now.report_count)
            (int_lt self.now.logical_minimum (pos 0))
            self.now.logical_minimum self.now.logical_maximum number ≡ true) }
        ensures none { IsNone result → (number : ℤ) → is_unchosen
            (usages_in (array_record self.now))
            (element_width self.now.bits.start self.now.bits.end self.now.report_count)
            (int_lt self.now.logical_minimum (pos 0))
            self.now.logical_minimum self.now.logical_maximum number ≡ false }
    {
        self.element_numbers().null_value(self.usages.len())
    }

    /// The flags of the item that made the field, all nine (Section 6.2.2.5); Volatile is off in an
    /// input report.
    pub fn flags(&self) -> ItemFlags
        ensures { result ≡ (array_attributes self.now).flags }
    {
        self.item.flags
    }

    /// Whether the values can be below 0: the logical minimum is (Section 6.2.2.7).
    pub fn is_signed(&self) -> bool
        ensures { result ≡ int_lt self.now.logical_minimum (pos 0) }
    {
        self.logical_minimum < LogicalMinimum::from(0)
    }

    /// Reads the values of all elements, in order, from the bytes of a report (Section 5.8).
    ///
    /// A count of 0 gives no values. Memory is taken for the values alone, once they are known to
    /// be there. Where two reports have values, these are equal just where the bits of all elements
    /// are (`fixed`).
    ///
    /// # Errors
    ///
    /// - `OutOfBounds`: the field has a report id, and there are no bytes.
    /// - `MismatchingReportId`: the field has a report id, and the first byte is another.
    /// - `OutOfBounds`: an element has no bits or more than 32, or ends after the bytes.
    /// - `OutOfMemory`: memory for the values is refused.
    ///
    /// # Examples
    ///
    /// ```rust
    /// use hidreport::{Field, Report, ReportDescriptor};
    ///
    /// let bytes = b"\x05\x09\x19\x01\x29\x08\x15\x00\x25\x07\x75\x08\x95\x01\x81\x00";
    /// let descriptor = ReportDescriptor::try_from(alloc, bytes)?;
    /// let report = descriptor.input_reports().first().ok_or("no report")?;
    /// let mut usages = Vec::new(alloc);
    /// if let Some(Field::Array(buttons)) = report.fields().first() {
    ///     for value in buttons.extract(b"\x02")? {
    ///         usages.push(buttons.usage_of(value).map(u32::from))?;
    ///     }
    /// }
    /// assert_eq!(rt; usages.as_slice(), [Some(0x0009_0003)].as_slice());
    /// ```
    pub fn extract(&self, bytes: &[u8]) -> Result<Vec<FieldValue>, ParserError>
        ensures answer { AnswersBy (λ values. values.items) result
            (reads (array_record self.now) bytes.now) }
        ensures named { IfErr result IsOfReading }
        ensures fixed { FixesBits (array_record self.now) bytes.now }
        ensures memory { result ≡ Err ParserError.OutOfMemory
            → IsOk (reads (array_record self.now) bytes.now) }
    {
        check_id(self.report_id, bytes).and_then(|()| self.elements(bytes))
    }

    /// Reads the value of element `idx`, counted from 0, from the bytes of a report (Section 5.8);
    /// takes no memory.
    ///
    /// # Errors
    ///
    /// - `OutOfBounds`: `idx` isn't below the count.
    /// - `OutOfBounds`: the field has a report id, and there are no bytes.
    /// - `MismatchingReportId`: the field has a report id, and the first byte is another.
    /// - `OutOfBounds`: the element has no bits or more than 32, or ends after the bytes.
    pub fn extract_one(&self, bytes: &[u8], idx: usize) -> Result<FieldValue, ParserError>
        ensures answer { Answers result (reads_element (array_record self.now) bytes.now idx) }
        ensures named { IfErr result IsOfReading }
        ensures memory { result ≢ Err ParserError.OutOfMemory }
    {
        if idx >= usize::from(self.report_count) {
            return Err(ParserError::OutOfBounds);
        }
        check_id(self.report_id, bytes)?;
        self.element(bytes, self.element_width(), idx)
            .ok_or(ParserError::OutOfBounds)
    }

    /// Writes the value of element `index`, counted from 0, into the bytes of a report
    /// (Section 5.8); takes no memory.
    ///
    /// The element's bits become those of the value in two's complement, the lowest first, and no
    /// other bit changes. A value outside the logical bounds is written, since it stands for no
    /// usage. What was written is read again, all other bits, the other elements and the report's
    /// other fields stay, and of two writes the second counts (`laws`); to write what was read
    /// changes nothing (`again`).
    ///
    /// # Errors
    ///
    /// The bytes stay as they were.
    ///
    /// - What `extract_one` refuses, in its order: `OutOfBounds`, `MismatchingReportId`.
    /// - `OutOfBounds`: the field has a report id, and the element begins in the byte of the id.
    /// - `DoesNotFit`: the element's bits don't hold the value, signed or not as the field is.
    pub fn insert_one(&self, bytes: &mut [u8], index: usize, value: i64) -> Result<(), InsertError>
        ensures answer { Inserts result bytes.old bytes.new
            (written_element (array_record self.now) index value bytes.old) }
        ensures laws { OnOk result
            (IsElementWritten (array_record self.now) index value bytes.old bytes.new) }
        ensures again { number_in (reads_element (array_record self.now) bytes.old index) ≡ Ok value
            → (bytes.new ≡ bytes.old) × (result ≢ Err InsertError.DoesNotFit) }
    {
        self.put_element(bytes, index, value)
    }

    /// Writes the values of all elements, in order, into the bytes of a report (Section 5.8); takes
    /// no memory.
    ///
    /// The bits of the elements become those of the values in two's complement, the lowest first,
    /// and no other bit changes. A value outside the logical bounds is written, since it stands for
    /// no usage. What was written is read again, all other bits and the report's other fields stay,
    /// and of two writes the second counts (`laws`); to write what was read changes nothing
    /// (`again`).
    ///
    /// # Errors
    ///
    /// The bytes stay as they were.
    ///
    /// - `WrongCount`: there are more or fewer values than the field's count.
    /// - What `extract` refuses, in its order: `OutOfBounds`, `MismatchingReportId`.
    /// - `OutOfBounds`: the field has a report id, and its bits begin in the byte of the id.
    /// - `DoesNotFit`: an element's bits don't hold its value, signed or not as the field is.
    ///
    /// # Examples
    ///
    /// ```rust
    /// use hidreport::{Field, InsertError, Report, ReportDescriptor, Usage};
    ///
    /// let bytes = b"\x05\x09\x19\x01\x29\x08\x15\x00\x25\x07\x75\x08\x95\x01\x81\x00";
    /// let descriptor = ReportDescriptor::try_from(alloc, bytes)?;
    /// let report = descriptor.input_reports().first().ok_or("no report")?;
    /// let mut bytes = report.blank(alloc)?;
    /// if let Some(Field::Array(buttons)) = report.fields().first() {
    ///     let value = buttons.value_of(Usage::from(0x0009_0003)).ok_or("no value")?;
    ///     buttons.insert(&mut bytes, &[value])?;
    ///     assert_eq!(rt; buttons.insert(&mut bytes, &[]), Err(InsertError::WrongCount));
    /// }
    /// assert_eq!(rt; bytes.as_slice(), b"\x02".as_slice());
    /// ```
    pub fn insert(&self, bytes: &mut [u8], values: &[i64]) -> Result<(), InsertError>
        ensures answer { Inserts result bytes.old bytes.new
            (written (array_record self.now) values.now bytes.old) }
        ensures laws { OnOk result
            (IsWritten (array_record self.now) values.now bytes.old bytes.new) }
        ensures again { reads_numbers (array_record self.now) bytes.old ≡ Ok values.now
            → (bytes.new ≡ bytes.old) × (result ≢ Err InsertError.DoesNotFit) }
    {
        self.put_elements(bytes, values)
    }

    /// A copy of the field with a list of usages of its own; both share the list of collections.
    ///
    /// # Errors
    ///
    /// - `AllocError`: memory for the usages is refused, or the list of collections would have 2^63
    ///   owners.
    pub fn clone(&self) -> Result<ArrayField, AllocError>
        ensures { IfOk result (λ copy. array_record copy ≡ array_record self.now) }
    {
        Ok(ArrayField {
            id: self.id,
            report_id: self.report_id,
            bits: self.bits.start..self.bits.end,
            usages: Vec::from_slice(*self.usages.allocator(), &self.usages)?,
            is_usage_range: self.is_usage_range,
            report_count: self.report_count,
            logical_minimum: self.logical_minimum,
            logical_maximum: self.logical_maximum,
            physical_minimum: self.physical_minimum,
            physical_maximum: self.physical_maximum,
            unit: self.unit,
            unit_exponent: self.unit_exponent,
            collections: self.collections.clone()?,
            item: self.item,
        })
    }

    /// What `insert_one` does, by the definition alone.
    #[inline(always)]
    fn put_element(&self, bytes: &mut [u8], index: usize, value: i64) -> Result<(), InsertError>
        ensures answer { Inserts result bytes.old bytes.new
            (written_element (array_record self.now) index value bytes.old) }
        ensures bytes { result ≢ Err InsertError.OutOfBounds → AreBytes bytes.old }
    {
        if index >= usize::from(self.report_count) {
            return Err(InsertError::OutOfBounds);
        }
        let width = self.element_width();
        let first = self.element_first(width, index);
        check_place(&self.report_id, &(first..first + width), bytes)?;
        if !fits(width, self.is_signed(), value) {
            return Err(InsertError::DoesNotFit);
        }
        put_bits(bytes, first, width, value);
        Ok(())
    }

    /// What `insert` does, by the definition alone.
    fn put_elements(&self, bytes: &mut [u8], values: &[i64]) -> Result<(), InsertError>
        ensures answer { Inserts result bytes.old bytes.new
            (written (array_record self.now) values.now bytes.old) }
        ensures bytes { result ≢ Err InsertError.WrongCount → AreBytes bytes.old }
    {
        if values.len() != usize::from(self.report_count) {
            return Err(InsertError::WrongCount);
        }
        check_written_id(&self.report_id, bytes)?;
        let width = self.element_width();
        if !self.are_readable(bytes, width) || begins_in_id(&self.report_id, self.bits.start) {
            return Err(InsertError::OutOfBounds);
        }
        if !all_fit(width, self.is_signed(), values) {
            return Err(InsertError::DoesNotFit);
        }
        put_values(bytes, self.bits.start, width, values);
        Ok(())
    }

    /// The index of the first usage that is this one.
    fn index_of(&self, usage: Usage) -> Option<usize>
        ensures found { IfSome result (λ index.
            slice_get (usages_in (array_record self.now)) index ≡ Some usage) }
        ensures first { IfSome result (λ index. (k : ℕ) → k < index
            → slice_get (usages_in (array_record self.now)) k ≢ Some usage) }
        ensures absent { IsNone result → (k : ℕ)
            → slice_get (usages_in (array_record self.now)) k ≢ Some usage }
    {
        for index in 0..self.usages.len() {
            if self.usages[index] == usage {
                return Some(index);
            }
        }
        None
    }

    /// The numbers that an element can have.
    fn element_numbers(&self) -> ElementNumbers
        ensures width { result.width
            ≡ element_width self.now.bits.start self.now.bits.end self.now.report_count }
        ensures minimum { result.minimum ≡ self.now.logical_minimum }
        ensures maximum { result.maximum ≡ self.now.logical_maximum }
    {
        ElementNumbers {
            width: self.element_width(),
            minimum: i32::from(self.logical_minimum),
            maximum: i32::from(self.logical_maximum),
        }
    }

    /// The values of all elements, whatever the report's id.
    fn elements(&self, bytes: &[u8]) -> Result<Vec<FieldValue>, ParserError>
        ensures answer { AnswersBy (λ values. values.items) result
            (values_of (array_record self.now) bytes.now) }
        ensures named { IfErr result IsOfReading }
        ensures memory { result ≡ Err ParserError.OutOfMemory
            → IsOk (values_of (array_record self.now) bytes.now) }
    {
        let count = usize::from(self.report_count);
        let width = self.element_width();
        if !self.are_readable(bytes, width) {
            return Err(ParserError::OutOfBounds);
        }
        let mut values = Vec::with_capacity(*self.usages.allocator(), count)?;
        for idx in 0..count {
            let Some(value) = self.element(bytes, width, idx) else {
                return Err(ParserError::OutOfBounds);
            };
            values.push_reserved(value);
        }
        Ok(values)
    }

    /// How many bits an element has: the field's bits divided by the count, if it isn't 0.
    pub(crate) fn element_width(&self) -> usize
        ensures width { result
            ≡ element_width self.now.bits.start self.now.bits.end self.now.report_count }
        ensures counted { self.now.bits.start + result * self.now.report_count < 2 ^ 64 }
    {
        let width = self.bits.end.saturating_sub(self.bits.start);
        width
            .checked_div(usize::from(self.report_count))
            .unwrap_or(0)
    }

    /// The first bit of an element that is there, of so many bits.
    fn element_first(&self, width: usize, idx: usize) -> usize
        requires there { idx < self.now.report_count }
        requires counted { self.now.bits.start + width * self.now.report_count < 2 ^ 64 }
        ensures first { result ≡ self.now.bits.start + width * idx }
        ensures room { result + width < 2 ^ 64 }
    {
        self.bits.start + width * idx
    }

    /// Whether all elements, of so many bits, can be read, whatever the report's id: where the last
    /// one can, so can those before it.
    fn are_readable(&self, bytes: &[u8], width: usize) -> bool
        requires width { width
            ≡ element_width self.now.bits.start self.now.bits.end self.now.report_count }
        requires counted { self.now.bits.start + width * self.now.report_count < 2 ^ 64 }
        ensures readable { result ≡ true → IsOk (values_of (array_record self.now) bytes.now) }
        ensures outside { result ≡ false
            → values_of (array_record self.now) bytes.now ≡ Err OutOfBounds }
        ensures inside { result ≡ true → 0 < self.now.report_count → (0 < width) × (width ≤ 32)
            × (self.now.bits.start + width * self.now.report_count ≤ 8 * length bytes.now) }
    {
        let count = usize::from(self.report_count);
        if count == 0 {
            return true;
        }
        let last = self.element_first(width, count - 1);
        are_readable(bytes, &(last..last + width))
    }

    /// The value of an element that is there, of so many bits, whatever the report's id.
    fn element(&self, bytes: &[u8], width: usize, idx: usize) -> Option<FieldValue>
        requires there { idx < self.now.report_count }
        requires width { width
            ≡ element_width self.now.bits.start self.now.bits.end self.now.report_count }
        requires counted { self.now.bits.start + width * self.now.report_count < 2 ^ 64 }
        ensures value { IfSome result (λ value.
            element_of (array_record self.now) bytes.now idx ≡ Ok value) }
        ensures outside { IsNone result
            → element_of (array_record self.now) bytes.now idx ≡ Err OutOfBounds }
    {
        let first = self.element_first(width, idx);
        read_bits(bytes, &(first..first + width), self.is_signed())
    }
}

impl FieldAttributes for ArrayField {
    ghost attributes = { array_attributes };

    fn is_relative(&self) -> bool {
        self.item.flags.is_relative
    }

    fn wraps(&self) -> bool {
        self.item.flags.wraps
    }

    fn is_nonlinear(&self) -> bool {
        self.item.flags.is_nonlinear
    }

    fn has_no_preferred_state(&self) -> bool {
        self.item.flags.has_no_preferred_state
    }

    fn has_null_state(&self) -> bool {
        self.item.flags.has_null_state
    }

    fn is_buffered_bytes(&self) -> bool {
        self.item.flags.is_buffered_bytes
    }

    fn is_volatile(&self) -> Option<bool> {
        self.item.volatile()
    }

    fn flags(&self) -> ItemFlags {
        self.item.flags
    }
}

/// How many bits an element of an array has, as many of which as it has elements can be counted.
pub fn width_of_elements(field: &ArrayField) -> usize
    ensures width { result
        ≡ element_width field.now.bits.start field.now.bits.end field.now.report_count }
    ensures counted { field.now.bits.start + result * field.now.report_count < 2 ^ 64 }
{
    field.element_width()
}
