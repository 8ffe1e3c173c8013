//! Values that are read from reports.
ghost use Rattle.std.specs.Prelude.{◌≡◌, ◌≢◌, true, Err, Ok, ◌+◌, ◌*◌, ◌<◌, ◌≤◌, ◌%◌, ◌^◌, length, IfErr, IfSome, IsNone};
ghost use Rattle.std.specs.Int.{w8, w16, w32, cast_signed};
ghost use Rattle.hidreport_items.specs.Numbers.{word};
ghost use Rattle.hidreport_lists.specs.Answer.{Answers, OutOfBounds, IsOfReading};
ghost use Rattle.hidreport_fields.specs.BitValue.{sum_of_bits, value, as_word};
ghost use Rattle.hidreport_fields.specs.Choosing.{value_number};
ghost use Rattle.hidreport_fields.specs.Reading.{read_bits, with_id};
ghost use Rattle.hidreport_fields.specs.WritingValues.{are_readable};

use crate::field::bit_number::{bits_at, short_word};
use hidreport_lists::ParserError;
use hidreport_types::ReportId;
use std::marker::Model;
use std::ops::Range;

/// A value that was read from a report (Section 5.8): 32 bits, and whether they are signed.
///
/// `i64::from` gives the number itself; the numbers of other types are its low bits.
#[derive(Clone, Copy, Debug)]
pub struct FieldValue {
    is_signed: bool,
    value: u32,
}

impl Model for FieldValue {
    ghost use Rattle.hidreport_fields.specs.Reading.{ValueRecord};

    ghost Value = { ValueRecord };

    ghost view = { λ v. record { word = v.value; is_signed = v.is_signed } };

    ghost inverse = { λ v. record { is_signed = v.is_signed; value = v.word } };
}

impl FieldValue {
    /// Reads the value of a range of bits in these bytes, counted from the lowest bit of the first
    /// byte on (Section 5.8); takes no memory.
    ///
    /// It is what `extract` reads where no report id is in the way. It is `None` where the range is
    /// empty or reversed, has more than 32 bits, or ends after the bytes.
    ///
    /// # Examples
    ///
    /// ```rust
    /// use hidreport::FieldValue;
    ///
    /// let value = FieldValue::from_bits(b"\x05\xfb", &(8..16), true).ok_or("no bits")?;
    /// assert_eq!(rt; i64::from(value), -5);
    /// ```
    pub fn from_bits(bytes: &[u8], bits: &Range<usize>, is_signed: bool) -> Option<FieldValue>
        ensures value { IfSome result (λ value.
            read_bits bits.now.start bits.now.end is_signed bytes.now ≡ Ok value) }
        ensures outside { IsNone result
            → read_bits bits.now.start bits.now.end is_signed bytes.now ≡ Err OutOfBounds }
    {
        read_bits(bytes, bits, is_signed)
    }

    /// Whether the field could be below 0 when the value was read.
    pub fn is_signed(&self) -> bool
        ensures { result ≡ self.now.is_signed }
    {
        self.is_signed
    }
}

impl From<&FieldValue> for u32 {
    ghost from_gives = { λ value number. number ≡ value.now.word };

    fn from(field_value: &FieldValue) -> u32 {
        field_value.value
    }
}

impl From<FieldValue> for u32 {
    ghost from_gives = { λ value number. number ≡ value.word };

    fn from(value: FieldValue) -> u32 {
        u32::from(&value)
    }
}

/// The low 16 bits.
impl From<&FieldValue> for u16 {
    ghost from_gives = { λ value number. number ≡ value.now.word % 65536 };

    fn from(field_value: &FieldValue) -> u16 {
        (u32::from(field_value) & 0xffff) as u16
    }
}

impl From<FieldValue> for u16 {
    ghost from_gives = { λ value number. number ≡ value.word % 65536 };

    fn from(value: FieldValue) -> u16 {
        u16::from(&value)
    }
}

/// The low 8 bits.
impl From<&FieldValue> for u8 {
    ghost from_gives = { λ value number. number ≡ value.now.word % 256 };

    fn from(field_value: &FieldValue) -> u8 {
        (u32::from(field_value) & 0xff) as u8
    }
}

impl From<FieldValue> for u8 {
    ghost from_gives = { λ value number. number ≡ value.word % 256 };

    fn from(value: FieldValue) -> u8 {
        u8::from(&value)
    }
}

impl From<&FieldValue> for i32 {
    ghost from_gives = { λ value number. number ≡ cast_signed w32 value.now.word };

    fn from(field_value: &FieldValue) -> i32 {
        u32::from(field_value).cast_signed()
    }
}

impl From<FieldValue> for i32 {
    ghost from_gives = { λ value number. number ≡ cast_signed w32 value.word };

    fn from(value: FieldValue) -> i32 {
        i32::from(&value)
    }
}

/// The low 16 bits, signed.
impl From<&FieldValue> for i16 {
    ghost from_gives = { λ value number. number ≡ cast_signed w16 (value.now.word % 65536) };

    fn from(field_value: &FieldValue) -> i16 {
        u16::from(field_value).cast_signed()
    }
}

impl From<FieldValue> for i16 {
    ghost from_gives = { λ value number. number ≡ cast_signed w16 (value.word % 65536) };

    fn from(value: FieldValue) -> i16 {
        i16::from(&value)
    }
}

/// The low 8 bits, signed.
impl From<&FieldValue> for i8 {
    ghost from_gives = { λ value number. number ≡ cast_signed w8 (value.now.word % 256) };

    fn from(field_value: &FieldValue) -> i8 {
        u8::from(field_value).cast_signed()
    }
}

impl From<FieldValue> for i8 {
    ghost from_gives = { λ value number. number ≡ cast_signed w8 (value.word % 256) };

    fn from(value: FieldValue) -> i8 {
        i8::from(&value)
    }
}

/// The number itself: below 0 only where the value is signed.
impl From<&FieldValue> for i64 {
    ghost from_gives = { λ value number. number ≡ value_number value.now };

    fn from(field_value: &FieldValue) -> i64 {
        if field_value.is_signed {
            i64::from(i32::from(field_value))
        } else {
            i64::from(u32::from(field_value))
        }
    }
}

impl From<FieldValue> for i64 {
    ghost from_gives = { λ value number. number ≡ value_number value };

    fn from(value: FieldValue) -> i64 {
        i64::from(&value)
    }
}

/// At most five bytes as one number, the first as the lowest.
pub(crate) fn word(bytes: &[u8]) -> u64
    requires { length bytes.now ≤ 5 }
    ensures { result ≡ word bytes.now }
{
    match bytes {
        [] => 0,
        [a] => u64::from(*a),
        [a, b] => u64::from(u16::from_le_bytes([*a, *b])),
        [a, b, c] => u64::from(u32::from_le_bytes([*a, *b, *c, 0])),
        [a, b, c, d] => u64::from(u32::from_le_bytes([*a, *b, *c, *d])),
        [a, b, c, d, e, ..] => u64::from_le_bytes([*a, *b, *c, *d, *e, 0, 0, 0]),
    }
}

/// The bits from `first` on as one number, the first as the lowest.
#[inline(always)]
fn sum_of_bits(bytes: &[u8], first: usize, width: usize) -> u64
    requires some { 0 < width }
    requires narrow { width ≤ 32 }
    requires within { first + width ≤ 8 * length bytes.now }
    ensures value { result ≡ sum_of_bits bytes.now first width }
    ensures small { result < 2 ^ width }
{
    if bytes.len() < 8 {
        return bits_at(bytes, short_word(bytes), first, width);
    }
    bits_at(bytes, 0, first, width)
}

/// The same with the sign of its top bit, as 32 bits.
fn signed_bits(bytes: &[u8], first: usize, width: usize) -> u32
    requires some { 0 < width }
    requires narrow { width ≤ 32 }
    requires within { first + width ≤ 8 * length bytes.now }
    ensures { result ≡ as_word (value bytes.now first width true) }
{
    let sum = sum_of_bits(bytes, first, width);
    if sum < 1 << (width - 1) {
        sum as u32
    } else {
        ((1 << 32) - (1 << width) + sum) as u32
    }
}

/// The value of a range of bits: at least one, at most 32, all of them in the bytes. `None` where
/// they aren't.
#[inline(always)]
pub fn read_bits(bytes: &[u8], bits: &Range<usize>, is_signed: bool) -> Option<FieldValue>
    ensures value { IfSome result (λ value.
        read_bits bits.now.start bits.now.end is_signed bytes.now ≡ Ok value) }
    ensures outside { IsNone result
        → read_bits bits.now.start bits.now.end is_signed bytes.now ≡ Err OutOfBounds }
{
    if !are_readable(bytes, bits) {
        return None;
    }
    let first = bits.start;
    let width = bits.end - first;
    let value = if is_signed {
        signed_bits(bytes, first, width)
    } else {
        sum_of_bits(bytes, first, width) as u32
    };
    Some(FieldValue { is_signed, value })
}

/// Whether a range of bits can be read: at least one, at most 32, all of them in the bytes.
#[inline(always)]
pub(crate) fn are_readable(bytes: &[u8], bits: &Range<usize>) -> bool
    ensures { result ≡ are_readable bits.now.start bits.now.end bytes.now }
{
    let first = bits.start;
    let end = bits.end;
    first < end && end - first <= 32 && end.div_ceil(8) <= bytes.len()
}

/// Bytes are read by a field with an id only where they begin with it.
pub fn check_id(report_id: Option<ReportId>, bytes: &[u8]) -> Result<(), ParserError>
    ensures answer { Answers result (with_id report_id bytes.now (Ok tt)) }
    ensures named { IfErr result IsOfReading }
    ensures memory { result ≢ Err ParserError.OutOfMemory }
{
    match (report_id, bytes.first()) {
        (None, _) => Ok(()),
        (Some(_), None) => Err(ParserError::OutOfBounds),
        (Some(report_id), Some(first)) if report_id == ReportId::from(*first) => Ok(()),
        (Some(_), Some(_)) => Err(ParserError::MismatchingReportId),
    }
}
