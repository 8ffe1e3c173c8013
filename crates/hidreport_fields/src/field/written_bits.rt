//! Bits of a report's bytes, written as they are read.
ghost use Rattle.std.specs.Prelude.{◌≡◌, ◌≢◌, Ok, [], ◌∷◌, ◌+◌, ◌*◌, ◌<◌, ◌≤◌, ◌/◌, ◌%◌, ◌^◌, ℕ, ◌≤ℤ◌, ℤ, length, slice_index, true};
ghost use Rattle.std.specs.Int.{bit_at};
ghost use Rattle.std.specs.List.{list_all};
ghost use Rattle.hidreport_items.specs.Spelling.{AreBytes};
ghost use Rattle.hidreport_fields.specs.Reading.{with_id};
ghost use Rattle.hidreport_fields.specs.WritingValues.{begins_in_id, bit_after, fits, place_check, put, where_read};

use crate::field::insert_error::InsertError;
use crate::field::value::{are_readable, check_id, word};
use hidreport_lists::ParserError;
use hidreport_types::ReportId;
use std::ops::Range;

/// Refuses bits that a field with this id doesn't read, and those that begin in the id's byte.
#[inline(always)]
pub(crate) fn check_place(
    report_id: &Option<ReportId>,
    bits: &Range<usize>,
    bytes: &[u8],
) -> Result<(), InsertError>
    ensures answer { result ≡ place_check report_id.now bits.now.start bits.now.end bytes.now }
    ensures bytes { AreBytes bytes.now }
{
    check_written_id(report_id, bytes)?;
    if !are_readable(bytes, bits) || begins_in_id(report_id, bits.start) {
        return Err(InsertError::OutOfBounds);
    }
    Ok(())
}

/// Refuses bytes that a field with this id doesn't read.
pub(crate) fn check_written_id(
    report_id: &Option<ReportId>,
    bytes: &[u8],
) -> Result<(), InsertError>
    ensures answer { result ≡ where_read (with_id report_id.now bytes.now (Ok (tt {0}))) (Ok (tt {0})) }
    ensures bytes { AreBytes bytes.now }
{
    match check_id(*report_id, bytes) {
        Ok(()) => Ok(()),
        Err(ParserError::MismatchingReportId) => Err(InsertError::MismatchingReportId),
        Err(_) => Err(InsertError::OutOfBounds),
    }
}

/// Whether bits from this one on begin in the byte of an id.
pub fn begins_in_id(report_id: &Option<ReportId>, first: usize) -> bool
    ensures { result ≡ begins_in_id report_id.now first }
{
    report_id.is_some() && first < 8
}

/// Whether so many bits, 1 to 32, hold the number, signed or not (Section 5.8).
pub fn fits(width: usize, is_signed: bool, number: i64) -> bool
    requires some { 0 < width }
    requires narrow { width ≤ 32 }
    ensures { result ≡ fits width is_signed number }
{
    if is_signed {
        let half = 1 << (width - 1);
        -half <= number && number < half
    } else {
        0 <= number && number < 1 << width
    }
}

/// The least number that so many bits hold, signed or not.
pub(crate) fn least_held(width: usize, is_signed: bool) -> i64
    requires some { 0 < width }
    requires narrow { width ≤ 32 }
    ensures held { fits width is_signed result ≡ true }
    ensures least { (number : ℤ) → fits width is_signed number ≡ true → result ≤ℤ number }
{
    if is_signed { -(1 << (width - 1)) } else { 0 }
}

/// Whether so many bits, 1 to 32, hold each of these numbers, signed or not (Section 5.8).
pub fn all_fit(width: usize, is_signed: bool, numbers: &[i64]) -> bool
    requires some { length numbers.now ≢ 0 → 0 < width }
    requires narrow { length numbers.now ≢ 0 → width ≤ 32 }
    ensures { result ≡ list_all (fits width is_signed) numbers.now }
{
    for number in numbers {
        if !fits(width, is_signed, *number) {
            return false;
        }
    }
    true
}

/// Writes numbers, each in so many bits, 1 to 32, in place of the bits from `first` on, which all lie
/// in the bytes; no other bit changes (Section 5.8).
///
/// Each number's bits are the low ones of its two's complement, the lowest first.
///
/// # Examples
///
/// ```rust
/// use hidreport::bits::{all_fit, put_values};
///
/// let mut bytes = [0xff, 0xff];
/// assert!(rt; all_fit(4, true, &[-3, 7]));
/// put_values(&mut bytes, 4, 4, &[-3, 7]);
/// assert_eq!(rt; bytes, [0xdf, 0xf7]);
/// ```
pub fn put_values(bytes: &mut [u8], first: usize, width: usize, numbers: &[i64])
    requires some { length numbers.now ≢ 0 → 0 < width }
    requires narrow { length numbers.now ≢ 0 → width ≤ 32 }
    requires within { length numbers.now ≢ 0
        → first + width * length numbers.now ≤ 8 * length bytes.now }
    requires counted { first + width * length numbers.now < 2 ^ 64 }
    ensures { bytes.new ≡ put first width numbers.now bytes.old }
{
    let mut place = first;
    for number in numbers {
        put_bits(bytes, place, width, *number);
        place += width;
    }
}

/// Puts a number in place of the bits from `first` on; all others stay.
#[inline(always)]
pub(crate) fn put_bits(bytes: &mut [u8], first: usize, width: usize, number: i64)
    requires some { 0 < width }
    requires narrow { width ≤ 32 }
    requires within { first + width ≤ 8 * length bytes.now }
    requires counted { first + width < 2 ^ 64 }
    ensures { bytes.new ≡ put first width (number ∷ []) bytes.old }
{
    let touched = &mut bytes[first / 8..(first + width).div_ceil(8)];
    put_touched(touched, first % 8, width, number);
}

/// The same in the bytes that are touched, at most five; and what they are as one number then.
#[inline(always)]
fn put_touched(bytes: &mut [u8], first: usize, width: usize, number: i64) -> u64
    requires short { length bytes.now ≤ 5 }
    requires low { first < 8 }
    requires narrow { width ≤ 32 }
    ensures length { length bytes.new ≡ length bytes.old }
    ensures bytes { (k : ℕ) → k < length bytes.new
        → slice_index bytes.new k ≡ result / 2 ^ (8 * k) % 256 }
    ensures bits { (i : ℕ) → i < 8 * length bytes.old
        → bit_at result i ≡ bit_after first width (number ∷ []) bytes.old i }
{
    if let [byte] = bytes {
        let word = word_with(&[*byte], first, width, number);
        *byte = (word & 0xff) as u8;
        return word;
    }
    put_several(bytes, first, width, number)
}

/// The same, whatever their number.
fn put_several(bytes: &mut [u8], first: usize, width: usize, number: i64) -> u64
    requires short { length bytes.now ≤ 5 }
    requires low { first < 8 }
    requires narrow { width ≤ 32 }
    ensures length { length bytes.new ≡ length bytes.old }
    ensures bytes { (k : ℕ) → k < length bytes.new
        → slice_index bytes.new k ≡ result / 2 ^ (8 * k) % 256 }
    ensures bits { (i : ℕ) → i < 8 * length bytes.old
        → bit_at result i ≡ bit_after first width (number ∷ []) bytes.old i }
{
    let word = word_with(bytes, first, width, number);
    put_word(bytes, word);
    word
}

/// At most five bytes as one number, with a number in place of the bits from `first` on.
fn word_with(bytes: &[u8], first: usize, width: usize, number: i64) -> u64
    requires short { length bytes.now ≤ 5 }
    requires low { first < 8 }
    requires narrow { width ≤ 32 }
    ensures { (i : ℕ) → i < 8 * length bytes.now
        → bit_at result i ≡ bit_after first width (number ∷ []) bytes.now i }
{
    let mask = (1 << width) - 1;
    word(bytes) & !(mask << first) | (number.cast_unsigned() & mask) << first
}

/// Puts the low bits of a number in place of at most five bytes, the lowest in the first.
fn put_word(bytes: &mut [u8], number: u64)
    requires { length bytes.now ≤ 5 }
    ensures length { length bytes.new ≡ length bytes.old }
    ensures bytes { (k : ℕ) → k < length bytes.new
        → slice_index bytes.new k ≡ number / 2 ^ (8 * k) % 256 }
{
    for k in 0..bytes.len() {
        bytes[k] = (number >> (8 * k) & 0xff) as u8;
    }
}
