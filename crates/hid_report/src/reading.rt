//! What a report's bytes say of a field.
use hidreport::{ArrayField, Usage, VariableField};

/// The most bits of a number.
pub const WIDEST: usize = 32;

/// What the bytes say of a field with one value.
#[derive(Clone, Copy, PartialEq)]
pub enum Amount {
    /// Its value.
    Number(i64),

    /// Its bits aren't all there.
    Missing,

    /// Its bits are there, and too many for a number.
    TooWide,
}

/// What the bytes say of a field with one value.
pub fn amount_of(field: &VariableField, bytes: &[u8]) -> Amount {
    if let Ok(value) = field.extract(bytes) {
        return Amount::Number(i64::from(value));
    }
    if field.bits.end.div_ceil(8) <= bytes.len() {
        return Amount::TooWide;
    }
    Amount::Missing
}

/// Whether a value is outside of the field's logical bounds, where some value is within them; bounds
/// that are both 0 are those of a descriptor that says none.
pub fn is_outside(field: &VariableField, value: i64) -> bool {
    let low = i64::from(i32::from(field.logical_minimum));
    let high = i64::from(i32::from(field.logical_maximum));
    is_past(low, high, value)
}

/// Whether a value isn't within bounds, where these are some.
fn is_past(low: i64, high: i64, value: i64) -> bool {
    let are_said = low < high || low == high && low != 0;
    are_said && (value < low || high < value)
}

/// What an element of an array stands for.
#[derive(Clone, Copy, PartialEq)]
pub enum Choice {
    /// A usage.
    Usage(Usage),

    /// No usage is meant: a usage 0 of a page that the standard has, or 0 outside of the bounds.
    Nothing,

    /// No usage has the value.
    Unlisted,

    /// No usage is meant, since the value, which isn't 0, is outside of the bounds.
    Outside,
}

/// The bits of an element.
pub fn element_width(field: &ArrayField) -> usize {
    let count = usize::from(field.report_count).max(1);
    field.bits.len() / count
}

/// How many elements of an array can be read of these bytes.
pub fn readable(field: &ArrayField, bytes: &[u8]) -> usize {
    let width = element_width(field);
    if width == 0 || WIDEST < width {
        return 0;
    }
    let bits = bytes
        .len()
        .saturating_mul(8)
        .saturating_sub(field.bits.start);
    (bits / width).min(usize::from(field.report_count))
}

/// The first page of a vendor's own, whose usages 0 may mean something.
const VENDOR_PAGE: u16 = 0xff00;

/// An element's value and what it stands for, where it can be read (Section 6.2.2.5).
pub fn choice_of(field: &ArrayField, bytes: &[u8], index: usize) -> Option<(i64, Choice)> {
    let value = field.extract_one(bytes, index).ok()?;
    let number = i64::from(value);
    let choice = match field.usage_of(value) {
        Some(usage) if is_nothing(usage) => Choice::Nothing,
        Some(usage) => Choice::Usage(usage),
        None if !is_past_array(field, number) => Choice::Unlisted,
        None if number == 0 => Choice::Nothing,
        None => Choice::Outside,
    };
    Some((number, choice))
}

/// Whether a usage says that nothing is meant.
fn is_nothing(usage: Usage) -> bool {
    u16::from(usage.usage_id) == 0 && u16::from(usage.usage_page) < VENDOR_PAGE
}

/// Whether an element's value is outside of the array's bounds.
fn is_past_array(field: &ArrayField, value: i64) -> bool {
    let low = i64::from(i32::from(field.logical_minimum));
    let high = i64::from(i32::from(field.logical_maximum));
    is_past(low, high, value)
}
