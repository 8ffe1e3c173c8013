//! Numbers and keys that are put into the bits of a field.
use anyhow::{Result, bail, ensure};
use hid_report::{Choice, choice_of, element_width, is_outside};
use hid_words::plural;
use hidreport::bits::fits;
use hidreport::{ArrayField, Field, FieldAttributes, Usage, VariableField};

/// The most bits of a number.
const WIDEST: usize = 32;

/// What is put into a field: its usage's number.
#[derive(Clone, Copy)]
pub struct Wish {
    /// The usage.
    pub usage: Usage,
    /// The number.
    pub number: i64,
}

/// Puts into a field what stands for no value, where 0 stands for one.
pub fn put_nothing(field: &Field, bytes: &mut [u8]) {
    match field {
        Field::Variable(field) => {
            if let Some(value) = null_of(field) {
                // A field that can't be written stays 0.
                let _ = field.insert(bytes, value);
            }
        }
        Field::Array(field) => put_no_keys(field, bytes),
        Field::Constant(_) => {}
    }
}

/// Puts what stands for no usage into each element of an array, where 0 stands for one.
fn put_no_keys(field: &ArrayField, bytes: &mut [u8]) {
    let (Some(nothing), Some((_zero, Choice::Usage(_)))) = (
        field.null_value(),
        choice_of(field, bytes, 0),
    ) else {
        return;
    };
    for index in 0..usize::from(field.report_count) {
        // Elements that can't be written stay 0.
        let _ = field.insert_one(bytes, index, nothing);
    }
}

/// The null value of a field that has one: a number outside of its bounds that its bits hold, 0 if
/// that is one, else the one below or above them (Section 6.2.2.5).
fn null_of(field: &VariableField) -> Option<i64> {
    if !field.has_null_state() {
        return None;
    }
    let low = i64::from(i32::from(field.logical_minimum));
    let high = i64::from(i32::from(field.logical_maximum));
    let width = field.bits.len();
    for number in [0, low - 1, high + 1] {
        if is_outside(field, number) && holds(width, field.is_signed(), number) {
            return Some(number);
        }
    }
    None
}

/// Whether so many bits, if they are read as a number, hold this one.
fn holds(width: usize, is_signed: bool, number: i64) -> bool {
    0 < width && width <= 32 && fits(width, is_signed, number)
}

/// Puts a number into a field, or a key into the next element of an array: by 1 it is pressed, by 0
/// it isn't.
pub fn put_number(field: &Field, bytes: &mut [u8], used: &mut usize, wish: Wish) -> Result<()> {
    match field {
        Field::Variable(field) => put_value(field, bytes, used, wish.number),
        Field::Array(field) => put_key(field, bytes, used, wish),
        Field::Constant(_) => Ok(()),
    }
}

/// Puts a number into a field with one value that no name has set yet.
fn put_value(field: &VariableField, bytes: &mut [u8], used: &mut usize, number: i64) -> Result<()> {
    let width = field.bits.len();
    ensure!(
        width <= WIDEST,
        "it has {width} bits, too many for a number"
    );
    ensure!(*used == 0, "it is set twice");
    field.insert(bytes, number)?;
    *used = 1;
    Ok(())
}

/// Puts a key into the next element of an array, if it isn't in one yet.
fn put_key(field: &ArrayField, bytes: &mut [u8], used: &mut usize, wish: Wish) -> Result<()> {
    let (width, count) = (element_width(field), usize::from(field.report_count));
    ensure!(
        width <= WIDEST,
        "its elements have {width} bits, too many for a number"
    );
    let Some(value) = field.value_of(wish.usage) else {
        bail!("no value stands for it");
    };
    let is_pressed = has_value(field, bytes, *used, value);
    match wish.number {
        0 if is_pressed => bail!("another word presses it"),
        1 if !is_pressed => {
            let s = plural(count);
            ensure!(
                *used < count,
                "{count} element{s} of the array, and all have a key"
            );
            field.insert_one(bytes, *used, value)?;
            *used = used.saturating_add(1);
            Ok(())
        }
        0 | 1 => Ok(()),
        _ => bail!("a usage of an array is 1, pressed, or 0"),
    }
}

/// Whether one of the first elements of an array has a value.
fn has_value(field: &ArrayField, bytes: &[u8], used: usize, value: i64) -> bool {
    for index in 0..used {
        if let Ok(own) = field.extract_one(bytes, index)
            && i64::from(own) == value
        {
            return true;
        }
    }
    false
}
