//! The values of a report in lines, by name.
use hid_report::{
    Amount, Choice, add_choice, add_choices, amount_of, choice_of, element_width, is_outside,
    readable,
};
use hid_words::{add_array_name, add_measured, add_usage, add_usage_on_page, measured_value};
use hidreport::{ArrayField, Field, RDescReport, Report, VariableField};
use std::alloc::AllocError;
use std::fmt::Write;

/// Appends a line for each field of a report that has a value; bytes that are missing have none.
pub fn add_values(text: &mut String, report: &RDescReport, bytes: &[u8]) -> Result<(), AllocError> {
    for field in report.fields() {
        if bytes.len() <= field.bits().start / 8 {
            return Ok(());
        }
        match field {
            Field::Variable(field) => add_variable(text, field, bytes)?,
            Field::Array(field) => add_array(text, field, bytes)?,
            Field::Constant(_) => {}
        }
    }
    Ok(())
}

fn add_variable(text: &mut String, field: &VariableField, bytes: &[u8]) -> Result<(), AllocError> {
    let amount = amount_of(field, bytes);
    if amount == Amount::Missing {
        return Ok(());
    }
    text.push_str("  ")?;
    add_usage(text, field.usage)?;
    match amount {
        Amount::Number(value) => add_number(text, field, value)?,
        _ => {
            let width = field.bits.len();
            write!(text, ": {width} bits, too many for a number")?;
        }
    }
    text.push_str("\n")
}

/// Appends a value with its bounds, and what it stands for in its unit where it lies within them.
fn add_number(text: &mut String, field: &VariableField, value: i64) -> Result<(), AllocError> {
    let (low, high) = (field.logical_minimum, field.logical_maximum);
    if is_outside(field, value) {
        return write!(text, ": {value} (outside of {low} to {high})");
    }
    write!(text, ": {value} ({low} to {high})")?;
    match measured_value(field, value) {
        Some(fraction) => {
            text.push_str(" = ")?;
            add_measured(text, fraction, field.unit)
        }
        None => Ok(()),
    }
}

/// Appends the usages that an array's values stand for, and values that stand for none, in one line.
fn add_array(text: &mut String, field: &ArrayField, bytes: &[u8]) -> Result<(), AllocError> {
    text.push_str("  ")?;
    add_array_name(text, field)?;
    let width = element_width(field);
    if 32 < width {
        return writeln!(text, ": elements of {width} bits, too many for a number");
    }
    text.push_str(":")?;
    let is_any = add_choices(text, field, bytes, " ", true)?;
    text.push_str(if is_any { "\n" } else { " none\n" })
}

/// Appends a line with the name of each button and key that is down in a report.
pub fn add_down(text: &mut String, report: &RDescReport, bytes: &[u8]) -> Result<(), AllocError> {
    for field in report.fields() {
        if bytes.len() <= field.bits().start / 8 {
            return Ok(());
        }
        match field {
            Field::Variable(field) => {
                if is_down(field, bytes) {
                    add_usage_on_page(text, field.usage)?;
                    text.push_str("\n")?;
                }
            }
            Field::Array(field) => add_keys(text, field, bytes)?,
            Field::Constant(_) => {}
        }
    }
    Ok(())
}

/// Appends a line with the name of each key of an array that is down.
fn add_keys(text: &mut String, field: &ArrayField, bytes: &[u8]) -> Result<(), AllocError> {
    for index in 0..readable(field, bytes) {
        if !means_none(field, bytes, index) && add_choice(text, field, bytes, index, "", true)? {
            text.push_str("\n")?;
        }
    }
    Ok(())
}

/// Whether an element's value is outside of the bounds.
fn means_none(field: &ArrayField, bytes: &[u8], index: usize) -> bool {
    matches!(
        choice_of(field, bytes, index),
        Some((_value, Choice::Outside))
    )
}

/// Whether a field that is on or off is on.
fn is_down(field: &VariableField, bytes: &[u8]) -> bool {
    let is_switch = field.bits.len() == 1;
    match amount_of(field, bytes) {
        Amount::Number(value) => is_switch && value != 0,
        _ => false,
    }
}
