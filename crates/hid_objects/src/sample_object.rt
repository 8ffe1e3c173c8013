//! A report as JSON in short: the values of each field, and what they stand for.
use anyhow::Result;
use hid_output::{add_json, digits_of};
use hid_report::{Amount, add_choices, amount_of, choice_of, is_outside, readable};
use hid_words::{add_measured, measured_value};
use hidreport::{ArrayField, Field, RDescReport, Report, VariableField};
use serde::Serialize;
use std::alloc::{AllocError, Global};
use std::fmt::Write;

/// A report: of each field, as far as it has bytes, the values, none of padding and of more bits
/// than a number has, and words for them where a number alone doesn't say it.
#[derive(Drop, Serialize)]
struct SampleObject<'a> {
    report: usize,
    #[serde(skip_serializing_if = "Option::is_none")]
    time: Option<&'a str>,
    bytes: String,
    values: Vec<Vec<i64>>,
    words: Vec<String>,
}

/// Appends a report as a line of JSON, by the place of its kind among a descriptor's reports, with
/// at most so many fields. Answers how many values it has.
pub fn add_sample_object(
    text: &mut String,
    place: usize,
    report: &RDescReport,
    bytes: &[u8],
    time: Option<&str>,
    most: usize,
) -> Result<usize> {
    let alloc = *text.allocator();
    let (mut values, mut words) = (Vec::new(alloc), Vec::new(alloc));
    let mut count = 0usize;
    for field in report.fields().iter().take(most) {
        if bytes.len() <= field.bits().start / 8 {
            break;
        }
        let own = values_of(alloc, field, bytes)?;
        count = count.saturating_add(own.len());
        values.push(own)?;
        words.push(words_of(alloc, field, bytes)?)?;
    }
    let object = SampleObject {
        report: place,
        time,
        bytes: digits_of(alloc, bytes)?,
        values,
        words,
    };
    add_json(text, &object)?;
    Ok(count)
}

/// The values of a field.
fn values_of(alloc: Global, field: &Field, bytes: &[u8]) -> Result<Vec<i64>, AllocError> {
    match field {
        Field::Variable(field) => value_of(alloc, field, bytes),
        Field::Array(field) => elements_of(alloc, field, bytes),
        Field::Constant(_) => Ok(Vec::new(alloc)),
    }
}

fn value_of(alloc: Global, field: &VariableField, bytes: &[u8]) -> Result<Vec<i64>, AllocError> {
    let mut values = Vec::new(alloc);
    if let Amount::Number(value) = amount_of(field, bytes) {
        values.push(value)?;
    }
    Ok(values)
}

fn elements_of(alloc: Global, field: &ArrayField, bytes: &[u8]) -> Result<Vec<i64>, AllocError> {
    let mut values = Vec::new(alloc);
    for element in 0..readable(field, bytes) {
        if let Some((value, _choice)) = choice_of(field, bytes, element) {
            values.push(value)?;
        }
    }
    Ok(values)
}

/// What the values of a field say; nothing where it is the number alone.
fn words_of(alloc: Global, field: &Field, bytes: &[u8]) -> Result<String, AllocError> {
    let mut words = String::new(alloc);
    match field {
        Field::Variable(field) => add_variable(&mut words, field, bytes)?,
        Field::Array(field) => {
            if !add_choices(&mut words, field, bytes, "", true)? {
                words.push_str("none")?;
            }
        }
        Field::Constant(_) => {}
    }
    Ok(words)
}

fn add_variable(words: &mut String, field: &VariableField, bytes: &[u8]) -> Result<(), AllocError> {
    match amount_of(field, bytes) {
        Amount::Number(value) => add_number(words, field, value),
        Amount::TooWide => words.push_str("too many bits for a number"),
        Amount::Missing => words.push_str("missing"),
    }
}

/// Appends a number with what it stands for in its unit, or with the bounds that it lies outside of.
fn add_number(words: &mut String, field: &VariableField, value: i64) -> Result<(), AllocError> {
    if is_outside(field, value) {
        let (low, high) = (field.logical_minimum, field.logical_maximum);
        return write!(words, "{value}, outside of {low} to {high}");
    }
    match measured_value(field, value) {
        Some(fraction) => {
            write!(words, "{value} = ")?;
            add_measured(words, fraction, field.unit)
        }
        None => Ok(()),
    }
}
