//! The values of a report as JSON.
use anyhow::Result;
use hid_output::add_json;
use hid_report::{Amount, Choice, amount_of, choice_of, element_width, is_outside, readable};
use hid_words::{add_usage, measured_value, word_of};
use hidreport::{
    ArrayField, Direction, Field, Fraction, RDescReport, Report, Usage, VariableField,
};
use serde::Serialize;
use std::alloc::{AllocError, Global};

/// What a value stands for in its unit.
#[derive(Clone, Copy, Drop, Serialize)]
struct PhysicalObject {
    numerator: i64,
    denominator: i64,
    unit: Option<u32>,
}

/// A report's place in its input, and when it came.
#[derive(Clone, Copy)]
pub struct Sent<'a> {
    /// Its number, from 1.
    pub number: u64,
    /// The time that the input has.
    pub time: Option<&'a str>,
}

/// Where a field with values lies: its report, when that came, and its bits.
#[derive(Clone, Copy, Drop, Serialize)]
struct PlaceObject<'a> {
    direction: &'static str,
    report: Option<u8>,
    number: u64,
    #[serde(skip_serializing_if = "Option::is_none")]
    time: Option<&'a str>,
    start: usize,
    end: usize,
}

/// The value of a field with one.
#[derive(Drop, Serialize)]
struct ValueObject<'a> {
    #[serde(flatten)]
    place: PlaceObject<'a>,
    name: String,
    usage: u32,
    value: Option<i64>,
    is_outside: bool,
    physical: Option<PhysicalObject>,
}

/// A value of an array.
#[derive(Drop, Serialize)]
struct ElementObject {
    element: usize,
    start: usize,
    end: usize,
    value: i64,
    usage: Option<u32>,
    name: Option<String>,
}

/// The values of an array, as far as there are bytes of them.
#[derive(Drop, Serialize)]
struct ArrayObject<'a> {
    #[serde(flatten)]
    place: PlaceObject<'a>,
    count: usize,
    elements: Vec<ElementObject>,
}

/// Appends an object for each field that has a value in these bytes.
pub fn add_value_objects(
    text: &mut String,
    direction: Direction,
    report: &RDescReport,
    bytes: &[u8],
    sent: Sent,
) -> Result<()> {
    for field in report.fields() {
        let bits = field.bits();
        if bytes.len() <= bits.start / 8 {
            return Ok(());
        }
        let place = PlaceObject {
            direction: word_of(direction),
            report: report.report_id().map(u8::from),
            number: sent.number,
            time: sent.time,
            start: bits.start,
            end: bits.end,
        };
        match field {
            Field::Variable(field) => add_variable(text, place, field, bytes)?,
            Field::Array(field) => add_array(text, place, field, bytes)?,
            Field::Constant(_) => {}
        }
    }
    Ok(())
}

fn add_variable(
    text: &mut String,
    place: PlaceObject,
    field: &VariableField,
    bytes: &[u8],
) -> Result<()> {
    let value = match amount_of(field, bytes) {
        Amount::Number(value) => Some(value),
        Amount::TooWide => None,
        Amount::Missing => return Ok(()),
    };
    let object = ValueObject {
        place,
        name: name_of(*text.allocator(), field.usage)?,
        usage: u32::from(field.usage),
        value,
        is_outside: match value {
            Some(value) => is_outside(field, value),
            None => false,
        },
        physical: physical_of(field, value),
    };
    add_json(text, &object)
}

/// A usage's name.
fn name_of(alloc: Global, usage: Usage) -> Result<String, AllocError> {
    let mut name = String::new(alloc);
    add_usage(&mut name, usage)?;
    Ok(name)
}

/// What a value within its bounds stands for.
fn physical_of(field: &VariableField, value: Option<i64>) -> Option<PhysicalObject> {
    let value = value?;
    if is_outside(field, value) {
        return None;
    }
    let Fraction {
        numerator,
        denominator,
    } = measured_value(field, value)?;
    Some(PhysicalObject {
        numerator: i64::try_from(numerator).ok()?,
        denominator: i64::try_from(denominator).ok()?,
        unit: field.unit.map(u32::from),
    })
}

fn add_array(
    text: &mut String,
    place: PlaceObject,
    field: &ArrayField,
    bytes: &[u8],
) -> Result<()> {
    let object = ArrayObject {
        place,
        count: usize::from(field.report_count),
        elements: elements_of(*text.allocator(), field, bytes)?,
    };
    add_json(text, &object)
}

/// The elements of an array that these bytes have.
fn elements_of(
    alloc: Global,
    field: &ArrayField,
    bytes: &[u8],
) -> Result<Vec<ElementObject>, AllocError> {
    let mut elements = Vec::new(alloc);
    let width = element_width(field);
    let mut start = field.bits.start;
    for element in 0..readable(field, bytes) {
        let end = start.saturating_add(width);
        if let Some((value, choice)) = choice_of(field, bytes, element) {
            let usage = match choice {
                Choice::Usage(usage) => Some(u32::from(usage)),
                _ => None,
            };
            elements.push(element_of(alloc, element, start, end, value, usage)?)?;
        }
        start = end;
    }
    Ok(elements)
}

fn element_of(
    alloc: Global,
    element: usize,
    start: usize,
    end: usize,
    value: i64,
    usage: Option<u32>,
) -> Result<ElementObject, AllocError> {
    Ok(ElementObject {
        element,
        start,
        end,
        value,
        usage,
        name: optional_name(alloc, usage)?,
    })
}

/// The name of a usage that is there.
fn optional_name(alloc: Global, usage: Option<u32>) -> Result<Option<String>, AllocError> {
    match usage {
        Some(number) => Ok(Some(name_of(alloc, Usage::from(number))?)),
        None => Ok(None),
    }
}
