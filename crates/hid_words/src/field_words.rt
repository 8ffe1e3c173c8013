//! A field in words: its bits, its name, its bounds and its flags.
use crate::field_flags::{FLAG_WORDS, flags_of};
use crate::naming::{add_page, add_usage, add_usage_on_page};
use crate::physical::add_physical_bounds;
use crate::usage_list::add_usages;
use hidreport::{ArrayField, Field, FieldAttributes, VariableField};
use std::alloc::AllocError;
use std::fmt::Write;

/// Appends what a field is for: its usages, or that it is padding.
pub fn add_name(text: &mut String, field: &Field) -> Result<(), AllocError> {
    add_wrapped_name(text, field, None)
}

/// Appends what a field is called where there is little room: its usage without its page, an array's
/// page.
pub fn add_name_on_page(text: &mut String, field: &Field) -> Result<(), AllocError> {
    match field {
        Field::Variable(field) => add_usage_on_page(text, field.usage),
        Field::Array(field) => add_array_name(text, field),
        Field::Constant(_) => text.push_str("-"),
    }
}

/// Appends an array's page.
pub fn add_array_name(text: &mut String, field: &ArrayField) -> Result<(), AllocError> {
    match field.usages().first() {
        Some(usage) => add_page(text, usage.usage_page),
        None => text.push_str("array"),
    }
}

fn add_wrapped_name(
    text: &mut String,
    field: &Field,
    indent: Option<usize>,
) -> Result<(), AllocError> {
    match field {
        Field::Variable(field) => add_usage(text, field.usage),
        Field::Array(field) => add_usages(text, field, indent),
        Field::Constant(_) => text.push_str("padding"),
    }
}

/// Appends a field's bits, its name, and how it is read, behind so many columns; a long list goes
/// on in lines that begin where the name does.
pub fn add_field(text: &mut String, field: &Field, indent: usize) -> Result<(), AllocError> {
    let start = text.len();
    add_bits(text, field.bits().start, field.bits().end)?;
    let column = indent.saturating_add(text.len().saturating_sub(start));
    add_wrapped_name(text, field, Some(column))?;
    text.push_str(", ")?;
    add_how(text, field)
}

/// Appends fields side by side that are alike but for their bits: the bits of all, the name of each,
/// how many they are, and how each is read.
pub fn add_alike_fields(
    text: &mut String,
    first: &VariableField,
    end: usize,
    count: usize,
) -> Result<(), AllocError> {
    let width = first.bits.len();
    add_bits(text, first.bits.start, end)?;
    add_usage(text, first.usage)?;
    write!(text, ", {count} × {width} bit{}", plural(width))?;
    add_variable(text, first)
}

/// Appends the bits that a line of a field begins with.
pub fn add_bits(text: &mut String, start: usize, end: usize) -> Result<(), AllocError> {
    write!(text, "{start:>4}..{end:<4} ")
}

/// Appends how a field is read: its width, its bounds, its unit and its flags.
pub fn add_how(text: &mut String, field: &Field) -> Result<(), AllocError> {
    let width = field.bits().len();
    match field {
        Field::Variable(field) => {
            write!(text, "{width} bit{}", plural(width))?;
            add_variable(text, field)
        }
        Field::Array(field) => add_array(text, field, width),
        Field::Constant(_) => write!(text, "{width} bit{}", plural(width)),
    }
}

fn plural(count: usize) -> &'static str {
    if count == 1 { "" } else { "s" }
}

/// Appends a variable field's bounds, its unit and its flags.
fn add_variable(text: &mut String, field: &VariableField) -> Result<(), AllocError> {
    let (low, high) = (field.logical_minimum, field.logical_maximum);
    write!(text, ", {low} to {high}")?;
    add_physical_bounds(text, field)?;
    add_flags(text, field)
}

fn add_array(text: &mut String, field: &ArrayField, width: usize) -> Result<(), AllocError> {
    let count = field.report_count;
    let width = width / usize::from(count).max(1);
    let (low, high) = (field.logical_minimum, field.logical_maximum);
    write!(
        text,
        "{count} of {width} bit{}, {low} to {high}",
        plural(width)
    )?;
    add_flags(text, field)
}

/// Appends the flags that aren't as they are in most fields.
fn add_flags<F: FieldAttributes>(text: &mut String, field: &F) -> Result<(), AllocError> {
    let flags = flags_of(field);
    for (is_set, words) in flags.iter().zip(FLAG_WORDS.iter()) {
        if *is_set {
            let word = words.0;
            write!(text, ", {word}")?;
        }
    }
    Ok(())
}
