//! The usages of an array in words.
use crate::depth::add_spaces;
use crate::naming::{add_usage, add_usage_on_page};
use hidreport::{ArrayField, Usage};
use std::alloc::AllocError;
use std::fmt::Write;

/// The columns of a line.
const COLUMNS: usize = 100;

/// How many usages a list may have without its number before it.
const FEW: usize = 16;

/// Appends the usages of an array: a range by its ends, a list by its names. Where an indentation is
/// told, the list goes on in lines of a hundred columns that begin with so many spaces.
pub fn add_usages(
    text: &mut String,
    field: &ArrayField,
    indent: Option<usize>,
) -> Result<(), AllocError> {
    let usages = field.usages();
    if field.is_usage_range() {
        return add_range(text, usages);
    }
    if usages.len() > FEW {
        let count = usages.len();
        write!(text, "{count} usages: ")?;
    }
    add_list(text, usages, indent)
}

/// Appends the first and the last usage, and no page twice.
fn add_range(text: &mut String, usages: &[Usage]) -> Result<(), AllocError> {
    match usages {
        [] => Ok(()),
        [only] => add_usage(text, *only),
        [first, .., last] => {
            add_usage(text, *first)?;
            text.push_str(" to ")?;
            add_next(text, *last, Some(u16::from(first.usage_page)))
        }
    }
}

/// Appends a usage, with its page where the one before is on another.
fn add_next(text: &mut String, usage: Usage, before: Option<u16>) -> Result<(), AllocError> {
    let page = u16::from(usage.usage_page);
    if before == Some(page) {
        return add_usage_on_page(text, usage);
    }
    add_usage(text, usage)
}

/// Appends usages with commas between them.
fn add_list(text: &mut String, usages: &[Usage], indent: Option<usize>) -> Result<(), AllocError> {
    let mut before = None;
    let mut start = text.as_str().rfind("\n").map_or(0, |place| place);
    for usage in usages {
        if before.is_some() {
            text.push_str(",")?;
            match indent {
                Some(indent) if text.len().saturating_sub(start) > COLUMNS - 24 => {
                    text.push_str("\n")?;
                    start = text.len();
                    add_spaces(text, indent)?;
                }
                _ => text.push_str(" ")?,
            }
        }
        add_next(text, *usage, before)?;
        before = Some(u16::from(usage.usage_page));
    }
    Ok(())
}
