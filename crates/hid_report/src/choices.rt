//! What the elements of an array stand for, in words.
use crate::reading::{Choice, choice_of, readable};
use hid_words::add_usage_on_page;
use hidreport::ArrayField;
use std::alloc::AllocError;
use std::fmt::Write;

/// Appends what the elements of an array stand for, the first behind `front`, and answers whether
/// one isn't nothing; where words are wanted, with why a value has no usage.
pub fn add_choices(
    text: &mut String,
    field: &ArrayField,
    bytes: &[u8],
    front: &str,
    has_words: bool,
) -> Result<bool, AllocError> {
    let (mut gap, mut is_any) = (front, false);
    for index in 0..readable(field, bytes) {
        if add_choice(text, field, bytes, index, gap, has_words)? {
            gap = ", ";
            is_any = true;
        }
    }
    Ok(is_any)
}

/// Appends what an element stands for, behind `gap`, and answers whether it isn't nothing.
pub fn add_choice(
    text: &mut String,
    field: &ArrayField,
    bytes: &[u8],
    index: usize,
    gap: &str,
    has_words: bool,
) -> Result<bool, AllocError> {
    match choice_of(field, bytes, index) {
        Some((_value, Choice::Usage(usage))) => {
            text.push_str(gap)?;
            add_usage_on_page(text, usage)?;
            Ok(true)
        }
        Some((value, Choice::Unlisted)) => {
            let why = if has_words {
                ", which no usage has"
            } else {
                ""
            };
            write!(text, "{gap}value {value}{why}")?;
            Ok(true)
        }
        Some((value, Choice::Outside)) => {
            let why = if has_words {
                ", outside of the bounds"
            } else {
                " outside"
            };
            write!(text, "{gap}value {value}{why}")?;
            Ok(true)
        }
        _ => Ok(false),
    }
}
