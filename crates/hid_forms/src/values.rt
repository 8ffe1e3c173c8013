//! The numbers of arguments: numbers and names with `|` between them.
use crate::names::Names;
use crate::number_list::number_of;
use anyhow::{Result, bail, ensure};
use hid_macros::number_named;

/// The number of an argument, in which parentheses change nothing.
///
/// # Errors
///
/// - a part of it is no number, and no name that stands for one.
pub fn value_of(names: &Names, argument: &str) -> Result<i64> {
    let mut value = 0i64;
    let is_closed = are_closed(argument);
    for part in argument.split("|") {
        let part = if is_closed { unwrapped(part) } else { part };
        let part = part.trim();
        ensure!(!part.is_empty(), "an argument says nothing");
        value |= part_of(names, part)?;
    }
    Ok(value)
}

/// The number of a part: a name that the source gives one is its own, whatever a header says.
fn part_of(names: &Names, part: &str) -> Result<i64> {
    if let Some(number) = names.number(part) {
        return Ok(number);
    }
    ensure!(
        names.meaning(part).is_none(),
        "{part} stands for no number that is known"
    );
    if let Some(number) = number_named(part) {
        return Ok(i64::from(number));
    }
    match number_of(without_suffix(part))? {
        Some(number) => Ok(number),
        None => bail!("{part} is no number, and no name that is known"),
    }
}

/// Whether each parenthesis of a text is closed behind it.
fn are_closed(text: &str) -> bool {
    let mut depth = 0usize;
    for letter in text.chars() {
        if letter == '(' {
            depth = depth.saturating_add(1);
        } else if letter == ')' {
            if depth == 0 {
                return false;
            }
            depth = depth.saturating_sub(1);
        }
    }
    depth == 0
}

/// What stands in parentheses that begin or end around it.
fn unwrapped(part: &str) -> &str {
    part.trim_start_matches(|letter: char| letter == '(' || letter.is_whitespace())
        .trim_end_matches(|letter: char| letter == ')' || letter.is_whitespace())
}

/// A number without the letters that say its type in C.
fn without_suffix(number: &str) -> &str {
    number.trim_end_matches(|letter: char| matches!(letter, 'u' | 'U' | 'l' | 'L'))
}
