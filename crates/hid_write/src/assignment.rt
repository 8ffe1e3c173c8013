//! What a word of `hid set` says: a name and a number.
use hid_words::plain_number;

/// A name with a number, as `X#2=5`.
#[derive(Clone, Copy)]
pub struct Assignment<'a> {
    /// The name.
    pub name: &'a str,
    /// How many fields of this name stand before the one that is meant.
    pub before: usize,
    /// The number.
    pub number: i64,
}

/// What a word says: a name, a number, and which of several fields is meant.
pub fn assignment_of(word: &str) -> Option<Assignment<'_>> {
    let (name, number) = word.rsplit_once("=")?;
    let number = number_of(number)?;
    let (name, before) = placed_name(name).unwrap_or((name, 0));
    Some(Assignment {
        name,
        before,
        number,
    })
}

/// A name before `#`, and how many fields of this name stand before the one with the number behind.
fn placed_name(name: &str) -> Option<(&str, usize)> {
    let (own, place) = name.rsplit_once("#")?;
    let place = place.parse::<usize>().ok()?;
    Some((own, place.checked_sub(1)?))
}

/// A number in decimal digits, or in hexadecimal ones behind `0x`, with a sign or without; one of
/// more than 32 bits in decimal digits alone.
fn number_of(word: &str) -> Option<i64> {
    if let Some(digits) = word.strip_prefix("-0x") {
        return Some(-i64::from(u32::from_str_radix(digits, 16).ok()?));
    }
    match plain_number(word) {
        Some(number) => Some(i64::from(number)),
        None if is_octal(word.strip_prefix("-").unwrap_or(word)) => None,
        None => word.parse::<i64>().ok(),
    }
}

/// Whether several digits stand behind a 0: they may be octal.
fn is_octal(digits: &str) -> bool {
    digits.starts_with('0') && digits.trim_start_matches('0').len() > 1
}
