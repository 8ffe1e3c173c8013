//! Bytes as words of other shapes than two digits: `05h`, `$05`, `\x05\x01`, `05:01`, `05-01`.
use crate::hex_text::is_digits;
use std::alloc::AllocError;

/// What stands between the bytes of a word.
static GAPS: [&str; 2] = [":", "-"];

/// Whether a word is bytes in one of these shapes.
pub fn is_byte_word(word: &str) -> bool {
    lone_digits(word).is_some()
        || escaped_digits(unquoted(word)).is_some()
        || GAPS.iter().any(|gap| are_pairs(word, *gap))
}

/// Appends the bytes of such a word.
pub fn add_byte_word(bytes: &mut Vec<u8>, word: &str) -> Result<bool, AllocError> {
    if let Some(digits) = lone_digits(word) {
        return add_digits(bytes, digits);
    }
    if let Some(digits) = escaped_digits(unquoted(word)) {
        return add_parts(bytes, digits, "\\x");
    }
    for gap in &GAPS {
        if are_pairs(word, *gap) {
            return add_parts(bytes, word, *gap);
        }
    }
    Ok(false)
}

/// Whether a word is a byte with a mark before or behind it.
pub fn is_lone(word: &str) -> bool {
    lone_digits(word).is_some()
}

/// The digits of a byte with a mark before or behind them; a 0 before a letter doesn't count.
fn lone_digits(word: &str) -> Option<&str> {
    let digits = match word.strip_prefix("$") {
        Some(digits) => digits,
        None => without_suffix(word)?,
    };
    if is_digits(digits) && digits.len() <= 2 {
        Some(digits)
    } else {
        None
    }
}

/// What stands before `h`, without the 0 that keeps three digits from being a name.
fn without_suffix(word: &str) -> Option<&str> {
    let digits = match word.strip_suffix("h") {
        Some(digits) => digits,
        None => word.strip_suffix("H")?,
    };
    match digits.strip_prefix("0") {
        Some(less) if less.len() == 2 => Some(less),
        _ => Some(digits),
    }
}

/// What stands behind the first `\x` of a text that is escapes alone.
fn escaped_digits(text: &str) -> Option<&str> {
    let rest = text.strip_prefix("\\x")?;
    if are_pairs(rest, "\\x") {
        Some(rest)
    } else {
        None
    }
}

/// What stands between quotes, where a word has both.
fn unquoted(word: &str) -> &str {
    between(word, "\"")
        .or_else(|| between(word, "'"))
        .unwrap_or(word)
}

/// What stands between two of a mark.
fn between<'a>(word: &'a str, mark: &str) -> Option<&'a str> {
    word.strip_prefix(mark)?.strip_suffix(mark)
}

/// Whether all parts of a word are pairs of digits.
fn are_pairs(word: &str, gap: &str) -> bool {
    word.split(gap)
        .all(|part| is_digits(part) && part.len() == 2)
}

/// Appends the bytes of the parts of a word, which are pairs of digits.
fn add_parts(bytes: &mut Vec<u8>, word: &str, gap: &str) -> Result<bool, AllocError> {
    for part in word.split(gap) {
        let _is_byte = add_digits(bytes, part)?;
    }
    Ok(true)
}

/// Appends the byte that one or two digits write.
pub fn add_digits(bytes: &mut Vec<u8>, digits: &str) -> Result<bool, AllocError> {
    match u8::from_str_radix(digits, 16) {
        Ok(byte) => {
            bytes.push(byte)?;
            Ok(true)
        }
        Err(_wrong) => Ok(false),
    }
}
