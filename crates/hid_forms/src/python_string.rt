//! Strings of Python: the digits of `bytes.fromhex("05 01")`, and literals as `b"\x05\x01\t%"`.
use crate::hex_text::is_digits;
use hex::FromHexError;
use std::alloc::AllocError;

/// Appends the bytes that pairs of digits write, with spaces between some, and answers whether the
/// text is no more than these.
pub fn add_digit_pairs(bytes: &mut Vec<u8>, text: &str) -> Result<bool, AllocError> {
    for word in text.split_whitespace() {
        match hex::decode(*bytes.allocator(), word) {
            Ok(more) => bytes.extend_from_slice(&more)?,
            Err(FromHexError::OutOfMemory) => return Err(AllocError),
            Err(_wrong) => return Ok(false),
        }
    }
    Ok(true)
}

/// Appends the bytes of a literal, as Python writes it, and answers whether it is one.
pub fn add_literal(bytes: &mut Vec<u8>, text: &str) -> Result<bool, AllocError> {
    let mut is_plain = true;
    for piece in text.split("\\") {
        let is_taken = if is_plain {
            is_plain = false;
            add_plain(bytes, piece)?
        } else if piece.is_empty() {
            is_plain = true;
            add_plain(bytes, "\\")?
        } else {
            add_escape(bytes, piece)?
        };
        if !is_taken {
            return Ok(false);
        }
    }
    Ok(!is_plain)
}

/// Appends letters as they are; only those of ASCII are bytes.
fn add_plain(bytes: &mut Vec<u8>, text: &str) -> Result<bool, AllocError> {
    if !text.bytes().all(|byte| matches!(byte, b' '..=b'~')) {
        return Ok(false);
    }
    bytes.extend_from_slice(text.as_bytes())?;
    Ok(true)
}

/// Appends the byte of an escape, and what stands behind it.
fn add_escape(bytes: &mut Vec<u8>, piece: &str) -> Result<bool, AllocError> {
    let (byte, rest) = match escape_of(piece) {
        Some((byte, rest)) => (byte, rest),
        None => return Ok(false),
    };
    bytes.push(byte)?;
    add_plain(bytes, rest)
}

/// The byte that an escape writes, without its backslash, and what stands behind it.
fn escape_of(piece: &str) -> Option<(u8, &str)> {
    if let Some(rest) = piece.strip_prefix("x") {
        let (digits, rest) = rest.split_at_checked(2)?;
        if !is_digits(digits) {
            return None;
        }
        return Some((u8::from_str_radix(digits, 16).ok()?, rest));
    }
    let (letter, rest) = piece.split_at_checked(1)?;
    let byte = match letter {
        "t" => b'\t',
        "n" => b'\n',
        "r" => b'\r',
        "'" => b'\'',
        "\"" => b'"',
        _ => return None,
    };
    Some((byte, rest))
}
