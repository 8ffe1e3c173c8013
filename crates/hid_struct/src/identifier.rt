//! Identifiers from the names of usages.
use std::alloc::AllocError;

/// What stands before a name that doesn't begin with a letter.
const FRONT: &str = "usage";

/// Appends a name as small letters, digits and underscores: `Contact Identifier` as
/// `contact_identifier`, `LeftShift` as `left_shift`, `0x0021` as `usage_0x0021`.
pub fn add_identifier(text: &mut String, name: &str) -> Result<(), AllocError> {
    let start = text.len();
    let (mut is_gap, mut was_small) = (false, false);
    for letter in name.chars() {
        if !letter.is_ascii_alphanumeric() {
            is_gap = true;
            continue;
        }
        if text.len() == start {
            if letter.is_ascii_digit() {
                text.push_str(FRONT)?;
                text.push('_')?;
            }
        } else if is_gap || was_small && letter.is_ascii_uppercase() {
            text.push('_')?;
        }
        text.push(letter.to_ascii_lowercase())?;
        is_gap = false;
        was_small = letter.is_ascii_lowercase();
    }
    if text.len() == start {
        return text.push_str(FRONT);
    }
    Ok(())
}

/// Appends an identifier in capitals.
pub fn add_capitals(text: &mut String, name: &str) -> Result<(), AllocError> {
    for letter in name.chars() {
        text.push(letter.to_ascii_uppercase())?;
    }
    Ok(())
}
