//! Texts of an input in a page of HTML, where none of their letters may mean something.
use crate::is_plain;
use std::alloc::AllocError;
use std::fmt::Write;

/// Appends a text as HTML shows it.
pub fn add_html(text: &mut String, shown: &str) -> Result<(), AllocError> {
    for letter in shown.chars() {
        match letter {
            '<' => text.push_str("&lt;")?,
            '>' => text.push_str("&gt;")?,
            '&' => text.push_str("&amp;")?,
            '"' => text.push_str("&quot;")?,
            '\'' => text.push_str("&#39;")?,
            _ => text.push(letter)?,
        }
    }
    Ok(())
}

/// Appends a line of JSON so that it can stand in an element of HTML: letters that mean something
/// there, and those that a terminal isn't given, are escaped. JSON has them in its texts alone.
pub fn add_json_in_html(text: &mut String, line: &str) -> Result<(), AllocError> {
    for letter in line.chars() {
        if is_plain(letter) && !matches!(letter, '<' | '>' | '&') {
            text.push(letter)?;
        } else {
            let number = u32::from(letter);
            write!(text, "\\u{number:04x}")?;
        }
    }
    Ok(())
}
