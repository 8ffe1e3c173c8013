//! Remarks in a source.
use crate::language::Language;
use hid_words::add_spaces;
use std::alloc::AllocError;

/// The columns of a line.
const COLUMNS: usize = 100;

/// Appends words as a remark on what follows, behind so many spaces. The words are of tables and
/// numbers, which end no remark.
pub fn add_remark(
    text: &mut String,
    language: Language,
    indent: usize,
    words: &str,
) -> Result<(), AllocError> {
    add_lines(text, language.remark_marks(), indent, words)
}

/// Appends words as a remark that stands alone.
pub fn add_note(text: &mut String, language: Language, words: &str) -> Result<(), AllocError> {
    add_lines(text, language.note_marks(), 0, words)
}

/// Appends words between marks, in lines of a hundred columns.
fn add_lines(
    text: &mut String,
    marks: (&str, &str, &str),
    indent: usize,
    words: &str,
) -> Result<(), AllocError> {
    let (first, next, end) = marks;
    add_spaces(text, indent)?;
    text.push_str(first)?;
    let mut start = text.len();
    let most = COLUMNS.saturating_sub(indent.saturating_add(first.len()).saturating_add(end.len()));
    for word in words.split_whitespace() {
        let taken = text.len().saturating_sub(start);
        if most < taken.saturating_add(word.len()).saturating_add(1) {
            text.push_str("\n")?;
            add_spaces(text, indent)?;
            text.push_str(next)?;
            start = text.len();
        } else if taken != 0 {
            text.push_str(" ")?;
        }
        text.push_str(word)?;
    }
    text.push_str(end)?;
    text.push_str("\n")
}
