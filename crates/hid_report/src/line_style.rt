//! How the lines of a report's fields are written.
use hid_words::{DEEPEST, indent_within};

/// How many columns a line has at least behind its spaces: for a field's bits and the first word of
/// its name.
const LEAST: usize = 26;

/// Whether lines have colours, and how far they are indented.
#[derive(Clone, Copy)]
pub struct LineStyle {
    /// Whether collections and padding are in colour.
    pub is_coloured: bool,
    /// How many collections deep a line is indented; behind that its depth is a number.
    pub deepest: usize,
}

impl LineStyle {
    /// That of lines which may have so many columns, where these are bounded.
    pub fn of(is_coloured: bool, width: Option<usize>) -> LineStyle {
        let deepest = match width {
            Some(width) => (width.saturating_sub(LEAST) / 2).min(DEEPEST),
            None => DEEPEST,
        };
        LineStyle {
            is_coloured,
            deepest,
        }
    }

    /// The spaces before what lies inside so many collections.
    pub fn indent_in(self, depth: usize) -> usize {
        indent_within(depth.saturating_add(1), self.deepest)
    }
}
