//! How deep a line stands in collections, and the spaces before it.
use std::alloc::AllocError;
use std::fmt::Write;

/// How many collections deep a line is indented; behind that its depth is a number.
pub const DEEPEST: usize = 16;

/// The spaces before what is so deep.
pub fn indent_of(depth: usize) -> usize {
    indent_within(depth, DEEPEST)
}

/// The same, where a line is indented so many collections deep.
pub fn indent_within(depth: usize, deepest: usize) -> usize {
    depth.min(deepest).saturating_mul(2)
}

/// Appends the spaces before what is so deep, and its depth where it is no longer indented.
pub fn add_depth(text: &mut String, depth: usize) -> Result<(), AllocError> {
    add_depth_within(text, depth, DEEPEST)
}

/// The same, where a line is indented so many collections deep.
pub fn add_depth_within(text: &mut String, depth: usize, deepest: usize) -> Result<(), AllocError> {
    add_spaces(text, indent_within(depth, deepest))?;
    if deepest < depth {
        write!(text, "{depth}> ")?;
    }
    Ok(())
}

/// Appends spaces.
pub fn add_spaces(text: &mut String, count: usize) -> Result<(), AllocError> {
    for _ in 0..count {
        text.push_str(" ")?;
    }
    Ok(())
}
