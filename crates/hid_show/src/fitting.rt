//! Lines in the columns that there are: the name of a field is shortened, and what is longer all the
//! same goes on below.
use hid_words::{add_spaces, shortened};
use std::alloc::{AllocError, Global};
use std::fmt::Write;
use unicode_width::UnicodeWidthStr;

/// How many columns a name has at least.
const LEAST: usize = 12;

/// How far a list of usages is indented at least that goes on.
const LISTED: usize = 13;

/// How far behind its indentation a line goes on that has no bits.
const DEEPER: usize = 2;

/// What begins a colour, and what ends it.
const ESCAPE: char = '\x1b';

const ESCAPED: char = 'm';

/// Appends lines, each with its end, in no more columns than these.
pub fn add_fitted(text: &mut String, lines: &str, width: Option<usize>) -> Result<(), AllocError> {
    let Some(width) = width else {
        return text.push_str(lines);
    };
    let alloc = *text.allocator();
    for line in lines.lines() {
        let plain = without_colour(alloc, line)?;
        if plain.as_str().width() <= width {
            text.push_str(line)?;
        } else {
            let colour = colour_of(line);
            add_long(text, plain.as_str(), colour, width)?;
        }
        text.push_str("\n")?;
    }
    Ok(())
}

/// A line without what begins and ends a colour.
fn without_colour(alloc: Global, line: &str) -> Result<String, AllocError> {
    let mut plain = String::new(alloc);
    let mut is_inside = false;
    for letter in line.chars() {
        if letter == ESCAPE {
            is_inside = true;
        } else if !is_inside {
            plain.push(letter)?;
        } else {
            is_inside = letter != ESCAPED;
        }
    }
    Ok(plain)
}

/// What begins the colour of a line, and what ends it; nothing where it has none.
fn colour_of(line: &str) -> (&str, &str) {
    let Some((_indent, coloured)) = line.split_once(ESCAPE) else {
        return ("", "");
    };
    let begins = line.len().saturating_sub(coloured.len()).saturating_sub(1);
    let Some((_begin, rest)) = coloured.split_once(ESCAPED) else {
        return ("", "");
    };
    let inside = line.len().saturating_sub(rest.len());
    let ends = line.rfind(ESCAPE).unwrap_or(inside);
    (
        line.get(begins..inside).unwrap_or(""),
        line.get(ends..).unwrap_or(""),
    )
}

/// Appends a line that is too long, without its end.
fn add_long(
    text: &mut String,
    line: &str,
    colour: (&str, &str),
    width: usize,
) -> Result<(), AllocError> {
    let alloc = *text.allocator();
    let indent = line.len().saturating_sub(line.trim_start().len());
    let name = name_of(line);
    let start = match name {
        Some(name) => line.len().saturating_sub(name.len()),
        None => indent,
    };
    let front = line.get(..start).unwrap_or("");
    let behind = line.get(start..).unwrap_or("");
    let shown = match name {
        Some(name) => with_short_name(alloc, name, width.saturating_sub(front.width()))?,
        None => String::from_str(alloc, behind)?,
    };
    let goes_on = name.is_some() || LISTED <= indent;
    let far = if goes_on {
        start
    } else {
        indent.saturating_add(DEEPER)
    };
    text.push_str(front)?;
    text.push_str(colour.0)?;
    add_words(text, shown.as_str(), start, far.min(width / 2), width)?;
    text.push_str(colour.1)
}

/// Appends words; those that don't fit go on in lines that begin with so many spaces.
fn add_words(
    text: &mut String,
    words: &str,
    start: usize,
    far: usize,
    width: usize,
) -> Result<(), AllocError> {
    let mut column = start;
    let mut gap = 0usize;
    for word in words.split(" ") {
        let end = column.saturating_add(gap).saturating_add(word.width());
        if width < end && gap != 0 {
            text.push_str("\n")?;
            add_spaces(text, far)?;
            column = far.saturating_add(word.width());
        } else {
            add_spaces(text, gap)?;
            column = end;
        }
        text.push_str(word)?;
        gap = 1;
    }
    Ok(())
}

/// What stands behind the bits that a line begins with, which alone are written with two points;
/// none where it begins otherwise.
fn name_of(line: &str) -> Option<&str> {
    let (_start, behind) = line.split_once("..")?;
    let name = behind.trim_start_matches(|letter: char| letter.is_ascii_digit());
    Some(name.trim_start())
}

/// A field's name and what stands behind it, in so many columns if the name has enough of them; the
/// usages of a list stay, and so does what says that fields stand again.
fn with_short_name(alloc: Global, text: &str, room: usize) -> Result<String, AllocError> {
    let end = end_of_name(text);
    let (Some(name), Some(rest)) = (text.get(..end), text.get(end..)) else {
        return String::from_str(alloc, text);
    };
    if text.ends_with(" further") || name.contains(", ") {
        return String::from_str(alloc, text);
    }
    let room = room.saturating_sub(rest.width()).max(LEAST);
    let mut shown = short_name(alloc, name, room)?;
    shown.push_str(rest)?;
    Ok(shown)
}

/// Where a field's name ends: before a comma and how many bits it has.
fn end_of_name(text: &str) -> usize {
    for (place, _letter) in text.char_indices() {
        if text.get(place..).is_some_and(is_width) {
            return place;
        }
    }
    text.len()
}

/// Whether a text is a comma and how many bits a field has.
fn is_width(text: &str) -> bool {
    let Some(text) = text.strip_prefix(", ") else {
        return false;
    };
    let behind = text.trim_start_matches(|letter: char| letter.is_ascii_digit());
    behind.starts_with(" bit") || behind.starts_with(" ×") || behind.starts_with(" of ")
}

/// A name in so many columns: first its page is shortened, then its usage.
fn short_name(alloc: Global, name: &str, room: usize) -> Result<String, AllocError> {
    let Some((page, usage)) = name.split_once(" / ") else {
        return shortened(alloc, name, room);
    };
    let left = room.saturating_sub(usage.width().saturating_add(3)).max(1);
    let mut shown = shortened(alloc, page, left)?;
    let left = room.saturating_sub(shown.as_str().width().saturating_add(3));
    let usage = shortened(alloc, usage, left)?;
    write!(shown, " / {usage}")?;
    Ok(shown)
}
