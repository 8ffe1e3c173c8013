//! What a declaration of an array says before its list, in C, Rust, Go, Java, C# and JavaScript.
use crate::hex_text::without_prefix;
use crate::names::name_and_rest;
use crate::unknown::shortened;
use anyhow::{Result, bail};
use hid_macros::ReportMacro;

/// What may stand before a list: in Rust a `&` or `vec!`, in Go its type, in Java and C# `new`.
static BEFORE_LIST: [&str; 7] = [
    "&",
    "vec!",
    "[]byte",
    "[]uint8",
    "[...]byte",
    "[...]uint8",
    "new byte[]",
];

/// What takes a list in parentheses, in JavaScript.
static CALLS: [&str; 3] = ["new Uint8Array(", "Uint8Array.from(", "Buffer.from("];

/// Types of C, Rust and Go that are wider than a byte.
static WIDER: [&str; 20] = [
    "short", "int", "long", "float", "double", "uint16_t", "uint32_t", "uint64_t", "int16_t",
    "int32_t", "__u16", "__u32", "u16", "u32", "u64", "i16", "i32", "uint16", "uint32", "usize",
];

/// Whether an array is declared whose list begins in the next line.
pub fn is_declaration(declared: &str, list: &str) -> bool {
    declared.trim().ends_with("]") && list.trim().is_empty()
}

/// Whether an array of C is declared whose bytes are strings.
pub fn is_string(declared: &str, list: &str) -> bool {
    declared.trim().ends_with("]") && list.trim().starts_with("\"")
}

/// What stands behind the brace or the bracket that begins a list.
pub fn begun_list(text: &str) -> Option<&str> {
    let mut text = behind_call(text.trim()).unwrap_or(text).trim();
    for word in BEFORE_LIST {
        text = text.strip_prefix(word).unwrap_or(text).trim();
    }
    match text.strip_prefix("{") {
        Some(list) => Some(list),
        None => text.strip_prefix("["),
    }
}

/// What stands behind a call of JavaScript that takes a list.
pub fn behind_call(text: &str) -> Option<&str> {
    for call in CALLS {
        if let Some(rest) = text.strip_prefix(call) {
            return Some(rest);
        }
    }
    None
}

/// Whether a list is a macro that has its braces.
pub fn is_braced(list: &str) -> bool {
    let (name, rest) = name_and_rest(list.trim());
    match ReportMacro::named(name) {
        Some(known) => known.has_braces && rest.trim().starts_with("("),
        None => false,
    }
}

/// Refuses an array whose elements are no bytes, by the words of its declaration, and a struct.
pub fn check_type(declared: &str) -> Result<()> {
    let name = name_in(declared);
    for word in declared.split(is_no_letter) {
        if WIDER.contains(&word) {
            bail!("an array of {word} has no bytes");
        }
        if matches!(word, "struct" | "union") && word != name && !has_one_array(declared) {
            bail!(
                "what stands in a {word} isn't its bytes: {}",
                shortened(declared)
            );
        }
    }
    Ok(())
}

/// Whether a letter is in no word.
fn is_no_letter(letter: char) -> bool {
    !letter.is_ascii_alphanumeric() && letter != '_'
}

/// Whether a declaration says that its struct has one array and no more, as that of Microchip's
/// stacks around a descriptor: `struct{BYTE report[50];}hid_rpt01`.
fn has_one_array(declared: &str) -> bool {
    let Some((_before, members)) = declared.split_once("{") else {
        return false;
    };
    let Some((member, name)) = members.split_once("}") else {
        return false;
    };
    let Some(member) = member.trim().strip_suffix(";") else {
        return false;
    };
    let is_other = |letter: char| matches!(letter, ';' | ',' | '{');
    member.trim().ends_with("]") && !member.contains(is_other) && !name.contains("[")
}

/// The name that a declaration gives: before `:`, or else before brackets, in Java and C# behind
/// them.
pub fn name_in(declared: &str) -> &str {
    if let Some((name, type_name)) = declared.split_once(":") {
        if !type_name.starts_with(":") {
            return last_word(name);
        }
    }
    let (before, behind) = declared.split_once("[").unwrap_or((declared, ""));
    let name = last_word(before);
    if !matches!(name, "byte" | "sbyte") {
        return name;
    }
    match behind.split_once("]") {
        Some((_count, behind)) => last_word(behind),
        None => name,
    }
}

/// The last word of a text, or an empty one.
pub fn last_word(text: &str) -> &str {
    text.split_whitespace().last().unwrap_or("")
}

/// The number of bytes that a declaration says in brackets: the last word in them.
pub fn said_in(declared: &str) -> Option<usize> {
    let (_before, inner) = declared.split_once("[")?;
    let (inner, _behind) = inner.split_once("]")?;
    let word = inner.split_whitespace().last()?;
    let count = match without_prefix(word) {
        Some(digits) => usize::from_str_radix(digits, 16),
        None => word.parse::<usize>(),
    };
    match count {
        Ok(count) => Some(count),
        Err(_wrong) => None,
    }
}
