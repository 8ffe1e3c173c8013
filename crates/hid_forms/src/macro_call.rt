//! An item of a descriptor in a macro of C, as `hid convert` writes it for Zephyr, TinyUSB, LUFA
//! and udev-hid-bpf, and a whole descriptor in one.
use crate::names::Names;
use crate::report_call::add_report;
use crate::values::value_of;
use anyhow::{Error, Result, anyhow, bail, ensure};
use hid_macros::{Arguments, Macro, ReportMacro, family_of};
use std::alloc::Global;

/// Appends the bytes of a macro with its arguments.
///
/// # Errors
///
/// - the macro isn't known, or it has other arguments;
/// - an argument is no known name and no number, or has no room in the item.
pub fn add_call(bytes: &mut Vec<u8>, names: &Names, call: &str) -> Result<()> {
    let (name, rest) = match call.split_once("(") {
        Some((name, rest)) => (name.trim(), Some(rest)),
        None => (call, None),
    };
    ensure!(
        names.meaning(name).is_none(),
        "{name} stands for no number that is known"
    );
    let (list, behind) = match rest {
        Some(rest) => closed(rest),
        None => ("", ""),
    };
    ensure!(behind.is_empty(), "something stands behind {name}( )");
    if let Some(known) = ReportMacro::named(name) {
        ensure!(rest.is_some(), "{name} stands without its ( )");
        return add_report(bytes, names, name, known, list);
    }
    let Some(known) = Macro::named(name) else {
        return Err(unknown(name));
    };
    let values = values_of(*bytes.allocator(), names, list, rest.is_some())?;
    let (wanted, got) = (wanted_count(known, &values), values.len());
    let plural = if wanted == 1 { "" } else { "s" };
    ensure!(
        wanted == got,
        "{name} takes {wanted} argument{plural}, and has {got}"
    );
    add_item(bytes, known, &values)
}

/// What is said of a name that is no macro, by whose it is like.
fn unknown(name: &str) -> Error {
    match family_of(name) {
        Some(family) => anyhow!("looks like a macro of {family}, and {name} isn't known"),
        None => anyhow!("{name} is no macro that is known"),
    }
}

/// What stands up to the parenthesis that closes a list, and behind it.
fn closed(list: &str) -> (&str, &str) {
    let mut depth = 0usize;
    for (place, letter) in list.char_indices() {
        match letter {
            '(' => depth = depth.saturating_add(1),
            ')' if depth == 0 => {
                let behind = list.get(place..).and_then(|it| it.strip_prefix(")"));
                return (list.get(..place).unwrap_or(""), behind.unwrap_or(""));
            }
            ')' => depth = depth.saturating_sub(1),
            _ => {}
        }
    }
    (list, "")
}

/// How many arguments a macro takes: behind 0 bits none is needed.
fn wanted_count(known: Macro, values: &[i64]) -> usize {
    match values {
        [0] if known.arguments == Arguments::Bits => 1,
        _ => known.arguments.count(),
    }
}

/// The numbers of arguments, which are none without parentheses.
fn values_of(alloc: Global, names: &Names, list: &str, has_list: bool) -> Result<Vec<i64>> {
    let mut values = Vec::new(alloc);
    if !has_list {
        return Ok(values);
    }
    for argument in list.split(",") {
        values.push(value_of(names, argument)?)?;
    }
    Ok(values)
}

/// Appends an item with the numbers of its macro's arguments.
fn add_item(bytes: &mut Vec<u8>, known: Macro, values: &[i64]) -> Result<()> {
    match (known.arguments, values) {
        (Arguments::Sized, [value, size]) => {
            let (code, count) = size_of(*size)?;
            bytes.push(known.header | code)?;
            add_number(bytes, *value, count)
        }
        (Arguments::Bits, [bits, rest @ ..]) => add_bits(bytes, known.header, *bits, rest),
        (Arguments::Item, [tag, kind, size]) => {
            let (tag, kind) = (part_of(*tag, 15)?, part_of(*kind, 3)?);
            let size = part_of(*size, 3)?;
            Ok(bytes.push(tag << 4 | kind << 2 | size)?)
        }
        (Arguments::Named(number), _) => add_data(bytes, known.header, i64::from(number)),
        (Arguments::Number, [value]) => add_data(bytes, known.header, *value),
        (Arguments::Range, [minimum, maximum]) => {
            add_data(bytes, known.header, *minimum)?;
            add_data(bytes, known.header.saturating_add(0x10), *maximum)
        }
        (Arguments::Nibble, [value]) => add_nibble(bytes, known.header, *value),
        (Arguments::VendorPage, [page]) => {
            ensure!(
                0xff00 <= *page,
                "0x{page:04x} is no vendor's page: 0xff00 to 0xffff"
            );
            add_data(bytes, known.header, *page)
        }
        (Arguments::VendorReport, [count]) => add_vendor_report(bytes, *count),
        (Arguments::Size, [size]) => Ok(bytes.push(known.header | part_of(*size, 3)?)?),
        (Arguments::Half, [value]) => add_half(bytes, known.header, *value),
        _ => {
            bytes.push(known.header)?;
            for value in values {
                add_number(bytes, *value, 1)?;
            }
            Ok(())
        }
    }
}

/// Appends an item with a number of as many bytes as its first byte says.
fn add_data(bytes: &mut Vec<u8>, header: u8, value: i64) -> Result<()> {
    bytes.push(header)?;
    add_number(
        bytes,
        value,
        match header & 3 {
            1 => 1,
            2 => 2,
            _ => 4,
        },
    )
}

/// Appends an item with a number of four bits.
fn add_nibble(bytes: &mut Vec<u8>, header: u8, value: i64) -> Result<()> {
    ensure!(
        (-8..=7).contains(&value),
        "{value} isn't -8 to 7, the exponents that four bits hold"
    );
    bytes.push(header)?;
    Ok(bytes.push(value.to_le_bytes()[0] & 0x0f)?)
}

/// Appends a report of padding with the id 0xac, of so many bytes with that, as udev-hid-bpf's
/// `FixedSizeVendorReport` has it.
fn add_vendor_report(bytes: &mut Vec<u8>, count: i64) -> Result<()> {
    bytes.extend_from_slice(&[0x06, 0xff, 0xff, 0x09, 0x01, 0xa1, 0x00, 0x85, 0xac])?;
    bytes.extend_from_slice(&[0x75, 0x08, 0x95])?;
    add_number(bytes, count.saturating_sub(1), 1)?;
    Ok(bytes.extend_from_slice(&[0x81, 0x01, 0xc0])?)
}

/// Appends a byte of a number of two, by how far this is shifted.
fn add_half(bytes: &mut Vec<u8>, shift: u8, value: i64) -> Result<()> {
    let mut both = Vec::new(*bytes.allocator());
    add_number(&mut both, value, 2)?;
    let half = if shift == 0 {
        both.first()
    } else {
        both.last()
    };
    if let Some(byte) = half {
        bytes.push(*byte)?;
    }
    Ok(())
}

/// Appends an item whose data have so many bits.
fn add_bits(bytes: &mut Vec<u8>, header: u8, bits: i64, rest: &[i64]) -> Result<()> {
    let (code, count) = match bits {
        0 => (0, 0),
        8 => (1, 1),
        16 => (2, 2),
        32 => (3, 4),
        _ => bail!("{bits} is no number of bits: 0, 8, 16 or 32"),
    };
    bytes.push(header | code)?;
    match rest {
        [value] if count > 0 => add_number(bytes, *value, count),
        [_value, ..] => bail!("a number stands behind 0 bits"),
        [] => Ok(()),
    }
}

/// The size of an item's data as its first byte has it, and in bytes.
fn size_of(size: i64) -> Result<(u8, usize)> {
    match size {
        1 => Ok((1, 1)),
        2 => Ok((2, 2)),
        3 => Ok((3, 4)),
        _ => bail!("{size} is no size: 1, 2, or 3 for four bytes"),
    }
}

/// A part of an item's first byte.
fn part_of(value: i64, most: u8) -> Result<u8> {
    match u8::try_from(value) {
        Ok(part) if part <= most => Ok(part),
        _ => bail!("{value} isn't 0 to {most}"),
    }
}

/// Appends a number in so many bytes, the low one first, with a sign or without.
fn add_number(bytes: &mut Vec<u8>, value: i64, count: usize) -> Result<()> {
    let (low, high) = match count {
        1 => (i64::from(i8::MIN), i64::from(u8::MAX)),
        2 => (i64::from(i16::MIN), i64::from(u16::MAX)),
        _ => (i64::from(i32::MIN), i64::from(u32::MAX)),
    };
    ensure!(
        low <= value && value <= high,
        "{value} has no room in {count} byte{}",
        if count == 1 { "" } else { "s" }
    );
    for byte in value.to_le_bytes().iter().take(count) {
        bytes.push(*byte)?;
    }
    Ok(())
}
