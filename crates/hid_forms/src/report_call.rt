//! A macro of a whole descriptor, with its arguments.
use crate::byte_words::add_digits;
use crate::names::Names;
use crate::values::value_of;
use anyhow::{Result, bail, ensure};
use hid_macros::ReportMacro;

/// The macro of a report id in the arguments of such a macro, and the first byte of its item.
const ID_MACRO: &str = "HID_REPORT_ID";

const ID_HEADER: u8 = 0x85;

/// Appends the bytes of a macro of a whole descriptor.
///
/// # Errors
///
/// - its arguments are none that it takes.
pub fn add_report(
    bytes: &mut Vec<u8>,
    names: &Names,
    name: &str,
    known: ReportMacro,
    arguments: &str,
) -> Result<()> {
    let (number, rest) = match known.most {
        Some(most) => {
            let (first, rest) = arguments.split_once(",").unwrap_or((arguments, ""));
            (number_within(names, first, most)?, rest.trim())
        }
        None => (0, arguments.trim()),
    };
    let id = id_of(names, rest)?;
    ensure!(
        rest.is_empty() || known.may_have_id && id.is_some(),
        "{name} takes no {rest}"
    );
    add_filled(bytes, known.bytes, number, id)
}

/// The number of an argument, up to a greatest one.
fn number_within(names: &Names, argument: &str, most: u8) -> Result<u8> {
    let value = value_of(names, argument)?;
    match u8::try_from(value) {
        Ok(number) if number <= most => Ok(number),
        _ => bail!("{value} isn't 0 to {most}"),
    }
}

/// The report id in its macro, where an argument is one.
fn id_of(names: &Names, argument: &str) -> Result<Option<u8>> {
    let Some(list) = argument.strip_prefix(ID_MACRO) else {
        return Ok(None);
    };
    let inner = list
        .trim()
        .strip_prefix("(")
        .and_then(|it| it.strip_suffix(")"));
    match inner {
        Some(inner) if !inner.contains(")") => {
            let id = number_within(names, inner, u8::MAX)?;
            Ok(Some(id))
        }
        _ => Ok(None),
    }
}

/// Appends the bytes of a text, in which places are for a number and the item of a report id.
fn add_filled(bytes: &mut Vec<u8>, text: &str, number: u8, id: Option<u8>) -> Result<()> {
    for word in text.split(" ") {
        match word {
            "N" => bytes.push(number)?,
            "8-N" => bytes.push(8u8.saturating_sub(number))?,
            "ID" => add_id(bytes, id)?,
            _ => {
                let _is_byte = add_digits(bytes, word)?;
            }
        }
    }
    Ok(())
}

/// Appends the item of a report id, where there is one.
fn add_id(bytes: &mut Vec<u8>, id: Option<u8>) -> Result<()> {
    if let Some(id) = id {
        bytes.extend_from_slice(&[ID_HEADER, id])?;
    }
    Ok(())
}
