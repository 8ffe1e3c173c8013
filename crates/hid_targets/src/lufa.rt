//! Items in the macros of LUFA's `HIDReportData.h`, which QMK has, too.
use crate::tinyusb::number_of;
use hid_macros::{Header, lufa_name};
use hid_output::add_numbers;
use std::alloc::AllocError;
use std::fmt::Write;

/// The flags that have names.
const NAMED: u32 = 0x1ff;

/// Appends an item by its macro, or as bytes where no macro writes just these.
pub fn add_lufa_item(text: &mut String, bytes: &[u8]) -> Result<(), AllocError> {
    let Some((header, data)) = bytes.split_first() else {
        return Ok(());
    };
    let bits = match header & 3 {
        0 => 0,
        1 => 8,
        2 => 16,
        _ => 32,
    };
    match lufa_name(*header) {
        Some(name) => add_call(text, name, *header, bits, data),
        None => add_numbers(text, bytes),
    }
}

/// Appends a macro with its number of so many bits.
fn add_call(
    text: &mut String,
    name: &str,
    header: u8,
    bits: usize,
    data: &[u8],
) -> Result<(), AllocError> {
    write!(text, "{name}({bits}")?;
    if bits > 0 {
        text.push_str(", ")?;
        add_number(text, header, number_of(data))?;
    }
    text.push_str("),")
}

/// Appends the number of an item: the flags of an Input, an Output or a Feature by their names.
fn add_number(text: &mut String, header: u8, number: u32) -> Result<(), AllocError> {
    // An Input has no bit 7 (Section 6.2.2.5).
    let is_odd = number > NAMED || header & 0xfc == 0x80 && number & 0x80 != 0;
    if is_odd || !matches!(header & 0xfc, 0x80 | 0x90 | 0xb0) {
        return write!(text, "0x{number:02x}");
    }
    Header::Lufa.add_flags(text, number)
}
