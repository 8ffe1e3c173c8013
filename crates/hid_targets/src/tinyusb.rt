//! Items in the macros of TinyUSB's `src/class/hid/hid.h`.
use hid_macros::{
    Header, KINDS, OF_A_BYTE, OF_EACH_SIZE, PAGES, REPORT_ID, USAGE_PAGE, WITHOUT, name_in,
};
use hid_output::add_numbers;
use std::alloc::AllocError;
use std::fmt::Write;

/// Appends an item by its macro, or as bytes where no macro writes just these.
pub fn add_tinyusb_item(text: &mut String, bytes: &[u8]) -> Result<(), AllocError> {
    let Some((header, data)) = bytes.split_first() else {
        return Ok(());
    };
    if let Some(name) = name_in(&WITHOUT, *header) {
        return write!(text, "{name},");
    }
    if let Some(name) = name_in(&OF_A_BYTE, *header) {
        return add_call(text, name, *header, data);
    }
    match name_in(&OF_EACH_SIZE, *header & 0xfc) {
        Some(name) if !data.is_empty() => add_call(text, name, *header, data),
        _ => add_numbers(text, bytes),
    }
}

/// Appends a macro with its number.
fn add_call(text: &mut String, name: &str, header: u8, data: &[u8]) -> Result<(), AllocError> {
    let number = number_of(data);
    let size = header & 3;
    write!(text, "{name}{} ( ", if size == 1 { "" } else { "_N" })?;
    match (header, header & 0xfc) {
        (0xa1, _) => add_named(text, &KINDS, number)?,
        (_, USAGE_PAGE) => add_named(text, &PAGES, number)?,
        // An Input has no bit 7 (Section 6.2.2.5).
        (0x81, _) if number > 0x7f => write!(text, "0x{number:02x}")?,
        (0x81 | 0x91 | 0xb1, _) => Header::TinyUsb.add_flags(text, number)?,
        _ => write!(text, "0x{number:02x}")?,
    }
    if size != 1 {
        write!(text, ", {size}")?;
    }
    text.push_str(if header == REPORT_ID { " )" } else { " )," })
}

/// The number in an item's data, the low byte first.
pub fn number_of(data: &[u8]) -> u32 {
    let mut bytes = [0u8; 4];
    for (own, byte) in bytes.iter_mut().zip(data) {
        *own = *byte;
    }
    u32::from_le_bytes(bytes)
}

/// Appends the name of a number, or the number.
fn add_named(
    text: &mut String,
    names: &[(u32, &'static str)],
    number: u32,
) -> Result<(), AllocError> {
    for (own, name) in names {
        if *own == number {
            return text.push_str(*name);
        }
    }
    write!(text, "0x{number:02x}")
}
