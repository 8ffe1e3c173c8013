//! Items in the macros of Zephyr's `include/zephyr/usb/class/hid.h`.
use hid_macros::zephyr_name;
use std::alloc::AllocError;
use std::fmt::Write;

/// Appends an item by its macro, or by `HID_ITEM` with its tag, its type and its size, and the data
/// behind that.
pub fn add_zephyr_item(text: &mut String, bytes: &[u8]) -> Result<(), AllocError> {
    let Some((header, data)) = bytes.split_first() else {
        return Ok(());
    };
    match zephyr_name(*header) {
        Some(name) if data.is_empty() => text.push_str(name)?,
        Some(name) => {
            write!(text, "{name}(")?;
            add_list(text, data, "")?;
            text.push_str(")")?;
        }
        None => {
            let (tag, kind, size) = (*header >> 4, *header >> 2 & 3, *header & 3);
            write!(text, "HID_ITEM(0x{tag:x}, {kind}, {size})")?;
            add_list(text, data, ", ")?;
        }
    }
    text.push_str(",")
}

/// Appends bytes with commas between them, and this before the first.
fn add_list(text: &mut String, bytes: &[u8], gap: &str) -> Result<(), AllocError> {
    let mut gap = gap;
    for byte in bytes {
        write!(text, "{gap}0x{byte:02x}")?;
        gap = ", ";
    }
    Ok(())
}
