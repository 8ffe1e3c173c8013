//! Data of an item that is greater than what is read of it.
use crate::items::PlacedItem;
use hid_words::number_of;
use hidreport::hid::{GlobalItem, ItemType};
use std::alloc::{AllocError, Global};

/// What is said of an item of whose data not all is read, as a report id of 257: its data, and the
/// number that is read; nothing of other items.
pub fn cut_remark(alloc: Global, entry: &PlacedItem) -> Result<Option<String>, AllocError> {
    let Some(number) = number_of(&entry.item) else {
        return Ok(None);
    };
    let Some(data) = data_of(entry) else {
        return Ok(None);
    };
    if data == number {
        return Ok(None);
    }
    let remark = format!(in alloc; "its data is {data}, of which {number} is read")?;
    Ok(Some(remark))
}

/// The number that an item's data is; none of a long item, of bounds, which are read whole, and of
/// an exponent that is a nibble (Section 6.2.2.7).
fn data_of(entry: &PlacedItem) -> Option<i64> {
    match &entry.item {
        ItemType::Global(item) => global_data(item, entry.bytes),
        ItemType::Main(_) | ItemType::Local(_) => Some(unsigned(entry.bytes)),
        ItemType::Long | ItemType::Reserved => None,
    }
}

fn global_data(item: &GlobalItem, bytes: &[u8]) -> Option<i64> {
    match item {
        GlobalItem::LogicalMinimum(_)
        | GlobalItem::LogicalMaximum(_)
        | GlobalItem::PhysicalMinimum(_)
        | GlobalItem::PhysicalMaximum(_) => None,
        GlobalItem::UnitExponent(exponent) => {
            let number = i32::from(exponent);
            if (0..=15).contains(&number) {
                None
            } else {
                Some(i64::from(number))
            }
        }
        _ => Some(unsigned(bytes)),
    }
}

/// The number that the bytes behind an item's first one write, without a sign.
fn unsigned(bytes: &[u8]) -> i64 {
    let data = bytes.get(1..).unwrap_or(&[]);
    let mut number = 0i64;
    for byte in data.iter().rev().take(4) {
        number = (number << 8 & 0xffff_ffff) | i64::from(*byte);
    }
    number
}
