//! An item from its words, by the names that it is written with.
use crate::flag_table::FlagTable;
use hidreport::hid::{CollectionItem, GlobalItem, ItemType, LocalItem, MainItem};
use hidreport::types::UsagePage;
use hidreport_items::{read_item, write_item};
use hidreport_usages::{collection_name, item_name, page_by_name, usage_on_page};

/// The item that words may say where this usage page is in force; none where they say none. What
/// the item says in words may be something else: its number may hold less than the words say.
pub fn item_of_words(words: &str, page: UsagePage, flags: &FlagTable) -> Option<ItemType> {
    let (name, told) = parts_of(words)?;
    let prefix = prefix_named(name)?;
    match told {
        Some(told) => with_number(prefix, number_of_words(prefix, told, page, flags)?),
        None => item_with(prefix, &[]),
    }
}

/// An item's name, and what stands in its parentheses.
fn parts_of(words: &str) -> Option<(&str, Option<&str>)> {
    match words.split_once("(") {
        Some((name, rest)) => Some((name.trim(), Some(rest.trim().strip_suffix(")")?.trim()))),
        None => Some((words.trim(), None)),
    }
}

/// The header without a size of the items with this name.
fn prefix_named(name: &str) -> Option<u8> {
    for tag in 0..64u8 {
        let prefix = tag * 4;
        if let Ok(item) = read_item(prefix | 1, &[0]) {
            if item_name(&item).eq_ignore_ascii_case(name) {
                return Some(prefix);
            }
        }
    }
    None
}

/// The number that stands in the parentheses of the items with this header.
fn number_of_words(prefix: u8, told: &str, page: UsagePage, flags: &FlagTable) -> Option<u32> {
    match read_item(prefix | 1, &[0]) {
        Ok(item) => number_told(&item, told, page, flags),
        Err(_fault) => None,
    }
}

/// The item with this number as its data, in two bytes where it fits, else in four.
fn with_number(prefix: u8, number: u32) -> Option<ItemType> {
    let [low, next, third, high] = number.to_le_bytes();
    if number <= 0xffff && !is_signed(prefix) {
        return item_with(prefix | 2, &[low, next]);
    }
    item_with(prefix | 3, &[low, next, third, high])
}

/// The item with this header and data.
fn item_with(header: u8, data: &[u8]) -> Option<ItemType> {
    match read_item(header, data) {
        Ok(item) => Some(item),
        Err(_fault) => None,
    }
}

/// Whether an item's data has a sign: bounds (Section 6.2.2.7).
fn is_signed(prefix: u8) -> bool {
    matches!(prefix, 0x14 | 0x24 | 0x34 | 0x44)
}

/// The number that stands in an item's parentheses.
fn number_told(item: &ItemType, told: &str, page: UsagePage, flags: &FlagTable) -> Option<u32> {
    match item {
        ItemType::Main(MainItem::Collection(_)) => kind_told(told),
        ItemType::Main(MainItem::EndCollection) => None,
        ItemType::Main(_) => match flags.flags_of(told) {
            Some(flags) => Some(u32::from(flags)),
            None => plain_number(told),
        },
        ItemType::Global(item) => global_told(item, told),
        ItemType::Local(item) => local_told(item, told, page),
        ItemType::Long | ItemType::Reserved => None,
    }
}

fn global_told(item: &GlobalItem, told: &str) -> Option<u32> {
    match item {
        GlobalItem::UsagePage(_) => Some(u32::from(u16::from(page_told(told)?))),
        GlobalItem::LogicalMinimum(_)
        | GlobalItem::LogicalMaximum(_)
        | GlobalItem::PhysicalMinimum(_)
        | GlobalItem::PhysicalMaximum(_) => Some(told.parse::<i32>().ok()?.cast_unsigned()),
        GlobalItem::UnitExponent(_) => exponent_told(told),
        GlobalItem::Push | GlobalItem::Pop | GlobalItem::Reserved => None,
        _ => plain_number(front_of(told)),
    }
}

fn local_told(item: &LocalItem, told: &str, page: UsagePage) -> Option<u32> {
    match item {
        LocalItem::Usage(..)
        | LocalItem::UsageId(_)
        | LocalItem::UsageMinimum(_)
        | LocalItem::UsageMaximum(_) => usage_told(told, page),
        LocalItem::Reserved { .. } => None,
        _ => plain_number(told),
    }
}

/// A power of ten from -8 to 7, in four bits; another number as it is.
fn exponent_told(told: &str) -> Option<u32> {
    let power = told.parse::<i32>().ok()?;
    if power < 0 && -8 <= power {
        return Some((power & 0xf).cast_unsigned());
    }
    Some(power.cast_unsigned())
}

/// What stands before a comma.
fn front_of(told: &str) -> &str {
    match told.split_once(",") {
        Some((front, _rest)) => front.trim(),
        None => told,
    }
}

/// A number: in decimal digits, or in hexadecimal ones behind `0x`. Several digits behind a 0 are
/// none, since they may be octal, or hexadecimal as a usage's.
pub fn plain_number(told: &str) -> Option<u32> {
    match told.strip_prefix("0x").or(told.strip_prefix("0X")) {
        Some(digits) => u32::from_str_radix(digits, 16).ok(),
        None if told.starts_with('0') && told.trim_start_matches('0').len() > 1 => None,
        None => told.parse::<u32>().ok(),
    }
}

/// A kind of collection, by its name or by the number behind it.
fn kind_told(told: &str) -> Option<u32> {
    for number in 0..7u8 {
        if collection_name(&CollectionItem::from(number)).eq_ignore_ascii_case(told) {
            return Some(u32::from(number));
        }
    }
    match told.rsplit_once(" ") {
        Some((_name, number)) => plain_number(number),
        None => plain_number(told),
    }
}

/// A page by its name or its number.
fn page_told(told: &str) -> Option<UsagePage> {
    match page_by_name(told) {
        Some(page) => Some(page),
        None => Some(UsagePage::from(u16::try_from(plain_number(told)?).ok()?)),
    }
}

/// A usage of the page in force, or one with a page of its own, which stands above it, by names or
/// as a number.
fn usage_told(told: &str, page: UsagePage) -> Option<u32> {
    if let Some(id) = id_told(page, told) {
        return Some(u32::from(id));
    }
    let Some((own, name)) = told.split_once(" / ") else {
        return plain_number(told);
    };
    let page = page_told(own.trim())?;
    let id = id_told(page, name.trim())?;
    Some(u32::from(u16::from(page)) * 0x1_0000 + u32::from(id))
}

/// A usage's number on its page, by its name or as a number.
fn id_told(page: UsagePage, told: &str) -> Option<u16> {
    match usage_on_page(page, told) {
        Some(id) => Some(u16::from(id)),
        None => u16::try_from(plain_number(told)?).ok(),
    }
}

/// The number that an item has: none where it has no data.
pub fn number_of(item: &ItemType) -> Option<i64> {
    match item {
        ItemType::Global(GlobalItem::LogicalMinimum(number)) => Some(i64::from(i32::from(number))),
        ItemType::Global(GlobalItem::LogicalMaximum(number)) => Some(i64::from(i32::from(number))),
        ItemType::Global(GlobalItem::PhysicalMinimum(number)) => Some(i64::from(i32::from(number))),
        ItemType::Global(GlobalItem::PhysicalMaximum(number)) => Some(i64::from(i32::from(number))),
        ItemType::Global(GlobalItem::UnitExponent(number)) => Some(i64::from(number.exponent())),
        _ => data_of(item),
    }
}

/// The number that an item's data is without a sign.
fn data_of(item: &ItemType) -> Option<i64> {
    let written = write_item(item);
    let (_header, data) = written.as_slice().split_first()?;
    if data.is_empty() {
        return None;
    }
    let mut number = 0i64;
    for byte in data.iter().rev().take(4) {
        number = (number << 8 & 0xffff_ffff) | i64::from(*byte);
    }
    Some(number)
}
