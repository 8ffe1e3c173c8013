//! The macros of Linux's `hid_report_helpers.h`, of udev-hid-bpf, and the names in their arguments.
//! Each ends in a comma of its own.
use crate::bpf_names::{PAGES, usages_on};
use crate::lookup::{header_in, number_in};
use crate::{Arguments, Macro};

/// The macros of one number, by the first byte of their items, which says how many bytes it takes.
pub static NUMBERS: [(u8, &str); 12] = [
    (0x81, "Input"),
    (0x91, "Output"),
    (0xb1, "Feature"),
    (0x85, "ReportId"),
    (0x75, "ReportSize"),
    (0x95, "ReportCount"),
    (0x05, "UsagePage_i8"),
    (0x06, "UsagePage_i16"),
    (0x09, "Usage_i8"),
    (0x0a, "Usage_i16"),
    (0x0b, "Usage_i32"),
    (0x65, "Unit_i8"),
];

/// The macros of a minimum and a maximum, by the first byte of the minimum.
pub static RANGES: [(u8, &str); 8] = [
    (0x15, "LogicalRange_i8"),
    (0x16, "LogicalRange_i16"),
    (0x17, "LogicalRange_i32"),
    (0x35, "PhysicalRange_i8"),
    (0x36, "PhysicalRange_i16"),
    (0x37, "PhysicalRange_i32"),
    (0x19, "UsageRange_i8"),
    (0x1a, "UsageRange_i16"),
];

/// How often the usages of a page are halved at most: a text of 65,536 bytes is one byte then.
const MOST_HALVED: usize = 16;

/// The macro around others whose first argument is the kind of the collection.
pub const ANY_COLLECTION: &str = "Collection";

/// The flags, and what stands for the first three where they aren't set.
static FLAGS: [(u32, &str); 5] = [(1, "Const"), (2, "Var"), (0, "Arr"), (0, "Abs"), (4, "Rel")];

/// The units by their numbers, and the systems.
pub static UNITS: [(u32, &str); 8] = [
    (0x11, "cm"),
    (0x12, "rad"),
    (0x13, "in"),
    (0x14, "deg"),
    (1, "SILinear"),
    (2, "SIRotation"),
    (3, "EnglishLinear"),
    (4, "EnglishRotation"),
];

/// The macro with this name, which stands around no others.
pub fn bpf_macro(name: &str) -> Option<Macro> {
    if let Some(header) = header_in(&NUMBERS, name) {
        return Some(Macro::of(header, Arguments::Number));
    }
    if let Some(header) = header_in(&RANGES, name) {
        return Some(Macro::of(header, Arguments::Range));
    }
    match name {
        "Unit" => Some(Macro::of(0x65, Arguments::Number)),
        "UnitExponent" => Some(Macro::of(0x55, Arguments::Nibble)),
        "UsagePage_Vendor" => Some(Macro::of(0x06, Arguments::VendorPage)),
        "FixedSizeVendorReport" => Some(Macro::of(0x06, Arguments::VendorReport)),
        _ => named_page(name).or_else(|| named_usage(name)),
    }
}

/// The macro around others with this name: the first byte before them, and the kind of a
/// collection.
pub fn bpf_around(name: &str) -> Option<(u8, Option<u8>)> {
    match name {
        "CollectionPhysical" => Some((0xa1, Some(0))),
        "CollectionApplication" => Some((0xa1, Some(1))),
        "CollectionLogical" => Some((0xa1, Some(2))),
        "PushPop" => Some((0xa4, None)),
        _ => None,
    }
}

/// The number that a name in an argument stands for.
pub fn bpf_number(name: &str) -> Option<u32> {
    number_in(&FLAGS, name).or_else(|| number_in(&UNITS, name))
}

/// A usage page by its name.
fn named_page(name: &str) -> Option<Macro> {
    let name = name.strip_prefix("UsagePage_")?;
    for (page, own, _begin) in &PAGES {
        if *own == name {
            let header = if *page < 0x100 { 0x05 } else { 0x06 };
            return Some(Macro::of(header, Arguments::Named(*page)));
        }
    }
    None
}

/// A usage by its name: of pages whose usages begin alike only one has it.
fn named_usage(name: &str) -> Option<Macro> {
    let (begin, name) = name.strip_prefix("Usage_")?.split_once("_")?;
    for (page, _name, own) in &PAGES {
        if *own == begin
            && let Some(id) = id_in(usages_on(*page), name)
        {
            return Some(Macro::of(usage_header(id), Arguments::Named(id)));
        }
    }
    None
}

/// The first byte of the usage that the header writes with this number.
pub fn usage_header(id: u16) -> u8 {
    if id < 0xff { 0x09 } else { 0x0a }
}

/// The number of the usage with this name in a page's.
fn id_in(usages: &str, name: &str) -> Option<u16> {
    for entry in usages.split(" ") {
        if entry.get(4..) == Some(name) {
            return u16::from_str_radix(entry.get(..4)?, 16).ok();
        }
    }
    None
}

/// A page's name, and what stands behind `Usage_` before the names of its usages.
pub fn page_named(page: u16) -> Option<(&'static str, &'static str)> {
    for (own, name, begin) in &PAGES {
        if *own == page {
            return Some((*name, *begin));
        }
    }
    None
}

/// The name of a page's usage: the entries rise by their numbers, so half of them is left each time.
pub fn usage_named(page: u16, id: u16) -> Option<&'static str> {
    let usages = usages_on(page);
    let (mut low, mut high) = (0usize, usages.len());
    for _ in 0..MOST_HALVED {
        let middle = low.saturating_add(high.saturating_sub(low) / 2);
        let begin = match usages.get(low..middle)?.rfind(' ') {
            Some(place) => low.saturating_add(place),
            None => low,
        };
        let entry = usages.get(begin..)?.strip_prefix(' ')?;
        let entry = entry.split_once(' ').unwrap_or((entry, "")).0;
        let number = u16::from_str_radix(entry.get(..4)?, 16).ok()?;
        if number == id {
            return entry.get(4..);
        }
        if number < id {
            low = begin.saturating_add(entry.len()).saturating_add(1);
        } else {
            high = begin;
        }
    }
    None
}

/// Whether a name is that of a page or a usage, known or not, and of no macro with arguments.
pub fn is_of_usage(name: &str) -> bool {
    (name.starts_with("Usage_") || name.starts_with("UsagePage_"))
        && header_in(&NUMBERS, name).is_none()
        && name != "UsagePage_Vendor"
}
