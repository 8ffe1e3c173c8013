//! The macros that items are written by in C, which `hid` writes and reads by one table.
//! Licence: MIT (LICENSE).
#![tactic(auto)]

mod bpf;
mod bpf_names;
mod esp32;
mod flags;
mod halves;
mod lookup;
mod lufa;
mod reports;
mod tinyusb;
mod zephyr;

pub use bpf::{
    ANY_COLLECTION, NUMBERS, RANGES, UNITS, bpf_around, is_of_usage, page_named, usage_header,
    usage_named,
};
use bpf::{bpf_macro, bpf_number};
use esp32::esp32_macro;
pub use flags::Header;
use halves::half_macro;
pub use lookup::name_in;
pub use lufa::lufa_name;
use lufa::{lufa_macro, lufa_number};
pub use reports::ReportMacro;
pub use tinyusb::{KINDS, OF_A_BYTE, OF_EACH_SIZE, PAGES, REPORT_ID, USAGE_PAGE, WITHOUT};
use tinyusb::{tinyusb_macro, tinyusb_number};
pub use zephyr::zephyr_name;
use zephyr::{zephyr_macro, zephyr_number};

/// What stands in the parentheses of a macro.
#[derive(Clone, Copy, PartialEq)]
pub enum Arguments {
    /// So many bytes, which are the item's data; none, and no parentheses.
    Bytes(u8),

    /// The number of the item's data, and their size as in its first byte: 3 means four bytes.
    Sized,

    /// How many bits the item's data have, and behind them their number; nothing behind none.
    Bits,

    /// The item's tag, its type and its size; its data stand behind.
    Item,

    /// Nothing, and no parentheses: the number of the item's data is in the macro's name. This and
    /// those below end in a comma of their own.
    Named(u16),

    /// The number of the item's data.
    Number,

    /// The number of the item's data, and that of the maximum which follows the minimum.
    Range,

    /// A number of four bits, with its sign.
    Nibble,

    /// The number of a vendor's page, from FF00 on.
    VendorPage,

    /// How many bytes a report of padding has, with the one of its id: the items of such a report.
    VendorReport,

    /// The size of an item's data, as in its first byte; the data stand behind.
    Size,

    /// A number of two bytes, of which one is written; the macro's first byte says how far it is
    /// shifted.
    Half,
}

impl Arguments {
    /// How many they are.
    pub fn count(self) -> usize {
        match self {
            Arguments::Bytes(count) => usize::from(count),
            Arguments::Named(_) => 0,
            Arguments::Number
            | Arguments::Nibble
            | Arguments::VendorPage
            | Arguments::VendorReport
            | Arguments::Size
            | Arguments::Half => 1,
            Arguments::Sized | Arguments::Bits | Arguments::Range => 2,
            Arguments::Item => 3,
        }
    }

    /// Whether the macro ends in a comma of its own.
    pub fn end_in_comma(self) -> bool {
        matches!(
            self,
            Arguments::Named(_)
                | Arguments::Number
                | Arguments::Range
                | Arguments::Nibble
                | Arguments::VendorPage
                | Arguments::VendorReport
        )
    }
}

/// A macro that writes an item.
#[derive(Clone, Copy)]
pub struct Macro {
    /// The item's first byte, as far as the name says it.
    pub header: u8,
    /// What stands in the parentheses.
    pub arguments: Arguments,
}

impl Macro {
    /// A macro with this first byte and these arguments.
    pub fn of(header: u8, arguments: Arguments) -> Macro {
        Macro { header, arguments }
    }

    /// The macro with this name, of TinyUSB, Zephyr, LUFA, udev-hid-bpf or the ESP32's libraries:
    /// what several have writes the same.
    pub fn named(name: &str) -> Option<Macro> {
        let known = lufa_macro(name).or(tinyusb_macro(name));
        let known = known.or(zephyr_macro(name)).or(bpf_macro(name));
        known.or(esp32_macro(name)).or(half_macro(name))
    }
}

/// Whose macros have names that begin so.
static FAMILIES: [(&str, &str); 3] = [
    ("TUD_", "TinyUSB"),
    ("HID_RI_", "LUFA"),
    ("HID_", "TinyUSB or Zephyr"),
];

/// Whose macro a name is like, where it is like one.
pub fn family_of(name: &str) -> Option<&'static str> {
    let row = FAMILIES.iter().find(|row| name.starts_with(row.0))?;
    Some(row.1)
}

/// The number that a name in an argument stands for, by the header of TinyUSB, Zephyr, LUFA or
/// udev-hid-bpf.
pub fn number_named(name: &str) -> Option<u32> {
    let known = lufa_number(name).or(tinyusb_number(name));
    known.or(zephyr_number(name)).or(bpf_number(name))
}
