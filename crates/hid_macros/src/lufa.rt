//! The macros of LUFA's `HIDReportData.h`, which QMK has too, and the names in their arguments.
use crate::flags::Header;
use crate::lookup::{header_in, name_in};
use crate::{Arguments, Macro};

/// The macros, by the first byte of their items without its size.
static MACROS: [(u8, &str); 20] = [
    (0x80, "HID_RI_INPUT"),
    (0x90, "HID_RI_OUTPUT"),
    (0xb0, "HID_RI_FEATURE"),
    (0xa0, "HID_RI_COLLECTION"),
    (0xc0, "HID_RI_END_COLLECTION"),
    (0x04, "HID_RI_USAGE_PAGE"),
    (0x14, "HID_RI_LOGICAL_MINIMUM"),
    (0x24, "HID_RI_LOGICAL_MAXIMUM"),
    (0x34, "HID_RI_PHYSICAL_MINIMUM"),
    (0x44, "HID_RI_PHYSICAL_MAXIMUM"),
    (0x54, "HID_RI_UNIT_EXPONENT"),
    (0x64, "HID_RI_UNIT"),
    (0x74, "HID_RI_REPORT_SIZE"),
    (0x84, "HID_RI_REPORT_ID"),
    (0x94, "HID_RI_REPORT_COUNT"),
    (0xa4, "HID_RI_PUSH"),
    (0xb4, "HID_RI_POP"),
    (0x08, "HID_RI_USAGE"),
    (0x18, "HID_RI_USAGE_MINIMUM"),
    (0x28, "HID_RI_USAGE_MAXIMUM"),
];

/// The macro with this name.
pub fn lufa_macro(name: &str) -> Option<Macro> {
    let header = header_in(&MACROS, name)?;
    Some(Macro::of(header, Arguments::Bits))
}

/// The macro of items with this first byte.
pub fn lufa_name(header: u8) -> Option<&'static str> {
    name_in(&MACROS, header & 0xfc)
}

/// The number that a name in an argument stands for.
pub fn lufa_number(name: &str) -> Option<u32> {
    Header::Lufa.flag_named(name)
}
