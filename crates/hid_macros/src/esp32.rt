//! The macros of `HIDTypes.h`, which the ESP32's Bluetooth libraries have: each writes the first
//! byte of an item, and takes the size of its data, which stand behind it as numbers.
use crate::lookup::header_in;
use crate::{Arguments, Macro};

/// The macros, by the first byte of their items without its size.
static MACROS: [(u8, &str); 29] = [
    (0x80, "INPUT"),
    (0x80, "HIDINPUT"),
    (0x90, "OUTPUT"),
    (0x90, "HIDOUTPUT"),
    (0xb0, "FEATURE"),
    (0xa0, "COLLECTION"),
    (0xc0, "END_COLLECTION"),
    (0x04, "USAGE_PAGE"),
    (0x14, "LOGICAL_MINIMUM"),
    (0x24, "LOGICAL_MAXIMUM"),
    (0x34, "PHYSICAL_MINIMUM"),
    (0x44, "PHYSICAL_MAXIMUM"),
    (0x54, "UNIT_EXPONENT"),
    (0x64, "UNIT"),
    (0x74, "REPORT_SIZE"),
    (0x84, "REPORT_ID"),
    (0x94, "REPORT_COUNT"),
    (0xa4, "PUSH"),
    (0xb4, "POP"),
    (0x08, "USAGE"),
    (0x18, "USAGE_MINIMUM"),
    (0x28, "USAGE_MAXIMUM"),
    (0x38, "DESIGNATOR_INDEX"),
    (0x48, "DESIGNATOR_MINIMUM"),
    (0x58, "DESIGNATOR_MAXIMUM"),
    (0x78, "STRING_INDEX"),
    (0x88, "STRING_MINIMUM"),
    (0x98, "STRING_MAXIMUM"),
    (0xa8, "DELIMITER"),
];

/// The macro with this name.
pub fn esp32_macro(name: &str) -> Option<Macro> {
    let header = header_in(&MACROS, name)?;
    Some(Macro::of(header, Arguments::Size))
}
