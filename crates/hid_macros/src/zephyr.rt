//! The macros of Zephyr's `include/zephyr/usb/class/hid.h`, and the names in their arguments.
use crate::lookup::{header_in, name_in, number_in};
use crate::{Arguments, Macro};

/// The macros, by the first byte of their items. (For a Feature not every version has one.)
static MACROS: [(u8, &str); 19] = [
    (0x81, "HID_INPUT"),
    (0x91, "HID_OUTPUT"),
    (0xa1, "HID_COLLECTION"),
    (0xc0, "HID_END_COLLECTION"),
    (0x05, "HID_USAGE_PAGE"),
    (0x15, "HID_LOGICAL_MIN8"),
    (0x16, "HID_LOGICAL_MIN16"),
    (0x17, "HID_LOGICAL_MIN32"),
    (0x25, "HID_LOGICAL_MAX8"),
    (0x26, "HID_LOGICAL_MAX16"),
    (0x27, "HID_LOGICAL_MAX32"),
    (0x75, "HID_REPORT_SIZE"),
    (0x85, "HID_REPORT_ID"),
    (0x95, "HID_REPORT_COUNT"),
    (0x09, "HID_USAGE"),
    (0x19, "HID_USAGE_MIN8"),
    (0x1a, "HID_USAGE_MIN16"),
    (0x29, "HID_USAGE_MAX8"),
    (0x2a, "HID_USAGE_MAX16"),
];

/// The macro of the first byte alone: of a tag, a type and a size.
const ITEM: &str = "HID_ITEM";

/// The pages and the usages of Generic Desktop.
static NAMES: [(u32, &str); 13] = [
    (0x01, "HID_USAGE_GEN_DESKTOP"),
    (0x07, "HID_USAGE_GEN_KEYBOARD"),
    (0x08, "HID_USAGE_GEN_LEDS"),
    (0x09, "HID_USAGE_GEN_BUTTON"),
    (0x01, "HID_USAGE_GEN_DESKTOP_POINTER"),
    (0x02, "HID_USAGE_GEN_DESKTOP_MOUSE"),
    (0x04, "HID_USAGE_GEN_DESKTOP_JOYSTICK"),
    (0x05, "HID_USAGE_GEN_DESKTOP_GAMEPAD"),
    (0x06, "HID_USAGE_GEN_DESKTOP_KEYBOARD"),
    (0x07, "HID_USAGE_GEN_DESKTOP_KEYPAD"),
    (0x30, "HID_USAGE_GEN_DESKTOP_X"),
    (0x31, "HID_USAGE_GEN_DESKTOP_Y"),
    (0x38, "HID_USAGE_GEN_DESKTOP_WHEEL"),
];

/// The macro with this name.
pub fn zephyr_macro(name: &str) -> Option<Macro> {
    if name == ITEM {
        return Some(Macro::of(0, Arguments::Item));
    }
    let header = header_in(&MACROS, name)?;
    let count = match header & 3 {
        3 => 4,
        size => size,
    };
    Some(Macro::of(header, Arguments::Bytes(count)))
}

/// The number that a name in an argument stands for.
pub fn zephyr_number(name: &str) -> Option<u32> {
    number_in(&NAMES, name)
}

/// The macro of items with this first byte.
pub fn zephyr_name(header: u8) -> Option<&'static str> {
    name_in(&MACROS, header)
}
