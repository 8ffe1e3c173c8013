//! The macros of TinyUSB's `src/class/hid/hid.h`, and the names in their arguments.
use crate::flags::Header;
use crate::lookup::{header_in, number_in};
use crate::{Arguments, Macro};

/// The macros without a number.
pub static WITHOUT: [(u8, &str); 3] = [
    (0xc0, "HID_COLLECTION_END"),
    (0xa4, "HID_PUSH"),
    (0xb4, "HID_POP"),
];

/// The macros of a number in one byte, by the first byte of their items.
pub static OF_A_BYTE: [(u8, &str); 5] = [
    (0x81, "HID_INPUT"),
    (0x91, "HID_OUTPUT"),
    (0xb1, "HID_FEATURE"),
    (0xa1, "HID_COLLECTION"),
    (REPORT_ID, "HID_REPORT_ID"),
];

/// The macros of a number in one byte, and with `_N` in two or four, by the first byte of their
/// items without its size.
pub static OF_EACH_SIZE: [(u8, &str); 12] = [
    (USAGE_PAGE, "HID_USAGE_PAGE"),
    (0x14, "HID_LOGICAL_MIN"),
    (0x24, "HID_LOGICAL_MAX"),
    (0x34, "HID_PHYSICAL_MIN"),
    (0x44, "HID_PHYSICAL_MAX"),
    (0x54, "HID_UNIT_EXPONENT"),
    (0x64, "HID_UNIT"),
    (0x74, "HID_REPORT_SIZE"),
    (0x94, "HID_REPORT_COUNT"),
    (0x08, "HID_USAGE"),
    (0x18, "HID_USAGE_MIN"),
    (0x28, "HID_USAGE_MAX"),
];

/// The first byte of a Report ID, whose macro ends in a comma.
pub const REPORT_ID: u8 = 0x85;

/// That of a Usage Page, without its size.
pub const USAGE_PAGE: u8 = 0x04;

/// The kinds of collections, and the usage pages, by their numbers.
pub static KINDS: [(u32, &str); 7] = [
    (0, "HID_COLLECTION_PHYSICAL"),
    (1, "HID_COLLECTION_APPLICATION"),
    (2, "HID_COLLECTION_LOGICAL"),
    (3, "HID_COLLECTION_REPORT"),
    (4, "HID_COLLECTION_NAMED_ARRAY"),
    (5, "HID_COLLECTION_USAGE_SWITCH"),
    (6, "HID_COLLECTION_USAGE_MODIFIER"),
];

pub static PAGES: [(u32, &str); 14] = [
    (0x01, "HID_USAGE_PAGE_DESKTOP"),
    (0x02, "HID_USAGE_PAGE_SIMULATE"),
    (0x03, "HID_USAGE_PAGE_VIRTUAL_REALITY"),
    (0x04, "HID_USAGE_PAGE_SPORT"),
    (0x05, "HID_USAGE_PAGE_GAME"),
    (0x06, "HID_USAGE_PAGE_GENERIC_DEVICE"),
    (0x07, "HID_USAGE_PAGE_KEYBOARD"),
    (0x08, "HID_USAGE_PAGE_LED"),
    (0x09, "HID_USAGE_PAGE_BUTTON"),
    (0x0a, "HID_USAGE_PAGE_ORDINAL"),
    (0x0b, "HID_USAGE_PAGE_TELEPHONY"),
    (0x0c, "HID_USAGE_PAGE_CONSUMER"),
    (0x0d, "HID_USAGE_PAGE_DIGITIZER"),
    (0xff00, "HID_USAGE_PAGE_VENDOR"),
];

/// The usages of Generic Desktop by the end of their names, behind `HID_USAGE_DESKTOP_`.
static DESKTOP: [(u32, &str); 20] = [
    (0x01, "POINTER"),
    (0x02, "MOUSE"),
    (0x04, "JOYSTICK"),
    (0x05, "GAMEPAD"),
    (0x06, "KEYBOARD"),
    (0x07, "KEYPAD"),
    (0x30, "X"),
    (0x31, "Y"),
    (0x32, "Z"),
    (0x33, "RX"),
    (0x34, "RY"),
    (0x35, "RZ"),
    (0x36, "SLIDER"),
    (0x37, "DIAL"),
    (0x38, "WHEEL"),
    (0x39, "HAT_SWITCH"),
    (0x80, "SYSTEM_CONTROL"),
    (0x81, "SYSTEM_POWER_DOWN"),
    (0x82, "SYSTEM_SLEEP"),
    (0x83, "SYSTEM_WAKE_UP"),
];

/// The macro with this name.
pub fn tinyusb_macro(name: &str) -> Option<Macro> {
    if let Some(header) = header_in(&WITHOUT, name) {
        return Some(Macro::of(header, Arguments::Bytes(0)));
    }
    if let Some(header) = header_in(&OF_A_BYTE, name) {
        return Some(Macro::of(header, Arguments::Bytes(1)));
    }
    if let Some(header) = header_in(&OF_EACH_SIZE, name) {
        return Some(Macro::of(header | 1, Arguments::Bytes(1)));
    }
    let header = header_in(&OF_EACH_SIZE, name.strip_suffix("_N")?)?;
    Some(Macro::of(header, Arguments::Sized))
}

/// The number that a name in an argument stands for.
pub fn tinyusb_number(name: &str) -> Option<u32> {
    Header::TinyUsb
        .flag_named(name)
        .or_else(|| number_in(&KINDS, name))
        .or_else(|| number_in(&PAGES, name))
        .or_else(|| number_in(&DESKTOP, name.strip_prefix("HID_USAGE_DESKTOP_")?))
}
