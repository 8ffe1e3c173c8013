//! The macros of whole descriptors: of TinyUSB's `src/class/hid/hid_device.h`, and of Zephyr's
//! `usb/class/hid.h`.

/// A macro that writes a whole descriptor.
#[derive(Clone, Copy)]
pub struct ReportMacro {
    /// Its bytes, two hexadecimal digits each. `ID` is the place of a report id's item, `N` that of
    /// the number, and `8-N` that of what this lacks to eight.
    pub bytes: &'static str,
    /// Whether its first argument is a number, and the greatest that it may be.
    pub most: Option<u8>,
    /// Whether a report id may be its last argument, in the macro of one.
    pub may_have_id: bool,
    /// Whether it has the braces of the array.
    pub has_braces: bool,
}

/// A keyboard, of TinyUSB: 5 lamps, and 6 keys at once.
const KEYBOARD: &str = "\
05 01 09 06 a1 01 ID 05 07 19 e0 29 e7 15 00 25 01 95 08 75 01 81 02 95 01 75 08 81 01 05 08 19 \
01 29 05 95 05 75 01 91 02 95 01 75 03 91 01 05 07 19 00 2a ff 00 15 00 26 ff 00 95 06 75 08 81 \
00 c0";

/// A mouse, of TinyUSB: 5 buttons, and wheels that turn and tilt.
const MOUSE: &str = "\
05 01 09 02 a1 01 ID 09 01 a1 00 05 09 19 01 29 05 15 00 25 01 95 05 75 01 81 02 95 01 75 03 81 \
01 05 01 09 30 09 31 15 81 25 7f 95 02 75 08 81 06 09 38 15 81 25 7f 95 01 75 08 81 06 05 0c 0a \
38 02 15 81 25 7f 95 01 75 08 81 06 c0 c0";

/// Keys of Consumer, of TinyUSB.
const CONSUMER: &str = "05 0c 09 01 a1 01 ID 15 00 26 ff 03 19 00 2a ff 03 95 01 75 10 81 00 c0";

/// The keys of the system's power, of TinyUSB.
const SYSTEM_CONTROL: &str =
    "05 01 09 80 a1 01 ID 15 01 25 03 95 01 75 02 09 81 09 82 09 83 81 00 95 01 75 06 81 01 c0";

/// A game pad, of TinyUSB: 6 axes, a hat switch and 32 buttons.
const GAMEPAD: &str = "\
05 01 09 05 a1 01 ID 05 01 09 30 09 31 09 32 09 35 09 33 09 34 15 81 25 7f 95 06 75 08 81 02 05 \
01 09 39 15 01 25 08 35 00 46 3b 01 95 01 75 08 81 02 05 09 19 01 29 20 15 00 25 01 95 20 75 01 \
81 02 c0";

/// An authenticator of FIDO, of TinyUSB: reports of N bytes.
const FIDO_U2F: &str = "\
06 d0 f1 09 01 a1 01 ID 09 20 15 00 26 ff 00 75 08 95 N 81 02 09 21 15 00 26 ff 00 75 08 95 N \
91 02 c0";

/// Reports of N bytes, of TinyUSB.
const GENERIC_INOUT: &str = "\
06 00 ff 09 01 a1 01 ID 09 02 15 00 26 ff 00 75 08 95 N 81 02 09 03 15 00 26 ff 00 75 08 95 N \
91 02 c0";

/// A mouse of N buttons, of Zephyr.
const ZEPHYR_MOUSE: &str = "\
05 01 09 02 a1 01 09 01 a1 00 05 09 19 01 29 N 15 00 25 01 75 01 95 N 81 02 75 8-N 95 01 81 01 \
05 01 09 30 09 31 09 38 15 81 25 7f 75 08 95 03 81 06 c0 c0";

/// A keyboard, of Zephyr.
const ZEPHYR_KEYBOARD: &str = "\
05 01 09 06 a1 01 05 07 19 e0 29 e7 15 00 25 01 75 01 95 08 81 02 75 08 95 01 81 03 75 01 95 05 \
05 08 19 01 29 05 91 02 75 03 95 01 91 03 75 08 95 06 15 00 25 65 05 07 19 00 29 65 81 00 c0";

impl ReportMacro {
    /// The macro with this name.
    pub fn named(name: &str) -> Option<ReportMacro> {
        match name {
            "HID_MOUSE_REPORT_DESC" => Some(ReportMacro::zephyr(ZEPHYR_MOUSE, Some(8))),
            "HID_KEYBOARD_REPORT_DESC" => Some(ReportMacro::zephyr(ZEPHYR_KEYBOARD, None)),
            _ => ReportMacro::tinyusb_named(name.strip_prefix("TUD_HID_REPORT_DESC_")?),
        }
    }

    /// The macro of TinyUSB whose name ends so.
    fn tinyusb_named(name: &str) -> Option<ReportMacro> {
        match name {
            "KEYBOARD" => Some(ReportMacro::tinyusb(KEYBOARD, None)),
            "MOUSE" => Some(ReportMacro::tinyusb(MOUSE, None)),
            "CONSUMER" => Some(ReportMacro::tinyusb(CONSUMER, None)),
            "SYSTEM_CONTROL" => Some(ReportMacro::tinyusb(SYSTEM_CONTROL, None)),
            "GAMEPAD" => Some(ReportMacro::tinyusb(GAMEPAD, None)),
            "FIDO_U2F" => Some(ReportMacro::tinyusb(FIDO_U2F, Some(255))),
            "GENERIC_INOUT" => Some(ReportMacro::tinyusb(GENERIC_INOUT, Some(255))),
            _ => None,
        }
    }

    /// One of TinyUSB's.
    fn tinyusb(bytes: &'static str, most: Option<u8>) -> ReportMacro {
        ReportMacro {
            bytes,
            most,
            may_have_id: true,
            has_braces: false,
        }
    }

    /// One of Zephyr's.
    fn zephyr(bytes: &'static str, most: Option<u8>) -> ReportMacro {
        ReportMacro {
            bytes,
            most,
            may_have_id: false,
            has_braces: true,
        }
    }
}
