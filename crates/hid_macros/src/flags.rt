//! The flags of Inputs, Outputs and Features, by their names in the headers of LUFA and TinyUSB.
use std::alloc::AllocError;
use std::fmt::Write;

/// A header that has names for them.
#[derive(Clone, Copy)]
pub enum Header {
    /// LUFA's `HIDReportData.h`.
    Lufa,

    /// TinyUSB's `src/class/hid/hid.h`.
    TinyUsb,
}

/// A flag's bit, LUFA's names for one that is set and for one that isn't, and TinyUSB's.
type Flag = (u32, &'static str, &'static str, &'static str, &'static str);

/// The flags, in the order in which they are written.
#[rattlefmt::skip]
static FLAGS: [Flag; 9] = [
    (0x01, "HID_IOF_CONSTANT", "HID_IOF_DATA", "HID_CONSTANT", "HID_DATA"),
    (0x02, "HID_IOF_VARIABLE", "HID_IOF_ARRAY", "HID_VARIABLE", "HID_ARRAY"),
    (0x04, "HID_IOF_RELATIVE", "HID_IOF_ABSOLUTE", "HID_RELATIVE", "HID_ABSOLUTE"),
    (0x08, "HID_IOF_WRAP", "HID_IOF_NO_WRAP", "HID_WRAP", "HID_WRAP_NO"),
    (0x10, "HID_IOF_NON_LINEAR", "HID_IOF_LINEAR", "HID_NONLINEAR", "HID_LINEAR"),
    (0x20, "HID_IOF_NO_PREFERRED_STATE", "HID_IOF_PREFERRED_STATE",
        "HID_PREFERRED_NO", "HID_PREFERRED_STATE"),
    (0x40, "HID_IOF_NULLSTATE", "HID_IOF_NO_NULL_POSITION",
        "HID_NULL_STATE", "HID_NO_NULL_POSITION"),
    (0x80, "HID_IOF_VOLATILE", "HID_IOF_NON_VOLATILE", "HID_VOLATILE", "HID_NON_VOLATILE"),
    (0x100, "HID_IOF_BUFFERED_BYTES", "HID_IOF_BITFIELD", "HID_BUFFERED_BYTES", "HID_BITFIELD"),
];

/// The last flag that is also written where it isn't set.
const LAST_UNSET: u32 = 0x04;

impl Header {
    /// Its names for a flag that is set, and for one that isn't.
    fn names(self, flag: &Flag) -> (&'static str, &'static str) {
        match self {
            Header::Lufa => (flag.1, flag.2),
            Header::TinyUsb => (flag.3, flag.4),
        }
    }

    /// The flag that a name says is set, or 0 where it says that one isn't.
    pub fn flag_named(self, name: &str) -> Option<u32> {
        for flag in &FLAGS {
            let (set, unset) = self.names(flag);
            if set == name {
                return Some(flag.0);
            }
            if unset == name {
                return Some(0);
            }
        }
        None
    }

    /// Appends the names of flags.
    pub fn add_flags(self, text: &mut String, flags: u32) -> Result<(), AllocError> {
        let mut gap = "";
        for flag in &FLAGS {
            let (set, unset) = self.names(flag);
            if flags & flag.0 != 0 {
                write!(text, "{gap}{set}")?;
            } else if flag.0 <= LAST_UNSET {
                write!(text, "{gap}{unset}")?;
            }
            gap = " | ";
        }
        Ok(())
    }
}
