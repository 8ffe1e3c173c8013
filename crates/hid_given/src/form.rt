//! The forms that bytes are written down in, by name. A form more has a row in each list here, and
//! in those of the crate that reads it.

/// How bytes are written down.
#[derive(Clone, Copy, PartialEq)]
pub enum Form {
    /// As they are.
    Bytes,

    /// In hexadecimal digits.
    Hex,

    /// As hid-recorder's lines.
    Recorder,

    /// As usbhid-dump's lines.
    Dump,

    /// As arrays of C or Rust.
    Source,

    /// As lists of Python.
    Python,

    /// As a dump with offsets.
    Offsets,

    /// As libinput's lists.
    Libinput,

    /// As a file of debugfs.
    Debugfs,

    /// As lsusb's items.
    Lsusb,

    /// As a capture of USB traffic, by usbmon or USBPcap.
    Usbmon,

    /// As the collections of WebHID, in JSON.
    WebHid,
}

/// The words for the forms on a command line.
pub static FORM_WORDS: [&str; 12] = [
    "bytes", "hex", "recorder", "dump", "source", "python", "offsets", "libinput", "debugfs",
    "lsusb", "usbmon", "webhid",
];

impl Form {
    /// The form that a word on a command line says.
    pub fn named(word: &str) -> Option<Form> {
        match word {
            "bytes" => Some(Form::Bytes),
            "hex" => Some(Form::Hex),
            "recorder" => Some(Form::Recorder),
            "dump" => Some(Form::Dump),
            "source" => Some(Form::Source),
            "python" => Some(Form::Python),
            "offsets" => Some(Form::Offsets),
            "libinput" => Some(Form::Libinput),
            "debugfs" => Some(Form::Debugfs),
            "lsusb" => Some(Form::Lsusb),
            "usbmon" => Some(Form::Usbmon),
            "webhid" => Some(Form::WebHid),
            _ => None,
        }
    }

    /// What it is called.
    pub fn name(self) -> &'static str {
        match self {
            Form::Bytes => "bytes",
            Form::Hex => "hex text",
            Form::Recorder => "hid-recorder's lines",
            Form::Dump => "usbhid-dump's lines",
            Form::Source => "C or Rust source",
            Form::Python => "Python source",
            Form::Offsets => "a dump with offsets",
            Form::Libinput => "libinput record's text",
            Form::Debugfs => "debugfs's rdesc",
            Form::Lsusb => "lsusb's text",
            Form::Usbmon => "a capture of USB traffic",
            Form::WebHid => "WebHID's collections",
        }
    }

    /// Whether an input in it has one device.
    pub fn has_one_device(self) -> bool {
        matches!(
            self,
            Form::Bytes | Form::Hex | Form::Offsets | Form::Debugfs | Form::WebHid
        )
    }

    /// Whether it tells devices apart by a number or an address.
    pub fn tells_devices(self) -> bool {
        matches!(self, Form::Recorder | Form::Dump | Form::Usbmon)
    }
}

/// What an input's bytes are for.
#[derive(Clone, Copy, PartialEq)]
pub enum Wanted {
    /// Descriptors, and the reports that stand beside them.
    Descriptors,

    /// Reports.
    Reports,
}
