//! Who says that something is odd.

/// Who says that something is odd: a section of a standard, or a host.
#[derive(Clone, Copy, Debug, PartialEq, Eq)]
pub enum Source {
    /// `hid`, which refuses the descriptor.
    Refusal,
    /// Each report has an id, or none has.
    ReportIds,
    /// Items.
    Items,
    /// Types of items.
    ItemTypes,
    /// Long items.
    LongItems,
    /// Main items.
    MainItems,
    /// Inputs, Outputs and Features.
    DataItems,
    /// Collections.
    CollectionItems,
    /// Global items.
    GlobalItems,
    /// Local items.
    LocalItems,
    /// What a report is.
    Reports,
    /// Interrupt transactions.
    Transactions,
    /// Axes of Generic Desktop.
    Axes,
    /// Other usages of Generic Desktop.
    Desktop,
    /// Touch pads as Windows wants them.
    TouchPads,
    /// Linux's parser.
    Linux,
    /// What Windows' parser says.
    Windows,
}

impl Source {
    /// Its name; none where it is `hid`.
    pub fn name(self) -> &'static str {
        match self {
            Source::Refusal => "",
            Source::ReportIds => "USB HID 1.11, Section 5.6",
            Source::Items => "USB HID 1.11, Section 6.2.2",
            Source::ItemTypes => "USB HID 1.11, Section 6.2.2.2",
            Source::LongItems => "USB HID 1.11, Section 6.2.2.3",
            Source::MainItems => "USB HID 1.11, Section 6.2.2.4",
            Source::DataItems => "USB HID 1.11, Section 6.2.2.5",
            Source::CollectionItems => "USB HID 1.11, Section 6.2.2.6",
            Source::GlobalItems => "USB HID 1.11, Section 6.2.2.7",
            Source::LocalItems => "USB HID 1.11, Section 6.2.2.8",
            Source::Reports => "USB HID 1.11, Section 8.4",
            Source::Transactions => "USB 2.0, Section 5.7.3",
            Source::Axes => "HID Usage Tables, Axis Usages",
            Source::Desktop => "HID Usage Tables, Generic Desktop Page",
            Source::TouchPads => "Windows Precision Touchpad",
            Source::Linux => "hid-core of Linux 6.12",
            Source::Windows => "Windows' hidpddi.h",
        }
    }

    /// Its name behind a remark: USB HID 1.11 is meant where none says another standard.
    pub fn short_name(self) -> &'static str {
        let name = self.name();
        name.strip_prefix("USB HID 1.11, ").unwrap_or(name)
    }

    /// Its name where a rule is explained: what `hid` refuses is what the standard doesn't allow.
    pub fn full_name(self) -> &'static str {
        if self == Source::Refusal {
            Source::Items.name()
        } else {
            self.name()
        }
    }

    /// The host that has to be asked for.
    pub fn host(self) -> Option<&'static str> {
        match self {
            Source::Linux => Some("linux"),
            Source::Windows => Some("windows"),
            _ => None,
        }
    }
}
