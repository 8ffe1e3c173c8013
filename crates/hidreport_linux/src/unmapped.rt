//! Why a usage has no event.
use std::fmt;

/// Why a usage has no event.
#[derive(Clone, Copy, Debug, PartialEq, Eq)]
pub enum Unmapped {
    /// Its item is constant.
    Constant,

    /// It is in a feature report.
    Feature,

    /// It is in an output report and isn't of the page LED.
    Output,

    /// Linux refuses the descriptor.
    Refused,

    /// Linux may read it otherwise.
    NotKnown,

    /// No collection is an input application, so there is no input device.
    NoInput,

    /// Its report has more items with usages than are read.
    PastItems,

    /// Its item names more usages before it than are kept.
    PastUsages,

    /// hid-input ignores all usages of its page that it doesn't list, and this is one.
    Ignored,

    /// In an application System Control such a usage is ignored.
    SystemControl,

    /// Its values go to the power supply of the device.
    Battery,

    /// Another direction of the same item has the hat's axes.
    OtherDirection,

    /// A usage before it has the code.
    Taken,

    /// The code would be past the last one.
    PastCodes,
}

impl Unmapped {
    ghost use Rattle.std.specs.Prelude.{◌≡◌};
    ghost use Rattle.hidreport_linux.specs.Reasons.{reason_of};

    /// The reason in words.
    pub fn reason(self) -> &'static str
        ensures { result.now ≡ reason_of self }
    {
        match self {
            Unmapped::Constant => "constant",
            Unmapped::Feature => "in a feature report",
            Unmapped::Output => "in an output report, and no LED",
            Unmapped::Refused => "Linux refuses the descriptor",
            Unmapped::NotKnown => "not known, since Linux may read it otherwise",
            Unmapped::NoInput => "no collection is an input application",
            Unmapped::PastItems => "past the first 256 items of the report",
            Unmapped::PastUsages => "past the first 12288 usages of the item",
            Unmapped::Ignored => "a usage that hid-input ignores",
            Unmapped::SystemControl => "ignored in a System Control",
            Unmapped::Battery => "the battery's",
            Unmapped::OtherDirection => "another direction has the hat's axes",
            Unmapped::Taken => "a usage before it has the code",
            Unmapped::PastCodes => "past the last code",
        }
    }
}

/// Writes the reason.
impl fmt::Display for Unmapped {
    fn fmt<W: fmt::Write>(&self, f: &mut fmt::Formatter<W>) -> fmt::Result {
        f.write_str(self.reason())
    }
}
