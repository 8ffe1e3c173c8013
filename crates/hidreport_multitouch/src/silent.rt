//! Why a usage has no event.
use hidreport_linux::Unmapped;
use std::fmt;

/// Why a usage of a device that a driver takes has no event.
#[derive(Clone, Copy, Debug, PartialEq, Eq)]
pub enum Silent {
    /// What hid-input or the descriptor says.
    Unmapped(Unmapped),

    /// hid-multitouch ignores all usages of its application.
    Application,

    /// hid-multitouch ignores the usage.
    Ignored,

    /// hid-multitouch reads it for what it makes of the contacts.
    Read,

    /// hid-input has a code for it, which hid-multitouch doesn't register.
    Unregistered,
}

impl Silent {
    ghost use Rattle.std.specs.Prelude.{◌≡◌};
    ghost use Rattle.hidreport_multitouch.specs.Reasons.{silence_of};

    /// The reason in words.
    pub fn reason(self) -> &'static str
        ensures { result.now ≡ silence_of self }
    {
        match self {
            Silent::Unmapped(reason) => reason.reason(),
            Silent::Application => "in an application that hid-multitouch ignores",
            Silent::Ignored => "a usage that hid-multitouch ignores",
            Silent::Read => "hid-multitouch only reads it for the contacts",
            Silent::Unregistered => "left to hid-input, whose code hid-multitouch leaves out",
        }
    }
}

/// Writes the reason.
impl fmt::Display for Silent {
    fn fmt<W: fmt::Write>(&self, f: &mut fmt::Formatter<W>) -> fmt::Result {
        f.write_str(self.reason())
    }
}
