//! How the program ends.

/// How a command ended, and so the program's status.
#[derive(Clone, Copy, PartialEq)]
pub enum Ending {
    /// All that was asked for is written: 0.
    Done,

    /// A descriptor or a report is refused, or an input can't be read: 1.
    Refused,

    /// The words say no command: 2.
    Misused,
}

impl Ending {
    /// The program's status.
    pub fn status(self) -> u8 {
        match self {
            Ending::Done => 0,
            Ending::Refused => 1,
            Ending::Misused => 2,
        }
    }
}
