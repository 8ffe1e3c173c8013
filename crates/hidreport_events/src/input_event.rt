//! Events, as programs read them.
use hidreport_linux::EventCode;

/// An event that an input device sends.
#[derive(Clone, Copy, Debug, PartialEq, Eq)]
pub struct InputEvent {
    /// The code; `None` for `SYN_REPORT`, behind the events that belong together.
    pub code: Option<EventCode>,

    /// The value: 1 and 0 of a key that is pressed and let go, the place on an axis, the way that
    /// was gone, or a number. Of `SYN_REPORT` it is 0, but 1 where no more events go together.
    pub value: i32,
}
