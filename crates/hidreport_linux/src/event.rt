//! The event of a usage.
use crate::event_code::EventCode;
use crate::wanted::Role;

/// The event that a usage has.
///
/// `InputDevices::axis` and `InputDevices::beside` say the rest of it, once all usages of the
/// descriptor are gone over.
#[derive(Clone, Copy, Debug, PartialEq, Eq)]
pub struct Event {
    /// The code.
    pub code: EventCode,

    /// What else it does.
    pub role: Role,

    /// The input device, counted from 0.
    pub device: usize,
}
