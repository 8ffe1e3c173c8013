//! What an element of a field, or a choice of an array, sends.
use hidreport_linux::Event;

/// A usage of an input field, and its event.
#[derive(Clone, Copy)]
pub(crate) struct Source {
    /// The usage, its page in the upper 16 bits.
    pub(crate) usage: u32,

    /// Its event; none where nothing is sent for it.
    pub(crate) event: Option<Event>,

    /// Of a wheel: how many of its steps make one click.
    pub(crate) multiplier: i32,
}
