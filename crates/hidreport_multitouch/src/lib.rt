//! Which event codes Linux gives the usages of a device by the driver that takes it.
//!
//! - [`DrivenDevices`]: the input devices of a descriptor; [`DrivenDevices::begin_field`] goes on to
//!   an item, and [`DrivenDevices::event`] answers the event of a usage, or why it has none.
//! - [`touch_code`]: the code of a usage of a touch report, whatever lies before it.
//! - [`TouchClass`], [`TouchFacts`]: how hid-multitouch takes a device for what its descriptor says.
//!
//! hid-multitouch gives the usages of reports with a Contact Identifier codes of its own, and leaves
//! others to hid-input, whose rules `hidreport_linux` has. The rules are those of Linux 6.12 for a
//! device of unknown ids that answers nothing it is asked.
//!
//! Licence: MIT (LICENSE).
#![tactic(auto)]

mod contact_axis;
mod contact_code;
mod driven_devices;
mod driven_event;
mod driven_item;
mod silent;
mod touch_class;
mod touch_facts;
mod touched;

pub use contact_axis::touch_axis;
pub use contact_code::{TouchAnswer, TouchPlace, touch_code};
pub use driven_devices::DrivenDevices;
pub use driven_event::DrivenEvent;
pub use driven_item::DrivenItem;
pub use silent::Silent;
pub use touch_class::TouchClass;
pub use touch_facts::TouchFacts;
