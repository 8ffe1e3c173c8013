//! Which input events Linux sends for the reports of a device.
//!
//! - [`EventReader`]: the reports of a device, one after the other; [`EventReader::read`] answers
//!   what its input devices send for one.
//! - [`InputEvent`]: an event, as programs read it from `/dev/input`.
//!
//! The rules are those of Linux 6.12 for a device of hid-generic, without quirks: of hid-core for
//! what it reads in a report, of hid-input for what it says of it, and of the input core for what it
//! hands on. What time alone sends, as a key that is held down again and again, isn't said.
//!
//! Licence: MIT (LICENSE).
#![tactic(auto)]

mod building;
mod choices;
mod errors;
mod event_field;
mod event_reader;
mod event_report;
mod held;
mod input_event;
mod lamp;
mod lamp_setting;
mod multipliers;
mod sender;
mod sending;
mod source;
mod tool;
mod turning;
mod volume_steps;

pub use errors::EventsError;
pub use event_reader::{EventReader, ReportEvents};
pub use input_event::InputEvent;
