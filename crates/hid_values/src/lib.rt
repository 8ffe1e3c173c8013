//! The commands of `hid` that read reports: their values, streams of them, and the input events
//! that Linux sends for them.
//! Licence: MIT (LICENSE).
#![tactic(auto)]

mod choosing;
mod device_events;
mod event_lines;
mod event_object;
mod raw_lines;
mod record;
mod recording;
mod report_time;
mod value_lines;
mod values;

pub use record::Record;
pub use values::Values;
