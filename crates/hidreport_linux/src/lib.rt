//! Which event codes Linux's hid-input gives the usages of a descriptor.
//!
//! - [`LinuxDevice`], [`LinuxReading`]: a descriptor as Linux reads it; [`LinuxReading::fields`] are
//!   its items with data, [`LinuxReading::usages`] what each names.
//! - [`InputDevices`]: the input devices that Linux makes of a descriptor;
//!   [`InputDevices::begin_field`] goes on to an item, and [`InputDevices::event`] answers the event
//!   of a usage, or why it has none.
//! - [`Wanted`]: the code that a usage asks for, whatever lies before it.
//! - [`EventCode`], [`EventType`]: codes and their names.
//! - [`Axis`]: the bounds and the resolution of an absolute axis.
//!
//! The rules are those of Linux 6.12 for a device of hid-generic, without quirks: of hid-input, and
//! of hid-core for what it reads of a descriptor. Other drivers have rules of their own.
//!
//! Licence: MIT (LICENSE).
#![tactic(auto)]

mod axis;
mod code_rows;
mod code_table;
mod driver;
mod event;
mod event_code;
mod field_devices;
mod input_device;
mod input_devices;
mod item;
mod linux_device;
mod linux_field;
mod name_table;
mod place;
mod reading;
mod resolution;
mod unmapped;
mod wanted;

pub use axis::{Axis, Measures};
pub use driver::Driver;
pub use event::Event;
pub use event_code::{EventCode, EventType};
pub use input_devices::{InputDevices, is_input_application};
pub use item::Item;
pub use linux_device::{LinuxDevice, LinuxRefusal, outline_as_linux};
pub use linux_field::{LinuxCollection, LinuxField, LinuxReport};
pub use place::Place;
pub use reading::LinuxReading;
pub use reading::field_usages::FieldUsages;
pub use reading::placed::{Doubt, Omission, Refusal};
pub use reading::reasons::{DoubtReason, LeftOut, RefusalReason};
pub use unmapped::Unmapped;
pub use wanted::{Role, Wanted};
