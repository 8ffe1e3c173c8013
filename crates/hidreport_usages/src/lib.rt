//! The names of usages, usage pages, items and flags, and which usages hold values.
//!
//! - [`usage_name`], [`usage_by_name`], [`usage_on_page`]: a usage's name, and the usage of a name.
//! - [`page_name`], [`page_by_name`]: the same of usage pages.
//! - [`item_name`], [`collection_name`], [`system_name`], [`FlagWords`]: the standard's words for
//!   items, kinds of collections, systems of units and flags (USB HID 1.11).
//! - [`holds_value`]: whether a usage is of a type that holds a value.
//!
//! Names are those of the HID Usage Tables 1.5, and match letter for letter; nothing takes memory.
//! It is proved that each answer is that of the tables of this crate, and that on one page a name
//! is unique; that the tables say what the HID Usage Tables say is tested in part
//! ([docs/PROVED.md](../../../docs/PROVED.md)).
//!
//! Licence: MIT (LICENSE); the names of usages are under the licence in data/LICENSE as well.
#![tactic(auto)]

mod family;
mod flag_words;
mod four_digits;
mod item_words;
mod names;
mod page;
mod page_table;
mod tables;
mod type_table;
mod usage;
mod usage_table;
mod usage_type;

pub use flag_words::FlagWords;
pub use item_words::{collection_name, item_name, system_name};
pub use page::{PageName, page_by_name, page_name};
pub use usage::{UsageName, usage_by_name, usage_name, usage_on_page};
pub use usage_type::holds_value;
