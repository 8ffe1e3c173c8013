//! The commands of `hid` that show what a descriptor says, and which devices there are.
//! Licence: MIT (LICENSE).
#![tactic(auto)]

mod decode;
mod field_objects;
mod fields;
mod fitting;
mod item_offsets;
mod linux_fields;
mod linux_shown;
mod linux_usages;
mod list;
mod map;

pub use decode::Decode;
pub use fields::Fields;
pub use list::List;
pub use map::Map;
