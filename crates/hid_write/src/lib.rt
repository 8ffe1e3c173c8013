//! The commands of `hid` that write bytes: descriptors, reports, and recordings as events.
//! Licence: MIT (LICENSE).
#![tactic(auto)]

mod assignment;
mod compile;
mod convert;
mod field_names;
mod lamps;
mod nearest;
mod nearest_words;
mod press;
mod putting;
mod set;
mod uhid;
mod wanted_usage;
mod written;
mod written_flags;

pub use compile::Compile;
pub use convert::Convert;
pub use set::{Set, id_named};
pub use uhid::Uhid;
