//! The command `hid diff`: reports and fields of two descriptors that are paired, and what differs.
//! Licence: MIT (LICENSE).
#![tactic(auto)]

mod changes;
mod diff;
mod item_diff;
mod pairing;
mod report_diff;
mod runs;

pub use diff::Diff;
