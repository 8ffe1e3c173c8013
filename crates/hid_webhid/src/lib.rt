//! WebHID's `HIDDevice.collections` as JSON, and the descriptor that means the same.
//! Licence: MIT (LICENSE).
#![tactic(auto)]

mod collection;
mod doubt;
mod known;
mod lines;
mod members;
mod placing;
mod report_item;
mod units;
mod writer;

pub use lines::{WebHidLines, is_webhid};
