//! Items as the program `hid` has them: one after the other, with what is in force at each, and as
//! lines of words or JSON.
//! Licence: MIT (LICENSE).
#![tactic(auto)]

pub mod cut_data;
pub mod item_lines;
pub mod items;
mod moved_usages;
