//! The command `hid struct`: source of a program that reads and writes a descriptor's reports.
//! Licence: MIT (LICENSE).
#![tactic(auto)]

mod c;
mod identifier;
mod javascript;
mod language;
mod member;
mod member_names;
mod part;
mod python;
mod remark;
mod report_struct;
mod rust;
mod source;

pub use language::{LANGUAGES, Language};
pub use source::Struct;
