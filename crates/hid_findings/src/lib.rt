//! What `hid check` finds odd in a descriptor: by the standard, by its own reports, and by what Linux
//! and Windows make of it.
//! Licence: MIT (LICENSE).
#![tactic(auto)]

mod check;
mod data_findings;
mod explain;
mod finding;
mod findings;
mod host_findings;
mod local_usages;
mod mistakes;
mod other_usages;
mod report_findings;
mod rule;
mod rule_row;
mod severity;
mod source;
mod windows_items;
mod windows_reading;
mod windows_refusal;

pub use check::Check;
pub use explain::Explain;
pub use host_findings::{HOSTS, Host};
pub use severity::{FAIL_WORDS, Severity};
