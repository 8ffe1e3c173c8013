//! What `hid` shows as JSON: fields, lines, values, the bytes of reports, and Linux's event codes.
//! Licence: MIT (LICENSE).
#![tactic(auto)]

pub mod field_object;
pub mod line_object;
pub mod linux;
pub mod sample_object;
pub mod value_object;
