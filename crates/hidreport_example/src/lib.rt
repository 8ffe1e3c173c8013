//! The library as a caller uses it, who names `hidreport`, and `hidreport_fields` for its
//! numbers.
//! Licence: MIT (LICENSE); a port of the Rust crate `hidreport` 0.6.0.
#![tactic(auto)]

pub mod fields;
pub mod generic;
pub mod laws;
pub mod limits;
pub mod own_types;
pub mod plain;
pub mod rewriting;
pub mod values;
pub mod whole_reports;
