//! The commands of the program `hidreport`: a descriptor's items, the values of its reports, and
//! the descriptor written anew. Licence: MIT (LICENSE); a port of the Rust crate `hidreport` 0.6.0.
#![tactic(auto)]

pub mod program;
