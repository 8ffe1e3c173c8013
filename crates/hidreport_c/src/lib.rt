//! The library for programs in C: descriptors described, reports found, read and written.
//! Licence: MIT (LICENSE); a port of the Rust crate `hidreport` 0.6.0.
#![tactic(auto)]

mod alike;
mod answer;
mod blank;
mod change;
mod describe;
mod field;
mod group;
mod insert;
mod item_name;
mod items;
mod listing;
mod listings;
mod message;
mod name;
mod numbered;
mod options;
mod part;
mod prepared;
mod reading;
mod repair;
mod run;
mod scaling;
mod standing;
mod status;
mod structs;
mod value;
mod version;
mod writing;
