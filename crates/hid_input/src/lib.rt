//! Where the program `hid` reads: files, devices and streams, and the options that say how.
//! Licence: MIT (LICENSE).
#![tactic(auto)]

pub mod advice;
pub mod input;
pub mod inputs;
pub mod linux_read;
pub mod parsing;
pub mod reads;
pub mod settings;
pub mod world;
