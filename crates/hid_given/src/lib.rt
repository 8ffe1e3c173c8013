//! What an input of `hid` holds, and the form that it has.
//! Licence: MIT (LICENSE).
#![tactic(auto)]

mod form;
mod given;

pub use form::{FORM_WORDS, Form, Wanted};
pub use given::{Device, Found, Given, GivenReport, Part};
