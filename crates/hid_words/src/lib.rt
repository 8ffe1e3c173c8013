//! Items, fields and units in words, and items from their words.
//! Licence: MIT (LICENSE).
#![tactic(auto)]

mod colour;
mod counted;
mod depth;
mod direction;
mod faults;
mod field_flags;
mod field_numbers;
mod field_words;
mod flag_table;
mod item_reading;
mod item_words;
mod naming;
mod physical;
mod usage_list;

pub use colour::Colour;
pub use counted::plural;
pub use depth::{DEEPEST, add_depth, add_depth_within, add_spaces, indent_of, indent_within};
pub use direction::{direction_named, title_of, word_of};
pub use faults::{fault_offset, fault_words};
pub use field_flags::{FLAG_WORDS, FLAGS, flags_of};
pub use field_numbers::FieldNumbers;
pub use field_words::{
    add_alike_fields, add_array_name, add_bits, add_field, add_how, add_name, add_name_on_page,
};
pub use flag_table::FlagTable;
pub use item_reading::{item_of_words, number_of, plain_number};
pub use item_words::add_item;
pub use naming::{
    CUT, add_collection, add_collection_kind, add_page, add_usage, add_usage_on_page, shortened,
};
pub use physical::{add_measured, measured_value};
