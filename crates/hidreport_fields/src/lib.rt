//! Fields of reports, and the values that they read and write (Sections 5.6, 5.8 and 6.2.2.5 of the
//! standard, USB HID 1.11).
//!
//! The crate `hidreport` makes fields of a descriptor, and has all public names of this one; what
//! makes fields and collections of their parts is for its parser alone. A crate that converts a
//! usage, an id or a value to a plain number names `hidreport_fields` beside `hidreport`.
//!
//! Licence: MIT (LICENSE); a port of the Rust crate `hidreport` 0.6.0.
#![tactic(auto)]

mod field;

pub use field::array_field::{ArrayField, width_of_elements};
pub use field::bit_number::{number_at, short_word};
pub use field::collection::{
    Collection, CollectionId, CollectionUsages, make_collection, numbered_collection,
};
pub use field::constant_field::ConstantField;
pub use field::data_item::{DataItem, Direction};
pub use field::element_numbers::ElementNumbers;
pub use field::field_attributes::FieldAttributes;
pub use field::fraction::Fraction;
pub use field::insert_error::InsertError;
pub use field::making::{Choices, Place, make_array, make_padding, make_variable};
pub use field::measures::Measures;
pub use field::usage::Usage;
pub use field::usage_range::UsageRange;
pub use field::value::{FieldValue, check_id, read_bits};
pub use field::variable_field::VariableField;
pub use field::written_bits::{all_fit, begins_in_id, fits, put_values};
pub use field::{Field, FieldId, are_alike, numbered_field};
