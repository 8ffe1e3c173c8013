//! What a field of a report is.
ghost use Rattle.std.specs.Prelude.{◌≡◌, ◌↔◌, IfOk, IsTrue, map};
ghost use Rattle.hidreport_fields.specs.Lookup.{has_usage};
ghost use Rattle.hidreport_fields.specs.Records.{own_id, usages_in};
ghost use Rattle.hidreport_fields.specs.Views.{field_bits, field_collections, field_id, field_record};

mod alike;
pub(crate) mod array_field;
pub(crate) mod bit_number;
pub(crate) mod collection;
pub(crate) mod constant_field;
pub(crate) mod data_item;
pub(crate) mod element_numbers;
pub(crate) mod field_attributes;
pub(crate) mod fraction;
pub(crate) mod insert_error;
pub(crate) mod making;
pub(crate) mod measures;
pub(crate) mod usage;
pub(crate) mod usage_range;
pub(crate) mod value;
pub(crate) mod variable_field;
pub(crate) mod written_bits;

use array_field::ArrayField;
use collection::Collection;
use constant_field::ConstantField;
use hidreport_types::ReportId;
use std::alloc::AllocError;
use std::marker::Model;
use std::ops::Range;
use std::slice;
use usage::Usage;
use variable_field::VariableField;

/// The number of a field, counted from 0 in the order of the descriptor.
#[derive(Clone, Copy, Debug, PartialEq, Eq, Hash, PartialOrd)]
pub struct FieldId(u32);

impl Model for FieldId {
    ghost use Rattle.std.specs.Prelude.{ℕ};

    ghost Value = { ℕ };

    ghost view = { λ f. f.0 };

    ghost inverse = { λ n. record { 0 = n } };
}

/// The id of the field with this number.
pub fn numbered_field(number: u32) -> FieldId
    ensures { result ≡ number }
{
    FieldId(number)
}

impl From<&FieldId> for u32 {
    ghost from_gives = { λ id number. number ≡ id.now };

    fn from(field_id: &FieldId) -> u32 {
        field_id.0
    }
}

impl From<FieldId> for u32 {
    ghost from_gives = { λ id number. number ≡ id };

    fn from(id: FieldId) -> u32 {
        u32::from(&id)
    }
}

/// A field: a part of a report (Section 5.6).
#[derive(Debug, Drop)]
pub enum Field {
    /// One value with a usage of its own (Section 6.2.2.5).
    Variable(VariableField),

    /// Several values, each of which chooses among usages (Section 6.2.2.5).
    Array(ArrayField),

    /// Padding (Section 6.2.2.5).
    Constant(ConstantField),
}

impl Field {
    /// The field's number, counted from 0 in the order of the descriptor.
    pub fn id(&self) -> FieldId
        ensures { result ≡ field_id self.now }
    {
        match self {
            Field::Variable(field) => field.id,
            Field::Array(field) => field.id,
            Field::Constant(field) => field.id,
        }
    }

    /// The field's bits in its report, counted from 0, the byte of its id among them: from the
    /// first up to the one after the last.
    pub fn bits(&self) -> &Range<usize>
        ensures { result.now ≡ field_bits self.now }
    {
        match self {
            Field::Variable(field) => &field.bits,
            Field::Array(field) => &field.bits,
            Field::Constant(field) => &field.bits,
        }
    }

    /// The id that a report's first byte has to be for the field to be read (Section 5.6).
    ///
    /// It is `None` where no id was in force, and for padding, which has no value to read.
    pub fn report_id(&self) -> Option<ReportId>
        ensures { result ≡ own_id (field_record self.now) }
    {
        match self {
            Field::Variable(field) => field.report_id,
            Field::Array(field) => field.report_id,
            Field::Constant(_) => None,
        }
    }

    /// The collections that the field lies in, outermost first (Section 6.2.2.6).
    ///
    /// Padding lies in none, so they are the empty slice there.
    pub fn collections(&self) -> &[Collection]
        ensures { result.now ≡ field_collections self.now }
    {
        match self {
            Field::Variable(field) => field.collections.as_slice(),
            Field::Array(field) => field.collections.as_slice(),
            Field::Constant(_) => &[],
        }
    }

    /// The field's usages, in the order of the descriptor (Section 6.2.2.8): that of a variable
    /// field, those that an array chooses among, and none of padding.
    pub fn usages(&self) -> &[Usage]
        ensures { result.now ≡ usages_in (field_record self.now) }
    {
        match self {
            Field::Variable(field) => slice::from_ref(&field.usage),
            Field::Array(field) => field.usages(),
            Field::Constant(_) => &[],
        }
    }

    /// Whether a usage is one of the field's: that of a variable field, or one that an array
    /// chooses among (Section 6.2.2.8).
    ///
    /// Padding has none.
    pub fn has_usage(&self, usage: Usage) -> bool
        ensures { result ≡ has_usage usage (field_record self.now) }
    {
        self.usages().iter().any(|own| own.usage_page == usage.usage_page
            && own.usage_id == usage.usage_id)
    }

    /// Whether another field is the same in all parts; takes no memory.
    ///
    /// The parts are its kind, number, report id and bits, its usages and whether they are a range,
    /// its count, bounds, unit and flags, and its collections with their ids, kinds and usages.
    pub fn is_alike(&self, other: &Field) -> bool
        ensures { IsTrue result ↔ (field_record self.now ≡ field_record other.now) }
    {
        match self {
            Field::Variable(field) => match other {
                Field::Variable(other) => field.is_alike(other),
                _ => false,
            },
            Field::Array(field) => match other {
                Field::Array(other) => field.is_alike(other),
                _ => false,
            },
            Field::Constant(field) => match other {
                Field::Constant(other) => field.is_alike(other),
                _ => false,
            },
        }
    }

    /// A copy of the field, as the `clone` of its kind makes it.
    ///
    /// # Errors
    ///
    /// - `AllocError`: memory for the usages of an array is refused, or the list of collections,
    ///   which both share, would have 2^63 owners.
    pub fn clone(&self) -> Result<Field, AllocError>
        ensures { IfOk result (λ copy. field_record copy ≡ field_record self.now) }
    {
        match self {
            Field::Variable(field) => Ok(Field::Variable(field.clone()?)),
            Field::Array(field) => Ok(Field::Array(field.clone()?)),
            Field::Constant(field) => Ok(Field::Constant(field.clone())),
        }
    }
}

/// Whether two lists have fields that are alike, in the same order.
pub fn are_alike(left: &[Field], right: &[Field]) -> bool
    ensures { IsTrue result ↔ (map field_record left.now ≡ map field_record right.now) }
{
    if left.len() != right.len() {
        return false;
    }
    for index in 0..left.len() {
        if !left[index].is_alike(&right[index]) {
            return false;
        }
    }
    true
}
