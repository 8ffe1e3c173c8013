//! Fields side by side that are alike but for their bits.
use hid_words::{add_alike_fields, add_field, flags_of};
use hidreport::{ArrayField, Collection, Field, VariableField};
use std::alloc::AllocError;
use std::ops::Range;

/// A field, and those behind it that are alike: of the same usage, width, bounds, unit, flags and
/// collections.
#[derive(Clone, Copy)]
pub struct AlikeFields<'a> {
    /// The first of them.
    pub first: &'a Field,
    /// Where the last ends.
    end: usize,
    /// How many they are.
    count: usize,
}

impl<'a> AlikeFields<'a> {
    /// A field alone.
    pub fn of(field: &'a Field) -> AlikeFields<'a> {
        AlikeFields {
            first: field,
            end: field.bits().end,
            count: 1,
        }
    }

    /// The same with the next field, where it is alike.
    pub fn with(self, field: &Field) -> Option<AlikeFields<'a>> {
        let (Field::Variable(first), Field::Variable(next)) = (self.first, field) else {
            return None;
        };
        if !are_alike(first, next) {
            return None;
        }
        Some(AlikeFields {
            first: self.first,
            end: next.bits.end,
            count: self.count.saturating_add(1),
        })
    }

    /// How many they are.
    pub fn count(self) -> usize {
        self.count
    }

    /// The bits of all of them.
    pub fn bits(self) -> Range<usize> {
        self.first.bits().start..self.end
    }

    /// Whether others are as many, and alike but for their bits and collections.
    pub fn are_like(self, others: AlikeFields) -> bool {
        self.count == others.count && are_fields_alike(self.first, others.first)
    }

    /// Appends them in one line, without its end.
    pub fn add(self, text: &mut String, indent: usize) -> Result<(), AllocError> {
        match self.first {
            Field::Variable(first) if self.count != 1 => {
                add_alike_fields(text, first, self.end, self.count)
            }
            field => add_field(text, field, indent),
        }
    }
}

/// Whether two fields are the same but for their numbers, where their bits begin, and their
/// collections.
pub fn are_fields_alike(first: &Field, other: &Field) -> bool {
    match (first, other) {
        (Field::Variable(first), Field::Variable(other)) => are_variables_alike(first, other),
        (Field::Array(first), Field::Array(other)) => are_arrays_alike(first, other),
        (Field::Constant(first), Field::Constant(other)) => first.bits.len() == other.bits.len(),
        _ => false,
    }
}

/// Whether two fields are the same but for their numbers and their bits.
fn are_alike(first: &VariableField, next: &VariableField) -> bool {
    are_variables_alike(first, next)
        && have_same_collections(first.collections.as_slice(), next.collections.as_slice())
}

fn are_variables_alike(first: &VariableField, other: &VariableField) -> bool {
    first.bits.len() == other.bits.len()
        && first.usage == other.usage
        && have_same_measures(first, other)
        && flags_of(first) == flags_of(other)
}

/// Whether two arrays are the same in what is shown of them.
fn are_arrays_alike(first: &ArrayField, other: &ArrayField) -> bool {
    first.bits.len() == other.bits.len()
        && first.report_count == other.report_count
        && first.logical_minimum == other.logical_minimum
        && first.logical_maximum == other.logical_maximum
        && flags_of(first) == flags_of(other)
        && first.is_usage_range() == other.is_usage_range()
        && first.usages() == other.usages()
}

/// Whether two fields have the same bounds and unit.
fn have_same_measures(first: &VariableField, next: &VariableField) -> bool {
    first.logical_minimum == next.logical_minimum
        && first.logical_maximum == next.logical_maximum
        && first.physical_minimum == next.physical_minimum
        && first.physical_maximum == next.physical_maximum
        && first.unit == next.unit
        && first.unit_exponent == next.unit_exponent
}

/// Whether two fields lie in the same collections.
fn have_same_collections(first: &[Collection], next: &[Collection]) -> bool {
    let shared = Collection::shared(first, next);
    shared == first.len() && shared == next.len()
}
