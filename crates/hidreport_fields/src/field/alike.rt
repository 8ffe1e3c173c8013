//! Whether fields are the same in all parts.
ghost use Rattle.std.specs.Prelude.{◌≡◌, ◌↔◌, IsTrue};
ghost use Rattle.hidreport_fields.specs.Views.{array_attributes, array_measures, array_place, array_record, constant_record, variable_attributes, variable_measures, variable_place, variable_record};

use crate::field::array_field::ArrayField;
use crate::field::collection::Collection;
use crate::field::constant_field::ConstantField;
use crate::field::measures::Measures;
use crate::field::usage::are_same;
use crate::field::variable_field::VariableField;

impl VariableField {
    /// Whether another field is the same in all parts: its number, report id and bits, its usage,
    /// bounds, unit and flags, and its collections with their ids, kinds and usages. It takes no
    /// memory.
    pub fn is_alike(&self, other: &VariableField) -> bool
        ensures { IsTrue result ↔ (variable_record self.now ≡ variable_record other.now) }
    {
        self.is_placed_as(other) && self.usage == other.usage && self.has_attributes_of(other)
    }

    /// Whether another field has the same number, report id and bits.
    fn is_placed_as(&self, other: &VariableField) -> bool
        ensures { IsTrue result ↔ (variable_place self.now ≡ variable_place other.now) }
    {
        self.id == other.id && self.report_id == other.report_id && self.bits == other.bits
    }

    /// Whether another field has the same bounds, unit, flags and collections.
    fn has_attributes_of(&self, other: &VariableField) -> bool
        ensures { IsTrue result ↔ (variable_attributes self.now ≡ variable_attributes other.now) }
    {
        self.item.is_alike(&other.item)
            && self.measures().is_alike(&other.measures())
            && Collection::are_alike(self.collections.as_slice(), other.collections.as_slice())
    }

    /// The numbers that the field has from global items.
    fn measures(&self) -> Measures
        ensures { result ≡ variable_measures self.now }
    {
        Measures::of(
            (self.logical_minimum, self.logical_maximum),
            (self.physical_minimum, self.physical_maximum),
            (self.unit, self.unit_exponent),
        )
    }
}

impl ArrayField {
    /// Whether another field is the same in all parts: its number, report id and bits, its usages
    /// and whether they are a range, its count, bounds, unit and flags, and its collections with
    /// their ids, kinds and usages. It takes no memory.
    pub fn is_alike(&self, other: &ArrayField) -> bool
        ensures { IsTrue result ↔ (array_record self.now ≡ array_record other.now) }
    {
        self.is_placed_as(other) && self.chooses_as(other) && self.has_attributes_of(other)
    }

    /// Whether another field has the same number, report id and bits.
    fn is_placed_as(&self, other: &ArrayField) -> bool
        ensures { IsTrue result ↔ (array_place self.now ≡ array_place other.now) }
    {
        self.id == other.id && self.report_id == other.report_id && self.bits == other.bits
    }

    /// Whether another field has as many values that choose among the same usages.
    fn chooses_as(&self, other: &ArrayField) -> bool
        ensures { IsTrue result ↔ ((self.now.usages.items ≡ other.now.usages.items)
            × (self.now.is_usage_range ≡ other.now.is_usage_range)
            × (self.now.report_count ≡ other.now.report_count)) }
    {
        are_same(self.usages.as_slice(), other.usages.as_slice())
            && self.is_usage_range == other.is_usage_range
            && self.report_count == other.report_count
    }

    /// Whether another field has the same bounds, unit, flags and collections.
    fn has_attributes_of(&self, other: &ArrayField) -> bool
        ensures { IsTrue result ↔ (array_attributes self.now ≡ array_attributes other.now) }
    {
        self.item.is_alike(&other.item)
            && self.measures().is_alike(&other.measures())
            && Collection::are_alike(self.collections.as_slice(), other.collections.as_slice())
    }

    /// The numbers that the field has from global items.
    fn measures(&self) -> Measures
        ensures { result ≡ array_measures self.now }
    {
        Measures::of(
            (self.logical_minimum, self.logical_maximum),
            (self.physical_minimum, self.physical_maximum),
            (self.unit, self.unit_exponent),
        )
    }
}

impl ConstantField {
    /// Whether another field is the same in all parts: its number, report id and bits. It takes no
    /// memory.
    pub fn is_alike(&self, other: &ConstantField) -> bool
        ensures { IsTrue result ↔ (constant_record self.now ≡ constant_record other.now) }
    {
        self.id == other.id && self.report_id == other.report_id && self.bits == other.bits
    }
}
