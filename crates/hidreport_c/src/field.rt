ghost use Rattle.std.specs.Prelude.{◌≡◌, is_some, pos, unwrap_or};
ghost use Rattle.hidreport.specs.Views.{field_record};
ghost use Rattle.hidreport_c.specs.Field.{as_c, collections_as_c, flags_as_c, nothing_measured, nothing_set, usages_as_c};

use crate::part::Part;
use crate::structs::{
    HidreportCollections, HidreportField, HidreportFlags, HidreportMeasures, HidreportUsages,
};
use hidreport::{
    Collection, Field, FieldAttributes, LogicalMaximum, LogicalMinimum, PhysicalMaximum,
    PhysicalMinimum, Unit, UnitExponent, Usage,
};

/// `kind` of a field with one value.
pub(crate) const VARIABLE: u32 = 0;

/// `kind` of a field with several values, each of which chooses among usages.
pub(crate) const ARRAY: u32 = 1;

/// `kind` of padding.
pub(crate) const CONSTANT: u32 = 2;

impl Part for Field {
    type InC = HidreportField;

    ghost in_c = { λ field. as_c (field_record field) };

    fn in_c(&self) -> HidreportField {
        let bits = self.bits();
        let report_id = self.report_id();
        HidreportField {
            number: u32::from(self.id()),
            kind: kind_of(self),
            first_bit: bits.start,
            end_bit: bits.end,
            value_count: value_count_of(self),
            usages: usages_of(self),
            measures: measures_of(self),
            collections: collections_of(self.collections()),
            flags: flags_of(self),
            has_report_id: report_id.is_some(),
            report_id: match report_id {
                Some(id) => u8::from(id),
                None => 0,
            },
        }
    }
}

fn kind_of(field: &Field) -> u32
    ensures { result ≡ (as_c (field_record field.now)).kind }
{
    match field {
        Field::Variable(_) => VARIABLE,
        Field::Array(_) => ARRAY,
        Field::Constant(_) => CONSTANT,
    }
}

fn value_count_of(field: &Field) -> usize
    ensures { result ≡ (as_c (field_record field.now)).value_count }
{
    match field {
        Field::Variable(_) => 1,
        Field::Array(array) => usize::from(array.report_count),
        Field::Constant(_) => 0,
    }
}

fn usages_of(field: &Field) -> HidreportUsages
    ensures { result ≡ (as_c (field_record field.now)).usages }
{
    match field {
        Field::Variable(variable) => usages_in(&[variable.usage], false),
        Field::Array(array) => usages_in(array.usages(), array.is_usage_range()),
        Field::Constant(_) => usages_in(&[], false),
    }
}

fn usages_in(usages: &[Usage], is_range: bool) -> HidreportUsages
    ensures { result ≡ usages_as_c usages.now is_range }
{
    HidreportUsages {
        count: usages.len(),
        first: usages.first().map_or(0, |usage| u32::from(usage)),
        last: usages.last().map_or(0, |usage| u32::from(usage)),
        is_range,
    }
}

fn measures_of(field: &Field) -> HidreportMeasures
    ensures { result ≡ (as_c (field_record field.now)).measures }
{
    match field {
        Field::Variable(field) => measures(
            (field.logical_minimum, field.logical_maximum),
            (field.physical_minimum, field.physical_maximum),
            (field.unit, field.unit_exponent),
        ),
        Field::Array(field) => measures(
            (field.logical_minimum, field.logical_maximum),
            (field.physical_minimum, field.physical_maximum),
            (field.unit, field.unit_exponent),
        ),
        Field::Constant(_) => nothing_measured(),
    }
}

/// Padding has no data.
pub(crate) fn nothing_measured() -> HidreportMeasures
    ensures { result ≡ nothing_measured }
{
    HidreportMeasures {
        logical_minimum: 0,
        logical_maximum: 0,
        physical_minimum: 0,
        physical_maximum: 0,
        unit: 0,
        unit_exponent: 0,
        has_physical_minimum: false,
        has_physical_maximum: false,
        has_unit: false,
        has_unit_exponent: false,
    }
}

/// Bounds and unit, 0 for what isn't there.
pub(crate) fn measures(
    logical: (LogicalMinimum, LogicalMaximum),
    physical: (Option<PhysicalMinimum>, Option<PhysicalMaximum>),
    unit: (Option<Unit>, Option<UnitExponent>),
) -> HidreportMeasures
    ensures { result ≡ record {
      logical_minimum = logical.0;
      logical_maximum = logical.1;
      physical_minimum = unwrap_or physical.0 (pos 0);
      physical_maximum = unwrap_or physical.1 (pos 0);
      unit = unwrap_or unit.0 0;
      unit_exponent = unwrap_or unit.1 (pos 0);
      has_physical_minimum = is_some physical.0;
      has_physical_maximum = is_some physical.1;
      has_unit = is_some unit.0;
      has_unit_exponent = is_some unit.1;
    } }
{
    HidreportMeasures {
        logical_minimum: i32::from(logical.0),
        logical_maximum: i32::from(logical.1),
        physical_minimum: physical.0.map_or(0, i32::from),
        physical_maximum: physical.1.map_or(0, i32::from),
        unit: unit.0.map_or(0, u32::from),
        unit_exponent: unit.1.map_or(0, i32::from),
        has_physical_minimum: physical.0.is_some(),
        has_physical_maximum: physical.1.is_some(),
        has_unit: unit.0.is_some(),
        has_unit_exponent: unit.1.is_some(),
    }
}

fn flags_of(field: &Field) -> HidreportFlags
    ensures { result ≡ (as_c (field_record field.now)).flags }
{
    match field {
        Field::Variable(variable) => attributes_of(variable),
        Field::Array(array) => attributes_of(array),
        Field::Constant(_) => nothing_set(),
    }
}

/// Nor has it flags.
pub(crate) fn nothing_set() -> HidreportFlags
    ensures { result ≡ nothing_set }
{
    HidreportFlags {
        is_relative: false,
        wraps: false,
        is_nonlinear: false,
        has_no_preferred_state: false,
        has_null_state: false,
        is_buffered_bytes: false,
        is_volatile: false,
    }
}

/// The flags of a field, and whether its value may change by itself, if that is said.
pub(crate) fn attributes_of<F: FieldAttributes>(field: &F) -> HidreportFlags
    ensures { result ≡ flags_as_c (F.attributes field.now) }
{
    HidreportFlags {
        is_relative: field.is_relative(),
        wraps: field.wraps(),
        is_nonlinear: field.is_nonlinear(),
        has_no_preferred_state: field.has_no_preferred_state(),
        has_null_state: field.has_null_state(),
        is_buffered_bytes: field.is_buffered_bytes(),
        is_volatile: field.is_volatile().unwrap_or(false),
    }
}

pub(crate) fn collections_of(collections: &[Collection]) -> HidreportCollections
    ensures { result ≡ collections_as_c collections.now }
{
    HidreportCollections {
        count: collections.len(),
        innermost: collections
            .last()
            .map_or(0, |collection| u32::from(collection.id())),
    }
}
