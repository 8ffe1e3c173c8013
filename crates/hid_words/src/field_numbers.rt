//! The bounds and the unit of a field with values, as numbers.
use hidreport::types::{
    LogicalMaximum, LogicalMinimum, PhysicalMaximum, PhysicalMinimum, Unit, UnitExponent,
};
use hidreport::{ArrayField, VariableField};

/// The numbers that a field has beside its bits and its usages.
#[derive(Clone, Copy)]
pub struct FieldNumbers {
    /// The logical minimum and maximum.
    pub logical: (i32, i32),
    /// The physical ones.
    pub physical: (Option<i32>, Option<i32>),
    /// The unit.
    pub unit: Option<u32>,
    /// The unit's exponent.
    pub exponent: Option<UnitExponent>,
}

impl FieldNumbers {
    /// Those of a field with one value.
    pub fn of_variable(field: &VariableField) -> FieldNumbers {
        FieldNumbers::new(
            (field.logical_minimum, field.logical_maximum),
            (field.physical_minimum, field.physical_maximum),
            (field.unit, field.unit_exponent),
        )
    }

    /// Those of a field with several values.
    pub fn of_array(field: &ArrayField) -> FieldNumbers {
        FieldNumbers::new(
            (field.logical_minimum, field.logical_maximum),
            (field.physical_minimum, field.physical_maximum),
            (field.unit, field.unit_exponent),
        )
    }

    fn new(
        logical: (LogicalMinimum, LogicalMaximum),
        physical: (Option<PhysicalMinimum>, Option<PhysicalMaximum>),
        unit: (Option<Unit>, Option<UnitExponent>),
    ) -> FieldNumbers {
        FieldNumbers {
            logical: (i32::from(logical.0), i32::from(logical.1)),
            physical: (physical.0.map(i32::from), physical.1.map(i32::from)),
            unit: unit.0.map(u32::from),
            exponent: unit.1,
        }
    }
}
