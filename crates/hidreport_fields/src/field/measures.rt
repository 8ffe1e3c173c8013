//! The bounds and the unit of fields.
ghost use Rattle.std.specs.Prelude.{◌≡◌, ◌↔◌, IsTrue};
ghost use Rattle.hidreport_fields.specs.Views.{measured};

use hidreport_types::{
    LogicalMaximum, LogicalMinimum, PhysicalMaximum, PhysicalMinimum, Unit, UnitExponent,
};

/// The numbers that fields with data have from global items (Section 6.2.2.7): those of one item
/// have the same.
#[derive(Clone, Copy)]
pub struct Measures {
    /// The least value.
    pub logical_minimum: LogicalMinimum,

    /// The greatest value.
    pub logical_maximum: LogicalMaximum,

    /// What the least value stands for.
    pub physical_minimum: Option<PhysicalMinimum>,

    /// What the greatest value stands for.
    pub physical_maximum: Option<PhysicalMaximum>,

    /// The unit of the physical bounds.
    pub unit: Option<Unit>,

    /// The power of ten of the unit.
    pub unit_exponent: Option<UnitExponent>,
}

impl Measures {
    /// Those of these bounds and this unit with its exponent.
    pub fn of(
        logical: (LogicalMinimum, LogicalMaximum),
        physical: (Option<PhysicalMinimum>, Option<PhysicalMaximum>),
        unit: (Option<Unit>, Option<UnitExponent>),
    ) -> Measures
        ensures { result ≡ measured logical physical unit }
    {
        Measures {
            logical_minimum: logical.0,
            logical_maximum: logical.1,
            physical_minimum: physical.0,
            physical_maximum: physical.1,
            unit: unit.0,
            unit_exponent: unit.1,
        }
    }

    /// Whether others are the same.
    pub(crate) fn is_alike(&self, other: &Measures) -> bool
        ensures { IsTrue result ↔ (self.now ≡ other.now) }
    {
        self.has_logical_bounds_of(other)
            && self.has_physical_bounds_of(other)
            && self.has_unit_of(other)
    }

    /// Whether others have the same logical bounds.
    fn has_logical_bounds_of(&self, other: &Measures) -> bool
        ensures { IsTrue result ↔ ((self.now.logical_minimum ≡ other.now.logical_minimum)
            × (self.now.logical_maximum ≡ other.now.logical_maximum)) }
    {
        self.logical_minimum == other.logical_minimum
            && self.logical_maximum == other.logical_maximum
    }

    /// Whether others have the same physical bounds.
    fn has_physical_bounds_of(&self, other: &Measures) -> bool
        ensures { IsTrue result ↔ ((self.now.physical_minimum ≡ other.now.physical_minimum)
            × (self.now.physical_maximum ≡ other.now.physical_maximum)) }
    {
        self.physical_minimum == other.physical_minimum
            && self.physical_maximum == other.physical_maximum
    }

    /// Whether others have the same unit and exponent.
    fn has_unit_of(&self, other: &Measures) -> bool
        ensures { IsTrue result ↔ ((self.now.unit ≡ other.now.unit)
            × (self.now.unit_exponent ≡ other.now.unit_exponent)) }
    {
        self.unit == other.unit && self.unit_exponent == other.unit_exponent
    }
}
