//! The global items that matter, as hid-core keeps them.
ghost use Rattle.std.specs.Prelude.{◌≡◌};
ghost use Rattle.hidreport_linux.specs.CoreKept.{maximum_by};

use crate::axis::Measures;

/// Their numbers, 0 where they are unset.
#[derive(Clone, Copy)]
pub(crate) struct CoreGlobals {
    pub(crate) minimum: i32,
    pub(crate) maximum: i32,
    pub(crate) physical_minimum: i32,
    pub(crate) physical_maximum: i32,
    pub(crate) unit: u32,
    pub(crate) exponent: i32,
    pub(crate) size: u32,
    pub(crate) count: u32,
    pub(crate) id: u32,
    pub(crate) page: u32,
}

impl CoreGlobals {
    ghost use Rattle.std.specs.Prelude.{◌≡◌};
    ghost use Rattle.hidreport_linux.specs.Asking.{exponent_of};
    ghost use Rattle.hidreport_linux.specs.CoreFields.{measures_by};
    ghost use Rattle.hidreport_linux.specs.CoreKept.{are_below, are_widest, no_globals};

    /// Before the first item.
    pub(crate) fn none() -> CoreGlobals
        ensures { result ≡ no_globals }
    {
        CoreGlobals {
            minimum: 0,
            maximum: 0,
            physical_minimum: 0,
            physical_maximum: 0,
            unit: 0,
            exponent: 0,
            size: 0,
            count: 0,
            id: 0,
            page: 0,
        }
    }

    /// A Logical Maximum, which has no sign where the minimum has none.
    pub(crate) fn set_maximum(&mut self, signed: i32, number: u32)
        ensures { self.new ≡ record self.old {
          maximum = maximum_by self.old.minimum signed number;
        } }
    {
        self.maximum = maximum_by(self.minimum, signed, number);
    }

    /// A Physical Maximum, which has no sign where its minimum has none.
    pub(crate) fn set_physical_maximum(&mut self, signed: i32, number: u32)
        ensures { self.new ≡ record self.old {
          physical_maximum = maximum_by self.old.physical_minimum signed number;
        } }
    {
        self.physical_maximum = maximum_by(self.physical_minimum, signed, number);
    }

    /// A Unit Exponent, of four bits or of all.
    pub(crate) fn set_exponent(&mut self, number: i32)
        ensures { self.new ≡ record self.old { exponent = exponent_of number } }
    {
        self.exponent = if 8 <= number && number <= 15 {
            number - 16
        } else {
            number
        };
    }

    /// The numbers that an axis has its own from.
    pub(crate) fn measures(&self) -> Measures
        ensures { result ≡ measures_by self.now }
    {
        Measures {
            minimum: self.minimum,
            maximum: self.maximum,
            physical_minimum: self.physical_minimum,
            physical_maximum: self.physical_maximum,
            unit: self.unit,
            exponent: self.exponent,
        }
    }

    /// Whether the maximum is below the minimum, without a sign where the minimum has none.
    pub(crate) fn are_below(&self) -> bool
        ensures { result ≡ are_below self.now }
    {
        if self.minimum < 0 {
            return self.maximum < self.minimum;
        }
        self.maximum.cast_unsigned() < self.minimum.cast_unsigned()
    }

    /// Whether they are the least and the greatest number of 32 bits with a sign.
    pub(crate) fn are_widest(&self) -> bool
        ensures { result ≡ are_widest self.now }
    {
        self.minimum <= i32::MIN && i32::MAX <= self.maximum
    }
}

/// A maximum, with and without a sign: it has none where the minimum has none.
fn maximum_by(minimum: i32, signed: i32, number: u32) -> i32
    ensures { result ≡ maximum_by minimum signed number }
{
    if minimum < 0 {
        signed
    } else {
        number.cast_signed()
    }
}
