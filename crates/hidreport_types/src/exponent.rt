//! Powers of ten for units.
ghost use Rattle.std.specs.Prelude.{◌≡◌, ℤ, Some};
ghost use Rattle.std.specs.Fmt.{signed_decimal};
ghost use Rattle.hidreport_types.specs.UnitTable.{exponent_of};

use crate::decimal::write_decimal;
use std::fmt;
use std::marker::Model;

/// The power of ten that a unit is multiplied by (Section 6.2.2.7).
#[derive(Clone, Copy, Debug, PartialEq)]
pub struct UnitExponent(i32);

impl Model for UnitExponent {
    ghost Value = { ℤ };

    ghost view = { λ w. w.0 };

    ghost inverse = { λ n. record { 0 = n } };
}

impl UnitExponent {
    /// The power of ten, from -128 to 127 (Section 6.2.2.7).
    ///
    /// The standard writes a nibble, so 8 to 15 stand for -8 to -1: a device with a newton's
    /// g·cm/s² (unit `0xE111`) sends 5, and one with milliseconds (unit `0x1001`) `0xD`, which is
    /// -3. Of any other number, which real devices send too, it is the low 8 bits, signed.
    pub fn exponent(&self) -> i8
        ensures { result ≡ exponent_of self.now }
    {
        match self.0 {
            nibble @ 0..=7 => nibble as i8,
            nibble @ 8..=15 => (nibble - 16) as i8,
            number => ((number.cast_unsigned() & 0xff) as u8).cast_signed(),
        }
    }
}

impl From<i32> for UnitExponent {
    ghost from_gives = { λ number wrapper. wrapper ≡ number };

    fn from(number: i32) -> UnitExponent {
        UnitExponent(number)
    }
}

impl From<&UnitExponent> for i32 {
    ghost from_gives = { λ wrapper number. number ≡ wrapper.now };

    fn from(unit_exponent: &UnitExponent) -> i32 {
        unit_exponent.0
    }
}

impl From<UnitExponent> for i32 {
    ghost from_gives = { λ wrapper number. number ≡ wrapper };

    fn from(unit_exponent: UnitExponent) -> i32 {
        i32::from(&unit_exponent)
    }
}

/// Writes the number in decimal; a width, a fill or a sign that the format asks for is ignored.
impl fmt::Display for UnitExponent {
    ghost output = { λ wrapper. Some (signed_decimal wrapper) };

    ghost styled_output = { λ wrapper _. Some (signed_decimal wrapper) };

    fn fmt<W: fmt::Write>(&self, f: &mut fmt::Formatter<W>) -> fmt::Result {
        let unit_exponent = self.0;
        write_decimal(f, unit_exponent)
    }
}
