//! Units of measure.
ghost use Rattle.std.specs.Prelude.{◌≡◌, ◌<◌, ℕ, [], Some, IfOk};
ghost use Rattle.std.specs.Option.{option_map, unwrap_or};
ghost use Rattle.hidreport_types.specs.UnitTable.{nibble, exponent_in, system_of, length_of, mass_of, time_of, temperature_of, current_of, luminosity_of, places_of, units_of, if_any, MakeUp};
ghost use Rattle.hidreport_types.specs.UnitText.{unit_text};

use crate::unit_system::UnitSystem;
use crate::units::Units;
use std::alloc::{AllocError, Global};
use std::fmt;
use std::marker::Model;

/// A unit of measure, as a nibble for the system and one for each exponent (Section 6.2.2.7).
///
/// From the lowest nibble on: system, length, mass, time, temperature, current, luminosity, and
/// one that isn't used. An exponent is a two's complement of 4 bits. So cm/s² is `0xE011`, and a
/// force in newtons, as a device has it with a [`UnitExponent`](crate::UnitExponent) of 5, is
/// g·cm/s², `0xE111`.
#[derive(Clone, Copy, Debug, PartialEq)]
pub struct Unit(u32);

impl Model for Unit {
    ghost Value = { ℕ };

    ghost view = { λ w. w.0 };

    ghost inverse = { λ n. record { 0 = n } };
}

impl Unit {
    /// The units that are set, in the order of their places (Section 6.2.2.7); `None` where none
    /// is.
    ///
    /// For cm/s² (`0xE011`) these are `Centimeter { exponent: 1 }` and `Seconds { exponent: -2 }`.
    /// Where a system is named and the highest nibble is 0, the system's number OR-ed with the
    /// numbers of these units is the number of the unit.
    ///
    /// # Errors
    ///
    /// - `AllocError`: memory for the list is refused.
    pub fn units(&self, alloc: Global) -> Result<Option<Vec<Units>>, AllocError>
        ensures exact { IfOk result (λ units.
            option_map (λ v. v.items) units ≡ if_any (units_of self.now)) }
        ensures law { IfOk result (λ units.
            MakeUp (unwrap_or (option_map (λ v. v.items) units) []) self.now) }
    {
        let units = self.set_units(alloc)?;
        if units.is_empty() {
            return Ok(None);
        }
        Ok(Some(units))
    }

    /// The system of units, by the lowest nibble (Section 6.2.2.7); none for 0 and for 5 to 15.
    ///
    /// For cm/s² (`0xE011`) it is `SILinear`.
    pub fn system(&self) -> UnitSystem
        ensures { result ≡ system_of self.now }
    {
        match self.nibble(0) {
            1 => UnitSystem::SILinear,
            2 => UnitSystem::SIRotation,
            3 => UnitSystem::EnglishLinear,
            4 => UnitSystem::EnglishRotation,
            _ => UnitSystem::None,
        }
    }

    /// The length or the angle, in the unit of the system (Section 6.2.2.7).
    ///
    /// For cm/s² (`0xE011`) it is `Centimeter { exponent: 1 }`. Without an exponent or a system
    /// it is `Units::None`.
    pub fn length(&self) -> Units
        ensures { result ≡ length_of self.now }
    {
        let Some(exponent) = self.exponent(1) else {
            return Units::None;
        };
        match self.system() {
            UnitSystem::None => Units::None,
            UnitSystem::SILinear => Units::Centimeter { exponent },
            UnitSystem::SIRotation => Units::Radians { exponent },
            UnitSystem::EnglishLinear => Units::Inch { exponent },
            UnitSystem::EnglishRotation => Units::Degrees { exponent },
        }
    }

    /// The mass, in the unit of the system (Section 6.2.2.7).
    ///
    /// For a newton's g·cm/s² (`0xE111`) it is `Gram { exponent: 1 }`. Without an exponent or a
    /// system it is `Units::None`.
    pub fn mass(&self) -> Units
        ensures { result ≡ mass_of self.now }
    {
        let Some(exponent) = self.exponent(2) else {
            return Units::None;
        };
        match self.system() {
            UnitSystem::None => Units::None,
            UnitSystem::SILinear | UnitSystem::SIRotation => Units::Gram { exponent },
            UnitSystem::EnglishLinear | UnitSystem::EnglishRotation => Units::Slug { exponent },
        }
    }

    /// The time, in seconds whatever the system (Section 6.2.2.7).
    ///
    /// For cm/s² (`0xE011`) it is `Seconds { exponent: -2 }`. Without an exponent it is
    /// `Units::None`.
    pub fn time(&self) -> Units
        ensures { result ≡ time_of self.now }
    {
        match self.exponent(3) {
            None => Units::None,
            Some(exponent) => Units::Seconds { exponent },
        }
    }

    /// The temperature, in the unit of the system (Section 6.2.2.7).
    ///
    /// For a thermometer's kelvins (`0x0001_0001`) it is `Kelvin { exponent: 1 }`. Without an
    /// exponent or a system it is `Units::None`.
    pub fn temperature(&self) -> Units
        ensures { result ≡ temperature_of self.now }
    {
        let Some(exponent) = self.exponent(4) else {
            return Units::None;
        };
        match self.system() {
            UnitSystem::None => Units::None,
            UnitSystem::SILinear | UnitSystem::SIRotation => Units::Kelvin { exponent },
            UnitSystem::EnglishLinear | UnitSystem::EnglishRotation => {
                Units::Fahrenheit { exponent }
            }
        }
    }

    /// The current, in amperes whatever the system (Section 6.2.2.7).
    ///
    /// For a voltage, cm²·g·s⁻³·A⁻¹ (`0x00F0_D121`), it is `Ampere { exponent: -1 }`. Without an
    /// exponent it is `Units::None`.
    pub fn current(&self) -> Units
        ensures { result ≡ current_of self.now }
    {
        match self.exponent(5) {
            None => Units::None,
            Some(exponent) => Units::Ampere { exponent },
        }
    }

    /// The luminous intensity, in candelas whatever the system (Section 6.2.2.7).
    ///
    /// For a light sensor's candelas (`0x0100_0001`) it is `Candela { exponent: 1 }`. Without an
    /// exponent it is `Units::None`.
    pub fn luminosity(&self) -> Units
        ensures { result ≡ luminosity_of self.now }
    {
        match self.exponent(6) {
            None => Units::None,
            Some(exponent) => Units::Candela { exponent },
        }
    }

    /// The units that are set, in the order of their places.
    fn set_units(&self, alloc: Global) -> Result<Vec<Units>, AllocError>
        ensures { IfOk result (λ units. units.items ≡ units_of self.now) }
    {
        self.places()
            .into_iter()
            .filter(Units::is_unit)
            .collect(alloc)
    }

    /// The units of all six places, also those that aren't set.
    #[tactic(auto, unfolding(crate::specs::UnitTable::places_of))]
    fn places(&self) -> [Units; 6]
        ensures { result ≡ places_of self.now }
    {
        [
            self.length(),
            self.mass(),
            self.time(),
            self.temperature(),
            self.current(),
            self.luminosity(),
        ]
    }

    /// The exponent in a place, or none where its nibble is 0.
    fn exponent(&self, place: u32) -> Option<i8>
        requires { place < 8 }
        ensures { result ≡ exponent_in self.now place }
    {
        let nibble = self.nibble(place) as i8;
        match nibble {
            0 => None,
            1..=7 => Some(nibble),
            _ => Some(nibble - 16),
        }
    }

    /// A nibble, counted from the lowest.
    #[tactic(auto, using(crate::proofs::NibbleLemmas::shifted_nibble))]
    fn nibble(&self, place: u32) -> u8
        requires { place < 8 }
        ensures value { result ≡ nibble self.now place }
        ensures small { result < 16 }
    {
        (self.0 >> (4 * place) & 0xf) as u8
    }
}

/// Writes the units in the order of their places, with nothing between them, such as `cms⁻²` for
/// `0xE011`.
///
/// Where no unit is set it writes nothing. A width or a fill that the format asks for is ignored.
impl fmt::Display for Unit {
    ghost output = { λ unit. Some (unit_text unit) };

    ghost styled_output = { λ unit _. Some (unit_text unit) };

    fn fmt<W: fmt::Write>(&self, f: &mut fmt::Formatter<W>) -> fmt::Result {
        self.length().fmt(f)?;
        self.mass().fmt(f)?;
        self.time().fmt(f)?;
        self.temperature().fmt(f)?;
        self.current().fmt(f)?;
        self.luminosity().fmt(f)
    }
}

impl From<u32> for Unit {
    ghost from_gives = { λ number wrapper. wrapper ≡ number };

    fn from(number: u32) -> Unit {
        Unit(number)
    }
}

impl From<&Unit> for u32 {
    ghost from_gives = { λ wrapper number. number ≡ wrapper.now };

    fn from(unit: &Unit) -> u32 {
        unit.0
    }
}

impl From<Unit> for u32 {
    ghost from_gives = { λ wrapper number. number ≡ wrapper };

    fn from(unit: Unit) -> u32 {
        u32::from(&unit)
    }
}
