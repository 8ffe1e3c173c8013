//! Systems of units.
ghost use Rattle.std.specs.Prelude.{◌≡◌};
ghost use Rattle.hidreport_types.specs.UnitTable.{system_number};

/// The system that a unit's length, mass and temperature are measured in (Section 6.2.2.7).
///
/// It is the lowest nibble of a [`Unit`](crate::Unit): an acceleration in cm/s² is `0xE011`, so
/// its system is `SILinear`.
#[derive(Clone, Copy, Debug)]
pub enum UnitSystem {
    /// No system: nothing is said of lengths, masses and temperatures.
    None,
    /// Centimeters, grams and kelvins.
    SILinear,
    /// Radians, grams and kelvins.
    SIRotation,
    /// Inches, slugs and degrees Fahrenheit.
    EnglishLinear,
    /// Degrees of an angle, slugs and degrees Fahrenheit.
    EnglishRotation,
}

/// The nibble of the system: 0 to 4, in the order of the variants.
impl From<UnitSystem> for u32 {
    ghost from_gives = { λ system number. number ≡ system_number system };

    fn from(system: UnitSystem) -> u32 {
        match system {
            UnitSystem::None => 0,
            UnitSystem::SILinear => 1,
            UnitSystem::SIRotation => 2,
            UnitSystem::EnglishLinear => 3,
            UnitSystem::EnglishRotation => 4,
        }
    }
}
