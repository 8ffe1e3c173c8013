//! One unit with its exponent.
ghost use Rattle.std.specs.Prelude.{◌≡◌, ◌+◌, Some, ◌<◌};
ghost use Rattle.std.specs.Option.{option_map};
ghost use Rattle.std.specs.Fmt.{WritesOnOk, WritesStyledOnOk};
ghost use Rattle.hidreport_types.specs.UnitTable.{unit_number, system_number, exponent_at, exponent_nibble, is_unit};
ghost use Rattle.hidreport_types.specs.UnitText.{units_text, power_text, exponent_text};

use crate::unit_system::UnitSystem;
use std::fmt;

/// A unit of measure with its exponent (Section 6.2.2.7).
///
/// An acceleration in cm/s² is two of them: `Centimeter { exponent: 1 }` and
/// `Seconds { exponent: -2 }`. An exponent that a nibble can hold lies from -8 to 7.
#[derive(Clone, Copy, Debug, PartialEq)]
pub enum Units {
    /// No unit.
    None,
    /// Length in the linear SI system.
    Centimeter { exponent: i8 },
    /// Angle in the SI system of rotation.
    Radians { exponent: i8 },
    /// Length in the linear English system.
    Inch { exponent: i8 },
    /// Angle in the English system of rotation.
    Degrees { exponent: i8 },
    /// Mass in the SI systems.
    Gram { exponent: i8 },
    /// Mass in the English systems.
    Slug { exponent: i8 },
    /// Time in every system.
    Seconds { exponent: i8 },
    /// Temperature in the SI systems.
    Kelvin { exponent: i8 },
    /// Temperature in the English systems.
    Fahrenheit { exponent: i8 },
    /// Current in every system.
    Ampere { exponent: i8 },
    /// Luminous intensity in every system.
    Candela { exponent: i8 },
}

impl Units {
    /// Whether this is a unit, not the lack of one.
    pub(crate) fn is_unit(&self) -> bool
        ensures { result ≡ is_unit self.now }
    {
        !matches!(self, Units::None)
    }
}

/// Writes the name and the exponent as a superscript, such as `s⁻²`; an exponent of 1 isn't
/// written.
///
/// `Units::None`, an exponent of 0 and one outside -8 to 7 write nothing. A width or a fill that
/// the format asks for is ignored.
impl fmt::Display for Units {
    ghost output = { λ units. Some (units_text units) };

    ghost styled_output = { λ units _. Some (units_text units) };

    fn fmt<W: fmt::Write>(&self, f: &mut fmt::Formatter<W>) -> fmt::Result {
        match *self {
            Units::None => Ok(()),
            Units::Centimeter { exponent } => write_powered(f, "cm", exponent),
            Units::Radians { exponent } => write_powered(f, "rad", exponent),
            Units::Inch { exponent } => write_powered(f, "in", exponent),
            Units::Degrees { exponent } => write_powered(f, "deg", exponent),
            Units::Gram { exponent } => write_powered(f, "g", exponent),
            Units::Slug { exponent } => write_powered(f, "slug", exponent),
            Units::Seconds { exponent } => write_powered(f, "s", exponent),
            Units::Kelvin { exponent } => write_powered(f, "K", exponent),
            Units::Fahrenheit { exponent } => write_powered(f, "F", exponent),
            Units::Ampere { exponent } => write_powered(f, "A", exponent),
            Units::Candela { exponent } => write_powered(f, "cd", exponent),
        }
    }
}

/// Writes a name with an exponent; where nothing is written of the exponent, none of the name is.
fn write_powered<W: fmt::Write>(f: &mut fmt::Formatter<W>, name: &str, exponent: i8) -> fmt::Result
    ensures plain { WritesOnOk W.write_str_gives f.old result (power_text name.now exponent) f.new }
    ensures styled { WritesStyledOnOk W.write_str_gives f.old result
        (power_text name.now exponent) f.new }
{
    match superscript(exponent) {
        Some(superscript) => {
            f.write_str(name)?;
            f.write_str(superscript)
        }
        None => Ok(()),
    }
}

/// The text of an exponent, or none where nothing is written of the unit.
fn superscript(exponent: i8) -> Option<&'static str>
    ensures { option_map (λ text. text.now) result ≡ exponent_text exponent }
{
    match exponent {
        -8 => Some("⁻⁸"),
        -7 => Some("⁻⁷"),
        -6 => Some("⁻⁶"),
        -5 => Some("⁻⁵"),
        -4 => Some("⁻⁴"),
        -3 => Some("⁻³"),
        -2 => Some("⁻²"),
        -1 => Some("⁻¹"),
        1 => Some(""),
        2 => Some("²"),
        3 => Some("³"),
        4 => Some("⁴"),
        5 => Some("⁵"),
        6 => Some("⁶"),
        7 => Some("⁷"),
        _ => None,
    }
}

/// The number of this unit alone: its exponent in its place.
///
/// Centimeters, radians, inches and degrees belong to one system and set it, also where their
/// exponent is 0; for the other units the system is the caller's to add. An exponent outside -8
/// to 7 counts as 0.
impl From<Units> for u32 {
    ghost from_gives = { λ units number. number ≡ unit_number units };

    fn from(units: Units) -> u32 {
        match units {
            Units::None => 0,
            Units::Centimeter { exponent } => in_system(UnitSystem::SILinear, exponent),
            Units::Radians { exponent } => in_system(UnitSystem::SIRotation, exponent),
            Units::Inch { exponent } => in_system(UnitSystem::EnglishLinear, exponent),
            Units::Degrees { exponent } => in_system(UnitSystem::EnglishRotation, exponent),
            Units::Gram { exponent } => nibble(exponent) << 8,
            Units::Slug { exponent } => nibble(exponent) << 8,
            Units::Seconds { exponent } => nibble(exponent) << 12,
            Units::Kelvin { exponent } => nibble(exponent) << 16,
            Units::Fahrenheit { exponent } => nibble(exponent) << 16,
            Units::Ampere { exponent } => nibble(exponent) << 20,
            Units::Candela { exponent } => nibble(exponent) << 24,
        }
    }
}

/// A length with the system that it belongs to.
fn in_system(system: UnitSystem, exponent: i8) -> u32
    ensures { result ≡ exponent_at 1 exponent + system_number system }
{
    nibble(exponent) << 4 | u32::from(system)
}

/// The nibble of an exponent, as two's complement.
fn nibble(exponent: i8) -> u32
    ensures value { result ≡ exponent_nibble exponent }
    ensures small { result < 16 }
{
    match exponent {
        0..=7 => exponent as u32,
        -8..=-1 => (exponent + 16) as u32,
        _ => 0,
    }
}
