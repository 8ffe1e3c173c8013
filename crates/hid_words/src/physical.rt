//! Numbers in physical units (Section 6.2.2.7).
use hidreport::types::UnitSystem;
use hidreport::{Fraction, Unit, UnitExponent, VariableField};
use hidreport_usages::holds_value;
use std::alloc::{AllocError, Global};
use std::fmt::Write;

/// How many digits behind the point are looked at, and how many are shown where there are more.
const PLACES: usize = 12;

const SHOWN: usize = 6;

/// How many times a number is taken tenfold at the most, for its first digit.
const MOST_POWER: u32 = 60;

/// What a unit measures, by its system; no text where it has none of the four that the standard
/// names (Section 6.2.2.7), and where it measures nothing.
pub fn measured(alloc: Global, unit: Unit) -> Result<String, AllocError> {
    match unit.system() {
        UnitSystem::None => Ok(String::new(alloc)),
        _ => unit.to_string(alloc),
    }
}

/// Whether a field's values are amounts of its unit: it has more than one bit, and its usage isn't
/// of a type that is no value. (A unit stands until another one does, so it often stands over
/// switches that it isn't meant for.)
fn is_amount(field: &VariableField) -> bool {
    let width = field.bits.len();
    width > 1 && holds_value(field.usage) != Some(false)
}

/// What a value of the field stands for, in its unit, between its physical bounds, which are the
/// logical ones where they are unset: none where the field has no unit, where its values are no
/// amounts, and where its logical bounds leave no room.
pub fn measured_value(field: &VariableField, value: i64) -> Option<Fraction> {
    if u32::from(field.unit?) == 0 || !is_amount(field) {
        return None;
    }
    scaled(field.physical_value(value)?, field.unit_exponent)
}

/// A number times ten to a power.
fn scaled(fraction: Fraction, exponent: Option<UnitExponent>) -> Option<Fraction> {
    let power = exponent.map_or(0, |it| it.exponent());
    let ten = 10i128.checked_pow(u32::from(power.unsigned_abs()))?;
    let (numerator, denominator) = (fraction.numerator, fraction.denominator);
    if power < 0 {
        return Some(Fraction {
            numerator,
            denominator: denominator.checked_mul(ten)?,
        });
    }
    Some(Fraction {
        numerator: numerator.checked_mul(ten)?,
        denominator,
    })
}

/// Appends a number with its unit.
pub fn add_measured(
    text: &mut String,
    fraction: Fraction,
    unit: Option<Unit>,
) -> Result<(), AllocError> {
    add_fraction(text, fraction)?;
    let Some(unit) = unit else {
        return Ok(());
    };
    let units = measured(*text.allocator(), unit)?;
    if units.is_empty() {
        return Ok(());
    }
    write!(text, " {units}")
}

/// Appends the physical bounds of a field whose values are amounts; where both are 0, they are those
/// of the values, and only the unit is told.
pub fn add_physical_bounds(text: &mut String, field: &VariableField) -> Result<(), AllocError> {
    if !is_amount(field) {
        return Ok(());
    }
    let low = field.physical_minimum.map_or(0, i32::from);
    let high = field.physical_maximum.map_or(0, i32::from);
    if low == 0 && high == 0 {
        return add_unit(text, field.unit, field.unit_exponent);
    }
    let (Some(low), Some(high)) = (
        whole(low, field.unit_exponent),
        whole(high, field.unit_exponent),
    ) else {
        return Ok(());
    };
    text.push_str(", physical ")?;
    add_fraction(text, low)?;
    text.push_str(" to ")?;
    add_measured(text, high, field.unit)
}

/// A whole number times ten to a power.
fn whole(number: i32, exponent: Option<UnitExponent>) -> Option<Fraction> {
    let fraction = Fraction {
        numerator: i128::from(number),
        denominator: 1,
    };
    scaled(fraction, exponent)
}

/// Appends a unit with its power of ten.
fn add_unit(
    text: &mut String,
    unit: Option<Unit>,
    exponent: Option<UnitExponent>,
) -> Result<(), AllocError> {
    let Some(unit) = unit else {
        return Ok(());
    };
    let units = measured(*text.allocator(), unit)?;
    if units.is_empty() {
        return Ok(());
    }
    write!(text, " {units}")?;
    match exponent {
        Some(exponent) if exponent.exponent() != 0 => {
            let power = exponent.exponent();
            write!(text, " * 10^{power}")
        }
        _ => Ok(()),
    }
}

/// Appends a fraction as a decimal number; one that has no end is cut, and `about` says so.
pub fn add_fraction(text: &mut String, fraction: Fraction) -> Result<(), AllocError> {
    let denominator = fraction.denominator.unsigned_abs().max(1);
    let numerator = fraction.numerator.unsigned_abs();
    let whole = numerator / denominator;
    let mut digits = String::new(*text.allocator());
    let is_exact = add_places(&mut digits, numerator % denominator, denominator)?;
    let sign = if fraction.numerator < 0 { "-" } else { "" };
    if is_exact {
        write!(text, "{sign}{whole}")?;
        if digits.is_empty() {
            return Ok(());
        }
        return write!(text, ".{digits}");
    }
    let shown = digits.get(..SHOWN).unwrap_or(digits.as_str());
    if whole == 0 && shown.bytes().all(|digit| digit == b'0') {
        return add_small(text, sign, numerator, denominator);
    }
    write!(text, "about {sign}{whole}.{shown}")
}

/// Appends a fraction that is too small to be shown as a decimal number, as one with a power of ten.
fn add_small(
    text: &mut String,
    sign: &str,
    numerator: u128,
    denominator: u128,
) -> Result<(), AllocError> {
    let (mut scaled, mut power) = (numerator, 0u32);
    for _ in 0..MOST_POWER {
        let Some(more) = scaled.checked_mul(10) else {
            break;
        };
        if denominator <= scaled {
            break;
        }
        scaled = more;
        power = power.saturating_add(1);
    }
    let whole = scaled / denominator.max(1);
    let mut digits = String::new(*text.allocator());
    let is_exact = add_places(&mut digits, scaled % denominator.max(1), denominator)?;
    let about = if is_exact { "" } else { "about " };
    write!(text, "{about}{sign}{whole}")?;
    if !digits.is_empty() {
        let shown = if is_exact {
            digits.as_str()
        } else {
            digits.get(..SHOWN).unwrap_or(digits.as_str())
        };
        write!(text, ".{shown}")?;
    }
    write!(text, " * 10^-{power}")
}

/// Appends the digits of a fraction below 1, and answers whether these are all.
fn add_places(digits: &mut String, rest: u128, denominator: u128) -> Result<bool, AllocError> {
    let mut rest = rest;
    for _ in 0..PLACES {
        if rest == 0 {
            return Ok(true);
        }
        let Some(tenfold) = rest.checked_mul(10) else {
            return Ok(false);
        };
        let digit = tenfold / denominator.max(1);
        rest = tenfold % denominator.max(1);
        write!(digits, "{digit}")?;
    }
    Ok(rest == 0)
}
