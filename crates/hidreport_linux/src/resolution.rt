//! How fine an absolute axis is.
ghost use Rattle.std.specs.Prelude.{◌≡◌};
ghost use Rattle.hidreport_linux.specs.Resolution.{divided, is_angle, is_length, of_angle, of_length, resolution, rounded, span, tens, times, with_powers};

use crate::axis::Measures;

/// The axes that are of lengths, and those that are of angles.
const LENGTHS: [u16; 9] = [0x00, 0x01, 0x02, 0x30, 0x31, 0x35, 0x36, 0x3c, 0x3d];

const ANGLES: [u16; 6] = [0x03, 0x04, 0x05, 0x08, 0x1a, 0x1b];

/// After so many powers of ten no number of 32 bits has any bit left.
const MOST_POWERS: u32 = 33;

/// How far apart two bounds are, in 32 bits.
#[tactic(auto, unfolding(crate::specs::Resolution::span))]
pub(crate) fn span(low: i32, high: i32) -> i32
    ensures { result ≡ span low high }
{
    high.wrapping_sub(low)
}

/// The units for each millimetre or radian; none where the unit, the bounds or their size don't
/// allow one.
#[tactic(auto, unfolding(crate::specs::Resolution::resolution))]
pub(crate) fn resolution(code: u16, measures: &Measures) -> Option<i32>
    ensures { result ≡ resolution code measures.now }
{
    let logical = span(measures.minimum, measures.maximum);
    let physical = span(measures.physical_minimum, measures.physical_maximum);
    if logical <= 0 || physical <= 0 {
        return None;
    }
    if is_length(code) {
        of_length(measures, logical, physical)
    } else if is_angle(code) {
        of_angle(measures, logical, physical)
    } else {
        None
    }
}

#[tactic(auto, unfolding(crate::specs::Resolution::is_length))]
fn is_length(code: u16) -> bool
    ensures { result ≡ is_length code }
{
    LENGTHS.contains(&code)
}

#[tactic(auto, unfolding(crate::specs::Resolution::is_angle))]
fn is_angle(code: u16) -> bool
    ensures { result ≡ is_angle code }
{
    ANGLES.contains(&code)
}

/// That of a length, in centimetres or inches.
#[tactic(auto, unfolding(crate::specs::Resolution::of_length))]
fn of_length(measures: &Measures, logical: i32, physical: i32) -> Option<i32>
    ensures { result ≡ of_length measures.now logical physical }
{
    if measures.unit == 0x11 {
        return divided(logical, physical, measures.exponent.wrapping_add(1));
    }
    if measures.unit != 0x13 {
        return None;
    }
    match times(physical, 254) {
        Some(physical) => divided(logical, physical, measures.exponent.wrapping_add(-1)),
        None => None,
    }
}

/// That of an angle, in radians or degrees.
#[tactic(auto, unfolding(crate::specs::Resolution::of_angle))]
fn of_angle(measures: &Measures, logical: i32, physical: i32) -> Option<i32>
    ensures { result ≡ of_angle measures.now logical physical }
{
    if measures.unit == 0x12 {
        return divided(logical, physical, measures.exponent);
    }
    if measures.unit != 0x14 {
        return None;
    }
    match times(logical, 573) {
        Some(logical) => divided(logical, physical, measures.exponent.wrapping_add(1)),
        None => None,
    }
}

/// A span by what it stands for times a power of ten, rounded to the nearest.
#[tactic(auto, unfolding(crate::specs::Resolution::divided))]
fn divided(logical: i32, physical: i32, exponent: i32) -> Option<i32>
    ensures { result ≡ divided logical physical exponent }
{
    let powers = exponent.unsigned_abs();
    if exponent < 0 {
        match with_powers(logical, powers) {
            Some(logical) => rounded(logical, physical),
            None => None,
        }
    } else {
        match with_powers(physical, powers) {
            Some(physical) => rounded(logical, physical),
            None => None,
        }
    }
}

/// A number times so many tens; none where a product is less than the one before.
#[tactic(auto, using(crate::proofs::ResolutionLemmas::tens_step), unfolding(crate::specs::Resolution::with_powers))]
fn with_powers(number: i32, powers: u32) -> Option<i32>
    ensures { result ≡ with_powers powers number }
{
    let count = powers.min(MOST_POWERS);
    let mut product = number;
    for _power in 0..count {
        match times(product, 10) {
            Some(more) => product = more,
            None => return None,
        }
    }
    Some(product)
}

/// A product of 32 bits, the others cut off; none where it is less than the number.
#[tactic(auto, unfolding(crate::specs::Resolution::times))]
fn times(number: i32, factor: i32) -> Option<i32>
    ensures { result ≡ times number factor }
{
    let product = number.wrapping_mul(factor);
    if product < number {
        None
    } else {
        Some(product)
    }
}

/// A quotient, rounded to the nearest, of 32 bits.
#[tactic(auto, unfolding(crate::specs::Resolution::rounded))]
fn rounded(number: i32, divisor: i32) -> Option<i32>
    ensures { result ≡ rounded number divisor }
{
    if divisor <= 0 {
        return None;
    }
    Some(number.wrapping_add(divisor / 2) / divisor)
}
