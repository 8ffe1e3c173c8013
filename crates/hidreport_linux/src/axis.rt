//! Absolute axes.
ghost use Rattle.std.specs.Prelude.{◌≡◌};
ghost use Rattle.hidreport_linux.specs.Asking.{exponent_of, low_half};
ghost use Rattle.hidreport_linux.specs.AxisNumbers.{flat_of, fuzz_of, trembles};

use crate::event_code::EventCode;
use crate::place::Place;
use crate::resolution::{resolution, span};
use crate::wanted::Role;
use hidreport::{Group, UnitExponent};

/// The numbers of an item that an axis has its own from, as hid-core keeps them: 0 where one wasn't
/// set.
#[derive(Clone, Copy, Debug, PartialEq, Eq)]
pub struct Measures {
    /// The least value.
    pub minimum: i32,

    /// The greatest value.
    pub maximum: i32,

    /// What the least value stands for.
    pub physical_minimum: i32,

    /// What the greatest value stands for.
    pub physical_maximum: i32,

    /// The unit.
    pub unit: u32,

    /// The power of ten of the unit.
    pub exponent: i32,
}

impl Measures {
    ghost use Rattle.std.specs.Prelude.{◌≡◌};
    ghost use Rattle.hidreport_linux.specs.Asking.{are_apart, measures_of};

    /// Whether the bounds of a hat are apart, of which hid-input keeps 16 bits.
    pub(crate) fn are_apart(&self) -> bool
        ensures { result ≡ are_apart self.now }
    {
        low_half(self.minimum) < low_half(self.maximum)
    }

    /// Those of an item.
    pub(crate) fn of(group: &Group) -> Measures
        ensures { result ≡ measures_of group.now }
    {
        Measures {
            minimum: i32::from(group.logical_minimum()),
            maximum: i32::from(group.logical_maximum()),
            physical_minimum: group.physical_minimum().map_or(0, i32::from),
            physical_maximum: group.physical_maximum().map_or(0, i32::from),
            unit: group.unit().map_or(0, u32::from),
            exponent: group.unit_exponent().map_or(0, exponent_of),
        }
    }
}

/// The low 16 bits of a number, with a sign.
fn low_half(number: i32) -> i16
    ensures { result ≡ low_half number }
{
    ((number.cast_unsigned() % 0x1_0000) as u16).cast_signed()
}

/// What an absolute axis says of itself.
#[derive(Clone, Copy, Debug, PartialEq, Eq)]
pub struct Axis {
    /// The least value.
    pub minimum: i32,

    /// The greatest value.
    pub maximum: i32,

    /// By how much a value may tremble.
    pub fuzz: i32,

    /// How far from the middle a value still counts as the middle.
    pub flat: i32,

    /// Units for each millimetre or radian, 0 where it isn't known.
    pub resolution: i32,
}

/// The power of ten that a unit exponent stands for, of four bits or of all.
fn exponent_of(exponent: UnitExponent) -> i32
    ensures { result ≡ exponent_of exponent }
{
    match i32::from(exponent) {
        nibble @ 8..=15 => nibble - 16,
        number => number,
    }
}

impl Axis {
    ghost use Rattle.std.specs.Prelude.{◌≡◌};
    ghost use Rattle.hidreport_linux.specs.AxisNumbers.{axis_by};

    /// That of a code that is an absolute axis: a hat goes from -1 to 1.
    #[tactic(auto, unfolding(crate::specs::AxisNumbers::axis_by))]
    pub fn of(code: EventCode, role: Role, place: &Place, measures: &Measures) -> Axis
        ensures { result ≡ axis_by code role place.now measures.now }
    {
        if role.is_hat() {
            return Axis {
                minimum: -1,
                maximum: 1,
                fuzz: 0,
                flat: 0,
                resolution: 0,
            };
        }
        Axis {
            minimum: measures.minimum,
            maximum: measures.maximum,
            fuzz: fuzz_of(place, measures),
            flat: flat_of(place, measures),
            resolution: resolution(code.number, measures).unwrap_or(0),
        }
    }
}

/// Whether axes tremble: those of a joystick or a gamepad.
#[tactic(auto, unfolding(crate::specs::AxisNumbers::trembles))]
fn trembles(place: &Place) -> bool
    ensures { result ≡ trembles place.now }
{
    place.application == 0x0001_0004 || place.application == 0x0001_0005
}

/// By how much values tremble.
#[tactic(auto, unfolding(crate::specs::AxisNumbers::fuzz_of))]
fn fuzz_of(place: &Place, measures: &Measures) -> i32
    ensures { result ≡ fuzz_of place.now measures.now }
{
    if trembles(place) {
        span(measures.minimum, measures.maximum) >> 8
    } else {
        0
    }
}

/// How far from the middle values count as the middle.
#[tactic(auto, unfolding(crate::specs::AxisNumbers::flat_of))]
fn flat_of(place: &Place, measures: &Measures) -> i32
    ensures { result ≡ flat_of place.now measures.now }
{
    if trembles(place) {
        span(measures.minimum, measures.maximum) >> 4
    } else {
        0
    }
}
