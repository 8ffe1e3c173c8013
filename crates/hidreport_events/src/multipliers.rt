//! The Resolution Multipliers of a device, by which its wheels turn finer.
ghost use Rattle.std.specs.Prelude.{◌≡◌};

use crate::event_field::low_half;
use hidreport::Direction;
use hidreport_linux::{LinuxField, LinuxReading, Measures};
use std::alloc::{AllocError, Global};

/// The usage Resolution Multiplier.
const MULTIPLIER: u32 = 0x0001_0048;

/// What a multiplier does: which of all it is, from 1 on, and how many steps make a click.
#[derive(Clone, Copy)]
struct Effect {
    order: usize,
    steps: i32,
}

/// Where there is none.
const NONE: Effect = Effect { order: 0, steps: 1 };

/// What the multipliers do: those that are bound to a logical collection, and the last that isn't.
///
/// hid-input sets each to its greatest value, which is assumed to be taken by the device.
#[derive(Drop)]
pub(crate) struct Multipliers {
    bound: Vec<Effect>,
    everywhere: Effect,
}

impl Multipliers {
    /// Those of the feature reports among the fields of a device.
    pub(crate) fn of(
        alloc: Global,
        reading: &LinuxReading,
        fields: &[LinuxField],
    ) -> Result<Multipliers, AllocError> {
        let mut bound = Vec::new(alloc);
        for _collection in reading.collections() {
            bound.push(NONE)?;
        }
        let mut multipliers = Multipliers {
            bound,
            everywhere: NONE,
        };
        for (index, field) in fields.iter().enumerate() {
            multipliers.add(index, reading, field);
        }
        Ok(multipliers)
    }

    /// Adds what a field does, if it is a multiplier.
    fn add(&mut self, index: usize, reading: &LinuxReading, field: &LinuxField) {
        if field.is_past || field.count == 0 || !is_multiplier(reading, field) {
            return;
        }
        let effect = Effect {
            order: index.saturating_add(1),
            steps: steps_of(reading, field),
        };
        match logical_around(reading, field.collection) {
            Some(collection) => {
                if let Some(one) = self.bound.get_mut(collection) {
                    *one = effect;
                }
            }
            None => self.everywhere = effect,
        }
    }

    /// How many steps of the wheels in a collection make one click.
    pub(crate) fn steps_in(&self, reading: &LinuxReading, collection: usize) -> i32 {
        let mut last = self.everywhere;
        let mut collection = collection;
        for _level in 0..reading.collections().len() {
            let Some(parent) = parent_of(reading, collection) else {
                break;
            };
            last = later(last, self.bound.get(collection).copied().unwrap_or(NONE));
            collection = parent;
        }
        last.steps
    }
}

/// The later of two.
fn later(one: Effect, other: Effect) -> Effect {
    if other.order > one.order { other } else { one }
}

/// The collection that a collection lies in.
fn parent_of(reading: &LinuxReading, collection: usize) -> Option<usize> {
    match reading.collections().get(collection) {
        Some(one) => one.parent,
        None => None,
    }
}

/// The innermost logical collection around, from this one on.
fn logical_around(reading: &LinuxReading, collection: usize) -> Option<usize> {
    let mut collection = collection;
    for _level in 0..reading.collections().len() {
        let one = reading.collections().get(collection)?;
        if one.is_logical {
            return Some(collection);
        }
        collection = one.parent?;
    }
    None
}

/// Whether a field of a feature report names a multiplier.
fn is_multiplier(reading: &LinuxReading, field: &LinuxField) -> bool {
    matches!(field.report.direction, Direction::Feature)
        && reading
            .usages(field)
            .any(|usage| u32::from(usage) == MULTIPLIER)
}

/// How many steps make a click by a field, in 8 bits: by what its value means, which is 0 where the
/// field isn't a lone multiplier.
fn steps_of(reading: &LinuxReading, field: &LinuxField) -> i32 {
    let first = reading.usages(field).next().map_or(0, u32::from);
    let value = if field.count == 1 && first == MULTIPLIER {
        field.measures.maximum
    } else {
        0
    };
    match meant_by(&field.measures, value) {
        0 => 1,
        steps @ -255..=255 => low_byte(steps),
        _ => 1,
    }
}

/// What a value means by the physical bounds, in 32 bits.
fn meant_by(measures: &Measures, value: i32) -> i32 {
    let logical = measures.maximum.wrapping_sub(measures.minimum);
    let physical = measures
        .physical_maximum
        .wrapping_sub(measures.physical_minimum);
    let above = value.wrapping_sub(measures.minimum);
    let parts = match logical {
        0 => return 1,
        -1 => above.wrapping_neg(),
        logical => above / logical,
    };
    parts
        .wrapping_mul(physical)
        .wrapping_add(measures.physical_minimum)
}

/// The low 8 bits of a number, with a sign.
fn low_byte(number: i32) -> i32 {
    i32::from(low_half(number.wrapping_mul(0x100))) >> 8
}
