//! Units as the data of items (Section 6.2.2.7).
use crate::members::number_of;
use anyhow::{Result, bail};
use serde_json::Value;

/// The systems of units in the order of their numbers.
static SYSTEMS: [&str; 5] = [
    "none",
    "si-linear",
    "si-rotation",
    "english-linear",
    "english-rotation",
];

/// The number of the first system that is reserved.
pub const RESERVED: i64 = 5;

/// The powers of a unit, from the second nibble on.
pub static FACTORS: [&str; 6] = [
    "unitFactorLengthExponent",
    "unitFactorMassExponent",
    "unitFactorTimeExponent",
    "unitFactorTemperatureExponent",
    "unitFactorCurrentExponent",
    "unitFactorLuminousIntensityExponent",
];

/// The data of an item's Unit.
pub fn unit_of(object: &Value) -> Result<i64> {
    let mut unit = system_of(object)?;
    let mut place = 16i64;
    for name in &FACTORS {
        let power = number_of(object, name, -8, 7)?;
        unit = unit.saturating_add((power & 15).saturating_mul(place));
        place = place.saturating_mul(16);
    }
    Ok(unit)
}

/// The number of an item's system; of those that are reserved the first.
fn system_of(object: &Value) -> Result<i64> {
    let Some(Value::String(name)) = object.get("unitSystem") else {
        bail!("unitSystem is no text");
    };
    let name = name.as_str();
    match name {
        "reserved" => return Ok(RESERVED),
        "vendor-defined" => return Ok(15),
        _ => {}
    }
    for (own, number) in SYSTEMS.iter().zip(0i64..) {
        if *own == name {
            return Ok(number);
        }
    }
    bail!("unitSystem {name} is none that is known")
}

/// The data of an item's Unit Exponent, whose power is a nibble if it is less than 16, else a byte.
pub fn exponent_of(object: &Value) -> Result<i64> {
    let power = number_of(object, "unitExponent", -128, 127)?;
    Ok(match power {
        -8..=7 => power & 15,
        8..=15 => power | 0x100,
        _ => power & 0xff,
    })
}
