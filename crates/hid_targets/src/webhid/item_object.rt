//! An item of a report as WebHID's `HIDReportItem` has it.
use crate::webhid::locals::Locals;
use hid_items::items::Globals;
use hidreport_items::ItemFlags;
use serde::Serialize;

/// The names of the systems of units; what lies behind these is reserved, but for the last nibble.
static SYSTEMS: [&str; 5] = [
    "none",
    "si-linear",
    "si-rotation",
    "english-linear",
    "english-rotation",
];

/// An item of a report.
#[derive(Drop, Serialize)]
pub struct ItemObject<'a> {
    #[serde(flatten)]
    flags: FlagsObject,
    #[serde(flatten)]
    usages: UsagesObject<'a>,
    #[serde(flatten)]
    unit: UnitObject,
    #[serde(flatten)]
    bounds: BoundsObject,
}

#[derive(Drop, Serialize)]
#[serde(rename_all = "camelCase")]
struct FlagsObject {
    is_absolute: bool,
    is_array: bool,
    is_buffered_bytes: bool,
    is_constant: bool,
    is_linear: bool,
    is_range: bool,
    is_volatile: bool,
    has_null: bool,
    has_preferred_state: bool,
    wrap: bool,
}

/// Its usages, and how many elements of how many bits it has.
#[derive(Drop, Serialize)]
#[serde(rename_all = "camelCase")]
struct UsagesObject<'a> {
    #[serde(skip_serializing_if = "Option::is_none")]
    usages: Option<&'a [u32]>,
    #[serde(skip_serializing_if = "Option::is_none")]
    usage_minimum: Option<u32>,
    #[serde(skip_serializing_if = "Option::is_none")]
    usage_maximum: Option<u32>,
    report_size: usize,
    report_count: usize,
}

#[derive(Drop, Serialize)]
#[serde(rename_all = "camelCase")]
struct UnitObject {
    unit_exponent: i8,
    unit_system: &'static str,
    unit_factor_length_exponent: i8,
    unit_factor_mass_exponent: i8,
    unit_factor_time_exponent: i8,
    unit_factor_temperature_exponent: i8,
    unit_factor_current_exponent: i8,
    unit_factor_luminous_intensity_exponent: i8,
}

#[derive(Drop, Serialize)]
#[serde(rename_all = "camelCase")]
struct BoundsObject {
    logical_minimum: i32,
    logical_maximum: i32,
    physical_minimum: i32,
    physical_maximum: i32,
}

/// An item with these flags, under these globals, with these usages.
pub fn item_object<'a>(flags: ItemFlags, globals: &Globals, locals: &'a Locals) -> ItemObject<'a> {
    ItemObject {
        flags: FlagsObject {
            is_absolute: !flags.is_relative,
            is_array: !flags.is_variable,
            is_buffered_bytes: flags.is_buffered_bytes,
            is_constant: flags.is_constant,
            is_linear: !flags.is_nonlinear,
            is_range: locals.range().is_some(),
            is_volatile: flags.is_volatile,
            has_null: flags.has_null_state,
            has_preferred_state: !flags.has_no_preferred_state,
            wrap: flags.wraps,
        },
        usages: usages_object(globals, locals),
        unit: unit_object(globals),
        bounds: BoundsObject {
            logical_minimum: globals.minimum,
            logical_maximum: globals.maximum,
            physical_minimum: globals.physical_minimum,
            physical_maximum: globals.physical_maximum,
        },
    }
}

fn usages_object<'a>(globals: &Globals, locals: &'a Locals) -> UsagesObject<'a> {
    let range = locals.range();
    let shows_usages = range.is_none() || !locals.usages.is_empty();
    UsagesObject {
        usages: if shows_usages {
            Some(&locals.usages)
        } else {
            None
        },
        usage_minimum: range.map(|(start, _end)| start),
        usage_maximum: range.map(|(_start, end)| end),
        report_size: globals.size,
        report_count: globals.count,
    }
}

fn unit_object(globals: &Globals) -> UnitObject {
    let unit = globals.unit;
    UnitObject {
        unit_exponent: globals.exponent,
        unit_system: system_of(unit),
        unit_factor_length_exponent: power_of(unit >> 4),
        unit_factor_mass_exponent: power_of(unit >> 8),
        unit_factor_time_exponent: power_of(unit >> 12),
        unit_factor_temperature_exponent: power_of(unit >> 16),
        unit_factor_current_exponent: power_of(unit >> 20),
        unit_factor_luminous_intensity_exponent: power_of(unit >> 24),
    }
}

/// The name of a unit's system (Section 6.2.2.7).
fn system_of(unit: u32) -> &'static str {
    match unit & 15 {
        15 => "vendor-defined",
        system => SYSTEMS.get(system as usize).copied().unwrap_or("reserved"),
    }
}

/// The power in the low nibble of a number, -8 to 7 (Section 6.2.2.7).
fn power_of(number: u32) -> i8 {
    let nibble = (number & 15) as i8;
    if nibble > 7 { nibble - 16 } else { nibble }
}
