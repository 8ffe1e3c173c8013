//! What the axes of contacts say of themselves.
ghost use Rattle.std.specs.Prelude.{◌≡◌};
ghost use Rattle.hidreport_multitouch.specs.TouchAxes.{azimuth_axis, bounded, last_slot, measured_axis, touch_axis};

use hidreport_linux::{Axis, EventCode, Measures, Place, Role};

/// What the axis of a code that hid-multitouch registers for a usage says of itself, where the
/// device has so many slots: its item's bounds, or those of the code.
#[tactic(auto, unfolding(crate::specs::TouchAxes::touch_axis))]
pub fn touch_axis(code: EventCode, slots: u8, place: &Place, measures: &Measures) -> Axis
    ensures { result ≡ touch_axis code slots place.now measures.now }
{
    match code.number {
        0x2f => bounded(0, last_slot(slots)),
        0x34 => azimuth_axis(measures),
        0x37 => bounded(0, 2),
        0x3b => bounded(0, 1),
        _ => measured_axis(code, place, measures),
    }
}

/// The number of the last of so many slots.
fn last_slot(slots: u8) -> i32
    ensures { result ≡ last_slot slots }
{
    i32::from(slots) - 1
}

/// An axis of an item's bounds, with its resolution.
#[tactic(auto, unfolding(crate::specs::TouchAxes::measured_axis))]
fn measured_axis(code: EventCode, place: &Place, measures: &Measures) -> Axis
    ensures { result ≡ measured_axis code place.now measures.now }
{
    let axis = Axis::of(code, Role::Plain, place, measures);
    Axis {
        minimum: measures.minimum,
        maximum: measures.maximum,
        fuzz: 0,
        flat: 0,
        resolution: axis.resolution,
    }
}

/// An orientation, of a quarter of a turn to both sides.
#[tactic(auto, unfolding(crate::specs::TouchAxes::azimuth_axis))]
fn azimuth_axis(measures: &Measures) -> Axis
    ensures { result ≡ azimuth_axis measures.now }
{
    bounded(measures.maximum.wrapping_neg() / 4, measures.maximum / 4)
}

/// An axis of which only the bounds are said.
fn bounded(minimum: i32, maximum: i32) -> Axis
    ensures { result ≡ bounded minimum maximum }
{
    Axis {
        minimum,
        maximum,
        fuzz: 0,
        flat: 0,
        resolution: 0,
    }
}
