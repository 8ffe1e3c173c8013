//! Generic Desktop: axes, wheels, hats and keys of the system.
ghost use Rattle.std.specs.Prelude.{◌≡◌, ◌<◌, ◌^◌};
ghost use Rattle.hidreport_linux.specs.Events.{axis, by_row, control, depth, desktop, direction, is_direction, of_device, is_of_pen, is_of_radios, is_start_or_select, is_system_row, own_axis, rarer_control, wheel};

use super::pages::{listed_or_ignored, other};
use super::{Role, Wanted};
use crate::event_code::EventCode;
use crate::place::Place;
use crate::unmapped::Unmapped;

/// What a usage of Generic Desktop asks for.
///
/// Those of 80 to BF go by their last two digits, whatever stands before them, but for 90 to 9F.
#[tactic(auto, unfolding(crate::specs::Events::desktop))]
pub(crate) fn desktop(usage: u32, place: &Place) -> Result<Wanted, Unmapped>
    ensures { result ≡ desktop usage place.now }
{
    let low = usage % 0x100;
    by_row(low / 0x10, low, usage, place)
}

/// The same by the last two digits, and by the first of these.
#[tactic(auto, unfolding(crate::specs::Events::by_row))]
fn by_row(row: u32, low: u32, usage: u32, place: &Place) -> Result<Wanted, Unmapped>
    requires { low < 2 ^ 8 }
    ensures { result ≡ by_row row low usage place.now }
{
    if low == 0x80 {
        other(place)
    } else if is_system_row(row) {
        listed_or_ignored(0x0001_0000 + low)
    } else if row == 0x9 {
        direction(usage, place)
    } else {
        of_device(usage, place)
    }
}

/// What controls of a device ask for, none of which are in a System Control.
#[tactic(auto, unfolding(crate::specs::Events::of_device))]
fn of_device(usage: u32, place: &Place) -> Result<Wanted, Unmapped>
    ensures { result ≡ of_device usage place.now }
{
    if place.application == 0x0001_0080 {
        Err(Unmapped::SystemControl)
    } else {
        control(usage, place)
    }
}

/// Whether the usages whose last two digits begin so are keys of the system.
fn is_system_row(row: u32) -> bool
    ensures { result ≡ is_system_row row }
{
    row == 0x8 || row == 0xa || row == 0xb
}

/// The directions of a D-pad, and Do Not Disturb.
#[tactic(auto, unfolding(crate::specs::Events::direction))]
fn direction(usage: u32, place: &Place) -> Result<Wanted, Unmapped>
    ensures { result ≡ direction usage place.now }
{
    if is_direction(usage) {
        Wanted::asks(EventCode::absolute(0x10), false, Role::Direction)
    } else if usage == 0x0001_009b {
        listed_or_ignored(usage)
    } else {
        other(place)
    }
}

/// Whether it is a direction of a D-pad.
fn is_direction(usage: u32) -> bool
    ensures { result ≡ is_direction usage }
{
    usage / 4 == 0x4024
}

/// The controls of a device.
#[tactic(auto, unfolding(crate::specs::Events::control))]
fn control(usage: u32, place: &Place) -> Result<Wanted, Unmapped>
    ensures { result ≡ control usage place.now }
{
    match usage {
        0x0001_0030 => axis(0, place),
        0x0001_0031 => axis(1, place),
        0x0001_0032 => depth(place),
        0x0001_0033 => axis(3, place),
        0x0001_0034 => axis(4, place),
        0x0001_0035 => axis(5, place),
        0x0001_0036 => own_axis(6, place),
        0x0001_0037 => own_axis(7, place),
        0x0001_0038 => wheel(place),
        0x0001_0039 => Wanted::asks(EventCode::absolute(0x10), false, Role::Hat),
        _ => rarer_control(usage, place),
    }
}

/// The other controls.
#[tactic(auto, unfolding(crate::specs::Events::rarer_control))]
fn rarer_control(usage: u32, place: &Place) -> Result<Wanted, Unmapped>
    ensures { result ≡ rarer_control usage place.now }
{
    if is_start_or_select(usage) {
        listed_or_ignored(usage)
    } else if is_of_radios(usage, place) {
        Wanted::asks(EventCode::key(0xf7), true, Role::Radio)
    } else {
        other(place)
    }
}

/// Whether it is Start or Select of a game pad.
fn is_start_or_select(usage: u32) -> bool
    ensures { result ≡ is_start_or_select usage }
{
    usage == 0x0001_003d || usage == 0x0001_003e
}

/// Whether it is the button of wireless radio controls.
fn is_of_radios(usage: u32, place: &Place) -> bool
    ensures { result ≡ is_of_radios usage place.now }
{
    usage == 0x0001_00c6 && place.application == 0x0001_000c
}

/// An axis, which several usages may have.
fn axis(number: u16, place: &Place) -> Result<Wanted, Unmapped>
    ensures { result ≡ axis number place.now }
{
    if place.is_relative {
        Wanted::own(EventCode::relative(number))
    } else {
        Wanted::shared(EventCode::absolute(number))
    }
}

/// A slider or a dial, which only one usage may have.
fn own_axis(number: u16, place: &Place) -> Result<Wanted, Unmapped>
    ensures { result ≡ own_axis number place.now }
{
    let code = if place.is_relative {
        EventCode::relative(number)
    } else {
        EventCode::absolute(number)
    };
    Wanted::own(code)
}

/// Z, which is the distance of a pen.
fn depth(place: &Place) -> Result<Wanted, Unmapped>
    ensures { result ≡ depth place.now }
{
    if !place.is_relative && is_of_pen(place) {
        return Wanted::shared(EventCode::absolute(0x19));
    }
    axis(2, place)
}

fn is_of_pen(place: &Place) -> bool
    ensures { result ≡ is_of_pen place.now }
{
    place.application == 0x000d_0001
        || place.application == 0x000d_0002
        || place.physical == 0x000d_0002
        || place.physical == 0x000d_0020
        || place.logical == 0x000d_0020
}

/// A wheel, which counts parts of a click where it is relative.
fn wheel(place: &Place) -> Result<Wanted, Unmapped>
    ensures { result ≡ wheel place.now }
{
    if place.is_relative {
        Wanted::asks(EventCode::relative(0x0b), false, Role::Wheel)
    } else {
        Wanted::own(EventCode::absolute(0x08))
    }
}
