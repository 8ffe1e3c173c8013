//! Buttons: their codes go by the device that they are of.
ghost use Rattle.std.specs.Prelude.{◌≡◌, ◌<◌, ◌^◌};
ghost use Rattle.hidreport_linux.specs.Buttons.{
  button_code,
  first_by_physical,
  macro_code,
  stick_code,
};
ghost use Rattle.hidreport_linux.specs.Events.{button};

use super::Wanted;
use crate::event_code::EventCode;
use crate::place::Place;
use crate::unmapped::Unmapped;

/// The last code of a key or button.
const LAST_KEY: u32 = 0x2ff;

/// A button, counted from 1; button 0 would be the last of all.
#[tactic(auto, unfolding(crate::specs::Events::button))]
pub(crate) fn button(id: u32, place: &Place) -> Result<Wanted, Unmapped>
    ensures { result ≡ button id place.now }
{
    if id == 0 || id > 0xffff {
        return Err(Unmapped::PastCodes);
    }
    let code = button_code(id - 1, place);
    if code > LAST_KEY {
        return Err(Unmapped::PastCodes);
    }
    Wanted::own(EventCode::key(code as u16))
}

/// The code of a button, counted from 0: by the application, else by the physical collection.
fn button_code(number: u32, place: &Place) -> u32
    requires { number < 2 ^ 16 }
    ensures { result ≡ button_code number place.now }
{
    match place.application {
        0x0001_0001 | 0x0001_0002 => number + 0x110,
        0x0001_0004 => stick_code(number, 0x120),
        0x0001_0005 => stick_code(number, 0x130),
        0x000c_0001 if place.has_macros => macro_code(number),
        _ => number + first_by_physical(place.physical),
    }
}

/// Of a joystick or gamepad: from a code on for sixteen, then `BTN_TRIGGER_HAPPY1` and so on.
fn stick_code(number: u32, first: u32) -> u32
    requires number { number < 2 ^ 16 }
    requires first { first < 2 ^ 16 }
    ensures { result ≡ stick_code number first }
{
    if number < 0x10 {
        number + first
    } else {
        number - 0x10 + 0x2c0
    }
}

/// Of programmable buttons: `KEY_MACRO1` to `KEY_MACRO30`, then `BTN_TRIGGER_HAPPY1` and so on.
fn macro_code(number: u32) -> u32
    requires { number < 2 ^ 16 }
    ensures { result ≡ macro_code number }
{
    if number < 0x1e {
        number + 0x290
    } else {
        number - 0x1e + 0x2c0
    }
}

/// The code of the first button by the physical collection.
fn first_by_physical(physical: u32) -> u32
    ensures { result ≡ first_by_physical physical }
{
    match physical {
        0x0001_0001 | 0x0001_0002 => 0x110,
        0x0001_0004 => 0x120,
        0x0001_0005 => 0x130,
        _ => 0x100,
    }
}
