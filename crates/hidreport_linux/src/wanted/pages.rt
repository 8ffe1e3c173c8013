//! What usages ask for, by their page.
ghost use Rattle.std.specs.Prelude.{◌≡◌, Err};
ghost use Rattle.hidreport_linux.specs.Events.{battery_or_other, code, consumer, keyboard, is_ignored, is_key_of_a_byte, is_listed, is_no_key, is_of_battery, listed_or, on_other_page, on_page, other, shared};
ghost use Rattle.hidreport_linux.specs.declared.event_code.EventType.TheVariants.{Key};
ghost use Rattle.hidreport_linux.specs.declared.unmapped.Unmapped.TheVariants.{Ignored};

use super::buttons::button;
use super::desktop::desktop;
use super::digitizers::digitizer;
use super::{Role, Wanted};
use crate::code_rows::listed;
use crate::event_code::EventCode;
use crate::place::Place;
use crate::unmapped::Unmapped;

/// What a usage of a page asks for.
pub(crate) fn wanted_of(page: u32, usage: u32, place: &Place) -> Result<Wanted, Unmapped>
    ensures { result ≡ on_page page usage place.now }
{
    let id = usage % 0x1_0000;
    if page == 0x01 {
        desktop(usage, place)
    } else if page == 0x06 {
        battery_or_other(id == 0x20, place)
    } else if page == 0x07 {
        keyboard(usage)
    } else if page == 0x09 {
        button(id, place)
    } else if page == 0x0c {
        consumer(usage)
    } else if page == 0x0d {
        digitizer(usage, place)
    } else if page == 0x85 {
        battery_or_other(is_of_battery(id), place)
    } else {
        on_other_page(page, usage, place)
    }
}

/// What a usage of any other page asks for.
#[tactic(auto, unfolding(crate::specs::Events::on_other_page))]
fn on_other_page(page: u32, usage: u32, place: &Place) -> Result<Wanted, Unmapped>
    ensures { result ≡ on_other_page page usage place.now }
{
    if is_listed(page) {
        listed_or_ignored(usage)
    } else if is_ignored(page) {
        Err(Unmapped::Ignored)
    } else {
        other(place)
    }
}

/// Whether hid-input knows of a page what the table has.
fn is_listed(page: u32) -> bool
    ensures { result ≡ is_listed page }
{
    page == 0x02
        || page == 0x08
        || page == 0x0b
        || page == 0x0f
        || page == 0x90
        || page == 0xff01
        || page == 0xff7f
}

/// Whether hid-input ignores all of a page.
fn is_ignored(page: u32) -> bool
    ensures { result ≡ is_ignored page }
{
    page == 0x00
        || page == 0xff
        || page == 0xff00
        || page == 0xff09
        || page == 0xff43
        || page == 0xffbc
}

/// Whether a usage of Battery System is of a battery's charge.
fn is_of_battery(id: u32) -> bool
    ensures { result ≡ is_of_battery id }
{
    id == 0x44 || id == 0x65
}

/// What a usage asks for that hid-input doesn't know.
#[tactic(auto, unfolding(crate::specs::Events::other))]
pub(crate) fn other(place: &Place) -> Result<Wanted, Unmapped>
    ensures { result ≡ other place.now }
{
    if place.is_bit {
        Wanted::own(EventCode::key(0x100))
    } else if place.is_relative {
        Wanted::own(EventCode::relative(0x09))
    } else {
        Wanted::own(EventCode::absolute(0x28))
    }
}

/// What the table has, or nothing.
#[tactic(auto, unfolding(crate::specs::Events::listed_or))]
pub(crate) fn listed_or_ignored(usage: u32) -> Result<Wanted, Unmapped>
    ensures { result ≡ listed_or (Err Ignored) usage }
{
    match listed(usage) {
        Some(wanted) => Ok(wanted),
        None => Err(Unmapped::Ignored),
    }
}

/// What the table has, or `KEY_UNKNOWN`.
#[tactic(auto, unfolding(crate::specs::Events::listed_or))]
fn listed_or_unknown(usage: u32) -> Result<Wanted, Unmapped>
    ensures { result ≡ listed_or (shared (code Key 0xf0)) usage }
{
    match listed(usage) {
        Some(wanted) => Ok(wanted),
        None => Wanted::shared(EventCode::key(0xf0)),
    }
}

/// Keyboard/Keypad: no key is below 4, and one above FF doesn't share `KEY_UNKNOWN`.
#[tactic(auto, unfolding(crate::specs::Events::keyboard))]
fn keyboard(usage: u32) -> Result<Wanted, Unmapped>
    ensures { result ≡ keyboard usage }
{
    if is_no_key(usage) {
        Err(Unmapped::Ignored)
    } else if is_key_of_a_byte(usage) {
        listed_or_unknown(usage)
    } else {
        Wanted::own(EventCode::key(0xf0))
    }
}

fn is_no_key(usage: u32) -> bool
    ensures { result ≡ is_no_key usage }
{
    usage / 4 == 0x0001_c000
}

fn is_key_of_a_byte(usage: u32) -> bool
    ensures { result ≡ is_key_of_a_byte usage }
{
    usage / 0x100 == 0x0700
}

/// Consumer: keys, a volume and a wheel.
#[tactic(auto, unfolding(crate::specs::Events::consumer))]
fn consumer(usage: u32) -> Result<Wanted, Unmapped>
    ensures { result ≡ consumer usage }
{
    match usage {
        0x000c_0000 => Err(Unmapped::Ignored),
        0x000c_00e0 => Wanted::asks(EventCode::absolute(0x20), true, Role::Volume),
        0x000c_0238 => Wanted::asks(EventCode::relative(0x0c), false, Role::SideWheel),
        _ => listed_or_unknown(usage),
    }
}

/// What is the battery's, or what hid-input doesn't know.
#[tactic(auto, unfolding(crate::specs::Events::battery_or_other))]
fn battery_or_other(is_battery: bool, place: &Place) -> Result<Wanted, Unmapped>
    ensures { result ≡ battery_or_other is_battery place.now }
{
    if is_battery {
        return Err(Unmapped::Battery);
    }
    other(place)
}
