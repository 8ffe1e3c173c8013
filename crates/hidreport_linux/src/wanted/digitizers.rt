//! Digitizers: pens, touch screens and pads.
ghost use Rattle.std.specs.Prelude.{◌≡◌, ◌%◌};
ghost use Rattle.hidreport_linux.specs.Events.{digitizer, in_range, listed_or, other, tool_of};

use super::pages::other;
use super::{Role, Wanted};
use crate::code_rows::listed;
use crate::event_code::EventCode;
use crate::place::Place;
use crate::unmapped::Unmapped;

/// What a usage of Digitizers asks for, by its last two digits.
#[tactic(auto, unfolding(crate::specs::Events::digitizer))]
pub(crate) fn digitizer(usage: u32, place: &Place) -> Result<Wanted, Unmapped>
    ensures { result ≡ digitizer (usage % 256) place.now }
{
    let low = usage % 0x100;
    match low {
        0x00 => Err(Unmapped::Ignored),
        0x30 => Wanted::asks(EventCode::absolute(0x18), true, Role::Pressure),
        0x32 => in_range(place),
        0x3b => Err(Unmapped::Battery),
        0x45 => Wanted::asks(EventCode::key(0x14a), true, Role::Eraser),
        _ => listed_or_other(0x000d_0000 + low, place),
    }
}

/// What the table has, or what hid-input doesn't know.
#[tactic(auto, unfolding(crate::specs::Events::listed_or))]
fn listed_or_other(usage: u32, place: &Place) -> Result<Wanted, Unmapped>
    ensures { result ≡ listed_or (other place.now) usage }
{
    match listed(usage) {
        Some(wanted) => Ok(wanted),
        None => other(place),
    }
}

/// In Range: the tool, by the physical collection, and by the application where there is none.
#[tactic(auto, unfolding(crate::specs::Events::in_range))]
fn in_range(place: &Place) -> Result<Wanted, Unmapped>
    ensures { result ≡ in_range place.now }
{
    match place.physical {
        0x000d_0021 => Wanted::own(EventCode::key(0x146)),
        0x000d_0022 => Wanted::own(EventCode::key(0x145)),
        0 => Wanted::shared(EventCode::key(tool_of(place.application))),
        _ => Wanted::own(EventCode::key(0x140)),
    }
}

/// The tool of an application: a finger on a touch screen or pad, else a pen.
fn tool_of(application: u32) -> u16
    ensures { result ≡ tool_of application }
{
    match application {
        0x000d_0004 | 0x000d_0005 => 0x145,
        _ => 0x140,
    }
}
