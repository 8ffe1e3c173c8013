//! By how many steps the values of a report turn volumes.
ghost use Rattle.std.specs.Prelude.{◌≡◌};
ghost use Rattle.hidreport_events.specs.Readers.{is_volume, steps_kept, steps_left, steps_left_by, steps_of};

use crate::event_field::EventField;
use crate::event_report::{element_values, own_sources};
use crate::source::Source;
use hidreport_linux::Role;

/// The most steps by which the values of a report turn volumes.
pub(crate) const MOST_STEPS: u32 = 4_096;

/// How many steps of volumes are left behind the values of fields; `None` where there are too many.
pub(crate) fn steps_left_by(
    fields: &[EventField],
    sources: &[Source],
    values: &[i32],
) -> Option<u32>
    ensures { result ≡ steps_left_by fields.now sources.now values.now 4096 }
{
    let mut left = MOST_STEPS;
    for field in fields {
        match steps_left(field, sources, values, left) {
            Some(behind) => left = behind,
            None => return None,
        }
    }
    Some(left)
}

/// How many of so many steps are left behind the values of a field.
#[tactic(auto, unfolding(crate::specs::Readers::steps_left))]
fn steps_left(field: &EventField, sources: &[Source], values: &[i32], left: u32) -> Option<u32>
    ensures { result ≡ steps_left field.now sources.now values.now left }
{
    let own = own_sources(field, sources);
    let mut left = left;
    for (index, value) in element_values(field, values).iter().enumerate() {
        let steps = steps_of(field, own, index, *value);
        if steps > left {
            return None;
        }
        left -= steps;
    }
    Some(left)
}

/// By how many steps an element turns a volume.
#[tactic(auto, unfolding(crate::specs::Readers::steps_of))]
fn steps_of(field: &EventField, sources: &[Source], index: usize, value: i32) -> u32
    ensures { result ≡ steps_of field.now sources.now index value }
{
    match sources.get(index).copied() {
        Some(source) if field.is_variable && is_volume(&source) => {
            steps_kept(field.kept_value(value))
        }
        _ => 0,
    }
}

/// Whether a source turns a volume.
#[tactic(auto, unfolding(crate::specs::Readers::is_volume))]
fn is_volume(source: &Source) -> bool
    ensures { result ≡ is_volume source.now }
{
    match source.event {
        Some(event) => matches!(event.role, Role::Volume),
        None => false,
    }
}

/// How many steps a value is that is kept.
#[tactic(auto, unfolding(crate::specs::Readers::steps_kept))]
fn steps_kept(value: Option<i32>) -> u32
    ensures { result ≡ steps_kept value }
{
    match value {
        Some(value) => value.unsigned_abs(),
        None => 0,
    }
}
