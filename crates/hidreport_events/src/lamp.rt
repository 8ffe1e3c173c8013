//! The lamps of a device, and the output report that has their values.
ghost use Rattle.std.specs.Prelude.{◌≡◌, IfOk, Some};
ghost use Rattle.hidreport_events.specs.Lamps.{behind_event, behind_events, bytes_with, holds, is_found, IsWritten, lamp_of, place_of, report_for, sets_one, with_lamp_if, with_lamps, with_set, with_set_at, written_behind};

use crate::input_event::InputEvent;
use hidreport_fields::{fits, put_values};
use hidreport_linux::{EventCode, EventType};
use std::alloc::{AllocError, Global};

/// A lamp of an output report.
#[derive(Clone, Copy)]
pub(crate) struct Lamp {
    /// Its number among those of `EV_LED`.
    pub(crate) number: u16,

    /// The id of its report, 0 where it has none.
    pub(crate) id: u32,

    /// How many bits its report has, without its id.
    pub(crate) bits: u32,

    /// Whether an element of its field is its own.
    pub(crate) has_place: bool,

    /// Where that element begins, in bits behind the id.
    pub(crate) first_bit: u32,

    /// How many bits it has.
    pub(crate) size: u32,

    /// Whether it can be below 0.
    pub(crate) is_signed: bool,

    /// The value that it was set to.
    pub(crate) value: i32,
}

impl Lamp {
    ghost use Rattle.std.specs.Prelude.{◌≡◌};
    ghost use Rattle.hidreport_events.specs.Lamps.{lies_in, takes, with_lamp, with_value};

    /// The lamp with a value, if it takes it.
    #[tactic(auto, unfolding(crate::specs::Lamps::with_value))]
    fn with_value(self, value: i32) -> Lamp
        ensures { result ≡ with_value value self }
    {
        if self.takes(value) {
            Lamp { value, ..self }
        } else {
            self
        }
    }

    /// Whether it takes a value: it has a place, whose bits hold the value, if it has a sign.
    #[tactic(auto, unfolding(crate::specs::Lamps::takes))]
    fn takes(self, value: i32) -> bool
        ensures { result ≡ takes self value }
    {
        self.has_place && (!self.is_signed || holds(self.size, value))
    }

    /// Puts its value in its place.
    #[tactic(auto, unfolding(crate::specs::Lamps::with_lamp, crate::specs::Lamps::lies_in))]
    fn put(self, bytes: &mut [u8])
        ensures { bytes.new ≡ with_lamp self bytes.old }
    {
        if self.lies_in(bytes) {
            let first = self.first_bit as usize;
            let width = self.size.min(32) as usize;
            put_values(bytes, first, width, &[i64::from(self.value)]);
        }
    }

    /// Whether its place is one of these bytes.
    #[tactic(auto, unfolding(crate::specs::Lamps::lies_in))]
    fn lies_in(self, bytes: &[u8]) -> bool
        ensures { result ≡ lies_in self bytes.now }
    {
        let end = self.first_bit as usize + self.size.min(32) as usize;
        self.has_place && self.size > 0 && end.div_ceil(8) <= bytes.len()
    }
}

/// Whether so many bits hold a value with a sign.
#[tactic(auto, unfolding(crate::specs::Lamps::holds))]
fn holds(size: u32, value: i32) -> bool
    ensures { result ≡ holds size value }
{
    if size == 0 {
        return value == 0;
    }
    size >= 32 || fits(size as usize, true, i64::from(value))
}

/// The number of the lamp that an event lights or puts out, if it does.
fn lamp_of(event: &InputEvent) -> Option<u16>
    ensures { result ≡ lamp_of event.now.code }
{
    match event.code {
        Some(
            EventCode {
                event_type: EventType::Led,
                number,
            },
        ) => Some(number),
        _ => None,
    }
}

/// Sets the lamps of events that were handed on.
pub(crate) fn take_events(lamps: &mut [Lamp], events: &[InputEvent])
    ensures { lamps.new ≡ behind_events events.now lamps.old }
{
    for event in events {
        take_event(lamps, event);
    }
}

/// Sets the lamp of an event, if it has one.
#[tactic(auto, unfolding(crate::specs::Lamps::behind_event))]
fn take_event(lamps: &mut [Lamp], event: &InputEvent)
    ensures { lamps.new ≡ behind_event event.now lamps.old }
{
    if let Some(number) = lamp_of(event) {
        set(lamps, number, event.value);
    }
}

/// Sets the first lamp with a number.
fn set(lamps: &mut [Lamp], number: u16, value: i32)
    ensures { lamps.new ≡ with_set number value lamps.old }
{
    if let Some(place) = place_of(number, lamps) {
        set_at(lamps, place, value);
    }
}

/// Sets the lamp at a place, if there is one.
fn set_at(lamps: &mut [Lamp], place: usize, value: i32)
    ensures { lamps.new ≡ with_set_at (Some place) value lamps.old }
{
    if place < lamps.len() {
        lamps[place] = lamps[place].with_value(value);
    }
}

/// Where the first lamp with a number stands.
fn place_of(number: u16, lamps: &[Lamp]) -> Option<usize>
    ensures { result ≡ place_of number lamps.now }
{
    for (place, lamp) in lamps.iter().enumerate() {
        if lamp.number == number {
            return Some(place);
        }
    }
    None
}

/// What is written to the device behind events that were handed on: the report of the first lamp,
/// whichever was set; none where no lamp was.
pub(crate) fn written_behind(
    alloc: Global,
    events: &[InputEvent],
    lamps: &[Lamp],
) -> Result<Option<Vec<u8>>, AllocError>
    ensures { IfOk result (λ bytes. IsWritten (written_behind events.now lamps.now) bytes) }
{
    if !sets_one(events, lamps) {
        return Ok(None);
    }
    report_for(alloc, lamps)
}

/// Whether one of the events lights one of the lamps or puts it out.
fn sets_one(events: &[InputEvent], lamps: &[Lamp]) -> bool
    ensures { result ≡ sets_one events.now lamps.now }
{
    for event in events {
        if sets(event, lamps) {
            return true;
        }
    }
    false
}

/// Whether an event lights one of the lamps or puts it out.
fn sets(event: &InputEvent, lamps: &[Lamp]) -> bool
    ensures { result ≡ is_found (lamp_of event.now.code) lamps.now }
{
    match lamp_of(event) {
        Some(number) => place_of(number, lamps).is_some(),
        None => false,
    }
}

/// The report of the first lamp, with the values of all that it has.
fn report_for(alloc: Global, lamps: &[Lamp]) -> Result<Option<Vec<u8>>, AllocError>
    ensures { IfOk result (λ bytes. IsWritten (report_for lamps.now) bytes) }
{
    let Some(first) = lamps.first() else {
        return Ok(None);
    };
    let bytes = bytes_with(alloc, first.id, first.bits, lamps)?;
    Ok(Some(bytes))
}

/// The bytes of a report with so many bits, all 0 but for the lamps, and its id before them.
#[tactic(auto, unfolding(crate::specs::Lamps::bytes_with))]
fn bytes_with(alloc: Global, id: u32, bits: u32, lamps: &[Lamp]) -> Result<Vec<u8>, AllocError>
    ensures { IfOk result (λ bytes. bytes.items ≡ bytes_with id bits lamps.now) }
{
    let mut values = vec![in alloc; 0; bits.div_ceil(8) as usize]?;
    put_lamps(&mut values, id, lamps);
    if id == 0 {
        return Ok(values);
    }
    let mut bytes = Vec::new(alloc);
    bytes.push((id % 0x100) as u8)?;
    bytes.extend_from_slice(&values)?;
    Ok(bytes)
}

/// Puts the values of the lamps of a report in their places.
fn put_lamps(bytes: &mut [u8], id: u32, lamps: &[Lamp])
    ensures { bytes.new ≡ with_lamps id lamps.now bytes.old }
{
    for lamp in lamps {
        put_if_own(bytes, id, lamp);
    }
}

/// Puts the value of a lamp in its place, if it is of the report with an id.
#[tactic(auto, unfolding(crate::specs::Lamps::with_lamp_if))]
fn put_if_own(bytes: &mut [u8], id: u32, lamp: &Lamp)
    ensures { bytes.new ≡ with_lamp_if id lamp.now bytes.old }
{
    if lamp.id == id {
        lamp.put(bytes);
    }
}
