//! An input device.
ghost use Rattle.std.specs.Prelude.{◌≡◌, ◌<◌, ◌^◌, IsTrue};
ghost use Rattle.hidreport_linux.specs.Axes.{is_absolute, is_axis};
ghost use Rattle.hidreport_linux.specs.Claims.{code_count, first_place, given_if, is_code, place};

use crate::axis::Axis;
use crate::event_code::{EventCode, EventType};
use crate::unmapped::Unmapped;
use crate::wanted::Wanted;

/// How many codes there are of all types.
const CODES: usize = 872;

/// How many axes there are.
const AXES: usize = 64;

/// An input device: the application that it is of, and what its usages have so far.
#[derive(Drop)]
pub(crate) struct InputDevice {
    pub(crate) application: u32,

    /// Whether a usage claims the code at each place.
    claimed: [bool; CODES],

    /// What each axis says of itself.
    axes: [Option<Axis>; AXES],
}

impl InputDevice {
    ghost use Rattle.std.specs.Prelude.{◌≡◌, List, [], None, Some, if◌then◌else◌};
    ghost use Rattle.hidreport_linux.specs.declared.event_code.EventCode.{EventCode};
    ghost use Rattle.hidreport_linux.specs.declared.wanted.Wanted.{Wanted};
    ghost use Rattle.hidreport_linux.specs.Axes.{after_give, axis_of, sets_axis, with_axis};
    ghost use Rattle.hidreport_linux.specs.Claims.{GetsBehind, given_if, has, StandsFor, with_claim, with_claims};

    /// One without codes.
    pub(crate) fn new(application: u32) -> InputDevice
        ensures application { result.application ≡ application }
        ensures empty { StandsFor result [] }
        ensures axes { (code : EventCode) → axis_of code result ≡ None }
    {
        InputDevice {
            application,
            claimed: [false; CODES],
            axes: [None; AXES],
        }
    }

    /// Gives a usage the code that it asks for, which says so of its axis, and claims it with those
    /// beside it.
    ///
    /// # Errors
    ///
    /// - `Taken`: a usage before it claims the code, and it isn't shared.
    /// - `PastCodes`: there is no such code.
    pub(crate) fn give(&mut self, wanted: Wanted, axis: Axis) -> Result<Wanted, Unmapped>
        ensures gets { result ≡ given_if (has self.old wanted.code) wanted }
        ensures sets { self.new ≡ after_give result wanted axis self.old }
        ensures behind { (before : List Wanted) → StandsFor self.old before
            → GetsBehind before wanted result self.new }
        ensures axes { (other : EventCode) → axis_of other self.new
            ≡ (if sets_axis result wanted.code other then Some axis else axis_of other self.old) }
    {
        self.take(wanted, axis)
    }

    /// The same.
    fn take(&mut self, wanted: Wanted, axis: Axis) -> Result<Wanted, Unmapped>
        ensures gets { result ≡ given_if (has self.old wanted.code) wanted }
        ensures sets { self.new ≡ after_give result wanted axis self.old }
    {
        let is_claimed = self.has(wanted.code);
        self.claim(wanted.code);
        self.claim_all(wanted.role.beside());
        let given = given_if(is_claimed, wanted);
        if given.is_ok() {
            self.set_axis(wanted.code, axis);
        }
        given
    }

    /// Whether a usage claims a code.
    pub(crate) fn has(&self, code: EventCode) -> bool
        ensures { result ≡ has self.now code }
    {
        is_code(code) && self.claimed[place(code)]
    }

    /// Claims a code.
    fn claim(&mut self, code: EventCode)
        ensures { self.new ≡ with_claim code self.old }
    {
        if is_code(code) {
            self.claimed[place(code)] = true;
        }
    }

    /// Claims some codes.
    fn claim_all(&mut self, codes: &[EventCode])
        ensures { self.new ≡ with_claims codes.now self.old }
    {
        for code in codes {
            self.claim(*code);
        }
    }

    /// Sets what an axis says of itself.
    fn set_axis(&mut self, code: EventCode, axis: Axis)
        ensures { self.new ≡ with_axis code axis self.old }
    {
        if is_axis(code) {
            self.axes[usize::from(code.number)] = Some(axis);
        }
    }

    /// What the axis of a code says of itself, by the last usage that has it.
    pub(crate) fn axis(&self, code: EventCode) -> Option<Axis>
        ensures { result ≡ axis_of code self.now }
    {
        if is_axis(code) {
            self.axes[usize::from(code.number)]
        } else {
            None
        }
    }
}

/// Whether it is a code of an axis.
fn is_axis(code: EventCode) -> bool
    ensures { result ≡ is_axis code }
{
    is_absolute(code.event_type) && code.number < 0x40
}

fn is_absolute(event_type: EventType) -> bool
    ensures { result ≡ is_absolute event_type }
{
    matches!(event_type, EventType::Absolute)
}

/// What a usage gets, by whether one before it claims the code that it asks for.
fn given_if(is_claimed: bool, wanted: Wanted) -> Result<Wanted, Unmapped>
    ensures { result ≡ given_if is_claimed wanted }
{
    if !is_code(wanted.code) {
        return Err(Unmapped::PastCodes);
    }
    if is_claimed && !wanted.is_shared {
        return Err(Unmapped::Taken);
    }
    Ok(wanted)
}

/// Whether there is such a code.
fn is_code(code: EventCode) -> bool
    ensures { result ≡ is_code code }
{
    code.number < code_count(code.event_type)
}

/// How many codes of a type there are.
fn code_count(event_type: EventType) -> u16
    ensures { result ≡ code_count event_type }
{
    match event_type {
        EventType::Key => 0x300,
        EventType::Relative => 0x10,
        EventType::Absolute => 0x40,
        EventType::Other => 0x08,
        EventType::Led => 0x10,
    }
}

/// The place of a code among those of all types.
fn place(code: EventCode) -> usize
    ensures value { result ≡ place code }
    ensures within { IsTrue (is_code code) → result < 872 }
{
    first_place(code.event_type) + usize::from(code.number)
}

/// The place of the first code of a type.
fn first_place(event_type: EventType) -> usize
    ensures value { result ≡ first_place event_type }
    ensures small { result < 2 ^ 16 }
{
    match event_type {
        EventType::Key => 0,
        EventType::Relative => 768,
        EventType::Absolute => 784,
        EventType::Other => 848,
        EventType::Led => 856,
    }
}
