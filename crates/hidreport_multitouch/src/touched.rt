//! What hid-multitouch registers.
ghost use Rattle.std.specs.Prelude.{◌≡◌, slice_index_or, slice_set, Bool, true, false};
ghost use Rattle.hidreport_multitouch.specs.Touched.{axis_of, has_code, place_of_other, with_code};

use hidreport_linux::{Axis, EventCode, EventType};

/// How many keys and axes there are, and how many other codes.
const KEYS: usize = 0x300;

const AXES: usize = 0x40;

const OTHERS: usize = 40;

/// The codes that are registered for an input device so far.
#[derive(Drop)]
pub(crate) struct Touched {
    keys: [bool; KEYS],
    axes: [Option<Axis>; AXES],

    /// Of movements, of `EV_MSC` and of lamps.
    others: [bool; OTHERS],
}

impl Touched {
    ghost use Rattle.std.specs.Prelude.{◌≡◌};
    ghost use Rattle.hidreport_multitouch.specs.Fields.{no_codes};
    ghost use Rattle.hidreport_multitouch.specs.Touched.{axis_of, has_code, with_code};

    /// Nothing.
    pub(crate) fn new() -> Touched
        ensures { result ≡ no_codes }
    {
        Touched {
            keys: [false; KEYS],
            axes: [None; AXES],
            others: [false; OTHERS],
        }
    }

    /// Registers a code, whose axis says so of itself, if it is one.
    pub(crate) fn register(&mut self, code: EventCode, axis: Option<Axis>)
        ensures { self.new ≡ with_code code axis self.old }
    {
        let place = usize::from(code.number);
        match code.event_type {
            EventType::Key => set(&mut self.keys, place),
            EventType::Absolute => {
                if place < AXES {
                    self.axes[place] = axis;
                }
            }
            EventType::Relative | EventType::Other | EventType::Led => {
                set(&mut self.others, place_of_other(code));
            }
        }
    }

    /// Whether a code is registered.
    pub(crate) fn has(&self, code: EventCode) -> bool
        ensures { result ≡ has_code self.now code }
    {
        let place = usize::from(code.number);
        match code.event_type {
            EventType::Key => is_set(&self.keys, place),
            EventType::Absolute => self.axis(code.number).is_some(),
            EventType::Relative | EventType::Other | EventType::Led => {
                is_set(&self.others, place_of_other(code))
            }
        }
    }

    /// What the axis of a number says of itself, if it is registered.
    pub(crate) fn axis(&self, number: u16) -> Option<Axis>
        ensures { result ≡ axis_of self.now number }
    {
        self.axes.get(usize::from(number)).copied().flatten()
    }
}

/// Where a code stands that is neither a key nor an axis; past all others where there is none.
fn place_of_other(code: EventCode) -> usize
    ensures { result ≡ place_of_other code }
{
    let place = usize::from(code.number);
    match code.event_type {
        EventType::Relative if place < 16 => place,
        EventType::Other if place < 8 => place + 16,
        EventType::Led if place < 16 => place + 24,
        _ => OTHERS,
    }
}

fn set(codes: &mut [bool], place: usize)
    ensures { codes.new ≡ slice_set codes.old place true }
{
    if place < codes.len() {
        codes[place] = true;
    }
}

fn is_set(codes: &[bool], place: usize) -> bool
    ensures { result ≡ slice_index_or codes.now place false }
{
    codes.get(place).copied().unwrap_or(false)
}

/// An application with touch reports.
#[derive(Clone, Copy, Drop)]
pub(crate) struct TouchApplication {
    /// Its usage.
    pub(crate) usage: u32,

    /// The input device of its first touch report, which alone stands for a pointer, too.
    pub(crate) device: usize,

    /// Whether that is a touch screen or a pad, or has a touch screen's buttons.
    pub(crate) points: bool,

    /// Whether Confidence tells fingers from palms.
    pub(crate) tells_palms: bool,
}
