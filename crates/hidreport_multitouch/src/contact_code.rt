//! The codes of the usages of touch reports.
ghost use Rattle.std.specs.Prelude.{◌≡◌, ◌<◌, ◌^◌};
ghost use Rattle.hidreport_multitouch.specs.Touching.{button_answer, button_number, digitizer_answer, is_pad_button, position, position_answer, touch_answer, when};

use crate::touch_class::TouchClass;
use hidreport_linux::{EventCode, EventType};

/// The usages of applications.
const MULTI_AXIS: u32 = 0x0001_000e;

const TOUCH_PAD: u32 = 0x000d_0005;

/// The greatest number of a key.
const LAST_KEY: u32 = 0x2ff;

/// What hid-multitouch asks of an item of a touch report beside its usages.
#[derive(Clone, Copy, Debug, PartialEq, Eq)]
pub struct TouchPlace {
    /// How the device is taken.
    pub class: TouchClass,

    /// The usage of the innermost application, 0 where there is none.
    pub application: u32,

    /// Whether Confidence tells fingers from palms in the application of the report.
    pub tells_palms: bool,
}

/// What hid-multitouch makes of a usage of a touch report.
#[derive(Clone, Copy, Debug, PartialEq, Eq)]
pub enum TouchAnswer {
    /// It registers a code for it.
    Code(EventCode),

    /// It reads its values, and registers nothing.
    Read,

    /// It ignores it.
    Ignored,

    /// The code would be past the last one.
    PastCodes,

    /// It leaves it to hid-input, without registering the code.
    Left,
}

/// What hid-multitouch makes of a usage of a touch report, where the element before it in its item,
/// if any, has the usage `before`.
#[tactic(auto, unfolding(crate::specs::Touching::touch_answer))]
pub fn touch_code(place: &TouchPlace, before: Option<u32>, usage: u32) -> TouchAnswer
    ensures { result ≡ touch_answer place.now before usage }
{
    let id = usage % 0x1_0000;
    match usage / 0x1_0000 {
        0x01 => position_answer(id, before == Some(usage)),
        0x09 => button_answer(place, id),
        0x0d => digitizer_answer(place, id),
        0xff00 => TouchAnswer::Ignored,
        _ => TouchAnswer::Left,
    }
}

/// X and Y: of two in a row the second is the middle of the contact.
#[tactic(auto, unfolding(crate::specs::Touching::position_answer))]
fn position_answer(id: u32, is_again: bool) -> TouchAnswer
    ensures { result ≡ position_answer id is_again }
{
    match id {
        0x30 => position(is_again, 0x3c, 0x35),
        0x31 => position(is_again, 0x3d, 0x36),
        _ => TouchAnswer::Left,
    }
}

fn position(is_again: bool, middle: u16, first: u16) -> TouchAnswer
    ensures { result ≡ position is_again middle first }
{
    if is_again { axis(middle) } else { axis(first) }
}

fn axis(number: u16) -> TouchAnswer
    ensures { result ≡ Rattle.hidreport_multitouch.specs.Touching.axis number }
{
    TouchAnswer::Code(EventCode::absolute(number))
}

/// A code where something holds, else nothing but values that are read.
fn when(holds: bool, code: EventCode) -> TouchAnswer
    ensures { result ≡ when holds code }
{
    if holds {
        TouchAnswer::Code(code)
    } else {
        TouchAnswer::Read
    }
}

/// A usage of Digitizers.
#[tactic(auto, unfolding(crate::specs::Touching::digitizer_answer))]
fn digitizer_answer(place: &TouchPlace, id: u32) -> TouchAnswer
    ensures { result ≡ digitizer_answer place.now id }
{
    match id {
        0x30 => axis(0x3a),
        0x32 => when(place.class.is_windows_8(), EventCode::absolute(0x3b)),
        0x33 | 0x55 => TouchAnswer::Ignored,
        0x3f => axis(0x34),
        0x42 => when(place.application != MULTI_AXIS, EventCode::key(0x14a)),
        0x47 => when(place.tells_palms, EventCode::absolute(0x37)),
        0x48 => axis(0x30),
        0x49 => axis(0x31),
        0x51 => axis(0x2f),
        0x54 => TouchAnswer::Read,
        0x56 => TouchAnswer::Code(timestamp()),
        _ => TouchAnswer::Left,
    }
}

/// `MSC_TIMESTAMP`.
fn timestamp() -> EventCode
    ensures { result ≡ Rattle.hidreport_multitouch.specs.Touching.timestamp }
{
    EventCode {
        event_type: EventType::Other,
        number: 0x05,
    }
}

/// A button.
#[tactic(auto, unfolding(crate::specs::Touching::button_answer))]
fn button_answer(place: &TouchPlace, id: u32) -> TouchAnswer
    requires { id < 2 ^ 16 }
    ensures { result ≡ button_answer place.now id }
{
    let number = button_number(place, id);
    if id == 0 || number > LAST_KEY {
        TouchAnswer::PastCodes
    } else {
        TouchAnswer::Code(EventCode::key((number % 0x1_0000) as u16))
    }
}

/// The number of a button, from `BTN_0` on in a multi-axis controller, else from `BTN_LEFT` on: the
/// first two of a pad made for Windows 8 are both this.
#[tactic(auto, unfolding(crate::specs::Touching::button_number))]
fn button_number(place: &TouchPlace, id: u32) -> u32
    requires { id < 2 ^ 16 }
    ensures { result ≡ button_number place.now id }
{
    if place.application == MULTI_AXIS {
        id + 0xff
    } else if is_pad_button(place, id) {
        id + 0x10e
    } else {
        id + 0x10f
    }
}

/// Whether a button is one beside that of a pad made for Windows 8.
#[tactic(auto, unfolding(crate::specs::Touching::is_pad_button))]
fn is_pad_button(place: &TouchPlace, id: u32) -> bool
    ensures { result ≡ is_pad_button place.now id }
{
    place.class.is_windows_8() && place.application == TOUCH_PAD && id > 1
}
