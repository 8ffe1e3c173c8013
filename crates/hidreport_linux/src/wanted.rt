//! The code that a usage asks for.
mod buttons;
mod desktop;
mod digitizers;
mod pages;

use crate::event_code::{EventCode, EventType};
use crate::place::Place;
use crate::unmapped::Unmapped;
use hidreport::Direction;

/// What a usage does beside its own code.
#[derive(Clone, Copy, Debug, PartialEq, Eq)]
pub enum Role {
    /// Nothing.
    Plain,

    /// It also counts whole clicks, as `REL_WHEEL`.
    Wheel,

    /// It also counts whole clicks, as `REL_HWHEEL`.
    SideWheel,

    /// A hat, which also has `ABS_HAT0Y` where its bounds are apart.
    Hat,

    /// A direction of a D-pad, which also has `ABS_HAT0Y`.
    Direction,

    /// A pressure, which also has `BTN_TOUCH`, and says it where no switch does.
    Pressure,

    /// An eraser, which also says `BTN_TOOL_RUBBER`.
    Eraser,

    /// A volume, which says `KEY_VOLUMEUP` and `KEY_VOLUMEDOWN` instead where it is relative.
    Volume,

    /// A key of radios: all usages of its item from it on are taken for relative.
    Radio,
}

impl Role {
    ghost use Rattle.std.specs.Prelude.{◌≡◌};
    ghost use Rattle.hidreport_linux.specs.Asking.{is_direction, is_pressure};
    ghost use Rattle.hidreport_linux.specs.AxisNumbers.{is_hat};
    ghost use Rattle.hidreport_linux.specs.Claims.{beside};

    /// The codes that a usage of this role also has.
    pub fn beside(self) -> &'static [EventCode]
        ensures { result.now ≡ beside self }
    {
        match self {
            Role::Wheel => &WHEEL,
            Role::SideWheel => &SIDE_WHEEL,
            Role::Hat | Role::Direction => &SECOND_AXIS,
            Role::Pressure => &TOUCH,
            Role::Eraser => &RUBBER,
            Role::Volume => &VOLUME_KEYS,
            Role::Plain | Role::Radio => &[],
        }
    }

    /// Whether it is that of a direction of a D-pad.
    pub(crate) fn is_direction(self) -> bool
        ensures { result ≡ is_direction self }
    {
        matches!(self, Role::Direction)
    }

    /// Whether it has the axes of a hat.
    pub(crate) fn is_hat(self) -> bool
        ensures { result ≡ is_hat self }
    {
        matches!(self, Role::Hat | Role::Direction)
    }

    /// Whether it is that of a pressure.
    pub(crate) fn is_pressure(self) -> bool
        ensures { result ≡ is_pressure self }
    {
        matches!(self, Role::Pressure)
    }
}

/// A code, by its type and its number.
macro_rules! code {
    ($event_type:ident, $number:literal) => {
        EventCode {
            event_type: EventType::$event_type,
            number: $number,
        }
    };
}

static WHEEL: [EventCode; 1] = [code!(Relative, 0x08)];

static SIDE_WHEEL: [EventCode; 1] = [code!(Relative, 0x06)];

static SECOND_AXIS: [EventCode; 1] = [code!(Absolute, 0x11)];

static TOUCH: [EventCode; 1] = [code!(Key, 0x14a)];

static RUBBER: [EventCode; 1] = [code!(Key, 0x141)];

static VOLUME_KEYS: [EventCode; 2] = [code!(Key, 0x72), code!(Key, 0x73)];

/// The code that a usage asks for, whatever lies before it.
#[derive(Clone, Copy, Debug, PartialEq, Eq)]
pub struct Wanted {
    /// The code.
    pub code: EventCode,

    /// Whether it may be a code that a usage before it has, too.
    pub is_shared: bool,

    /// What else it does.
    pub role: Role,
}

impl Wanted {
    ghost use Rattle.std.specs.Prelude.{◌≡◌};
    ghost use Rattle.hidreport_linux.specs.Events.{asks, in_output, own, shared, wanted};

    /// What a usage asks for, or why it has no event wherever it lies.
    ///
    /// # Errors
    ///
    /// - `Constant`, `Output`, `Feature`: by its item.
    /// - `Ignored`, `SystemControl`, `Battery`, `PastCodes`: by the usage.
    pub fn of(usage: u32, place: &Place) -> Result<Wanted, Unmapped>
        ensures { result ≡ wanted usage place.now }
    {
        if place.is_constant {
            return Err(Unmapped::Constant);
        }
        let page = usage / 0x1_0000;
        match place.direction {
            Direction::Input => pages::wanted_of(page, usage, place),
            Direction::Output => Wanted::in_output(page, usage, place),
            Direction::Feature => Err(Unmapped::Feature),
        }
    }

    /// The same of a usage in an output report: of LED alone.
    fn in_output(page: u32, usage: u32, place: &Place) -> Result<Wanted, Unmapped>
        ensures { result ≡ in_output page usage place.now }
    {
        if page == 0x08 {
            pages::wanted_of(page, usage, place)
        } else {
            Err(Unmapped::Output)
        }
    }

    /// A code that only one usage may have.
    fn own(code: EventCode) -> Result<Wanted, Unmapped>
        ensures { result ≡ own code }
    {
        Wanted::asks(code, false, Role::Plain)
    }

    /// A code that several usages may have.
    fn shared(code: EventCode) -> Result<Wanted, Unmapped>
        ensures { result ≡ shared code }
    {
        Wanted::asks(code, true, Role::Plain)
    }

    /// A code, whether several usages may have it, and what its usage does more.
    fn asks(code: EventCode, is_shared: bool, role: Role) -> Result<Wanted, Unmapped>
        ensures { result ≡ asks code is_shared role }
    {
        Ok(Wanted {
            code,
            is_shared,
            role,
        })
    }
}
