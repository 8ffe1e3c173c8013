//! The event of a usage.
use hidreport_linux::{Event, EventCode, Role};

/// The event that a usage has by the driver that takes the device.
///
/// `DrivenDevices::settled`, `axis` and `beside` say the rest of it, once all usages of the
/// descriptor are gone over.
#[derive(Clone, Copy, Debug, PartialEq, Eq)]
pub struct DrivenEvent {
    /// The code.
    pub code: EventCode,

    /// The input device, counted from 0.
    pub device: usize,

    pub(crate) giver: Giver,
}

/// Who gives a usage its code.
#[derive(Clone, Copy, Debug, PartialEq, Eq)]
pub(crate) enum Giver {
    /// hid-input, with what else the usage does.
    HidInput(Role),

    /// hid-multitouch; whether the usage is of a System Multi-Axis Controller.
    Multitouch { is_dial: bool },

    /// hid-input, but nothing registers it for this usage.
    Nobody,
}

impl DrivenEvent {
    ghost use Rattle.std.specs.Prelude.{◌≡◌};
    ghost use Rattle.hidreport_multitouch.specs.declared.driven_event.Giver.TheVariants as by;

    /// One of an input device, as hid-input gives it.
    pub(crate) fn of(event: Event, device: usize) -> DrivenEvent
        ensures code { result.code ≡ event.code }
        ensures device { result.device ≡ device }
        ensures giver { result.giver ≡ by.HidInput event.role }
    {
        DrivenEvent {
            code: event.code,
            device,
            giver: Giver::HidInput(event.role),
        }
    }

    /// The same event of the input device that hid-input has at an index.
    pub(crate) fn as_of_hid_input(&self, role: Role, device: usize) -> Event
        ensures code { result.code ≡ self.now.code }
        ensures role { result.role ≡ role }
        ensures device { result.device ≡ device }
    {
        Event {
            code: self.code,
            role,
            device,
        }
    }
}
