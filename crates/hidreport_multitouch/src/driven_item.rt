//! An item of a report, whose usages are gone over.
use hidreport::Direction;
use hidreport_linux::{Item, LinuxField, Measures, Place, Unmapped};

/// The usages of an item that are kept, at most.
const MOST_USAGES: usize = 12_288;

/// An item of a report whose usages are gone over.
#[derive(Clone, Copy)]
pub struct DrivenItem {
    /// As hid-input takes it.
    pub(crate) item: Item,

    /// As hid-multitouch takes it, where it takes the device.
    pub(crate) touch: Option<TouchItem>,
}

/// An item as hid-multitouch takes it.
#[derive(Clone, Copy)]
pub(crate) struct TouchItem {
    pub(crate) place: Place,
    pub(crate) measures: Measures,
    is_past: bool,

    /// Which application its report is of, among those with touch reports; `None` in other reports.
    pub(crate) application: Option<usize>,

    /// The usage before the next one, 0 where it is the first.
    pub(crate) before: u32,

    /// How many usages are gone over.
    usages: usize,
}

impl TouchItem {
    ghost use Rattle.std.specs.Prelude.{◌≡◌};
    ghost use Rattle.hidreport_multitouch.specs.Driven.{unasked};
    ghost use Rattle.hidreport_multitouch.specs.Fields.{behind_usage, touch_item};

    /// A field before its first usage.
    pub(crate) fn at(field: &LinuxField, application: Option<usize>) -> TouchItem
        ensures { result ≡ touch_item field.now application }
    {
        TouchItem {
            place: field.place,
            measures: field.measures,
            is_past: field.is_past,
            application,
            before: 0,
            usages: 0,
        }
    }

    /// The item behind a usage.
    pub(crate) fn behind(&self, usage: u32) -> TouchItem
        ensures { result ≡ behind_usage usage self.now }
    {
        let mut behind = *self;
        behind.before = usage;
        if self.usages < MOST_USAGES {
            behind.usages += 1;
        }
        behind
    }

    /// Why a usage isn't asked of the driver, if it isn't.
    pub(crate) fn unasked(&self, usage: u32) -> Option<Unmapped>
        ensures { result ≡ unasked self.now usage }
    {
        if self.is_past {
            return Some(Unmapped::PastItems);
        }
        if self.usages >= MOST_USAGES {
            return Some(Unmapped::PastUsages);
        }
        if self.place.is_constant {
            return Some(Unmapped::Constant);
        }
        match self.place.direction {
            Direction::Input => None,
            Direction::Output if usage / 0x1_0000 == 0x08 => None,
            Direction::Output => Some(Unmapped::Output),
            Direction::Feature => Some(Unmapped::Feature),
        }
    }
}
