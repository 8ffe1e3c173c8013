//! An item of a report, whose usages are gone over.
use crate::axis::{Axis, Measures};
use crate::linux_field::LinuxField;
use crate::place::Place;
use crate::unmapped::Unmapped;
use crate::wanted::{Role, Wanted};
use hidreport::{Direction, Group};

/// The usages of an item that hid-core keeps, at most.
const MOST_USAGES: usize = 12_288;

/// An item of a report whose usages are gone over.
#[derive(Clone, Copy)]
pub struct Item {
    place: Place,
    measures: Measures,
    is_past: bool,
    usages: usize,
    has_direction: bool,
}

impl Item {
    ghost use Rattle.std.specs.Prelude.{◌≡◌, ◌+◌};
    ghost use Rattle.hidreport_linux.specs.AxisNumbers.{axis_by};
    ghost use Rattle.hidreport_linux.specs.FieldDevices.{item_at};
    ghost use Rattle.hidreport_linux.specs.Asking.{asked, asks_of, asks_still, counted, item_of, passed, role_in};

    /// An item before its first usage; one that is past those of its report that are kept has none.
    pub(crate) fn new(direction: Direction, group: &Group, is_past: bool) -> Item
        ensures { result ≡ item_of direction group.now is_past }
    {
        Item {
            place: Place::of(direction, group),
            measures: Measures::of(group),
            is_past,
            usages: 0,
            has_direction: false,
        }
    }

    /// A field before its first usage.
    pub(crate) fn at(field: &LinuxField) -> Item
        ensures { result ≡ item_at field.now }
    {
        Item {
            place: field.place,
            measures: field.measures,
            is_past: field.is_past,
            usages: 0,
            has_direction: false,
        }
    }

    /// What the next usage of the item asks for, or why nothing, where this may be the matter with
    /// all of the descriptor.
    pub(crate) fn ask(&self, usage: u32, unmapped: Option<Unmapped>) -> Result<Wanted, Unmapped>
        ensures { result ≡ asked self.now unmapped usage }
    {
        if self.is_past {
            return Err(Unmapped::PastItems);
        }
        if self.usages >= MOST_USAGES {
            return Err(Unmapped::PastUsages);
        }
        match Wanted::of(usage, &self.place) {
            Ok(wanted) => self.asks_of(unmapped, wanted),
            Err(reason) => Err(reason),
        }
    }

    /// The same of a usage that asks for a code wherever it lies.
    fn asks_of(&self, unmapped: Option<Unmapped>, wanted: Wanted) -> Result<Wanted, Unmapped>
        ensures { result ≡ asks_of unmapped self.now wanted }
    {
        match unmapped {
            Some(reason) => Err(reason),
            None => self.asks_still(wanted),
        }
    }

    /// The same where nothing is the matter with the descriptor.
    fn asks_still(&self, wanted: Wanted) -> Result<Wanted, Unmapped>
        ensures { result ≡ asks_still self.now wanted }
    {
        if wanted.role.is_direction() && self.has_direction {
            return Err(Unmapped::OtherDirection);
        }
        Ok(Wanted {
            code: wanted.code,
            is_shared: wanted.is_shared,
            role: self.role_in(wanted.role),
        })
    }

    /// What a usage of the item does beside its own code.
    fn role_in(&self, role: Role) -> Role
        ensures { result ≡ role_in self.now role }
    {
        match role {
            Role::Hat if !self.measures.are_apart() => Role::Plain,
            Role::Volume if !self.place.is_relative => Role::Plain,
            _ => role,
        }
    }

    /// Whether what is gone over so far says that the item is relative.
    pub fn is_relative(&self) -> bool
        ensures { result ≡ self.now.place.is_relative }
    {
        self.place.is_relative
    }

    /// Counts a usage, up to those that are kept.
    pub(crate) fn count(&mut self)
        ensures { self.new ≡ counted self.old }
    {
        if self.usages < MOST_USAGES {
            self.usages += 1;
        }
    }

    /// Keeps what a usage says of those behind it.
    pub(crate) fn pass(&mut self, role: Role)
        ensures { self.new ≡ passed role self.old }
    {
        match role {
            Role::Direction => self.has_direction = true,
            Role::Radio => self.place.is_relative = true,
            _ => {}
        }
    }

    /// What an axis says of itself by a usage of the item.
    pub(crate) fn axis(&self, wanted: &Wanted) -> Axis
        ensures { result
            ≡ axis_by wanted.now.code wanted.now.role self.now.place self.now.measures }
    {
        Axis::of(wanted.code, wanted.role, &self.place, &self.measures)
    }
}
