//! Items with data as hid-core keeps them.
use crate::axis::Measures;
use crate::place::Place;
use crate::reading::core_reports::{first_place, place_of};
use hidreport::Direction;

/// A report that hid-core registers, at its first item with data.
#[derive(Clone, Copy, Debug, PartialEq, Eq)]
pub struct LinuxReport {
    /// Which way it goes.
    pub direction: Direction,

    /// Its id, 0 where it has none.
    pub id: u32,

    /// The usage of the innermost application around its first item, 0 where it lies in none.
    pub application: u32,
}

/// A collection that hid-core registers.
#[derive(Clone, Copy, Debug, PartialEq, Eq)]
pub struct LinuxCollection {
    /// The number of the collection that it lies in; `None` where it lies in none.
    pub parent: Option<usize>,

    /// Whether it is a logical one.
    pub is_logical: bool,
}

/// An item with data that names usages, which hid-core keeps as one field.
#[derive(Clone, Copy, Debug)]
pub struct LinuxField {
    /// The offset of the item in the descriptor, in bytes.
    pub offset: usize,

    /// Its report.
    pub report: LinuxReport,

    /// Whether it is the first of its report.
    pub is_first: bool,

    /// Whether it stands behind the 256 of its report that are kept.
    pub is_past: bool,

    /// Whether each element has a usage of its own.
    pub is_variable: bool,

    /// Whether a value outside of its bounds says nothing (Null State).
    pub has_null_state: bool,

    /// Whether its elements are bytes of a stream (Buffered Bytes).
    pub is_buffered: bool,

    /// The innermost collection around it, by its number in `LinuxReading::collections`; 0 where it
    /// lies in none.
    pub collection: usize,

    /// Where its first element begins in its report, in bits behind the id.
    pub first_bit: u32,

    /// How many bits each element has.
    pub size: u32,

    /// How many elements it has.
    pub count: u32,

    /// How many usages it names, of those that are kept.
    pub usages: u32,

    /// How many usages behind the last one that is kept it also names.
    pub left_out: u32,

    /// Where its usages lie.
    pub place: Place,

    /// Its bounds and its unit.
    pub measures: Measures,

    /// Where what names its usages begins among that of all.
    pub(crate) first_span: usize,

    /// How many local items name its usages.
    pub(crate) spans: usize,
}

impl LinuxReport {
    ghost use Rattle.std.specs.Prelude.{◌≡◌};
    ghost use Rattle.hidreport_linux.specs.FieldOrder.{is_of, lies_in};

    /// Whether a field is of the report.
    pub(crate) fn has(&self, field: &LinuxField) -> bool
        ensures { result ≡ is_of self.now field.now }
    {
        place_of(self.direction, self.id) == place_of(field.report.direction, field.report.id)
    }

    /// Whether it goes a direction.
    pub(crate) fn lies_in(&self, direction: Direction) -> bool
        ensures { result ≡ lies_in direction self.now }
    {
        first_place(self.direction) == first_place(direction)
    }
}
