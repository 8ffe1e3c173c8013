//! Directions, and the main items that make fields.
ghost use Rattle.std.specs.Prelude.{◌≡◌, ◌↔◌, false, IsTrue};
ghost use Rattle.hidreport_items.specs.declared.item.ItemType.TheVariants as item;
ghost use Rattle.hidreport_items.specs.declared.main_item.MainItem.TheVariants as main;
ghost use Rattle.hidreport_fields.specs.ItemParts.{field_count, volatile_in};
ghost use Rattle.hidreport_fields.specs.DataItem.{as_item};

use hidreport_items::{FeatureItem, InputItem, ItemFlags, OutputItem};

/// The three directions in which reports go (Section 6.2.2.4).
#[derive(Clone, Copy, Debug, PartialEq, Eq)]
pub enum Direction {
    /// From the device to the host.
    Input,

    /// From the host to the device.
    Output,

    /// Both ways, apart from the two streams.
    Feature,
}

impl Direction {
    /// All three directions, in the order in which `ReportDescriptor` has their reports.
    pub const ALL: [Direction; 3] = [Direction::Input, Direction::Output, Direction::Feature];
}

/// A main item that has fields: its direction and its flags (Sections 6.2.2.4 and 6.2.2.5).
#[derive(Clone, Copy, Debug)]
pub struct DataItem {
    /// In which reports its fields lie.
    pub direction: Direction,

    /// Those of the item; Volatile is off for an Input, which has no such flag.
    pub flags: ItemFlags,
}

impl DataItem {
    /// The item of this direction with these flags.
    fn of(direction: Direction, flags: ItemFlags) -> DataItem
        ensures { result ≡ record { direction = direction; flags = flags } }
    {
        DataItem { direction, flags }
    }

    /// The volatile flag; an Input has none.
    pub fn volatile(&self) -> Option<bool>
        ensures { result ≡ volatile_in self.now.direction self.now.flags.volatile }
    {
        match self.direction {
            Direction::Input => None,
            Direction::Output | Direction::Feature => Some(self.flags.is_volatile),
        }
    }

    /// Whether the fields of another item have the same flags.
    pub(crate) fn is_alike(&self, other: &DataItem) -> bool
        ensures { IsTrue result ↔ ((self.now.flags ≡ other.now.flags)
            × (volatile_in self.now.direction self.now.flags.volatile
            ≡ volatile_in other.now.direction other.now.flags.volatile)) }
    {
        self.flags == other.flags && self.volatile() == other.volatile()
    }

    /// How many fields the item makes where `count` elements are announced: one for padding and
    /// for an array, which has them all.
    pub fn field_count(&self, count: usize) -> usize
        ensures { result ≡ field_count self.now.flags count }
    {
        if self.flags.is_variable && !self.flags.is_constant {
            count
        } else {
            1
        }
    }
}

impl From<InputItem> for DataItem {
    ghost from_gives = { λ i x.
        as_item x ≡ item.Main (main.Input (record i { volatile = false })) };

    fn from(item: InputItem) -> DataItem {
        DataItem {
            direction: Direction::Input,
            flags: ItemFlags {
                is_volatile: false,
                ..item.flags()
            },
        }
    }
}

impl From<OutputItem> for DataItem {
    ghost from_gives = { λ i x. as_item x ≡ item.Main (main.Output i) };

    fn from(item: OutputItem) -> DataItem {
        DataItem::of(Direction::Output, item.flags())
    }
}

impl From<FeatureItem> for DataItem {
    ghost from_gives = { λ i x. as_item x ≡ item.Main (main.Feature i) };

    fn from(item: FeatureItem) -> DataItem {
        DataItem::of(Direction::Feature, item.flags())
    }
}
