//! Where an item stands in a descriptor (Section 6.2.2).
ghost use Rattle.std.specs.Prelude.{◌≡◌, ◌+◌, ◌<◌, ◌^◌};

/// Where an item stands in a descriptor (Section 6.2.2).
#[derive(Clone, Copy, PartialEq, Eq, Debug)]
pub struct ItemPlace {
    /// How many items stand before it, long and reserved ones among them.
    pub index: usize,

    /// How many bytes stand before it.
    pub offset: usize,
}

impl ItemPlace {
    /// Where the next item stands, behind one of so many bytes.
    #[inline(always)]
    pub(crate) fn behind(self, size: usize) -> ItemPlace
        requires counted { self.index + 1 < 2 ^ 64 }
        requires placed { self.offset + size < 2 ^ 64 }
        ensures { result ≡ record { index = self.index + 1; offset = self.offset + size } }
    {
        ItemPlace {
            index: self.index + 1,
            offset: self.offset + size,
        }
    }
}

/// Where the item stands that makes a group, by the number of the group's first field.
#[derive(Clone, Copy)]
pub(crate) struct GroupPlace {
    pub(crate) number: u64,
    pub(crate) place: ItemPlace,
}
