//! Faults of single items, without their messages.

/// Why a header and data are no item (Section 6.2.2.2), before a message says it.
#[derive(Clone, Copy, Debug, PartialEq)]
pub enum ItemFault {
    /// There are fewer bytes than the item needs.
    TooFew,

    /// So many data bytes are none of the lengths that the item's data has.
    Length(usize),

    /// The header is that of a main item, and its tag is none of the five.
    Tag(u8),

    /// The item is a long one, and a short one is asked for (Section 6.2.2.3).
    Long,

    /// The item is a short one, and a long one is asked for.
    Short,
}
