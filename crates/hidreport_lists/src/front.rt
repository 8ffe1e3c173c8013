//! The item at the front of bytes, read where it stands (Section 6.2.2): nothing is held of it.
ghost use Rattle.std.specs.Prelude.{◌≡◌, ◌+◌, ◌<◌, ◌≤◌, ◌^◌, length, IfErr, IfOk, IfSome, IsOk, OnOk};
ghost use Rattle.hidreport_items.specs.ItemFaults.{told_fault};
ghost use Rattle.hidreport_items.specs.Spelling.{item_of};
ghost use Rattle.hidreport_lists.specs.Answer.{IsInvalidAt};
ghost use Rattle.hidreport_lists.specs.FrontItem.{AreAtFront, IsAtFront};
ghost use Rattle.hidreport_lists.specs.Itemising.{front_item, items_from};
ghost use Rattle.hidreport_lists.specs.Messages.{grammar_message};

use crate::error::ParserError;
use crate::fault::fault_at;
use crate::short_item::following;
use hidreport_items::{ItemFault, ItemType, error_of, read_item};
use std::alloc::Global;

/// An item, and how many bytes spell it (Section 6.2.2).
#[derive(Clone, Copy)]
pub struct FrontItem {
    /// The item.
    pub item: ItemType,

    /// How many bytes the item has, its header among them.
    pub size: usize,
}

/// The bytes of an item where they stand (Section 6.2.2).
#[derive(Clone, Copy)]
pub struct FrontParts<'a> {
    /// The item's first byte.
    pub header: u8,

    /// The bytes that follow the header, all that the item has.
    pub data: &'a [u8],
}

/// The offset of an item that can't be read, and why.
#[derive(Clone, Copy)]
pub struct PlacedFault {
    /// How many bytes stand before the item.
    pub offset: usize,

    /// Why the bytes there are no item.
    pub fault: ItemFault,
}

/// The header of the item at the front of the bytes, and what follows it (Section 6.2.2), whether
/// they are read as an item or not; takes no memory.
///
/// # Errors
///
/// - `TooFew`: there are no bytes, or fewer than the header announces.
#[inline(always)]
pub fn front_parts(bytes: &[u8]) -> Result<FrontParts<'_>, ItemFault>
    ensures parts { IfOk result (λ parts. AreAtFront parts bytes.now) }
    ensures fault { IfErr result (λ fault. front_item item_of bytes.now ≡ Err (told_fault fault)) }
{
    let Some((header, after)) = bytes.split_first() else {
        return Err(ItemFault::TooFew);
    };
    let following = following(*header, after);
    if after.len() < following {
        return Err(ItemFault::TooFew);
    }
    Ok(FrontParts {
        header: *header,
        data: &after[..following],
    })
}

/// Reads the item at the front of the bytes, a long one where the first is FE (Section 6.2.2);
/// takes no memory.
///
/// What comes after the item isn't looked at.
///
/// # Errors
///
/// - `TooFew`: there are no bytes, or fewer than the header announces.
/// - What `read_item` refuses, of the header and the data that it announces.
///
/// # Examples
///
/// ```rust
/// use hidreport::hid::{ItemFault, front_item};
///
/// assert_eq!(rt; front_item(b"\x05\x01\x75")?.size, 2);
/// assert!(rt; matches!(front_item(b"\x75"), Err(ItemFault::TooFew)));
/// ```
#[inline(always)]
pub fn front_item(bytes: &[u8]) -> Result<FrontItem, ItemFault>
    ensures item { IfOk result (λ front. IsAtFront front bytes.now) }
    ensures fault { IfErr result (λ fault. front_item item_of bytes.now ≡ Err (told_fault fault)) }
{
    let parts = front_parts(bytes)?;
    let item = read_item(parts.header, parts.data)?;
    Ok(FrontItem {
        item,
        size: 1 + parts.data.len(),
    })
}

/// Checks that the bytes are items, or none, from the first to the last; takes no memory.
///
/// The first item stands at `offset`, in bytes.
///
/// # Errors
///
/// - `PlacedFault`: the offset of the first item that can't be read, and why `front_item` refuses
///   it.
pub fn check_items(offset: usize, bytes: &[u8]) -> Result<(), PlacedFault>
    requires { offset + length bytes.now < 2 ^ 64 }
    ensures items { OnOk result (IsOk (items_from item_of offset 0 bytes.now)) }
    ensures fault { IfErr result (λ first.
        items_from item_of offset 0 bytes.now ≡ Err (first.offset, told_fault first.fault)) }
{
    let mut offset = offset;
    let mut rest = bytes;
    while !rest.is_empty() {
        match front_item(rest) {
            Ok(front) => {
                offset += front.size;
                rest = rest.split_at(front.size).1;
            }
            Err(fault) => return Err(PlacedFault { offset, fault }),
        }
    }
    Ok(())
}

impl PlacedFault {
    /// The parser's error for this fault: `InvalidData` at its offset, or `OutOfMemory` where
    /// memory for the message is refused.
    pub fn refusal(self, alloc: Global) -> ParserError
        ensures { IsInvalidAt result self.offset (grammar_message (told_fault self.fault)) }
    {
        fault_at(alloc, self.offset, error_of(alloc, self.fault))
    }
}
