//! Items of every type.
ghost use Rattle.hidreport_items.specs.Answer.{GivesWithoutMemory, Writes};
ghost use Rattle.hidreport_items.specs.ItemFaults.{told_answer};
ghost use Rattle.hidreport_items.specs.Writing.{item_bytes};
ghost use Rattle.std.specs.Prelude.{◌≡◌, ◌==◌, ℕ, IfOk, List, Ok, IsTrue};
ghost use Rattle.hidreport_items.specs.Canonical.{IsCanonical};
ghost use Rattle.hidreport_items.specs.Kept.{is_kept};
ghost use Rattle.hidreport_items.specs.Spelling.{is_long_header, item_of, read_with, Spells};

use crate::error::HidError;
use crate::global::GlobalItem;
use crate::item_bytes::ItemBytes;
use crate::item_fault::ItemFault;
use crate::local::LocalItem;
use crate::main_item::MainItem;
use crate::spelled::{Spelled, read_spelled};
use std::alloc::Global;

/// Any item of a report descriptor (Section 6.2.2).
#[derive(Clone, Copy, Debug, PartialEq)]
pub enum ItemType {
    /// An item that makes fields, or opens or closes a collection.
    Main(MainItem),

    /// An item that stays in force.
    Global(GlobalItem),

    /// An item that ends with the next main item.
    Local(LocalItem),

    /// A long item (Section 6.2.2.3), whatever its tag and data.
    Long,

    /// An item of the reserved type.
    Reserved,
}

impl ItemType {
    /// Reads an item of any type from its header and its data (Section 6.2.2.2).
    ///
    /// The first byte is the header; all bytes after it are the data, however many the header
    /// announces. The header's type chooses the reader: that of `MainItem`, `GlobalItem` or
    /// `LocalItem`. An item of the reserved type is `Reserved`, or with
    /// the header FE `Long` (Section 6.2.2.3), whatever the data.
    ///
    /// # Errors
    ///
    /// - `InsufficientData`: there are no bytes.
    /// - What `try_from` of `MainItem`, `GlobalItem` or `LocalItem` refuses, by the header's type.
    /// - `OutOfMemory`: memory for a message is refused.
    ///
    /// # Examples
    ///
    /// ```rust
    /// use hidreport::LogicalMaximum;
    /// use hidreport::hid::ItemType;
    ///
    /// let item = ItemType::try_from(alloc, b"\x26\xff\x00")?;
    /// assert_eq!(rt; item, ItemType::from(LogicalMaximum::from(255)));
    /// ```
    pub fn try_from(alloc: Global, bytes: &[u8]) -> Result<ItemType, HidError>
        ensures { GivesWithoutMemory result (read_with item_of bytes.now) }
    {
        read_spelled(alloc, bytes)
    }

    /// The item's bytes, those of the item that it is; none for `Long` and `Reserved`
    /// (Section 6.2.2.2).
    ///
    /// For an item that bytes can spell, and that is neither long nor of a reserved kind,
    /// `ItemType::try_from` reads these bytes as the item, and no spelling of it with data is
    /// shorter.
    ///
    /// # Errors
    ///
    /// - `OutOfMemory`: memory for the bytes is refused.
    pub fn as_bytes(&self, alloc: Global) -> Result<Vec<u8>, HidError>
        ensures exact { Writes result (item_bytes self.now) }
        ensures canonical { (spelling : List ℕ) → Spells spelling self.now
            → IsTrue (is_kept self.now)
            → IfOk result (λ bytes. IsCanonical bytes.items self.now) }
        ensures read_back { (spelling : List ℕ) → Spells spelling self.now
            → IsTrue (is_kept self.now)
            → IfOk result (λ bytes. read_with item_of bytes.items ≡ Ok self.now) }
    {
        write_item(self).to_vec(alloc)
    }
}

impl Spelled for ItemType {
    ghost spelled = { item_of };

    ghost spelling = { item_bytes };

    fn from_parts(header: u8, bytes: &[u8]) -> Result<ItemType, ItemFault> {
        read_item(header, bytes)
    }

    fn written(&self) -> ItemBytes {
        write_item(self)
    }
}

/// The bytes that are written for an item (Section 6.2.2.2), in place; none for `Long` and
/// `Reserved`. `as_bytes` answers the same as a list.
pub fn write_item(item: &ItemType) -> ItemBytes
    ensures { result ≡ item_bytes item.now }
{
    match item {
        ItemType::Main(item) => item.written(),
        ItemType::Global(item) => item.written(),
        ItemType::Local(item) => item.written(),
        ItemType::Long | ItemType::Reserved => ItemBytes::none(),
    }
}

/// Whether a header is that of a long item (Section 6.2.2.3).
pub fn is_long_header(header: u8) -> bool
    ensures { result ≡ is_long_header header }
{
    header == 0xfe
}

/// Reads an item of any type from its header and its data, all of it (Section 6.2.2.2); takes no
/// memory.
///
/// # Errors
///
/// Those of `ItemType::try_from` without their messages:
///
/// - `Tag`: a main item has another tag than the five.
/// - `TooFew`: an item that needs data has none.
/// - `Length`: there is data of a length that the item doesn't have.
#[inline(always)]
pub fn read_item(header: u8, data_bytes: &[u8]) -> Result<ItemType, ItemFault>
    ensures { told_answer result ≡ item_of header data_bytes.now }
{
    match header >> 2 & 0x03 {
        0 => Ok(ItemType::Main(MainItem::from_parts(header, data_bytes)?)),
        1 => Ok(ItemType::Global(GlobalItem::from_parts(header, data_bytes)?)),
        2 => Ok(ItemType::Local(LocalItem::from_parts(header, data_bytes)?)),
        _ if is_long_header(header) => Ok(ItemType::Long),
        _ => Ok(ItemType::Reserved),
    }
}
