//! Short items, and what all items have.
ghost use Rattle.std.specs.Prelude.{◌≡◌, ◌≢◌, ◌≤◌, ◌+◌, ◌%◌, Bool, false, Err, List, ℕ, length};
ghost use Rattle.hidreport_items.specs.Answer.{GivesWithoutMemory};
ghost use Rattle.hidreport_items.specs.ItemFaults.{told_answer};
ghost use Rattle.hidreport_items.specs.Spelling.{item_of, data_length, first_or_zero, following_length};
ghost use Rattle.hidreport_items.specs.Writing.{item_bytes};
ghost use Rattle.hidreport_items.specs.declared.item.ItemType.{ItemType};
ghost use Rattle.hidreport_lists.specs.Data.{short_data, short_tag, some_data};
ghost use Rattle.hidreport_lists.specs.Itemising.{short_item};

use crate::data::ItemData;
use hidreport_items::{
    HidError, ItemBytes, ItemFault, ItemType, is_long_header, read_item, with_message, write_item,
};
use std::alloc::Global;
use std::marker::Model;

/// An item together with the bytes that spell it (Sections 6.2.2.2 and 6.2.2.3).
pub trait Item {
    /// The bytes that spell the item, its header first.
    ghost item_bytes: { Self → List ℕ };

    /// The item that they spell.
    ghost item_meaning: { Self → ItemType };

    /// The tag: of a short item the upper four bits of its header, of a long one its third byte.
    ghost item_tag: { Self → ℕ };

    /// The data bytes among them.
    ghost item_data: { Self → List ℕ };

    /// The item is a long one (Section 6.2.2.3).
    ghost is_long: { Self → Bool };

    /// How many bytes the item has, its header among them.
    fn size(&self) -> usize
        ensures { result ≡ length (item_bytes self.now) };

    /// The item that the bytes spell.
    fn item_type(&self) -> ItemType
        ensures { result ≡ item_meaning self.now };

    /// The item's tag: of a short item 0 to 15, the upper four bits of the header; of a long one
    /// the byte behind its length.
    fn tag(&self) -> u8
        ensures { result ≡ item_tag self.now };

    /// The item's first byte.
    fn header(&self) -> u8
        ensures { result ≡ first_or_zero (item_bytes self.now) };

    /// Whether the item is a long one (Section 6.2.2.3).
    fn is_long_item(&self) -> bool
        ensures { result ≡ is_long self.now };

    /// The item's bytes, its header first.
    fn bytes(&self) -> &[u8]
        ensures { result.now ≡ item_bytes self.now };

    /// The item's data, borrowed from it; `None` where it has none.
    fn data(&self) -> Option<ItemData<'_>>
        ensures { result ≡ some_data (item_data self.now) };
}

/// An item of at most five bytes: a header, and 0, 1, 2 or 4 bytes of data (Section 6.2.2.2).
#[derive(Debug, Drop)]
pub struct ShortItem {
    bytes: ItemBytes,
    item: ItemType,
}

impl Model for ShortItem {
    ghost use Rattle.hidreport_lists.specs.Entry.{Spelled};

    ghost Value = { Spelled };

    ghost view = { λ s. record { bytes = s.bytes; item = s.item } };
}

impl ShortItem {
    /// Reads the short item at the front of the bytes (Section 6.2.2.2).
    ///
    /// What comes after the item isn't looked at. Memory is taken for messages alone.
    ///
    /// # Errors
    ///
    /// - `InsufficientData`: there are no bytes.
    /// - `InvalidData`, `Item is a long item`: the first byte is FE, whatever comes after it.
    /// - `InsufficientData`: there are fewer bytes than the header announces.
    /// - What `ItemType::try_from` refuses, of the header and the data that it announces.
    /// - `OutOfMemory`: memory for a message is refused.
    pub fn try_from(alloc: Global, bytes: &[u8]) -> Result<ShortItem, HidError>
        ensures { GivesWithoutMemory result (short_item item_of bytes.now) }
    {
        with_message(alloc, ShortItem::read(bytes))
    }

    /// The short item that `as_bytes` of this item spells; takes no memory.
    ///
    /// # Errors
    ///
    /// - `InsufficientData`: the item is `Long` or `Reserved`, which have no bytes.
    pub fn from_item_type(item: &ItemType) -> Result<ShortItem, HidError>
        ensures exact { GivesWithoutMemory result (short_item item_of (item_bytes item.now)) }
        ensures memory { result ≢ Err HidError.OutOfMemory }
    {
        match ShortItem::read(write_item(item).as_slice()) {
            Ok(item) => Ok(item),
            Err(_no_bytes) => Err(HidError::InsufficientData),
        }
    }

    /// What `try_from` answers, without a message.
    pub(crate) fn read(bytes: &[u8]) -> Result<ShortItem, ItemFault>
        ensures { told_answer result ≡ short_item item_of bytes.now }
    {
        let Some((header, after)) = bytes.split_first() else {
            return Err(ItemFault::TooFew);
        };
        if is_long_header(*header) {
            return Err(ItemFault::Long);
        }
        let announced = announced(*header);
        if after.len() < announced {
            return Err(ItemFault::TooFew);
        }
        let data_bytes = &after[..announced];
        let item = read_item(*header, data_bytes)?;
        Ok(ShortItem {
            bytes: ItemBytes::new(*header, data_bytes),
            item,
        })
    }
}

impl Item for ShortItem {
    ghost item_bytes = { λ s. s.bytes };

    ghost item_meaning = { λ s. s.item };

    ghost item_tag = { λ s. short_tag s.bytes };

    ghost item_data = { λ s. short_data s.bytes };

    ghost is_long = { λ s. false };

    fn size(&self) -> usize {
        self.bytes().len()
    }

    fn item_type(&self) -> ItemType {
        self.item
    }

    fn tag(&self) -> u8 {
        self.header() >> 4
    }

    fn header(&self) -> u8 {
        first_byte(self.bytes())
    }

    fn is_long_item(&self) -> bool {
        false
    }

    fn bytes(&self) -> &[u8] {
        self.bytes.as_slice()
    }

    fn data(&self) -> Option<ItemData<'_>> {
        match self.bytes() {
            [] | [_] => None,
            [_, data_bytes @ ..] => Some(ItemData::new(data_bytes)),
        }
    }
}

/// The header that begins an item's bytes.
pub(crate) fn first_byte(bytes: &[u8]) -> u8
    ensures { result ≡ first_or_zero bytes.now }
{
    match bytes {
        [] => 0,
        [header, ..] => *header,
    }
}

/// How many bytes follow a header that has these behind it.
pub(crate) fn following(header: u8, after: &[u8]) -> usize
    ensures within { result ≤ 257 }
    ensures value { result ≡ following_length header after.now }
{
    if !is_long_header(header) {
        return announced(header);
    }
    match after {
        [] => 2,
        [length, ..] => 2 + usize::from(*length),
    }
}

/// How many data bytes a short item's header announces: its size codes 0, 1, 2 and 3 mean 0, 1, 2
/// and 4.
fn announced(header: u8) -> usize
    ensures within { result ≤ 4 }
    ensures value { result ≡ data_length header }
{
    match header & 0x03 {
        3 => 4,
        code => code as usize,
    }
}
