//! Long items.
ghost use Rattle.std.specs.Prelude.{◌≡◌, ◌≤◌, ◌+◌, true, List, ℕ, length};
ghost use Rattle.hidreport_items.specs.Answer.{Gives};
ghost use Rattle.hidreport_items.specs.Spelling.{first_or_zero};
ghost use Rattle.hidreport_items.specs.declared.item.ItemType.TheVariants as item;
ghost use Rattle.hidreport_lists.specs.Data.{long_data, long_tag, some_data};
ghost use Rattle.hidreport_lists.specs.Itemising.{long_item};

use crate::data::ItemData;
use crate::short_item::{Item, first_byte, following};
use hidreport_items::{HidError, ItemFault, ItemType, error_of, is_long_header};
use std::alloc::Global;
use std::marker::Model;

/// A long item (Section 6.2.2.3): the header FE, the number n of its data bytes in one byte, a tag
/// in one byte, and n data bytes; 3 to 258 bytes in all.
#[derive(Debug, Drop)]
pub struct LongItem {
    bytes: Vec<u8>,
}

impl Model for LongItem {
    ghost use Rattle.std.specs.Prelude.{List, ℕ};

    ghost Value = { List ℕ };

    ghost view = { λ l. l.bytes.items };
}

impl LongItem {
    /// Reads the long item at the front of the bytes (Section 6.2.2.3).
    ///
    /// What comes after the item isn't looked at.
    ///
    /// # Errors
    ///
    /// - `InsufficientData`: there are no bytes.
    /// - `InvalidData`, `Item is not a long item`: the first byte isn't FE.
    /// - `InsufficientData`: there are fewer bytes than 3, or than 3 and as many as the second byte
    ///   says.
    /// - `OutOfMemory`: memory for the item's bytes or for the message is refused.
    pub fn try_from(alloc: Global, bytes: &[u8]) -> Result<LongItem, HidError>
        ensures { Gives result (long_item bytes.now) }
    {
        let Some((header, after)) = bytes.split_first() else {
            return Err(HidError::InsufficientData);
        };
        if !is_long_header(*header) {
            return Err(error_of(alloc, ItemFault::Short));
        }
        let following = following(*header, after);
        if after.len() < following {
            return Err(HidError::InsufficientData);
        }
        let bytes = Vec::from_slice(alloc, &bytes[..1 + following])?;
        Ok(LongItem { bytes })
    }
}

impl Item for LongItem {
    ghost item_bytes = { λ bytes. bytes };

    ghost item_meaning = { λ bytes. item.Long };

    ghost item_tag = { λ bytes. long_tag bytes };

    ghost item_data = { λ bytes. long_data bytes };

    ghost is_long = { λ bytes. true };

    fn size(&self) -> usize {
        self.bytes.len()
    }

    fn item_type(&self) -> ItemType {
        ItemType::Long
    }

    fn tag(&self) -> u8 {
        match self.bytes() {
            [_, _, tag, ..] => *tag,
            _ => 0,
        }
    }

    fn header(&self) -> u8 {
        first_byte(self.bytes())
    }

    fn is_long_item(&self) -> bool {
        true
    }

    fn bytes(&self) -> &[u8] {
        self.bytes.as_slice()
    }

    fn data(&self) -> Option<ItemData<'_>> {
        match self.bytes() {
            [] | [_] | [_, _] | [_, _, _] => None,
            [_, _, _, data_bytes @ ..] => Some(ItemData::new(data_bytes)),
        }
    }
}
