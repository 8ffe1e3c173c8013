//! Items that are short or long.
ghost use Rattle.std.specs.Prelude.{◌≡◌, false, IfOk};
ghost use Rattle.hidreport_items.specs.Answer.{GivesBy};
ghost use Rattle.hidreport_items.specs.Spelling.{first_or_zero, is_long_header, item_of};
ghost use Rattle.hidreport_lists.specs.Itemising.{front_item};
ghost use Rattle.hidreport_lists.specs.ShortOrLong.{any_data, any_tag, is_long_one, spelling_of, IsByHeader, RefusesWithoutMemory};

use crate::data::ItemData;
use crate::long_item::LongItem;
use crate::short_item::{Item, ShortItem};
use hidreport_items::{HidError, ItemType, is_long_header};
use std::alloc::Global;

/// An item of a descriptor (Section 6.2.2): a short one is held in place, a long one's bytes are a
/// list of their own.
#[derive(Debug, Drop)]
pub enum AnyItem {
    /// A header, and at most four bytes of data (Section 6.2.2.2).
    Short(ShortItem),

    /// A header, the number of data bytes, a tag, and the data (Section 6.2.2.3).
    Long(LongItem),
}

impl AnyItem {
    /// Reads the item at the front of the bytes, a long one where the first is FE (Section 6.2.2).
    ///
    /// What comes after the item isn't looked at. A short item takes no memory.
    ///
    /// # Errors
    ///
    /// - `InsufficientData`: there are no bytes.
    /// - What `LongItem::try_from` refuses where the first byte is FE, else what
    ///   `ShortItem::try_from` does.
    pub fn try_from(alloc: Global, bytes: &[u8]) -> Result<AnyItem, HidError>
        ensures exact { GivesBy spelling_of result (front_item item_of bytes.now) }
        ensures kind { IfOk result (λ item. IsByHeader item bytes.now) }
        ensures memory { is_long_header (first_or_zero bytes.now) ≡ false
            → RefusesWithoutMemory result (front_item item_of bytes.now) }
    {
        match bytes {
            [header, ..] if is_long_header(*header) => {
                Ok(AnyItem::Long(LongItem::try_from(alloc, bytes)?))
            }
            _ => Ok(AnyItem::Short(ShortItem::try_from(alloc, bytes)?)),
        }
    }
}

impl Item for AnyItem {
    ghost item_bytes = { λ a. (spelling_of a).bytes };

    ghost item_meaning = { λ a. (spelling_of a).item };

    ghost item_tag = { λ a. any_tag a };

    ghost item_data = { λ a. any_data a };

    ghost is_long = { λ a. is_long_one a };

    fn size(&self) -> usize {
        match self {
            AnyItem::Short(item) => item.size(),
            AnyItem::Long(item) => item.size(),
        }
    }

    fn item_type(&self) -> ItemType {
        match self {
            AnyItem::Short(item) => item.item_type(),
            AnyItem::Long(item) => item.item_type(),
        }
    }

    fn tag(&self) -> u8 {
        match self {
            AnyItem::Short(item) => item.tag(),
            AnyItem::Long(item) => item.tag(),
        }
    }

    fn header(&self) -> u8 {
        match self {
            AnyItem::Short(item) => item.header(),
            AnyItem::Long(item) => item.header(),
        }
    }

    fn is_long_item(&self) -> bool {
        match self {
            AnyItem::Short(item) => item.is_long_item(),
            AnyItem::Long(item) => item.is_long_item(),
        }
    }

    fn bytes(&self) -> &[u8] {
        match self {
            AnyItem::Short(item) => item.bytes(),
            AnyItem::Long(item) => item.bytes(),
        }
    }

    fn data(&self) -> Option<ItemData<'_>> {
        match self {
            AnyItem::Short(item) => item.data(),
            AnyItem::Long(item) => item.data(),
        }
    }
}
