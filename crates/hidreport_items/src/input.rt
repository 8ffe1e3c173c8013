//! Input items.
ghost use Rattle.std.specs.Prelude.{◌≡◌, false};
ghost use Rattle.hidreport_items.specs.Answer.{GivesWithoutMemory, Writes};
ghost use Rattle.hidreport_items.specs.Spelling.{input_item, read_with};
ghost use Rattle.hidreport_items.specs.Writing.{main_bytes};
ghost use Rattle.hidreport_items.specs.declared.main_item.MainItem.TheVariants.{Input};

use crate::error::HidError;
use crate::flags::{ItemFlags, MainDataItem};
use crate::item_bytes::ItemBytes;
use crate::item_fault::ItemFault;
use crate::spelled::{Spelled, read_spelled};
use crate::writing::flags;
use std::alloc::Global;
use std::marker::Model;

/// An Input item: a field that the device sends (Section 6.2.2.4).
#[derive(Clone, Copy, Debug, Default, PartialEq)]
pub struct InputItem {
    flags: ItemFlags,
}

impl Model for InputItem {
    ghost use Rattle.std.specs.Prelude.{◌≡◌, false};
    ghost use Rattle.hidreport_items.specs.Flags.{Flags};

    ghost Value = { Flags };

    ghost view = { λ i. i.flags };

    // An Input has no flag 7.
    ghost invariant = { λ i. i.flags.volatile ≡ false };

    ghost inverse = { λ f. record { flags = f } };
}

impl InputItem {
    /// Reads an Input item from a header and its data (Section 6.2.2.5).
    ///
    /// The first byte is the header, which isn't looked at; all bytes after it are the data. Bits 0
    /// to 8 of the data are its flags, but for bit 7.
    ///
    /// # Errors
    ///
    /// - `InsufficientData`: there are no bytes, or there is no data.
    /// - `InvalidData`, `Size {n} cannot happen`: the data has `n` bytes, not 1, 2 or 4.
    /// - `OutOfMemory`: memory for the message is refused.
    pub fn try_from(alloc: Global, bytes: &[u8]) -> Result<InputItem, HidError>
        ensures { GivesWithoutMemory result (read_with (λ _. input_item) bytes.now) }
    {
        read_spelled(alloc, bytes)
    }

    /// The item's bytes: the header, and the flags in one byte, or in two where it is of buffered
    /// bytes (Section 6.2.2.5); bit 7, which an Input does not have, is never set.
    ///
    /// # Errors
    ///
    /// - `OutOfMemory`: memory for the bytes is refused.
    pub fn as_bytes(&self, alloc: Global) -> Result<Vec<u8>, HidError>
        ensures { Writes result (main_bytes (Input self.now)) }
    {
        self.written().to_vec(alloc)
    }

    /// The item's flags; Volatile (flag 7) is off, since an Input hasn't it (Section 6.2.2.5).
    pub fn flags(&self) -> ItemFlags
        ensures { result ≡ self.now }
    {
        self.flags
    }

    /// The item with these flags; it has no flag 7.
    #[inline(always)]
    pub(crate) fn from_flags(flags: ItemFlags) -> InputItem
        ensures { result ≡ record flags { volatile = false } }
    {
        InputItem {
            flags: ItemFlags {
                is_volatile: false,
                ..flags
            },
        }
    }
}

impl Spelled for InputItem {
    ghost spelled = { λ _. input_item };

    ghost spelling = { λ item. main_bytes (Input item) };

    #[inline(always)]
    fn from_parts(_header: u8, bytes: &[u8]) -> Result<InputItem, ItemFault> {
        Ok(InputItem::from_flags(ItemFlags::from_data(bytes)?))
    }

    fn written(&self) -> ItemBytes {
        flags(0x80, self.flags)
    }
}

impl MainDataItem for InputItem {
    ghost item_flags = { λ flags. flags };

    fn is_constant(&self) -> bool {
        self.flags.is_constant
    }

    fn is_variable(&self) -> bool {
        self.flags.is_variable
    }

    fn is_relative(&self) -> bool {
        self.flags.is_relative
    }

    fn wraps(&self) -> bool {
        self.flags.wraps
    }

    fn is_nonlinear(&self) -> bool {
        self.flags.is_nonlinear
    }

    fn has_no_preferred_state(&self) -> bool {
        self.flags.has_no_preferred_state
    }

    fn has_null_state(&self) -> bool {
        self.flags.has_null_state
    }

    fn is_buffered_bytes(&self) -> bool {
        self.flags.is_buffered_bytes
    }

    fn flags(&self) -> ItemFlags {
        self.flags
    }
}
