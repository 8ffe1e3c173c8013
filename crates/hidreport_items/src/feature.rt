//! Feature items.
ghost use Rattle.std.specs.Prelude.{◌≡◌, not};
ghost use Rattle.hidreport_items.specs.Answer.{GivesWithoutMemory, Writes};
ghost use Rattle.hidreport_items.specs.Spelling.{feature_item, read_with};
ghost use Rattle.hidreport_items.specs.Writing.{main_bytes};
ghost use Rattle.hidreport_items.specs.declared.main_item.MainItem.TheVariants.{Feature};

use crate::error::HidError;
use crate::flags::{ItemFlags, MainDataItem};
use crate::item_bytes::ItemBytes;
use crate::item_fault::ItemFault;
use crate::spelled::{Spelled, read_spelled};
use crate::writing::flags;
use std::alloc::Global;
use std::marker::Model;

/// A Feature item: a field that the host reads and writes (Section 6.2.2.4).
#[derive(Clone, Copy, Debug, Default, PartialEq)]
pub struct FeatureItem {
    flags: ItemFlags,
}

impl Model for FeatureItem {
    ghost use Rattle.hidreport_items.specs.Flags.{Flags};

    ghost Value = { Flags };

    ghost view = { λ i. i.flags };

    ghost inverse = { λ f. record { flags = f } };
}

impl FeatureItem {
    /// Reads a Feature item from a header and its data (Section 6.2.2.5).
    ///
    /// The first byte is the header, which isn't looked at; all bytes after it are the data. Bits 0
    /// to 8 of the data are its flags.
    ///
    /// # Errors
    ///
    /// - `InsufficientData`: there are no bytes, or there is no data.
    /// - `InvalidData`, `Size {n} cannot happen`: the data has `n` bytes, not 1, 2 or 4.
    /// - `OutOfMemory`: memory for the message is refused.
    pub fn try_from(alloc: Global, bytes: &[u8]) -> Result<FeatureItem, HidError>
        ensures { GivesWithoutMemory result (read_with (λ _. feature_item) bytes.now) }
    {
        read_spelled(alloc, bytes)
    }

    /// The item's bytes: the header, and the flags in one byte, or in two where it is of buffered
    /// bytes (Section 6.2.2.5).
    ///
    /// # Errors
    ///
    /// - `OutOfMemory`: memory for the bytes is refused.
    pub fn as_bytes(&self, alloc: Global) -> Result<Vec<u8>, HidError>
        ensures { Writes result (main_bytes (Feature self.now)) }
    {
        self.written().to_vec(alloc)
    }

    /// The item with these flags.
    pub(crate) fn from_flags(flags: ItemFlags) -> FeatureItem
        ensures { result ≡ flags }
    {
        FeatureItem { flags }
    }
}

impl FeatureItem {
    /// The item's nine flags (Section 6.2.2.5).
    pub fn flags(&self) -> ItemFlags
        ensures { result ≡ self.now }
    {
        self.flags
    }

    /// Whether the value may change without the host (Volatile, flag 7; Section 6.2.2.5).
    pub fn is_volatile(&self) -> bool
        ensures { result ≡ self.now.volatile }
    {
        self.flags.is_volatile
    }

    /// Whether the value changes by the host alone (Non Volatile): not `is_volatile`.
    pub fn is_nonvolatile(&self) -> bool
        ensures { result ≡ not self.now.volatile }
    {
        !self.flags.is_volatile
    }
}

impl Spelled for FeatureItem {
    ghost spelled = { λ _. feature_item };

    ghost spelling = { λ item. main_bytes (Feature item) };

    #[inline(always)]
    fn from_parts(_header: u8, bytes: &[u8]) -> Result<FeatureItem, ItemFault> {
        Ok(FeatureItem::from_flags(ItemFlags::from_data(bytes)?))
    }

    fn written(&self) -> ItemBytes {
        flags(0xb0, self.flags)
    }
}

impl MainDataItem for FeatureItem {
    ghost item_flags = { λ flags. flags };

    fn is_constant(&self) -> bool {
        self.flags.is_constant
    }

    fn is_variable(&self) -> bool {
        self.flags.is_variable
    }

    fn is_relative(&self) -> bool {
        self.flags.is_relative
    }

    fn wraps(&self) -> bool {
        self.flags.wraps
    }

    fn is_nonlinear(&self) -> bool {
        self.flags.is_nonlinear
    }

    fn has_no_preferred_state(&self) -> bool {
        self.flags.has_no_preferred_state
    }

    fn has_null_state(&self) -> bool {
        self.flags.has_null_state
    }

    fn is_buffered_bytes(&self) -> bool {
        self.flags.is_buffered_bytes
    }

    fn flags(&self) -> ItemFlags {
        self.flags
    }
}
