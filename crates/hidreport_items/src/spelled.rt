//! What all types of items have: a header and data spell them, and they are written as such.
ghost use Rattle.std.specs.Prelude.{◌≡◌, ℕ, List, Result};
ghost use Rattle.hidreport_items.specs.Answer.{GivesWithoutMemory, GrammarFault};
ghost use Rattle.hidreport_items.specs.ItemFaults.{told_answer};
ghost use Rattle.hidreport_items.specs.Spelling.{read_with};

use crate::error::HidError;
use crate::item_bytes::ItemBytes;
use crate::item_fault::ItemFault;
use crate::message::with_message;
use std::alloc::Global;

/// An item that a header and data spell (Section 6.2.2.2).
pub(crate) trait Spelled: Drop {
    /// What a header and data spell, or why they are no such item.
    ghost spelled: { ℕ → List ℕ → Result Self GrammarFault };

    /// The bytes that are written for an item.
    ghost spelling: { Self → List ℕ };

    /// The item with this header and data.
    fn from_parts(header: u8, bytes: &[u8]) -> Result<Self, ItemFault>
        ensures { told_answer result ≡ spelled header bytes.now };

    /// The bytes that are written for the item, in place.
    fn written(&self) -> ItemBytes
        ensures { result ≡ spelling self.now };
}

/// The item that these bytes spell, the first of which is its header.
pub(crate) fn read_spelled<T: Spelled>(alloc: Global, bytes: &[u8]) -> Result<T, HidError>
    ensures { GivesWithoutMemory result (read_with T.spelled bytes.now) }
{
    match bytes {
        [] => Err(HidError::InsufficientData),
        [header, data_bytes @ ..] => with_message(alloc, T::from_parts(*header, data_bytes)),
    }
}
