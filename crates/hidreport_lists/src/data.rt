//! The data of items.
ghost use Rattle.std.specs.Prelude.{◌≡◌, IfOk, string_bytes};
ghost use Rattle.hidreport_items.specs.Answer.{GivesBy, GivesWithoutMemory};
ghost use Rattle.hidreport_lists.specs.Data.{byte_message, data_byte, data_list, data_number, length_message};

use hidreport_items::{HidError, invalid_data};
use std::alloc::{AllocError, Global};
use std::marker::Model;

/// The data bytes of an item, borrowed from it (Section 6.2.2.2).
#[derive(Debug, Drop)]
pub struct ItemData<'a> {
    bytes: &'a [u8],
}

impl<'a> Model for ItemData<'a> {
    ghost use Rattle.std.specs.Prelude.{List, ℕ};

    ghost Value = { List ℕ };

    ghost view = { λ d. d.bytes.now };
}

impl<'a> ItemData<'a> {
    /// The data that these bytes are.
    pub(crate) fn new(bytes: &'a [u8]) -> ItemData<'a>
        ensures { result ≡ bytes.now }
    {
        ItemData { bytes }
    }

    /// The data bytes, borrowed from the item (Section 6.2.2.2).
    pub fn as_slice(&self) -> &[u8]
        ensures { result.now ≡ self.now }
    {
        self.bytes
    }

    /// The data as an unsigned number, the lowest byte first (Section 6.2.2.2).
    ///
    /// # Errors
    ///
    /// - `InsufficientData`: there is no data.
    /// - `InvalidData`, `Size of {n} cannot happen`: the data has `n` bytes, not 1, 2 or 4.
    /// - `OutOfMemory`: memory for the message is refused.
    pub fn to_u32(&self, alloc: Global) -> Result<u32, HidError>
        ensures { GivesWithoutMemory result (data_number self.now) }
    {
        match self.bytes {
            [] => Err(HidError::InsufficientData),
            [a] => Ok(u32::from(*a)),
            [a, b] => Ok(u32::from(u16::from_le_bytes([*a, *b]))),
            [a, b, c, d] => Ok(u32::from_le_bytes([*a, *b, *c, *d])),
            bytes => Err(invalid_data(length_text(alloc, bytes.len()))),
        }
    }

    /// The data as one byte.
    ///
    /// # Errors
    ///
    /// - `InsufficientData`: there is no data.
    /// - `InvalidData`, `Cannot convert {n} bytes to u8`: the data has `n` bytes, more than one.
    /// - `OutOfMemory`: memory for the message is refused.
    pub fn to_u8(&self, alloc: Global) -> Result<u8, HidError>
        ensures { GivesWithoutMemory result (data_byte self.now) }
    {
        match self.bytes {
            [] => Err(HidError::InsufficientData),
            [byte] => Ok(*byte),
            bytes => Err(invalid_data(byte_text(alloc, bytes.len()))),
        }
    }

    /// The data bytes as a list of their own.
    ///
    /// # Errors
    ///
    /// - `InsufficientData`: there is no data.
    /// - `InvalidData`, `Size of {n} cannot happen`: the data has `n` bytes, not 1, 2 or 4.
    /// - `OutOfMemory`: memory for the list or for the message is refused.
    pub fn to_vec(&self, alloc: Global) -> Result<Vec<u8>, HidError>
        ensures { GivesBy (λ bytes. bytes.items) result (data_list self.now) }
    {
        match self.bytes.len() {
            0 => Err(HidError::InsufficientData),
            1 | 2 | 4 => Ok(Vec::from_slice(alloc, self.bytes)?),
            length => Err(invalid_data(length_text(alloc, length))),
        }
    }
}

fn length_text(alloc: Global, length: usize) -> Result<String, AllocError>
    ensures { IfOk result (λ t. string_bytes t ≡ length_message length) }
{
    format!(in alloc; "Size of {length} cannot happen")
}

fn byte_text(alloc: Global, length: usize) -> Result<String, AllocError>
    ensures { IfOk result (λ t. string_bytes t ≡ byte_message length) }
{
    format!(in alloc; "Cannot convert {length} bytes to u8")
}
