//! The bytes of one item, held in place.
ghost use Rattle.std.specs.Prelude.{◌≡◌, ◌≤◌, [], ◌∷◌, length};
ghost use Rattle.hidreport_items.specs.Answer.{Writes};

use crate::error::HidError;
use std::alloc::Global;
use std::marker::Model;

/// The bytes of an item, at most five, held in place (Section 6.2.2.2).
#[derive(Debug, Drop)]
pub struct ItemBytes {
    bytes: [u8; 5],
    size: usize,
}

impl Model for ItemBytes {
    ghost use Rattle.std.specs.Prelude.{◌≤◌, length, List, ℕ, take};

    ghost Value = { List ℕ };

    ghost view = { λ b. take b.size b.bytes };

    ghost invariant = { λ b. (b.size ≤ 5) × (b.size ≤ length b.bytes) };
}

impl ItemBytes {
    /// No bytes, as for an item that has none.
    pub fn none() -> ItemBytes
        ensures { result ≡ [] }
    {
        ItemBytes {
            bytes: [0; 5],
            size: 0,
        }
    }

    /// A header and the data behind it, at most four bytes.
    pub fn new(header: u8, data_bytes: &[u8]) -> ItemBytes
        requires { length data_bytes.now ≤ 4 }
        ensures { result ≡ header ∷ data_bytes.now }
    {
        let bytes = match data_bytes {
            [] => [header, 0, 0, 0, 0],
            [a] => [header, *a, 0, 0, 0],
            [a, b] => [header, *a, *b, 0, 0],
            [a, b, c] => [header, *a, *b, *c, 0],
            [a, b, c, d] => [header, *a, *b, *c, *d],
            _ => unreachable!(),
        };
        ItemBytes {
            bytes,
            size: 1 + data_bytes.len(),
        }
    }

    /// The bytes as a slice.
    pub fn as_slice(&self) -> &[u8]
        ensures { result.now ≡ self.now }
    {
        &self.bytes[..self.size]
    }

    /// The bytes as a list of their own.
    ///
    /// # Errors
    ///
    /// - `OutOfMemory`: memory for the bytes is refused.
    pub fn to_vec(&self, alloc: Global) -> Result<Vec<u8>, HidError>
        ensures { Writes result self.now }
    {
        Ok(Vec::from_slice(alloc, self.as_slice())?)
    }
}
