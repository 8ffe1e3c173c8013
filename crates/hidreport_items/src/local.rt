//! Local items.
ghost use Rattle.std.specs.Prelude.{◌≡◌, ◌+◌, ◌*◌};
ghost use Rattle.hidreport_items.specs.Answer.{GivesWithoutMemory, Writes};
ghost use Rattle.hidreport_items.specs.ItemFaults.{told_answer};
ghost use Rattle.hidreport_items.specs.Writing.{local_bytes, local_prefix};
ghost use Rattle.hidreport_items.specs.Spelling.{local_item, usage_item, read_with};

use crate::error::HidError;
use crate::item_bytes::ItemBytes;
use crate::item_fault::ItemFault;
use crate::number::{is_short_length, word};
use crate::spelled::{Spelled, read_spelled};
use crate::writing::{four_bytes, unsigned, with_header};
use hidreport_types::{
    Delimiter, DesignatorIndex, DesignatorMaximum, DesignatorMinimum, StringIndex, StringMaximum,
    StringMinimum, UsageId, UsageMaximum, UsageMinimum, UsagePage,
};
use std::alloc::Global;

/// A local item, which ends with the next main item (Section 6.2.2.8).
#[derive(Clone, Copy, Debug, PartialEq)]
pub enum LocalItem {
    /// A usage with a page of its own.
    Usage(UsagePage, UsageId),

    /// A usage of the page in force.
    UsageId(UsageId),

    /// The first usage of a range.
    UsageMinimum(UsageMinimum),

    /// The last usage of a range.
    UsageMaximum(UsageMaximum),

    /// The index of a part of the body.
    DesignatorIndex(DesignatorIndex),

    /// The first part of a range.
    DesignatorMinimum(DesignatorMinimum),

    /// The last part of a range.
    DesignatorMaximum(DesignatorMaximum),

    /// The index of a string descriptor.
    StringIndex(StringIndex),

    /// The first string of a range.
    StringMinimum(StringMinimum),

    /// The last string of a range.
    StringMaximum(StringMaximum),

    /// Opens or closes a set of alternatives.
    Delimiter(Delimiter),

    /// A reserved tag.
    Reserved {
        /// The header without its size code.
        value: u8,
    },
}

impl LocalItem {
    /// Reads a local item from its header and its data (Section 6.2.2.8).
    ///
    /// The first byte is the header; all bytes after it are the data, however many the header
    /// announces. A usage in four data bytes has a page of its own. A header of no local item is
    /// `Reserved`, with the header without its size code.
    ///
    /// # Errors
    ///
    /// - `InsufficientData`: there are no bytes, or there is no data.
    /// - `InvalidData`, `Size {n} cannot happen`: the data has `n` bytes, 3 or more than 4.
    /// - `OutOfMemory`: memory for the message is refused.
    pub fn try_from(alloc: Global, bytes: &[u8]) -> Result<LocalItem, HidError>
        ensures { GivesWithoutMemory result (read_with local_item bytes.now) }
    {
        read_spelled(alloc, bytes)
    }

    /// The header without its size code (Section 6.2.2.8); `0xF8` for every `Reserved`.
    pub fn prefix(&self) -> u8
        ensures { result ≡ local_prefix self.now }
    {
        match self {
            LocalItem::Usage(..) | LocalItem::UsageId(_) => 0x08,
            LocalItem::UsageMinimum(_) => 0x18,
            LocalItem::UsageMaximum(_) => 0x28,
            LocalItem::DesignatorIndex(_) => 0x38,
            LocalItem::DesignatorMinimum(_) => 0x48,
            LocalItem::DesignatorMaximum(_) => 0x58,
            LocalItem::StringIndex(_) => 0x78,
            LocalItem::StringMinimum(_) => 0x88,
            LocalItem::StringMaximum(_) => 0x98,
            LocalItem::Delimiter(_) => 0xa8,
            LocalItem::Reserved { .. } => 0xf8,
        }
    }

    /// The item's bytes: the header, and the shortest data that holds its number (Section 6.2.2.8).
    ///
    /// A usage with a page of its own always takes four data bytes, also where the page is 0: in
    /// fewer it would take the page in force. `Reserved` is written as `0xF9` and its value.
    ///
    /// # Errors
    ///
    /// - `OutOfMemory`: memory for the bytes is refused.
    pub fn as_bytes(&self, alloc: Global) -> Result<Vec<u8>, HidError>
        ensures { Writes result (local_bytes self.now) }
    {
        self.written().to_vec(alloc)
    }
}

impl Spelled for LocalItem {
    ghost spelled = { local_item };

    ghost spelling = { local_bytes };

    #[inline(always)]
    fn from_parts(header: u8, bytes: &[u8]) -> Result<LocalItem, ItemFault> {
        if bytes.is_empty() {
            return Err(ItemFault::TooFew);
        }
        if !is_short_length(bytes.len()) {
            return Err(ItemFault::Length(bytes.len()));
        }
        let number = word(bytes);
        Ok(match header & 0xfc {
            0x08 => usage(number, bytes.len()),
            0x18 => LocalItem::UsageMinimum(UsageMinimum::from(number)),
            0x28 => LocalItem::UsageMaximum(UsageMaximum::from(number)),
            0x38 => LocalItem::DesignatorIndex(DesignatorIndex::from(number)),
            0x48 => LocalItem::DesignatorMinimum(DesignatorMinimum::from(number)),
            0x58 => LocalItem::DesignatorMaximum(DesignatorMaximum::from(number)),
            0x78 => LocalItem::StringIndex(StringIndex::from(number)),
            0x88 => LocalItem::StringMinimum(StringMinimum::from(number)),
            0x98 => LocalItem::StringMaximum(StringMaximum::from(number)),
            0xa8 => LocalItem::Delimiter(Delimiter::from(number)),
            value => LocalItem::Reserved { value },
        })
    }

    fn written(&self) -> ItemBytes {
        match self {
            LocalItem::Usage(page, id) => four_bytes(0x08, usage_number(*page, *id)),
            LocalItem::UsageId(id) => unsigned(0x08, u32::from(u16::from(id))),
            LocalItem::UsageMinimum(usage) => unsigned(0x18, u32::from(usage)),
            LocalItem::UsageMaximum(usage) => unsigned(0x28, u32::from(usage)),
            LocalItem::DesignatorIndex(index) => unsigned(0x38, u32::from(index)),
            LocalItem::DesignatorMinimum(index) => unsigned(0x48, u32::from(index)),
            LocalItem::DesignatorMaximum(index) => unsigned(0x58, u32::from(index)),
            LocalItem::StringIndex(index) => unsigned(0x78, u32::from(index)),
            LocalItem::StringMinimum(index) => unsigned(0x88, u32::from(index)),
            LocalItem::StringMaximum(index) => unsigned(0x98, u32::from(index)),
            LocalItem::Delimiter(delimiter) => unsigned(0xa8, u32::from(delimiter)),
            LocalItem::Reserved { value } => with_header(0xf8, &[*value]),
        }
    }
}

/// Reads a local item from its header and its data, all of it (Section 6.2.2.8); takes no memory.
///
/// # Errors
///
/// Those of `LocalItem::try_from` without their messages:
///
/// - `TooFew`: there is no data.
/// - `Length`: there is data of a length that no short item has.
#[inline(always)]
pub fn read_local(header: u8, data_bytes: &[u8]) -> Result<LocalItem, ItemFault>
    ensures { told_answer result ≡ local_item header data_bytes.now }
{
    LocalItem::from_parts(header, data_bytes)
}

/// A usage in four bytes has a page in its upper half.
fn usage(number: u32, length: usize) -> LocalItem
    ensures { result ≡ usage_item number length }
{
    let id = UsageId::from((number & 0xffff) as u16);
    if length == 4 {
        LocalItem::Usage(UsagePage::from((number >> 16) as u16), id)
    } else {
        LocalItem::UsageId(id)
    }
}

/// A usage as one number: its page is the upper half.
fn usage_number(page: UsagePage, id: UsageId) -> u32
    ensures { result ≡ page * 65536 + id }
{
    u32::from(u16::from(page)) << 16 | u32::from(u16::from(id))
}
