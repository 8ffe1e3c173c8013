//! Main items, and the kinds of collections.
ghost use Rattle.std.specs.Prelude.{◌≡◌, [], MatchResult, Ok};
ghost use Rattle.hidreport_items.specs.Answer.{GivesWithoutMemory, Writes};
ghost use Rattle.hidreport_items.specs.Writing.{main_bytes};
ghost use Rattle.hidreport_items.specs.declared.error.HidError.TheVariants.{InsufficientData};
ghost use Rattle.hidreport_items.specs.Spelling.{main_item, collection_item, collection_of, kind_number, first_or_zero, read_with};

use crate::error::HidError;
use crate::feature::FeatureItem;
use crate::input::InputItem;
use crate::item_bytes::ItemBytes;
use crate::item_fault::ItemFault;
use crate::output::OutputItem;
use crate::spelled::{Spelled, read_spelled};
use crate::writing::with_header;
use std::alloc::Global;

/// An Input, Output, Feature, Collection or EndCollection item (Section 6.2.2.4).
#[derive(Clone, Copy, Debug, PartialEq)]
pub enum MainItem {
    /// Fields that the device sends.
    Input(InputItem),

    /// Fields that the host sends.
    Output(OutputItem),

    /// Fields that the host reads and writes apart from the two streams.
    Feature(FeatureItem),

    /// Opens a collection of fields.
    Collection(CollectionItem),

    /// Closes the collection that was opened last.
    EndCollection,
}

/// What a collection's fields have in common (Section 6.2.2.6).
#[derive(Clone, Copy, Debug, PartialEq)]
pub enum CollectionItem {
    /// 0: data points from one part of a control, as a pair of axes.
    Physical,

    /// 1: a device, or a function of one.
    Application,

    /// 2: data that belongs together.
    Logical,

    /// 3: all fields of a report.
    Report,

    /// 4: a named group of controls in an array.
    NamedArray,

    /// 5: a control that switches the meaning of others.
    UsageSwitch,

    /// 6: a control that modifies the meaning of its enclosing one.
    UsageModifier,

    /// 07 to 7F: reserved by the standard.
    Reserved {
        /// The kind's number.
        value: u8,
    },

    /// 80 to FF: a kind of a vendor's own.
    VendorDefined {
        /// The kind's number.
        value: u8,
    },
}

/// The kind of collection with this number (Section 6.2.2.6).
impl From<u8> for CollectionItem {
    ghost from_gives = { λ number kind. kind ≡ collection_item number };

    fn from(number: u8) -> CollectionItem {
        match number {
            0x00 => CollectionItem::Physical,
            0x01 => CollectionItem::Application,
            0x02 => CollectionItem::Logical,
            0x03 => CollectionItem::Report,
            0x04 => CollectionItem::NamedArray,
            0x05 => CollectionItem::UsageSwitch,
            0x06 => CollectionItem::UsageModifier,
            value @ 0x07..=0x7f => CollectionItem::Reserved { value },
            value @ 0x80..=0xff => CollectionItem::VendorDefined { value },
        }
    }
}

/// The number of the kind; `Reserved` and `VendorDefined` give their value.
impl From<&CollectionItem> for u8 {
    ghost from_gives = { λ kind number. number ≡ kind_number kind.now };

    fn from(kind: &CollectionItem) -> u8 {
        match kind {
            CollectionItem::Physical => 0x00,
            CollectionItem::Application => 0x01,
            CollectionItem::Logical => 0x02,
            CollectionItem::Report => 0x03,
            CollectionItem::NamedArray => 0x04,
            CollectionItem::UsageSwitch => 0x05,
            CollectionItem::UsageModifier => 0x06,
            CollectionItem::Reserved { value } => *value,
            CollectionItem::VendorDefined { value } => *value,
        }
    }
}

impl From<CollectionItem> for u8 {
    ghost from_gives = { λ kind number. number ≡ kind_number kind };

    fn from(kind: CollectionItem) -> u8 {
        u8::from(&kind)
    }
}

/// Reads the kind of a collection from a header and its data (Section 6.2.2.6).
///
/// The first byte is the header, which isn't looked at. The kind is that of the first byte after
/// it, and Physical where there is none.
///
/// # Errors
///
/// - `InsufficientData`: there are no bytes.
impl TryFrom<&[u8]> for CollectionItem {
    type Error = HidError;

    ghost try_from_gives = { λ bytes kind. MatchResult kind
        (λ k. read_with (λ _. collection_of) bytes.now ≡ Ok k)
        (λ error. (bytes.now ≡ []) × (error ≡ InsufficientData)) };

    fn try_from(bytes: &[u8]) -> Result<CollectionItem, HidError> {
        match bytes.split_first() {
            Some((_header, data_bytes)) => Ok(CollectionItem::from_data(data_bytes)),
            None => Err(HidError::InsufficientData),
        }
    }
}

impl CollectionItem {
    /// The item's bytes: the header, and the number of the kind in one byte (Section 6.2.2.4).
    ///
    /// # Errors
    ///
    /// - `OutOfMemory`: memory for the bytes is refused.
    pub fn as_bytes(&self, alloc: Global) -> Result<Vec<u8>, HidError>
        ensures { Writes result (main_bytes (MainItem.Collection self.now)) }
    {
        self.written().to_vec(alloc)
    }

    /// The bytes that are written for the item, in place.
    pub(crate) fn written(&self) -> ItemBytes
        ensures { result ≡ main_bytes (MainItem.Collection self.now) }
    {
        with_header(0xa0, &[u8::from(self)])
    }

    /// The kind of the first data byte; a collection without data is physical.
    fn from_data(bytes: &[u8]) -> CollectionItem
        ensures { result ≡ collection_item (first_or_zero bytes.now) }
    {
        match bytes {
            [] => CollectionItem::Physical,
            [number, ..] => CollectionItem::from(*number),
        }
    }
}

impl MainItem {
    /// Reads a main item from its header and its data (Section 6.2.2.4).
    ///
    /// The first byte is the header; all bytes after it are the data, however many the header
    /// announces. A Collection without data is Physical; EndCollection ignores its data.
    ///
    /// # Errors
    ///
    /// - `InsufficientData`: there are no bytes.
    /// - `InvalidData`, `Invalid item tag 0b` and the header without its size code in binary: the
    ///   header has another tag than the five, or another type.
    /// - `InsufficientData`: an Input, Output or Feature has no data.
    /// - `InvalidData`, `Size {n} cannot happen`: its data has `n` bytes, not 1, 2 or 4.
    /// - `OutOfMemory`: memory for a message is refused.
    pub fn try_from(alloc: Global, bytes: &[u8]) -> Result<MainItem, HidError>
        ensures { GivesWithoutMemory result (read_with main_item bytes.now) }
    {
        read_spelled(alloc, bytes)
    }

    /// The item's bytes, those of the item that it is; EndCollection is its header alone
    /// (Section 6.2.2.4).
    ///
    /// # Errors
    ///
    /// - `OutOfMemory`: memory for the bytes is refused.
    pub fn as_bytes(&self, alloc: Global) -> Result<Vec<u8>, HidError>
        ensures { Writes result (main_bytes self.now) }
    {
        self.written().to_vec(alloc)
    }
}

impl Spelled for MainItem {
    ghost spelled = { main_item };

    ghost spelling = { main_bytes };

    #[inline(always)]
    fn from_parts(header: u8, bytes: &[u8]) -> Result<MainItem, ItemFault> {
        match header & 0xfc {
            0x80 => Ok(MainItem::Input(InputItem::from_parts(header, bytes)?)),
            0x90 => Ok(MainItem::Output(OutputItem::from_parts(header, bytes)?)),
            0xa0 => Ok(MainItem::Collection(CollectionItem::from_data(bytes))),
            0xb0 => Ok(MainItem::Feature(FeatureItem::from_parts(header, bytes)?)),
            0xc0 => Ok(MainItem::EndCollection),
            _ => Err(ItemFault::Tag(header)),
        }
    }

    fn written(&self) -> ItemBytes {
        match self {
            MainItem::Input(item) => item.written(),
            MainItem::Output(item) => item.written(),
            MainItem::Feature(item) => item.written(),
            MainItem::Collection(item) => item.written(),
            MainItem::EndCollection => with_header(0xc0, &[]),
        }
    }
}
