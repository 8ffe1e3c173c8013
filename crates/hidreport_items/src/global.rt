//! Global items.
ghost use Rattle.hidreport_items.specs.Answer.{GivesWithoutMemory, Writes};
ghost use Rattle.std.specs.Prelude.{◌≡◌};
ghost use Rattle.hidreport_items.specs.ItemFaults.{told_answer};
ghost use Rattle.hidreport_items.specs.Spelling.{global_item, read_with};
ghost use Rattle.hidreport_items.specs.Writing.{global_bytes, global_prefix};

use crate::error::HidError;
use crate::item_bytes::ItemBytes;
use crate::item_fault::ItemFault;
use crate::number::{is_short_length, signed, word};
use crate::spelled::{Spelled, read_spelled};
use crate::writing::{count, signed_item, unsigned, with_header};
use hidreport_types::{
    LogicalMaximum, LogicalMinimum, PhysicalMaximum, PhysicalMinimum, ReportCount, ReportId,
    ReportSize, Unit, UnitExponent, UsagePage,
};
use std::alloc::Global;

/// A global item, which stays in force until it is set again (Section 6.2.2.7).
#[derive(Clone, Copy, Debug, PartialEq)]
pub enum GlobalItem {
    /// The page of usages that have none of their own.
    UsagePage(UsagePage),

    /// The least value that a field reports.
    LogicalMinimum(LogicalMinimum),

    /// The greatest value that a field reports.
    LogicalMaximum(LogicalMaximum),

    /// What the logical minimum stands for.
    PhysicalMinimum(PhysicalMinimum),

    /// What the logical maximum stands for.
    PhysicalMaximum(PhysicalMaximum),

    /// The power of ten of the unit.
    UnitExponent(UnitExponent),

    /// The unit of physical values.
    Unit(Unit),

    /// How many bits one element has.
    ReportSize(ReportSize),

    /// The report that fields belong to.
    ReportId(ReportId),

    /// How many elements there are.
    ReportCount(ReportCount),

    /// Keeps what is in force for the matching Pop.
    Push,

    /// Brings back what the matching Push kept.
    Pop,

    /// A reserved tag.
    Reserved,
}

impl GlobalItem {
    /// Reads a global item from its header and its data (Section 6.2.2.7).
    ///
    /// The first byte is the header; all bytes after it are the data, however many the header
    /// announces. Push and Pop ignore their data; without data the numbers of the other items are
    /// 0, where that isn't an error. A header of no global item is `Reserved`.
    ///
    /// # Errors
    ///
    /// - `InsufficientData`: there are no bytes.
    /// - `InvalidData`, `Size {n} cannot happen`: the data has `n` bytes, 3 or more than 4,
    ///   whatever the header.
    /// - `InsufficientData`: a ReportSize, ReportId or ReportCount has no data.
    /// - `OutOfMemory`: memory for the message is refused.
    pub fn try_from(alloc: Global, bytes: &[u8]) -> Result<GlobalItem, HidError>
        ensures { GivesWithoutMemory result (read_with global_item bytes.now) }
    {
        read_spelled(alloc, bytes)
    }

    /// The header without its size code (Section 6.2.2.7); `0xC4` for `Reserved`.
    pub fn prefix(&self) -> u8
        ensures { result ≡ global_prefix self.now }
    {
        match self {
            GlobalItem::UsagePage(_) => 0x04,
            GlobalItem::LogicalMinimum(_) => 0x14,
            GlobalItem::LogicalMaximum(_) => 0x24,
            GlobalItem::PhysicalMinimum(_) => 0x34,
            GlobalItem::PhysicalMaximum(_) => 0x44,
            GlobalItem::UnitExponent(_) => 0x54,
            GlobalItem::Unit(_) => 0x64,
            GlobalItem::ReportSize(_) => 0x74,
            GlobalItem::ReportId(_) => 0x84,
            GlobalItem::ReportCount(_) => 0x94,
            GlobalItem::Push => 0xa4,
            GlobalItem::Pop => 0xb4,
            GlobalItem::Reserved => 0xc4,
        }
    }

    /// The item's bytes: the header, and the shortest data that holds its number (Section 6.2.2.7).
    ///
    /// Bounds and the unit's exponent are written with their sign. Of a size or a count past 32
    /// bits the low 32 bits are written. Push, Pop and `Reserved` have no data.
    ///
    /// # Errors
    ///
    /// - `OutOfMemory`: memory for the bytes is refused.
    pub fn as_bytes(&self, alloc: Global) -> Result<Vec<u8>, HidError>
        ensures { Writes result (global_bytes self.now) }
    {
        self.written().to_vec(alloc)
    }
}

impl Spelled for GlobalItem {
    ghost spelled = { global_item };

    ghost spelling = { global_bytes };

    #[inline(always)]
    fn from_parts(header: u8, bytes: &[u8]) -> Result<GlobalItem, ItemFault> {
        if !is_short_length(bytes.len()) {
            return Err(ItemFault::Length(bytes.len()));
        }
        let number = word(bytes);
        match header & 0xfc {
            0x04 => Ok(GlobalItem::UsagePage(UsagePage::from((number & 0xffff) as u16))),
            0x14 => Ok(GlobalItem::LogicalMinimum(LogicalMinimum::from(signed(bytes)))),
            0x24 => Ok(GlobalItem::LogicalMaximum(LogicalMaximum::from(signed(bytes)))),
            0x34 => Ok(GlobalItem::PhysicalMinimum(PhysicalMinimum::from(signed(bytes)))),
            0x44 => Ok(GlobalItem::PhysicalMaximum(PhysicalMaximum::from(signed(bytes)))),
            0x54 => Ok(GlobalItem::UnitExponent(UnitExponent::from(signed(bytes)))),
            0x64 => Ok(GlobalItem::Unit(Unit::from(number))),
            0x74 | 0x84 | 0x94 if bytes.is_empty() => Err(ItemFault::TooFew),
            0x74 => Ok(GlobalItem::ReportSize(ReportSize::from(number as usize))),
            0x84 => Ok(GlobalItem::ReportId(ReportId::from((number & 0xff) as u8))),
            0x94 => Ok(GlobalItem::ReportCount(ReportCount::from(number as usize))),
            0xa4 => Ok(GlobalItem::Push),
            0xb4 => Ok(GlobalItem::Pop),
            _ => Ok(GlobalItem::Reserved),
        }
    }

    fn written(&self) -> ItemBytes {
        match self {
            GlobalItem::UsagePage(page) => unsigned(0x04, u32::from(u16::from(page))),
            GlobalItem::LogicalMinimum(bound) => signed_item(0x14, i32::from(bound)),
            GlobalItem::LogicalMaximum(bound) => signed_item(0x24, i32::from(bound)),
            GlobalItem::PhysicalMinimum(bound) => signed_item(0x34, i32::from(bound)),
            GlobalItem::PhysicalMaximum(bound) => signed_item(0x44, i32::from(bound)),
            GlobalItem::UnitExponent(exponent) => signed_item(0x54, i32::from(exponent)),
            GlobalItem::Unit(unit) => unsigned(0x64, u32::from(unit)),
            GlobalItem::ReportSize(size) => count(0x74, usize::from(size)),
            GlobalItem::ReportId(id) => with_header(0x84, &[u8::from(id)]),
            GlobalItem::ReportCount(number) => count(0x94, usize::from(number)),
            GlobalItem::Push => with_header(0xa4, &[]),
            GlobalItem::Pop => with_header(0xb4, &[]),
            GlobalItem::Reserved => with_header(0xc4, &[]),
        }
    }
}

/// Reads a global item from its header and its data, all of it (Section 6.2.2.7); takes no memory.
///
/// # Errors
///
/// Those of `GlobalItem::try_from` without their messages:
///
/// - `Length`: there is data of a length that no short item has.
/// - `TooFew`: a ReportSize, ReportId or ReportCount has no data.
#[inline(always)]
pub fn read_global(header: u8, data_bytes: &[u8]) -> Result<GlobalItem, ItemFault>
    ensures { told_answer result ≡ global_item header data_bytes.now }
{
    GlobalItem::from_parts(header, data_bytes)
}
