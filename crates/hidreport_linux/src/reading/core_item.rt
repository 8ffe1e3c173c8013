//! Items as hid-core takes them apart.
ghost use Rattle.std.specs.Prelude.{◌≡◌, IsTrue, length};
ghost use Rattle.hidreport_items.specs.Numbers.{is_short_length};
ghost use Rattle.hidreport_linux.specs.CoreItems.{core_item, item_by, without_meaning};

use crate::reading::number::{signed, word};
use hidreport::Direction;

/// An item as hid-core takes it apart (Section 6.2.2.2): what it is, and its number.
#[derive(Clone, Copy)]
pub(crate) enum CoreItem {
    /// Nothing is kept of it.
    Ignored,

    /// A long item, by its tag alone.
    Long,

    /// A Push.
    Push,

    /// A Pop.
    Pop,

    /// A Logical Minimum, which has a sign.
    LogicalMinimum(i32),

    /// A Logical Maximum, with a sign and without one.
    LogicalMaximum(i32, u32),

    /// A Usage Page.
    UsagePage(u32),

    /// A Physical Minimum, which has a sign.
    PhysicalMinimum(i32),

    /// A Physical Maximum, with a sign and without one.
    PhysicalMaximum(i32, u32),

    /// A Unit Exponent, of four bits or of all.
    UnitExponent(i32),

    /// A Unit.
    Unit(u32),

    /// A Report Size, in bits.
    ReportSize(u32),

    /// A Report Count.
    ReportCount(u32),

    /// A Report ID.
    ReportId(u32),

    /// A global item with a tag that the standard leaves open.
    UnknownGlobal,

    /// A Collection of this kind.
    Collection(u32),

    /// An End Collection.
    EndCollection,

    /// An Input, Output or Feature with these flags.
    Data(Direction, u32),

    /// A main item with a tag that the standard leaves open.
    UnknownMain,

    /// A Usage; whether it has a page of its own, since it has four bytes.
    Usage(u32, bool),

    /// A Usage Minimum.
    UsageMinimum(u32),

    /// A Usage Maximum; whether it has a page of its own, since it has four bytes.
    UsageMaximum(u32, bool),

    /// A Delimiter; whether it opens a set of usages.
    Delimiter(bool),
}

impl CoreItem {
    ghost use Rattle.hidreport_linux.specs.CoreItems.{is_local};

    /// The item with this header and these bytes of data.
    pub(crate) fn of(header: u8, bytes: &[u8]) -> CoreItem
        requires { IsTrue (is_short_length (length bytes.now)) }
        ensures { result ≡ core_item header bytes.now }
    {
        if header >= 0xf0 {
            return CoreItem::Long;
        }
        item_by(header - header % 4, bytes)
    }

    /// Whether it is a local item.
    pub(crate) fn is_local(self) -> bool
        ensures { result ≡ is_local self }
    {
        match self {
            CoreItem::Usage(_, _) | CoreItem::UsageMaximum(_, _) => true,
            CoreItem::UsageMinimum(_) | CoreItem::Delimiter(_) => true,
            _ => false,
        }
    }
}

/// The item with this header without its size.
fn item_by(tag: u8, bytes: &[u8]) -> CoreItem
    requires { IsTrue (is_short_length (length bytes.now)) }
    ensures { result ≡ item_by tag bytes.now }
{
    let number = word(bytes);
    match tag {
        0x80 => CoreItem::Data(Direction::Input, number),
        0x90 => CoreItem::Data(Direction::Output, number),
        0xa0 => CoreItem::Collection(number % 0x100),
        0xb0 => CoreItem::Data(Direction::Feature, number),
        0xc0 => CoreItem::EndCollection,
        0x04 => CoreItem::UsagePage(number),
        0x14 => CoreItem::LogicalMinimum(signed(bytes)),
        0x24 => CoreItem::LogicalMaximum(signed(bytes), number),
        0x34 => CoreItem::PhysicalMinimum(signed(bytes)),
        0x44 => CoreItem::PhysicalMaximum(signed(bytes), number),
        0x54 => CoreItem::UnitExponent(signed(bytes)),
        0x64 => CoreItem::Unit(number),
        0x74 => CoreItem::ReportSize(number),
        0x84 => CoreItem::ReportId(number),
        0x94 => CoreItem::ReportCount(number),
        0xa4 => CoreItem::Push,
        0xb4 => CoreItem::Pop,
        0xc4 | 0xd4 | 0xe4 => CoreItem::UnknownGlobal,
        0x08 => CoreItem::Usage(number, bytes.len() == 4),
        0x18 => CoreItem::UsageMinimum(number),
        0x28 => CoreItem::UsageMaximum(number, bytes.len() == 4),
        0xa8 => CoreItem::Delimiter(number != 0),
        _ => without_meaning(tag),
    }
}

/// A main item without a meaning ends local items, too.
fn without_meaning(tag: u8) -> CoreItem
    ensures { result ≡ without_meaning tag }
{
    if tag / 4 % 4 == 0 {
        CoreItem::UnknownMain
    } else {
        CoreItem::Ignored
    }
}
