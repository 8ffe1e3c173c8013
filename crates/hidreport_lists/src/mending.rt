//! Items as Linux's hid-core reads them where bytes can't be read as items (Section 6.2.2).
ghost use Rattle.std.specs.Prelude.{◌≡◌, Err, IfErr, IfOk, Ok};
ghost use Rattle.hidreport_items.specs.ItemFaults.{told_fault};
ghost use Rattle.hidreport_lists.specs.Answer.{AnswersBy, IsOfItems};
ghost use Rattle.hidreport_lists.specs.Itemising.{as_refusal};
ghost use Rattle.hidreport_lists.specs.Mending.{front_piece, left_out, pieces, whole_piece, without_ended};

use crate::error::ParserError;
use crate::front::PlacedFault;
use crate::short_item::following;
use hidreport_items::{ItemBytes, ItemFault, ItemType, read_item};
use std::alloc::Global;
use std::marker::Model;

/// Why a repaired descriptor has other bytes at a place than before.
#[derive(Clone, Copy, Debug, PartialEq, Eq)]
pub enum Reason {
    /// An item that needs a data byte had none: its data is 0 now.
    NoData,

    /// A main item of a tag that the standard doesn't know is left out.
    UnknownMainItem,

    /// A local item is left out with the main item that it would have been of.
    EndedLocal,

    /// A data item without a usage is padding now.
    NoUsage,

    /// A maximum that was meant unsigned has data that says so.
    UnsignedMaximum,

    /// An item was cut short, and is left out.
    CutShort,
}

/// What stands in the place of bytes.
#[derive(Debug, Drop)]
enum Standing {
    /// The item that stood there.
    AsItStood(ItemType),

    /// An item in these bytes.
    Written(ItemBytes, ItemType),

    /// Nothing.
    LeftOut,
}

/// The bytes of a descriptor at one place, and what stands there now.
#[derive(Debug, Drop)]
pub struct Piece<'a> {
    offset: usize,
    stood: &'a [u8],
    standing: Standing,
    reason: Option<Reason>,
}

impl<'a> Model for Piece<'a> {
    ghost use Rattle.hidreport_lists.specs.Mending.{PieceRecord, standing_in};

    ghost Value = { PieceRecord };

    ghost view = { λ p. record {
      offset = p.offset;
      stood = p.stood.now;
      stands = standing_in p.stood.now p.standing;
      reason = p.reason;
    } };
}

/// Cuts the bytes of a descriptor as Linux's hid-core reads them (Section 6.2.2).
///
/// Where the bytes are an item it stands there; where they are none, an item with the data 0 does, or
/// nothing. With a main item that is left out go the local items that would have been its own. An
/// item that is cut short is left out where that is asked for.
///
/// # Errors
///
/// - `InvalidData` at the item's offset, `Insufficient data`: an item is cut short, and it isn't
///   left out.
/// - `OutOfMemory`: memory is refused; this says nothing of the bytes.
pub fn pieces<'a>(
    alloc: Global,
    bytes: &'a [u8],
    leave_out_cut_short: bool,
) -> Result<Vec<Piece<'a>>, ParserError>
    ensures exact { AnswersBy (λ pieces. pieces.items) result
        (as_refusal (pieces leave_out_cut_short bytes.now)) }
    ensures named { IfErr result IsOfItems }
{
    let mut pieces = Vec::new(alloc);
    let mut offset = 0;
    let mut rest = bytes;
    while !rest.is_empty() {
        let piece = match front_piece(offset, rest, leave_out_cut_short) {
            Ok(piece) => piece,
            Err(fault) => return Err(PlacedFault { offset, fault }.refusal(alloc)),
        };
        let size = piece.size();
        pieces.push(piece)?;
        offset += size;
        rest = rest.split_at(size).1;
    }
    leave_out_ended(pieces.as_mut_slice());
    Ok(pieces)
}

/// The first piece of bytes that stand at the offset.
fn front_piece<'a>(
    offset: usize,
    bytes: &'a [u8],
    leave_out_cut_short: bool,
) -> Result<Piece<'a>, ItemFault>
    ensures piece { IfOk result (λ piece.
        front_piece leave_out_cut_short offset bytes.now ≡ Ok piece) }
    ensures fault { IfErr result (λ fault.
        front_piece leave_out_cut_short offset bytes.now ≡ Err (told_fault fault)) }
{
    let Some((header, after)) = bytes.split_first() else {
        return Err(ItemFault::TooFew);
    };
    let following = following(*header, after);
    if after.len() >= following {
        return Ok(whole_piece(offset, &bytes[..1 + following]));
    }
    if leave_out_cut_short {
        Ok(left_out(Reason::CutShort, offset, bytes))
    } else {
        Err(ItemFault::TooFew)
    }
}

/// A header and all that follows it: the item that they are, or with the data 0 are, or nothing.
fn whole_piece<'a>(offset: usize, stood: &'a [u8]) -> Piece<'a>
    ensures { result ≡ whole_piece offset stood.now }
{
    let Some((header, data_bytes)) = stood.split_first() else {
        return left_out(Reason::UnknownMainItem, offset, stood);
    };
    if let Ok(item) = read_item(*header, data_bytes) {
        return Piece {
            offset,
            stood,
            standing: Standing::AsItStood(item),
            reason: None,
        };
    }
    let header = header - header % 4 + 1;
    match read_item(header, &[0]) {
        Ok(item) => Piece {
            offset,
            stood,
            standing: Standing::Written(ItemBytes::new(header, &[0]), item),
            reason: Some(Reason::NoData),
        },
        Err(_) => left_out(Reason::UnknownMainItem, offset, stood),
    }
}

/// Bytes that are left out.
fn left_out<'a>(reason: Reason, offset: usize, stood: &'a [u8]) -> Piece<'a>
    ensures { result ≡ left_out reason offset stood.now }
{
    Piece {
        offset,
        stood,
        standing: Standing::LeftOut,
        reason: Some(reason),
    }
}

/// Leaves out the local items that end with a main item which is left out.
fn leave_out_ended(pieces: &mut [Piece])
    ensures { pieces.new ≡ without_ended pieces.old }
{
    let mut is_unknown = false;
    let mut index = pieces.len();
    while index > 0 {
        index -= 1;
        let piece = &mut pieces[index];
        if is_unknown && piece.holds_local() {
            piece.standing = Standing::LeftOut;
            piece.reason = Some(Reason::EndedLocal);
        } else {
            is_unknown = piece.is_unknown() || (is_unknown && !piece.holds_main());
        }
    }
}

impl<'a> Piece<'a> {
    ghost use Rattle.std.specs.Prelude.{◌≡◌, length, Some};
    ghost use Rattle.hidreport_lists.specs.Mending.{holding, has_local, has_main, is_unknown, item_in, standing_bytes};

    /// The offset of the piece: how many bytes of the descriptor stand before it.
    pub fn offset(&self) -> usize
        ensures { result ≡ self.now.offset }
    {
        self.offset
    }

    /// The bytes of the descriptor that stood there.
    pub fn stood(&self) -> &[u8]
        ensures { result.now ≡ self.now.stood }
    {
        self.stood
    }

    /// The item that stands there now; `None` where nothing does.
    pub fn item(&self) -> Option<ItemType>
        ensures { result ≡ item_in self.now }
    {
        match &self.standing {
            Standing::AsItStood(item) | Standing::Written(_, item) => Some(*item),
            Standing::LeftOut => None,
        }
    }

    /// The bytes that stand there now, none where they are left out.
    pub fn bytes(&self) -> &[u8]
        ensures { result.now ≡ standing_bytes self.now.stands }
    {
        match &self.standing {
            Standing::AsItStood(_) => self.stood,
            Standing::Written(bytes, _) => bytes.as_slice(),
            Standing::LeftOut => &[],
        }
    }

    /// Why other bytes stand there now; `None` where the same do.
    pub fn reason(&self) -> Option<Reason>
        ensures { result ≡ self.now.reason }
    {
        self.reason
    }

    /// Puts another item there, which these bytes spell, for this reason.
    pub fn write(&mut self, reason: Reason, bytes: ItemBytes, item: ItemType)
        ensures { self.new ≡ holding (Some reason) self.old.offset self.old.stood bytes item }
    {
        self.standing = Standing::Written(bytes, item);
        self.reason = Some(reason);
    }

    /// How many bytes stood there.
    fn size(&self) -> usize
        ensures { result ≡ length self.now.stood }
    {
        self.stood.len()
    }

    /// Whether a main item of an unknown tag stood there.
    fn is_unknown(&self) -> bool
        ensures { result ≡ is_unknown self.now.reason }
    {
        self.reason == Some(Reason::UnknownMainItem)
    }

    /// Whether a main item stands there.
    fn holds_main(&self) -> bool
        ensures { result ≡ has_main (item_in self.now) }
    {
        matches!(self.item(), Some(ItemType::Main(_)))
    }

    /// Whether a local item stands there.
    fn holds_local(&self) -> bool
        ensures { result ≡ has_local (item_in self.now) }
    {
        matches!(self.item(), Some(ItemType::Local(_)))
    }
}
