//! Each piece mended behind those before it.
ghost use Rattle.std.specs.Prelude.{◌≡◌, [], IfErr, Ok, OnOk, true};
ghost use Rattle.hidreport_lists.specs.Answer.{Refuses};
ghost use Rattle.hidreport_lists.specs.Mending.{item_in};
ghost use Rattle.hidreport.specs.Parser.Machine.{fault_held};
ghost use Rattle.hidreport.specs.Parser.Mended.{mended_in};
ghost use Rattle.hidreport.specs.Repair.{all_mended, constant_bytes, padded_by, rewritten, set_constant, wider_bytes, widened_in};

use crate::parser::budget::Budget;
use crate::parser::state::State;
use crate::repairing::repair_options::RepairOptions;
use hidreport_items::{ItemBytes, read_item};
use hidreport_lists::{ParserError, Piece, Reason};
use std::alloc::{AllocError, Global};

/// Mends each piece behind those before it.
pub(crate) fn mend_all(
    alloc: Global,
    pieces: &mut [Piece],
    options: RepairOptions,
) -> Result<(), ParserError>
    ensures ok { OnOk result (all_mended options [] pieces.old ≡ Ok pieces.new) }
    ensures err { IfErr result (λ e. Refuses e (all_mended options [] pieces.old)) }
{
    let mut state = State::new(alloc, options.parse, false);
    let mut budget = Budget::new(options.parse.limit);
    for piece in pieces.iter_mut() {
        let offset = piece.offset();
        mend(alloc, &state, piece, options.unsigned_maxima)?;
        let item = match piece.item() {
            Some(item) => item,
            None => continue,
        };
        if let Err(fault) = state.take(alloc, &mut budget, item) {
            return Err(fault.at(alloc, offset));
        }
    }
    Ok(())
}

/// Mends a piece where this is held.
fn mend(
    alloc: Global,
    state: &State,
    piece: &mut Piece,
    unsigned_maxima: bool,
) -> Result<(), AllocError>
    ensures { OnOk result (piece.new ≡ mended_in unsigned_maxima state.now piece.old) }
{
    if unsigned_maxima {
        widen(state, piece);
    }
    pad(alloc, state, piece)
}

/// Writes a maximum that was meant unsigned so.
fn widen(state: &State, piece: &mut Piece)
    ensures { piece.new ≡ widened_in true state.now.item_state piece.old }
{
    let is_unsigned = match piece.item() {
        Some(item) => state.is_meant_unsigned(&item),
        None => false,
    };
    if is_unsigned {
        let bytes = wider_bytes(piece.bytes());
        rewrite(piece, Reason::UnsignedMaximum, bytes);
    }
}

/// Makes a data item that lacks usages padding.
fn pad(alloc: Global, state: &State, piece: &mut Piece) -> Result<(), AllocError>
    ensures { OnOk result
        (piece.new ≡ padded_by (fault_held state.now (item_in piece.old)) piece.old) }
{
    let lacks_usages = match piece.item() {
        Some(item) => state.lacks_usages(alloc, &item)?,
        None => false,
    };
    if lacks_usages {
        let bytes = constant_bytes(piece.bytes());
        rewrite(piece, Reason::NoUsage, bytes);
    }
    Ok(())
}

/// Puts these bytes into a piece, where they are an item.
fn rewrite(piece: &mut Piece, reason: Reason, bytes: ItemBytes)
    ensures { piece.new ≡ rewritten reason piece.old bytes }
{
    let item = match bytes.as_slice() {
        [header, data_bytes @ ..] => read_item(*header, data_bytes),
        [] => return,
    };
    if let Ok(item) = item {
        piece.write(reason, bytes, item);
    }
}

/// A data item's bytes with the flag Constant (Section 6.2.2.5).
fn constant_bytes(bytes: &[u8]) -> ItemBytes
    ensures { result ≡ constant_bytes bytes.now }
{
    match bytes {
        [header, a] => ItemBytes::new(*header, &[set_constant(*a)]),
        [header, a, b] => ItemBytes::new(*header, &[set_constant(*a), *b]),
        [header, a, b, c, d] => ItemBytes::new(*header, &[set_constant(*a), *b, *c, *d]),
        _ => ItemBytes::none(),
    }
}

/// A byte with its lowest bit set.
fn set_constant(byte: u8) -> u8
    ensures { result ≡ set_constant byte }
{
    byte - byte % 2 + 1
}

/// An item's bytes with data of one or two bytes as the same number without a sign.
fn wider_bytes(bytes: &[u8]) -> ItemBytes
    ensures { result ≡ wider_bytes bytes.now }
{
    match bytes {
        [header, a] => ItemBytes::new(header - header % 4 + 2, &[*a, 0]),
        [header, a, b] => ItemBytes::new(header - header % 4 + 3, &[*a, *b, 0, 0]),
        _ => ItemBytes::none(),
    }
}
