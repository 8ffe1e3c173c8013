//! What a repair answers.
ghost use Rattle.std.specs.Prelude.{◌≡◌, IfOk, filter_map, map};
ghost use Rattle.hidreport.specs.Repair.{change_in, change_of, change_view, joined};

use hidreport_lists::{Piece, Reason};
use std::alloc::{AllocError, Global};

/// One change of a repair: other bytes at a place of the descriptor than before.
#[derive(Debug, Drop)]
pub struct Change {
    /// The offset of what stood there, in bytes from the descriptor's first.
    pub offset: usize,

    /// The bytes that stood there: one item, all of it.
    pub stood: Vec<u8>,

    /// The bytes that stand there now: an item, or none where it was left out.
    pub stands: Vec<u8>,

    /// Why the bytes were changed.
    pub reason: Reason,
}

/// A repaired descriptor, and what was changed.
#[derive(Debug, Drop)]
pub struct Repaired {
    /// The bytes of the repaired descriptor.
    pub bytes: Vec<u8>,

    /// What was changed, in the order of the offsets; nothing where the bytes are as they were.
    pub changes: Vec<Change>,
}

impl Repaired {
    ghost use Rattle.std.specs.Prelude.{◌≡◌, [], IfOk};
    ghost use Rattle.hidreport.specs.Repair.{repaired_of, repaired_view};

    /// These bytes without a change.
    pub(crate) fn unchanged(alloc: Global, bytes: &[u8]) -> Result<Repaired, AllocError>
        ensures { IfOk result (λ repaired.
            repaired_view repaired ≡ record { bytes = bytes.now; changes = [] }) }
    {
        Ok(Repaired {
            bytes: Vec::from_slice(alloc, bytes)?,
            changes: Vec::new(alloc),
        })
    }

    /// What stands in the pieces.
    pub(crate) fn of(alloc: Global, pieces: &[Piece]) -> Result<Repaired, AllocError>
        ensures { IfOk result (λ repaired. repaired_view repaired ≡ repaired_of pieces.now) }
    {
        Ok(Repaired {
            bytes: joined(alloc, pieces)?,
            changes: changes(alloc, pieces)?,
        })
    }
}

/// The bytes that stand in the pieces, joined.
fn joined(alloc: Global, pieces: &[Piece]) -> Result<Vec<u8>, AllocError>
    ensures { IfOk result (λ bytes. bytes.items ≡ joined pieces.now) }
{
    let mut bytes = Vec::new(alloc);
    for piece in pieces {
        bytes.extend_from_slice(piece.bytes())?;
    }
    Ok(bytes)
}

/// Those of the pieces in which something was mended.
fn changes(alloc: Global, pieces: &[Piece]) -> Result<Vec<Change>, AllocError>
    ensures { IfOk result (λ changes.
        map change_view changes.items ≡ filter_map change_in pieces.now) }
{
    let mut changes = Vec::new(alloc);
    for piece in pieces {
        let reason = match piece.reason() {
            Some(reason) => reason,
            None => continue,
        };
        changes.push(change_of(alloc, piece, reason)?)?;
    }
    Ok(changes)
}

/// What was changed in a piece, for this reason.
fn change_of(alloc: Global, piece: &Piece, reason: Reason) -> Result<Change, AllocError>
    ensures { IfOk result (λ change. change_view change ≡ change_of reason piece.now) }
{
    Ok(Change {
        offset: piece.offset(),
        stood: Vec::from_slice(alloc, piece.stood())?,
        stands: Vec::from_slice(alloc, piece.bytes())?,
        reason,
    })
}
