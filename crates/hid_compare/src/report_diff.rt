//! The fields in which two reports differ.
use crate::changes::{add_changes, add_id_change};
use crate::pairing::Pairing;
use hidreport::{Field, RDescReport, Report};
use std::alloc::{AllocError, Global};

/// A field of one report or of both.
#[derive(Drop)]
pub struct Changed<'a> {
    /// The first report's field.
    pub first: Option<&'a Field>,
    /// The second's.
    pub second: Option<&'a Field>,
    /// The parts in which they differ, apart from where they lie.
    pub parts: String,
}

/// The fields in which two reports differ, in the order of the first, with those that the second
/// alone has where they lie.
#[derive(Drop)]
pub struct ReportDiff<'a> {
    alloc: Global,
    /// The fields.
    pub fields: Vec<Changed<'a>>,
}

impl<'a> ReportDiff<'a> {
    /// The fields in which two reports differ.
    pub fn new(
        alloc: Global,
        first: &'a [Field],
        second: &'a [Field],
    ) -> Result<ReportDiff<'a>, AllocError> {
        let pairing = Pairing::new(alloc, first, second)?;
        let mut diff = ReportDiff {
            alloc,
            fields: Vec::new(alloc),
        };
        let mut next = 0usize;
        for (field, pair) in first.iter().zip(pairing.first.iter()) {
            next = diff.add_lone(second, &pairing.second, next, field.bits().start)?;
            let other = pair.and_then(|place| second.get(place));
            diff.add(field, other)?;
        }
        diff.add_lone(second, &pairing.second, next, usize::MAX)?;
        Ok(diff)
    }

    /// Adds the second's fields that are in no pair and begin before a bit, from a place on; answers
    /// the place behind them.
    fn add_lone(
        &mut self,
        second: &'a [Field],
        pairs: &[Option<usize>],
        next: usize,
        bit: usize,
    ) -> Result<usize, AllocError> {
        let mut behind = next;
        for place in next..second.len() {
            let (Some(field), Some(pair)) = (second.get(place), pairs.get(place)) else {
                break;
            };
            if bit < field.bits().start {
                break;
            }
            if pair.is_none() {
                let parts = String::new(self.alloc);
                self.push(None, Some(field), parts)?;
            }
            behind = place.saturating_add(1);
        }
        Ok(behind)
    }

    /// Adds a field of the first report, where it differs from its pair or has none.
    fn add(&mut self, first: &'a Field, second: Option<&'a Field>) -> Result<(), AllocError> {
        let mut parts = String::new(self.alloc);
        let Some(other) = second else {
            return self.push(Some(first), None, parts);
        };
        add_changes(&mut parts, first, other)?;
        add_id_change(&mut parts, first, other)?;
        if parts.is_empty() && first.bits() == other.bits() {
            return Ok(());
        }
        self.push(Some(first), Some(other), parts)
    }

    fn push(
        &mut self,
        first: Option<&'a Field>,
        second: Option<&'a Field>,
        parts: String,
    ) -> Result<(), AllocError> {
        let changed = Changed {
            first,
            second,
            parts,
        };
        if self.fields.push(changed).is_err() {
            return Err(AllocError);
        }
        Ok(())
    }
}

/// Whether two reports are the same but for their ids, and the byte that an id takes: the fields of
/// each lie side by side.
pub fn id_alone_changed(
    alloc: Global,
    first: &RDescReport,
    second: &RDescReport,
) -> Result<bool, AllocError> {
    let (own, other) = (first.fields(), second.fields());
    if own.len() != other.len() {
        return Ok(false);
    }
    for (field, pair) in own.iter().zip(other.iter()) {
        if !are_alike_but_for_ids(alloc, field, pair)? {
            return Ok(false);
        }
    }
    Ok(true)
}

/// Whether two fields are the same but for their ids and where their bits lie.
fn are_alike_but_for_ids(alloc: Global, first: &Field, second: &Field) -> Result<bool, AllocError> {
    let mut parts = String::new(alloc);
    add_changes(&mut parts, first, second)?;
    Ok(parts.is_empty())
}
