//! The fields of two reports, paired by their usages and collections.
use hidreport::{Collection, Field, Usage};
use std::alloc::{AllocError, Global};

/// A field's place in its report, behind a number for what it is for and how many before it have
/// the same one.
#[derive(Clone, Copy, PartialEq, Eq, PartialOrd, Ord)]
struct Keyed {
    key: u64,
    rank: usize,
    place: usize,
}

/// For each field of two reports the place of the other's that it is paired with.
#[derive(Drop)]
pub struct Pairing {
    /// Those of the first report's fields.
    pub first: Vec<Option<usize>>,
    /// Those of the second's.
    pub second: Vec<Option<usize>>,
}

impl Pairing {
    /// The fields that have the same usages and collections are pairs, in the order in which they
    /// stand; then of the others those that have the same usages.
    pub fn new(alloc: Global, first: &[Field], second: &[Field]) -> Result<Pairing, AllocError> {
        let mut pairing = Pairing {
            first: vec![in alloc; None; first.len()]?,
            second: vec![in alloc; None; second.len()]?,
        };
        pairing.pair(alloc, first, second, true)?;
        pairing.pair(alloc, first, second, false)?;
        Ok(pairing)
    }

    /// Pairs the fields that aren't paired.
    fn pair(
        &mut self,
        alloc: Global,
        first: &[Field],
        second: &[Field],
        by_collections: bool,
    ) -> Result<(), AllocError> {
        let left = unpaired(alloc, first, &self.first, by_collections)?;
        let right = unpaired(alloc, second, &self.second, by_collections)?;
        for own in left.iter() {
            let found = right.binary_search_by(|it| (it.key, it.rank).cmp(&(own.key, own.rank)));
            if let Some(other) = found.ok().and_then(|index| right.get(index)) {
                if let Some(pair) = self.first.get_mut(own.place) {
                    *pair = Some(other.place);
                }
                if let Some(pair) = self.second.get_mut(other.place) {
                    *pair = Some(own.place);
                }
            }
        }
        Ok(())
    }
}

/// The fields that aren't paired, in the order of their numbers.
fn unpaired(
    alloc: Global,
    fields: &[Field],
    pairs: &[Option<usize>],
    by_collections: bool,
) -> Result<Vec<Keyed>, AllocError> {
    let mut list = Vec::new(alloc);
    for (place, (field, pair)) in fields.iter().zip(pairs.iter()).enumerate() {
        if pair.is_none() {
            let key = key_of(field, by_collections);
            list.push(Keyed {
                key,
                rank: 0,
                place,
            })?;
        }
    }
    list.sort()?;
    let mut before: Option<Keyed> = None;
    for own in list.iter_mut() {
        if let Some(before) = before {
            if before.key == own.key {
                own.rank = before.rank.saturating_add(1);
            }
        }
        before = Some(*own);
    }
    Ok(list)
}

/// A number for what a field is for: its kind, its usage or an array's page, and its collections.
fn key_of(field: &Field, by_collections: bool) -> u64 {
    let key = match field {
        Field::Variable(field) => mixed(1, u32::from(field.usage)),
        Field::Array(field) => mixed(2, field.usages().first().map_or(0, page_number)),
        Field::Constant(_) => 3,
    };
    if !by_collections {
        return key;
    }
    let mut key = key;
    for collection in field.collections() {
        key = with_collection(key, collection);
    }
    key
}

fn page_number(usage: &Usage) -> u32 {
    u32::from(u16::from(usage.usage_page))
}

/// A number with a collection's kind and usages mixed in.
fn with_collection(key: u64, collection: &Collection) -> u64 {
    let mut key = mixed(key, u32::from(u8::from(collection.collection_type())));
    for usage in collection.usages() {
        key = mixed(key, u32::from(*usage));
    }
    key
}

/// A number with another mixed in (FNV-1a, a word at a time).
fn mixed(key: u64, number: u32) -> u64 {
    (key ^ u64::from(number)).wrapping_mul(0x0000_0100_0000_01b3)
}
