//! Collections.
ghost use Rattle.std.specs.Prelude.{◌≡◌, ◌↔◌, nat_eq, IfOk, IsTrue};
ghost use Rattle.std.specs.Cmp.Rules.{comparing, hashing};
ghost use Rattle.std.specs.Hash as fed;
ghost use Rattle.std.specs.Ordering.{on};
ghost use Rattle.std.proofs.Common.{rules};
ghost use Rattle.hidreport_fields.specs.CollectionUsages.{collection_usages};

use crate::field::usage::{Usage, are_same};
use hidreport_items::CollectionItem;
use std::alloc::AllocError;
use std::hash::{Hash, Hasher};
use std::marker::Model;
use std::slice;
use std::sync::ArcSlice;

/// The number of a collection, counted from 0 in the order of the descriptor.
#[derive(Debug, Drop, PartialEq, Eq, Hash, PartialOrd)]
pub struct CollectionId(u32);

impl Model for CollectionId {
    ghost use Rattle.std.specs.Prelude.{ℕ};

    ghost Value = { ℕ };

    ghost view = { λ c. c.0 };

    ghost inverse = { λ n. record { 0 = n } };
}

/// The id of the collection with this number.
pub fn numbered_collection(number: u32) -> CollectionId
    ensures { result ≡ number }
{
    CollectionId(number)
}

impl CollectionId {
    /// A copy of the id; takes no memory.
    pub fn clone(&self) -> CollectionId
        ensures { result ≡ self.now }
    {
        CollectionId(self.0)
    }
}

impl From<&CollectionId> for u32 {
    ghost from_gives = { λ id number. number ≡ id.now };

    fn from(collection_id: &CollectionId) -> u32 {
        collection_id.0
    }
}

impl From<CollectionId> for u32 {
    ghost from_gives = { λ id number. number ≡ id };

    fn from(id: CollectionId) -> u32 {
        u32::from(&id)
    }
}

/// The usages of a collection: one by itself, or a list that is shared.
#[derive(Debug, Drop)]
pub enum CollectionUsages {
    /// One usage.
    One(Usage),

    /// A list of usages.
    List(ArcSlice<Usage>),
}

impl CollectionUsages {
    ghost use Rattle.std.specs.Prelude.{◌≡◌, IfOk};
    ghost use Rattle.hidreport_fields.specs.CollectionUsages.{collection_usages};

    /// The usages as a slice.
    pub fn as_slice(&self) -> &[Usage]
        ensures { result.now ≡ collection_usages self.now }
    {
        match self {
            CollectionUsages::One(usage) => slice::from_ref(usage),
            CollectionUsages::List(usages) => usages.as_slice(),
        }
    }

    /// The same usages once more; a list is shared. It takes no memory; an `AllocError` comes only
    /// where a list would have 2^63 owners.
    pub fn clone(&self) -> Result<CollectionUsages, AllocError>
        ensures { IfOk result (λ copy. collection_usages copy ≡ collection_usages self.now) }
    {
        match self {
            CollectionUsages::One(usage) => Ok(CollectionUsages::One(*usage)),
            CollectionUsages::List(usages) => Ok(CollectionUsages::List(usages.clone()?)),
        }
    }
}

/// What a collection has: what its fields have in common, its id, and its usages, one by itself or a
/// list that is shared. In this order they take 16 bytes.
#[derive(Debug, Drop)]
pub(crate) enum CollectionParts {
    One(CollectionItem, CollectionId, Usage),
    List(CollectionItem, CollectionId, ArcSlice<Usage>),
}

/// A collection: a group of fields that belong together (Section 6.2.2.6).
///
/// Two collections are equal where their ids are.
#[derive(Debug, Drop)]
pub struct Collection {
    parts: CollectionParts,
}

impl Model for Collection {
    ghost use Rattle.hidreport_fields.specs.CollectionParts.{parts_record};
    ghost use Rattle.hidreport_fields.specs.Records.{CollectionRecord};

    ghost Value = { CollectionRecord };

    ghost view = { λ c. parts_record c.parts };
}

impl Collection {
    ghost use Rattle.hidreport_fields.specs.SharedCollections.{shared};

    /// The collection's number, counted from 0 in the order of the descriptor.
    pub fn id(&self) -> &CollectionId
        ensures { result.now ≡ self.now.id }
    {
        match &self.parts {
            CollectionParts::One(_, id, _) => id,
            CollectionParts::List(_, id, _) => id,
        }
    }

    /// The kind of the collection: what its fields have in common (Section 6.2.2.6).
    pub fn collection_type(&self) -> CollectionItem
        ensures { result ≡ self.now.kind }
    {
        match &self.parts {
            CollectionParts::One(kind, _, _) => *kind,
            CollectionParts::List(kind, _, _) => *kind,
        }
    }

    /// The collection's usages, in the order of the descriptor (Section 6.2.2.8).
    pub fn usages(&self) -> &[Usage]
        ensures { result.now ≡ self.now.usages }
    {
        match &self.parts {
            CollectionParts::One(_, _, usage) => slice::from_ref(usage),
            CollectionParts::List(_, _, usages) => usages.as_slice(),
        }
    }

    /// How many of the outermost collections two lists have in common (Section 6.2.2.6).
    ///
    /// On the way from one field to another, what comes after them in the first list is closed, and
    /// in the second opened.
    pub fn shared(before: &[Collection], around: &[Collection]) -> usize
        ensures { result ≡ shared before.now around.now }
    {
        let mut count = 0;
        let mut left = before;
        let mut right = around;
        while !left.is_empty() && !right.is_empty() && left[0] == right[0] {
            count += 1;
            left = left.split_at(1).1;
            right = right.split_at(1).1;
        }
        count
    }

    /// Whether another collection is the same in all parts: its id, its kind and its usages; takes
    /// no memory.
    ///
    /// `==` compares ids alone.
    pub fn is_alike(&self, other: &Collection) -> bool
        ensures { IsTrue result ↔ (self.now ≡ other.now) }
    {
        self.id() == other.id()
            && self.collection_type() == other.collection_type()
            && are_same(self.usages(), other.usages())
    }

    /// Whether two lists have collections that are alike, in the same order.
    pub(crate) fn are_alike(left: &[Collection], right: &[Collection]) -> bool
        ensures { IsTrue result ↔ (left.now ≡ right.now) }
    {
        if left.len() != right.len() {
            return false;
        }
        for index in 0..left.len() {
            if !left[index].is_alike(&right[index]) {
                return false;
            }
        }
        true
    }

    /// A copy of the collection, which takes no memory: both share the list of usages.
    ///
    /// # Errors
    ///
    /// - `AllocError`: the list of usages would have 2^63 owners.
    pub fn clone(&self) -> Result<Collection, AllocError>
        ensures { IfOk result (λ copy. copy ≡ self.now) }
    {
        let parts = match &self.parts {
            CollectionParts::One(kind, id, usage) => {
                CollectionParts::One(*kind, id.clone(), *usage)
            }
            CollectionParts::List(kind, id, usages) => {
                CollectionParts::List(*kind, id.clone(), usages.clone()?)
            }
        };
        Ok(Collection { parts })
    }
}

/// The collection with these parts.
pub fn make_collection(
    id: CollectionId,
    collection_type: CollectionItem,
    usages: CollectionUsages,
) -> Collection
    ensures { result ≡ record {
      id = id;
      kind = collection_type;
      usages = collection_usages usages;
    } }
{
    match usages {
        CollectionUsages::One(usage) => Collection {
            parts: CollectionParts::One(collection_type, id, usage),
        },
        CollectionUsages::List(usages) => Collection {
            parts: CollectionParts::List(collection_type, id, usages),
        },
    }
}

/// The same id.
impl PartialEq for Collection {
    ghost eq = { on (λ c. c.id) nat_eq };

    ghost laws = { Prim.search (comparing, rules) };

    fn eq(&self, other: &Collection) -> bool {
        self.id() == other.id()
    }
}

impl Eq for Collection {
    ghost laws = { Prim.search (comparing, rules) };
}

/// That of the id.
impl Hash for Collection {
    ghost hash_input = { λ c. fed.u32 c.id };

    ghost respects_eq = { Prim.search (hashing, rules) };

    fn hash<H: Hasher>(&self, state: &mut H) {
        self.id().hash(state);
    }
}
