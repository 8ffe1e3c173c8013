//! A collection around the fields of a main item (Section 6.2.2.6).
use crate::parser::named_collection::NamedCollection;
use crate::parser::usages::usage_at;
use hidreport_fields::{Collection, CollectionId, Usage};
use hidreport_items::CollectionItem;
use std::alloc::{AllocError, Global};
use std::marker::Model;

/// A collection around the fields of a group (Section 6.2.2.6).
///
/// Usages between a minimum and a maximum aren't listed, so that a few bytes which name many cost
/// little; `listed` is the collection as fields carry it.
#[derive(Drop)]
pub struct GroupCollection<'a> {
    form: CollectionForm<'a>,
}

/// How the collection is kept.
#[derive(Drop)]
pub(crate) enum CollectionForm<'a> {
    /// As fields carry it.
    Listed(&'a Collection),

    /// With its usages as its item names them.
    Named(&'a NamedCollection),
}

impl<'a> Model for GroupCollection<'a> {
    ghost use Rattle.hidreport.specs.Parser.GroupCollections.{collection_in};
    ghost use Rattle.hidreport_fields.specs.Records.{CollectionRecord};

    ghost Value = { CollectionRecord };

    ghost view = { λ c. collection_in c.form };
}

impl<'a> GroupCollection<'a> {
    ghost use Rattle.std.specs.Prelude.{◌≡◌, ◌<◌, IfOk, length, slice_get};
    ghost use Rattle.hidreport.specs.Fields.{usage_at};

    /// A collection as fields carry it.
    pub(crate) fn of_listed(collection: &'a Collection) -> GroupCollection<'a>
        ensures { result ≡ collection.now }
    {
        GroupCollection {
            form: CollectionForm::Listed(collection),
        }
    }

    /// A collection with its usages as its item names them.
    pub(crate) fn of_named(collection: &'a NamedCollection) -> GroupCollection<'a>
        ensures { result ≡ collection.now }
    {
        GroupCollection {
            form: CollectionForm::Named(collection),
        }
    }

    /// The collection's number, counted from 0 in the order of the descriptor.
    pub fn id(&self) -> CollectionId
        ensures { result ≡ self.now.id }
    {
        match &self.form {
            CollectionForm::Listed(collection) => collection.id().clone(),
            CollectionForm::Named(collection) => collection.id(),
        }
    }

    /// The kind of the collection: what its fields have in common (Section 6.2.2.6).
    pub fn collection_type(&self) -> CollectionItem
        ensures { result ≡ self.now.kind }
    {
        match &self.form {
            CollectionForm::Listed(collection) => collection.collection_type(),
            CollectionForm::Named(collection) => collection.collection_type(),
        }
    }

    /// How many usages the collection has (Section 6.2.2.8).
    pub fn usage_count(&self) -> u64
        ensures { result ≡ length self.now.usages }
    {
        match &self.form {
            CollectionForm::Listed(collection) => collection.usages().len() as u64,
            CollectionForm::Named(collection) => collection.usage_count(),
        }
    }

    /// Usage number `index` of the collection, counted from 0 in the order of the descriptor
    /// (Section 6.2.2.8); `None` where there are no more.
    pub fn usage(&self, index: usize) -> Option<Usage>
        ensures { result ≡ slice_get self.now.usages index }
    {
        if index as u64 >= self.usage_count() {
            return None;
        }
        Some(self.usage_there(index))
    }

    /// Usage number `index` of those that there are.
    fn usage_there(&self, index: usize) -> Usage
        requires { index < length self.now.usages }
        ensures { result ≡ usage_at self.now.usages index }
    {
        match &self.form {
            CollectionForm::Listed(collection) => usage_at(collection.usages(), index),
            CollectionForm::Named(collection) => collection.usage(index),
        }
    }

    /// The collection as fields carry it, its usages in a list.
    ///
    /// # Errors
    ///
    /// - `AllocError`: memory for the list is refused, or it would have 2^63 owners.
    pub fn listed(&self, alloc: Global) -> Result<Collection, AllocError>
        ensures { IfOk result (λ collection. collection ≡ self.now) }
    {
        match &self.form {
            CollectionForm::Listed(collection) => Collection::clone(collection),
            CollectionForm::Named(collection) => collection.listed(alloc),
        }
    }
}
