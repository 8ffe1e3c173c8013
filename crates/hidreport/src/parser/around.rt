//! The collections around the fields of an item (Section 6.2.2.6).
ghost use Rattle.std.specs.Arc.{arc_slice_items};
ghost use Rattle.std.specs.Prelude.{◌≡◌, IfOk};

use crate::parser::named_collection::NamedCollection;
use crate::report::group_collection::GroupCollection;
use hidreport_fields::Collection;
use std::alloc::{AllocError, Global};
use std::sync::ArcSlice;

/// The collections around the fields of an item, outermost first, which items share.
#[derive(Drop)]
pub(crate) enum Around {
    /// As fields carry them.
    Listed(ArcSlice<Collection>),

    /// With their usages as items name them.
    Named(ArcSlice<NamedCollection>),
}

impl Around {
    ghost use Rattle.std.specs.Arc.{arc_slice_items};
    ghost use Rattle.std.specs.Prelude.{◌≡◌, IfOk, length, slice_get};
    ghost use Rattle.hidreport.specs.Parser.Layout.{around_list};

    /// Those that are open. Their usages are listed only if the fields are to be listed, or all
    /// usages are already.
    pub(crate) fn new(
        alloc: Global,
        open: &mut [NamedCollection],
        lists_fields: bool,
    ) -> Result<Around, AllocError>
        ensures all { IfOk result (λ around. around_list around ≡ open.old) }
        ensures same { open.new ≡ open.old }
    {
        if !lists_fields && waits(open) {
            return Ok(Around::Named(named(alloc, open)?));
        }
        for collection in open.iter_mut() {
            collection.list(alloc)?;
        }
        Ok(Around::Listed(listed(alloc, open)?))
    }

    /// The same once more.
    pub(crate) fn clone(&self) -> Result<Around, AllocError>
        ensures { IfOk result (λ copy. around_list copy ≡ around_list self.now) }
    {
        match self {
            Around::Listed(list) => Ok(Around::Listed(list.clone()?)),
            Around::Named(list) => Ok(Around::Named(list.clone()?)),
        }
    }

    /// How many there are.
    pub(crate) fn len(&self) -> usize
        ensures { result ≡ length (around_list self.now) }
    {
        match self {
            Around::Listed(list) => list.len(),
            Around::Named(list) => list.len(),
        }
    }

    /// Collection number `index`, `None` where there are no more.
    pub(crate) fn get(&self, index: usize) -> Option<GroupCollection<'_>>
        ensures { result ≡ slice_get (around_list self.now) index }
    {
        match self {
            Around::Listed(list) => match list.get(index) {
                Some(collection) => Some(GroupCollection::of_listed(collection)),
                None => None,
            },
            Around::Named(list) => match list.get(index) {
                Some(collection) => Some(GroupCollection::of_named(collection)),
                None => None,
            },
        }
    }

    /// The collections as fields carry them, which share the list, if there is one.
    pub(crate) fn listed(&self, alloc: Global) -> Result<ArcSlice<Collection>, AllocError>
        ensures { IfOk result (λ list. arc_slice_items list ≡ around_list self.now) }
    {
        match self {
            Around::Listed(list) => list.clone(),
            Around::Named(list) => listed(alloc, list),
        }
    }
}

/// Whether usages of a collection aren't listed.
fn waits(collections: &[NamedCollection]) -> bool {
    collections.iter().any(|collection| collection.waits())
}

/// A list of collections, which share their usages with these.
fn named(
    alloc: Global,
    collections: &[NamedCollection],
) -> Result<ArcSlice<NamedCollection>, AllocError>
    ensures { IfOk result (λ list. arc_slice_items list ≡ collections.now) }
{
    let mut list = Vec::with_capacity(alloc, collections.len())?;
    for collection in collections {
        list.push_reserved(collection.clone()?);
    }
    ArcSlice::from_vec(list)
}

/// The collections as fields carry them.
fn listed(
    alloc: Global,
    collections: &[NamedCollection],
) -> Result<ArcSlice<Collection>, AllocError>
    ensures { IfOk result (λ list. arc_slice_items list ≡ collections.now) }
{
    let mut list = Vec::with_capacity(alloc, collections.len())?;
    for collection in collections {
        list.push_reserved(collection.listed(alloc)?);
    }
    ArcSlice::from_vec(list)
}
