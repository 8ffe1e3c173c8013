//! The collections that are open (Section 6.2.2.6).
use crate::parser::around::Around;
use crate::parser::named_collection::NamedCollection;
use crate::parser::usages::Usages;
use hidreport_fields::DataItem;
use hidreport_items::CollectionItem;
use std::alloc::{AllocError, Global};
use std::marker::Model;
use std::mem;

/// The collections that are open, outermost first (Section 6.2.2.6).
///
/// Items share a list of them, which is kept as long as no collection opens or closes.
#[derive(Drop)]
pub(crate) struct OpenCollections {
    open: Vec<NamedCollection>,
    count: u64,
    weight: u128,
    shared: Option<Around>,
    lists_fields: bool,
}

impl Model for OpenCollections {
    ghost use Rattle.std.specs.Prelude.{◌≡◌, ◌≤◌, ◌*◌, ◌^◌, IfSome, sum_by};
    ghost use Rattle.hidreport.specs.Parser.Layout.{around_list};
    ghost use Rattle.hidreport.specs.Parser.Opened.{Opened};
    ghost use Rattle.hidreport.specs.Weight.{collection_weight};

    ghost Value = { Opened };

    ghost view = { λ o. record { list = o.open.items; count = o.count } };

    ghost invariant = { λ o. IfSome o.shared (λ around. around_list around ≡ o.open.items)
        × (o.weight ≡ sum_by collection_weight o.open.items)
        × (o.weight ≤ o.count * 2 ^ 64) × (o.count ≤ 2 ^ 32) };
}

impl OpenCollections {
    ghost use Rattle.std.specs.Prelude.{◌≡◌, ◌<◌, ◌+◌, ◌-◌, ◌^◌, ◌≤◌, false, [], ◌∷◌, ◌++◌, length, sum_by, take, IfOk, IfSome, IsTrue, OnOk, true};
    ghost use Rattle.hidreport.specs.Parser.Layout.{around_list, shared_list};
    ghost use Rattle.hidreport.specs.Parser.Usages.{usage_list};
    ghost use Rattle.hidreport.specs.Weight.{collection_weight};

    /// None is open. Usages are listed only where fields are to be.
    pub(crate) fn new(alloc: Global, lists_fields: bool) -> OpenCollections
        ensures { result ≡ record { list = []; count = 0 } }
    {
        OpenCollections {
            open: Vec::new(alloc),
            count: 0,
            weight: 0,
            shared: None,
            lists_fields,
        }
    }

    /// How many were opened.
    pub(crate) fn count(&self) -> u64
        ensures { result ≡ self.now.count }
    {
        self.count
    }

    /// What they weigh together in a field (see `try_from_within`).
    pub(crate) fn weight(&self) -> u128
        ensures weight { result ≡ sum_by collection_weight self.now.list }
        ensures bound { result ≤ 2 ^ 96 }
    {
        self.weight
    }

    /// Opens one with these parts and the next number.
    pub(crate) fn open(
        &mut self,
        alloc: Global,
        collection_type: CollectionItem,
        usages: &Usages,
    ) -> Result<(), AllocError>
        requires { self.old.count < 2 ^ 32 }
        ensures { OnOk result (self.new ≡ record {
          list = self.old.list ++ record {
            id = self.old.count;
            kind = collection_type;
            usages = (usage_list usages.now).usages;
          } ∷ [];
          count = self.old.count + 1;
        }) }
    {
        let collection = NamedCollection::new(alloc, self.count as u32, collection_type, usages)?;
        let weight = self.weight + collection.weight();
        self.shared = None;
        self.open.push(collection)?;
        self.count += 1;
        self.weight = weight;
        Ok(())
    }

    /// Closes the one that was opened last, and answers whether one was open.
    pub(crate) fn close(&mut self) -> bool
        ensures closed { IsTrue result → self.new ≡ record self.old {
          list = take (length self.old.list - 1) self.old.list;
        } }
        ensures deep { IsTrue result → 0 < length self.old.list }
        ensures none { result ≡ false → self.old.list ≡ [] }
    {
        self.shared = None;
        let Some(closed) = self.open.pop() else {
            return false;
        };
        self.weight -= closed.weight();
        true
    }

    /// The list of them for the fields of an item, until `keep` takes it back; padding lies in
    /// none, so none is made for it.
    #[inline(always)]
    pub(crate) fn shared_by(
        &mut self,
        alloc: Global,
        item: &DataItem,
    ) -> Result<Option<Around>, AllocError>
        ensures all { IfOk result (λ shared.
            item.now.flags.constant ≡ false → shared_list shared ≡ self.old.list) }
        ensures none { IfOk result (λ shared.
            item.now.flags.constant ≡ true → shared_list shared ≡ []) }
        ensures list { IfOk result (λ shared.
            IfSome shared (λ around. around_list around ≡ self.old.list)) }
        ensures same { self.new ≡ self.old }
    {
        if item.flags.is_constant {
            return Ok(None);
        }
        if let Some(shared) = mem::replace(&mut self.shared, None) {
            return Ok(Some(shared));
        }
        Ok(Some(Around::new(alloc, &mut self.open, self.lists_fields)?))
    }

    /// Keeps a list of them for the next item.
    #[inline(always)]
    pub(crate) fn keep(&mut self, shared: Option<Around>)
        requires { IfSome shared (λ around. around_list around ≡ self.old.list) }
        ensures { self.new ≡ self.old }
    {
        if let Some(shared) = shared {
            self.shared = Some(shared);
        }
    }
}
