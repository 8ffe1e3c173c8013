//! A collection whose usages are as its item names them (Section 6.2.2.6).
use crate::parser::named_usages::NamedUsages;
use crate::parser::usages::Usages;
use hidreport_fields::{Collection, CollectionId, Usage, make_collection, numbered_collection};
use hidreport_items::CollectionItem;
use std::alloc::{AllocError, Global};
use std::marker::Model;

/// A collection whose usages are as its item names them: those between a minimum and a maximum
/// aren't listed (Section 6.2.2.6).
#[derive(Drop)]
pub(crate) struct NamedCollection {
    number: u32,
    collection_type: CollectionItem,
    usages: NamedUsages,
}

impl Model for NamedCollection {
    ghost use Rattle.hidreport.specs.Parser.NamedUsages.{IsCounted, named_usages};
    ghost use Rattle.hidreport_fields.specs.Records.{CollectionRecord};

    ghost Value = { CollectionRecord };

    ghost view = { λ c. record {
      id = c.number;
      kind = c.collection_type;
      usages = named_usages c.usages;
    } };

    ghost invariant = { λ c. IsCounted c.usages };
}

impl NamedCollection {
    ghost use Rattle.std.specs.Prelude.{◌≡◌, ◌<◌, ◌≤◌, ◌^◌, IfOk, length};
    ghost use Rattle.hidreport.specs.Fields.{usage_at};
    ghost use Rattle.hidreport.specs.Parser.Usages.{usage_list};
    ghost use Rattle.hidreport.specs.Weight.{collection_weight};

    /// The collection with these parts.
    pub(crate) fn new(
        alloc: Global,
        number: u32,
        collection_type: CollectionItem,
        usages: &Usages,
    ) -> Result<NamedCollection, AllocError>
        ensures { IfOk result (λ collection. collection ≡ record {
          id = number;
          kind = collection_type;
          usages = (usage_list usages.now).usages;
        }) }
    {
        Ok(NamedCollection {
            number,
            collection_type,
            usages: NamedUsages::new(alloc, usages)?,
        })
    }

    /// Its number, counted from 0 in the order of the descriptor.
    pub(crate) fn id(&self) -> CollectionId
        ensures { result ≡ self.now.id }
    {
        numbered_collection(self.number)
    }

    /// Its kind.
    pub(crate) fn collection_type(&self) -> CollectionItem
        ensures { result ≡ self.now.kind }
    {
        self.collection_type
    }

    /// How many usages it has.
    pub(crate) fn usage_count(&self) -> u64
        ensures { result ≡ length self.now.usages }
    {
        self.usages.count()
    }

    /// Usage number `index` of those that there are.
    pub(crate) fn usage(&self, index: usize) -> Usage
        requires { index < length self.now.usages }
        ensures { result ≡ usage_at self.now.usages index }
    {
        self.usages.usage(index)
    }

    /// The collection as fields carry it, its usages in a list.
    pub(crate) fn listed(&self, alloc: Global) -> Result<Collection, AllocError>
        ensures { IfOk result (λ collection. collection ≡ self.now) }
    {
        let id = numbered_collection(self.number);
        let usages = self.usages.listed(alloc)?;
        Ok(make_collection(id, self.collection_type, usages))
    }

    /// What it weighs in a field: 1 and its usages, listed or not.
    pub(crate) fn weight(&self) -> u128
        ensures weight { result ≡ collection_weight self.now }
        ensures bound { result ≤ 2 ^ 64 }
    {
        1 + u128::from(self.usages.count())
    }

    /// The same once more; lists are shared.
    pub(crate) fn clone(&self) -> Result<NamedCollection, AllocError>
        ensures { IfOk result (λ copy. copy ≡ self.now) }
    {
        Ok(NamedCollection {
            number: self.number,
            collection_type: self.collection_type,
            usages: self.usages.clone()?,
        })
    }

    /// Whether its usages aren't listed.
    pub(crate) fn waits(&self) -> bool {
        self.usages.waits()
    }

    /// Lists its usages, for all that share them.
    pub(crate) fn list(&mut self, alloc: Global) -> Result<(), AllocError>
        ensures { self.new ≡ self.old }
    {
        if self.usages.waits() {
            let usages = self.usages.listed(alloc)?;
            self.usages = NamedUsages::Listed(usages);
        }
        Ok(())
    }
}
