//! The local items in force (Section 6.2.2.8).
ghost use Rattle.std.specs.Prelude.{◌≡◌};
ghost use Rattle.hidreport.specs.Parser.Locals.{local_usage, without_last};
ghost use Rattle.hidreport.specs.Usages.{maximum_of, minimum_of};

use crate::parser::local_usages::{LocalUsage, LocalUsages};
use crate::parser::paged_local::PagedLocal;
use hidreport_items::LocalItem;
use hidreport_types::{UsageMaximum, UsageMinimum};
use std::alloc::{AllocError, Global};
use std::marker::Model;
use std::mem;

/// The local items since the last main item, in order. Those that say which usages an item has are
/// held by themselves, too, so that an item finds its usages without going over all local items.
#[derive(Drop)]
pub(crate) struct Locals {
    items: Vec<PagedLocal>,
    usages: LocalUsages,
    minima: Vec<UsageMinimum>,
    maxima: Vec<UsageMaximum>,
}

impl Model for Locals {
    ghost use Rattle.std.specs.Prelude.{◌≡◌, List, filter_map};
    ghost use Rattle.hidreport.specs.ItemState.{local_items};
    ghost use Rattle.hidreport.specs.Parser.Locals.{local_usage};
    ghost use Rattle.hidreport.specs.Usages.{maximum_of, minimum_of};
    ghost use Rattle.hidreport.specs.declared.parser.paged_local.PagedLocal.{PagedLocal};

    ghost Value = { List PagedLocal };

    ghost view = { λ l. l.items.items };

    ghost invariant = { λ l. (l.usages ≡ filter_map local_usage (local_items l.items.items))
        × (l.minima.items ≡ filter_map minimum_of (local_items l.items.items))
        × (l.maxima.items ≡ filter_map maximum_of (local_items l.items.items)) };
}

impl Locals {
    ghost use Rattle.std.specs.Prelude.{◌≡◌, ◌-◌, [], ◌∷◌, ◌++◌, length, take, OnErr, OnOk, filter_map};
    ghost use Rattle.hidreport.specs.ItemState.{local_items};
    ghost use Rattle.hidreport.specs.Parser.Locals.{local_usage};
    ghost use Rattle.hidreport.specs.Usages.{last_local, maximum_of, minimum_of};

    /// None.
    pub(crate) fn new(alloc: Global) -> Locals
        ensures { result ≡ [] }
    {
        Locals {
            items: Vec::new(alloc),
            usages: LocalUsages::new(alloc),
            minima: Vec::new(alloc),
            maxima: Vec::new(alloc),
        }
    }

    /// How many there are.
    pub(crate) fn len(&self) -> usize
        ensures { result ≡ length self.now }
    {
        self.items.len()
    }

    /// All of them.
    pub(crate) fn as_slice(&self) -> &[PagedLocal]
        ensures { result.now ≡ self.now }
    {
        &self.items
    }

    /// Those that are single usages.
    pub(crate) fn usages(&self) -> &LocalUsages
        ensures { result.now ≡ filter_map local_usage (local_items self.now) }
    {
        &self.usages
    }

    /// The last minimum.
    pub(crate) fn minimum(&self) -> Option<UsageMinimum>
        ensures { result ≡ last_local minimum_of (local_items self.now) }
    {
        self.minima.last().copied()
    }

    /// The last maximum.
    pub(crate) fn maximum(&self) -> Option<UsageMaximum>
        ensures { result ≡ last_local maximum_of (local_items self.now) }
    {
        self.maxima.last().copied()
    }

    /// Adds one.
    #[inline(always)]
    pub(crate) fn add(&mut self, local: PagedLocal) -> Result<(), AllocError>
        ensures ok { OnOk result (self.new ≡ self.old ++ local ∷ []) }
        ensures err { OnErr result (self.new ≡ self.old) }
    {
        self.items.reserve(1)?;
        if let Some(usage) = local_usage(&local.item) {
            self.usages.push(usage)?;
        }
        if let Some(minimum) = minimum_of(&local.item) {
            self.minima.push(minimum)?;
        }
        if let Some(maximum) = maximum_of(&local.item) {
            self.maxima.push(maximum)?;
        }
        self.items.push_reserved(local);
        Ok(())
    }

    /// Takes the last one away, if there is one.
    fn pop(&mut self)
        ensures { self.new ≡ take (length self.old - 1) self.old }
    {
        let Some(local) = self.items.pop() else {
            return;
        };
        self.usages.pop_if(local_usage(&local.item).is_some());
        pop_if(&mut self.minima, minimum_of(&local.item).is_some());
        pop_if(&mut self.maxima, maximum_of(&local.item).is_some());
    }

    /// Keeps so many, the first ones.
    pub(crate) fn truncate(&mut self, count: usize)
        ensures { self.new ≡ take count self.old }
    {
        while self.items.len() > count {
            self.pop();
        }
    }

    /// Takes all away.
    pub(crate) fn clear(&mut self)
        ensures { self.new ≡ [] }
    {
        self.items.clear();
        self.usages.clear();
        self.minima.clear();
        self.maxima.clear();
    }

    /// Hands them out; none are left.
    pub(crate) fn take(&mut self) -> Locals
        ensures all { result ≡ self.old }
        ensures none { self.new ≡ [] }
    {
        let alloc = *self.items.allocator();
        mem::replace(self, Locals::new(alloc))
    }
}

/// The single usage of a local item that is one.
fn local_usage(item: &LocalItem) -> Option<LocalUsage>
    ensures { result ≡ local_usage item.now }
{
    match item {
        LocalItem::Usage(page, id) => Some(LocalUsage {
            page: Some(*page),
            id: *id,
        }),
        LocalItem::UsageId(id) => Some(LocalUsage {
            page: None,
            id: *id,
        }),
        _ => None,
    }
}

/// The minimum of a local item that is one.
fn minimum_of(item: &LocalItem) -> Option<UsageMinimum>
    ensures { result ≡ minimum_of item.now }
{
    match item {
        LocalItem::UsageMinimum(minimum) => Some(*minimum),
        _ => None,
    }
}

/// The maximum of a local item that is one.
fn maximum_of(item: &LocalItem) -> Option<UsageMaximum>
    ensures { result ≡ maximum_of item.now }
{
    match item {
        LocalItem::UsageMaximum(maximum) => Some(*maximum),
        _ => None,
    }
}

/// Takes the last one away where this is so.
fn pop_if<T: Drop>(list: &mut Vec<T>, is_so: bool)
    ensures { list.new.items ≡ without_last is_so list.old.items }
{
    if is_so {
        list.pop();
    }
}
