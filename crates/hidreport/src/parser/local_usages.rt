//! The single usages among the local items in force (Section 6.2.2.8).
ghost use Rattle.std.specs.Prelude.{◌≡◌};

use hidreport_fields::Usage;
use hidreport_types::{UsageId, UsagePage};
use std::alloc::{AllocError, Global};
use std::marker::Model;

/// A single usage of a local item, which may have no page of its own.
#[derive(Clone, Copy)]
pub(crate) struct LocalUsage {
    pub(crate) page: Option<UsagePage>,
    pub(crate) id: UsageId,
}

/// Single usages, and how many of them have no page of their own.
#[derive(Drop)]
pub(crate) struct LocalUsages {
    list: Vec<LocalUsage>,
    lacking_page: usize,
}

impl LocalUsage {
    ghost use Rattle.std.specs.Prelude.{◌≡◌};
    ghost use Rattle.hidreport.specs.Parser.Locals.{lacks_page, usage_under};

    /// Whether it has no page of its own.
    fn lacks_page(&self) -> bool
        ensures { result ≡ lacks_page self.now }
    {
        self.page.is_none()
    }

    /// The usage, on this page where it has none of its own.
    pub(crate) fn under(self, page: UsagePage) -> Usage
        ensures { result ≡ usage_under page self }
    {
        Usage::from_page_and_id(self.page.unwrap_or(page), self.id)
    }
}

impl Model for LocalUsages {
    ghost use Rattle.std.specs.Prelude.{◌≡◌, List, count_by};
    ghost use Rattle.hidreport.specs.Parser.Locals.{lacks_page};
    ghost use Rattle.hidreport.specs.declared.parser.local_usages.LocalUsage.{LocalUsage};

    ghost Value = { List LocalUsage };

    ghost view = { λ u. u.list.items };

    ghost invariant = { λ u. u.lacking_page ≡ count_by lacks_page u.list.items };
}

impl LocalUsages {
    ghost use Rattle.std.specs.Prelude.{◌≡◌, ◌<◌, [], ◌∷◌, ◌++◌, count_by, IsTrue, OnErr, OnOk, false};
    ghost use Rattle.hidreport.specs.Parser.Locals.{lacks_page, without_last};

    /// None.
    pub(crate) fn new(alloc: Global) -> LocalUsages
        ensures { result ≡ [] }
    {
        LocalUsages {
            list: Vec::new(alloc),
            lacking_page: 0,
        }
    }

    /// All of them.
    pub(crate) fn as_slice(&self) -> &[LocalUsage]
        ensures { result.now ≡ self.now }
    {
        &self.list
    }

    /// Whether each has a page of its own.
    pub(crate) fn have_pages(&self) -> bool
        ensures own { IsTrue result → count_by lacks_page self.now ≡ 0 }
        ensures lacks { result ≡ false → 0 < count_by lacks_page self.now }
    {
        self.lacking_page == 0
    }

    /// Adds one.
    pub(crate) fn push(&mut self, usage: LocalUsage) -> Result<(), AllocError>
        ensures ok { OnOk result (self.new ≡ self.old ++ usage ∷ []) }
        ensures err { OnErr result (self.new ≡ self.old) }
    {
        self.list.reserve(1)?;
        if usage.page.is_none() {
            self.lacking_page += 1;
        }
        self.list.push_reserved(usage);
        Ok(())
    }

    /// Takes the last one away where this is so.
    pub(crate) fn pop_if(&mut self, is_so: bool)
        ensures { self.new ≡ without_last is_so self.old }
    {
        if is_so && let Some(usage) = self.list.pop() {
            self.lacking_page -= usage.lacks_page() as usize;
        }
    }

    /// Takes all away.
    pub(crate) fn clear(&mut self)
        ensures { self.new ≡ [] }
    {
        self.list.clear();
        self.lacking_page = 0;
    }
}
