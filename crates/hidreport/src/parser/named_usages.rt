//! The usages of a collection, which outlast its locals (Section 6.2.2.8).
ghost use Rattle.std.specs.Prelude.{◌≡◌, ◌≤◌, ◌<◌, ◌^◌, length, IfOk};
ghost use Rattle.hidreport_fields.specs.CollectionUsages.{collection_usages};
ghost use Rattle.hidreport.specs.Fields.{usage_at};
ghost use Rattle.hidreport.specs.Parser.NamedUsages.{IsCounted, named_usages};
ghost use Rattle.hidreport.specs.Parser.Usages.{usage_list};

use crate::parser::host_usages;
use crate::parser::usage_bounds::UsageBounds;
use crate::parser::usage_span::UsageSpan;
use crate::parser::usages::{Usages, copied, usage_at};
use hidreport_fields::{CollectionUsages, Usage};
use std::alloc::{AllocError, Global};
use std::sync::ArcSlice;

/// The usages of a collection: those between numbers aren't listed until a list is asked for.
#[derive(Drop)]
pub(crate) enum NamedUsages {
    /// From a minimum to a maximum.
    Range(UsageBounds),

    /// As hosts read them: those of spans.
    Spans(ArcSlice<UsageSpan>),

    /// All of them.
    Listed(CollectionUsages),
}

impl NamedUsages {
    /// The usages that are in force where a collection is opened. Of spans there are no more than a
    /// list could have.
    pub(crate) fn new(alloc: Global, usages: &Usages) -> Result<NamedUsages, AllocError>
        ensures same { IfOk result (λ named.
            named_usages named ≡ (usage_list usages.now).usages) }
        ensures counted { IfOk result IsCounted }
    {
        let count = usages.count();
        match usages {
            Usages::Range(bounds) => Ok(NamedUsages::Range(*bounds)),
            Usages::Single(page, [usage]) => {
                Ok(NamedUsages::Listed(CollectionUsages::One(usage.under(*page))))
            }
            Usages::Spans([span]) if span.first == span.last => {
                Ok(NamedUsages::Listed(CollectionUsages::One(span.usage(span.first))))
            }
            Usages::Spans(spans) if count < 1 << 64 => {
                Ok(NamedUsages::Spans(ArcSlice::from_vec(copied(alloc, spans)?)?))
            }
            Usages::Single(_, _) | Usages::Spans(_) => {
                let list = ArcSlice::from_vec(usages.list(alloc)?)?;
                Ok(NamedUsages::Listed(CollectionUsages::List(list)))
            }
        }
    }

    /// How many there are.
    pub(crate) fn count(&self) -> u64
        requires { IsCounted self.now }
        ensures { result ≡ length (named_usages self.now) }
    {
        match self {
            NamedUsages::Range(bounds) => bounds.count(),
            NamedUsages::Spans(spans) => host_usages::count(spans) as u64,
            NamedUsages::Listed(usages) => usages.as_slice().len() as u64,
        }
    }

    /// Usage number `index` of those that there are.
    pub(crate) fn usage(&self, index: usize) -> Usage
        requires { index < length (named_usages self.now) }
        ensures { result ≡ usage_at (named_usages self.now) index }
    {
        match self {
            NamedUsages::Range(bounds) => bounds.at(index),
            NamedUsages::Spans(spans) => host_usages::usage_at(spans, index),
            NamedUsages::Listed(usages) => usage_at(usages.as_slice(), index),
        }
    }

    /// Whether they aren't listed.
    pub(crate) fn waits(&self) -> bool {
        !matches!(self, NamedUsages::Listed(_))
    }

    /// The same once more; a list is shared.
    pub(crate) fn clone(&self) -> Result<NamedUsages, AllocError>
        ensures same { IfOk result (λ copy. named_usages copy ≡ named_usages self.now) }
        ensures counted { IsCounted self.now → IfOk result IsCounted }
    {
        match self {
            NamedUsages::Range(bounds) => Ok(NamedUsages::Range(*bounds)),
            NamedUsages::Spans(spans) => Ok(NamedUsages::Spans(spans.clone()?)),
            NamedUsages::Listed(usages) => Ok(NamedUsages::Listed(usages.clone()?)),
        }
    }

    /// All of them; those that are listed already share their list.
    pub(crate) fn listed(&self, alloc: Global) -> Result<CollectionUsages, AllocError>
        ensures { IfOk result (λ usages. collection_usages usages ≡ named_usages self.now) }
    {
        match self {
            NamedUsages::Range(bounds) => {
                Ok(CollectionUsages::List(ArcSlice::from_vec(bounds.list(alloc)?)?))
            }
            NamedUsages::Spans(spans) => {
                let list = host_usages::list(alloc, spans)?;
                Ok(CollectionUsages::List(ArcSlice::from_vec(list)?))
            }
            NamedUsages::Listed(usages) => usages.clone(),
        }
    }
}
