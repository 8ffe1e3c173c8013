//! The usages of an item, which outlast its locals (Section 6.2.2.8).
ghost use Rattle.std.specs.Prelude.{◌≡◌, IfOk, map, take};
ghost use Rattle.hidreport.specs.Parser.Locals.{usage_under};

use crate::parser::host_usages;
use crate::parser::layout::Layout;
use crate::parser::local_usages::LocalUsage;
use crate::parser::usage_bounds::UsageBounds;
use crate::parser::usage_span::UsageSpan;
use crate::parser::usages::{Usages, copied};
use hidreport_fields::{Field, Usage};
use hidreport_types::UsagePage;
use std::alloc::{AllocError, Global};

/// How many spans are kept as they are, however few usages are taken.
const FEW_SPANS: usize = 8;

/// The usages that the fields of an item take: no more than these, however many are in force.
#[derive(Drop)]
pub(crate) enum GroupUsages {
    /// From a minimum to a maximum, not listed.
    Range(UsageBounds),

    /// Single ones; one without its own page lies on this one.
    Single(UsagePage, Vec<LocalUsage>),

    /// As hosts read them: those of spans, not listed.
    Spans(Vec<UsageSpan>),
}

impl GroupUsages {
    ghost use Rattle.std.specs.Prelude.{◌≡◌, ◌++◌, [], IfOk, IfSome, IsNone, OnOk, is_some, length, map, nat_lt, option_map, false, flat_map, slice_get};
    ghost use Rattle.hidreport.specs.Fields.{usage_at};
    ghost use Rattle.hidreport.specs.HostUsages.{span_usages};
    ghost use Rattle.hidreport.specs.Parser.Groups.{HasFirst, own_usages};
    ghost use Rattle.hidreport.specs.Parser.Layout.{IsPossible, laid_out};
    ghost use Rattle.hidreport.specs.Parser.Usages.{usage_list};
    ghost use Rattle.hidreport_fields.specs.Views.{field_record};

    /// All of the usages, for an array.
    pub(crate) fn all(alloc: Global, usages: &Usages) -> Result<GroupUsages, AllocError>
        ensures { IfOk result (λ own. own_usages own ≡ usage_list usages.now) }
    {
        match usages {
            Usages::Range(bounds) => Ok(GroupUsages::Range(*bounds)),
            Usages::Single(page, usages) => {
                Ok(GroupUsages::Single(*page, copied(alloc, usages)?))
            }
            Usages::Spans(spans) => Ok(GroupUsages::Spans(copied(alloc, spans)?)),
        }
    }

    /// The usages that so many fields take, a usage each.
    pub(crate) fn first(
        alloc: Global,
        usages: &Usages,
        most: usize,
    ) -> Result<GroupUsages, AllocError>
        ensures { IfOk result (λ own. HasFirst most (own_usages own) (usage_list usages.now)) }
    {
        match usages {
            Usages::Range(bounds) => Ok(GroupUsages::Range(*bounds)),
            Usages::Single(page, usages) => {
                GroupUsages::first_of_single(alloc, *page, front(usages, most))
            }
            Usages::Spans(spans) => GroupUsages::first_of_spans(alloc, spans, most),
        }
    }

    /// Single ones, which take no memory where they count up.
    fn first_of_single(
        alloc: Global,
        page: UsagePage,
        usages: &[LocalUsage],
    ) -> Result<GroupUsages, AllocError>
        ensures { IfOk result (λ own. (own_usages own).usages ≡ map (usage_under page) usages.now) }
    {
        match UsageBounds::counting_up(page, usages) {
            Some(bounds) => Ok(GroupUsages::Range(bounds)),
            None => Ok(GroupUsages::Single(page, copied(alloc, usages)?)),
        }
    }

    /// The same of spans, which are listed where there are more of them than usages that are taken.
    fn first_of_spans(
        alloc: Global,
        spans: &[UsageSpan],
        most: usize,
    ) -> Result<GroupUsages, AllocError>
        ensures { IfOk result (λ own. HasFirst most (own_usages own)
            (record { usages = flat_map span_usages spans.now; is_range = false })) }
    {
        if spans.len() <= most.max(FEW_SPANS) {
            return Ok(GroupUsages::Spans(copied(alloc, spans)?));
        }
        let list = host_usages::list_first(alloc, spans, most)?;
        Ok(GroupUsages::Single(UsagePage::from(0), with_pages(alloc, &list)?))
    }

    /// Adds the fields that an item with these usages lays out to those that are there.
    pub(crate) fn add_fields(
        &self,
        alloc: Global,
        layout: &Layout,
        fields: &mut Vec<Field>,
    ) -> Result<(), AllocError>
        requires { IsPossible layout.now (own_usages self.now) }
        ensures { OnOk result (map field_record fields.new.items
            ≡ map field_record fields.old.items ++ laid_out layout.now (own_usages self.now)) }
    {
        match self {
            GroupUsages::Range(bounds) => {
                layout.add_fields(alloc, &Usages::Range(*bounds), fields)
            }
            GroupUsages::Single(page, usages) => {
                layout.add_fields(alloc, &Usages::Single(*page, usages.as_slice()), fields)
            }
            GroupUsages::Spans(spans) => {
                layout.add_fields(alloc, &Usages::Spans(spans.as_slice()), fields)
            }
        }
    }

    /// Field number `c` that an item with these usages lays out, `None` where it makes no more.
    pub(crate) fn field(
        &self,
        alloc: Global,
        layout: &Layout,
        c: usize,
    ) -> Result<Option<Field>, AllocError>
        requires { IsPossible layout.now (own_usages self.now) }
        ensures { IfOk result (λ field. option_map field_record field
            ≡ slice_get (laid_out layout.now (own_usages self.now)) c) }
    {
        match self {
            GroupUsages::Range(bounds) => layout.field(alloc, &Usages::Range(*bounds), c),
            GroupUsages::Single(page, usages) => {
                layout.field(alloc, &Usages::Single(*page, usages.as_slice()), c)
            }
            GroupUsages::Spans(spans) => layout.field(alloc, &Usages::Spans(spans.as_slice()), c),
        }
    }

    /// Usage number `c`, or the last one where there are fewer; `None` where there is none.
    pub(crate) fn at(&self, c: usize) -> Option<Usage>
        ensures some { IfSome result (λ usage. usage ≡ usage_at (own_usages self.now).usages c) }
        ensures none { IsNone result → (own_usages self.now).usages ≡ [] }
        ensures there { is_some result ≡ nat_lt 0 (length (own_usages self.now).usages) }
    {
        match self {
            GroupUsages::Range(bounds) => Usages::Range(*bounds).at_if_some(c),
            GroupUsages::Single(page, usages) => {
                Usages::Single(*page, usages.as_slice()).at_if_some(c)
            }
            GroupUsages::Spans(spans) => Usages::Spans(spans.as_slice()).at_if_some(c),
        }
    }
}

/// Usages as local items with pages of their own.
fn with_pages(alloc: Global, usages: &[Usage]) -> Result<Vec<LocalUsage>, AllocError>
    ensures { IfOk result (λ list. map (usage_under 0) list.items ≡ usages.now) }
{
    let mut list = Vec::with_capacity(alloc, usages.len())?;
    for usage in usages {
        list.push_reserved(LocalUsage {
            page: Some(usage.usage_page),
            id: usage.usage_id,
        });
    }
    Ok(list)
}

/// The first of these, so many, or all where there are fewer.
fn front(usages: &[LocalUsage], most: usize) -> &[LocalUsage]
    ensures { result.now ≡ take most usages.now }
{
    if most < usages.len() {
        usages.split_at(most).0
    } else {
        usages
    }
}
