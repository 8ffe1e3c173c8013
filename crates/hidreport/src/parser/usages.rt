//! The usages of an item (Section 6.2.2.8).
ghost use Rattle.std.specs.Prelude.{◌≡◌, ◌≢◌, ◌<◌, length, map, None, IfErr, IfOk};
ghost use Rattle.hidreport.specs.Fields.{usage_at};
ghost use Rattle.hidreport.specs.Parser.Locals.{usage_under};
ghost use Rattle.hidreport.specs.Parser.Refusals.{Finds, fault_named};
ghost use Rattle.hidreport.specs.ItemState.{local_items};
ghost use Rattle.hidreport.specs.Parser.Usages.{spans_in, usage_list};
ghost use Rattle.hidreport.specs.Usages.{as_single, single_usages, standard_usages, usages_of, usages_of_spans};

use crate::parser::fault::Fault;
use crate::parser::host_usages;
use crate::parser::item_state_table::ItemStateTable;
use crate::parser::local_usages::LocalUsage;
use crate::parser::locals::Locals;
use crate::parser::usage_bounds::UsageBounds;
use crate::parser::usage_span::UsageSpan;
use crate::parser::usages_by::UsagesBy;
use hidreport_fields::Usage;
use hidreport_types::UsagePage;
use std::alloc::{AllocError, Global};

/// How many spans a field may go over to find its usage.
const FEW_SPANS: usize = 8;

/// The usages of an item, which aren't listed: those from a minimum to a maximum, single ones, or
/// those of spans.
#[derive(Clone, Copy)]
pub(crate) enum Usages<'a> {
    /// From a minimum to a maximum.
    Range(UsageBounds),

    /// Single ones; one without its own page lies on this one.
    Single(UsagePage, &'a [LocalUsage]),

    /// As hosts read them: those of spans, one after the other.
    Spans(&'a [UsageSpan]),
}

impl<'a> Usages<'a> {
    ghost use Rattle.std.specs.Prelude.{◌≡◌, ◌<◌, ◌≤◌, ◌^◌, [], false, is_some, length, nat_lt, take, IfOk, IfSome, IsNone};
    ghost use Rattle.hidreport.specs.Fields.{usage_at};
    ghost use Rattle.hidreport.specs.Parser.Usages.{usage_list};

    /// None at all.
    pub(crate) fn none() -> Usages<'a> {
        Usages::Range(UsageBounds {
            page: UsagePage::from(0),
            minimum: 1,
            maximum: 0,
        })
    }

    /// How many there are.
    pub(crate) fn count(&self) -> u128
        ensures count { result ≡ length (usage_list self.now).usages }
        ensures bound { result ≤ 2 ^ 96 }
    {
        match self {
            Usages::Range(bounds) => u128::from(bounds.count()),
            Usages::Single(_, usages) => usages.len() as u128,
            Usages::Spans(spans) => host_usages::count(spans),
        }
    }

    /// Whether they are those of a minimum and a maximum.
    pub(crate) fn is_range(&self) -> bool
        ensures { result ≡ (usage_list self.now).is_range }
    {
        matches!(self, Usages::Range(_))
    }

    /// Usage number `c`, or the last one where there are fewer.
    pub(crate) fn at(&self, c: usize) -> Usage
        requires { 0 < length (usage_list self.now).usages }
        ensures { result ≡ usage_at (usage_list self.now).usages c }
    {
        match self {
            Usages::Range(bounds) => bounds.at(c),
            Usages::Single(page, usages) => single_at(*page, usages, c),
            Usages::Spans(spans) => host_usages::usage_at(spans, c),
        }
    }

    /// The same, `None` where there is none.
    pub(crate) fn at_if_some(&self, c: usize) -> Option<Usage>
        ensures some { IfSome result (λ usage. usage ≡ usage_at (usage_list self.now).usages c) }
        ensures none { IsNone result → (usage_list self.now).usages ≡ [] }
        ensures there { is_some result ≡ nat_lt 0 (length (usage_list self.now).usages) }
    {
        if self.count() == 0 {
            return None;
        }
        Some(self.at(c))
    }

    /// So many of the first ones in a list, or all where there are fewer, where they are those of
    /// many spans: `at` goes over spans.
    pub(crate) fn first_of_many(
        &self,
        alloc: Global,
        most: usize,
    ) -> Result<Option<Vec<Usage>>, AllocError>
        ensures { IfOk result (λ listed.
            IfSome listed (λ list. list.items ≡ take most (usage_list self.now).usages)) }
    {
        match self {
            Usages::Spans(spans) if spans.len() > FEW_SPANS => {
                Ok(Some(host_usages::list_first(alloc, spans, most)?))
            }
            _ => Ok(None),
        }
    }

    /// All of them in a list, for which the room is asked at once.
    pub(crate) fn list(&self, alloc: Global) -> Result<Vec<Usage>, AllocError>
        ensures { IfOk result (λ list. list.items ≡ (usage_list self.now).usages) }
    {
        match self {
            Usages::Range(bounds) => bounds.list(alloc),
            Usages::Single(page, usages) => single_list(alloc, *page, usages),
            Usages::Spans(spans) => host_usages::list(alloc, spans),
        }
    }
}

/// Single usage number `c`, or the last one where there are fewer.
fn single_at(page: UsagePage, usages: &[LocalUsage], c: usize) -> Usage
    requires { 0 < length usages.now }
    ensures { result ≡ usage_at (map (usage_under page) usages.now) c }
{
    usages[c.min(usages.len() - 1)].under(page)
}

/// Usage number `c` of a list, or the last one where there are fewer.
pub(crate) fn usage_at(usages: &[Usage], c: usize) -> Usage
    requires { 0 < length usages.now }
    ensures { result ≡ usage_at usages.now c }
{
    usages[c.min(usages.len() - 1)]
}

/// Single usages in a list.
fn single_list(
    alloc: Global,
    page: UsagePage,
    usages: &[LocalUsage],
) -> Result<Vec<Usage>, AllocError>
    ensures { IfOk result (λ list. list.items ≡ map (usage_under page) usages.now) }
{
    let mut list = Vec::with_capacity(alloc, usages.len())?;
    for usage in usages {
        list.push_reserved(usage.under(page));
    }
    Ok(list)
}

/// A list with these elements.
pub(crate) fn copied<T: Copy>(alloc: Global, slice: &[T]) -> Result<Vec<T>, AllocError>
    ensures { IfOk result (λ list. list.items ≡ slice.now) }
{
    let mut list = Vec::with_capacity(alloc, slice.len())?;
    for element in slice {
        list.push_reserved(*element);
    }
    Ok(list)
}

/// The spans of usages that an item has as hosts read them; by the standard's rule there are none.
#[inline(always)]
pub(crate) fn spans_in(
    alloc: Global,
    item_states: &ItemStateTable,
) -> Result<Vec<UsageSpan>, AllocError>
    ensures { IfOk result (λ spans. spans.items ≡ spans_in item_states.now.now) }
{
    match item_states.usages_by() {
        UsagesBy::Standard => Ok(Vec::new(alloc)),
        UsagesBy::Hosts => {
            let page = item_states.globals().usage_page;
            let page = page.unwrap_or(UsagePage::from(0));
            host_usages::host_spans(alloc, page, item_states.locals().as_slice())
        }
    }
}

/// The usages that what is in force gives an item, which has these spans.
#[inline(always)]
pub(crate) fn usages_of<'a>(
    item_states: &'a ItemStateTable,
    spans: &'a [UsageSpan],
) -> Result<Usages<'a>, Fault>
    requires { spans.now ≡ spans_in item_states.now.now }
    ensures found { Finds usage_list result (usages_of item_states.now.now) }
    ensures named { IfErr result (λ e. fault_named e ≢ None) }
{
    match item_states.usages_by() {
        UsagesBy::Standard => standard_usages(item_states),
        UsagesBy::Hosts => Ok(host_usages(spans)),
    }
}

/// Those of spans: a range where a maximum alone named them, all on one page.
fn host_usages(spans: &[UsageSpan]) -> Usages<'_>
    ensures { usage_list result ≡ usages_of_spans spans.now }
{
    match spans {
        [span] if span.is_range && span.is_on_one_page() => Usages::Range(UsageBounds {
            page: span.usage(span.first).usage_page,
            minimum: span.first,
            maximum: span.last,
        }),
        _ => Usages::Spans(spans),
    }
}

/// By the letter of the standard.
///
/// With a minimum they are a range, which needs a maximum, then a page; else they are the single
/// usages. Of several minima or maxima the last counts.
fn standard_usages(item_states: &ItemStateTable) -> Result<Usages<'_>, Fault>
    ensures found { Finds usage_list result (standard_usages item_states.now.now.usage_page
        (local_items item_states.now.now.locals)) }
    ensures named { IfErr result (λ e. fault_named e ≢ None) }
{
    let locals = item_states.locals();
    let page = item_states.globals().usage_page;
    let Some(minimum) = locals.minimum() else {
        return single_usages(page, locals);
    };
    let Some(maximum) = locals.maximum() else {
        return Err(Fault::MissingUsageMaximum);
    };
    let Some(page) = page else {
        return Err(Fault::MissingUsagePage);
    };
    Ok(Usages::Range(UsageBounds {
        page,
        minimum: u32::from(minimum),
        maximum: u32::from(maximum),
    }))
}

/// The single usages, in order; one without a page of its own needs the page in force.
fn single_usages(page: Option<UsagePage>, locals: &Locals) -> Result<Usages<'_>, Fault>
    ensures found { Finds usage_list result
        (as_single (single_usages page (local_items locals.now))) }
    ensures named { IfErr result (λ e. fault_named e ≢ None) }
{
    let usages = locals.usages();
    match page {
        Some(page) => Ok(Usages::Single(page, usages.as_slice())),
        None if usages.have_pages() => Ok(Usages::Single(UsagePage::from(0), usages.as_slice())),
        None => Err(Fault::MissingUsagePage),
    }
}
