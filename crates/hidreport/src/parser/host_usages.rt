//! The usages of an item as hosts read them (Section 6.2.2.8).
ghost use Rattle.std.specs.Prelude.{◌≡◌, ◌<◌, ◌≤◌, ◌++◌, ◌^◌, false, flat_map, length, take, IfOk, OnOk};
ghost use Rattle.std.specs.List.{list_any};
ghost use Rattle.hidreport.specs.Fields.{usage_at};
ghost use Rattle.hidreport.specs.HostUsages.{completed, first_set, host_spans, minimum_behind, opens_set, span_of, spans, span_usages};

use crate::parser::paged_local::PagedLocal;
use crate::parser::usage_span::UsageSpan;
use hidreport_fields::Usage;
use hidreport_items::LocalItem;
use hidreport_types::{UsageId, UsagePage};
use std::alloc::{AllocError, Global};

/// What the local items name at a main item with this page in force.
pub(crate) fn host_spans(
    alloc: Global,
    page: UsagePage,
    locals: &[PagedLocal],
) -> Result<Vec<UsageSpan>, AllocError>
    ensures { IfOk result (λ named. named.items ≡ host_spans page locals.now) }
{
    let mut named = spans(alloc, first_set(locals))?;
    complete(page, named.as_mut_slice());
    Ok(named)
}

/// The local items before the second set of usages.
fn first_set(locals: &[PagedLocal]) -> &[PagedLocal]
    ensures { result.now ≡ first_set false locals.now }
{
    let mut is_open = false;
    for (index, local) in locals.iter().enumerate() {
        let opens = opens_set(&local.item);
        if is_open && opens {
            return &locals[..index];
        }
        is_open = is_open || opens;
    }
    locals
}

/// Whether it is a Delimiter that opens a set.
fn opens_set(item: &LocalItem) -> bool
    ensures { result ≡ opens_set item.now }
{
    match item {
        LocalItem::Delimiter(delimiter) => u32::from(*delimiter) != 0,
        _ => false,
    }
}

/// What the local items name, one after the other.
fn spans(alloc: Global, locals: &[PagedLocal]) -> Result<Vec<UsageSpan>, AllocError>
    ensures { IfOk result (λ named. named.items ≡ spans 0 locals.now) }
{
    let mut named = Vec::with_capacity(alloc, locals.len())?;
    let mut minimum = 0;
    for local in locals {
        let page = local.page.unwrap_or(UsagePage::from(0));
        if let Some(span) = span_of(page, minimum, &local.item) {
            named.push(span)?;
        }
        minimum = minimum_behind(minimum, &local.item);
    }
    Ok(named)
}

/// What a local item names, where this is the page and this the minimum in force.
fn span_of(page: UsagePage, minimum: u32, item: &LocalItem) -> Option<UsageSpan>
    ensures { result ≡ span_of page minimum item.now }
{
    match item {
        LocalItem::Usage(own, id) => Some(UsageSpan::of_usage(*own, *id)),
        LocalItem::UsageId(id) => {
            let number = u32::from(u16::from(*id));
            Some(UsageSpan::up_to(page, number, number, false))
        }
        LocalItem::UsageMaximum(maximum) => {
            Some(UsageSpan::up_to(page, minimum, u32::from(*maximum), true))
        }
        _ => None,
    }
}

/// The minimum in force behind a local item.
fn minimum_behind(minimum: u32, item: &LocalItem) -> u32
    ensures { result ≡ minimum_behind minimum item.now }
{
    match item {
        LocalItem::UsageMinimum(minimum) => u32::from(*minimum),
        _ => minimum,
    }
}

/// Moves the spans behind the last that lies on this page to it.
fn complete(page: UsagePage, spans: &mut [UsageSpan])
    ensures { spans.new ≡ completed page spans.old }
{
    let mut index = spans.len();
    while index > 0 {
        let span = spans[index - 1];
        if span.lies_on(page) {
            return;
        }
        spans[index - 1] = span.moved_to(page);
        index -= 1;
    }
}

/// How many usages they are.
pub(crate) fn count(spans: &[UsageSpan]) -> u128
    ensures count { result ≡ length (flat_map span_usages spans.now) }
    ensures bound { result ≤ 2 ^ 96 }
{
    let mut total = 0;
    for span in spans {
        total += u128::from(span.count());
    }
    total
}

/// Usage number `c`, or the last one where there are fewer.
pub(crate) fn usage_at(spans: &[UsageSpan], c: usize) -> Usage
    requires { 0 < length (flat_map span_usages spans.now) }
    ensures { result ≡ usage_at (flat_map span_usages spans.now) c }
{
    let mut before = c as u64;
    let mut last = Usage::from_page_and_id(UsagePage::from(0), UsageId::from(0));
    for span in spans {
        let count = span.count();
        if before < count {
            return span.at(before);
        }
        if count > 0 {
            last = span.at(count - 1);
        }
        before -= count;
    }
    last
}

/// All of them in a list.
pub(crate) fn list(alloc: Global, spans: &[UsageSpan]) -> Result<Vec<Usage>, AllocError>
    ensures { IfOk result (λ list. list.items ≡ flat_map span_usages spans.now) }
{
    let mut list = Vec::new(alloc);
    for span in spans {
        push_usages(&mut list, span, span.count())?;
    }
    Ok(list)
}

/// So many of the first ones in a list, or all where there are fewer.
pub(crate) fn list_first(
    alloc: Global,
    spans: &[UsageSpan],
    most: usize,
) -> Result<Vec<Usage>, AllocError>
    ensures { IfOk result (λ list. list.items ≡ take most (flat_map span_usages spans.now)) }
{
    let mut list = Vec::new(alloc);
    let mut room = most as u64;
    for span in spans {
        let count = span.count().min(room);
        push_usages(&mut list, span, count)?;
        room -= count;
    }
    Ok(list)
}

/// Adds so many usages of a span, the first ones.
fn push_usages(list: &mut Vec<Usage>, span: &UsageSpan, count: u64) -> Result<(), AllocError>
    requires { count ≤ length (span_usages span.now) }
    ensures { OnOk result (list.new.items ≡ list.old.items ++ take count (span_usages span.now)) }
{
    list.reserve(count as usize)?;
    for behind in 0..count {
        list.push_reserved(span.at(behind));
    }
    Ok(())
}
