//! The words that name the fields of a report for `hid set`.
use anyhow::Result;
use hid_output::{flush, flush_piece};
use hid_report::element_width;
use hid_words::{add_usage, add_usage_on_page};
use hidreport::types::UsagePage;
use hidreport::{ArrayField, Field, RDescReport, Report, Usage};
use hidreport_usages::usage_on_page;
use std::alloc::{AllocError, Global};
use std::fmt::Write;

/// How many pages names are looked for on; usages of more are named with theirs.
const PAGES: usize = 8;

/// A usage of a field.
#[derive(Clone, Copy)]
struct Named {
    usage: Usage,
    /// The number of its field in the report.
    field: usize,
    /// How many stand before it.
    place: usize,
    /// How many fields before its own have this usage.
    before: usize,
    /// Whether a number can be written for it, and its field has it here first.
    is_taken: bool,
}

/// Shows the words that name the fields of a report, one in each line.
pub fn show_names<R: AllocGlobal + Print>(rt: &R, report: &RDescReport) -> Result<()> {
    let named = named_in(rt.alloc(), report)?;
    let pages = pages_of(rt.alloc(), &named)?;
    let mut text = String::new(rt.alloc());
    for own in named.iter() {
        if own.is_taken {
            add_word(&mut text, own, &pages)?;
            flush_piece(rt, &mut text)?;
        }
    }
    flush(rt, &mut text)
}

/// The usages of all fields in their order.
fn named_in(alloc: Global, report: &RDescReport) -> Result<Vec<Named>, AllocError> {
    let mut named = Vec::new(alloc);
    for (field, own) in report.fields().iter().enumerate() {
        let taken = taken_of(own);
        for (index, usage) in own.usages().iter().enumerate() {
            named.push(Named {
                usage: *usage,
                field,
                place: named.len(),
                before: 0,
                is_taken: index < taken,
            })?;
        }
    }
    named.sort_by_key(|it| u32::from(it.usage))?;
    count_before(&mut named);
    named.sort_by_key(|it| it.place)?;
    Ok(named)
}

/// Counts the fields with the same usage before each, where these stand side by side.
fn count_before(named: &mut [Named]) {
    let mut last: Option<Named> = None;
    for own in named.iter_mut() {
        if let Some(last) = last {
            if last.usage == own.usage {
                let is_again = last.field == own.field;
                own.before = last.before.saturating_add(if is_again { 0 } else { 1 });
                own.is_taken = own.is_taken && !is_again;
            }
        }
        last = Some(*own);
    }
}

/// How many of a field's usages a number can be written for.
fn taken_of(field: &Field) -> usize {
    match field {
        Field::Variable(field) if 32 < field.bits.len() => 0,
        Field::Variable(_) => 1,
        Field::Array(field) => chosen_in(field),
        Field::Constant(_) => 0,
    }
}

/// How many usages of an array values stand for.
fn chosen_in(field: &ArrayField) -> usize {
    let low = i64::from(i32::from(field.logical_minimum));
    let high = i64::from(i32::from(field.logical_maximum));
    if 32 < element_width(field) || high < low {
        return 0;
    }
    (high - low).unsigned_abs().saturating_add(1) as usize
}

/// The pages of usages, as far as they are looked at.
fn pages_of(alloc: Global, named: &[Named]) -> Result<Vec<UsagePage>, AllocError> {
    let mut pages = Vec::new(alloc);
    for own in named {
        let page = own.usage.usage_page;
        if pages.len() <= PAGES && !pages.contains(&page) {
            pages.push(page)?;
        }
    }
    Ok(pages)
}

/// Appends the word that names a usage: its name, with its page's where another page has the name,
/// too, and which of several fields is meant.
fn add_word(text: &mut String, named: &Named, pages: &[UsagePage]) -> Result<(), AllocError> {
    let mut name = String::new(*text.allocator());
    add_usage_on_page(&mut name, named.usage)?;
    if is_alone(named.usage, name.as_str(), pages) {
        text.push_str(name.as_str())?;
    } else {
        add_usage(text, named.usage)?;
    }
    if named.before != 0 {
        let number = named.before.saturating_add(1);
        write!(text, "#{number}")?;
    }
    text.push_str("\n")
}

/// Whether a usage has a name that is on no other of these pages.
fn is_alone(usage: Usage, name: &str, pages: &[UsagePage]) -> bool {
    pages.len() <= PAGES
        && usage_on_page(usage.usage_page, name) == Some(usage.usage_id)
        && pages.iter().all(|page| *page == usage.usage_page
            || usage_on_page(*page, name).is_none())
}
