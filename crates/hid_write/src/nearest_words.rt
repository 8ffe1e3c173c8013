//! The words of items that are nearest to those of a line that says none.
use hid_nearest::Nearest;
use hid_words::{add_page, add_usage_on_page};
use hidreport::Usage;
use hidreport::hid::{CollectionItem, GlobalItem, ItemType, LocalItem, MainItem};
use hidreport::types::UsagePage;
use hidreport_items::read_item;
use hidreport_usages::{collection_name, item_name, page_name, usage_name};
use std::alloc::{AllocError, Global};
use std::fmt::Write;

/// How many usages of a page are looked at.
const LOOKED_AT: u32 = 4_096;

/// What stands where flags are none.
const FLAGS: &str = "; flags stand as in Input (Data,Var,Abs), or as a number";

/// What stands where a number is none.
const NUMBER: &str = "; a number is decimal, or hexadecimal behind 0x";

/// What is looked for where words say no item.
#[derive(Clone, Copy)]
enum LookedFor {
    /// The name of an item.
    Names,
    /// Of a collection its kind.
    Kinds,
    /// A page.
    Pages,
    /// A usage of the page in force.
    Usages,
    /// Nothing: this is said.
    Nothing(&'static str),
}

/// Appends what a line may have been meant to say: the name of an item where it has none of them, else
/// what may stand in the parentheses of the item that it names.
pub fn add_nearest_words(
    text: &mut String,
    words: &str,
    page: UsagePage,
) -> Result<(), AllocError> {
    let (name, told) = words.split_once("(").unwrap_or((words, ""));
    let name = name.trim();
    let looked_for = looked_for(name, told.trim(), page);
    if let LookedFor::Nothing(said) = looked_for {
        return text.push_str(said);
    }
    let mut nearest = Nearest::new(*text.allocator(), words)?;
    add_all(&mut nearest, *text.allocator(), looked_for, name, page)?;
    match nearest.first() {
        Some(name) => write!(text, "; the nearest is {name}"),
        None => Ok(()),
    }
}

/// What is looked for where the words name this item, and have these in its parentheses.
fn looked_for(name: &str, told: &str, page: UsagePage) -> LookedFor {
    match item_named(name) {
        None => LookedFor::Names,
        Some(ItemType::Main(MainItem::EndCollection)) => LookedFor::Nothing(""),
        Some(ItemType::Main(MainItem::Collection(_))) => LookedFor::Kinds,
        Some(ItemType::Main(_)) => LookedFor::Nothing(FLAGS),
        Some(_) if is_number(told) => LookedFor::Nothing(NUMBER),
        Some(ItemType::Global(GlobalItem::UsagePage(_))) => LookedFor::Pages,
        Some(ItemType::Local(local)) if has_usage(&local) => match u16::from(page) {
            0 => LookedFor::Nothing("; no usage page is in force"),
            _ => LookedFor::Usages,
        },
        Some(_) => LookedFor::Nothing(NUMBER),
    }
}

/// Takes all words that are looked for.
fn add_all(
    nearest: &mut Nearest,
    alloc: Global,
    looked_for: LookedFor,
    name: &str,
    page: UsagePage,
) -> Result<(), AllocError> {
    match looked_for {
        LookedFor::Names => add_names(nearest, alloc),
        LookedFor::Kinds => add_kinds(nearest, alloc, name),
        LookedFor::Pages => add_pages(nearest, alloc, name),
        LookedFor::Usages => add_usages(nearest, alloc, name, page),
        LookedFor::Nothing(_) => Ok(()),
    }
}

/// Whether what stands in parentheses begins as a number.
fn is_number(told: &str) -> bool {
    matches!(told.as_bytes().first(), Some(b'0'..=b'9' | b'-'))
}

/// Whether a local item names a usage.
fn has_usage(item: &LocalItem) -> bool {
    matches!(
        item,
        LocalItem::Usage(..)
            | LocalItem::UsageId(_)
            | LocalItem::UsageMinimum(_)
            | LocalItem::UsageMaximum(_)
    )
}

/// An item with this name.
fn item_named(name: &str) -> Option<ItemType> {
    for tag in 0..64u8 {
        if let Ok(item) = read_item((tag * 4) | 1, &[0]) {
            if item_name(&item).eq_ignore_ascii_case(name) {
                return Some(item);
            }
        }
    }
    None
}

/// Takes the names of all items.
fn add_names(nearest: &mut Nearest, alloc: Global) -> Result<(), AllocError> {
    for tag in 0..64u8 {
        if let Ok(item) = read_item((tag * 4) | 1, &[0]) {
            nearest.add(String::from_str(alloc, item_name(&item))?)?;
        }
    }
    Ok(())
}

/// Takes the names of pages, but for those of vendors.
fn add_pages(nearest: &mut Nearest, alloc: Global, name: &str) -> Result<(), AllocError> {
    for number in 0..0xff00u16 {
        let page = UsagePage::from(number);
        if page_name(page).is_some() {
            let mut words = begun(alloc, name)?;
            add_page(&mut words, page)?;
            words.push_str(")")?;
            nearest.add(words)?;
        }
    }
    Ok(())
}

/// Takes the kinds of collections.
fn add_kinds(nearest: &mut Nearest, alloc: Global, name: &str) -> Result<(), AllocError> {
    for number in 0..7u8 {
        let mut words = begun(alloc, name)?;
        words.push_str(collection_name(&CollectionItem::from(number)))?;
        words.push_str(")")?;
        nearest.add(words)?;
    }
    Ok(())
}

/// Takes the names of a page's usages.
fn add_usages(
    nearest: &mut Nearest,
    alloc: Global,
    name: &str,
    page: UsagePage,
) -> Result<(), AllocError> {
    let first = u32::from(u16::from(page)) * 0x1_0000;
    for id in 0..LOOKED_AT {
        let number = first.saturating_add(id);
        if usage_name(Usage::from(number)).is_some() {
            let mut words = begun(alloc, name)?;
            add_usage_on_page(&mut words, Usage::from(number))?;
            words.push_str(")")?;
            nearest.add(words)?;
        }
    }
    Ok(())
}

/// An item's name and the parenthesis behind it.
fn begun(alloc: Global, name: &str) -> Result<String, AllocError> {
    let mut words = String::from_str(alloc, name)?;
    words.push_str(" (")?;
    Ok(words)
}
