//! Descriptors that are written anew.
ghost use Rattle.std.specs.Prelude.{◌≡◌, ◌≢◌, ◌↔◌, ◌++◌, ℕ, List, [], Ok, IfErr, IfOk, flat_map};
ghost use Rattle.hidreport_items.specs.Kept.{is_kept};
ghost use Rattle.hidreport_items.specs.Spelling.{item_of};
ghost use Rattle.hidreport_items.specs.Writing.{item_bytes};
ghost use Rattle.hidreport_lists.specs.Answer.{AnswersBy, IsOfItems};
ghost use Rattle.hidreport_lists.specs.Entry.{Entry};
ghost use Rattle.hidreport_lists.specs.Itemising.{as_refusal, itemise, Itemises, all_bytes};
ghost use Rattle.hidreport_lists.specs.Rebuilt.{AreCanonical, items_of, kept_entries, rebuild_answer, rebuilt_bytes, canonical_entries};

use crate::error::ParserError;
use crate::list::{ReportDescriptorItem, ReportDescriptorItems};
use crate::short_item::Item;
use hidreport_items::{GlobalItem, ItemType, LocalItem, write_item};
use std::alloc::{AllocError, Global};

/// Writes a descriptor anew, each item in its canonical spelling, the shortest with data
/// (Section 6.2.2.2).
///
/// The items stand in their order, without long ones and reserved ones. The answer is empty where
/// no item is kept. Where it isn't, it itemises to just the kept items (`again`), and is what
/// rebuilding it gives (`itself`). Two descriptors are rebuilt alike just where they keep the same
/// items (`alike`).
///
/// # Errors
///
/// - What `ReportDescriptorItems::try_from` refuses, in its order: no bytes, or the first item that
///   can't be read.
/// - `OutOfMemory`: memory is refused; this says nothing of the bytes.
///
/// # Examples
///
/// ```rust
/// use hidreport::hid::rebuild;
///
/// let bytes = b"\x06\x01\x00\xc4\x0a\x30\x00\xfc\x17\x00\x00\x00\x00\xa0\xc1\x55";
/// let rebuilt = rebuild(alloc, bytes)?;
/// assert_eq!(rt; rebuilt.as_slice(), b"\x05\x01\x09\x30\x15\x00\xa1\x00\xc0".as_slice());
/// ```
pub fn rebuild(alloc: Global, bytes: &[u8]) -> Result<Vec<u8>, ParserError>
    ensures exact { AnswersBy (λ written. written.items) result
        (as_refusal (rebuild_answer (itemise item_of bytes.now))) }
    ensures named { IfErr result IsOfItems }
    ensures canonical { (entries : List Entry) → Itemises item_of bytes.now entries
        → IfOk result (λ bytes. (all_bytes (canonical_entries 0 (items_of (kept_entries entries)))
        ≡ bytes.items)
        × AreCanonical (canonical_entries 0 (items_of (kept_entries entries)))) }
    ensures again { (entries : List Entry) → Itemises item_of bytes.now entries
        → IfOk result (λ bytes. bytes.items ≢ []
        → Itemises item_of bytes.items (canonical_entries 0 (items_of (kept_entries entries)))) }
    ensures itself { IfOk result (λ bytes. bytes.items ≢ []
        → rebuild_answer (itemise item_of bytes.items) ≡ Ok bytes.items) }
    ensures alike { (other : List ℕ) (entries others : List Entry)
        → Itemises item_of bytes.now entries → Itemises item_of other others
        → (rebuilt_bytes entries ≡ rebuilt_bytes others)
        ↔ (items_of (kept_entries entries) ≡ items_of (kept_entries others)) }
{
    let items = ReportDescriptorItems::try_from(alloc, bytes)?;
    Ok(rebuilt(alloc, bytes.len(), items.as_slice())?)
}

/// The bytes of the items that are kept, joined, in a list that begins with this room.
fn rebuilt(
    alloc: Global,
    room: usize,
    items: &[ReportDescriptorItem],
) -> Result<Vec<u8>, AllocError>
    ensures { IfOk result (λ bytes. bytes.items ≡ rebuilt_bytes items.now) }
{
    let mut bytes = Vec::with_capacity(alloc, room)?;
    for entry in items {
        let item = entry.item().item_type();
        if is_kept(&item) {
            bytes.extend_from_slice(write_item(&item).as_slice())?;
        }
    }
    Ok(bytes)
}

/// Whether an item is of a kind that the standard of today gives a meaning.
fn is_kept(item: &ItemType) -> bool
    ensures { result ≡ is_kept item.now }
{
    match item {
        ItemType::Global(GlobalItem::Reserved) => false,
        ItemType::Local(LocalItem::Reserved { .. }) => false,
        ItemType::Long | ItemType::Reserved => false,
        _ => true,
    }
}
