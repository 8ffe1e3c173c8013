ghost use Rattle.std.specs.Prelude.{◌≡◌, [], ◌∷◌, ◌++◌, ℕ, List, Err, Ok, length};
ghost use Rattle.hidreport.specs.Entry.{Entry};
ghost use Rattle.hidreport.specs.ItemAnswer.{GrammarFault};
ghost use Rattle.hidreport.specs.Itemising.{as_refusal, itemise};
ghost use Rattle.hidreport.specs.Rebuilt.{rebuild_answer};
ghost use Rattle.hidreport.specs.Spelling.{item_of};
ghost use Rattle.hidreport_c.specs.Answer.{Lists, array_after, counted, listed};
ghost use Rattle.hidreport_c.specs.declared.structs.HidreportItem.{HidreportItem};
ghost use Rattle.hidreport_c.specs.Items.{front_items, item_as_c, items_as_c, items_end};

use crate::answer::{refusal, write_list};
use crate::part::{Part, write};
use crate::structs::{HidreportAnswer, HidreportItem};
use hidreport::hid::{Item, ReportDescriptorItem, ReportDescriptorItems, front_item, rebuild};
use std::alloc::Global;

impl Part for ReportDescriptorItem {
    type InC = HidreportItem;

    ghost in_c = { item_as_c };

    fn in_c(&self) -> HidreportItem {
        HidreportItem {
            offset: self.offset(),
            size: self.item().size(),
        }
    }
}

/// The items of a descriptor, in order (Section 6.2.2.1). They are written and counted as
/// `hidreport_describe` says; bytes that are no items are refused with 1, whatever they would mean.
#[unsafe(no_mangle)]
pub extern "C" fn hidreport_items(
    alloc: Global,
    descriptor: &[u8],
    items: &mut [HidreportItem],
) -> HidreportAnswer
    ensures { Lists (listed items_as_c (as_refusal (itemise item_of descriptor.now)))
        items.old items.new result }
{
    match ReportDescriptorItems::try_from(alloc, descriptor) {
        Ok(listed) => write(listed.as_slice(), items),
        Err(error) => refusal(&error),
    }
}

/// The items before the first that can't be read, or all where each can (Section 6.2.2.1): they are
/// written and counted as `hidreport_describe` says, and never refused. It takes no memory.
///
/// Where `hidreport_items` lists the items, they are the same (`whole`); where it refuses them, the
/// refused item stands behind the last of these (`fault`).
#[unsafe(no_mangle)]
pub extern "C" fn hidreport_front_items(
    descriptor: &[u8],
    items: &mut [HidreportItem],
) -> HidreportAnswer
    ensures answer { result ≡ counted (length (front_items 0 0 descriptor.now)) }
    ensures written { items.new ≡ array_after (front_items 0 0 descriptor.now) items.old }
    ensures whole { (entries : List Entry) → itemise item_of descriptor.now ≡ Ok entries
        → front_items 0 0 descriptor.now ≡ items_as_c entries }
    ensures fault { (offset : ℕ) (fault : GrammarFault)
        → itemise item_of descriptor.now ≡ Err (offset, fault)
        → items_end 0 (front_items 0 0 descriptor.now) ≡ offset }
{
    let mut count: usize = 0;
    let mut offset: usize = 0;
    let mut rest = descriptor;
    while !rest.is_empty() {
        let Ok(front) = front_item(rest) else {
            return HidreportAnswer::counted(count);
        };
        let size = front.size;
        write_at(HidreportItem { offset, size }, count, items);
        count += 1;
        offset += size;
        rest = rest.split_at(size).1;
    }
    HidreportAnswer::counted(count)
}

/// Writes an item at an index, if there is room for it: behind those that were written.
fn write_at(item: HidreportItem, place: usize, items: &mut [HidreportItem])
    ensures { (before old : List HidreportItem) → length before ≡ place
        → items.old ≡ array_after before old
        → items.new ≡ array_after (before ++ item ∷ []) old }
{
    if place < items.len() {
        items[place] = item;
    }
}

/// A descriptor written anew (Section 6.2.2.2), as `hid::rebuild` does: its items without long ones
/// and reserved ones, each in its canonical bytes. They are
/// written and counted as `hidreport_describe` says, and refused as `hidreport_items` says.
#[unsafe(no_mangle)]
pub extern "C" fn hidreport_rebuild(
    alloc: Global,
    descriptor: &[u8],
    bytes: &mut [u8],
) -> HidreportAnswer
    ensures { Lists (as_refusal (rebuild_answer (itemise item_of descriptor.now)))
        bytes.old bytes.new result }
{
    match rebuild(alloc, descriptor) {
        Ok(rebuilt) => write_list(&rebuilt, bytes),
        Err(error) => refusal(&error),
    }
}
