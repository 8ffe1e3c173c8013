//! The items of a whole descriptor.
ghost use Rattle.std.specs.Prelude.{◌≡◌, ◌≢◌, ℕ, List, [], IfErr, IfOk};
ghost use Rattle.hidreport_items.specs.Answer.{GrammarFault};
ghost use Rattle.hidreport_items.specs.Spelling.{item_of};
ghost use Rattle.hidreport_lists.specs.Answer.{Answers, InvalidData, IsOfItems};
ghost use Rattle.hidreport_lists.specs.Entry.{Entry};
ghost use Rattle.hidreport_lists.specs.Headers.{headers_from};
ghost use Rattle.hidreport_lists.specs.Itemising.{as_refusal, itemise, Itemises, IsFaultAt, IsGrammarFault};
ghost use Rattle.hidreport_lists.specs.Messages.{grammar_message};
ghost use Rattle.hidreport_lists.specs.ShortOrLong.{spelling_of, IsByHeader};
ghost use Rattle.hidreport_lists.specs.WithoutLong.{ItemisesShort};

use crate::any_item::AnyItem;
use crate::error::ParserError;
use crate::fault::fault_at;
use crate::short_item::{Item, following};
use hidreport_items::HidError;
use std::alloc::Global;
use std::marker::Model;

/// An item of a descriptor with its offset.
#[derive(Debug, Drop)]
pub struct ReportDescriptorItem {
    offset: usize,
    item: AnyItem,
}

impl Model for ReportDescriptorItem {
    ghost use Rattle.hidreport_lists.specs.Entry.{Entry};
    ghost use Rattle.hidreport_lists.specs.ShortOrLong.{spelling_of, IsByHeader};

    ghost Value = { Entry };

    ghost view = { λ i. record {
      offset = i.offset;
      bytes = (spelling_of i.item).bytes;
      item = (spelling_of i.item).item;
    } };

    // A long item just where the header is one's.
    ghost invariant = { λ i. IsByHeader i.item (spelling_of i.item).bytes };
}

impl ReportDescriptorItem {
    /// The offset of the item's first byte in the descriptor, counted in bytes from 0.
    pub fn offset(&self) -> usize
        ensures { result ≡ self.now.offset }
    {
        self.offset
    }

    /// The item itself, a long one just where its header is FE.
    pub fn item(&self) -> &AnyItem
        ensures item { spelling_of result.now
            ≡ record { bytes = self.now.bytes; item = self.now.item } }
        ensures kind { IsByHeader result.now self.now.bytes }
    {
        &self.item
    }
}

/// The items of a descriptor, in order (Section 6.2.2.1).
#[derive(Debug, Drop)]
pub struct ReportDescriptorItems {
    items: Vec<ReportDescriptorItem>,
}

impl Model for ReportDescriptorItems {
    ghost use Rattle.std.specs.Prelude.{List};
    ghost use Rattle.hidreport_lists.specs.Entry.{Entry};

    ghost Value = { List Entry };

    ghost view = { λ l. l.items.items };
}

impl ReportDescriptorItems {
    /// Cuts the bytes of a descriptor into items, from the first byte to the last
    /// (Section 6.2.2.1).
    ///
    /// There is at most one way to do it. Where a list of short items alone has these bytes, it is
    /// the answer (`short`).
    ///
    /// # Errors
    ///
    /// - `InvalidData` at 0, `Insufficient data`: there are no bytes.
    /// - `InvalidData` at the offset of the first item that can't be read: `Insufficient data`
    ///   where bytes are missing, else `Invalid data: ` and the message of `ItemType::try_from`.
    /// - `OutOfMemory`: memory is refused; this says nothing of the bytes.
    ///
    /// # Examples
    ///
    /// ```rust
    /// use hidreport::hid::{Item, ReportDescriptorItems};
    ///
    /// let items = ReportDescriptorItems::try_from(alloc, b"\x05\x01\x75\x08")?;
    /// let second = items.as_slice().last().ok_or("no item")?;
    /// assert_eq!(rt; second.offset(), 2);
    /// assert_eq!(rt; second.item().bytes(), b"\x75\x08".as_slice());
    /// ```
    pub fn try_from(alloc: Global, bytes: &[u8]) -> Result<ReportDescriptorItems, ParserError>
        ensures exact { Answers result (as_refusal (itemise item_of bytes.now)) }
        ensures named { IfErr result IsOfItems }
        ensures items { IfOk result (λ items. Itemises item_of bytes.now items) }
        ensures only_items { (entries : List Entry)
            → Itemises item_of bytes.now entries → Answers result (Ok entries) }
        ensures fault { bytes.now ≢ []
            → IfErr result (λ error. IsGrammarFault item_of bytes.now error) }
        ensures only_fault { (offset : ℕ) (fault : GrammarFault)
            → IsFaultAt item_of bytes.now offset fault
            → Answers result (Err (InvalidData offset (grammar_message fault))) }
        ensures short { (entries : List Entry)
            → ItemisesShort item_of bytes.now entries → Answers result (Ok entries) }
    {
        if bytes.is_empty() {
            return Err(fault_at(alloc, 0, HidError::InsufficientData));
        }
        let mut items = Vec::with_capacity(alloc, item_count(bytes))?;
        let mut offset = 0;
        let mut rest = bytes;
        while !rest.is_empty() {
            match AnyItem::try_from(alloc, rest) {
                Ok(item) => {
                    let size = item.size();
                    items.push(ReportDescriptorItem { offset, item })?;
                    offset += size;
                    rest = rest.split_at(size).1;
                }
                Err(fault) => return Err(fault_at(alloc, offset, fault)),
            }
        }
        Ok(ReportDescriptorItems { items })
    }

    /// The items as a slice.
    pub fn as_slice(&self) -> &[ReportDescriptorItem]
        ensures { result.now ≡ self.now }
    {
        self.items.as_slice()
    }
}

/// How many items begin in the bytes, by what follows their headers; the last of them may be cut
/// short.
fn item_count(bytes: &[u8]) -> usize
    ensures { result ≡ headers_from 0 bytes.now }
{
    let mut count = 0;
    let mut index = 0;
    while index < bytes.len() {
        index += 1 + following(bytes[index], &bytes[index + 1..]);
        count += 1;
    }
    count
}
