//! The items that Windows reads, also where the standard has none.
ghost use Rattle.std.specs.Iterator.{at_most};

use hid_items::items::PlacedItem;
use hidreport::hid::ItemType;
use hidreport_lists::{front_item, front_parts};

/// A descriptor's items one after the other, up to the end or to one that is cut short. An item
/// without data has the data 0; one that the standard doesn't have is reserved.
#[derive(Clone, Copy)]
pub struct WindowsItems<'a> {
    offset: usize,
    rest: &'a [u8],
    /// How many items may follow: at most one for each byte.
    left: usize,
}

impl<'a> WindowsItems<'a> {
    /// Before the first item.
    pub fn new(bytes: &'a [u8]) -> WindowsItems<'a> {
        WindowsItems {
            offset: 0,
            rest: bytes,
            left: bytes.len(),
        }
    }

    /// How many bytes stand before what is left.
    pub fn offset(&self) -> usize {
        self.offset
    }
}

impl<'a> Iterator for WindowsItems<'a> {
    type Item = PlacedItem<'a>;

    ghost remaining = { λ s. at_most s.left };

    fn next(&mut self) -> Option<PlacedItem<'a>> {
        self.left = self.left.checked_sub(1)?;
        let Ok(parts) = front_parts(self.rest) else {
            return None;
        };
        let size = parts.data.len().saturating_add(1);
        let bytes = self.rest.get(..size)?;
        let item = item_of(parts.header, bytes);
        let offset = self.offset;
        self.offset = offset.saturating_add(size);
        self.rest = self.rest.get(size..)?;
        Some(PlacedItem {
            offset,
            bytes,
            item,
        })
    }
}

/// The item of these bytes, the first of which is its header.
fn item_of(header: u8, bytes: &[u8]) -> ItemType {
    if let Ok(front) = front_item(bytes) {
        return front.item;
    }
    if bytes.len() == 1 {
        let with_data = [header | 1, 0];
        if let Ok(front) = front_item(&with_data) {
            return front.item;
        }
    }
    ItemType::Reserved
}
