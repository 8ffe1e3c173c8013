//! A caller's own types with the library's traits: each says just what its trait asks of it.
ghost use Rattle.std.specs.Prelude.{◌≡◌, [], ◌∷◌, None, false, map, pos};
ghost use Rattle.hidreport.specs.Flags.{flags_of};
ghost use Rattle.hidreport.specs.Views.{field_record};
ghost use Rattle.hidreport.specs.ItemType.TheVariants.{Main};
ghost use Rattle.hidreport.specs.MainItem.TheVariants.{EndCollection};

use hidreport::hid::{Item, ItemData, ItemType, MainDataItem, MainItem};
use hidreport::types::ReportId;
use hidreport::{Field, FieldAttributes, Report};

/// A data item that is kept as its number (Section 6.2.2.5).
#[derive(Clone, Copy)]
pub struct NumberedItem {
    /// The item's data: bit 0 is Constant, bit 8 Buffered Bytes.
    pub number: u32,
}

impl MainDataItem for NumberedItem {
    ghost item_flags = { λ item. flags_of item.number };

    fn is_constant(&self) -> bool {
        self.number % 2 == 1
    }

    fn is_variable(&self) -> bool {
        self.number / 2 % 2 == 1
    }

    fn is_relative(&self) -> bool {
        self.number / 4 % 2 == 1
    }

    fn wraps(&self) -> bool {
        self.number / 8 % 2 == 1
    }

    fn is_nonlinear(&self) -> bool {
        self.number / 16 % 2 == 1
    }

    fn has_no_preferred_state(&self) -> bool {
        self.number / 32 % 2 == 1
    }

    fn has_null_state(&self) -> bool {
        self.number / 64 % 2 == 1
    }

    fn is_buffered_bytes(&self) -> bool {
        self.number / 256 % 2 == 1
    }
}

/// A knob: what it has of its item (Section 6.2.2.5).
#[derive(Clone, Copy)]
pub struct Knob {
    /// The item that makes it.
    pub item: NumberedItem,

    /// Whether it may move by itself; none in an input report.
    pub volatile: Option<bool>,
}

impl FieldAttributes for Knob {
    ghost attributes = { λ knob. record {
      logical_minimum = pos 0;
      logical_maximum = pos 0;
      physical_minimum = None;
      physical_maximum = None;
      unit = None;
      unit_exponent = None;
      collections = [];
      flags = flags_of knob.item.number;
      volatile = knob.volatile;
    } };

    fn is_relative(&self) -> bool {
        self.item.is_relative()
    }

    fn wraps(&self) -> bool {
        self.item.wraps()
    }

    fn is_nonlinear(&self) -> bool {
        self.item.is_nonlinear()
    }

    fn has_no_preferred_state(&self) -> bool {
        self.item.has_no_preferred_state()
    }

    fn has_null_state(&self) -> bool {
        self.item.has_null_state()
    }

    fn is_buffered_bytes(&self) -> bool {
        self.item.is_buffered_bytes()
    }

    fn is_volatile(&self) -> Option<bool> {
        self.volatile
    }
}

/// A report of which a caller keeps the fields (Section 5.6).
#[derive(Drop)]
pub struct KeptReport {
    /// The report's id, where it has one.
    pub id: Option<ReportId>,

    /// Its fields, in the order of their bits.
    pub fields: Vec<Field>,

    /// Its length in bits.
    pub bits: usize,
}

impl Report for KeptReport {
    ghost id = { λ report. report.id };

    ghost size = { λ report. report.bits };

    ghost parts = { λ report. map field_record report.fields.items };

    fn report_id(&self) -> &Option<ReportId> {
        &self.id
    }

    fn fields(&self) -> &[Field] {
        &self.fields
    }

    fn size_in_bits(&self) -> usize {
        self.bits
    }
}

/// The item that closes a collection (Section 6.2.2.4): the byte C0.
#[derive(Clone, Copy)]
pub struct ClosingItem {
    bytes: [u8; 1],
}

impl ClosingItem {
    /// The item.
    pub fn new() -> ClosingItem
        ensures { result.bytes ≡ 0xc0 ∷ [] }
    {
        ClosingItem { bytes: [0xc0] }
    }
}

impl Item for ClosingItem {
    ghost item_bytes = { λ item. item.bytes };

    ghost item_meaning = { λ _. Main EndCollection };

    ghost item_tag = { λ _. 12 };

    ghost item_data = { λ _. [] };

    ghost is_long = { λ _. false };

    fn size(&self) -> usize {
        1
    }

    fn item_type(&self) -> ItemType {
        ItemType::Main(MainItem::EndCollection)
    }

    fn tag(&self) -> u8 {
        12
    }

    fn header(&self) -> u8 {
        self.bytes[0]
    }

    fn is_long_item(&self) -> bool {
        false
    }

    fn bytes(&self) -> &[u8] {
        &self.bytes
    }

    fn data(&self) -> Option<ItemData<'_>> {
        None
    }
}
