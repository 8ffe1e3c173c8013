//! Report descriptors that are built item by item.
ghost use Rattle.std.specs.Prelude.{◌≡◌, [], ◌∷◌, ◌++◌, IfOk, flat_map};
ghost use Rattle.std.specs.List.{list_all};
ghost use Rattle.hidreport_items.specs.Answer.{Writes};
ghost use Rattle.hidreport_items.specs.Writing.{item_bytes};
ghost use Rattle.hidreport_items.specs.declared.global.GlobalItem.TheVariants as global;
ghost use Rattle.hidreport_items.specs.declared.item.ItemType.TheVariants as item;
ghost use Rattle.hidreport_items.specs.declared.local.LocalItem.TheVariants as local;
ghost use Rattle.hidreport_items.specs.declared.main_item.MainItem.TheVariants as main;
ghost use Rattle.hidreport_lists.specs.DescriptorBuilder.{AreSpelled, Builds, built, Holds, WritesItems, is_written};

use crate::descriptor_builder_rules::{MayBuild, MayClose, MayOpen, MayPop, MayPush};
use crate::descriptor_builder_state::{
    ReportDescriptorBuilderState, ReportDescriptorBuilderToplevel,
};
use hidreport_items::{
    CollectionItem, FeatureItem, GlobalItem, HidError, InputItem, ItemType, MainItem, OutputItem,
    write_item,
};
use hidreport_types::{UsageId, UsagePage};
use std::alloc::Global;
use std::marker::{Model, PhantomData};

/// Makes a report descriptor, one item after the other (Section 6.2.2).
///
/// The parameter is what is open. Before `build` can be called, each collection of
/// `open_collection` has to be closed, and each Push of `push` has to have its `pop`. No collection
/// can be opened after an open Push, nor a ninth inside eight; `append` takes any item and leaves
/// the parameter as it is, for descriptors that need more.
///
/// A call that appends an item consumes the builder, also where it fails.
///
/// `ReportDescriptorBuilder::new(alloc).push()?.pop()?.build()?` is the bytes `a4 b4`.
///
/// # Examples
///
/// ```rust
/// use hidreport::hid::{CollectionItem, ReportDescriptorBuilder};
/// use hidreport::{UsageId, UsagePage};
///
/// let bytes = ReportDescriptorBuilder::new(alloc)
///     .usage_page(UsagePage::from(1))?
///     .usage_id(UsageId::from(2))?
///     .open_collection(CollectionItem::Application)?
///     .close_collection()?
///     .build()?;
/// assert_eq!(rt; bytes.as_slice(), b"\x05\x01\x09\x02\xa1\x01\xc0".as_slice());
/// ```
#[derive(Drop)]
pub struct ReportDescriptorBuilder<S: ReportDescriptorBuilderState> {
    items: Vec<ItemType>,
    state: PhantomData<S>,
}

impl<S: ReportDescriptorBuilderState> Model for ReportDescriptorBuilder<S> {
    ghost use Rattle.std.specs.Prelude.{List};
    ghost use Rattle.hidreport_items.specs.declared.item.ItemType.{ItemType};

    ghost Value = { List ItemType };

    ghost view = { λ b. b.items.items };
}

impl ReportDescriptorBuilder<ReportDescriptorBuilderToplevel> {
    /// A builder without items; takes no memory.
    pub fn new(alloc: Global) -> Self
        ensures { result ≡ [] }
    {
        ReportDescriptorBuilder {
            items: Vec::new(alloc),
            state: PhantomData,
        }
    }
}

impl<S: ReportDescriptorBuilderState> ReportDescriptorBuilder<S> {
    /// Appends an item, whatever it is and means; what is open stays as it was.
    ///
    /// # Errors
    ///
    /// - `OutOfMemory`: memory for the item is refused; the builder is gone.
    pub fn append(self, item: ItemType) -> Result<Self, HidError>
        ensures { Holds result (self ++ item ∷ []) }
    {
        self.with_item(item)
    }

    /// Appends a Usage Page (Section 6.2.2.7), for the usages after it.
    ///
    /// # Errors
    ///
    /// - `OutOfMemory`: memory for the item is refused; the builder is gone.
    pub fn usage_page(self, usage_page: UsagePage) -> Result<Self, HidError>
        ensures { Holds result (self ++ item.Global (global.UsagePage usage_page) ∷ []) }
    {
        self.append(ItemType::from(usage_page))
    }

    /// Appends a Usage (Section 6.2.2.8), whose page is the one in force.
    ///
    /// # Errors
    ///
    /// - `OutOfMemory`: memory for the item is refused; the builder is gone.
    pub fn usage_id(self, usage_id: UsageId) -> Result<Self, HidError>
        ensures { Holds result (self ++ item.Local (local.UsageId usage_id) ∷ []) }
    {
        self.append(ItemType::from(usage_id))
    }

    /// Appends an Input (Section 6.2.2.4).
    ///
    /// # Errors
    ///
    /// - `OutOfMemory`: memory for the item is refused; the builder is gone.
    pub fn input(self, input: InputItem) -> Result<Self, HidError>
        ensures { Holds result (self ++ item.Main (main.Input input) ∷ []) }
    {
        self.append(ItemType::from(input))
    }

    /// Appends an Output (Section 6.2.2.4).
    ///
    /// # Errors
    ///
    /// - `OutOfMemory`: memory for the item is refused; the builder is gone.
    pub fn output(self, output: OutputItem) -> Result<Self, HidError>
        ensures { Holds result (self ++ item.Main (main.Output output) ∷ []) }
    {
        self.append(ItemType::from(output))
    }

    /// Appends a Feature (Section 6.2.2.4).
    ///
    /// # Errors
    ///
    /// - `OutOfMemory`: memory for the item is refused; the builder is gone.
    pub fn feature(self, feature: FeatureItem) -> Result<Self, HidError>
        ensures { Holds result (self ++ item.Main (main.Feature feature) ∷ []) }
    {
        self.append(ItemType::from(feature))
    }

    /// Appends a Collection (Section 6.2.2.6), which `close_collection` closes.
    ///
    /// # Errors
    ///
    /// - `OutOfMemory`: memory for the item is refused; the builder is gone.
    pub fn open_collection(
        self,
        collection: CollectionItem,
    ) -> Result<ReportDescriptorBuilder<S::Inner>, HidError>
    where
        S: MayOpen,
        ensures { Holds result (self ++ item.Main (main.Collection collection) ∷ []) }
    {
        self.with_item(ItemType::from(collection))
    }

    /// Appends an End Collection (Section 6.2.2.6), for the innermost collection that is open.
    ///
    /// # Errors
    ///
    /// - `OutOfMemory`: memory for the item is refused; the builder is gone.
    pub fn close_collection(self) -> Result<ReportDescriptorBuilder<S::Outer>, HidError>
    where
        S: MayClose,
        ensures { Holds result (self ++ item.Main main.EndCollection ∷ []) }
    {
        self.with_item(ItemType::Main(MainItem::EndCollection))
    }

    /// Appends a Push (Section 6.2.2.7), which `pop` ends.
    ///
    /// # Errors
    ///
    /// - `OutOfMemory`: memory for the item is refused; the builder is gone.
    pub fn push(self) -> Result<ReportDescriptorBuilder<S::Pushed>, HidError>
    where
        S: MayPush,
        ensures { Holds result (self ++ item.Global global.Push ∷ []) }
    {
        self.with_item(ItemType::Global(GlobalItem::Push))
    }

    /// Appends a Pop (Section 6.2.2.7), for the Push that is open.
    ///
    /// # Errors
    ///
    /// - `OutOfMemory`: memory for the item is refused; the builder is gone.
    pub fn pop(self) -> Result<ReportDescriptorBuilder<S::Popped>, HidError>
    where
        S: MayPop,
        ensures { Holds result (self ++ item.Global global.Pop ∷ []) }
    {
        self.with_item(ItemType::Global(GlobalItem::Pop))
    }

    /// Writes the descriptor: the bytes of the items, joined in their order (Section 6.2.2.1).
    ///
    /// What the items mean isn't looked at. Where each item is kept (neither long nor reserved)
    /// and some bytes spell it, what is written is just these items, each in its shortest spelling
    /// (`items`).
    ///
    /// # Errors
    ///
    /// - `InsufficientData`: an item is `ItemType::Long` or `ItemType::Reserved`, which have no
    ///   bytes (Sections 6.2.2.3 and 6.2.2.2).
    /// - `OutOfMemory`: memory for the bytes is refused.
    pub fn build(&self) -> Result<Vec<u8>, HidError>
    where
        S: MayBuild,
        ensures exact { Builds result (built self.now) }
        ensures items { AreSpelled self.now
            → IfOk result (λ bytes. WritesItems self.now bytes.items) }
    {
        if !have_bytes(&self.items) {
            return Err(HidError::InsufficientData);
        }
        joined_bytes(*self.items.allocator(), &self.items)
    }

    /// The item at the end, in whatever state.
    fn with_item<Next: ReportDescriptorBuilderState>(
        self,
        item: ItemType,
    ) -> Result<ReportDescriptorBuilder<Next>, HidError>
        ensures { Holds result (self ++ item ∷ []) }
    {
        let mut items = self.items;
        items.push(item)?;
        Ok(ReportDescriptorBuilder {
            items,
            state: PhantomData,
        })
    }
}

/// Whether none of these items is long or of the reserved type.
fn have_bytes(items: &[ItemType]) -> bool
    ensures { result ≡ list_all is_written items.now }
{
    items.iter().all(|item| !matches!(item, ItemType::Long | ItemType::Reserved))
}

/// The bytes of these items, one behind the other.
fn joined_bytes(alloc: Global, items: &[ItemType]) -> Result<Vec<u8>, HidError>
    ensures { Writes result (flat_map item_bytes items.now) }
{
    // Most items are a header and one byte.
    let mut bytes = Vec::with_capacity(alloc, 2 * items.len())?;
    for item in items {
        bytes.extend_from_slice(write_item(item).as_slice())?;
    }
    Ok(bytes)
}
