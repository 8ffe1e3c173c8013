//! The fields of one main item (Section 6.2.2.4).
ghost use Rattle.std.specs.Prelude.{◌≡◌, IfOk};
ghost use Rattle.hidreport.specs.Groups.{named_of, taken_of};
ghost use Rattle.hidreport.specs.Parser.Groups.{own_usages};
ghost use Rattle.hidreport.specs.Parser.Layout.{IsPossible};
ghost use Rattle.hidreport.specs.Parser.Usages.{usage_list};

use crate::parser::group_usages::GroupUsages;
use crate::parser::layout::Layout;
use crate::parser::usages::Usages;
use crate::report::group_collection::GroupCollection;
use hidreport_fields::{Field, FieldAttributes, Usage};
use hidreport_items::ItemFlags;
use hidreport_types::{
    LogicalMaximum, LogicalMinimum, PhysicalMaximum, PhysicalMinimum, ReportId, Unit, UnitExponent,
};
use std::alloc::{AllocError, Global};
use std::marker::Model;
use std::ops::Range;

/// The fields that one main item makes, said once for all of them (Section 6.2.2.4).
///
/// They lie side by side, and none is listed.
#[derive(Drop)]
pub struct Group {
    layout: Layout,
    usages: GroupUsages,
    named: u128,
}

impl Model for Group {
    ghost use Rattle.hidreport.specs.Groups.{GroupRecord};
    ghost use Rattle.hidreport.specs.Parser.Groups.{group_by, own_usages};
    ghost use Rattle.hidreport.specs.Parser.Layout.{IsPossible};

    ghost Value = { GroupRecord };

    ghost view = { λ g. group_by g.layout g.named (own_usages g.usages) };

    ghost invariant = { λ g. IsPossible g.layout (own_usages g.usages) };
}

impl Group {
    ghost use Rattle.std.specs.Prelude.{◌≡◌, ◌+◌, ◌*◌, ◌++◌, [], IfOk, IfSome, IsNone, OnOk, is_some, length, map, nat_lt, option_map, slice_get};
    ghost use Rattle.hidreport_fields.specs.ItemParts.{field_count};
    ghost use Rattle.hidreport.specs.Fields.{usage_at};
    ghost use Rattle.hidreport.specs.Groups.{group_fields};
    ghost use Rattle.hidreport.specs.Parser.Groups.{group_of};
    ghost use Rattle.hidreport.specs.Parser.Layout.{IsPossible};
    ghost use Rattle.hidreport.specs.Parser.Usages.{usage_list};
    ghost use Rattle.hidreport_fields.specs.Views.{field_record};

    /// The fields that are laid out so, of an item with these usages.
    pub(crate) fn new(alloc: Global, layout: &Layout, usages: &Usages) -> Result<Group, AllocError>
        requires possible { IsPossible layout.now (usage_list usages.now) }
        ensures { IfOk result (λ group. group ≡ group_of layout.now (usage_list usages.now)) }
    {
        let named = named_by(layout, usages);
        let usages = usages_for(alloc, layout, usages)?;
        Ok(Group {
            layout: layout.copy()?,
            usages,
            named,
        })
    }

    /// Adds the fields to those that are there.
    #[inline(always)]
    pub(crate) fn add_fields(
        &self,
        alloc: Global,
        fields: &mut Vec<Field>,
    ) -> Result<(), AllocError>
        ensures { OnOk result (map field_record fields.new.items
            ≡ map field_record fields.old.items ++ group_fields self.now) }
    {
        self.usages.add_fields(alloc, &self.layout, fields)
    }

    /// How many fields there are: one for each element of a variable item, else one.
    pub fn field_count(&self) -> usize
        ensures { result ≡ field_count self.now.flags self.now.extent.count }
    {
        self.layout.item.field_count(self.layout.count)
    }

    /// Field number `index` of the group, counted from 0; `None` where there are no more.
    ///
    /// # Errors
    ///
    /// - `AllocError`: memory for the field's usages or collections is refused, or the list of
    ///   collections would have 2^63 owners; padding takes no memory.
    pub fn field(&self, alloc: Global, index: usize) -> Result<Option<Field>, AllocError>
        ensures { IfOk result (λ field. option_map field_record field
            ≡ slice_get (group_fields self.now) index) }
    {
        self.usages.field(alloc, &self.layout, index)
    }

    /// The number of the first field.
    pub(crate) fn first_number(&self) -> u64
        ensures { result ≡ self.now.beginning.number }
    {
        self.layout.first_id
    }

    /// The id of the report that the fields are in, where it has one.
    pub fn report_id(&self) -> Option<ReportId>
        ensures { result ≡ self.now.beginning.report_id }
    {
        self.layout.report_id
    }

    /// The first bit of the fields in their report, the byte of its id counted.
    pub fn first_bit(&self) -> usize
        ensures { result ≡ self.now.beginning.first }
    {
        self.layout.first_bit
    }

    /// How many bits each element has.
    pub fn element_width(&self) -> usize
        ensures { result ≡ self.now.extent.size }
    {
        self.layout.size
    }

    /// How many elements lie side by side, each of which is a field of a variable item.
    pub fn element_count(&self) -> usize
        ensures { result ≡ self.now.extent.count }
    {
        self.layout.count
    }

    /// The bits of element `index`, counted from 0, in their report: from the first up to the one
    /// after the last; `None` where there are no more elements.
    pub fn bits(&self, index: usize) -> Option<Range<usize>>
        ensures some { IfSome result (λ bits.
            (bits.start ≡ self.now.beginning.first + index * self.now.extent.size)
            × (bits.end ≡ bits.start + self.now.extent.size)) }
        ensures there { is_some result ≡ nat_lt index self.now.extent.count }
    {
        if index >= self.layout.count {
            return None;
        }
        Some(self.layout.bits(index))
    }

    /// The bits of all elements: from the first up to the one after the last.
    pub(crate) fn all_bits(&self) -> Range<usize>
        ensures start { result.start ≡ self.now.beginning.first }
        ensures end { result.end
            ≡ self.now.beginning.first + self.now.extent.size * self.now.extent.count }
    {
        self.layout.all_bits()
    }

    /// The flags of the item that makes the fields, all nine (Section 6.2.2.5); Volatile is off in an
    /// input report.
    pub fn flags(&self) -> ItemFlags
        ensures { result ≡ self.now.flags }
    {
        self.layout.item.flags
    }

    /// Whether the fields are padding (Constant, Section 6.2.2.5).
    pub fn is_constant(&self) -> bool
        ensures { result ≡ self.now.flags.constant }
    {
        self.layout.item.flags.is_constant
    }

    /// Whether each element is a field of its own (Variable, Section 6.2.2.5), and else one field
    /// with all of them.
    pub fn is_variable(&self) -> bool
        ensures { result ≡ self.now.flags.variable }
    {
        self.layout.item.flags.is_variable
    }

    /// The usage of field `index`, counted from 0: the last one where there are fewer usages
    /// (Section 6.2.2.8); `None` where there is none, as of padding.
    ///
    /// An array's fields share them: element `index` isn't of this usage.
    pub fn usage(&self, index: usize) -> Option<Usage>
        ensures some { IfSome result (λ usage. usage ≡ usage_at self.now.usages.usages index) }
        ensures none { IsNone result → self.now.usages.usages ≡ [] }
        ensures there { is_some result ≡ nat_lt 0 (length self.now.usages.usages) }
    {
        let Group { layout, usages, .. } = self;
        if layout.item.flags.is_constant {
            return None;
        }
        if layout.item.flags.is_variable {
            let last = layout.count.checked_sub(1)?;
            return usages.at(index.min(last));
        }
        usages.at(index)
    }

    /// How many usages the item names (Section 6.2.2.8): of a variable item also those behind the
    /// fields' own; padding names none.
    pub fn usage_count(&self) -> u128
        ensures { result ≡ self.now.named }
    {
        self.named
    }

    /// The least value (Section 6.2.2.7); values are signed where it is below 0.
    pub fn logical_minimum(&self) -> LogicalMinimum
        ensures { result ≡ self.now.shared.logical_minimum }
    {
        self.layout.measures.logical_minimum
    }

    /// The greatest value (Section 6.2.2.7).
    pub fn logical_maximum(&self) -> LogicalMaximum
        ensures { result ≡ self.now.shared.logical_maximum }
    {
        self.layout.measures.logical_maximum
    }

    /// What the least value stands for (Section 6.2.2.7); 0 where only the other physical bound was
    /// set, `None` where neither was.
    pub fn physical_minimum(&self) -> Option<PhysicalMinimum>
        ensures { result ≡ self.now.shared.physical_minimum }
    {
        self.layout.measures.physical_minimum
    }

    /// What the greatest value stands for (Section 6.2.2.7); 0 where only the other physical bound
    /// was set, `None` where neither was.
    pub fn physical_maximum(&self) -> Option<PhysicalMaximum>
        ensures { result ≡ self.now.shared.physical_maximum }
    {
        self.layout.measures.physical_maximum
    }

    /// The unit of the physical bounds (Section 6.2.2.7); `None` where none was set.
    pub fn unit(&self) -> Option<Unit>
        ensures { result ≡ self.now.shared.unit }
    {
        self.layout.measures.unit
    }

    /// The power of ten of the unit (Section 6.2.2.7); `None` where none was set.
    pub fn unit_exponent(&self) -> Option<UnitExponent>
        ensures { result ≡ self.now.shared.unit_exponent }
    {
        self.layout.measures.unit_exponent
    }

    /// How many collections the fields lie in; padding lies in none.
    pub fn collection_count(&self) -> usize
        ensures { result ≡ length self.now.shared.collections }
    {
        match &self.layout.collections {
            Some(around) => around.len(),
            None => 0,
        }
    }

    /// Collection number `index` of those that the fields lie in, counted from 0, the outermost;
    /// `None` where there are no more.
    pub fn collection(&self, index: usize) -> Option<GroupCollection<'_>>
        ensures { result ≡ slice_get self.now.shared.collections index }
    {
        match &self.layout.collections {
            Some(around) => around.get(index),
            None => None,
        }
    }
}

/// How many of these usages an item names: padding none.
fn named_by(layout: &Layout, usages: &Usages) -> u128
    ensures { result ≡ named_of layout.now.item.flags (usage_list usages.now) }
{
    if layout.item.flags.is_constant {
        0
    } else {
        usages.count()
    }
}

/// The usages that the fields of an item take, of those in force: a variable item's take one each.
fn usages_for(alloc: Global, layout: &Layout, usages: &Usages) -> Result<GroupUsages, AllocError>
    requires possible { IsPossible layout.now (usage_list usages.now) }
    ensures taken { IfOk result (λ own.
        taken_of layout.now.item.flags layout.now.count (own_usages own)
        ≡ taken_of layout.now.item.flags layout.now.count (usage_list usages.now)) }
    ensures possible { IfOk result (λ own. IsPossible layout.now (own_usages own)) }
{
    if layout.item.flags.is_constant {
        return GroupUsages::all(alloc, usages);
    }
    if layout.item.flags.is_variable {
        let first = GroupUsages::first(alloc, usages, layout.count.max(1))?;
        return Ok(first);
    }
    GroupUsages::all(alloc, usages)
}

impl FieldAttributes for Group {
    ghost attributes = { λ g. g.shared };

    fn is_relative(&self) -> bool {
        self.layout.item.flags.is_relative
    }

    fn wraps(&self) -> bool {
        self.layout.item.flags.wraps
    }

    fn is_nonlinear(&self) -> bool {
        self.layout.item.flags.is_nonlinear
    }

    fn has_no_preferred_state(&self) -> bool {
        self.layout.item.flags.has_no_preferred_state
    }

    fn has_null_state(&self) -> bool {
        self.layout.item.flags.has_null_state
    }

    fn is_buffered_bytes(&self) -> bool {
        self.layout.item.flags.is_buffered_bytes
    }

    fn is_volatile(&self) -> Option<bool> {
        self.layout.item.volatile()
    }

    fn flags(&self) -> ItemFlags {
        self.layout.item.flags
    }
}
