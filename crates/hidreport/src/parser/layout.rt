//! Where the fields of a data item lie, and what they share (Sections 6.2.2.4 and 6.2.2.5).
ghost use Rattle.std.specs.Prelude.{◌≡◌, ◌<◌, length, IfSome};
ghost use Rattle.hidreport.specs.Fields.{usage_at};
ghost use Rattle.hidreport.specs.Parser.Usages.{usage_list};

use crate::parser::around::Around;
use crate::parser::usages::{Usages, usage_at};
use hidreport_fields::{
    Choices, Collection, DataItem, Field, Measures, Place, Usage, make_array, make_padding,
    make_variable, numbered_field,
};
use hidreport_types::{ReportCount, ReportId};
use std::alloc::{AllocError, Global};
use std::ops::Range;
use std::sync::ArcSlice;

/// What the fields of one item have in common.
#[derive(Drop)]
pub(crate) struct Layout {
    pub(crate) report_id: Option<ReportId>,
    pub(crate) report_count: Option<ReportCount>,
    pub(crate) measures: Measures,
    pub(crate) item: DataItem,
    pub(crate) collections: Option<Around>,
    pub(crate) first_id: u64,
    pub(crate) first_bit: usize,
    pub(crate) size: usize,
    pub(crate) count: usize,
}

impl Layout {
    ghost use Rattle.std.specs.Arc.{arc_slice_items};
    ghost use Rattle.std.specs.Prelude.{◌≡◌, ◌+◌, ◌++◌, ◌*◌, ◌<◌, ◌≤◌, ◌^◌, ℕ, [], false, Some, length, IfOk, OnOk, map, option_map, slice_get};
    ghost use Rattle.hidreport.specs.Fields.{each_from, make_place};
    ghost use Rattle.hidreport_fields.specs.ItemParts.{field_count};
    ghost use Rattle.hidreport.specs.Parser.Groups.{group_by};
    ghost use Rattle.hidreport.specs.Usages.{UsageList};
    ghost use Rattle.hidreport.specs.Parser.Layout.{IsPossible, beginning_of, laid_out, place_at, shared_list, shared_of, variable_of};
    ghost use Rattle.hidreport.specs.Parser.Usages.{usage_list};
    ghost use Rattle.hidreport_fields.specs.Records.{ArrayRecord, ConstantRecord};
    ghost use Rattle.hidreport_fields.specs.Views.{field_record, placed_at};

    /// The same once more, in the same collections.
    pub(crate) fn copy(&self) -> Result<Layout, AllocError>
        ensures laid { IfOk result (λ layout. (named : ℕ) → (us : UsageList)
            → group_by layout named us ≡ group_by self.now named us) }
        ensures possible { IfOk result (λ layout. (us : UsageList)
            → IsPossible self.now us → IsPossible layout us) }
    {
        let collections = match &self.collections {
            Some(around) => Some(around.clone()?),
            None => None,
        };
        Ok(Layout {
            collections,
            report_id: self.report_id,
            report_count: self.report_count,
            measures: self.measures,
            item: self.item,
            first_id: self.first_id,
            first_bit: self.first_bit,
            size: self.size,
            count: self.count,
        })
    }

    /// Adds the item's fields to those that are there.
    #[inline(always)]
    pub(crate) fn add_fields(
        &self,
        alloc: Global,
        usages: &Usages,
        fields: &mut Vec<Field>,
    ) -> Result<(), AllocError>
        requires { IsPossible self.now (usage_list usages.now) }
        ensures { OnOk result (map field_record fields.new.items
            ≡ map field_record fields.old.items ++ laid_out self.now (usage_list usages.now)) }
    {
        if self.item.flags.is_constant {
            fields.push(self.constant_field())?;
        } else if self.item.flags.is_variable {
            self.add_elements(alloc, usages, fields)?;
        } else {
            fields.push(self.array_field(alloc, usages)?)?;
        }
        Ok(())
    }

    /// Field number `c` of the item, `None` where it makes no more.
    pub(crate) fn field(
        &self,
        alloc: Global,
        usages: &Usages,
        c: usize,
    ) -> Result<Option<Field>, AllocError>
        requires { IsPossible self.now (usage_list usages.now) }
        ensures { IfOk result (λ field. option_map field_record field
            ≡ slice_get (laid_out self.now (usage_list usages.now)) c) }
    {
        let item = &self.item;
        if c >= item.field_count(self.count) {
            return Ok(None);
        }
        if item.flags.is_constant {
            return Ok(Some(self.constant_field()));
        }
        if !item.flags.is_variable {
            return Ok(Some(self.array_field(alloc, usages)?));
        }
        let (measures, item) = (&self.measures, &self.item);
        let collections = self.shared_collections(alloc)?;
        Ok(Some(make_variable(self.place_of(c), usages.at(c), measures, item, collections)))
    }

    /// The padding.
    fn constant_field(&self) -> Field
        requires ids { self.now.first_id < 2 ^ 32 }
        requires bits { self.now.first_bit + self.now.size * self.now.count < 2 ^ 64 }
        ensures { field_record result ≡ ConstantRecord
            (make_place (beginning_of self.now) (self.now.size * self.now.count)) }
    {
        make_padding(self.place_of_all())
    }

    /// Adds the fields of a variable item, for which the room is asked at once. Of many spans its
    /// usages are listed first, as many as it has fields, since each field would go over the spans.
    /// What the fields share is copied once: behind the reference it would be read for each.
    fn add_elements(
        &self,
        alloc: Global,
        usages: &Usages,
        fields: &mut Vec<Field>,
    ) -> Result<(), AllocError>
        requires ids { self.now.first_id + self.now.count ≤ 2 ^ 32 }
        requires bits { self.now.first_bit + self.now.size * self.now.count < 2 ^ 64 }
        requires usages { 0 < length (usage_list usages.now).usages }
        ensures { OnOk result (map field_record fields.new.items ≡ map field_record fields.old.items
            ++ each_from (variable_of self.now (usage_list usages.now)) 0 self.now.count) }
    {
        let found = usages.first_of_many(alloc, self.count.max(1))?;
        let listed = &found;
        let collections = self.shared_collections(alloc)?;
        let (measures, item) = (self.measures, self.item);
        fields.reserve(self.count)?;
        for c in 0..self.count {
            let usage = usage_of(usages, listed, c);
            let collections = collections.clone()?;
            let field = make_variable(self.place_of(c), usage, &measures, &item, collections);
            fields.push_reserved(field);
        }
        Ok(())
    }

    /// Where field number `c` of a variable item lies.
    fn place_of(&self, c: usize) -> Place
        requires ids { self.now.first_id + c < 2 ^ 32 }
        requires bits { self.now.first_bit + self.now.size * (c + 1) < 2 ^ 64 }
        ensures { placed_at result.id result.report_id result.bits ≡ place_at self.now c }
    {
        Place {
            id: numbered_field((self.first_id + c as u64) as u32),
            report_id: self.report_id,
            bits: self.bits(c),
        }
    }

    /// The field of an array item, which has all the usages.
    fn array_field(&self, alloc: Global, usages: &Usages) -> Result<Field, AllocError>
        requires ids { self.now.first_id < 2 ^ 32 }
        requires bits { self.now.first_bit + self.now.size * self.now.count < 2 ^ 64 }
        requires count { self.now.report_count ≡ Some self.now.count }
        ensures { IfOk result (λ field. field_record field ≡ ArrayRecord
            (make_place (beginning_of self.now) (self.now.size * self.now.count))
            (usage_list usages.now).usages (usage_list usages.now).is_range self.now.count
            (shared_of self.now)) }
    {
        let choices = Choices {
            is_usage_range: usages.is_range(),
            usages: usages.list(alloc)?,
            report_count: self.report_count.unwrap_or(ReportCount::from(0)),
        };
        let collections = self.shared_collections(alloc)?;
        let place = self.place_of_all();
        Ok(make_array(place, choices, &self.measures, &self.item, collections))
    }

    /// Where one field of all elements lies.
    fn place_of_all(&self) -> Place
        requires ids { self.now.first_id < 2 ^ 32 }
        requires bits { self.now.first_bit + self.now.size * self.now.count < 2 ^ 64 }
        ensures { placed_at result.id result.report_id result.bits
            ≡ make_place (beginning_of self.now) (self.now.size * self.now.count) }
    {
        Place {
            id: numbered_field(self.first_id as u32),
            report_id: self.report_id,
            bits: self.all_bits(),
        }
    }

    /// The collections that the item's fields lie in.
    fn shared_collections(&self, alloc: Global) -> Result<ArcSlice<Collection>, AllocError>
        ensures { IfOk result (λ shared.
            arc_slice_items shared ≡ shared_list self.now.collections) }
    {
        match &self.collections {
            Some(around) => around.listed(alloc),
            None => ArcSlice::from_vec(Vec::new(alloc)),
        }
    }

    /// The bits of field number `c` of a variable item.
    pub(crate) fn bits(&self, c: usize) -> Range<usize>
        requires { self.now.first_bit + self.now.size * (c + 1) < 2 ^ 64 }
        ensures first { result.start ≡ self.now.first_bit + c * self.now.size }
        ensures end { result.end ≡ self.now.first_bit + c * self.now.size + self.now.size }
    {
        let start = self.first_bit + self.size * c;
        start..start + self.size
    }

    /// The bits of all elements.
    pub(crate) fn all_bits(&self) -> Range<usize>
        requires { self.now.first_bit + self.now.size * self.now.count < 2 ^ 64 }
        ensures first { result.start ≡ self.now.first_bit }
        ensures end { result.end ≡ self.now.first_bit + self.now.size * self.now.count }
    {
        self.first_bit..self.first_bit + self.size * self.count
    }
}

/// Usage number `c`, or the last one where there are fewer, which is looked up in the list of them,
/// if there is one.
fn usage_of(usages: &Usages, listed: &Option<Vec<Usage>>, c: usize) -> Usage
    requires some { 0 < length (usage_list usages.now).usages }
    requires listed { IfSome listed.now (λ list. (0 < length list.items)
        × (usage_at list.items c ≡ usage_at (usage_list usages.now).usages c)) }
    ensures { result ≡ usage_at (usage_list usages.now).usages c }
{
    match listed {
        Some(list) => usage_at(list.as_slice(), c),
        None => usages.at(c),
    }
}
