//! Fields made of their parts, as a parser has them.
ghost use Rattle.std.specs.Prelude.{◌≡◌};
ghost use Rattle.std.specs.Arc.{arc_slice_items};
ghost use Rattle.hidreport_fields.specs.ItemParts.{attributes_with};
ghost use Rattle.hidreport_fields.specs.Records.{ArrayRecord, ConstantRecord, VariableRecord};
ghost use Rattle.hidreport_fields.specs.Views.{field_record, placed_at};

use crate::field::array_field::ArrayField;
use crate::field::collection::Collection;
use crate::field::constant_field::ConstantField;
use crate::field::data_item::DataItem;
use crate::field::measures::Measures;
use crate::field::usage::Usage;
use crate::field::variable_field::VariableField;
use crate::field::{Field, FieldId};
use hidreport_types::{ReportCount, ReportId};
use std::ops::Range;
use std::sync::ArcSlice;

/// Where a field lies: its number, the id of its report, and its bits there.
#[derive(Drop)]
pub struct Place {
    /// The number over the descriptor.
    pub id: FieldId,

    /// The id of the report, if it has one.
    pub report_id: Option<ReportId>,

    /// From the first bit up to the one after the last.
    pub bits: Range<usize>,
}

/// Padding at a place.
#[inline(always)]
pub fn make_padding(place: Place) -> Field
    ensures { field_record result
        ≡ ConstantRecord (placed_at place.id place.report_id place.bits) }
{
    Field::Constant(ConstantField {
        id: place.id,
        report_id: place.report_id,
        bits: place.bits,
    })
}

/// A field with one value: its place and usage, and what it has of its item.
#[inline(always)]
pub fn make_variable(
    place: Place,
    usage: Usage,
    measures: &Measures,
    item: &DataItem,
    collections: ArcSlice<Collection>,
) -> Field
    ensures { field_record result
        ≡ VariableRecord (placed_at place.id place.report_id place.bits) usage
        (attributes_with item.now.direction item.now.flags measures.now
        (arc_slice_items collections)) }
{
    Field::Variable(VariableField {
        id: place.id,
        report_id: place.report_id,
        bits: place.bits,
        usage,
        logical_minimum: measures.logical_minimum,
        logical_maximum: measures.logical_maximum,
        physical_minimum: measures.physical_minimum,
        physical_maximum: measures.physical_maximum,
        unit: measures.unit,
        unit_exponent: measures.unit_exponent,
        collections,
        item: *item,
    })
}

/// What the values of an array choose among, and how many there are.
#[derive(Drop)]
pub struct Choices {
    /// The usages, in order.
    pub usages: Vec<Usage>,

    /// Whether a minimum and a maximum gave them.
    pub is_usage_range: bool,

    /// How many values the field has.
    pub report_count: ReportCount,
}

/// A field with several values: its place, its choices, and what it has of its item.
#[inline(always)]
pub fn make_array(
    place: Place,
    choices: Choices,
    measures: &Measures,
    item: &DataItem,
    collections: ArcSlice<Collection>,
) -> Field
    ensures { field_record result
        ≡ ArrayRecord (placed_at place.id place.report_id place.bits) choices.usages.items
        choices.is_usage_range choices.report_count
        (attributes_with item.now.direction item.now.flags measures.now
        (arc_slice_items collections)) }
{
    Field::Array(ArrayField {
        id: place.id,
        report_id: place.report_id,
        is_usage_range: choices.is_usage_range,
        bits: place.bits,
        usages: choices.usages,
        report_count: choices.report_count,
        logical_minimum: measures.logical_minimum,
        logical_maximum: measures.logical_maximum,
        physical_minimum: measures.physical_minimum,
        physical_maximum: measures.physical_maximum,
        unit: measures.unit,
        unit_exponent: measures.unit_exponent,
        collections,
        item: *item,
    })
}
