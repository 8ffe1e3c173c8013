//! The usage that a value of an array stands for, the value of a usage, and one that stands for none.
ghost use Rattle.std.specs.Prelude.{◌≡◌, ◌≢◌, ◌<◌, ◌≤ℤ◌, ℕ, ℤ, ◌≤◌, Bool, List, IfSome, IsNone, ◌^◌, Some, false, true, int_lt, pos, slice_get, unsigned_abs, map, option_map};
ghost use Rattle.hidreport.specs.Reading.{element_width};
ghost use Rattle.hidreport.specs.Records.{ArrayRecord, Attributes, FieldPlace};
ghost use Rattle.hidreport.specs.Standing.{IsNullNumber};
ghost use Rattle.hidreport_fields.specs.declared.field.usage.Usage.{Usage};
ghost use Rattle.hidreport_c.specs.Field.{as_c};
ghost use Rattle.hidreport_c.specs.Insert.{is_signed_in, width_of};
ghost use Rattle.hidreport_c.specs.Standing.{Chooses, IsLeastMeant, IsNullAt, choice_as_c};
ghost use Rattle.hidreport.specs.Choosing.{usage_chosen};
ghost use Rattle.hidreport.specs.UsageNumber.{usage_number};
ghost use Rattle.hidreport_c.specs.Usages.{usage_as_c, usage_meant};

use crate::field::ARRAY;
use crate::structs::{HidreportChoice, HidreportField, HidreportUsage};
use hidreport::ElementNumbers;

impl HidreportChoice {
    /// A value as C has it.
    fn from_option(value: Option<i64>) -> HidreportChoice
        ensures { result ≡ choice_as_c value }
    {
        match value {
            Some(value) => HidreportChoice {
                value,
                is_there: true,
            },
            None => HidreportChoice {
                value: 0,
                is_there: false,
            },
        }
    }
}

/// The usage that a value of an array stands for (Section 6.2.2.5), of the field's usages, as
/// `hidreport_usages` lists them: the one whose index, counted from 0, is the value less the
/// logical minimum. None where the value lies outside the logical bounds, as it does where no usage
/// is meant, where no usage has the index, and for a field that is no array. It takes no memory.
///
/// Of an array that the library described it is what `ArrayField::usage_of` answers (`chosen`).
#[unsafe(no_mangle)]
pub extern "C" fn hidreport_usage_of(
    field: &HidreportField,
    value: i64,
    usages: &[u32],
) -> HidreportUsage
    ensures meant { result ≡ usage_as_c (usage_meant field.now usages.now value) }
    ensures chosen { (place : FieldPlace) (listed : List Usage) (is_range : Bool) (count : ℕ)
        (shared : Attributes) → field.now ≡ as_c (ArrayRecord place listed is_range count shared)
        → usages.now ≡ map usage_number listed
        → result ≡ usage_as_c (option_map usage_number
        (usage_chosen listed shared.logical_minimum shared.logical_maximum value)) }
{
    match field.usage_meant(value, usages) {
        Some(usage) => HidreportUsage {
            usage,
            is_meant: true,
        },
        None => HidreportUsage {
            usage: 0,
            is_meant: false,
        },
    }
}

/// The value of an array that stands for a usage, of the field's usages as `hidreport_usages` lists
/// them: the inverse of `hidreport_usage_of` (Section 6.2.2.5). Where the usage is listed more than
/// once it is the least such value. None where the usage isn't listed, or only behind the logical
/// maximum, and for a field that is no array. It takes no memory.
#[unsafe(no_mangle)]
pub extern "C" fn hidreport_value_of(
    field: &HidreportField,
    usage: u32,
    usages: &[u32],
) -> HidreportChoice
    ensures { Chooses (IsLeastMeant field.now usages.now usage) result }
{
    HidreportChoice::from_option(field.value_meant(usage, usages))
}

/// A value of an array that stands for no usage, and that its bits hold (Section 6.2.2.5): one
/// outside the logical bounds where there is one, which is 0 if that is, else the number below the
/// logical minimum, else the one above the logical maximum; else the least number within them that
/// has no usage at its index. None where the bits hold no such value, where a value has no bits or
/// more than 32, and for a field that is no array. It takes no memory.
///
/// Of an array that the library described it is what `ArrayField::null_value` answers (`array`).
#[unsafe(no_mangle)]
pub extern "C" fn hidreport_null_value(field: &HidreportField) -> HidreportChoice
    ensures null { Chooses (IsNullAt field.now) result }
    ensures array { (place : FieldPlace) (usages : List Usage) (is_range : Bool) (count : ℕ)
        (shared : Attributes) → field.now ≡ as_c (ArrayRecord place usages is_range count shared)
        → Chooses (IsNullNumber usages (element_width place.first place.end count)
        (int_lt shared.logical_minimum (pos 0)) shared.logical_minimum shared.logical_maximum)
        result }
{
    HidreportChoice::from_option(field.null_value())
}

impl HidreportField {
    /// The usage that a value stands for, if any.
    fn usage_meant(&self, value: i64, usages: &[u32]) -> Option<u32>
        ensures { result ≡ usage_meant self.now usages.now value }
    {
        let minimum = i64::from(self.measures.logical_minimum);
        let maximum = i64::from(self.measures.logical_maximum);
        if self.kind != ARRAY || value < minimum || maximum < value {
            return None;
        }
        let index = (value - minimum).unsigned_abs() as usize;
        usages.get(index).copied()
    }

    /// The least value that stands for a usage, if any.
    fn value_meant(&self, usage: u32, usages: &[u32]) -> Option<i64>
        ensures { IsLeastMeant self.now usages.now usage result }
    {
        if self.kind != ARRAY {
            return None;
        }
        let index = index_of(usage, usages)?;
        self.element_numbers().choosing(index)
    }

    /// A value that stands for no usage, if any.
    fn null_value(&self) -> Option<i64>
        ensures { IsNullAt self.now result }
    {
        if self.kind != ARRAY {
            return None;
        }
        self.element_numbers().null_value(self.usages.count)
    }

    /// The numbers that a value can be.
    fn element_numbers(&self) -> ElementNumbers
        ensures width { result.width ≡ width_of self.now }
        ensures minimum { result.minimum ≡ self.now.measures.logical_minimum }
        ensures maximum { result.maximum ≡ self.now.measures.logical_maximum }
    {
        ElementNumbers {
            width: self.element_width(),
            minimum: self.measures.logical_minimum,
            maximum: self.measures.logical_maximum,
        }
    }
}

/// The index of the first usage that is this one.
fn index_of(usage: u32, usages: &[u32]) -> Option<usize>
    ensures found { IfSome result (λ index. slice_get usages.now index ≡ Some usage) }
    ensures first { IfSome result (λ index. (k : ℕ) → k < index
        → slice_get usages.now k ≢ Some usage) }
    ensures absent { IsNone result → (k : ℕ) → slice_get usages.now k ≢ Some usage }
{
    for index in 0..usages.len() {
        if usages[index] == usage {
            return Some(index);
        }
    }
    None
}
