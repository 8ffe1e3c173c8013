//! A list of what each of many fields has, field by field.
ghost use Rattle.std.specs.Prelude.{◌≡◌, ◌≤◌, ◌^◌, IfSome, IsNone, List, Ok, flat_map, length, map};
ghost use Rattle.hidreport.specs.Records.{FieldRecord, fields_in_all};
ghost use Rattle.hidreport.specs.Views.{field_record};
ghost use Rattle.hidreport_c.specs.Answer.{Lists, array_after};

use crate::status::OUT_OF_MEMORY;
use crate::structs::HidreportAnswer;
use hidreport::{Field, RDescReport, Report};

/// What C lists of a field.
pub(crate) trait Listing {
    /// The form that C has of what is listed.
    type InC: Copy;

    /// What is listed of a field.
    ghost listed: { FieldRecord → List Self.InC };

    /// Puts what is listed of a field in place of the first of `array`, as much as there is room
    /// for; how much there is, unless there is more than memory could hold.
    fn put(field: &Field, array: &mut [Self::InC]) -> Option<usize>
        ensures some { IfSome result (λ count.
            (count ≡ length (listed (field_record field.now)))
            × (array.new ≡ array_after (listed (field_record field.now)) array.old)) }
        ensures none { IsNone result → 2 ^ 64 ≤ length (listed (field_record field.now)) };
}

/// Writes what is listed of the fields of these reports, that of each behind that of the one
/// before.
pub(crate) fn write_all<L: Listing>(
    reports: &[RDescReport],
    array: &mut [L::InC],
) -> HidreportAnswer
    ensures { Lists (Ok (flat_map L.listed (fields_in_all reports.now))) array.old array.new
        result }
{
    if put_all::<L>(reports, &mut []).is_none() {
        return HidreportAnswer::refused(OUT_OF_MEMORY);
    }
    match put_all::<L>(reports, array) {
        Some(count) => HidreportAnswer::counted(count),
        None => HidreportAnswer::refused(OUT_OF_MEMORY),
    }
}

/// Puts what is listed of the fields of these reports in place of the first of `array`, as much as
/// there is room for; how much there is, unless there is more than memory could hold.
fn put_all<L: Listing>(reports: &[RDescReport], array: &mut [L::InC]) -> Option<usize>
    ensures some { IfSome result (λ count.
        (count ≡ length (flat_map L.listed (fields_in_all reports.now)))
        × (array.new ≡ array_after (flat_map L.listed (fields_in_all reports.now)) array.old)) }
    ensures none { IsNone result → 2 ^ 64 ≤ length (flat_map L.listed (fields_in_all reports.now)) }
{
    let mut count: usize = 0;
    for report in reports {
        let begun = count.min(array.len());
        let listed = put_fields::<L>(report.fields(), &mut array[begun..])?;
        count = count.checked_add(listed)?;
    }
    Some(count)
}

/// The same of these fields.
fn put_fields<L: Listing>(fields: &[Field], array: &mut [L::InC]) -> Option<usize>
    ensures some { let all = flat_map L.listed (map field_record fields.now) in
        IfSome result (λ count.
        (count ≡ length all) × (array.new ≡ array_after all array.old)) }
    ensures none { IsNone result
        → 2 ^ 64 ≤ length (flat_map L.listed (map field_record fields.now)) }
{
    let mut count: usize = 0;
    for field in fields {
        let begun = count.min(array.len());
        let listed = L::put(field, &mut array[begun..])?;
        count = count.checked_add(listed)?;
    }
    Some(count)
}
