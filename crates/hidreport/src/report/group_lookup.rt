//! A field among those of groups, by its number or by its usage (Section 6.2.2.8).
ghost use Rattle.std.specs.Prelude.{◌≡◌, IfOk, option_map};
ghost use Rattle.hidreport.specs.Groups.{fields_of_groups, group_fields};
ghost use Rattle.hidreport_fields.specs.Lookup.{field_for, field_with};
ghost use Rattle.hidreport_fields.specs.Views.{field_record};

use crate::report::group::Group;
use hidreport_fields::{Field, FieldId, Usage};
use std::alloc::{AllocError, Global};

/// The field with this number.
pub(crate) fn find_with_number(
    alloc: Global,
    groups: &[Group],
    number: FieldId,
) -> Result<Option<Field>, AllocError>
    ensures { IfOk result (λ field. option_map field_record field
        ≡ field_with number (fields_of_groups groups.now)) }
{
    for group in groups {
        if let Some(field) = numbered(alloc, group, number)? {
            return Ok(Some(field));
        }
    }
    Ok(None)
}

/// The field of a group with this number.
fn numbered(alloc: Global, group: &Group, number: FieldId) -> Result<Option<Field>, AllocError>
    ensures { IfOk result (λ field. option_map field_record field
        ≡ field_with number (group_fields group.now)) }
{
    let Some(index) = u64::from(u32::from(number)).checked_sub(group.first_number()) else {
        return Ok(None);
    };
    group.field(alloc, index as usize)
}

/// The first field that has this usage.
pub(crate) fn find_with_usage(
    alloc: Global,
    groups: &[Group],
    usage: &Usage,
) -> Result<Option<Field>, AllocError>
    ensures { IfOk result (λ field. option_map field_record field
        ≡ field_for usage.now (fields_of_groups groups.now)) }
{
    for group in groups {
        if let Some(field) = used(alloc, group, usage)? {
            return Ok(Some(field));
        }
    }
    Ok(None)
}

/// The first field of a group that has this usage.
fn used(alloc: Global, group: &Group, usage: &Usage) -> Result<Option<Field>, AllocError>
    ensures { IfOk result (λ field. option_map field_record field
        ≡ field_for usage.now (group_fields group.now)) }
{
    for index in 0..group.field_count() {
        if let Some(field) = group.field(alloc, index)? {
            if field.has_usage(*usage) {
                return Ok(Some(field));
            }
        }
    }
    Ok(None)
}
