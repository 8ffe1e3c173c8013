//! A report, its fields in groups (Section 5.6).
ghost use Rattle.std.specs.Prelude.{◌≡◌, IfOk, map, option_copied};
ghost use Rattle.hidreport.specs.Blank.{blank_bytes};
ghost use Rattle.hidreport.specs.Groups.{fields_of_groups};
ghost use Rattle.hidreport_fields.specs.Lookup.{report_with};
ghost use Rattle.hidreport_fields.specs.ReportIds.{same_key};
ghost use Rattle.hidreport_fields.specs.Views.{field_record};
ghost use Rattle.hidreport.specs.Working.{TakesAll};
ghost use Rattle.hidreport_fields.specs.WritingLaws.{IsWhole};

use crate::report::group::Group;
use crate::report::group_lookup::{find_with_number, find_with_usage};
use crate::report::reports::is_same_id;
use crate::report::{RDescReport, blank_of};
use hidreport_fields::{Field, FieldId, Usage};
use hidreport_types::ReportId;
use std::alloc::{AllocError, Global};
use std::marker::Model;

/// A report that a descriptor announces, with its fields in groups (Section 5.6).
#[derive(Drop)]
pub struct OutlineReport {
    pub(crate) id: Option<ReportId>,
    pub(crate) size: usize,
    pub(crate) groups: Vec<Group>,
}

impl Model for OutlineReport {
    ghost use Rattle.hidreport.specs.Groups.{GroupedReport};

    ghost Value = { GroupedReport };

    ghost view = { λ r. record { id = r.id; size = r.size; fields = r.groups.items } };
}

impl OutlineReport {
    ghost use Rattle.std.specs.Prelude.{◌≡◌, ◌+◌, ◌/◌, ◌↔◌, IfOk, IsTrue, option_map};
    ghost use Rattle.hidreport.specs.Groups.{listed_report};
    ghost use Rattle.hidreport_fields.specs.Lookup.{field_for, field_with};

    /// The report's id; `None` where it has none.
    pub fn report_id(&self) -> &Option<ReportId>
        ensures { result.now ≡ self.now.id }
    {
        &self.id
    }

    /// The groups of the report's fields, in the order of their bits: one for each item that makes
    /// some, padding too.
    pub fn groups(&self) -> &[Group]
        ensures { result.now ≡ self.now.fields }
    {
        &self.groups
    }

    /// The report's length in bits, the byte of its id among them.
    pub fn size_in_bits(&self) -> usize
        ensures { result ≡ self.now.size }
    {
        self.size
    }

    /// The report's length in bytes, that of its id among them: its bits, rounded up to whole
    /// bytes.
    pub fn size_in_bytes(&self) -> usize
        ensures { result ≡ (self.now.size + 7) / 8 }
    {
        self.size.div_ceil(8)
    }

    /// The bytes of a report without values, as `Report::blank` makes them of the fields: as many as
    /// the report has, the first its id, where it has one, and all other bits 0 (Section 5.6).
    ///
    /// # Errors
    ///
    /// - `AllocError`: memory for the bytes is refused.
    pub fn blank(&self, alloc: Global) -> Result<Vec<u8>, AllocError>
        ensures blank { IfOk result (λ bytes. bytes.items ≡ blank_bytes self.now.id self.now.size) }
        ensures whole { IfOk result (λ bytes. IsWhole (listed_report self.now) bytes.items) }
        ensures takes { IfOk result (λ bytes. TakesAll (listed_report self.now) bytes.items) }
    {
        let bytes = blank_of(alloc, &self.id, self.size)?;
        Ok(bytes)
    }

    /// The field with this number, as `Report::field` finds it among the listed fields; `None` where
    /// the report has none with it.
    ///
    /// # Errors
    ///
    /// - `AllocError`: memory for the field's usages or collections is refused.
    pub fn field(&self, alloc: Global, number: FieldId) -> Result<Option<Field>, AllocError>
        ensures { IfOk result (λ field. option_map field_record field
            ≡ field_with number (listed_report self.now).fields) }
    {
        find_with_number(alloc, &self.groups, number)
    }

    /// The first field that has this usage, as `Report::field_for` finds it among the listed fields;
    /// `None` where no field of the report has it (Section 6.2.2.8).
    ///
    /// # Errors
    ///
    /// - `AllocError`: memory for a field's usages or collections is refused.
    pub fn field_for(&self, alloc: Global, usage: Usage) -> Result<Option<Field>, AllocError>
        ensures { IfOk result (λ field. option_map field_record field
            ≡ field_for usage (listed_report self.now).fields) }
    {
        find_with_usage(alloc, &self.groups, &usage)
    }

    /// Whether another report is the same once the fields of both are listed, as
    /// `RDescReport::is_alike` says.
    ///
    /// # Errors
    ///
    /// - `AllocError`: memory for the fields is refused.
    pub fn is_alike(&self, alloc: Global, other: &OutlineReport) -> Result<bool, AllocError>
        ensures { IfOk result (λ alike.
            IsTrue alike ↔ (listed_report self.now ≡ listed_report other.now)) }
    {
        let own = self.lay_out(alloc)?;
        Ok(own.is_alike(&other.lay_out(alloc)?))
    }

    /// The same report with its fields listed.
    ///
    /// # Errors
    ///
    /// - `AllocError`: memory for the fields is refused.
    pub fn lay_out(&self, alloc: Global) -> Result<RDescReport, AllocError>
        ensures { IfOk result (λ report. report ≡ listed_report self.now) }
    {
        Ok(RDescReport {
            id: self.id,
            size: self.size,
            fields: fields_of(alloc, &self.groups)?,
        })
    }
}

/// The report with this id, or without one.
pub(crate) fn find_with_id(
    reports: &[OutlineReport],
    id: Option<ReportId>,
) -> Option<&OutlineReport>
    ensures { option_copied result ≡ report_with id reports.now }
{
    reports.iter().find(|report| has_id(report, id))
}

fn has_id(report: &OutlineReport, id: Option<ReportId>) -> bool
    ensures { result ≡ same_key report.now.id id }
{
    is_same_id(report.id, id)
}

/// The fields of groups, for which the room is asked at once.
fn fields_of(alloc: Global, groups: &[Group]) -> Result<Vec<Field>, AllocError>
    ensures { IfOk result (λ fields. map field_record fields.items ≡ fields_of_groups groups.now) }
{
    let mut room: usize = 0;
    for group in groups {
        room = room.saturating_add(group.field_count());
    }
    let mut fields = Vec::with_capacity(alloc, room)?;
    for group in groups {
        group.add_fields(alloc, &mut fields)?;
    }
    Ok(fields)
}
