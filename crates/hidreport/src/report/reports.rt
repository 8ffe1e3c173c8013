//! The reports of the three directions, their fields listed.
ghost use Rattle.std.specs.Prelude.{◌≡◌, Some, IfSome, option_copied};
ghost use Rattle.hidreport_fields.specs.Lookup.{IsOneWith, report_with};
ghost use Rattle.hidreport_fields.specs.ReportIds.{same_key};

use crate::report::RDescReport;
use hidreport_fields::Direction;
use hidreport_types::ReportId;
use std::alloc::Global;
use std::marker::Model;

/// The reports of the three directions, those of each in the order of their first fields.
#[derive(Debug, Drop)]
pub(crate) struct Reports {
    pub(crate) input: Vec<RDescReport>,
    pub(crate) output: Vec<RDescReport>,
    pub(crate) feature: Vec<RDescReport>,
}

impl Model for Reports {
    ghost use Rattle.hidreport_fields.specs.Records.{DescriptorRecord};

    ghost Value = { DescriptorRecord };

    ghost view = { λ r. record {
      input = r.input.items;
      output = r.output.items;
      feature = r.feature.items;
    } };
}

impl Reports {
    ghost use Rattle.std.specs.Prelude.{◌≡◌, ◌↔◌, [], IsTrue};
    ghost use Rattle.hidreport_fields.specs.Lookup.{reports_of};

    /// There are none. It takes no memory.
    pub(crate) fn new(alloc: Global) -> Reports
        ensures { result ≡ record { input = []; output = []; feature = [] } }
    {
        Reports {
            input: Vec::new(alloc),
            output: Vec::new(alloc),
            feature: Vec::new(alloc),
        }
    }

    /// Whether others are the same in all parts.
    pub(crate) fn is_alike(&self, other: &Reports) -> bool
        ensures { IsTrue result ↔ (self.now ≡ other.now) }
    {
        RDescReport::are_alike(self.input.as_slice(), other.input.as_slice())
            && RDescReport::are_alike(self.output.as_slice(), other.output.as_slice())
            && RDescReport::are_alike(self.feature.as_slice(), other.feature.as_slice())
    }

    /// Those of a direction.
    pub(crate) fn of(&self, direction: Direction) -> &[RDescReport]
        ensures { result.now ≡ reports_of direction self.now }
    {
        match direction {
            Direction::Input => &self.input,
            Direction::Output => &self.output,
            Direction::Feature => &self.feature,
        }
    }
}

/// The report with this id where it stands as far behind the first as its id is above the first's:
/// ids mostly rise by one.
pub(crate) fn likely_report(reports: &[RDescReport], id: ReportId) -> Option<&RDescReport>
    ensures { IfSome (option_copied result) (IsOneWith (Some id) reports.now) }
{
    let first = reports.first()?;
    let first = u8::from(first.id?);
    let report = reports.get(usize::from(u8::from(id).wrapping_sub(first)))?;
    if has_id(report, Some(id)) {
        Some(report)
    } else {
        None
    }
}

/// The report with this id, or without one.
#[inline(always)]
pub(crate) fn find_with_id(reports: &[RDescReport], id: Option<ReportId>) -> Option<&RDescReport>
    ensures { option_copied result ≡ report_with id reports.now }
{
    reports.iter().find(|report| has_id(report, id))
}

fn has_id(report: &RDescReport, id: Option<ReportId>) -> bool
    ensures { result ≡ same_key report.now.id id }
{
    is_same_id(report.id, id)
}

/// Whether two ids are the same, or neither is there.
pub(crate) fn is_same_id(own: Option<ReportId>, other: Option<ReportId>) -> bool
    ensures { result ≡ same_key own other }
{
    match (own, other) {
        (Some(own), Some(other)) => u8::from(own) == u8::from(other),
        (None, None) => true,
        _ => false,
    }
}
