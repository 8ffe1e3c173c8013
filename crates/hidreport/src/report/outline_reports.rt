//! The reports of the three directions, their fields in groups.
ghost use Rattle.std.specs.Prelude.{◌≡◌, IfOk, map};
ghost use Rattle.hidreport.specs.Groups.{listed_report};

use crate::report::RDescReport;
use crate::report::outline_report::{OutlineReport, find_with_id};
use crate::report::reports::Reports;
use hidreport_fields::Direction;
use hidreport_types::ReportId;
use std::alloc::{AllocError, Global};
use std::marker::Model;

/// The reports of the three directions, those of each in the order of their first fields.
#[derive(Drop)]
pub(crate) struct OutlineReports {
    pub(crate) input: Vec<OutlineReport>,
    pub(crate) output: Vec<OutlineReport>,
    pub(crate) feature: Vec<OutlineReport>,
}

impl Model for OutlineReports {
    ghost use Rattle.hidreport.specs.Groups.{OutlineRecord};

    ghost Value = { OutlineRecord };

    ghost view = { λ r. record {
      input = r.input.items;
      output = r.output.items;
      feature = r.feature.items;
    } };
}

impl OutlineReports {
    ghost use Rattle.std.specs.Prelude.{◌≡◌, [], IfOk, option_copied};
    ghost use Rattle.hidreport.specs.Groups.{listed};
    ghost use Rattle.hidreport_fields.specs.Lookup.{find_report, reports_of};

    /// There are none.
    pub(crate) fn new(alloc: Global) -> OutlineReports
        ensures { result ≡ record { input = []; output = []; feature = [] } }
    {
        OutlineReports {
            input: Vec::new(alloc),
            output: Vec::new(alloc),
            feature: Vec::new(alloc),
        }
    }

    /// Those of a direction.
    pub(crate) fn of(&self, direction: Direction) -> &[OutlineReport]
        ensures { result.now ≡ reports_of direction self.now }
    {
        match direction {
            Direction::Input => &self.input,
            Direction::Output => &self.output,
            Direction::Feature => &self.feature,
        }
    }

    /// The one of a direction that a report's bytes are of.
    pub(crate) fn find(&self, direction: Direction, bytes: &[u8]) -> Option<&OutlineReport>
        ensures { option_copied result ≡ find_report (reports_of direction self.now) bytes.now }
    {
        let id = *bytes.first()?;
        let reports = self.of(direction);
        let first = reports.first()?;
        match first.id {
            None => Some(first),
            Some(_) => find_with_id(reports, Some(ReportId::from(id))),
        }
    }

    /// The same reports, their fields listed.
    pub(crate) fn lay_out(&self, alloc: Global) -> Result<Reports, AllocError>
        ensures { IfOk result (λ reports. reports ≡ listed self.now) }
    {
        Ok(Reports {
            input: laid_out(alloc, &self.input)?,
            output: laid_out(alloc, &self.output)?,
            feature: laid_out(alloc, &self.feature)?,
        })
    }
}

/// The same reports, their fields listed.
fn laid_out(alloc: Global, reports: &[OutlineReport]) -> Result<Vec<RDescReport>, AllocError>
    ensures { IfOk result (λ list. list.items ≡ map listed_report reports.now) }
{
    let mut list = Vec::with_capacity(alloc, reports.len())?;
    for report in reports {
        list.push_reserved(report.lay_out(alloc)?);
    }
    Ok(list)
}
