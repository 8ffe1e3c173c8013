//! Report descriptors, their fields in groups.
ghost use Rattle.std.specs.Prelude.{◌≡◌, ◌≢◌, ◌≤◌, ℕ, [], None, Err, Ok, IfOk, IfSome, option_copied};
ghost use Rattle.hidreport_lists.specs.Answer.{Answers, AnswersBy};
ghost use Rattle.hidreport.specs.Laws.{KeptItemsMean, RebuiltBytesMean, SegmentsAreIdle, parse_any};
ghost use Rattle.hidreport_fields.specs.Lookup.{find_report, report_with, reports_of};
ghost use Rattle.hidreport.specs.Groups.{listed, listed_report};
ghost use Rattle.hidreport.specs.Meaning.{parse_by};
ghost use Rattle.hidreport.specs.Options.{parse_as, reading_of};
ghost use Rattle.hidreport.specs.Outline.{answer_with, groups_in, outline_as};
ghost use Rattle.hidreport_fields.specs.Tiling.{IsTiled};
ghost use Rattle.hidreport.specs.Weight.{descriptor_weight};
ghost use Rattle.hidreport.specs.Working.{AllOwn, AllWork};

use crate::descriptor::ReportDescriptor;
use crate::parse_options::ParseOptions;
use crate::parser;
use crate::report::outline_report::{OutlineReport, find_with_id};
use crate::report::outline_reports::OutlineReports;
use hidreport_fields::Direction;
use hidreport_lists::ParserError;
use hidreport_types::ReportId;
use std::alloc::{AllocError, Global};
use std::marker::Model;

/// The reports that a report descriptor announces (Section 6.2.2), with their fields in groups.
///
/// There is one entry for each main item, so that a few bytes which ask for many fields cost little;
/// a field is made where it is asked for. Laid out, the groups are the fields of the descriptor
/// (`lay_out`).
#[derive(Drop)]
pub struct Outline {
    reports: OutlineReports,
}

impl Model for Outline {
    ghost use Rattle.hidreport.specs.Groups.{OutlineRecord, listed};
    ghost use Rattle.hidreport_fields.specs.Tiling.{IsTiled};

    ghost Value = { OutlineRecord };

    ghost view = { λ o. o.reports };

    ghost invariant = { λ o. IsTiled (listed o.reports) };
}

impl Outline {
    /// An outline without reports; takes no memory.
    pub fn empty(alloc: Global) -> Outline
        ensures none { result ≡ record { input = []; output = []; feature = [] } }
        ensures tiled { IsTiled (listed result) }
    {
        Outline {
            reports: OutlineReports::new(alloc),
        }
    }

    /// Parses the bytes of a report descriptor by options, without a list of its fields
    /// (Section 6.2.2).
    ///
    /// There is one group for each item that makes fields, in the order of the items, with all that
    /// the item says of them (`exact`). It reads what `ReportDescriptor::try_from_with` does, which
    /// lays out what this reads (`listed`): the limit counts what would be listed, and all laws of
    /// that call hold.
    ///
    /// # Errors
    ///
    /// - What `ReportDescriptor::try_from_with` refuses, in its order.
    ///
    /// # Examples
    ///
    /// ```rust
    /// use hidreport::{Outline, ParseOptions};
    ///
    /// let bytes = b"\x05\x01\x15\x81\x25\x7f\x75\x08\x95\x02\x09\x30\x09\x31\x81\x02";
    /// let outline = Outline::try_from_with(alloc, bytes, ParseOptions::bounded())?;
    /// let report = outline.input_reports().first().ok_or("no report")?;
    /// let group = report.groups().first().ok_or("no group")?;
    /// assert_eq!(rt; group.field_count(), 2);
    /// assert_eq!(rt; group.element_width(), 8);
    /// assert_eq!(rt; group.usage(1).map(u32::from), Some(0x0001_0031));
    /// ```
    pub fn try_from_with(
        alloc: Global,
        bytes: &[u8],
        options: ParseOptions,
    ) -> Result<Outline, ParserError>
        ensures exact { Answers result (outline_as options bytes.now) }
        ensures listed { AnswersBy listed result (parse_as options bytes.now) }
        ensures bounded { IfOk result (λ outline.
            IfSome options.limit (λ limit. descriptor_weight (listed outline) ≤ limit)) }
        ensures plain { IfOk result (λ outline.
            parse_by (reading_of options) bytes.now ≡ Ok (listed outline)) }
        ensures tiled { IfOk result (λ outline. IsTiled (listed outline)) }
        ensures struck { SegmentsAreIdle options bytes.now }
        ensures kept { KeptItemsMean options bytes.now }
        ensures rebuilt { RebuiltBytesMean options bytes.now }
        ensures own_bytes { result ≢ Err ParserError.MismatchingReportId }
        ensures unlimited { options.limit ≡ None → options.longest ≡ None
            → (offset : ℕ) → result ≢ Err (ParserError.BudgetExceeded offset) }
    {
        Outline::parsed(alloc, bytes, options, false)
    }

    /// The same, also where its fields are to be listed: the groups share what these share.
    pub(crate) fn parsed(
        alloc: Global,
        bytes: &[u8],
        options: ParseOptions,
        lists_fields: bool,
    ) -> Result<Outline, ParserError>
        ensures exact { Answers result (outline_as options bytes.now) }
        ensures listed { AnswersBy listed result (parse_as options bytes.now) }
        ensures bounded { IfOk result (λ outline.
            IfSome options.limit (λ limit. descriptor_weight (listed outline) ≤ limit)) }
        ensures plain { IfOk result (λ outline.
            parse_by (reading_of options) bytes.now ≡ Ok (listed outline)) }
        ensures tiled { IfOk result (λ outline. IsTiled (listed outline)) }
        ensures struck { SegmentsAreIdle options bytes.now }
        ensures kept { KeptItemsMean options bytes.now }
        ensures rebuilt { RebuiltBytesMean options bytes.now }
        ensures own_bytes { result ≢ Err ParserError.MismatchingReportId }
        ensures unlimited { options.limit ≡ None → options.longest ≡ None
            → (offset : ℕ) → result ≢ Err (ParserError.BudgetExceeded offset) }
    {
        if let Some(offset) = options.past_longest(bytes.len()) {
            return Err(ParserError::BudgetExceeded { offset });
        }
        Outline::read(alloc, bytes, options, lists_fields)
    }

    /// The outline with these reports.
    pub(crate) fn of(reports: OutlineReports) -> Outline
        requires { IsTiled (listed reports) }
        ensures { result ≡ reports }
    {
        Outline { reports }
    }

    /// The same of bytes that aren't too many.
    fn read(
        alloc: Global,
        bytes: &[u8],
        options: ParseOptions,
        lists_fields: bool,
    ) -> Result<Outline, ParserError>
        ensures { Answers result (answer_with (groups_in options bytes.now)
            (parse_any options bytes.now)) }
    {
        let reports = parser::parse(alloc, bytes, options, lists_fields)?;
        Ok(Outline { reports })
    }

    /// The same descriptor with its fields listed.
    ///
    /// # Errors
    ///
    /// - `AllocError`: memory for the fields is refused.
    pub fn lay_out(&self, alloc: Global) -> Result<ReportDescriptor, AllocError>
        ensures { IfOk result (λ descriptor. descriptor ≡ listed self.now) }
    {
        let reports = self.reports.lay_out(alloc)?;
        Ok(ReportDescriptor { reports })
    }

    /// The input reports, which the device sends (Section 5.6).
    pub fn input_reports(&self) -> &[OutlineReport]
        ensures { result.now ≡ self.now.input }
    {
        &self.reports.input
    }

    /// The output reports, which the host sends (Section 5.6).
    pub fn output_reports(&self) -> &[OutlineReport]
        ensures { result.now ≡ self.now.output }
    {
        &self.reports.output
    }

    /// The feature reports, which the host reads and writes apart from the two streams
    /// (Section 5.6).
    pub fn feature_reports(&self) -> &[OutlineReport]
        ensures { result.now ≡ self.now.feature }
    {
        &self.reports.feature
    }

    /// The reports of a direction: those of `input_reports`, `output_reports` or `feature_reports`.
    pub fn reports(&self, direction: Direction) -> &[OutlineReport]
        ensures { result.now ≡ reports_of direction self.now }
    {
        self.reports.of(direction)
    }

    /// The report with this id in a direction (Section 5.6), for `None` the one without an id.
    ///
    /// It is `None` where there is no such report.
    pub fn report(&self, direction: Direction, id: Option<ReportId>) -> Option<&OutlineReport>
        ensures { option_copied result ≡ report_with id (reports_of direction self.now) }
    {
        find_with_id(self.reports(direction), id)
    }

    /// Finds the report of a direction that the bytes of a report are of: the first where it has no
    /// id, else the one with the first byte as its id (Section 5.6).
    ///
    /// It is `None` where there is none, or no bytes. What `ReportDescriptor::find_report` says of
    /// the fields holds of those that the groups are, laid out (`own`, `works`).
    pub fn find_report(&self, direction: Direction, bytes: &[u8]) -> Option<&OutlineReport>
        ensures found { option_copied result
            ≡ find_report (reports_of direction self.now) bytes.now }
        ensures own { IfSome (option_copied result) (λ report.
            AllOwn bytes.now (listed_report report)) }
        ensures works { IfSome (option_copied result) (λ report.
            AllWork bytes.now (listed_report report)) }
    {
        self.reports.find(direction, bytes)
    }
}
