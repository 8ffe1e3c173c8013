//! Report descriptors, their fields listed.
ghost use Rattle.std.specs.Prelude.{◌≡◌, ◌≢◌, ◌≤◌, ℕ, [], None, Some, Err, Ok, IfOk, IfSome, ◌↔◌, IsTrue, option_copied};
ghost use Rattle.hidreport_lists.specs.Answer.{Answers};
ghost use Rattle.hidreport.specs.Budget.{parse_within};
ghost use Rattle.hidreport.specs.Laws.{AgreeWithoutPush, KeptItemsMean, RebuiltBytesMean, SegmentsAreIdle};
ghost use Rattle.hidreport_fields.specs.Lookup.{find_report, report_with, reports_of};
ghost use Rattle.hidreport.specs.Meaning.{parse, parse_by, parse_globals_only};
ghost use Rattle.hidreport.specs.Options.{default_options, globals_only_options, parse_as, reading_of};
ghost use Rattle.hidreport_fields.specs.Tiling.{IsTiled};
ghost use Rattle.hidreport.specs.Weight.{descriptor_weight};
ghost use Rattle.hidreport.specs.Working.{AllOwn, AllWork};

use crate::outline::Outline;
use crate::parse_options::ParseOptions;
use crate::parser::push_keeps::PushKeeps;
use crate::report::RDescReport;
use crate::report::reports::{Reports, find_with_id, likely_report};
use hidreport_fields::Direction;
use hidreport_lists::ParserError;
use hidreport_types::ReportId;
use std::alloc::Global;
use std::marker::Model;

/// The reports that a report descriptor announces (Section 6.2.2), with their fields.
///
/// The reports of each direction stand in the order of their first fields. An `Outline` has the
/// same reports with their fields in groups.
#[derive(Debug, Drop)]
pub struct ReportDescriptor {
    pub(crate) reports: Reports,
}

impl Model for ReportDescriptor {
    ghost use Rattle.hidreport_fields.specs.Records.{DescriptorRecord};
    ghost use Rattle.hidreport_fields.specs.Tiling.{IsTiled};

    ghost Value = { DescriptorRecord };

    ghost view = { λ d. d.reports };

    ghost invariant = { λ d. IsTiled d.reports };
}

impl ReportDescriptor {
    /// A descriptor without reports; takes no memory.
    pub fn empty(alloc: Global) -> ReportDescriptor
        ensures none { result ≡ record { input = []; output = []; feature = [] } }
        ensures tiled { IsTiled result }
    {
        ReportDescriptor {
            reports: Reports::new(alloc),
        }
    }

    /// Parses the bytes of a report descriptor as the Rust crate does, without limits
    /// (Section 6.2.2).
    ///
    /// A Push keeps local items with the values of global ones, and usages are found by the letter
    /// of the standard. It is `try_from_with` by the default options; `exact` gives it that call's
    /// laws. For bytes that nobody vouches for use that call with `ParseOptions::bounded()`.
    ///
    /// In each report the fields have all bits after the id, and each bit has one field; each
    /// report, field and collection has an id of its own; and a range gave just its usages
    /// (`tiled`). A Push, items without a main item in which each Push has its Pop, and the Pop of
    /// that Push change nothing (`struck`). Long items and reserved ones change nothing either
    /// (`kept`), and the bytes that `hid::rebuild` writes for the others are read as the same
    /// reports, or have the same fault at the same item (`rebuilt`).
    ///
    /// # Errors
    ///
    /// An item that can't be read comes before every fault of meaning, wherever it stands. Of the
    /// faults of meaning that of the first item comes, with the item's offset.
    ///
    /// - `InvalidData` at 0, `Empty report descriptor`: there are no bytes.
    /// - `InvalidData` at the first item that can't be read, as
    ///   `hid::ReportDescriptorItems::try_from` says it.
    /// - `InvalidData`, `Too many Pops, not enough Pushes`: a Pop without an open Push.
    /// - `InvalidData`, `Too many EndCollection`: an EndCollection without an open collection.
    /// - `InvalidData`, `Missing UsageMaximum in locals`: at a Collection, or at an Input, Output
    ///   or Feature that makes fields with data, a UsageMinimum has no UsageMaximum.
    /// - `InvalidData`, `Missing UsagePage in globals`: at one of these, a range or a usage has no
    ///   page.
    /// - `InvalidData`, `Missing Usages for main item`: an Input, Output or Feature that makes
    ///   fields with data has no usages.
    /// - `OutOfBounds`, without an offset: a report would end past `usize::MAX` bits, or more than
    ///   2^32 fields or collections would be numbered.
    /// - `OutOfMemory`: memory is refused; this says nothing of the bytes.
    ///
    /// `BudgetExceeded` (`unlimited`) and `MismatchingReportId` (`own_bytes`) never come.
    ///
    /// # Examples
    ///
    /// ```rust
    /// use hidreport::{ParserError, ReportDescriptor};
    ///
    /// let bytes = b"\x05\x01\x15\x81\x25\x7f\x75\x08\x95\x02\x09\x30\x09\x31\x81\x02";
    /// let descriptor = ReportDescriptor::try_from(alloc, bytes)?;
    /// assert_eq!(rt; descriptor.input_reports().len(), 1);
    /// // The last item is cut short; that comes before the Input, which lacks usages.
    /// let refused = ReportDescriptor::try_from(alloc, b"\x05\x01\x75\x08\x95\x01\x81\x02\x05");
    /// assert!(rt; matches!(refused, Err(ParserError::InvalidData { offset: 8, .. })));
    /// ```
    pub fn try_from(alloc: Global, bytes: &[u8]) -> Result<ReportDescriptor, ParserError>
        ensures exact { Answers result (parse bytes.now) }
        ensures tiled { IfOk result (λ descriptor. IsTiled descriptor) }
        ensures struck { SegmentsAreIdle default_options bytes.now }
        ensures kept { KeptItemsMean default_options bytes.now }
        ensures rebuilt { RebuiltBytesMean default_options bytes.now }
        ensures own_bytes { result ≢ Err ParserError.MismatchingReportId }
        ensures unlimited { (offset : ℕ) → result ≢ Err (ParserError.BudgetExceeded offset) }
    {
        ReportDescriptor::try_from_with(alloc, bytes, ParseOptions::default())
    }

    /// Parses the bytes of a report descriptor by options: what a Push keeps, by which rule an item
    /// finds its usages, and under which limits (Section 6.2.2).
    ///
    /// Where there is a limit, a field counts 1, with the usages of an array and, for each
    /// collection around the field, 1 and the usages of that; padding counts 1 alone. A collection
    /// counts 1 and its usages where it is opened. Before anything of an item is listed, what it
    /// counts is known from the numbers in force. What is read counts at most the limit together
    /// (`bounded`), and is what is read without one (`plain`).
    ///
    /// The laws of `try_from` hold, too (`struck`, `kept`, `rebuilt`, `tiled`); where a Push keeps
    /// globals alone, that of segments only where no local item stands in one. A limit's error then
    /// comes at the same item. They say nothing of `longest`, which what is left out may pass.
    /// `ParseOptions` has an example.
    ///
    /// # Errors
    ///
    /// - `BudgetExceeded` with the number `longest`: there are more bytes than that; they aren't
    ///   looked at.
    /// - What `try_from` refuses, in its order, by what is in force under these options. By
    ///   `UsagesBy::Hosts` a usage needs no page and a minimum no maximum.
    /// - `BudgetExceeded` with the offset of the first item that makes the sum pass `limit`: all
    ///   items can be read, and none up to this one has a fault.
    /// - `OutOfMemory`: memory is refused; this says nothing of the bytes.
    ///
    /// Without `limit` and `longest` `BudgetExceeded` never comes (`unlimited`), and
    /// `MismatchingReportId` never does.
    pub fn try_from_with(
        alloc: Global,
        bytes: &[u8],
        options: ParseOptions,
    ) -> Result<ReportDescriptor, ParserError>
        ensures exact { Answers result (parse_as options bytes.now) }
        ensures bounded { IfOk result (λ descriptor.
            IfSome options.limit (λ limit. descriptor_weight descriptor ≤ limit)) }
        ensures plain { IfOk result (λ descriptor.
            parse_by (reading_of options) bytes.now ≡ Ok descriptor) }
        ensures tiled { IfOk result (λ descriptor. IsTiled descriptor) }
        ensures struck { SegmentsAreIdle options bytes.now }
        ensures kept { KeptItemsMean options bytes.now }
        ensures rebuilt { RebuiltBytesMean options bytes.now }
        ensures own_bytes { result ≢ Err ParserError.MismatchingReportId }
        ensures unlimited { options.limit ≡ None → options.longest ≡ None
            → (offset : ℕ) → result ≢ Err (ParserError.BudgetExceeded offset) }
    {
        let outline = Outline::parsed(alloc, bytes, options, true)?;
        Ok(outline.lay_out(alloc)?)
    }

    /// Parses the bytes of a report descriptor under a limit: at most `limit` may be listed of what
    /// it can ask for in a few bytes (Section 6.2.2).
    ///
    /// It is `try_from_with` where this is the limit and the other options are the default; what
    /// counts is said there. What is read counts at most `limit` together (`bounded`), and is what
    /// `try_from` reads (`plain`).
    ///
    /// # Errors
    ///
    /// - What `try_from_with` refuses by these options, in its order; `MismatchingReportId` never
    ///   comes.
    pub fn try_from_within(
        alloc: Global,
        bytes: &[u8],
        limit: usize,
    ) -> Result<ReportDescriptor, ParserError>
        ensures exact { Answers result (parse_within limit bytes.now) }
        ensures bounded { IfOk result (λ descriptor. descriptor_weight descriptor ≤ limit) }
        ensures plain { IfOk result (λ descriptor. parse bytes.now ≡ Ok descriptor) }
        ensures tiled { IfOk result (λ descriptor. IsTiled descriptor) }
        ensures own_bytes { result ≢ Err ParserError.MismatchingReportId }
    {
        let options = ParseOptions {
            limit: Some(limit),
            ..ParseOptions::default()
        };
        ReportDescriptor::try_from_with(alloc, bytes, options)
    }

    /// Parses the bytes of a report descriptor where a Push keeps the values of global items alone
    /// (Section 6.2.2.7).
    ///
    /// Local items go on through Push and Pop: the standard speaks of the global item state table,
    /// and Linux reads it so. It is `try_from_with` by this reading, without a limit. Where there
    /// is no Push it agrees with `try_from` (`agree`). The laws of `try_from` hold here, too, that
    /// of segments where no local item stands in one.
    ///
    /// # Errors
    ///
    /// - What `try_from` refuses, in its order, by what is in force under this reading.
    ///   `BudgetExceeded` and `MismatchingReportId` never come.
    pub fn try_from_globals_only(
        alloc: Global,
        bytes: &[u8],
    ) -> Result<ReportDescriptor, ParserError>
        ensures exact { Answers result (parse_globals_only bytes.now) }
        ensures agree { AgreeWithoutPush bytes.now }
        ensures tiled { IfOk result (λ descriptor. IsTiled descriptor) }
        ensures struck { SegmentsAreIdle globals_only_options bytes.now }
        ensures kept { KeptItemsMean globals_only_options bytes.now }
        ensures rebuilt { RebuiltBytesMean globals_only_options bytes.now }
        ensures own_bytes { result ≢ Err ParserError.MismatchingReportId }
        ensures unlimited { (offset : ℕ) → result ≢ Err (ParserError.BudgetExceeded offset) }
    {
        let options = ParseOptions {
            push_keeps: PushKeeps::Globals,
            ..ParseOptions::default()
        };
        ReportDescriptor::try_from_with(alloc, bytes, options)
    }

    /// Whether another descriptor announces equal reports in each direction; takes no memory.
    pub fn is_alike(&self, other: &ReportDescriptor) -> bool
        ensures { IsTrue result ↔ (self.now ≡ other.now) }
    {
        self.reports.is_alike(&other.reports)
    }

    /// The input reports, which the device sends (Section 5.6).
    pub fn input_reports(&self) -> &[RDescReport]
        ensures { result.now ≡ self.now.input }
    {
        self.reports.of(Direction::Input)
    }

    /// The output reports, which the host sends (Section 5.6).
    pub fn output_reports(&self) -> &[RDescReport]
        ensures { result.now ≡ self.now.output }
    {
        self.reports.of(Direction::Output)
    }

    /// The feature reports, which the host reads and writes apart from the two streams
    /// (Section 5.6).
    pub fn feature_reports(&self) -> &[RDescReport]
        ensures { result.now ≡ self.now.feature }
    {
        self.reports.of(Direction::Feature)
    }

    /// The reports of a direction: those of `input_reports`, `output_reports` or `feature_reports`.
    pub fn reports(&self, direction: Direction) -> &[RDescReport]
        ensures { result.now ≡ reports_of direction self.now }
    {
        match direction {
            Direction::Input => self.input_reports(),
            Direction::Output => self.output_reports(),
            Direction::Feature => self.feature_reports(),
        }
    }

    /// The report with this id in a direction (Section 5.6), for `None` the one without an id.
    ///
    /// It is `None` where there is no such report.
    pub fn report(&self, direction: Direction, id: Option<ReportId>) -> Option<&RDescReport>
        ensures { option_copied result ≡ report_with id (reports_of direction self.now) }
    {
        match id {
            Some(id) => self.report_with_id(direction, id),
            None => find_with_id(self.reports.of(direction), None),
        }
    }

    /// The report with this id in a direction, which is looked for first where it likely stands.
    fn report_with_id(&self, direction: Direction, id: ReportId) -> Option<&RDescReport>
        ensures { option_copied result ≡ report_with (Some id) (reports_of direction self.now) }
    {
        let reports = self.reports.of(direction);
        if let Some(report) = likely_report(reports, id) {
            return Some(report);
        }
        find_with_id(reports, Some(id))
    }

    /// Finds the report of a direction that the bytes of a report are of (Section 5.6).
    ///
    /// It finds what `find_input_report` finds among the input reports, and the same is known of
    /// its fields. It is `None` where there is none, or no bytes.
    pub fn find_report(&self, direction: Direction, bytes: &[u8]) -> Option<&RDescReport>
        ensures found { option_copied result
            ≡ find_report (reports_of direction self.now) bytes.now }
        ensures own { IsTiled self.now → IfSome (option_copied result) (AllOwn bytes.now) }
        ensures works { IsTiled self.now → IfSome (option_copied result) (AllWork bytes.now) }
    {
        self.report_of(direction, bytes)
    }

    /// The same, by the lookup alone.
    fn report_of(&self, direction: Direction, bytes: &[u8]) -> Option<&RDescReport>
        ensures { option_copied result ≡ find_report (reports_of direction self.now) bytes.now }
    {
        let id = *bytes.first()?;
        let first = self.reports.of(direction).first()?;
        match first.id {
            None => Some(first),
            Some(_) => self.report_with_id(direction, ReportId::from(id)),
        }
    }

    /// Finds the input report that the bytes of a report are of: the first report where it has no
    /// id, else the one with the first byte as its id (Section 5.6).
    ///
    /// It is `None` where there is none, or no bytes. How many bytes there are isn't looked at.
    ///
    /// No field of the report answers `MismatchingReportId` on these bytes, for a descriptor that
    /// was read or is empty (`own`, by `tiled` of the calls that read it and of `empty`). Where
    /// there are as many bytes as the report has, each field whose values have at most 32 bits is
    /// read, and takes as many values as it has, where each fits (`works`): `extract`,
    /// `extract_one`, `insert` and `insert_one` never fail then, want of memory apart.
    ///
    /// # Examples
    ///
    /// ```rust
    /// use hidreport::{Report, ReportDescriptor};
    ///
    /// let bytes = b"\x05\x01\x75\x08\x95\x01\xa4\x85\x05\x09\x30\x81\x02\xb4\x09\x31\x81\x02";
    /// let descriptor = ReportDescriptor::try_from(alloc, bytes)?;
    /// let report = descriptor.find_input_report(b"\x05\x11\x22").ok_or("no report")?;
    /// assert_eq!(rt; report.size_in_bytes(), 3);
    /// assert!(rt; descriptor.find_input_report(b"\x07\x11\x22").is_none());
    /// ```
    pub fn find_input_report(&self, bytes: &[u8]) -> Option<&RDescReport>
        ensures found { option_copied result ≡ find_report self.now.input bytes.now }
        ensures own { IsTiled self.now → IfSome (option_copied result) (AllOwn bytes.now) }
        ensures works { IsTiled self.now → IfSome (option_copied result) (AllWork bytes.now) }
    {
        self.find_report(Direction::Input, bytes)
    }

    /// Finds the output report that the bytes are of, as `find_input_report` does (Section 5.6).
    pub fn find_output_report(&self, bytes: &[u8]) -> Option<&RDescReport>
        ensures found { option_copied result ≡ find_report self.now.output bytes.now }
        ensures own { IsTiled self.now → IfSome (option_copied result) (AllOwn bytes.now) }
        ensures works { IsTiled self.now → IfSome (option_copied result) (AllWork bytes.now) }
    {
        self.find_report(Direction::Output, bytes)
    }

    /// Finds the feature report that the bytes are of, as `find_input_report` does (Section 5.6).
    pub fn find_feature_report(&self, bytes: &[u8]) -> Option<&RDescReport>
        ensures found { option_copied result ≡ find_report self.now.feature bytes.now }
        ensures own { IsTiled self.now → IfSome (option_copied result) (AllOwn bytes.now) }
        ensures works { IsTiled self.now → IfSome (option_copied result) (AllWork bytes.now) }
    {
        self.find_report(Direction::Feature, bytes)
    }
}
