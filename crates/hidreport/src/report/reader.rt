//! All values of a report in one pass (Sections 5.6 and 5.8).
ghost use Rattle.std.specs.Prelude.{◌≡◌, ◌≢◌, Err, IfErr, IfOk, List, Ok, OnOk, flat_map, sum_by, ℤ};
ghost use Rattle.hidreport_items.specs.Spelling.{AreBytes};
ghost use Rattle.hidreport_lists.specs.Answer.{IsOfReading};
ghost use Rattle.hidreport.specs.Groups.{fields_of_groups};
ghost use Rattle.hidreport.specs.LowBits.{IsReadWhole, low_fields};
ghost use Rattle.hidreport.specs.Reader.{ReadsInto, available_numbers, report_numbers};
ghost use Rattle.hidreport_fields.specs.Records.{FieldRecord};
ghost use Rattle.hidreport.specs.ReportWriting.{IsReportWritten, report_written};
ghost use Rattle.hidreport.specs.Runs.{StandFor, count_in, runs_available, runs_read, runs_written};
ghost use Rattle.hidreport_fields.specs.WritingValues.{Inserts, value_count};

mod made_runs;
mod run;
mod run_list;

use crate::report::outline_report::OutlineReport;
use crate::report::{RDescReport, Report};
use hidreport_fields::InsertError;
use hidreport_lists::ParserError;
use hidreport_types::ReportId;
use made_runs::{low_runs_of, runs_of, runs_of_groups};
use run::Run;
use run_list::RunList;
use std::alloc::{AllocError, Global};
use std::marker::Model;

/// A report's fields, laid out once so that all its values are read in one pass (Section 5.8).
///
/// It stands for the fields as they were when it was made, and lends nothing of the report.
#[derive(Debug, Drop)]
pub struct Reader {
    runs: RunList,
    value_count: usize,
}

impl Model for Reader {
    ghost use Rattle.std.specs.Prelude.{◌≡◌, ◌<◌, ◌^◌, List};
    ghost use Rattle.hidreport.specs.Runs.{RunRecord, count_in};

    ghost Value = { List RunRecord };

    ghost view = { λ r. r.runs };

    ghost invariant = { λ r. (r.value_count ≡ count_in r.runs) × (count_in r.runs < 2 ^ 64) };
}

impl Reader {
    /// A reader of a report's fields, in their order.
    ///
    /// Memory is taken here alone: once for fields of one width and sign that lie side by side, and
    /// none for padding.
    ///
    /// # Errors
    ///
    /// - `AllocError`: memory for it is refused, or the fields have more than `usize::MAX` values.
    pub fn new(alloc: Global, report: &RDescReport) -> Result<Reader, AllocError>
        ensures { IfOk result (λ reader. StandFor report.now.fields reader) }
    {
        let runs = runs_of(alloc, report.fields())?;
        Reader::by(runs, *report.report_id())
    }

    /// A reader of the fields of a report that are in groups, in their order: what `new` is of the same
    /// fields listed, which it doesn't list.
    ///
    /// # Errors
    ///
    /// - `AllocError`: memory for it is refused, or the fields have more than `usize::MAX` values.
    ///
    /// # Examples
    ///
    /// ```rust
    /// use hidreport::{Outline, ParseOptions, Reader};
    ///
    /// let bytes = b"\x05\x01\x15\x81\x25\x7f\x75\x08\x95\x02\x09\x30\x09\x31\x81\x02";
    /// let outline = Outline::try_from_with(alloc, bytes, ParseOptions::bounded())?;
    /// let report = outline.input_reports().first().ok_or("no report")?;
    /// let mut values = [0; 2];
    /// assert_eq!(rt; Reader::of(alloc, report)?.read(b"\x05\xfb", &mut values)?, 2);
    /// assert_eq!(rt; values, [5, -5]);
    /// ```
    pub fn of(alloc: Global, report: &OutlineReport) -> Result<Reader, AllocError>
        ensures { IfOk result (λ reader. StandFor (fields_of_groups report.now.fields) reader) }
    {
        let runs = runs_of_groups(alloc, report.groups())?;
        Reader::by(runs, *report.report_id())
    }

    /// A reader of a report's fields, in their order, that gives the low 32 bits of each value that
    /// has more, as hosts do.
    ///
    /// Such a value is that of a field which begins where it does and has 32 bits, with the same sign;
    /// its upper bits are neither read nor written. So each report that was read has all its values
    /// where it has all its bytes (`whole`), and as many as it has for `new` (`counted`).
    ///
    /// Memory is taken here alone: as for `new`, and for each value past 32 bits.
    ///
    /// # Errors
    ///
    /// - `AllocError`: memory for it is refused, or the fields have more than `usize::MAX` values.
    ///
    /// # Examples
    ///
    /// ```rust
    /// use hidreport::{ParserError, Reader, ReportDescriptor};
    ///
    /// let bytes = b"\x06\x00\xff\x75\x40\x95\x01\x09\x01\x81\x02\x75\x08\x09\x02\x81\x02";
    /// let descriptor = ReportDescriptor::try_from(alloc, bytes)?;
    /// let report = descriptor.input_reports().first().ok_or("no report")?;
    /// let report_bytes = b"\x01\x02\x03\x04\x05\x06\x07\x08\x09";
    /// let mut values = [0; 2];
    /// let exact = Reader::new(alloc, report)?.read(report_bytes, &mut values);
    /// assert!(rt; matches!(exact, Err(ParserError::OutOfBounds)));
    /// assert_eq!(rt; Reader::of_low_bits(alloc, report)?.read(report_bytes, &mut values)?, 2);
    /// assert_eq!(rt; values, [0x0403_0201, 9]);
    /// ```
    pub fn of_low_bits(alloc: Global, report: &RDescReport) -> Result<Reader, AllocError>
        ensures low { IfOk result (λ reader.
            StandFor (flat_map low_fields report.now.fields) reader) }
        ensures counted { IfOk result (λ reader.
            count_in reader ≡ sum_by value_count report.now.fields) }
        ensures whole { IfOk result (λ reader. IsReadWhole report.now reader) }
    {
        let runs = low_runs_of(alloc, report.fields())?;
        Reader::by(runs, *report.report_id())
    }

    /// A reader by runs, of a report with this id.
    fn by(runs: Vec<Run>, report_id: Option<ReportId>) -> Result<Reader, AllocError>
        ensures { IfOk result (λ reader. reader ≡ runs.items) }
    {
        let runs = RunList::of(runs, report_id);
        let value_count = runs.value_count().ok_or(AllocError)?;
        Ok(Reader { runs, value_count })
    }

    /// How many values the fields have: a variable field one, an array its count, padding none.
    pub fn value_count(&self) -> usize
        ensures counted { result ≡ count_in self.now }
        ensures fields { (fields : List FieldRecord) → StandFor fields self.now
            → result ≡ sum_by value_count fields }
    {
        self.value_count
    }

    /// Reads the values of all fields, in order, from a report that has these bytes.
    ///
    /// They are just what `extract` of each field gives, one behind the other (`fields`), as numbers
    /// of 64 bits; elements of an array stand one by one, and padding gives none. They stand in place
    /// of the first of `values`. The answer is how many there are, also where there is no room for
    /// all: what has no room isn't written, and what is behind the last stays. Bytes behind the
    /// report say nothing. It takes no memory.
    ///
    /// # Errors
    ///
    /// What the first field says that refuses the bytes; `values` stay as they were.
    ///
    /// - `MismatchingReportId`: the field has a report id, and the first byte is another.
    /// - `OutOfBounds`: the field has a report id, and there are no bytes; it ends behind the bytes;
    ///   or its values have no bits or more than 32, as `extract` refuses them, too.
    ///
    /// # Examples
    ///
    /// ```rust
    /// use hidreport::{Reader, ReportDescriptor};
    ///
    /// let bytes = b"\x05\x01\x15\x81\x25\x7f\x75\x08\x95\x02\x09\x30\x09\x31\x81\x02";
    /// let descriptor = ReportDescriptor::try_from(alloc, bytes)?;
    /// let report = descriptor.input_reports().first().ok_or("no report")?;
    /// let reader = Reader::new(alloc, report)?;
    /// let mut values = [0; 2];
    /// assert_eq!(rt; reader.read(b"\x05\xfb", &mut values)?, 2);
    /// assert_eq!(rt; values, [5, -5]);
    /// ```
    pub fn read(&self, bytes: &[u8], values: &mut [i64]) -> Result<usize, ParserError>
        ensures answer { ReadsInto result values.old values.new (runs_read self.now bytes.now) }
        ensures fields { (fields : List FieldRecord) → StandFor fields self.now
            → ReadsInto result values.old values.new (report_numbers fields bytes.now) }
        ensures named { IfErr result IsOfReading }
        ensures memory { result ≢ Err ParserError.OutOfMemory }
    {
        self.runs.check(bytes)?;
        self.runs.put(bytes, values);
        Ok(self.value_count)
    }

    /// Reads the values that these bytes of a report have, in order, up to the first that they don't
    /// have: what hosts do with a report that is cut short.
    ///
    /// A value is there where all its bits are, at least one and at most 32. Elements of an array
    /// count one by one. Numbers, room and count are as for `read`, which gives the same where all
    /// values are there (`whole`). It takes no memory.
    ///
    /// # Errors
    ///
    /// - `MismatchingReportId`: one of the fields has a report id, and the first byte is another;
    ///   `values` stay as they were.
    ///
    /// # Examples
    ///
    /// ```rust
    /// use hidreport::{Reader, ReportDescriptor};
    ///
    /// let bytes = b"\x05\x01\x75\x08\x95\x02\x09\x30\x09\x31\x81\x02";
    /// let descriptor = ReportDescriptor::try_from(alloc, bytes)?;
    /// let report = descriptor.input_reports().first().ok_or("no report")?;
    /// let reader = Reader::new(alloc, report)?;
    /// let mut values = [0; 2];
    /// assert_eq!(rt; reader.read_available(b"\x05", &mut values)?, 1);
    /// assert_eq!(rt; values, [5, 0]);
    /// ```
    pub fn read_available(&self, bytes: &[u8], values: &mut [i64]) -> Result<usize, ParserError>
        ensures answer { ReadsInto result values.old values.new
            (runs_available self.now bytes.now) }
        ensures fields { (fields : List FieldRecord) → StandFor fields self.now
            → ReadsInto result values.old values.new (available_numbers fields bytes.now) }
        ensures whole { (numbers : List ℤ) → runs_read self.now bytes.now ≡ Ok numbers
            → runs_available self.now bytes.now ≡ Ok numbers }
        ensures bounds { result ≢ Err ParserError.OutOfBounds }
        ensures memory { result ≢ Err ParserError.OutOfMemory }
    {
        if self.runs.are_of_another(bytes) {
            return Err(ParserError::MismatchingReportId);
        }
        Ok(self.runs.put_available(bytes, values))
    }

    /// Writes the values of all fields, in order, into a report that has these bytes: what `read`
    /// gives for the new bytes.
    ///
    /// The bits of each value become those of the number in two's complement, the lowest first;
    /// padding and all other bits stay. A value outside the logical bounds is written, since it
    /// stands for no value. Where the fields fill their report, as those of a report that was read
    /// do, the bytes are those that `insert` of each field gives, one field after the other, and the
    /// values are read again (`laws`); to write what was read changes nothing (`again`). It takes no
    /// memory.
    ///
    /// # Errors
    ///
    /// The first of these; the bytes stay as they were.
    ///
    /// - `WrongCount`: there are more or fewer values than `value_count`.
    /// - `MismatchingReportId`, `OutOfBounds`: what `read` says of the bytes.
    /// - `OutOfBounds`: a field with a report id begins in the byte of the id.
    /// - `DoesNotFit`: the bits of a value don't hold it, signed or not as its field is.
    ///
    /// # Examples
    ///
    /// ```rust
    /// use hidreport::{InsertError, Reader, Report, ReportDescriptor};
    ///
    /// let bytes = b"\x05\x01\x75\x08\x95\x02\x09\x30\x09\x31\x81\x02";
    /// let descriptor = ReportDescriptor::try_from(alloc, bytes)?;
    /// let report = descriptor.input_reports().first().ok_or("no report")?;
    /// let reader = Reader::new(alloc, report)?;
    /// let mut bytes = report.blank(alloc)?;
    /// reader.write(&mut bytes, &[5, 7])?;
    /// assert_eq!(rt; reader.write(&mut bytes, &[256, 7]), Err(InsertError::DoesNotFit));
    /// assert_eq!(rt; bytes.as_slice(), b"\x05\x07".as_slice());
    /// ```
    pub fn write(&self, bytes: &mut [u8], values: &[i64]) -> Result<(), InsertError>
        ensures answer { Inserts result bytes.old bytes.new
            (runs_written self.now values.now bytes.old) }
        ensures fields { (fields : List FieldRecord) → StandFor fields self.now
            → Inserts result bytes.old bytes.new (report_written fields values.now bytes.old) }
        ensures laws { (fields : List FieldRecord) → StandFor fields self.now
            → OnOk result (IsReportWritten fields values.now bytes.old bytes.new) }
        ensures again { runs_read self.now bytes.old ≡ Ok values.now
            → (bytes.new ≡ bytes.old) × (result ≢ Err InsertError.DoesNotFit) }
    {
        self.put_values(bytes, values)
    }

    /// What `write` does, by the runs alone.
    fn put_values(&self, bytes: &mut [u8], values: &[i64]) -> Result<(), InsertError>
        ensures answer { Inserts result bytes.old bytes.new
            (runs_written self.now values.now bytes.old) }
        ensures bytes { result ≢ Err InsertError.WrongCount → AreBytes bytes.old }
    {
        if values.len() != self.value_count {
            return Err(InsertError::WrongCount);
        }
        self.runs.check_written(bytes)?;
        self.runs.check_values(values)?;
        self.runs.put_numbers(bytes, values);
        Ok(())
    }
}
