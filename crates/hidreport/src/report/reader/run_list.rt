//! The runs of a report, and when bytes have all of them (Sections 5.6 and 5.8).
ghost use Rattle.std.specs.Prelude.{◌≡◌, ◌≢◌, ◌<◌, ◌^◌, ℕ, List, [], Err, Ok, IfErr, IfSome, IsTrue, OnOk, Result, length};
ghost use Rattle.std.specs.List.{list_any};
ghost use Rattle.hidreport_items.specs.Numbers.{word};
ghost use Rattle.hidreport_items.specs.Spelling.{AreBytes};
ghost use Rattle.hidreport_lists.specs.Answer.{IsOfReading, Refuses};
ghost use Rattle.hidreport.specs.Reader.{begins_otherwise, filled, numbers_before};
ghost use Rattle.hidreport_fields.specs.Reading.{with_id};
ghost use Rattle.hidreport.specs.Runs.{HasNarrowValues, HasAllValues, IsPlain, RunRecord, all_numbers, count_in, run_in_id, runs_alone, runs_fit, runs_placed, runs_put, runs_read};
ghost use Rattle.hidreport_fields.specs.Tiling.{Each};
ghost use Rattle.hidreport_fields.specs.WritingValues.{where_read};
ghost use Rattle.hidreport_fields.specs.declared.field.insert_error.InsertError.{InsertError};

use crate::report::reader::run::Run;
use hidreport_fields::{InsertError, short_word};
use hidreport_lists::ParserError;
use hidreport_types::ReportId;
use std::marker::Model;

/// Runs in the order of their fields.
///
/// Where all of them are read by one id or by none, `enough` is a number of bytes that have them
/// all, so that one test does for them.
#[derive(Debug, Drop)]
pub(crate) struct RunList {
    runs: Vec<Run>,
    report_id: Option<ReportId>,
    enough: Option<usize>,
}

impl Model for RunList {
    ghost use Rattle.std.specs.Prelude.{IfSome, List};
    ghost use Rattle.hidreport.specs.Runs.{IsPlain, RunRecord};
    ghost use Rattle.hidreport_fields.specs.Tiling.{Each};

    ghost Value = { List RunRecord };

    ghost view = { λ r. r.runs.items };

    ghost invariant = { λ r. IfSome r.enough (λ bytes. Each (IsPlain r.report_id bytes) r.runs.items) };
}

impl RunList {
    /// These runs, of a report with this id.
    pub(crate) fn of(runs: Vec<Run>, report_id: Option<ReportId>) -> RunList
        ensures { result ≡ runs.items }
    {
        let enough = enough_for(&runs, &report_id);
        RunList {
            runs,
            report_id,
            enough,
        }
    }

    /// How many values the runs have; `None` past `usize::MAX`.
    pub(crate) fn value_count(&self) -> Option<usize>
        ensures { IfSome result (λ count. count ≡ count_in self.now) }
    {
        count_in(&self.runs)
    }

    /// Refuses bytes that don't have all values, as the first of the runs does.
    #[inline(always)]
    pub(crate) fn check(&self, bytes: &[u8]) -> Result<(), ParserError>
        ensures refused { IfErr result (λ e. Refuses e (runs_read self.now bytes.now)) }
        ensures named { IfErr result IsOfReading }
        ensures memory { result ≢ Err ParserError.OutOfMemory }
        ensures there { OnOk result (Each (HasAllValues bytes.now) self.now) }
    {
        if self.has_all(bytes) {
            return Ok(());
        }
        check_all(&self.runs, bytes)
    }

    /// Whether bytes have all values by their number and the id that they begin with.
    #[inline(always)]
    fn has_all(&self, bytes: &[u8]) -> bool
        ensures { IsTrue result → Each (HasAllValues bytes.now) self.now }
    {
        match self.enough {
            Some(enough) => enough <= bytes.len() && begin_with(bytes, &self.report_id),
            None => false,
        }
    }

    /// Whether bytes begin with another id than that which one of the runs is read by.
    pub(crate) fn are_of_another(&self, bytes: &[u8]) -> bool
        ensures { result
            ≡ list_any (λ (run : RunRecord). begins_otherwise bytes.now run.id) self.now }
    {
        self.runs.iter().any(|run| run.is_of_another(bytes))
    }

    /// Puts numbers in place of the first values, as far as there is room, up to the first that the
    /// bytes don't have; how many they have.
    pub(crate) fn put_available(&self, bytes: &[u8], values: &mut [i64]) -> usize
        requires counted { count_in self.now < 2 ^ 64 }
        ensures values { values.new
            ≡ filled (numbers_before (runs_alone self.now bytes.now)) values.old }
        ensures count { result ≡ length (numbers_before (runs_alone self.now bytes.now)) }
    {
        put_available(&self.runs, bytes, values)
    }

    /// Puts the numbers of all runs in place of the first values, as far as there is room.
    pub(crate) fn put(&self, bytes: &[u8], values: &mut [i64])
        requires there { Each (HasAllValues bytes.now) self.now }
        requires counted { count_in self.now < 2 ^ 64 }
        ensures { values.new ≡ filled (all_numbers self.now bytes.now) values.old }
    {
        put_all(&self.runs, bytes, short_word(bytes), values);
    }

    /// Refuses bytes that can't be read, and so not written either.
    pub(crate) fn check_written(&self, bytes: &[u8]) -> Result<(), InsertError>
        ensures refused { IfErr result (λ e. (answer : Result (List ℕ) InsertError)
            → where_read (runs_read self.now bytes.now) answer ≡ Err e) }
        ensures there { OnOk result (Each (HasAllValues bytes.now) self.now) }
        ensures bytes { AreBytes bytes.now }
    {
        match self.check(bytes) {
            Ok(()) => Ok(()),
            Err(ParserError::MismatchingReportId) => Err(InsertError::MismatchingReportId),
            Err(_) => Err(InsertError::OutOfBounds),
        }
    }

    /// Refuses values, as many as the runs have, where a run begins in the byte of an id, and then
    /// where its bits don't hold one of them.
    pub(crate) fn check_values(&self, values: &[i64]) -> Result<(), InsertError>
        requires narrow { Each HasNarrowValues self.now }
        requires counted { length values.now ≡ count_in self.now }
        ensures refused { IfErr result (λ e. (bytes : List ℕ)
            → runs_placed self.now values.now bytes ≡ Err e) }
        ensures placed { OnOk result ((bytes : List ℕ)
            → runs_placed self.now values.now bytes ≡ Ok (runs_put self.now values.now bytes)) }
    {
        if self.begin_in_id() {
            return Err(InsertError::OutOfBounds);
        }
        if !all_fit(&self.runs, values) {
            return Err(InsertError::DoesNotFit);
        }
        Ok(())
    }

    /// Whether one of the runs begins in the byte of the id that it is read by.
    fn begin_in_id(&self) -> bool
        ensures { result ≡ list_any run_in_id self.now }
    {
        self.runs.iter().any(|run| run.begins_in_id())
    }

    /// Puts values, as many as the runs have, in place of their bits; all others stay.
    pub(crate) fn put_numbers(&self, bytes: &mut [u8], values: &[i64])
        requires there { Each (HasAllValues bytes.now) self.now }
        requires counted { length values.now ≡ count_in self.now }
        ensures { bytes.new ≡ runs_put self.now values.now bytes.old }
    {
        put_numbers(&self.runs, bytes, values);
    }
}

/// Whether bytes begin with an id, where there is one.
#[inline(always)]
fn begin_with(bytes: &[u8], report_id: &Option<ReportId>) -> bool
    ensures { IsTrue result → with_id report_id.now bytes.now (Ok (tt {0})) ≡ Ok (tt {0}) }
{
    match (report_id, bytes) {
        (None, _) => true,
        (Some(id), [first, ..]) => u8::from(*id) == *first,
        (Some(_), []) => false,
    }
}

/// How many values runs have; `None` past `usize::MAX`.
fn count_in(runs: &[Run]) -> Option<usize>
    ensures { IfSome result (λ count. count ≡ count_in runs.now) }
{
    let mut count: usize = 0;
    for run in runs {
        count = count.checked_add(run.count())?;
    }
    Some(count)
}

/// How many bytes have all values, where they are read by this id or by none; `None` where one of
/// the runs is of another report, or can't be read at all.
fn enough_for(runs: &[Run], report_id: &Option<ReportId>) -> Option<usize>
    ensures { IfSome result (λ bytes. Each (IsPlain report_id.now bytes) runs.now) }
{
    let mut bytes: usize = 0;
    for run in runs {
        bytes = bytes.max(run.bytes_for(report_id)?);
    }
    Some(bytes)
}

/// Refuses bytes that don't have all values, as the first of the runs does.
fn check_all(runs: &[Run], bytes: &[u8]) -> Result<(), ParserError>
    ensures refused { IfErr result (λ e. Refuses e (runs_read runs.now bytes.now)) }
    ensures named { IfErr result IsOfReading }
    ensures memory { result ≢ Err ParserError.OutOfMemory }
    ensures there { OnOk result (Each (HasAllValues bytes.now) runs.now) }
{
    for run in runs {
        run.check(bytes)?;
    }
    Ok(())
}

/// Puts the numbers of all runs in place of the first values, as far as there is room.
fn put_all(runs: &[Run], bytes: &[u8], short: u64, values: &mut [i64])
    requires short { length bytes.now < 8 → short ≡ word bytes.now }
    requires there { Each (HasAllValues bytes.now) runs.now }
    requires counted { count_in runs.now < 2 ^ 64 }
    ensures { values.new ≡ filled (all_numbers runs.now bytes.now) values.old }
{
    let mut place = 0;
    for run in runs {
        run.put(bytes, short, place, values);
        place += run.count();
    }
}

/// Puts numbers in place of the first values, as far as there is room, up to the first that the bytes
/// don't have; how many they have.
fn put_available(runs: &[Run], bytes: &[u8], values: &mut [i64]) -> usize
    requires counted { count_in runs.now < 2 ^ 64 }
    ensures values { values.new ≡ filled (numbers_before (runs_alone runs.now bytes.now)) values.old }
    ensures count { result ≡ length (numbers_before (runs_alone runs.now bytes.now)) }
{
    let mut place = 0;
    for run in runs {
        let count = run.put_available(bytes, place, values);
        place += count;
        if count < run.count() {
            return place;
        }
    }
    place
}

/// Whether the bits of each run hold its values, the first of them those of the first run.
fn all_fit(runs: &[Run], values: &[i64]) -> bool
    requires narrow { Each HasNarrowValues runs.now }
    requires counted { length values.now ≡ count_in runs.now }
    ensures { result ≡ runs_fit runs.now values.now }
{
    let mut rest = values;
    for run in runs {
        let (own, behind) = rest.split_at(run.count());
        if !run.holds(own) {
            return false;
        }
        rest = behind;
    }
    true
}

/// Puts values in place of the bits of runs, the first of them those of the first run.
fn put_numbers(runs: &[Run], bytes: &mut [u8], values: &[i64])
    requires there { Each (HasAllValues bytes.now) runs.now }
    requires counted { length values.now ≡ count_in runs.now }
    ensures { bytes.new ≡ runs_put runs.now values.now bytes.old }
{
    let mut rest = values;
    for run in runs {
        let (own, behind) = rest.split_at(run.count());
        run.put_numbers(bytes, own);
        rest = behind;
    }
}
