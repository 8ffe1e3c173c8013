//! Fields prepared once, for reading and writing many reports.
ghost use Rattle.std.specs.Prelude.{◌≡◌, ◌==◌, ◌+◌, ◌<◌, ◌≤◌, ◌^◌, ◌++◌, ℕ, List, [], ◌∷◌, IfErr, IfSome, IsNone, OnOk, get_or, length};
ghost use Rattle.std.specs.List.{list_any};
ghost use Rattle.hidreport.specs.Reader.{filled};
ghost use Rattle.hidreport.specs.Runs.{HasAllValues, HasNarrowValues, all_numbers, count_in, run_in_id, runs_fit, runs_put, runs_read, runs_written};
ghost use Rattle.hidreport.specs.Tiling.{Each};
ghost use Rattle.hidreport_c.specs.Answer.{array_after, as_answer, list_or_nothing};
ghost use Rattle.hidreport_c.specs.Insert.{Places, bytes_after, status_after};
ghost use Rattle.hidreport_c.specs.Prepared.{IsPrepared, IsRefused, IsSoFar, as_run, as_runs};
ghost use Rattle.hidreport_c.specs.Reading.{if_countable};
ghost use Rattle.hidreport_c.specs.declared.structs.HidreportField.{HidreportField};
ghost use Rattle.hidreport_c.specs.declared.structs.HidreportRun.{HidreportRun};

use crate::status::{ACCEPTED, DOES_NOT_FIT, OUT_OF_BOUNDS, WRONG_COUNT};
use crate::structs::{HidreportAnswer, HidreportField, HidreportRun};
use hidreport_fields::short_word;

/// What these fields' values are read by, in order: values of one width and sign that lie side by
/// side in a report are one run, and padding is none (Section 5.8). As many runs are written as
/// there is room for; the answer is how many there are, at most one for each field. It takes no
/// memory.
///
/// By all of them `hidreport_read_prepared` and `hidreport_write_prepared` answer what
/// `hidreport_read` and `hidreport_write` answer by the fields (`prepared`).
#[unsafe(no_mangle)]
pub extern "C" fn hidreport_prepare(
    fields: &[HidreportField],
    runs: &mut [HidreportRun],
) -> HidreportAnswer
    ensures prepared { IsPrepared fields.now runs.old runs.new result }
{
    let mut done: usize = 0;
    let mut last: Option<HidreportRun> = None;
    for field in fields {
        let (count, held) = add_field(runs, done, last, field);
        done = count;
        last = held;
    }
    match last {
        Some(run) => {
            put_run(runs, done, run);
            HidreportAnswer::counted(done + 1)
        }
        None => HidreportAnswer::counted(done),
    }
}

/// The values that runs have in a report that has these bytes, in order (Sections 5.6 and 5.8). As
/// many as there is room for are written; the answer is how many there are. It takes no memory.
///
/// They are refused as `hidreport_read` refuses those of fields, and then nothing is written.
/// Whatever numbers the runs have, nothing else is read.
#[unsafe(no_mangle)]
pub extern "C" fn hidreport_read_prepared(
    runs: &[HidreportRun],
    report: &[u8],
    values: &mut [i64],
) -> HidreportAnswer
    ensures answer { result ≡ as_answer (if_countable (runs_read (as_runs runs.now) report.now)) }
    ensures written { values.new
        ≡ array_after (list_or_nothing (if_countable (runs_read (as_runs runs.now) report.now)))
        values.old }
{
    if let Err(status) = check_all(runs, report) {
        return HidreportAnswer::refused(status);
    }
    let Some(count) = count_of(runs) else {
        return HidreportAnswer::refused(OUT_OF_BOUNDS);
    };
    put_all(runs, report, values);
    HidreportAnswer::counted(count)
}

/// Writes the values of runs, in order, into a report that has these bytes: what
/// `hidreport_read_prepared` gives for the new bytes (Sections 5.6 and 5.8). The answer is 0, or the
/// number of the refusal. It takes no memory.
///
/// It refuses what `hidreport_write` refuses of fields, in the same order. A refusal leaves the bytes
/// as they were.
#[unsafe(no_mangle)]
pub extern "C" fn hidreport_write_prepared(
    runs: &[HidreportRun],
    report: &mut [u8],
    values: &[i64],
) -> u32
    ensures status { result
        ≡ status_after (runs_written (as_runs runs.now) values.now report.old) }
    ensures bytes { report.new
        ≡ bytes_after (runs_written (as_runs runs.now) values.now report.old) report.old }
{
    match write_all(runs, report, values) {
        Ok(()) => ACCEPTED,
        Err(status) => status,
    }
}

/// Adds what a field is read by to the runs of the fields before it, of which one isn't written yet:
/// how many are written then, and which one isn't.
fn add_field(
    runs: &mut [HidreportRun],
    done: usize,
    last: Option<HidreportRun>,
    field: &HidreportField,
) -> (usize, Option<HidreportRun>)
    requires { done + 1 < 2 ^ 64 }
    ensures { (fields : List HidreportField) (i : ℕ) (old : List HidreportRun) → i < length fields
        → field.now ≡ get_or fields i field.now → IsSoFar fields i last old runs.old done
        → IsSoFar fields (i + 1) result.1 old runs.new result.0 }
{
    let Some(run) = field.run() else {
        return (done, last);
    };
    let Some(front) = last else {
        return (done, Some(run));
    };
    match front.joined(&run) {
        Some(joined) => (done, Some(joined)),
        None => {
            put_run(runs, done, front);
            (done + 1, Some(run))
        }
    }
}

/// Puts a run in its place, if there is room for it.
fn put_run(runs: &mut [HidreportRun], place: usize, run: HidreportRun)
    ensures { (made old : List HidreportRun) → place ≡ length made
        → runs.old ≡ array_after made old → runs.new ≡ array_after (made ++ run ∷ []) old }
{
    if place < runs.len() {
        runs[place] = run;
    }
}

/// Whether all values of all runs can be read.
fn check_all(runs: &[HidreportRun], report: &[u8]) -> Result<(), u32>
    ensures refused { IfErr result
        (λ status. IsRefused status (runs_read (as_runs runs.now) report.now)) }
    ensures there { OnOk result (Each (HasAllValues report.now) (as_runs runs.now)) }
{
    for run in runs {
        run.check(report)?;
    }
    Ok(())
}

/// How many values runs have, if they can be counted.
fn count_of(runs: &[HidreportRun]) -> Option<usize>
    ensures some { IfSome result (λ count. count ≡ count_in (as_runs runs.now)) }
    ensures bound { IfSome result (λ count. count < 2 ^ 64) }
    ensures none { IsNone result → 2 ^ 64 ≤ count_in (as_runs runs.now) }
{
    let mut count: usize = 0;
    for run in runs {
        count = count.checked_add(run.value_count)?;
    }
    Some(count)
}

/// Puts the numbers of all runs in place of the first values, as far as there is room.
fn put_all(runs: &[HidreportRun], report: &[u8], values: &mut [i64])
    requires there { Each (HasAllValues report.now) (as_runs runs.now) }
    requires counted { count_in (as_runs runs.now) < 2 ^ 64 }
    ensures { values.new ≡ filled (all_numbers (as_runs runs.now) report.now) values.old }
{
    let short = short_word(report);
    let mut place = 0;
    for run in runs {
        run.put(report, short, place, values);
        place += run.value_count;
    }
}

/// Writes values, or tells the number of the refusal.
fn write_all(runs: &[HidreportRun], report: &mut [u8], values: &[i64]) -> Result<(), u32>
    ensures { Places result report.old report.new
        (runs_written (as_runs runs.now) values.now report.old) }
{
    if !have_count(runs, values.len()) {
        return Err(WRONG_COUNT);
    }
    check_all(runs, report)?;
    if begin_in_id(runs) {
        return Err(OUT_OF_BOUNDS);
    }
    if !all_hold(runs, values) {
        return Err(DOES_NOT_FIT);
    }
    put_numbers(runs, report, values);
    Ok(())
}

/// Whether runs have so many values.
fn have_count(runs: &[HidreportRun], count: usize) -> bool
    ensures { result ≡ (count == count_in (as_runs runs.now)) }
{
    match count_of(runs) {
        Some(there) => there == count,
        None => false,
    }
}

/// Whether one of the runs begins in the byte of the id that it is read by.
fn begin_in_id(runs: &[HidreportRun]) -> bool
    ensures { result ≡ list_any (λ (run : HidreportRun). run_in_id (as_run run)) runs.now }
{
    runs.iter().any(|run| run.begins_in_id())
}

/// Whether the bits of each run hold its values, the first of them those of the first run.
fn all_hold(runs: &[HidreportRun], values: &[i64]) -> bool
    requires narrow { Each HasNarrowValues (as_runs runs.now) }
    requires counted { length values.now ≡ count_in (as_runs runs.now) }
    ensures { result ≡ runs_fit (as_runs runs.now) values.now }
{
    let mut rest = values;
    for run in runs {
        let (own, behind) = rest.split_at(run.value_count);
        if !run.holds(own) {
            return false;
        }
        rest = behind;
    }
    true
}

/// Puts values in place of the bits of runs, the first of them those of the first run.
fn put_numbers(runs: &[HidreportRun], report: &mut [u8], values: &[i64])
    requires there { Each (HasAllValues report.now) (as_runs runs.now) }
    requires counted { length values.now ≡ count_in (as_runs runs.now) }
    ensures { report.new ≡ runs_put (as_runs runs.now) values.now report.old }
{
    let mut rest = values;
    for run in runs {
        let (own, behind) = rest.split_at(run.value_count);
        run.put_numbers(report, own);
        rest = behind;
    }
}
