//! The runs that fields and groups of fields are read by (Section 5.8).
ghost use Rattle.std.specs.Prelude.{◌≡◌, ◌+◌, ◌-◌, ◌*◌, ◌/◌, ◌^◌, ◌<◌, ◌≤◌, [], ◌∷◌, ◌++◌, flat_map, map, IfOk, IfSome, IsNone, OnOk};
ghost use Rattle.hidreport_fields.specs.Reading.{is_signed};
ghost use Rattle.hidreport_fields.specs.Views.{field_record};
ghost use Rattle.hidreport.specs.Groups.{fields_of_groups, group_fields};
ghost use Rattle.hidreport.specs.LowBits.{low_fields, low_run, low_runs};
ghost use Rattle.hidreport.specs.Runs.{runs_of};
ghost use Rattle.hidreport.specs.SameRuns.{SameRuns};

use crate::report::group::Group;
use crate::report::reader::run::Run;
use hidreport_fields::Field;
use std::alloc::{AllocError, Global};
use std::ops::Range;

/// How many bits of a value are read.
const LOW_BITS: usize = 32;

/// What the fields' values are read by, in order; padding has none.
pub(crate) fn runs_of(alloc: Global, fields: &[Field]) -> Result<Vec<Run>, AllocError>
    ensures { IfOk result (λ runs. SameRuns runs.items (runs_of (map field_record fields.now))) }
{
    let mut runs = Vec::new(alloc);
    for field in fields {
        if let Some(run) = Run::of(field) {
            add_run(&mut runs, run)?;
        }
    }
    Ok(runs)
}

/// Adds a run behind others; one that goes on where the last of them ends makes that longer.
fn add_run(runs: &mut Vec<Run>, run: Run) -> Result<(), AllocError>
    ensures { OnOk result (SameRuns runs.new.items (runs.old.items ++ run ∷ [])) }
{
    if let Some(last) = runs.pop() {
        if let Some(joined) = last.joined(&run) {
            runs.push(joined)?;
            return Ok(());
        }
        runs.push(last)?;
    }
    runs.push(run)?;
    Ok(())
}

/// What the fields' values are read by, of those past 32 bits the low 32; padding has none.
pub(crate) fn low_runs_of(alloc: Global, fields: &[Field]) -> Result<Vec<Run>, AllocError>
    ensures { IfOk result (λ runs.
        runs.items ≡ runs_of (flat_map low_fields (map field_record fields.now))) }
{
    let mut runs = Vec::new(alloc);
    for field in fields {
        if let Some(run) = Run::of(field) {
            add_low_runs(&mut runs, run)?;
        }
    }
    Ok(runs)
}

/// Adds a run behind others; values past 32 bits are runs of their own.
fn add_low_runs(runs: &mut Vec<Run>, run: Run) -> Result<(), AllocError>
    ensures { OnOk result (runs.new.items ≡ runs.old.items ++ low_runs run) }
{
    if run.width <= LOW_BITS {
        runs.push(run)?;
        return Ok(());
    }
    runs.reserve(run.count)?;
    for index in 0..run.count {
        runs.push(low_run(&run, index))?;
    }
    Ok(())
}

/// The low 32 bits of the value at an index.
fn low_run(run: &Run, index: usize) -> Run
    requires wide { 32 < run.now.width }
    requires there { index < run.now.count }
    ensures { result ≡ low_run run.now index }
{
    Run {
        report_id: run.report_id,
        first: run.first + run.width * index,
        width: LOW_BITS,
        count: 1,
        is_signed: run.is_signed,
    }
}

/// What the fields of groups are read by, in order; padding has none.
pub(crate) fn runs_of_groups(alloc: Global, groups: &[Group]) -> Result<Vec<Run>, AllocError>
    ensures { IfOk result (λ runs. SameRuns runs.items (runs_of (fields_of_groups groups.now))) }
{
    let mut runs = Vec::new(alloc);
    for group in groups {
        if let Some(run) = run_of_group(group) {
            add_run(&mut runs, run)?;
        }
    }
    Ok(runs)
}

/// The values of all fields of a group; `None` where there are none, as of padding.
fn run_of_group(group: &Group) -> Option<Run>
    ensures some { IfSome result (λ run. SameRuns (run ∷ []) (runs_of (group_fields group.now))) }
    ensures none { IsNone result → runs_of (group_fields group.now) ≡ [] }
{
    let count = group.element_count();
    if group.is_constant() || group.field_count() == 0 {
        return None;
    }
    let bits = group.all_bits();
    Some(Run {
        report_id: group.report_id(),
        first: bits.start,
        width: if group.is_variable() {
            group.element_width()
        } else {
            width_of_each(&bits, count)
        },
        count,
        is_signed: is_signed(group),
    })
}

/// How wide one of so many elements of a range is, in bits; 0 of none.
fn width_of_each(bits: &Range<usize>, count: usize) -> usize
    requires { bits.now.start ≤ bits.now.end }
    ensures width { result ≡ (bits.now.end - bits.now.start) / count }
    ensures counted { bits.now.start + result * count < 2 ^ 64 }
{
    (bits.end - bits.start).checked_div(count).unwrap_or(0)
}

/// Whether values can be below 0.
fn is_signed(group: &Group) -> bool
    ensures { result ≡ is_signed group.now.shared }
{
    i32::from(group.logical_minimum()) < 0
}
