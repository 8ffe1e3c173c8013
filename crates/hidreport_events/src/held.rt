//! The fields and the values of a report, among those of all.
ghost use Rattle.std.specs.Prelude.{◌≡◌};
ghost use Rattle.hidreport_events.specs.Readers.{held_from, put_at};
ghost use Rattle.hidreport_events.specs.Reports.{part};

use crate::event_field::EventField;
use crate::event_report::EventReport;

/// The fields of a report, among those of all.
pub(crate) fn own_fields<'a>(report: &EventReport, fields: &'a [EventField]) -> &'a [EventField]
    ensures { result.now ≡ part report.now.first_field report.now.fields fields.now }
{
    let behind = fields.get(report.first_field..).unwrap_or(&[]);
    behind.get(..report.fields).unwrap_or(behind)
}

/// The values of a report, among those of all.
pub(crate) fn own_values<'a>(report: &EventReport, values: &'a [i32]) -> &'a [i32]
    ensures { result.now ≡ part report.now.first_value report.now.values values.now }
{
    let behind = values.get(report.first_value..).unwrap_or(&[]);
    behind.get(..report.values).unwrap_or(behind)
}

/// Puts values in the place of those from one on.
pub(crate) fn hold(values: &mut Vec<i32>, first: usize, kept: &[i32])
    ensures { values.new.items ≡ held_from first kept.now values.old.items }
{
    let mut index = first;
    for value in kept {
        put_at(values, index, *value);
        index = index.saturating_add(1);
    }
}

/// Puts a value at an index, if there is one.
#[tactic(auto, unfolding(crate::specs::Readers::put_at))]
fn put_at(values: &mut Vec<i32>, index: usize, value: i32)
    ensures { values.new.items ≡ put_at index value values.old.items }
{
    if index < values.len() {
        values[index] = value;
    }
}
