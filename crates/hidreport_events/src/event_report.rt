//! Input reports.
ghost use Rattle.std.specs.Prelude.{◌≡◌, ◌++◌, drop, IfOk, OnOk, take};
ghost use Rattle.hidreport_events.specs.Reports.{field_values, held, part, value_of, values_behind, values_from, values_in};

use crate::choices::{rank_of_first, rolls_over};
use crate::event_field::EventField;
use crate::sender::{Sender, Tool};
use crate::source::Source;
use hidreport_fields::FieldValue;
use std::alloc::{AllocError, Global};

/// An input report: which fields and which values are its own, among those of all.
#[derive(Clone, Copy)]
pub(crate) struct EventReport {
    /// Its id, 0 where it has none.
    pub(crate) id: u32,

    /// How many bits it has, without its id.
    pub(crate) bits: u32,

    /// Its own index among all input reports.
    pub(crate) index: usize,

    /// The index of its input device.
    pub(crate) device: usize,

    pub(crate) first_field: usize,
    pub(crate) fields: usize,
    pub(crate) first_value: usize,
    pub(crate) values: usize,
}

impl Sender {
    ghost use Rattle.std.specs.Prelude.{◌≡◌, OnOk};
    ghost use Rattle.hidreport_events.specs.Reports.{behind_all, behind_field, behind_fields, behind_report};

    /// Takes a report with the tool that the report before it said to be near.
    pub(crate) fn take_all(
        &mut self,
        tool: Tool,
        fields: &[EventField],
        sources: &[Source],
        before: &[i32],
        values: &[i32],
    ) -> Result<(), AllocError>
        ensures { OnOk result (self.new
            ≡ behind_all tool fields.now sources.now before.now values.now self.old) }
    {
        self.hold_tool(tool);
        self.take_report(fields, sources, before, values)
    }

    /// Takes a report: the values of its fields, behind those before them.
    #[tactic(auto, unfolding(crate::specs::Reports::behind_report))]
    fn take_report(
        &mut self,
        fields: &[EventField],
        sources: &[Source],
        before: &[i32],
        values: &[i32],
    ) -> Result<(), AllocError>
        ensures { OnOk result (self.new
            ≡ behind_report fields.now sources.now before.now values.now self.old) }
    {
        self.take_fields(0, fields, sources, before, values)?;
        self.take_fields(1, fields, sources, before, values)?;
        self.take_fields(2, fields, sources, before, values)?;
        self.take_fields(3, fields, sources, before, values)?;
        self.take_fields(4, fields, sources, before, values)?;
        self.take_fields(5, fields, sources, before, values)?;
        self.sync()
    }

    /// What of the fields has a rank.
    fn take_fields(
        &mut self,
        rank: u8,
        fields: &[EventField],
        sources: &[Source],
        before: &[i32],
        values: &[i32],
    ) -> Result<(), AllocError>
        ensures { OnOk result (self.new
            ≡ behind_fields rank fields.now sources.now before.now values.now self.old) }
    {
        for field in fields {
            self.take_field(rank, field, sources, before, values)?;
        }
        Ok(())
    }

    /// What of a field has the rank: of an array all or nothing.
    #[tactic(auto, unfolding(crate::specs::Reports::behind_field))]
    fn take_field(
        &mut self,
        rank: u8,
        field: &EventField,
        sources: &[Source],
        before: &[i32],
        values: &[i32],
    ) -> Result<(), AllocError>
        ensures { OnOk result (self.new
            ≡ behind_field rank field.now sources.now before.now values.now self.old) }
    {
        let own = own_sources(field, sources);
        let before = element_values(field, before);
        let values = element_values(field, values);
        if field.is_variable {
            return self.take_elements(rank, field, own, before, values);
        }
        if rank_of_first(own) != rank || rolls_over(field, own, values) {
            return Ok(());
        }
        self.take_choices(field, own, before, values)
    }
}

/// The sources of a field, among those of all.
pub(crate) fn own_sources<'a>(field: &EventField, sources: &'a [Source]) -> &'a [Source]
    ensures { result.now ≡ part field.now.first_source field.now.sources sources.now }
{
    let behind = sources.get(field.first_source..).unwrap_or(&[]);
    behind.get(..field.sources).unwrap_or(behind)
}

/// The values of a field, among those of its report.
pub(crate) fn element_values<'a>(field: &EventField, values: &'a [i32]) -> &'a [i32]
    ensures { result.now ≡ part field.now.first_value field.now.count values.now }
{
    let behind = values.get(field.first_value..).unwrap_or(&[]);
    behind.get(..field.count as usize).unwrap_or(behind)
}

/// The values of fields in the bytes of a report behind its id.
pub(crate) fn values_in(
    alloc: Global,
    fields: &[EventField],
    bytes: &[u8],
) -> Result<Vec<i32>, AllocError>
    ensures { IfOk result (λ values. values.items ≡ values_in fields.now bytes.now) }
{
    let mut values = Vec::new(alloc);
    for field in fields {
        add_values(field, bytes, &mut values)?;
    }
    Ok(values)
}

/// Adds the values of a field.
#[tactic(auto, using(crate::proofs::ReportLemmas::values_step))]
fn add_values(field: &EventField, bytes: &[u8], values: &mut Vec<i32>) -> Result<(), AllocError>
    ensures { OnOk result (values.new.items ≡ values.old.items ++ field_values field.now bytes.now) }
{
    for index in 0..field.count {
        values.push(value_of(field, index, bytes))?;
    }
    Ok(())
}

/// The value of an element: of more than 32 bits the low ones, of none 0.
#[tactic(auto, unfolding(crate::specs::Reports::value_of))]
fn value_of(field: &EventField, index: u32, bytes: &[u8]) -> i32
    ensures { result ≡ value_of field.now index bytes.now }
{
    let first = u64::from(field.first_bit) + u64::from(index) * u64::from(field.size);
    let first = first as usize;
    let end = first + field.size.min(32) as usize;
    match FieldValue::from_bits(bytes, &(first..end), field.minimum < 0) {
        Some(value) => i32::from(value),
        None => 0,
    }
}

/// The values that are held behind a report: of an array with too many keys those before it.
pub(crate) fn values_behind(
    alloc: Global,
    fields: &[EventField],
    sources: &[Source],
    before: &[i32],
    values: &[i32],
) -> Result<Vec<i32>, AllocError>
    ensures { IfOk result (λ kept. kept.items
        ≡ values_behind fields.now sources.now before.now values.now) }
{
    let mut kept = Vec::new(alloc);
    for field in fields {
        kept.extend_from_slice(held(field, sources, before, values))?;
    }
    Ok(kept)
}

/// The values of one field that are held.
#[tactic(auto, unfolding(crate::specs::Reports::held))]
fn held<'a>(
    field: &EventField,
    sources: &[Source],
    before: &'a [i32],
    values: &'a [i32],
) -> &'a [i32]
    ensures { result.now ≡ held field.now sources.now before.now values.now }
{
    let now = element_values(field, values);
    if !field.is_variable && rolls_over(field, own_sources(field, sources), now) {
        element_values(field, before)
    } else {
        now
    }
}
