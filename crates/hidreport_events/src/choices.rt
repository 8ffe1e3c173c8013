//! The choices of an array, which come and go, and the elements of other fields.
ghost use Rattle.std.specs.Prelude.{◌≡◌};
ghost use Rattle.hidreport_events.specs.Choices.{chosen, is_among, is_roll_over, rank_of, rank_of_first, rolls_over, value_at};

use crate::event_field::EventField;
use crate::sender::Sender;
use crate::source::Source;
use std::alloc::AllocError;

impl Sender {
    ghost use Rattle.std.specs.Prelude.{◌≡◌, OnOk};
    ghost use Rattle.hidreport_events.specs.Choices.{behind_choice, behind_choices, behind_element, behind_elements, choices_from, elements_from};

    /// Takes the choices of an array behind those before it: what isn't there any more is let go.
    pub(crate) fn take_choices(
        &mut self,
        field: &EventField,
        sources: &[Source],
        before: &[i32],
        values: &[i32],
    ) -> Result<(), AllocError>
        ensures { OnOk result (self.new
            ≡ behind_choices field.now sources.now before.now values.now self.old) }
    {
        for (index, value) in values.iter().enumerate() {
            self.take_choice(field, sources, value_at(before, index), values, 0)?;
            self.take_choice(field, sources, *value, before, 1)?;
        }
        Ok(())
    }

    /// A choice, where it isn't among others.
    #[tactic(auto, unfolding(crate::specs::Choices::behind_choice))]
    fn take_choice(
        &mut self,
        field: &EventField,
        sources: &[Source],
        choice: i32,
        others: &[i32],
        value: i32,
    ) -> Result<(), AllocError>
        ensures { OnOk result (self.new
            ≡ behind_choice field.now sources.now choice others.now value self.old) }
    {
        if is_among(choice, others) {
            return Ok(());
        }
        match chosen(field, sources, choice) {
            Some(source) => self.take_value(field, &source, 0, value),
            None => Ok(()),
        }
    }

    /// Takes the elements of a field whose usages have a rank.
    pub(crate) fn take_elements(
        &mut self,
        rank: u8,
        field: &EventField,
        sources: &[Source],
        before: &[i32],
        values: &[i32],
    ) -> Result<(), AllocError>
        ensures { OnOk result (self.new
            ≡ behind_elements rank field.now sources.now before.now values.now self.old) }
    {
        for (index, value) in values.iter().enumerate() {
            let before = value_at(before, index);
            self.take_element(rank, field, sources, index, before, *value)?;
        }
        Ok(())
    }

    /// One of them.
    #[tactic(auto, unfolding(crate::specs::Choices::behind_element))]
    fn take_element(
        &mut self,
        rank: u8,
        field: &EventField,
        sources: &[Source],
        index: usize,
        before: i32,
        value: i32,
    ) -> Result<(), AllocError>
        ensures { OnOk result (self.new
            ≡ behind_element rank field.now sources.now index before value self.old) }
    {
        match sources.get(index).copied() {
            Some(source) if rank_of(source.usage) == rank => {
                self.take_value(field, &source, before, value)
            }
            _ => Ok(()),
        }
    }
}

/// Which of the elements of a report come first: those of a pen's tool, in this order.
#[tactic(auto, unfolding(crate::specs::Choices::rank_of))]
pub(crate) fn rank_of(usage: u32) -> u8
    ensures { result ≡ rank_of usage }
{
    match usage {
        0x000d_0045 => 0,
        0x000d_003c => 1,
        0x000d_0042 => 2,
        0x000d_0030 => 3,
        0x000d_0032 => 4,
        _ => 5,
    }
}

/// The rank of an array, which is that of its first choice.
#[tactic(auto, unfolding(crate::specs::Choices::rank_of_first))]
pub(crate) fn rank_of_first(sources: &[Source]) -> u8
    ensures { result ≡ rank_of_first sources.now }
{
    match sources.first() {
        Some(source) => rank_of(source.usage),
        None => 5,
    }
}

/// Whether an array says that too many keys are down, so that it says nothing else.
#[tactic(auto, unfolding(crate::specs::Choices::rolls_over))]
pub(crate) fn rolls_over(field: &EventField, sources: &[Source], values: &[i32]) -> bool
    ensures { result ≡ rolls_over field.now sources.now values.now }
{
    values
        .iter()
        .any(|value| is_roll_over(field, sources, *value))
}

/// Whether a value of an array is Keyboard ErrorRollOver.
#[tactic(auto, unfolding(crate::specs::Choices::is_roll_over))]
fn is_roll_over(field: &EventField, sources: &[Source], value: i32) -> bool
    ensures { result ≡ is_roll_over field.now sources.now value }
{
    match chosen(field, sources, value) {
        Some(source) => source.usage == 0x0007_0001,
        None => false,
    }
}

/// The source of a choice, if the value is one.
#[tactic(auto, unfolding(crate::specs::Choices::chosen))]
fn chosen(field: &EventField, sources: &[Source], value: i32) -> Option<Source>
    ensures { result ≡ chosen field.now sources.now value }
{
    match field.choice_of(value) {
        Some(index) => sources.get(index).copied(),
        None => None,
    }
}

/// Whether a value is among others.
#[tactic(auto, unfolding(crate::specs::Choices::is_among))]
fn is_among(value: i32, others: &[i32]) -> bool
    ensures { result ≡ is_among value others.now }
{
    others.iter().any(|other| *other == value)
}

/// A value at an index, 0 where there is none.
#[tactic(auto, unfolding(crate::specs::Choices::value_at))]
fn value_at(values: &[i32], index: usize) -> i32
    ensures { result ≡ value_at values.now index }
{
    match values.get(index) {
        Some(value) => *value,
        None => 0,
    }
}
