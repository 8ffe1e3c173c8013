//! What `hid check` tells of a rule.
use crate::severity::Severity;
use crate::source::Source;
use std::alloc::AllocError;

/// What stands for a rule.
#[derive(Clone, Copy)]
pub struct RuleRow {
    /// Its number.
    pub number: &'static str,
    /// Its name.
    pub name: &'static str,
    /// How bad it is.
    pub severity: Severity,
    /// Who says so.
    pub source: Source,
    /// What is wrong.
    pub wrong: &'static str,
    /// Why it matters.
    pub why: &'static str,
    /// What to write in its place.
    pub instead: &'static str,
    /// The digits of a descriptor that has it.
    pub example: &'static str,
    /// The same without it.
    pub without: &'static str,
}

impl RuleRow {
    /// Appends how bad it is, its number and its name.
    pub fn add_title(&self, text: &mut String) -> Result<(), AllocError> {
        text.push_str(self.severity.name())?;
        text.push_str(" ")?;
        text.push_str(self.number)?;
        text.push_str(" ")?;
        text.push_str(self.name)?;
        Ok(())
    }
}
