//! The fields that Linux keeps of a descriptor, and the usages that they name.
use anyhow::{Result, bail};
use hid_input::settings::Settings;
use hid_words::fault_words;
use hidreport::{ParserError, Usage};
use hidreport_linux::{FieldUsages, LinuxField, LinuxReport};
use std::alloc::{AllocError, Global};

/// Refuses fields that name more usages than may be listed.
pub(crate) fn check_usages(settings: &Settings, fields: &[LinuxField]) -> Result<()> {
    let Some(limit) = settings.parse.limit else {
        return Ok(());
    };
    let mut listed: usize = 0;
    let mut past = None;
    for field in fields {
        listed = listed.saturating_add(field.usages as usize);
        if past.is_none() && listed > limit {
            past = Some(field.offset);
        }
    }
    match past {
        Some(offset) => {
            let fault = ParserError::BudgetExceeded { offset };
            let words = fault_words(&fault);
            bail!("{words} at offset {offset}: --limit {listed} is enough")
        }
        None => Ok(()),
    }
}

/// Those of all fields in order that are of a report.
pub(crate) fn fields_of<'a>(report: &LinuxReport, fields: &'a [LinuxField]) -> &'a [LinuxField] {
    let is_its = |field: &LinuxField| field.report == *report;
    let Some(first) = fields.iter().position(is_its) else {
        return &[];
    };
    let rest = fields.get(first..).unwrap_or(&[]);
    match rest.iter().position(|field| field.report != *report) {
        Some(count) => rest.get(..count).unwrap_or(rest),
        None => rest,
    }
}

/// The usages behind those of so many elements, of the first that are named; and the last of all, 0
/// where there is none.
pub(crate) fn left_of(
    alloc: Global,
    usages: FieldUsages<'_>,
    elements: usize,
    named: u128,
) -> Result<(Vec<Usage>, u32), AllocError> {
    let mut rest = Vec::new(alloc);
    let mut last = 0;
    let mut index: usize = 0;
    for usage in usages {
        last = u32::from(usage);
        if index >= elements && (index as u128) < named {
            rest.push(Usage::from(last))?;
        }
        index = index.saturating_add(1);
    }
    Ok((rest, last))
}
