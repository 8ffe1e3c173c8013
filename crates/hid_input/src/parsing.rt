//! Descriptors of inputs, parsed as the options say; a refusal says what helps.
use crate::advice::{check_length, past_limit};
use crate::input::{descriptor_named, given_beside};
use crate::linux_read::{linux_device, mended, read_by_linux};
use crate::reads::Reads;
use crate::settings::{ReadAs, Settings};
use anyhow::{Result, anyhow};
use hid_given::{Form, Given};
use hid_words::fault_words;
use hidreport::{Direction, ParserError, Report, ReportDescriptor};
use std::alloc::Global;

/// The descriptor of an input, read.
pub fn descriptor_by<R: Reads>(
    rt: &R,
    settings: &Settings,
    name: &str,
) -> Result<ReportDescriptor> {
    let given = descriptor_named(rt, settings, name)?;
    read(rt, settings, name, given.descriptor())
}

/// The same of an input beside another one, and the input's form.
pub fn descriptor_beside<R: Reads>(
    rt: &R,
    settings: &Settings,
    name: &str,
) -> Result<(ReportDescriptor, Form)> {
    let given = given_beside(rt, settings, name)?;
    let descriptor = read(rt, settings, name, given.descriptor())?;
    Ok((descriptor, given.form))
}

/// As `descriptor_named`; refuses a descriptor of more bytes than are read.
pub fn descriptor_within<R: Reads>(rt: &R, settings: &Settings, name: &str) -> Result<Given> {
    let given = descriptor_named(rt, settings, name)?;
    check_length(settings, given.descriptor())?;
    Ok(given)
}

/// A descriptor, read as the options say; says on standard error what Linux mends in it.
pub fn read<R: AllocGlobal + Eprint>(
    rt: &R,
    settings: &Settings,
    name: &str,
    bytes: &[u8],
) -> Result<ReportDescriptor> {
    if settings.reads_as_linux() {
        let device = mended(rt, settings, name, bytes)?;
        return Ok(device.outline().lay_out(rt.alloc())?);
    }
    parsed(rt.alloc(), settings, bytes)
}

/// The same, of a device of the machine: without a word.
pub fn read_silently(alloc: Global, settings: &Settings, bytes: &[u8]) -> Result<ReportDescriptor> {
    if settings.reads_as_linux() {
        let device = read_by_linux(alloc, settings, bytes)?;
        return Ok(device.outline().lay_out(alloc)?);
    }
    parsed(alloc, settings, bytes)
}

/// A descriptor's bytes as they are, parsed; a refusal that a reading as Linux's or a greater limit
/// avoids says so.
pub fn parsed(alloc: Global, settings: &Settings, bytes: &[u8]) -> Result<ReportDescriptor> {
    match ReportDescriptor::try_from_with(alloc, bytes, settings.parse) {
        Ok(descriptor) => Ok(descriptor),
        Err(fault) => Err(with_advice(alloc, settings, bytes, fault)),
    }
}

/// A descriptor's bytes as they stand, parsed; where Linux leaves out all of it there is no report.
pub fn parsed_bytes(
    alloc: Global,
    settings: &Settings,
    bytes: &[u8],
) -> Result<ReportDescriptor, ParserError> {
    if settings.has_left_none(bytes) {
        return Ok(ReportDescriptor::empty(alloc));
    }
    ReportDescriptor::try_from_with(alloc, bytes, settings.parse)
}

/// The descriptors of all devices, read, which share what may be listed.
pub fn all_read<R: AllocGlobal + Eprint>(
    rt: &R,
    settings: &Settings,
    name: &str,
    given: &Given,
) -> Result<Vec<ReportDescriptor>> {
    let mut limit = settings.parse.limit;
    let mut known = Vec::new(rt.alloc());
    for device in given.devices.iter() {
        let within = limited(settings, limit);
        let descriptor = read(rt, &within, name, &device.descriptor)?;
        let listed = listed_by(&descriptor);
        limit = limit.map(|limit| limit.saturating_sub(listed));
        known.push(descriptor)?;
    }
    Ok(known)
}

/// The options with another limit on what may be listed.
fn limited<'a>(settings: &Settings<'a>, limit: Option<usize>) -> Settings<'a> {
    let mut parse = settings.parse;
    parse.limit = limit;
    let mut own = *settings;
    own.parse = parse;
    own
}

/// How many fields and usages of arrays a descriptor lists.
fn listed_by(descriptor: &ReportDescriptor) -> usize {
    let mut listed = 0usize;
    for direction in Direction::ALL {
        for report in descriptor.reports(direction) {
            for field in report.fields() {
                listed = listed.saturating_add(field.usages().len().max(1));
            }
        }
    }
    listed
}

/// Why a descriptor is refused, and what helps.
pub fn with_advice(
    alloc: Global,
    settings: &Settings,
    bytes: &[u8],
    fault: ParserError,
) -> anyhow::Error {
    let ParserError::InvalidData { offset, .. } = &fault else {
        return past_limit(alloc, settings, bytes, fault);
    };
    let (offset, words) = (*offset, fault_words(&fault));
    if settings.read_as != Some(ReadAs::Linux) && linux_device(alloc, settings, bytes).is_ok() {
        return anyhow!("refused at offset {offset}: {words}: --as linux reads it");
    }
    anyhow!("refused at offset {offset}: {words}")
}
