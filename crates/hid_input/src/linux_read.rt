//! Descriptors as Linux reads them.
use crate::advice::past_limit;
use crate::settings::{ReadAs, Settings};
use anyhow::{Result, anyhow};
use hid_output::escaped;
use hidreport::{Outline, ParserError};
use hidreport_linux::{LinuxDevice, LinuxRefusal, Refusal};
use std::alloc::Global;

/// Why a descriptor isn't read as Linux reads it.
#[derive(Drop)]
pub enum Unread {
    /// Linux refuses it.
    Refused(Refusal),

    /// It is longer than a descriptor may be, lists more than it may, or memory is refused.
    Fault(ParserError),
}

impl From<LinuxRefusal> for Unread {
    fn from(refusal: LinuxRefusal) -> Unread {
        match refusal {
            LinuxRefusal::Refused { offset, reason } => {
                Unread::Refused(Refusal { offset, reason })
            }
            LinuxRefusal::Unread(fault) => Unread::Fault(fault),
        }
    }
}

/// The device of a descriptor, as Linux reads it.
///
/// # Errors
///
/// - it is longer than a descriptor may be, or lists more than it may;
/// - Linux refuses it.
pub fn linux_device(
    alloc: Global,
    settings: &Settings,
    bytes: &[u8],
) -> Result<LinuxDevice, Unread> {
    if let Some(offset) = settings.parse.longest
        && offset < bytes.len()
    {
        return Err(Unread::Fault(ParserError::BudgetExceeded { offset }));
    }
    let device = LinuxDevice::of(alloc, bytes, settings.parse.limit)?;
    Ok(device)
}

/// Says on standard error how many items of a device are mended.
pub fn tell_mended<R: AllocGlobal + Eprint>(
    rt: &R,
    name: &str,
    device: &LinuxDevice,
) -> Result<()> {
    let count = device.changes().len();
    if count == 0 {
        return Ok(());
    }
    let name = escaped(rt.alloc(), name)?;
    let items = if count == 1 { "item is" } else { "items are" };
    let which = "as Linux reads it: hid check --for linux shows which";
    Ok(eprintln!(rt; "hid: {name}: {count} {items} mended, {which}")?)
}

/// Says on standard error what Linux leaves out of a device's descriptor, and where it may read it
/// otherwise.
pub fn tell_doubt<R: AllocGlobal + Eprint>(rt: &R, name: &str, device: &LinuxDevice) -> Result<()> {
    let name = escaped(rt.alloc(), name)?;
    if let Some(left_out) = device.reading().left_out() {
        let (offset, what) = (left_out.offset, left_out.what.text());
        eprintln!(rt; "hid: {name}: Linux leaves out at offset {offset}: {what}")?;
    }
    if let Some(doubt) = device.reading().doubt() {
        let (offset, reason) = (doubt.offset, doubt.reason.text());
        eprintln!(rt; "hid: {name}: Linux may read it otherwise at offset {offset}: {reason}")?;
    }
    Ok(())
}

impl Unread {
    /// What is said of it, and what helps: a greater limit, or the standard's reading, if it takes
    /// these bytes.
    pub fn with_advice(self, alloc: Global, settings: &Settings, bytes: &[u8]) -> anyhow::Error {
        match self {
            Unread::Refused(refusal) => refused(alloc, settings, bytes, refusal),
            Unread::Fault(fault) => past_limit(alloc, settings, bytes, fault),
        }
    }
}

/// That Linux refuses a descriptor; says so where the standard's reading takes it.
pub fn refused(
    alloc: Global,
    settings: &Settings,
    bytes: &[u8],
    refusal: Refusal,
) -> anyhow::Error {
    let (offset, reason) = (refusal.offset, refusal.reason.text());
    match Outline::try_from_with(alloc, bytes, settings.parse_as(ReadAs::Standard)) {
        Ok(_outline) => {
            anyhow!("Linux refuses it at offset {offset}: {reason}: --as standard reads it")
        }
        Err(_fault) => anyhow!("Linux refuses it at offset {offset}: {reason}"),
    }
}

/// A device as Linux reads it. Says on standard error how many items are mended, what Linux leaves
/// out, and where it may read otherwise.
///
/// # Errors
///
/// - it is longer than a descriptor may be, or lists more than it may;
/// - Linux refuses it: at which item, why, and whether the standard's reading takes it.
pub fn mended<R: AllocGlobal + Eprint>(
    rt: &R,
    settings: &Settings,
    name: &str,
    bytes: &[u8],
) -> Result<LinuxDevice> {
    let device = read_by_linux(rt.alloc(), settings, bytes)?;
    if settings.has_notes() {
        tell_mended(rt, name, &device)?;
        tell_doubt(rt, name, &device)?;
    }
    Ok(device)
}

/// The same without a word.
///
/// # Errors
///
/// - those of `mended`.
pub fn read_by_linux(alloc: Global, settings: &Settings, bytes: &[u8]) -> Result<LinuxDevice> {
    match linux_device(alloc, settings, bytes) {
        Ok(device) => Ok(device),
        Err(unread) => Err(unread.with_advice(alloc, settings, bytes)),
    }
}
