//! What helps where a limit refuses a descriptor.
use crate::settings::{Settings, limit_for};
use anyhow::{Result, anyhow, bail};
use hid_words::fault_words;
use hidreport::{Outline, ParseOptions, ParserError};
use std::alloc::Global;

/// How often a limit is doubled to find one that is enough.
const MOST_DOUBLED: usize = 4;

/// Refuses a descriptor of more bytes than are read.
pub fn check_length(settings: &Settings, bytes: &[u8]) -> Result<()> {
    let (longest, length) = (settings.longest(), bytes.len());
    if longest < length {
        let limit = limit_for(length);
        bail!("longer than {longest} bytes: say --limit {limit}");
    }
    Ok(())
}

/// Why a descriptor is refused; where a limit does so, which is enough.
pub(crate) fn past_limit(
    alloc: Global,
    settings: &Settings,
    bytes: &[u8],
    fault: ParserError,
) -> anyhow::Error {
    if let Err(refusal) = check_length(settings, bytes) {
        return refusal;
    }
    let ParserError::BudgetExceeded { offset } = fault else {
        return fault.into();
    };
    let words = fault_words(&fault);
    match enough(alloc, settings, bytes) {
        Some((limit, true)) => anyhow!("{words} at offset {offset}: --limit {limit} is enough"),
        Some((limit, false)) => {
            anyhow!("{words} at offset {offset}: --limit {limit} isn't enough either")
        }
        None => anyhow!("{words} at offset {offset}"),
    }
}

/// A limit under which a descriptor is read, up to a power of two, and whether it is; the last that
/// was tried where none is.
fn enough(alloc: Global, settings: &Settings, bytes: &[u8]) -> Option<(usize, bool)> {
    let mut limit = settings.parse.limit?.max(bytes.len()).max(1);
    for _ in 0..MOST_DOUBLED {
        limit = limit.checked_mul(2)?;
        let options = ParseOptions {
            limit: Some(limit),
            longest: None,
            ..settings.parse
        };
        match Outline::try_from_with(alloc, bytes, options) {
            Err(ParserError::BudgetExceeded { .. }) => {}
            Ok(_outline) => return Some((limit, true)),
            Err(_fault) => return None,
        }
    }
    Some((limit, false))
}
