//! Writes a mouse's reports anew, with X and Y exchanged, and its first two buttons.
//! Licence: MIT (LICENSE); a port of the Rust crate `hidreport` 0.6.0.
#![tactic(auto)]

use anyhow::{Context, Result};
use hidreport::{Field, RDescReport, Report, ReportDescriptor, VariableField};
use std::rt::{Env, Files};
use std::{env, fs};

/// The greatest weight of a descriptor that is read: nobody vouches for a file's bytes.
const LIMIT: usize = 65_536;

fn main(rt: HostRuntime) -> Result<()> {
    let name = env::args(&rt)?.nth(1);
    let name = name.context("usage: hidreport_remapper DESCRIPTOR < REPORTS")?;
    let descriptor = ReportDescriptor::try_from_within(rt.alloc(), &fs::read(&rt, &name)?, LIMIT)?;
    for line in rt.lines(rt.alloc()) {
        print_report(&rt, &descriptor, &hex::decode(rt.alloc(), line?)?)?;
    }
    Ok(())
}

/// Prints a report anew, with X and Y exchanged, and its first two buttons; all else stays.
fn print_report<R: AllocGlobal + Print>(
    rt: &R,
    descriptor: &ReportDescriptor,
    bytes: &[u8],
) -> Result<()> {
    let report = descriptor
        .find_input_report(bytes)
        .context("no such report")?;
    let mut exchanged = Vec::from_slice(rt.alloc(), bytes)?;
    for field in report.fields() {
        if let Field::Variable(field) = field
            && let Some(usage) = exchanged_usage(u32::from(field.usage))
            && let Some(source) = variable_of(report, usage)
        {
            field.insert(&mut exchanged, i64::from(source.extract(bytes)?))?;
        }
    }
    println!(rt; "{}", hex::encode(rt.alloc(), &exchanged)?)?;
    Ok(())
}

/// The usage whose value this one gets: X and Y are of page 1, buttons of page 9. `None` for one
/// that keeps its own.
fn exchanged_usage(usage: u32) -> Option<u32> {
    match usage {
        0x0001_0030 => Some(0x0001_0031),
        0x0001_0031 => Some(0x0001_0030),
        0x0009_0001 => Some(0x0009_0002),
        0x0009_0002 => Some(0x0009_0001),
        _ => None,
    }
}

/// The report's first field with one value of this usage.
fn variable_of(report: &RDescReport, usage: u32) -> Option<&VariableField> {
    for field in report.fields() {
        if let Some(field) = variable(field)
            && u32::from(field.usage) == usage
        {
            return Some(field);
        }
    }
    None
}

/// The field where it has one value.
fn variable(field: &Field) -> Option<&VariableField> {
    match field {
        Field::Variable(field) => Some(field),
        _ => None,
    }
}
