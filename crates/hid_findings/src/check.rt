//! `hid check`: what is odd in a descriptor.
use crate::finding::{Finding, times_of};
use crate::findings::{Checked, findings};
use crate::host_findings::{Host, Verdict};
use crate::severity::Severity;
use anyhow::{Result, bail};
use hid_input::parsing::{descriptor_within, parsed_bytes};
use hid_input::settings::Settings;
use hid_input::world::World;
use hid_output::ending::Ending;
use hid_output::{add_json, flush, flush_piece};
use hidreport::ParserError;
use serde::Serialize;
use std::alloc::Global;
use std::fmt::Write;

/// Shows what is odd in a descriptor.
#[derive(Clone, Copy)]
pub struct Check<'a> {
    /// The descriptor's input.
    pub file: &'a str,
    /// The host whose refusals are shown, too.
    pub host: Option<Host>,
    /// How bad a finding is at least for which the status is 1, where one is.
    pub fails_on: Option<Severity>,
}

/// Something odd, as JSON.
#[derive(Drop, Serialize)]
struct OddObject<'a> {
    offset: Option<usize>,
    odd: &'a str,
    source: &'a str,
    rule: &'a str,
    name: &'a str,
    severity: &'a str,
}

/// What a host does with a descriptor, as JSON.
#[derive(Drop, Serialize)]
struct VerdictObject<'a> {
    host: &'a str,
    is_taken: bool,
    mended: usize,
}

impl<'a> Check<'a> {
    /// Shows each finding; one that is as bad as the words say is refused.
    pub fn run<R: World>(&self, rt: &R, settings: &Settings) -> Result<Ending> {
        let given = descriptor_within(rt, settings, self.file)?;
        let found = checked(rt.alloc(), settings, given.descriptor(), self.host)?;
        show_findings(rt, settings, &found)?;
        Ok(if fails(&found.findings, self.fails_on) {
            Ending::Refused
        } else {
            Ending::Done
        })
    }
}

/// Whether some finding is at least so bad.
fn fails(findings: &[Finding], least: Option<Severity>) -> bool {
    match least {
        Some(least) => findings
            .iter()
            .any(|it| it.rule.row().severity.is_at_least(least)),
        None => false,
    }
}

/// What is odd in a descriptor.
fn checked(
    alloc: Global,
    settings: &Settings,
    bytes: &[u8],
    host: Option<Host>,
) -> Result<Checked> {
    let parsed = parsed_bytes(alloc, settings, bytes);
    if let Err(ParserError::OutOfMemory) = parsed {
        bail!("out of memory");
    }
    Ok(findings(alloc, settings, bytes, &parsed, host)?)
}

fn show_findings<R: AllocGlobal + Print>(
    rt: &R,
    settings: &Settings,
    found: &Checked,
) -> Result<()> {
    let mut text = String::new(rt.alloc());
    if settings.is_json {
        show_objects(rt, &mut text, &found.findings)?;
    } else {
        show_lines(rt, &mut text, &found.findings)?;
    }
    if let Some(verdict) = found.verdict {
        add_verdict(&mut text, settings, verdict)?;
    }
    flush(rt, &mut text)
}

fn show_objects<R: Print>(rt: &R, text: &mut String, findings: &[Finding]) -> Result<()> {
    for finding in findings {
        add_object(text, finding)?;
        flush_piece(rt, text)?;
    }
    Ok(())
}

fn show_lines<R: AllocGlobal + Print>(
    rt: &R,
    text: &mut String,
    findings: &[Finding],
) -> Result<()> {
    let times = times_of(rt.alloc(), findings)?;
    for (finding, times) in findings.iter().zip(times.iter()) {
        add_line(text, finding, *times)?;
        flush_piece(rt, text)?;
    }
    Ok(())
}

/// Appends the line of what Linux does with a descriptor.
fn add_verdict(text: &mut String, settings: &Settings, verdict: Verdict) -> Result<()> {
    let (is_taken, mended) = match verdict {
        Verdict::Taken(mended) => (true, mended),
        Verdict::Refused => (false, 0),
    };
    if settings.is_json {
        let host = "linux";
        return add_json(
            text,
            &VerdictObject {
                host,
                is_taken,
                mended,
            },
        );
    }
    match (is_taken, mended) {
        (false, _) => text.push_str("Linux refuses it\n")?,
        (true, 0) => text.push_str("Linux takes it\n")?,
        (true, 1) => text.push_str("Linux takes it, with 1 item mended\n")?,
        (true, count) => writeln!(text, "Linux takes it, with {count} items mended")?,
    }
    Ok(())
}

/// Appends a finding as JSON.
fn add_object(text: &mut String, finding: &Finding) -> Result<()> {
    let mut said = String::new(*text.allocator());
    finding.add(&mut said)?;
    let row = finding.rule.row();
    add_json(
        text,
        &OddObject {
            offset: finding.offset,
            odd: said.as_str(),
            source: finding.source.name(),
            rule: row.number,
            name: row.name,
            severity: row.severity.name(),
        },
    )
}

/// Appends the line of a finding that comes so often in the same words; one that came before has
/// none.
fn add_line(text: &mut String, finding: &Finding, times: usize) -> Result<()> {
    if times == 0 {
        return Ok(());
    }
    match finding.offset {
        Some(offset) => write!(text, "{offset:>5}: ")?,
        None => text.push_str("       ")?,
    }
    finding.rule.row().add_title(text)?;
    text.push_str(": ")?;
    finding.add(text)?;
    if times > 1 {
        write!(text, "; {times} times")?;
        if let Some(offset) = finding.offset {
            write!(text, ", first at {offset}")?;
        }
    }
    text.push_str("\n")?;
    Ok(())
}
