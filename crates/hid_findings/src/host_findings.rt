//! What a host refuses or may read otherwise, as far as it is known.
use crate::finding::{Finding, tell};
use crate::rule::Rule;
use crate::windows_reading::{refusal_remark, tell_windows};
use crate::windows_refusal::WindowsRefusal;
use hid_input::settings::Settings;
use hid_output::add_bytes;
use hid_report::add_title;
use hidreport::{
    Change, Direction, ParserError, RDescReport, Reason, Report, ReportDescriptor, mend,
};
use hidreport_linux::LinuxReading;
use std::alloc::AllocError;

/// What Linux does with a Resolution Multiplier of the widest bounds.
const OVERFLOW: &str =
    "Linux divides -2147483648 by -1, which overflows, for a Resolution Multiplier of these bounds";

/// The words of the hosts.
pub static HOSTS: [&str; 2] = ["linux", "windows"];

/// A host whose refusals are known.
#[derive(Clone, Copy, Debug, PartialEq, Eq)]
pub enum Host {
    /// Linux 6.12, by its hid-core.
    Linux,
    /// Windows, by the refusals that its hidpddi.h lists.
    Windows,
}

impl Host {
    /// The host of a word.
    pub fn named(word: &str) -> Option<Host> {
        match word {
            "linux" => Some(Host::Linux),
            "windows" => Some(Host::Windows),
            _ => None,
        }
    }
}

/// What a host does with a descriptor.
#[derive(Clone, Copy, Debug, PartialEq, Eq)]
pub enum Verdict {
    /// It takes the descriptor, with so many items mended.
    Taken(usize),
    /// It refuses the descriptor.
    Refused,
}

/// Notes what a host refuses or mends in a descriptor; answers what it does with it, where that is
/// known.
pub fn tell_host(
    settings: &Settings,
    bytes: &[u8],
    parsed: &Result<ReportDescriptor, ParserError>,
    host: Host,
    findings: &mut Vec<Finding>,
) -> Result<Option<Verdict>, AllocError> {
    if host == Host::Linux {
        return Ok(Some(tell_linux(settings, bytes, findings)?));
    }
    tell_windows(bytes, findings)?;
    let Ok(descriptor) = parsed else {
        return Ok(None);
    };
    for direction in Direction::ALL {
        for report in descriptor.reports(direction) {
            tell_report(direction, report, findings)?;
        }
    }
    Ok(None)
}

/// Notes what is the matter for hid-core: the first doubt, and the first refusal; or what it mends,
/// and where it divides what overflows.
fn tell_linux(
    settings: &Settings,
    bytes: &[u8],
    findings: &mut Vec<Finding>,
) -> Result<Verdict, AllocError> {
    if settings.has_left_none(bytes) {
        return Ok(Verdict::Taken(0));
    }
    if !tell_reading(bytes, findings)? {
        return Ok(Verdict::Refused);
    }
    match mend(*findings.allocator(), bytes, settings.repair()) {
        Ok(mended) => tell_changes(findings, &mended.changes),
        Err(ParserError::OutOfMemory) => Err(AllocError),
        Err(_past_limit) => Ok(Verdict::Taken(0)),
    }
}

/// The same but for what hid-core mends; answers whether it takes the descriptor.
fn tell_reading(bytes: &[u8], findings: &mut Vec<Finding>) -> Result<bool, AllocError> {
    let reading = LinuxReading::of(*findings.allocator(), bytes)?;
    tell_read(&reading, findings)?;
    Ok(reading.refusal().is_none())
}

fn tell_read(reading: &LinuxReading, findings: &mut Vec<Finding>) -> Result<(), AllocError> {
    if let Some(doubt) = reading.doubt() {
        let words = ["Linux may read it otherwise: ", doubt.reason.text()];
        tell_words(findings, doubt.offset, words, Rule::LinuxDoubt)?;
    }
    if let Some(refusal) = reading.refusal() {
        let words = ["Linux refuses it: ", refusal.reason.text()];
        return tell_words(findings, refusal.offset, words, Rule::LinuxRefuses);
    }
    if let Some(omission) = reading.left_out() {
        let words = ["Linux leaves out ", omission.what.text()];
        tell_words(findings, omission.offset, words, Rule::LinuxLeavesOut)?;
    }
    match reading.overflow() {
        Some(offset) => tell(findings, Some(offset), OVERFLOW, Rule::LinuxOverflow),
        None => Ok(()),
    }
}

/// Notes what hid-core makes of an item, and why.
fn tell_words(
    findings: &mut Vec<Finding>,
    offset: usize,
    words: [&str; 2],
    rule: Rule,
) -> Result<(), AllocError> {
    let [what, why] = words;
    let remark = format!(in *findings.allocator(); "{what}{why}")?;
    tell(findings, Some(offset), &remark, rule)
}

/// Notes each change, and answers how many there are.
fn tell_changes(findings: &mut Vec<Finding>, changes: &[Change]) -> Result<Verdict, AllocError> {
    for change in changes {
        tell_change(findings, change)?;
    }
    Ok(Verdict::Taken(changes.len()))
}

/// Notes what Linux reads in the place of an item.
fn tell_change(findings: &mut Vec<Finding>, change: &Change) -> Result<(), AllocError> {
    let mut remark = String::from_str(*findings.allocator(), "Linux ")?;
    if change.stands.is_empty() {
        remark.push_str("leaves it out: ")?;
    } else {
        remark.push_str("reads it as ")?;
        add_bytes(&mut remark, &change.stands)?;
        remark.push_str(": ")?;
    }
    remark.push_str(why(change.reason))?;
    tell(findings, Some(change.offset), &remark, Rule::LinuxMends)
}

/// Why Linux reads something else than what stands there.
fn why(reason: Reason) -> &'static str {
    match reason {
        Reason::NoData => "the item has no data",
        Reason::UnknownMainItem => "no main item has this tag",
        Reason::EndedLocal => "it stands before what is left out",
        Reason::NoUsage => "data without a usage is padding",
        Reason::UnsignedMaximum => "a maximum has no sign where its minimum has none",
        Reason::CutShort => "the item is cut short",
    }
}

/// Notes a report that is no whole number of bytes, for Windows.
fn tell_report(
    direction: Direction,
    report: &RDescReport,
    findings: &mut Vec<Finding>,
) -> Result<(), AllocError> {
    if report.size_in_bits() % 8 == 0 {
        return Ok(());
    }
    let alloc = *findings.allocator();
    let mut remark = String::new(alloc);
    add_title(&mut remark, direction, report)?;
    remark.push_str(": ")?;
    let refusal = refusal_remark(alloc, WindowsRefusal::Unaligned)?;
    remark.push_str(refusal.as_str())?;
    tell(findings, None, &remark, Rule::WindowsUnaligned)
}
