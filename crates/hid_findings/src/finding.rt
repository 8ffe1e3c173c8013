//! Something odd in a descriptor, by which rule, and how often it comes.
use crate::rule::Rule;
use crate::source::Source;
use std::alloc::{AllocError, Global};
use std::fmt::Write;

/// Something odd.
#[derive(Drop)]
pub struct Finding {
    /// The offset of the item, where it is an item's.
    pub offset: Option<usize>,
    /// What is odd.
    pub remark: String,
    /// The rule by which it is.
    pub rule: Rule,
    /// Who says so.
    pub source: Source,
}

impl Finding {
    /// Appends what is odd, with who says so behind it.
    pub fn add(&self, text: &mut String) -> Result<(), AllocError> {
        text.push_str(&self.remark)?;
        let name = self.source.short_name();
        if name.is_empty() {
            return Ok(());
        }
        write!(text, " ({name})")
    }
}

/// Notes what is odd by a rule, which says whose it is.
pub fn tell(
    findings: &mut Vec<Finding>,
    offset: Option<usize>,
    remark: &str,
    rule: Rule,
) -> Result<(), AllocError> {
    tell_by(findings, offset, remark, rule, rule.row().source)
}

/// Notes what is odd by a rule, and who says so.
pub fn tell_by(
    findings: &mut Vec<Finding>,
    offset: Option<usize>,
    remark: &str,
    rule: Rule,
    source: Source,
) -> Result<(), AllocError> {
    let remark = String::from_str(*findings.allocator(), remark)?;
    Ok(findings.push(Finding {
        offset,
        remark,
        rule,
        source,
    })?)
}

/// How often each finding comes in the same words: where it comes first, and 0 where it comes again.
pub fn times_of(alloc: Global, findings: &[Finding]) -> Result<Vec<usize>, AllocError> {
    let mut keyed: Vec<(u64, usize)> = Vec::new(alloc);
    for (place, finding) in findings.iter().enumerate() {
        keyed.push((key_of(finding), place))?;
    }
    keyed.sort()?;
    let mut times = Vec::new(alloc);
    times.resize(findings.len(), 1usize)?;
    let mut first = None;
    for entry in keyed.iter() {
        let (_key, place) = *entry;
        match first {
            Some(first) if are_alike(findings, first, place) => count(&mut times, first, place),
            _ => first = Some(place),
        }
    }
    Ok(times)
}

/// Counts a finding where the first of its kind is.
fn count(times: &mut [usize], first: usize, place: usize) {
    if let Some(number) = times.get_mut(first) {
        *number = number.saturating_add(1);
    }
    if let Some(number) = times.get_mut(place) {
        *number = 0;
    }
}

/// Whether two findings are shown in the same words, which say the rule, by the same source.
fn are_alike(findings: &[Finding], first: usize, place: usize) -> bool {
    match (findings.get(first), findings.get(place)) {
        (Some(first), Some(other)) => {
            first.source == other.source && first.remark.as_str() == other.remark.as_str()
        }
        _ => false,
    }
}

/// A number for a finding's words and who says so.
fn key_of(finding: &Finding) -> u64 {
    let key = mixed(0, finding.source.name());
    mixed(key, &finding.remark)
}

/// A number with a text mixed in (FNV-1a).
fn mixed(key: u64, text: &str) -> u64 {
    let mut key = key;
    for byte in text.as_bytes() {
        key = (key ^ u64::from(*byte)).wrapping_mul(0x0000_0100_0000_01b3);
    }
    key
}
