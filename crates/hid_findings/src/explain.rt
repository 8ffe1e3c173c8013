//! `hid check --explain`: what a rule means, and what to write.
use crate::rule::{RULES, Rule};
use crate::rule_row::RuleRow;
use anyhow::{Result, bail};
use hid_input::settings::Settings;
use hid_nearest::{Nearest, ROOM};
use hid_output::ending::Ending;
use hid_output::{add_json, flush};
use serde::Serialize;
use std::alloc::{AllocError, Global};
use std::fmt::Write;

/// The word for all rules.
const ALL: &str = "all";

/// Shows what rules mean.
#[derive(Clone, Copy)]
pub struct Explain {
    /// The rule that is meant; none of all rules.
    rule: Option<Rule>,
}

/// A rule, as JSON.
#[derive(Drop, Serialize)]
struct RuleObject<'a> {
    rule: &'a str,
    name: &'a str,
    severity: &'a str,
    wrong: &'a str,
    why: &'a str,
    instead: &'a str,
    source: &'a str,
    host: Option<&'a str>,
    example: &'a str,
    without: &'a str,
}

impl Explain {
    /// The rule of a number, as HID001, or of a name; small letters do.
    pub fn named(alloc: Global, word: &str) -> Result<Explain> {
        if word.eq_ignore_ascii_case(ALL) {
            return Ok(Explain { rule: None });
        }
        for rule in &RULES {
            let row = rule.row();
            if row.number.eq_ignore_ascii_case(word) || row.name.eq_ignore_ascii_case(word) {
                let rule = Some(*rule);
                return Ok(Explain { rule });
            }
        }
        let refusal = no_rule(alloc, word)?;
        bail!("{refusal}")
    }

    /// Shows a rule, or a line of each.
    pub fn run<R: AllocGlobal + Print>(&self, rt: &R, settings: &Settings) -> Result<Ending> {
        let mut text = String::new(rt.alloc());
        for rule in &RULES {
            if self.rule.is_some() && self.rule != Some(*rule) {
                continue;
            }
            self.add(&mut text, settings, rule.row())?;
        }
        flush(rt, &mut text)?;
        Ok(Ending::Done)
    }

    /// Appends what is shown of a rule.
    fn add(&self, text: &mut String, settings: &Settings, row: &RuleRow) -> Result<()> {
        if settings.is_json {
            add_object(text, row)
        } else if self.rule.is_none() {
            add_line(text, row)
        } else {
            add_rule(text, row)
        }
    }
}

/// What is said of a word that no rule has: the names that are nearest, of those that have it as a
/// part, where some have.
fn no_rule(alloc: Global, word: &str) -> Result<String, AllocError> {
    let mut nearest = Nearest::new(alloc, word)?;
    let have_it = RULES.iter().any(|rule| rule.row().name.contains(word));
    for rule in &RULES {
        let row = rule.row();
        if row.name.contains(word) || !have_it {
            nearest.add(String::from_str(alloc, row.name)?)?;
        }
    }
    let mut refusal = format!(in alloc; "--explain {word}: no rule has this number or name")?;
    nearest.add_to(&mut refusal, ROOM)?;
    Ok(refusal)
}

/// Appends a rule as JSON.
fn add_object(text: &mut String, row: &RuleRow) -> Result<()> {
    add_json(
        text,
        &RuleObject {
            rule: row.number,
            name: row.name,
            severity: row.severity.name(),
            wrong: row.wrong,
            why: row.why,
            instead: row.instead,
            source: row.source.full_name(),
            host: row.source.host(),
            example: row.example,
            without: row.without,
        },
    )
}

/// Appends a rule's line in the list of all.
fn add_line(text: &mut String, row: &RuleRow) -> Result<()> {
    row.add_title(text)?;
    Ok(writeln!(text, ": {}", row.wrong)?)
}

/// Appends all that is said of a rule.
fn add_rule(text: &mut String, row: &RuleRow) -> Result<()> {
    add_line(text, row)?;
    let source = row.source.full_name();
    writeln!(
        text,
        "Why: {}\nInstead: {}\nSource: {source}",
        row.why, row.instead
    )?;
    if let Some(host) = row.source.host() {
        writeln!(text, "Told by: hid check --for {host}")?;
    }
    Ok(writeln!(
        text,
        "Example: {}\nWithout it: {}",
        row.example, row.without
    )?)
}
