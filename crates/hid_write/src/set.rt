//! `hid set`: the bytes of a report, from names and numbers.
use crate::field_names::show_names;
use crate::press::pressed_keys;
use crate::written::Written;
use anyhow::{Context, Result, anyhow, bail};
use hid_input::parsing::descriptor_by;
use hid_input::settings::{Settings, limit_for};
use hid_input::world::World;
use hid_output::ending::Ending;
use hid_report::add_reports;
use hid_targets::ReportTarget;
use hid_words::{plain_number, word_of};
use hidreport::{Direction, RDescReport, Report, ReportDescriptor, ReportId};
use std::alloc::Global;

/// Writes the bytes of a report.
#[derive(Drop)]
pub struct Set<'a> {
    /// The descriptor's input.
    pub file: &'a str,
    /// The report's id; none where reports have none.
    pub id: Option<ReportId>,
    /// The fields' names with their numbers.
    pub words: Vec<&'a str>,
    /// The keys of a keyboard that are down.
    pub keys: Option<&'a str>,
    /// Which way the report goes.
    pub direction: Direction,
    /// What its bytes are written as.
    pub target: ReportTarget,
    /// Whether all bits that no name sets are 0.
    pub is_zero: bool,
    /// Whether the names that it takes are shown in place of a report.
    pub shows_names: bool,
    /// Whether the words are lamps of Linux, and the reports those that it writes then.
    pub is_linux: bool,
}

/// The report's id that a word says; none where reports have none.
pub fn id_named(word: &str) -> Result<Option<ReportId>> {
    if word == "-" {
        return Ok(None);
    }
    match plain_number(word).and_then(|number| u8::try_from(number).ok()) {
        Some(id) => Ok(Some(ReportId::from(id))),
        None => bail!("{word} is no report id: 1 to 255, 0x01 to 0xff, or -"),
    }
}

impl<'a> Set<'a> {
    /// Why the options and words can't be met together, where they can't.
    pub fn conflict(&self) -> Option<&'static str> {
        if self.shows_names && !self.words.is_empty() {
            return Some("--names takes no NAME=NUMBER");
        }
        if self.shows_names && self.keys.is_some() {
            return Some("--names and --press can't both be met");
        }
        if self.is_linux && (self.shows_names || self.keys.is_some() || self.is_zero) {
            return Some("--linux takes lamps alone: without --names, --press and --zero");
        }
        if self.is_linux && (self.id.is_some() || self.direction != Direction::Input) {
            return Some(
                "--linux writes the report that Linux chooses: ID is -, without --direction",
            );
        }
        None
    }

    /// Writes the report.
    pub fn run<R: World>(&self, rt: &R, settings: &Settings) -> Result<Ending> {
        if self.is_linux {
            self.write_lamps(rt, settings)?;
            return Ok(Ending::Done);
        }
        let descriptor = descriptor_by(rt, settings, self.file)?;
        let Some(report) = descriptor.report(self.direction, self.id) else {
            return Err(no_report(rt.alloc(), &descriptor, self.direction));
        };
        if self.shows_names {
            show_names(rt, report)?;
            return Ok(Ending::Done);
        }
        self.write(rt, settings, report)?;
        Ok(Ending::Done)
    }

    /// Writes the bytes of a report.
    fn write<R: AllocGlobal + Print + Eprint>(
        &self,
        rt: &R,
        settings: &Settings,
        report: &RDescReport,
    ) -> Result<()> {
        check_size(report, settings)?;
        let mut written = Written::new(rt.alloc(), report, self.is_zero)?;
        for pressed in pressed_keys(rt.alloc(), self.keys)?.iter() {
            written
                .put_word(rt, settings, &pressed.word)
                .context(format_args!("--press {}", pressed.key))?;
        }
        for word in self.words.iter() {
            written
                .put_word(rt, settings, word)
                .context(format_args!("{word}"))?;
        }
        for word in self.words.iter() {
            written.check(word).context(format_args!("{word}"))?;
        }
        if settings.has_notes() {
            written.tell_pressed(rt)?;
        }
        self.target.write(rt, written.bytes())
    }
}

/// Why there is no report with an id.
fn no_report(alloc: Global, descriptor: &ReportDescriptor, direction: Direction) -> anyhow::Error {
    let mut known = String::new(alloc);
    match add_reports(&mut known, descriptor, direction) {
        Ok(()) => anyhow!("no such {} report: it has {known}", word_of(direction)),
        Err(refused) => refused.into(),
    }
}

/// Refuses a report of more bytes than a descriptor may have.
fn check_size(report: &RDescReport, settings: &Settings) -> Result<()> {
    let (size, longest) = (report.size_in_bytes(), settings.longest());
    if longest < size {
        let limit = limit_for(size);
        bail!("the report has {size} bytes, more than {longest}: say --limit {limit}");
    }
    Ok(())
}
