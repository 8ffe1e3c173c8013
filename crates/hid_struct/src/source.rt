//! `hid struct`: a struct for each report, with functions that read and write it.
use crate::language::Language;
use crate::member::count_members;
use crate::report_struct::ReportStruct;
use anyhow::{Result, bail, ensure};
use hid_input::parsing::descriptor_by;
use hid_input::settings::{Settings, limit_for};
use hid_input::world::World;
use hid_output::ending::Ending;
use hid_output::flush;
use hidreport::{Direction, RDescReport, Report, ReportDescriptor};
use std::alloc::Global;

/// The most members of all structs.
const MOST_MEMBERS: usize = 16_384;

/// Writes the source of a program.
#[derive(Clone, Copy)]
pub struct Struct<'a> {
    /// The descriptor's input.
    pub file: &'a str,
    /// What the source is written in.
    pub language: Language,
}

impl<'a> Struct<'a> {
    /// Writes the source.
    pub fn run<R: World>(&self, rt: &R, settings: &Settings) -> Result<Ending> {
        let descriptor = descriptor_by(rt, settings, self.file)?;
        check(rt.alloc(), settings, &descriptor)?;
        self.write(rt, &descriptor)?;
        Ok(Ending::Done)
    }

    fn write<R: AllocGlobal + Print>(&self, rt: &R, descriptor: &ReportDescriptor) -> Result<()> {
        let mut text = String::from_str(rt.alloc(), self.language.head())?;
        for direction in Direction::ALL {
            self.write_reports(rt, &mut text, direction, descriptor.reports(direction))?;
        }
        flush(rt, &mut text)
    }

    fn write_reports<R: AllocGlobal + Print>(
        &self,
        rt: &R,
        text: &mut String,
        direction: Direction,
        reports: &[RDescReport],
    ) -> Result<()> {
        for report in reports {
            let own = ReportStruct::of(rt.alloc(), self.language, direction, report)?;
            own.write(rt, text)?;
        }
        Ok(())
    }
}

/// Refuses a descriptor without a report, with a report of too many bytes, or whose structs would
/// have too many members.
fn check(alloc: Global, settings: &Settings, descriptor: &ReportDescriptor) -> Result<()> {
    let (mut count, mut members) = (0usize, 0usize);
    for direction in Direction::ALL {
        let reports = descriptor.reports(direction);
        count = count.saturating_add(reports.len());
        members = members.saturating_add(checked_members(alloc, settings, reports)?);
    }
    ensure!(count != 0, "no item makes a field, so there is no report");
    ensure!(
        members <= MOST_MEMBERS,
        "the structs have {members} members, more than {MOST_MEMBERS}"
    );
    Ok(())
}

/// How many members the structs of these reports have; of one of too many bytes there is none.
fn checked_members(alloc: Global, settings: &Settings, reports: &[RDescReport]) -> Result<usize> {
    let mut members = 0usize;
    for report in reports {
        check_size(settings, report.size_in_bytes())?;
        members = members.saturating_add(count_members(alloc, report)?);
    }
    Ok(members)
}

/// Refuses a report of more bytes than a descriptor may have.
fn check_size(settings: &Settings, size: usize) -> Result<()> {
    let longest = settings.longest();
    if longest < size {
        let limit = limit_for(size);
        bail!("a report has {size} bytes, more than {longest}: say --limit {limit}");
    }
    Ok(())
}
