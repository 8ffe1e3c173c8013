//! The reports in a page that inputs have.
use crate::sheet::Sheet;
use anyhow::{Context, Result};
use hid_given::{Given, GivenReport};
use hid_input::input::reports_named;
use hid_input::reads::Reads;
use hid_input::settings::Settings;
use hid_objects::sample_object::add_sample_object;
use hidreport::{Direction, RDescReport, Report, ReportDescriptor};

/// The inputs that reports are read of.
#[derive(Drop)]
pub struct Streams {
    /// Each of them.
    pub inputs: Vec<Given>,
}

/// Reads the inputs of these names.
pub fn streams_of<R: Reads>(rt: &R, settings: &Settings, names: &[&str]) -> Result<Streams> {
    let mut inputs = Vec::new(rt.alloc());
    for name in names {
        inputs.push(reports_named(rt, settings, name).context(format_args!("{name}"))?)?;
    }
    Ok(Streams { inputs })
}

/// Writes the reports of an input that are of a descriptor, and counts those that aren't.
pub fn show_samples<R: AllocGlobal + Print>(
    rt: &R,
    given: &Given,
    stream: &Given,
    descriptor: &ReportDescriptor,
    direction: Direction,
    sheet: &mut Sheet,
) -> Result<()> {
    for report in stream.reports.iter() {
        let own = match given.place_of(stream.form, report) {
            Some(_place) => descriptor.find_report(direction, &report.bytes),
            None => None,
        };
        match own {
            Some(own) => {
                let place = place_in(descriptor, direction, own);
                show_sample(rt, own, place, report, sheet)?;
            }
            None => sheet.left_out.unknown = sheet.left_out.unknown.saturating_add(1),
        }
    }
    Ok(())
}

/// The place of a report among all of a descriptor.
fn place_in(descriptor: &ReportDescriptor, direction: Direction, own: &RDescReport) -> usize {
    let mut place = 0usize;
    for other in Direction::ALL {
        for report in descriptor.reports(other) {
            if other == direction && report.report_id() == own.report_id() {
                return place;
            }
            place = place.saturating_add(1);
        }
    }
    place
}

/// Writes a report, if there is room for it.
fn show_sample<R: AllocGlobal + Print>(
    rt: &R,
    own: &RDescReport,
    place: usize,
    report: &GivenReport,
    sheet: &mut Sheet,
) -> Result<()> {
    let left_out = &mut sheet.left_out;
    if left_out.most.reports == 0 || left_out.most.values == 0 {
        left_out.reports = left_out.reports.saturating_add(1);
        return Ok(());
    }
    let (time, most) = (report.time.as_deref(), left_out.most.fields);
    let (wanted, given) = (own.size_in_bytes(), report.bytes.as_slice());
    let bytes = given.get(..wanted).unwrap_or(given);
    let count = add_sample_object(&mut sheet.lines, place, own, bytes, time, most)?;
    sheet.left_out.take(count, wanted, given.len());
    sheet.take(rt)
}
