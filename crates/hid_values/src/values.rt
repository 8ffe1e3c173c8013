//! `hid values`: the values of reports, by name.
use crate::device_events::{DeviceEvents, Left, events_of};
use crate::report_time::add_stamp;
use crate::value_lines::{add_down, add_values};
use anyhow::{Context, Result, bail, ensure};
use hid_given::{Given, GivenReport};
use hid_input::input::{descriptors_named, reports_named};
use hid_input::inputs::Inputs;
use hid_input::parsing::all_read;
use hid_input::settings::Settings;
use hid_input::world::World;
use hid_objects::value_object::{Sent, add_value_objects};
use hid_output::ending::Ending;
use hid_output::{escaped, flush, flush_piece, show};
use hid_report::{add_reports, add_title, tell_mixed, tell_size};
use hid_words::word_of;
use hidreport::{Direction, ReportDescriptor};
use std::alloc::{AllocError, Global};

/// Shows the values of reports.
#[derive(Drop)]
pub struct Values<'a> {
    /// The inputs.
    pub inputs: Inputs<'a>,
    /// Whether only keys and buttons that are down are shown.
    pub is_down: bool,
    /// Whether each report has its number and its time before it.
    pub has_times: bool,
    /// Whether the input events are shown that Linux sends.
    pub shows_linux: bool,
}

/// What reports are shown by.
#[derive(Drop)]
struct Known<'a> {
    given: &'a Given,
    descriptors: Vec<ReportDescriptor>,
    /// The events of each device; none where values are shown.
    events: Vec<DeviceEvents>,
    /// What the reports are read from, as a refusal names it.
    source: String,
    has_refused: bool,
}

impl<'a> Values<'a> {
    /// Shows the values of all reports.
    pub fn run<R: World>(&self, rt: &R, settings: &Settings) -> Result<Ending> {
        let given = descriptors_named(rt, settings, self.inputs.file)?;
        let alone = self.inputs.reports.is_empty();
        ensure!(!alone || !given.reports.is_empty(), "no report");
        let mut known = self.known(rt, settings, &given)?;
        if alone {
            self.show_all(rt, settings, &mut known, &given)?;
        } else {
            self.show_inputs(rt, settings, &mut known)?;
        }
        Ok(if known.has_refused {
            Ending::Refused
        } else {
            Ending::Done
        })
    }

    /// What is known before the first report.
    fn known<'b, R: AllocGlobal + Eprint>(
        &self,
        rt: &R,
        settings: &Settings,
        given: &'b Given,
    ) -> Result<Known<'b>> {
        let descriptors = all_read(rt, settings, self.inputs.file, given)?;
        if settings.has_notes() {
            for descriptor in descriptors.iter() {
                tell_mixed(rt, descriptor, self.inputs.direction)?;
            }
        }
        Ok(Known {
            given,
            descriptors,
            events: events_of(rt.alloc(), settings, given, self.shows_linux)?,
            source: escaped(rt.alloc(), self.inputs.file)?,
            has_refused: false,
        })
    }

    /// Shows the reports of all inputs.
    fn show_inputs<R: World>(&self, rt: &R, settings: &Settings, known: &mut Known) -> Result<()> {
        for (index, name) in self.inputs.reports.iter().enumerate() {
            if self.is_down && index != 0 {
                show(rt, "\n")?;
            }
            known.source = source_of(rt.alloc(), self.inputs.file, name)?;
            let reports = reports_named(rt, settings, name).context(format_args!("{name}"))?;
            self.show_all(rt, settings, known, &reports)
                .context(format_args!("{name}"))?;
        }
        Ok(())
    }

    /// Shows the reports of an input, each by the descriptor of its device.
    fn show_all<R: AllocGlobal + Print + Eprint>(
        &self,
        rt: &R,
        settings: &Settings,
        known: &mut Known,
        reports: &Given,
    ) -> Result<()> {
        let mut text = String::new(rt.alloc());
        for (report, number) in reports.reports.iter().zip(1u64..) {
            let place = known.given.place_of(reports.form, report);
            let shown = self.add_placed(rt, settings, known, (place, report), &mut text, number);
            if !matches!(shown, Ok(None)) {
                flush(rt, &mut text)?;
            }
            if let Some(why) = shown.context(format_args!("report {number}"))? {
                known.refuse(rt, number, &why)?;
            }
            flush_piece(rt, &mut text)?;
        }
        flush(rt, &mut text)
    }

    /// Appends what is shown of a report of the device at a place, or answers why its events aren't.
    fn add_placed<R: AllocGlobal + Eprint>(
        &self,
        rt: &R,
        settings: &Settings,
        known: &mut Known,
        placed: (Option<usize>, &GivenReport),
        text: &mut String,
        number: u64,
    ) -> Result<Option<String>> {
        let (place, report) = placed;
        let Some(descriptor) = place.and_then(|place| known.descriptors.get(place)) else {
            bail!("is of a device without a descriptor");
        };
        let Some(events) = place.and_then(|place| known.events.get_mut(place)) else {
            self.add_report(rt, settings, descriptor, report, text, number)?;
            return Ok(None);
        };
        let sent = self.sent(report, number);
        let Some(left) = events.add(rt, text, descriptor, &report.bytes, sent)? else {
            return Ok(None);
        };
        match left {
            Left::Unknown => Ok(Some(no_report(rt.alloc(), descriptor, Direction::Input)?)),
            Left::Refused(why) => Ok(Some(why)),
        }
    }

    /// A report's number, and its time where that is wanted.
    fn sent<'b>(&self, given: &'b GivenReport, number: u64) -> Sent<'b> {
        Sent {
            number,
            time: given.time.as_deref().filter(|_time| self.has_times),
        }
    }

    /// Appends what is shown of a report.
    fn add_report<R: Eprint>(
        &self,
        rt: &R,
        settings: &Settings,
        descriptor: &ReportDescriptor,
        given: &GivenReport,
        text: &mut String,
        number: u64,
    ) -> Result<()> {
        let (direction, bytes) = (self.inputs.direction, given.bytes.as_slice());
        let Some(report) = descriptor.find_report(direction, bytes) else {
            bail!("{}", no_report(*text.allocator(), descriptor, direction)?);
        };
        if settings.has_notes() {
            tell_size(rt, report, bytes)?;
        }
        if self.is_down {
            if number != 1 {
                text.push_str("\n")?;
            }
            return Ok(add_down(text, report, bytes)?);
        }
        if settings.is_json {
            return add_value_objects(text, direction, report, bytes, self.sent(given, number));
        }
        if self.has_times {
            add_stamp(text, number, given, None)?;
        }
        add_title(text, direction, report)?;
        text.push_str("\n")?;
        Ok(add_values(text, report, bytes)?)
    }
}

impl Known<'_> {
    /// Says on standard error why a report has no events.
    fn refuse<R: Eprint>(&mut self, rt: &R, number: u64, why: &str) -> Result<()> {
        self.has_refused = true;
        let source = self.source.as_str();
        Ok(eprintln!(rt; "hid: {source}: report {number}: {why}")?)
    }
}

/// What a refusal calls the reports of an input.
fn source_of(alloc: Global, file: &str, name: &str) -> Result<String, AllocError> {
    let named = format!(in alloc; "{file}: {name}")?;
    escaped(alloc, named.as_str())
}

/// That bytes are of no report of a descriptor, and which it has.
fn no_report(
    alloc: Global,
    descriptor: &ReportDescriptor,
    direction: Direction,
) -> Result<String, AllocError> {
    let mut known = String::new(alloc);
    add_reports(&mut known, descriptor, direction)?;
    let word = word_of(direction);
    format!(in alloc; "the bytes are of no {word} report of this descriptor: it has {known}")
}
