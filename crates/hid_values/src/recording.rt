//! The reports of a stream, as they are shown.
use crate::device_events::{DeviceEvents, Left, events_of};
use crate::raw_lines::{add_heads, add_raw};
use crate::report_time::{add_stamp, time_of};
use anyhow::Result;
use hid_given::{Form, Given, GivenReport};
use hid_input::settings::Settings;
use hid_objects::value_object::{Sent, add_value_objects};
use hid_output::ending::Ending;
use hid_output::flush;
use hid_report::{Lines, tell_mixed, tell_size, tell_unknown};
use hid_words::plural;
use hidreport::{Direction, ReportDescriptor};
use std::alloc::{AllocError, Global};
use std::fmt::Write;
use std::time::Duration;

/// How a report is written.
#[derive(Clone, Copy, PartialEq)]
pub enum Shown {
    /// Its values in a line.
    Line,

    /// An object of JSON for each field.
    Json,

    /// A line of hid-recorder.
    Raw,

    /// The input events that Linux sends.
    Events,
}

/// What is asked for.
#[derive(Clone, Copy)]
pub struct Asked {
    /// How a report is written.
    pub shown: Shown,
    /// Whether what is as it was is left out.
    pub only_changes: bool,
    /// Whether each line has the report's number and its time before it.
    pub has_times: bool,
}

/// What is shown so far.
#[derive(Drop)]
pub struct Recording<'a> {
    given: &'a Given,
    descriptors: &'a [ReportDescriptor],
    lines: Vec<Lines<'a>>,
    /// The events of each device; none where they aren't shown.
    events: Vec<DeviceEvents>,
    shown: Shown,
    is_json: bool,
    has_times: bool,
    has_notes: bool,
    known: u64,
    unknown: u64,
    has_refused: bool,
    /// Where the device of the last line of hid-recorder stands among the devices.
    last_place: usize,
    text: String,
}

impl<'a> Recording<'a> {
    /// Before the first report.
    pub fn of(
        alloc: Global,
        settings: &Settings,
        asked: Asked,
        given: &'a Given,
        descriptors: &'a [ReportDescriptor],
    ) -> Result<Recording<'a>> {
        let shown = asked.shown;
        Ok(Recording {
            given,
            descriptors,
            lines: lines_of(alloc, descriptors, asked.only_changes)?,
            events: events_of(alloc, settings, given, shown == Shown::Events)?,
            shown,
            is_json: settings.is_json,
            has_times: asked.has_times,
            has_notes: settings.has_notes(),
            known: 0,
            unknown: 0,
            has_refused: false,
            last_place: given.devices.len().saturating_sub(1),
            text: front_of(alloc, shown, given)?,
        })
    }

    /// Says on standard error how reports are read where that may surprise.
    pub fn begin<R: Eprint>(&self, rt: &R) -> Result<()> {
        if self.has_notes {
            for descriptor in self.descriptors {
                tell_mixed(rt, descriptor, Direction::Input)?;
            }
        }
        Ok(())
    }

    /// Shows reports that came at this time.
    pub fn show_all<R: AllocGlobal + Print + Eprint>(
        &mut self,
        rt: &R,
        form: Option<Form>,
        reports: &[GivenReport],
        time: Duration,
    ) -> Result<()> {
        let form = form.unwrap_or(Form::Bytes);
        for report in reports {
            if !self.show(rt, form, report, time)? {
                self.unknown = self.unknown.saturating_add(1);
            }
        }
        flush(rt, &mut self.text)
    }

    /// Shows a report, and answers whether a descriptor has it.
    fn show<R: AllocGlobal + Print + Eprint>(
        &mut self,
        rt: &R,
        form: Form,
        report: &GivenReport,
        time: Duration,
    ) -> Result<bool> {
        let Some(place) = self.given.place_of(form, report) else {
            return Ok(false);
        };
        if self.shown == Shown::Events {
            return self.show_events(rt, place, report, time);
        }
        if self.shown == Shown::Raw {
            self.add_device(place)?;
            add_raw(&mut self.text, report, time)?;
            return Ok(true);
        }
        let Some(lines) = self.lines.get_mut(place) else {
            return Ok(false);
        };
        let Some(own) = lines.report_of(&report.bytes) else {
            return Ok(false);
        };
        if self.has_notes {
            tell_size(rt, own, &report.bytes)?;
        }
        self.known = self.known.saturating_add(1);
        if self.shown == Shown::Line {
            let mut line = String::new(*self.text.allocator());
            lines.add(&mut line, &report.bytes)?;
            self.add_line(report, time, &line)?;
            return Ok(true);
        }
        let sent = Sent {
            number: self.known,
            time: report.time.as_deref(),
        };
        add_value_objects(&mut self.text, Direction::Input, own, &report.bytes, sent)?;
        Ok(true)
    }

    /// Shows the events of a report of the device at a place, and answers whether that has it.
    fn show_events<R: AllocGlobal + Print + Eprint>(
        &mut self,
        rt: &R,
        place: usize,
        report: &GivenReport,
        time: Duration,
    ) -> Result<bool> {
        let elapsed = time_of(rt.alloc(), report, time)?;
        let sent = self.sent(report, elapsed.as_str());
        let left = self.add_events(rt, place, report, sent)?;
        flush(rt, &mut self.text)?;
        match left {
            Some(left) => self.pass(rt, sent.number, left),
            None => {
                self.known = sent.number;
                Ok(true)
            }
        }
    }

    /// Says on standard error why the events of a report aren't shown, and answers whether a
    /// descriptor has it.
    fn pass<R: Eprint>(&mut self, rt: &R, number: u64, left: Left) -> Result<bool> {
        match left {
            Left::Unknown => Ok(false),
            Left::Refused(why) => {
                self.known = number;
                self.has_refused = true;
                eprintln!(rt; "hid: report {number}: {why}")?;
                Ok(true)
            }
        }
    }

    /// The next report's number, and its time where that is shown.
    fn sent<'b>(&self, report: &'b GivenReport, elapsed: &'b str) -> Sent<'b> {
        Sent {
            number: self.known.saturating_add(1),
            time: match (self.is_json, self.has_times) {
                (true, _) => report.time.as_deref(),
                (false, true) => Some(elapsed),
                (false, false) => None,
            },
        }
    }

    /// Appends the events of a report of the device at a place, or answers why they aren't shown.
    fn add_events<R: AllocGlobal + Eprint>(
        &mut self,
        rt: &R,
        place: usize,
        report: &GivenReport,
        sent: Sent,
    ) -> Result<Option<Left>> {
        let Some(descriptor) = self.descriptors.get(place) else {
            return Ok(Some(Left::Unknown));
        };
        let Some(events) = self.events.get_mut(place) else {
            return Ok(Some(Left::Unknown));
        };
        events.add(rt, &mut self.text, descriptor, &report.bytes, sent)
    }

    /// Appends the line of a report, where something is shown of it.
    fn add_line(
        &mut self,
        report: &GivenReport,
        time: Duration,
        line: &str,
    ) -> Result<(), AllocError> {
        if self.has_times && !line.is_empty() {
            let number = self.known;
            add_stamp(&mut self.text, number, report, Some(time))?;
        }
        self.text.push_str(line)
    }

    /// Appends a line of hid-recorder that names the device at a place, where that is another than
    /// before: the last one's head stands right before the first report.
    fn add_device(&mut self, place: usize) -> Result<(), AllocError> {
        let Some(device) = self.given.devices.get(place) else {
            return Ok(());
        };
        if self.last_place == place {
            return Ok(());
        }
        self.last_place = place;
        let number = device.number;
        writeln!(self.text, "D: {number}")
    }

    /// Says what wasn't shown.
    pub fn end<R: Eprint>(&self, rt: &R, left: usize) -> Result<Ending> {
        let unknown = self.unknown;
        if left != 0 && self.has_notes {
            let (s, verb) = (plural(left), if left == 1 { "is" } else { "are" });
            eprintln!(rt; "hid: the last {left} byte{s} {verb} no whole report")?;
        }
        if self.has_notes {
            tell_unknown(rt, unknown)?;
        }
        Ok(if left == 0 && unknown == 0 && !self.has_refused {
            Ending::Done
        } else {
            Ending::Refused
        })
    }
}

/// The reports of all descriptors, as lines.
fn lines_of(
    alloc: Global,
    descriptors: &[ReportDescriptor],
    only_changes: bool,
) -> Result<Vec<Lines<'_>>, AllocError> {
    let mut lines = Vec::new(alloc);
    for descriptor in descriptors {
        lines.push(Lines::new(alloc, descriptor, only_changes)?)?;
    }
    Ok(lines)
}

/// What is shown before the first report.
fn front_of(alloc: Global, shown: Shown, given: &Given) -> Result<String, AllocError> {
    let mut text = String::new(alloc);
    if shown == Shown::Raw {
        add_heads(&mut text, given)?;
    }
    Ok(text)
}
