//! `hid diff`: what differs between two descriptors.
use crate::item_diff::show_items;
use crate::report_diff::{Changed, ReportDiff, id_alone_changed};
use crate::runs::add_runs;
use anyhow::{Context, Result, ensure};
use hid_given::{Form, Given};
use hid_input::advice::check_length;
use hid_input::input::given_beside;
use hid_input::parsing::descriptor_beside;
use hid_input::settings::Settings;
use hid_input::world::World;
use hid_objects::field_object::{FieldObject, object_of};
use hid_output::ending::Ending;
use hid_output::{add_json, flush, flush_piece};
use hid_report::add_title;
use hid_words::word_of;
use hidreport::{Direction, Field, RDescReport, Report, ReportDescriptor};
use serde::Serialize;
use std::alloc::{AllocError, Global};

/// Shows what differs between two descriptors.
#[derive(Clone, Copy)]
pub struct Diff<'a> {
    /// The first descriptor's input.
    pub file: &'a str,
    /// The second's.
    pub other: &'a str,
    /// Whether items are compared, in the bytes as they stand.
    pub by_items: bool,
}

/// A field that differs, as JSON.
#[derive(Drop, Serialize)]
struct ChangedObject<'a> {
    change: &'static str,
    first: Option<FieldObject>,
    second: Option<FieldObject>,
    #[serde(skip_serializing_if = "Option::is_none")]
    parts: Option<&'a str>,
}

/// A report whose id alone differs, or numbers that do, as JSON.
#[derive(Drop, Serialize)]
struct IdObject {
    change: &'static str,
    direction: Option<&'static str>,
    first: Option<u8>,
    second: Option<u8>,
}

/// The reports of a direction of two descriptors: one's own, and those of the other one.
#[derive(Clone, Copy)]
struct Sides<'a> {
    direction: Direction,
    own: &'a ReportDescriptor,
    other: &'a ReportDescriptor,
}

/// What is shown so far.
#[derive(Drop)]
struct Showing<'a> {
    settings: &'a Settings<'a>,
    text: String,
    is_nothing: bool,
}

impl<'a> Diff<'a> {
    /// Shows the difference; there is none exactly where the two read the same.
    pub fn run<R: World>(&self, rt: &R, settings: &Settings) -> Result<Ending> {
        if self.by_items {
            return self.run_by_items(rt, settings);
        }
        let (first, form) = descriptor_beside(rt, settings, self.file)?;
        let (second, other_form) = descriptor_beside(rt, settings, self.other).context(format_args!(
            "{}",
            self.other
        ))?;
        check_device(settings, form, other_form)?;
        if first.is_alike(&second) {
            return Ok(Ending::Done);
        }
        show_difference(rt, settings, &first, &second)?;
        Ok(Ending::Refused)
    }

    /// Shows the items that one descriptor alone has.
    fn run_by_items<R: World>(&self, rt: &R, settings: &Settings) -> Result<Ending> {
        let first = given_beside(rt, settings, self.file)?;
        check_length(settings, first.descriptor())?;
        let second = self
            .other_given(rt, settings)
            .context(format_args!("{}", self.other))?;
        check_device(settings, first.form, second.form)?;
        if show_items(rt, settings, first.descriptor(), second.descriptor())? {
            return Ok(Ending::Refused);
        }
        Ok(Ending::Done)
    }

    /// What the second's input holds.
    fn other_given<R: World>(&self, rt: &R, settings: &Settings) -> Result<Given> {
        let given = given_beside(rt, settings, self.other)?;
        check_length(settings, given.descriptor())?;
        Ok(given)
    }
}

/// Refuses a number of a device that neither input has.
fn check_device(settings: &Settings, form: Form, other: Form) -> Result<()> {
    let number = settings.device.unwrap_or(0);
    ensure!(
        number == 0 || !form.has_one_device() || !other.has_one_device(),
        "has no device {number}, but 0"
    );
    Ok(())
}

fn show_difference<R: AllocGlobal + Print>(
    rt: &R,
    settings: &Settings,
    first: &ReportDescriptor,
    second: &ReportDescriptor,
) -> Result<()> {
    let mut showing = Showing {
        settings,
        text: String::new(rt.alloc()),
        is_nothing: true,
    };
    for direction in Direction::ALL {
        let sides = Sides {
            direction,
            own: first,
            other: second,
        };
        sides.show_first(rt, &mut showing)?;
        sides.turned().show_second(rt, &mut showing)?;
    }
    showing.end()?;
    flush(rt, &mut showing.text)
}

impl<'a> Sides<'a> {
    /// With the other descriptor as its own.
    fn turned(self) -> Sides<'a> {
        Sides {
            direction: self.direction,
            own: self.other,
            other: self.own,
        }
    }

    /// Shows what the first descriptor's reports have else: those with the same id are compared.
    fn show_first<R: AllocGlobal + Print>(self, rt: &R, showing: &mut Showing) -> Result<()> {
        for report in self.own.reports(self.direction) {
            match self.other.report(self.direction, *report.report_id()) {
                Some(other) => {
                    let (first, second) = (report.fields(), other.fields());
                    showing.add_report(rt, self.direction, report, first, second)?;
                }
                None => self.show_lone(rt, showing, report)?,
            }
            flush_piece(rt, &mut showing.text)?;
        }
        Ok(())
    }

    /// Shows a report of the first descriptor whose id the second doesn't have.
    fn show_lone<R: AllocGlobal + Print>(
        self,
        rt: &R,
        showing: &mut Showing,
        report: &RDescReport,
    ) -> Result<()> {
        let none: &[Field] = &[];
        match self.renamed(rt.alloc(), report)? {
            Some(other) => showing.add_id(self.direction, report, other),
            None => showing.add_report(rt, self.direction, report, report.fields(), none),
        }
    }

    /// Shows the second descriptor's reports, which are its own, that the first doesn't have.
    fn show_second<R: AllocGlobal + Print>(self, rt: &R, showing: &mut Showing) -> Result<()> {
        let none: &[Field] = &[];
        for report in self.own.reports(self.direction) {
            if !self.has_other(report) && self.renamed(rt.alloc(), report)?.is_none() {
                showing.add_report(rt, self.direction, report, none, report.fields())?;
            }
            flush_piece(rt, &mut showing.text)?;
        }
        Ok(())
    }

    /// Whether the other descriptor has a report with the same id.
    fn has_other(self, report: &RDescReport) -> bool {
        self.other
            .report(self.direction, *report.report_id())
            .is_some()
    }

    /// The report of the other descriptor that is this one with another id: of those whose ids one
    /// descriptor alone has, the one in the same place.
    fn renamed(
        self,
        alloc: Global,
        report: &RDescReport,
    ) -> Result<Option<&'a RDescReport>, AllocError> {
        let mut before = self.lone_before(report);
        for candidate in self.other.reports(self.direction) {
            if !self.turned().has_other(candidate) {
                if before == 0 {
                    let is_same = id_alone_changed(alloc, report, candidate)?;
                    return Ok(if is_same { Some(candidate) } else { None });
                }
                before -= 1;
            }
        }
        Ok(None)
    }

    /// How many of its own reports stand before this one whose ids the other doesn't have.
    fn lone_before(self, report: &RDescReport) -> usize {
        self.own
            .reports(self.direction)
            .iter()
            .take_while(|it| it.report_id() != report.report_id())
            .filter(|it| !self.has_other(it))
            .count()
    }
}

impl<'a> Showing<'a> {
    /// Adds a report whose id alone changed.
    fn add_id(
        &mut self,
        direction: Direction,
        report: &RDescReport,
        other: &RDescReport,
    ) -> Result<()> {
        self.is_nothing = false;
        if self.settings.is_json {
            return add_json(
                &mut self.text,
                &IdObject {
                    change: "report id",
                    direction: Some(word_of(direction)),
                    first: report.report_id().map(u8::from),
                    second: other.report_id().map(u8::from),
                },
            );
        }
        add_title(&mut self.text, direction, report)?;
        self.text.push_str(": now ")?;
        add_title(&mut self.text, direction, other)?;
        self.text.push_str(", with the same fields\n")?;
        Ok(())
    }

    /// Adds the fields in which two reports differ, below the report's name.
    fn add_report<R: AllocGlobal + Print>(
        &mut self,
        rt: &R,
        direction: Direction,
        report: &RDescReport,
        first: &[Field],
        second: &[Field],
    ) -> Result<()> {
        let diff = ReportDiff::new(rt.alloc(), first, second)?;
        if diff.fields.is_empty() {
            return Ok(());
        }
        self.is_nothing = false;
        if self.settings.is_json {
            return show_objects(rt, &mut self.text, direction, report, &diff.fields);
        }
        add_title(&mut self.text, direction, report)?;
        self.text.push_str("\n")?;
        Ok(add_runs(&mut self.text, &diff.fields, self.settings.is_coloured)?)
    }

    /// Adds what is left where no field differs: the numbers of fields or collections.
    fn end(&mut self) -> Result<()> {
        if !self.is_nothing {
            return Ok(());
        }
        if self.settings.is_json {
            return add_json(
                &mut self.text,
                &IdObject {
                    change: "numbers of fields or collections",
                    direction: None,
                    first: None,
                    second: None,
                },
            );
        }
        self.text
            .push_str("fields or collections have other numbers\n")?;
        Ok(())
    }
}

/// Shows an object for each field that differs.
fn show_objects<R: Print>(
    rt: &R,
    text: &mut String,
    direction: Direction,
    report: &RDescReport,
    fields: &[Changed],
) -> Result<()> {
    for changed in fields {
        add_object(text, direction, report, changed)?;
        flush_piece(rt, text)?;
    }
    Ok(())
}

/// Appends the object of a field that differs.
fn add_object(
    text: &mut String,
    direction: Direction,
    report: &RDescReport,
    changed: &Changed,
) -> Result<()> {
    let change = match (changed.first, changed.second) {
        (Some(_first), Some(_second)) => "changed",
        (Some(_first), None) => "removed",
        _ => "added",
    };
    let object = ChangedObject {
        change,
        first: field_object(*text.allocator(), direction, report, changed.first)?,
        second: field_object(*text.allocator(), direction, report, changed.second)?,
        parts: changed.parts.as_str().strip_prefix("; "),
    };
    add_json(text, &object)
}

fn field_object(
    alloc: Global,
    direction: Direction,
    report: &RDescReport,
    field: Option<&Field>,
) -> Result<Option<FieldObject>, AllocError> {
    match field {
        Some(field) => Ok(Some(object_of(alloc, direction, report, field)?)),
        None => Ok(None),
    }
}
