//! `hid fields`: the reports of a descriptor with their fields, inside their collections.
use crate::field_objects::{has_report, show_objects};
use crate::fitting::add_fitted;
use crate::linux_fields::show_linux;
use anyhow::Result;
use hid_input::parsing::descriptor_by;
use hid_input::settings::Settings;
use hid_input::world::World;
use hid_output::ending::Ending;
use hid_output::{escaped, flush, flush_piece};
use hid_report::{Block, LineStyle, SameReports, field_lines};
use hidreport::{Direction, RDescReport, Report, ReportDescriptor};

/// Shows the reports of a descriptor with their fields.
#[derive(Clone, Copy)]
pub struct Fields<'a> {
    /// The descriptor's input.
    pub file: &'a str,
    /// Whether each field has a line of its own, and each report is shown by itself.
    pub shows_each: bool,
    /// Whether each field has the event codes of Linux behind it.
    pub shows_linux: bool,
}

impl<'a> Fields<'a> {
    /// Shows the reports of the three directions.
    pub fn run<R: World>(&self, rt: &R, settings: &Settings) -> Result<Ending> {
        if self.shows_linux {
            return show_linux(rt, settings, self.file);
        }
        let has_report = if settings.is_json {
            show_objects(rt, settings, self.file)?
        } else {
            self.show_text(rt, settings)?
        };
        if settings.has_notes() && !has_report {
            let file = escaped(rt.alloc(), self.file)?;
            eprintln!(rt; "hid: {file}: no item makes a field, so there is no report")?;
        }
        Ok(Ending::Done)
    }

    /// Shows them in words, and answers whether there is one.
    fn show_text<R: World>(&self, rt: &R, settings: &Settings) -> Result<bool> {
        let descriptor = descriptor_by(rt, settings, self.file)?;
        self.show_directions(rt, settings, &descriptor)?;
        Ok(has_report(&descriptor))
    }

    fn show_directions<R: AllocGlobal + Print>(
        &self,
        rt: &R,
        settings: &Settings,
        descriptor: &ReportDescriptor,
    ) -> Result<()> {
        let mut text = String::new(rt.alloc());
        for direction in Direction::ALL {
            let reports = descriptor.reports(direction);
            self.show_reports(rt, settings, &mut text, (direction, reports))?;
        }
        flush(rt, &mut text)
    }

    /// Shows reports, those with the same fields once.
    fn show_reports<R: AllocGlobal + Print>(
        &self,
        rt: &R,
        settings: &Settings,
        text: &mut String,
        reports: (Direction, &[RDescReport]),
    ) -> Result<()> {
        let (direction, reports) = reports;
        let same = SameReports::of(rt.alloc(), reports, self.shows_each)?;
        for (place, report) in reports.iter().enumerate() {
            if same.is_first(place) {
                let mut head = String::new(rt.alloc());
                same.add_head(&mut head, direction, reports, place)?;
                add_fitted(text, head.as_str(), settings.width)?;
                self.show_fields(rt, settings, text, report)?;
            }
        }
        Ok(())
    }

    /// Shows the fields of a report, a line for those side by side that are alike but for their
    /// bits, and one for a block that stands again.
    fn show_fields<R: AllocGlobal + Print>(
        &self,
        rt: &R,
        settings: &Settings,
        text: &mut String,
        report: &RDescReport,
    ) -> Result<()> {
        let lines = field_lines(rt.alloc(), report, self.shows_each)?;
        let style = LineStyle::of(settings.is_coloured, settings.width);
        let mut next = 0usize;
        for place in 0..lines.len() {
            if place < next {
                continue;
            }
            let rest = lines.get(place..).unwrap_or(&lines);
            let block = if self.shows_each {
                Block::line()
            } else {
                Block::at(rest)
            };
            let mut shown = String::new(rt.alloc());
            block.add(&mut shown, rest, style)?;
            add_fitted(text, shown.as_str(), settings.width)?;
            flush_piece(rt, text)?;
            next = place.saturating_add(block.len());
        }
        Ok(())
    }
}
