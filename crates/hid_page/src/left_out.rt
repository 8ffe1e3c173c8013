//! What isn't put into a page, and what is said of it.
use crate::sheet::Sheet;
use anyhow::Result;
use hid_given::Given;
use hid_input::settings::Settings;
use hid_output::add_json;
use serde::Serialize;

/// How much is put into a page at most.
#[derive(Clone, Copy)]
pub struct Most {
    /// How many items.
    pub items: usize,
    /// How many fields.
    pub fields: usize,
    /// How many reports.
    pub reports: usize,
    /// How many values of them together.
    pub values: usize,
}

impl Most {
    /// What a browser shows at once.
    pub fn usual() -> Most {
        Most {
            items: 4_096,
            fields: 2_000,
            reports: 4_000,
            values: 200_000,
        }
    }

    /// All there is.
    pub fn all() -> Most {
        Most {
            items: usize::MAX,
            fields: usize::MAX,
            reports: usize::MAX,
            values: usize::MAX,
        }
    }
}

/// What isn't put into a page.
#[derive(Drop)]
pub struct LeftOut {
    /// How much is put into it at most.
    pub most: Most,
    /// How many bytes of items are left out.
    pub bytes: usize,
    /// How many fields.
    pub fields: usize,
    /// How many reports.
    pub reports: usize,
    /// How many reports aren't of the descriptor.
    pub unknown: usize,
    /// How many reports have fewer bytes than they should.
    pub short: usize,
    /// How many have more.
    pub long: usize,
}

/// What is said below a page's head, as JSON.
#[derive(Drop, Serialize)]
struct NoteObject<'a> {
    note: &'a str,
}

impl LeftOut {
    /// Nothing.
    pub fn new(most: Most) -> LeftOut {
        LeftOut {
            most,
            bytes: 0,
            fields: 0,
            reports: 0,
            unknown: 0,
            short: 0,
            long: 0,
        }
    }

    /// Takes a report with so many values, of so many bytes that it should have.
    pub fn take(&mut self, values: usize, wanted: usize, bytes: usize) {
        self.most.reports = self.most.reports.saturating_sub(1);
        self.most.values = self.most.values.saturating_sub(values);
        if bytes < wanted {
            self.short = self.short.saturating_add(1);
        } else if wanted < bytes {
            self.long = self.long.saturating_add(1);
        }
    }

    /// What is said, each behind a number: of one, and of several.
    fn counts(&self) -> [(usize, &'static str, &'static str); 6] {
        [
            (
                self.bytes,
                "more byte of items: --all puts it into the page",
                "more bytes of items: --all puts them into the page",
            ),
            (
                self.fields,
                "more field: --all puts it into the page",
                "more fields: --all puts them into the page",
            ),
            (
                self.reports,
                "more report: --all puts it into the page",
                "more reports: --all puts them into the page",
            ),
            (
                self.unknown,
                "report isn't of this descriptor",
                "reports aren't of this descriptor",
            ),
            (
                self.short,
                "report has fewer bytes than the descriptor says; what is missing isn't shown",
                "reports have fewer bytes than the descriptor says; what is missing isn't shown",
            ),
            (
                self.long,
                "report has more bytes than the descriptor says; what no field has isn't shown",
                "reports have more bytes than the descriptor says; what no field has isn't shown",
            ),
        ]
    }
}

/// Writes the block of what is said in the page, and says it on standard error, too, unless nothing
/// is to be said there.
pub fn show_notes<R: AllocGlobal + Print + Eprint>(
    rt: &R,
    settings: &Settings,
    given: &Given,
    sheet: &mut Sheet,
) -> Result<()> {
    sheet.begin("notes")?;
    for note in given.notes.iter() {
        add_note(sheet, note.as_str())?;
    }
    for (count, one, words) in sheet.left_out.counts() {
        match count {
            0 => {}
            1 => show_count(rt, settings, sheet, count, one)?,
            _ => show_count(rt, settings, sheet, count, words)?,
        }
    }
    sheet.take(rt)?;
    Ok(sheet.end()?)
}

fn add_note(sheet: &mut Sheet, note: &str) -> Result<()> {
    add_json(&mut sheet.lines, &NoteObject { note })
}

/// Adds the note of so many, and says it.
fn show_count<R: AllocGlobal + Eprint>(
    rt: &R,
    settings: &Settings,
    sheet: &mut Sheet,
    count: usize,
    words: &str,
) -> Result<()> {
    let note = format!(in rt.alloc(); "{count} {words}")?;
    add_note(sheet, note.as_str())?;
    if settings.has_notes() {
        eprintln!(rt; "hid: {note}")?;
    }
    Ok(())
}
