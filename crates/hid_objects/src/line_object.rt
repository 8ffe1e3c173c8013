//! The lines of a report's fields as JSON: the report, the collections that open, and the fields.
use anyhow::Result;
use hid_output::add_json;
use hid_report::{FieldLine, add_title};
use hid_words::{add_collection, add_how, add_name_on_page, word_of};
use hidreport::{Collection, Direction, Field, RDescReport, Report};
use serde::Serialize;

/// A report.
#[derive(Drop, Serialize)]
struct ReportObject {
    direction: &'static str,
    report: Option<u8>,
    title: String,
    bits: usize,
    bytes: usize,
}

/// A collection that opens.
#[derive(Drop, Serialize)]
struct OpeningObject {
    depth: usize,
    collection: String,
}

/// A field in short.
#[derive(Drop, Serialize)]
struct FieldLineObject {
    depth: usize,
    start: usize,
    end: usize,
    name: String,
    how: String,
}

/// Appends a report as a line of JSON.
pub fn add_report_object(
    text: &mut String,
    direction: Direction,
    report: &RDescReport,
) -> Result<()> {
    let mut title = String::new(*text.allocator());
    add_title(&mut title, direction, report)?;
    let object = ReportObject {
        direction: word_of(direction),
        report: report.report_id().map(u8::from),
        title,
        bits: report.size_in_bits(),
        bytes: report.size_in_bytes(),
    };
    add_json(text, &object)
}

/// Appends a line of a report's fields, each of which has its own, as a line of JSON.
pub fn add_line_object(text: &mut String, line: FieldLine) -> Result<()> {
    match line {
        FieldLine::Opens(depth, collection) => add_opening(text, depth, collection),
        FieldLine::Fields(depth, fields) => add_field(text, depth, fields.first),
    }
}

fn add_opening(text: &mut String, depth: usize, opened: &Collection) -> Result<()> {
    let mut collection = String::new(*text.allocator());
    add_collection(&mut collection, opened)?;
    add_json(text, &OpeningObject { depth, collection })
}

fn add_field(text: &mut String, depth: usize, field: &Field) -> Result<()> {
    let mut name = String::new(*text.allocator());
    add_name_on_page(&mut name, field)?;
    let mut how = String::new(*text.allocator());
    add_how(&mut how, field)?;
    let object = FieldLineObject {
        depth,
        start: field.bits().start,
        end: field.bits().end,
        name,
        how,
    };
    add_json(text, &object)
}
