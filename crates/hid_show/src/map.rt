//! `hid map`: the bits of each report, a row for each byte, bit 7 on the left.
use anyhow::Result;
use hid_input::parsing::descriptor_by;
use hid_input::settings::Settings;
use hid_input::world::World;
use hid_output::ending::Ending;
use hid_output::{flush, flush_piece, show};
use hid_report::{Cell, Picture, Row, add_title, height_of, more_rows, rows_of};
use hid_words::{add_spaces, shortened};
use hidreport::{Direction, RDescReport, ReportDescriptor};
use std::alloc::{AllocError, Global};
use std::fmt::Write;
use unicode_width::UnicodeWidthStr;

/// How many columns a bit has where there is room.
const WIDTH: usize = 10;

/// How many columns stand before the bits at least.
const FRONT: usize = 9;

/// The rows that are shown where not all are asked for.
const MOST_ROWS: usize = 4_096;

/// Draws the bits of each report.
#[derive(Clone, Copy)]
pub struct Map<'a> {
    /// The descriptor's input.
    pub file: &'a str,
    /// Whether the picture is SVG.
    pub is_svg: bool,
    /// Whether all rows are drawn.
    pub shows_all: bool,
}

impl<'a> Map<'a> {
    /// Draws the pictures of all reports.
    pub fn run<R: World>(&self, rt: &R, settings: &Settings) -> Result<Ending> {
        let descriptor = descriptor_by(rt, settings, self.file)?;
        let most = if self.shows_all {
            usize::MAX
        } else {
            MOST_ROWS
        };
        if self.is_svg {
            show_svg(rt, &descriptor, most)?;
        } else {
            show_rows(rt, settings, &descriptor, most)?;
        }
        Ok(Ending::Done)
    }
}

fn show_svg<R: AllocGlobal + Print>(
    rt: &R,
    descriptor: &ReportDescriptor,
    most: usize,
) -> Result<()> {
    let mut total = 0usize;
    for direction in Direction::ALL {
        for report in descriptor.reports(direction) {
            total = total.saturating_add(height_of(rt.alloc(), report, most)?);
        }
    }
    let mut picture = Picture::new(rt.alloc(), most, total);
    for direction in Direction::ALL {
        for report in descriptor.reports(direction) {
            picture.add(direction, report)?;
        }
    }
    show(rt, picture.svg()?.as_str())
}

fn show_rows<R: AllocGlobal + Print>(
    rt: &R,
    settings: &Settings,
    descriptor: &ReportDescriptor,
    most: usize,
) -> Result<()> {
    let mut text = String::new(rt.alloc());
    let mut most = most;
    for direction in Direction::ALL {
        for report in descriptor.reports(direction) {
            add_title(&mut text, direction, report)?;
            most = add_report(&mut text, settings.width, report, most)?;
            flush_piece(rt, &mut text)?;
        }
    }
    flush(rt, &mut text)
}

/// Appends the picture of a report in no more columns than these, and answers how many rows may
/// follow.
fn add_report(
    text: &mut String,
    columns: Option<usize>,
    report: &RDescReport,
    most: usize,
) -> Result<usize, AllocError> {
    let alloc = *text.allocator();
    let (rows, left_out) = rows_of(alloc, report, most)?;
    let front = front_of(alloc, &rows)?;
    let width = width_of(columns, front);
    text.push_str("\n")?;
    add_spaces(
        text,
        front.saturating_add(2).saturating_sub(width - width / 2),
    )?;
    for bit in 0..8u8 {
        let bit = 7 - bit;
        add_spaces(text, width)?;
        write!(text, "{bit}")?;
    }
    text.push_str("\n")?;
    for row in rows.iter() {
        add_row(text, row, front, width)?;
    }
    if left_out != 0 {
        let said = more_rows(alloc, left_out)?;
        writeln!(text, "{said}")?;
    }
    Ok(most.saturating_sub(rows.len()))
}

/// How many columns the numbers of bytes have: those of the widest.
fn front_of(alloc: Global, rows: &[Row]) -> Result<usize, AllocError> {
    let mut front = FRONT;
    for row in rows {
        front = front.max(row.bytes(alloc)?.len());
    }
    Ok(front)
}

/// How many columns a bit has, behind so many before all bits and a line before each.
fn width_of(columns: Option<usize>, front: usize) -> usize {
    match columns {
        Some(columns) => {
            let each = columns.saturating_sub(front).saturating_sub(2) / 8;
            each.saturating_sub(1).clamp(1, WIDTH)
        }
        None => WIDTH,
    }
}

/// Appends a row, its bytes before it.
fn add_row(text: &mut String, row: &Row, front: usize, width: usize) -> Result<(), AllocError> {
    let bytes = row.bytes(*text.allocator())?;
    add_spaces(text, front.saturating_sub(bytes.len()))?;
    write!(text, "{bytes} |")?;
    for cell in row.cells.iter() {
        add_cell(text, cell, width)?;
    }
    text.push_str("\n")
}

/// Appends a cell, its text in the middle.
fn add_cell(text: &mut String, cell: &Cell, width: usize) -> Result<(), AllocError> {
    let width = cell
        .bits
        .saturating_mul(width.saturating_add(1))
        .saturating_sub(1);
    let shown = shortened(*text.allocator(), &cell.name, width)?;
    let gap = width.saturating_sub(shown.as_str().width());
    add_spaces(text, gap / 2)?;
    text.push_str(&shown)?;
    add_spaces(text, gap - gap / 2)?;
    text.push_str("|")
}
