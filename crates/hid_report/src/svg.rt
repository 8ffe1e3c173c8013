//! The bits of reports as a picture.
use crate::add_title;
use crate::rows::{Cell, Row, more_rows, rows_of};
use hid_words::{CUT, shortened};
use hidreport::{Direction, RDescReport};
use std::alloc::{AllocError, Global};
use std::fmt::Write;

/// How wide a bit is, how high a row, and how wide what stands before the rows, in pixels.
const BIT: usize = 88;

const ROW: usize = 24;

const LEFT: usize = 72;

/// How wide a column of reports is, and how high where another one may stand beside it.
const COLUMN: usize = LEFT + BIT * 8 + 4;

const HIGH: usize = 1_500;

const MOST_COLUMNS: usize = 32;

/// What is said of the marks.
const LEGEND: &str = "-: padding; \u{2026}: a name that is cut";

/// The pictures of reports, below each other, and beside each other where they are many.
#[derive(Drop)]
pub struct Picture {
    alloc: Global,
    body: String,
    /// Where the next report begins in its column.
    top: usize,
    height: usize,
    columns: usize,
    /// How high a column is at least before another one begins.
    high: usize,
    has_marks: bool,
    /// How many rows may still be drawn.
    rows: usize,
}

/// How high the picture of a report is, of which so many rows may be drawn.
pub fn height_of(alloc: Global, report: &RDescReport, most: usize) -> Result<usize, AllocError> {
    let (_none, rows) = rows_of(alloc, report, 0)?;
    Ok(height_with(rows.min(most)))
}

/// How high a report of so many rows is, with its title and the numbers of the bits.
fn height_with(rows: usize) -> usize {
    rows.saturating_add(3).saturating_mul(ROW)
}

/// How high columns are, so that reports of this height below each other make no picture that is
/// much higher than wide.
fn column_height(total: usize) -> usize {
    for columns in 1..MOST_COLUMNS {
        let own = total / columns;
        if own <= HIGH.max(columns * COLUMN) {
            return own.max(HIGH);
        }
    }
    total / MOST_COLUMNS
}

impl Picture {
    /// Before the first report, with so many rows at most, of reports that are together so high.
    pub fn new(alloc: Global, rows: usize, total: usize) -> Picture {
        Picture {
            alloc,
            body: String::new(alloc),
            top: 0,
            height: 0,
            columns: 1,
            high: column_height(total),
            has_marks: false,
            rows,
        }
    }

    /// Draws a report below those before it, or at the top of a column more.
    pub fn add(&mut self, direction: Direction, report: &RDescReport) -> Result<(), AllocError> {
        let (rows, left_out) = rows_of(self.alloc, report, self.rows)?;
        let own = height_with(rows.len());
        if self.top != 0 && self.top.saturating_add(own) > self.high {
            self.begin_column()?;
        }
        self.add_head(direction, report)?;
        for row in rows.iter() {
            self.add_row(row)?;
        }
        self.rows = self.rows.saturating_sub(rows.len());
        if left_out != 0 {
            let said = more_rows(self.alloc, left_out)?;
            add_text(&mut self.body, LEFT, self.top, "start", &said)?;
            self.go_down(ROW);
        }
        self.go_down(ROW / 2);
        Ok(())
    }

    /// Goes on at the top of a column beside those before it.
    fn begin_column(&mut self) -> Result<(), AllocError> {
        let left = self.columns.saturating_mul(COLUMN);
        self.columns = self.columns.saturating_add(1);
        self.top = 0;
        writeln!(self.body, "</g>\n<g transform=\"translate({left})\">")
    }

    /// Goes on so many pixels further down.
    fn go_down(&mut self, pixels: usize) {
        self.top = self.top.saturating_add(pixels);
        self.height = self.height.max(self.top);
    }

    /// The picture, on white ground.
    pub fn svg(&self) -> Result<String, AllocError> {
        let (body, columns) = (&self.body, self.columns);
        let mut legend = String::new(self.alloc);
        let mut height = self.height;
        if self.has_marks {
            add_text(&mut legend, LEFT, height, "start", LEGEND)?;
            height = height.saturating_add(ROW);
        }
        let width = columns.saturating_mul(COLUMN);
        format!(in self.alloc;
            "<svg xmlns=\"http://www.w3.org/2000/svg\" width=\"{width}\" height=\"{height}\" \
            font-family=\"sans-serif\" font-size=\"12\">\n\
            <rect width=\"{width}\" height=\"{height}\" fill=\"white\"/>\n\
            <g>\n{body}</g>\n{legend}</svg>\n"
        )
    }

    /// Appends what a report is called, and below it the numbers of the bits.
    fn add_head(&mut self, direction: Direction, report: &RDescReport) -> Result<(), AllocError> {
        let mut title = String::new(self.alloc);
        add_title(&mut title, direction, report)?;
        add_text(&mut self.body, 4, self.top, "start", &title)?;
        self.go_down(ROW);
        for place in 0..8usize {
            let middle = LEFT + BIT / 2 + BIT * place;
            let bit = format!(in self.alloc; "{}", 7 - place)?;
            add_text(&mut self.body, middle, self.top, "middle", &bit)?;
        }
        self.go_down(ROW);
        Ok(())
    }

    /// Appends a row of cells, its bytes before it.
    fn add_row(&mut self, row: &Row) -> Result<(), AllocError> {
        let bytes = row.bytes(self.alloc)?;
        add_text(&mut self.body, LEFT - 8, self.top, "end", &bytes)?;
        let mut left = LEFT;
        for cell in row.cells.iter() {
            let width = cell.bits.saturating_mul(BIT);
            self.add_cell(cell, left, width)?;
            left = left.saturating_add(width);
        }
        self.go_down(ROW);
        Ok(())
    }

    /// Appends a cell, its text in the middle.
    fn add_cell(&mut self, cell: &Cell, left: usize, width: usize) -> Result<(), AllocError> {
        let is_padding = cell.name.as_str() == "-";
        let fill = if is_padding { "#eeeeee" } else { "white" };
        let top = self.top;
        writeln!(
            self.body,
            "<rect x=\"{left}\" y=\"{top}\" width=\"{width}\" height=\"{ROW}\" fill=\"{fill}\" \
            stroke=\"black\"/>"
        )?;
        let shown = shortened(self.alloc, &cell.name, width / 7)?;
        self.has_marks = self.has_marks || is_padding || shown.as_str().ends_with(CUT);
        let middle = left.saturating_add(width / 2);
        add_text(&mut self.body, middle, top, "middle", &shown)
    }
}

/// Appends a text in a row; what a name can have that means something else is written so.
fn add_text(
    body: &mut String,
    x: usize,
    top: usize,
    anchor: &str,
    text: &str,
) -> Result<(), AllocError> {
    let y = top.saturating_add(16);
    write!(body, "<text x=\"{x}\" y=\"{y}\" text-anchor=\"{anchor}\">")?;
    for letter in text.chars() {
        match letter {
            '&' => body.push_str("&amp;")?,
            '<' => body.push_str("&lt;")?,
            '>' => body.push_str("&gt;")?,
            letter => body.push(letter)?,
        }
    }
    body.push_str("</text>\n")
}
