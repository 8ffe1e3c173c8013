//! The bits of a report as rows of cells, a row for each byte.
use hid_words::add_name_on_page;
use hidreport::{Field, RDescReport, Report};
use std::alloc::{AllocError, Global};

/// Bits of one byte that belong together.
#[derive(Drop)]
pub struct Cell {
    /// What they are of, or no text.
    pub name: String,
    /// How many they are.
    pub bits: usize,
}

/// The cells of a byte, bit 7 first, or of several bytes that lie in one field.
#[derive(Drop)]
pub struct Row {
    /// The first byte.
    pub first: usize,
    /// The last byte.
    pub last: usize,
    /// The cells, of eight bits together.
    pub cells: Vec<Cell>,
}

impl Row {
    /// The number of the row's byte, or of the first and the last.
    pub fn bytes(&self, alloc: Global) -> Result<String, AllocError> {
        let (first, last) = (self.first, self.last);
        if first == last {
            format!(in alloc; "{first}")
        } else {
            format!(in alloc; "{first}-{last}")
        }
    }
}

/// What is said where so many rows are left out.
pub fn more_rows(alloc: Global, count: usize) -> Result<String, AllocError> {
    let (rows, them) = if count == 1 {
        ("row", "it")
    } else {
        ("rows", "them")
    };
    format!(in alloc; "{count} more {rows}: --all shows {them}")
}

/// The rows so far.
#[derive(Drop)]
struct Rows {
    alloc: Global,
    rows: Vec<Row>,
    /// The cells of the byte that isn't full, bit 0 first, and how many bits they have.
    cells: Vec<Cell>,
    bits: usize,
    /// The number of that byte.
    byte: usize,
    most: usize,
    left_out: usize,
}

/// The first rows of a report, and how many more there are.
pub fn rows_of(
    alloc: Global,
    report: &RDescReport,
    most: usize,
) -> Result<(Vec<Row>, usize), AllocError> {
    let mut rows = Rows {
        alloc,
        rows: Vec::new(alloc),
        cells: Vec::new(alloc),
        bits: 0,
        byte: 0,
        most,
        left_out: 0,
    };
    if report.report_id().is_some() {
        rows.add_bytes(String::from_str(alloc, "report ID")?, 1)?;
    }
    for field in report.fields() {
        let bits = field.bits().len();
        rows.add(field, bits)?;
    }
    rows.end()?;
    Ok((rows.rows, rows.left_out))
}

impl Rows {
    /// Adds the bits of a field: what the byte at hand has room for, whole bytes, and the rest.
    fn add(&mut self, field: &Field, bits: usize) -> Result<(), AllocError> {
        let mut left = bits;
        if self.bits != 0 {
            let front = left.min(8usize.saturating_sub(self.bits));
            self.add_bits(self.name_of(field)?, front)?;
            left = left.saturating_sub(front);
        }
        if 8 <= left {
            self.add_bytes(self.name_of(field)?, left / 8)?;
            left %= 8;
        }
        if left == 0 {
            return Ok(());
        }
        self.add_bits(self.name_of(field)?, left)
    }

    /// What stands in a field's cells; nothing where they aren't shown.
    fn name_of(&self, field: &Field) -> Result<String, AllocError> {
        let mut name = String::new(self.alloc);
        if self.rows.len() < self.most {
            add_name_on_page(&mut name, field)?;
        }
        Ok(name)
    }

    /// Adds bits of the byte at hand.
    fn add_bits(&mut self, name: String, bits: usize) -> Result<(), AllocError> {
        self.cells.push(Cell { name, bits })?;
        self.bits = self.bits.saturating_add(bits);
        if self.bits < 8 {
            return Ok(());
        }
        self.close()
    }

    /// Adds whole bytes.
    fn add_bytes(&mut self, name: String, count: usize) -> Result<(), AllocError> {
        let first = self.byte;
        let behind = first.saturating_add(count);
        self.byte = behind;
        let mut cells = Vec::new(self.alloc);
        cells.push(Cell { name, bits: 8 })?;
        self.add_row(Row {
            first,
            last: behind.saturating_sub(1),
            cells,
        })
    }

    /// Ends the byte at hand.
    fn close(&mut self) -> Result<(), AllocError> {
        let mut cells = std::mem::replace(&mut self.cells, Vec::new(self.alloc));
        cells.reverse();
        let byte = self.byte;
        self.byte = byte.saturating_add(1);
        self.bits = 0;
        self.add_row(Row {
            first: byte,
            last: byte,
            cells,
        })
    }

    fn add_row(&mut self, row: Row) -> Result<(), AllocError> {
        if self.rows.len() < self.most {
            return Ok(self.rows.push(row)?);
        }
        self.left_out = self.left_out.saturating_add(1);
        Ok(())
    }

    /// Fills the last byte.
    fn end(&mut self) -> Result<(), AllocError> {
        if self.bits == 0 {
            return Ok(());
        }
        let bits = 8usize.saturating_sub(self.bits);
        self.add_bits(String::new(self.alloc), bits)
    }
}
