//! A page as it is written: pieces of HTML, and blocks of JSON.
use crate::left_out::{LeftOut, Most};
use anyhow::Result;
use hid_output::flush_piece;
use hid_output::html::{add_html, add_json_in_html};
use std::alloc::{AllocError, Global};
use std::fmt::Write;

/// What is gathered of a page.
#[derive(Drop)]
pub struct Sheet {
    /// Its text.
    pub text: String,
    /// Lines of JSON that are taken into it next.
    pub lines: String,
    /// What isn't put into it.
    pub left_out: LeftOut,
    /// Whether the block has no line yet.
    is_empty: bool,
}

impl Sheet {
    /// Before the first letter, with so much at most.
    pub fn new(alloc: Global, most: Most) -> Sheet {
        Sheet {
            text: String::new(alloc),
            lines: String::new(alloc),
            left_out: LeftOut::new(most),
            is_empty: true,
        }
    }

    /// Begins a block of JSON, an array of its lines.
    pub fn begin(&mut self, id: &str) -> Result<(), AllocError> {
        self.is_empty = true;
        write!(self.text, "<script type=\"application/json\" id=\"{id}\">[")
    }

    /// Takes the lines of JSON into the block, and writes what is enough for a piece.
    pub fn take<R: Print>(&mut self, rt: &R) -> Result<()> {
        let mut is_empty = self.is_empty;
        for line in self.lines.lines() {
            self.text.push_str(if is_empty { "\n" } else { ",\n" })?;
            add_json_in_html(&mut self.text, line)?;
            is_empty = false;
        }
        self.is_empty = is_empty;
        self.lines.clear();
        flush_piece(rt, &mut self.text)
    }

    /// Takes the lines into the text, as words.
    pub fn take_words(&mut self) -> Result<(), AllocError> {
        add_html(&mut self.text, self.lines.as_str())?;
        self.lines.clear();
        Ok(())
    }

    /// Adds blocks that have no line.
    pub fn add_empty(&mut self, ids: &[&str]) -> Result<(), AllocError> {
        for id in ids {
            self.begin(id)?;
            self.end()?;
        }
        Ok(())
    }

    /// Ends the block.
    pub fn end(&mut self) -> Result<(), AllocError> {
        self.text.push_str("\n]</script>\n")
    }
}
