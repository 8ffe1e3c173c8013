//! Remarks of C in lines: behind `//`, or between `/*` and `*/` over several lines.
use crate::unknown::shortened;
use anyhow::{Result, ensure};
use std::alloc::AllocError;
use std::mem;

/// Whether a remark goes on behind the lines so far.
#[derive(Clone, Copy)]
pub struct Remarks {
    is_inside: bool,
    /// Whether the line before ends in a remark behind `//` and `\`: in C this goes on.
    may_go_on: bool,
    /// Whether one begins at `#`, too.
    has_hash: bool,
}

impl Remarks {
    /// Before the first line of source.
    pub fn of_source() -> Remarks {
        Remarks {
            is_inside: false,
            may_go_on: false,
            has_hash: false,
        }
    }

    /// Before the first line of hex text, in which remarks may stand behind `#`, too.
    pub fn of_hex_text() -> Remarks {
        Remarks {
            is_inside: false,
            may_go_on: false,
            has_hash: true,
        }
    }

    /// Whether a remark has no end yet.
    pub fn is_inside(self) -> bool {
        self.is_inside
    }

    /// Whether the next line has a part of a remark that may go on over lines.
    pub fn may_be_in(self, line: &str) -> bool {
        self.is_inside || line.contains("/*") || line.contains("//") && ends_spliced(line)
    }

    /// Refuses the next line where C has it in a remark behind `//`, and other languages don't.
    ///
    /// # Errors
    ///
    /// - it says something, and the remark before it ends in `\`.
    pub fn check_next(&mut self, line: &str) -> Result<()> {
        let may_go_on = mem::replace(&mut self.may_go_on, false);
        let text = line.trim();
        ensure!(
            !may_go_on || text.is_empty() || text.starts_with("//"),
            "may be of the remark before it, as in C: {}",
            shortened(text)
        );
        Ok(())
    }

    /// Appends what of the next line is in no remark, with a space for each that ends in it.
    pub fn add_code(&mut self, code: &mut String, line: &str) -> Result<(), AllocError> {
        let mut last = ' ';
        for letter in line.chars() {
            if self.is_inside {
                if last == '*' && letter == '/' {
                    self.is_inside = false;
                    code.push(' ')?;
                    last = ' ';
                    continue;
                }
            } else if last == '/' && letter == '/' {
                code.pop();
                self.may_go_on = ends_spliced(line);
                return Ok(());
            } else if last == '/' && letter == '*' {
                code.pop();
                self.is_inside = true;
                last = ' ';
                continue;
            } else if self.has_hash && letter == '#' {
                return Ok(());
            } else {
                code.push(letter)?;
            }
            last = letter;
        }
        Ok(())
    }
}

/// Whether C goes on with a line in the next: it ends in `\`, for compilers also before spaces.
fn ends_spliced(line: &str) -> bool {
    line.trim_end().ends_with("\\")
}
