//! The ids of several reports: those that count up by their ends.
use std::alloc::AllocError;
use std::fmt::Write;

/// Ids on their way into a text.
#[derive(Drop)]
pub struct IdRuns {
    /// The ends of those that count up and aren't written yet.
    run: Option<(u8, u8)>,
    /// What stands before the next.
    gap: &'static str,
}

impl IdRuns {
    /// No ids.
    pub fn new() -> IdRuns {
        IdRuns {
            run: None,
            gap: " ",
        }
    }

    /// Takes an id; appends those before it that it doesn't go on.
    pub fn add(&mut self, text: &mut String, id: u8) -> Result<(), AllocError> {
        match self.run {
            Some((first, last)) if last.checked_add(1) == Some(id) => {
                self.run = Some((first, id));
                Ok(())
            }
            _ => {
                self.end(text)?;
                self.run = Some((id, id));
                Ok(())
            }
        }
    }

    /// Appends the ids that aren't written yet.
    pub fn end(&mut self, text: &mut String) -> Result<(), AllocError> {
        let Some((first, last)) = self.run else {
            return Ok(());
        };
        let gap = self.gap;
        self.gap = ", ";
        match last.saturating_sub(first) {
            0 => write!(text, "{gap}{first}"),
            1 => write!(text, "{gap}{first}, {last}"),
            _ => write!(text, "{gap}{first} to {last}"),
        }
    }
}
