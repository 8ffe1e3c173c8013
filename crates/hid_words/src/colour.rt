//! Colours of a terminal's letters.
use std::alloc::AllocError;

/// The colour of a part of a line.
#[derive(Clone, Copy)]
pub enum Colour {
    /// Of main items and collections.
    Cyan,

    /// Of global items.
    Yellow,

    /// Of local items, and of what is new.
    Green,

    /// Of what is no item, and of what is gone.
    Red,

    /// Of padding.
    Faint,
}

impl Colour {
    /// Appends what turns the letters behind it to this colour, where any is shown.
    pub fn begin(self, text: &mut String, is_coloured: bool) -> Result<(), AllocError> {
        if !is_coloured {
            return Ok(());
        }
        text.push_str(match self {
            Colour::Cyan => "\x1b[36m",
            Colour::Yellow => "\x1b[33m",
            Colour::Green => "\x1b[32m",
            Colour::Red => "\x1b[31m",
            Colour::Faint => "\x1b[2m",
        })
    }

    /// Appends what turns them back.
    pub fn end(text: &mut String, is_coloured: bool) -> Result<(), AllocError> {
        if is_coloured {
            return text.push_str("\x1b[0m");
        }
        Ok(())
    }
}
