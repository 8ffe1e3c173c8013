//! How a run of the program ends.

/// What a run wrote.
#[derive(Debug, Clone, Copy, PartialEq)]
pub enum Outcome {
    /// The command's text.
    Done,
    /// One line that says why the input was refused.
    Refused,
}
