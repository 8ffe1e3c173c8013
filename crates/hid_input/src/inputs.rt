//! The inputs of commands that show reports.
use hidreport::Direction;

/// A descriptor's input, and those of reports.
#[derive(Drop)]
pub struct Inputs<'a> {
    /// The descriptor's input.
    pub file: &'a str,
    /// The reports' inputs; none where the descriptor's has them.
    pub reports: Vec<&'a str>,
    /// Which way the reports go.
    pub direction: Direction,
}
