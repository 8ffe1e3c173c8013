//! The three directions of reports, by their names.
use hidreport::Direction;

/// The direction with this name.
pub fn direction_named(name: &str) -> Option<Direction> {
    match name {
        "input" => Some(Direction::Input),
        "output" => Some(Direction::Output),
        "feature" => Some(Direction::Feature),
        _ => None,
    }
}

/// A direction's name.
pub fn word_of(direction: Direction) -> &'static str {
    match direction {
        Direction::Input => "input",
        Direction::Output => "output",
        Direction::Feature => "feature",
    }
}

/// What a report of a direction is called at the front of a line.
pub fn title_of(direction: Direction) -> &'static str {
    match direction {
        Direction::Input => "Input report",
        Direction::Output => "Output report",
        Direction::Feature => "Feature report",
    }
}
