//! What is wrong with a descriptor, in words.
use hidreport::ParserError;

/// What a fault is.
pub fn fault_words(fault: &ParserError) -> &str {
    match fault {
        ParserError::InvalidData { message, .. } if message.contains("Invalid item tag") => {
            "a main item that the standard doesn't have"
        }
        ParserError::InvalidData { message, .. } => message.as_str(),
        ParserError::BudgetExceeded { .. } => "more is listed than the limit",
        ParserError::OutOfMemory => "out of memory",
        _ => "a report or a count is too great",
    }
}

/// The offset of the item that a fault is at.
pub fn fault_offset(fault: &ParserError) -> Option<usize> {
    match fault {
        ParserError::InvalidData { offset, .. } => Some(*offset),
        ParserError::BudgetExceeded { offset } => Some(*offset),
        _ => None,
    }
}
