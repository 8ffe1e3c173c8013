//! The flags of a field, and their words.
use hidreport::FieldAttributes;

/// How many flags a field has.
pub const FLAGS: usize = 7;

/// The words of the flags, and what stands for one that isn't set.
pub static FLAG_WORDS: [(&str, &str); FLAGS] = [
    ("relative", "absolute"),
    ("wraps", "no wrap"),
    ("nonlinear", "linear"),
    ("no preferred state", "preferred state"),
    ("null state", "no null state"),
    ("volatile", "not volatile"),
    ("buffered bytes", "bit field"),
];

/// The flags that a field has.
pub fn flags_of<F: FieldAttributes>(field: &F) -> [bool; FLAGS] {
    [
        field.is_relative(),
        field.wraps(),
        field.is_nonlinear(),
        field.has_no_preferred_state(),
        field.has_null_state(),
        field.is_volatile() == Some(true),
        field.is_buffered_bytes(),
    ]
}
