//! How bad a finding is.

/// How bad a finding is.
#[derive(Clone, Copy, Debug, PartialEq, Eq)]
pub enum Severity {
    /// A standard or a host doesn't allow it.
    Error,
    /// It is likely not what is meant.
    Warning,
    /// It is odd, and may well be meant.
    Note,
}

/// The words of `--fail-on`.
pub static FAIL_WORDS: [&str; 4] = ["error", "warning", "note", "never"];

impl Severity {
    /// Its name.
    pub fn name(self) -> &'static str {
        match self {
            Severity::Error => "error",
            Severity::Warning => "warning",
            Severity::Note => "note",
        }
    }

    /// The least that the status tells by a word of `--fail-on`; none where it tells of none.
    pub fn failing(word: Option<&str>) -> Option<Severity> {
        match word {
            Some("error") => Some(Severity::Error),
            Some("warning") => Some(Severity::Warning),
            Some("never") => None,
            _ => Some(Severity::Note),
        }
    }

    /// Whether it is as bad as another, or worse.
    pub fn is_at_least(self, other: Severity) -> bool {
        other.rank() <= self.rank()
    }

    fn rank(self) -> u8 {
        match self {
            Severity::Error => 2,
            Severity::Warning => 1,
            Severity::Note => 0,
        }
    }
}
