//! The limit of a budget, as a word writes it.
ghost use Rattle.std.specs.Prelude.{ℕ, IfSome, IsNone};
ghost use Rattle.hidreport_program.specs.Command.{IsLimit};

/// The number that a word of one or more ASCII digits writes, with any number of leading zeros.
///
/// Answers `None` for all other words, also with a sign, and for a number past `usize::MAX`.
pub(super) fn limit_of(word: &str) -> Option<usize>
    ensures number { IfSome result (IsLimit word.now) }
    ensures none { IsNone result → (limit : ℕ) → ¬ IsLimit word.now limit }
{
    if word.as_bytes().first() == Some(&b'+') {
        return None;
    }
    word.parse::<usize>().ok()
}
