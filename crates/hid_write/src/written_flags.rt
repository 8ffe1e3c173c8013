//! The flags of a data item as the standard writes them: `Data, Variable, Absolute`.

/// The words for each flag that isn't set and is, from the lowest bit on (Section 6.2.2.5).
static WORDS: [(&str, &str); 9] = [
    ("data", "constant"),
    ("array", "variable"),
    ("absolute", "relative"),
    ("no wrap", "wrap"),
    ("linear", "non linear"),
    ("preferred state", "no preferred"),
    ("no null position", "null state"),
    ("non volatile", "volatile"),
    ("bit field", "buffered bytes"),
];

/// The number of the flags that words with commas between them say, each at most once; those that
/// none says aren't set. None where a word says no flag.
pub fn flags_said(words: &str) -> Option<u32> {
    let (mut flags, mut said) = (0u32, 0u32);
    for word in words.split(",") {
        let (bit, is_set) = flag_said(word.trim())?;
        if said & bit != 0 {
            return None;
        }
        said |= bit;
        if is_set {
            flags |= bit;
        }
    }
    Some(flags)
}

/// The bit of the flag that a word says, and whether it says that it is set.
fn flag_said(word: &str) -> Option<(u32, bool)> {
    let mut bit = 1u32;
    for (unset, set) in &WORDS {
        if word.eq_ignore_ascii_case(unset) {
            return Some((bit, false));
        }
        if word.eq_ignore_ascii_case(set) {
            return Some((bit, true));
        }
        bit <<= 1;
    }
    None
}
