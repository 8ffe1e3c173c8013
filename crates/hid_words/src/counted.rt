//! Nouns that are counted.

/// What stands behind a noun of which there are so many.
pub fn plural(count: usize) -> &'static str {
    if count == 1 { "" } else { "s" }
}
