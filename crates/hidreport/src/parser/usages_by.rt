//! The rules by which usages are found.

/// By which rule an item finds its usages among the local items before it (Section 6.2.2.8).
#[derive(Clone, Copy, Debug, PartialEq, Eq)]
pub enum UsagesBy {
    /// By the letter of the standard, as the Rust crate has it: a usage without a page of its own
    /// lies on the page in force at the main item, and a minimum hides single usages.
    Standard,

    /// As hosts read them: all that local items name, in their order, a usage mostly on the page in
    /// force where it stands; sets of alternatives behind the first are left out.
    Hosts,
}
