//! Refusals as C has them: a number for each kind.

/// No refusal.
pub(crate) const ACCEPTED: u32 = 0;

/// An item can't be read, or has no meaning where it stands.
pub(crate) const INVALID_DATA: u32 = 1;

/// A report's end or a count passes what can be counted, or a field lies outside the bytes.
pub(crate) const OUT_OF_BOUNDS: u32 = 2;

/// The first byte isn't the id of the report that the field belongs to.
pub(crate) const MISMATCHING_REPORT_ID: u32 = 3;

/// Memory was refused.
pub(crate) const OUT_OF_MEMORY: u32 = 4;

/// More would be listed than the limit.
pub(crate) const BUDGET_EXCEEDED: u32 = 5;

/// An option has a number that says nothing.
pub(crate) const UNKNOWN_OPTION: u32 = 6;

/// A field's bits don't hold a number.
pub(crate) const DOES_NOT_FIT: u32 = 7;

/// There are more or fewer values than a field has.
pub(crate) const WRONG_COUNT: u32 = 8;
