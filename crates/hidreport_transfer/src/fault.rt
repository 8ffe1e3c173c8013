//! What cuts a run short.

/// Why an input isn't read to its end, or a text isn't written whole.
#[derive(Debug, Clone, Copy, PartialEq)]
pub enum RunFault {
    /// A reader failed.
    Read,
    /// The writer failed.
    Write,
    /// Memory ran out.
    OutOfMemory,
}
