//! What inputs are read with.
use std::rt::Files;

/// What reads inputs: memory, files, the standard input, and standard error for what is said of them.
pub trait Reads: AllocGlobal + Files + Clone + Drop + Input + Eprint {}

impl<R: AllocGlobal + Files + Clone + Drop + Input + Eprint> Reads for R {}
