//! What commands may ask of the machine.
use std::rt::{Clock, Env, Files};

/// The machine as commands see it: memory, files, the clock, the environment and the three standard
/// streams.
pub trait World: AllocGlobal + Clock + Env + Files + Clone + Drop + Input + Print + Eprint {}

impl<R: AllocGlobal + Clock + Env + Files + Clone + Drop + Input + Print + Eprint> World for R {}
