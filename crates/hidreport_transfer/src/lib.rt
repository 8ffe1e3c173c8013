//! Whole inputs and whole texts, over any reader and any writer.
//! Licence: MIT (LICENSE).
#![tactic(auto)]

mod ends;
mod fault;
mod transfer;

pub use ends::{Bounded, Failed, FromRead, Sink, Source, ToWrite};
pub use fault::RunFault;
pub use transfer::{read_to_end, write_all};
