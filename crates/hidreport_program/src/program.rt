//! What the program does, over any readers and any writer.

pub mod commands;
pub mod ending;
pub mod faults;
mod fields;
mod items;
mod limits;
mod numbers;
mod output;
pub mod requests;
pub mod running;

pub use commands::{Command, command_of};
pub use ending::Outcome;
pub use faults::{Fault, line_of, status_of};
pub use hidreport_transfer::{Failed, FromRead, RunFault, Sink, Source, ToWrite};
pub use requests::{Request, request_of};
pub use running::run;
