//! The program `hid`: report descriptors and reports as people read them. Its status is how its command
//! ended.
//! Licence: MIT (LICENSE).
#![tactic(auto)]

use hid_commands::run;
use std::io;
use std::io::IsTerminal;
use std::process::ExitCode;

fn main(rt: HostRuntime) -> io::Result<ExitCode> {
    let is_terminal = rt.stdout().is_terminal();
    Ok(ExitCode::from(run(&rt, is_terminal).status()))
}
