//! The program `hidreport`: its words, its files, its output and its status.
//! Licence: MIT (LICENSE); a port of the Rust crate `hidreport` 0.6.0.
#![tactic(auto)]

use hidreport_program::program::{
    Command, Fault, Outcome, Request, line_of, request_of, run, status_of,
};
use hidreport_transfer::{Bounded, FromRead, RunFault, ToWrite};
use std::process::ExitCode;
use std::rt::{Env, Files};
use std::{env, fs, io};

/// The most bytes that a command with a limit reads of a file: an endless one is a fault. A device
/// tells the length of its descriptor in 16 bits (USB HID 1.11, 6.2.1), so no device's is longer.
const MOST_BYTES: usize = 1 << 20;

fn main(rt: HostRuntime) -> ExitCode {
    let answer = answer(&rt);
    if let Err(fault) = answer {
        let line = line_of(fault);
        // Where the line can't be written either, the status still tells.
        let _ = println!(rt; "{line}");
    }
    ExitCode::from(status_of(answer))
}

/// Does what the words after the program's name ask for.
fn answer<R: AllocGlobal + Env + Files + Print>(rt: &R) -> Result<Outcome, Fault> {
    let words = words_given(rt)?;
    match request_of(&words) {
        Some(request) => carry_out(rt, request),
        None => Err(Fault::Arguments),
    }
}

/// The words after the program's name.
fn words_given<R: AllocGlobal + Env>(rt: &R) -> Result<Vec<String>, Fault> {
    let Ok(given) = env::args(rt) else {
        return Err(Fault::Arguments);
    };
    let mut words = Vec::new(rt.alloc());
    for word in given.skip(1) {
        if words.push(word).is_err() {
            return Err(Fault::Run(RunFault::OutOfMemory));
        }
    }
    Ok(words)
}

/// Opens the files of a request, first FILE, and prints what it asks for.
fn carry_out<R: AllocGlobal + Files + Print>(rt: &R, request: Request) -> Result<Outcome, Fault> {
    let Ok(file) = fs::open(rt, request.file) else {
        return Err(Fault::Open);
    };
    match request.report {
        Some(name) => match fs::open(rt, name) {
            Ok(report) => print(rt, request.command, file, report),
            Err(_refused) => Err(Fault::Open),
        },
        None => print(rt, request.command, file, io::empty()),
    }
}

/// Prints what a command says of a descriptor and a report.
fn print<R, D, P>(rt: &R, command: Command, descriptor: D, report: P) -> Result<Outcome, Fault>
where
    R: AllocGlobal + Print,
    D: io::Read + Drop,
    P: io::Read + Drop,
{
    let most = if command.has_limit() {
        MOST_BYTES
    } else {
        usize::MAX
    };
    let mut descriptor = Bounded::new(FromRead::new(descriptor), most);
    let mut report = Bounded::new(FromRead::new(report), most);
    let mut out = ToWrite::new(io::writer(rt));
    run(rt.alloc(), command, &mut descriptor, &mut report, &mut out).map_err(Fault::Run)
}
