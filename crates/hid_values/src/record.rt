//! `hid record`: the reports of a stream, each in a line as it comes.
use crate::choosing::chosen_node;
use crate::recording::{Asked, Recording, Shown};
use anyhow::{Context, Result, bail, ensure};
use hid_input::input::{Stream, descriptors_named, is_node, node_named};
use hid_input::parsing::all_read;
use hid_input::settings::Settings;
use hid_input::world::World;
use hid_output::ending::Ending;
use hidreport::ReportDescriptor;
use std::fs;
use std::io::Read;
use std::rt::Clock;
use std::time::Instant;

/// How many bytes are read at once.
const PIECE: usize = 65_536;

/// Shows the reports of a stream.
#[derive(Clone, Copy)]
pub struct Record<'a> {
    /// The descriptor's input; a device that is asked for where none is said.
    pub file: Option<&'a str>,
    /// The stream: a node, a pipe, a file, or `-`; the descriptor's own node where none is said.
    pub stream: Option<&'a str>,
    /// Whether what is as it was is left out.
    pub only_changes: bool,
    /// Whether hid-recorder's lines are written.
    pub is_raw: bool,
    /// Whether each line has the report's number and its time before it.
    pub has_times: bool,
    /// Whether the input events are shown that Linux sends.
    pub shows_linux: bool,
}

impl<'a> Record<'a> {
    /// Shows each report as it comes, up to the end of the stream.
    pub fn run<R: World>(&self, rt: &R, settings: &Settings) -> Result<Ending> {
        match self.file {
            Some(file) => self.run_of(rt, settings, file),
            None => {
                let node = chosen_node(rt, settings)?;
                self.run_of(rt, settings, node.as_str())
            }
        }
    }

    /// The same by the descriptor of an input.
    fn run_of<R: World>(&self, rt: &R, settings: &Settings, file: &str) -> Result<Ending> {
        let given = descriptors_named(rt, settings, file)?;
        let known = all_read(rt, settings, file, &given)?;
        let mut recording = Recording::of(
            rt.alloc(),
            settings,
            self.asked(settings),
            &given,
            &known,
        )?;
        let name = self.stream.unwrap_or(file);
        let node = node_named(rt, settings, name)?;
        let is_node = is_node(node.as_str());
        ensure!(
            is_node || self.stream.is_some(),
            "is no node: say the STREAM of its reports"
        );
        let stream = Stream::new(rt.alloc(), settings, is_node);
        let ending = follow_named(rt, name, node.as_str(), &known, stream, &mut recording);
        match (self.file, self.stream) {
            (Some(_own), None) => ending,
            _ => ending.context(format_args!("{name}")),
        }
    }

    /// What is asked for.
    fn asked(&self, settings: &Settings) -> Asked {
        Asked {
            shown: match (self.shows_linux, self.is_raw, settings.is_json) {
                (true, _, _) => Shown::Events,
                (false, true, _) => Shown::Raw,
                (false, false, true) => Shown::Json,
                (false, false, false) => Shown::Line,
            },
            only_changes: self.only_changes,
            has_times: self.has_times,
        }
    }
}

/// Shows what the stream's file or the standard input gives.
fn follow_named<R: World>(
    rt: &R,
    name: &str,
    node: &str,
    known: &[ReportDescriptor],
    stream: Stream,
    recording: &mut Recording,
) -> Result<Ending> {
    if name == "-" {
        return follow(rt, rt.reader(), name, known, stream, recording);
    }
    let file = fs::open(rt, node)?;
    follow(rt, file, name, known, stream, recording)
}

/// Shows what a reader gives, up to its end.
fn follow<R: AllocGlobal + Clock + Print + Eprint, I: Read + Drop>(
    rt: &R,
    reader: I,
    name: &str,
    known: &[ReportDescriptor],
    stream: Stream,
    recording: &mut Recording,
) -> Result<Ending> {
    let (mut reader, mut stream) = (reader, stream);
    let Some(descriptor) = known.first() else {
        bail!("has no descriptor");
    };
    recording.begin(rt)?;
    let begun = Instant::now(rt)?;
    let mut piece = vec![in rt.alloc(); 0u8; PIECE]?;
    for _ in 0..u64::MAX {
        let count = reader.read(&mut piece)?;
        let Some(read) = piece.get(..count) else {
            break;
        };
        if read.is_empty() {
            break;
        }
        let reports = stream.add(descriptor, read)?;
        stream.tell_form(rt, name)?;
        recording.show_all(rt, stream.form(), &reports, begun.elapsed(rt)?)?;
        stream.refused()?;
    }
    let reports = stream.end(descriptor)?;
    stream.tell_form(rt, name)?;
    recording.show_all(rt, stream.form(), &reports, begun.elapsed(rt)?)?;
    stream.refused()?;
    recording.end(rt, stream.left())
}
