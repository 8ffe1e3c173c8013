//! The reports of a stream, of which pieces come one after the other.
use crate::input::named::tell_form;
use crate::settings::{LONGEST_LINE, Settings};
use anyhow::{Context, Error, Result, bail, ensure};
use hid_captures::is_capture;
use hid_forms::{FormLines, is_blank};
use hid_given::{Form, Found, GivenReport, Wanted};
use hid_sources::{form_of_lines, text_of};
use hidreport::{Report, ReportDescriptor};
use std::alloc::Global;
use std::mem;

/// What a stream is read as.
#[derive(Drop)]
enum Reading {
    /// Not known yet: its first bytes are text, and no line said anything.
    Unknown,

    /// A report at each read.
    Node,

    /// Reports behind each other.
    Bytes,

    /// Lines of a form.
    Lines(FormLines),

    /// A capture, which isn't read as a stream.
    Capture,
}

/// A stream, with what is left of its pieces so far.
#[derive(Drop)]
pub struct Stream {
    reading: Reading,
    form: Option<Form>,
    /// Whether its form was named, has been said, or isn't to be said.
    is_told: bool,
    found: Found,
    /// The bytes of a report or of a line that isn't whole; of a stream whose form isn't known,
    /// all.
    pending: Vec<u8>,
    /// Where the pending line begins that was looked at last, for the form.
    line_at: usize,
    /// The number of the pending line.
    line: u64,
    /// Why nothing more is read.
    refusal: Option<Error>,
}

impl Stream {
    /// Before the first piece. Where the options name no form of reports the first bytes decide; a
    /// node gives a report at each read.
    pub fn new(alloc: Global, settings: &Settings, is_node: bool) -> Stream {
        let form = settings.report_form;
        Stream {
            reading: if is_node {
                Reading::Node
            } else {
                reading_of(alloc, form)
            },
            form: if is_node { Some(Form::Bytes) } else { form },
            is_told: form.is_some() || !settings.tells_forms(),
            found: Found::new(alloc),
            pending: Vec::new(alloc),
            line_at: 0,
            line: 1,
            refusal: None,
        }
    }

    /// The stream's form, once it is known.
    pub fn form(&self) -> Option<Form> {
        self.form
    }

    /// How many bytes are left of a report that isn't whole.
    pub fn left(&self) -> usize {
        self.pending.len()
    }

    /// Says on standard error which form was guessed, once, where that is wanted.
    pub fn tell_form<R: AllocGlobal + Eprint>(&mut self, rt: &R, name: &str) -> Result<()> {
        match self.form {
            Some(form) if !self.is_told => {
                self.is_told = true;
                tell_form(rt, name, form)
            }
            _ => Ok(()),
        }
    }

    /// The reports that are whole with a further piece. Those of a stream of bytes are cut by the
    /// sizes of the descriptor's input reports. Where a refusal comes behind reports these are
    /// given, and `refused` has it.
    ///
    /// # Errors
    ///
    /// - a line isn't one of the stream's form, or is longer than a line may be;
    /// - the first line is text, and of no form;
    /// - no report begins with the next byte.
    pub fn add(&mut self, descriptor: &ReportDescriptor, piece: &[u8]) -> Result<Vec<GivenReport>> {
        self.refused()?;
        let answer = self.take_piece(descriptor, piece);
        self.given(answer)
    }

    /// The reports that are whole with the end of the stream. Called once, behind the last piece.
    ///
    /// # Errors
    ///
    /// - those of `add`.
    pub fn end(&mut self, descriptor: &ReportDescriptor) -> Result<Vec<GivenReport>> {
        self.refused()?;
        let answer = self.take_end(descriptor);
        self.given(answer)
    }

    /// Answers whether nothing was refused behind the reports that were given last.
    ///
    /// # Errors
    ///
    /// - what was refused.
    pub fn refused(&mut self) -> Result<()> {
        match self.refusal.take() {
            Some(refusal) => Err(refusal),
            None => Ok(()),
        }
    }

    /// The reports so far, or else why there are none. Of devices no more is kept than their
    /// numbers.
    fn given(&mut self, answer: Result<()>) -> Result<Vec<GivenReport>> {
        let alloc = *self.pending.allocator();
        self.found.forget_descriptors();
        let reports = mem::replace(&mut self.found.reports, Vec::new(alloc));
        if let Err(refusal) = answer {
            if reports.is_empty() {
                return Err(refusal);
            }
            self.refusal = Some(refusal);
        }
        Ok(reports)
    }

    /// Takes a piece.
    fn take_piece(&mut self, descriptor: &ReportDescriptor, piece: &[u8]) -> Result<()> {
        if !matches!(self.reading, Reading::Unknown) {
            return self.take(descriptor, piece);
        }
        self.pending.extend_from_slice(piece)?;
        if is_decisive(piece) {
            self.look(false)?;
        }
        self.take_first(descriptor)
    }

    /// Takes the end of the stream.
    fn take_end(&mut self, descriptor: &ReportDescriptor) -> Result<()> {
        if matches!(self.reading, Reading::Unknown) {
            self.look(true)?;
            self.take_first(descriptor)?;
        }
        if let Reading::Lines(lines) = &mut self.reading {
            if !self.pending.is_empty() {
                take_line(lines, &mut self.found, self.line, &self.pending)?;
                self.pending.clear();
            }
            lines.end(&mut self.found)?;
        }
        Ok(())
    }

    /// Takes what was pending until the form was known.
    fn take_first(&mut self, descriptor: &ReportDescriptor) -> Result<()> {
        if matches!(self.reading, Reading::Unknown) {
            ensure!(
                self.pending.len() <= LONGEST_LINE,
                "the first MiB is text without a line that says something"
            );
            return Ok(());
        }
        let alloc = *self.pending.allocator();
        let first = mem::replace(&mut self.pending, Vec::new(alloc));
        self.line = 1;
        self.take(descriptor, &first)
    }

    /// Looks for the form at the lines that are whole; at the end of the stream the last one is,
    /// too.
    fn look(&mut self, is_end: bool) -> Result<()> {
        let alloc = *self.pending.allocator();
        if is_capture(&self.pending) {
            self.form = Some(Form::Usbmon);
            self.reading = Reading::Capture;
            return Ok(());
        }
        let Some(rest) = self.pending.get(self.line_at..) else {
            return Ok(());
        };
        for part in rest.split_inclusive(|byte| *byte == b'\n') {
            if !is_end && !is_decisive(part) {
                return Ok(());
            }
            let form = form_of_part(self.line, part)?;
            if form.is_some() {
                self.form = form;
                self.reading = reading_of(alloc, form);
                return Ok(());
            }
            self.line_at = self.line_at.saturating_add(part.len());
            self.line = self.line.saturating_add(1);
        }
        Ok(())
    }

    /// Takes a piece of a stream whose form is known.
    fn take(&mut self, descriptor: &ReportDescriptor, piece: &[u8]) -> Result<()> {
        match self.reading {
            Reading::Unknown => Ok(()),
            Reading::Node => {
                let alloc = *self.pending.allocator();
                let bytes = Vec::from_slice(alloc, piece)?;
                Ok(self.found.add_report(GivenReport::new(bytes))?)
            }
            Reading::Bytes => self.take_bytes(descriptor, piece),
            Reading::Lines(_) => self.take_lines(piece),
            Reading::Capture => bail!("a capture is no stream: hid values shows its reports"),
        }
    }

    /// Takes the lines that are whole with a piece.
    fn take_lines(&mut self, piece: &[u8]) -> Result<()> {
        for part in piece.split_inclusive(|byte| *byte == b'\n') {
            self.pending.extend_from_slice(part)?;
            let number = self.line;
            ensure!(
                self.pending.len() <= LONGEST_LINE,
                "line {number}: longer than 1 MiB"
            );
            if !part.ends_with(b"\n") {
                break;
            }
            if let Reading::Lines(lines) = &mut self.reading {
                take_line(lines, &mut self.found, number, &self.pending)?;
            }
            self.pending.clear();
            self.line = number.saturating_add(1);
        }
        Ok(())
    }

    /// Takes the reports that are whole with a piece.
    fn take_bytes(&mut self, descriptor: &ReportDescriptor, piece: &[u8]) -> Result<()> {
        let alloc = *self.pending.allocator();
        let mut rest = piece;
        if !self.pending.is_empty() {
            let size = size_of(descriptor, &self.pending)?;
            let missing = size.saturating_sub(self.pending.len());
            let Some((front, behind)) = rest.split_at_checked(missing) else {
                return Ok(self.pending.extend_from_slice(rest)?);
            };
            self.pending.extend_from_slice(front)?;
            let bytes = mem::replace(&mut self.pending, Vec::new(alloc));
            self.found.add_report(GivenReport::new(bytes))?;
            rest = behind;
        }
        for _ in 0..piece.len() {
            if rest.is_empty() {
                break;
            }
            let size = size_of(descriptor, rest)?;
            let Some((front, behind)) = rest.split_at_checked(size) else {
                break;
            };
            let bytes = Vec::from_slice(alloc, front)?;
            self.found.add_report(GivenReport::new(bytes))?;
            rest = behind;
        }
        Ok(self.pending.extend_from_slice(rest)?)
    }
}

/// What a stream in a form is read as.
fn reading_of(alloc: Global, form: Option<Form>) -> Reading {
    let Some(form) = form else {
        return Reading::Unknown;
    };
    if form == Form::Usbmon {
        return Reading::Capture;
    }
    match FormLines::new(alloc, form, Wanted::Reports) {
        Some(lines) => Reading::Lines(lines),
        None => Reading::Bytes,
    }
}

/// Whether a piece can tell that a stream isn't text, or that a line is whole.
fn is_decisive(piece: &[u8]) -> bool {
    piece.iter().any(|byte| *byte == b'\n'
        || byte.is_ascii_control() && !matches!(*byte, b'\t' | b'\r'))
}

/// The form of a stream, by a line; none where it says nothing.
fn form_of_part(number: u64, part: &[u8]) -> Result<Option<Form>> {
    let Some(line) = text_of(part) else {
        return Ok(Some(Form::Bytes));
    };
    if is_blank(line) {
        return Ok(None);
    }
    let form = form_of_lines(number, line, "")?;
    Ok(Some(form))
}

/// Takes a line of a form.
fn take_line(lines: &mut FormLines, found: &mut Found, number: u64, line: &[u8]) -> Result<()> {
    let Some(line) = text_of(line) else {
        bail!("line {number}: isn't text");
    };
    lines
        .take(found, line.trim_end())
        .context(format_args!("line {number}"))
}

/// How many bytes the input report has that begins with these.
fn size_of(descriptor: &ReportDescriptor, bytes: &[u8]) -> Result<usize> {
    let size = match descriptor.find_input_report(bytes) {
        Some(report) => report.size_in_bytes(),
        None => 0,
    };
    if size == 0 {
        let first = bytes.first().copied().unwrap_or(0);
        bail!("byte {first:02x} begins no report");
    }
    Ok(size)
}
