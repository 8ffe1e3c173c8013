//! The lines of hid-recorder: `D:` says which device those behind it are of, `R:` is its
//! descriptor, `N:` its name, `P:` and `I:` say where and what it is, `E:` is a report.
use crate::hex_text::bytes_of_hex;
use anyhow::{Result, bail, ensure};
use hid_given::{Found, GivenReport, Part};
use std::alloc::Global;

/// How lines begin that say something.
static MARKS: [&str; 6] = ["D:", "R:", "N:", "P:", "I:", "E:"];

/// Whether a line is one of hid-recorder that says something.
pub fn is_recorder_line(line: &str) -> bool {
    MARKS.iter().any(|mark| line.starts_with(*mark))
}

/// What reads hid-recorder's lines.
#[derive(Drop)]
pub struct RecorderLines {
    /// The device that the lines are of.
    device: usize,
}

impl RecorderLines {
    /// Before the first line.
    pub fn new() -> RecorderLines {
        RecorderLines { device: 0 }
    }

    /// Takes what a line says.
    pub fn take(&mut self, found: &mut Found, line: &str) -> Result<()> {
        let line = line.trim();
        if line.is_empty() || line.starts_with("#") {
            return Ok(());
        }
        let Some((mark, rest)) = line.split_once(":") else {
            bail!("is none of hid-recorder's");
        };
        self.take_marked(found, mark, rest.trim())
    }

    /// Takes what stands behind a mark.
    fn take_marked(&mut self, found: &mut Found, mark: &str, rest: &str) -> Result<()> {
        match mark {
            "D" => self.take_device(found, rest),
            "N" => found.set(self.device, Part::Name, rest),
            "P" => found.set(self.device, Part::Place, rest),
            "I" => found.set(self.device, Part::Ids, rest),
            "R" => {
                let bytes = counted_bytes(*found.devices.allocator(), rest)?;
                found.add_descriptor(self.device, bytes)
            }
            "E" => self.take_report(found, rest),
            _ => bail!("is none of hid-recorder's"),
        }
    }

    /// Takes which device the next lines are of.
    fn take_device(&mut self, found: &mut Found, rest: &str) -> Result<()> {
        match rest.parse::<usize>() {
            Ok(device) => {
                self.device = device;
                found.add_device(device)
            }
            Err(_wrong) => bail!("{rest} is no number of a device"),
        }
    }

    /// Takes a report.
    fn take_report(&mut self, found: &mut Found, rest: &str) -> Result<()> {
        let Some((time, rest)) = rest.split_once(" ") else {
            bail!("a report is its time, its number of bytes, and these");
        };
        ensure!(is_time(time), "{time} is no time in seconds");
        let bytes = counted_bytes(*found.devices.allocator(), rest)?;
        found.add_device(self.device)?;
        let time = String::from_str(*found.devices.allocator(), time)?;
        Ok(found.add_report(GivenReport {
            device: self.device,
            address: None,
            time: Some(time),
            bytes,
        })?)
    }
}

/// Whether a word is seconds, with a point or without.
pub fn is_time(word: &str) -> bool {
    let (whole, parts) = word.split_once(".").unwrap_or((word, "0"));
    [whole, parts].iter().all(|part| !part.is_empty()
        && part.bytes().all(|letter| letter.is_ascii_digit()))
}

/// The bytes behind their number.
fn counted_bytes(alloc: Global, text: &str) -> Result<Vec<u8>> {
    let text = text.trim();
    let (count, digits) = text.split_once(" ").unwrap_or((text, ""));
    let Ok(wanted) = count.parse::<usize>() else {
        bail!("{count} is no number of bytes");
    };
    let Some(bytes) = bytes_of_hex(alloc, digits)? else {
        bail!("its bytes aren't hexadecimal digits");
    };
    let got = bytes.len();
    ensure!(got == wanted, "says {wanted} bytes, and has {got}");
    Ok(bytes)
}
