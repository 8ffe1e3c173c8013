//! `hid set --linux`: the output reports that Linux writes where a program sets lamps.
use crate::set::Set;
use anyhow::{Context, Result, anyhow, bail};
use hid_input::input::descriptor_named;
use hid_input::linux_read::mended;
use hid_input::settings::Settings;
use hid_input::world::World;
use hidreport_events::{EventReader, EventsError};
use hidreport_linux::{EventCode, EventType};
use std::alloc::Global;

/// How many lamps there are.
const LAMPS: u16 = 0x10;

/// A lamp of an input device, and the value that a program writes.
#[derive(Clone, Copy)]
struct Setting {
    /// The input device; none where the word doesn't say it.
    device: Option<usize>,
    lamp: u16,
    value: i32,
}

impl<'a> Set<'a> {
    /// Writes the report behind each lamp that is set; says on standard error where there is none.
    pub fn write_lamps<R: World>(&self, rt: &R, settings: &Settings) -> Result<()> {
        let alloc = rt.alloc();
        let given = descriptor_named(rt, settings, self.file)?;
        let device = mended(rt, settings, self.file, given.descriptor())?;
        let mut reader = match EventReader::of(alloc, device.reading(), settings.parse.limit) {
            Ok(reader) => reader,
            Err(error) => return Err(with_advice(error)),
        };
        let mut reports = Vec::new(alloc);
        for word in self.words.iter() {
            let report = written(alloc, &mut reader, word).context(format_args!("{word}"))?;
            reports.push(report)?;
        }
        for (word, report) in self.words.iter().zip(reports.iter()) {
            match report {
                Report::Written(bytes) => self.target.write(rt, bytes)?,
                Report::None(why) if settings.has_notes() => {
                    eprintln!(rt; "hid: {word}: {why}: nothing is written")?;
                }
                Report::None(_) => {}
            }
        }
        Ok(())
    }
}

/// What Linux writes where a lamp is set.
#[derive(Drop)]
enum Report {
    /// These bytes.
    Written(Vec<u8>),

    /// Nothing, and why.
    None(&'static str),
}

/// What is written behind the lamp that a word sets.
fn written(alloc: Global, reader: &mut EventReader, word: &str) -> Result<Report> {
    let setting = setting_of(word)?;
    let device = match setting.device {
        Some(device) => device,
        None => device_with(reader, setting.lamp)?,
    };
    let events = match reader.set_lamp(alloc, device, setting.lamp, setting.value) {
        Ok(events) => events,
        Err(EventsError::NoLamp) => bail!("input device {device} has no such lamp"),
        Err(error) => return Err(error.into()),
    };
    match reader.written(alloc, &events)? {
        Some(bytes) => Ok(Report::Written(bytes)),
        None if events.events.is_empty() => Ok(Report::None("the lamp is so already")),
        None => Ok(Report::None("no output report has the lamp")),
    }
}

/// The one input device that has a lamp.
fn device_with(reader: &EventReader, lamp: u16) -> Result<usize> {
    let mut found = None;
    for device in 0..reader.device_count() {
        if !reader.has_lamp(device, lamp) {
            continue;
        }
        if let Some(first) = found {
            bail!(
                "input devices {first} and {device} have the lamp: say {device}: before its name"
            );
        }
        found = Some(device);
    }
    found.ok_or_else(|| anyhow!("no input device has such a lamp"))
}

/// What a word says: a lamp's name with a number, and the input device before them, if it is said.
fn setting_of(word: &str) -> Result<Setting> {
    let (device, rest) = match word.split_once(':') {
        Some((device, rest)) => (Some(device), rest),
        None => (None, word),
    };
    let Some((name, value)) = rest.split_once('=') else {
        bail!("it isn't LED_NAME=NUMBER");
    };
    let Some(lamp) = lamp_named(name) else {
        bail!("no lamp of Linux has this name: the names are LED_NUML, LED_CAPSL and such");
    };
    let Ok(value) = value.parse::<i32>() else {
        bail!("{value} is no number of 32 bits");
    };
    let device = match device {
        Some(device) => Some(device_number(device)?),
        None => None,
    };
    Ok(Setting {
        device,
        lamp,
        value,
    })
}

/// The input device that a word says.
fn device_number(word: &str) -> Result<usize> {
    match word.parse::<usize>() {
        Ok(number) => Ok(number),
        Err(_other) => bail!("{word} is no number of an input device"),
    }
}

/// The lamp with a name.
fn lamp_named(name: &str) -> Option<u16> {
    (0..LAMPS).find(|lamp| name_of(*lamp) == name)
}

/// A lamp's name.
fn name_of(lamp: u16) -> &'static str {
    let code = EventCode {
        event_type: EventType::Led,
        number: lamp,
    };
    code.name().unwrap_or("")
}

/// Why the events of a device aren't known, and what helps.
fn with_advice(error: EventsError) -> anyhow::Error {
    match error {
        EventsError::PastLimit { usages, .. } => {
            anyhow!("its input and output reports have {usages} usages: --limit {usages} is enough")
        }
        EventsError::NotKnown => anyhow!("{error}: hid check --for linux shows where"),
        _ => error.into(),
    }
}
