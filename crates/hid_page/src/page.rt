//! `hid page`: a page of HTML that shows a descriptor and its reports, and needs nothing else.
use crate::device_object::{add_device_object, add_fault_object, add_heading};
use crate::field_blocks::show_fields;
use crate::item_blocks::{ItemBlocks, show_made_bits};
use crate::left_out::{Most, show_notes};
use crate::samples::{Streams, show_samples, streams_of};
use crate::sheet::Sheet;
use crate::shell::{AFTER_DATA, BEFORE_DATA, BEFORE_HEADING, BEFORE_TEXT, BEFORE_TITLE};
use anyhow::{Result, bail};
use hid_given::Given;
use hid_input::inputs::Inputs;
use hid_input::linux_read::{Unread, linux_device, refused, tell_doubt, tell_mended};
use hid_input::parsing::{descriptor_within, with_advice};
use hid_input::settings::Settings;
use hid_input::world::World;
use hid_output::ending::Ending;
use hid_output::flush;
use hidreport::{ParserError, ReportDescriptor};
use hidreport_linux::{LinuxDevice, Refusal};
use std::alloc::{AllocError, Global};

/// Writes a page of HTML.
#[derive(Drop)]
pub struct Page<'a> {
    /// The inputs.
    pub inputs: Inputs<'a>,
    /// Whether nothing is left out.
    pub shows_all: bool,
}

impl<'a> Page<'a> {
    /// Writes the page; a descriptor that can't be read is refused behind it.
    pub fn run<R: World>(&self, rt: &R, settings: &Settings) -> Result<Ending> {
        let mut given = descriptor_within(rt, settings, self.inputs.file)?;
        self.show(rt, settings, &mut given)
    }

    /// Writes the page of what is given.
    fn show<R: World>(&self, rt: &R, settings: &Settings, given: &mut Given) -> Result<Ending> {
        if settings.reads_as_linux() {
            if let Some(unread) = self.read_by_linux(rt, settings, given)? {
                return self.show_unread(rt, settings, given, unread);
            }
            if given.descriptor().is_empty() {
                let none = ReportDescriptor::empty(rt.alloc());
                return self.show_read(rt, settings, given, &none);
            }
        }
        match ReportDescriptor::try_from_with(rt.alloc(), given.descriptor(), settings.parse) {
            Ok(descriptor) => self.show_read(rt, settings, given, &descriptor),
            Err(fault) => self.show_fault(rt, settings, given, fault),
        }
    }

    /// Puts the descriptor that Linux reads in the place of the given one; or says why it reads none.
    fn read_by_linux<R: AllocGlobal + Eprint>(
        &self,
        rt: &R,
        settings: &Settings,
        given: &mut Given,
    ) -> Result<Option<Unread>> {
        match linux_device(rt.alloc(), settings, given.descriptor()) {
            Ok(device) => {
                self.tell_mended(rt, settings, given, &device)?;
                if let Some(own) = given.devices.first_mut() {
                    own.descriptor = device.into_bytes();
                }
                Ok(None)
            }
            Err(unread) => Ok(Some(unread)),
        }
    }

    /// Says what Linux mends, and where it may read otherwise.
    fn tell_mended<R: AllocGlobal + Eprint>(
        &self,
        rt: &R,
        settings: &Settings,
        given: &mut Given,
        read: &LinuxDevice,
    ) -> Result<()> {
        if settings.has_notes() {
            tell_mended(rt, self.inputs.file, read)?;
            tell_doubt(rt, self.inputs.file, read)?;
        }
        let count = read.changes().len();
        if count > 0 {
            let items = if count == 1 { "item is" } else { "items are" };
            let note = format!(in rt.alloc(); "{count} {items} mended, as Linux reads it")?;
            given.notes.push(note)?;
        }
        Ok(())
    }

    /// Writes the page of a descriptor that Linux doesn't read, and refuses it.
    fn show_unread<R: World>(
        &self,
        rt: &R,
        settings: &Settings,
        given: &Given,
        unread: Unread,
    ) -> Result<Ending> {
        match unread {
            Unread::Refused(refusal) => {
                let fault = fault_of(rt.alloc(), refusal)?;
                self.show_refused(rt, settings, given, &fault)?;
                Err(refused(rt.alloc(), settings, given.descriptor(), refusal))
            }
            Unread::Fault(fault) => self.show_fault(rt, settings, given, fault),
        }
    }

    /// Writes the page of a descriptor that can't be read, and refuses it.
    fn show_fault<R: World>(
        &self,
        rt: &R,
        settings: &Settings,
        given: &Given,
        fault: ParserError,
    ) -> Result<Ending> {
        if let ParserError::OutOfMemory = fault {
            bail!("out of memory");
        }
        self.show_refused(rt, settings, given, &fault)?;
        Err(with_advice(rt.alloc(), settings, given.descriptor(), fault))
    }

    /// A page in which nothing stands yet.
    fn sheet(&self, alloc: Global) -> Sheet {
        let most = if self.shows_all {
            Most::all()
        } else {
            Most::usual()
        };
        Sheet::new(alloc, most)
    }

    /// Writes the page of a descriptor that is read.
    fn show_read<R: World>(
        &self,
        rt: &R,
        settings: &Settings,
        given: &Given,
        descriptor: &ReportDescriptor,
    ) -> Result<Ending> {
        let streams = streams_of(rt, settings, &self.inputs.reports)?;
        let mut sheet = self.sheet(rt.alloc());
        self.show_items(rt, settings, given, None, &mut sheet)?;
        show_made_bits(rt, settings, given.descriptor(), &mut sheet)?;
        self.show_reports(rt, given, &streams, descriptor, &mut sheet)?;
        self.end(rt, settings, given, sheet)
    }

    /// Writes the end of the page, and answers whether all reports are of the descriptor.
    fn end<R: AllocGlobal + Print + Eprint>(
        &self,
        rt: &R,
        settings: &Settings,
        given: &Given,
        sheet: Sheet,
    ) -> Result<Ending> {
        let mut sheet = sheet;
        show_notes(rt, settings, given, &mut sheet)?;
        sheet.text.push_str(AFTER_DATA)?;
        flush(rt, &mut sheet.text)?;
        Ok(if sheet.left_out.unknown == 0 {
            Ending::Done
        } else {
            Ending::Refused
        })
    }

    /// Writes the page of a descriptor that is refused, without fields and reports.
    fn show_refused<R: AllocGlobal + Print + Eprint>(
        &self,
        rt: &R,
        settings: &Settings,
        given: &Given,
        fault: &ParserError,
    ) -> Result<()> {
        let mut sheet = self.sheet(rt.alloc());
        self.show_items(rt, settings, given, Some(fault), &mut sheet)?;
        sheet.add_empty(&["made", "lines", "fields", "samples"])?;
        let _done = self.end(rt, settings, given, sheet)?;
        Ok(())
    }

    /// Writes all that comes before the fields.
    fn show_items<R: AllocGlobal + Print>(
        &self,
        rt: &R,
        settings: &Settings,
        given: &Given,
        fault: Option<&ParserError>,
        sheet: &mut Sheet,
    ) -> Result<()> {
        let bytes = given.descriptor();
        let blocks = ItemBlocks {
            settings,
            bytes,
            fault,
        };
        self.add_headings(given, &mut sheet.text)?;
        blocks.show_text(rt, sheet)?;
        sheet.text.push_str(BEFORE_DATA)?;
        self.show_device(rt, settings, given, fault, sheet)?;
        blocks.show_objects(rt, sheet)
    }

    /// Appends what the page begins with, whose title and heading are the device's.
    fn add_headings(&self, given: &Given, text: &mut String) -> Result<(), AllocError> {
        text.push_str(BEFORE_TITLE)?;
        add_heading(text, given, self.inputs.file)?;
        text.push_str(BEFORE_HEADING)?;
        add_heading(text, given, self.inputs.file)?;
        text.push_str(BEFORE_TEXT)
    }

    /// Writes the block of the device, and of why its descriptor is refused.
    fn show_device<R: Print>(
        &self,
        rt: &R,
        settings: &Settings,
        given: &Given,
        fault: Option<&ParserError>,
        sheet: &mut Sheet,
    ) -> Result<()> {
        sheet.begin("device")?;
        add_device_object(&mut sheet.lines, settings, given, self.inputs.file)?;
        if let Some(fault) = fault {
            add_fault_object(&mut sheet.lines, fault)?;
        }
        sheet.take(rt)?;
        Ok(sheet.end()?)
    }

    /// Writes the fields, and the reports of the inputs.
    fn show_reports<R: AllocGlobal + Print>(
        &self,
        rt: &R,
        given: &Given,
        streams: &Streams,
        descriptor: &ReportDescriptor,
        sheet: &mut Sheet,
    ) -> Result<()> {
        show_fields(rt, descriptor, sheet)?;
        self.show_streams(rt, given, streams, descriptor, sheet)
    }

    /// Writes the reports of the inputs that are named, or those beside the descriptor.
    fn show_streams<R: AllocGlobal + Print>(
        &self,
        rt: &R,
        given: &Given,
        streams: &Streams,
        descriptor: &ReportDescriptor,
        sheet: &mut Sheet,
    ) -> Result<()> {
        let direction = self.inputs.direction;
        sheet.begin("samples")?;
        if self.inputs.reports.is_empty() {
            show_samples(rt, given, given, descriptor, direction, sheet)?;
        }
        for stream in streams.inputs.iter() {
            show_samples(rt, given, stream, descriptor, direction, sheet)?;
        }
        Ok(sheet.end()?)
    }
}

/// That Linux refuses a descriptor, as a fault of its item.
fn fault_of(alloc: Global, refusal: Refusal) -> Result<ParserError, AllocError> {
    let (offset, reason) = (refusal.offset, refusal.reason.text());
    let message = format!(in alloc; "Linux refuses it: {reason}")?;
    Ok(ParserError::InvalidData { offset, message })
}
