//! The reports of a device, one after the other.
ghost use Rattle.std.specs.Prelude.{◌≡◌};
ghost use Rattle.hidreport_events.specs.Readers.{is_doubtful};

use crate::building::Building;
use crate::errors::EventsError;
use crate::event_field::EventField;
use crate::event_report::{EventReport, values_behind, values_in};
use crate::held::{hold, own_fields, own_values};
use crate::input_event::InputEvent;
use crate::lamp::{Lamp, take_events};
use crate::sender::{Sender, Tool};
use crate::source::Source;
use crate::volume_steps::{MOST_STEPS, steps_left_by};
use hidreport_linux::LinuxReading;
use std::alloc::{AllocError, Global};
use std::marker::Model;

/// The events that one report sends.
#[derive(Drop)]
pub struct ReportEvents {
    /// The input device that sends them, counted from 0, as `InputDevices` counts.
    pub device: usize,

    /// The events in order, with `SYN_REPORT` behind those that belong together.
    pub events: Vec<InputEvent>,
}

/// The input events of a device's reports, one report after the other.
///
/// A value that stays says nothing, and a key that is held down is pressed once: so the events of a
/// report are those behind the ones that were read before. At first all values are 0.
#[derive(Drop)]
pub struct EventReader {
    has_ids: bool,
    reports: Vec<EventReport>,
    fields: Vec<EventField>,
    sources: Vec<Source>,
    pub(crate) senders: Vec<Sender>,
    tools: Vec<Tool>,
    values: Vec<i32>,
    pub(crate) lamps: Vec<Lamp>,
    pub(crate) is_lost: bool,
}

impl Model for EventReader {
    ghost use Rattle.hidreport_events.specs.Readers.{ReaderRecord};

    ghost Value = { ReaderRecord };

    ghost view = { λ r. record {
      has_ids = r.has_ids;
      reports = r.reports.items;
      fields = r.fields.items;
      sources = r.sources.items;
      senders = r.senders.items;
      tools = r.tools.items;
      values = r.values.items;
      lamps = r.lamps.items;
      is_lost = r.is_lost;
    } };
}

impl EventReader {
    ghost use Rattle.std.specs.Prelude.{◌≡◌, Err, IfErr, IfOk, IfSome, IsFalse, IsTrue, OnOk, map};
    ghost use Rattle.hidreport_events.specs.Built.{numbers_in, read_numbers};
    ghost use Rattle.hidreport_linux.specs.FieldOrder.{fields_in_order};
    ghost use Rattle.hidreport_events.specs.declared.errors.EventsError.TheVariants.{NotKnown};
    ghost use Rattle.hidreport_events.specs.Readers.{behind_sending, behind_sent, behind_taken, id_size, is_doubtful, IsDrivenBy, IsRefused, IsSent, reads, reads_of, report_in, report_with, sent_by, sent_in, tool_of, turns_too_far, whole};

    /// That of a device before its first report, whose input and output reports have no more usages
    /// together than a limit, if there is one.
    ///
    /// # Errors
    ///
    /// - `NotKnown`: Linux refuses the descriptor, or may read it otherwise.
    /// - `OtherDriver`: Linux doesn't drive it by hid-generic.
    /// - `PastLimit`: its input and output reports have more usages than the limit.
    /// - `OutOfMemory`: memory is refused; this says nothing of the device.
    pub fn of(
        alloc: Global,
        reading: &LinuxReading,
        limit: Option<usize>,
    ) -> Result<EventReader, EventsError>
        ensures not_known { IsTrue (is_doubtful reading.now) → result ≡ Err NotKnown }
        ensures other_driver { IsFalse (is_doubtful reading.now)
            → IfSome reading.now.driver (IsDrivenBy result) }
        ensures fields { IfOk result (λ reader. map numbers_in reader.fields
            ≡ read_numbers (fields_in_order reading.now)) }
        ensures first { IfOk result (λ reader. IsFalse reader.is_lost) }
    {
        if is_doubtful(reading) {
            return Err(EventsError::NotKnown);
        }
        if let Some(driver) = reading.driver() {
            return Err(EventsError::OtherDriver { driver });
        }
        EventReader::new(alloc, reading, limit)
    }

    /// The same of a device of hid-generic.
    fn new(
        alloc: Global,
        reading: &LinuxReading,
        limit: Option<usize>,
    ) -> Result<EventReader, EventsError>
        ensures fields { IfOk result (λ reader. map numbers_in reader.fields
            ≡ read_numbers (fields_in_order reading.now)) }
        ensures first { IfOk result (λ reader. IsFalse reader.is_lost) }
    {
        let building = Building::of(alloc, reading, limit)?;
        let tools = first_tools(alloc, &building.reports)?;
        let values = first_values(alloc, &building.reports)?;
        Ok(EventReader {
            has_ids: building.reports.iter().any(|report| report.id != 0),
            reports: building.reports,
            fields: building.fields,
            sources: building.sources,
            senders: building.senders,
            tools,
            values,
            lamps: building.lamps,
            is_lost: false,
        })
    }

    /// The events of the next report: its bytes, the id first where reports have one.
    ///
    /// # Errors
    ///
    /// - `Lost`: memory was refused at a report before.
    /// - `NoReport`: it has no bytes, or no input report has its id.
    /// - `TooShort`: it has fewer bytes than it should.
    /// - `TooManySteps`: it turns volumes by more than 4,096 steps.
    /// - `OutOfMemory`: memory is refused; this says nothing of the report, and what the device holds
    ///   may be lost.
    ///
    /// But for `OutOfMemory` the reader is as before.
    pub fn read(&mut self, alloc: Global, bytes: &[u8]) -> Result<ReportEvents, EventsError>
        ensures sent { IfOk result (λ events. IsSent (reads self.old bytes.now) events self.new) }
        ensures refused { IfErr result (λ fault.
            IsRefused (reads self.old bytes.now) fault self.old self.new) }
    {
        match self.find(bytes) {
            Ok(report) => self.read_of(alloc, &report, bytes),
            Err(fault) => Err(fault),
        }
    }

    /// The report that these bytes are of, all of it.
    #[tactic(auto, unfolding(crate::specs::Readers::report_in))]
    fn find(&self, bytes: &[u8]) -> Result<EventReport, EventsError>
        ensures { result ≡ report_in self.now bytes.now }
    {
        if self.is_lost {
            return Err(EventsError::Lost);
        }
        let Some(first) = bytes.first() else {
            return Err(EventsError::NoReport);
        };
        let id = if self.has_ids { u32::from(*first) } else { 0 };
        match self.report_with(id) {
            Some(report) => self.whole(report, bytes.len()),
            None => Err(EventsError::NoReport),
        }
    }

    /// The first report with an id.
    fn report_with(&self, id: u32) -> Option<EventReport>
        ensures { result ≡ report_with id self.now.reports }
    {
        for report in &self.reports {
            if report.id == id {
                return Some(*report);
            }
        }
        None
    }

    /// A report, where there are enough bytes of it.
    #[tactic(auto, unfolding(crate::specs::Readers::whole))]
    fn whole(&self, report: EventReport, given: usize) -> Result<EventReport, EventsError>
        ensures { result ≡ whole report given self.now }
    {
        let wanted = (report.bits.div_ceil(8) as usize).saturating_add(self.id_size());
        if given < wanted {
            return Err(EventsError::TooShort { wanted, given });
        }
        Ok(report)
    }

    /// How many bytes an id has.
    fn id_size(&self) -> usize
        ensures { result ≡ id_size self.now }
    {
        if self.has_ids { 1 } else { 0 }
    }

    /// The events of a report with these bytes.
    #[tactic(auto, unfolding(crate::specs::Readers::reads_of))]
    fn read_of(
        &mut self,
        alloc: Global,
        report: &EventReport,
        bytes: &[u8],
    ) -> Result<ReportEvents, EventsError>
        ensures sent { IfOk result (λ events.
            IsSent (reads_of report.now bytes.now self.old) events self.new) }
        ensures refused { IfErr result (λ fault.
            IsRefused (reads_of report.now bytes.now self.old) fault self.old self.new) }
    {
        let rest = bytes.get(self.id_size()..).unwrap_or(&[]);
        let values = values_in(alloc, own_fields(report, &self.fields), rest)?;
        if self.turns_too_far(report, &values) {
            return Err(EventsError::TooManySteps { most: MOST_STEPS });
        }
        let events = self.take(alloc, report, &values)?;
        Ok(events)
    }

    /// Takes a report with these values, which are held from now on.
    #[tactic(auto, unfolding(crate::specs::Readers::behind_taken, crate::specs::Readers::sent_by))]
    fn take(
        &mut self,
        alloc: Global,
        report: &EventReport,
        values: &[i32],
    ) -> Result<ReportEvents, AllocError>
        ensures device { IfOk result (λ events. events.device ≡ report.now.device) }
        ensures sent { IfOk result (λ events.
            events.events.items ≡ sent_by report.now values.now self.old) }
        ensures next { OnOk result (self.new ≡ behind_taken report.now values.now self.old) }
    {
        self.is_lost = true;
        let fields = own_fields(report, &self.fields);
        let before = own_values(report, &self.values);
        let kept = values_behind(alloc, fields, &self.sources, before, values)?;
        self.send(report, values)?;
        let events = self.take_sent(alloc, report);
        take_events(&mut self.lamps, &events);
        hold(&mut self.values, report.first_value, &kept);
        self.is_lost = false;
        Ok(ReportEvents {
            device: report.device,
            events,
        })
    }

    /// Has the input device of a report take it.
    #[tactic(auto, unfolding(crate::specs::Readers::behind_sending))]
    fn send(&mut self, report: &EventReport, values: &[i32]) -> Result<(), AllocError>
        ensures { OnOk result (self.new ≡ behind_sending report.now values.now self.old) }
    {
        let tool = self.tool_of(report);
        let fields = own_fields(report, &self.fields);
        let before = own_values(report, &self.values);
        let index = report.device;
        if index < self.senders.len() {
            self.senders[index].take_all(tool, fields, &self.sources, before, values)?;
        }
        Ok(())
    }

    /// The tool that a report says to be near.
    fn tool_of(&self, report: &EventReport) -> Tool
        ensures { result ≡ tool_of report.now self.now }
    {
        match self.tools.get(report.index) {
            Some(tool) => *tool,
            None => Tool::none(),
        }
    }

    /// What the input device of a report handed on, which is forgotten, and the tool that it keeps.
    #[tactic(auto, unfolding(crate::specs::Readers::behind_sent))]
    fn take_sent(&mut self, alloc: Global, report: &EventReport) -> Vec<InputEvent>
        ensures sent { result.items ≡ sent_in report.now self.old }
        ensures next { self.new ≡ behind_sent report.now self.old }
    {
        let index = report.device;
        if index >= self.senders.len() {
            return Vec::new(alloc);
        }
        let tool = self.senders[index].tool();
        if report.index < self.tools.len() {
            self.tools[report.index] = tool;
        }
        self.senders[index].take_sent(alloc)
    }

    /// Whether a report turns volumes by too many steps together.
    fn turns_too_far(&self, report: &EventReport, values: &[i32]) -> bool
        ensures { result ≡ turns_too_far report.now values.now self.now }
    {
        let fields = own_fields(report, &self.fields);
        steps_left_by(fields, &self.sources, values).is_none()
    }
}

/// Whether it isn't known how Linux reads a descriptor, since it refuses it, or may read it otherwise.
fn is_doubtful(reading: &LinuxReading) -> bool
    ensures { result ≡ is_doubtful reading.now }
{
    reading.refusal().is_some() || reading.doubt().is_some() || reading.overflow().is_some()
}

/// No tool is near.
fn first_tools(alloc: Global, reports: &[EventReport]) -> Result<Vec<Tool>, AllocError> {
    let mut tools = Vec::new(alloc);
    for _report in reports {
        tools.push(Tool::none())?;
    }
    Ok(tools)
}

/// All values are 0.
fn first_values(alloc: Global, reports: &[EventReport]) -> Result<Vec<i32>, AllocError> {
    let mut values = Vec::new(alloc);
    for report in reports {
        for _value in 0..report.values {
            values.push(0)?;
        }
    }
    Ok(values)
}
