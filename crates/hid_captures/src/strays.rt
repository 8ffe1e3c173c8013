//! The reports of endpoints of which no configuration says what they are.
use crate::urb::Urb;
use hid_given::{Found, GivenReport};
use std::alloc::{AllocError, Global};
use std::mem;

/// An endpoint of a device.
#[derive(Clone, Copy, PartialEq)]
struct Sender {
    bus: u16,
    device: u8,
    endpoint: u8,
}

/// Who sent such reports, and what, where it was one alone.
#[derive(Drop)]
pub struct Strays {
    alloc: Global,
    count: u64,
    sender: Option<Sender>,
    /// Whether several sent some, or one of them isn't there as a whole.
    is_unsure: bool,
    reports: Vec<GivenReport>,
}

impl Strays {
    /// Before the first.
    pub fn new(alloc: Global) -> Strays {
        Strays {
            alloc,
            count: 0,
            sender: None,
            is_unsure: false,
            reports: Vec::new(alloc),
        }
    }

    /// Takes one.
    pub fn take(&mut self, urb: &Urb) -> Result<(), AllocError> {
        self.count = self.count.saturating_add(1);
        let sender = Sender {
            bus: urb.bus,
            device: urb.device,
            endpoint: urb.endpoint,
        };
        let is_other = self.sender.is_some_and(|known| known != sender);
        if is_other || urb.whole().is_err() {
            self.is_unsure = true;
            self.reports.clear();
        }
        self.sender = Some(sender);
        if self.is_unsure {
            return Ok(());
        }
        self.reports.push(report_of(self.alloc, urb)?)?;
        Ok(())
    }

    /// Gives them as the reports of the only device, where that is wanted and they are sure; says what
    /// becomes of them.
    pub fn end(&mut self, found: &mut Found, is_wanted: bool) -> Result<(), AllocError> {
        let Some(
            Sender {
                bus,
                device,
                endpoint,
            },
        ) = self.sender
        else {
            return Ok(());
        };
        let (alloc, count) = (self.alloc, self.count);
        let s = if count == 1 { "" } else { "s" };
        let why = "no configuration in it says of which interface";
        let note = if is_wanted && !self.is_unsure {
            found.reports = mem::replace(&mut self.reports, Vec::new(alloc));
            let are = if count == 1 {
                "is a report"
            } else {
                "are reports"
            };
            let from = format!(in alloc; "{bus:03}:{device:03}, endpoint {endpoint:02x}")?;
            format!(in alloc; "{count} transfer{s} of {from}, {are}: {why}")?
        } else {
            format!(in alloc; "{count} transfer{s} left out: {why}")?
        };
        found.notes.push(note)?;
        Ok(())
    }
}

/// The report that a transfer has, as one of the first device.
pub fn report_of(alloc: Global, urb: &Urb) -> Result<GivenReport, AllocError> {
    let (seconds, micros) = (urb.time.seconds, urb.time.micros);
    let mut report = GivenReport::new(Vec::from_slice(alloc, urb.data)?);
    report.time = Some(format!(in alloc; "{seconds}.{micros:06}")?);
    Ok(report)
}
