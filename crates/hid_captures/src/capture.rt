//! Captures of USB traffic: the report descriptors that devices were asked for, and the reports of their
//! interrupt endpoints.
use crate::byte_order::ByteOrder;
use crate::interfaces::{Endpoint, add_endpoints, total_length};
use crate::stamp::Stamp;
use crate::strays::{Strays, report_of};
use crate::urb::{CONTROL, Event, INTERRUPT, Urb, link_of};
use anyhow::{Result, bail, ensure};
use hid_given::{Found, Wanted as GivenWanted};
use std::alloc::{AllocError, Global};
use std::fmt::Write;

/// The most endpoints and open requests that are kept.
const MOST: usize = 4_096;

/// What a device was asked for.
#[derive(Clone, Copy, PartialEq)]
enum Wanted {
    /// A configuration.
    Configuration,

    /// The report descriptor of an interface.
    Report(u8),
}

/// A request that isn't answered yet.
#[derive(Clone, Copy)]
struct Request {
    id: u64,
    bus: u16,
    device: u8,
    wanted: Wanted,
}

/// What the packets of a capture have told so far.
#[derive(Drop)]
pub struct Capture {
    requests: Vec<Request>,
    endpoints: Vec<Endpoint>,
    /// The reports of endpoints whose interface isn't known.
    strays: Strays,
}

impl Capture {
    /// Before the first packet.
    pub fn new(alloc: Global) -> Capture {
        Capture {
            requests: Vec::new(alloc),
            endpoints: Vec::new(alloc),
            strays: Strays::new(alloc),
        }
    }

    /// Takes what a packet says.
    ///
    /// # Errors
    ///
    /// - its link type isn't one that is read;
    /// - it is cut short.
    pub fn take(
        &mut self,
        found: &mut Found,
        order: ByteOrder,
        link: u32,
        time: Stamp,
        packet: &[u8],
    ) -> Result<()> {
        let Some(link) = link_of(link) else {
            bail!("is of the link type {link}; 189 and 220 of usbmon and 249 of USBPcap are read");
        };
        let Some(urb) = Urb::of(link, order, time, packet) else {
            bail!("is cut short");
        };
        match (urb.kind, urb.event) {
            (CONTROL, Event::Submitted) => self.take_request(&urb),
            (CONTROL, _) => self.take_answer(found, &urb),
            (INTERRUPT, Event::Done) => self.take_report(found, &urb),
            _ => Ok(()),
        }
    }

    /// Takes what a device is asked for.
    fn take_request(&mut self, urb: &Urb) -> Result<()> {
        self.requests
            .retain(|it| it.id != urb.id || it.bus != urb.bus);
        let Some(wanted) = urb.setup.and_then(wanted_by) else {
            return Ok(());
        };
        ensure!(
            self.requests.len() < MOST,
            "more than {MOST} requests have no answer"
        );
        self.requests.push(Request {
            id: urb.id,
            bus: urb.bus,
            device: urb.device,
            wanted,
        })?;
        Ok(())
    }

    /// Takes what a device answers.
    fn take_answer(&mut self, found: &mut Found, urb: &Urb) -> Result<()> {
        let request = self
            .requests
            .iter()
            .find(|it| it.id == urb.id && it.bus == urb.bus && it.device == urb.device)
            .copied();
        self.requests
            .retain(|it| it.id != urb.id || it.bus != urb.bus);
        let Some(request) = request else {
            return Ok(());
        };
        if urb.event != Event::Done {
            return Ok(());
        }
        urb.whole()?;
        match request.wanted {
            Wanted::Configuration => self.take_configuration(urb),
            // A device that isn't ready yet answers nothing, and is asked again.
            Wanted::Report(_interface) if urb.data.is_empty() => Ok(()),
            Wanted::Report(interface) => take_descriptor(found, urb, interface),
        }
    }

    /// Takes the endpoints of a configuration that is there as a whole.
    fn take_configuration(&mut self, urb: &Urb) -> Result<()> {
        if total_length(urb.data) != Some(urb.data.len()) {
            return Ok(());
        }
        add_endpoints(&mut self.endpoints, urb.bus, urb.device, urb.data)?;
        ensure!(self.endpoints.len() <= MOST, "more than {MOST} endpoints");
        Ok(())
    }

    /// Takes what an endpoint sent.
    fn take_report(&mut self, found: &mut Found, urb: &Urb) -> Result<()> {
        if urb.endpoint & 0x80 == 0 || urb.length == 0 {
            return Ok(());
        }
        let Some(endpoint) = self.endpoint_of(urb) else {
            return Ok(self.strays.take(urb)?);
        };
        if !endpoint.is_hid {
            return Ok(());
        }
        urb.whole()?;
        let alloc = *found.devices.allocator();
        let address = address_of(alloc, urb, endpoint.interface)?;
        let mut report = report_of(alloc, urb)?;
        report.device = found.device_called(address.as_str())?;
        report.address = Some(address);
        Ok(found.add_report(report)?)
    }

    /// The endpoint of a transfer, where all configurations have it in one interface.
    fn endpoint_of(&self, urb: &Urb) -> Option<Endpoint> {
        self.endpoints
            .iter()
            .find(|it| it.bus == urb.bus
                && it.device == urb.device
                && it.address == urb.endpoint
                && !it.is_unsure)
            .copied()
    }

    /// Takes behind the last packet what is left: where reports are wanted, and one endpoint alone sent
    /// some, these are the reports; else it is said that they are left out.
    pub fn end(&mut self, found: &mut Found, wanted: GivenWanted) -> Result<()> {
        let is_alone = found.devices.is_empty();
        Ok(
            self.strays
                .end(found, is_alone && wanted == GivenWanted::Reports)?,
        )
    }
}

/// What a setup packet asks for: GET_DESCRIPTOR of a configuration, or of an interface's report
/// descriptor.
fn wanted_by(setup: &[u8]) -> Option<Wanted> {
    match setup {
        [0x80, 6, _, 0x02, ..] => Some(Wanted::Configuration),
        [0x81, 6, _, 0x22, interface, ..] => Some(Wanted::Report(*interface)),
        _ => None,
    }
}

/// Takes the report descriptor of an interface.
fn take_descriptor(found: &mut Found, urb: &Urb, interface: u8) -> Result<()> {
    let alloc = *found.devices.allocator();
    let address = address_of(alloc, urb, interface)?;
    let number = found.device_called(address.as_str())?;
    found.add_descriptor(number, Vec::from_slice(alloc, urb.data)?)
}

/// What an interface is called: its bus, its device and its number, as usbhid-dump has them.
fn address_of(alloc: Global, urb: &Urb, interface: u8) -> Result<String, AllocError> {
    let (bus, device) = (urb.bus, urb.device);
    let mut address = String::new(alloc);
    write!(address, "{bus:03}:{device:03}:{interface:03}")?;
    Ok(address)
}
