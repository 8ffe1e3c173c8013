//! What a packet says of a transfer, in front of its data: as Linux's usbmon or Windows' USBPcap has it.
use crate::byte_order::ByteOrder;
use crate::stamp::Stamp;
use anyhow::{Result, anyhow};

/// The kind of control transfers.
pub const CONTROL: u8 = 2;

/// The kind of interrupts.
pub const INTERRUPT: u8 = 1;

/// Who wrote packets.
#[derive(Clone, Copy)]
pub enum Link {
    /// Linux's usbmon, with so many bytes before the data.
    Usbmon(usize),

    /// USBPcap, whose packets say how many bytes stand before the data.
    Usbpcap,
}

/// Two of USBPcap's stages of a control transfer: it is asked for, and it is answered at once.
const SETUP: u8 = 0;

const COMPLETE: u8 = 3;

/// What a packet tells of a transfer.
#[derive(Clone, Copy, PartialEq)]
pub enum Event {
    /// It was submitted.
    Submitted,

    /// It is done, without a fault.
    Done,

    /// It failed, or the packet tells something else.
    Failed,
}

/// A transfer, at one of its events.
#[derive(Clone, Copy)]
pub struct Urb<'a> {
    /// What tells its events from those of others.
    pub id: u64,
    /// What happened.
    pub event: Event,
    /// Its kind: `CONTROL`, `INTERRUPT`, or another.
    pub kind: u8,
    /// The endpoint, with bit 7 where data come from the device.
    pub endpoint: u8,
    /// The bus and the device on it.
    pub bus: u16,
    pub device: u8,
    /// When it happened.
    pub time: Stamp,
    /// The setup packet, where one is there.
    pub setup: Option<&'a [u8]>,
    /// The data, where the packet has some; how many there were.
    pub data: &'a [u8],
    pub length: usize,
}

/// Who writes packets of a link type, where they are read.
pub fn link_of(number: u32) -> Option<Link> {
    match number {
        189 => Some(Link::Usbmon(48)),
        220 => Some(Link::Usbmon(64)),
        249 => Some(Link::Usbpcap),
        _ => None,
    }
}

impl<'a> Urb<'a> {
    /// What a packet says, which the capture has of this time; none where it ends in the part before
    /// the data.
    pub fn of(link: Link, order: ByteOrder, time: Stamp, packet: &'a [u8]) -> Option<Urb<'a>> {
        match link {
            Link::Usbmon(header) => Urb::of_usbmon(order, header, packet),
            Link::Usbpcap => Urb::of_usbpcap(time, packet),
        }
    }

    /// What a packet of USBPcap says: its numbers have the lowest byte first in every capture.
    fn of_usbpcap(time: Stamp, packet: &'a [u8]) -> Option<Urb<'a>> {
        let order = ByteOrder::Little;
        let header = usize::from(order.u16_at(packet, 0)?);
        let (head, data) = packet.split_at_checked(header)?;
        let is_answer = *head.get(16)? & 1 == 1;
        let kind = *head.get(22)?;
        let stage = head.get(27).copied().unwrap_or(COMPLETE);
        let is_good = order.u32_at(head, 10)? == 0;
        Some(Urb {
            id: order.u64_at(head, 2)?,
            event: match (is_answer, is_good) {
                (false, _) => Event::Submitted,
                (true, true) => Event::Done,
                (true, false) => Event::Failed,
            },
            kind,
            endpoint: *head.get(21)?,
            bus: order.u16_at(head, 17)?,
            device: u8::try_from(order.u16_at(head, 19)?).ok()?,
            time,
            setup: if kind == CONTROL && !is_answer && stage == SETUP {
                data.get(..8)
            } else {
                None
            },
            data,
            length: usize::try_from(order.u32_at(head, 23)?).ok()?,
        })
    }

    /// What a packet of usbmon says.
    fn of_usbmon(order: ByteOrder, header: usize, packet: &'a [u8]) -> Option<Urb<'a>> {
        let (head, data) = packet.split_at_checked(header)?;
        let captured = usize::try_from(order.u32_at(head, 36)?).ok()?;
        let is_there = *head.get(15)? == 0;
        let (data, _behind) = data.split_at_checked(captured).unwrap_or((data, data));
        let none: &[u8] = head.get(..0)?;
        Some(Urb {
            id: order.u64_at(head, 0)?,
            event: event_of(*head.get(8)?, order.u32_at(head, 28)?),
            kind: *head.get(9)?,
            endpoint: *head.get(10)?,
            bus: order.u16_at(head, 12)?,
            device: *head.get(11)?,
            time: Stamp {
                seconds: order.u64_at(head, 16)?,
                micros: order.u32_at(head, 24)?,
            },
            setup: if *head.get(14)? == 0 {
                head.get(40..48)
            } else {
                None
            },
            data: if is_there { data } else { none },
            length: usize::try_from(order.u32_at(head, 32)?).ok()?,
        })
    }

    /// All data of the transfer.
    ///
    /// # Errors
    ///
    /// - the packet has not all of them.
    pub fn whole(&self) -> Result<()> {
        let (got, length) = (self.data.len(), self.length);
        if got != length {
            return Err(anyhow!("has {got} of the {length} bytes of its transfer"));
        }
        Ok(())
    }
}

/// What happened, by usbmon's letter and the status.
fn event_of(letter: u8, status: u32) -> Event {
    match letter {
        b'S' => Event::Submitted,
        b'C' if status == 0 => Event::Done,
        _ => Event::Failed,
    }
}
