//! The packets of a file of pcap or pcapng, one after the other.
use crate::byte_order::ByteOrder;
use crate::capture::Capture;
use crate::stamp::Stamp;
use anyhow::{Context, Result, bail, ensure};
use hid_given::{Found, Wanted};
use std::alloc::Global;

/// The types of the blocks of pcapng that are read.
const SECTION: u32 = 0x0a0d_0d0a;

const INTERFACE: u32 = 1;

const OLD_PACKET: u32 = 2;

const SIMPLE_PACKET: u32 = 3;

const PACKET: u32 = 6;

/// What tells the order of bytes in a section.
const ORDER: u32 = 0x1a2b_3c4d;

/// How many bytes stand before the packets of pcap, and before each packet.
const FILE_HEADER: usize = 24;

const RECORD_HEADER: usize = 16;

/// The option of an interface that says how long a tick is, and what it is where nothing is said.
const RESOLUTION: u16 = 9;

const MILLIONTHS: u8 = 6;

/// An interface of a section: its link type, and how long a tick is.
#[derive(Clone, Copy)]
struct Interface {
    link: u32,
    resolution: u8,
}

/// The most interfaces of a section.
const MOST_LINKS: usize = 4_096;

/// Whether bytes are the first of a capture.
pub fn is_capture(bytes: &[u8]) -> bool {
    file_order(bytes).is_some() || section_order(bytes).is_some()
}

/// Takes what the packets of a capture say.
///
/// # Errors
///
/// - the bytes are no capture, or it is cut short;
/// - a packet is cut short, or is neither of usbmon nor of USBPcap.
pub fn read_capture(alloc: Global, found: &mut Found, wanted: Wanted, bytes: &[u8]) -> Result<()> {
    let mut capture = Capture::new(alloc);
    if let Some(order) = file_order(bytes) {
        read_records(&mut capture, found, order, bytes)?;
    } else {
        read_blocks(&mut capture, found, bytes)?;
    }
    capture.end(found, wanted)
}

/// The order of a file of pcap, by its first four bytes and its version.
fn file_order(bytes: &[u8]) -> Option<ByteOrder> {
    [ByteOrder::Little, ByteOrder::Big].iter().copied().find(|order| {
        matches!(order.u32_at(bytes, 0), Some(0xa1b2_c3d4 | 0xa1b2_3c4d))
            && order.u16_at(bytes, 4) == Some(2)
            && order.u16_at(bytes, 6) == Some(4)
    })
}

/// The order of a section of pcapng that begins with these bytes.
fn section_order(bytes: &[u8]) -> Option<ByteOrder> {
    [ByteOrder::Little, ByteOrder::Big].iter().copied().find(|order| {
        order.u32_at(bytes, 0) == Some(SECTION) && order.u32_at(bytes, 8) == Some(ORDER)
    })
}

/// Takes the packets of pcap.
fn read_records(
    capture: &mut Capture,
    found: &mut Found,
    order: ByteOrder,
    bytes: &[u8],
) -> Result<()> {
    let (Some(link), Some((_head, mut rest))) = (
        order.u32_at(bytes, 20),
        bytes.split_at_checked(FILE_HEADER),
    ) else {
        bail!("the capture is cut short");
    };
    let resolution = if order.u32_at(bytes, 0) == Some(0xa1b2_3c4d) {
        9
    } else {
        6
    };
    let mut number = 0u64;
    for _ in 0..bytes.len() {
        if rest.is_empty() {
            break;
        }
        number = number.saturating_add(1);
        let Some((packet, behind)) = record_of(order, rest) else {
            bail!("packet {number}: the capture is cut short");
        };
        let time = record_time(order, resolution, rest);
        rest = behind;
        capture
            .take(found, order, link, time, packet)
            .context(format_args!("packet {number}"))?;
    }
    Ok(())
}

/// The first packet of pcap's records, and what stands behind it.
fn record_of(order: ByteOrder, rest: &[u8]) -> Option<(&[u8], &[u8])> {
    let length = usize::try_from(order.u32_at(rest, 8)?).ok()?;
    let (_head, behind) = rest.split_at_checked(RECORD_HEADER)?;
    behind.split_at_checked(length)
}

/// When the first packet of pcap's records came.
fn record_time(order: ByteOrder, resolution: u8, rest: &[u8]) -> Stamp {
    let (Some(seconds), Some(part)) = (order.u32_at(rest, 0), order.u32_at(rest, 4)) else {
        return Stamp::none();
    };
    let part = Stamp::of_ticks(u64::from(part), resolution);
    Stamp {
        seconds: u64::from(seconds).saturating_add(part.seconds),
        micros: part.micros,
    }
}

/// Takes the packets of pcapng.
fn read_blocks(capture: &mut Capture, found: &mut Found, bytes: &[u8]) -> Result<()> {
    let Some(first) = section_order(bytes) else {
        bail!("is no capture of pcap or pcapng");
    };
    let mut order = first;
    let mut links: Vec<Interface> = Vec::new(*found.devices.allocator());
    let (mut rest, mut number) = (bytes, 0u64);
    for _ in 0..bytes.len() {
        if rest.is_empty() {
            break;
        }
        if let Some(own) = section_order(rest) {
            order = own;
            links.clear();
        }
        let place = bytes.len().saturating_sub(rest.len());
        let Some((kind, body, behind)) = block_of(order, rest) else {
            bail!("the block at byte {place} is cut short");
        };
        rest = behind;
        match kind {
            INTERFACE => {
                ensure!(
                    links.len() < MOST_LINKS,
                    "more than {MOST_LINKS} interfaces"
                );
                let Some(link) = order.u16_at(body, 0) else {
                    bail!("the block at byte {place} is cut short");
                };
                let (link, resolution) = (u32::from(link), resolution_in(order, body));
                links.push(Interface { link, resolution })?;
            }
            PACKET | SIMPLE_PACKET => {
                number = number.saturating_add(1);
                take_block(capture, found, order, &links, kind, body).context(format_args!(
                    "packet {number}"
                ))?;
            }
            OLD_PACKET => bail!("the block at byte {place} is of a kind that isn't read"),
            _ => {}
        }
    }
    Ok(())
}

/// The first block: its type, what stands in it, and what behind it.
fn block_of(order: ByteOrder, rest: &[u8]) -> Option<(u32, &[u8], &[u8])> {
    let kind = order.u32_at(rest, 0)?;
    let length = usize::try_from(order.u32_at(rest, 4)?).ok()?;
    let (block, behind) = rest.split_at_checked(length)?;
    let last = length.checked_sub(4)?;
    if length % 4 != 0 || order.u32_at(block, last) != order.u32_at(block, 4) {
        return None;
    }
    Some((kind, block.get(8..last)?, behind))
}

/// Takes a block with a packet.
fn take_block(
    capture: &mut Capture,
    found: &mut Found,
    order: ByteOrder,
    links: &[Interface],
    kind: u32,
    body: &[u8],
) -> Result<()> {
    let Some((number, packet)) = packet_in(order, kind, body) else {
        bail!("is cut short");
    };
    match links.get(number) {
        Some(interface) => {
            let time = time_in(order, *interface, kind, body);
            capture.take(found, order, interface.link, time, packet)
        }
        None => bail!("is of the interface {number}, which no block describes"),
    }
}

/// When the packet of a block came; a simple one doesn't say it.
fn time_in(order: ByteOrder, interface: Interface, kind: u32, body: &[u8]) -> Stamp {
    match (kind, order.u32_at(body, 4), order.u32_at(body, 8)) {
        (PACKET, Some(high), Some(low)) => {
            let ticks = u64::from(high) << 32 | u64::from(low);
            Stamp::of_ticks(ticks, interface.resolution)
        }
        _ => Stamp::none(),
    }
}

/// What the block of an interface says of a tick: millionths where it says nothing.
fn resolution_in(order: ByteOrder, body: &[u8]) -> u8 {
    let mut rest = body.get(8..).unwrap_or(&[]);
    for _ in 0..body.len() {
        let (Some(code), Some(length)) = (order.u16_at(rest, 0), order.u16_at(rest, 2)) else {
            break;
        };
        let length = usize::from(length);
        if code == RESOLUTION && length == 1 {
            return rest.get(4).copied().unwrap_or(MILLIONTHS);
        }
        let behind = length.div_ceil(4).saturating_mul(4).saturating_add(4);
        rest = rest.get(behind..).unwrap_or(&[]);
    }
    MILLIONTHS
}

/// The number of the interface that a block is of, and its packet.
fn packet_in(order: ByteOrder, kind: u32, body: &[u8]) -> Option<(usize, &[u8])> {
    if kind == SIMPLE_PACKET {
        let length = usize::try_from(order.u32_at(body, 0)?).ok()?;
        let (_head, packet) = body.split_at_checked(4)?;
        return Some((0, packet.get(..length.min(packet.len()))?));
    }
    let number = usize::try_from(order.u32_at(body, 0)?).ok()?;
    let length = usize::try_from(order.u32_at(body, 12)?).ok()?;
    let (_head, packet) = body.split_at_checked(20)?;
    Some((number, packet.get(..length)?))
}
