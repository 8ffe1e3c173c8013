//! The endpoints of the devices in a capture, by their configurations.
use std::alloc::AllocError;

/// The types of an interface and of an endpoint, in a descriptor's second byte.
const INTERFACE: u8 = 4;

const ENDPOINT: u8 = 5;

/// The class HID.
const HID: u8 = 3;

/// An endpoint that sends by interrupts.
#[derive(Clone, Copy)]
pub struct Endpoint {
    /// The bus, and the device on it.
    pub bus: u16,
    pub device: u8,
    /// Its address, with bit 7.
    pub address: u8,
    /// The interface that has it.
    pub interface: u8,
    /// Whether that is of the class HID.
    pub is_hid: bool,
    /// Whether other configurations have it in another interface.
    pub is_unsure: bool,
}

/// How many bytes a configuration says that it has.
pub fn total_length(bytes: &[u8]) -> Option<usize> {
    let number = *bytes.get(2..)?.first_chunk::<2>()?;
    Some(usize::from(u16::from_le_bytes(number)))
}

/// Appends the endpoints of a device's configuration, up to a descriptor that is cut short.
pub fn add_endpoints(
    endpoints: &mut Vec<Endpoint>,
    bus: u16,
    device: u8,
    bytes: &[u8],
) -> Result<(), AllocError> {
    let (mut interface, mut is_hid) = (0u8, false);
    let mut rest = bytes;
    for _ in 0..bytes.len() {
        let Some((part, behind)) = first_of(rest) else {
            break;
        };
        rest = behind;
        let (kind, third) = (byte_at(part, 1), byte_at(part, 2));
        if kind == INTERFACE {
            interface = third;
            is_hid = byte_at(part, 5) == HID;
        } else if kind == ENDPOINT && third & 0x80 != 0 && byte_at(part, 3) & 3 == 3 {
            add_endpoint(
                endpoints,
                Endpoint {
                    bus,
                    device,
                    address: third,
                    interface,
                    is_hid,
                    is_unsure: false,
                },
            )?;
        }
    }
    Ok(())
}

/// The first of the descriptors behind each other, and what stands behind it.
fn first_of(rest: &[u8]) -> Option<(&[u8], &[u8])> {
    let length = usize::from(*rest.first()?);
    if length < 2 {
        return None;
    }
    rest.split_at_checked(length)
}

/// A byte of a descriptor; 0 behind its end.
fn byte_at(part: &[u8], place: usize) -> u8 {
    part.get(place).copied().unwrap_or(0)
}

/// Appends an endpoint that isn't there yet.
fn add_endpoint(endpoints: &mut Vec<Endpoint>, endpoint: Endpoint) -> Result<(), AllocError> {
    for own in endpoints.iter_mut() {
        if own.bus == endpoint.bus
            && own.device == endpoint.device
            && own.address == endpoint.address
        {
            own.is_unsure |= own.interface != endpoint.interface || own.is_hid != endpoint.is_hid;
            return Ok(());
        }
    }
    endpoints.push(endpoint)?;
    Ok(())
}
