//! Captures of USB traffic that `hid` reads: files of pcap and pcapng, of usbmon or USBPcap.
//! Licence: MIT (LICENSE).
#![tactic(auto)]

mod byte_order;
mod capture;
mod interfaces;
mod packets;
mod stamp;
mod strays;
mod urb;

pub use packets::{is_capture, read_capture};
