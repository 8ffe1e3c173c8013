//! The items of a USB HID report descriptor: read from bytes, written as bytes, built from flags.
//!
//! - [`ItemType`]: any item; [`MainItem`], [`GlobalItem`] and [`LocalItem`] are its three types
//!   (Sections 6.2.2.4, 6.2.2.7 and 6.2.2.8 of the standard, USB HID 1.11).
//! - [`InputItem`], [`OutputItem`], [`FeatureItem`]: the data items, with their flags by
//!   [`MainDataItem`] as [`ItemFlags`]; [`CollectionItem`]: the kinds of collections.
//! - [`ItemBuilder`]: makes a data item from its flags.
//! - [`HidError`]: why an item can't be read or written.
//!
//! `try_from` of each type reads an item, `as_bytes` writes it. The item that is read, the bytes
//! that are written and the message of each error are proved for every input, want of memory apart
//! ([docs/PROVED.md](../../../docs/PROVED.md)).
//!
//! Licence: MIT (LICENSE); a port of the Rust crate `hidreport` 0.6.0.
#![tactic(auto)]

mod builder_state;
mod conversions;
mod error;
mod feature;
mod flags;
mod global;
mod input;
mod item;
mod item_builder;
mod item_bytes;
mod item_fault;
mod local;
mod main_item;
mod message;
mod number;
mod output;
mod spelled;
mod writing;

pub use builder_state::{
    IBAbsolute, IBArray, IBBitfield, IBBuffered, IBConstant, IBData, IBLinear, IBNoNull,
    IBNoPreferred, IBNoWrap, IBNonLinear, IBNonVolatile, IBNull, IBPreferred, IBRelative, IBSAbs,
    IBSArr, IBSBit, IBSData, IBSLin, IBSNull, IBSPref, IBSVol, IBSWrap, IBState, IBUndefined,
    IBUnsaid, IBVariable, IBVolatile, IBWrap,
};
pub use error::HidError;
pub use feature::FeatureItem;
pub use flags::{ItemFlags, MainDataItem};
pub use global::{GlobalItem, read_global};
pub use input::InputItem;
pub use item::{ItemType, is_long_header, read_item, write_item};
pub use item_builder::ItemBuilder;
pub use item_bytes::ItemBytes;
pub use item_fault::ItemFault;
pub use local::{LocalItem, read_local};
pub use main_item::{CollectionItem, MainItem};
pub use message::{error_of, invalid_data, with_message};
pub use output::OutputItem;
