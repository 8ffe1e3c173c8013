//! The items of a USB HID report descriptor in order: cut from its bytes, and joined into bytes.
//!
//! - [`ReportDescriptorItems`]: all items of a descriptor, each with its offset (Section 6.2.2 of
//!   the standard, USB HID 1.11); [`front_item`]: the first of them alone, without memory.
//! - [`AnyItem`], [`ShortItem`], [`LongItem`]: one item with the bytes that spell it, by [`Item`].
//! - [`ReportDescriptorBuilder`]: makes a descriptor, one item after the other.
//! - [`rebuild`]: writes a descriptor anew, each item in its shortest spelling.
//! - [`ParserError`]: why a descriptor, or the bytes of a report, can't be read.
//!
//! The items that bytes are cut into, the first fault with its offset and message, and the bytes
//! that are built or rebuilt are proved for every input, want of memory apart
//! ([docs/PROVED.md](../../../docs/PROVED.md)).
//!
//! Licence: MIT (LICENSE); a port of the Rust crate `hidreport` 0.6.0.
#![tactic(auto)]

mod any_item;
mod data;
mod descriptor_builder;
mod descriptor_builder_rules;
mod descriptor_builder_state;
mod error;
mod fault;
mod front;
mod laws;
mod list;
mod long_item;
mod mending;
mod rebuilding;
mod short_item;

pub use any_item::AnyItem;
pub use data::ItemData;
pub use descriptor_builder::ReportDescriptorBuilder;
pub use descriptor_builder_rules::{MayBuild, MayClose, MayOpen, MayPop, MayPush};
pub use descriptor_builder_state::{
    ReportDescriptorBuilderC1, ReportDescriptorBuilderC1Push, ReportDescriptorBuilderC2,
    ReportDescriptorBuilderC2Push, ReportDescriptorBuilderC3, ReportDescriptorBuilderC3Push,
    ReportDescriptorBuilderC4, ReportDescriptorBuilderC4Push, ReportDescriptorBuilderC5,
    ReportDescriptorBuilderC5Push, ReportDescriptorBuilderC6, ReportDescriptorBuilderC6Push,
    ReportDescriptorBuilderC7, ReportDescriptorBuilderC7Push, ReportDescriptorBuilderC8,
    ReportDescriptorBuilderC8Push, ReportDescriptorBuilderState, ReportDescriptorBuilderToplevel,
    ReportDescriptorBuilderToplevelPush,
};
pub use error::ParserError;
pub use front::{FrontItem, FrontParts, PlacedFault, check_items, front_item, front_parts};
pub use laws::bytes_are_items_or_have_a_fault;
pub use list::{ReportDescriptorItem, ReportDescriptorItems};
pub use long_item::LongItem;
pub use mending::{Piece, Reason, pieces};
pub use rebuilding::rebuild;
pub use short_item::{Item, ShortItem};
