//! USB HID report descriptors parsed into reports and fields, and values read and written by them.
//!
//! A device announces its reports by a report descriptor, a byte string of items (Section 6.2.2 of
//! the standard, USB HID 1.11). This crate parses descriptors, also of devices that nobody vouches
//! for, finds each field's bits, sign, usages and ids, reads and writes values, and builds
//! descriptors.
//!
//! # Which type for what
//!
//! - [`ReportDescriptor`]: the reports that a descriptor announces, with all their fields.
//! - [`Outline`]: the same with a [`Group`] of fields for each main item, where fields are many, and
//!   each [`GroupCollection`] around it; [`PlacedOutline`] knows where each of these items stands.
//! - [`ParseOptions`]: limits, and by which rules a descriptor is read.
//! - [`Report`]: a report's id, length and fields; its `blank` makes the bytes of a new one.
//! - [`Field`]: a [`VariableField`], an [`ArrayField`] or padding, a [`ConstantField`]; `extract`
//!   reads its values, `insert` writes them, [`FieldAttributes`] has its flags.
//! - [`Reader`]: reads or writes all values of a report in one pass, where reports are many.
//! - [`Usage`], [`UsageRange`], [`Collection`]: what a field is for, and where it belongs.
//! - [`repair`], [`mend`]: make a descriptor that hosts accept one that is read.
//! - [`hid`]: items, lists of items, builders of items and descriptors, and `rebuild`.
//! - [`types`]: the numbers that items carry.
//! - [`ParserError`], [`InsertError`]: why bytes can't be read or written.
//!
//! Names of usages are in the crate `hidreport_usages`.
//!
//! # Example
//!
//! The movement of a mouse's wheel, 8 bits from -127 to 127, by a descriptor that nobody vouches
//! for; `alloc` is the allocator of the program's runtime:
//!
//! ```rust
//! use hidreport::{Field, ParseOptions, Report, ReportDescriptor};
//!
//! let bytes = b"\x05\x01\x09\x38\x15\x81\x25\x7f\x75\x08\x95\x01\x81\x06";
//! let descriptor = ReportDescriptor::try_from_with(alloc, bytes, ParseOptions::bounded())?;
//! let report = descriptor.find_input_report(b"\xfe").ok_or("no report")?;
//! let mut values = Vec::new(alloc);
//! for field in report.fields() {
//!     if let Field::Variable(field) = field {
//!         values.push(i32::from(field.extract(b"\xfe")?))?;
//!     }
//! }
//! assert_eq!(rt; values.as_slice(), [-2].as_slice());
//! ```
//!
//! # What is proved
//!
//! The contract of each call is proved for every input, want of memory apart: that a descriptor
//! yields exactly the reports of the standard's definition, or its first fault; that a value is the
//! number that the field's own bits write; that what is written is read again, and no other bit
//! changes. Every call ends and has no undefined behaviour.
//! [docs/PROVED.md](../../../docs/PROVED.md) has all clauses, and what is only tested; a name in
//! round brackets, such as (`exact`), is that of a clause.
//!
//! Licence: MIT (LICENSE); a port of the Rust crate `hidreport` 0.6.0.
#![tactic(auto)]

mod descriptor;
mod laws;
mod outline;
mod parse_options;
mod parser;
mod placed_outline;
mod repairing;
mod report;

/// The numbers that items carry, each as a type of its own (Sections 6.2.2.7 and 6.2.2.8).
pub mod types {
    pub use hidreport_types::{
        Delimiter, DesignatorIndex, DesignatorMaximum, DesignatorMinimum, LogicalMaximum,
        LogicalMinimum, PhysicalMaximum, PhysicalMinimum, ReportCount, ReportId, ReportSize,
        StringIndex, StringMaximum, StringMinimum, Unit, UnitExponent, UnitSystem, Units, UsageId,
        UsageMaximum, UsageMinimum, UsagePage,
    };
}

/// The items of a report descriptor, lists of them, and their builders (Section 6.2.2).
pub mod hid {
    pub use hidreport_items::{
        CollectionItem, FeatureItem, GlobalItem, HidError, IBAbsolute, IBArray, IBBitfield,
        IBBuffered, IBConstant, IBData, IBLinear, IBNoNull, IBNoPreferred, IBNoWrap, IBNonLinear,
        IBNonVolatile, IBNull, IBPreferred, IBRelative, IBSAbs, IBSArr, IBSBit, IBSData, IBSLin,
        IBSNull, IBSPref, IBSVol, IBSWrap, IBState, IBUndefined, IBUnsaid, IBVariable, IBVolatile,
        IBWrap, InputItem, ItemBuilder, ItemFault, ItemFlags, ItemType, LocalItem, MainDataItem,
        MainItem, OutputItem,
    };
    pub use hidreport_lists::{
        AnyItem, FrontItem, Item, ItemData, LongItem, MayBuild, MayClose, MayOpen, MayPop, MayPush,
        ReportDescriptorBuilder, ReportDescriptorBuilderC1, ReportDescriptorBuilderC1Push,
        ReportDescriptorBuilderC2, ReportDescriptorBuilderC2Push, ReportDescriptorBuilderC3,
        ReportDescriptorBuilderC3Push, ReportDescriptorBuilderC4, ReportDescriptorBuilderC4Push,
        ReportDescriptorBuilderC5, ReportDescriptorBuilderC5Push, ReportDescriptorBuilderC6,
        ReportDescriptorBuilderC6Push, ReportDescriptorBuilderC7, ReportDescriptorBuilderC7Push,
        ReportDescriptorBuilderC8, ReportDescriptorBuilderC8Push, ReportDescriptorBuilderState,
        ReportDescriptorBuilderToplevel, ReportDescriptorBuilderToplevelPush, ReportDescriptorItem,
        ReportDescriptorItems, ShortItem, front_item, rebuild,
    };
}

/// Numbers in the bits of a report, for callers who keep fields in a form of their own (Section 5.8);
/// `FieldValue::from_bits` reads them.
pub mod bits {
    pub use hidreport_fields::{all_fit, fits, put_values};
}

pub use descriptor::ReportDescriptor;
pub use hid::CollectionItem as CollectionType;
pub use hidreport_fields::{
    ArrayField, Collection, CollectionId, ConstantField, Direction, ElementNumbers, Field,
    FieldAttributes, FieldId, FieldValue, Fraction, InsertError, Usage, UsageRange, VariableField,
};
pub use hidreport_lists::{ParserError, Reason};
pub use laws::{
    blank_reports_have_their_id_alone, built_bytes_mean_their_items, hosts_agree_with_the_standard,
    scaled_values_lie_on_a_line, shared_collections_are_a_common_front,
};
pub use outline::Outline;
pub use parse_options::ParseOptions;
pub use parser::push_keeps::PushKeeps;
pub use parser::usages_by::UsagesBy;
pub use placed_outline::PlacedOutline;
pub use repairing::{Change, RepairOptions, Repaired, mend, repair};
pub use report::group::Group;
pub use report::group_collection::GroupCollection;
pub use report::item_place::ItemPlace;
pub use report::outline_report::OutlineReport;
pub use report::reader::Reader;
pub use report::{RDescReport, Report};
pub use types::{
    Delimiter, DesignatorIndex, DesignatorMaximum, DesignatorMinimum, LogicalMaximum,
    LogicalMinimum, PhysicalMaximum, PhysicalMinimum, ReportCount, ReportId, ReportSize,
    StringIndex, StringMaximum, StringMinimum, Unit, UnitExponent, UnitSystem, Units, UsageId,
    UsageMaximum, UsageMinimum, UsagePage,
};
