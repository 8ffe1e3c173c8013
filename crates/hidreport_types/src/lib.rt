//! The numbers that the items of a USB HID report descriptor carry, each as a type of its own.
//!
//! - Global items (Section 6.2.2.7 of the standard, USB HID 1.11): [`UsagePage`],
//!   [`LogicalMinimum`], [`LogicalMaximum`], [`PhysicalMinimum`], [`PhysicalMaximum`],
//!   [`UnitExponent`], [`Unit`], [`ReportSize`], [`ReportId`], [`ReportCount`].
//! - Local items (Section 6.2.2.8): [`UsageId`], [`UsageMinimum`], [`UsageMaximum`],
//!   [`DesignatorIndex`], [`StringIndex`] and their minima and maxima, [`Delimiter`].
//! - Parts of a unit: [`UnitSystem`], [`Units`].
//!
//! `From` makes the type of a plain number, as in `ReportSize::from(8)`, and the plain number of
//! the type, as in `usize::from(size)`; both keep the number as it is. `Display` writes it in
//! decimal, and a `Unit` as text, such as `cms⁻²`. These conversions, the texts and the table of
//! units are proved ([docs/PROVED.md](../../../docs/PROVED.md)).
//!
//! Licence: MIT (LICENSE); a port of the Rust crate `hidreport` 0.6.0.
#![tactic(auto)]

mod decimal;
mod exponent;
mod global;
mod local;
mod unit;
mod unit_system;
mod units;

pub use exponent::UnitExponent;
pub use global::{
    LogicalMaximum, LogicalMinimum, PhysicalMaximum, PhysicalMinimum, ReportCount, ReportId,
    ReportSize, UsagePage,
};
pub use local::{
    Delimiter, DesignatorIndex, DesignatorMaximum, DesignatorMinimum, StringIndex, StringMaximum,
    StringMinimum, UsageId, UsageMaximum, UsageMinimum,
};
pub use unit::Unit;
pub use unit_system::UnitSystem;
pub use units::Units;
