//! The numbers of global items: they stay in force until they are set again.
ghost use Rattle.std.specs.Prelude.{◌≡◌, ℕ, ℤ, Some, decimal};
ghost use Rattle.std.specs.Fmt.{signed_decimal};

use crate::decimal::write_decimal;
use std::fmt;
use std::marker::Model;

/// A usage page: the group that a usage belongs to (Section 6.2.2.7).
#[derive(Clone, Copy, Debug, PartialEq, PartialOrd)]
pub struct UsagePage(u16);

impl Model for UsagePage {
    ghost Value = { ℕ };

    ghost view = { λ w. w.0 };

    ghost inverse = { λ n. record { 0 = n } };
}

impl From<u16> for UsagePage {
    ghost from_gives = { λ number wrapper. wrapper ≡ number };

    fn from(number: u16) -> UsagePage {
        UsagePage(number)
    }
}

impl From<&UsagePage> for u16 {
    ghost from_gives = { λ wrapper number. number ≡ wrapper.now };

    fn from(usage_page: &UsagePage) -> u16 {
        usage_page.0
    }
}

impl From<UsagePage> for u16 {
    ghost from_gives = { λ wrapper number. number ≡ wrapper };

    fn from(usage_page: UsagePage) -> u16 {
        u16::from(&usage_page)
    }
}

/// Writes the number in decimal; a width, a fill or a sign that the format asks for is ignored.
impl fmt::Display for UsagePage {
    ghost output = { λ wrapper. Some (decimal wrapper) };

    ghost styled_output = { λ wrapper _. Some (decimal wrapper) };

    fn fmt<W: fmt::Write>(&self, f: &mut fmt::Formatter<W>) -> fmt::Result {
        let usage_page = self.0;
        write_decimal(f, usage_page)
    }
}

/// The least value that a field reports, in logical units (Section 6.2.2.7).
///
/// A field is signed exactly where this is below 0.
#[derive(Clone, Copy, Debug, PartialEq, PartialOrd)]
pub struct LogicalMinimum(i32);

impl Model for LogicalMinimum {
    ghost Value = { ℤ };

    ghost view = { λ w. w.0 };

    ghost inverse = { λ n. record { 0 = n } };
}

impl From<i32> for LogicalMinimum {
    ghost from_gives = { λ number wrapper. wrapper ≡ number };

    fn from(number: i32) -> LogicalMinimum {
        LogicalMinimum(number)
    }
}

impl From<&LogicalMinimum> for i32 {
    ghost from_gives = { λ wrapper number. number ≡ wrapper.now };

    fn from(logical_minimum: &LogicalMinimum) -> i32 {
        logical_minimum.0
    }
}

impl From<LogicalMinimum> for i32 {
    ghost from_gives = { λ wrapper number. number ≡ wrapper };

    fn from(logical_minimum: LogicalMinimum) -> i32 {
        i32::from(&logical_minimum)
    }
}

/// Writes the number in decimal; a width, a fill or a sign that the format asks for is ignored.
impl fmt::Display for LogicalMinimum {
    ghost output = { λ wrapper. Some (signed_decimal wrapper) };

    ghost styled_output = { λ wrapper _. Some (signed_decimal wrapper) };

    fn fmt<W: fmt::Write>(&self, f: &mut fmt::Formatter<W>) -> fmt::Result {
        let logical_minimum = self.0;
        write_decimal(f, logical_minimum)
    }
}

/// The greatest value that a field reports, in logical units (Section 6.2.2.7).
#[derive(Clone, Copy, Debug, PartialEq, PartialOrd)]
pub struct LogicalMaximum(i32);

impl Model for LogicalMaximum {
    ghost Value = { ℤ };

    ghost view = { λ w. w.0 };

    ghost inverse = { λ n. record { 0 = n } };
}

impl From<i32> for LogicalMaximum {
    ghost from_gives = { λ number wrapper. wrapper ≡ number };

    fn from(number: i32) -> LogicalMaximum {
        LogicalMaximum(number)
    }
}

impl From<&LogicalMaximum> for i32 {
    ghost from_gives = { λ wrapper number. number ≡ wrapper.now };

    fn from(logical_maximum: &LogicalMaximum) -> i32 {
        logical_maximum.0
    }
}

impl From<LogicalMaximum> for i32 {
    ghost from_gives = { λ wrapper number. number ≡ wrapper };

    fn from(logical_maximum: LogicalMaximum) -> i32 {
        i32::from(&logical_maximum)
    }
}

/// Writes the number in decimal; a width, a fill or a sign that the format asks for is ignored.
impl fmt::Display for LogicalMaximum {
    ghost output = { λ wrapper. Some (signed_decimal wrapper) };

    ghost styled_output = { λ wrapper _. Some (signed_decimal wrapper) };

    fn fmt<W: fmt::Write>(&self, f: &mut fmt::Formatter<W>) -> fmt::Result {
        let logical_maximum = self.0;
        write_decimal(f, logical_maximum)
    }
}

/// What the logical minimum stands for, in physical units (Section 6.2.2.7).
#[derive(Clone, Copy, Debug, PartialEq, PartialOrd)]
pub struct PhysicalMinimum(i32);

impl Model for PhysicalMinimum {
    ghost Value = { ℤ };

    ghost view = { λ w. w.0 };

    ghost inverse = { λ n. record { 0 = n } };
}

impl From<i32> for PhysicalMinimum {
    ghost from_gives = { λ number wrapper. wrapper ≡ number };

    fn from(number: i32) -> PhysicalMinimum {
        PhysicalMinimum(number)
    }
}

impl From<&PhysicalMinimum> for i32 {
    ghost from_gives = { λ wrapper number. number ≡ wrapper.now };

    fn from(physical_minimum: &PhysicalMinimum) -> i32 {
        physical_minimum.0
    }
}

impl From<PhysicalMinimum> for i32 {
    ghost from_gives = { λ wrapper number. number ≡ wrapper };

    fn from(physical_minimum: PhysicalMinimum) -> i32 {
        i32::from(&physical_minimum)
    }
}

/// Writes the number in decimal; a width, a fill or a sign that the format asks for is ignored.
impl fmt::Display for PhysicalMinimum {
    ghost output = { λ wrapper. Some (signed_decimal wrapper) };

    ghost styled_output = { λ wrapper _. Some (signed_decimal wrapper) };

    fn fmt<W: fmt::Write>(&self, f: &mut fmt::Formatter<W>) -> fmt::Result {
        let physical_minimum = self.0;
        write_decimal(f, physical_minimum)
    }
}

/// What the logical maximum stands for, in physical units (Section 6.2.2.7).
#[derive(Clone, Copy, Debug, PartialEq, PartialOrd)]
pub struct PhysicalMaximum(i32);

impl Model for PhysicalMaximum {
    ghost Value = { ℤ };

    ghost view = { λ w. w.0 };

    ghost inverse = { λ n. record { 0 = n } };
}

impl From<i32> for PhysicalMaximum {
    ghost from_gives = { λ number wrapper. wrapper ≡ number };

    fn from(number: i32) -> PhysicalMaximum {
        PhysicalMaximum(number)
    }
}

impl From<&PhysicalMaximum> for i32 {
    ghost from_gives = { λ wrapper number. number ≡ wrapper.now };

    fn from(physical_maximum: &PhysicalMaximum) -> i32 {
        physical_maximum.0
    }
}

impl From<PhysicalMaximum> for i32 {
    ghost from_gives = { λ wrapper number. number ≡ wrapper };

    fn from(physical_maximum: PhysicalMaximum) -> i32 {
        i32::from(&physical_maximum)
    }
}

/// Writes the number in decimal; a width, a fill or a sign that the format asks for is ignored.
impl fmt::Display for PhysicalMaximum {
    ghost output = { λ wrapper. Some (signed_decimal wrapper) };

    ghost styled_output = { λ wrapper _. Some (signed_decimal wrapper) };

    fn fmt<W: fmt::Write>(&self, f: &mut fmt::Formatter<W>) -> fmt::Result {
        let physical_maximum = self.0;
        write_decimal(f, physical_maximum)
    }
}

/// How many bits one element of a field takes (Section 6.2.2.7).
#[derive(Clone, Copy, Debug, PartialEq, Eq)]
pub struct ReportSize(usize);

impl Model for ReportSize {
    ghost Value = { ℕ };

    ghost view = { λ w. w.0 };

    ghost inverse = { λ n. record { 0 = n } };
}

impl From<usize> for ReportSize {
    ghost from_gives = { λ number wrapper. wrapper ≡ number };

    fn from(number: usize) -> ReportSize {
        ReportSize(number)
    }
}

impl From<&ReportSize> for usize {
    ghost from_gives = { λ wrapper number. number ≡ wrapper.now };

    fn from(report_size: &ReportSize) -> usize {
        report_size.0
    }
}

impl From<ReportSize> for usize {
    ghost from_gives = { λ wrapper number. number ≡ wrapper };

    fn from(report_size: ReportSize) -> usize {
        usize::from(&report_size)
    }
}

/// Writes the number in decimal; a width, a fill or a sign that the format asks for is ignored.
impl fmt::Display for ReportSize {
    ghost output = { λ wrapper. Some (decimal wrapper) };

    ghost styled_output = { λ wrapper _. Some (decimal wrapper) };

    fn fmt<W: fmt::Write>(&self, f: &mut fmt::Formatter<W>) -> fmt::Result {
        let report_size = self.0;
        write_decimal(f, report_size)
    }
}

/// The number in a report's first byte, by which reports are told apart (Section 6.2.2.7).
#[derive(Clone, Copy, Debug, PartialEq, Eq, Hash)]
pub struct ReportId(u8);

impl Model for ReportId {
    ghost Value = { ℕ };

    ghost view = { λ w. w.0 };

    ghost inverse = { λ n. record { 0 = n } };
}

impl From<u8> for ReportId {
    ghost from_gives = { λ number wrapper. wrapper ≡ number };

    fn from(number: u8) -> ReportId {
        ReportId(number)
    }
}

impl From<&ReportId> for u8 {
    ghost from_gives = { λ wrapper number. number ≡ wrapper.now };

    fn from(report_id: &ReportId) -> u8 {
        report_id.0
    }
}

impl From<ReportId> for u8 {
    ghost from_gives = { λ wrapper number. number ≡ wrapper };

    fn from(report_id: ReportId) -> u8 {
        u8::from(&report_id)
    }
}

impl From<&ReportId> for ReportId {
    ghost from_gives = { λ old new. new ≡ old.now };

    fn from(same_report_id: &ReportId) -> ReportId {
        *same_report_id
    }
}

/// Writes the number in decimal; a width, a fill or a sign that the format asks for is ignored.
impl fmt::Display for ReportId {
    ghost output = { λ wrapper. Some (decimal wrapper) };

    ghost styled_output = { λ wrapper _. Some (decimal wrapper) };

    fn fmt<W: fmt::Write>(&self, f: &mut fmt::Formatter<W>) -> fmt::Result {
        let report_id = self.0;
        write_decimal(f, report_id)
    }
}

/// How many elements a data item announces (Section 6.2.2.7).
#[derive(Clone, Copy, Debug, PartialEq, Eq)]
pub struct ReportCount(usize);

impl Model for ReportCount {
    ghost Value = { ℕ };

    ghost view = { λ w. w.0 };

    ghost inverse = { λ n. record { 0 = n } };
}

impl From<usize> for ReportCount {
    ghost from_gives = { λ number wrapper. wrapper ≡ number };

    fn from(number: usize) -> ReportCount {
        ReportCount(number)
    }
}

impl From<&ReportCount> for usize {
    ghost from_gives = { λ wrapper number. number ≡ wrapper.now };

    fn from(report_count: &ReportCount) -> usize {
        report_count.0
    }
}

impl From<ReportCount> for usize {
    ghost from_gives = { λ wrapper number. number ≡ wrapper };

    fn from(report_count: ReportCount) -> usize {
        usize::from(&report_count)
    }
}

/// Writes the number in decimal; a width, a fill or a sign that the format asks for is ignored.
impl fmt::Display for ReportCount {
    ghost output = { λ wrapper. Some (decimal wrapper) };

    ghost styled_output = { λ wrapper _. Some (decimal wrapper) };

    fn fmt<W: fmt::Write>(&self, f: &mut fmt::Formatter<W>) -> fmt::Result {
        let report_count = self.0;
        write_decimal(f, report_count)
    }
}
