//! The numbers of local items: they end with the next main item.
ghost use Rattle.std.specs.Prelude.{◌≡◌, ℕ, ◌/◌, ◌%◌, Some, decimal};

use crate::decimal::write_decimal;
use crate::global::UsagePage;
use std::fmt;
use std::marker::Model;

/// A usage within its usage page: what a control is for (Section 6.2.2.8).
#[derive(Clone, Copy, Debug, PartialEq, PartialOrd)]
pub struct UsageId(u16);

impl Model for UsageId {
    ghost Value = { ℕ };

    ghost view = { λ w. w.0 };

    ghost inverse = { λ n. record { 0 = n } };
}

impl From<u16> for UsageId {
    ghost from_gives = { λ number wrapper. wrapper ≡ number };

    fn from(number: u16) -> UsageId {
        UsageId(number)
    }
}

impl From<&UsageId> for u16 {
    ghost from_gives = { λ wrapper number. number ≡ wrapper.now };

    fn from(usage_id: &UsageId) -> u16 {
        usage_id.0
    }
}

impl From<UsageId> for u16 {
    ghost from_gives = { λ wrapper number. number ≡ wrapper };

    fn from(usage_id: UsageId) -> u16 {
        u16::from(&usage_id)
    }
}

/// Writes the number in decimal; a width, a fill or a sign that the format asks for is ignored.
impl fmt::Display for UsageId {
    ghost output = { λ wrapper. Some (decimal wrapper) };

    ghost styled_output = { λ wrapper _. Some (decimal wrapper) };

    fn fmt<W: fmt::Write>(&self, f: &mut fmt::Formatter<W>) -> fmt::Result {
        let usage_id = self.0;
        write_decimal(f, usage_id)
    }
}

/// The first usage of a range; the upper 16 bits may hold a usage page (Section 6.2.2.8).
#[derive(Clone, Copy, Debug, PartialEq, PartialOrd)]
pub struct UsageMinimum(u32);

impl Model for UsageMinimum {
    ghost Value = { ℕ };

    ghost view = { λ w. w.0 };

    ghost inverse = { λ n. record { 0 = n } };
}

impl UsageMinimum {
    /// The first usage within its page: the low 16 bits (Section 6.2.2.8).
    pub fn usage_id(&self) -> UsageId
        ensures { result ≡ self.now % 65536 }
    {
        let minimum = self.0;
        UsageId((minimum & 0xffff) as u16)
    }

    /// The page that was written with it, or 0: the high 16 bits (Section 6.2.2.8).
    pub fn usage_page(&self) -> UsagePage
        ensures { result ≡ self.now / 65536 }
    {
        let minimum = self.0;
        UsagePage::from((minimum >> 16) as u16)
    }
}

impl From<u32> for UsageMinimum {
    ghost from_gives = { λ number wrapper. wrapper ≡ number };

    fn from(number: u32) -> UsageMinimum {
        UsageMinimum(number)
    }
}

impl From<&UsageMinimum> for u32 {
    ghost from_gives = { λ wrapper number. number ≡ wrapper.now };

    fn from(usage_minimum: &UsageMinimum) -> u32 {
        usage_minimum.0
    }
}

impl From<UsageMinimum> for u32 {
    ghost from_gives = { λ wrapper number. number ≡ wrapper };

    fn from(usage_minimum: UsageMinimum) -> u32 {
        u32::from(&usage_minimum)
    }
}

/// Writes the number in decimal; a width, a fill or a sign that the format asks for is ignored.
impl fmt::Display for UsageMinimum {
    ghost output = { λ wrapper. Some (decimal wrapper) };

    ghost styled_output = { λ wrapper _. Some (decimal wrapper) };

    fn fmt<W: fmt::Write>(&self, f: &mut fmt::Formatter<W>) -> fmt::Result {
        let usage_minimum = self.0;
        write_decimal(f, usage_minimum)
    }
}

/// The last usage of a range; the upper 16 bits may hold a usage page (Section 6.2.2.8).
#[derive(Clone, Copy, Debug, PartialEq, PartialOrd)]
pub struct UsageMaximum(u32);

impl Model for UsageMaximum {
    ghost Value = { ℕ };

    ghost view = { λ w. w.0 };

    ghost inverse = { λ n. record { 0 = n } };
}

impl UsageMaximum {
    /// The last usage within its page: the low 16 bits (Section 6.2.2.8).
    pub fn usage_id(&self) -> UsageId
        ensures { result ≡ self.now % 65536 }
    {
        let maximum = self.0;
        UsageId((maximum & 0xffff) as u16)
    }

    /// The page that was written with it, or 0: the high 16 bits (Section 6.2.2.8).
    pub fn usage_page(&self) -> UsagePage
        ensures { result ≡ self.now / 65536 }
    {
        let maximum = self.0;
        UsagePage::from((maximum >> 16) as u16)
    }
}

impl From<u32> for UsageMaximum {
    ghost from_gives = { λ number wrapper. wrapper ≡ number };

    fn from(number: u32) -> UsageMaximum {
        UsageMaximum(number)
    }
}

impl From<&UsageMaximum> for u32 {
    ghost from_gives = { λ wrapper number. number ≡ wrapper.now };

    fn from(usage_maximum: &UsageMaximum) -> u32 {
        usage_maximum.0
    }
}

impl From<UsageMaximum> for u32 {
    ghost from_gives = { λ wrapper number. number ≡ wrapper };

    fn from(usage_maximum: UsageMaximum) -> u32 {
        u32::from(&usage_maximum)
    }
}

/// Writes the number in decimal; a width, a fill or a sign that the format asks for is ignored.
impl fmt::Display for UsageMaximum {
    ghost output = { λ wrapper. Some (decimal wrapper) };

    ghost styled_output = { λ wrapper _. Some (decimal wrapper) };

    fn fmt<W: fmt::Write>(&self, f: &mut fmt::Formatter<W>) -> fmt::Result {
        let usage_maximum = self.0;
        write_decimal(f, usage_maximum)
    }
}

/// Which part of the body a control is for, as an index into the physical descriptor
/// (Section 6.2.2.8).
#[derive(Clone, Copy, Debug, PartialEq)]
pub struct DesignatorIndex(u32);

impl Model for DesignatorIndex {
    ghost Value = { ℕ };

    ghost view = { λ w. w.0 };

    ghost inverse = { λ n. record { 0 = n } };
}

impl From<u32> for DesignatorIndex {
    ghost from_gives = { λ number wrapper. wrapper ≡ number };

    fn from(number: u32) -> DesignatorIndex {
        DesignatorIndex(number)
    }
}

impl From<&DesignatorIndex> for u32 {
    ghost from_gives = { λ wrapper number. number ≡ wrapper.now };

    fn from(designator_index: &DesignatorIndex) -> u32 {
        designator_index.0
    }
}

impl From<DesignatorIndex> for u32 {
    ghost from_gives = { λ wrapper number. number ≡ wrapper };

    fn from(designator_index: DesignatorIndex) -> u32 {
        u32::from(&designator_index)
    }
}

/// Writes the number in decimal; a width, a fill or a sign that the format asks for is ignored.
impl fmt::Display for DesignatorIndex {
    ghost output = { λ wrapper. Some (decimal wrapper) };

    ghost styled_output = { λ wrapper _. Some (decimal wrapper) };

    fn fmt<W: fmt::Write>(&self, f: &mut fmt::Formatter<W>) -> fmt::Result {
        let designator_index = self.0;
        write_decimal(f, designator_index)
    }
}

/// The first designator of a range (Section 6.2.2.8).
#[derive(Clone, Copy, Debug, PartialEq)]
pub struct DesignatorMinimum(u32);

impl Model for DesignatorMinimum {
    ghost Value = { ℕ };

    ghost view = { λ w. w.0 };

    ghost inverse = { λ n. record { 0 = n } };
}

impl From<u32> for DesignatorMinimum {
    ghost from_gives = { λ number wrapper. wrapper ≡ number };

    fn from(number: u32) -> DesignatorMinimum {
        DesignatorMinimum(number)
    }
}

impl From<&DesignatorMinimum> for u32 {
    ghost from_gives = { λ wrapper number. number ≡ wrapper.now };

    fn from(designator_minimum: &DesignatorMinimum) -> u32 {
        designator_minimum.0
    }
}

impl From<DesignatorMinimum> for u32 {
    ghost from_gives = { λ wrapper number. number ≡ wrapper };

    fn from(designator_minimum: DesignatorMinimum) -> u32 {
        u32::from(&designator_minimum)
    }
}

/// Writes the number in decimal; a width, a fill or a sign that the format asks for is ignored.
impl fmt::Display for DesignatorMinimum {
    ghost output = { λ wrapper. Some (decimal wrapper) };

    ghost styled_output = { λ wrapper _. Some (decimal wrapper) };

    fn fmt<W: fmt::Write>(&self, f: &mut fmt::Formatter<W>) -> fmt::Result {
        let designator_minimum = self.0;
        write_decimal(f, designator_minimum)
    }
}

/// The last designator of a range (Section 6.2.2.8).
#[derive(Clone, Copy, Debug, PartialEq)]
pub struct DesignatorMaximum(u32);

impl Model for DesignatorMaximum {
    ghost Value = { ℕ };

    ghost view = { λ w. w.0 };

    ghost inverse = { λ n. record { 0 = n } };
}

impl From<u32> for DesignatorMaximum {
    ghost from_gives = { λ number wrapper. wrapper ≡ number };

    fn from(number: u32) -> DesignatorMaximum {
        DesignatorMaximum(number)
    }
}

impl From<&DesignatorMaximum> for u32 {
    ghost from_gives = { λ wrapper number. number ≡ wrapper.now };

    fn from(designator_maximum: &DesignatorMaximum) -> u32 {
        designator_maximum.0
    }
}

impl From<DesignatorMaximum> for u32 {
    ghost from_gives = { λ wrapper number. number ≡ wrapper };

    fn from(designator_maximum: DesignatorMaximum) -> u32 {
        u32::from(&designator_maximum)
    }
}

/// Writes the number in decimal; a width, a fill or a sign that the format asks for is ignored.
impl fmt::Display for DesignatorMaximum {
    ghost output = { λ wrapper. Some (decimal wrapper) };

    ghost styled_output = { λ wrapper _. Some (decimal wrapper) };

    fn fmt<W: fmt::Write>(&self, f: &mut fmt::Formatter<W>) -> fmt::Result {
        let designator_maximum = self.0;
        write_decimal(f, designator_maximum)
    }
}

/// Which string descriptor names a control (Section 6.2.2.8).
#[derive(Clone, Copy, Debug, PartialEq)]
pub struct StringIndex(u32);

impl Model for StringIndex {
    ghost Value = { ℕ };

    ghost view = { λ w. w.0 };

    ghost inverse = { λ n. record { 0 = n } };
}

impl From<u32> for StringIndex {
    ghost from_gives = { λ number wrapper. wrapper ≡ number };

    fn from(number: u32) -> StringIndex {
        StringIndex(number)
    }
}

impl From<&StringIndex> for u32 {
    ghost from_gives = { λ wrapper number. number ≡ wrapper.now };

    fn from(string_index: &StringIndex) -> u32 {
        string_index.0
    }
}

impl From<StringIndex> for u32 {
    ghost from_gives = { λ wrapper number. number ≡ wrapper };

    fn from(string_index: StringIndex) -> u32 {
        u32::from(&string_index)
    }
}

/// Writes the number in decimal; a width, a fill or a sign that the format asks for is ignored.
impl fmt::Display for StringIndex {
    ghost output = { λ wrapper. Some (decimal wrapper) };

    ghost styled_output = { λ wrapper _. Some (decimal wrapper) };

    fn fmt<W: fmt::Write>(&self, f: &mut fmt::Formatter<W>) -> fmt::Result {
        let string_index = self.0;
        write_decimal(f, string_index)
    }
}

/// The first string of a range (Section 6.2.2.8).
#[derive(Clone, Copy, Debug, PartialEq)]
pub struct StringMinimum(u32);

impl Model for StringMinimum {
    ghost Value = { ℕ };

    ghost view = { λ w. w.0 };

    ghost inverse = { λ n. record { 0 = n } };
}

impl From<u32> for StringMinimum {
    ghost from_gives = { λ number wrapper. wrapper ≡ number };

    fn from(number: u32) -> StringMinimum {
        StringMinimum(number)
    }
}

impl From<&StringMinimum> for u32 {
    ghost from_gives = { λ wrapper number. number ≡ wrapper.now };

    fn from(string_minimum: &StringMinimum) -> u32 {
        string_minimum.0
    }
}

impl From<StringMinimum> for u32 {
    ghost from_gives = { λ wrapper number. number ≡ wrapper };

    fn from(string_minimum: StringMinimum) -> u32 {
        u32::from(&string_minimum)
    }
}

/// Writes the number in decimal; a width, a fill or a sign that the format asks for is ignored.
impl fmt::Display for StringMinimum {
    ghost output = { λ wrapper. Some (decimal wrapper) };

    ghost styled_output = { λ wrapper _. Some (decimal wrapper) };

    fn fmt<W: fmt::Write>(&self, f: &mut fmt::Formatter<W>) -> fmt::Result {
        let string_minimum = self.0;
        write_decimal(f, string_minimum)
    }
}

/// The last string of a range (Section 6.2.2.8).
#[derive(Clone, Copy, Debug, PartialEq)]
pub struct StringMaximum(u32);

impl Model for StringMaximum {
    ghost Value = { ℕ };

    ghost view = { λ w. w.0 };

    ghost inverse = { λ n. record { 0 = n } };
}

impl From<u32> for StringMaximum {
    ghost from_gives = { λ number wrapper. wrapper ≡ number };

    fn from(number: u32) -> StringMaximum {
        StringMaximum(number)
    }
}

impl From<&StringMaximum> for u32 {
    ghost from_gives = { λ wrapper number. number ≡ wrapper.now };

    fn from(string_maximum: &StringMaximum) -> u32 {
        string_maximum.0
    }
}

impl From<StringMaximum> for u32 {
    ghost from_gives = { λ wrapper number. number ≡ wrapper };

    fn from(string_maximum: StringMaximum) -> u32 {
        u32::from(&string_maximum)
    }
}

/// Writes the number in decimal; a width, a fill or a sign that the format asks for is ignored.
impl fmt::Display for StringMaximum {
    ghost output = { λ wrapper. Some (decimal wrapper) };

    ghost styled_output = { λ wrapper _. Some (decimal wrapper) };

    fn fmt<W: fmt::Write>(&self, f: &mut fmt::Formatter<W>) -> fmt::Result {
        let string_maximum = self.0;
        write_decimal(f, string_maximum)
    }
}

/// Opens (1) or closes (0) a set of alternative usages (Section 6.2.2.8).
#[derive(Clone, Copy, Debug, PartialEq)]
pub struct Delimiter(u32);

impl Model for Delimiter {
    ghost Value = { ℕ };

    ghost view = { λ w. w.0 };

    ghost inverse = { λ n. record { 0 = n } };
}

impl From<u32> for Delimiter {
    ghost from_gives = { λ number wrapper. wrapper ≡ number };

    fn from(number: u32) -> Delimiter {
        Delimiter(number)
    }
}

impl From<&Delimiter> for u32 {
    ghost from_gives = { λ wrapper number. number ≡ wrapper.now };

    fn from(delimiter: &Delimiter) -> u32 {
        delimiter.0
    }
}

impl From<Delimiter> for u32 {
    ghost from_gives = { λ wrapper number. number ≡ wrapper };

    fn from(delimiter: Delimiter) -> u32 {
        u32::from(&delimiter)
    }
}

/// Writes the number in decimal; a width, a fill or a sign that the format asks for is ignored.
impl fmt::Display for Delimiter {
    ghost output = { λ wrapper. Some (decimal wrapper) };

    ghost styled_output = { λ wrapper _. Some (decimal wrapper) };

    fn fmt<W: fmt::Write>(&self, f: &mut fmt::Formatter<W>) -> fmt::Result {
        let delimiter = self.0;
        write_decimal(f, delimiter)
    }
}
