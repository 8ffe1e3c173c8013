//! An item of a report, as WebHID's `HIDReportItem` has it.
use crate::members::{check_list, check_members, flag_of, number_in, number_of};
use crate::units::{FACTORS, exponent_of, unit_of};
use anyhow::{Result, bail, ensure};
use serde_json::Value;
use std::alloc::Global;

/// The flag that no Input has.
pub const VOLATILE: u16 = 0x80;

/// The names of flags, the bit of each, and whether it is set where the flag is false
/// (Section 6.2.2.5).
static FLAGS: [(&str, u16, bool); 9] = [
    ("isConstant", 1, false),
    ("isArray", 2, true),
    ("isAbsolute", 4, true),
    ("wrap", 8, false),
    ("isLinear", 0x10, true),
    ("hasPreferredState", 0x20, true),
    ("hasNull", 0x40, false),
    ("isVolatile", VOLATILE, false),
    ("isBufferedBytes", 0x100, false),
];

/// The least and the greatest number of 32 bits with a sign.
const LEAST: i64 = -0x8000_0000;

const GREATEST: i64 = 0x7fff_ffff;

/// The greatest number of 32 bits.
const MOST: i64 = 0xffff_ffff;

/// The first bytes of global items without their sizes, in the order in which they are written,
/// the member that says the data of each, and its bounds.
pub static GLOBALS: [(u8, &str, i64, i64); 8] = [
    (0x14, "logicalMinimum", LEAST, GREATEST),
    (0x24, "logicalMaximum", LEAST, GREATEST),
    (0x34, "physicalMinimum", LEAST, GREATEST),
    (0x44, "physicalMaximum", LEAST, GREATEST),
    (EXPONENT, "unitExponent", 0, MOST),
    (UNIT, "unitSystem", 0, MOST),
    (0x74, "reportSize", 0, MOST),
    (0x94, "reportCount", 0, MOST),
];

/// The first bytes of those that no member has as it is.
const EXPONENT: u8 = 0x54;

const UNIT: u8 = 0x64;

/// Members beside flags and globals.
static OTHERS: [&str; 5] = [
    "isRange",
    "usages",
    "usageMinimum",
    "usageMaximum",
    "strings",
];

/// An item of a report.
#[derive(Drop)]
pub struct ReportItem {
    /// The data of its main item.
    pub flags: u16,
    /// The data of `GLOBALS`.
    pub globals: Vec<i64>,
    /// Its single usages, each with its page.
    pub usages: Vec<u32>,
    /// The first and the last usage of its range, or none.
    pub bounds: Vec<u32>,
}

impl ReportItem {
    /// The item that an object says.
    pub fn read(alloc: Global, object: &Value) -> Result<ReportItem> {
        check_names(alloc, object)?;
        let mut item = ReportItem {
            flags: 0,
            globals: Vec::new(alloc),
            usages: Vec::new(alloc),
            bounds: Vec::new(alloc),
        };
        item.take(object)?;
        Ok(item)
    }

    /// Takes all that an object says.
    fn take(&mut self, object: &Value) -> Result<()> {
        for (name, bit, is_set_where_false) in &FLAGS {
            if flag_of(object, name)? != *is_set_where_false {
                self.flags |= *bit;
            }
        }
        for (tag, name, least, most) in &GLOBALS {
            self.globals.push(match *tag {
                EXPONENT => exponent_of(object)?,
                UNIT => unit_of(object)?,
                _ => number_of(object, name, *least, *most)?,
            })?;
        }
        self.take_usages(object)?;
        check_strings(object)
    }

    /// Takes the usages: a list, a range, or a list beside a range.
    fn take_usages(&mut self, object: &Value) -> Result<()> {
        let is_range = flag_of(object, "isRange")?;
        for name in ["usageMinimum", "usageMaximum"] {
            if is_range {
                self.bounds
                    .push(usage_in(number_of(object, name, 0, MOST)?))?;
            } else {
                ensure!(object.get(name).is_none(), "{name} stands without isRange");
            }
        }
        if is_range && object.get("usages").is_none() {
            return Ok(());
        }
        check_list(object, "usages")?;
        if let Some(Value::Array(list)) = object.get("usages") {
            for value in list.iter() {
                self.usages
                    .push(usage_in(number_in(value, "a usage", 0, MOST)?))?;
            }
        }
        Ok(())
    }

    /// Whether it is the same as another.
    pub fn is_like(&self, other: &ReportItem) -> bool {
        self.flags == other.flags
            && self.globals.as_slice() == other.globals.as_slice()
            && self.usages.as_slice() == other.usages.as_slice()
            && self.bounds.as_slice() == other.bounds.as_slice()
    }

    /// Whether it is a constant.
    pub fn is_constant(&self) -> bool {
        self.flags & 1 != 0
    }

    /// The data of a global.
    fn global(&self, tag: u8) -> i64 {
        let mut rows = GLOBALS.iter().zip(self.globals.iter());
        match rows.find(|row| row.0.0 == tag) {
            Some((_row, number)) => *number,
            None => 0,
        }
    }

    /// The data of its Unit.
    pub fn unit(&self) -> i64 {
        self.global(UNIT)
    }

    /// The data of its Unit Exponent.
    pub fn exponent(&self) -> i64 {
        self.global(EXPONENT)
    }

    /// How many bits its fields have.
    pub fn size(&self) -> i64 {
        self.global(0x74)
    }

    /// Whether a maximum is below its minimum, which isn't below 0, so that hosts read it
    /// without a sign.
    pub fn has_low_maximum(&self) -> bool {
        is_low(self.global(0x14), self.global(0x24)) || is_low(self.global(0x34), self.global(0x44))
    }
}

/// Whether hosts read the data of a maximum without a sign, and its number has one.
pub fn is_low(minimum: i64, maximum: i64) -> bool {
    0 <= minimum && maximum < 0
}

/// A usage of 32 bits.
fn usage_in(number: i64) -> u32 {
    u32::try_from(number).unwrap_or(0)
}

/// Refuses members that no item has.
fn check_names(alloc: Global, object: &Value) -> Result<()> {
    let mut names = Vec::new(alloc);
    for (name, _bit, _is_set_where_false) in &FLAGS {
        names.push(*name)?;
    }
    for (_tag, name, _least, _most) in &GLOBALS {
        names.push(*name)?;
    }
    for name in FACTORS.iter().chain(OTHERS.iter()) {
        names.push(*name)?;
    }
    check_members(object, &names)
}

/// Refuses strings, whose indices aren't told.
fn check_strings(object: &Value) -> Result<()> {
    match object.get("strings") {
        None => Ok(()),
        Some(Value::Array(list)) => {
            ensure!(list.is_empty(), "strings have no index that is told");
            Ok(())
        }
        Some(_other) => bail!("strings is no list"),
    }
}
