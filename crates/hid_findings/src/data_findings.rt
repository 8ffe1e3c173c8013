//! What is odd in an Input, Output or Feature.
use crate::finding::{Finding, tell};
use crate::local_usages::LocalUsages;
use crate::rule::Rule;
use hid_items::items::Globals;
use hid_words::{add_usage_on_page, plural};
use hidreport::Usage;
use hidreport::hid::ItemFlags;
use std::alloc::{AllocError, Global};
use std::fmt::Write;

/// The first page of those that vendors have (HID Usage Tables, Section 3).
const VENDOR_PAGE: u16 = 0xff00;

/// An Input, Output or Feature that holds data.
#[derive(Clone, Copy)]
pub struct DataItem {
    /// Where remarks are made.
    pub alloc: Global,
    /// Where it stands.
    pub offset: usize,
    /// Whether each field has a usage.
    pub is_variable: bool,
    /// All its flags.
    pub flags: ItemFlags,
    /// The globals in force.
    pub globals: Globals,
    /// The usages before it.
    pub usages: LocalUsages,
}

impl DataItem {
    /// Notes what is odd in its bounds and its usages.
    pub fn tell(&self, findings: &mut Vec<Finding>) -> Result<(), AllocError> {
        self.tell_bounds(findings)?;
        self.tell_width(findings)?;
        self.tell_one_value(findings)?;
        self.tell_usages(findings)?;
        if self.is_variable {
            self.tell_repeated(findings)
        } else {
            self.tell_unnamed(findings)
        }
    }

    /// Notes what is odd in the logical maximum.
    fn tell_maximum(
        &self,
        findings: &mut Vec<Finding>,
        remark: &str,
        rule: Rule,
    ) -> Result<(), AllocError> {
        tell(findings, Some(self.globals.maximum_offset), remark, rule)
    }

    /// What may be meant by a maximum below the minimum, where an item may have a byte more.
    fn hint_of(&self, low: i32, high: i32) -> &'static str {
        if 0 <= low && high < 0 && self.globals.maximum_size < 5 {
            ": without a sign it takes a byte more"
        } else {
            ""
        }
    }

    /// Notes that the logical maximum is below the minimum, and what may be meant.
    fn tell_bounds(&self, findings: &mut Vec<Finding>) -> Result<(), AllocError> {
        let (low, high) = (self.globals.minimum, self.globals.maximum);
        if low <= high {
            return Ok(());
        }
        let hint = self.hint_of(low, high);
        let remark = format!(in self.alloc; "the maximum {high} is below the minimum {low}{hint}")?;
        self.tell_maximum(findings, &remark, Rule::MaximumBelowMinimum)
    }

    /// Notes that so few bits don't hold the logical maximum.
    fn tell_width(&self, findings: &mut Vec<Finding>) -> Result<(), AllocError> {
        let (low, high) = (self.globals.minimum, self.globals.maximum);
        let size = self.globals.size;
        if high < low || holds(size, low < 0, high) {
            return Ok(());
        }
        let s = plural(size);
        let remark = format!(in self.alloc; "the maximum {high} takes more than {size} bit{s}")?;
        self.tell_maximum(findings, &remark, Rule::MaximumTooWide)
    }

    /// Notes that the logical bounds are one number.
    fn tell_one_value(&self, findings: &mut Vec<Finding>) -> Result<(), AllocError> {
        let (low, high) = (self.globals.minimum, self.globals.maximum);
        if low != high || self.globals.size == 0 {
            return Ok(());
        }
        let remark = format!(in self.alloc; "its logical minimum and maximum are both {low}")?;
        tell(findings, Some(self.offset), &remark, Rule::OneValue)
    }

    /// Notes that there are more usages than switches of one bit; alternatives are one control.
    fn tell_usages(&self, findings: &mut Vec<Finding>) -> Result<(), AllocError> {
        let (usages, count) = (self.usages.count, self.globals.count);
        let are_switches = self.globals.size == 1 && self.is_variable;
        if usages <= count as u64 || !are_switches || self.usages.has_sets {
            return Ok(());
        }
        let s = plural(count);
        let remark = format!(in self.alloc; "{usages} usages for {count} field{s}")?;
        let offset = Some(self.usages.first_offset);
        tell(findings, offset, &remark, Rule::SpareUsages)
    }

    /// Notes that the last usage is that of several fields, where each field has one of its own: a
    /// switch, or what stands behind other usages. (Numbers of one usage are a buffer, or the two
    /// of a finger that Windows takes.)
    fn tell_repeated(&self, findings: &mut Vec<Finding>) -> Result<(), AllocError> {
        let (usages, count) = (self.usages.count, self.globals.count);
        let last = self.usages.last(self.globals.page);
        let is_each = usages > 1 || self.globals.size == 1;
        if !self.has_known_usages() || !is_each || count as u64 <= usages {
            return Ok(());
        }
        let s = if usages == 1 { "" } else { "s" };
        let mut remark = format!(in self.alloc; "{usages} usage{s} for {count} fields: ")?;
        remark.push_str(if usages == 1 {
            "each is "
        } else {
            "the last ones are all "
        })?;
        add_usage_on_page(&mut remark, last)?;
        tell(findings, Some(self.offset), &remark, Rule::RepeatedUsage)
    }

    /// Notes that the greatest value of an array selects no usage.
    fn tell_unnamed(&self, findings: &mut Vec<Finding>) -> Result<(), AllocError> {
        let (low, high) = (self.globals.minimum, self.globals.maximum);
        let usages = self.usages.count;
        let values = i64::from(high).saturating_sub(i64::from(low));
        if !self.has_known_usages() || high < low || values.unsigned_abs() < usages {
            return Ok(());
        }
        let count = if usages == 1 {
            "usage counts"
        } else {
            "usages count"
        };
        let remark = format!(in self.alloc;
            "the maximum {high} selects no usage: {usages} {count} from {low}"
        )?;
        self.tell_maximum(findings, &remark, Rule::ArrayMaximumPast)
    }

    /// Whether there are usages of no vendor, the last one with a meaning, and no alternatives.
    pub fn has_known_usages(&self) -> bool {
        let last = self.usages.last(self.globals.page);
        !self.usages.has_sets
            && u16::from(last.usage_page) < VENDOR_PAGE
            && u16::from(last.usage_id) != 0
    }
}

/// Whether a usage is an axis or a wheel of Generic Desktop, X to Hat Switch.
pub fn is_axis(usage: &Usage) -> bool {
    (0x1_0030..=0x1_0039).contains(&u32::from(usage))
}

/// Whether so many bits, signed or not, hold a number above the least that they hold; no bits are
/// told of elsewhere, and past 31 they hold all.
fn holds(size: usize, is_signed: bool, number: i32) -> bool {
    let bits = if is_signed {
        size.saturating_sub(1)
    } else {
        size
    };
    size == 0 || 31 <= bits || number >> bits == 0 || number < 0
}

/// Notes that the unit of an axis is a length or an angle to a power, as that of `33` for `13`, or
/// that its system is none; a unit is told where it first stands.
pub fn tell_unit(
    findings: &mut Vec<Finding>,
    item: &DataItem,
    told: &mut Option<u32>,
) -> Result<(), AllocError> {
    let (unit, offset) = (item.globals.unit, Some(item.globals.unit_offset));
    if unit == 0 || *told == Some(unit) || !item.is_variable {
        return Ok(());
    }
    let last = item.usages.last(item.globals.page);
    let (system, power) = (unit & 0xf, unit >> 4 & 0xf);
    if (5..=14).contains(&system) {
        *told = Some(unit);
        let remark = format!(in item.alloc; "the unit's system {system} is reserved")?;
        return tell(findings, offset, &remark, Rule::ReservedUnit);
    }
    if system == 0 {
        *told = Some(unit);
        let remark = "the unit has exponents and no system";
        return tell(findings, offset, remark, Rule::UnitWithoutSystem);
    }
    if (2..=7).contains(&power) && system != 15 && is_axis(&last) {
        *told = Some(unit);
        let remark = power_remark(item.alloc, last, system, power)?;
        return tell(findings, offset, &remark, Rule::UnitToAPower);
    }
    Ok(())
}

/// What is said of an axis in a power of a length or an angle.
fn power_remark(
    alloc: Global,
    usage: Usage,
    system: u32,
    power: u32,
) -> Result<String, AllocError> {
    let kind = if system % 2 == 1 {
        "a length"
    } else {
        "an angle"
    };
    let mut remark = String::new(alloc);
    add_usage_on_page(&mut remark, usage)?;
    write!(
        remark,
        " is {kind} to the power {power}; without a power the unit is 0x1{system:x}"
    )?;
    Ok(remark)
}
