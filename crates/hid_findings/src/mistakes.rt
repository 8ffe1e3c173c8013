//! Mistakes that firmware often makes at an Input, Output or Feature.
use crate::data_findings::{DataItem, is_axis};
use crate::finding::{Finding, tell};
use crate::rule::Rule;
use hid_words::add_usage;
use hidreport::Usage;
use std::alloc::AllocError;
use std::fmt::Write;

/// The most bits of an item that is meant as so many switches.
const MOST_SWITCHES: usize = 32;

/// The first and the last usage of Generic Desktop that name collections or nothing.
const FIRST_DEVICE: u32 = 0x0001_0001;

const LAST_DEVICE: u32 = 0x0001_000f;

/// The usage of a hat switch, and how many directions it has.
const HAT_SWITCH: u32 = 0x0001_0039;

const DIRECTIONS: i64 = 8;

/// Notes each mistake of an item; that switches have a unit is told once of a unit.
pub fn tell_mistakes(
    item: &DataItem,
    told_unit: &mut Option<usize>,
    findings: &mut Vec<Finding>,
) -> Result<(), AllocError> {
    if !item.is_variable {
        return tell_left_out(item, findings);
    }
    tell_exchanged(item, findings)?;
    tell_no_switch(item, findings)?;
    tell_no_null(item, findings)?;
    tell_one_way(item, findings)?;
    tell_measured_switches(item, told_unit, findings)
}

/// Notes that an array's bounds reach fewer usages than it names.
fn tell_left_out(item: &DataItem, findings: &mut Vec<Finding>) -> Result<(), AllocError> {
    let (low, high) = (item.globals.minimum, item.globals.maximum);
    let usages = item.usages.count;
    let values = i64::from(high)
        .saturating_sub(i64::from(low))
        .saturating_add(1);
    if !item.has_known_usages() || values < 1 || usages <= values.unsigned_abs() {
        return Ok(());
    }
    let remark = format!(in item.alloc;
        "the maximum {high} reaches {values} of {usages} usages, counted from {low}"
    )?;
    let offset = Some(item.globals.maximum_offset);
    tell(findings, offset, &remark, Rule::ArrayMaximumBelow)
}

/// Notes a field of as many bits as there are usages, from 0 to 1: Report Size and Report Count are
/// likely exchanged. Alternatives are one control.
fn tell_exchanged(item: &DataItem, findings: &mut Vec<Finding>) -> Result<(), AllocError> {
    let (low, high) = (item.globals.minimum, item.globals.maximum);
    let (size, count, usages) = (item.globals.size, item.globals.count, item.usages.count);
    let is_of_switches = low == 0 && high == 1 && 1 < size && size <= MOST_SWITCHES;
    if !is_of_switches || count != 1 || usages != size as u64 || item.usages.has_sets {
        return Ok(());
    }
    let remark = format!(in item.alloc;
        "{usages} usages for 1 field of {size} bits: so many switches have Report Size (1), \
         Report Count ({size})"
    )?;
    tell(findings, Some(item.offset), &remark, Rule::Exchanged)
}

/// Notes switches whose usages are those of devices, since Usage Page (Button) is missing.
fn tell_no_switch(item: &DataItem, findings: &mut Vec<Finding>) -> Result<(), AllocError> {
    let last = item.usages.last(item.globals.page);
    let number = u32::from(&last);
    if item.globals.size != 1 || number < FIRST_DEVICE || LAST_DEVICE < number {
        return Ok(());
    }
    let mut remark = String::new(item.alloc);
    add_usage(&mut remark, last)?;
    remark.push_str(" is no switch: buttons lie on Usage Page (Button)")?;
    let offset = Some(item.usages.first_offset);
    tell(findings, offset, &remark, Rule::DeviceAsSwitch)
}

/// Notes a hat switch of eight directions that has no value for its centre.
fn tell_no_null(item: &DataItem, findings: &mut Vec<Finding>) -> Result<(), AllocError> {
    let (low, high) = (item.globals.minimum, item.globals.maximum);
    let directions = i64::from(high)
        .saturating_sub(i64::from(low))
        .saturating_add(1);
    let last = item.usages.last(item.globals.page);
    if u32::from(&last) != HAT_SWITCH || item.flags.has_null_state || directions != DIRECTIONS {
        return Ok(());
    }
    let remark = "a hat switch of 8 directions has no null state for its centre";
    tell(findings, Some(item.offset), remark, Rule::HatWithoutNull)
}

/// Notes an axis whose changes go one way alone.
fn tell_one_way(item: &DataItem, findings: &mut Vec<Finding>) -> Result<(), AllocError> {
    let (low, high) = (item.globals.minimum, item.globals.maximum);
    let last: Usage = item.usages.last(item.globals.page);
    if !item.flags.is_relative || !is_axis(&last) || low < 0 || high <= low {
        return Ok(());
    }
    let mut remark = String::new(item.alloc);
    add_usage(&mut remark, last)?;
    write!(
        remark,
        " is relative, and its minimum {low} lets it go one way alone"
    )?;
    tell(findings, Some(item.offset), &remark, Rule::OneWay)
}

/// Notes switches of one bit for which a unit is still in force.
fn tell_measured_switches(
    item: &DataItem,
    told_unit: &mut Option<usize>,
    findings: &mut Vec<Finding>,
) -> Result<(), AllocError> {
    let (unit, offset) = (item.globals.unit, item.globals.unit_offset);
    if unit == 0 || item.globals.size != 1 || *told_unit == Some(offset) {
        return Ok(());
    }
    *told_unit = Some(offset);
    let remark = "switches of 1 bit have a unit, which is still in force: Unit (0x0) ends it";
    tell(findings, Some(item.offset), remark, Rule::UnitAtSwitches)
}
