//! Makes a mouse's report descriptor, and reports by it from the values of its controls.
//! Licence: MIT (LICENSE); a port of the Rust crate `hidreport` 0.6.0.
#![tactic(auto)]

use anyhow::{Context, Result};
use hidreport::hid::{
    CollectionItem, HidError, ItemBuilder, ItemType, ReportDescriptorBuilder,
    ReportDescriptorBuilderC2,
};
use hidreport::{
    Field, LogicalMaximum, LogicalMinimum, RDescReport, Report, ReportCount, ReportDescriptor,
    ReportSize, UsageId, UsageMaximum, UsageMinimum, UsagePage,
};
use std::alloc::Global;

const GENERIC_DESKTOP: u16 = 0x01;

const BUTTONS: u16 = 0x09;

/// The greatest weight of a descriptor that is read, as by those who get it from a device.
const LIMIT: usize = 65_536;

/// A usage, and the value that its control has in a report.
type Control = (u32, i64);

/// What the mouse reports, one report after the other; a control that isn't named is at rest.
static REPORTS: [&[Control]; 3] = [
    &[(FIRST_BUTTON, 1), (THIRD_BUTTON, 1), (X, 10), (Y, -5)],
    &[(X, -127), (Y, 127)],
    &[],
];

const X: u32 = 0x0001_0030;

const Y: u32 = 0x0001_0031;

const FIRST_BUTTON: u32 = 0x0009_0001;

const THIRD_BUTTON: u32 = 0x0009_0003;

fn main(rt: HostRuntime) -> Result<()> {
    let bytes = mouse(rt.alloc())?;
    println!(rt; "descriptor {}", hex::encode(rt.alloc(), &bytes)?)?;
    let descriptor = ReportDescriptor::try_from_within(rt.alloc(), &bytes, LIMIT)?;
    let report = descriptor.input_reports().first().context("no report")?;
    for controls in REPORTS {
        let bytes = report_with(rt.alloc(), report, controls)?;
        print_report(&rt, report, &bytes)?;
    }
    Ok(())
}

/// Prints a report, and each of its fields.
fn print_report<R: AllocGlobal + Print>(rt: &R, report: &RDescReport, bytes: &[u8]) -> Result<()> {
    println!(rt; "report {}", hex::encode(rt.alloc(), bytes)?)?;
    for field in report.fields() {
        print_field(rt, field, bytes)?;
    }
    Ok(())
}

/// The bytes of a report whose controls have these values.
fn report_with(alloc: Global, report: &RDescReport, controls: &[Control]) -> Result<Vec<u8>> {
    let mut bytes = report.blank(alloc)?;
    for field in report.fields() {
        if let Field::Variable(field) = field
            && let Some(value) = value_of(u32::from(field.usage), controls)
        {
            field.insert(&mut bytes, value)?;
        }
    }
    Ok(bytes)
}

/// The value of the control with this usage.
fn value_of(usage: u32, controls: &[Control]) -> Option<i64> {
    for (control, value) in controls {
        if *control == usage {
            return Some(*value);
        }
    }
    None
}

/// Prints what a field is, and its value in a report.
fn print_field<R: Print>(rt: &R, field: &Field, bytes: &[u8]) -> Result<()> {
    let bits = field.bits();
    print!(rt; "{}..{}", bits.start, bits.end)?;
    match field {
        Field::Variable(field) => {
            print!(rt; " {:08x}", u32::from(field.usage))?;
            print!(rt; " {} to {}", field.logical_minimum, field.logical_maximum)?;
            println!(rt; ": {}", i64::from(field.extract(bytes)?))?;
        }
        Field::Array(_) => println!(rt; " array")?,
        Field::Constant(_) => println!(rt; " constant")?,
    }
    Ok(())
}

/// A builder inside the mouse's two collections.
type Inside = ReportDescriptorBuilder<ReportDescriptorBuilderC2>;

/// Three buttons, padding up to a byte, and X and Y as a byte each.
fn mouse(alloc: Global) -> Result<Vec<u8>, HidError> {
    let pointer = ReportDescriptorBuilder::new(alloc)
        .usage_page(UsagePage::from(GENERIC_DESKTOP))?
        .usage_id(UsageId::from(0x02))?
        .open_collection(CollectionItem::Application)?
        .usage_id(UsageId::from(0x01))?
        .open_collection(CollectionItem::Physical)?;
    axes(padding(buttons(pointer)?)?)?
        .close_collection()?
        .close_collection()?
        .build()
}

fn buttons(builder: Inside) -> Result<Inside, HidError> {
    builder
        .usage_page(UsagePage::from(BUTTONS))?
        .append(ItemType::from(UsageMinimum::from(1)))?
        .append(ItemType::from(UsageMaximum::from(3)))?
        .append(ItemType::from(LogicalMinimum::from(0)))?
        .append(ItemType::from(LogicalMaximum::from(1)))?
        .append(ItemType::from(ReportCount::from(3)))?
        .append(ItemType::from(ReportSize::from(1)))?
        .input(ItemBuilder::new().variable().absolute().input())
}

fn padding(builder: Inside) -> Result<Inside, HidError> {
    builder
        .append(ItemType::from(ReportCount::from(1)))?
        .append(ItemType::from(ReportSize::from(5)))?
        .input(ItemBuilder::new().constant().input())
}

fn axes(builder: Inside) -> Result<Inside, HidError> {
    builder
        .usage_page(UsagePage::from(GENERIC_DESKTOP))?
        .usage_id(UsageId::from(0x30))?
        .usage_id(UsageId::from(0x31))?
        .append(ItemType::from(LogicalMinimum::from(-127)))?
        .append(ItemType::from(LogicalMaximum::from(127)))?
        .append(ItemType::from(ReportCount::from(2)))?
        .append(ItemType::from(ReportSize::from(8)))?
        .input(ItemBuilder::new().variable().relative().input())
}
