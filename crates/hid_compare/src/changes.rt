//! The parts in which two fields differ, apart from where they lie.
use hid_words::{FLAG_WORDS, FLAGS, FieldNumbers, add_collection, add_name, flags_of, plural};
use hidreport::types::UnitExponent;
use hidreport::{ArrayField, Collection, Field};
use std::alloc::AllocError;
use std::fmt::Write;

/// Appends each part in which two fields differ but for their ids, as it is in the first and in the
/// second.
pub fn add_changes(text: &mut String, first: &Field, second: &Field) -> Result<(), AllocError> {
    match (first, second) {
        (Field::Variable(first), Field::Variable(second)) => {
            let before = FieldNumbers::of_variable(first);
            add_numbers(text, before, FieldNumbers::of_variable(second))?;
            add_flags(text, &flags_of(first), &flags_of(second))?;
        }
        (Field::Array(first), Field::Array(second)) => {
            add_elements(text, first, second)?;
            let before = FieldNumbers::of_array(first);
            add_numbers(text, before, FieldNumbers::of_array(second))?;
            add_flags(text, &flags_of(first), &flags_of(second))?;
        }
        _ => {}
    }
    add_width(text, first.bits().len(), second.bits().len())?;
    add_usages(text, first, second)?;
    add_collections(text, first.collections(), second.collections())
}

/// Appends the report id that two fields ask for, where it differs.
pub fn add_id_change(text: &mut String, first: &Field, second: &Field) -> Result<(), AllocError> {
    let (before, now) = (
        first.report_id().map(u8::from),
        second.report_id().map(u8::from),
    );
    if before == now {
        return Ok(());
    }
    text.push_str("; asks for ")?;
    add_id(text, before)?;
    text.push_str(", now for ")?;
    add_id(text, now)
}

fn add_id(text: &mut String, id: Option<u8>) -> Result<(), AllocError> {
    match id {
        Some(id) => write!(text, "report {id}"),
        None => text.push_str("no report"),
    }
}

fn add_width(text: &mut String, before: usize, now: usize) -> Result<(), AllocError> {
    if before == now {
        return Ok(());
    }
    let (one, other) = (plural(before), plural(now));
    write!(text, "; {before} bit{one}, now {now} bit{other}")
}

fn add_usages(text: &mut String, first: &Field, second: &Field) -> Result<(), AllocError> {
    if first.usages() == second.usages() {
        return Ok(());
    }
    text.push_str("; ")?;
    add_name(text, first)?;
    text.push_str(", now ")?;
    add_name(text, second)
}

/// Appends an array's number of values, and whether its usages are a range or a list.
fn add_elements(
    text: &mut String,
    first: &ArrayField,
    second: &ArrayField,
) -> Result<(), AllocError> {
    let (before, now) = (
        usize::from(first.report_count),
        usize::from(second.report_count),
    );
    if before != now {
        let one = plural(before);
        write!(text, "; {before} value{one}, now {now}")?;
    }
    match (first.is_usage_range(), second.is_usage_range()) {
        (true, false) => text.push_str("; a range of usages, now a list"),
        (false, true) => text.push_str("; a list of usages, now a range"),
        _ => Ok(()),
    }
}

fn add_collections(
    text: &mut String,
    before: &[Collection],
    now: &[Collection],
) -> Result<(), AllocError> {
    if are_same(before, now) {
        return Ok(());
    }
    text.push_str("; in ")?;
    add_path(text, before)?;
    text.push_str(", now in ")?;
    add_path(text, now)
}

/// Whether collections have the same kinds and usages.
fn are_same(before: &[Collection], now: &[Collection]) -> bool {
    before.len() == now.len()
        && before
            .iter()
            .zip(now.iter())
            .all(|(own, other)| is_same(own, other))
}

fn is_same(own: &Collection, other: &Collection) -> bool {
    own.collection_type() == other.collection_type() && own.usages() == other.usages()
}

fn add_path(text: &mut String, collections: &[Collection]) -> Result<(), AllocError> {
    if collections.is_empty() {
        return text.push_str("no collection");
    }
    let mut gap = "";
    for collection in collections {
        text.push_str(gap)?;
        add_collection(text, collection)?;
        gap = " > ";
    }
    Ok(())
}

/// Appends the numbers that differ.
fn add_numbers(
    text: &mut String,
    before: FieldNumbers,
    now: FieldNumbers,
) -> Result<(), AllocError> {
    let ((low, high), (low_now, high_now)) = (before.logical, now.logical);
    if (low, high) != (low_now, high_now) {
        write!(text, "; {low} to {high}, now {low_now} to {high_now}")?;
    }
    if before.physical != now.physical {
        text.push_str("; physical ")?;
        add_physical(text, before.physical)?;
        text.push_str(", now ")?;
        add_physical(text, now.physical)?;
    }
    add_units(text, before, now)
}

fn add_physical(text: &mut String, bounds: (Option<i32>, Option<i32>)) -> Result<(), AllocError> {
    match bounds {
        (Some(low), Some(high)) => write!(text, "{low} to {high}"),
        _ => text.push_str("unset"),
    }
}

/// Appends a unit and its exponent as numbers, since not every unit has words.
fn add_units(text: &mut String, before: FieldNumbers, now: FieldNumbers) -> Result<(), AllocError> {
    if before.unit != now.unit {
        text.push_str("; unit ")?;
        add_unit(text, before.unit)?;
        text.push_str(", now ")?;
        add_unit(text, now.unit)?;
    }
    if before.exponent != now.exponent {
        text.push_str("; unit exponent ")?;
        add_exponent(text, before.exponent)?;
        text.push_str(", now ")?;
        add_exponent(text, now.exponent)?;
    }
    Ok(())
}

fn add_unit(text: &mut String, unit: Option<u32>) -> Result<(), AllocError> {
    match unit {
        Some(unit) => write!(text, "0x{unit:x}"),
        None => text.push_str("unset"),
    }
}

/// Appends an exponent, and the item's number that stands for it where that is another.
fn add_exponent(text: &mut String, exponent: Option<UnitExponent>) -> Result<(), AllocError> {
    let Some(exponent) = exponent else {
        return text.push_str("unset");
    };
    let (number, power) = (i32::from(exponent), exponent.exponent());
    if i32::from(power) == number {
        return write!(text, "{power}");
    }
    write!(text, "{power} (written as {number})")
}

/// Appends the flags that differ, by the words of what they are now.
fn add_flags(
    text: &mut String,
    before: &[bool; FLAGS],
    now: &[bool; FLAGS],
) -> Result<(), AllocError> {
    for ((before, now), words) in before.iter().zip(now.iter()).zip(FLAG_WORDS.iter()) {
        if *before != *now {
            let word = if *now { words.0 } else { words.1 };
            write!(text, "; now {word}")?;
        }
    }
    Ok(())
}
