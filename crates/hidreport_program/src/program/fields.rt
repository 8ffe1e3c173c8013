//! The lines of a report and of its fields.
ghost use Rattle.std.specs.Prelude.{◌≡◌, ◌++◌, [], OnOk, string_bytes};
ghost use Rattle.hidreport.specs.Reading.{reads};
ghost use Rattle.hidreport.specs.Views.{array_record, constant_record, field_record, variable_record};
ghost use Rattle.hidreport_program.specs.Lines.{line_of_field, reading_text, report_line, values_text};
ghost use Rattle.hidreport_program.specs.Output.{report_text};

use super::numbers::{EightDigits, TwoDigits};
use hidreport::{
    ArrayField, ConstantField, Field, FieldValue, ParserError, RDescReport, Report, VariableField,
};
use std::alloc::AllocError;
use std::fmt::Write;

/// Appends a report's line and the lines of its fields, with what `bytes` give each.
pub fn add_report(text: &mut String, report: &RDescReport, bytes: &[u8]) -> Result<(), AllocError>
    ensures { OnOk result (string_bytes text.new
        ≡ string_bytes text.old ++ report_text report.now bytes.now) }
{
    add_heading(text, report)?;
    for field in report.fields() {
        add_field(text, field, bytes)?;
    }
    Ok(())
}

fn add_heading(text: &mut String, report: &RDescReport) -> Result<(), AllocError>
    ensures { OnOk result (string_bytes text.new
        ≡ string_bytes text.old ++ report_line report.now.id report.now.size) }
{
    let size = report.size_in_bits();
    match report.report_id() {
        Some(id) => {
            let id = TwoDigits(u8::from(*id));
            writeln!(text, "report {id} {size}")
        }
        None => writeln!(text, "report -- {size}"),
    }
}

fn add_field(text: &mut String, field: &Field, bytes: &[u8]) -> Result<(), AllocError>
    ensures { OnOk result (string_bytes text.new
        ≡ string_bytes text.old ++ line_of_field bytes.now (field_record field.now)) }
{
    match field {
        Field::Variable(field) => add_variable(text, field, bytes),
        Field::Array(field) => add_array(text, field, bytes),
        Field::Constant(field) => add_constant(text, field),
    }
}

fn add_variable(text: &mut String, field: &VariableField, bytes: &[u8]) -> Result<(), AllocError>
    ensures { OnOk result (string_bytes text.new ≡ string_bytes text.old
        ++ line_of_field bytes.now (variable_record field.now)) }
{
    let first = field.bits.start;
    let end = field.bits.end;
    let usage = EightDigits(u32::from(field.usage));
    write!(text, "{first}..{end} variable {usage}")?;
    add_value(text, field, bytes)?;
    writeln!(text)
}

/// Appends the value after a space, or that its bits lie outside the report.
fn add_value(text: &mut String, field: &VariableField, bytes: &[u8]) -> Result<(), AllocError>
    ensures { OnOk result (string_bytes text.new
        ≡ string_bytes text.old ++ reading_text (reads (variable_record field.now) bytes.now)) }
{
    match field.extract(bytes) {
        Ok(value) => add_values(text, &[value]),
        Err(ParserError::OutOfMemory) => Err(AllocError),
        Err(_refusal) => write!(text, " out of bounds"),
    }
}

fn add_array(text: &mut String, field: &ArrayField, bytes: &[u8]) -> Result<(), AllocError>
    ensures { OnOk result (string_bytes text.new ≡ string_bytes text.old
        ++ line_of_field bytes.now (array_record field.now)) }
{
    let first = field.bits.start;
    let end = field.bits.end;
    write!(text, "{first}..{end} array")?;
    match field.extract(bytes) {
        Ok(values) => add_values(text, &values)?,
        Err(ParserError::OutOfMemory) => return Err(AllocError),
        Err(_refusal) => write!(text, " out of bounds")?,
    }
    writeln!(text)
}

/// Appends the values, each after a space.
fn add_values(text: &mut String, values: &[FieldValue]) -> Result<(), AllocError>
    ensures { OnOk result (string_bytes text.new
        ≡ string_bytes text.old ++ values_text values.now) }
{
    for value in values {
        let number = i64::from(*value);
        write!(text, " {number}")?;
    }
    Ok(())
}

fn add_constant(text: &mut String, field: &ConstantField) -> Result<(), AllocError>
    ensures { OnOk result (string_bytes text.new ≡ string_bytes text.old
        ++ line_of_field [] (constant_record field.now)) }
{
    let first = field.bits.start;
    let end = field.bits.end;
    writeln!(text, "{first}..{end} constant")
}
