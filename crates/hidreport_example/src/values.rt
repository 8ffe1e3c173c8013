//! The same, proved to give the numbers that the definitions say.
ghost use Rattle.std.specs.Prelude.{◌≡◌, map, IfOk};
ghost use Rattle.hidreport.specs.Answer.{AnswersBy};
ghost use Rattle.hidreport.specs.Views.{field_record, variable_record};
ghost use Rattle.hidreport_example.specs.Numbers.{number, numbers_at, numbers_in, numbers_of};

use hidreport::{Field, FieldValue, ParserError, Report, ReportDescriptor, VariableField};
use std::alloc::{AllocError, Global};

/// The values in a report, by the descriptor of its device; none where no input report fits.
///
/// Refused is what the descriptor is refused for, and then the first field that can't be read.
pub fn values(alloc: Global, descriptor: &[u8], bytes: &[u8]) -> Result<Vec<i32>, ParserError>
    ensures { AnswersBy (λ values. values.items) result (numbers_in descriptor.now bytes.now) }
{
    let descriptor = ReportDescriptor::try_from(alloc, descriptor)?;
    match descriptor.find_input_report(bytes) {
        Some(report) => values_of(alloc, report.fields(), bytes),
        None => Ok(Vec::new(alloc)),
    }
}

/// The values that a report's bytes give these fields, in order.
fn values_of(alloc: Global, fields: &[Field], bytes: &[u8]) -> Result<Vec<i32>, ParserError>
    ensures { AnswersBy (λ values. values.items) result
        (numbers_of bytes.now (map field_record fields.now)) }
{
    let mut values = Vec::new(alloc);
    for field in fields {
        values.append(&mut values_at(alloc, field, bytes)?)?;
    }
    Ok(values)
}

/// The values of one field: one, those of all elements of an array, or none of padding.
fn values_at(alloc: Global, field: &Field, bytes: &[u8]) -> Result<Vec<i32>, ParserError>
    ensures { AnswersBy (λ values. values.items) result (numbers_at bytes.now
        (field_record field.now)) }
{
    match field {
        Field::Variable(field) => number_of(alloc, field, bytes),
        Field::Array(field) => Ok(numbers(alloc, &field.extract(bytes)?)?),
        Field::Constant(_) => Ok(Vec::new(alloc)),
    }
}

/// The value of a field with one.
fn number_of(alloc: Global, field: &VariableField, bytes: &[u8]) -> Result<Vec<i32>, ParserError>
    ensures { AnswersBy (λ values. values.items) result
        (numbers_at bytes.now (variable_record field.now)) }
{
    let value = field.extract(bytes)?;
    Ok(numbers(alloc, &[value])?)
}

fn numbers(alloc: Global, values: &[FieldValue]) -> Result<Vec<i32>, AllocError>
    ensures { IfOk result (λ numbers. numbers.items ≡ map number values.now) }
{
    let mut numbers = Vec::new(alloc);
    for value in values {
        numbers.push(i32::from(value))?;
    }
    Ok(numbers)
}
