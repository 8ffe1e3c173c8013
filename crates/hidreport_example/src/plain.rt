use hidreport::{Field, ParserError, Report, ReportDescriptor};
use std::alloc::Global;

/// The values in a report, by the descriptor of its device; none where no input report fits.
pub fn values(alloc: Global, descriptor: &[u8], bytes: &[u8]) -> Result<Vec<i32>, ParserError> {
    let descriptor = ReportDescriptor::try_from(alloc, descriptor)?;
    let mut values = Vec::new(alloc);
    let Some(report) = descriptor.find_input_report(bytes) else {
        return Ok(values);
    };
    for field in report.fields() {
        match field {
            Field::Variable(field) => values.push(i32::from(field.extract(bytes)?))?,
            Field::Array(field) => {
                for value in field.extract(bytes)? {
                    values.push(i32::from(value))?;
                }
            }
            Field::Constant(_) => {}
        }
    }
    Ok(values)
}
