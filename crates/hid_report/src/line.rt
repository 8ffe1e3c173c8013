//! A report's values in one line, by names that are made once.
use crate::choices::add_choices;
use crate::reading::{Amount, WIDEST, amount_of, choice_of, element_width, readable};
use hid_words::add_name_on_page;
use hidreport::{ArrayField, Field, RDescReport, Report, ReportDescriptor, VariableField};
use std::alloc::{AllocError, Global};
use std::fmt::Write;

/// A report, its fields' names, and the bytes that it had last.
#[derive(Drop)]
struct Named<'a> {
    report: &'a RDescReport,
    names: Vec<String>,
    id: String,
    last: Option<Vec<u8>>,
}

/// The input reports of a descriptor, as lines.
#[derive(Drop)]
pub struct Lines<'a> {
    reports: Vec<Named<'a>>,
    only_changes: bool,
}

impl<'a> Lines<'a> {
    /// Before the first report. With `only_changes` a field whose bits are as they were last is left
    /// out, and so is a report with no other.
    pub fn new(
        alloc: Global,
        descriptor: &'a ReportDescriptor,
        only_changes: bool,
    ) -> Result<Lines<'a>, AllocError> {
        let mut reports = Vec::new(alloc);
        for report in descriptor.input_reports() {
            reports.push(Named::new(alloc, report)?)?;
        }
        Ok(Lines {
            reports,
            only_changes,
        })
    }

    /// The report that these bytes are of.
    pub fn report_of(&self, bytes: &[u8]) -> Option<&RDescReport> {
        let first = *bytes.first()?;
        for named in self.reports.iter() {
            if is_of(named.report, first) {
                return Some(named.report);
            }
        }
        None
    }

    /// Appends the line of a report, and answers whether the descriptor has it.
    pub fn add(&mut self, text: &mut String, bytes: &[u8]) -> Result<bool, AllocError> {
        let Some(first) = bytes.first() else {
            return Ok(false);
        };
        for named in self.reports.iter_mut() {
            if is_of(named.report, *first) {
                named.add(text, bytes, self.only_changes)?;
                return Ok(true);
            }
        }
        Ok(false)
    }
}

/// Whether bytes with this first one are of a report.
fn is_of(report: &RDescReport, first: u8) -> bool {
    match report.report_id() {
        Some(id) => u8::from(id) == first,
        None => true,
    }
}

/// What the fields of a report are called.
fn names_of(alloc: Global, report: &RDescReport) -> Result<Vec<String>, AllocError> {
    let mut names = Vec::new(alloc);
    for field in report.fields() {
        let mut name = String::new(alloc);
        add_name_on_page(&mut name, field)?;
        names.push(name)?;
    }
    Ok(names)
}

/// What stands before the values of a report.
fn front_of(alloc: Global, report: &RDescReport) -> Result<String, AllocError> {
    match report.report_id() {
        Some(number) => format!(in alloc; "{number}: "),
        None => Ok(String::new(alloc)),
    }
}

impl<'a> Named<'a> {
    /// A report of which no bytes have come.
    fn new(alloc: Global, report: &'a RDescReport) -> Result<Named<'a>, AllocError> {
        Ok(Named {
            report,
            names: names_of(alloc, report)?,
            id: front_of(alloc, report)?,
            last: None,
        })
    }

    /// Appends the line of a report.
    fn add(
        &mut self,
        text: &mut String,
        bytes: &[u8],
        only_changes: bool,
    ) -> Result<(), AllocError> {
        let start = text.len();
        add_fields(
            text,
            self.report,
            &self.names,
            &self.id,
            self.last.as_deref(),
            bytes,
        )?;
        if !only_changes {
            return text.push_str("\n");
        }
        self.last = Some(Vec::from_slice(*text.allocator(), bytes)?);
        if start < text.len() {
            text.push_str("\n")?;
        }
        Ok(())
    }
}

/// Appends the values of a report's fields, but for those that are as they were last.
fn add_fields(
    text: &mut String,
    report: &RDescReport,
    names: &[String],
    id: &str,
    last: Option<&[u8]>,
    bytes: &[u8],
) -> Result<(), AllocError> {
    let start = text.len();
    let mut before = None;
    for (field, name) in report.fields().iter().zip(names.iter()) {
        if bytes.len() <= field.bits().start / 8 {
            break;
        }
        if is_as_before(field, last, bytes) {
            continue;
        }
        let is_first = text.len() == start;
        let gap = if is_first { id } else { " " };
        let is_next = before == Some(name.as_str());
        add_field(text, field, name, bytes, gap, is_next)?;
        before = Some(name.as_str());
    }
    Ok(())
}

/// Appends the values of a field.
fn add_field(
    text: &mut String,
    field: &Field,
    name: &String,
    bytes: &[u8],
    gap: &str,
    is_next: bool,
) -> Result<(), AllocError> {
    match field {
        Field::Variable(field) => add_variable(text, field, name, bytes, gap, is_next),
        Field::Array(field) => add_array(text, field, name, bytes, gap),
        Field::Constant(_) => Ok(()),
    }
}

/// Whether a field's bits are as they were.
fn is_as_before(field: &Field, last: Option<&[u8]>, bytes: &[u8]) -> bool {
    let Some(last) = last else {
        return false;
    };
    match field {
        Field::Variable(field) => match (field.extract(last), field.extract(bytes)) {
            (Ok(before), Ok(now)) => i64::from(before) == i64::from(now),
            _ => false,
        },
        Field::Array(field) => are_elements_as_before(field, last, bytes),
        Field::Constant(_) => true,
    }
}

/// Whether all elements are as they were; those of too many bits aren't compared.
fn are_elements_as_before(field: &ArrayField, last: &[u8], bytes: &[u8]) -> bool {
    let count = readable(field, bytes);
    element_width(field) <= WIDEST
        && count == readable(field, last)
        && (0..count).all(|index| choice_of(field, last, index) == choice_of(field, bytes, index))
}

/// Appends a value, behind its name or, where the field before has the same name, behind a comma.
fn add_variable(
    text: &mut String,
    field: &VariableField,
    name: &String,
    bytes: &[u8],
    gap: &str,
    is_next: bool,
) -> Result<(), AllocError> {
    if is_next {
        text.push_str(",")?;
    } else {
        write!(text, "{gap}{name}=")?;
    }
    match amount_of(field, bytes) {
        Amount::Number(value) => write!(text, "{value}"),
        Amount::Missing => text.push_str("?"),
        Amount::TooWide => {
            let width = field.bits.len();
            write!(text, "({width} bits)")
        }
    }
}

/// Appends the usages that an array's values stand for, and values that stand for none.
fn add_array(
    text: &mut String,
    field: &ArrayField,
    name: &String,
    bytes: &[u8],
    gap: &str,
) -> Result<(), AllocError> {
    write!(text, "{gap}{name}=[")?;
    let width = element_width(field);
    if WIDEST < width {
        return write!(text, "({width} bits)]");
    }
    add_choices(text, field, bytes, "", false)?;
    text.push_str("]")
}
