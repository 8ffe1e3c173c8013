//! The members of a report's struct.
use crate::identifier::{add_capitals, add_identifier};
use crate::language::Language;
use crate::member_names::MemberNames;
use crate::part::Shape;
use hid_report::{FieldLine, element_width, field_lines};
use hid_words::{add_alike_fields, add_bits, add_how, add_name, add_name_on_page};
use hidreport::{Field, RDescReport};
use std::alloc::{AllocError, Global};
use std::fmt::Write;
use std::ops::Range;

/// The most bits of a number.
const WIDEST: usize = 64;

/// What a member stands for: a field, or several side by side that are alike.
#[derive(Drop)]
pub struct Member<'a> {
    name: String,
    /// The field, or the first of them.
    field: &'a Field,
    /// The bits of all of them.
    bits: Range<usize>,
    /// The bits of a number, or of all bytes.
    width: usize,
    /// How many numbers it has.
    count: usize,
    is_signed: bool,
    /// What it holds.
    pub shape: Shape,
}

/// The members of a report.
pub fn members_of(alloc: Global, report: &RDescReport) -> Result<Vec<Member<'_>>, AllocError> {
    let mut members = unnamed_members(alloc, report)?;
    name_members(alloc, &mut members)?;
    Ok(members)
}

/// How many members a report has.
pub fn count_members(alloc: Global, report: &RDescReport) -> Result<usize, AllocError> {
    Ok(unnamed_members(alloc, report)?.len())
}

/// The members of a report without their names.
fn unnamed_members(alloc: Global, report: &RDescReport) -> Result<Vec<Member<'_>>, AllocError> {
    let mut members = Vec::new(alloc);
    for line in field_lines(alloc, report, false)?.iter() {
        if let FieldLine::Fields(_depth, fields) = line {
            add_members(&mut members, fields.first, fields.bits(), fields.count())?;
        }
    }
    Ok(members)
}

/// Appends the member of fields that are alike, or those of each where no number holds one.
fn add_members<'a>(
    members: &mut Vec<Member<'a>>,
    field: &'a Field,
    bits: Range<usize>,
    count: usize,
) -> Result<(), AllocError> {
    let (alloc, width) = (*members.allocator(), field.bits().len());
    match field {
        Field::Constant(_) => Ok(()),
        Field::Array(array) => {
            let (element, count) = (element_width(array), usize::from(array.report_count));
            Ok(members.push(member_of(alloc, field, bits, element, count))?)
        }
        Field::Variable(_) if width <= WIDEST => {
            Ok(members.push(member_of(alloc, field, bits, width, count))?)
        }
        Field::Variable(_) => {
            let mut start = bits.start;
            for _ in 0..count {
                let end = start.saturating_add(width);
                members.push(member_of(alloc, field, start..end, width, 1))?;
                start = end;
            }
            Ok(())
        }
    }
}

/// A member without its name, with so many numbers of these bits.
fn member_of<'a>(
    alloc: Global,
    field: &'a Field,
    bits: Range<usize>,
    width: usize,
    count: usize,
) -> Member<'a> {
    let is_number = width <= WIDEST;
    let is_array = matches!(field, Field::Array(_)) || count != 1;
    let shape = match (is_number, is_array) {
        (true, false) => Shape::Number,
        (true, true) => Shape::Numbers,
        (false, _) => Shape::Bytes,
    };
    Member {
        name: String::new(alloc),
        field,
        width: if is_number { width } else { bits.len() },
        bits,
        count,
        is_signed: is_signed(field),
        shape,
    }
}

/// Whether the values of a field may be below 0.
fn is_signed(field: &Field) -> bool {
    match field {
        Field::Variable(field) => field.is_signed(),
        Field::Array(field) => field.is_signed(),
        Field::Constant(_) => false,
    }
}

/// Gives each member its name.
fn name_members(alloc: Global, members: &mut [Member]) -> Result<(), AllocError> {
    let wanted = wanted_names(alloc, members)?;
    let mut names = MemberNames::of(alloc, &wanted)?;
    for (member, wanted) in members.iter_mut().zip(wanted.iter()) {
        member.name = names.next(wanted.as_str())?;
    }
    Ok(())
}

/// The names that members want.
fn wanted_names(alloc: Global, members: &[Member]) -> Result<Vec<String>, AllocError> {
    let mut wanted = Vec::new(alloc);
    for member in members {
        wanted.push(wanted_name(alloc, member.field)?)?;
    }
    Ok(wanted)
}

/// The name that the member of a field wants.
fn wanted_name(alloc: Global, field: &Field) -> Result<String, AllocError> {
    let mut name = String::new(alloc);
    add_name_on_page(&mut name, field)?;
    let mut wanted = String::new(alloc);
    add_identifier(&mut wanted, name.as_str())?;
    Ok(wanted)
}

impl<'a> Member<'a> {
    /// The words that a remark says of the member: those of `hid fields`.
    pub fn words(&self, alloc: Global) -> Result<String, AllocError> {
        let mut words = String::new(alloc);
        match self.field {
            Field::Variable(first) if self.count != 1 => {
                add_alike_fields(&mut words, first, self.bits.end, self.count)?;
            }
            field => {
                add_bits(&mut words, self.bits.start, self.bits.end)?;
                add_name(&mut words, field)?;
                words.push_str(", ")?;
                add_how(&mut words, field)?;
            }
        }
        if let Field::Array(array) = self.field {
            let low = array.logical_minimum;
            write!(words, "; {low} selects the first usage")?;
        }
        Ok(words)
    }

    /// Whether each number of its type fits, or each byte.
    pub fn is_full(&self, language: Language) -> bool {
        match self.shape {
            Shape::Bytes => language.has_widths() && self.width % 8 == 0,
            _ => language.has_widths() && self.width == self.type_bits(),
        }
    }

    /// The bits of the smallest type that holds its numbers.
    fn type_bits(&self) -> usize {
        match self.width {
            0..=8 => 8,
            9..=16 => 16,
            17..=32 => 32,
            _ => WIDEST,
        }
    }

    /// Whether its numbers are those that JavaScript writes with `n`.
    fn is_big(&self) -> bool {
        32 < self.width
    }

    /// Appends what a word of a text stands for, and answers whether it is a member's.
    pub fn add_word(
        &self,
        text: &mut String,
        language: Language,
        word: &str,
    ) -> Result<bool, AllocError> {
        match word {
            "name" => text.push_str(self.name.as_str())?,
            "NAME" => add_capitals(text, self.name.as_str())?,
            "type" => language.add_type(text, self.type_bits(), self.is_signed)?,
            "signed" if self.is_signed => text.push_str("_signed")?,
            "Signed" if self.is_signed => text.push_str("Signed")?,
            "Big" if self.is_big() => text.push_str("Big")?,
            "n" if self.is_big() => text.push_str("n")?,
            "signed" | "Signed" | "Big" | "n" => {}
            "mask" => self.add_mask(text)?,
            _ => return self.add_number(text, word),
        }
        Ok(true)
    }

    /// Appends as many ones as a number has bits.
    fn add_mask(&self, text: &mut String) -> Result<(), AllocError> {
        let unused = WIDEST.saturating_sub(self.width);
        let mask = if unused < WIDEST {
            u64::MAX >> unused
        } else {
            0
        };
        write!(text, "0x{mask:x}")
    }

    /// Appends the number that a word stands for, and answers whether it is a member's.
    fn add_number(&self, text: &mut String, word: &str) -> Result<bool, AllocError> {
        let number = match word {
            "shift" => self.bits.start,
            "step" | "bits" => self.width,
            "count" => self.count,
            "bytes" => self.width.div_ceil(8),
            _ => return Ok(false),
        };
        write!(text, "{number}")?;
        Ok(true)
    }
}
