//! A field as JSON: all its public parts.
use crate::linux::AnswerObject;
use anyhow::Result;
use hid_output::add_json;
use hid_words::{FieldNumbers, add_collection_kind, add_name, word_of};
use hidreport::{
    ArrayField, Collection, Direction, Field, FieldAttributes, Group, RDescReport, Report, Usage,
    VariableField,
};
use serde::Serialize;
use std::alloc::{AllocError, Global};

/// The flags of a field.
#[derive(Clone, Copy, Drop, Serialize)]
struct FlagsObject {
    relative: bool,
    wraps: bool,
    nonlinear: bool,
    no_preferred_state: bool,
    null_state: bool,
    volatile: Option<bool>,
    buffered_bytes: bool,
}

/// A collection around a field.
#[derive(Drop, Serialize)]
struct CollectionObject {
    id: u32,
    kind: String,
    usages: Vec<u32>,
}

/// A field that has values.
#[derive(Drop, Serialize)]
pub struct FieldObject {
    direction: &'static str,
    report: Option<u8>,
    field: u32,
    #[serde(skip_serializing_if = "Option::is_none")]
    offset: Option<usize>,
    start: usize,
    end: usize,
    kind: &'static str,
    name: String,
    #[serde(flatten)]
    usages: UsagesObject,
    #[serde(flatten)]
    numbers: NumbersObject,
    flags: Option<FlagsObject>,
    collections: Vec<CollectionObject>,
    #[serde(skip_serializing_if = "Option::is_none")]
    linux: Option<Vec<AnswerObject>>,
}

/// The usage of a field with one value, or those of one with several, and how many values it has.
#[derive(Drop, Serialize)]
struct UsagesObject {
    #[serde(skip_serializing_if = "Option::is_none")]
    usage: Option<u32>,
    #[serde(skip_serializing_if = "Option::is_none")]
    usage_page: Option<u16>,
    #[serde(skip_serializing_if = "Option::is_none")]
    usage_id: Option<u16>,
    #[serde(skip_serializing_if = "Option::is_none")]
    usages: Option<Vec<u32>>,
    #[serde(skip_serializing_if = "Option::is_none")]
    usage_range: Option<Vec<u32>>,
    #[serde(skip_serializing_if = "Option::is_none")]
    count: Option<usize>,
}

/// The bounds and the unit of a field.
#[derive(Clone, Copy, Drop, Serialize)]
struct NumbersObject {
    logical_minimum: Option<i32>,
    logical_maximum: Option<i32>,
    physical_minimum: Option<i32>,
    physical_maximum: Option<i32>,
    unit: Option<u32>,
    unit_exponent: Option<i8>,
}

/// Usages of an item that no field has, with what Linux gives them.
#[derive(Drop, Serialize)]
pub struct RestObject {
    direction: &'static str,
    report: Option<u8>,
    offset: Option<usize>,
    kind: &'static str,
    collections: Vec<CollectionObject>,
    linux: Vec<AnswerObject>,
}

impl RestObject {
    /// Those of an item in a report that stands at an offset.
    pub fn of(
        direction: Direction,
        report: &RDescReport,
        offset: Option<usize>,
        group: &Group,
        linux: Vec<AnswerObject>,
    ) -> Result<RestObject, AllocError> {
        Ok(RestObject {
            direction: word_of(direction),
            report: report.report_id().map(u8::from),
            offset,
            kind: "usages without a field",
            collections: collections_around(*linux.allocator(), group)?,
            linux,
        })
    }
}

/// Appends a field as a line of JSON.
pub fn add_field_object(
    text: &mut String,
    direction: Direction,
    report: &RDescReport,
    field: &Field,
) -> Result<()> {
    let object = object_of(*text.allocator(), direction, report, field)?;
    add_json(text, &object)
}

/// A field as JSON.
pub fn object_of(
    alloc: Global,
    direction: Direction,
    report: &RDescReport,
    field: &Field,
) -> Result<FieldObject, AllocError> {
    let mut object = plain(alloc, direction, report, field)?;
    match field {
        Field::Variable(field) => object.add_variable(field),
        Field::Array(field) => object.add_array(alloc, field)?,
        Field::Constant(_) => {}
    }
    Ok(object)
}

/// What all fields have.
fn plain(
    alloc: Global,
    direction: Direction,
    report: &RDescReport,
    field: &Field,
) -> Result<FieldObject, AllocError> {
    let mut name = String::new(alloc);
    add_name(&mut name, field)?;
    let kind = match field {
        Field::Variable(_) => "variable",
        Field::Array(_) => "array",
        Field::Constant(_) => "padding",
    };
    Ok(FieldObject {
        direction: word_of(direction),
        report: report.report_id().map(u8::from),
        field: u32::from(field.id()),
        offset: None,
        start: field.bits().start,
        end: field.bits().end,
        kind,
        name,
        usages: UsagesObject::none(),
        numbers: NumbersObject::none(),
        flags: None,
        collections: collections_of(alloc, field.collections())?,
        linux: None,
    })
}

impl FieldObject {
    /// Takes the offset of the field's item.
    pub fn add_offset(&mut self, offset: Option<usize>) {
        self.offset = offset;
    }

    /// Takes what Linux gives the field's usages.
    pub fn add_linux(&mut self, answers: Vec<AnswerObject>) {
        self.linux = Some(answers);
    }

    /// Takes what a field with one value has.
    fn add_variable(&mut self, field: &VariableField) {
        self.usages.usage = Some(u32::from(field.usage));
        self.usages.usage_page = Some(u16::from(field.usage.usage_page));
        self.usages.usage_id = Some(u16::from(field.usage.usage_id));
        self.numbers = NumbersObject::of(FieldNumbers::of_variable(field));
        self.flags = Some(flags_of(field));
    }

    /// Takes what a field with several values has.
    fn add_array(&mut self, alloc: Global, field: &ArrayField) -> Result<(), AllocError> {
        self.usages.add_array(alloc, field)?;
        self.numbers = NumbersObject::of(FieldNumbers::of_array(field));
        self.flags = Some(flags_of(field));
        Ok(())
    }
}

impl UsagesObject {
    /// Those of padding.
    fn none() -> UsagesObject {
        UsagesObject {
            usage: None,
            usage_page: None,
            usage_id: None,
            usages: None,
            usage_range: None,
            count: None,
        }
    }

    /// Takes those of a field with several values.
    fn add_array(&mut self, alloc: Global, field: &ArrayField) -> Result<(), AllocError> {
        match field.usages() {
            [first, .., last] if field.is_usage_range() => {
                self.usage_range = Some(numbers_of(alloc, &[*first, *last])?);
            }
            [only] if field.is_usage_range() => {
                self.usage_range = Some(numbers_of(alloc, &[*only, *only])?);
            }
            usages => self.usages = Some(numbers_of(alloc, usages)?),
        }
        self.count = Some(usize::from(field.report_count));
        Ok(())
    }
}

impl NumbersObject {
    /// Those of padding.
    fn none() -> NumbersObject {
        NumbersObject {
            logical_minimum: None,
            logical_maximum: None,
            physical_minimum: None,
            physical_maximum: None,
            unit: None,
            unit_exponent: None,
        }
    }

    fn of(numbers: FieldNumbers) -> NumbersObject {
        NumbersObject {
            logical_minimum: Some(numbers.logical.0),
            logical_maximum: Some(numbers.logical.1),
            physical_minimum: numbers.physical.0,
            physical_maximum: numbers.physical.1,
            unit: numbers.unit,
            unit_exponent: numbers.exponent.map(|it| it.exponent()),
        }
    }
}

/// The flags of a field.
fn flags_of<F: FieldAttributes>(field: &F) -> FlagsObject {
    FlagsObject {
        relative: field.is_relative(),
        wraps: field.wraps(),
        nonlinear: field.is_nonlinear(),
        no_preferred_state: field.has_no_preferred_state(),
        null_state: field.has_null_state(),
        volatile: field.is_volatile(),
        buffered_bytes: field.is_buffered_bytes(),
    }
}

/// Usages as numbers, the page above the id.
fn numbers_of(alloc: Global, usages: &[Usage]) -> Result<Vec<u32>, AllocError> {
    let mut numbers = Vec::with_capacity(alloc, usages.len())?;
    for usage in usages {
        numbers.push(u32::from(*usage))?;
    }
    Ok(numbers)
}

/// The collections around a field, outermost first.
fn collections_of(
    alloc: Global,
    collections: &[Collection],
) -> Result<Vec<CollectionObject>, AllocError> {
    let mut objects = Vec::new(alloc);
    for collection in collections {
        objects.push(collection_object(alloc, collection)?)?;
    }
    Ok(objects)
}

/// Those around an item.
fn collections_around(alloc: Global, group: &Group) -> Result<Vec<CollectionObject>, AllocError> {
    let mut objects = Vec::new(alloc);
    for index in 0..group.collection_count() {
        if let Some(collection) = group.collection(index) {
            objects.push(collection_object(alloc, &collection.listed(alloc)?)?)?;
        }
    }
    Ok(objects)
}

/// A collection as JSON.
fn collection_object(
    alloc: Global,
    collection: &Collection,
) -> Result<CollectionObject, AllocError> {
    let mut kind = String::new(alloc);
    add_collection_kind(&mut kind, collection.collection_type())?;
    Ok(CollectionObject {
        id: u32::from(collection.id()),
        kind,
        usages: numbers_of(alloc, collection.usages())?,
    })
}
