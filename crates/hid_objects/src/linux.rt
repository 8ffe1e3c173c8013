//! What Linux makes of a field: event codes in words and as JSON.
use hid_words::{add_spaces, add_usage};
use hidreport::{Field, Usage};
use hidreport_linux::{Axis, EventCode};
use hidreport_multitouch::{DrivenDevices, DrivenEvent, DrivenItem, Silent};
use serde::Serialize;
use std::alloc::{AllocError, Global};
use std::fmt::Write;

/// What Linux gives some usages that follow each other: one that has an event, or all that have none
/// for the same reason.
#[derive(Clone, Copy, Drop)]
pub struct Answered {
    first: Usage,
    last: Usage,
    answer: Result<GivenCode, Silent>,
}

/// An event with what the other usages of the descriptor leave it.
#[derive(Clone, Copy, Drop)]
struct GivenCode {
    code: EventCode,
    /// The codes that its usage also has, of which there are no more than two.
    beside: Beside,
    axis: Option<Axis>,
}

/// Codes that a usage also has.
#[derive(Clone, Copy)]
struct Beside {
    first: Option<EventCode>,
    second: Option<EventCode>,
}

impl Beside {
    /// The codes of a list.
    fn of(codes: &[EventCode]) -> Beside {
        Beside {
            first: codes.first().copied(),
            second: codes.get(1).copied(),
        }
    }
}

/// What Linux gives usages of an item, in their order; `all` are the same input devices behind all
/// usages.
pub fn answers_of(
    alloc: Global,
    devices: &mut DrivenDevices,
    all: &DrivenDevices,
    item: &mut DrivenItem,
    usages: &[Usage],
) -> Result<Vec<Answered>, AllocError> {
    let mut answers: Vec<Answered> = Vec::new(alloc);
    for usage in usages {
        let next = Answered {
            first: *usage,
            last: *usage,
            answer: given(all, devices.event(item, *usage)),
        };
        if goes_on(&answers, &next) {
            stretch(&mut answers, 1);
        } else {
            answers.push(next)?;
        }
    }
    Ok(answers)
}

/// Whether the next usage has no event for the same reason as the last one.
fn goes_on(answers: &[Answered], next: &Answered) -> bool {
    match answers.last() {
        Some(before) => before.goes_on(next),
        None => false,
    }
}

/// What an event has behind all usages.
fn given(all: &DrivenDevices, answer: Result<DrivenEvent, Silent>) -> Result<GivenCode, Silent> {
    match all.settled(answer) {
        Ok(event) => Ok(GivenCode {
            code: event.code,
            beside: Beside::of(all.beside(&event)),
            axis: all.axis(&event),
        }),
        Err(reason) => Err(reason),
    }
}

/// So many usages more behind the last are given the same.
pub fn stretch(answers: &mut [Answered], count: u32) {
    if let Some(answered) = answers.last_mut() {
        answered.last = Usage::from(u32::from(answered.last).saturating_add(count));
    }
}

impl Answered {
    /// Whether the next usage has none for the same reason.
    fn goes_on(&self, next: &Answered) -> bool {
        let (Err(reason), Err(next_reason)) = (self.answer, next.answer) else {
            return false;
        };
        reason == next_reason && u32::from(self.last).checked_add(1) == Some(u32::from(next.first))
    }

    /// Appends the usages and what they are given, in a line.
    fn add_line(&self, text: &mut String, indent: usize) -> Result<(), AllocError> {
        text.push_str("\n")?;
        add_spaces(text, indent)?;
        add_usage(text, self.first)?;
        if self.first != self.last {
            text.push_str(" to ")?;
            add_usage(text, self.last)?;
        }
        add_answer(text, self.answer)
    }
}

/// Appends what the usages of a field are given: that of a variable field behind its words, those of
/// an array in lines of their own, so far in.
pub fn add_answers(
    text: &mut String,
    field: &Field,
    answers: &[Answered],
    indent: usize,
) -> Result<(), AllocError> {
    match field {
        Field::Constant(_) => text.push_str(" -> none: constant"),
        Field::Variable(_) => {
            for answered in answers {
                add_answer(text, answered.answer)?;
            }
            Ok(())
        }
        Field::Array(_) => add_lines(text, answers, indent),
    }
}

/// Appends what usages are given, each in a line that begins so far in.
pub fn add_lines(text: &mut String, answers: &[Answered], indent: usize) -> Result<(), AllocError> {
    for answered in answers {
        answered.add_line(text, indent)?;
    }
    Ok(())
}

/// Appends a code with all that is known of it, or why there is none.
fn add_answer(text: &mut String, answer: Result<GivenCode, Silent>) -> Result<(), AllocError> {
    match answer {
        Ok(given) => add_given(text, &given),
        Err(reason) => write!(text, " -> none: {reason}"),
    }
}

fn add_given(text: &mut String, given: &GivenCode) -> Result<(), AllocError> {
    let code = given.code;
    write!(text, " -> {code}")?;
    if let Some(beside) = given.beside.first {
        write!(text, " {beside}")?;
    }
    if let Some(beside) = given.beside.second {
        write!(text, " {beside}")?;
    }
    match given.axis {
        Some(axis) => add_axis(text, &axis),
        None => Ok(()),
    }
}

/// Appends the bounds of an axis, and what of the rest isn't 0.
fn add_axis(text: &mut String, axis: &Axis) -> Result<(), AllocError> {
    let (low, high) = (axis.minimum, axis.maximum);
    write!(text, " ({low} to {high}")?;
    for (name, number) in [
        ("fuzz", axis.fuzz),
        ("flat", axis.flat),
        ("resolution", axis.resolution),
    ] {
        if number != 0 {
            write!(text, ", {name} {number}")?;
        }
    }
    text.push_str(")")
}

/// An axis as JSON.
#[derive(Clone, Copy, Drop, Serialize)]
struct AxisObject {
    minimum: i32,
    maximum: i32,
    fuzz: i32,
    flat: i32,
    resolution: i32,
}

/// What Linux gives usages, as JSON.
#[derive(Drop, Serialize)]
pub struct AnswerObject {
    first: u32,
    last: u32,
    #[serde(skip_serializing_if = "Option::is_none")]
    event_type: Option<&'static str>,
    #[serde(skip_serializing_if = "Option::is_none")]
    code: Option<u16>,
    #[serde(skip_serializing_if = "Option::is_none")]
    name: Option<&'static str>,
    #[serde(skip_serializing_if = "Vec::is_empty")]
    beside: Vec<&'static str>,
    #[serde(skip_serializing_if = "Option::is_none")]
    axis: Option<AxisObject>,
    #[serde(skip_serializing_if = "Option::is_none")]
    none: Option<&'static str>,
}

/// What the usages of a field are given, as JSON.
pub fn objects_of(alloc: Global, answers: &[Answered]) -> Result<Vec<AnswerObject>, AllocError> {
    let mut objects = Vec::new(alloc);
    for answered in answers {
        objects.push(object_of(alloc, answered)?)?;
    }
    Ok(objects)
}

fn object_of(alloc: Global, answered: &Answered) -> Result<AnswerObject, AllocError> {
    let mut object = AnswerObject {
        first: u32::from(answered.first),
        last: u32::from(answered.last),
        event_type: None,
        code: None,
        name: None,
        beside: Vec::new(alloc),
        axis: None,
        none: None,
    };
    match answered.answer {
        Ok(given) => object.add_given(&given)?,
        Err(reason) => object.none = Some(reason.reason()),
    }
    Ok(object)
}

impl AnswerObject {
    fn add_given(&mut self, given: &GivenCode) -> Result<(), AllocError> {
        self.event_type = Some(given.code.event_type.name());
        self.code = Some(given.code.number);
        self.name = given.code.name();
        self.add_beside(given.beside.first)?;
        self.add_beside(given.beside.second)?;
        self.axis = given.axis.map(axis_object);
        Ok(())
    }

    /// Adds the name of a code that the usage also has, if there is one.
    fn add_beside(&mut self, code: Option<EventCode>) -> Result<(), AllocError> {
        if let Some(code) = code
            && let Some(name) = code.name()
        {
            self.beside.push(name)?;
        }
        Ok(())
    }
}

fn axis_object(axis: Axis) -> AxisObject {
    AxisObject {
        minimum: axis.minimum,
        maximum: axis.maximum,
        fuzz: axis.fuzz,
        flat: axis.flat,
        resolution: axis.resolution,
    }
}
