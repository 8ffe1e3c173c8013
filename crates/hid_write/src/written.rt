//! The bytes of a report that `hid set` writes, a name behind the other.
use crate::assignment::{Assignment, assignment_of};
use crate::nearest::{add_nearest, usages_with};
use crate::putting::{Wish, put_nothing, put_number};
use crate::wanted_usage::WantedUsage;
use anyhow::{Result, bail};
use hid_input::settings::Settings;
use hid_output::escaped;
use hid_report::{Choice, choice_of, is_outside};
use hid_words::add_usage;
use hidreport::{Field, RDescReport, Report};
use std::alloc::Global;

/// A report's bytes so far.
#[derive(Drop)]
pub struct Written<'a> {
    alloc: Global,
    report: &'a RDescReport,
    bytes: Vec<u8>,
    /// How many elements of each field are set.
    used: Vec<usize>,
    /// Whether words are only looked at: those by which a key isn't pressed.
    is_checking: bool,
}

impl<'a> Written<'a> {
    /// The report before any name: with all bits 0, or with what stands for no value.
    pub fn new(alloc: Global, report: &'a RDescReport, is_zero: bool) -> Result<Written<'a>> {
        let mut bytes = report.blank(alloc)?;
        if !is_zero {
            for field in report.fields() {
                put_nothing(field, &mut bytes);
            }
        }
        Ok(Written {
            alloc,
            report,
            bytes,
            used: vec![in alloc; 0usize; report.fields().len()]?,
            is_checking: false,
        })
    }

    /// Puts the number of one name into the report; says where it is outside of the bounds.
    pub fn put_word<R: AllocGlobal + Eprint>(
        &mut self,
        rt: &R,
        settings: &Settings,
        word: &str,
    ) -> Result<()> {
        let Some(assignment) = assignment_of(word) else {
            bail!("isn't NAME=NUMBER, as 'Num Lock=1' is: --names shows the names");
        };
        let field = self.put(word, assignment)?;
        if !settings.has_notes() {
            return Ok(());
        }
        match field {
            Field::Variable(field) if is_outside(field, assignment.number) => {
                let (low, high) = (field.logical_minimum, field.logical_maximum);
                let word = escaped(rt.alloc(), word)?;
                eprintln!(rt; "hid: {word}: outside of {low} to {high}, so it is no value")?;
                Ok(())
            }
            _ => Ok(()),
        }
    }

    /// Puts a number into the field that has this usage, if there is one.
    fn put_wanted(
        &mut self,
        wanted: WantedUsage,
        assignment: Assignment,
    ) -> Result<Option<&'a Field>> {
        let (mut wanted, mut before) = (wanted, assignment.before);
        for (field, used) in self.report.fields().iter().zip(self.used.iter_mut()) {
            let Some(usage) = wanted.find(self.alloc, field.usages())? else {
                continue;
            };
            if before != 0 {
                before -= 1;
                continue;
            }
            if !self.is_checking || matches!(field, Field::Array(_)) {
                let number = assignment.number;
                put_number(field, &mut self.bytes, used, Wish { usage, number })?;
            }
            return Ok(Some(field));
        }
        Ok(None)
    }

    /// Says which elements of arrays nobody named and stand for a usage all the same, since no
    /// value of theirs stands for none.
    pub fn tell_pressed<R: AllocGlobal + Eprint>(&self, rt: &R) -> Result<()> {
        for (field, used) in self.report.fields().iter().zip(self.used.iter()) {
            if let Field::Array(field) = field {
                if let Some((_value, Choice::Usage(usage))) = choice_of(field, &self.bytes, *used) {
                    let mut name = String::new(rt.alloc());
                    add_usage(&mut name, usage)?;
                    eprintln!(rt; "hid: elements that no name sets stand for {name}")?;
                }
            }
        }
        Ok(())
    }

    /// The bytes.
    pub fn bytes(&self) -> &[u8] {
        &self.bytes
    }

    /// Refuses a word by which a key isn't pressed that another one presses.
    pub fn check(&mut self, word: &str) -> Result<()> {
        self.is_checking = true;
        if let Some(assignment) = assignment_of(word) {
            self.put(word, assignment)?;
        }
        Ok(())
    }

    /// Puts the number of a word into the field that it names, and answers that.
    fn put(&mut self, word: &str, assignment: Assignment) -> Result<&'a Field> {
        for wanted in [
            WantedUsage::new(assignment.name),
            WantedUsage::in_any_case(assignment.name),
        ] {
            if let Some(field) = self.put_wanted(wanted, assignment)? {
                return Ok(field);
            }
        }
        let usages = usages_with(self.alloc, self.report, assignment.name)?;
        if let [usage] = usages.as_slice() {
            let wanted = WantedUsage::of(*usage);
            if let Some(field) = self.put_wanted(wanted, assignment)? {
                return Ok(field);
            }
        }
        if let [usage, other, ..] = usages.as_slice() {
            let (mut one, mut another) = (String::new(self.alloc), String::new(self.alloc));
            add_usage(&mut one, *usage)?;
            add_usage(&mut another, *other)?;
            bail!("may be {one} or {another}");
        }
        let mut refusal = String::from_str(self.alloc, "no field has this name")?;
        add_nearest(&mut refusal, self.report, assignment.name, word)?;
        bail!("{refusal}")
    }
}
