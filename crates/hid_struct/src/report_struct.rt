//! The struct of a report: its members, its constants, and the functions that read and write it.
use crate::identifier::add_capitals;
use crate::language::Language;
use crate::member::{Member, members_of};
use crate::part::{MemberPart, ReportPart};
use crate::remark::{add_note, add_remark};
use anyhow::Result;
use hid_output::flush_piece;
use hid_report::add_head;
use hid_words::word_of;
use hidreport::{Direction, RDescReport, Report, ReportId};
use std::alloc::{AllocError, Global};
use std::fmt::Write;

/// How far a member is indented.
const INDENT: usize = 4;

/// What is written of a report next.
#[derive(Clone, Copy)]
enum Step {
    /// A part that it has once.
    Once(ReportPart),
    /// One that it has where it has an id.
    OfId(ReportPart),
    /// One of each member.
    Each(MemberPart),
}

static STEPS: [Step; 15] = [
    Step::Once(ReportPart::Open),
    Step::Each(MemberPart::Declared),
    Step::Once(ReportPart::Size),
    Step::OfId(ReportPart::Id),
    Step::Each(MemberPart::Places),
    Step::Once(ReportPart::Decode),
    Step::OfId(ReportPart::IdTest),
    Step::Once(ReportPart::Values),
    Step::Each(MemberPart::Read),
    Step::Once(ReportPart::Encode),
    Step::Each(MemberPart::Checked),
    Step::Once(ReportPart::Blank),
    Step::OfId(ReportPart::IdPut),
    Step::Each(MemberPart::Written),
    Step::Once(ReportPart::End),
];

/// A report with the members of its struct.
#[derive(Drop)]
pub struct ReportStruct<'a> {
    language: Language,
    direction: Direction,
    report: &'a RDescReport,
    members: Vec<Member<'a>>,
}

impl<'a> ReportStruct<'a> {
    /// That of a report.
    pub fn of(
        alloc: Global,
        language: Language,
        direction: Direction,
        report: &'a RDescReport,
    ) -> Result<ReportStruct<'a>, AllocError> {
        Ok(ReportStruct {
            language,
            direction,
            report,
            members: members_of(alloc, report)?,
        })
    }

    /// Writes it.
    pub fn write<R: AllocGlobal + Print>(&self, rt: &R, text: &mut String) -> Result<()> {
        text.push_str("\n")?;
        self.add_title(text)?;
        if self.members.is_empty() {
            return Ok(());
        }
        for step in &STEPS {
            match *step {
                Step::Once(part) => self.add(text, part)?,
                Step::OfId(part) => self.add_of_id(text, part)?,
                Step::Each(part) => self.write_members(rt, text, part)?,
            }
        }
        flush_piece(rt, text)
    }

    /// The report's id, if it has one.
    fn id(&self) -> Option<ReportId> {
        *self.report.report_id()
    }

    /// Appends a remark that names the report.
    fn add_title(&self, text: &mut String) -> Result<(), AllocError> {
        let mut words = String::new(*text.allocator());
        add_head(&mut words, self.direction, self.report)?;
        if self.members.is_empty() {
            words.push_str("and no values, so no struct")?;
            return add_note(text, self.language, words.as_str());
        }
        add_remark(text, self.language, 0, words.as_str())
    }

    /// Appends a part.
    fn add(&self, text: &mut String, part: ReportPart) -> Result<(), AllocError> {
        self.add_filled(text, self.language.report_text(part), None)
    }

    /// Appends a part where the report has an id.
    fn add_of_id(&self, text: &mut String, part: ReportPart) -> Result<(), AllocError> {
        match self.id() {
            Some(_id) => self.add(text, part),
            None => Ok(()),
        }
    }

    /// Writes a part of each member that has it.
    fn write_members<R: AllocGlobal + Print>(
        &self,
        rt: &R,
        text: &mut String,
        part: MemberPart,
    ) -> Result<()> {
        for member in self.members.iter() {
            if self.has_part(member, part) {
                self.add_member(text, part, member)?;
                flush_piece(rt, text)?;
            }
        }
        Ok(())
    }

    /// Whether a member has a part: where each value fits none is refused.
    fn has_part(&self, member: &Member, part: MemberPart) -> bool {
        !matches!(part, MemberPart::Checked) || !member.is_full(self.language)
    }

    /// Appends a part of a member, whose own line has a remark before it.
    fn add_member(
        &self,
        text: &mut String,
        part: MemberPart,
        member: &Member,
    ) -> Result<(), AllocError> {
        if matches!(part, MemberPart::Declared) {
            let words = member.words(*text.allocator())?;
            add_remark(text, self.language, INDENT, words.as_str())?;
        }
        let wanted = self.language.member_text(part, member.shape);
        self.add_filled(text, wanted, Some(member))
    }

    /// Appends a text, with what its words behind `$` stand for.
    fn add_filled(
        &self,
        text: &mut String,
        wanted: &str,
        member: Option<&Member>,
    ) -> Result<(), AllocError> {
        let mut is_first = true;
        for piece in wanted.split("$") {
            if is_first {
                text.push_str(piece)?;
            } else {
                let (word, rest) = word_and_rest(piece);
                self.add_hole(text, word, member)?;
                text.push_str(rest)?;
            }
            is_first = false;
        }
        Ok(())
    }

    /// Appends what a word of a text stands for, of a member or of the report.
    fn add_hole(
        &self,
        text: &mut String,
        word: &str,
        member: Option<&Member>,
    ) -> Result<(), AllocError> {
        if let Some(member) = member {
            if member.add_word(text, self.language, word)? {
                return Ok(());
            }
        }
        self.add_word(text, word)
    }

    /// Appends what a word stands for that is the report's.
    fn add_word(&self, text: &mut String, word: &str) -> Result<(), AllocError> {
        match word {
            "report" => self.add_name(text),
            "REPORT" => {
                let mut name = String::new(*text.allocator());
                self.add_name(&mut name)?;
                add_capitals(text, name.as_str())
            }
            "Report" => self.add_class(text),
            "size" => {
                let size = self.report.size_in_bytes();
                write!(text, "{size}")
            }
            "id" => self.add_id(text),
            _ => {
                text.push('$')?;
                text.push_str(word)
            }
        }
    }

    /// Appends the name of the struct, as `input_report_3`.
    fn add_name(&self, text: &mut String) -> Result<(), AllocError> {
        text.push_str(word_of(self.direction))?;
        text.push_str("_report")?;
        if self.id().is_some() {
            text.push('_')?;
        }
        self.add_id(text)
    }

    /// Appends the name of the class, as `InputReport3`.
    fn add_class(&self, text: &mut String) -> Result<(), AllocError> {
        text.push_str(match self.direction {
            Direction::Input => "InputReport",
            Direction::Output => "OutputReport",
            Direction::Feature => "FeatureReport",
        })?;
        self.add_id(text)
    }

    /// Appends the report's id, if it has one.
    fn add_id(&self, text: &mut String) -> Result<(), AllocError> {
        match self.id() {
            Some(id) => write!(text, "{id}"),
            None => Ok(()),
        }
    }
}

/// The letters that a text begins with, and what stands behind them.
fn word_and_rest(text: &str) -> (&str, &str) {
    for (place, letter) in text.char_indices() {
        if !letter.is_ascii_alphabetic() {
            let word = text.get(..place).unwrap_or("");
            return (word, text.get(place..).unwrap_or(""));
        }
    }
    (text, "")
}
