//! The languages that structs are written in.
use crate::part::{MemberPart, ReportPart, Shape};
use crate::{c, javascript, python, rust};
use std::alloc::AllocError;
use std::fmt::Write;

/// A language that structs are written in.
#[derive(Clone, Copy, PartialEq)]
pub enum Language {
    /// C.
    C,

    /// Rust.
    Rust,

    /// Python.
    Python,

    /// JavaScript.
    JavaScript,
}

/// The words of the languages.
pub static LANGUAGES: [&str; 4] = ["c", "rust", "python", "javascript"];

impl Language {
    /// The language of a word; C where none is told.
    pub fn named(word: Option<&str>) -> Language {
        match word {
            Some("rust") => Language::Rust,
            Some("python") => Language::Python,
            Some("javascript") => Language::JavaScript,
            _ => Language::C,
        }
    }

    /// What stands before all reports.
    pub fn head(self) -> &'static str {
        match self {
            Language::C => c::HEAD,
            Language::Rust => rust::HEAD,
            Language::Python => python::HEAD,
            Language::JavaScript => javascript::HEAD,
        }
    }

    /// The text of a report's part.
    pub fn report_text(self, part: ReportPart) -> &'static str {
        match self {
            Language::C => c::report_text(part),
            Language::Rust => rust::report_text(part),
            Language::Python => python::report_text(part),
            Language::JavaScript => javascript::report_text(part),
        }
    }

    /// The text of a member's part.
    pub fn member_text(self, part: MemberPart, shape: Shape) -> &'static str {
        match (self, shape) {
            (Language::C, Shape::Number) => c::number_text(part),
            (Language::C, Shape::Numbers) => c::numbers_text(part),
            (Language::C, Shape::Bytes) => c::bytes_text(part),
            (Language::Rust, Shape::Number) => rust::number_text(part),
            (Language::Rust, Shape::Numbers) => rust::numbers_text(part),
            (Language::Rust, Shape::Bytes) => rust::bytes_text(part),
            (Language::Python, Shape::Number) => python::number_text(part),
            (Language::Python, Shape::Numbers) => python::numbers_text(part),
            (Language::Python, Shape::Bytes) => python::bytes_text(part),
            (Language::JavaScript, Shape::Number) => javascript::number_text(part),
            (Language::JavaScript, Shape::Numbers) => javascript::numbers_text(part),
            (Language::JavaScript, Shape::Bytes) => javascript::bytes_text(part),
        }
    }

    /// What a remark on what follows begins with, what its other lines begin with, and its end.
    pub fn remark_marks(self) -> (&'static str, &'static str, &'static str) {
        match self {
            Language::Rust => ("/// ", "/// ", ""),
            _ => self.note_marks(),
        }
    }

    /// The same of a remark that stands alone.
    pub fn note_marks(self) -> (&'static str, &'static str, &'static str) {
        match self {
            Language::C => ("/* ", "   ", " */"),
            Language::Python => ("# ", "# ", ""),
            Language::Rust | Language::JavaScript => ("// ", "// ", ""),
        }
    }

    /// Whether a number has a type of so many bits, which can't hold another one.
    pub fn has_widths(self) -> bool {
        matches!(self, Language::C | Language::Rust)
    }

    /// Appends the type of a number of 8, 16, 32 or 64 bits.
    pub fn add_type(
        self,
        text: &mut String,
        bits: usize,
        is_signed: bool,
    ) -> Result<(), AllocError> {
        match (self, is_signed) {
            (Language::C, false) => write!(text, "uint{bits}_t"),
            (Language::C, true) => write!(text, "int{bits}_t"),
            (_, false) => write!(text, "u{bits}"),
            (_, true) => write!(text, "i{bits}"),
        }
    }
}
