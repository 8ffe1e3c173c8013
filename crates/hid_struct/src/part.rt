//! The parts of a source, of which each language has a text.
//!
//! In these texts `$` and a word stand for what `ReportStruct::add_word` and `Member::add_word`
//! write in their place.

/// A part that a report has once.
#[derive(Clone, Copy)]
pub enum ReportPart {
    /// What stands before the members.
    Open,

    /// What stands between the members and the constants.
    Size,

    /// The constant of the report's id.
    Id,

    /// The beginning of the function that reads a report, up to the test of its length.
    Decode,

    /// The test of the report's id.
    IdTest,

    /// What stands before the members that are read.
    Values,

    /// The end of that function, and the beginning of the one that writes a report.
    Encode,

    /// What makes a report whose bits are all 0.
    Blank,

    /// What puts the id into it.
    IdPut,

    /// The end of the report.
    End,
}

/// A part that a report has for each member.
#[derive(Clone, Copy)]
pub enum MemberPart {
    /// The member's own line.
    Declared,

    /// Its constants.
    Places,

    /// What reads it.
    Read,

    /// What refuses a value that doesn't fit.
    Checked,

    /// What writes it.
    Written,
}

/// What a member holds.
#[derive(Clone, Copy, PartialEq)]
pub enum Shape {
    /// A number.
    Number,

    /// Several numbers of as many bits, side by side.
    Numbers,

    /// More bits than a number has, as bytes.
    Bytes,
}
