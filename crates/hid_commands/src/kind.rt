//! What an argument of a command is.

/// What may stand for an argument.
#[derive(Clone, Copy)]
pub enum Kind {
    /// A word that has to be there.
    Word,

    /// A word that may be left out.
    WordOrNone,

    /// A word that has to be there where no rule is to be explained.
    WordOrRule,

    /// Words, or none.
    Words,

    /// An option without a value.
    Flag,

    /// The same, but not beside `QUIET`.
    Louder,

    /// The most that a descriptor may list, a device's number, or how many columns there are.
    Number,

    /// A name that a source is to have, with its number or without.
    Name,

    /// What inputs hold.
    Form,

    /// Whose reading of descriptors is meant.
    Reading,

    /// When names are in colour.
    Colour,

    /// Which way reports go.
    Direction,

    /// What a descriptor is written as.
    Target,

    /// What a report is written as.
    ReportTarget,

    /// What structs are written in.
    Language,

    /// Keys of a keyboard.
    Keys,

    /// A host whose refusals are told.
    Host,

    /// How bad a finding is at least for which the status is 1.
    Severity,

    /// A rule of `check` that is explained.
    Rule,

    /// A folder.
    Folder,
}

/// An argument's name, what may stand for it, and what it is for.
pub type Argument = (&'static str, Kind, &'static str);
