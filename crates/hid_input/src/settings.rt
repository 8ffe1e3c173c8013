//! What the options of all commands say.
use hid_given::Form;
use hidreport::{ParseOptions, PushKeeps, RepairOptions, UsagesBy};

/// The most bytes of a file that is read whole.
pub(crate) const LONGEST_INPUT: u64 = 64 * 1024 * 1024;

/// The most bytes of a line of a stream.
pub(crate) const LONGEST_LINE: usize = 1024 * 1024;

/// The most that a descriptor may list, where nothing else is said.
pub const LIMIT: usize = 131_072;

/// The limit by which so many bytes are allowed, where they are too many: a smaller one doesn't
/// raise the most bytes.
pub fn limit_for(bytes: usize) -> usize {
    bytes.max(LIMIT.saturating_add(1))
}

/// Whose reading of descriptors is meant.
#[derive(Clone, Copy, Debug, PartialEq, Eq)]
pub enum ReadAs {
    /// Linux's: mended, a Push keeps globals, and usages are found as hosts find them.
    Linux,

    /// That of the standard, by its letter.
    Standard,
}

impl ReadAs {
    /// How a descriptor is parsed that is read so, under these bounds.
    pub fn parse_options(self, limit: Option<usize>, longest: Option<usize>) -> ParseOptions {
        let (push_keeps, usages) = match self {
            ReadAs::Linux => (PushKeeps::Globals, UsagesBy::Hosts),
            ReadAs::Standard => (PushKeeps::All, UsagesBy::Standard),
        };
        ParseOptions {
            push_keeps,
            usages,
            limit,
            longest,
        }
    }
}

/// What is said on standard error beside refusals.
#[derive(Clone, Copy, Debug, PartialEq, Eq)]
pub enum Notes {
    /// Nothing.
    Quiet,

    /// What is mended, left out, or otherwise than it might be thought.
    Usual,

    /// Also which form an input is read in.
    Verbose,
}

/// The options of all commands.
#[derive(Clone, Copy)]
pub struct Settings<'a> {
    /// What the descriptor's input holds, where it was said.
    pub form: Option<Form>,
    /// What the reports' input holds, where it was said.
    pub report_form: Option<Form>,
    /// The device that is meant, of an input that has several.
    pub device: Option<usize>,
    /// How descriptors are parsed.
    pub parse: ParseOptions,
    /// Whose reading of descriptors is meant, where it was said.
    pub read_as: Option<ReadAs>,
    /// Whether answers are JSON.
    pub is_json: bool,
    /// Whether names are shown in colour.
    pub is_coloured: bool,
    /// How many columns a line of fields or of a map may have, where that is bounded.
    pub width: Option<usize>,
    /// The folder in which Linux tells of devices.
    pub sysfs: &'a str,
    /// What is said on standard error beside refusals.
    pub notes: Notes,
    /// The names that a source is to have, some with their numbers.
    pub names: &'a [&'a str],
}

impl Settings<'_> {
    /// How a descriptor is parsed that is read so.
    pub fn parse_as(&self, reading: ReadAs) -> ParseOptions {
        reading.parse_options(self.parse.limit, self.parse.longest)
    }

    /// How a descriptor is mended that Linux takes.
    pub fn repair(&self) -> RepairOptions {
        RepairOptions {
            parse: self.parse_as(ReadAs::Linux),
            leave_out_cut_short: false,
            unsigned_maxima: true,
        }
    }

    /// Whether reports and fields are those that Linux reads, which is so unless the standard's are
    /// asked for.
    pub fn reads_as_linux(&self) -> bool {
        self.read_as != Some(ReadAs::Standard)
    }

    /// The same, where a descriptor is read anyway: it isn't mended before.
    pub fn unmended(&self) -> Settings<'_> {
        let mut own = *self;
        if own.read_as == Some(ReadAs::Linux) {
            own.read_as = None;
        }
        own
    }

    /// Whether these bytes are what is left of a descriptor that Linux takes: nothing.
    pub fn has_left_none(&self, bytes: &[u8]) -> bool {
        self.read_as == Some(ReadAs::Linux) && bytes.is_empty()
    }

    /// Whether something is said on standard error beside refusals.
    pub fn has_notes(&self) -> bool {
        self.notes != Notes::Quiet
    }

    /// Whether it is said in which form an input is read.
    pub fn tells_forms(&self) -> bool {
        self.notes == Notes::Verbose
    }

    /// The most bytes of a descriptor, and of a report that is written.
    pub fn longest(&self) -> usize {
        self.parse.longest.unwrap_or(usize::MAX)
    }
}
