//! How C asks for a descriptor to be read.
ghost use Rattle.std.specs.Prelude.{◌≡◌};
ghost use Rattle.hidreport.specs.Groups.{listed};
ghost use Rattle.hidreport_lists.specs.Answer.{Answers, AnswersBy};
ghost use Rattle.hidreport_c.specs.Options.{as_linux, outline_by_linux, limit_of, longest_of, options_of, push_keeps_of, reading_of, usages_of};
ghost use Rattle.hidreport_c.specs.Repair.{repair_options_of};

use crate::structs::HidreportOptions;
use hidreport::{
    Outline, ParseOptions, ParserError, PushKeeps, RepairOptions, ReportDescriptor, UsagesBy,
};
use hidreport_linux::outline_as_linux;
use std::alloc::Global;

/// How a descriptor is read.
#[derive(Clone, Copy)]
pub(crate) enum Reading {
    /// By these options.
    By(ParseOptions),

    /// As Linux reads it, which lists no more than a limit, and has no more than so many bytes.
    AsLinux(Option<usize>, Option<usize>),
}

impl Reading {
    ghost use Rattle.hidreport.specs.Groups.{listed};
    ghost use Rattle.hidreport_lists.specs.Answer.{Answers, AnswersBy};
    ghost use Rattle.hidreport_c.specs.Options.{outline_by, read_by};

    /// The descriptor that bytes are, its fields in groups.
    pub(crate) fn outline(self, alloc: Global, bytes: &[u8]) -> Result<Outline, ParserError>
        ensures exact { Answers result (outline_by self bytes.now) }
        ensures listed { AnswersBy listed result (read_by self bytes.now) }
    {
        match self {
            Reading::By(options) => Outline::try_from_with(alloc, bytes, options),
            Reading::AsLinux(limit, longest) => as_linux(alloc, bytes, limit, longest),
        }
    }

    /// The same, its fields listed.
    pub(crate) fn descriptor(
        self,
        alloc: Global,
        bytes: &[u8],
    ) -> Result<ReportDescriptor, ParserError>
        ensures { Answers result (read_by self bytes.now) }
    {
        match self {
            Reading::By(options) => ReportDescriptor::try_from_with(alloc, bytes, options),
            Reading::AsLinux(limit, longest) => {
                let outline = as_linux(alloc, bytes, limit, longest)?;
                let descriptor = outline.lay_out(alloc)?;
                Ok(descriptor)
            }
        }
    }
}

/// The descriptor that bytes are as Linux reads it, if they aren't too many.
fn as_linux(
    alloc: Global,
    bytes: &[u8],
    limit: Option<usize>,
    longest: Option<usize>,
) -> Result<Outline, ParserError>
    ensures exact { Answers result (outline_by_linux limit longest bytes.now) }
    ensures listed { AnswersBy listed result (as_linux limit longest bytes.now) }
{
    if let Some(offset) = longest
        && offset < bytes.len()
    {
        return Err(ParserError::BudgetExceeded { offset });
    }
    outline_as_linux(alloc, bytes, limit)
}

impl HidreportOptions {
    /// The options as the library has them; none where `push` or `usages` is no number of
    /// them.
    pub(crate) fn chosen(self) -> Option<ParseOptions>
        ensures { result ≡ options_of self }
    {
        let limit = limit_of(self.limit);
        Some(ParseOptions {
            push_keeps: push_keeps_of(self.push)?,
            usages: usages_of(self.usages)?,
            limit,
            longest: longest_of(limit),
        })
    }

    /// How a descriptor is read by the options; none where one is no number of them. Linux's reading
    /// has a Push of globals alone.
    pub(crate) fn reading(self) -> Option<Reading>
        ensures { result ≡ reading_of self }
    {
        if self.usages != 2 {
            let options = self.chosen()?;
            return Some(Reading::By(options));
        }
        if self.push != 1 {
            return None;
        }
        let limit = limit_of(self.limit);
        Some(Reading::AsLinux(limit, longest_of(limit)))
    }

    /// The same for a repair with these mends, a sum of 1, for what is cut short, and 2, for maxima
    /// that were meant unsigned; none where that is no such sum, either.
    pub(crate) fn for_repair(self, mends: u32) -> Option<RepairOptions>
        ensures { result ≡ repair_options_of mends (options_of self) }
    {
        let parse = self.chosen()?;
        if mends >= 4 {
            return None;
        }
        Some(RepairOptions {
            parse,
            leave_out_cut_short: mends % 2 == 1,
            unsigned_maxima: mends > 1,
        })
    }
}

fn push_keeps_of(push: u32) -> Option<PushKeeps>
    ensures { result ≡ push_keeps_of push }
{
    match push {
        0 => Some(PushKeeps::All),
        1 => Some(PushKeeps::Globals),
        _ => None,
    }
}

fn usages_of(usages: u32) -> Option<UsagesBy>
    ensures { result ≡ usages_of usages }
{
    match usages {
        0 => Some(UsagesBy::Standard),
        1 => Some(UsagesBy::Hosts),
        _ => None,
    }
}

fn limit_of(limit: usize) -> Option<usize>
    ensures { result ≡ limit_of limit }
{
    if limit == usize::MAX {
        None
    } else {
        Some(limit)
    }
}

/// A device tells its descriptor's length in 16 bits (Section 6.2.1).
fn longest_of(limit: Option<usize>) -> Option<usize>
    ensures { result ≡ longest_of limit }
{
    match limit {
        Some(_) => Some(65_536),
        None => None,
    }
}
