//! How a report descriptor is read.
ghost use Rattle.std.specs.Prelude.{◌≡◌, None, Some};
ghost use Rattle.hidreport.specs.Options.{default_options, past_longest};
ghost use Rattle.hidreport.specs.declared.parser.push_keeps.PushKeeps.TheVariants as a_push_keeps;
ghost use Rattle.hidreport.specs.declared.parser.usages_by.UsagesBy.TheVariants as usages_by;

use crate::parser::push_keeps::PushKeeps;
use crate::parser::usages_by::UsagesBy;

/// How `ReportDescriptor::try_from_with` reads a descriptor.
///
/// The default is what `try_from` does: a Push keeps local items, too, usages are found by the
/// letter of the standard, and nothing is limited.
///
/// # Examples
///
/// ```rust
/// use hidreport::{ParseOptions, ParserError, ReportDescriptor};
///
/// let bytes = b"\x05\x01\x09\x02\xa1\x01\x09\x30\x75\x08\x95\x02\x81\x02\xc0";
/// let options = ParseOptions::bounded();
/// assert!(rt; ReportDescriptor::try_from_with(alloc, bytes, options).is_ok());
/// let options = ParseOptions { limit: Some(7), ..options };
/// let refused = ReportDescriptor::try_from_with(alloc, bytes, options);
/// assert!(rt; matches!(refused, Err(ParserError::BudgetExceeded { offset: 12 })));
/// ```
#[derive(Clone, Copy, Debug, PartialEq, Eq)]
pub struct ParseOptions {
    /// What a Push keeps for its Pop.
    pub push_keeps: PushKeeps,

    /// By which rule an item finds its usages.
    pub usages: UsagesBy,

    /// The most that may be listed: fields, usages of arrays, collections around fields and their
    /// usages together, as `ReportDescriptor::try_from_with` counts. `None` is no limit.
    pub limit: Option<usize>,

    /// The most bytes that a descriptor may have; `None` is no limit.
    ///
    /// A longer one isn't looked at: it is `BudgetExceeded`, with this number as its offset.
    pub longest: Option<usize>,
}

impl Default for ParseOptions {
    ghost is_default = { λ options. options ≡ default_options };

    fn default() -> ParseOptions {
        ParseOptions {
            push_keeps: PushKeeps::All,
            usages: UsagesBy::Standard,
            limit: None,
            longest: None,
        }
    }
}

impl ParseOptions {
    /// The options for bytes that nobody vouches for: at most 65,536 may be listed, of at most
    /// 65,536 bytes.
    ///
    /// A device tells its descriptor's length in 16 bits (Section 6.2.1). Both can be set to other
    /// numbers.
    pub fn bounded() -> ParseOptions
        ensures { result ≡ record {
          push_keeps = a_push_keeps.All;
          usages = usages_by.Standard;
          limit = Some 65536;
          longest = Some 65536;
        } }
    {
        ParseOptions {
            push_keeps: PushKeeps::All,
            usages: UsagesBy::Standard,
            limit: Some(65_536),
            longest: Some(65_536),
        }
    }
    /// The most bytes that a descriptor may have, where it has more.
    pub(crate) fn past_longest(&self, size: usize) -> Option<usize>
        ensures { result ≡ past_longest self.now.longest size }
    {
        let longest = self.longest?;
        if longest < size { Some(longest) } else { None }
    }
}
