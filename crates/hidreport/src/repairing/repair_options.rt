//! How a descriptor is repaired.
ghost use Rattle.std.specs.Prelude.{◌≡◌, false, None};
ghost use Rattle.hidreport.specs.declared.parser.push_keeps.PushKeeps.TheVariants as a_push_keeps;
ghost use Rattle.hidreport.specs.declared.parser.usages_by.UsagesBy.TheVariants as usages_by;

use crate::parse_options::ParseOptions;
use crate::parser::push_keeps::PushKeeps;
use crate::parser::usages_by::UsagesBy;

/// What `repair` mends, and how what it writes is read.
///
/// The default mends what Linux's hid-core reads without asking, and reads as it does: a Push keeps
/// globals alone, and usages are those that hosts read.
#[derive(Clone, Copy, Debug, PartialEq, Eq)]
pub struct RepairOptions {
    /// How the repaired descriptor is read.
    pub parse: ParseOptions,

    /// Whether an item that is cut short is left out, with all bytes from there on; hid-core
    /// refuses it.
    pub leave_out_cut_short: bool,

    /// Whether a negative maximum is written as the same data without a sign, where no negative
    /// minimum is in force; hid-core always reads it so.
    pub unsigned_maxima: bool,
}

impl Default for RepairOptions {
    ghost is_default = { λ options. options ≡ record {
      parse = record {
        push_keeps = a_push_keeps.Globals;
        usages = usages_by.Hosts;
        limit = None;
        longest = None;
      };
      leave_out_cut_short = false;
      unsigned_maxima = false;
    } };

    fn default() -> RepairOptions {
        RepairOptions {
            parse: ParseOptions {
                push_keeps: PushKeeps::Globals,
                usages: UsagesBy::Hosts,
                limit: None,
                longest: None,
            },
            leave_out_cut_short: false,
            unsigned_maxima: false,
        }
    }
}
