//! Descriptors compared.
ghost use Rattle.std.specs.Prelude.{◌≡◌};
ghost use Rattle.hidreport_c.specs.Alike.{Likens, unlike};
ghost use Rattle.hidreport_c.specs.Options.{reading_of};

use crate::answer::read;
use crate::status::ACCEPTED;
use crate::structs::{HidreportAnswer, HidreportLikeness, HidreportOptions};
use std::alloc::Global;

impl HidreportLikeness {
    /// What C is told where one of the two isn't read.
    fn unlike(refused: HidreportAnswer, is_of_other: bool) -> HidreportLikeness
        ensures { result ≡ unlike is_of_other refused }
    {
        HidreportLikeness {
            offset: refused.offset,
            status: refused.status,
            is_of_other,
            is_alike: false,
        }
    }
}

/// Whether two descriptors, read by these options, are the same in all parts: whether they announce
/// the same reports in each direction, with equal fields in them, as `ReportDescriptor::is_alike`
/// says. Their bytes may differ.
///
/// Refused is the first as `hidreport_describe` says, or else the other.
#[unsafe(no_mangle)]
pub extern "C" fn hidreport_is_alike(
    alloc: Global,
    descriptor: &[u8],
    other: &[u8],
    options: HidreportOptions,
) -> HidreportLikeness
    ensures { Likens (reading_of options) descriptor.now other.now result }
{
    match read(alloc, descriptor, options) {
        Ok(first) => match read(alloc, other, options) {
            Ok(second) => HidreportLikeness {
                offset: 0,
                status: ACCEPTED,
                is_of_other: false,
                is_alike: first.is_alike(&second),
            },
            Err(refused) => HidreportLikeness::unlike(refused, true),
        },
        Err(refused) => HidreportLikeness::unlike(refused, false),
    }
}
