//! The names of usages and of usage pages, both ways.
ghost use Rattle.std.specs.Prelude.{◌≡◌, ◌+◌, ◌*◌, IsUtf8, Ok, None, MatchResult, option_map, string_bytes};
ghost use Rattle.hidreport.specs.UsageNumber.{usage_number};
ghost use Rattle.hidreport_c.specs.Answer.{Lists, no_memory};
ghost use Rattle.hidreport_c.specs.Name.{Names, or_nothing, page_as_c};
ghost use Rattle.hidreport_c.specs.Usages.{usage_as_c};
ghost use Rattle.hidreport_usages.specs.Names.{name_of_number, name_on, page_name};
ghost use Rattle.hidreport_usages.specs.Naming.{IsOnlyNamed};
ghost use Rattle.hidreport_usages.specs.Rows.{IsFirstNamed};

use crate::answer::write_list;
use crate::status::OUT_OF_MEMORY;
use crate::structs::{HidreportAnswer, HidreportPage, HidreportUsage};
use hidreport::{Usage, UsagePage};
use hidreport_usages::{page_by_name, page_name, usage_by_name, usage_name, usage_on_page};
use std::alloc::{AllocError, Global};

/// The name of a usage in the HID Usage Tables (Section 5.5), as text without a zero at its end;
/// empty where they name no such usage. Where memory is refused the answer is 4.
#[unsafe(no_mangle)]
pub extern "C" fn hidreport_usage_name(
    alloc: Global,
    usage: u32,
    text: &mut [u8],
) -> HidreportAnswer
    ensures { Lists (Ok (or_nothing (name_of_number usage))) text.old text.new result }
{
    match usage_name(Usage::from(usage)) {
        Some(name) => write_text(format!(in alloc; "{name}"), text),
        None => HidreportAnswer::counted(0),
    }
}

/// The name of a usage page (Section 6.2.2.7), likewise; empty for a page that the HID Usage Tables
/// reserve.
#[unsafe(no_mangle)]
pub extern "C" fn hidreport_page_name(alloc: Global, page: u16, text: &mut [u8]) -> HidreportAnswer
    ensures { Lists (Ok (or_nothing (page_name page))) text.old text.new result }
{
    match page_name(UsagePage::from(page)) {
        Some(name) => write_text(format!(in alloc; "{name}"), text),
        None => HidreportAnswer::counted(0),
    }
}

/// Writes a text, or says that memory was refused.
pub(crate) fn write_text(made: Result<String, AllocError>, text: &mut [u8]) -> HidreportAnswer
    ensures { MatchResult made (λ made. Lists (Ok (string_bytes made)) text.old text.new result)
        (λ _. (result ≡ no_memory) × (text.new ≡ text.old)) }
{
    match made {
        Ok(made) => write_list(made.as_bytes(), text),
        Err(_) => HidreportAnswer::refused(OUT_OF_MEMORY),
    }
}

/// The usage that has this name, letter for letter (Section 5.5): of several pages the lowest, of
/// the pages of vendors FF00. None where no usage has it, or it is no UTF-8. It takes no memory.
#[unsafe(no_mangle)]
pub extern "C" fn hidreport_usage_by_name(name: &[u8]) -> HidreportUsage
    ensures text { IsUtf8 name.now
        → Names usage_as_c (IsFirstNamed name_of_number name.now 0) result }
    ensures other { (IsUtf8 name.now → ⊥) → result ≡ usage_as_c None }
{
    match str::from_utf8(name) {
        Ok(name) => usage_in_c(usage_by_name(name)),
        Err(_) => usage_in_c(None),
    }
}

/// The usage of a page that has this name, letter for letter (Section 5.5), on which it stands
/// once. None where no usage of the page has it, or it is no UTF-8. It takes no memory.
#[unsafe(no_mangle)]
pub extern "C" fn hidreport_usage_on_page(page: u16, name: &[u8]) -> HidreportUsage
    ensures text { IsUtf8 name.now
        → Names (λ id. usage_as_c (option_map (λ n. page * 65536 + n) id))
        (IsOnlyNamed (name_on page) name.now) result }
    ensures other { (IsUtf8 name.now → ⊥) → result ≡ usage_as_c None }
{
    let Ok(name) = str::from_utf8(name) else {
        return usage_in_c(None);
    };
    let usage_page = UsagePage::from(page);
    match usage_on_page(usage_page, name) {
        Some(usage_id) => usage_in_c(Some(Usage {
            usage_page,
            usage_id,
        })),
        None => usage_in_c(None),
    }
}

/// The usage page that has this name, letter for letter (Section 6.2.2.7). None where no page has
/// it, or it is no UTF-8. It takes no memory.
#[unsafe(no_mangle)]
pub extern "C" fn hidreport_page_by_name(name: &[u8]) -> HidreportPage
    ensures text { IsUtf8 name.now → Names page_as_c (IsOnlyNamed page_name name.now) result }
    ensures other { (IsUtf8 name.now → ⊥) → result ≡ page_as_c None }
{
    match str::from_utf8(name) {
        Ok(name) => page_in_c(page_by_name(name)),
        Err(_) => page_in_c(None),
    }
}

/// A usage, if there is one.
fn usage_in_c(usage: Option<Usage>) -> HidreportUsage
    ensures { result ≡ usage_as_c (option_map usage_number usage) }
{
    match usage {
        Some(usage) => HidreportUsage {
            usage: u32::from(usage),
            is_meant: true,
        },
        None => HidreportUsage {
            usage: 0,
            is_meant: false,
        },
    }
}

/// A page, if there is one.
fn page_in_c(page: Option<UsagePage>) -> HidreportPage
    ensures { result ≡ page_as_c page }
{
    match page {
        Some(page) => HidreportPage {
            page: u16::from(page),
            is_there: true,
        },
        None => HidreportPage {
            page: 0,
            is_there: false,
        },
    }
}
