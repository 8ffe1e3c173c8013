//! The names of usage pages.
ghost use Rattle.std.specs.Prelude.{◌≡◌, option_map, Some};
ghost use Rattle.hidreport_usages.specs.Names.{page_name, page_text, vendor_name};
ghost use Rattle.hidreport_usages.specs.Naming.{IsOnlyNamed};
ghost use Rattle.hidreport_usages.specs.PageRows.{page_rows};
ghost use Rattle.hidreport_usages.specs.Rows.{name_in};

use crate::family::digits_id;
use crate::four_digits::write_four_digits;
use crate::names::{first_named, name_of};
use crate::tables::PageNames;
use hidreport_types::UsagePage;
use std::fmt;

/// The name of a usage page; `Display` writes it.
#[derive(Clone, Copy)]
pub enum PageName {
    /// A name of the HID Usage Tables, such as `Generic Desktop`.
    Listed(&'static str),

    /// A page of vendors, FF00 to FFFF, such as `Vendor-defined FF00`.
    Vendor(u16),
}

/// The name of a usage page (Section 6.2.2.7); `None` for a page that the HID Usage Tables keep for
/// later.
pub fn page_name(usage_page: UsagePage) -> Option<PageName>
    ensures { option_map page_text result ≡ page_name usage_page }
{
    let page = u16::from(usage_page);
    if page >= 0xff00 {
        return Some(PageName::Vendor(page));
    }
    match name_of::<PageNames>(u32::from(page)) {
        Some(name) => Some(PageName::Listed(name)),
        None => None,
    }
}

/// The usage page that has this name, letter for letter (Section 6.2.2.7); `None` where none has
/// it.
///
/// `page_name` gives the page that is found this name again.
pub fn page_by_name(name: &str) -> Option<UsagePage>
    ensures { IsOnlyNamed page_name name.now result }
{
    match number_of_page(name) {
        Some(page) => Some(UsagePage::from(page)),
        None => None,
    }
}

/// The number of the page that has this name, or none where none has it.
fn number_of_page(name: &str) -> Option<u16>
    ensures { IsOnlyNamed page_name name.now result }
{
    match listed_page(name) {
        Some(page) => Some(page),
        None => vendor_page(name),
    }
}

/// The page that has this name in the table, or none where none has it.
fn listed_page(name: &str) -> Option<u16>
    ensures { IsOnlyNamed (name_in page_rows) name.now result }
{
    match first_named::<PageNames>(name, 0) {
        Some(page) if page < 0x1_0000 => Some(page as u16),
        _ => None,
    }
}

/// The page of vendors that has this name, or none where none has it.
fn vendor_page(name: &str) -> Option<u16>
    ensures { IsOnlyNamed vendor_name name.now result }
{
    let Some(page) = digits_id("Vendor-defined ", name) else {
        return None;
    };
    if page < 0xff00 {
        return None;
    }
    Some(page)
}

/// Writes the name; a width or a fill that the format asks for is ignored.
impl fmt::Display for PageName {
    ghost output = { λ name. Some (page_text name) };

    ghost styled_output = { λ name _. Some (page_text name) };

    fn fmt<W: fmt::Write>(&self, f: &mut fmt::Formatter<W>) -> fmt::Result {
        match self {
            PageName::Listed(name) => f.write_str(name),
            PageName::Vendor(page) => {
                f.write_str("Vendor-defined ")?;
                write_four_digits(f, *page)
            }
        }
    }
}
