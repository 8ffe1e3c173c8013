//! The names of usages.
ghost use Rattle.std.specs.Prelude.{◌≡◌, ◌+◌, ◌*◌, ℕ, option_map, Some, decimal, ◌++◌};
ghost use Rattle.std.specs.Fmt.{WritesOnOk, WritesStyledOnOk};
ghost use Rattle.hidreport.specs.UsageNumber.{usage_number};
ghost use Rattle.hidreport_usages.specs.Digits.{four_digits};
ghost use Rattle.hidreport_usages.specs.Families.{numbered_name};
ghost use Rattle.hidreport_usages.specs.Names.{lower, name_of_number, name_on, name_text, numbered_text};
ghost use Rattle.hidreport_usages.specs.Naming.{IsOnlyNamed};
ghost use Rattle.hidreport_usages.specs.Rows.{name_in, IsFirstNamed};
ghost use Rattle.hidreport_usages.specs.UsageRows.{usage_rows};

use crate::family::{Family, family_of, numbered_id};
use crate::four_digits::write_four_digits;
use crate::names::{first_named, name_of};
use crate::tables::UsageNames;
use hidreport::Usage;
use hidreport_types::{UsageId, UsagePage};
use itoa::Buffer;
use std::fmt;

/// The name of a usage; `Display` writes it.
#[derive(Clone, Copy)]
pub enum UsageName {
    /// A name of the HID Usage Tables, such as `X`.
    Listed(&'static str),

    /// A button by its number, such as `Button 5`.
    Button(u16),

    /// An instance by its number, such as `Instance 2`.
    Instance(u16),

    /// A half of UTF-16, such as `U+0041`.
    CodeUnit(u16),

    /// An enumerated value of a monitor by its number, such as `Enum 3`.
    Enumerated(u16),

    /// A usage of a page of vendors, such as `Vendor Usage 0001`.
    Vendor(u16),
}

/// The name of a usage (Section 5.5); `None` where the HID Usage Tables name no such usage.
///
/// The usages of pages 09, 0A, 10, 81 and FF00 to FFFF are numbered, so all have names, but for 0
/// of pages 0A and 81.
pub fn usage_name(usage: Usage) -> Option<UsageName>
    ensures { option_map name_text result ≡ name_on usage.usage_page usage.usage_id }
{
    let id = u16::from(usage.usage_id);
    match family_of(u16::from(usage.usage_page)) {
        Some(family) => numbered(family, id),
        None => match name_of::<UsageNames>(u32::from(usage)) {
            Some(name) => Some(UsageName::Listed(name)),
            None => None,
        },
    }
}

/// The name of a usage of a family.
fn numbered(family: Family, id: u16) -> Option<UsageName>
    ensures { option_map name_text result ≡ numbered_name family id }
{
    match family {
        Family::Button if id == 0 => Some(UsageName::Listed("No Button Pressed")),
        Family::Button => Some(UsageName::Button(id)),
        Family::Instance if id == 0 => None,
        Family::Instance => Some(UsageName::Instance(id)),
        Family::CodeUnit => Some(UsageName::CodeUnit(id)),
        Family::Enumerated if id == 0 => None,
        Family::Enumerated => Some(UsageName::Enumerated(id)),
        Family::Vendor => Some(UsageName::Vendor(id)),
    }
}

/// The usage of a page that has this name, letter for letter (Section 5.5); `None` where none has
/// it.
///
/// A name stands once on a page. `usage_name` gives the usage that is found this name again.
///
/// # Examples
///
/// ```rust
/// use hidreport::{UsageId, UsagePage};
/// use hidreport_usages::usage_on_page;
///
/// assert_eq!(rt; usage_on_page(UsagePage::from(0x0c), "Mute"), Some(UsageId::from(0xe2)));
/// ```
pub fn usage_on_page(usage_page: UsagePage, name: &str) -> Option<UsageId>
    ensures { IsOnlyNamed (name_on usage_page) name.now result }
{
    let page = u16::from(usage_page);
    let id = match family_of(page) {
        Some(family) => numbered_id(family, name),
        None => listed_id(page, name),
    };
    match id {
        Some(id) => Some(UsageId::from(id)),
        None => None,
    }
}

/// The usage that has this name, letter for letter (Section 5.5); `None` where none has it.
///
/// Several pages can have usages of one name: it is that of the lowest page. Every page of vendors
/// has the same names, so it is page FF00 that is answered for them.
///
/// # Examples
///
/// ```rust
/// use hidreport_usages::usage_by_name;
///
/// assert_eq!(rt; usage_by_name("Mouse").map(u32::from), Some(0x0001_0002));
/// ```
pub fn usage_by_name(name: &str) -> Option<Usage>
    ensures { IsFirstNamed name_of_number name.now 0 (option_map usage_number result) }
{
    match lower(first_named::<UsageNames>(name, 0), first_numbered(name)) {
        Some(number) => Some(Usage::from(number)),
        None => None,
    }
}

/// The lowest number of a usage of a family that has this name, or none where none has it.
fn first_numbered(name: &str) -> Option<u32>
    ensures { IsFirstNamed numbered_text name.now 0 result }
{
    let button = on_page(0x09, numbered_id(Family::Button, name));
    let instance = on_page(0x0a, numbered_id(Family::Instance, name));
    let code_unit = on_page(0x10, numbered_id(Family::CodeUnit, name));
    let enumerated = on_page(0x81, numbered_id(Family::Enumerated, name));
    let vendor = on_page(0xff00, numbered_id(Family::Vendor, name));
    button.or(instance).or(code_unit).or(enumerated).or(vendor)
}

/// The number of a usage of a page, if there is one.
fn on_page(page: u16, id: Option<u16>) -> Option<u32>
    ensures { result ≡ option_map (λ id. page * 65536 + id) id }
{
    match id {
        Some(id) => Some(u32::from(page) * 0x1_0000 + u32::from(id)),
        None => None,
    }
}

/// The lower of two numbers, or the one that there is.
fn lower(number: Option<u32>, other: Option<u32>) -> Option<u32>
    ensures { result ≡ lower number other }
{
    match (number, other) {
        (Some(number), Some(other)) if other < number => Some(other),
        (Some(number), _) => Some(number),
        (None, other) => other,
    }
}

/// The usage of a page that has this name in the table, or none where none has it.
fn listed_id(page: u16, name: &str) -> Option<u16>
    ensures { IsOnlyNamed (λ id. name_in usage_rows (page * 65536 + id)) name.now result }
{
    let first = u32::from(page) * 0x1_0000;
    let Some(number) = first_named::<UsageNames>(name, first) else {
        return None;
    };
    let id = number - first;
    if id < 0x1_0000 { Some(id as u16) } else { None }
}

/// Writes the name; a width or a fill that the format asks for is ignored.
impl fmt::Display for UsageName {
    ghost output = { λ name. Some (name_text name) };

    ghost styled_output = { λ name _. Some (name_text name) };

    fn fmt<W: fmt::Write>(&self, f: &mut fmt::Formatter<W>) -> fmt::Result {
        match self {
            UsageName::Listed(name) => f.write_str(name),
            UsageName::Button(number) => write_counted(f, "Button ", *number),
            UsageName::Instance(number) => write_counted(f, "Instance ", *number),
            UsageName::CodeUnit(number) => write_digits(f, "U+", *number),
            UsageName::Enumerated(number) => write_counted(f, "Enum ", *number),
            UsageName::Vendor(number) => write_digits(f, "Vendor Usage ", *number),
        }
    }
}

/// Writes a number in decimal behind a prefix.
fn write_counted<W: fmt::Write>(f: &mut fmt::Formatter<W>, prefix: &str, number: u16) -> fmt::Result
    ensures plain { WritesOnOk W.write_str_gives f.old result (prefix.now ++ decimal number) f.new }
    ensures styled { WritesStyledOnOk W.write_str_gives f.old result
        (prefix.now ++ decimal number) f.new }
{
    f.write_str(prefix)?;
    let mut buffer = Buffer::new();
    f.write_str(buffer.format(number))
}

/// Writes a number in four hexadecimal digits behind a prefix.
fn write_digits<W: fmt::Write>(f: &mut fmt::Formatter<W>, prefix: &str, number: u16) -> fmt::Result
    ensures plain { WritesOnOk W.write_str_gives f.old result
        (prefix.now ++ four_digits number) f.new }
    ensures styled { WritesStyledOnOk W.write_str_gives f.old result
        (prefix.now ++ four_digits number) f.new }
{
    f.write_str(prefix)?;
    write_four_digits(f, number)
}
