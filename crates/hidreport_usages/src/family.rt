//! Pages whose usages are numbered without end: their names are rules, not rows.
ghost use Rattle.std.specs.Prelude.{◌≡◌, ◌++◌, List, ℕ, MatchOption, None, decimal, Some};
ghost use Rattle.hidreport_usages.specs.Digits.{four_digits, IsNumberOf};
ghost use Rattle.hidreport_usages.specs.Families.{counted, family_of, numbered_name};
ghost use Rattle.hidreport_usages.specs.Naming.{IsOnlyNamed};

use crate::four_digits::number_of_digits;
use itoa::Buffer;

/// What a page numbers.
#[derive(Clone, Copy, Debug, PartialEq)]
pub(crate) enum Family {
    /// Page 09: `Button 1` and on.
    Button,

    /// Page 0A: `Instance 1` and on.
    Instance,

    /// Page 10: `U+0000` to `U+FFFF`, the halves of UTF-16.
    CodeUnit,

    /// Page 81: `Enum 1` and on.
    Enumerated,

    /// Pages FF00 to FFFF: `Vendor Usage 0000` and on.
    Vendor,
}

/// The family of a page, or none where its usages are rows of the table.
pub(crate) fn family_of(page: u16) -> Option<Family>
    ensures { result ≡ family_of page }
{
    match page {
        0x09 => Some(Family::Button),
        0x0a => Some(Family::Instance),
        0x10 => Some(Family::CodeUnit),
        0x81 => Some(Family::Enumerated),
        0xff00..=0xffff => Some(Family::Vendor),
        _ => None,
    }
}

/// The usage of a family that has this name, or none where none has it.
pub(crate) fn numbered_id(family: Family, name: &str) -> Option<u16>
    ensures { IsOnlyNamed (numbered_name family) name.now result }
{
    match family {
        Family::Button => button_id(name),
        Family::Instance => counted_id("Instance ", name),
        Family::CodeUnit => digits_id("U+", name),
        Family::Enumerated => counted_id("Enum ", name),
        Family::Vendor => digits_id("Vendor Usage ", name),
    }
}

/// The button that has this name; that of 0 says that none is pressed.
fn button_id(name: &str) -> Option<u16>
    ensures { IsOnlyNamed (numbered_name Family.Button) name.now result }
{
    if name == "No Button Pressed" {
        return Some(0);
    }
    counted_id("Button ", name)
}

/// The number from 1 on whose digits stand behind the prefix.
fn counted_id(prefix: &str, name: &str) -> Option<u16>
    ensures { IsOnlyNamed (counted None prefix.now) name.now result }
{
    let number = number_of_decimal(rest_behind(prefix, name)?)?;
    if number == 0 {
        return None;
    }
    Some(number)
}

/// The number whose four digits stand behind the prefix.
pub(crate) fn digits_id(prefix: &str, name: &str) -> Option<u16>
    ensures { IsOnlyNamed (λ id. Some (prefix.now ++ four_digits id)) name.now result }
{
    number_of_digits(rest_behind(prefix, name)?)
}

/// The number that decimal digits write, or none for any other text.
fn number_of_decimal(digits: &str) -> Option<u16>
    ensures { IsNumberOf decimal digits.now result }
{
    let Ok(number) = digits.parse::<u16>() else {
        return None;
    };
    let mut buffer = Buffer::new();
    if buffer.format(number) == digits {
        Some(number)
    } else {
        None
    }
}

/// What follows a prefix, or none where the text doesn't begin with it.
fn rest_behind<'a>(prefix: &str, text: &'a str) -> Option<&'a str>
    ensures { MatchOption result
        ((rest : List ℕ) → prefix.now ++ rest ≡ text.now → ⊥)
        (λ rest. prefix.now ++ rest.now ≡ text.now) }
{
    text.strip_prefix(prefix)
}
