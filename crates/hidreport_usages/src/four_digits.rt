//! Numbers of 16 bits as four hexadecimal digits.
ghost use Rattle.std.specs.Prelude.{◌≡◌, ◌<◌, [], ◌∷◌};
ghost use Rattle.std.specs.Fmt.{WritesOnOk, WritesStyledOnOk};
ghost use Rattle.hidreport_usages.specs.Digits.{digit, four_digits, IsNumberOf, IsDigitOf};

use std::fmt;

/// Writes a number as four digits, such as `00FF`.
pub(crate) fn write_four_digits<W: fmt::Write>(
    f: &mut fmt::Formatter<W>,
    number: u16,
) -> fmt::Result
    ensures plain { WritesOnOk W.write_str_gives f.old result (four_digits number) f.new }
    ensures styled { WritesStyledOnOk W.write_str_gives f.old result (four_digits number) f.new }
{
    f.write_str(digit_text(number / 0x1000))?;
    f.write_str(digit_text(number / 0x100 % 0x10))?;
    f.write_str(digit_text(number / 0x10 % 0x10))?;
    f.write_str(digit_text(number % 0x10))
}

/// The number that four digits write, or none for any other text; letters are large.
pub(crate) fn number_of_digits(digits: &str) -> Option<u16>
    ensures { IsNumberOf four_digits digits.now result }
{
    let [first, second, third, fourth] = *digits.as_bytes() else {
        return None;
    };
    let first = digit_number(first)?;
    let second = digit_number(second)?;
    let third = digit_number(third)?;
    let fourth = digit_number(fourth)?;
    Some(first * 0x1000 + second * 0x100 + third * 0x10 + fourth)
}

/// The digit for a number below 16.
fn digit_text(number: u16) -> &'static str
    requires { number < 16 }
    ensures { result.now ≡ digit number ∷ [] }
{
    match number {
        0 => "0",
        1 => "1",
        2 => "2",
        3 => "3",
        4 => "4",
        5 => "5",
        6 => "6",
        7 => "7",
        8 => "8",
        9 => "9",
        10 => "A",
        11 => "B",
        12 => "C",
        13 => "D",
        14 => "E",
        _ => "F",
    }
}

/// The number that a digit stands for, or none for another letter.
fn digit_number(letter: u8) -> Option<u16>
    ensures { IsDigitOf letter result }
{
    match letter {
        b'0'..=b'9' => Some(u16::from(letter - b'0')),
        b'A'..=b'F' => Some(u16::from(letter - b'A') + 10),
        _ => None,
    }
}
