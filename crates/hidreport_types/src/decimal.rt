//! How numbers are written.
ghost use Rattle.std.specs.Fmt.{WritesOnOk, WritesStyledOnOk};

use itoa::{Buffer, Integer};
use std::fmt;

/// Writes a number in decimal, whatever width, fill or sign the format asks for.
pub(crate) fn write_decimal<I: Integer, W: fmt::Write>(
    f: &mut fmt::Formatter<W>,
    number: I,
) -> fmt::Result
    ensures plain { WritesOnOk W.write_str_gives f.old result (I.text number) f.new }
    ensures styled { WritesStyledOnOk W.write_str_gives f.old result (I.text number) f.new }
{
    let mut buffer = Buffer::new();
    f.write_str(buffer.format(number))
}
