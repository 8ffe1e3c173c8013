//! Numbers as the lines show them.
ghost use Rattle.std.specs.Prelude.{◌≡◌, ◌++◌, Some, OnOk, string_bytes};
ghost use Rattle.hidreport_program.specs.Lines.{bytes_text, hex_digits};

use std::alloc::AllocError;
use std::fmt;
use std::fmt::Write;

/// A number of two hexadecimal digits.
#[derive(Clone, Copy)]
pub struct TwoDigits(pub u8);

#[tactic(auto, using(crate::proofs::TextLemmas::padded_with_zeros))]
impl fmt::Display for TwoDigits {
    ghost output = { λ number. Some (hex_digits 2 number.0) };

    fn fmt<W: fmt::Write>(&self, f: &mut fmt::Formatter<W>) -> fmt::Result {
        let number = self.0;
        write!(f, "{number:02x}")
    }
}

/// A number of eight hexadecimal digits.
#[derive(Clone, Copy)]
pub struct EightDigits(pub u32);

#[tactic(auto, using(crate::proofs::TextLemmas::padded_with_zeros))]
impl fmt::Display for EightDigits {
    ghost output = { λ number. Some (hex_digits 8 number.0) };

    fn fmt<W: fmt::Write>(&self, f: &mut fmt::Formatter<W>) -> fmt::Result {
        let number = self.0;
        write!(f, "{number:08x}")
    }
}

/// Appends bytes in two hexadecimal digits each, a space between.
pub fn add_bytes(text: &mut String, bytes: &[u8]) -> Result<(), AllocError>
    ensures { OnOk result (string_bytes text.new ≡ string_bytes text.old ++ bytes_text bytes.now) }
{
    let Some((first, rest)) = bytes.split_first() else {
        return Ok(());
    };
    let digits = TwoDigits(*first);
    write!(text, "{digits}")?;
    for byte in rest {
        let digits = TwoDigits(*byte);
        write!(text, " {digits}")?;
    }
    Ok(())
}
