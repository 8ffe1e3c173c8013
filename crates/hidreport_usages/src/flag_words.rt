//! The flags of data items as words.
ghost use Rattle.std.specs.Prelude.{◌≡◌, false, if◌then◌else◌, Some};
ghost use Rattle.std.specs.Fmt.{WritesOnOk, WritesStyledOnOk};
ghost use Rattle.hidreport_items.specs.Flags.{Flags};
ghost use Rattle.hidreport_usages.specs.FlagWords.{flag_text};

use hidreport_items::{FeatureItem, InputItem, ItemFlags, OutputItem};
use std::fmt;
use std::marker::Model;

/// The flags of an Input, Output or Feature item (Section 6.2.2.5) as words, such as
/// `Data,Var,Abs,NoNull`; `Display` writes them.
///
/// Four words are always there: `Data` or `Const`, `Arr` or `Var`, `Abs` or `Rel`, and `NoNull` or
/// `Null`. `Wrap`, `NonLin`, `NoPref`, `Vol` and `Buf` are there where their flag is set. They
/// stand in the order of the bits.
#[derive(Clone, Copy)]
pub struct FlagWords {
    flags: ItemFlags,
}

impl Model for FlagWords {
    ghost use Rattle.hidreport_items.specs.Flags.{Flags};

    ghost Value = { Flags };

    ghost view = { λ words. words.flags };

    ghost inverse = { λ flags. record { flags = flags } };
}

/// An Input has no flag 7, so `Vol` is never there.
impl From<&InputItem> for FlagWords {
    ghost from_gives = { λ item words. words ≡ record (item.now) { volatile = false } };

    fn from(item: &InputItem) -> FlagWords {
        FlagWords {
            flags: ItemFlags {
                is_volatile: false,
                ..item.flags()
            },
        }
    }
}

impl From<&OutputItem> for FlagWords {
    ghost from_gives = { λ item words. words ≡ item.now };

    fn from(item: &OutputItem) -> FlagWords {
        FlagWords {
            flags: item.flags(),
        }
    }
}

impl From<&FeatureItem> for FlagWords {
    ghost from_gives = { λ item words. words ≡ item.now };

    fn from(item: &FeatureItem) -> FlagWords {
        FlagWords {
            flags: item.flags(),
        }
    }
}

/// Writes the words with a comma between two; a width or a fill that the format asks for is
/// ignored.
impl fmt::Display for FlagWords {
    ghost output = { λ words. Some (flag_text words) };

    ghost styled_output = { λ words _. Some (flag_text words) };

    fn fmt<W: fmt::Write>(&self, f: &mut fmt::Formatter<W>) -> fmt::Result {
        write_words(f, &self.flags)
    }
}

/// Writes the words for these flags.
fn write_words<W: fmt::Write>(f: &mut fmt::Formatter<W>, flags: &ItemFlags) -> fmt::Result
    ensures plain { WritesOnOk W.write_str_gives f.old result (flag_text flags.now) f.new }
    ensures styled { WritesStyledOnOk W.write_str_gives f.old result (flag_text flags.now) f.new }
{
    write_word(f, flags.is_constant, "Const", "Data")?;
    write_word(f, flags.is_variable, ",Var", ",Arr")?;
    write_word(f, flags.is_relative, ",Rel", ",Abs")?;
    write_word(f, flags.wraps, ",Wrap", "")?;
    write_word(f, flags.is_nonlinear, ",NonLin", "")?;
    write_word(f, flags.has_no_preferred_state, ",NoPref", "")?;
    write_word(f, flags.has_null_state, ",Null", ",NoNull")?;
    write_word(f, flags.is_volatile, ",Vol", "")?;
    write_word(f, flags.is_buffered_bytes, ",Buf", "")
}

/// Writes the word for a flag.
fn write_word<W: fmt::Write>(
    f: &mut fmt::Formatter<W>,
    is_set: bool,
    set: &str,
    clear: &str,
) -> fmt::Result
    ensures plain { WritesOnOk W.write_str_gives f.old result
        (if is_set then set.now else clear.now) f.new }
    ensures styled { WritesStyledOnOk W.write_str_gives f.old result
        (if is_set then set.now else clear.now) f.new }
{
    if is_set {
        f.write_str(set)
    } else {
        f.write_str(clear)
    }
}
