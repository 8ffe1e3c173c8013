//! Items as bytes, in place.
ghost use Rattle.std.specs.Prelude.{◌≡◌, ◌≤◌, ◌<◌, ◌^◌, length, pos};
ghost use Rattle.hidreport_items.specs.Writing.{count_data, flag_bit, flags_data, four_bytes, signed_data, size_code, unsigned_data, with_header};

use crate::flags::ItemFlags;
use crate::item_bytes::ItemBytes;

/// A header without its size code, and the data that gives it one.
pub(crate) fn with_header(prefix: u8, data_bytes: &[u8]) -> ItemBytes
    requires room { prefix ≤ 252 }
    requires short { length data_bytes.now ≤ 4 }
    requires known { length data_bytes.now ≡ 3 → ⊥ }
    ensures { result ≡ with_header prefix data_bytes.now }
{
    ItemBytes::new(prefix + size_code(data_bytes.len()), data_bytes)
}

/// The size code of so many data bytes: 3 stands for four of them.
fn size_code(length: usize) -> u8
    requires short { length ≤ 4 }
    ensures value { result ≡ size_code length }
    ensures small { result ≤ 3 }
{
    if length == 4 { 3 } else { length as u8 }
}

/// An item with an unsigned number in the shortest data that holds it.
pub(crate) fn unsigned(prefix: u8, number: u32) -> ItemBytes
    requires { prefix ≤ 252 }
    ensures { result ≡ with_header prefix (unsigned_data number) }
{
    match number {
        0..=0xff => with_header(prefix, &[number as u8]),
        0x100..=0xffff => with_header(prefix, &(number as u16).to_le_bytes()),
        _ => with_header(prefix, &number.to_le_bytes()),
    }
}

/// An item with a signed number in the shortest data that holds it.
pub(crate) fn signed_item(prefix: u8, number: i32) -> ItemBytes
    requires { prefix ≤ 252 }
    ensures { result ≡ with_header prefix (signed_data number) }
{
    match number {
        -0x80..=0x7f => with_header(prefix, &[(number as i8).cast_unsigned()]),
        -0x8000..=0x7fff => {
            let number = (number as i16).cast_unsigned();
            with_header(prefix, &number.to_le_bytes())
        }
        _ => with_header(prefix, &number.cast_unsigned().to_le_bytes()),
    }
}

/// An item with a size or a count; past 32 bits it is the low 32 bits.
pub(crate) fn count(prefix: u8, number: usize) -> ItemBytes
    requires { prefix ≤ 252 }
    ensures { result ≡ with_header prefix (count_data number) }
{
    if number <= 0xffff_ffff {
        unsigned(prefix, number as u32)
    } else {
        four_bytes(prefix, (number & 0xffff_ffff) as u32)
    }
}

/// An item with a number in four bytes, however small it is.
pub(crate) fn four_bytes(prefix: u8, number: u32) -> ItemBytes
    requires { prefix ≤ 252 }
    ensures { result ≡ with_header prefix (four_bytes number) }
{
    with_header(prefix, &number.to_le_bytes())
}

/// A data item with its flags, in two bytes where it is of buffered bytes, else in one.
pub(crate) fn flags(prefix: u8, flags: ItemFlags) -> ItemBytes
    requires { prefix ≤ 252 }
    ensures { result ≡ with_header prefix (flags_data flags) }
{
    let low = flag(flags.is_constant, 0)
        + flag(flags.is_variable, 1)
        + flag(flags.is_relative, 2)
        + flag(flags.wraps, 3)
        + flag(flags.is_nonlinear, 4)
        + flag(flags.has_no_preferred_state, 5)
        + flag(flags.has_null_state, 6)
        + flag(flags.is_volatile, 7);
    if flags.is_buffered_bytes {
        with_header(prefix, &[low, 1])
    } else {
        with_header(prefix, &[low])
    }
}

/// A flag as its bit of the first byte.
fn flag(flag: bool, bit: u32) -> u8
    requires { bit < 8 }
    ensures value { result ≡ flag_bit flag bit }
    ensures small { result ≤ 2 ^ bit }
{
    if flag { 1 << bit } else { 0 }
}
