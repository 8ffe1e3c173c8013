//! The numbers in the data of items (Section 6.2.2.2).
ghost use Rattle.std.specs.Prelude.{◌≡◌, ℕ, ◌<◌, ◌≤◌, ◌+◌, ◌%◌, ◌/◌, ◌^◌, ◌==◌, length, IsTrue};
ghost use Rattle.hidreport_items.specs.Numbers.{word, signed, is_short_length};
ghost use Rattle.hidreport_items.specs.Flags.{is_flag_set};

/// An item's data has 0, 1, 2 or 4 bytes.
pub fn is_short_length(length: usize) -> bool
    ensures { result ≡ is_short_length length }
{
    length <= 2 || length == 4
}

/// The unsigned word of an item's data, little-endian; 0 for no data.
pub fn word(bytes: &[u8]) -> u32
    requires { IsTrue (is_short_length (length bytes.now)) }
    ensures { result ≡ word bytes.now }
{
    match bytes {
        [] => 0,
        [a] => u32::from(*a),
        [a, b] => u32::from(u16::from_le_bytes([*a, *b])),
        [a, b, c, d] => u32::from_le_bytes([*a, *b, *c, *d]),
        _ => unreachable!(),
    }
}

/// The same number with the sign that the width of the data gives it.
pub fn signed(bytes: &[u8]) -> i32
    requires { IsTrue (is_short_length (length bytes.now)) }
    ensures { result ≡ signed bytes.now }
{
    match bytes {
        [] => 0,
        [a] => i32::from(a.cast_signed()),
        [a, b] => i32::from(i16::from_le_bytes([*a, *b])),
        [a, b, c, d] => i32::from_le_bytes([*a, *b, *c, *d]),
        _ => unreachable!(),
    }
}

/// Whether a flag of a data item is set; flags are counted from the lowest bit.
pub fn is_flag_set(flags: u32, bit: u32) -> bool
    requires { bit < 32 }
    ensures { result ≡ is_flag_set flags bit }
{
    flags >> bit & 1 == 1
}
