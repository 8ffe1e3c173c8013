//! Numbers in an item's data (Section 6.2.2.2).
ghost use Rattle.std.specs.Prelude.{◌≡◌, IsTrue, length};
ghost use Rattle.hidreport_items.specs.Numbers.{is_short_length, signed, word};

/// The number without a sign.
pub(crate) fn word(bytes: &[u8]) -> u32
    requires { IsTrue (is_short_length (length bytes.now)) }
    ensures { result ≡ word bytes.now }
{
    match bytes {
        [] => 0,
        [a] => u32::from(*a),
        [a, b] => u32::from(u16::from_le_bytes([*a, *b])),
        [a, b, c, d] => u32::from_le_bytes([*a, *b, *c, *d]),
        _ => unreachable!(),
    }
}

/// The same in two's complement.
pub(crate) fn signed(bytes: &[u8]) -> i32
    requires { IsTrue (is_short_length (length bytes.now)) }
    ensures { result ≡ signed bytes.now }
{
    match bytes {
        [] => 0,
        [a] => i32::from(a.cast_signed()),
        [a, b] => i32::from(i16::from_le_bytes([*a, *b])),
        [a, b, c, d] => i32::from_le_bytes([*a, *b, *c, *d]),
        _ => unreachable!(),
    }
}
