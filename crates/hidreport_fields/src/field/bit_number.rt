//! The number that a few bits of a report write (Section 5.8).
ghost use Rattle.std.specs.Prelude.{◌≡◌, ◌+◌, ◌-◌, ◌*◌, ◌<◌, ◌≤◌, ◌^◌, length, take, drop};
ghost use Rattle.hidreport_items.specs.Numbers.{word};
ghost use Rattle.hidreport_fields.specs.BitValue.{sum_of_bits, value};

/// The number in a few bits, all of them in the bytes, with the sign of its top bit if it has one
/// (Section 5.8); takes no memory.
///
/// `short` is what `short_word` gives of the bytes, once for all the numbers of a report.
#[inline(always)]
pub fn number_at(bytes: &[u8], short: u64, first: usize, width: usize, is_signed: bool) -> i64
    requires short { length bytes.now < 8 → short ≡ word bytes.now }
    requires some { 0 < width }
    requires narrow { width ≤ 32 }
    requires within { first + width ≤ 8 * length bytes.now }
    requires counted { first + width < 2 ^ 64 }
    ensures { result ≡ value bytes.now first width is_signed }
{
    let sum = bits_at(bytes, short, first, width);
    if !is_signed {
        return sum as i64;
    }
    sum as i64 - excess(sum, width) as i64
}

/// What a signed number of so many bits is too great by as an unsigned one: 2 to their number where
/// the top bit is set, else 0. There is no branch, as nothing foretells the top bits of a report.
#[inline(always)]
fn excess(sum: u64, width: usize) -> u64
    requires some { 0 < width }
    requires narrow { width ≤ 32 }
    requires small { sum < 2 ^ width }
    ensures clear { sum < 2 ^ (width - 1) → result ≡ 0 }
    ensures set { 2 ^ (width - 1) ≤ sum → result ≡ 2 ^ width }
    ensures most { result < 2 ^ 33 }
{
    sum >> (width - 1) << width
}

/// A few bits as one number, the first as the lowest: of eight bytes that have them all, or of all
/// bytes as one number, where there are fewer.
#[inline(always)]
pub(crate) fn bits_at(bytes: &[u8], short: u64, first: usize, width: usize) -> u64
    requires short { length bytes.now < 8 → short ≡ word bytes.now }
    requires some { 0 < width }
    requires narrow { width ≤ 32 }
    requires within { first + width ≤ 8 * length bytes.now }
    ensures value { result ≡ sum_of_bits bytes.now first width }
    ensures small { result < 2 ^ width }
{
    let mask = (1 << width) - 1;
    if bytes.len() < 8 {
        return short >> first & mask;
    }
    let place = (first / 8).min(bytes.len() - 8);
    eight_from(bytes, place) >> (first - 8 * place) & mask
}

/// Eight bytes as one number, the first as the lowest.
#[inline(always)]
fn eight_from(bytes: &[u8], place: usize) -> u64
    requires { place + 8 ≤ length bytes.now }
    ensures { result ≡ word (take 8 (drop place bytes.now)) }
{
    match &bytes[place..] {
        [a, b, c, d, e, f, g, h, ..] => u64::from_le_bytes([*a, *b, *c, *d, *e, *f, *g, *h]),
        _ => 0,
    }
}

/// Fewer than eight bytes as one number, the first as the lowest (Section 5.8); of more it says
/// nothing.
pub fn short_word(bytes: &[u8]) -> u64
    ensures { length bytes.now < 8 → result ≡ word bytes.now }
{
    match bytes {
        [a] => u64::from(*a),
        [a, b] => u64::from_le_bytes([*a, *b, 0, 0, 0, 0, 0, 0]),
        [a, b, c] => u64::from_le_bytes([*a, *b, *c, 0, 0, 0, 0, 0]),
        [a, b, c, d] => u64::from_le_bytes([*a, *b, *c, *d, 0, 0, 0, 0]),
        [a, b, c, d, e] => u64::from_le_bytes([*a, *b, *c, *d, *e, 0, 0, 0]),
        [a, b, c, d, e, f] => u64::from_le_bytes([*a, *b, *c, *d, *e, *f, 0, 0]),
        [a, b, c, d, e, f, g] => u64::from_le_bytes([*a, *b, *c, *d, *e, *f, *g, 0]),
        _ => 0,
    }
}
