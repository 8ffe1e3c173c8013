//! Numbers that aren't whole, exactly.
ghost use Rattle.std.specs.Prelude.{◌≡◌, ◌≤◌, ◌^◌, ◌*ℤ◌, ◌-ℤ◌, ◌+ℤ◌, unsigned_abs};
ghost use Rattle.hidreport_fields.specs.Scaling.{on_line};

/// A number as a fraction, which isn't always in its lowest terms.
#[derive(Clone, Copy, Debug)]
pub struct Fraction {
    /// The number above the line.
    pub numerator: i128,

    /// The number below the line, which is above 0 in all answers of this library.
    pub denominator: i128,
}

impl Fraction {
    /// The number at a value on the line that is `first` at `low` and `last` at `high`
    /// (Section 6.2.2.7); `None` where `low` isn't below `high`.
    ///
    /// The denominator is the distance from `low` to `high`.
    pub fn on_line(value: i64, low: i32, high: i32, first: i32, last: i32) -> Option<Fraction>
        ensures { result ≡ on_line low high first last value }
    {
        if low < high {
            let above = product(distance(low, value), range(first, last));
            let base = product(i128::from(first), range(low, high));
            Some(Fraction {
                numerator: sum(above, base),
                denominator: range(low, high),
            })
        } else {
            None
        }
    }
}

/// How far a value is above a bound.
fn distance(low: i32, value: i64) -> i128
    ensures distance { result ≡ value -ℤ low }
    ensures bound { unsigned_abs result ≤ 2 ^ 64 }
{
    i128::from(value) - i128::from(low)
}

/// How far one bound is above another.
fn range(low: i32, high: i32) -> i128
    ensures range { result ≡ high -ℤ low }
    ensures bound { unsigned_abs result ≤ 2 ^ 32 }
{
    i128::from(high) - i128::from(low)
}

/// The product of a distance and a range.
fn product(distance: i128, range: i128) -> i128
    requires distance { unsigned_abs distance ≤ 2 ^ 64 }
    requires range { unsigned_abs range ≤ 2 ^ 32 }
    ensures product { result ≡ distance *ℤ range }
    ensures bound { unsigned_abs result ≤ 2 ^ 96 }
{
    distance * range
}

/// The sum of two products.
fn sum(a: i128, b: i128) -> i128
    requires a { unsigned_abs a ≤ 2 ^ 96 }
    requires b { unsigned_abs b ≤ 2 ^ 96 }
    ensures { result ≡ a +ℤ b }
{
    a + b
}
