//! What a value stands for.
ghost use Rattle.std.specs.Prelude.{◌≡◌, ◌≤◌, ◌^◌, ◌*ℤ◌, ◌-ℤ◌, ◌+ℤ◌, ◌&&◌, Some, pos, unsigned_abs};
ghost use Rattle.std.specs.Ordering.{int_eq};
ghost use Rattle.hidreport.specs.Scaling.{normalized, on_line, physical_value};
ghost use Rattle.hidreport_c.specs.Field.{OfVariable};
ghost use Rattle.hidreport_c.specs.Scaling.{fraction_as_c, no_fraction, normalized_of, physical_of};

use crate::structs::{HidreportField, HidreportFraction};
use hidreport::Fraction;

/// What a value of a field stands for, in its unit times ten to its exponent (Section 6.2.2.7): the
/// logical bounds stand for the physical ones, and a value lies on the line through both, beyond
/// them too. Physical bounds that are both 0 or unset are the logical ones. It takes no memory.
///
/// None where the logical minimum isn't below the maximum, and where 64 bits don't hold the
/// numerator, which they do for each value within the logical bounds. Of a variable field that the
/// library described it is what `VariableField::physical_value` answers (`variable`).
#[unsafe(no_mangle)]
pub extern "C" fn hidreport_physical(field: &HidreportField, value: i64) -> HidreportFraction
    ensures physical { result ≡ fraction_as_c (physical_of field.now.measures value) }
    ensures variable { OfVariable field.now (λ shared.
        physical_of field.now.measures value ≡ physical_value shared value) }
{
    let measures = &field.measures;
    let low = measures.logical_minimum;
    let high = measures.logical_maximum;
    if are_unset(measures.physical_minimum, measures.physical_maximum) {
        HidreportFraction::on_line(value, low, high, low, high)
    } else {
        let first = measures.physical_minimum;
        HidreportFraction::on_line(value, low, high, first, measures.physical_maximum)
    }
}

/// A value of a field between -1, its logical minimum, and 1, its logical maximum; beyond them it
/// goes on as it does between them. It takes no memory.
///
/// There is none as `hidreport_physical` says. Of a variable field that the library described it is
/// what `VariableField::normalized` answers (`variable`).
#[unsafe(no_mangle)]
pub extern "C" fn hidreport_normalized(field: &HidreportField, value: i64) -> HidreportFraction
    ensures normalized { result ≡ fraction_as_c (normalized_of field.now.measures value) }
    ensures variable { OfVariable field.now (λ shared.
        normalized_of field.now.measures value ≡ normalized shared value) }
{
    let low = field.measures.logical_minimum;
    let high = field.measures.logical_maximum;
    HidreportFraction::on_line(value, low, high, -1, 1)
}

/// Whether physical bounds say nothing: both are 0.
fn are_unset(first: i32, last: i32) -> bool
    ensures { result ≡ (int_eq first (pos 0) && int_eq last (pos 0)) }
{
    first == 0 && last == 0
}

impl HidreportFraction {
    /// That there is none.
    fn none() -> HidreportFraction
        ensures { result ≡ no_fraction }
    {
        HidreportFraction {
            numerator: 0,
            denominator: 0,
            is_there: false,
        }
    }

    /// The number at a value on the line that is `first` at `low` and `last` at `high`; none where
    /// `low` isn't below `high`, and where 64 bits don't hold its numerator.
    fn on_line(value: i64, low: i32, high: i32, first: i32, last: i32) -> HidreportFraction
        ensures { result ≡ fraction_as_c (on_line low high first last value) }
    {
        let Some(fraction) = Fraction::on_line(value, low, high, first, last) else {
            return HidreportFraction::none();
        };
        HidreportFraction::of(fraction.numerator, denominator(low, high))
    }

    /// A fraction with this numerator, where 64 bits hold it.
    fn of(numerator: i128, denominator: i64) -> HidreportFraction
        ensures { result ≡ fraction_as_c (Some (record {
          numerator = numerator;
          denominator = denominator;
        })) }
    {
        match i64::try_from(numerator) {
            Ok(numerator) => HidreportFraction {
                numerator,
                denominator,
                is_there: true,
            },
            Err(_) => HidreportFraction::none(),
        }
    }
}

/// The number below the line of a fraction between these bounds.
fn denominator(low: i32, high: i32) -> i64
    ensures { result ≡ high -ℤ low }
{
    i64::from(high) - i64::from(low)
}
