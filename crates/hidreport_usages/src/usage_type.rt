//! Whether a usage holds a value, by its type in the HID Usage Tables.
ghost use Rattle.std.specs.Prelude.{◌≡◌};
ghost use Rattle.hidreport.specs.UsageNumber.{usage_number};
ghost use Rattle.hidreport_usages.specs.UsageTypes.{held_by};

use crate::type_table::TYPED_USAGES;
use hidreport::Usage;

/// Usages of a page whose types the HID Usage Tables give, from the first to the last.
#[derive(Clone, Copy)]
pub(crate) struct TypedUsages {
    /// The number of the first, with the page in the upper half.
    pub(crate) first: u32,

    /// The number of the last.
    pub(crate) last: u32,

    /// Whether they hold values.
    pub(crate) holds_value: bool,
}

/// Whether a usage holds a value, by the types that the HID Usage Tables give it; `None` where no
/// type is known, as on pages other than Generic Desktop, Button, Consumer, Digitizers and Sensors.
///
/// A linear control and a static or dynamic value hold one; switches, flags, selectors, arrays and
/// collections don't. A usage with several types holds a value where one of them does. A unit and
/// physical bounds say something only of what holds a value (Section 6.2.2.7).
pub fn holds_value(usage: Usage) -> Option<bool>
    ensures { result ≡ held_by TYPED_USAGES (usage_number usage) }
{
    held_by(&TYPED_USAGES, u32::from(usage))
}

/// Whether a number's usage holds a value by these rows.
fn held_by(rows: &[TypedUsages], number: u32) -> Option<bool>
    ensures { result ≡ held_by rows.now number }
{
    for row in rows {
        if row.first <= number && number <= row.last {
            return Some(row.holds_value);
        }
    }
    None
}
