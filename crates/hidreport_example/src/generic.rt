//! Calls that are written once for Input, Output and Feature items.
ghost use Rattle.std.specs.Prelude.{◌≡◌, ◌&&◌, ◌||◌, not, IsTrue};

use hidreport::hid::MainDataItem;

/// The item's fields are plain buttons: each is on while it is held, and no flag but `variable` is
/// on, `volatile` aside.
pub fn is_plain_button<M: MainDataItem>(item: &M) -> bool
    ensures { let flags = M.item_flags item.now in
        result ≡ (flags.variable && not (flags.constant || flags.relative || flags.wrap
        || flags.nonlinear || flags.no_preferred_state || flags.null_state
        || flags.buffered_bytes)) }
{
    item.is_variable()
        && item.is_data()
        && item.is_absolute()
        && item.does_not_wrap()
        && item.is_linear()
        && item.has_preferred_state()
        && item.has_no_null_state()
        && item.is_bitfield()
}

/// The two calls of each flag never agree, whatever the item.
pub fn each_flag_has_one_state<M: MainDataItem>(item: &M) -> bool
    ensures { IsTrue result }
{
    item.is_data() != item.is_constant()
        && item.is_array() != item.is_variable()
        && item.is_absolute() != item.is_relative()
        && item.does_not_wrap() != item.wraps()
        && item.is_linear() != item.is_nonlinear()
        && item.has_preferred_state() != item.has_no_preferred_state()
        && item.has_no_null_state() != item.has_null_state()
        && item.is_bitfield() != item.is_buffered_bytes()
}
