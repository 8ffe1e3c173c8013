//! The attributes that fields have from the flags of their item (Section 6.2.2.5).
ghost use Rattle.std.specs.Prelude.{◌≡◌, not, option_map};
ghost use Rattle.hidreport_fields.specs.Records.{Attributes, field_flags};

use hidreport_items::ItemFlags;

/// The attributes that a field has from the flags of its item (Section 6.2.2.5).
///
/// Each attribute has two calls, one for each of its states: exactly one of them answers true. A
/// type of your own says seven of them; the other calls come from these.
pub trait FieldAttributes {
    /// What the field has, apart from its place and its usages.
    ghost attributes: { Self → Attributes };

    /// Whether a value is a change since the last report (Relative, flag 2).
    fn is_relative(&self) -> bool
        ensures { result ≡ (attributes self.now).flags.relative };

    /// Whether a value past one logical bound goes on at the other (Wrap, flag 3).
    fn wraps(&self) -> bool
        ensures { result ≡ (attributes self.now).flags.wrap };

    /// Whether values aren't linear in what was measured (Non Linear, flag 4).
    fn is_nonlinear(&self) -> bool
        ensures { result ≡ (attributes self.now).flags.nonlinear };

    /// Whether the control doesn't come back to a state when it is let go (No Preferred, flag 5).
    fn has_no_preferred_state(&self) -> bool
        ensures { result ≡ (attributes self.now).flags.no_preferred_state };

    /// Whether the control has a state in which it sends no meaningful data (Null State, flag 6).
    fn has_null_state(&self) -> bool
        ensures { result ≡ (attributes self.now).flags.null_state };

    /// Whether the field is a stream of bytes (Buffered Bytes, flag 8).
    fn is_buffered_bytes(&self) -> bool
        ensures { result ≡ (attributes self.now).flags.buffered_bytes };

    /// Whether the device may change the value without the host (Volatile, flag 7); `None` in an
    /// input report, whose items have no such flag.
    fn is_volatile(&self) -> Option<bool>
        ensures { result ≡ (attributes self.now).volatile };

    /// The six flags above at once, as those of an item (Section 6.2.2.5).
    ///
    /// The item's other three, `is_constant`, `is_variable` and `is_volatile`, are there where the
    /// type knows them, and else off.
    fn flags(&self) -> ItemFlags
        ensures { field_flags result ≡ field_flags (attributes self.now).flags }
    {
        ItemFlags {
            is_relative: self.is_relative(),
            wraps: self.wraps(),
            is_nonlinear: self.is_nonlinear(),
            has_no_preferred_state: self.has_no_preferred_state(),
            has_null_state: self.has_null_state(),
            is_buffered_bytes: self.is_buffered_bytes(),
            is_constant: false,
            is_variable: false,
            is_volatile: false,
        }
    }

    /// Whether a value is counted from a fixed origin (Absolute): not `is_relative`.
    fn is_absolute(&self) -> bool
        ensures { result ≡ not (attributes self.now).flags.relative }
    {
        !self.is_relative()
    }

    /// Whether a value stays within its logical bounds (No Wrap): not `wraps`.
    fn does_not_wrap(&self) -> bool
        ensures { result ≡ not (attributes self.now).flags.wrap }
    {
        !self.wraps()
    }

    /// Whether values are linear in what was measured (Linear): not `is_nonlinear`.
    fn is_linear(&self) -> bool
        ensures { result ≡ not (attributes self.now).flags.nonlinear }
    {
        !self.is_nonlinear()
    }

    /// Whether the control comes back to a state when it is let go (Preferred State): not
    /// `has_no_preferred_state`.
    fn has_preferred_state(&self) -> bool
        ensures { result ≡ not (attributes self.now).flags.no_preferred_state }
    {
        !self.has_no_preferred_state()
    }

    /// Whether the control always sends meaningful data (No Null position): not `has_null_state`.
    fn has_no_null_state(&self) -> bool
        ensures { result ≡ not (attributes self.now).flags.null_state }
    {
        !self.has_null_state()
    }

    /// Whether the field is a number of bits (Bit Field): not `is_buffered_bytes`.
    fn is_bitfield(&self) -> bool
        ensures { result ≡ not (attributes self.now).flags.buffered_bytes }
    {
        !self.is_buffered_bytes()
    }

    /// Whether only the host changes the value (Non Volatile): not `is_volatile`, and `None` where
    /// that is.
    fn is_nonvolatile(&self) -> Option<bool>
        ensures { result ≡ option_map not (attributes self.now).volatile }
    {
        self.is_volatile().map(|is_volatile| !is_volatile)
    }
}
