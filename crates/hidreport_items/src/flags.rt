//! The flags of data items (Section 6.2.2.5).
ghost use Rattle.std.specs.Prelude.{◌≡◌, not};
ghost use Rattle.hidreport_items.specs.Flags.{Flags, flags_of, shared_flags};
ghost use Rattle.hidreport_items.specs.ItemFaults.{told_answer};
ghost use Rattle.hidreport_items.specs.Spelling.{output_item};

use crate::item_fault::ItemFault;
use crate::number::{is_flag_set, is_short_length, word};
use std::marker::Model;

/// The flags of Input, Output and Feature items (Section 6.2.2.5).
///
/// Each flag has two calls, one for each of its states: exactly one of them answers true. A type of
/// your own says the eight flags that all three items have; the other calls come from these.
pub trait MainDataItem {
    /// The flags of the item.
    ghost item_flags: { Self → Flags };

    /// Whether the fields are padding (Constant, flag 0): nothing is read from them or written to
    /// them.
    fn is_constant(&self) -> bool
        ensures { result ≡ (item_flags self.now).constant };

    /// Whether each element is a field with a usage of its own (Variable, flag 1).
    fn is_variable(&self) -> bool
        ensures { result ≡ (item_flags self.now).variable };

    /// Whether a value is a change since the last report (Relative, flag 2).
    fn is_relative(&self) -> bool
        ensures { result ≡ (item_flags self.now).relative };

    /// Whether a value past one logical bound goes on at the other (Wrap, flag 3).
    fn wraps(&self) -> bool
        ensures { result ≡ (item_flags self.now).wrap };

    /// Whether values aren't linear in what was measured (Non Linear, flag 4).
    fn is_nonlinear(&self) -> bool
        ensures { result ≡ (item_flags self.now).nonlinear };

    /// Whether the control doesn't come back to a state when it is let go (No Preferred, flag 5).
    fn has_no_preferred_state(&self) -> bool
        ensures { result ≡ (item_flags self.now).no_preferred_state };

    /// Whether the control has a state in which it sends no meaningful data (Null State, flag 6).
    fn has_null_state(&self) -> bool
        ensures { result ≡ (item_flags self.now).null_state };

    /// Whether the field is a stream of bytes (Buffered Bytes, flag 8).
    fn is_buffered_bytes(&self) -> bool
        ensures { result ≡ (item_flags self.now).buffered_bytes };

    /// The eight flags at once; `is_volatile` (flag 7), which an Input hasn't, is said by the item
    /// itself: a type of which it isn't known leaves it off.
    fn flags(&self) -> ItemFlags
        ensures { shared_flags result ≡ shared_flags (item_flags self.now) }
    {
        ItemFlags {
            is_constant: self.is_constant(),
            is_variable: self.is_variable(),
            is_relative: self.is_relative(),
            wraps: self.wraps(),
            is_nonlinear: self.is_nonlinear(),
            has_no_preferred_state: self.has_no_preferred_state(),
            has_null_state: self.has_null_state(),
            is_volatile: false,
            is_buffered_bytes: self.is_buffered_bytes(),
        }
    }

    /// Whether the fields carry data (Data): not `is_constant`.
    fn is_data(&self) -> bool
        ensures { result ≡ not (item_flags self.now).constant }
    {
        !self.is_constant()
    }

    /// Whether the elements are indexes into the usages (Array): not `is_variable`.
    fn is_array(&self) -> bool
        ensures { result ≡ not (item_flags self.now).variable }
    {
        !self.is_variable()
    }

    /// Whether a value is counted from a fixed origin (Absolute): not `is_relative`.
    fn is_absolute(&self) -> bool
        ensures { result ≡ not (item_flags self.now).relative }
    {
        !self.is_relative()
    }

    /// Whether a value stays within its logical bounds (No Wrap): not `wraps`.
    fn does_not_wrap(&self) -> bool
        ensures { result ≡ not (item_flags self.now).wrap }
    {
        !self.wraps()
    }

    /// Whether values are linear in what was measured (Linear): not `is_nonlinear`.
    fn is_linear(&self) -> bool
        ensures { result ≡ not (item_flags self.now).nonlinear }
    {
        !self.is_nonlinear()
    }

    /// Whether the control comes back to a state when it is let go (Preferred State): not
    /// `has_no_preferred_state`.
    fn has_preferred_state(&self) -> bool
        ensures { result ≡ not (item_flags self.now).no_preferred_state }
    {
        !self.has_no_preferred_state()
    }

    /// Whether the control always sends meaningful data (No Null position): not `has_null_state`.
    fn has_no_null_state(&self) -> bool
        ensures { result ≡ not (item_flags self.now).null_state }
    {
        !self.has_null_state()
    }

    /// Whether the field is a number of bits (Bit Field): not `is_buffered_bytes`.
    fn is_bitfield(&self) -> bool
        ensures { result ≡ not (item_flags self.now).buffered_bytes }
    {
        !self.is_buffered_bytes()
    }
}

/// All nine flags of a data item (Section 6.2.2.5).
///
/// `default` has none of them set.
#[derive(Clone, Copy, Debug, Default, PartialEq)]
pub struct ItemFlags {
    /// The fields are padding (Constant, flag 0).
    pub is_constant: bool,

    /// Each element is a field with a usage of its own (Variable, flag 1).
    pub is_variable: bool,

    /// A value is a change since the last report (Relative, flag 2).
    pub is_relative: bool,

    /// A value past one logical bound goes on at the other (Wrap, flag 3).
    pub wraps: bool,

    /// Values aren't linear in what was measured (Non Linear, flag 4).
    pub is_nonlinear: bool,

    /// The control doesn't come back to a state when it is let go (No Preferred, flag 5).
    pub has_no_preferred_state: bool,

    /// The control has a state in which it sends no meaningful data (Null State, flag 6).
    pub has_null_state: bool,

    /// The value may change without the host (Volatile, flag 7); an Input has no such flag.
    pub is_volatile: bool,

    /// The field is a stream of bytes (Buffered Bytes, flag 8).
    pub is_buffered_bytes: bool,
}

impl Model for ItemFlags {
    ghost use Rattle.hidreport_items.specs.Flags.{Flags};

    ghost Value = { Flags };

    ghost view = { λ f. record {
      constant = f.is_constant;
      variable = f.is_variable;
      relative = f.is_relative;
      wrap = f.wraps;
      nonlinear = f.is_nonlinear;
      no_preferred_state = f.has_no_preferred_state;
      null_state = f.has_null_state;
      volatile = f.is_volatile;
      buffered_bytes = f.is_buffered_bytes;
    } };

    ghost inverse = { λ f. record {
      is_constant = f.constant;
      is_variable = f.variable;
      is_relative = f.relative;
      wraps = f.wrap;
      is_nonlinear = f.nonlinear;
      has_no_preferred_state = f.no_preferred_state;
      has_null_state = f.null_state;
      is_volatile = f.volatile;
      is_buffered_bytes = f.buffered_bytes;
    } };
}

impl ItemFlags {
    /// The flags that these data bytes spell, all nine.
    #[inline(always)]
    pub(crate) fn from_data(bytes: &[u8]) -> Result<ItemFlags, ItemFault>
        ensures { told_answer result ≡ output_item bytes.now }
    {
        if bytes.is_empty() {
            return Err(ItemFault::TooFew);
        }
        if !is_short_length(bytes.len()) {
            return Err(ItemFault::Length(bytes.len()));
        }
        Ok(ItemFlags::from_word(word(bytes)))
    }

    /// The flags that this number spells.
    #[inline(always)]
    fn from_word(number: u32) -> ItemFlags
        ensures { result ≡ flags_of number }
    {
        ItemFlags {
            is_constant: is_flag_set(number, 0),
            is_variable: is_flag_set(number, 1),
            is_relative: is_flag_set(number, 2),
            wraps: is_flag_set(number, 3),
            is_nonlinear: is_flag_set(number, 4),
            has_no_preferred_state: is_flag_set(number, 5),
            has_null_state: is_flag_set(number, 6),
            is_volatile: is_flag_set(number, 7),
            is_buffered_bytes: is_flag_set(number, 8),
        }
    }
}
