//! Fields of input reports.
ghost use Rattle.std.specs.Prelude.{◌≡◌};
ghost use Rattle.hidreport_events.specs.Fields.{direction_between, direction_by, eighth};
ghost use Rattle.hidreport_linux.specs.Asking.{low_half};

/// A field of an input report, as hid-core reads it: its numbers, and which sources are its own.
#[derive(Clone, Copy)]
pub(crate) struct EventField {
    /// Where its first element begins, in bits behind the id.
    pub(crate) first_bit: u32,

    /// How many bits an element has.
    pub(crate) size: u32,

    /// How many elements it has.
    pub(crate) count: u32,

    pub(crate) is_variable: bool,
    pub(crate) is_relative: bool,
    pub(crate) has_null_state: bool,
    pub(crate) is_buffered: bool,
    pub(crate) minimum: i32,
    pub(crate) maximum: i32,

    /// Its first source, among those of all fields.
    pub(crate) first_source: usize,

    /// How many sources it has: one for each element, or for each choice.
    pub(crate) sources: usize,

    /// Its first value, among those of all fields.
    pub(crate) first_value: usize,
}

impl EventField {
    ghost use Rattle.std.specs.Prelude.{◌≡◌};
    ghost use Rattle.hidreport_events.specs.Fields.{choice_of, hat_direction, is_outside, kept_value, stays};

    /// A value as it is kept: within the bounds, or none where it says nothing.
    #[tactic(auto, unfolding(crate::specs::Fields::kept_value))]
    pub(crate) fn kept_value(&self, value: i32) -> Option<i32>
        ensures { result ≡ kept_value self.now value }
    {
        if !self.is_variable || self.minimum >= self.maximum {
            return Some(value);
        }
        if !self.is_outside(value) {
            return Some(value);
        }
        if self.has_null_state {
            return None;
        }
        Some(if value < self.minimum {
            self.minimum
        } else {
            self.maximum
        })
    }

    /// Whether a value lies outside of the bounds.
    #[tactic(auto, unfolding(crate::specs::Fields::is_outside))]
    fn is_outside(&self, value: i32) -> bool
        ensures { result ≡ is_outside self.now value }
    {
        value < self.minimum || value > self.maximum
    }

    /// Whether a value says nothing new behind another.
    #[tactic(auto, unfolding(crate::specs::Fields::stays))]
    pub(crate) fn stays(&self, before: i32, value: i32) -> bool
        ensures { result ≡ stays self.now before value }
    {
        self.is_variable && !self.is_relative && !self.is_buffered && value == before
    }

    /// Which of the field's choices a value of an array is, if it is one.
    #[tactic(auto, unfolding(crate::specs::Fields::choice_of))]
    pub(crate) fn choice_of(&self, value: i32) -> Option<usize>
        ensures { result ≡ choice_of self.now value }
    {
        if self.is_outside(value) {
            return None;
        }
        let index = value.wrapping_sub(self.minimum).cast_unsigned() as usize;
        if index < self.sources {
            Some(index)
        } else {
            None
        }
    }

    /// Which of eight directions a value of a hat means, from 1 on; 0 for none.
    #[tactic(auto, unfolding(crate::specs::Fields::hat_direction))]
    pub(crate) fn hat_direction(&self, value: i32) -> i32
        ensures { result ≡ hat_direction self.now value }
    {
        let minimum = i32::from(low_half(self.minimum));
        let maximum = i32::from(low_half(self.maximum));
        direction_between(minimum, maximum, value)
    }
}

/// The same between bounds.
#[tactic(auto, unfolding(crate::specs::Fields::direction_between))]
fn direction_between(minimum: i32, maximum: i32, value: i32) -> i32
    ensures { result ≡ direction_between minimum maximum value }
{
    let span = maximum.wrapping_sub(minimum).wrapping_add(1);
    direction_by(eighth(value.wrapping_sub(minimum), span))
}

/// In which eighth of a span a value lies that is so far above the least one, from 1 on.
#[tactic(auto, unfolding(crate::specs::Fields::eighth))]
fn eighth(above: i32, span: i32) -> i32
    ensures { result ≡ eighth above span }
{
    if span <= 0 {
        return 0;
    }
    (above.wrapping_mul(8) / span).wrapping_add(1)
}

/// One of the eight, or none.
#[tactic(auto, unfolding(crate::specs::Fields::direction_by))]
fn direction_by(direction: i32) -> i32
    ensures { result ≡ direction_by direction }
{
    if direction < 0 || direction > 8 {
        0
    } else {
        direction
    }
}

/// The low 16 bits of a number, with a sign.
pub(crate) fn low_half(number: i32) -> i16
    ensures { result ≡ low_half number }
{
    ((number.cast_unsigned() % 0x1_0000) as u16).cast_signed()
}
