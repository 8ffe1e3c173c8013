//! The numbers that an array's elements can have, and which of them choose no usage.
ghost use Rattle.std.specs.Prelude.{◌≡◌, ◌≤ℤ◌, ◌<ℤ◌, ◌+ℤ◌, ◌||◌, ℤ, List, length, pos, int_lt, false, IfSome, IsNone};
ghost use Rattle.hidreport_fields.specs.Standing.{IsLeastUnchosen, IsNullNumber, is_null, null_number};
ghost use Rattle.hidreport_fields.specs.declared.field.usage.Usage.{Usage};

use crate::field::written_bits::{fits, least_held};

/// The numbers that an array's elements can have (Section 6.2.2.5): those that so many bits hold.
/// Within the logical bounds each chooses the usage at the index that it is above the least.
///
/// `ArrayField` has calls of its own; this is for callers who keep fields in another form.
///
/// # Examples
///
/// ```rust
/// use hidreport::ElementNumbers;
///
/// // Eight buttons, by the numbers 1 to 8 in four bits.
/// let buttons = ElementNumbers { width: 4, minimum: 1, maximum: 8 };
/// assert_eq!(rt; buttons.choosing(2), Some(3));
/// assert_eq!(rt; buttons.null_value(8), Some(0));
/// ```
#[derive(Clone, Copy, Debug)]
pub struct ElementNumbers {
    /// How many bits an element has.
    pub width: usize,

    /// The logical minimum; elements are signed where it is below 0.
    pub minimum: i32,

    /// The logical maximum.
    pub maximum: i32,
}

impl ElementNumbers {
    /// Whether elements can be below 0: the logical minimum is (Section 6.2.2.7).
    pub fn is_signed(&self) -> bool
        ensures { result ≡ int_lt self.now.minimum (pos 0) }
    {
        self.minimum < 0
    }

    /// The number that chooses the usage at an index, counted from 0 (Section 6.2.2.5); `None`
    /// where it would be above the logical maximum.
    pub fn choosing(&self, index: usize) -> Option<i64>
        ensures some { IfSome result (λ number. (number ≡ self.now.minimum +ℤ pos index)
            × (number ≤ℤ self.now.maximum)) }
        ensures none { IsNone result → self.now.maximum <ℤ (self.now.minimum +ℤ pos index) }
    {
        let minimum = i64::from(self.minimum);
        let maximum = i64::from(self.maximum);
        if maximum < minimum || (maximum - minimum).unsigned_abs() < index as u64 {
            return None;
        }
        Some(minimum + index as i64)
    }

    /// A number that chooses none of so many usages, and that an element's bits hold
    /// (Section 6.2.2.5).
    ///
    /// It is one outside the logical bounds where there is one: 0 if that is, else the number below
    /// the logical minimum, else the one above the logical maximum. Else it is the least number
    /// within them that has no usage at its index. It is `None` where the bits hold no such number,
    /// and where an element has no bits or more than 32.
    pub fn null_value(&self, usages: usize) -> Option<i64>
        ensures { (listed : List Usage) → length listed ≡ usages
            → IsNullNumber listed self.now.width (int_lt self.now.minimum (pos 0)) self.now.minimum
            self.now.maximum result }
    {
        match self.outer_null() {
            Some(number) => Some(number),
            None => self.least_unchosen(usages),
        }
    }

    /// Whether a number lies outside the logical bounds.
    fn is_outside(&self, number: i64) -> bool
        ensures { result ≡ (int_lt number self.now.minimum || int_lt self.now.maximum number) }
    {
        number < i64::from(self.minimum) || i64::from(self.maximum) < number
    }

    /// Whether a number lies outside the logical bounds and an element's bits hold it.
    fn is_null(&self, number: i64) -> bool
        ensures { result ≡ is_null self.now.width (int_lt self.now.minimum (pos 0))
            self.now.minimum self.now.maximum number }
    {
        if self.width == 0 || 32 < self.width {
            return false;
        }
        self.is_outside(number) && fits(self.width, self.is_signed(), number)
    }

    /// The first of 0, the number below the logical minimum and the one above the logical maximum
    /// that lies outside the bounds and that an element's bits hold; none where there is no number
    /// outside that they hold.
    fn outer_null(&self) -> Option<i64>
        ensures first { result ≡ null_number self.now.width (int_lt self.now.minimum (pos 0))
            self.now.minimum self.now.maximum }
        ensures none { IsNone result → (number : ℤ) → is_null self.now.width
            (int_lt self.now.minimum (pos 0)) self.now.minimum self.now.maximum number ≡ false }
    {
        let below = i64::from(self.minimum) - 1;
        let above = i64::from(self.maximum) + 1;
        if self.is_null(0) {
            Some(0)
        } else if self.is_null(below) {
            Some(below)
        } else if self.is_null(above) {
            Some(above)
        } else {
            None
        }
    }

    /// The least number that chooses none of so many usages and that an element's bits hold, where
    /// none outside the bounds does.
    fn least_unchosen(&self, usages: usize) -> Option<i64>
        ensures { ((number : ℤ) → is_null self.now.width (int_lt self.now.minimum (pos 0))
            self.now.minimum self.now.maximum number ≡ false)
            → (listed : List Usage) → length listed ≡ usages
            → IsLeastUnchosen listed self.now.width (int_lt self.now.minimum (pos 0))
            self.now.minimum self.now.maximum result }
    {
        if self.width == 0 || 32 < self.width {
            return None;
        }
        let behind = self.choosing(usages)?;
        let is_signed = self.is_signed();
        let number = behind.max(least_held(self.width, is_signed));
        if i64::from(self.maximum) < number {
            return None;
        }
        if !fits(self.width, is_signed, number) {
            return None;
        }
        Some(number)
    }
}
