//! Values side by side in a report, read by one loop (Section 5.8).
ghost use Rattle.std.specs.Prelude.{◌≡◌, ◌≢◌, ◌+◌, ◌-◌, ◌*◌, ◌%◌, ◌<◌, ◌≤◌, ◌^◌, [], ◌∷◌, true, false, Err, length, slice_set, IfErr, IfSome, IsNone, OnOk};
ghost use Rattle.std.specs.List.{list_all};
ghost use Rattle.hidreport_items.specs.Numbers.{word};
ghost use Rattle.hidreport_lists.specs.Answer.{IsOfReading, Refuses};
ghost use Rattle.hidreport.specs.Reader.{begins_otherwise, each_alone, numbers_before};
ghost use Rattle.hidreport.specs.Runs.{HasNarrowValues, HasAllValues, IsPlain, Joins, is_inside, numbers_from, run_in_id, run_of, run_reads, run_value, set_from};
ghost use Rattle.hidreport_fields.specs.Views.{field_record};
ghost use Rattle.hidreport_fields.specs.WritingValues.{fits, put};

use hidreport_fields::{
    Field, all_fit, begins_in_id, check_id, number_at, put_values, read_bits, width_of_elements,
};
use hidreport_lists::ParserError;
use hidreport_types::ReportId;
use std::marker::Model;

/// So many values of one width from a bit on, and the id that they are read by.
#[derive(Debug, Drop)]
pub(crate) struct Run {
    pub(crate) report_id: Option<ReportId>,
    pub(crate) first: usize,
    pub(crate) width: usize,
    pub(crate) count: usize,
    pub(crate) is_signed: bool,
}

impl Model for Run {
    ghost use Rattle.std.specs.Prelude.{◌+◌, ◌*◌, ◌<◌, ◌^◌};
    ghost use Rattle.hidreport.specs.Runs.{RunRecord};

    ghost Value = { RunRecord };

    ghost view = { λ r. record {
      id = r.report_id;
      first = r.first;
      width = r.width;
      count = r.count;
      is_signed = r.is_signed;
    } };

    ghost invariant = { λ r. r.first + r.width * r.count < 2 ^ 64 };
}

impl Run {
    /// The values of a field; `None` for padding, which has none.
    pub(crate) fn of(field: &Field) -> Option<Run>
        ensures some { IfSome result (λ run. run_of (field_record field.now) ≡ run ∷ []) }
        ensures none { IsNone result → run_of (field_record field.now) ≡ [] }
    {
        let report_id = field.report_id();
        match field {
            Field::Variable(field) => Some(Run {
                report_id,
                first: field.bits.start,
                width: field.bits.end.saturating_sub(field.bits.start),
                count: 1,
                is_signed: field.is_signed(),
            }),
            Field::Array(field) => Some(Run {
                report_id,
                first: field.bits.start,
                width: width_of_elements(field),
                count: usize::from(field.report_count),
                is_signed: field.is_signed(),
            }),
            Field::Constant(_) => None,
        }
    }

    /// This run and another in one, where that goes on where this ends: they are read by the same
    /// id, and their values have the same width and sign.
    pub(crate) fn joined(&self, next: &Run) -> Option<Run>
        ensures { IfSome result (λ run. Joins self.now next.now run) }
    {
        let goes_on = self.report_id == next.report_id
            && self.width == next.width
            && self.is_signed == next.is_signed
            && self.first + self.width * self.count == next.first;
        if !goes_on {
            return None;
        }
        Some(Run {
            report_id: self.report_id,
            first: self.first,
            width: self.width,
            count: self.count.checked_add(next.count)?,
            is_signed: self.is_signed,
        })
    }

    /// How many values the run has.
    pub(crate) fn count(&self) -> usize
        ensures { result ≡ self.now.count }
    {
        self.count
    }

    /// Refuses bytes that don't have all values of the run.
    pub(crate) fn check(&self, bytes: &[u8]) -> Result<(), ParserError>
        ensures refused { IfErr result (λ e. Refuses e (run_reads self.now bytes.now)) }
        ensures named { IfErr result IsOfReading }
        ensures memory { result ≢ Err ParserError.OutOfMemory }
        ensures there { OnOk result (HasAllValues bytes.now self.now) }
    {
        check_id(self.report_id, bytes)?;
        if !self.lies_in(bytes.len()) {
            return Err(ParserError::OutOfBounds);
        }
        Ok(())
    }

    /// Whether all values have some bits, at most 32, and lie in so many bytes.
    pub(crate) fn lies_in(&self, bytes: usize) -> bool
        ensures { result ≡ is_inside self.now (8 * bytes) }
    {
        if self.count == 0 {
            return true;
        }
        let end = self.first + self.width * self.count;
        0 < self.width && self.width <= 32 && end.div_ceil(8) <= bytes
    }

    /// How many bytes have all values, where they are read by this id or by none; `None` where they
    /// are of another report, or have no bits or more than 32.
    pub(crate) fn bytes_for(&self, report_id: &Option<ReportId>) -> Option<usize>
        ensures { IfSome result (λ bytes. IsPlain report_id.now bytes self.now) }
    {
        if self.report_id.is_some() && self.report_id != *report_id {
            return None;
        }
        if self.count == 0 {
            return Some(0);
        }
        if self.width == 0 || 32 < self.width {
            return None;
        }
        let end = self.first + self.width * self.count;
        Some(end.div_ceil(8))
    }

    /// Whether bytes begin with another id than that which the values are read by.
    pub(crate) fn is_of_another(&self, bytes: &[u8]) -> bool
        ensures { result ≡ begins_otherwise bytes.now self.now.id }
    {
        match (&self.report_id, bytes) {
            (None, _) | (Some(_), []) => false,
            (Some(id), [first, ..]) => u8::from(*id) != *first,
        }
    }

    /// Puts the run's numbers in place of the values from `place` on, as far as there is room, up to
    /// the first that the bytes don't have; how many they have.
    pub(crate) fn put_available(&self, bytes: &[u8], place: usize, values: &mut [i64]) -> usize
        requires counted { place + self.now.count < 2 ^ 64 }
        ensures values { values.new ≡ set_from place
            (numbers_before (each_alone (run_value self.now bytes.now) 0 self.now.count)) values.old }
        ensures count { result
            ≡ length (numbers_before (each_alone (run_value self.now bytes.now) 0 self.now.count)) }
        ensures most { result ≤ self.now.count }
    {
        for index in 0..self.count {
            let first = self.first + self.width * index;
            let bits = first..first + self.width;
            let Some(value) = read_bits(bytes, &bits, self.is_signed) else {
                return index;
            };
            set_at(values, place + index, i64::from(value));
        }
        self.count
    }

    /// Puts the run's numbers in place of the values from `place` on, as far as there is room.
    #[inline(always)]
    pub(crate) fn put(&self, bytes: &[u8], short: u64, place: usize, values: &mut [i64])
        requires short { length bytes.now < 8 → short ≡ word bytes.now }
        requires there { is_inside self.now (8 * length bytes.now) ≡ true }
        requires counted { place + self.now.count < 2 ^ 64 }
        ensures { values.new
            ≡ set_from place (numbers_from self.now bytes.now 0 self.now.count) values.old }
    {
        if self.count == 1 {
            let number = number_at(bytes, short, self.first, self.width, self.is_signed);
            set_at(values, place, number);
            return;
        }
        let room = values.len().saturating_sub(place).min(self.count);
        if self.width == 8 && self.first % 8 == 0 && !self.is_signed {
            self.put_bytes(bytes, room, place, values);
        } else {
            self.put_some(bytes, short, room, place, values);
        }
    }

    /// Puts the first numbers of a run in place, whose values are whole bytes without a sign.
    fn put_bytes(&self, bytes: &[u8], room: usize, place: usize, values: &mut [i64])
        requires width { self.now.width ≡ 8 }
        requires aligned { self.now.first % 8 ≡ 0 }
        requires plain { self.now.is_signed ≡ false }
        requires there { is_inside self.now (8 * length bytes.now) ≡ true }
        requires few { room ≤ self.now.count }
        requires room { room ≤ length values.now - place }
        requires counted { place + self.now.count < 2 ^ 64 }
        ensures { values.new ≡ set_from place (numbers_from self.now bytes.now 0 room) values.old }
    {
        let first = self.first / 8;
        for index in 0..room {
            values[place + index] = i64::from(bytes[first + index]);
        }
    }

    /// Puts the first numbers of a run in place.
    #[inline(always)]
    fn put_some(&self, bytes: &[u8], short: u64, room: usize, place: usize, values: &mut [i64])
        requires short { length bytes.now < 8 → short ≡ word bytes.now }
        requires there { is_inside self.now (8 * length bytes.now) ≡ true }
        requires few { room ≤ self.now.count }
        requires room { room ≤ length values.now - place }
        requires counted { place + self.now.count < 2 ^ 64 }
        ensures { values.new ≡ set_from place (numbers_from self.now bytes.now 0 room) values.old }
    {
        let width = self.width;
        let is_signed = self.is_signed;
        for index in 0..room {
            let first = self.first + width * index;
            values[place + index] = number_at(bytes, short, first, width, is_signed);
        }
    }

    /// Whether the run begins in the byte of the id that it is read by.
    pub(crate) fn begins_in_id(&self) -> bool
        ensures { result ≡ run_in_id self.now }
    {
        begins_in_id(&self.report_id, self.first)
    }

    /// Whether the run's bits hold each of these numbers, as many as it has values.
    pub(crate) fn holds(&self, numbers: &[i64]) -> bool
        requires narrow { HasNarrowValues self.now }
        requires counted { length numbers.now ≡ self.now.count }
        ensures { result ≡ list_all (fits self.now.width self.now.is_signed) numbers.now }
    {
        all_fit(self.width, self.is_signed, numbers)
    }

    /// Puts numbers, as many as the run has values, in place of its bits; all others stay.
    pub(crate) fn put_numbers(&self, bytes: &mut [u8], numbers: &[i64])
        requires there { is_inside self.now (8 * length bytes.now) ≡ true }
        requires counted { length numbers.now ≡ self.now.count }
        ensures { bytes.new ≡ put self.now.first self.now.width numbers.now bytes.old }
    {
        put_values(bytes, self.first, self.width, numbers);
    }
}

/// Puts a number in place of a value, if it is there.
#[inline(always)]
fn set_at(values: &mut [i64], place: usize, number: i64)
    ensures { values.new ≡ slice_set values.old place number }
{
    if place < values.len() {
        values[place] = number;
    }
}
