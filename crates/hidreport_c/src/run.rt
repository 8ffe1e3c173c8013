//! Values side by side in a report, prepared for reading and writing.
ghost use Rattle.std.specs.Prelude.{◌≡◌, ◌≢◌, ◌+◌, ◌*◌, ◌<◌, ◌≤◌, ◌^◌, [], ◌∷◌, IfErr, IfSome, IsNone, OnOk, true, length};
ghost use Rattle.std.specs.List.{list_all};
ghost use Rattle.hidreport_items.specs.Numbers.{word};
ghost use Rattle.hidreport.specs.Runs.{HasAllValues, HasNarrowValues, Joins, is_inside, numbers_from, run_in_id, run_reads, set_from};
ghost use Rattle.hidreport.specs.WritingValues.{fits, put};
ghost use Rattle.hidreport_c.specs.Prepared.{IsRefused, as_run, end_of, run_of_field};

use crate::status::OUT_OF_BOUNDS;
use crate::structs::{HidreportField, HidreportRun};
use crate::value::check_id;
use hidreport::bits::{all_fit, put_values};
use hidreport_fields::number_at;

impl HidreportField {
    /// What the field's values are read by; `None` of padding.
    pub(crate) fn run(&self) -> Option<HidreportRun>
        ensures some { IfSome result (λ run. run_of_field self.now ≡ as_run run ∷ []) }
        ensures none { IsNone result → run_of_field self.now ≡ [] }
    {
        if self.value_count == 0 && !self.has_report_id {
            return None;
        }
        Some(HidreportRun {
            first_bit: self.first_bit,
            element_width: self.element_width(),
            value_count: self.value_count,
            is_signed: self.is_signed(),
            has_report_id: self.has_report_id,
            report_id: self.report_id,
        })
    }
}

impl HidreportRun {
    /// The bit behind the last, if 64 bits count it.
    #[inline(always)]
    fn end(&self) -> Option<usize>
        ensures some { IfSome result (λ end. end ≡ end_of self.now) }
        ensures bound { IfSome result (λ end. end < 2 ^ 64) }
        ensures none { IsNone result → 2 ^ 64 ≤ end_of self.now }
    {
        let bits = self.element_width.checked_mul(self.value_count)?;
        self.first_bit.checked_add(bits)
    }

    /// This run and another in one, where that goes on where this ends: they are read by the same
    /// id, and their values have the same width and sign.
    pub(crate) fn joined(&self, next: &HidreportRun) -> Option<HidreportRun>
        ensures { IfSome result (λ run. Joins (as_run self.now) (as_run next.now) (as_run run)) }
    {
        let end = self.end()?;
        next.end()?;
        let goes_on = self.has_report_id == next.has_report_id
            && self.report_id == next.report_id
            && self.element_width == next.element_width
            && self.is_signed == next.is_signed
            && end == next.first_bit;
        if !goes_on {
            return None;
        }
        Some(HidreportRun {
            first_bit: self.first_bit,
            element_width: self.element_width,
            value_count: self.value_count.checked_add(next.value_count)?,
            is_signed: self.is_signed,
            has_report_id: self.has_report_id,
            report_id: self.report_id,
        })
    }

    /// Whether all values can be read.
    pub(crate) fn check(&self, report: &[u8]) -> Result<(), u32>
        ensures refused { IfErr result
            (λ status. IsRefused status (run_reads (as_run self.now) report.now)) }
        ensures there { OnOk result (HasAllValues report.now (as_run self.now)) }
    {
        check_id(self.has_report_id, self.report_id, report)?;
        if self.lies_in(report.len()) {
            Ok(())
        } else {
            Err(OUT_OF_BOUNDS)
        }
    }

    /// Whether all values have some bits, at most 32, and lie in so many bytes.
    #[inline(always)]
    fn lies_in(&self, bytes: usize) -> bool
        ensures { result ≡ is_inside (as_run self.now) (8 * bytes) }
    {
        if self.value_count == 0 {
            return true;
        }
        match self.end() {
            Some(end) => {
                0 < self.element_width && self.element_width <= 32 && end.div_ceil(8) <= bytes
            }
            None => false,
        }
    }

    /// Puts the run's numbers in place of the values from `place` on, as far as there is room.
    #[inline(always)]
    pub(crate) fn put(&self, report: &[u8], short: u64, place: usize, values: &mut [i64])
        requires short { length report.now < 8 → short ≡ word report.now }
        requires there { is_inside (as_run self.now) (8 * length report.now) ≡ true }
        requires counted { place + self.now.value_count < 2 ^ 64 }
        ensures { values.new ≡ set_from place
            (numbers_from (as_run self.now) report.now 0 self.now.value_count) values.old }
    {
        let width = self.element_width;
        let is_signed = self.is_signed;
        let room = values.len().saturating_sub(place).min(self.value_count);
        for index in 0..room {
            let first = self.first_bit + width * index;
            values[place + index] = number_at(report, short, first, width, is_signed);
        }
    }

    /// Whether the run begins in the byte of the id that it is read by.
    pub(crate) fn begins_in_id(&self) -> bool
        ensures { result ≡ run_in_id (as_run self.now) }
    {
        self.has_report_id && self.first_bit < 8
    }

    /// Whether the run's bits hold each of these numbers, as many as it has values.
    pub(crate) fn holds(&self, numbers: &[i64]) -> bool
        requires narrow { HasNarrowValues (as_run self.now) }
        requires counted { length numbers.now ≡ self.now.value_count }
        ensures { result
            ≡ list_all (fits (as_run self.now).width self.now.is_signed) numbers.now }
    {
        all_fit(self.element_width, self.is_signed, numbers)
    }

    /// Puts numbers, as many as the run has values, in place of its bits; all others stay.
    pub(crate) fn put_numbers(&self, report: &mut [u8], numbers: &[i64])
        requires there { is_inside (as_run self.now) (8 * length report.now) ≡ true }
        requires counted { length numbers.now ≡ self.now.value_count }
        ensures { report.new
            ≡ put self.now.first_bit (as_run self.now).width numbers.now report.old }
    {
        put_values(report, self.first_bit, self.element_width, numbers);
    }
}
