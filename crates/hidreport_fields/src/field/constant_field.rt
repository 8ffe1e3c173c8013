//! Constant fields.
ghost use Rattle.std.specs.Prelude.{◌≡◌, []};

use crate::field::FieldId;
use crate::field::usage::Usage;
use hidreport_types::ReportId;
use std::ops::Range;

/// Padding: bits of a report that say nothing (Section 6.2.2.5).
#[derive(Debug, Drop)]
pub struct ConstantField {
    pub(crate) id: FieldId,
    pub(crate) report_id: Option<ReportId>,

    /// The field's bits in its report, counted from 0, the byte of its id among them: from the
    /// first up to the one after the last.
    pub bits: Range<usize>,
}

impl ConstantField {
    /// The usages of padding, which has none: the empty slice.
    pub fn usages(&self) -> &[Usage]
        ensures { result.now ≡ [] }
    {
        &[]
    }

    /// A copy of the field; takes no memory.
    pub fn clone(&self) -> ConstantField
        ensures { result ≡ self.now }
    {
        ConstantField {
            id: self.id,
            report_id: self.report_id,
            bits: self.bits.start..self.bits.end,
        }
    }
}
