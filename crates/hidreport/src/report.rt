//! Reports, their fields listed.
ghost use Rattle.std.specs.Prelude.{◌≡◌, ◌==◌, ◌+◌, ◌/◌, ◌↔◌, ℕ, List, Option, map, IfOk, IsTrue, find, option_copied, option_map};
ghost use Rattle.hidreport_items.specs.Spelling.{AreBytes};
ghost use Rattle.hidreport.specs.Blank.{blank_bytes, with_first};
ghost use Rattle.hidreport_fields.specs.Lookup.{field_for, field_with, has_usage};
ghost use Rattle.hidreport_fields.specs.Records.{FieldRecord, place_of};
ghost use Rattle.hidreport_fields.specs.Views.{field_record};
ghost use Rattle.hidreport.specs.Working.{TakesAll};
ghost use Rattle.hidreport_fields.specs.WritingLaws.{IsWhole};

pub(crate) mod group;
pub(crate) mod group_collection;
mod group_lookup;
pub(crate) mod item_place;
pub(crate) mod outline_report;
pub(crate) mod outline_reports;
pub(crate) mod reader;
pub(crate) mod reports;

use hidreport_fields::{Field, FieldId, Usage, are_alike};
use hidreport_types::ReportId;
use std::alloc::{AllocError, Global};
use std::marker::Model;

/// A report of a device: its id, its length and its fields (Section 5.6).
///
/// A report with an id begins with one byte for it; the fields lie one after the other.
pub trait Report {
    /// The report's id, where it has one.
    ghost id: { Self → Option ℕ };

    /// The report's length in bits.
    ghost size: { Self → ℕ };

    /// The report's fields.
    ghost parts: { Self → List FieldRecord };

    /// The report's id; `None` where it has none.
    fn report_id(&self) -> &Option<ReportId>
        ensures { result.now ≡ id self.now };

    /// The report's fields, in the order of their bits.
    fn fields(&self) -> &[Field]
        ensures { map field_record result.now ≡ parts self.now };

    /// The report's length in bits, the byte of its id among them.
    fn size_in_bits(&self) -> usize
        ensures { result ≡ size self.now };

    /// The report's length in bytes, that of its id among them: its bits, rounded up to whole
    /// bytes.
    fn size_in_bytes(&self) -> usize
        ensures { result ≡ (size self.now + 7) / 8 }
    {
        self.size_in_bits().div_ceil(8)
    }

    /// The field with this number; `None` where the report has none with it.
    ///
    /// Fields are numbered over the whole descriptor.
    fn field(&self, number: FieldId) -> Option<&Field>
        ensures { option_map field_record (option_copied result)
            ≡ field_with number (parts self.now) }
    {
        field_with_id(self.fields(), number)
    }

    /// The first field that has this usage; `None` where no field of the report has it
    /// (Section 6.2.2.8).
    ///
    /// `Field::has_usage` asks it of each field.
    fn field_for(&self, usage: Usage) -> Option<&Field>
        ensures { option_map field_record (option_copied result)
            ≡ field_for usage (parts self.now) }
    {
        field_with_usage(self.fields(), usage)
    }

    /// The bytes of a report without values: as many as the report has, the first its id, where it
    /// has one, and all other bits 0 (Section 5.6).
    ///
    /// Once all its fields are written, it has just their values, and nothing but these and the
    /// padding counts (`whole`). Where the fields of a report that was read have at most 32 bits
    /// for each value, all of them are written, in their order, with any values that fit (`takes`):
    /// `insert` refuses none.
    ///
    /// # Errors
    ///
    /// - `AllocError`: memory for the bytes is refused.
    ///
    /// # Examples
    ///
    /// ```rust
    /// use hidreport::{Report, ReportDescriptor};
    ///
    /// let bytes = b"\x05\x01\x75\x08\x95\x01\x85\x01\x09\x30\x91\x02";
    /// let descriptor = ReportDescriptor::try_from(alloc, bytes)?;
    /// let report = descriptor.output_reports().first().ok_or("no report")?;
    /// assert_eq!(rt; report.blank(alloc)?.as_slice(), b"\x01\x00".as_slice());
    /// ```
    fn blank(&self, alloc: Global) -> Result<Vec<u8>, AllocError>
        ensures blank { IfOk result (λ bytes.
            bytes.items ≡ blank_bytes (id self.now) (size self.now)) }
        ensures whole { IfOk result (λ bytes. IsWhole (record {
          id = id self.now;
          size = size self.now;
          fields = parts self.now;
        }) bytes.items) }
        ensures takes { IfOk result (λ bytes. TakesAll (record {
          id = id self.now;
          size = size self.now;
          fields = parts self.now;
        }) bytes.items) }
    {
        let bytes = blank_of(alloc, self.report_id(), self.size_in_bits())?;
        Ok(bytes)
    }
}

/// The field with this number.
fn field_with_id(fields: &[Field], id: FieldId) -> Option<&Field>
    ensures { option_copied result
        ≡ find (λ field. (place_of (field_record field)).id == id) fields.now }
{
    fields.iter().find(|field| has_id(field, id))
}

fn has_id(field: &Field, id: FieldId) -> bool
    ensures { result ≡ ((place_of (field_record field.now)).id == id) }
{
    u32::from(field.id()) == u32::from(id)
}

/// The first field that has this usage.
fn field_with_usage(fields: &[Field], usage: Usage) -> Option<&Field>
    ensures { option_copied result
        ≡ find (λ field. has_usage usage (field_record field)) fields.now }
{
    fields.iter().find(|field| field.has_usage(usage))
}

/// The bytes of a report of so many bits without values: its id, if it has one, and zeroes.
pub(crate) fn blank_of(
    alloc: Global,
    report_id: &Option<ReportId>,
    size: usize,
) -> Result<Vec<u8>, AllocError>
    ensures blank { IfOk result (λ bytes. bytes.items ≡ blank_bytes report_id.now size) }
    ensures bytes { IfOk result (λ bytes. AreBytes bytes.items) }
{
    let mut bytes = vec![in alloc; 0; size.div_ceil(8)]?;
    put_id(report_id, &mut bytes);
    Ok(bytes)
}

/// Puts an id in place of the first byte, if there is one.
fn put_id(report_id: &Option<ReportId>, bytes: &mut [u8])
    ensures first { bytes.new ≡ with_first report_id.now bytes.old }
    ensures bytes { AreBytes bytes.new }
{
    if let Some(id) = report_id
        && !bytes.is_empty()
    {
        bytes[0] = u8::from(*id);
    }
}

/// A report that a descriptor announces, with its fields (Section 5.6).
#[derive(Debug, Drop)]
pub struct RDescReport {
    pub(crate) id: Option<ReportId>,
    pub(crate) size: usize,
    pub(crate) fields: Vec<Field>,
}

impl Model for RDescReport {
    ghost use Rattle.std.specs.Prelude.{map};
    ghost use Rattle.hidreport_fields.specs.Records.{ReportRecord};

    ghost Value = { ReportRecord };

    ghost use Rattle.hidreport_fields.specs.Views.{field_record};

    ghost view = { λ r. record {
      id = r.id;
      size = r.size;
      fields = map field_record r.fields.items;
    } };
}

impl RDescReport {
    /// Whether another report is the same in all parts: its id, its size and its fields; takes no
    /// memory.
    pub fn is_alike(&self, other: &RDescReport) -> bool
        ensures { IsTrue result ↔ (self.now ≡ other.now) }
    {
        self.id == other.id
            && self.size == other.size
            && are_alike(self.fields.as_slice(), other.fields.as_slice())
    }

    /// Whether two lists have reports that are alike, in the same order.
    pub(crate) fn are_alike(left: &[RDescReport], right: &[RDescReport]) -> bool
        ensures { IsTrue result ↔ (left.now ≡ right.now) }
    {
        if left.len() != right.len() {
            return false;
        }
        for index in 0..left.len() {
            if !left[index].is_alike(&right[index]) {
                return false;
            }
        }
        true
    }
}

impl Report for RDescReport {
    ghost id = { λ r. r.id };

    ghost size = { λ r. r.size };

    ghost parts = { λ r. r.fields };

    fn report_id(&self) -> &Option<ReportId> {
        &self.id
    }

    fn fields(&self) -> &[Field] {
        &self.fields
    }

    fn size_in_bits(&self) -> usize {
        self.size
    }
}
