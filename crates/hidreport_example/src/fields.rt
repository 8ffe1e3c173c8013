//! What a caller proves of reading and writing fields.
ghost use Rattle.std.specs.Prelude.{◌≡◌, ◌≢◌, ◌↔◌, [], ◌∷◌, List, ℕ, ℤ, Err, IfErr, IfOk, IfSome, ◌+◌, ◌*◌, ◌≤◌, IsNone, OnOk, Ok, false, int_lt, length, option_copied, pos, true};
ghost use Rattle.hidreport.specs.Answer.{IsOfReading, MismatchingReportId};
ghost use Rattle.hidreport.specs.Bits.{AgreeOn, covered_bits};
ghost use Rattle.hidreport.specs.Reading.{ValueRecord, element_width, reads, reads_element};
ghost use Rattle.hidreport.specs.Records.{FieldRecord, place_of, usages_in};
ghost use Rattle.hidreport.specs.Spelling.{AreBytes};
ghost use Rattle.hidreport.specs.Standing.{is_unchosen};
ghost use Rattle.hidreport.specs.Tiling.{Each, HasRange, IsFilled, IsTiled};
ghost use Rattle.hidreport.specs.UsageRange.{HasExactly};
ghost use Rattle.hidreport.specs.Views.{array_record, variable_record};
ghost use Rattle.hidreport.specs.Working.{FieldWorks};
ghost use Rattle.hidreport.specs.WritingLaws.{AllRead, Keeps, LeavesOthers, SamePadding, number_in, reads_numbers, written_all};
ghost use Rattle.hidreport.specs.WritingValues.{value_width, written_element};
ghost use Rattle.hidreport_example.specs.Laws.{SecondCounts};

use hidreport::{
    ArrayField, FieldValue, InsertError, ParserError, RDescReport, Report, ReportDescriptor, Usage,
    UsageRange, VariableField,
};
use std::alloc::{AllocError, Global};

/// A field's value: it takes no memory, and another report that is read has the same value just
/// where it has the same bits.
pub fn value_of(field: &VariableField, bytes: &[u8]) -> Result<FieldValue, ParserError>
    ensures named { IfErr result IsOfReading }
    ensures memory { result ≢ Err ParserError.OutOfMemory }
    ensures fixed { (other : List ℕ) (values : List ValueRecord)
        → IfOk result (λ value. reads (variable_record field.now) other ≡ Ok values
        → (value ∷ [] ≡ values) ↔ AgreeOn (place_of (variable_record field.now)).first
        (covered_bits (variable_record field.now)) bytes.now other) }
{
    field.extract(bytes)
}

/// The values of an array, likewise.
pub fn values_of(field: &ArrayField, bytes: &[u8]) -> Result<Vec<FieldValue>, ParserError>
    ensures named { IfErr result IsOfReading }
    ensures fixed { (other : List ℕ) (values : List ValueRecord)
        → IfOk result (λ read. reads (array_record field.now) other ≡ Ok values
        → (read.items ≡ values) ↔ AgreeOn (place_of (array_record field.now)).first
        (covered_bits (array_record field.now)) bytes.now other) }
{
    field.extract(bytes)
}

/// One element of it takes no memory.
pub fn element_of(field: &ArrayField, bytes: &[u8], index: usize) -> Result<FieldValue, ParserError>
    ensures named { IfErr result IsOfReading }
    ensures memory { result ≢ Err ParserError.OutOfMemory }
{
    field.extract_one(bytes, index)
}

/// Writes a value: it is read again, no other bit and no other field of the report changes, and a
/// second write counts.
pub fn write(field: &VariableField, bytes: &mut [u8], value: i64) -> Result<(), InsertError>
    ensures read { OnOk result (reads_numbers (variable_record field.now) bytes.new
        ≡ Ok (value ∷ [])) }
    ensures kept { OnOk result (Keeps (place_of (variable_record field.now)).first
        (covered_bits (variable_record field.now)) bytes.old bytes.new) }
    ensures apart { OnOk result (LeavesOthers (variable_record field.now) bytes.old bytes.new) }
    ensures last { OnOk result (SecondCounts (variable_record field.now) bytes.old bytes.new) }
    ensures again { reads_numbers (variable_record field.now) bytes.old ≡ Ok (value ∷ [])
        → bytes.new ≡ bytes.old }
{
    field.insert(bytes, value)
}

/// Writes the values of an array, likewise.
pub fn write_all(field: &ArrayField, bytes: &mut [u8], values: &[i64]) -> Result<(), InsertError>
    ensures read { OnOk result (reads_numbers (array_record field.now) bytes.new ≡ Ok values.now) }
    ensures kept { OnOk result (Keeps (place_of (array_record field.now)).first
        (covered_bits (array_record field.now)) bytes.old bytes.new) }
    ensures apart { OnOk result (LeavesOthers (array_record field.now) bytes.old bytes.new) }
    ensures last { OnOk result (SecondCounts (array_record field.now) bytes.old bytes.new) }
    ensures again { reads_numbers (array_record field.now) bytes.old ≡ Ok values.now
        → bytes.new ≡ bytes.old }
{
    field.insert(bytes, values)
}

/// Writes one element, which leaves the others, too.
pub fn write_one(
    field: &ArrayField,
    bytes: &mut [u8],
    index: usize,
    value: i64,
) -> Result<(), InsertError>
    ensures read { OnOk result (number_in
        (reads_element (array_record field.now) bytes.new index) ≡ Ok value) }
    ensures kept { OnOk result (Keeps ((place_of (array_record field.now)).first
        + value_width (array_record field.now) * index)
        (value_width (array_record field.now)) bytes.old bytes.new) }
    ensures elements { OnOk result ((j : ℕ) → j ≢ index
        → reads_element (array_record field.now) bytes.new j
        ≡ reads_element (array_record field.now) bytes.old j) }
    ensures apart { OnOk result (LeavesOthers (array_record field.now) bytes.old bytes.new) }
    ensures last { OnOk result ((other : ℤ)
        → written_element (array_record field.now) index other bytes.new
        ≡ written_element (array_record field.now) index other bytes.old) }
    ensures again { number_in (reads_element (array_record field.now) bytes.old index) ≡ Ok value
        → bytes.new ≡ bytes.old }
{
    field.insert_one(bytes, index, value)
}

/// The bytes of a report without values: once all fields are written, each reads its own, and the
/// bytes are those that any others with the same padding become.
pub fn begin(alloc: Global, report: &RDescReport) -> Result<Vec<u8>, AllocError>
    ensures values { IfOk result (λ bytes. (numbers : List (List ℤ)) (new : List ℕ)
        → IsFilled report.now → written_all report.now.fields numbers bytes.items ≡ Ok new
        → AllRead report.now.fields numbers new) }
    ensures same { IfOk result (λ bytes. (other : List ℕ) (numbers : List (List ℤ))
        (new newer : List ℕ) → AreBytes other → length other ≡ length bytes.items
        → SamePadding report.now.fields bytes.items other
        → written_all report.now.fields numbers bytes.items ≡ Ok new
        → written_all report.now.fields numbers other ≡ Ok newer → new ≡ newer) }
{
    report.blank(alloc)
}

/// The report that bytes are of: none of its fields says that they are another's, and all that have
/// at most 32 bits are read and written where there are bytes enough.
pub fn report_of<'a>(descriptor: &'a ReportDescriptor, bytes: &[u8]) -> Option<&'a RDescReport>
    requires { IsTiled descriptor.now }
    ensures own { IfSome (option_copied result) (λ report.
        Each (λ (field : FieldRecord). reads field bytes.now ≢ Err MismatchingReportId)
        report.fields) }
    ensures works { IfSome (option_copied result) (λ report.
        report.size ≤ 8 * length bytes.now → Each (FieldWorks bytes.now) report.fields) }
{
    descriptor.find_input_report(bytes)
}

/// A number that says that no usage is meant: none is at it, and where there is no such number all
/// that an element's bits hold stand for one.
pub fn nothing_in(field: &ArrayField) -> Option<i64>
    ensures stands { IfSome result (λ number. is_unchosen (usages_in (array_record field.now))
        (element_width field.now.bits.start field.now.bits.end field.now.report_count)
        (int_lt field.now.logical_minimum (pos 0))
        field.now.logical_minimum field.now.logical_maximum number ≡ true) }
    ensures all { IsNone result → (number : ℤ) → is_unchosen (usages_in (array_record field.now))
        (element_width field.now.bits.start field.now.bits.end field.now.report_count)
        (int_lt field.now.logical_minimum (pos 0))
        field.now.logical_minimum field.now.logical_maximum number ≡ false }
{
    field.null_value()
}

/// The range of an array's usages has just these, where they are as many as its ids.
pub fn range_of(field: &ArrayField) -> Option<UsageRange>
    requires { HasRange (array_record field.now) }
    ensures { IfSome result (λ range. HasExactly range (usages_in (array_record field.now))) }
{
    field.usage_range()
}

/// A usage of a range is given as it was.
pub fn usage_in<'a>(range: &UsageRange, usage: &'a Usage) -> Option<&'a Usage>
    ensures { IfSome result (λ found. found.now ≡ usage.now) }
{
    range.lookup_usage(usage)
}
