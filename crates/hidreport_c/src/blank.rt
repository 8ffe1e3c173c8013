//! Reports without values.
ghost use Rattle.std.specs.Prelude.{◌≡◌};
ghost use Rattle.hidreport.specs.Blank.{blank_bytes, with_first};
ghost use Rattle.hidreport.specs.Records.{ReportRecord};
ghost use Rattle.hidreport_c.specs.Answer.{array_after, counted};
ghost use Rattle.hidreport_c.specs.Blank.{blank_of, own_id_of};
ghost use Rattle.hidreport_c.specs.Report.{report_as_c};

use crate::structs::{HidreportAnswer, HidreportReport};

/// The bytes of a report without values (Section 5.6): as many as the report has, the first its id,
/// where it has one, and all other bits 0. As many as there is room for are written; the answer is
/// how many there are. It takes no memory.
///
/// Of a report that the library described they are those of `Report::blank` (`blank`).
#[unsafe(no_mangle)]
pub extern "C" fn hidreport_blank(report: &HidreportReport, bytes: &mut [u8]) -> HidreportAnswer
    ensures answer { result ≡ counted report.now.size_in_bytes }
    ensures written { bytes.new ≡ array_after (blank_of report.now) bytes.old }
    ensures blank { (read : ReportRecord) → report.now ≡ report_as_c read
        → blank_of report.now ≡ blank_bytes read.id read.size }
{
    let count = report.size_in_bytes.min(bytes.len());
    let written = &mut bytes[..count];
    written.fill(0);
    put_id(report, written);
    HidreportAnswer::counted(report.size_in_bytes)
}

/// Puts a report's id in place of the first byte, if there are both.
fn put_id(report: &HidreportReport, bytes: &mut [u8])
    ensures { bytes.new ≡ with_first (own_id_of report.now) bytes.old }
{
    if report.has_id && !bytes.is_empty() {
        bytes[0] = report.id;
    }
}
