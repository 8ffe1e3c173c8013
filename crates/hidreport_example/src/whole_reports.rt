//! What a caller proves of reports that are written and read as a whole.
ghost use Rattle.std.specs.Prelude.{◌≡◌, OnOk};
ghost use Rattle.hidreport.specs.Records.{ReportRecord};
ghost use Rattle.hidreport.specs.Runs.{StandFor};
ghost use Rattle.hidreport.specs.Tiling.{IsFilled};

use hidreport::{InsertError, Reader};

/// The values that a reader has just written, read again in their place: they are the same, where
/// it was made of a report that its fields fill, as those of a report that was read do.
pub fn written_then_read(
    reader: &Reader,
    bytes: &mut [u8],
    values: &mut [i64],
) -> Result<usize, InsertError>
    ensures same { (report : ReportRecord) → IsFilled report → StandFor report.fields reader.now
        → OnOk result (values.new ≡ values.old) }
{
    reader.write(bytes, values)?;
    match reader.read(bytes, values) {
        Ok(count) => Ok(count),
        Err(_refusal) => Err(InsertError::OutOfBounds),
    }
}
