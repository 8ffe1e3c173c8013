//! A device as Linux reads its descriptor.
ghost use Rattle.std.specs.Prelude.{◌≡◌, ◌≢◌, ℕ, Err, None};
ghost use Rattle.hidreport.specs.Groups.{listed};
ghost use Rattle.hidreport_lists.specs.Answer.{Answers, AnswersBy};
ghost use Rattle.hidreport_lists.specs.declared.error.ParserError.TheVariants.{OutOfMemory};
ghost use Rattle.hidreport_linux.specs.LinuxDevice.{linux_options, linux_outline, linux_parse, outline_mended, parse_mended};
ghost use Rattle.hidreport_linux.specs.declared.linux_device.LinuxRefusal.TheVariants.{Unread};

use crate::input_devices::InputDevices;
use crate::reading::LinuxReading;
use crate::reading::placed::Refusal;
use crate::reading::reasons::RefusalReason;
use hidreport::{
    Change, Outline, ParseOptions, ParserError, PushKeeps, RepairOptions, Repaired, UsagesBy, mend,
};
use std::alloc::{AllocError, Global};
use std::marker::Model;
use thiserror::Error;

/// Why a descriptor isn't read as Linux reads it.
#[derive(Debug, Drop, Error)]
pub enum LinuxRefusal {
    /// Linux refuses it.
    #[error("Linux refuses it at offset {offset}: {reason}")]
    Refused {
        /// The offset of the first item that is refused, in bytes; behind the last where an end
        /// lacks.
        offset: usize,
        /// Why it is refused.
        reason: RefusalReason,
    },

    /// It lists more than the limit, or memory is refused.
    #[error("{0}")]
    Unread(ParserError),
}

impl From<AllocError> for LinuxRefusal {
    ghost from_gives = { λ _ error. error ≡ Unread OutOfMemory };

    fn from(_refused: AllocError) -> LinuxRefusal {
        LinuxRefusal::Unread(ParserError::OutOfMemory)
    }
}

impl From<ParserError> for LinuxRefusal {
    ghost from_gives = { λ fault error. error ≡ Unread fault };

    fn from(fault: ParserError) -> LinuxRefusal {
        LinuxRefusal::Unread(fault)
    }
}

/// A device as Linux reads its report descriptor: hid-core of Linux 6.12, without quirks.
///
/// What hid-core takes though the standard doesn't is mended first; the reports are those of the
/// mended descriptor, with usages as hosts find them and a Push that keeps global items alone.
#[derive(Drop)]
pub struct LinuxDevice {
    reading: LinuxReading,
    repaired: Repaired,
    outline: Outline,
}

impl Model for LinuxDevice {
    ghost use Rattle.hidreport.specs.Repair.{repaired_view};
    ghost use Rattle.hidreport_linux.specs.LinuxDevice.{DeviceRecord};

    ghost Value = { DeviceRecord };

    ghost view = { λ d. record {
      reading = d.reading;
      repaired = repaired_view d.repaired;
      outline = d.outline;
    } };
}

impl LinuxDevice {
    ghost use Rattle.std.specs.Prelude.{◌≡◌, ◌≤◌, IfErr, length, map};
    ghost use Rattle.hidreport.specs.Repair.{change_view};
    ghost use Rattle.hidreport_linux.specs.CoreReading.{unmapped_in};
    ghost use Rattle.hidreport_linux.specs.Devices.{no_devices};
    ghost use Rattle.hidreport_linux.specs.LinuxDevice.{IsOfLinux, LinuxAnswers};

    /// Reads a descriptor as Linux does, where listing it weighs no more than a limit, if there is
    /// one (see `ParseOptions::limit`).
    ///
    /// Each descriptor of at most 65,536 bytes that Linux takes is read, unless the limit or memory
    /// refuses it (`read`); Linux itself takes at most 4,096.
    ///
    /// # Errors
    ///
    /// - `Refused`: Linux refuses the descriptor, at the first item that it refuses.
    /// - `Unread` with `BudgetExceeded`: it lists more than the limit.
    /// - `Unread` with `OutOfMemory`: memory is refused; this says nothing of the bytes.
    ///
    /// # Examples
    ///
    /// ```rust
    /// use hidreport_linux::LinuxDevice;
    ///
    /// // A keyboard's array with a maximum of -1, which Linux reads as 255.
    /// let bytes = b"\x05\x07\x15\x00\x25\xff\x19\x00\x29\xff\x75\x08\x95\x06\x81\x00";
    /// let device = LinuxDevice::of(alloc, bytes, None)?;
    /// assert_eq!(rt; device.changes().len(), 1);
    /// assert_eq!(rt; device.outline().input_reports().len(), 1);
    /// ```
    pub fn of(
        alloc: Global,
        bytes: &[u8],
        limit: Option<usize>,
    ) -> Result<LinuxDevice, LinuxRefusal>
        ensures exact { LinuxAnswers limit bytes.now result }
        ensures read { length bytes.now ≤ 65536 → IfErr result (IsOfLinux limit) }
    {
        let reading = LinuxReading::of(alloc, bytes)?;
        if let Some(Refusal { offset, reason }) = reading.refusal() {
            return Err(LinuxRefusal::Refused { offset, reason });
        }
        let options = linux_options(limit);
        let repaired = mend(alloc, bytes, options)?;
        let outline = outline_of(alloc, repaired.bytes.as_slice(), options.parse)?;
        Ok(LinuxDevice {
            reading,
            repaired,
            outline,
        })
    }

    /// What Linux makes of its items and collections.
    pub fn reading(&self) -> &LinuxReading
        ensures { result.now ≡ self.now.reading }
    {
        &self.reading
    }

    /// Its reports, as Linux reads them.
    pub fn outline(&self) -> &Outline
        ensures { result.now ≡ self.now.outline }
    {
        &self.outline
    }

    /// The bytes of the descriptor that Linux reads, all of it mended.
    pub fn bytes(&self) -> &[u8]
        ensures { result.now ≡ self.now.repaired.bytes }
    {
        self.repaired.bytes.as_slice()
    }

    /// What was mended, in order.
    pub fn changes(&self) -> &[Change]
        ensures { map change_view result.now ≡ self.now.repaired.changes }
    {
        self.repaired.changes.as_slice()
    }

    /// The bytes that Linux reads, alone.
    pub fn into_bytes(self) -> Vec<u8>
        ensures { result.items ≡ self.repaired.bytes }
    {
        let repaired = self.repaired;
        repaired.bytes
    }

    /// What Linux makes of its items and collections, alone.
    pub fn into_reading(self) -> LinuxReading
        ensures { result ≡ self.reading }
    {
        self.reading
    }

    /// The input devices that Linux makes of it, before its first report.
    pub fn input_devices(&self, alloc: Global) -> InputDevices
        ensures { result ≡ no_devices self.now.reading.applications (unmapped_in self.now.reading) }
    {
        self.reading.input_devices(alloc)
    }
}

/// The reports of a descriptor as Linux reads it, where listing it weighs no more than a limit, if
/// there is one: those of `LinuxDevice::of`.
///
/// # Errors
///
/// - `InvalidData` at the item's offset, with a `RefusalReason`'s words: Linux refuses the descriptor.
/// - `BudgetExceeded`: it lists more than the limit.
/// - `OutOfMemory`: memory is refused; this says nothing of the bytes.
pub fn outline_as_linux(
    alloc: Global,
    bytes: &[u8],
    limit: Option<usize>,
) -> Result<Outline, ParserError>
    ensures exact { Answers result (linux_outline limit bytes.now) }
    ensures listed { AnswersBy listed result (linux_parse limit bytes.now) }
{
    let reading = LinuxReading::of(alloc, bytes)?;
    if let Some(refusal) = reading.refusal() {
        return Err(refusal.error(alloc));
    }
    let options = linux_options(limit);
    let repaired = mend(alloc, bytes, options)?;
    let outline = outline_of(alloc, repaired.bytes.as_slice(), options.parse)?;
    Ok(outline)
}

/// The reports of a mended descriptor; of one of which nothing is left there are none.
fn outline_of(alloc: Global, bytes: &[u8], options: ParseOptions) -> Result<Outline, ParserError>
    ensures exact { Answers result (outline_mended options bytes.now) }
    ensures listed { AnswersBy listed result (parse_mended options bytes.now) }
    ensures unlimited { options.limit ≡ None → options.longest ≡ None
        → (offset : ℕ) → result ≢ Err (ParserError.BudgetExceeded offset) }
{
    if bytes.is_empty() {
        return Ok(Outline::empty(alloc));
    }
    Outline::try_from_with(alloc, bytes, options)
}

/// The options by which Linux's reading is put together: maxima without a sign, a Push of global
/// items alone, usages as hosts find them.
fn linux_options(limit: Option<usize>) -> RepairOptions
    ensures { result ≡ linux_options limit }
{
    RepairOptions {
        parse: ParseOptions {
            push_keeps: PushKeeps::Globals,
            usages: UsagesBy::Hosts,
            limit,
            longest: None,
        },
        leave_out_cut_short: false,
        unsigned_maxima: true,
    }
}
