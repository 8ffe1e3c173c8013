//! How Linux's hid-core reads a descriptor.
ghost use Rattle.std.specs.Prelude.{◌≡◌};
ghost use Rattle.hidreport_items.specs.Spelling.{data_length};
ghost use Rattle.hidreport_linux.specs.CoreReading.{is_feature, is_input};

mod core_around;
mod core_fields;
mod core_globals;
mod core_item;
mod core_locals;
mod core_named;
pub(crate) mod core_reports;
mod core_usages;
pub(crate) mod field_usages;
mod number;
mod passing;
pub(crate) mod placed;
pub(crate) mod reasons;

use crate::driver::Driver;
use crate::input_devices::InputDevices;
use crate::linux_field::{LinuxCollection, LinuxField, LinuxReport};
use crate::unmapped::Unmapped;
use core_around::CoreAround;
use core_globals::CoreGlobals;
use core_item::CoreItem;
use core_locals::CoreLocals;
use core_named::CoreNamed;
use core_reports::CoreReports;
use hidreport::Direction;
use placed::{Doubt, Omission, Refusal};
use reasons::RefusalReason;
use std::alloc::{AllocError, Global};
use std::marker::Model;

/// The most elements of an item.
const MOST_ELEMENTS: u32 = 12_288;

/// The most bits of an element.
const MOST_BITS: u32 = 256;

/// The most bits of a report without its id: of 16,384 bytes one may be the id's.
const MOST_REPORT_BITS: u32 = 131_064;

/// The most Pushes that wait for their Pops.
const MOST_PUSHES: usize = 4;

/// How Linux's hid-core reads the items of a descriptor: whether it takes them, where it may find
/// other usages than `usages` by hosts, and what it makes of its collections.
///
/// It is that of Linux 6.12, item by item.
#[derive(Drop)]
pub struct LinuxReading {
    globals: CoreGlobals,
    pushed: Vec<CoreGlobals>,
    around: Vec<CoreAround>,
    reports: CoreReports,
    locals: CoreLocals,
    has_ids: bool,
    lacks_ids: bool,
    applications: usize,
    has_input: bool,
    driver: Option<Driver>,
    doubt: Option<Doubt>,
    refusal: Option<Refusal>,
    left_out: Option<Omission>,
    has_items_without_bits: bool,
    overflow: Option<usize>,
    /// The collections, as they came.
    collections: Vec<LinuxCollection>,
    /// The reports, as they came.
    order: Vec<LinuxReport>,
    /// The items with data that name usages, in order.
    fields: Vec<LinuxField>,
    /// What names their usages.
    named: Vec<CoreNamed>,
}

impl Model for LinuxReading {
    ghost use Rattle.hidreport_linux.specs.CoreKept.{ReadingRecord};

    ghost Value = { ReadingRecord };

    ghost view = { λ r. record {
      globals = r.globals;
      pushed = r.pushed.items;
      around = r.around.items;
      reports = r.reports;
      locals = r.locals;
      has_ids = r.has_ids;
      lacks_ids = r.lacks_ids;
      applications = r.applications;
      has_input = r.has_input;
      driver = r.driver;
      doubt = r.doubt;
      refusal = r.refusal;
      left_out = r.left_out;
      has_items_without_bits = r.has_items_without_bits;
      overflow = r.overflow;
      collections = r.collections.items;
      order = r.order.items;
      fields = r.fields.items;
      named = r.named.items;
    } };
}

impl LinuxReading {
    ghost use Rattle.std.specs.Prelude.{◌≡◌, IfOk, OnOk, length};
    ghost use Rattle.hidreport_linux.specs.CoreKept.{nothing_kept};
    ghost use Rattle.hidreport_linux.specs.CoreReading.{bits_of, data_refusal, ended, linux_reading, read_all, refusal_of, refused, unmapped_in};
    ghost use Rattle.hidreport_linux.specs.CoreReports.{application_of};
    ghost use Rattle.hidreport_linux.specs.Devices.{no_devices};

    /// Reads the items of a descriptor, up to the first that is refused.
    ///
    /// # Errors
    ///
    /// - `AllocError`: memory is refused.
    pub fn of(alloc: Global, bytes: &[u8]) -> Result<LinuxReading, AllocError>
        ensures { IfOk result (λ reading. reading ≡ linux_reading bytes.now) }
    {
        let mut reading = LinuxReading::nothing(alloc);
        if bytes.is_empty() {
            reading.refuse(0, RefusalReason::NoItem);
            return Ok(reading);
        }
        reading.read(bytes)?;
        Ok(reading)
    }

    /// Before the first item.
    fn nothing(alloc: Global) -> LinuxReading
        ensures { result ≡ nothing_kept }
    {
        let locals = CoreLocals::new(alloc);
        LinuxReading {
            globals: CoreGlobals::none(),
            pushed: Vec::new(alloc),
            around: Vec::new(alloc),
            reports: CoreReports::none(),
            locals,
            has_ids: false,
            lacks_ids: false,
            applications: 0,
            has_input: false,
            driver: None,
            doubt: None,
            refusal: None,
            left_out: None,
            has_items_without_bits: false,
            overflow: None,
            collections: Vec::new(alloc),
            order: Vec::new(alloc),
            fields: Vec::new(alloc),
            named: Vec::new(alloc),
        }
    }

    /// Reads all items: each is a header and its data.
    fn read(&mut self, bytes: &[u8]) -> Result<(), AllocError>
        ensures { OnOk result (self.new
            ≡ read_all (length bytes.now) (length bytes.now) bytes.now self.old) }
    {
        let mut rest = bytes;
        let mut left = bytes.len();
        while left > 0 {
            left -= 1;
            let Some((header, behind)) = rest.split_first() else {
                break;
            };
            let offset = bytes.len().saturating_sub(rest.len());
            let Some((data, behind)) = behind.split_at_checked(size_of(*header)) else {
                self.refuse(offset, RefusalReason::CutShort);
                return Ok(());
            };
            let item = CoreItem::of(*header, data);
            if let Some(reason) = self.refusal_of(item) {
                self.refuse(offset, reason);
                return Ok(());
            }
            self.pass(offset, item)?;
            rest = behind;
        }
        self.end(bytes.len());
        Ok(())
    }

    /// That an item is refused.
    fn refuse(&mut self, offset: usize, reason: RefusalReason)
        ensures { self.new ≡ refused offset reason self.old }
    {
        self.refusal = Some(Refusal { offset, reason });
    }

    /// Why an item is refused behind those before it.
    fn refusal_of(&self, item: CoreItem) -> Option<RefusalReason>
        ensures { result ≡ refusal_of item self.now }
    {
        match item {
            CoreItem::Long => Some(RefusalReason::LongItem),
            CoreItem::UnknownGlobal => Some(RefusalReason::UnknownGlobal),
            CoreItem::Push if self.pushed.len() >= MOST_PUSHES => Some(RefusalReason::PastPushes),
            CoreItem::Pop if self.pushed.is_empty() => Some(RefusalReason::LonePop),
            CoreItem::EndCollection if self.around.is_empty() => Some(RefusalReason::LoneEnd),
            CoreItem::ReportSize(bits) if bits > MOST_BITS => Some(RefusalReason::PastBits),
            CoreItem::ReportCount(count) if count > MOST_ELEMENTS => Some(RefusalReason::PastCount),
            CoreItem::ReportId(id) if id == 0 || id > 0xff => Some(RefusalReason::NoId),
            CoreItem::Data(direction, _) => self.data_refusal(direction),
            item => self.locals.refusal(item),
        }
    }

    /// Why an Input, Output or Feature is refused.
    fn data_refusal(&self, direction: Direction) -> Option<RefusalReason>
        ensures { result ≡ data_refusal direction self.now }
    {
        if self.globals.are_below() {
            return Some(RefusalReason::BelowMinimum);
        }
        let report = self.reports.of(direction, self.globals.id);
        if report.bits.saturating_add(self.bits()) > MOST_REPORT_BITS {
            return Some(RefusalReason::LongReport);
        }
        None
    }

    /// How many bits the elements of an item have.
    fn bits(&self) -> u32
        ensures { result ≡ bits_of self.now.globals }
    {
        self.globals.size.saturating_mul(self.globals.count)
    }

    /// Behind the last item.
    fn end(&mut self, offset: usize)
        ensures { self.new ≡ ended offset self.old }
    {
        if !self.around.is_empty() {
            self.refuse(offset, RefusalReason::OpenCollection);
        } else if self.locals.is_in_set() {
            self.refuse(offset, RefusalReason::OpenSet);
        }
    }

    /// Why the descriptor is refused, if it is.
    pub fn refusal(&self) -> Option<Refusal>
        ensures { result ≡ self.now.refusal }
    {
        self.refusal
    }

    /// Where hid-core may read the descriptor otherwise first, if it may.
    pub fn doubt(&self) -> Option<Doubt>
        ensures { result ≡ self.now.doubt }
    {
        self.doubt
    }

    /// What hid-core leaves out first, if it does.
    pub fn left_out(&self) -> Option<Omission>
        ensures { result ≡ self.now.left_out }
    {
        self.left_out
    }

    /// The driver that takes the device from hid-generic for what the descriptor says, if one does.
    pub fn driver(&self) -> Option<Driver>
        ensures { result ≡ self.now.driver }
    {
        self.driver
    }

    /// Whether an item without bits names usages, which have codes nevertheless.
    pub fn has_items_without_bits(&self) -> bool
        ensures { result ≡ self.now.has_items_without_bits }
    {
        self.has_items_without_bits
    }

    /// The offset of the first Resolution Multiplier at which hid-core divides -2147483648 by -1.
    pub fn overflow(&self) -> Option<usize>
        ensures { result ≡ self.now.overflow }
    {
        self.overflow
    }

    /// The application of the report of a direction with an id, 0 for none: the usage of the
    /// innermost one around its first item, 0 where it lies in none. It is `None` of a report
    /// without an item that names usages.
    pub fn application(&self, direction: Direction, id: u32) -> Option<u32>
        ensures { result ≡ application_of direction id self.now.reports }
    {
        self.reports.application(direction, id)
    }

    /// Why no usage of the descriptor has an event, where none has.
    pub fn unmapped(&self) -> Option<Unmapped>
        ensures { result ≡ unmapped_in self.now }
    {
        if self.refusal.is_some() {
            Some(Unmapped::Refused)
        } else if self.doubt.is_some() {
            Some(Unmapped::NotKnown)
        } else if self.has_input {
            None
        } else {
            Some(Unmapped::NoInput)
        }
    }

    /// The input devices that Linux makes of the descriptor, before its first report.
    pub fn input_devices(&self, alloc: Global) -> InputDevices
        ensures { result ≡ no_devices self.now.applications (unmapped_in self.now) }
    {
        InputDevices::new(alloc, self.applications, self.unmapped())
    }
}

/// How many bytes of data the item with this header has.
fn size_of(header: u8) -> usize
    ensures { result ≡ data_length header }
{
    match header % 4 {
        3 => 4,
        size => usize::from(size),
    }
}

fn is_input(direction: Direction) -> bool
    ensures { result ≡ is_input direction }
{
    matches!(direction, Direction::Input)
}

fn is_feature(direction: Direction) -> bool
    ensures { result ≡ is_feature direction }
{
    matches!(direction, Direction::Feature)
}
