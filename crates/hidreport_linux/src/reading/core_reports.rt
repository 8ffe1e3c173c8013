//! The reports, as hid-core keeps them.
ghost use Rattle.std.specs.Prelude.{◌≡◌, ◌<◌};
ghost use Rattle.hidreport_linux.specs.CoreReports.{place_of, first_place};

use hidreport::Direction;

/// How many reports there may be: of three directions, with 0 for no id.
const REPORTS: usize = 768;

/// The most items of a report that name usages, and one more.
const PAST_ITEMS: u32 = 257;

/// A report.
#[derive(Clone, Copy)]
pub(crate) struct CoreReport {
    /// Whether an item is of it.
    pub(crate) is_there: bool,

    /// How many items of it name usages, up to 257.
    pub(crate) items: u32,

    /// The application of its first item, 0 where there is none.
    pub(crate) application: u32,

    /// How many bits it has, without its id.
    pub(crate) bits: u32,
}

/// The reports, by their directions and ids.
#[derive(Clone, Copy)]
pub(crate) struct CoreReports {
    reports: [CoreReport; REPORTS],
}

impl CoreReport {
    ghost use Rattle.std.specs.Prelude.{◌≡◌};
    ghost use Rattle.hidreport_linux.specs.CoreReports.{no_report, with_item};

    /// One of which nothing is known.
    const fn none() -> CoreReport
        ensures { result ≡ no_report }
    {
        CoreReport {
            is_there: false,
            items: 0,
            application: 0,
            bits: 0,
        }
    }

    /// With one item more, of so many bits: the first says the application of the report.
    fn with_item(self, application: u32, has_usages: bool, bits: u32) -> CoreReport
        ensures { result ≡ with_item application has_usages bits self }
    {
        let application = if self.is_there {
            self.application
        } else {
            application
        };
        let items = if has_usages && self.items < PAST_ITEMS {
            self.items + 1
        } else {
            self.items
        };
        CoreReport {
            is_there: true,
            items,
            application,
            bits: self.bits.saturating_add(bits),
        }
    }
}

impl CoreReports {
    ghost use Rattle.std.specs.Prelude.{◌≡◌};
    ghost use Rattle.hidreport_linux.specs.CoreReports.{application_of, no_reports, report_at, with_data};

    /// No reports yet.
    pub(crate) fn none() -> CoreReports
        ensures { result ≡ no_reports }
    {
        CoreReports {
            reports: [CoreReport::none(); REPORTS],
        }
    }

    /// What is kept of a report.
    pub(crate) fn of(&self, direction: Direction, id: u32) -> CoreReport
        ensures { result ≡ report_at direction id self.now }
    {
        self.reports[place_of(direction, id)]
    }

    /// Adds an item with so many bits to a report; it lies in this application, or in none (0).
    pub(crate) fn add(
        &mut self,
        direction: Direction,
        id: u32,
        application: u32,
        has_usages: bool,
        bits: u32,
    )
        ensures { self.new ≡ with_data direction id application has_usages bits self.old }
    {
        let place = place_of(direction, id);
        self.reports[place] = self.reports[place].with_item(application, has_usages, bits);
    }

    /// The application of a report with an item that names usages; 0 where it lies in none.
    pub(crate) fn application(&self, direction: Direction, id: u32) -> Option<u32>
        ensures { result ≡ application_of direction id self.now }
    {
        let report = self.of(direction, id);
        if report.items == 0 {
            return None;
        }
        Some(report.application)
    }
}

/// The place of a report in the list.
pub(crate) fn place_of(direction: Direction, id: u32) -> usize
    ensures place { result ≡ place_of direction id }
    ensures within { result < 768 }
{
    first_place(direction) + (id % 0x100) as usize
}

/// The place of a direction's first report.
pub(crate) fn first_place(direction: Direction) -> usize
    ensures place { result ≡ first_place direction }
    ensures within { result < 513 }
{
    match direction {
        Direction::Input => 0,
        Direction::Output => 256,
        Direction::Feature => 512,
    }
}
