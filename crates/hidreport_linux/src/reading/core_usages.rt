//! The usages that local items name, as hid-core keeps them for the next main item.
ghost use Rattle.std.specs.Prelude.{◌≡◌, ◌++◌, if◌then◌else◌, nat_lt, OnOk};
ghost use Rattle.hidreport_linux.specs.CoreUsages.{at_place, moved_from, names_one, staying};

use crate::reading::core_named::CoreNamed;
use std::alloc::{AllocError, Global};
use std::marker::Model;

/// The usages of an item.
#[derive(Drop)]
pub(crate) struct CoreUsages {
    named: Vec<CoreNamed>,
    count: u32,
}

impl Model for CoreUsages {
    ghost use Rattle.hidreport_linux.specs.CoreUsages.{UsagesRecord};

    ghost Value = { UsagesRecord };

    ghost view = { λ u. record { named = u.named.items; count = u.count } };
}

impl CoreUsages {
    ghost use Rattle.std.specs.Prelude.{◌≡◌, ◌==◌, ◌++◌, length, OnOk};
    ghost use Rattle.hidreport_linux.specs.CoreUsages.{first_usage, have, moved, no_usages, with_usages};

    /// None yet.
    pub(crate) fn new(alloc: Global) -> CoreUsages
        ensures { result ≡ no_usages }
    {
        CoreUsages {
            named: Vec::new(alloc),
            count: 0,
        }
    }

    /// How many there are.
    pub(crate) fn count(&self) -> u32
        ensures { result ≡ self.now.count }
    {
        self.count
    }

    /// Whether there are none.
    pub(crate) fn are_none(&self) -> bool
        ensures { result ≡ (self.now.count == 0) }
    {
        self.count == 0
    }

    /// Forgets them.
    pub(crate) fn clear(&mut self)
        ensures { self.new ≡ no_usages }
    {
        self.named.clear();
        self.count = 0;
    }

    /// Adds so many.
    pub(crate) fn add(&mut self, named: CoreNamed, count: u32) -> Result<(), AllocError>
        ensures { OnOk result (self.new ≡ with_usages named count self.old) }
    {
        self.named.push(named)?;
        self.count = self.count.saturating_add(count);
        Ok(())
    }

    /// How many local items name them.
    pub(crate) fn spans(&self) -> usize
        ensures { result ≡ length self.now.named }
    {
        self.named.len()
    }

    /// Adds what stands there to others, with this page in force.
    pub(crate) fn add_to(&self, page: u32, all: &mut Vec<CoreNamed>) -> Result<(), AllocError>
        ensures { OnOk result (all.new.items ≡ all.old.items ++ moved page self.now) }
    {
        add_moved(page, staying(page, &self.named), &self.named, all)
    }

    /// The first, with this page in force, 0 where there is none.
    pub(crate) fn first(&self, page: u32) -> u32
        ensures { result ≡ first_usage page self.now }
    {
        match self.named.first() {
            Some(named) => at_place(page, staying(page, &self.named), 0, *named).first,
            None => 0,
        }
    }

    /// Whether this is one of them, with this page in force.
    pub(crate) fn have(&self, page: u32, usage: u32) -> bool
        ensures { result ≡ have page usage self.now }
    {
        names_one(page, usage, staying(page, &self.named), &self.named)
    }
}

/// How many stand up to the last one that lies on this page.
fn staying(page: u32, named: &[CoreNamed]) -> usize
    ensures { result ≡ staying page 0 0 named.now }
{
    let mut count = 0;
    for (index, named) in named.iter().enumerate() {
        if named.lies_on(page) {
            count = index + 1;
        }
    }
    count
}

/// What stands at a place, where so many stay as they are: others are on this page.
fn at_place(page: u32, staying: usize, place: usize, named: CoreNamed) -> CoreNamed
    ensures { result ≡ at_place page staying place named }
{
    if place < staying {
        named
    } else {
        named.moved_to(page)
    }
}

/// Adds all that stand there to others, where so many stay as they are.
fn add_moved(
    page: u32,
    staying: usize,
    named: &[CoreNamed],
    all: &mut Vec<CoreNamed>,
) -> Result<(), AllocError>
    ensures { OnOk result (all.new.items ≡ all.old.items ++ moved_from page staying 0 named.now) }
{
    for (index, named) in named.iter().enumerate() {
        all.push(at_place(page, staying, index, *named))?;
    }
    Ok(())
}

/// Whether a usage is one of them, where so many stay as they are.
fn names_one(page: u32, usage: u32, staying: usize, named: &[CoreNamed]) -> bool
    ensures { result ≡ names_one page usage staying 0 named.now }
{
    for (index, named) in named.iter().enumerate() {
        if at_place(page, staying, index, *named).names(usage) {
            return true;
        }
    }
    false
}
