//! Usages that one local item names, as hid-core keeps them.
ghost use Rattle.std.specs.Prelude.{◌≡◌};
ghost use Rattle.hidreport_linux.specs.CoreUsages.{on_page};

/// Usages that one local item names: numbers with the page in the upper half.
#[derive(Clone, Copy)]
pub(crate) struct CoreNamed {
    pub(crate) first: u32,
    pub(crate) last: u32,

    /// Whether they have a page of their own.
    pub(crate) has_page: bool,
}

impl CoreNamed {
    ghost use Rattle.std.specs.Prelude.{◌≡◌};
    ghost use Rattle.hidreport_linux.specs.CoreUsages.{lies_on, moved_to, named_by, names, on_page};

    /// Those from a number to another, on this page where they have none of their own.
    pub(crate) fn new(first: u32, last: u32, has_page: bool, page: u32) -> CoreNamed
        ensures { result ≡ named_by first last has_page page }
    {
        let named = CoreNamed {
            first,
            last,
            has_page,
        };
        named.moved_to(page)
    }

    /// Whether the first lies on this page, without a page of its own.
    pub(crate) fn lies_on(self, page: u32) -> bool
        ensures { result ≡ lies_on page self }
    {
        !self.has_page && self.first / 0x1_0000 == page
    }

    /// On this page, where they have none of their own.
    pub(crate) fn moved_to(self, page: u32) -> CoreNamed
        ensures { result ≡ moved_to page self }
    {
        if self.has_page {
            return self;
        }
        CoreNamed {
            first: on_page(page, self.first),
            last: on_page(page, self.last),
            has_page: false,
        }
    }

    /// Whether this is one of them.
    pub(crate) fn names(self, usage: u32) -> bool
        ensures { result ≡ names usage self }
    {
        self.first <= usage && usage <= self.last
    }
}

/// The usage with the same id on this page.
fn on_page(page: u32, usage: u32) -> u32
    ensures { result ≡ on_page page usage }
{
    page % 0x1_0000 * 0x1_0000 + usage % 0x1_0000
}
