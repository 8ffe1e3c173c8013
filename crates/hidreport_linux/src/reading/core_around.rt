//! What lies around an item, as hid-core looks it up.

/// The usages of the innermost open collections of three kinds, 0 where there is none, and whether
/// the innermost of all is a named array of programmable buttons.
#[derive(Clone, Copy)]
pub(crate) struct CoreAround {
    pub(crate) application: u32,
    pub(crate) physical: u32,
    pub(crate) logical: u32,
    pub(crate) has_macros: bool,
    /// The number of the innermost of all, 0 where there is none.
    pub(crate) collection: usize,
}

impl CoreAround {
    ghost use Rattle.std.specs.Prelude.{◌≡◌};
    ghost use Rattle.hidreport_linux.specs.CoreKept.{no_around, with_collection};

    /// In no collection.
    pub(crate) fn none() -> CoreAround
        ensures { result ≡ no_around }
    {
        CoreAround {
            application: 0,
            physical: 0,
            logical: 0,
            has_macros: false,
            collection: 0,
        }
    }

    /// Inside a collection more: its number, its kind and its usage.
    pub(crate) fn with(self, number: usize, kind: u32, usage: u32) -> CoreAround
        ensures { result ≡ with_collection number kind usage self }
    {
        CoreAround {
            application: if kind == 1 { usage } else { self.application },
            physical: if kind == 0 { usage } else { self.physical },
            logical: if kind == 2 { usage } else { self.logical },
            has_macros: kind == 4 && usage == 0x000c_0003,
            collection: number,
        }
    }
}
