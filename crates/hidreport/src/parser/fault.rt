//! Faults of meaning, and the errors that they become.
ghost use Rattle.std.specs.Prelude.{◌≡◌, IfSome, None};
ghost use Rattle.hidreport_lists.specs.Answer.{InvalidData};
ghost use Rattle.hidreport.specs.Meaning.{refusal_at};
ghost use Rattle.hidreport.specs.Parser.Refusals.{IsRefusal, fault_named};
ghost use Rattle.hidreport.specs.Repair.{is_missing_usages};
ghost use Rattle.hidreport.specs.declared.parser.fault.Fault.TheVariants.{OutOfMemory};

use hidreport_lists::ParserError;
use std::alloc::{AllocError, AllocFailed, Global};

/// Why an item has no meaning where it stands (Sections 6.2.2.4 to 6.2.2.8), or want of memory.
#[derive(Clone, Copy)]
pub(crate) enum Fault {
    /// No Push is open that could be undone.
    TooManyPops,

    /// No collection is open that could be closed.
    TooManyEnds,

    /// A minimum of usages has no maximum.
    MissingUsageMaximum,

    /// A usage has no page of its own, and none is in force.
    MissingUsagePage,

    /// A data item has no usages.
    MissingUsages,

    /// A count passes its limit.
    OutOfBounds,

    /// The item is past the limit of a budget.
    BudgetExceeded,

    /// A growth was refused.
    OutOfMemory,
}

impl From<AllocError> for Fault {
    ghost from_gives = { λ _ fault. fault ≡ OutOfMemory };

    fn from(_refused: AllocError) -> Fault {
        Fault::OutOfMemory
    }
}

impl<T: Drop> From<AllocFailed<T>> for Fault {
    ghost from_gives = { λ _ fault. fault ≡ OutOfMemory };

    fn from(_refused: AllocFailed<T>) -> Fault {
        Fault::OutOfMemory
    }
}

impl Fault {
    /// Whether it is that a data item has no usages.
    pub(crate) fn is_missing_usages(&self) -> bool
        ensures { result ≡ is_missing_usages (fault_named self.now) }
    {
        matches!(self, Fault::MissingUsages)
    }

    /// The refusal of the item at this offset.
    pub(crate) fn at(self, alloc: Global, offset: usize) -> ParserError
        ensures named { IfSome (fault_named self) (λ fault.
            IsRefusal result (refusal_at offset fault)) }
        ensures memory { fault_named self ≡ None → result ≡ ParserError.OutOfMemory }
    {
        let text = match self {
            Fault::TooManyPops => "Too many Pops, not enough Pushes",
            Fault::TooManyEnds => "Too many EndCollection",
            Fault::MissingUsageMaximum => "Missing UsageMaximum in locals",
            Fault::MissingUsagePage => "Missing UsagePage in globals",
            Fault::MissingUsages => "Missing Usages for main item",
            Fault::OutOfBounds => return ParserError::OutOfBounds,
            Fault::BudgetExceeded => return ParserError::BudgetExceeded { offset },
            Fault::OutOfMemory => return ParserError::OutOfMemory,
        };
        invalid_data(alloc, offset, text)
    }
}

/// Invalid data at this offset, with this text.
pub(crate) fn invalid_data(alloc: Global, offset: usize, text: &str) -> ParserError
    ensures { IsRefusal result (InvalidData offset text.now) }
{
    match String::from_str(alloc, text) {
        Ok(message) => ParserError::InvalidData { offset, message },
        Err(refused) => ParserError::from(refused),
    }
}
