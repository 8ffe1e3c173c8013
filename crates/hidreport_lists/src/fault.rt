//! The errors of items that can't be read.
ghost use Rattle.std.specs.Prelude.{◌≡◌, IfSome, MatchResult, None, OnOk, string_bytes};
ghost use Rattle.hidreport_lists.specs.Answer.{IsInvalidAt, fault_of};
ghost use Rattle.hidreport_lists.specs.Messages.{grammar_message};

use crate::error::ParserError;
use hidreport_items::HidError;
use std::alloc::{AllocError, Global};

/// The refusal at an offset of an item that can't be read, for this reason.
pub(crate) fn fault_at(alloc: Global, offset: usize, fault: HidError) -> ParserError
    ensures named { IfSome (fault_of fault) (λ f. IsInvalidAt result offset (grammar_message f)) }
    ensures memory { fault_of fault ≡ None → result ≡ ParserError.OutOfMemory }
{
    match message(alloc, fault) {
        Ok(message) => ParserError::InvalidData { offset, message },
        Err(refused) => ParserError::from(refused),
    }
}

fn message(alloc: Global, fault: HidError) -> Result<String, AllocError>
    ensures named { IfSome (fault_of fault) (λ f.
        MatchResult result (λ t. string_bytes t ≡ grammar_message f) (λ _. Unit {0})) }
    ensures memory { fault_of fault ≡ None → OnOk result (Unit {0} → ⊥) }
{
    match fault {
        HidError::InvalidData { message } => format!(in alloc; "Invalid data: {message}"),
        HidError::InsufficientData => String::from_str(alloc, "Insufficient data"),
        HidError::OutOfMemory => Err(AllocError),
    }
}
