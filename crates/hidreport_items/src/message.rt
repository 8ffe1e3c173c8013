//! The messages of faults.
ghost use Rattle.std.specs.Prelude.{◌≡◌, ◌-◌, ◌%◌, Err, IfOk, MatchResult, string_bytes};
ghost use Rattle.hidreport_items.specs.Answer.{FailsWithoutMemory, GivesWithoutMemory, IsFault};
ghost use Rattle.hidreport_items.specs.ItemFaults.{told_answer, told_fault};
ghost use Rattle.hidreport_items.specs.Messages.{long_message, not_long_message, size_message, tag_message};
ghost use Rattle.hidreport_items.specs.Spelling.{prefix};

use crate::error::HidError;
use crate::item_fault::ItemFault;
use std::alloc::{AllocError, Global};

/// What was read, or the error with a message that says why nothing was.
///
/// # Errors
///
/// - `InsufficientData`: the fault is `TooFew`.
/// - `InvalidData`: it is another; the message says which.
/// - `OutOfMemory`: memory for the message is refused.
pub fn with_message<T: Drop>(alloc: Global, read: Result<T, ItemFault>) -> Result<T, HidError>
    ensures { GivesWithoutMemory result (told_answer read) }
{
    match read {
        Ok(item) => Ok(item),
        Err(fault) => Err(error_of(alloc, fault)),
    }
}

/// The error that says why nothing was read: `InsufficientData` for `TooFew`, else `InvalidData`
/// with a message, or `OutOfMemory` where memory for the message is refused.
pub fn error_of(alloc: Global, fault: ItemFault) -> HidError
    ensures { FailsWithoutMemory {A = Unit {0}} result (Err (told_fault fault)) }
{
    match fault {
        ItemFault::TooFew => HidError::InsufficientData,
        ItemFault::Length(length) => size_fault(alloc, length),
        ItemFault::Tag(header) => tag_fault(alloc, header),
        ItemFault::Long => long_fault(alloc),
        ItemFault::Short => not_long_fault(alloc),
    }
}

/// The refusal of data of a length that no short item has.
fn size_fault(alloc: Global, length: usize) -> HidError
    ensures { IsFault result (size_message length) }
{
    invalid_data(size_text(alloc, length))
}

/// The refusal of a main item's header whose tag isn't one of the five.
fn tag_fault(alloc: Global, header: u8) -> HidError
    ensures { IsFault result (tag_message (prefix header)) }
{
    invalid_data(tag_text(alloc, header & 0xfc))
}

/// The refusal of a long item where a short one is asked for.
fn long_fault(alloc: Global) -> HidError
    ensures { IsFault result long_message }
{
    invalid_data(String::from_str(alloc, "Item is a long item"))
}

/// The refusal of a short item where a long one is asked for.
fn not_long_fault(alloc: Global) -> HidError
    ensures { IsFault result not_long_message }
{
    invalid_data(String::from_str(alloc, "Item is not a long item"))
}

/// The error `InvalidData` with this message, or `OutOfMemory` where memory for the message was
/// refused.
pub fn invalid_data(message: Result<String, AllocError>) -> HidError
    ensures { MatchResult message
        (λ t. IsFault result (string_bytes t))
        (λ _. result ≡ HidError.OutOfMemory) }
{
    match message {
        Ok(message) => HidError::InvalidData { message },
        Err(refused) => HidError::from(refused),
    }
}

fn size_text(alloc: Global, length: usize) -> Result<String, AllocError>
    ensures { IfOk result (λ t. string_bytes t ≡ size_message length) }
{
    format!(in alloc; "Size {length} cannot happen")
}

fn tag_text(alloc: Global, tag: u8) -> Result<String, AllocError>
    ensures { IfOk result (λ t. string_bytes t ≡ tag_message tag) }
{
    format!(in alloc; "Invalid item tag 0b{tag:06b}")
}
