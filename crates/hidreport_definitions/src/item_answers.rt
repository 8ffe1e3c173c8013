//! What the answer of a reader of items says: answers that say something else.
ghost use Rattle.std.specs.Prelude.{◌≡◌, ℕ, List, [], ◌∷◌, Ok, Err, String, Vec, codes, string_bytes};
ghost use Rattle.std.specs.Global.{Global};
ghost use Rattle.hidreport.specs.HidError.TheVariants as errors;
ghost use Rattle.hidreport.specs.ItemAnswer.{Fails, FailsWithoutMemory, Gives, GivesBy, GivesWithoutMemory, HasMessage, Insufficient, Invalid, IsFault, Writes};

/// An error is the fault of the bytes; want of memory says nothing of them.
pub fn an_error_is_the_fault_of_the_bytes()
    ensures memory { Fails {A = ℕ} errors.OutOfMemory (Ok 0) }
    ensures no_message { (message : String Global)
        → Fails {A = ℕ} (errors.InvalidData message) (Err Insufficient) → ⊥ }
    ensures enough { Fails {A = ℕ} errors.InsufficientData (Ok 0) → ⊥ }
    ensures other_item { Gives {A = ℕ} (Ok 1) (Ok 2) → ⊥ }
    ensures item { Gives {A = ℕ} (Err errors.InsufficientData) (Ok 2) → ⊥ }
    ensures other_view { GivesBy (λ (n : ℕ). n) (Ok 1) (Ok 2) → ⊥ }
    ensures item_by_view { GivesBy (λ (n : ℕ). n) (Err errors.InsufficientData) (Ok 2) → ⊥ }
{}

/// Where only a message takes memory, want of memory says that there is one.
pub fn want_of_memory_is_that_of_a_message()
    ensures message { HasMessage {A = ℕ} (Err (Invalid (codes "a"))) }
    ensures an_item_has_none { HasMessage {A = ℕ} (Ok 0) → ⊥ }
    ensures too_few_have_none { HasMessage {A = ℕ} (Err Insufficient) → ⊥ }
    ensures no_message { FailsWithoutMemory {A = ℕ} errors.OutOfMemory (Err Insufficient) → ⊥ }
    ensures another { (message : String Global)
        → FailsWithoutMemory {A = ℕ} (errors.InvalidData message) (Err Insufficient) → ⊥ }
    ensures enough { FailsWithoutMemory {A = ℕ} errors.InsufficientData (Ok 0) → ⊥ }
    ensures other_item { GivesWithoutMemory {A = ℕ} (Ok 1) (Ok 2) → ⊥ }
    ensures item { GivesWithoutMemory {A = ℕ} (Err errors.OutOfMemory) (Ok 2) → ⊥ }
{}

/// Bytes that are written are those of the definition, unless memory is refused.
pub fn other_bytes_are_not_written()
    ensures bytes { (written : Vec ℕ Global) → Writes (Ok written) (codes "a")
        → written.items ≡ codes "a" }
    ensures refused { Writes (Err errors.InsufficientData) [] → ⊥ }
{}

/// A fault has this message.
pub fn a_fault_has_its_message()
    ensures message { (message : String Global) → IsFault (errors.InvalidData message) (codes "a")
        → string_bytes message ≡ codes "a" }
    ensures too_few { IsFault errors.InsufficientData [] → ⊥ }
{}
