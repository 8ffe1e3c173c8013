//! Laws of the definitions: a descriptor's bytes are one list of items, or have one fault.
ghost use Rattle.std.specs.Prelude.{◌≡◌, ◌≢◌, ◌⊎◌, ℕ, List, [], Ok, Err};
ghost use Rattle.hidreport_items.specs.Answer.{GrammarFault};
ghost use Rattle.hidreport_items.specs.Spelling.{AreBytes};
ghost use Rattle.hidreport_lists.specs.Entry.{Entry};
ghost use Rattle.hidreport_lists.specs.Itemising.{IsFaultAt, Itemises, Reader, itemise};

/// Bytes, of which there are some, are items to their end, or items up to a fault; whatever reads
/// the items, there is one way to cut them, and one fault.
pub fn bytes_are_items_or_have_a_fault()
    ensures either { (read : Reader) (bytes : List ℕ) → AreBytes bytes → bytes ≢ []
        → ((entries : List Entry) × Itemises read bytes entries)
        ⊎ ((offset : ℕ) × (fault : GrammarFault) × IsFaultAt read bytes offset fault) }
    ensures one_way { (read : Reader) (bytes : List ℕ) (entries : List Entry)
        → Itemises read bytes entries → itemise read bytes ≡ Ok entries }
    ensures one_fault { (read : Reader) (bytes : List ℕ) (offset : ℕ) (fault : GrammarFault)
        → IsFaultAt read bytes offset fault → itemise read bytes ≡ Err (offset, fault) }
{}
