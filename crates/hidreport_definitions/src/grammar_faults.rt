//! Each part of what it is that bytes have a fault, and of what stands at the front of them.
ghost use Rattle.std.specs.Prelude.{◌≡◌, ◌+◌, ◌≤◌, ℕ, List, [], ◌∷◌, ◌++◌, length, take, Err, String, codes, string_bytes};
ghost use Rattle.std.specs.Global.{Global};
ghost use Rattle.hidreport_lists.specs.FrontItem.{AreAtFront, IsAtFront};
ghost use Rattle.hidreport_lists.specs.declared.front.FrontParts.{FrontParts};
ghost use Rattle.hidreport.specs.Canonical.{IsCanonical};
ghost use Rattle.hidreport.specs.GlobalItem.TheVariants as global;
ghost use Rattle.hidreport.specs.ItemAnswer.{Insufficient};
ghost use Rattle.hidreport.specs.Messages.{grammar_message};
ghost use Rattle.hidreport.specs.ItemType.{ItemType};
ghost use Rattle.hidreport.specs.ItemType.TheVariants as item;
ghost use Rattle.hidreport.specs.Itemising.{AreRead, IsFaultAt, IsGrammarFault, Reads, all_bytes, front_item, item_at};
ghost use Rattle.hidreport.specs.ParserError.TheVariants as errors;
ghost use Rattle.hidreport.specs.Rebuilt.{AreCanonical};
ghost use Rattle.hidreport.specs.Spelling.{item_of, read_as};
ghost use Rattle.hidreport_definitions.specs.Cut.{another_page, page_at};
ghost use Rattle.hidreport_definitions.specs.Hex.{hex};

/// Behind a page a header lacks its data: that is its fault, and no other is.
pub fn bytes_have_one_fault()
    ensures cut { IsFaultAt item_of (hex (codes "05 01 75")) 2 Insufficient }
    ensures at_the_page { IsFaultAt item_of (hex (codes "05 01 75")) 0 Insufficient → ⊥ }
    ensures whole { IsFaultAt item_of (hex (codes "05 01")) 0 Insufficient → ⊥ }
{}

/// What the parts of a fault say of the items before it, the header, and what stands behind that.
pub fn a_fault_stands_behind_items()
    ensures whole { (bytes : List ℕ) (at : ℕ) (law : IsFaultAt item_of bytes at Insufficient)
        → all_bytes law.entries ++ law.header ∷ law.after ≡ bytes }
    ensures each { (bytes : List ℕ) (at : ℕ) (law : IsFaultAt item_of bytes at Insufficient)
        → AreRead item_of law.entries }
    ensures starts { (bytes : List ℕ) (at : ℕ) (law : IsFaultAt item_of bytes at Insufficient)
        → length (all_bytes law.entries) ≡ at }
    ensures none { (bytes : List ℕ) (at : ℕ) (law : IsFaultAt item_of bytes at Insufficient)
        → (n : ℕ) (x : ItemType) → Reads item_of (take n (law.header ∷ law.after)) x → ⊥ }
    ensures why { (bytes : List ℕ) (at : ℕ) (law : IsFaultAt item_of bytes at Insufficient)
        → item_at item_of law.header law.after ≡ Err Insufficient }
{}

/// Data that is refused is a fault of the bytes with its message; no other error is.
pub fn refused_data_is_a_fault_of_the_bytes()
    ensures fault { (bytes : List ℕ) (message : String Global)
        (law : IsGrammarFault item_of bytes (errors.InvalidData 0 message))
        → IsFaultAt item_of bytes 0 law.0 }
    ensures message { (bytes : List ℕ) (message : String Global)
        (law : IsGrammarFault item_of bytes (errors.InvalidData 0 message))
        → string_bytes message ≡ grammar_message law.0 }
    ensures bounds { IsGrammarFault item_of [] errors.OutOfBounds → ⊥ }
    ensures report_id { IsGrammarFault item_of [] errors.MismatchingReportId → ⊥ }
    ensures budget { IsGrammarFault item_of [] (errors.BudgetExceeded 0) → ⊥ }
{}

/// The item at the front is spelled by as many bytes as it says, and they are there.
pub fn an_item_stands_at_the_front()
    ensures page { IsAtFront (record { size = 2; item = item.Global (global.UsagePage 1) })
        (hex (codes "05 01 75")) }
    ensures longer { IsAtFront (record { size = 3; item = item.Global (global.UsagePage 1) })
        (hex (codes "05 01")) → ⊥ }
    ensures another { IsAtFront (record { size = 2; item = item.Global (global.UsagePage 2) })
        (hex (codes "05 01 75")) → ⊥ }
{}

/// The header and the data of the item at the front are there, and it is the item that they spell.
pub fn parts_stand_at_the_front()
    ensures there { (parts : FrontParts) (bytes : List ℕ) (law : AreAtFront parts bytes)
        → 1 + length parts.data.now ≤ length bytes }
    ensures spelled { (parts : FrontParts) (bytes : List ℕ) (law : AreAtFront parts bytes)
        → front_item item_of bytes ≡ read_as
        (λ x. record { bytes = take (1 + length parts.data.now) bytes; item = x })
        (item_of parts.header parts.data.now) }
{}

/// Each of several items stands in its canonical spelling.
pub fn each_of_several_items_is_canonical()
    ensures first { AreCanonical another_page → ⊥ }
    ensures second { AreCanonical (page_at 0 1 ∷ another_page) → ⊥ }
{}
