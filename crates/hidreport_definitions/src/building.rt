//! What a builder of descriptors writes: items that it asks for, and bytes that are no items.
ghost use Rattle.std.specs.Prelude.{ℕ, List, [], ◌∷◌, codes};
ghost use Rattle.hidreport.specs.DescriptorBuilder.{AreSpelled, WritesItems};
ghost use Rattle.hidreport.specs.GlobalItem.TheVariants as global;
ghost use Rattle.hidreport.specs.ItemType.{ItemType};
ghost use Rattle.hidreport.specs.ItemType.TheVariants as item;
ghost use Rattle.hidreport.specs.Spelling.{Spells};
ghost use Rattle.hidreport_definitions.specs.Hex.{hex};

/// Items that are kept and that some bytes spell, and none at all.
pub fn items_are_spelled()
    ensures two { AreSpelled (item.Global (global.UsagePage 1) ∷ item.Global global.Pop ∷ []) }
    ensures none { AreSpelled [] }
{}

/// A reserved item is spelled, too, but not kept.
pub fn items_that_are_written_are_kept()
    ensures { AreSpelled (item.Global global.Reserved ∷ []) → ⊥ }
{}

/// Some bytes spell each of the items.
pub fn some_bytes_spell_items_that_are_written()
    ensures { (x : ItemType) → AreSpelled (x ∷ []) → (bytes : List ℕ) × Spells bytes x }
{}

/// So do all behind the first.
pub fn all_items_that_are_written_are_kept()
    ensures { AreSpelled (item.Global (global.UsagePage 1) ∷ item.Global global.Reserved ∷ []) → ⊥ }
{}

/// Bytes that a builder wrote are its items; no bytes need be none.
pub fn what_is_built_is_its_items()
    ensures built { WritesItems (item.Global (global.UsagePage 1) ∷ []) (hex (codes "05 01")) }
    ensures nothing { WritesItems (item.Global (global.UsagePage 1) ∷ []) [] }
{}

/// Bytes behind the items, and bytes of another item.
pub fn other_bytes_are_not_built()
    ensures more { WritesItems [] (hex (codes "05")) → ⊥ }
    ensures another { WritesItems (item.Global (global.UsagePage 1) ∷ []) (hex (codes "05 02"))
        → ⊥ }
{}
