//! Each part of what it is that bytes are these items: bytes and items that break it.
ghost use Rattle.std.specs.Prelude.{[], ◌∷◌};
ghost use Rattle.hidreport.specs.Itemising.{Itemises};
ghost use Rattle.hidreport.specs.Spelling.{item_of};
ghost use Rattle.hidreport.specs.WithoutLong.{ItemisesShort};
ghost use Rattle.hidreport_definitions.specs.Cut.{another_page, begun_late, long_alone, page_and_pop, pop_late};

/// Bytes that are a short and a bare item, and those of a long one.
pub fn bytes_are_items()
    ensures short { Itemises item_of (0x05 ∷ 0x01 ∷ 0xb4 ∷ []) page_and_pop }
    ensures long { Itemises item_of (0xfe ∷ 1 ∷ 0xf0 ∷ 0xc0 ∷ []) long_alone }
{}

/// No bytes are no items.
pub fn no_bytes_are_no_items()
    ensures any { Itemises item_of [] [] → ⊥ }
    ensures short { ItemisesShort item_of [] [] → ⊥ }
{}

/// A byte behind the items belongs to none.
pub fn items_have_all_bytes()
    ensures any { Itemises item_of (0x05 ∷ 0x01 ∷ 0xb4 ∷ 0xc0 ∷ []) page_and_pop → ⊥ }
    ensures short { ItemisesShort item_of (0x05 ∷ 0x01 ∷ 0xb4 ∷ 0xc0 ∷ []) page_and_pop → ⊥ }
{}

/// Each item is what its bytes spell.
pub fn each_item_is_spelled_by_its_bytes()
    ensures any { Itemises item_of (0x05 ∷ 0x01 ∷ []) another_page → ⊥ }
    ensures short { ItemisesShort item_of (0x05 ∷ 0x01 ∷ []) another_page → ⊥ }
{}

/// The first item stands at 0, each other where the one before it ends.
pub fn items_stand_one_behind_the_other()
    ensures first { Itemises item_of (0x05 ∷ 0x01 ∷ 0xb4 ∷ []) begun_late → ⊥ }
    ensures second { Itemises item_of (0x05 ∷ 0x01 ∷ 0xb4 ∷ []) pop_late → ⊥ }
    ensures first_short { ItemisesShort item_of (0x05 ∷ 0x01 ∷ 0xb4 ∷ []) begun_late → ⊥ }
    ensures second_short { ItemisesShort item_of (0x05 ∷ 0x01 ∷ 0xb4 ∷ []) pop_late → ⊥ }
{}

/// A long item is no short one.
pub fn a_long_item_is_not_short()
    ensures { ItemisesShort item_of (0xfe ∷ 1 ∷ 0xf0 ∷ 0xc0 ∷ []) long_alone → ⊥ }
{}
