//! Each part of what it is that bytes spell an item, or are read as one: bytes that break it.
ghost use Rattle.std.specs.Prelude.{[], ◌∷◌};
ghost use Rattle.hidreport.specs.GlobalItem.TheVariants as global;
ghost use Rattle.hidreport.specs.ItemType.TheVariants as item;
ghost use Rattle.hidreport.specs.Itemising.{AreAtOffsets, AreRead, Reads};
ghost use Rattle.hidreport.specs.Spelling.{AreBytes, Spells, item_of};
ghost use Rattle.hidreport.specs.WithoutLong.{AreReadShort, ReadsShort};
ghost use Rattle.hidreport_definitions.specs.Cut.{another_page, page_and_pop, page_at, pop_at};

/// No bytes spell no item.
pub fn no_bytes_spell_no_item()
    ensures spelled { Spells [] item.Long → ⊥ }
    ensures read { Reads item_of [] item.Long → ⊥ }
    ensures short { ReadsShort item_of [] item.Long → ⊥ }
{}

/// What spells an item are bytes.
pub fn bytes_that_spell_are_bytes()
    ensures alone { AreBytes (256 ∷ []) → ⊥ }
    ensures spelled { Spells (0x05 ∷ 256 ∷ []) (item.Global (global.UsagePage 256)) → ⊥ }
    ensures read { Reads item_of (0x05 ∷ 256 ∷ []) (item.Global (global.UsagePage 256)) → ⊥ }
    ensures short { ReadsShort item_of (0x05 ∷ 256 ∷ []) (item.Global (global.UsagePage 256)) → ⊥ }
{}

/// They are as many as the header says.
pub fn a_header_says_how_many_bytes_follow()
    ensures spelled { Spells (0x05 ∷ 1 ∷ 0 ∷ []) (item.Global (global.UsagePage 1)) → ⊥ }
    ensures read { Reads item_of (0x05 ∷ 1 ∷ 0 ∷ []) (item.Global (global.UsagePage 1)) → ⊥ }
    ensures short { ReadsShort item_of (0x05 ∷ 1 ∷ 0 ∷ []) (item.Global (global.UsagePage 1)) → ⊥ }
{}

/// They are read as this item.
pub fn bytes_spell_one_item()
    ensures spelled { Spells (0x05 ∷ 1 ∷ []) (item.Global (global.UsagePage 2)) → ⊥ }
    ensures read { Reads item_of (0x05 ∷ 1 ∷ []) (item.Global (global.UsagePage 2)) → ⊥ }
    ensures short { ReadsShort item_of (0x05 ∷ 1 ∷ []) (item.Global (global.UsagePage 2)) → ⊥ }
{}

/// The header of a long item is that of no short one, though two bytes may follow either.
pub fn a_long_header_is_not_short()
    ensures { ReadsShort item_of (0xfe ∷ 0 ∷ 0 ∷ []) item.Long → ⊥ }
{}

/// Each of several items is read, and stands where the one before it ends.
pub fn each_of_several_items_is_read()
    ensures first { AreRead item_of another_page → ⊥ }
    ensures second { AreRead item_of (pop_at 0 ∷ another_page) → ⊥ }
    ensures first_short { AreReadShort item_of another_page → ⊥ }
    ensures second_short { AreReadShort item_of (pop_at 0 ∷ another_page) → ⊥ }
    ensures first_offset { AreAtOffsets 1 page_and_pop → ⊥ }
    ensures second_offset { AreAtOffsets 0 (page_at 0 1 ∷ pop_at 3 ∷ []) → ⊥ }
{}
