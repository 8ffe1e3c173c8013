//! Each part of what a canonical spelling is: bytes that spell the item, but break it.
ghost use Rattle.std.specs.Prelude.{pos, [], ◌∷◌};
ghost use Rattle.hidreport.specs.Canonical.{IsCanonical};
ghost use Rattle.hidreport.specs.Flags.{flags_of};
ghost use Rattle.hidreport.specs.GlobalItem.TheVariants as global;
ghost use Rattle.hidreport.specs.ItemType.TheVariants as item;
ghost use Rattle.hidreport.specs.MainItem.TheVariants as main;
ghost use Rattle.hidreport.specs.Spelling.{Spells};

/// The header alone spells the end of a collection.
pub fn a_header_alone_is_canonical()
    ensures { IsCanonical (0xc0 ∷ []) (item.Main main.EndCollection) }
{}

/// Bytes that spell another item are no spelling of this one.
pub fn another_item_is_not_canonical()
    ensures { IsCanonical (0x25 ∷ 6 ∷ []) (item.Global (global.LogicalMaximum (pos 5))) → ⊥ }
{}

/// The end of a collection has no data.
pub fn data_behind_a_bare_header_is_not_canonical()
    ensures spells { Spells (0xc1 ∷ 0 ∷ []) (item.Main main.EndCollection) }
    ensures breaks { IsCanonical (0xc1 ∷ 0 ∷ []) (item.Main main.EndCollection) → ⊥ }
{}

/// A bound has data, also where it is 0.
pub fn a_bound_without_data_is_not_canonical()
    ensures spells { Spells (0x24 ∷ []) (item.Global (global.LogicalMaximum (pos 0))) }
    ensures breaks { IsCanonical (0x24 ∷ []) (item.Global (global.LogicalMaximum (pos 0))) → ⊥ }
{}

/// A number that fits in one byte isn't written in two.
pub fn a_spelling_that_can_be_shorter_is_not_canonical()
    ensures spells { Spells (0x26 ∷ 5 ∷ 0 ∷ []) (item.Global (global.LogicalMaximum (pos 5))) }
    ensures breaks { IsCanonical (0x26 ∷ 5 ∷ 0 ∷ [])
        (item.Global (global.LogicalMaximum (pos 5))) → ⊥ }
{}

/// Of the bits that say nothing each is 0: an Input has no flag 7.
pub fn a_spelling_of_a_larger_number_is_not_canonical()
    ensures spells { Spells (0x81 ∷ 0x80 ∷ []) (item.Main (main.Input (flags_of 0))) }
    ensures breaks { IsCanonical (0x81 ∷ 0x80 ∷ []) (item.Main (main.Input (flags_of 0))) → ⊥ }
{}
