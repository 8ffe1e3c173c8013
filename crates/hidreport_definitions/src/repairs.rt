//! Laws of a repair: repaired descriptors that keep them, and some that break them.
ghost use Rattle.std.specs.Prelude.{◌≡◌, negsuc, pos, List, [], ◌∷◌, codes};
ghost use Rattle.hidreport.specs.GlobalItem.TheVariants as global;
ghost use Rattle.hidreport.specs.ItemType.{ItemType};
ghost use Rattle.hidreport.specs.ItemType.TheVariants as item;
ghost use Rattle.hidreport_fields.specs.declared.field.data_item.Direction.TheVariants.{Input};
ghost use Rattle.hidreport.specs.Options.{default_options, globals_only_options, reading_of};
ghost use Rattle.hidreport.specs.Places.{start};
ghost use Rattle.hidreport.specs.RepairLaws.{IsOneItem, IsRepairOf, KeepsBits, SamePlaces};
ghost use Rattle.hidreport_definitions.specs.Hex.{hex};
ghost use Rattle.hidreport_definitions.specs.Repairs.{as_hid_core, by_globals, fields_by, input, left_out_at, output, padded_at, repaired_to};

/// Named changes, wherever they stand, and none at all.
pub fn a_repair_names_its_changes()
    ensures none { IsRepairOf (hex (codes "05 01")) (repaired_to (codes "05 01") []) }
    ensures one { IsRepairOf (hex (codes "81 02"))
        (repaired_to (codes "81 03") (padded_at 0 (codes "81 02") (codes "81 03") ∷ [])) }
    ensures between { IsRepairOf (hex (codes "05 01 75 08 95 01 81 02 09 30 81 02"))
        (repaired_to (codes "05 01 75 08 95 01 81 03 09 30 81 02")
        (padded_at 6 (codes "81 02") (codes "81 03") ∷ [])) }
    ensures left_out { IsRepairOf (hex (codes "05 01 d0 a4"))
        (repaired_to (codes "05 01 a4") (left_out_at 2 (codes "d0") ∷ [])) }
{}

/// What no change names stands as it stood.
pub fn bytes_that_no_change_names_stay()
    ensures no_change { IsRepairOf (hex (codes "81 02")) (repaired_to (codes "81 03") []) → ⊥ }
    ensures dropped { IsRepairOf (hex (codes "05 01 81 02")) (repaired_to (codes "05 01") []) → ⊥ }
    ensures another { IsRepairOf (hex (codes "81 02 91 02")) (repaired_to (codes "81 03 91 03")
        (padded_at 0 (codes "81 02") (codes "81 03") ∷ [])) → ⊥ }
{}

/// A change names what stood at its offset, one item, and what is written there; changes come in
/// order.
pub fn a_change_is_what_it_says()
    ensures other_bytes { IsRepairOf (hex (codes "81 02"))
        (repaired_to (codes "81 03") (padded_at 0 (codes "81 00") (codes "81 03") ∷ [])) → ⊥ }
    ensures other_offset { IsRepairOf (hex (codes "05 01 81 02"))
        (repaired_to (codes "05 01 81 03") (padded_at 0 (codes "81 02") (codes "81 03") ∷ []))
        → ⊥ }
    ensures not_written { IsRepairOf (hex (codes "81 02"))
        (repaired_to (codes "81 02") (padded_at 0 (codes "81 02") (codes "81 03") ∷ [])) → ⊥ }
    ensures all_at_once { IsRepairOf (hex (codes "05 01 81 02")) (repaired_to (codes "05 01 81 03")
        (padded_at 0 (codes "05 01 81 02") (codes "05 01 81 03") ∷ [])) → ⊥ }
    ensures reversed { IsRepairOf (hex (codes "81 02 91 02")) (repaired_to (codes "81 03 91 03")
        (padded_at 2 (codes "91 02") (codes "91 03") ∷ padded_at 0 (codes "81 02") (codes "81 03")
        ∷ [])) → ⊥ }
{}

/// An item is a header and at most what follows it.
pub fn one_item_is_a_header_and_its_data()
    ensures whole { IsOneItem (hex (codes "05 01")) }
    ensures cut { IsOneItem (hex (codes "05")) }
    ensures nothing { IsOneItem [] → ⊥ }
    ensures more { IsOneItem (hex (codes "05 01 02")) → ⊥ }
{}

/// Items lie in the same places whatever their flags and maxima are, by both readings of a Push.
pub fn flags_and_maxima_move_no_field()
    ensures flags { SamePlaces default_options (fields_by 8 1 (input 2) (input 2 ∷ []))
        (fields_by 8 1 (input 3) (input 2 ∷ [])) }
    ensures maximum { SamePlaces globals_only_options
        (item.Global (global.LogicalMaximum (negsuc 0)) ∷ fields_by 8 1 (input 2) [])
        (item.Global (global.LogicalMaximum (pos 255)) ∷ fields_by 8 1 (input 2) []) }
{}

/// Another direction, size, count or report id moves fields, also those of later items; so do as
/// many bits in another number of fields, and what is another item alone.
pub fn other_items_move_fields()
    ensures direction { SamePlaces default_options (fields_by 8 1 (input 2) [])
        (fields_by 8 1 (output 2) []) → ⊥ }
    ensures size { SamePlaces default_options (fields_by 8 1 (input 2) [])
        (fields_by 16 1 (input 2) []) → ⊥ }
    ensures count { SamePlaces globals_only_options (fields_by 8 1 (input 2) [])
        (fields_by 8 2 (input 2) []) → ⊥ }
    ensures report { SamePlaces default_options
        (item.Global (global.ReportId 1) ∷ fields_by 8 1 (input 2) [])
        (item.Global (global.ReportId 2) ∷ fields_by 8 1 (input 2) []) → ⊥ }
    ensures later { SamePlaces default_options
        (fields_by 8 1 (input 3) (fields_by 8 1 (input 2) []))
        (fields_by 4 1 (input 3) (fields_by 8 1 (input 2) [])) → ⊥ }
    ensures as_many_bits { SamePlaces default_options (fields_by 8 2 (input 2) [])
        (fields_by 16 1 (input 2) []) → ⊥ }
    ensures no_fields { SamePlaces globals_only_options (input 2 ∷ []) (output 2 ∷ []) → ⊥ }
    ensures fewer { SamePlaces default_options (input 2 ∷ []) [] → ⊥ }
    ensures begins { (others : List ItemType)
        → SamePlaces default_options (fields_by 8 1 (input 2) (input 2 ∷ [])) others
        → start (reading_of default_options others) Input others 3 ≡ 8 }
{}

/// What becomes padding keeps its bits, and so do the fields behind it.
pub fn padding_keeps_its_bits()
    ensures { KeepsBits as_hid_core (hex (codes "05 01 75 08 95 01 81 02 09 30 81 02"))
        (repaired_to (codes "05 01 75 08 95 01 81 03 09 30 81 02")
        (padded_at 6 (codes "81 02") (codes "81 03") ∷ [])) }
{}

/// Padding behind a Pop lies where it lay, by each reading: the size that was set inside doesn't
/// count there.
pub fn padding_behind_a_pop_keeps_its_bits()
    ensures locals { KeepsBits as_hid_core (hex (codes "75 08 95 01 a4 75 10 b4 81 02"))
        (repaired_to (codes "75 08 95 01 a4 75 10 b4 81 03")
        (padded_at 8 (codes "81 02") (codes "81 03") ∷ [])) }
    ensures globals { KeepsBits by_globals (hex (codes "75 08 95 01 a4 75 10 b4 81 02"))
        (repaired_to (codes "75 08 95 01 a4 75 10 b4 81 03")
        (padded_at 8 (codes "81 02") (codes "81 03") ∷ [])) }
{}

/// A Pop that became a Push moves the fields behind it, by each reading.
pub fn a_pop_that_is_lost_moves_fields()
    ensures locals { KeepsBits as_hid_core (hex (codes "75 08 95 01 a4 75 10 b4 81 03"))
        (repaired_to (codes "75 08 95 01 a4 75 10 a4 81 03")
        (padded_at 7 (codes "b4") (codes "a4") ∷ [])) → ⊥ }
    ensures globals { KeepsBits by_globals (hex (codes "75 08 95 01 a4 75 10 b4 81 03"))
        (repaired_to (codes "75 08 95 01 a4 75 10 a4 81 03")
        (padded_at 7 (codes "b4") (codes "a4") ∷ [])) → ⊥ }
{}

/// Bytes that hid-core doesn't read keep nothing, nothing is no descriptor, and another direction
/// or another size is another place.
pub fn bits_can_be_lost()
    ensures not_read { KeepsBits as_hid_core (hex (codes "81"))
        (repaired_to (codes "81 00") []) → ⊥ }
    ensures nothing { KeepsBits as_hid_core (hex (codes "d0"))
        (repaired_to [] (left_out_at 0 (codes "d0") ∷ [])) → ⊥ }
    ensures direction { KeepsBits as_hid_core (hex (codes "81 03"))
        (repaired_to (codes "91 03") (padded_at 0 (codes "81 03") (codes "91 03") ∷ [])) → ⊥ }
    ensures size { KeepsBits as_hid_core (hex (codes "75 08 95 01 81 03"))
        (repaired_to (codes "75 10 95 01 81 03")
        (padded_at 0 (codes "75 08") (codes "75 10") ∷ [])) → ⊥ }
{}
