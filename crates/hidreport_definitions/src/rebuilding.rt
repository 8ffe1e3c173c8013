//! Descriptors written anew, and what they mean.
ghost use Rattle.std.specs.Prelude.{◌≡◌, List, [], ◌∷◌, Ok, Err, codes};
ghost use Rattle.hidreport.specs.ItemAnswer.{Insufficient};
ghost use Rattle.hidreport_definitions.specs.Summary.{summary, no_push, input_fields};
ghost use Rattle.hidreport_definitions.specs.Rebuilt.{again, kept_bytes};

/// An item of a reserved kind is left out, every other is written in its shortest spelling with
/// data.
pub fn kept_items_are_written_shortly()
    ensures shorter { again (codes "06 01 00 c4 0a 30 00 fc 17 00 00 00 00 a0 c1 55")
        ≡ kept_bytes (codes "05 01 09 30 15 00 a1 00 c0") }
    ensures page_of_its_own { again (codes "0b 30 00 00 00") ≡ kept_bytes (codes "0b 30 00 00 00") }
    ensures idle_items_stay { again (codes "39 01 a9 01 a4 b4 f9 01")
        ≡ kept_bytes (codes "39 01 a9 01 a4 b4") }
    ensures nothing_kept { again (codes "c4 fc") ≡ kept_bytes [] }
    ensures no_item { again (codes "03") ≡ Err (0, Insufficient) }
    ensures no_bytes { again [] ≡ Err (0, Insufficient) }
    ensures signs { again (codes "16 ff ff 26 ff 00 27 80 00 00 00")
        ≡ kept_bytes (codes "15 ff 26 ff 00 26 80 00") }
{}

/// Long items are left out; one that is cut short is a fault.
pub fn long_items_are_left_out()
    ensures alone { again (codes "fe 02 01 c0 c0") ≡ kept_bytes [] }
    ensures without_data { again (codes "fe 00 7f") ≡ kept_bytes [] }
    ensures in_front { again (codes "fe 03 f0 01 02 03 05 01") ≡ kept_bytes (codes "05 01") }
    ensures between { again (codes "05 01 fe 01 00 aa b4") ≡ kept_bytes (codes "05 01 b4") }
    ensures no_length { again (codes "fe") ≡ Err (0, Insufficient) }
    ensures no_tag { again (codes "fe 01") ≡ Err (0, Insufficient) }
    ensures cut_data { again (codes "05 01 fe 02 01 c0") ≡ Err (2, Insufficient) }
{}

/// Both read as the same reports, or have the same fault at the same item, each at its offset.
pub fn the_meaning_stays()
    ensures fault_before { summary (codes "06 01 00 b4") ≡ no_push 3 }
    ensures fault_behind { summary (codes "05 01 b4") ≡ no_push 2 }
    ensures long_item_before { summary (codes "05 01 fe 01 00 aa b4") ≡ no_push 6 }
    ensures reserved_among_the_locals { summary (codes "05 01 75 08 95 01 09 30 f9 01 c4 fc 81 02")
        ≡ input_fields 8 (0x00010030 ∷ []) }
    ensures rebuilt { again (codes "05 01 75 08 95 01 09 30 f9 01 c4 fc 81 02")
        ≡ kept_bytes (codes "05 01 75 08 95 01 09 30 81 02") }
    ensures without_them { summary (codes "05 01 75 08 95 01 09 30 81 02")
        ≡ input_fields 8 (0x00010030 ∷ []) }
{}
