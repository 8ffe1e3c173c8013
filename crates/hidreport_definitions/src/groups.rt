//! What each item that makes fields is as one group.
ghost use Rattle.std.specs.Prelude.{◌≡◌, [], ◌∷◌, None, Some, Ok, codes};
ghost use Rattle.hidreport_definitions.specs.Grouped.{Choice, InGroups, Padding, Variables};
ghost use Rattle.hidreport_definitions.specs.Grouped.{groups_by_hosts, groups_by_standard, one_report, plain};
ghost use Rattle.hidreport_definitions.specs.Summary.{no_usages};

/// There is a group for each item that makes fields, whose elements are those of the item: the same
/// bits of padding are another group where an item says them otherwise.
pub fn each_item_is_a_group()
    ensures two_items { groups_by_standard
        (codes "05 01 75 08 95 01 09 30 81 02 09 31 81 02")
        ≡ one_report 16 (plain Variables 0 0 8 1 (65584 ∷ [])
        ∷ plain Variables 1 8 8 1 (65585 ∷ []) ∷ []) }
    ensures one_item { groups_by_standard (codes "05 01 75 08 95 02 09 30 09 31 81 02")
        ≡ one_report 16 (plain Variables 0 0 8 2 (65584 ∷ 65585 ∷ []) ∷ []) }
    ensures padding_of_eight { groups_by_standard (codes "75 08 95 03 81 01")
        ≡ one_report 24 (plain Padding 0 0 8 3 [] ∷ []) }
    ensures padding_of_one { groups_by_standard (codes "75 01 95 18 81 01")
        ≡ one_report 24 (plain Padding 0 0 1 24 [] ∷ []) }
    ensures padding_at_once { groups_by_standard (codes "75 18 95 01 81 01")
        ≡ one_report 24 (plain Padding 0 0 24 1 [] ∷ []) }
    ensures no_size { groups_by_standard (codes "05 01 09 30 95 01 81 02") ≡ Ok [] }
    ensures no_count { groups_by_standard (codes "05 01 09 30 75 08 95 00 81 02") ≡ Ok [] }
{}

/// A variable item's fields take a usage each of those that it names, an array's all; padding names
/// none.
pub fn fields_take_the_usages_that_their_item_names()
    ensures more { groups_by_standard (codes "05 01 75 08 95 01 09 30 09 31 09 32 81 02")
        ≡ one_report 8 (record (plain Variables 0 0 8 1 (65584 ∷ [])) { named = 3 } ∷ []) }
    ensures as_many { groups_by_standard (codes "05 01 75 08 95 03 09 30 09 31 09 32 81 02")
        ≡ one_report 24 (plain Variables 0 0 8 3 (65584 ∷ 65585 ∷ 65586 ∷ []) ∷ []) }
    ensures fewer { groups_by_standard (codes "05 01 75 08 95 03 09 30 81 02")
        ≡ one_report 24 (plain Variables 0 0 8 3 (65584 ∷ []) ∷ []) }
    ensures a_range { groups_by_standard (codes "05 09 75 01 95 02 19 01 29 03 81 02")
        ≡ one_report 2 (record (plain Variables 0 0 1 2 (589825 ∷ 589826 ∷ [])) { named = 3 }
        ∷ []) }
    ensures a_choice { groups_by_standard (codes "05 07 75 08 95 06 19 e0 29 e1 81 00")
        ≡ one_report 48 (plain Choice 0 0 8 6 (458976 ∷ 458977 ∷ []) ∷ []) }
    ensures padding { groups_by_standard (codes "05 01 75 08 95 01 09 30 81 01")
        ≡ one_report 8 (plain Padding 0 0 8 1 [] ∷ []) }
    ensures for_hosts { groups_by_hosts (codes "05 01 75 08 95 02 09 30 19 38 29 39 81 02")
        ≡ one_report 16 (record (plain Variables 0 0 8 2 (65584 ∷ 65592 ∷ [])) { named = 3 }
        ∷ []) }
    ensures refused { groups_by_standard (codes "05 01 75 08 95 01 81 02") ≡ no_usages 6 }
{}

/// Groups lie behind each other in their report, and their fields are numbered over all directions;
/// padding lies in no collection.
pub fn groups_lie_behind_each_other()
    ensures behind { groups_by_standard
        (codes "05 01 75 08 95 02 09 30 09 31 81 02 81 01 75 10 95 01 09 38 81 02")
        ≡ one_report 48 (plain Variables 0 0 8 2 (65584 ∷ 65585 ∷ []) ∷ plain Padding 2 16 8 2 []
        ∷ plain Variables 3 32 16 1 (65592 ∷ []) ∷ []) }
    ensures by_id { groups_by_standard
        (codes "05 01 75 08 95 01 85 02 09 30 81 02 85 01 09 31 81 02 85 02 09 32 81 02")
        ≡ Ok (InGroups (Some 2) 24 (plain Variables 0 8 8 1 (65584 ∷ [])
        ∷ plain Variables 2 16 8 1 (65586 ∷ []) ∷ [])
        ∷ InGroups (Some 1) 16 (plain Variables 1 8 8 1 (65585 ∷ []) ∷ []) ∷ []) }
    ensures by_direction { groups_by_standard
        (codes "05 01 75 08 95 01 09 30 b1 02 09 31 91 02 09 32 81 02")
        ≡ Ok (InGroups None 8 (plain Variables 2 0 8 1 (65586 ∷ []) ∷ [])
        ∷ InGroups None 8 (plain Variables 1 0 8 1 (65585 ∷ []) ∷ [])
        ∷ InGroups None 8 (plain Variables 0 0 8 1 (65584 ∷ []) ∷ []) ∷ []) }
    ensures inside { groups_by_standard
        (codes "05 01 75 08 95 01 a1 01 a1 00 09 30 81 02 81 01 c0 09 31 81 02 c0")
        ≡ one_report 24 (record (plain Variables 0 0 8 1 (65584 ∷ [])) { depth = 2 }
        ∷ plain Padding 1 8 8 1 []
        ∷ record (plain Variables 2 16 8 1 (65585 ∷ [])) { depth = 1 } ∷ []) }
{}
