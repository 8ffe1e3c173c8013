//! Which collections a field lies in.
ghost use Rattle.std.specs.Prelude.{◌≡◌, map, List, [], ◌∷◌, Option, Some, option_map, codes};
ghost use Rattle.hidreport.specs.CollectionItem.TheVariants as kind;
ghost use Rattle.hidreport.specs.Records.{CollectionRecord};
ghost use Rattle.hidreport.specs.Usages.{make_usage};
ghost use Rattle.hidreport_definitions.specs.Summary.{collections_around, summary, no_usages};

/// A collection has all the usages in force at it, in order, and ends them.
pub fn a_collection_has_all_its_usages()
    ensures all { collections_around (codes "05 01 09 01 09 02 a1 01 09 30 75 08 95 01 81 02")
        ≡ Some (record {
          id = 0;
          kind = kind.Application;
          usages = make_usage 1 1
              ∷ make_usage 1 2 ∷ [];
        } ∷ []) }
    ensures a_range { collections_around (codes "05 01 19 01 29 03 a1 00 09 30 75 08 95 01 81 02")
        ≡ Some (record {
          id = 0;
          kind = kind.Physical;
          usages = make_usage 1 1 ∷ make_usage 1 2
              ∷ make_usage 1 3 ∷ [];
        } ∷ []) }
    ensures ended { summary (codes "05 01 09 30 a1 00 75 08 95 01 81 02") ≡ no_usages 10 }
{}

/// An EndCollection ends the locals as each main item does.
pub fn the_end_of_a_collection_ends_the_locals()
    ensures ended { summary (codes "05 01 a1 00 09 31 c0 75 08 95 01 81 02") ≡ no_usages 11 }
{}

/// Open collections are listed outermost first, a closed one not at all; numbers count all that
/// were opened.
pub fn open_collections_come_outermost_first()
    ensures nested { collections_around (codes "05 01 a1 01 a1 00 09 30 75 08 95 01 81 02")
        ≡ Some (record { id = 0; kind = kind.Application; usages = [] }
        ∷ record { id = 1; kind = kind.Physical; usages = [] } ∷ []) }
    ensures closed { collections_around (codes "05 01 a1 01 a1 00 c0 a1 02 09 30 75 08 95 01 81 02")
        ≡ Some (record { id = 0; kind = kind.Application; usages = [] }
        ∷ record { id = 2; kind = kind.Logical; usages = [] } ∷ []) }
    ensures all_closed { collections_around (codes "05 01 a1 01 c0 09 30 75 08 95 01 81 02")
        ≡ Some [] }
{}

/// The first data byte of a Collection is its kind; without data it is Physical.
pub fn each_number_is_its_kind_of_collection()
    ensures kinds { option_map (map (λ (c : CollectionRecord). c.kind))
        (collections_around
        (codes "05 01 a1 00 a1 01 a1 02 a1 03 a1 04 a1 05 a1 06 09 30 75 08 95 01 81 02"))
        ≡ Some (kind.Physical ∷ kind.Application ∷ kind.Logical ∷ kind.Report ∷ kind.NamedArray
        ∷ kind.UsageSwitch ∷ kind.UsageModifier ∷ []) }
    ensures others { option_map (map (λ (c : CollectionRecord). c.kind))
        (collections_around (codes "05 01 a0 a1 07 a1 7f a1 80 a1 ff 09 30 75 08 95 01 81 02"))
        ≡ Some (kind.Physical ∷ kind.Reserved 7 ∷ kind.Reserved 127
        ∷ kind.VendorDefined 128 ∷ kind.VendorDefined 255 ∷ []) }
{}
