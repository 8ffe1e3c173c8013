//! Laws that hold of every descriptor, applied to one, by all options and under all limits.
ghost use Rattle.std.specs.Prelude.{◌≡◌, ℕ, List, [], ◌∷◌, ◌++◌, Ok, codes};
ghost use Rattle.hidreport.specs.Entry.{Entry};
ghost use Rattle.hidreport.specs.GlobalItem.TheVariants as global;
ghost use Rattle.hidreport.specs.ItemType.{ItemType};
ghost use Rattle.hidreport.specs.ItemType.TheVariants as item;
ghost use Rattle.hidreport.specs.Laws.{AgreeWithoutPush, KeptItemsMean, RebuiltBytesMean, SegmentsAreIdle, parse_any};
ghost use Rattle.hidreport.specs.Meaning.{at_offset, parse, parse_by, parse_globals_only};
ghost use Rattle.hidreport.specs.Options.{meaning_as, parse_as, reading_of};
ghost use Rattle.hidreport.specs.Rebuilt.{canonical_entries};
ghost use Rattle.hidreport.specs.Records.{DescriptorRecord};
ghost use Rattle.hidreport.specs.RepairLaws.{RebuildsAlike, StaysRepaired};
ghost use Rattle.hidreport.specs.Segments.{moved_fault};
ghost use Rattle.hidreport.specs.declared.parse_options.ParseOptions.{ParseOptions};
ghost use Rattle.hidreport.specs.declared.repairing.repair_options.RepairOptions.{RepairOptions};
ghost use Rattle.hidreport_definitions.specs.Cut.{page_and_pop, page_and_pop_at, pushed_and_popped};
ghost use Rattle.hidreport_definitions.specs.Hex.{hex};
ghost use Rattle.hidreport_definitions.specs.Repairs.{as_hid_core, repaired_to};

/// A repaired descriptor whose page is written in two bytes is read as it is where one does.
pub fn a_repair_is_read_alike_once_rebuilt()
    ensures { (options : RepairOptions) (d : DescriptorRecord)
        → RebuildsAlike options (repaired_to (codes "06 01 00") [])
        → parse_as options.parse (hex (codes "06 01 00")) ≡ Ok d
        → parse_by (reading_of options.parse) (hex (codes "05 01")) ≡ Ok d }
{}

/// A data item that lacks usages isn't repaired yet.
pub fn what_lacks_usages_is_not_repaired()
    ensures { StaysRepaired as_hid_core (repaired_to (codes "75 08 95 01 81 02") []) → ⊥ }
{}

/// A reserved item changes nothing.
pub fn a_reserved_item_is_idle()
    ensures { (options : ParseOptions) → KeptItemsMean options (hex (codes "05 01 c4 b4"))
        → parse_any options (hex (codes "05 01 c4 b4")) ≡ at_offset (page_and_pop_at 3)
        (meaning_as options (item.Global (global.UsagePage 1) ∷ item.Global global.Pop ∷ [])) }
{}

/// Rebuilt bytes mean what the kept items do.
pub fn rebuilt_bytes_mean_the_kept_items()
    ensures { (options : ParseOptions) → RebuiltBytesMean options (hex (codes "05 01 c4 b4"))
        → parse_any options (hex (codes "05 01 b4")) ≡ at_offset page_and_pop
        (meaning_as options (item.Global (global.UsagePage 1) ∷ item.Global global.Pop ∷ [])) }
{}

/// A Push and its Pop change nothing.
pub fn a_push_and_its_pop_are_idle()
    ensures { (options : ParseOptions) → SegmentsAreIdle options (hex (codes "05 01 a4 b4 b4"))
        → parse_any options (hex (codes "05 01 a4 b4 b4")) ≡ at_offset pushed_and_popped
        (moved_fault 1 2 (meaning_as options
        (item.Global (global.UsagePage 1) ∷ item.Global global.Pop ∷ []))) }
{}

/// Without a Push both readings of it are the same.
pub fn readings_agree_without_a_push()
    ensures { AgreeWithoutPush (hex (codes "05 01 b4"))
        → parse_globals_only (hex (codes "05 01 b4")) ≡ parse (hex (codes "05 01 b4")) }
{}
