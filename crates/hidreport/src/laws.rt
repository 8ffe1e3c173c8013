//! Laws of the definitions that no single call shows.
ghost use Rattle.std.specs.Prelude.{◌≡◌, ◌≢◌, ◌+◌, ◌/◌, ◌<◌, ◌≤◌, ◌∷◌, ℕ, [], List, Option, Some, flat_map, length, map, negsuc, pos, slice_get, take};
ghost use Rattle.hidreport_items.specs.Writing.{item_bytes};
ghost use Rattle.hidreport_items.specs.declared.item.ItemType.{ItemType};
ghost use Rattle.hidreport_lists.specs.DescriptorBuilder.{AreSpelled};
ghost use Rattle.hidreport_lists.specs.Rebuilt.{canonical_entries};
ghost use Rattle.hidreport_fields.specs.BitValue.{bit};
ghost use Rattle.hidreport_fields.specs.Tiling.{Each};
ghost use Rattle.hidreport.specs.HostLaws.{NamesOne, ReadAlike};
ghost use Rattle.hidreport_items.specs.declared.local.LocalItem.{LocalItem};
ghost use Rattle.hidreport_items.specs.declared.local.LocalItem.TheVariants as local;
ghost use Rattle.hidreport.specs.Blank.{blank_bytes};
ghost use Rattle.hidreport.specs.Laws.{parse_any};
ghost use Rattle.hidreport.specs.Meaning.{at_offset};
ghost use Rattle.hidreport.specs.Options.{meaning_as};
ghost use Rattle.hidreport_fields.specs.ReportIds.{id_bits};
ghost use Rattle.hidreport_fields.specs.Records.{Attributes, CollectionRecord};
ghost use Rattle.hidreport_fields.specs.Scaling.{normalized, physical_value};
ghost use Rattle.hidreport_fields.specs.ScalingLaws.{IsScale, bounds_meant};
ghost use Rattle.hidreport_fields.specs.SharedCollections.{shared};
ghost use Rattle.hidreport.specs.declared.parse_options.ParseOptions.{ParseOptions};

/// What a descriptor builder writes (`hid::ReportDescriptorBuilder::build`) is read as its items
/// mean, a fault at its item's offset: of items each of which is kept and spelled by some bytes,
/// by each reading and under each limit (Section 6.2.2).
pub fn built_bytes_mean_their_items()
    ensures { (options : ParseOptions) (items : List ItemType) → AreSpelled items
        → flat_map item_bytes items ≢ []
        → parse_any options (flat_map item_bytes items)
        ≡ at_offset (canonical_entries 0 items) (meaning_as options items) }
{}

/// What `Collection::shared` counts (Section 6.2.2.6): so many of the outermost collections are the
/// same by their ids, and the next, where there is one in each list, aren't.
pub fn shared_collections_are_a_common_front()
    ensures same { (before around : List CollectionRecord)
        → take (shared before around) (map (λ (c : CollectionRecord). c.id) before)
        ≡ take (shared before around) (map (λ (c : CollectionRecord). c.id) around) }
    ensures apart { (before around : List CollectionRecord) (c d : CollectionRecord)
        → slice_get before (shared before around) ≡ Some c
        → slice_get around (shared before around) ≡ Some d → c.id ≢ d.id }
{}

/// What `VariableField::physical_value` and `normalized` give (Section 6.2.2.7): the logical bounds
/// stand for the physical ones, or for -1 and 1; what lies between them is between these, a greater
/// value never stands for less where the line rises nor for more where it falls, and no fraction
/// has a denominator below 1.
pub fn scaled_values_lie_on_a_line()
    ensures physical { (a : Attributes) → IsScale a.logical_minimum a.logical_maximum
        (bounds_meant a).0 (bounds_meant a).1 (physical_value a) }
    ensures normal { (a : Attributes) → IsScale a.logical_minimum a.logical_maximum
        (negsuc 0) (pos 1) (normalized a) }
{}

/// What `Report::blank` gives (Section 5.6): so many bytes as hold the report's bits, the id in
/// front, and each bit behind it 0.
pub fn blank_reports_have_their_id_alone()
    ensures size { (id : Option ℕ) (size : ℕ) → length (blank_bytes id size) ≡ (size + 7) / 8 }
    ensures id { (id size : ℕ) → 0 < size → slice_get (blank_bytes (Some id) size) 0 ≡ Some id }
    ensures bits { (id : Option ℕ) (size n : ℕ) → id_bits id ≤ n → bit (blank_bytes id size) n ≡ 0 }
{}

/// Where both rules of usages agree (Section 6.2.2.8): of single usages, each an id of 16 bits on the
/// page in force or with a page of its own, and of one range of ids of 16 bits, hosts read what the
/// letter of the standard says, where no other page comes in force before their main item.
pub fn hosts_agree_with_the_standard()
    ensures singles { (page : ℕ) (xs : List LocalItem) → Each NamesOne xs → ReadAlike page xs }
    ensures range { (page low high : ℕ) → high < 65536
        → ReadAlike page (local.UsageMinimum low ∷ local.UsageMaximum high ∷ []) }
{}
