//! The law of a segment, applied.
ghost use Rattle.std.specs.Prelude.{◌≡◌, List, [], ◌∷◌, codes};
ghost use Rattle.hidreport.specs.GlobalItem.TheVariants as global;
ghost use Rattle.hidreport.specs.ItemType.TheVariants as item;
ghost use Rattle.hidreport.specs.LocalItem.TheVariants as local;
ghost use Rattle.hidreport.specs.MainItem.TheVariants as main;
ghost use Rattle.hidreport.specs.MeaningFault.{TooManyEnds};
ghost use Rattle.hidreport.specs.Segments.{IsMatched, moved_fault, with_segment};
ghost use Rattle.hidreport_definitions.specs.Summary.{summary, no_usages, input_fields};

/// Items without a main item in which each Push has its Pop: some, none, and a whole segment.
pub fn segments_can_be_matched()
    ensures some { IsMatched (item.Global (global.ReportSize 16) ∷ item.Local (local.UsageId 9)
        ∷ []) }
    ensures none { IsMatched [] }
    ensures nested { IsMatched (item.Global global.Push ∷ item.Global (global.ReportSize 16)
        ∷ item.Global global.Pop ∷ []) }
{}

/// A main item among the items, a Pop before its Push, or a Push left open.
pub fn segments_can_be_unmatched()
    ensures main_item { IsMatched (item.Main main.EndCollection ∷ []) → ⊥ }
    ensures pop_first { IsMatched (item.Global global.Pop ∷ item.Global global.Push ∷ []) → ⊥ }
    ensures left_open { IsMatched (item.Global global.Push ∷ []) → ⊥ }
    ensures later_main_item { IsMatched (item.Global global.Push ∷ item.Global global.Pop
        ∷ item.Global (global.ReportSize 16) ∷ item.Main main.EndCollection ∷ []) → ⊥ }
    ensures later_pop_first { IsMatched (item.Global global.Push ∷ item.Global global.Pop
        ∷ item.Global global.Pop ∷ item.Global global.Push ∷ []) → ⊥ }
    ensures later_left_open { IsMatched (item.Global global.Push ∷ item.Global global.Push
        ∷ item.Global global.Pop ∷ []) → ⊥ }
{}

/// A segment is a Push, its items and a Pop, between other items; what stands behind it comes so
/// much later.
pub fn a_segment_stands_between_others()
    ensures items { with_segment (item.Global (global.ReportSize 8) ∷ []) (item.Local
        (local.UsageId 9)
        ∷ []) (item.Global (global.ReportCount 1) ∷ [])
        ≡ item.Global (global.ReportSize 8) ∷ item.Global global.Push ∷ item.Local (local.UsageId 9)
        ∷ item.Global global.Pop ∷ item.Global (global.ReportCount 1) ∷ [] }
    ensures before { moved_fault 1 3 (Err (0, TooManyEnds)) ≡ Err (0, TooManyEnds) }
    ensures behind { moved_fault 1 3 (Err (1, TooManyEnds)) ≡ Err (4, TooManyEnds) }
    ensures further { moved_fault 1 3 (Err (5, TooManyEnds)) ≡ Err (8, TooManyEnds) }
{}

/// What stands around a segment means the same without it, a fault at the same item.
pub fn a_segment_may_be_struck()
    ensures with_it { summary (codes "05 01 75 08 95 01 a4 75 10 09 99 b4 09 30 81 02")
        ≡ input_fields 8 (0x00010030 ∷ []) }
    ensures without_it { summary (codes "05 01 75 08 95 01 09 30 81 02")
        ≡ input_fields 8 (0x00010030 ∷ []) }
    ensures fault_with_it { summary (codes "05 01 75 08 95 01 a4 75 10 09 99 b4 81 02")
        ≡ no_usages 12 }
    ensures fault_without_it { summary (codes "05 01 75 08 95 01 81 02") ≡ no_usages 6 }
    ensures fault_before_it { summary (codes "05 01 75 08 95 01 81 02 a4 75 10 09 99 b4")
        ≡ no_usages 6 }
{}
