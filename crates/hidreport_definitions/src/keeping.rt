//! What a Push keeps: descriptors that tell the two readings apart, and some that don't.
ghost use Rattle.std.specs.Prelude.{◌≡◌, List, [], ◌∷◌, codes};
ghost use Rattle.hidreport.specs.GlobalItem.TheVariants as global;
ghost use Rattle.hidreport.specs.ItemType.TheVariants as item;
ghost use Rattle.hidreport.specs.Laws.{Spares};
ghost use Rattle.hidreport.specs.LocalItem.TheVariants as local;
ghost use Rattle.hidreport.specs.Segments.{HasNoLocal, HasNoPush};
ghost use Rattle.hidreport.specs.declared.parser.push_keeps.PushKeeps.TheVariants as a_push_keeps;
ghost use Rattle.hidreport_definitions.specs.Summary.{globals_summary, summary, no_push, no_usages, input_fields};

/// A usage that is used between a Push and its Pop comes back only where the Push keeps locals.
pub fn a_usage_used_inside_comes_back_with_locals_alone()
    ensures locals { summary (codes "05 01 09 30 15 00 25 7f 75 08 95 01 a4 81 02 b4 81 02")
        ≡ input_fields 8 (0x00010030 ∷ 0x00010030 ∷ []) }
    ensures globals { globals_summary
        (codes "05 01 09 30 15 00 25 7f 75 08 95 01 a4 81 02 b4 81 02")
        ≡ no_usages 16 }
{}

/// A usage that is set there stays behind the Pop only where the Push keeps globals alone.
pub fn a_usage_set_inside_stays_with_globals_alone()
    ensures locals { summary (codes "05 01 75 08 95 01 a4 09 30 b4 81 02") ≡ no_usages 10 }
    ensures globals { globals_summary (codes "05 01 75 08 95 01 a4 09 30 b4 81 02")
        ≡ input_fields 8 (0x00010030 ∷ []) }
{}

/// The page that was set with it doesn't stay: the usage is of the page in force at the data item.
pub fn a_page_set_inside_is_taken_back()
    ensures locals { summary (codes "05 09 75 01 95 01 a4 05 01 09 30 b4 81 02") ≡ no_usages 12 }
    ensures globals { globals_summary (codes "05 09 75 01 95 01 a4 05 01 09 30 b4 81 02")
        ≡ input_fields 1 (0x00090030 ∷ []) }
{}

/// By both readings a Pop needs a Push, and a size set inside holds only there.
pub fn globals_come_back_by_both()
    ensures fault { globals_summary (codes "b4") ≡ no_push 0 }
    ensures size { globals_summary (codes "05 01 75 08 95 01 a4 75 10 b4 09 30 81 02")
        ≡ input_fields 8 (0x00010030 ∷ []) }
{}

/// What the laws ask of items: these have no local item, and none of these is a Push.
pub fn items_may_have_no_local_and_no_push()
    ensures no_local { HasNoLocal (item.Global (global.ReportSize 16) ∷ item.Global global.Push
        ∷ item.Global global.Pop ∷ []) }
    ensures a_local { HasNoLocal (item.Global (global.ReportSize 16) ∷ item.Local
        (local.UsageId 9)
        ∷ []) → ⊥ }
    ensures no_push { HasNoPush (item.Local (local.UsageId 9) ∷ item.Global global.Pop ∷ []) }
    ensures a_push { HasNoPush (item.Local (local.UsageId 9) ∷ item.Global global.Push ∷ []) → ⊥ }
{}

/// A segment may have a local item just where its Push keeps these, too.
pub fn a_segment_may_have_locals_where_a_push_keeps_them()
    ensures locals { Spares a_push_keeps.All (item.Local (local.UsageId 9) ∷ []) }
    ensures none { Spares a_push_keeps.Globals (item.Global (global.ReportSize 16) ∷ []) }
    ensures globals { Spares a_push_keeps.Globals (item.Local (local.UsageId 9) ∷ []) → ⊥ }
{}
