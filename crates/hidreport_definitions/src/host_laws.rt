//! Local items of which hosts and the letter of the standard read the same usages, and some of which
//! they don't (Section 6.2.2.8).
ghost use Rattle.std.specs.Prelude.{[], ◌∷◌};
ghost use Rattle.hidreport.specs.HostLaws.{NamesOne, ReadAlike};
ghost use Rattle.hidreport.specs.LocalItem.TheVariants as local;

/// A single usage has an id of 16 bits, and a page of its own or none.
pub fn single_usages_have_ids_of_16_bits()
    ensures most { NamesOne (local.UsageId 0xffff) }
    ensures own { NamesOne (local.Usage 0xffff 0xffff) }
    ensures wider { NamesOne (local.UsageId 0x0001_0000) → ⊥ }
    ensures wider_own { NamesOne (local.Usage 1 0x0001_0000) → ⊥ }
    ensures minimum { NamesOne (local.UsageMinimum 0) → ⊥ }
{}

/// Where a range is one of two, or its ids have more than 16 bits, the rules differ.
pub fn both_rules_read_the_same()
    ensures two { ReadAlike 1 (local.UsageId 0x30 ∷ local.Usage 9 1 ∷ []) }
    ensures range { ReadAlike 9 (local.UsageMinimum 1 ∷ local.UsageMaximum 3 ∷ []) }
    ensures wider { ReadAlike 9 (local.UsageMinimum 0x0001_0001 ∷ local.UsageMaximum 0x0001_0002 ∷ [])
        → ⊥ }
    ensures both { ReadAlike 9
        (local.UsageId 7 ∷ local.UsageMinimum 1 ∷ local.UsageMaximum 2 ∷ []) → ⊥ }
{}
