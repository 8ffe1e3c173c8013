//! What a repair makes of an item, and when a descriptor is too long for one.
ghost use Rattle.std.specs.Prelude.{◌≡◌, pos, negsuc, [], ◌∷◌, None, Some, codes, false, true};
ghost use Rattle.hidreport.specs.GlobalItem.TheVariants as global;
ghost use Rattle.hidreport.specs.ItemType.TheVariants as item;
ghost use Rattle.hidreport.specs.Options.{default_options, past_longest, reading_of};
ghost use Rattle.hidreport.specs.Repair.{is_meant_unsigned, wider_bytes};
ghost use Rattle.hidreport_definitions.specs.Hex.{hex};
ghost use Rattle.hidreport_definitions.specs.Summary.{one_bit};

/// A negative maximum is meant without a sign unless a negative minimum of its kind is in force.
pub fn a_negative_maximum_is_meant_unsigned()
    ensures unset { is_meant_unsigned one_bit
        (Some (item.Global (global.LogicalMaximum (negsuc 0)))) ≡ true }
    ensures unset_physical { is_meant_unsigned one_bit
        (Some (item.Global (global.PhysicalMaximum (negsuc 0)))) ≡ true }
    ensures zero { is_meant_unsigned (reading_of default_options
        (item.Global (global.LogicalMinimum (pos 0)) ∷ []) 1)
        (Some (item.Global (global.LogicalMaximum (negsuc 0)))) ≡ true }
    ensures negative { is_meant_unsigned (reading_of default_options
        (item.Global (global.LogicalMinimum (negsuc 0)) ∷ []) 1)
        (Some (item.Global (global.LogicalMaximum (negsuc 0)))) ≡ false }
    ensures other_kind { is_meant_unsigned (reading_of default_options
        (item.Global (global.LogicalMinimum (negsuc 0)) ∷ []) 1)
        (Some (item.Global (global.PhysicalMaximum (negsuc 0)))) ≡ true }
    ensures not_below_zero { is_meant_unsigned one_bit
        (Some (item.Global (global.LogicalMaximum (pos 0)))) ≡ false }
    ensures minimum { is_meant_unsigned one_bit
        (Some (item.Global (global.LogicalMinimum (negsuc 0)))) ≡ false }
    ensures no_item { is_meant_unsigned one_bit None ≡ false }
{}

/// Data of one or two bytes gets as many again, all 0; other data stays.
pub fn a_maximum_gets_wider_data()
    ensures one { wider_bytes (hex (codes "25 ff")) ≡ hex (codes "26 ff 00") }
    ensures two { wider_bytes (hex (codes "46 34 92")) ≡ hex (codes "47 34 92 00 00") }
    ensures four { wider_bytes (hex (codes "27 00 00 00 80")) ≡ [] }
    ensures none { wider_bytes (hex (codes "24")) ≡ [] }
{}

/// As many bytes as may be aren't too many.
pub fn a_descriptor_may_be_too_long()
    ensures any { past_longest None 65536 ≡ None }
    ensures as_many { past_longest (Some 4) 4 ≡ None }
    ensures more { past_longest (Some 4) 5 ≡ Some 4 }
    ensures nothing { past_longest (Some 0) 0 ≡ None }
{}
