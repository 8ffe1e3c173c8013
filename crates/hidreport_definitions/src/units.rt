//! The law of a unit: units that make up its number, and others that don't.
ghost use Rattle.std.specs.Prelude.{[]};
ghost use Rattle.hidreport.specs.UnitTable.{MakeUp, units_of};

/// The system and the units of a unit make up its number: of an energy, and of one with every
/// place.
pub fn units_make_up_their_number()
    ensures energy { MakeUp (units_of 0xE121) 0xE121 }
    ensures every_place { MakeUp (units_of 0x0FFFFFF4) 0x0FFFFFF4 }
{}

/// A unit that is left out, is another's or has another exponent isn't the number's; where no
/// system is named, or the highest nibble isn't 0, nothing is asked.
pub fn other_units_make_up_another_number()
    ensures left_out { MakeUp [] 0x11 → ⊥ }
    ensures another { MakeUp (units_of 0x1001) 0x11 → ⊥ }
    ensures exponent { MakeUp (units_of 0x21) 0x11 → ⊥ }
    ensures highest_place { MakeUp [] 0x0100_0014 → ⊥ }
    ensures no_system { MakeUp [] 0x10 }
    ensures no_known_system { MakeUp [] 0x15 }
    ensures highest_nibble { MakeUp [] 0x1000_0011 }
{}
