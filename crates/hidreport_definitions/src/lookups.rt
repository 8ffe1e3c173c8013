//! What is looked up of fields: what their values mean, and what they lie in together.
ghost use Rattle.std.specs.Prelude.{◌≡◌, ℤ, pos, negsuc, List, [], ◌∷◌, Option, None, Some};
ghost use Rattle.hidreport.specs.Scaling.{normalized, physical_value};
ghost use Rattle.hidreport.specs.SharedCollections.{shared};
ghost use Rattle.hidreport_definitions.specs.Lookups.{bounded, numbered, over, physically};

/// A mouse of 400 counts an inch says -127 to 127 and means -3175 to 3175 (Section 6.2.2.7).
pub fn a_mouse_moves_by_400_counts_an_inch()
    ensures one { physical_value (physically (negsuc 3174) (pos 3175)
        (bounded (negsuc 126) (pos 127))) (pos 1) ≡ Some (over (pos 6350) (pos 254)) }
    ensures least { physical_value (physically (negsuc 3174) (pos 3175)
        (bounded (negsuc 126) (pos 127))) (negsuc 126) ≡ Some (over (negsuc 806449) (pos 254)) }
    ensures none { physical_value (physically (negsuc 3174) (pos 3175)
        (bounded (negsuc 126) (pos 127))) (pos 0) ≡ Some (over (pos 0) (pos 254)) }
{}

/// Physical bounds that are unset, or both 0, are the logical ones; one alone leaves the other 0.
pub fn a_value_without_physical_bounds_is_itself()
    ensures unset { physical_value (bounded (pos 0) (pos 1023)) (pos 512)
        ≡ Some (over (pos 523776) (pos 1023)) }
    ensures both_zero { physical_value (physically (pos 0) (pos 0) (bounded (pos 0) (pos 1023)))
        (pos 512) ≡ Some (over (pos 523776) (pos 1023)) }
    ensures degrees { physical_value (physically (pos 0) (pos 360) (bounded (pos 0) (pos 255)))
        (pos 128) ≡ Some (over (pos 46080) (pos 255)) }
    ensures one_bound { physical_value (record (bounded (pos 0) (pos 255)) {
      physical_maximum = Some (pos 360);
    }) (pos 128) ≡ Some (over (pos 46080) (pos 255)) }
{}

/// The minimum is -1 and the maximum 1, whatever the physical bounds are.
pub fn bounds_are_minus_one_and_one()
    ensures minimum { normalized (bounded (negsuc 126) (pos 127)) (negsuc 126)
        ≡ Some (over (negsuc 253) (pos 254)) }
    ensures middle { normalized (bounded (negsuc 126) (pos 127)) (pos 0)
        ≡ Some (over (pos 0) (pos 254)) }
    ensures maximum { normalized (bounded (negsuc 126) (pos 127)) (pos 127)
        ≡ Some (over (pos 254) (pos 254)) }
    ensures physical { normalized (physically (pos 0) (pos 360) (bounded (pos 0) (pos 255)))
        (pos 255) ≡ Some (over (pos 255) (pos 255)) }
{}

/// A maximum that isn't above its minimum has no line.
pub fn a_maximum_is_above_its_minimum()
    ensures physical { physical_value (bounded (pos 1) (pos 0)) (pos 1) ≡ None }
    ensures equal { physical_value (bounded (pos 1) (pos 1)) (pos 1) ≡ None }
    ensures with_physical_bounds { physical_value
        (physically (pos 0) (pos 360) (bounded (pos 0) (negsuc 0))) (pos 0) ≡ None }
    ensures normal { normalized (bounded (pos 0) (pos 0)) (pos 0) ≡ None }
{}

/// Two fields share the outermost collections up to the first that isn't one of both.
pub fn fields_share_their_outermost_collections()
    ensures three { shared (numbered (0 ∷ 1 ∷ 2 ∷ 3 ∷ [])) (numbered (0 ∷ 1 ∷ 2 ∷ 4 ∷ [])) ≡ 3 }
    ensures others { shared (numbered (5 ∷ 6 ∷ [])) (numbered (0 ∷ [])) ≡ 0 }
    ensures same { shared (numbered (0 ∷ 1 ∷ 2 ∷ [])) (numbered (0 ∷ 1 ∷ 2 ∷ [])) ≡ 3 }
    ensures inner { shared (numbered (0 ∷ 1 ∷ [])) (numbered (0 ∷ 1 ∷ 2 ∷ [])) ≡ 2 }
    ensures not_outermost { shared (numbered (0 ∷ 2 ∷ [])) (numbered (1 ∷ 2 ∷ [])) ≡ 0 }
    ensures empty { shared [] (numbered (0 ∷ [])) ≡ 0 }
    ensures of_empty { shared (numbered (0 ∷ [])) [] ≡ 0 }
{}
