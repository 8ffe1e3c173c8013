//! The same laws of one element of an array.
ghost use Rattle.std.specs.Prelude.{◌≡◌, ℕ, pos, negsuc, List, [], ◌∷◌, codes};
ghost use Rattle.hidreport.specs.Reading.{reads, reads_element};
ghost use Rattle.hidreport.specs.WritingLaws.{IsElementWritten};
ghost use Rattle.hidreport_definitions.specs.Hex.{hex};
ghost use Rattle.hidreport_definitions.specs.Summary.{array_at, variable_at};
ghost use Rattle.hidreport_definitions.specs.Written.{array_in_the_id};

/// A number that was put into the bits of its element, the first or the last.
pub fn a_written_element_keeps_all_laws()
    ensures first { IsElementWritten (array_at 0 8 2 (pos 0)) 0 (pos 3)
        (hex (codes "21 ff")) (hex (codes "23 ff")) }
    ensures last { IsElementWritten (array_at 0 8 2 (negsuc 0)) 1 (negsuc 0)
        (hex (codes "21 00")) (hex (codes "f1 00")) }
{}

/// The element reads what was written.
pub fn a_written_element_is_read()
    ensures another { IsElementWritten (array_at 0 8 2 (pos 0)) 1 (pos 3)
        (hex (codes "23")) (hex (codes "23")) → ⊥ }
    ensures no_element { IsElementWritten (array_at 0 8 2 (pos 0)) 2 (pos 0)
        (hex (codes "00 00")) (hex (codes "00 00")) → ⊥ }
{}

/// No bit outside the element changes, and there are as many bytes.
pub fn bits_beside_an_element_are_kept()
    ensures other_element { IsElementWritten (array_at 0 8 2 (pos 0)) 1 (pos 3)
        (hex (codes "00")) (hex (codes "31")) → ⊥ }
    ensures alone { IsElementWritten array_in_the_id 0 (pos 5)
        (hex (codes "05 00")) (hex (codes "05 01")) → ⊥ }
    ensures longer { IsElementWritten array_in_the_id 0 (pos 5)
        (hex (codes "05")) (hex (codes "05 00")) → ⊥ }
{}

/// The array's other elements and the report's other fields read what they read before.
pub fn elements_and_fields_beside_it_are_kept()
    ensures element { (old new : List ℕ)
        → IsElementWritten (array_at 0 8 2 (pos 0)) 1 (pos 3) old new
        → reads_element (array_at 0 8 2 (pos 0)) new 0
        ≡ reads_element (array_at 0 8 2 (pos 0)) old 0 }
    ensures field { (old new : List ℕ)
        → IsElementWritten (array_at 0 8 2 (pos 0)) 1 (pos 3) old new
        → reads (variable_at 8 16 (pos 0)) new ≡ reads (variable_at 8 16 (pos 0)) old }
{}

/// Of two writes of an element the second counts.
pub fn a_second_element_counts()
    ensures { IsElementWritten array_in_the_id 0 (pos 5) (hex (codes "04")) (hex (codes "05")) → ⊥ }
{}
