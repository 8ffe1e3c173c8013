//! Descriptors under a budget: what an item weighs, and where a limit is passed.
ghost use Rattle.std.specs.Prelude.{◌≡◌, [], codes, IsTrue};
ghost use Rattle.hidreport.specs.Answer.{InvalidData, BudgetExceeded};
ghost use Rattle.hidreport_definitions.specs.Within.{is_read_within, of_at_most, within};
ghost use Rattle.hidreport_definitions.specs.Summary.{no_push, no_usages};

/// Three fields are within a limit of 3 and not of 2; no item is within a limit of 0.
pub fn fields_weigh_one_each()
    ensures just { IsTrue (is_read_within 3 (codes "05 01 09 30 75 08 95 03 81 02")) }
    ensures past { within 2 (codes "05 01 09 30 75 08 95 03 81 02") ≡ Err (BudgetExceeded 8) }
    ensures nothing { IsTrue (is_read_within 0 (codes "05 01")) }
{}

/// A collection weighs 1 and its usages where it is opened, and again in each field that carries
/// it.
pub fn collections_weigh_in_each_field()
    ensures just { IsTrue (is_read_within 8
        (codes "05 01 09 02 a1 01 09 30 75 08 95 02 81 02 c0")) }
    ensures in_a_field { within 7 (codes "05 01 09 02 a1 01 09 30 75 08 95 02 81 02 c0")
        ≡ Err (BudgetExceeded 12) }
    ensures opened { within 1 (codes "05 01 09 02 a1 01 09 30 75 08 95 02 81 02 c0")
        ≡ Err (BudgetExceeded 4) }
{}

/// A collection that is closed weighs no more.
pub fn closed_collections_weigh_nothing()
    ensures just { IsTrue (is_read_within 4
        (codes "05 01 09 02 a1 01 c0 09 30 75 08 95 02 81 02")) }
    ensures past { within 3 (codes "05 01 09 02 a1 01 c0 09 30 75 08 95 02 81 02")
        ≡ Err (BudgetExceeded 13) }
{}

/// An array weighs its usages, padding weighs 1.
pub fn arrays_weigh_their_usages()
    ensures just { IsTrue (is_read_within 6 (codes "05 07 19 01 29 05 75 08 95 07 81 00")) }
    ensures past { within 5 (codes "05 07 19 01 29 05 75 08 95 07 81 00") ≡ Err (BudgetExceeded 10) }
    ensures padding { IsTrue (is_read_within 1 (codes "75 01 95 ff 81 01")) }
    ensures padding_too { within 0 (codes "75 01 95 ff 81 01") ≡ Err (BudgetExceeded 4) }
{}

/// A fault at the item that passes the limit comes first, as does one before it and an item that
/// can't be read; a fault behind it isn't seen.
pub fn faults_up_to_the_item_come_first()
    ensures at_the_item { within 0 (codes "05 01 19 05 29 02 75 08 95 01 81 02") ≡ no_usages 10 }
    ensures grammar { within 0 (codes "75 01 95 01 81 01 05")
        ≡ Err (InvalidData 6 (codes "Insufficient data")) }
    ensures behind { within 0 (codes "75 01 95 01 81 01 c0") ≡ Err (BudgetExceeded 4) }
    ensures before { within 0 (codes "c0 75 01 95 01 81 01")
        ≡ Err (InvalidData 0 (codes "Too many EndCollection")) }
{}

/// More bytes than may be looked at are refused with their greatest number, whatever they are.
pub fn too_many_bytes_are_refused()
    ensures as_many { of_at_most 4 (codes "05 01 75 08") ≡ of_at_most 5 (codes "05 01 75 08") }
    ensures as_few { of_at_most 4 (codes "05 01 b4") ≡ no_push 2 }
    ensures more { of_at_most 3 (codes "05 01 75 08") ≡ Err (BudgetExceeded 3) }
    ensures no_items { of_at_most 1 (codes "03 03") ≡ Err (BudgetExceeded 1) }
    ensures none { of_at_most 0 [] ≡ Err (InvalidData 0 (codes "Empty report descriptor")) }
{}
