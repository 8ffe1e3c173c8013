//! Descriptors that are refused, with the place and the reason.
ghost use Rattle.std.specs.Prelude.{◌≡◌, codes};
ghost use Rattle.hidreport.specs.Answer.{InvalidData};
ghost use Rattle.hidreport_definitions.specs.Summary.{summary, no_push};

/// No bytes at all are a fault of their own.
pub fn an_empty_descriptor_is_refused()
    ensures { summary (codes "") ≡ Err (InvalidData 0 (codes "Empty report descriptor")) }
{}

/// A main item whose tag is none of the five is refused with its header in binary, and missing data
/// before that.
pub fn an_unknown_main_item_is_refused()
    ensures zero { summary (codes "00")
        ≡ Err (InvalidData 0 (codes "Invalid data: Invalid item tag 0b000000")) }
    ensures seven_digits { summary (codes "40")
        ≡ Err (InvalidData 0 (codes "Invalid data: Invalid item tag 0b1000000")) }
    ensures missing_data { summary (codes "03") ≡ Err (InvalidData 0 (codes "Insufficient data")) }
{}

/// A Pop needs an open Push; an item that can't be read comes before that, also behind it.
pub fn a_pop_needs_a_push()
    ensures alone { summary (codes "b4") ≡ no_push 0 }
    ensures behind_a_usage_page { summary (codes "06 01 00 b4") ≡ no_push 3 }
    ensures before_a_grammar_fault { summary (codes "b4 80")
        ≡ Err (InvalidData 1 (codes "Insufficient data")) }
{}
