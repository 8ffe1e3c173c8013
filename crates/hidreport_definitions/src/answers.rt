//! What the answer of a parser, a builder or a writer says: answers that say something else.
ghost use Rattle.std.specs.Prelude.{◌≡◌, ℕ, List, [], ◌∷◌, None, Some, Ok, Err, String, Vec, codes, string_bytes};
ghost use Rattle.std.specs.Global.{Global};
ghost use Rattle.hidreport.specs.Answer.{Answers, AnswersBy, BudgetExceeded, IsInvalidAt, IsOfItems, IsOfReading, MismatchingReportId, OutOfBounds, Refuses};
ghost use Rattle.hidreport.specs.AnyItem.TheVariants as any;
ghost use Rattle.hidreport.specs.DescriptorBuilder.{Builds, Holds};
ghost use Rattle.hidreport.specs.HidError.TheVariants as faults;
ghost use Rattle.hidreport.specs.ItemAnswer.{Insufficient};
ghost use Rattle.hidreport.specs.ItemType.TheVariants as item;
ghost use Rattle.hidreport.specs.ParserError.TheVariants as errors;
ghost use Rattle.hidreport.specs.ShortOrLong.{IsByHeader, RefusesWithoutMemory};
ghost use Rattle.hidreport.specs.WritingValues.{Inserts};
ghost use Rattle.hidreport_fields.specs.declared.field.insert_error.InsertError.TheVariants as refused;

/// An error is the refusal of the definition; want of memory says nothing.
pub fn an_error_is_the_refusal()
    ensures memory { Refuses {A = ℕ} errors.OutOfMemory (Ok 0) }
    ensures data { (message : String Global)
        → Refuses {A = ℕ} (errors.InvalidData 1 message) (Err OutOfBounds) → ⊥ }
    ensures bounds { Refuses {A = ℕ} errors.OutOfBounds (Err MismatchingReportId) → ⊥ }
    ensures report_id { Refuses {A = ℕ} errors.MismatchingReportId (Err OutOfBounds) → ⊥ }
    ensures budget { Refuses {A = ℕ} (errors.BudgetExceeded 1) (Err (BudgetExceeded 2)) → ⊥ }
    ensures other_answer { Answers {A = ℕ} (Ok 1) (Ok 2) → ⊥ }
    ensures answer { Answers {A = ℕ} (Err errors.OutOfBounds) (Ok 2) → ⊥ }
    ensures other_view { AnswersBy (λ (n : ℕ). n) (Ok 1) (Ok 2) → ⊥ }
    ensures answer_by_view { AnswersBy (λ (n : ℕ). n) (Err errors.OutOfBounds) (Ok 2) → ⊥ }
{}

/// Data that is refused has its offset and its message, and is no other error.
pub fn refused_data_has_its_offset_and_message()
    ensures offset { (text : String Global)
        → IsInvalidAt (errors.InvalidData 1 text) 2 (string_bytes text) → ⊥ }
    ensures message { (text : String Global) → IsInvalidAt (errors.InvalidData 1 text) 1 (codes "a")
        → string_bytes text ≡ codes "a" }
    ensures bounds { IsInvalidAt errors.OutOfBounds 1 [] → ⊥ }
    ensures report_id { IsInvalidAt errors.MismatchingReportId 1 [] → ⊥ }
    ensures budget { IsInvalidAt (errors.BudgetExceeded 1) 1 [] → ⊥ }
{}

/// Which errors readers of items, and of fields, never give.
pub fn some_errors_are_never_given()
    ensures bounds { IsOfItems errors.OutOfBounds → ⊥ }
    ensures report_id { IsOfItems errors.MismatchingReportId → ⊥ }
    ensures budget { IsOfItems (errors.BudgetExceeded 1) → ⊥ }
    ensures data { (message : String Global) → IsOfReading (errors.InvalidData 1 message) → ⊥ }
    ensures budget_of_reading { IsOfReading (errors.BudgetExceeded 1) → ⊥ }
{}

/// A builder has just its items, and gives their bytes or that there are none.
pub fn a_builder_gives_its_items()
    ensures bytes { (written : Vec ℕ Global) → Builds (Ok written) (Some (codes "a"))
        → written.items ≡ codes "a" }
    ensures no_bytes { Builds (Err faults.OutOfMemory) None → ⊥ }
    ensures items { Holds (Ok []) (item.Long ∷ []) → ⊥ }
    ensures refused { Holds (Err faults.InsufficientData) [] → ⊥ }
{}

/// An item is long just by its header.
pub fn a_header_makes_an_item_long()
    ensures short { IsByHeader (any.Long (0xfe ∷ 0 ∷ 0 ∷ [])) (0x05 ∷ 1 ∷ []) → ⊥ }
    ensures memory { RefusesWithoutMemory (Err faults.OutOfMemory) (Err Insufficient) → ⊥ }
{}

/// Values that are written give the bytes of the definition; a refusal leaves them.
pub fn a_refused_value_leaves_the_bytes()
    ensures other_bytes { Inserts (Ok tt) [] [] (Ok (1 ∷ [])) → ⊥ }
    ensures written { Inserts (Err refused.OutOfBounds) [] [] (Ok []) → ⊥ }
    ensures changed { Inserts (Err refused.OutOfBounds) [] (1 ∷ []) (Err refused.OutOfBounds) → ⊥ }
{}
