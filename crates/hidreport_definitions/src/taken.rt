//! Descriptors that hosts take, some that they refuse, and what is said of those that are mended
//! (Sections 6.2.2.4, 6.2.2.6 and 6.2.2.7).
ghost use Rattle.std.specs.Prelude.{◌≤◌, ℕ, List, [], codes, length, Err, Ok, String};
ghost use Rattle.std.specs.Global.{Global};
ghost use Rattle.hidreport.specs.Answer.{InvalidData, MismatchingReportId, OutOfBounds};
ghost use Rattle.hidreport.specs.ParserError.TheVariants as errors;
ghost use Rattle.hidreport.specs.Taken.{IsOfLimits, IsPast, IsReadIfAny, IsReadUnlessPast, IsTakenByHosts, LeavesNothing};
ghost use Rattle.hidreport.specs.declared.repairing.repair_options.RepairOptions.{RepairOptions};
ghost use Rattle.hidreport_definitions.specs.Hex.{hex};
ghost use Rattle.hidreport_definitions.specs.Repairs.{as_hid_core, by_hosts, repaired_to};

/// A Pop behind its Push, an End Collection behind its collection, data that is 0, a tag that no main
/// item has, 256 bits and 12,288 elements.
pub fn hosts_take_what_is_in_order()
    ensures pop { IsTakenByHosts by_hosts (hex (codes "a4 b4")) }
    ensures end { IsTakenByHosts by_hosts (hex (codes "a1 00 a0 c0 c0")) }
    ensures zero { IsTakenByHosts by_hosts (hex (codes "74 94 80")) }
    ensures unknown { IsTakenByHosts by_hosts (hex (codes "09 30 00")) }
    ensures bits { IsTakenByHosts by_hosts (hex (codes "76 00 01")) }
    ensures elements { IsTakenByHosts by_hosts (hex (codes "96 00 30")) }
{}

/// One Pop or End Collection too many, one bit or element more, an item that is cut short, usages by
/// the letter of the standard, and too many bytes.
pub fn hosts_refuse_what_is_not()
    ensures pop { IsTakenByHosts by_hosts (hex (codes "a4 b4 b4")) → ⊥ }
    ensures end { IsTakenByHosts by_hosts (hex (codes "a1 00 c0 c0")) → ⊥ }
    ensures bits { IsTakenByHosts by_hosts (hex (codes "76 01 01")) → ⊥ }
    ensures elements { IsTakenByHosts by_hosts (hex (codes "96 01 30")) → ⊥ }
    ensures cut { IsTakenByHosts by_hosts (hex (codes "75")) → ⊥ }
    ensures standard { IsTakenByHosts as_hid_core (hex (codes "a4 b4")) → ⊥ }
    ensures most { (options : RepairOptions) (bytes : List ℕ) (law : IsTakenByHosts options bytes)
        → length bytes ≤ 65536 }
{}

/// What isn't a limit's refusal is told from it.
pub fn a_limit_is_no_other_refusal()
    ensures data { IsPast (InvalidData 0 []) → ⊥ }
    ensures bounds { IsPast OutOfBounds → ⊥ }
    ensures report { IsPast MismatchingReportId → ⊥ }
    ensures refused { IsReadUnlessPast {A = ℕ} (Err OutOfBounds) → ⊥ }
    ensures unread { IsReadIfAny by_hosts.parse (hex (codes "b4")) → ⊥ }
    ensures error_data { (offset : ℕ) (message : String Global)
        (law : IsOfLimits (errors.InvalidData offset message)) → ⊥ }
    ensures error_bounds { IsOfLimits errors.OutOfBounds → ⊥ }
    ensures error_report { IsOfLimits errors.MismatchingReportId → ⊥ }
{}

/// Of what is mended nothing is left only where it has no bytes.
pub fn what_is_left_has_bytes()
    ensures some { LeavesNothing (Ok (repaired_to (codes "81 02") [])) → ⊥ }
    ensures refused { LeavesNothing (Err OutOfBounds) → ⊥ }
{}
