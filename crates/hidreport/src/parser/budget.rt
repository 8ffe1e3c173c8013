//! What a parse may still list.
ghost use Rattle.std.specs.Option.{SomeIff};
ghost use Rattle.std.specs.Prelude.{◌≡◌, ◌*◌, ◌-◌, ◌≤◌, ◌^◌, length};
ghost use Rattle.hidreport.specs.Parser.Budget.{weight_of_each};
ghost use Rattle.hidreport.specs.Parser.Usages.{usage_list};

use crate::parser::fault::Fault;
use crate::parser::usages::Usages;
use hidreport_fields::DataItem;
use std::marker::Model;

/// How much a parse may still list, in what `try_from_within` counts; without a limit, anything.
#[derive(Drop)]
pub(crate) struct Budget {
    left: Option<usize>,
}

impl Model for Budget {
    ghost use Rattle.std.specs.Prelude.{ℕ, Option};

    ghost Value = { Option ℕ };

    ghost view = { λ b. b.left };
}

impl Budget {
    ghost use Rattle.std.specs.Prelude.{◌≡◌, ◌*◌, false, IfErr, IsTrue, OnOk};
    ghost use Rattle.hidreport.specs.Parser.Budget.{is_past, left_behind};

    /// All of the limit is left, if there is one.
    pub(crate) fn new(limit: Option<usize>) -> Budget
        ensures { result ≡ limit }
    {
        Budget { left: limit }
    }

    /// Spends what so many parts of one weight weigh, unless that passes what is left.
    #[inline(always)]
    pub(crate) fn spend(&mut self, count: usize, each: u128) -> Result<(), Fault>
        ensures within { OnOk result (is_past self.old (count * each) ≡ false) }
        ensures left { OnOk result (self.new ≡ left_behind self.old (count * each)) }
        ensures past { IfErr result (λ e.
            (e ≡ Fault.BudgetExceeded) × IsTrue (is_past self.old (count * each))) }
    {
        let Some(left) = self.left else {
            return Ok(());
        };
        let Some(behind) = left_behind(left, count, each) else {
            return Err(Fault::BudgetExceeded);
        };
        self.left = Some(behind);
        Ok(())
    }
}

/// What is left behind so many parts of one weight, which fit; `None` where they don't.
fn left_behind(left: usize, count: usize, each: u128) -> Option<usize>
    ensures { SomeIff result (count * each ≤ left) (left - count * each) }
{
    let weight = (count as u128).checked_mul(each)?;
    if weight > left as u128 {
        return None;
    }
    Some(left - weight as usize)
}

/// What each field of a data item weighs, with its usages and the weight of the open collections.
#[inline(always)]
pub(crate) fn weight_of_each(item: &DataItem, usages: &Usages, around: u128) -> u128
    requires { around ≤ 2 ^ 96 }
    ensures { result
        ≡ weight_of_each item.now.flags (length (usage_list usages.now).usages) around }
{
    if item.flags.is_constant {
        1
    } else if item.flags.is_variable {
        1 + around
    } else {
        1 + (usages.count() + around)
    }
}
