ghost use Rattle.std.specs.Prelude.{◌≡◌, None, true, IfOk, IsUtf8};
ghost use Rattle.mal_check.specs.Checked.{plan_fault};
ghost use Rattle.mal_print_laws.specs.PrintedReads.{days_have_text};
ghost use Rattle.mal_meaning.specs.declared.plan.Plan.{Plan as PlanSeen};
ghost use Rattle.mal_text.specs.Reads.{ReadsAs};

use crate::days::known_values;
use cell_core::Memory;
use mal_meaning::Plan;
use mal_print::print_mal;
use mal_text::{MalError, one_reading, parse_mal};
use std::alloc::Global;

/// Prints a plan without a fault, whose days have a text, and reads it again: the plan read is the
/// same.
pub fn print_and_read(alloc: Global, plan: &Plan) -> Result<Plan, Memory>
    requires checked { plan_fault plan.now ≡ None }
    requires days { days_have_text plan.now ≡ true }
    ensures { IfOk result (λ again. again ≡ plan.now) }
{
    one_reading();
    known_values(plan);
    let bytes = print_mal(alloc, plan)?;
    match std::str::from_utf8(&bytes) {
        Ok(text) => read(alloc, text),
        Err(_) => unreachable!(),
    }
}

/// The plan that is read from a text, where there is one.
fn read(alloc: Global, text: &str) -> Result<Plan, Memory>
    requires { (plan : PlanSeen) × ReadsAs text.now plan }
    ensures { IfOk result (λ again. ReadsAs text.now again) }
{
    one_reading();
    match parse_mal(alloc, text) {
        Ok(plan) => Ok(plan),
        Err(MalError::Memory) => Err(Memory),
        Err(MalError::NoBlock) => unreachable!(),
        Err(MalError::UnknownOp(_)) => unreachable!(),
        Err(MalError::Plan(_)) => unreachable!(),
    }
}
