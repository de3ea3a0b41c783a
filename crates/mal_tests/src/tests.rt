//! The wanted results are those of an independent implementation.
ghost use Rattle.std.specs.Prelude.{◌≡◌, None, IfOk};
ghost use Rattle.mal_check.specs.Checked.{plan_fault};

use crate::texts::{DROPPED, FOLDED, GIVEN, OPTIMISED, QUERY, QUERY_OPTIMISED, SHARED, TEXTS};
use cell_core::{Arg, Cell, Memory, Sequence};
use mal_check::{PlanError, check_plan};
use mal_meaning::{Out, Plan};
use mal_opt::{drop_dead, fold_constants, optimise, share_terms};
use mal_print::print_mal;
use mal_print_laws::{days_have_text, print_and_read};
use mal_text::{MalError, parse_mal};
use recycle_mark::marks;
use std::alloc::Global;
use std::test::Fail;

/// An optimiser of plans.
#[derive(Clone, Copy, Drop)]
enum Optimiser {
    Fold,
    Share,
    Drop,
    All,
}

/// The plan that a text reads as, after another check.
fn read(alloc: Global, text: &str) -> Result<Plan, MalError>
    ensures { IfOk result (λ plan. plan_fault plan ≡ None) }
{
    let plan = parse_mal(alloc, text)?;
    match check_plan(alloc, &plan) {
        Ok(()) => Ok(plan),
        Err(fault) => Err(MalError::Plan(fault)),
    }
}

/// The plan after an optimiser.
fn made(alloc: Global, optimiser: Optimiser, plan: &Plan) -> Result<Plan, Memory>
    requires { plan_fault plan.now ≡ None }
    ensures { IfOk result (λ made. plan_fault made ≡ None) }
{
    match optimiser {
        Optimiser::Fold => fold_constants(alloc, plan),
        Optimiser::Share => share_terms(alloc, plan),
        Optimiser::Drop => drop_dead(alloc, plan),
        Optimiser::All => optimise(alloc, plan),
    }
}

/// The canonical text of a plan after an optimiser.
fn printed(alloc: Global, optimiser: Optimiser, plan: &Plan) -> Result<Vec<u8>, Memory>
    requires { plan_fault plan.now ≡ None }
{
    let made = made(alloc, optimiser, plan)?;
    print_mal(alloc, &made)
}

/// The text of the plan after an optimiser. A text that isn't read counts as want of memory.
fn optimised(alloc: Global, optimiser: Optimiser, text: &str) -> Result<Vec<u8>, Memory> {
    match read(alloc, text) {
        Ok(plan) => printed(alloc, optimiser, &plan),
        Err(_) => Err(Memory),
    }
}

/// The words of a fault.
fn fault_words(fault: PlanError) -> &'static str {
    match fault {
        PlanError::UnknownVar(_) => "variable",
        PlanError::KindsDiffer(_) => "kinds",
        PlanError::WrongCount(_) => "count",
        PlanError::NoOutput => "output",
        PlanError::Memory => "memory",
    }
}

/// Words as bytes.
fn bytes(alloc: Global, text: &str) -> Result<Vec<u8>, Memory> {
    let mut bytes = Vec::new(alloc);
    bytes.extend_from_slice(text.as_bytes())?;
    Ok(bytes)
}

/// The answer to a text: its canonical text, or why it is refused.
fn answer(alloc: Global, text: &str) -> Result<Vec<u8>, Memory> {
    match read(alloc, text) {
        Ok(plan) => print_mal(alloc, &plan),
        Err(MalError::UnknownOp(word)) => bytes(alloc, word.text()),
        Err(MalError::Plan(fault)) => bytes(alloc, fault_words(fault)),
        Err(MalError::NoBlock) => bytes(alloc, "no block"),
        Err(MalError::Memory) => Err(Memory),
    }
}

#[test]
fn texts_are_answered(rt: HostRuntime) -> Result<(), Fail> {
    let alloc = rt.alloc();
    for (text, want) in TEXTS {
        assert!(rt; answer(alloc, text)?.as_slice() == want.as_bytes());
    }
    Ok(())
}

#[test]
fn what_is_printed_reads_as_the_same(rt: HostRuntime) -> Result<(), Fail> {
    let alloc = rt.alloc();
    for text in [
        GIVEN,
        FOLDED,
        SHARED,
        DROPPED,
        OPTIMISED,
        QUERY,
        QUERY_OPTIMISED,
    ] {
        assert!(rt; answer(alloc, text)?.as_slice() == text.as_bytes());
    }
    Ok(())
}

#[test]
fn plans_after_each_optimiser(rt: HostRuntime) -> Result<(), Fail> {
    let alloc = rt.alloc();
    for (optimiser, text, want) in [
        (Optimiser::Fold, GIVEN, FOLDED),
        (Optimiser::Share, GIVEN, SHARED),
        (Optimiser::Drop, GIVEN, DROPPED),
        (Optimiser::All, GIVEN, OPTIMISED),
        (Optimiser::All, QUERY, QUERY_OPTIMISED),
    ] {
        assert!(rt; optimised(alloc, optimiser, text)?.as_slice() == want.as_bytes());
    }
    Ok(())
}

/// The marks of a text's plan.
fn marked(alloc: Global, text: &str) -> Result<Vec<bool>, Memory> {
    match parse_mal(alloc, text) {
        Ok(plan) => marks(alloc, &plan),
        Err(_) => Err(Memory),
    }
}

#[test]
fn scalars_and_what_they_lead_to_are_not_marked(rt: HostRuntime) -> Result<(), Fail> {
    let alloc = rt.alloc();
    let want = [true, true, false, false, false];
    assert!(rt; marked(alloc, OPTIMISED)?.as_slice() == want.as_slice());
    // the select has a sum of constants as its bound
    let want = [true, false, false, true, false, true, false, false];
    assert!(rt; marked(alloc, GIVEN)?.as_slice() == want.as_slice());
    Ok(())
}

/// A plan that shows a day.
fn day_shown(alloc: Global, day: i32) -> Result<Plan, Memory> {
    let mut cols = Sequence::new(alloc);
    cols.push(Arg::Const(Cell::Day(day)))?;
    let out = Out {
        cols,
        keep: None,
        order: Sequence::new(alloc),
        limit: None,
    };
    Ok(Plan {
        instrs: Sequence::new(alloc),
        out,
    })
}

#[test]
fn days_from_year_1_to_9999_have_a_text(rt: HostRuntime) -> Result<(), Fail> {
    let alloc = rt.alloc();
    for (day, want) in [
        (-719_163, false),
        (-719_162, true),
        (2_932_896, true),
        (2_932_897, false),
    ] {
        assert!(rt; days_have_text(&day_shown(alloc, day)?) == want);
    }
    Ok(())
}

/// A plan that is printed and read again. One with a day that has no text counts as want of memory.
fn again(alloc: Global, plan: &Plan) -> Result<Plan, Memory>
    requires { plan_fault plan.now ≡ None }
{
    if days_have_text(plan) {
        print_and_read(alloc, plan)
    } else {
        Err(Memory)
    }
}

#[test]
fn a_plan_that_is_printed_and_read_again_is_the_same(rt: HostRuntime) -> Result<(), Fail> {
    let alloc = rt.alloc();
    for text in [GIVEN, QUERY_OPTIMISED] {
        match read(alloc, text) {
            Ok(plan) => assert!(rt; again(alloc, &plan)? == plan),
            Err(_) => assert!(rt; false),
        }
    }
    Ok(())
}
