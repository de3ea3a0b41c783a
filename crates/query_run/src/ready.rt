//! A query whose instructions are run as their arguments get their results.
ghost use Rattle.std.specs.Prelude.{◌≡◌, ℕ, ◌<◌, ◌&&◌, is_some, length, not, slice_get, false, Some, IfOk, IfSome, IfNone};
ghost use Rattle.cell_core.specs.declared.operator.Arg.TheVariants.{Var};
ghost use Rattle.cell_core.specs.declared.operator.Instr.{Instr as InstrSeen};
ghost use Rattle.cell_core.specs.declared.operator.Op.TheVariants.{Bind};
ghost use Rattle.bat_core.specs.Objects.{value_of};
ghost use Rattle.mal_meaning.specs.Meaning.{arg_value, arg_values, instr_load};
ghost use Rattle.mal_exec.specs.Results.{known_of};
ghost use Rattle.query_run.specs.Queries.{HasArgs, HasAsked, IsAt, IsUnderWay, all_values, has_result, value_at, was_asked};
ghost use Rattle.query_run.specs.Ready.{ComesOfValue, IsReady};

use crate::reuse::{Made, known_result, sum};
use crate::step::{RunningQuery, Step};
use bat_core::{Obj, Operate};
use cell_core::{Arg, Memory, RunError, Steps};
use query_keys::{instrs_run, marked_are_bats};
use std::alloc::Global;
use std::sync::ledger::Ledger;

impl RunningQuery {
    /// The first instruction that is ready: it has its arguments, and its result is neither there
    /// nor was it asked for.
    pub fn first_ready(&self) -> Option<usize>
        requires { IsUnderWay self.now }
        ensures some { IfSome result (λ n. IsReady self.now n) }
        ensures none { IfNone result ((n : ℕ) → IsReady self.now n → ⊥) }
    {
        'instrs: for n in 0..self.plan.instrs.len() {
            if self.is_ready(n) {
                return Some(n);
            }
        }
        None
    }

    /// Whether an instruction is ready.
    fn is_ready(&self, n: usize) -> bool
        requires under { IsUnderWay self.now }
        requires inside { n < length self.now.plan.instrs }
        ensures { (instr : InstrSeen) → slice_get self.now.plan.instrs n ≡ Some instr → result ≡ ((not (has_result self.now n) && not (was_asked self.now n)) && is_some (arg_values (known_of self.now.values.items) instr.args)) }
    {
        !self.has(n)
            && !self.asked[n]
            && are_known(self.values.as_slice(), self.instr(n).args.as_slice())
    }

    /// Notes that the result of an unmarked instruction is computed elsewhere. Takes no memory.
    pub fn hand_out(&mut self, n: usize)
        requires under { IsUnderWay self.old }
        requires inside { n < length self.old.plan.instrs }
        ensures { HasAsked self.old n self.new }
    {
        self.asked[n] = true;
    }

    /// The column of a bind that has its arguments.
    pub fn bound<E: Operate, L: Ledger>(
        &self,
        alloc: Global,
        n: usize,
        kernel: &E,
        steps: &mut Steps<L>,
    ) -> Result<Obj, Memory>
        requires under { IsUnderWay self.now }
        requires open { has_result self.now n ≡ false }
        requires bind { (instr : InstrSeen) × (slice_get self.now.plan.instrs n ≡ Some instr) × (instr.op ≡ Bind) × HasArgs self.now instr }
        ensures { IfOk result (λ column. value_at self.now n ≡ Some (Some (value_of column))) }
    {
        instrs_run();
        match self.run_at(alloc, n, kernel, steps) {
            Ok(done) => Ok(done.value),
            Err(RunError::Memory) => Err(Memory),
            Err(RunError::Overflow) => unreachable!(),
        }
    }

    /// Takes in the value of an instruction, which was computed elsewhere. That of a marked
    /// instruction is offered to the pool next.
    pub fn given(mut self, alloc: Global, n: usize, value: Obj) -> Result<Step, Memory>
        requires under { IsUnderWay self }
        requires open { has_result self n ≡ false }
        requires at { (instr : InstrSeen) × (slice_get self.plan.instrs n ≡ Some instr) × HasArgs self instr }
        requires value { value_at self n ≡ Some (Some (value_of value)) }
        ensures { IfOk result (ComesOfValue self n value) }
    {
        let load = self.load_of(n, value.pair_count())?;
        if self.marks[n] {
            return self.offer_given(alloc, n, value, load);
        }
        let total = sum(self.work, load)?;
        self.take_in(n, value, 0);
        self.work = total;
        Ok(Step::Open(self))
    }

    /// The step that offers the value of a marked instruction, which took this work.
    fn offer_given(self, alloc: Global, n: usize, value: Obj, load: u128) -> Result<Step, Memory>
        requires under { IsUnderWay self }
        requires at { (instr : InstrSeen) × IsAt self n instr × HasArgs self instr }
        requires value { value_at self n ≡ Some (Some (value_of value)) }
        requires load { (instr : InstrSeen) → IsAt self n instr → load ≡ instr_load self.snap.db (all_values self) instr }
        ensures { IfOk result (ComesOfValue self n value) }
    {
        marked_are_bats();
        match value {
            Obj::Bat(value) => self.to_offer(alloc, n, Made { value, done: load }),
            Obj::One(_) => unreachable!(),
        }
    }
}

/// Whether all arguments are there.
fn are_known(values: &[Option<Obj>], args: &[Arg]) -> bool
    ensures { result ≡ is_some (arg_values (known_of values.now) args.now) }
{
    let mut rest = args;
    'args: while let [arg, more @ ..] = rest {
        if !is_known(values, arg) {
            return false;
        }
        rest = more;
    }
    true
}

/// Whether an argument is there.
fn is_known(values: &[Option<Obj>], arg: &Arg) -> bool
    ensures { result ≡ is_some (arg_value (known_of values.now) arg.now) }
{
    match arg {
        Arg::Const(_) => true,
        Arg::Var(n) => known_result(values, *n).is_some(),
    }
}
