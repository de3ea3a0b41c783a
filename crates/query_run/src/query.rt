//! A query, instruction by instruction.
ghost use Rattle.std.specs.Prelude.{◌≡◌, ◌≢◌, ℕ, List, ◌+◌, ◌≤◌, ◌<◌, ◌&&◌, [], ◌∷◌, length, map, not, replicate, slice_get, slice_index_or, take, true, false, Bool, Option, Some, None, Err, IfOk, OnOk, IfSome, IsSome};
ghost use Rattle.std.specs.Option.{option_map};
ghost use Rattle.cell_core.specs.declared.memory.RunError.TheVariants as RunError;
ghost use Rattle.cell_core.specs.declared.operator.Instr.{Instr as InstrSeen};
ghost use Rattle.cell_core.specs.declared.cell.Cell.TheVariants.{Text};
ghost use Rattle.bat_core.specs.Objects.{value_of, values_of};
ghost use Rattle.lineage_key.specs.Parents.{is_bind};
ghost use Rattle.lineage_key.specs.declared.key.KeyArg.TheVariants.{Const};
ghost use Rattle.recycle_mark.specs.Marks.{marks_of};
ghost use Rattle.query_keys.specs.Keys.{with_version};
ghost use Rattle.query_keys.specs.Laws.{id_given as given_by};
ghost use Rattle.mal_meaning.specs.Meaning.{arg_values, instr_load, plan_load};
ghost use Rattle.mal_exec.specs.Results.{known_of};
ghost use Rattle.query_run.specs.Queries.{AsksFor, ComesTo, EndsWith, GoesOn, HasArgs, HasBefore, HasGained, HasMark, IsAt, IsUnderWay, all_values, has_result, key_in, value_at, versions_in};
ghost use Rattle.query_run.specs.Steps.{Counted, IsFresh, IsOpened, held};
ghost use Rattle.query_run.specs.declared.step.Step.TheVariants as step;
ghost use Rattle.reply_layout.specs.declared.shown.Shown.TheVariants as shown;
ghost use Rattle.sql_definitions.specs.declared.refusal.Refusal.TheVariants as refusal;

use crate::reuse::sum;
use crate::step::{RunningQuery, Step};
use bat_core::{Obj, Operate};
use cell_core::{Cell, Instr, Memory, RunError, Sequence, Steps};
use lineage_key::{Key, KeyArg, key_of};
use mal_exec::{Done, known_args, output, run_op};
use mal_meaning::Plan;
use pool_policy::Admitted;
use query_keys::instrs_run;
use reply_layout::Shown;
use sql_definitions::Refusal;
use std::alloc::Global;
use std::sync::ledger::Ledger;
use table_store::Snap;

impl RunningQuery {
    /// A query that has begun. Takes no memory.
    pub fn new(alloc: Global, snap: Snap, plan: Plan, marks: Vec<bool>) -> RunningQuery
        ensures snap { result.snap ≡ snap }
        ensures plan { result.plan ≡ plan }
        ensures marks { result.marks.items ≡ marks.items }
        ensures work { result.work ≡ 0 }
    {
        RunningQuery {
            snap,
            plan,
            marks,
            ids: Vec::new(alloc),
            values: Vec::new(alloc),
            asked: Vec::new(alloc),
            work: 0,
        }
    }

    /// Makes room for its results. A plan of 2^32 instructions counts as want of memory.
    pub fn open(self, alloc: Global) -> Result<RunningQuery, Memory>
        requires { IsFresh self }
        ensures { IfOk result (IsOpened self) }
    {
        let count = self.plan.instrs.len();
        if count > u32::MAX as usize {
            return Err(Memory);
        }
        let (snap, plan, marks) = self.into_begun();
        let ids = vec![in alloc; 0_u64; count]?;
        let values = no_results(alloc, count)?;
        let asked = vec![in alloc; false; count]?;
        Ok(RunningQuery {
            snap,
            plan,
            marks,
            ids,
            values,
            asked,
            work: 0,
        })
    }

    /// Computes in the order of the plan, up to the next instruction for which the pool is asked,
    /// or to the end.
    pub(crate) fn walk<E: Operate, L: Ledger>(
        mut self,
        alloc: Global,
        kernel: &E,
        steps: &mut Steps<L>,
    ) -> Result<Step, Memory>
        requires { IsUnderWay self }
        ensures step { IfOk result (ComesTo self) }
        ensures counted { IfOk result (λ next. Counted (step.Open self) next steps.old steps.new) }
    {
        instrs_run();
        let mut n = 0;
        'instrs: while n < self.plan.instrs.len() {
            if self.must_ask(n) {
                return self.to_ask(alloc, n);
            }
            match self.have(alloc, n, kernel, steps) {
                Ok(()) => {}
                Err(RunError::Overflow) => return Ok(overflow()),
                Err(RunError::Memory) => return Err(Memory),
            }
            n += 1;
        }
        self.finish(alloc)
    }

    /// Whether the pool is to be asked for an instruction: it is marked, and has no result yet.
    fn must_ask(&self, n: usize) -> bool
        requires under { IsUnderWay self.now }
        requires inside { n < length self.now.plan.instrs }
        ensures { result ≡ (slice_index_or (marks_of self.now.plan) n false && not (has_result self.now n)) }
    {
        self.marks[n] && !self.has(n)
    }

    /// Whether an instruction has its result.
    pub(crate) fn has(&self, n: usize) -> bool
        requires under { IsUnderWay self.now }
        requires inside { n < length self.now.plan.instrs }
        ensures { result ≡ has_result self.now n }
    {
        self.values[n].is_some()
    }

    /// The step that asks for the result of a marked instruction, which has its arguments.
    pub fn to_ask(self, alloc: Global, n: usize) -> Result<Step, Memory>
        requires under { IsUnderWay self }
        requires at { (instr : InstrSeen) × IsAt self n instr × HasArgs self instr }
        ensures { IfOk result (λ next. (key : _) × (next ≡ step.Asking self n key) × AsksFor self n key) }
    {
        let key = self.key_at(alloc, n)?;
        Ok(Step::Asking(self, n, key))
    }

    /// The end, with the rows of the output. All results are there.
    pub fn finish(self, alloc: Global) -> Result<Step, Memory>
        requires under { IsUnderWay self }
        requires all { HasBefore self (length self.plan.instrs) }
        ensures step { IfOk result (ComesTo self) }
        ensures held { IfOk result (λ next. held next ≡ self.work) }
    {
        let (plan, values, work) = self.into_results();
        let values = all_results(alloc, values)?;
        let rows = output(alloc, &plan.out, values.as_slice())?;
        Ok(Step::Ending(Shown::Rows(rows), work))
    }

    /// Computes the result of an instruction unless it has one. The pool isn't asked.
    fn have<E: Operate, L: Ledger>(
        &mut self,
        alloc: Global,
        n: usize,
        kernel: &E,
        steps: &mut Steps<L>,
    ) -> Result<(), RunError>
        requires under { IsUnderWay self.old }
        requires inside { n < length self.old.plan.instrs }
        requires before { HasBefore self.old n }
        requires unmarked { has_result self.old n ≡ false → HasMark self.old n false }
        ensures goes { OnOk result (GoesOn self.old self.new) }
        ensures has { OnOk result (has_result self.new n ≡ true) }
        ensures counted { OnOk result (steps.new + self.old.work ≡ steps.old + self.new.work) }
        ensures same { result ≡ Err RunError.Overflow → self.new ≡ self.old }
        ensures overflow { result ≡ Err RunError.Overflow → HasMark self.old n false × (value_at self.old n ≡ Some None) }
        ensures later { result ≡ Err RunError.Overflow → steps.old ≤ steps.new }
        ensures within { result ≡ Err RunError.Overflow → steps.new + self.old.work ≤ steps.old + plan_load self.old.plan self.old.snap.db }
    {
        instrs_run();
        if self.has(n) {
            return Ok(());
        }
        let done = self.run_at(alloc, n, kernel, steps)?;
        let total = sum(self.work, done.work)?;
        self.take_in(n, done.value, 0);
        self.work = total;
        Ok(())
    }

    /// Runs an instruction that has its arguments.
    pub(crate) fn run_at<E: Operate, L: Ledger>(
        &self,
        alloc: Global,
        n: usize,
        kernel: &E,
        steps: &mut Steps<L>,
    ) -> Result<Done, RunError>
        requires under { IsUnderWay self.now }
        requires open { has_result self.now n ≡ false }
        requires args { (instr : InstrSeen) × (slice_get self.now.plan.instrs n ≡ Some instr) × HasArgs self.now instr }
        ensures value { IfOk result (λ done. value_at self.now n ≡ Some (Some (value_of done.value))) }
        ensures work { IfOk result (λ done. (instr : InstrSeen) → slice_get self.now.plan.instrs n ≡ Some instr → done.work ≡ instr_load self.now.snap.db (all_values self.now) instr) }
        ensures counted { IfOk result (λ done. steps.new ≡ steps.old + done.work) }
        ensures overflow { result ≡ Err RunError.Overflow → value_at self.now n ≡ Some None }
        ensures later { result ≡ Err RunError.Overflow → steps.old ≤ steps.new }
        ensures within { result ≡ Err RunError.Overflow → steps.new + self.now.work ≤ steps.old + plan_load self.now.plan self.now.snap.db }
    {
        instrs_run();
        let instr = self.instr(n);
        let Some(args) = known_args(alloc, self.values.as_slice(), instr.args.as_slice())? else {
            unreachable!();
        };
        run_op(alloc, instr.op, args.as_slice(), &self.snap, kernel, steps)
    }

    /// An instruction.
    pub(crate) fn instr(&self, n: usize) -> &Instr
        requires { n < length self.now.plan.instrs }
        ensures { slice_get self.now.plan.instrs n ≡ Some result.now }
    {
        &self.plan.instrs.as_slice()[n]
    }

    /// Takes in the result of an instruction, with its id. Takes no memory.
    pub(crate) fn take_in(&mut self, n: usize, value: Obj, id: u64)
        requires under { IsUnderWay self.old }
        requires inside { n < length self.old.plan.instrs }
        ensures { HasGained self.old n value id self.old.work self.new }
    {
        self.values[n] = Some(value);
        self.ids[n] = id;
    }

    /// The key of the result of an instruction.
    pub(crate) fn key_at(&self, alloc: Global, n: usize) -> Result<Key, Memory>
        requires under { IsUnderWay self.now }
        requires inside { n < length self.now.plan.instrs }
        ensures { IfOk result (λ key. (instr : InstrSeen) → slice_get self.now.plan.instrs n ≡ Some instr → key ≡ key_in self.now n instr) }
    {
        instrs_run();
        let key = key_of(alloc, self.instr(n), &self.ids.as_slice()[..n], 0)?;
        let version = version_for(&self.snap, &key);
        Ok(Key {
            op: key.op,
            args: key.args,
            version,
        })
    }
}

/// `count` places without a result.
fn no_results(alloc: Global, count: usize) -> Result<Vec<Option<Obj>>, Memory>
    ensures { IfOk result (λ results. results.items ≡ replicate count None) }
{
    let mut results = Vec::with_capacity(alloc, count)?;
    'results: while results.len() < count {
        results.push(None)?;
    }
    Ok(results)
}

/// The results, where all are there.
fn all_results(alloc: Global, results: Vec<Option<Obj>>) -> Result<Sequence<Obj>, Memory>
    requires { (n : ℕ) → n < length results.items → (found : _) × (slice_get results.items n ≡ Some (Some found)) }
    ensures { IfOk result (λ all. known_of results.items ≡ map Some (values_of all)) }
{
    let mut all = Sequence::new(alloc);
    'results: for found in results {
        match found {
            Some(value) => all.push(value)?,
            None => unreachable!(),
        }
    }
    Ok(all)
}

/// The version of a key: for a bind that of its column in the snapshot.
fn version_for(snap: &Snap, key: &Key) -> u64
    requires { is_bind key.now ≡ true → (table column kind : List ℕ) × (key.now.args ≡ Const (Text table) ∷ Const (Text column) ∷ Const (Text kind) ∷ []) }
    ensures { result ≡ (with_version (versions_in snap.now) key.now).version }
{
    if !key.is_bind() {
        return key.version;
    }
    match key.args.as_slice() {
        [
            KeyArg::Const(Cell::Text(table)),
            KeyArg::Const(Cell::Text(column)),
            ..
        ] => snap.version(table, column),
        _ => unreachable!(),
    }
}

/// The end of a query whose plan overflows.
pub fn overflow() -> Step
    ensures { result ≡ step.Ending (shown.Refused refusal.Overflow) 0 }
{
    Step::Ending(Shown::Refused(Refusal::Overflow), 0)
}

/// The id by an admission's answer, 0 for none.
pub(crate) fn id_given(said: Admitted) -> u64
    ensures { result ≡ given_by said }
{
    match said {
        Admitted::Taken { id, .. } => id,
        Admitted::There(id) => id,
        _ => 0,
    }
}
