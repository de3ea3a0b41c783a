//! A query whose instructions workers run.
ghost use Rattle.std.specs.Prelude.{◌≡◌, ◌≢◌, false, length, true, slice_get, Some, IfOk, OnOk};
ghost use Rattle.cell_core.specs.declared.operator.Instr.{Instr as InstrSeen};
ghost use Rattle.bat_core.specs.Objects.{value_of};
ghost use Rattle.dataflow.specs.Plans.{has};
ghost use Rattle.query_run.specs.declared.step.RunningQuery.{RunningQuery as QuerySeen};
ghost use Rattle.query_run.specs.declared.step.Step.TheVariants as step;
ghost use Rattle.query_run.specs.Queries.{HasArgs, HasMark, IsUnderWay, has_result, value_at, was_asked};
ghost use Rattle.recycle_pool.specs.declared.found.Found.TheVariants as what;
ghost use Rattle.dataflow.specs.Rules.{IsTask};
ghost use Rattle.query_run.specs.Ready.{IsReady};
ghost use Rattle.session_run.specs.declared.stage.Stage.TheVariants as stage;
ghost use Rattle.session_run.specs.Stages.{Follows};
ghost use Rattle.thread_sessions.specs.Crews as told;
ghost use Rattle.thread_sessions.specs.Crews.{AsksOrOffers, DoesEvents, HasNow, IsCrewed, IsGone, IsOut, basis_in, basis_of, with_stage};

use crate::kept::HasOptions;
use crate::runner::Runner;
use bat_core::{Obj, Operate};
use cell_core::{Memory, Op, Steps};
use dataflow::{Job, Task};
use mal_exec::known_args;
use query_keys::instrs_run;
use query_run::{Offer, RunningQuery, Step};
use recycle_pool::{CoverPiece, Found};
use run_log::Event;
use session_run::{Session, Stage};
use std::alloc::Global;
use std::marker::PhantomData;
use std::mem;
use std::snapshot::Snapshot;
use std::sync::ledger::Ledger;
use turn_hall::{Hall, Logged};

/// The tools of a crew, which don't change while it works.
#[derive(Drop)]
pub(crate) struct Tools<'h, 'k, V: Logged, K: HasOptions, F, E> {
    pub alloc: Global,
    pub hall: &'h Hall<V>,
    /// Does a session's next event, in a turn.
    pub event: F,
    pub kernel: &'k E,
    /// The session as its query was opened.
    pub began: Snapshot<Session>,
    pub of: PhantomData<K>,
}

/// A session whose query is open, with the pass by which it takes turns. It asks the pool for the
/// results of marked instructions, computes binds and results from pooled ones by itself, hands the
/// rest out, and offers the values that come back.
pub(crate) struct Crew<'h, 'k, 's, V: Logged, K: HasOptions, F, E, L: Ledger> {
    pub tools: Tools<'h, 'k, V, K, F, E>,
    pub steps: &'s mut Steps<L>,
    pub runner: Runner<V>,
    /// The instructions that were handed out.
    pub handed: Vec<u32>,
    /// Those of them that are done.
    pub finished: Vec<u32>,
    /// The number of instructions of the plan.
    pub instrs: u32,
    ghost counted: { instrs ≡ length (basis_of tools.began.value.stage).plan.instrs },
}

// By a call of its own, so that proofs needn't go through its forms where one is dropped.
impl<'h, 'k, 's, V: Logged, K: HasOptions, F: Drop, E, L: Ledger> Drop
    for Crew<'h, 'k, 's, V, K, F, E, L> {
    fn drop(self) {
        let Crew {
            tools: _,
            steps: _,
            runner: _,
            handed: _,
            finished: _,
            instrs: _,
        } = self;
    }
}

impl<'h, 'k, 's, V: Logged, K: HasOptions, F: Drop, E, L: Ledger> Crew<'h, 'k, 's, V, K, F, E, L> {
    /// Its session with its pass. The rest is dropped.
    pub(crate) fn into_runner(self) -> Runner<V>
        ensures { result ≡ self.entry.runner }
    {
        let Crew {
            tools: _,
            steps: _,
            runner,
            handed: _,
            finished: _,
            instrs: _,
        } = self;
        runner
    }
}

/// The query after one instruction.
#[derive(Drop)]
pub(crate) enum Gone {
    /// It goes on.
    On(RunningQuery),
    /// The instruction is handed out.
    Out(RunningQuery, Task),
}

impl<V: Logged<Entry = Event>> Runner<V> {
    /// Its open query, which has to be put back.
    pub(crate) fn take_query(&mut self) -> RunningQuery
        requires { (q : QuerySeen) × (self.old.session.stage ≡ stage.Querying (step.Open q)) }
        ensures query { self.old.session.stage ≡ stage.Querying (step.Open result) }
        ensures rest { self.new ≡ with_stage self.old stage.Between }
    {
        match mem::replace(&mut self.session.stage, Stage::Between) {
            Stage::Querying(Step::Open(query)) => query,
            _ => unreachable!(),
        }
    }
}

impl<
    'h,
    'k,
    V: Logged<Entry = Event>,
    K: HasOptions,
    F: Fn(&mut Runner<V>) -> Result<(), Memory>,
    E: Operate,
> Tools<'h, 'k, V, K, F, E> {
    /// Does the event of a query that asks or offers, in a turn, and returns the query's step after
    /// it.
    fn do_event(&self, runner: &mut Runner<V>, next: Step) -> Result<Step, Memory>
        requires does { DoesEvents F.Fn K.options self.now.hall.now self.now.event }
        requires crewed { IsCrewed K.options self.now.hall.now runner.old self.now.began.value next }
        requires event { AsksOrOffers next }
        ensures crewed { IfOk result (IsCrewed K.options self.now.hall.now runner.new self.now.began.value) }
        ensures follows { IfOk result (λ to. Follows (stage.Querying next) (stage.Querying to)) }
    {
        runner.session.stage = Stage::Querying(next);
        (self.event)(runner)?;
        match mem::replace(&mut runner.session.stage, Stage::Between) {
            Stage::Querying(step) => Ok(step),
            _ => unreachable!(),
        }
    }

    /// Goes on by an instruction that is ready.
    pub fn go_on<L: Ledger>(
        &self,
        runner: &mut Runner<V>,
        steps: &mut Steps<L>,
        handed: &mut Vec<u32>,
        finished: &[u32],
        mut query: RunningQuery,
        n: usize,
    ) -> Result<Gone, Memory>
        requires does { DoesEvents F.Fn K.options self.now.hall.now self.now.event }
        requires crewed { IsCrewed K.options self.now.hall.now runner.old self.now.began.value (step.Open query) }
        requires out { IsOut (basis_of self.now.began.value.stage) query handed.old.items finished.now (λ m. ⊥) }
        requires ready { IsReady query n }
        ensures { IfOk result (IsGone K.options self.now.hall.now runner.new self.now.began.value query handed.old.items handed.new.items finished.now) }
    {
        if query.marks[n] {
            return self.look(runner, steps, handed, finished, query, n);
        }
        query.hand_out(n);
        self.compute(runner, steps, handed, finished, query, n)
    }

    /// Asks the pool for the result of a marked instruction that is ready.
    fn look<L: Ledger>(
        &self,
        runner: &mut Runner<V>,
        steps: &mut Steps<L>,
        handed: &mut Vec<u32>,
        finished: &[u32],
        query: RunningQuery,
        n: usize,
    ) -> Result<Gone, Memory>
        requires does { DoesEvents F.Fn K.options self.now.hall.now self.now.event }
        requires crewed { IsCrewed K.options self.now.hall.now runner.old self.now.began.value (step.Open query) }
        requires out { IsOut (basis_of self.now.began.value.stage) query handed.old.items finished.now (λ m. ⊥) }
        requires ready { IsReady query n }
        requires marked { HasMark query n true }
        ensures { IfOk result (IsGone K.options self.now.hall.now runner.new self.now.began.value query handed.old.items handed.new.items finished.now) }
    {
        let asking = query.to_ask(self.alloc, n)?;
        match self.do_event(runner, asking)? {
            Step::Open(query) => Ok(Gone::On(query)),
            Step::Found(query, n, found, parts) => {
                self.found(runner, steps, handed, finished, query, n, found, parts)
            }
            _ => unreachable!(),
        }
    }

    /// Computes a result after a look: from what was found, or else from its arguments.
    fn found<L: Ledger>(
        &self,
        runner: &mut Runner<V>,
        steps: &mut Steps<L>,
        handed: &mut Vec<u32>,
        finished: &[u32],
        query: RunningQuery,
        n: usize,
        found: Found,
        parts: Vec<CoverPiece>,
    ) -> Result<Gone, Memory>
        requires does { DoesEvents F.Fn K.options self.now.hall.now self.now.event }
        requires crewed { IsCrewed K.options self.now.hall.now runner.old self.now.began.value (step.Found query n found parts) }
        requires out { IsOut (basis_of self.now.began.value.stage) query handed.old.items finished.now (λ m. m ≡ n) }
        requires asked { was_asked query n ≡ true }
        requires new { has handed.old.items n ≡ false }
        ensures { IfOk result (IsGone K.options self.now.hall.now runner.new self.now.began.value query handed.old.items handed.new.items finished.now) }
    {
        match found {
            Found::Miss => self.compute(runner, steps, handed, finished, query, n),
            found => {
                let query = self.reuse(runner, steps, query, n, found, parts)?;
                Ok(Gone::On(query))
            }
        }
    }

    /// Computes a result from pooled ones, and offers it.
    fn reuse<L: Ledger>(
        &self,
        runner: &mut Runner<V>,
        steps: &mut Steps<L>,
        query: RunningQuery,
        n: usize,
        found: Found,
        parts: Vec<CoverPiece>,
    ) -> Result<RunningQuery, Memory>
        requires does { DoesEvents F.Fn K.options self.now.hall.now self.now.event }
        requires crewed { IsCrewed K.options self.now.hall.now runner.old self.now.began.value (step.Found query n found parts) }
        requires some { found ≢ what.Miss }
        ensures crewed { IfOk result (λ to. IsCrewed K.options self.now.hall.now runner.new self.now.began.value (step.Open to)) }
        ensures gained { IfOk result (HasNow query n) }
    {
        let offering = Step::Found(query, n, found, parts).outside(self.alloc, self.kernel, steps)?;
        match offering {
            Step::Offering(query, n, offer) => self.offer(runner, query, n, offer),
            _ => unreachable!(),
        }
    }

    /// Offers the result of an instruction to the pool.
    fn offer(
        &self,
        runner: &mut Runner<V>,
        query: RunningQuery,
        n: usize,
        offer: Offer,
    ) -> Result<RunningQuery, Memory>
        requires does { DoesEvents F.Fn K.options self.now.hall.now self.now.event }
        requires crewed { IsCrewed K.options self.now.hall.now runner.old self.now.began.value (step.Offering query n offer) }
        ensures crewed { IfOk result (λ to. IsCrewed K.options self.now.hall.now runner.new self.now.began.value (step.Open to)) }
        ensures gained { IfOk result (HasNow query n) }
    {
        match self.do_event(runner, Step::Offering(query, n, offer))? {
            Step::Open(query) => Ok(query),
            _ => unreachable!(),
        }
    }

    /// Computes a bind, and hands any other instruction out.
    fn compute<L: Ledger>(
        &self,
        runner: &mut Runner<V>,
        steps: &mut Steps<L>,
        handed: &mut Vec<u32>,
        finished: &[u32],
        query: RunningQuery,
        n: usize,
    ) -> Result<Gone, Memory>
        requires does { DoesEvents F.Fn K.options self.now.hall.now self.now.event }
        requires crewed { IsCrewed K.options self.now.hall.now runner.old self.now.began.value (step.Open query) }
        requires out { IsOut (basis_of self.now.began.value.stage) query handed.old.items finished.now (λ m. m ≡ n) }
        requires asked { was_asked query n ≡ true }
        requires open { has_result query n ≡ false }
        requires args { (instr : InstrSeen) × (slice_get query.plan.instrs n ≡ Some instr) × HasArgs query instr }
        requires new { has handed.old.items n ≡ false }
        ensures { IfOk result (IsGone K.options self.now.hall.now runner.new self.now.began.value query handed.old.items handed.new.items finished.now) }
    {
        if is_bind(query.plan.instrs.as_slice()[n].op) {
            let column = query.bound(self.alloc, n, self.kernel, steps)?;
            let query = self.give(runner, query, n, column)?;
            return Ok(Gone::On(query));
        }
        let task = task_of(self.alloc, &query, n)?;
        handed.push(n as u32)?;
        Ok(Gone::Out(query, task))
    }

    /// Hands the query the value of an instruction, and offers that of a marked one to the pool.
    pub fn give(
        &self,
        runner: &mut Runner<V>,
        query: RunningQuery,
        n: usize,
        value: Obj,
    ) -> Result<RunningQuery, Memory>
        requires does { DoesEvents F.Fn K.options self.now.hall.now self.now.event }
        requires crewed { IsCrewed K.options self.now.hall.now runner.old self.now.began.value (step.Open query) }
        requires asked { was_asked query n ≡ true }
        requires open { has_result query n ≡ false }
        requires args { (instr : InstrSeen) × (slice_get query.plan.instrs n ≡ Some instr) × HasArgs query instr }
        requires value { value_at query n ≡ Some (Some (value_of value)) }
        ensures crewed { IfOk result (λ to. IsCrewed K.options self.now.hall.now runner.new self.now.began.value (step.Open to)) }
        ensures gained { IfOk result (HasNow query n) }
    {
        match query.given(self.alloc, n, value)? {
            Step::Open(query) => Ok(query),
            Step::Offering(query, n, offer) => self.offer(runner, query, n, offer),
            _ => unreachable!(),
        }
    }
}

/// Whether an operator is the bind.
fn is_bind(op: Op) -> bool
    ensures { result ≡ told.is_bind op }
{
    matches!(op, Op::Bind)
}

/// The task of an instruction that has its arguments.
fn task_of(alloc: Global, query: &RunningQuery, n: usize) -> Result<Task, Memory>
    requires under { IsUnderWay query.now }
    requires args { (instr : InstrSeen) × (slice_get query.now.plan.instrs n ≡ Some instr) × (told.is_bind instr.op ≡ false) × HasArgs query.now instr }
    ensures number { IfOk result (λ task. task.instr ≡ n) }
    ensures task { IfOk result (IsTask (basis_in query.now)) }
{
    instrs_run();
    let instr = &query.plan.instrs.as_slice()[n];
    match known_args(alloc, query.values.as_slice(), instr.args.as_slice())? {
        Some(args) => Ok(Task {
            instr: n as u32,
            job: Job { op: instr.op, args },
        }),
        None => unreachable!(),
    }
}
