//! A session on a thread of its own.
ghost use Rattle.std.specs.Prelude.{◌≡◌, ◌<◌, ℕ, nat_lt, true, false, IfOk, OnOk};
ghost use Rattle.query_run.specs.declared.step.RunningQuery.{RunningQuery as QuerySeen};
ghost use Rattle.query_run.specs.declared.step.Step.TheVariants as step;
ghost use Rattle.session_run.specs.declared.stage.Stage.TheVariants as stage;
ghost use Rattle.session_run.specs.Stages.{IsAside, MayBegin};
ghost use Rattle.thread_sessions.specs.Crews.{CanDo, HasDone};
ghost use Rattle.thread_sessions.specs.Runs.{HasRunOn, HasRunOut, IsRunner};
ghost use Rattle.pool_policy.specs.Scorers.{IsScorerOf};

use crate::kept::{HasOptions, SharedBook};
use crate::query::run_query;
use crate::turn::{do_event, take_turn};
use bat_core::Operate;
use cell_core::{Memory, Steps};
use query_run::Step;
use score_hook::Scorer;
use session_run::{Session, Stage};
use std::alloc::Global;
use std::marker::Brand;
use std::sync::Wait;
use std::sync::ledger::{Blank, Ledger};
use std::thread::Threads;
use turn_hall::{Hall, Logged, Pass};

/// A session, and the pass by which it takes turns.
pub(crate) struct Runner<V: Logged> {
    pub(crate) pass: Pass<V>,
    pub(crate) session: Session,
}

// By a call of its own, so that proofs needn't go through its forms where one is dropped.
impl<V: Logged> Drop for Runner<V> {
    fn drop(self) {
        let Runner {
            pass: _,
            session: _,
        } = self;
    }
}

impl<V: Logged> Runner<V> {
    /// Its pass and its session.
    pub(crate) fn into_parts(self) -> (Pass<V>, Session)
        ensures { result ≡ (self.pass, self.session) }
    {
        let Runner { pass, session } = self;
        (pass, session)
    }
}

/// Does a session's next event in one turn, with a counter of its own.
pub(crate) fn next_event<K: HasOptions, R: Wait, E: Operate>(
    rt: &R,
    alloc: Global,
    hall: &Hall<SharedBook<K>>,
    runner: &mut Runner<SharedBook<K>>,
    scorer: &Scorer,
    kernel: &E,
) -> Result<(), Memory>
    requires scorer { IsScorerOf scorer.now.kind scorer.now.weights.items K.options }
    requires can { CanDo K.options hall.now runner.old }
    ensures { OnOk result (HasDone K.options hall.now runner.old runner.new) }
{
    counted_event::<K, R, E, Brand>(rt, alloc, hall, runner, scorer, kernel, Blank::new(1))
}

/// The same, with this counter.
fn counted_event<K: HasOptions, R: Wait, E: Operate, L: Ledger>(
    rt: &R,
    alloc: Global,
    hall: &Hall<SharedBook<K>>,
    runner: &mut Runner<SharedBook<K>>,
    scorer: &Scorer,
    kernel: &E,
    blank: Blank,
) -> Result<(), Memory>
    requires name { blank.name ≡ L.name }
    requires parts { blank.parts ≡ L.parts }
    requires some { 0 < blank.parts }
    requires scorer { IsScorerOf scorer.now.kind scorer.now.weights.items K.options }
    requires can { CanDo K.options hall.now runner.old }
    ensures { OnOk result (HasDone K.options hall.now runner.old runner.new) }
{
    let mut steps = Steps::<L>::new(blank);
    do_event(
        rt,
        alloc,
        hall,
        &mut runner.pass,
        &mut runner.session,
        scorer,
        kernel,
        &mut steps,
    )
}

/// Whether the session's query has just begun.
fn has_begun(session: &Session) -> bool
    ensures yes { result ≡ true → (q : QuerySeen) × (session.now.stage ≡ stage.Querying (step.Begun q)) }
    ensures no { result ≡ false → MayBegin session.now.stage → IsAside session.now.stage }
{
    matches!(&session.stage, Stage::Querying(Step::Begun(_)))
}

/// Runs a query that has just begun to its end, by workers.
fn run_begun<K: HasOptions, R: Threads + Wait + Sync, E: Operate + Sync, L: Ledger>(
    rt: &R,
    alloc: Global,
    hall: &Hall<SharedBook<K>>,
    runner: Runner<SharedBook<K>>,
    scorer: &Scorer,
    kernel: &E,
    steps: &mut Steps<L>,
    workers: u32,
) -> Result<Runner<SharedBook<K>>, Memory>
    requires scorer { IsScorerOf scorer.now.kind scorer.now.weights.items K.options }
    requires runner { IsRunner K.options hall.now runner }
    requires wide { runner.session.wide ≡ true }
    requires begins { MayBegin runner.session.stage }
    ensures { IfOk result (HasRunOn K.options hall.now runner) }
{
    if has_begun(&runner.session) {
        return run_query(rt, alloc, hall, runner, scorer, kernel, steps, workers);
    }
    Ok(runner)
}

/// Runs a session to its end, turn by turn.
fn run_counted<K: HasOptions, R: Threads + Wait + Sync, E: Operate + Sync, L: Ledger>(
    rt: &R,
    alloc: Global,
    hall: &Hall<SharedBook<K>>,
    runner: Runner<SharedBook<K>>,
    scorer: &Scorer,
    kernel: &E,
    workers: u32,
    blank: Blank,
) -> Result<Runner<SharedBook<K>>, Memory>
    requires name { blank.name ≡ L.name }
    requires parts { blank.parts ≡ L.parts }
    requires some { 0 < blank.parts }
    requires scorer { IsScorerOf scorer.now.kind scorer.now.weights.items K.options }
    requires runner { IsRunner K.options hall.now runner }
    requires wide { runner.session.wide ≡ nat_lt 1 workers }
    requires begins { MayBegin runner.session.stage }
    ensures { IfOk result (λ ended. HasRunOut K.options hall.now runner ended) }
{
    let mut runner = runner;
    let mut steps = Steps::<L>::new(blank);
    'turns: for _ in rt.forever() {
        if workers > 1 {
            runner = run_begun(rt, alloc, hall, runner, scorer, kernel, &mut steps, workers)?;
        }
        if !take_turn(
            rt,
            alloc,
            hall,
            &mut runner.pass,
            &mut runner.session,
            scorer,
            kernel,
            &mut steps,
        )? {
            return Ok(runner);
        }
    }
    unreachable!()
}

/// Runs a session to its end, with a counter of its own.
pub(crate) fn run_to_end<K: HasOptions, R: Threads + Wait + Sync, E: Operate + Sync>(
    rt: &R,
    alloc: Global,
    hall: &Hall<SharedBook<K>>,
    runner: Runner<SharedBook<K>>,
    scorer: &Scorer,
    kernel: &E,
    workers: u32,
) -> Result<Runner<SharedBook<K>>, Memory>
    requires scorer { IsScorerOf scorer.now.kind scorer.now.weights.items K.options }
    requires runner { IsRunner K.options hall.now runner }
    requires wide { runner.session.wide ≡ nat_lt 1 workers }
    requires begins { MayBegin runner.session.stage }
    ensures { IfOk result (λ ended. HasRunOut K.options hall.now runner ended) }
{
    run_counted::<K, R, E, Brand>(
        rt,
        alloc,
        hall,
        runner,
        scorer,
        kernel,
        workers,
        Blank::new(1),
    )
}
