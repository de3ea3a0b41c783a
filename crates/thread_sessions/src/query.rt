//! A query that is run by workers.
ghost use Rattle.std.specs.Prelude.{◌≡◌, ℕ, ◌<◌, length, None, true, IfOk, OnOk};
ghost use Rattle.mal_meaning.specs.Meaning.{plan_rows};
ghost use Rattle.dataflow.specs.Plans.{NoneOut};
ghost use Rattle.query_run.specs.declared.step.RunningQuery.{RunningQuery as QuerySeen};
ghost use Rattle.query_run.specs.declared.step.Step.TheVariants as step;
ghost use Rattle.session_run.specs.declared.stage.Stage.TheVariants as stage;
ghost use Rattle.session_run.specs.Stages.{IsAside};
ghost use Rattle.thread_sessions.specs.Crews.{CanDo, DoesEvents, HasDone, HasEnded, IsCrew, IsCrewed, IsSound, basis_of, valued_in};
ghost use Rattle.thread_sessions.specs.Runs.{HasRunOn, IsRunner};
ghost use Rattle.pool_policy.specs.Scorers.{IsScorerOf};

use crate::crew::{Crew, Tools};
use crate::kept::{HasOptions, SharedBook};
use crate::runner::{Runner, next_event};
use bat_core::Operate;
use cell_core::{Memory, RunError, Steps};
use dataflow::flow;
use query_run::{Step, overflow};
use run_log::Event;
use score_hook::Scorer;
use session_run::Stage;
use std::alloc::Global;
use std::marker::PhantomData;
use std::mem;
use std::snapshot::Snapshot;
use std::sync::Wait;
use std::sync::ledger::Ledger;
use std::thread::Threads;
use turn_hall::{Hall, Logged};

/// Runs the query that a session has begun, by `workers` workers. Its End is the session's next
/// event.
pub(crate) fn run_query<K: HasOptions, R: Threads + Wait + Sync, E: Operate + Sync, L: Ledger>(
    rt: &R,
    alloc: Global,
    hall: &Hall<SharedBook<K>>,
    runner: Runner<SharedBook<K>>,
    scorer: &Scorer,
    kernel: &E,
    steps: &mut Steps<L>,
    workers: u32,
) -> Result<Runner<SharedBook<K>>, Memory>
    requires scorer { IsScorerOf scorer.now.kind scorer.now.weights.items K.options }
    requires runner { IsRunner K.options hall.now runner }
    requires wide { runner.session.wide ≡ true }
    requires begun { (q : QuerySeen) × (runner.session.stage ≡ stage.Querying (step.Begun q)) }
    ensures { IfOk result (HasRunOn K.options hall.now runner) }
{
    let event = |runner: &mut Runner<SharedBook<K>>| -> Result<(), Memory>
        requires scorer { IsScorerOf scorer.now.kind scorer.now.weights.items K.options }
        requires can { CanDo K.options hall.now runner.old }
        ensures { OnOk result (HasDone K.options hall.entry.now runner.old runner.new) }
    { next_event(rt, alloc, hall, runner, scorer, kernel) };
    run_open::<SharedBook<K>, K, _, _, _, _>(rt, alloc, hall, runner, event, kernel, steps, workers)
}

/// The same, where a closure does the session's events.
fn run_open<
    V: Logged<Entry = Event>,
    K: HasOptions,
    R: Threads + Wait + Sync,
    F: Fn(&mut Runner<V>) -> Result<(), Memory> + Drop,
    E: Operate + Sync,
    L: Ledger,
>(
    rt: &R,
    alloc: Global,
    hall: &Hall<V>,
    runner: Runner<V>,
    event: F,
    kernel: &E,
    steps: &mut Steps<L>,
    workers: u32,
) -> Result<Runner<V>, Memory>
    requires does { DoesEvents F.Fn K.options hall.now event }
    requires runner { IsRunner K.options hall.now runner }
    requires wide { runner.session.wide ≡ true }
    requires begun { (q : QuerySeen) × (runner.session.stage ≡ stage.Querying (step.Begun q)) }
    ensures { IfOk result (HasRunOn K.options hall.now runner) }
{
    let mut crew: Crew<'_, '_, '_, V, K, F, E, L> = open_crew(
        alloc, hall, runner, event, kernel, steps,
    )?;
    match flow(rt, alloc, &mut crew, kernel, workers) {
        Ok(()) => finish(alloc, crew),
        Err(RunError::Overflow) => Ok(give_up(crew)),
        Err(RunError::Memory) => Err(Memory),
    }
}

/// The crew of a session whose query has begun.
fn open_crew<
    'h,
    'k,
    's,
    V: Logged<Entry = Event>,
    K: HasOptions,
    F: Fn(&mut Runner<V>) -> Result<(), Memory> + Drop,
    E: Operate,
    L: Ledger,
>(
    alloc: Global,
    hall: &'h Hall<V>,
    runner: Runner<V>,
    event: F,
    kernel: &'k E,
    steps: &'s mut Steps<L>,
) -> Result<Crew<'h, 'k, 's, V, K, F, E, L>, Memory>
    requires does { DoesEvents F.Fn K.options hall.now event }
    requires runner { IsRunner K.options hall.now runner }
    requires wide { runner.session.wide ≡ true }
    requires begun { (q : QuerySeen) × (runner.session.stage ≡ stage.Querying (step.Begun q)) }
    ensures hall { IfOk result (λ crew. crew.tools.hall.now ≡ hall.entry.now) }
    ensures number { IfOk result (λ crew. crew.tools.began.value.number ≡ runner.session.number) }
    ensures pieces { IfOk result (λ crew. crew.tools.began.value.pieces ≡ runner.session.pieces) }
    ensures sound { IfOk result (λ crew. IsSound F.Fn K.options crew.tools.hall.now crew.tools.event crew.runner crew.tools.began.value crew.handed.items crew.finished.items) }
    ensures none_out { IfOk result (λ crew. NoneOut crew.handed.items crew.finished.items) }
{
    let mut runner = runner;
    let query = match mem::replace(&mut runner.session.stage, Stage::Between) {
        Stage::Querying(Step::Begun(query)) => query.open(alloc)?,
        _ => unreachable!(),
    };
    let instrs = query.plan.instrs.len() as u32;
    runner.session.stage = Stage::Querying(Step::Open(query));
    let began = Snapshot::of(&runner.session);
    let tools = Tools {
        alloc,
        hall,
        event,
        kernel,
        began,
        of: PhantomData,
    };
    Ok(Crew {
        tools,
        steps,
        runner,
        handed: Vec::new(alloc),
        finished: Vec::new(alloc),
        instrs,
    })
}

/// Ends a query that has all its results.
fn finish<
    V: Logged<Entry = Event>,
    K: HasOptions,
    F: Fn(&mut Runner<V>) -> Result<(), Memory> + Drop,
    E: Operate,
    L: Ledger,
>(alloc: Global, crew: Crew<'_, '_, '_, V, K, F, E, L>) -> Result<Runner<V>, Memory>
    requires sound { IsCrew K.options crew.tools.hall.now crew.runner crew.tools.began.value crew.handed.items crew.finished.items }
    requires all { (n : ℕ) → n < length (basis_of crew.tools.began.value.stage).plan.instrs → valued_in crew.runner.session.stage n ≡ true }
    ensures { IfOk result (HasEnded K.options crew.entry.tools.hall.now crew.entry.tools.began.value) }
{
    let mut crew = crew;
    let query = crew.runner.take_query();
    let ending = query.finish(alloc)?;
    Ok(end(crew, ending))
}

/// Ends a query that overflows.
fn give_up<
    V: Logged<Entry = Event>,
    K: HasOptions,
    F: Fn(&mut Runner<V>) -> Result<(), Memory> + Drop,
    E: Operate,
    L: Ledger,
>(crew: Crew<'_, '_, '_, V, K, F, E, L>) -> Runner<V>
    requires sound { IsCrew K.options crew.tools.hall.now crew.runner crew.tools.began.value crew.handed.items crew.finished.items }
    requires none { plan_rows (basis_of crew.tools.began.value.stage).plan (basis_of crew.tools.began.value.stage).database ≡ None }
    ensures { HasEnded K.options crew.entry.tools.hall.now crew.entry.tools.began.value result }
{
    end(crew, overflow())
}

/// Takes the session out of a crew, whose query ends.
fn end<V: Logged<Entry = Event>, K: HasOptions, F: Drop, E, L: Ledger>(
    crew: Crew<'_, '_, '_, V, K, F, E, L>,
    ending: Step,
) -> Runner<V>
    requires crewed { IsCrewed K.options crew.tools.hall.now crew.runner crew.tools.began.value ending }
    requires aside { IsAside (stage.Querying ending) }
    ensures { HasEnded K.options crew.entry.tools.hall.now crew.entry.tools.began.value result }
{
    let mut runner = crew.into_runner();
    runner.session.stage = Stage::Querying(ending);
    runner
}
