//! Running a plan's instructions as soon as their arguments have values.
ghost use Rattle.std.specs.Prelude.{◌≡◌, None, Err, OnOk};
ghost use Rattle.cell_core.specs.declared.memory.RunError.TheVariants as RunError;
ghost use Rattle.mal_meaning.specs.Meaning.{plan_rows};
ghost use Rattle.dataflow.specs.Plans.{NoneOut, IsComplete, HasFault};
ghost use Rattle.dataflow.specs.Hands.{IsHandsOf};
ghost use Rattle.dataflow.specs.Leads.{KnowsOut, IsPairOf, IsRun};
ghost use Rattle.dataflow.specs.Workers.{GiveBackTo};

use crate::alone::{run_alone, run_pair_alone, run_until_two};
use crate::basis::HasBasis;
use crate::bells::Bells;
use crate::jobs::Jobs;
use crate::lead::lead;
use crate::queues::{Hands, Queues};
use crate::task::Pair;
use crate::team::Team;
use crate::workers::work;
use bat_core::Operate;
use cell_core::RunError;
use std::alloc::Global;
use std::marker::Brand;
use std::sync::Wait;
use std::thread;
use std::thread::{Promise, PromisedHandle, Scope, Threads};

/// What runs on the caller's thread while workers run beside it. A scope says nothing of what its
/// closure writes through a `&mut`, so a part that holds one returns it.
trait CallerWork {
    type Output;

    ghost can_run: { Self → Type 0 };

    ghost run_gives: { Self → Self.Output → Type 0 };

    fn run<R: Wait>(self, rt: &R, alone: bool) -> Self::Output
        requires { can_run self }
        ensures { run_gives self result };
}

/// The caller's part: it leads, or does all by itself where no worker could be started.
#[derive(Drop)]
struct Caller<'a, K: HasBasis, J, E> {
    alloc: Global,
    jobs: &'a mut J,
    kernel: &'a E,
    team: &'a Team<K>,
    hands: Hands,
    out: Vec<u32>,
    pair: Pair,
}

impl<'a, K: HasBasis, J: Jobs, E: Operate> CallerWork for Caller<'a, K, J, E> {
    type Output = (&'a mut J, Result<(), RunError>);

    ghost can_run = { λ c. (J.basis c.jobs.now ≡ K.basis) × KnowsOut (J.handed c.jobs.now) (J.finished c.jobs.now) c.out.items × IsPairOf K.basis c.pair c.out.items × IsHandsOf K.basis c.team.now.queues c.hands × J.sound c.jobs.now };

    ghost run_gives = { λ c r. (r.0.ghost_name ≡ c.jobs.ghost_name) × IsRun (J.basis c.jobs.now) (J.basis r.0.now) (J.fixed c.jobs.now) (J.fixed r.0.now) (J.valued r.0.now) (J.needed r.0.now) (J.handed r.0.now) (J.finished r.0.now) (J.sound r.0.now) r.1 };

    fn run<R: Wait>(self, rt: &R, alone: bool) -> (&'a mut J, Result<(), RunError>) {
        let Caller {
            alloc,
            jobs,
            kernel,
            team,
            mut hands,
            mut out,
            pair,
        } = self;
        let result = if alone {
            run_pair_alone::<K, R, J, E>(rt, alloc, jobs, kernel, &mut out, pair)
        } else {
            lead(rt, alloc, jobs, kernel, team, &mut hands, &mut out, pair)
        };
        (jobs, result)
    }
}

/// The promise of a worker: it returns its passes.
#[derive(Clone, Copy, Drop)]
struct GivesBack<'s, K: HasBasis> {
    team: &'s Team<K>,
}

impl<'s, K: HasBasis> Promise<Hands> for GivesBack<'s, K> {
    ghost kept_by = { λ promise hands. IsHandsOf K.basis promise.team.now.queues hands };
}

type Worker<'s, K> = PromisedHandle<Hands, GivesBack<'s, K>>;

/// Keeps a worker, to be joined later. Where there is no memory for that, the scope joins it.
fn keep<'s, K: HasBasis>(team: &'s Team<K>, started: &mut Vec<Worker<'s, K>>, worker: Worker<'s, K>)
    requires theirs { GiveBackTo team.now started.old.items }
    requires worker { worker.promise.team.now ≡ team.now }
    ensures { GiveBackTo team.now started.new.items }
{
    let _ = started.push(worker);
}

/// Starts a worker for each bell. Those that can't be started are left out.
fn start<'s, X: 's, K: HasBasis + Send + Sync, R: Threads + Wait + Sync, E: Operate + Sync>(
    scope: &Scope<'s, X>,
    rt: &'s R,
    alloc: Global,
    kernel: &'s E,
    team: &'s Team<K>,
    hands: &mut Hands,
) -> Vec<Worker<'s, K>>
    requires { IsHandsOf K.basis team.now.queues hands.old }
    ensures ours { IsHandsOf K.basis team.now.queues hands.new }
    ensures theirs { GiveBackTo team.now result.items }
{
    let mut started = Vec::new(alloc);
    'workers: for bell in team.bells.tasks.as_slice() {
        let theirs = team.queues.split(hands);
        let run = move || -> Hands
            requires { IsHandsOf K.basis team.now.queues theirs }
            ensures { IsHandsOf K.basis team.entry.now.queues result }
        { work(rt, alloc, kernel, team, bell, theirs) };
        if let Ok(worker) = scope.spawn_with(GivesBack { team }, run) {
            keep(team, &mut started, worker);
        }
    }
    started
}

/// Joins workers, and their passes.
fn join_all<'s, K: HasBasis + Send + Sync, R: Threads>(
    rt: &R,
    team: &'s Team<K>,
    hands: &mut Hands,
    started: Vec<Worker<'s, K>>,
)
    requires ours { IsHandsOf K.basis team.now.queues hands.old }
    requires theirs { GiveBackTo team.now started.items }
    ensures { IsHandsOf K.basis team.now.queues hands.new }
{
    'workers: for worker in started {
        let theirs = worker.join(rt);
        team.queues.join(hands, theirs);
    }
}

/// Runs the caller's part with workers beside it, and joins them all.
fn beside<
    K: HasBasis + Send + Sync,
    R: Threads + Wait + Sync,
    E: Operate + Sync,
    P: CallerWork + Drop,
>(rt: &R, alloc: Global, kernel: &E, team: &Team<K>, hands: Hands, part: P) -> P::Output
    requires ours { IsHandsOf K.basis team.now.queues hands }
    requires can { P.can_run part }
    ensures { P.run_gives part result }
{
    thread::scope(
        thread::scope_env(),
        rt,
        move |scope| -> P::Output
            requires { P.can_run part × IsHandsOf K.basis team.now.queues hands }
            ensures { P.run_gives part result }
        {
            let mut hands = hands;
            let started = start(scope, rt, alloc, kernel, team, &mut hands);
            let output = part.run(rt, started.is_empty());
            team.end();
            join_all(rt, team, &mut hands, started);
            output
        },
    )
}

// It does nothing, but this use of a reference that came back ties it to what lent it.
fn take_back<T>(x: &mut T)
    ensures { x.new ≡ x.old }
{}

/// Starts workers, and runs the plan with them from two tasks that are out.
fn flow_beside<K: HasBasis + Send + Sync, R: Threads + Wait + Sync, J: Jobs, E: Operate + Sync>(
    rt: &R,
    alloc: Global,
    jobs: &mut J,
    kernel: &E,
    workers: u32,
    out: Vec<u32>,
    pair: Pair,
) -> Result<(), RunError>
    requires named { J.basis jobs.old ≡ K.basis }
    requires known { KnowsOut (J.handed jobs.old) (J.finished jobs.old) out.items }
    requires sound { J.sound jobs.old }
    requires pair { IsPairOf K.basis pair out.items }
    ensures { IsRun (J.basis jobs.old) (J.basis jobs.new) (J.fixed jobs.old) (J.fixed jobs.new) (J.valued jobs.new) (J.needed jobs.new) (J.handed jobs.new) (J.finished jobs.new) (J.sound jobs.new) result }
{
    let instrs = jobs.instrs();
    let (queues, mut hands) = Queues::<K>::new(alloc, instrs.max(1) as usize)?;
    let team = Team::new(queues, Bells::new(alloc, workers.min(instrs))?);
    let theirs = team.queues.split(&mut hands);
    let caller = Caller {
        alloc,
        jobs,
        kernel,
        team: &team,
        hands,
        out,
        pair,
    };
    let (jobs, result) = beside(rt, alloc, kernel, &team, theirs, caller);
    take_back(jobs);
    result
}

/// Runs a plan whose basis has a name. Workers are started once two tasks are ready at once.
fn flow_named<K: HasBasis + Send + Sync, R: Threads + Wait + Sync, J: Jobs, E: Operate + Sync>(
    rt: &R,
    alloc: Global,
    jobs: &mut J,
    kernel: &E,
    workers: u32,
) -> Result<(), RunError>
    requires named { J.basis jobs.old ≡ K.basis }
    requires none_out { NoneOut (J.handed jobs.old) (J.finished jobs.old) }
    requires sound { J.sound jobs.old }
    ensures { IsRun (J.basis jobs.old) (J.basis jobs.new) (J.fixed jobs.old) (J.fixed jobs.new) (J.valued jobs.new) (J.needed jobs.new) (J.handed jobs.new) (J.finished jobs.new) (J.sound jobs.new) result }
{
    let mut out = Vec::new(alloc);
    if workers < 2 {
        return run_alone::<K, R, J, E>(rt, alloc, jobs, kernel, &mut out);
    }
    match run_until_two::<K, R, J, E>(rt, alloc, jobs, kernel, &mut out)? {
        Some(pair) => flow_beside::<K, R, J, E>(rt, alloc, jobs, kernel, workers, out, pair),
        None => Ok(()),
    }
}

/// Runs a plan to its end. Each task that `Jobs::next` returns is run once, by the caller or by one
/// of so many workers beside it. The caller runs the tasks, and no thread is started, where fewer
/// than two workers are asked for and as long as no two tasks are ready at once. After that it runs
/// a task only where the queue is full or no thread could be started. No more workers are started
/// than the plan has instructions. `Overflow` comes exactly where a task that was handed out has no
/// value. What the calls of `Jobs` keep holds after Ok and after `Overflow`. All workers have ended
/// when it returns.
pub fn flow<R: Threads + Wait + Sync, J: Jobs, E: Operate + Sync>(
    rt: &R,
    alloc: Global,
    jobs: &mut J,
    kernel: &E,
    workers: u32,
) -> Result<(), RunError>
    requires none_out { NoneOut (J.handed jobs.old) (J.finished jobs.old) }
    requires sound { J.sound jobs.old }
    ensures basis { J.basis jobs.new ≡ J.basis jobs.old }
    ensures fixed { J.fixed jobs.new ≡ J.fixed jobs.old }
    ensures sound { OnOk result (J.sound jobs.new) }
    ensures complete { OnOk result (IsComplete (J.basis jobs.new) (J.valued jobs.new) (J.needed jobs.new) (J.handed jobs.new) (J.finished jobs.new)) }
    ensures overflow { result ≡ Err RunError.Overflow → HasFault (J.basis jobs.new) (J.handed jobs.new) }
    ensures sound_after_overflow { result ≡ Err RunError.Overflow → J.sound jobs.new }
    ensures no_rows { result ≡ Err RunError.Overflow → plan_rows (J.basis jobs.new).plan (J.basis jobs.new).database ≡ None }
{
    flow_named::<Brand, R, J, E>(rt, alloc, jobs, kernel, workers)
}
