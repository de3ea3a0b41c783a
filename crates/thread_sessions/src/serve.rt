//! Sessions in threads over one log.
ghost use Rattle.std.specs.Prelude.{◌≡◌, ℕ, ◌<◌, ◌≤◌, ◌^◌, List, [], length, map, nat_lt, slice_index_or, All, IfOk, Ok};
ghost use Rattle.std.specs.List.{AllByRecursion};
ghost use Rattle.std.specs.declared.vec.Vec.{Vec as VecSeen};
ghost use Rattle.std.specs.declared.alloc.Global.{Global as GlobalSeen};
ghost use Rattle.run_log.specs.Events.{EventTree, log_tree};
ghost use Rattle.turn_hall.specs.Passes.{seen_by};
ghost use Rattle.pool_sound.specs.Sound.{IsSoundAlong};
ghost use Rattle.session_run.specs.Work.{run_totals};
ghost use Rattle.session_run.specs.Stages.{MayBegin};
ghost use Rattle.run_sessions.specs.Tables.{AreOver, AreTexts, scripts_of};
ghost use Rattle.thread_sessions.specs.Runs.{AreJoined, AreRunners, AreSet, HasRunOut, IsFirst, IsRunOut, IsRunner, order_for, sessions_of};
ghost use Rattle.pool_policy.specs.Scorers.{IsScorerOf};

use crate::end::end_run;
use crate::kept::{HasOptions, SharedBook};
use crate::runner::{Runner, run_to_end};
use bat_core::Operate;
use cell_core::{Memory, Sequence, Word};
use pool_policy::PoolOptions;
use run_sessions::Run;
use score_hook::Scorer;
use session_run::Session;
use std::alloc::Global;
use std::marker::Brand;
use std::sync::Wait;
use std::thread;
use std::thread::Threads;
use turn_hall::{Hall, Pass};

/// Runs sessions, one for each script, each on a thread of its own where one starts. They take
/// turns at one book, each at its own pace, until all are done. With more than one worker,
/// `workers` of them run each query. Each thread counts its work for itself.
pub fn serve_sessions<R: Threads + Wait + Sync, E: Operate + Sync>(
    rt: &R,
    alloc: Global,
    scripts: Vec<Sequence<Word>>,
    options: PoolOptions,
    scorer: &Scorer,
    kernel: &E,
    workers: u32,
) -> Result<Run, Memory>
    requires few { length scripts.items ≤ 16 }
    requires short { AllByRecursion (λ (pieces : List (List ℕ)). length pieces ≤ 256) scripts.items }
    requires scorer { IsScorerOf scorer.now.kind scorer.now.weights.items options }
    requires places { options.places ≤ 1024 }
    requires budget { options.budget ≤ 2 ^ 40 }
    ensures played { IfOk result (λ run. IsRunOut (order_for workers) options scripts.items (log_tree run.log.items)) }
    ensures sessions { IfOk result (λ run. AllByRecursion (λ (event : EventTree). (1 ≤ event.session) × (event.session ≤ length scripts.items)) (log_tree run.log.items)) }
    ensures sound { IfOk result (λ run. IsSoundAlong options (log_tree run.log.items)) }
    ensures texts { IfOk result (λ run. AreTexts (log_tree run.log.items) 1 scripts.items (map (λ (text : VecSeen ℕ GlobalSeen). text.items) run.texts.items)) }
    ensures totals { IfOk result (λ run. run.totals ≡ run_totals options (log_tree run.log.items)) }
{
    serve::<Brand, R, E>(rt, alloc, scripts, options, scorer, kernel, workers)
}

/// The same, under options that a type names.
fn serve<K: HasOptions + Send + Sync, R: Threads + Wait + Sync, E: Operate + Sync>(
    rt: &R,
    alloc: Global,
    scripts: Vec<Sequence<Word>>,
    options: PoolOptions,
    scorer: &Scorer,
    kernel: &E,
    workers: u32,
) -> Result<Run, Memory>
    requires options { options ≡ K.options }
    requires few { length scripts.items ≤ 16 }
    requires short { AllByRecursion (λ (pieces : List (List ℕ)). length pieces ≤ 256) scripts.items }
    requires scorer { IsScorerOf scorer.now.kind scorer.now.weights.items K.options }
    requires places { options.places ≤ 1024 }
    requires budget { options.budget ≤ 2 ^ 40 }
    ensures played { IfOk result (λ run. IsRunOut (order_for workers) K.options scripts.items (log_tree run.log.items)) }
    ensures sessions { IfOk result (λ run. AllByRecursion (λ (event : EventTree). (1 ≤ event.session) × (event.session ≤ length scripts.items)) (log_tree run.log.items)) }
    ensures sound { IfOk result (λ run. IsSoundAlong K.options (log_tree run.log.items)) }
    ensures texts { IfOk result (λ run. AreTexts (log_tree run.log.items) 1 scripts.items (map (λ (text : VecSeen ℕ GlobalSeen). text.items) run.texts.items)) }
    ensures totals { IfOk result (λ run. run.totals ≡ run_totals K.options (log_tree run.log.items)) }
{
    let kept = SharedBook::<K>::new(alloc, options)?;
    let (hall, mut pass) = Hall::new(alloc, kept)?;
    let started = start_all(alloc, &hall, &mut pass, scripts, workers > 1)?;
    let ended = run_all(rt, alloc, &hall, started, scorer, kernel, workers)?;
    let sessions = join_all(alloc, &hall, &mut pass, ended)?;
    let book = hall.close(pass).into_book();
    end_run(alloc, book, sessions)
}

/// A session for each script, each with a pass that is split from the first one.
fn start_all<K: HasOptions>(
    alloc: Global,
    hall: &Hall<SharedBook<K>>,
    pass: &mut Pass<SharedBook<K>>,
    scripts: Vec<Sequence<Word>>,
    wide: bool,
) -> Result<Vec<Runner<SharedBook<K>>>, Memory>
    requires few { length scripts.items ≤ 16 }
    requires short { AllByRecursion (λ (pieces : List (List ℕ)). length pieces ≤ 256) scripts.items }
    requires first { IsFirst hall.now pass.old 0 0 }
    requires seen { seen_by pass.old ≡ [] }
    ensures scripts { IfOk result (λ runners. scripts_of (sessions_of runners.items) ≡ scripts.items) }
    ensures runners { IfOk result (λ runners. AreRunners K.options hall.now runners.items) }
    ensures set { IfOk result (λ runners. AreSet wide (sessions_of runners.items)) }
    ensures first { IfOk result (λ runners. IsFirst hall.now pass.new (length runners.items) 0) }
{
    let mut runners = Vec::new(alloc);
    'scripts: for pieces in scripts {
        let number = runners.len() as u32 + 1;
        let other = hall.split(alloc, pass)?;
        let session = Session::new(alloc, number, pieces, wide);
        runners.push(Runner {
            pass: other,
            session,
        })?;
    }
    Ok(runners)
}

/// Runs each session to its end, on a thread of its own where one starts.
fn run_each<K: HasOptions + Send + Sync, R: Threads + Wait + Sync, E: Operate + Sync>(
    rt: &R,
    alloc: Global,
    hall: &Hall<SharedBook<K>>,
    runners: Vec<Runner<SharedBook<K>>>,
    scorer: &Scorer,
    kernel: &E,
    workers: u32,
) -> Result<Vec<Result<Runner<SharedBook<K>>, Memory>>, Memory>
    requires scorer { IsScorerOf scorer.now.kind scorer.now.weights.items K.options }
    requires runners { All (λ runner. IsRunner K.options hall.now runner × (runner.session.wide ≡ nat_lt 1 workers) × MayBegin runner.session.stage) runners.items }
    ensures length { IfOk result (λ ended. length ended.items ≡ length runners.items) }
    ensures each { IfOk result (λ ended. (place : ℕ) (r : _) (runner : _) → place < length runners.items → IfOk (slice_index_or ended.items place r) (λ after. HasRunOut K.options hall.now (slice_index_or runners.items place runner) after)) }
{
    let run = |runner: Runner<SharedBook<K>>| -> Result<Runner<SharedBook<K>>, Memory>
        requires { (scorer.now.kind ≡ K.options.evict) × (scorer.now.weights.items ≡ K.options.weights) × IsRunner K.options hall.now runner × (runner.session.wide ≡ nat_lt 1 workers) × MayBegin runner.session.stage }
        ensures { IfOk result (λ after. HasRunOut K.options hall.entry.now runner after) }
    { run_to_end(rt, alloc, hall, runner, scorer, kernel, workers) };
    let ended = thread::map_vec(rt, runners, &run)?;
    Ok(ended)
}

/// The sessions, unless one lacked memory.
fn all_ended<K: HasOptions>(
    alloc: Global,
    ended: Vec<Result<Runner<SharedBook<K>>, Memory>>,
) -> Result<Vec<Runner<SharedBook<K>>>, Memory>
    ensures { IfOk result (λ runners. map Ok runners.items ≡ ended.items) }
{
    let mut runners = Vec::new(alloc);
    'ended: for runner in ended {
        runners.push(runner?)?;
    }
    Ok(runners)
}

/// Runs all sessions to their ends.
fn run_all<K: HasOptions + Send + Sync, R: Threads + Wait + Sync, E: Operate + Sync>(
    rt: &R,
    alloc: Global,
    hall: &Hall<SharedBook<K>>,
    runners: Vec<Runner<SharedBook<K>>>,
    scorer: &Scorer,
    kernel: &E,
    workers: u32,
) -> Result<Vec<Runner<SharedBook<K>>>, Memory>
    requires scorer { IsScorerOf scorer.now.kind scorer.now.weights.items K.options }
    requires runners { AreRunners K.options hall.now runners.items }
    requires set { AreSet (nat_lt 1 workers) (sessions_of runners.items) }
    ensures length { IfOk result (λ ended. length ended.items ≡ length runners.items) }
    ensures scripts { IfOk result (λ ended. scripts_of (sessions_of ended.items) ≡ scripts_of (sessions_of runners.items)) }
    ensures runners { IfOk result (λ ended. AreRunners K.options hall.now ended.items) }
    ensures set { IfOk result (λ ended. AreSet (nat_lt 1 workers) (sessions_of ended.items)) }
    ensures over { IfOk result (λ ended. AreOver (length ended.items) (sessions_of ended.items)) }
{
    let ended = run_each(rt, alloc, hall, runners, scorer, kernel, workers)?;
    all_ended(alloc, ended)
}

/// Joins the passes of sessions to the first one, and returns the sessions.
fn join_all<K: HasOptions>(
    alloc: Global,
    hall: &Hall<SharedBook<K>>,
    pass: &mut Pass<SharedBook<K>>,
    runners: Vec<Runner<SharedBook<K>>>,
) -> Result<Vec<Session>, Memory>
    requires first { IsFirst hall.now pass.old (length runners.items) 0 }
    requires runners { AreRunners K.options hall.now runners.items }
    ensures sessions { IfOk result (λ sessions. sessions.items ≡ sessions_of runners.items) }
    ensures joined { IfOk result (λ sessions. AreJoined K.options pass.new sessions.items) }
    ensures first { IfOk result (λ sessions. IsFirst hall.now pass.new (length sessions.items) (length sessions.items)) }
{
    let mut sessions = Vec::new(alloc);
    'runners: for runner in runners {
        let (other, session) = runner.into_parts();
        hall.join(pass, other);
        sessions.push(session)?;
    }
    Ok(sessions)
}
