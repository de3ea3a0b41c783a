//! A run in threads, and what is printed of it. It shares no trait with a run by turns: this
//! toolchain can't prove what a trait's method sends to threads.
ghost use Rattle.std.specs.Prelude.{◌≡◌, ◌≢◌, ◌⊎◌, ℕ, List, [], IfOk};
ghost use Rattle.std.specs.Io.KnownBytes.{Appends};
ghost use Rattle.causes.specs.Faults.{AppendsPrefix, Rose};
ghost use Rattle.run_log.specs.Events.{log_tree};
ghost use Rattle.score_hook.specs.declared.stats.Evict.TheVariants.{Weighted};
ghost use Rattle.score_hook.specs.Scores.{AreWeights, IsInRange, score_of};
ghost use Rattle.sql_shell.specs.declared.inputs.Course.TheVariants.{InThreads};
ghost use Rattle.sql_shell.specs.Ready.{AreReady, IsServedBy};
ghost use Rattle.sql_shell.specs.Served.{pool_of};
ghost use Rattle.pool_policy.specs.Scorers.{IsScorerOf};

use crate::numbers::numbers_are_short;
use crate::produce::{Parts, Produced, pool_for, print_run, split};
use crate::scripts::{CutScript, Failure};
use crate::served::{Served, failed, hand_out};
use bat_core::Operate;
use causes::Sink;
use cell_core::{Memory, Sequence};
use command_line::RunOptions;
use run_sessions::Run;
use score_hook::{Evict, Score, ScoreCall, Scorer, Stats, formula, weighted_formula};
use std::alloc::Global;
use std::sync::Wait;
use std::thread::Threads;
use thread_sessions::serve_sessions;

/// Runs scripts that were read, each as a session on a thread of its own as far as threads start,
/// and writes what is printed of their run.
pub(crate) fn serve_in_threads<R: Threads + Wait + Sync, K: Sink, E: Operate + Sync>(
    rt: &R,
    alloc: Global,
    workers: u32,
    options: RunOptions,
    scripts: Vec<CutScript>,
    out: &mut K,
    kernel: &E,
) -> Served
    requires ready { AreReady options scripts.items (InThreads workers) }
    ensures served { result.status ≡ 0 → (text : List ℕ) × Appends (K.contents out.old) (K.contents out.new) text
        × ((before after : ℕ) → IsServedBy options scripts.items (InThreads workers) text (log_tree result.log) result.work before after) }
    ensures prefix { result.status ≡ 3 → (text : List ℕ) × AppendsPrefix (K.contents out.old) (K.contents out.new) text
        × ((before after : ℕ) → IsServedBy options scripts.items (InThreads workers) text (log_tree result.log) result.work before after) }
    ensures write_fault { result.status ≡ 3 → Rose (K.faults out.old) (K.faults out.new) }
    ensures known { (result.status ≡ 0) ⊎ (result.status ≡ 3) ⊎ (result.status ≡ 5) }
    ensures silent { result.status ≡ 5 → (K.contents out.new ≡ K.contents out.old) × (result.log ≡ []) × (result.work ≡ 0) }
    ensures at { result.at ≡ 0 }
{
    match produce_in_threads(rt, alloc, workers, options, scripts, kernel) {
        Err(Memory) => failed(alloc, Failure::Memory),
        Ok(produced) => hand_out(out, produced),
    }
}

/// Runs the scripts as sessions in threads that share a pool of these options. Returns their log,
/// what is printed of it, and their work.
fn produce_in_threads<R: Threads + Wait + Sync, E: Operate + Sync>(
    rt: &R,
    alloc: Global,
    workers: u32,
    options: RunOptions,
    scripts: Vec<CutScript>,
    kernel: &E,
) -> Result<Produced, Memory>
    requires { AreReady options scripts.items (InThreads workers) }
    ensures { IfOk result (λ run. (before after : ℕ) → IsServedBy options scripts.items (InThreads workers) run.text.items (log_tree run.log) run.work before after) }
{
    match options.evict {
        Evict::Weighted => weighted_in_threads(rt, alloc, workers, options, scripts, kernel),
        _ => plain_in_threads(rt, alloc, workers, options, scripts, kernel),
    }
}

/// The same, for an eviction policy without weights of operators.
fn plain_in_threads<R: Threads + Wait + Sync, E: Operate + Sync>(
    rt: &R,
    alloc: Global,
    workers: u32,
    options: RunOptions,
    scripts: Vec<CutScript>,
    kernel: &E,
) -> Result<Produced, Memory>
    requires plain { options.evict ≢ Weighted }
    requires ready { AreReady options scripts.items (InThreads workers) }
    ensures { IfOk result (λ run. (before after : ℕ) → IsServedBy options scripts.items (InThreads workers) run.text.items (log_tree run.log) run.work before after) }
{
    let kind = options.evict;
    let call: ScoreCall = Box::new(
        alloc,
        move |stats: &Stats, now: u64| -> Score
            requires plain { kind ≢ Weighted }
            requires range { IsInRange stats.now now }
            ensures { result ≡ score_of kind [] stats.now now }
        { formula(kind, stats, now) },
    )?;
    let scorer = Scorer::new(alloc, kind, call);
    play_in_threads(rt, alloc, workers, options, scripts, &scorer, kernel)
}

/// The same, for the policy with weights of operators. The closure has a list of its own of them.
fn weighted_in_threads<R: Threads + Wait + Sync, E: Operate + Sync>(
    rt: &R,
    alloc: Global,
    workers: u32,
    options: RunOptions,
    scripts: Vec<CutScript>,
    kernel: &E,
) -> Result<Produced, Memory>
    requires weighted { options.evict ≡ Weighted }
    requires ready { AreReady options scripts.items (InThreads workers) }
    ensures { IfOk result (λ run. (before after : ℕ) → IsServedBy options scripts.items (InThreads workers) run.text.items (log_tree run.log) run.work before after) }
{
    let held = Vec::from_slice(alloc, options.weights.as_slice())?;
    let kept = Vec::from_slice(alloc, options.weights.as_slice())?;
    let call: ScoreCall = Box::new(
        alloc,
        move |stats: &Stats, now: u64| -> Score
            requires weights { AreWeights held.items }
            requires range { IsInRange stats.now now }
            ensures { result ≡ score_of Weighted held.items stats.now now }
        { weighted_formula(held.as_slice(), stats, now) },
    )?;
    let scorer = Scorer::weighted(kept, call);
    play_in_threads(rt, alloc, workers, options, scripts, &scorer, kernel)
}

/// The same, with this scorer.
fn play_in_threads<R: Threads + Wait + Sync, E: Operate + Sync>(
    rt: &R,
    alloc: Global,
    workers: u32,
    options: RunOptions,
    scripts: Vec<CutScript>,
    scorer: &Scorer,
    kernel: &E,
) -> Result<Produced, Memory>
    requires scorer { IsScorerOf scorer.now.kind scorer.now.weights.items (pool_of options) }
    requires ready { AreReady options scripts.items (InThreads workers) }
    ensures { IfOk result (λ run. (before after : ℕ) → IsServedBy options scripts.items (InThreads workers) run.text.items (log_tree run.log) run.work before after) }
{
    let events = options.events;
    let Parts { names, scripts } = split(alloc, scripts)?;
    let pool = pool_for(options);
    let run = serve_sessions(rt, alloc, scripts, pool, scorer, kernel, workers)?;
    numbers_are_short(&run);
    let text = print_run(alloc, events, names.as_slice(), &run)?;
    let Run { log, totals, .. } = run;
    Ok(Produced {
        log: Sequence::from_vec(log),
        text,
        work: totals.work,
    })
}
