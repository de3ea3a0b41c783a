//! A run of scripts, and what is printed of it.
ghost use Rattle.std.specs.Prelude.{◌≡◌, ◌≢◌, ◌≤◌, ◌++◌, ℕ, List, [], length, map, IfOk, if◌then◌else◌};
ghost use Rattle.std.specs.declared.vec.Vec.{Vec as VecSeen};
ghost use Rattle.std.specs.declared.alloc.Global.{Global as GlobalSeen};
ghost use Rattle.run_log.specs.Events.{log_tree};
ghost use Rattle.answer_text.specs.Layout.{history_text, log_text, totals_text};
ghost use Rattle.score_hook.specs.declared.stats.Evict.TheVariants.{Weighted};
ghost use Rattle.score_hook.specs.Scores.{AreWeights, IsInRange, score_of};
ghost use Rattle.sql_shell.specs.Scripts.{names_of, pieces_in};
ghost use Rattle.sql_shell.specs.Ready.{AreReady, IsServedBy};
ghost use Rattle.sql_shell.specs.Served.{pool_of, texts_under};
ghost use Rattle.pool_policy.specs.Scorers.{IsScorerOf};

use crate::numbers::numbers_are_short;
use crate::runner::SessionRunner;
use crate::scripts::CutScript;
use answer_text::{write_history, write_log, write_session_line, write_totals};
use bat_core::Operate;
use cell_core::{Memory, Sequence, Steps, Word};
use command_line::RunOptions;
use pool_policy::PoolOptions;
use run_log::Event;
use run_sessions::Run;
use score_hook::{Evict, Score, ScoreCall, Scorer, Stats, formula, weighted_formula};
use std::alloc::Global;
use std::sync::ledger::Ledger;

/// The most entries of a pool.
const MOST_ENTRIES: u64 = 1_024;

/// The outcome of a run.
#[derive(Drop)]
pub struct Produced {
    /// The log.
    pub log: Sequence<Event>,
    /// The text that is printed of it.
    pub text: Vec<u8>,
    /// The work that was done.
    pub work: u128,
}

/// Runs the scripts as sessions that share a pool of these options, by this runner. Returns their
/// log, what is printed of it, and their work. By turns the counter rises by the work, and beyond
/// it by no more than the loads of the plans that overflow.
pub fn produce<C: SessionRunner, E: Operate + Sync, L: Ledger>(
    runner: &C,
    alloc: Global,
    options: RunOptions,
    scripts: Vec<CutScript>,
    kernel: &E,
    steps: &mut Steps<L>,
) -> Result<Produced, Memory>
    requires { AreReady options scripts.items (C.course runner.now) }
    ensures { IfOk result (λ run. IsServedBy options scripts.items (C.course runner.now) run.text.items (log_tree run.log) run.work steps.old steps.new) }
{
    match options.evict {
        Evict::Weighted => produce_weighted(runner, alloc, options, scripts, kernel, steps),
        _ => produce_plain(runner, alloc, options, scripts, kernel, steps),
    }
}

/// The same, for an eviction policy without weights of operators.
fn produce_plain<C: SessionRunner, E: Operate + Sync, L: Ledger>(
    runner: &C,
    alloc: Global,
    options: RunOptions,
    scripts: Vec<CutScript>,
    kernel: &E,
    steps: &mut Steps<L>,
) -> Result<Produced, Memory>
    requires plain { options.evict ≢ Weighted }
    requires ready { AreReady options scripts.items (C.course runner.now) }
    ensures { IfOk result (λ run. IsServedBy options scripts.items (C.course runner.now) run.text.items (log_tree run.log) run.work steps.old steps.new) }
{
    let kind = options.evict;
    let call: ScoreCall = Box::new(
        alloc,
        move |stats: &Stats, now: u64| -> Score
            requires plain { kind ≢ Weighted }
            requires range { IsInRange stats.now now }
            ensures { result ≡ score_of kind [] stats.now now }
        { formula(kind, stats, now) },
    )?;
    let scorer = Scorer::new(alloc, kind, call);
    play(runner, alloc, options, scripts, &scorer, kernel, steps)
}

/// The same, for the policy with weights of operators. The closure has a list of its own of them.
fn produce_weighted<C: SessionRunner, E: Operate + Sync, L: Ledger>(
    runner: &C,
    alloc: Global,
    options: RunOptions,
    scripts: Vec<CutScript>,
    kernel: &E,
    steps: &mut Steps<L>,
) -> Result<Produced, Memory>
    requires weighted { options.evict ≡ Weighted }
    requires ready { AreReady options scripts.items (C.course runner.now) }
    ensures { IfOk result (λ run. IsServedBy options scripts.items (C.course runner.now) run.text.items (log_tree run.log) run.work steps.old steps.new) }
{
    let held = Vec::from_slice(alloc, options.weights.as_slice())?;
    let kept = Vec::from_slice(alloc, options.weights.as_slice())?;
    let call: ScoreCall = Box::new(
        alloc,
        move |stats: &Stats, now: u64| -> Score
            requires weights { AreWeights held.items }
            requires range { IsInRange stats.now now }
            ensures { result ≡ score_of Weighted held.items stats.now now }
        { weighted_formula(held.as_slice(), stats, now) },
    )?;
    let scorer = Scorer::weighted(kept, call);
    play(runner, alloc, options, scripts, &scorer, kernel, steps)
}

/// The same, with this scorer.
fn play<C: SessionRunner, E: Operate + Sync, L: Ledger>(
    runner: &C,
    alloc: Global,
    options: RunOptions,
    scripts: Vec<CutScript>,
    scorer: &Scorer,
    kernel: &E,
    steps: &mut Steps<L>,
) -> Result<Produced, Memory>
    requires scorer { IsScorerOf scorer.now.kind scorer.now.weights.items (pool_of options) }
    requires ready { AreReady options scripts.items (C.course runner.now) }
    ensures { IfOk result (λ run. IsServedBy options scripts.items (C.course runner.now) run.text.items (log_tree run.log) run.work steps.old steps.new) }
{
    let events = options.events;
    let Parts { names, scripts } = split(alloc, scripts)?;
    let pool = pool_for(options);
    let run = runner.run_scripts(alloc, scripts, pool, scorer, kernel, steps)?;
    numbers_are_short(&run);
    let text = print_run(alloc, events, names.as_slice(), &run)?;
    let Run { log, totals, .. } = run;
    Ok(Produced {
        log: Sequence::from_vec(log),
        text,
        work: totals.work,
    })
}

/// The pool of a run with these options.
pub(crate) fn pool_for(options: RunOptions) -> PoolOptions
    ensures { result ≡ pool_of options }
{
    PoolOptions {
        places: MOST_ENTRIES,
        budget: options.budget,
        evict: options.evict,
        weights: options.weights,
        admit: options.admit,
        credits: options.credits,
    }
}

/// Scripts, split into their names and the texts of their statements.
#[derive(Drop)]
pub(crate) struct Parts {
    pub(crate) names: Vec<Word>,
    pub(crate) scripts: Vec<Sequence<Word>>,
}

/// Splits scripts into their names and the texts of their statements.
pub(crate) fn split(alloc: Global, scripts: Vec<CutScript>) -> Result<Parts, Memory>
    ensures names { IfOk result (λ parts. parts.names.items ≡ names_of scripts.items) }
    ensures scripts { IfOk result (λ parts. parts.scripts.items ≡ pieces_in scripts.items) }
{
    let mut names = Vec::new(alloc);
    let mut texts = Vec::new(alloc);
    'scripts: for script in scripts {
        let CutScript { name, pieces } = script;
        names.push(name)?;
        texts.push(pieces)?;
    }
    Ok(Parts {
        names,
        scripts: texts,
    })
}

/// What is printed of a run: each session under its name, the history, the totals, and the log if it is
/// asked for.
pub(crate) fn print_run(
    alloc: Global,
    events: bool,
    names: &[Word],
    run: &Run,
) -> Result<Vec<u8>, Memory>
    requires few { length names.now ≤ 16 }
    requires each { length run.now.texts.items ≡ length names.now }
    ensures { IfOk result (λ text. text.items ≡ ((texts_under 1 names.now (map (λ (t : VecSeen ℕ GlobalSeen). t.items) run.now.texts.items) ++ history_text (log_tree run.now.log.items)) ++ totals_text run.now.totals) ++ (if events then log_text (log_tree run.now.log.items) else [])) }
{
    let mut text = print_sessions(alloc, names, run.texts.as_slice())?;
    write_history(alloc, run.log.as_slice(), &mut text)?;
    write_totals(alloc, &run.totals, &mut text)?;
    if events {
        write_log(alloc, run.log.as_slice(), &mut text)?;
    }
    Ok(text)
}

/// The texts of sessions, each under its name.
fn print_sessions(alloc: Global, names: &[Word], texts: &[Vec<u8>]) -> Result<Vec<u8>, Memory>
    requires few { length names.now ≤ 16 }
    requires each { length texts.now ≡ length names.now }
    ensures { IfOk result (λ text. text.items ≡ texts_under 1 names.now (map (λ (t : VecSeen ℕ GlobalSeen). t.items) texts.now)) }
{
    let mut text = Vec::new(alloc);
    'sessions: for i in 0..names.len() {
        let number = i as u32 + 1;
        write_session_line(alloc, number, names[i].text(), &mut text)?;
        text.extend_from_slice(texts[i].as_slice())?;
    }
    Ok(text)
}
