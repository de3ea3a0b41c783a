//! The run of the sample scripts of a number, and the text that is written of it.
ghost use Rattle.std.specs.Prelude.{◌≡◌, ◌≤◌, ◌⊎◌, ℕ, List, [], IfOk};
ghost use Rattle.std.specs.Io.KnownBytes.{Appends};
ghost use Rattle.causes.specs.Faults.{AppendsPrefix, Rose};
ghost use Rattle.run_log.specs.Events.{log_tree};
ghost use Rattle.score_hook.specs.declared.stats.Evict.TheVariants.{Lru};
ghost use Rattle.score_hook.specs.Scores.{IsInRange, score_of};
ghost use Rattle.sql_shell.specs.Generated as told;
ghost use Rattle.sql_shell.specs.Generated.{IsGenerated};
ghost use Rattle.pool_policy.specs.Scorers.{IsScorerOf};

use crate::numbers::numbers_are_short;
use crate::produce::{Produced, pool_for};
use crate::scripts::Failure;
use crate::served::{Served, failed, hand_out};
use answer_text::write_totals;
use bat_core::Operate;
use causes::Sink;
use cell_core::{Memory, Sequence, Steps};
use command_line::default_options;
use itoa::Buffer;
use pool_policy::PoolOptions;
use run_log::Totals;
use run_sessions::{Run, play_sessions};
use sample_scripts::{SampleScripts, sample_scripts};
use score_hook::{Evict, Score, ScoreCall, Scorer, Stats, formula};
use std::alloc::Global;
use std::sync::ledger::Ledger;

/// Runs the sample scripts of a number, and writes the number and the pool's totals.
pub(crate) fn serve_generated<K: Sink, E: Operate, L: Ledger>(
    alloc: Global,
    seed: u64,
    out: &mut K,
    kernel: &E,
    steps: &mut Steps<L>,
) -> Served
    requires { seed ≤ 1000000 }
    ensures served { result.status ≡ 0 → (text : List ℕ) × Appends (K.contents out.old) (K.contents out.new) text
        × IsGenerated seed text (log_tree result.log) result.work steps.old steps.new }
    ensures prefix { result.status ≡ 3 → (text : List ℕ) × AppendsPrefix (K.contents out.old) (K.contents out.new) text
        × IsGenerated seed text (log_tree result.log) result.work steps.old steps.new }
    ensures write_fault { result.status ≡ 3 → Rose (K.faults out.old) (K.faults out.new) }
    ensures known { (result.status ≡ 0) ⊎ (result.status ≡ 3) ⊎ (result.status ≡ 5) }
    ensures silent { result.status ≡ 5 → (K.contents out.new ≡ K.contents out.old) × (result.log ≡ []) × (result.work ≡ 0) }
    ensures at { result.at ≡ 0 }
{
    match generate(alloc, seed, kernel, steps) {
        Err(Memory) => failed(alloc, Failure::Memory),
        Ok(produced) => hand_out(out, produced),
    }
}

/// Runs the sample scripts of a number. Returns their log, the text that is written of it, and
/// their work.
fn generate<E: Operate, L: Ledger>(
    alloc: Global,
    seed: u64,
    kernel: &E,
    steps: &mut Steps<L>,
) -> Result<Produced, Memory>
    requires { seed ≤ 1000000 }
    ensures { IfOk result (λ run. IsGenerated seed run.text.items (log_tree run.log) run.work steps.old steps.new) }
{
    let call: ScoreCall = Box::new(
        alloc,
        move |stats: &Stats, now: u64| -> Score
            requires { IsInRange stats.now now }
            ensures { result ≡ score_of Lru [] stats.now now }
        { formula(Evict::Lru, stats, now) },
    )?;
    let scorer = Scorer::new(alloc, Evict::Lru, call);
    replay_samples(alloc, seed, &scorer, kernel, steps)
}

/// The same, with this scorer.
fn replay_samples<E: Operate, L: Ledger>(
    alloc: Global,
    seed: u64,
    scorer: &Scorer,
    kernel: &E,
    steps: &mut Steps<L>,
) -> Result<Produced, Memory>
    requires seed { seed ≤ 1000000 }
    requires scorer { IsScorerOf scorer.now.kind scorer.now.weights.items told.default_pool }
    ensures { IfOk result (λ run. IsGenerated seed run.text.items (log_tree run.log) run.work steps.old steps.new) }
{
    let SampleScripts { changes, queries } = sample_scripts(alloc, seed)?;
    let mut scripts = Vec::new(alloc);
    scripts.push(changes)?;
    scripts.push(queries)?;
    let pool = default_pool(alloc);
    let run = play_sessions(alloc, scripts, &[], pool, scorer, kernel, steps)?;
    numbers_are_short(&run);
    let text = generated_text(alloc, seed, &run.totals)?;
    let Run { log, totals, .. } = run;
    Ok(Produced {
        log: Sequence::from_vec(log),
        text,
        work: totals.work,
    })
}

/// The pool of a run with the default options.
fn default_pool(alloc: Global) -> PoolOptions
    ensures { result ≡ told.default_pool }
{
    pool_for(default_options(alloc))
}

/// The text that is written: the number, and the pool's totals.
fn generated_text(alloc: Global, seed: u64, totals: &Totals) -> Result<Vec<u8>, Memory>
    ensures { IfOk result (λ text. text.items ≡ told.generated_text seed totals.now) }
{
    let mut buffer = Buffer::new();
    let mut text = Vec::from_slice(alloc, b"generated ")?;
    text.extend_from_slice(buffer.format(seed).as_bytes())?;
    text.extend_from_slice(b"\n")?;
    write_totals(alloc, totals, &mut text)?;
    Ok(text)
}
