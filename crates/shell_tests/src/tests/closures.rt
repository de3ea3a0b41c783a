//! The pool's entries are scored by the closure that is handed down to it.
ghost use Rattle.std.specs.Prelude.{◌≡◌, ◌<◌, [], IfOk};
ghost use Rattle.score_hook.specs.declared.stats.Evict.TheVariants.{History};
ghost use Rattle.score_hook.specs.Scores.{IsInRange, score_of};

use bat_kernel::Kernel;
use cell_core::{Memory, Sequence, Steps, word_of};
use pool_policy::{Admit, PoolOptions};
use run_sessions::{Run, play_sessions};
use score_hook::{Evict, Score, ScoreCall, Scorer, Stats, formula};
use std::alloc::Global;
use std::marker::Brand;
use std::sync::Arc;
use std::sync::atomic::{AtomicU64, Ordering};
use std::sync::ledger::{Blank, Ledger};
use std::test::Fail;

/// Runs four queries over three tables as one session, with too little room for all results.
fn run_by<L: Ledger>(alloc: Global, scorer: &Scorer, blank: Blank) -> Result<Run, Memory>
    requires kind { scorer.now.kind ≡ History }
    requires weights { scorer.now.weights.items ≡ [] }
    requires name { blank.name ≡ L.name }
    requires parts { blank.parts ≡ L.parts }
    requires some { 0 < blank.parts }
{
    let pieces = vec![in alloc;
        word_of(alloc, "CREATE TABLE u (a INT)")?,
        word_of(alloc, "CREATE TABLE v (a INT)")?,
        word_of(alloc, "CREATE TABLE w (a INT)")?,
        word_of(alloc, "INSERT INTO u VALUES (1), (2)")?,
        word_of(alloc, "INSERT INTO v VALUES (1)")?,
        word_of(alloc, "INSERT INTO w VALUES (1)")?,
        word_of(alloc, "SELECT COUNT(*) FROM u")?,
        word_of(alloc, "SELECT COUNT(*) FROM v")?,
        word_of(alloc, "SELECT COUNT(*) FROM w")?,
        word_of(alloc, "SELECT COUNT(*) FROM u")?,
    ]?;
    let scripts = vec![in alloc; Sequence::from_vec(pieces)]?;
    let options = PoolOptions {
        places: 1_024,
        budget: 584,
        evict: Evict::History,
        weights: Sequence::new(alloc),
        admit: Admit::All,
        credits: 1,
    };
    let mut steps = Steps::<L>::new(blank);
    play_sessions(
        alloc,
        scripts,
        &[],
        options,
        scorer,
        &Kernel::new(),
        &mut steps,
    )
}

fn run_here(alloc: Global, scorer: &Scorer) -> Result<Run, Memory>
    requires kind { scorer.now.kind ≡ History }
    requires weights { scorer.now.weights.items ≡ [] }
{
    run_by::<Brand>(alloc, scorer, Blank::new(1))
}

/// The scores by the formula of `history`.
fn by_formula(alloc: Global) -> Result<Scorer, Memory>
    ensures kind { IfOk result (λ scorer. scorer.kind ≡ History) }
    ensures weights { IfOk result (λ scorer. scorer.weights.items ≡ []) }
{
    let call: ScoreCall = Box::new(
        alloc,
        move |stats: &Stats, now: u64| -> Score
            requires { IsInRange stats.now now }
            ensures { result ≡ score_of History [] stats.now now }
        { formula(Evict::History, stats, now) },
    )?;
    Ok(Scorer::new(alloc, Evict::History, call))
}

/// The same scores by a closure that counts its calls. It computes the age by a test instead of a
/// subtraction that stops at 1.
fn by_counting(alloc: Global, calls: Arc<AtomicU64>) -> Result<Scorer, Memory>
    ensures kind { IfOk result (λ scorer. scorer.kind ≡ History) }
    ensures weights { IfOk result (λ scorer. scorer.weights.items ≡ []) }
{
    let call: ScoreCall = Box::new(
        alloc,
        move |stats: &Stats, now: u64| -> Score
            requires { IsInRange stats.now now }
            ensures { result ≡ score_of History [] stats.now now }
        {
            calls.fetch_add(1, Ordering::SeqCst);
            let age = if now > stats.admitted_at {
                now - stats.admitted_at
            } else {
                1
            };
            Score {
                top: formula(Evict::Benefit, stats, now).top,
                bottom: u128::from(age),
            }
        },
    )?;
    Ok(Scorer::new(alloc, Evict::History, call))
}

#[test]
fn a_closure_of_its_own_scores(rt: HostRuntime) -> Result<(), Fail> {
    let alloc = rt.alloc();
    let calls = Arc::new(alloc, AtomicU64::new(0))?;
    let counting = by_counting(alloc, Arc::try_clone(&calls)?)?;
    let plain = run_here(alloc, &by_formula(alloc)?)?;
    let counted = run_here(alloc, &counting)?;
    assert!(rt; counted.totals == plain.totals);
    assert!(rt; counted.totals.evicted != 0);
    assert!(rt; calls.load(Ordering::SeqCst) != 0);
    for (text, same) in counted.texts.iter().zip(plain.texts.iter()) {
        assert_eq!(rt; text.as_slice(), same.as_slice());
    }
    Ok(())
}
