//! The scores of entries.
ghost use Rattle.std.specs.Prelude.{◌≡◌, ℕ, ◌<◌, ◌^◌};
ghost use Rattle.score_hook.specs.declared.stats.Evict.TheVariants.{Weighted};
ghost use Rattle.score_hook.specs.Scores.{AreWeights, IsInRange, score_of};

use crate::scorers::by_counted_age;
use score_hook::{Evict, Score, ScoreCall, Scorer, Stats, formula, less, weighted_formula};
use std::sync::Arc;
use std::sync::atomic::{AtomicU64, Ordering};
use std::test::Fail;

/// The facts of an entry that only other statements have used.
fn stats(class: u32, work: u64, reuses: u64, admitted_at: u64) -> Stats
    requires class { class < 35 }
    requires work { work < 2 ^ 20 }
    requires reuses { reuses < 2 ^ 20 }
    requires moment { admitted_at < 2 ^ 20 }
    ensures { (now : ℕ) → now < 2 ^ 32 → IsInRange result now }
{
    Stats {
        class,
        work,
        reuses,
        others: reuses,
        admitted_at,
        used_at: admitted_at,
    }
}

#[test]
fn a_closure_that_counts(rt: HostRuntime) -> Result<(), Fail> {
    let alloc = rt.alloc();
    let calls = Arc::new(alloc, AtomicU64::new(0))?;
    let scorer = by_counted_age(alloc, &calls)?;
    let score = scorer.score(&stats(1, 6, 2, 1), 7);
    assert_eq!(rt; score.top, 120);
    assert_eq!(rt; score.bottom, 6);
    assert!(rt; calls.load(Ordering::SeqCst) != 0);
    Ok(())
}

// The second operator weighs 100, and each other one 1.
const WEIGHTS: [u64; 35] = [
    1, 100, 1, 1, 1, 1, 1, 1, 1, 1, 1, 1, 1, 1, 1, 1, 1, 1, 1, 1, 1, 1, 1, 1, 1, 1, 1, 1, 1, 1, 1,
    1, 1, 1, 1,
];

// The closure has a list of the weights of its own.
#[test]
fn operators_weigh(rt: HostRuntime) -> Result<(), Fail> {
    let alloc = rt.alloc();
    let held = WEIGHTS;
    let call: ScoreCall = Box::new(
        alloc,
        move |stats: &Stats, now: u64| -> Score
            requires range { IsInRange stats.now now }
            requires weights { AreWeights held }
            ensures { result ≡ score_of Weighted held stats.now now }
        { weighted_formula(&held, stats, now) },
    )?;
    let scorer = Scorer::weighted(Vec::from_array(alloc, WEIGHTS)?, call);
    assert_eq!(rt; scorer.score(&stats(1, 6, 2, 1), 7).top, 12_000);
    assert_eq!(rt; scorer.score(&stats(0, 6, 0, 1), 7).top, 6);
    Ok(())
}

// One unit of work is worth 1 before another statement uses it, and 10 for each reuse afterwards.
#[test]
fn formulas(rt: HostRuntime) {
    let (fresh, used) = (stats(1, 6, 0, 3), stats(1, 6, 2, 3));
    assert_eq!(rt; formula(Evict::Lru, &fresh, 7).top, 3);
    assert_eq!(rt; formula(Evict::Benefit, &fresh, 7).top, 6);
    assert_eq!(rt; formula(Evict::Benefit, &used, 7).top, 120);
    assert_eq!(rt; formula(Evict::History, &used, 7).bottom, 4);
    assert_eq!(rt; formula(Evict::History, &used, 3).bottom, 1);
}

// A third is less than a half, and two sixths are no less than a third.
#[test]
fn fractions_compare(rt: HostRuntime) {
    let third = Score { top: 1, bottom: 3 };
    assert!(rt; less(&third, &Score { top: 1, bottom: 2 }));
    assert!(rt; !less(&Score { top: 2, bottom: 6 }, &third));
    assert!(rt; !less(&third, &Score { top: 2, bottom: 6 }));
}
