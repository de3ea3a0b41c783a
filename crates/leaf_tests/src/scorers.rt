//! Scorers by last use and by age.
ghost use Rattle.std.specs.Prelude.{◌≡◌, [], IfOk};
ghost use Rattle.score_hook.specs.declared.stats.Evict.TheVariants.{History, Lru};
ghost use Rattle.score_hook.specs.Scores.{IsInRange, score_of};

use score_hook::{Evict, Score, ScoreCall, Scorer, Stats, formula};
use std::alloc::{AllocError, Global};
use std::sync::Arc;
use std::sync::atomic::{AtomicU64, Ordering};

/// The scores by the moment of the last use.
pub(crate) fn by_last_use(alloc: Global) -> Result<Scorer, AllocError>
    ensures kind { IfOk result (λ scorer. scorer.kind ≡ Lru) }
    ensures weights { IfOk result (λ scorer. scorer.weights.items ≡ []) }
{
    let call: ScoreCall = Box::new(
        alloc,
        move |stats: &Stats, now: u64| -> Score
            requires { IsInRange stats.now now }
            ensures { result ≡ score_of Lru [] stats.now now }
        { formula(Evict::Lru, stats, now) },
    )?;
    Ok(Scorer::new(alloc, Evict::Lru, call))
}

/// The scores by age, by the formula.
pub(crate) fn by_age(alloc: Global) -> Result<Scorer, AllocError> {
    let call: ScoreCall = Box::new(
        alloc,
        move |stats: &Stats, now: u64| -> Score
            requires { IsInRange stats.now now }
            ensures { result ≡ score_of History [] stats.now now }
        { formula(Evict::History, stats, now) },
    )?;
    Ok(Scorer::new(alloc, Evict::History, call))
}

/// The scores by age, of a closure that counts its calls. It computes the age by a test instead of
/// a difference that stops at 1.
pub(crate) fn by_counted_age(alloc: Global, calls: &Arc<AtomicU64>) -> Result<Scorer, AllocError> {
    let held = Arc::try_clone(calls)?;
    let call: ScoreCall = Box::new(
        alloc,
        move |stats: &Stats, now: u64| -> Score
            requires { IsInRange stats.now now }
            ensures { result ≡ score_of History [] stats.now now }
        {
            held.fetch_add(1, Ordering::SeqCst);
            let age = if now > stats.admitted_at {
                now - stats.admitted_at
            } else {
                1
            };
            Score {
                top: formula(Evict::Benefit, stats, now).top,
                bottom: u128::from(age),
            }
        },
    )?;
    Ok(Scorer::new(alloc, Evict::History, call))
}
