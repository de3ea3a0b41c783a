ghost use Rattle.std.specs.Prelude.{◌≡◌, ◌≢◌, ℕ, []};
ghost use Rattle.std.specs.Borrow.{Bor};
ghost use Rattle.score_hook.specs.declared.stats.Stats.{Stats as StatsValue};
ghost use Rattle.score_hook.specs.declared.stats.Score.{Score as ScoreValue};
ghost use Rattle.score_hook.specs.declared.stats.Evict.TheVariants.{Weighted};
ghost use Rattle.score_hook.specs.Scores.{AreWeights, IsInRange, IsSmall, most_bottom, score_of};

use crate::stats::{Evict, Score, Stats};
use std::alloc::Global;

/// A closure that scores an entry by what is known of it, at a moment.
pub type ScoreCall = Box<dyn Fn(&Stats, u64) -> Score + Send + Sync>;

/// A way to score entries, which returns the formula of its kind. It is lent to the calls that need
/// it.
#[derive(Drop)]
pub struct Scorer {
    /// The formula.
    pub kind: Evict,
    /// The weights of the operators, where the formula is the weighted one; else none.
    pub weights: Vec<u64>,
    call: ScoreCall,
    ghost weighed: { kind ≡ Weighted → AreWeights weights.items },
    ghost may: { (stats : Bor StatsValue) (now : ℕ) → IsInRange stats.now now → ScoreCall.pre call stats now },
    ghost says: { (stats : Bor StatsValue) (now : ℕ) (score : ScoreValue) → IsInRange stats.now now → ScoreCall.post call stats now score → score ≡ score_of kind weights.items stats.now now },
}

impl Scorer {
    /// Keeps a closure that may be called and returns the formula of this kind, which isn't the
    /// weighted one, wherever stats and moment are in range. Takes no memory.
    pub fn new(alloc: Global, kind: Evict, call: ScoreCall) -> Scorer
        requires plain { kind ≢ Weighted }
        requires may { (stats : Bor StatsValue) (now : ℕ) → IsInRange stats.now now
            → ScoreCall.pre call stats now }
        requires says { (stats : Bor StatsValue) (now : ℕ) (score : ScoreValue) → IsInRange stats.now now
            → ScoreCall.post call stats now score → score ≡ score_of kind [] stats.now now }
        ensures kind { result.kind ≡ kind }
        ensures weights { result.weights.items ≡ [] }
    {
        let weights = Vec::new(alloc);
        Scorer {
            kind,
            weights,
            call,
        }
    }

    /// Keeps a closure that may be called and returns the weighted score by these weights, wherever
    /// stats and moment are in range. The closure has a list of its own of them. Each of the 35
    /// operators has a weight from 1 to 1,000. Takes no memory.
    pub fn weighted(weights: Vec<u64>, call: ScoreCall) -> Scorer
        requires weights { AreWeights weights.items }
        requires may { (stats : Bor StatsValue) (now : ℕ) → IsInRange stats.now now
            → ScoreCall.pre call stats now }
        requires says { (stats : Bor StatsValue) (now : ℕ) (score : ScoreValue) → IsInRange stats.now now
            → ScoreCall.post call stats now score → score ≡ score_of Weighted weights.items stats.now now }
        ensures kind { result.kind ≡ Weighted }
        ensures weights { result.weights.items ≡ weights.items }
    {
        let kind = Evict::Weighted;
        Scorer {
            kind,
            weights,
            call,
        }
    }

    /// The score of an entry at a moment: that of the formula, whatever the closure is.
    pub fn score(&self, stats: &Stats, now: u64) -> Score
        requires { IsInRange stats.now now }
        ensures value { result ≡ score_of self.now.kind self.now.weights.items stats.now now }
        ensures small { IsSmall (most_bottom self.now.kind) result }
    {
        self.ask(stats, now)
    }

    /// What the closure returns.
    fn ask(&self, stats: &Stats, now: u64) -> Score
        requires { IsInRange stats.now now }
        ensures { result ≡ score_of self.now.kind self.now.weights.items stats.now now }
    {
        (self.call)(stats, now)
    }
}
