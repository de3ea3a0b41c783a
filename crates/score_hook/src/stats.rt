ghost use Rattle.std.specs.Prelude.{◌≡◌, ◌≢◌, ◌*◌, ◌<◌, ◌≤◌, ◌^◌, [], slice_index};
ghost use Rattle.score_hook.specs.declared.stats.Evict.TheVariants.{Weighted};
ghost use Rattle.score_hook.specs.Scores.{AreWeights, IsInRange, score_of, weight_of, is_less};

/// What is known of an entry.
#[derive(Clone, Copy, PartialEq, Eq)]
pub struct Stats {
    /// The place of its operator in the table of operators, from 0 to 34.
    pub class: u32,
    /// The stated work of computing it, in pairs read and made.
    pub work: u64,
    /// How often it was used.
    pub reuses: u64,
    /// How often it was used by another statement than the one that admitted it.
    pub others: u64,
    /// The moment at which it was admitted.
    pub admitted_at: u64,
    /// The moment of its last use, or of its admission.
    pub used_at: u64,
}

/// A fraction.
#[derive(Clone, Copy, PartialEq, Eq)]
pub struct Score {
    /// The numerator.
    pub top: u128,
    /// The denominator.
    pub bottom: u128,
}

/// Which entry is evicted first.
#[derive(Clone, Copy, PartialEq, Eq)]
pub enum Evict {
    /// The one that was used least recently.
    Lru,
    /// The one of least benefit: its work, weighed by its reuses.
    Benefit,
    /// The one of least benefit for each moment since it was admitted.
    History,
    /// The one of least benefit times the weight of its operator.
    Weighted,
}

/// The score of an entry at a moment, computed plainly: what a closure of this kind returns, for
/// the kinds without weights of operators.
pub fn formula(kind: Evict, stats: &Stats, now: u64) -> Score
    requires plain { kind ≢ Weighted }
    requires range { IsInRange stats.now now }
    ensures { result ≡ score_of kind [] stats.now now }
{
    match kind {
        Evict::Lru => Score {
            top: u128::from(stats.used_at),
            bottom: 1,
        },
        Evict::Benefit => Score {
            top: benefit(stats),
            bottom: 1,
        },
        Evict::History => Score {
            top: benefit(stats),
            bottom: u128::from(now.saturating_sub(stats.admitted_at).max(1)),
        },
        Evict::Weighted => unreachable!(),
    }
}

/// The weighted score of an entry, computed plainly: what a closure returns that has the weights of
/// the 35 operators, each from 1 to 1,000.
pub fn weighted_formula(weights: &[u64], stats: &Stats, now: u64) -> Score
    requires weights { AreWeights weights.now }
    requires range { IsInRange stats.now now }
    ensures { result ≡ score_of Weighted weights.now stats.now now }
{
    // The moment isn't used.
    let _ = now;
    let weight = weights[stats.class as usize];
    Score {
        top: benefit(stats) * u128::from(weight),
        bottom: 1,
    }
}

/// The work of an entry, weighed by its reuses.
fn benefit(stats: &Stats) -> u128
    requires work { stats.now.work < 2 ^ 62 }
    requires reuses { stats.now.reuses < 2 ^ 30 }
    ensures value { result ≡ stats.now.work * weight_of stats.now }
    ensures small { result < 2 ^ 96 }
{
    u128::from(stats.work) * weight(stats)
}

/// What a unit of an entry's work weighs.
fn weight(stats: &Stats) -> u128
    requires { stats.now.reuses < 2 ^ 30 }
    ensures value { result ≡ weight_of stats.now }
    ensures small { result < 2 ^ 34 }
{
    if stats.others == 0 {
        1
    } else {
        10 * u128::from(stats.reuses)
    }
}

/// Whether the first score is less than the second, as fractions.
pub fn less(a: &Score, b: &Score) -> bool
    requires left { a.now.top * b.now.bottom < 2 ^ 128 }
    requires right { b.now.top * a.now.bottom < 2 ^ 128 }
    ensures { result ≡ is_less a.now b.now }
{
    a.top * b.bottom < b.top * a.bottom
}
