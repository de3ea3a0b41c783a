//! A tournament tree over places: which of those that take part goes first. After a change only the
//! games on the path to the root are played again.
ghost use Rattle.std.specs.Prelude.{◌≡◌, ◌≢◌, ℕ, ◌+◌, ◌*◌, ◌^◌, ◌<◌, ◌≤◌, length, None, slice_set};
ghost use Rattle.std.specs.Option.{ForSome};
ghost use Rattle.evict_admit.specs.Boards.{AreSmall, IsContest, IsWhole, comes_before, contender_at, seat_of, sooner_of, winner_at};

use score_hook::{Score, less};

/// A row as it is compared.
#[derive(Clone, Copy)]
pub(crate) struct Contender {
    pub(crate) score: Score,
    pub(crate) id: u64,
}

/// Whether one goes before another.
pub(crate) fn goes_before(a: &Contender, b: &Contender) -> bool
    requires left { a.now.score.top * b.now.score.bottom < 2 ^ 128 }
    requires right { b.now.score.top * a.now.score.bottom < 2 ^ 128 }
    ensures { result ≡ comes_before a.now b.now }
{
    less(&a.score, &b.score) || (!less(&b.score, &a.score) && a.id < b.id)
}

/// Of two places, the one that goes first.
fn sooner(contenders: &[Contender], a: Option<u16>, b: Option<u16>) -> Option<u16>
    requires small { AreSmall contenders.now }
    requires a { ForSome a (λ p. p < length contenders.now) }
    requires b { ForSome b (λ p. p < length contenders.now) }
    ensures { result ≡ sooner_of contenders.now a b }
{
    let (Some(first), Some(second)) = (a, b) else {
        return a.or(b);
    };
    if goes_before(&contenders[second as usize], &contenders[first as usize]) {
        b
    } else {
        a
    }
}

/// Plays the game of one node.
fn play(winners: &mut [Option<u16>], contenders: &[Contender], node: usize)
    requires small { AreSmall contenders.now }
    requires size { length winners.old ≡ 2 * length contenders.now }
    requires places { (k : ℕ) → ForSome (winner_at winners.old k) (λ p. p < length contenders.now) }
    requires node { node < length contenders.now }
    ensures { winners.new ≡ slice_set winners.old node (sooner_of contenders.now (winner_at winners.old (2 * node)) (winner_at winners.old (2 * node + 1))) }
{
    winners[node] = sooner(contenders, winners[2 * node], winners[2 * node + 1]);
}

/// Plays all games.
pub(crate) fn play_all(winners: &mut [Option<u16>], contenders: &[Contender])
    requires small { AreSmall contenders.now }
    requires size { length winners.old ≡ 2 * length contenders.now }
    requires places { (k : ℕ) → ForSome (winner_at winners.old k) (λ p. p < length contenders.now) }
    ensures whole { IsWhole contenders.now winners.new }
    ensures seats { (k : ℕ) → length contenders.now ≤ k → winner_at winners.new k ≡ winner_at winners.old k }
{
    let mut node = contenders.len();
    'games: while node > 1 {
        node -= 1;
        play(winners, contenders, node);
    }
}

/// Sets whether a place takes part.
pub(crate) fn settle(
    winners: &mut [Option<u16>],
    contenders: &[Contender],
    place: usize,
    seated: bool,
)
    requires few { length contenders.now ≤ 1024 }
    requires small { AreSmall contenders.now }
    requires whole { IsWhole contenders.now winners.old }
    requires place { place < length contenders.now }
    ensures whole { IsWhole contenders.now winners.new }
    ensures seat { winner_at winners.new (length contenders.now + place) ≡ seat_of seated place }
    ensures others { (p : ℕ) → p ≢ place → winner_at winners.new (length contenders.now + p) ≡ winner_at winners.old (length contenders.now + p) }
{
    let seat = contenders.len() + place;
    winners[seat] = if seated { Some(place as u16) } else { None };
    let mut node = seat / 2;
    'games: while node > 0 {
        play(winners, contenders, node);
        node /= 2;
    }
}
