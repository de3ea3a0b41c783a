ghost use Rattle.std.specs.Prelude.{◌≡◌, ℕ, [], ◌∷◌, ◌++◌, ◌-◌, ◌<◌, ◌≤◌, IfSome, Some, length, All, map, nat_eq, true, vec_len};
ghost use Rattle.std.specs.List.{IsDistinct};
ghost use Rattle.std.specs.Vec.{vec_capacity};
ghost use Rattle.score_hook.specs.declared.stats.Stats.{Stats as StatsValue};
ghost use Rattle.score_hook.specs.declared.stats.Score.{Score as ScoreValue};
ghost use Rattle.score_hook.specs.Scores.{IsInRange, score_of};
ghost use Rattle.evict_admit.specs.Boards.{IsKnown, IsSeated, contender_for, left_at, left_of, row_at};
ghost use Rattle.evict_admit.specs.Evictions.{is_enough as nothing_wanted, next_of, GivesUp};

use crate::board::{Left, count_children, give_up, seat_all};
use crate::contest::Contender;
use crate::leading::first_to_go;
use crate::names::{HINTS, Known, Name, note_hints, note_names};
use score_hook::{Score, Scorer, Stats};

/// The most rows that a plan takes.
pub const MOST_ROWS: usize = 1024;

/// An entry of a pool.
#[derive(Clone, Copy, PartialEq, Eq)]
pub struct Row {
    /// Its id, above 0.
    pub id: u64,
    /// Its stated bytes.
    pub bytes: u64,
    /// That nothing pins it, and that the entry to be admitted wasn't computed from it.
    pub free: bool,
    /// The ids of the entries that it was computed from, where 0 is none.
    pub parents: [u64; 2],
    /// What is known of it.
    pub stats: Stats,
}

/// Which of the rows are given up, until so many bytes and places are free: again and again, of the
/// free rows that are parent of none that is left, the one with the least score, then the least id.
///
/// `out` lists their ids in that order. False exactly where giving up all that can go isn't enough;
/// then `out` lists all of these. There are at most 1,024 rows, with different ids above 0.
pub fn plan_evictions(
    rows: &[Row],
    need: u128,
    slots: u64,
    scorer: &Scorer,
    now: u64,
    out: &mut Vec<u64>,
) -> bool
    requires few { length rows.now ≤ MOST_ROWS }
    requires ids { All (λ row. 0 < row.id) rows.now }
    requires distinct { IsDistinct nat_eq (map (λ row. row.id) rows.now) }
    requires range { All (λ row. IsInRange row.stats now) rows.now }
    requires empty { out.old.items ≡ [] }
    requires room { length rows.now ≤ vec_capacity out.old }
    ensures plan { GivesUp (λ stats. score_of scorer.now.kind scorer.now.weights.items stats now) rows.now need slots out.new.items result }
    ensures room { vec_capacity out.old ≤ vec_capacity out.new }
{
    if is_enough(need, slots) {
        return true;
    }
    let wanted = Wanted {
        bytes: need,
        places: slots,
    };
    match first_enough(rows, wanted, scorer, now) {
        Some(place) => {
            put(out, rows[place].id);
            true
        }
        None => plan_by_contest(rows, wanted, scorer, now, out),
    }
}

/// What is still wanted.
#[derive(Clone, Copy)]
struct Wanted {
    bytes: u128,
    places: u64,
}

/// The place of the row that goes first, where that is enough. None where it isn't enough, or isn't
/// found in a pass.
fn first_enough(rows: &[Row], wanted: Wanted, scorer: &Scorer, now: u64) -> Option<usize>
    requires few { length rows.now ≤ MOST_ROWS }
    requires range { All (λ row. IsInRange row.stats now) rows.now }
    ensures { IfSome result (λ place. (place < length rows.now) × (next_of (λ stats. score_of scorer.now.kind scorer.now.weights.items stats now) rows.now ≡ Some (row_at rows.now place)) × (nothing_wanted (wanted.bytes - (row_at rows.now place).bytes) (wanted.places - 1) ≡ true)) }
{
    if wanted.places > 1 {
        return None;
    }
    let place = first_to_go(rows, scorer, now)?;
    if wanted.bytes > u128::from(rows[place].bytes) {
        return None;
    }
    Some(place)
}

/// Gives up rows by a contest of all.
fn plan_by_contest(
    rows: &[Row],
    wanted: Wanted,
    scorer: &Scorer,
    now: u64,
    out: &mut Vec<u64>,
) -> bool
    requires few { length rows.now ≤ MOST_ROWS }
    requires ids { All (λ row. 0 < row.id) rows.now }
    requires distinct { IsDistinct nat_eq (map (λ row. row.id) rows.now) }
    requires range { All (λ row. IsInRange row.stats now) rows.now }
    requires empty { out.old.items ≡ [] }
    requires room { length rows.now ≤ vec_capacity out.old }
    ensures plan { GivesUp (λ stats. score_of scorer.now.kind scorer.now.weights.items stats now) rows.now wanted.bytes wanted.places out.new.items result }
    ensures room { vec_capacity out.old ≤ vec_capacity out.new }
{
    let count = rows.len();
    let mut contender_store = [NOBODY; MOST_ROWS];
    let contenders = &mut contender_store[..count];
    note_contenders(contenders, rows, scorer, now);
    let mut name_store = [NAMELESS; MOST_ROWS];
    let names = &mut name_store[..count];
    note_names(names, rows);
    let mut hints = [0; HINTS];
    note_hints(&mut hints, rows);
    let known = Known {
        rows,
        names: &*names,
        hints: &hints,
        contenders: &*contenders,
    };
    plan_among(&known, wanted, out)
}

/// Gives up rows by a contest of those that are known.
fn plan_among(known: &Known, wanted: Wanted, out: &mut Vec<u64>) -> bool
    requires known { IsKnown known.now }
    requires empty { out.old.items ≡ [] }
    requires room { length known.now.rows.now ≤ vec_capacity out.old }
    ensures plan { (score : StatsValue → ScoreValue) → known.now.contenders.now ≡ map (contender_for score) known.now.rows.now → GivesUp score known.now.rows.now wanted.bytes wanted.places out.new.items result }
    ensures room { vec_capacity out.old ≤ vec_capacity out.new }
{
    let count = known.rows.len();
    let mut left_store = [CHILDLESS; MOST_ROWS];
    let lefts = &mut left_store[..count];
    count_children(lefts, known);
    let mut winner_store = [None; 2 * MOST_ROWS];
    let winners = &mut winner_store[..2 * count];
    seat_all(winners, known, lefts);
    plan_in(lefts, winners, known, wanted, out)
}

/// The contender of a place without a row.
const NOBODY: Contender = Contender {
    score: Score { top: 0, bottom: 1 },
    id: 0,
};

const NAMELESS: Name = Name { id: 0, place: 0 };

const CHILDLESS: Left = Left {
    children: 0,
    gone: false,
};

/// Writes the contender of each row, with its score.
fn note_contenders(contenders: &mut [Contender], rows: &[Row], scorer: &Scorer, now: u64)
    requires room { length contenders.old ≡ length rows.now }
    requires range { All (λ row. IsInRange row.stats now) rows.now }
    ensures { contenders.new ≡ map (contender_for (λ stats. score_of scorer.now.kind scorer.now.weights.items stats now)) rows.now }
{
    'rows: for i in 0..rows.len() {
        contenders[i] = Contender {
            score: scorer.score(&rows[i].stats, now),
            id: rows[i].id,
        };
    }
}

/// Gives up rows by the board, until nothing is wanted or none may go.
fn plan_in(
    lefts: &mut [Left],
    winners: &mut [Option<u16>],
    known: &Known,
    wanted: Wanted,
    out: &mut Vec<u64>,
) -> bool
    requires known { IsKnown known.now }
    requires seated { IsSeated known.now lefts.old winners.old }
    requires fresh { (p : ℕ) → p < length known.now.rows.now → left_at lefts.old p ≡ left_of [] known.now.rows.now (row_at known.now.rows.now p) }
    requires empty { out.old.items ≡ [] }
    requires room { length known.now.rows.now ≤ vec_capacity out.old }
    ensures plan { (score : StatsValue → ScoreValue) → known.now.contenders.now ≡ map (contender_for score) known.now.rows.now → GivesUp score known.now.rows.now wanted.bytes wanted.places out.new.items result }
    ensures room { vec_capacity out.old ≤ vec_capacity out.new }
{
    let mut bytes = wanted.bytes;
    let mut places = wanted.places;
    'rounds: for _ in 0..known.rows.len() {
        if is_enough(bytes, places) {
            return true;
        }
        let place = match winners[1] {
            None => return false,
            Some(place) => place as usize,
        };
        put(out, known.rows[place].id);
        give_up(lefts, winners, known, place);
        bytes = bytes.saturating_sub(u128::from(known.rows[place].bytes));
        places = places.saturating_sub(1);
    }
    is_enough(bytes, places)
}

/// Whether nothing more is wanted.
fn is_enough(bytes: u128, places: u64) -> bool
    ensures { result ≡ nothing_wanted bytes places }
{
    bytes == 0 && places == 0
}

/// Adds an id, where there is room for it.
fn put(out: &mut Vec<u64>, id: u64)
    requires { vec_len out.old < vec_capacity out.old }
    ensures items { out.new.items ≡ out.old.items ++ id ∷ [] }
    ensures room { vec_capacity out.old ≤ vec_capacity out.new }
{
    if out.push(id).is_err() {
        unreachable!();
    }
}
