//! The row that goes first, found in one pass over the rows. Marks show which of them are parents.
//! Each id has one of 4,096 marks: the place of a row that has it as parent, or that has another id
//! of the same mark as parent. So a row without a mark is parent of none, and an id that the marked
//! row names is a parent. Only where a mark leaves a doubt, and the row would go before those
//! passed, are all rows read, and at most 8 times.
ghost use Rattle.std.specs.Prelude.{◌≡◌, ℕ, ◌+◌, ◌%◌, ◌<◌, ◌≤◌, ◌==◌, ◌&&◌, All, IfNone, IfSome, Some, count_by, false, length, true};
ghost use Rattle.std.specs.Option.{ForSome};
ghost use Rattle.score_hook.specs.Scores.{IsInRange, IsSmall, most_bottom, score_of};
ghost use Rattle.evict_admit.specs.Boards.{contender_for, row_at};
ghost use Rattle.evict_admit.specs.Evictions.{can_go, is_parent, next_of};
ghost use Rattle.evict_admit.specs.Leading.{AreMarked, IsChallenger, IsLeader, comes_first, mark_at};

use crate::contest::{Contender, goes_before};
use crate::plan::Row;
use score_hook::Scorer;

/// How many marks there are.
const MARKS: usize = 4096;

/// How often all rows may be read.
const MOST_SCANS: u32 = 8;

/// The row that goes first of those read so far.
#[derive(Clone, Copy)]
pub(crate) struct Leader {
    pub(crate) place: usize,
    pub(crate) contender: Contender,
}

/// The place of the row that goes first. None where no row can go, or where too many marks leave a
/// doubt.
pub(crate) fn first_to_go(rows: &[Row], scorer: &Scorer, now: u64) -> Option<usize>
    requires few { length rows.now ≤ 1024 }
    requires range { All (λ row. IsInRange row.stats now) rows.now }
    ensures { IfSome result (λ place. (place < length rows.now) × (next_of (λ stats. score_of scorer.now.kind scorer.now.weights.items stats now) rows.now ≡ Some (row_at rows.now place))) }
{
    let mut marks = [0; MARKS];
    mark_parents(&mut marks, rows);
    let leader = lead(rows, &marks, scorer, now)?;
    Some(leader.place)
}

/// Marks the parents of each row.
fn mark_parents(marks: &mut [u16], rows: &[Row])
    requires few { length rows.now ≤ 1024 }
    requires size { length marks.old ≡ 4096 }
    ensures { AreMarked rows.now marks.new }
{
    'rows: for i in 0..rows.len() {
        mark_row(marks, &rows[i], i as u16 + 1);
    }
}

/// Marks the parents of a row.
fn mark_row(marks: &mut [u16], row: &Row, mark: u16)
    requires size { length marks.old ≡ 4096 }
    requires mark { 0 < mark }
    ensures size { length marks.new ≡ 4096 }
    ensures kept { (k : ℕ) → 0 < mark_at marks.old k → 0 < mark_at marks.new k }
    ensures named { (id : ℕ) → is_parent id row.now ≡ true → 0 < mark_at marks.new (id % 4096) }
{
    let [first, second] = row.parents;
    mark_id(marks, first, mark);
    mark_id(marks, second, mark);
}

/// Marks an id.
fn mark_id(marks: &mut [u16], id: u64, mark: u16)
    requires size { length marks.old ≡ 4096 }
    requires mark { 0 < mark }
    ensures size { length marks.new ≡ 4096 }
    ensures kept { (k : ℕ) → 0 < mark_at marks.old k → 0 < mark_at marks.new k }
    ensures named { 0 < mark_at marks.new (id % 4096) }
{
    marks[(id % MARKS as u64) as usize] = mark;
}

/// Whether a row has this id as parent.
fn names(row: &Row, id: u64) -> bool
    ensures { result ≡ is_parent id row.now }
{
    let [first, second] = row.parents;
    first == id || second == id
}

/// Whether the mark of an id shows that it is a parent of one of the rows.
fn is_marked_parent(rows: &[Row], marks: &[u16], id: u64) -> bool
    requires { AreMarked rows.now marks.now }
    ensures { result ≡ true → (count_by (is_parent id) rows.now == 0) ≡ false }
{
    let mark = marks[(id % MARKS as u64) as usize] as usize;
    mark > 0 && mark <= rows.len() && names(&rows[mark - 1], id)
}

/// Whether an id is parent of no row, where all rows may be read so many times more. None where
/// they may not.
fn is_childless(rows: &[Row], marks: &[u16], id: u64, scans: &mut u32) -> Option<bool>
    requires { AreMarked rows.now marks.now }
    ensures { IfSome result (λ none. none ≡ (count_by (is_parent id) rows.now == 0)) }
{
    if marks[(id % MARKS as u64) as usize] == 0 {
        return Some(true);
    }
    if *scans == 0 {
        return None;
    }
    *scans -= 1;
    Some(has_none(rows, id))
}

/// Whether none of the rows has this id as parent.
fn has_none(rows: &[Row], id: u64) -> bool
    ensures { result ≡ (count_by (is_parent id) rows.now == 0) }
{
    'rows: for i in 0..rows.len() {
        if names(&rows[i], id) {
            return false;
        }
    }
    true
}

/// Whether a row goes before the one that leads.
fn goes_first(contender: &Contender, leader: &Option<Leader>) -> bool
    requires { (most : ℕ) × IsSmall most contender.now.score × ForSome leader.now (λ d. IsSmall most d.contender.score) }
    ensures { result ≡ comes_first contender.now leader.now }
{
    match leader {
        None => true,
        Some(leader) => goes_before(contender, &leader.contender),
    }
}

/// A row as it is compared, where it goes before the one that leads. None where it doesn't, or
/// where its mark shows that it can't go.
fn challenge(
    rows: &[Row],
    marks: &[u16],
    place: usize,
    leader: &Option<Leader>,
    scorer: &Scorer,
    now: u64,
) -> Option<Contender>
    requires marked { AreMarked rows.now marks.now }
    requires range { All (λ row. IsInRange row.stats now) rows.now }
    requires place { place < length rows.now }
    requires leader { IsLeader (most_bottom scorer.now.kind) (λ stats. score_of scorer.now.kind scorer.now.weights.items stats now) rows.now leader.now }
    ensures some { IfSome result (λ contender. IsChallenger (most_bottom scorer.now.kind) (λ stats. score_of scorer.now.kind scorer.now.weights.items stats now) (row_at rows.now place) leader.now contender) }
    ensures none { IfNone result ((can_go rows.now (row_at rows.now place) && comes_first (contender_for (λ stats. score_of scorer.now.kind scorer.now.weights.items stats now) (row_at rows.now place)) leader.now) ≡ false) }
{
    let row = &rows[place];
    if !row.free || is_marked_parent(rows, marks, row.id) {
        return None;
    }
    let contender = Contender {
        score: scorer.score(&row.stats, now),
        id: row.id,
    };
    if goes_first(&contender, leader) {
        Some(contender)
    } else {
        None
    }
}

/// Reads each row, one after the other. None where no row can go, or where too many marks leave a
/// doubt.
fn lead(rows: &[Row], marks: &[u16], scorer: &Scorer, now: u64) -> Option<Leader>
    requires marked { AreMarked rows.now marks.now }
    requires range { All (λ row. IsInRange row.stats now) rows.now }
    ensures { IfSome result (λ leader. (leader.place < length rows.now) × (next_of (λ stats. score_of scorer.now.kind scorer.now.weights.items stats now) rows.now ≡ Some (row_at rows.now leader.place))) }
{
    let mut leader = None;
    let mut scans = MOST_SCANS;
    'rows: for place in 0..rows.len() {
        if let Some(contender) = challenge(rows, marks, place, &leader, scorer, now) {
            match is_childless(rows, marks, rows[place].id, &mut scans) {
                None => return None,
                Some(false) => {}
                Some(true) => leader = Some(Leader { place, contender }),
            }
        }
    }
    leader
}
