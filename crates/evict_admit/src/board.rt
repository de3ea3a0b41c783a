//! The state of the rows while a plan is made: their children that are left, and which of them may
//! go.
ghost use Rattle.std.specs.Prelude.{◌≡◌, ℕ, ◌+◌, ◌*◌, ◌<◌, ◌≤◌, ◌==◌, IfNone, IfSome, Some, None, count_by, false, length, slice_set};
ghost use Rattle.std.specs.Option.{ForSome};
ghost use Rattle.evict_admit.specs.Boards.{IsKnown, IsSeated, gone_if, left_at, less_if, may_go, more_if, once_gone, row_at, seat_of, winner_at};
ghost use Rattle.evict_admit.specs.Evictions.{is_parent};

use crate::contest::{play_all, settle};
use crate::names::Known;
use crate::plan::Row;

/// The state of a row: how many rows that are left have it as parent, and whether it is given up.
#[derive(Clone, Copy)]
pub(crate) struct Left {
    pub(crate) children: u32,
    pub(crate) gone: bool,
}

/// Whether a row is left, free and without children.
fn is_ready(row: &Row, left: &Left) -> bool
    ensures { result ≡ may_go row.now left.now }
{
    !left.gone && row.free && left.children == 0
}

/// Counts the children of each row.
pub(crate) fn count_children(lefts: &mut [Left], known: &Known)
    requires known { IsKnown known.now }
    requires room { length lefts.old ≡ length known.now.rows.now }
    requires fresh { (p : ℕ) → left_at lefts.old p ≡ record { children = 0; gone = false } }
    ensures room { length lefts.new ≡ length known.now.rows.now }
    ensures each { (p : ℕ) → p < length known.now.rows.now → left_at lefts.new p ≡ record { children = count_by (is_parent (row_at known.now.rows.now p).id) known.now.rows.now; gone = false } }
{
    'rows: for i in 0..known.rows.len() {
        add_child(lefts, known, &known.rows[i]);
    }
}

/// Adds a child to each parent of a row.
fn add_child(lefts: &mut [Left], known: &Known, row: &Row)
    requires known { IsKnown known.now }
    requires room { length lefts.old ≡ length known.now.rows.now }
    requires few { (p : ℕ) → (left_at lefts.old p).children ≤ 1024 }
    ensures room { length lefts.new ≡ length known.now.rows.now }
    ensures each { (p : ℕ) → p < length known.now.rows.now → left_at lefts.new p ≡ more_if (is_parent (row_at known.now.rows.now p).id row.now) (left_at lefts.old p) }
{
    let [first, second] = row.parents;
    gain(lefts, known, first);
    if second != first {
        gain(lefts, known, second);
    }
}

/// Adds a child to the row with this id.
fn gain(lefts: &mut [Left], known: &Known, id: u64)
    requires known { IsKnown known.now }
    requires room { length lefts.old ≡ length known.now.rows.now }
    requires few { (p : ℕ) → (left_at lefts.old p).children ≤ 1025 }
    ensures room { length lefts.new ≡ length known.now.rows.now }
    ensures each { (p : ℕ) → p < length known.now.rows.now → left_at lefts.new p ≡ more_if (id == (row_at known.now.rows.now p).id) (left_at lefts.old p) }
{
    if let Some(place) = known.find(id) {
        lefts[place].children += 1;
    }
}

/// Seats each row that may go.
pub(crate) fn seat_all(winners: &mut [Option<u16>], known: &Known, lefts: &[Left])
    requires known { IsKnown known.now }
    requires room { length lefts.now ≡ length known.now.rows.now }
    requires size { length winners.old ≡ 2 * length known.now.rows.now }
    requires none { (k : ℕ) → winner_at winners.old k ≡ None }
    ensures { IsSeated known.now lefts.now winners.new }
{
    seat_each(winners, known, lefts);
    play_all(winners, known.contenders);
}

/// Writes each seat, one after the other.
fn seat_each(winners: &mut [Option<u16>], known: &Known, lefts: &[Left])
    requires few { length known.now.rows.now ≤ 1024 }
    requires room { length lefts.now ≡ length known.now.rows.now }
    requires size { length winners.old ≡ 2 * length known.now.rows.now }
    requires none { (k : ℕ) → winner_at winners.old k ≡ None }
    ensures size { length winners.new ≡ length winners.old }
    ensures places { (k : ℕ) → ForSome (winner_at winners.new k) (λ p. p < length known.now.rows.now) }
    ensures seats { (p : ℕ) → p < length known.now.rows.now → winner_at winners.new (length known.now.rows.now + p) ≡ seat_of (may_go (row_at known.now.rows.now p) (left_at lefts.now p)) p }
{
    let rows = known.rows;
    'rows: for i in 0..rows.len() {
        if is_ready(&rows[i], &lefts[i]) {
            winners[rows.len() + i] = Some(i as u16);
        }
    }
}

/// Changes the state of a row, and its seat with it.
fn reseat(lefts: &mut [Left], winners: &mut [Option<u16>], known: &Known, place: usize, left: Left)
    requires known { IsKnown known.now }
    requires seated { IsSeated known.now lefts.old winners.old }
    requires place { place < length known.now.rows.now }
    ensures lefts { lefts.new ≡ slice_set lefts.old place left }
    ensures seated { IsSeated known.now lefts.new winners.new }
{
    lefts[place] = left;
    let seated = is_ready(&known.rows[place], &left);
    settle(winners, known.contenders, place, seated);
}

/// Takes a child from the row with this id.
fn lose(lefts: &mut [Left], winners: &mut [Option<u16>], known: &Known, id: u64)
    requires known { IsKnown known.now }
    requires seated { IsSeated known.now lefts.old winners.old }
    ensures each { (p : ℕ) → p < length known.now.rows.now → left_at lefts.new p ≡ less_if (id == (row_at known.now.rows.now p).id) (left_at lefts.old p) }
    ensures seated { IsSeated known.now lefts.new winners.new }
{
    if let Some(place) = known.find(id) {
        let left = Left {
            children: lefts[place].children.saturating_sub(1),
            gone: lefts[place].gone,
        };
        // A row with a child has no seat, before and after.
        if left.children == 0 {
            reseat(lefts, winners, known, place, left);
        } else {
            lefts[place] = left;
        }
    }
}

/// Takes a child from each parent of a row.
fn lose_child(lefts: &mut [Left], winners: &mut [Option<u16>], known: &Known, row: &Row)
    requires known { IsKnown known.now }
    requires seated { IsSeated known.now lefts.old winners.old }
    ensures each { (p : ℕ) → p < length known.now.rows.now → left_at lefts.new p ≡ less_if (is_parent (row_at known.now.rows.now p).id row.now) (left_at lefts.old p) }
    ensures seated { IsSeated known.now lefts.new winners.new }
{
    let [first, second] = row.parents;
    lose(lefts, winners, known, first);
    if second != first {
        lose(lefts, winners, known, second);
    }
}

/// Marks a row as gone.
fn leave(lefts: &mut [Left], winners: &mut [Option<u16>], known: &Known, place: usize)
    requires known { IsKnown known.now }
    requires seated { IsSeated known.now lefts.old winners.old }
    requires place { place < length known.now.rows.now }
    ensures each { (p : ℕ) → p < length known.now.rows.now → left_at lefts.new p ≡ gone_if ((row_at known.now.rows.now p).id == (row_at known.now.rows.now place).id) (left_at lefts.old p) }
    ensures seated { IsSeated known.now lefts.new winners.new }
{
    let left = Left {
        children: lefts[place].children,
        gone: true,
    };
    reseat(lefts, winners, known, place, left);
}

/// Gives up a row: it is gone, and each of its parents has a child less.
pub(crate) fn give_up(lefts: &mut [Left], winners: &mut [Option<u16>], known: &Known, place: usize)
    requires known { IsKnown known.now }
    requires seated { IsSeated known.now lefts.old winners.old }
    requires place { place < length known.now.rows.now }
    ensures each { (p : ℕ) → p < length known.now.rows.now → left_at lefts.new p ≡ once_gone (row_at known.now.rows.now place) (row_at known.now.rows.now p) (left_at lefts.old p) }
    ensures seated { IsSeated known.now lefts.new winners.new }
{
    leave(lefts, winners, known, place);
    lose_child(lefts, winners, known, &known.rows[place]);
}
