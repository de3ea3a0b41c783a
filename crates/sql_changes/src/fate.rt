//! What becomes of each row of a table.
ghost use Rattle.std.specs.Prelude.{◌≡◌, ◌++◌, ◌∷◌, ◌+◌, ◌<◌, ◌≤◌, [], count_by, vec_len, vec_capacity};
ghost use Rattle.sql_changes.specs.Fates.{is_touched, left_of, settled};

use cell_core::{Cell, Sequence};
use std::collections::VecDeque;

/// What becomes of a row.
#[derive(Drop)]
pub(crate) enum Fate {
    /// It stays.
    Stays,
    /// It goes.
    Goes,
    /// This row takes its place.
    Becomes(Sequence<Cell>),
}

/// Whether a row doesn't stay as it is.
fn is_touched(fate: &Fate) -> bool
    ensures { result ≡ is_touched fate.now }
{
    match fate {
        Fate::Stays => false,
        Fate::Goes | Fate::Becomes(_) => true,
    }
}

/// How many rows don't stay as they are.
pub(crate) fn touched(fates: &[Fate]) -> usize
    ensures { result ≡ count_by is_touched fates.now }
{
    fates.iter().filter(|fate| is_touched(fate)).count()
}

/// What is in a row's place after its fate.
fn left_of(fate: Fate, row: Sequence<Cell>) -> Option<Sequence<Cell>>
    ensures { result ≡ left_of fate row }
{
    match fate {
        Fate::Stays => Some(row),
        Fate::Goes => None,
        Fate::Becomes(other) => Some(other),
    }
}

/// Adds a row at the end, where there is room for it.
fn push_within(rows: &mut Vec<Sequence<Cell>>, row: Sequence<Cell>)
    requires { vec_len rows.old < vec_capacity rows.old }
    ensures items { rows.new.items ≡ rows.old.items ++ row ∷ [] }
    ensures len { vec_len rows.new ≡ vec_len rows.old + 1 }
    ensures capacity { vec_capacity rows.old ≤ vec_capacity rows.new }
{
    let Ok(()) = rows.push(row) else {
        unreachable!();
    };
}

/// The rows after their fates, moved to where there is room.
pub(crate) fn settle(
    rows: Vec<Sequence<Cell>>,
    fates: Vec<Fate>,
    room: Vec<Sequence<Cell>>,
) -> Vec<Sequence<Cell>>
    requires empty { room.items ≡ [] }
    requires enough { vec_len rows ≤ vec_capacity room }
    ensures { result.items ≡ settled fates.items rows.items }
{
    let mut ahead = VecDeque::from(rows);
    let mut decided = VecDeque::from(fates);
    let mut kept = room;
    'rows: while let Some(row) = ahead.pop_front() {
        let Some(fate) = decided.pop_front() else {
            return kept;
        };
        if let Some(left) = left_of(fate, row) {
            push_within(&mut kept, left);
        }
    }
    kept
}
