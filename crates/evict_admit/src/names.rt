//! Rows by their ids.
ghost use Rattle.std.specs.Prelude.{◌≡◌, ◌≢◌, ℕ, ◌<◌, ◌≤◌, All, IfNone, IfSome, length};
ghost use Rattle.std.specs.List.{Contains};
ghost use Rattle.std.specs.List.Sorted.{IsNonDecreasingBy};
ghost use Rattle.evict_admit.specs.Boards.{IsKnown, IsNamed, row_at};

use crate::contest::Contender;
use crate::plan::Row;

/// The id of the row at a place.
#[derive(Clone, Copy)]
pub(crate) struct Name {
    pub(crate) id: u64,
    pub(crate) place: u16,
}

/// How many hints there are.
pub(crate) const HINTS: usize = 4096;

/// What is known of the rows from the beginning: themselves, their places by their ids, and how
/// they are compared. The hint of an id mostly shows its place at once, without a search.
#[derive(Clone, Copy)]
pub(crate) struct Known<'a> {
    pub(crate) rows: &'a [Row],
    pub(crate) names: &'a [Name],
    pub(crate) hints: &'a [u16],
    pub(crate) contenders: &'a [Contender],
}

/// Notes the place of each row, in the order of their ids.
pub(crate) fn note_names(names: &mut [Name], rows: &[Row])
    requires room { length names.old ≡ length rows.now }
    requires few { length rows.now ≤ 1024 }
    ensures named { IsNamed rows.now names.new }
    ensures room { length names.new ≡ length names.old }
{
    write_names(names, rows);
    names.sort_unstable_by_key(|name| name.id);
}

/// Writes the id and place of each row, one after the other.
fn write_names(names: &mut [Name], rows: &[Row])
    requires room { length names.old ≡ length rows.now }
    requires few { length rows.now ≤ 1024 }
    ensures tells { All (λ name. (name.place < length rows.now) × ((row_at rows.now name.place).id ≡ name.id)) names.new }
    ensures each { (p : ℕ) → p < length rows.now → Contains names.new (record { id = (row_at rows.now p).id; place = p }) }
    ensures room { length names.new ≡ length names.old }
{
    'rows: for i in 0..rows.len() {
        names[i] = Name {
            id: rows[i].id,
            place: i as u16,
        };
    }
}

/// Notes each place at the hint of its row's id. Where two rows have one hint, it keeps the later
/// place.
pub(crate) fn note_hints(hints: &mut [u16], rows: &[Row])
    requires few { length rows.now ≤ 1024 }
    requires size { length hints.old ≡ 4096 }
    ensures { length hints.new ≡ 4096 }
{
    'rows: for i in 0..rows.len() {
        hints[(rows[i].id % HINTS as u64) as usize] = i as u16;
    }
}

/// The position of an id in the list of names.
fn search(names: &[Name], id: u64) -> Option<usize>
    requires { IsNonDecreasingBy (λ name. name.id) names.now }
    ensures some { IfSome result (λ p. Contains names.now (record { id = id; place = p })) }
    ensures none { IfNone result (All (λ name. name.id ≢ id) names.now) }
{
    match names.binary_search_by_key(&id, |name| name.id) {
        Ok(i) => Some(names[i].place as usize),
        Err(_) => None,
    }
}

impl Known<'_> {
    /// The place of the row with this id; no row has 0.
    pub(crate) fn find(&self, id: u64) -> Option<usize>
        requires { IsKnown self.now }
        ensures some { IfSome result (λ p. (p < length self.now.rows.now) × ((row_at self.now.rows.now p).id ≡ id)) }
        ensures none { IfNone result ((p : ℕ) → p < length self.now.rows.now → (row_at self.now.rows.now p).id ≢ id) }
    {
        if id == 0 {
            return None;
        }
        let hint = self.hints[(id % HINTS as u64) as usize] as usize;
        if hint < self.rows.len() && self.rows[hint].id == id {
            return Some(hint);
        }
        search(self.names, id)
    }
}
