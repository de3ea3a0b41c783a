//! Which entries a write touches.
ghost use Rattle.std.specs.Prelude.{◌≡◌, ◌+◌, ◌<◌, ◌≤◌, ◌∷◌, [], length, vec_len};
ghost use Rattle.std.specs.List.{filter_map, list_any};
ghost use Rattle.std.specs.Str.{bytes_eq};
ghost use Rattle.std.specs.Vec.{vec_capacity};
ghost use Rattle.lineage_key.specs.Parents.{id_in};
ghost use Rattle.evict_admit.specs.Runs.{is_one_of};
ghost use Rattle.pool_policy.specs.Writes.{and_touched, binds_one, touched_ids};

use crate::entry::PoolEntry;
use cell_core::Word;
use lineage_key::{Key, KeyArg};

/// Whether an id is one of these.
pub fn is_among(ids: &[u64], id: u64) -> bool
    ensures { result ≡ is_one_of ids.now id }
{
    let mut rest = ids;
    'ids: while let [first, more @ ..] = rest {
        if id == *first {
            return true;
        }
        rest = more;
    }
    false
}

/// Whether a name is one of these columns.
fn is_column(columns: &[Word], name: &str) -> bool
    ensures { result ≡ list_any (bytes_eq name.now) columns.now }
{
    let mut rest = columns;
    'columns: while let [column, more @ ..] = rest {
        if name == column.text() {
            return true;
        }
        rest = more;
    }
    false
}

/// Whether a key is that of a bind of one of these columns of a table.
fn is_touched_bind(key: &Key, table: &Word, columns: &[Word]) -> bool
    ensures { result ≡ binds_one table.now columns.now key.now }
{
    key.is_bind() && key.table() == table.text() && is_column(columns, key.column())
}

/// Whether one of the ids in these arguments is among the given ids.
fn names_any(args: &[KeyArg], ids: &[u64]) -> bool
    ensures { result ≡ list_any (is_one_of ids.now) (filter_map id_in args.now) }
{
    let mut rest = args;
    'arguments: while let [arg, more @ ..] = rest {
        if is_id_among(arg, ids) {
            return true;
        }
        rest = more;
    }
    false
}

/// Whether an argument is one of these ids.
fn is_id_among(arg: &KeyArg, ids: &[u64]) -> bool
    ensures { result ≡ list_any (is_one_of ids.now) (filter_map id_in (arg.now ∷ [])) }
{
    match arg {
        KeyArg::Const(_) => false,
        KeyArg::Id(id) => is_among(ids, *id),
    }
}

/// Adds an entry to what is touched so far, if it is touched.
fn note_if_touched(touched: &mut Vec<u64>, entry: &PoolEntry, table: &Word, columns: &[Word])
    requires room { vec_len touched.old < vec_capacity touched.old }
    ensures ids { touched.new.items ≡ and_touched table.now columns.now touched.old.items entry.now }
    ensures few { vec_len touched.new ≤ vec_len touched.old + 1 }
    ensures room { vec_capacity touched.old ≤ vec_capacity touched.new }
{
    if is_touched_bind(&entry.key, table, columns)
        || names_any(entry.key.args.as_slice(), touched.as_slice())
    {
        if touched.push(entry.id).is_err() {
            unreachable!();
        }
    }
}

/// Lists the ids of the entries that a write of these columns of a table touches, in order: their
/// binds, and all that was computed from what is touched. Takes no memory where there is room.
pub fn note_touched(touched: &mut Vec<u64>, entries: &[PoolEntry], table: &Word, columns: &[Word])
    requires room { length entries.now ≤ vec_capacity touched.old }
    ensures ids { touched.new.items ≡ touched_ids table.now columns.now entries.now }
    ensures room { vec_capacity touched.old ≤ vec_capacity touched.new }
{
    touched.clear();
    let mut rest = entries;
    'entries: while let [entry, more @ ..] = rest {
        note_if_touched(touched, entry, table, columns);
        rest = more;
    }
}
