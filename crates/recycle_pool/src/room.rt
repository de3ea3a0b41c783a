//! Room for a new entry: which entries leave, and which credits they pay back.
ghost use Rattle.std.specs.Prelude.{◌≡◌, ◌&&◌, ◌++◌, ◌∷◌, ◌-◌, ◌+◌, ◌<◌, ◌≤◌, ◌^◌, [], ℕ, filter, length, map, not, vec_len};
ghost use Rattle.std.specs.Vec.{vec_capacity};
ghost use Rattle.lineage_key.specs.Parents.{parents_of, two_parents};
ghost use Rattle.evict_admit.specs.Evictions.{is_enough};
ghost use Rattle.evict_admit.specs.Runs.{given_up, is_one_of};
ghost use Rattle.pool_policy.specs.Pool.{pool_bytes, score_at};
ghost use Rattle.pool_policy.specs.Looks.{paid_back};
ghost use Rattle.pool_policy.specs.Admits.{left_without, pays_at_end, row_of, rows_of};
ghost use Rattle.pool_policy.specs.Scorers.{IsScorerOf};
ghost use Rattle.pool_entries.specs.Usable.{IsOwed};
ghost use Rattle.recycle_pool.specs.Indexed.{AreBeside, kin_of};
ghost use Rattle.recycle_pool.specs.Placed.{HaveRoom};
ghost use Rattle.recycle_pool.specs.Usable.{IsWeighable};

use crate::entries::Entries;
use crate::lists::Lists;
use evict_admit::{Ledger, Row, plan_evictions};
use lineage_key::Key;
use pool_entries::pay_back_if;
use pool_index::Kin;
use pool_policy::{PoolEntry, PoolOptions, is_among};
use score_hook::Scorer;

/// The row of an entry in the plan of evictions for a new entry with this key. Its parents are
/// passed in, so that its own key isn't read.
fn row_with(entry: &PoolEntry, parents: [u64; 2], key: &Key) -> Row
    requires { parents ≡ two_parents entry.now.key }
    ensures { result ≡ row_of (parents_of key.now) entry.now }
{
    Row {
        id: entry.id,
        bytes: entry.bytes,
        free: !entry.is_held() && !key.names(entry.id),
        parents,
        stats: entry.stats,
    }
}

/// The rows of entries in the plan of evictions for a new entry with this key. Their parents are
/// read from `kin`: in the keys they lie on the heap, far from each other.
fn fill_rows(rows: &mut Vec<Row>, entries: &[PoolEntry], kin: &[Kin], key: &Key)
    requires room { length entries.now ≤ vec_capacity rows.old }
    requires kin { kin.now ≡ map kin_of entries.now }
    ensures rows { rows.new.items ≡ rows_of (parents_of key.now) entries.now }
    ensures room { vec_capacity rows.old ≤ vec_capacity rows.new }
{
    rows.clear();
    'rows: for i in 0..entries.len() {
        push_row(rows, row_with(&entries[i], kin[i].parents, key));
    }
}

/// Adds a row as the last one, for which there is room.
pub(crate) fn push_row(rows: &mut Vec<Row>, row: Row)
    requires { vec_len rows.old < vec_capacity rows.old }
    ensures items { rows.new.items ≡ rows.old.items ++ row ∷ [] }
    ensures count { vec_len rows.new ≡ vec_len rows.old + 1 }
    ensures room { vec_capacity rows.old ≤ vec_capacity rows.new }
{
    if rows.push(row).is_err() {
        unreachable!();
    }
}

/// Whether nothing is wanted.
fn is_nothing(need: u128, slots: u64) -> bool
    ensures { result ≡ is_enough need slots }
{
    need == 0 && slots == 0
}

/// The stated bytes of the entries whose ids aren't among these, where all of them have `all`
/// bytes.
fn left_bytes(entries: &[PoolEntry], all: u64, gone: &[u64]) -> u64
    requires all { all ≡ pool_bytes entries.now }
    requires small { all < 2 ^ 62 }
    ensures { result ≡ pool_bytes (left_without gone.now entries.now) }
{
    if gone.is_empty() {
        return all;
    }
    let mut total = 0;
    'entries: for i in 0..entries.len() {
        if !is_among(gone, entries[i].id) {
            total += entries[i].bytes;
        }
    }
    total
}

impl Entries {
    /// Lists which entries go for a new one of so many bytes. Whether that is enough, and how many bytes
    /// the others have.
    pub(crate) fn make_room(
        &self,
        lists: &mut Lists,
        options: &PoolOptions,
        scorer: &Scorer,
        now: u64,
        key: &Key,
        bytes: u64,
    ) -> (bool, u64)
        requires scorer { IsScorerOf scorer.now.kind scorer.now.weights.items options.now }
        requires plan { IsWeighable now self.now.all.items }
        requires room { HaveRoom (length self.now.all.items) lists.old }
        requires beside { AreBeside self.now.parents self.now.all.items }
        requires counted { self.now.bytes ≡ pool_bytes self.now.all.items }
        requires small { self.now.bytes < 2 ^ 62 }
        ensures plan { (lists.new.gone.items, result.0) ≡ given_up (score_at options.now now) (rows_of (parents_of key.now) self.now.all.items) (self.now.bytes + bytes - options.now.budget) (length self.now.all.items + 1 - options.now.places) }
        ensures left { result.1 ≡ pool_bytes (left_without lists.new.gone.items self.now.all.items) }
        ensures room { (places : ℕ) → HaveRoom places lists.old → HaveRoom places lists.new }
    {
        let want = self.wanted(options, bytes);
        let enough = self.plan_room(lists, options, scorer, now, key, want);
        let left = left_bytes(self.all.as_slice(), self.bytes, lists.gone.as_slice());
        (enough, left)
    }

    /// How many bytes and places are wanted for a new entry of so many bytes.
    fn wanted(&self, options: &PoolOptions, bytes: u64) -> (u128, u64)
        requires few { length self.now.all.items ≤ 1024 }
        ensures bytes { result.0 ≡ self.now.bytes + bytes - options.now.budget }
        ensures places { result.1 ≡ length self.now.all.items + 1 - options.now.places }
    {
        let total = u128::from(self.bytes) + u128::from(bytes);
        let need = total.saturating_sub(u128::from(options.budget));
        let slots = (self.all.len() as u64 + 1).saturating_sub(options.places);
        (need, slots)
    }

    /// Lists which entries are given up for a new one, where so many bytes and places are wanted. Whether
    /// that is enough.
    fn plan_room(
        &self,
        lists: &mut Lists,
        options: &PoolOptions,
        scorer: &Scorer,
        now: u64,
        key: &Key,
        want: (u128, u64),
    ) -> bool
        requires scorer { IsScorerOf scorer.now.kind scorer.now.weights.items options.now }
        requires plan { IsWeighable now self.now.all.items }
        requires room { HaveRoom (length self.now.all.items) lists.old }
        requires beside { AreBeside self.now.parents self.now.all.items }
        ensures plan { (lists.new.gone.items, result) ≡ given_up (score_at options.now now) (rows_of (parents_of key.now) self.now.all.items) want.0 want.1 }
        ensures room { (places : ℕ) → HaveRoom places lists.old → HaveRoom places lists.new }
    {
        lists.gone.clear();
        let (need, slots) = want;
        if is_nothing(need, slots) {
            return true;
        }
        let entries = self.all.as_slice();
        fill_rows(&mut lists.rows, entries, self.parents.all(), key);
        let rows = lists.rows.as_slice();
        plan_evictions(rows, need, slots, scorer, now, &mut lists.gone)
    }
}

/// Whether the entry leaves, and pays its credit back then.
fn pays_then(entry: &PoolEntry, gone: &[u64]) -> bool
    ensures { result ≡ (is_one_of gone.now entry.now.id && pays_at_end entry.now) }
{
    is_among(gone, entry.id) && entry.pays_at_end()
}

/// Pays back the credits of the leaving entries that others used and that haven't paid back yet.
fn pay_leaving(ledger: &mut Ledger, entries: &[PoolEntry], gone: &[u64])
    requires { IsOwed ledger.old entries.now }
    ensures each { ledger.new.each ≡ paid_back ledger.old.each (filter (λ e. is_one_of gone.now e.id && pays_at_end e) entries.now) }
    ensures start { ledger.new.start ≡ ledger.old.start }
{
    let mut rest = entries;
    'entries: while let [entry, more @ ..] = rest {
        let pays = pays_then(entry, gone);
        pay_back_if(ledger, entry, pays);
        rest = more;
    }
}

/// Removes the entries with these ids, which pay their credits back.
pub(crate) fn leave(entries: &mut Vec<PoolEntry>, ledger: &mut Ledger, gone: &[u64])
    requires { IsOwed ledger.old entries.old.items }
    ensures entries { entries.new.items ≡ left_without gone.now entries.old.items }
    ensures each { ledger.new.each ≡ paid_back ledger.old.each (filter (λ e. is_one_of gone.now e.id && pays_at_end e) entries.old.items) }
    ensures start { ledger.new.start ≡ ledger.old.start }
    ensures room { vec_capacity entries.new ≡ vec_capacity entries.old }
{
    if gone.is_empty() {
        return;
    }
    pay_leaving(ledger, entries.as_slice(), gone);
    take_out(entries, gone);
}

/// Takes the entries with these ids out of the list.
pub(crate) fn take_out(entries: &mut Vec<PoolEntry>, gone: &[u64])
    ensures entries { entries.new.items ≡ left_without gone.now entries.old.items }
    ensures room { vec_capacity entries.new ≡ vec_capacity entries.old }
{
    entries.retain(
        |entry| -> bool
            ensures { result ≡ not (is_one_of gone.entry.now entry.entry.now.id) }
        { !is_among(gone, entry.id) },
    );
}

/// Adds an entry as the last one.
pub(crate) fn enter(entries: &mut Vec<PoolEntry>, entry: PoolEntry)
    requires { vec_len entries.old < vec_capacity entries.old }
    ensures items { entries.new.items ≡ entries.old.items ++ entry ∷ [] }
    ensures room { vec_capacity entries.old ≤ vec_capacity entries.new }
{
    if entries.push(entry).is_err() {
        unreachable!();
    }
}
