//! What a write does to the entries of a pool.
ghost use Rattle.std.specs.Prelude.{◌≡◌, ◌&&◌, ◌++◌, ◌-◌, ◌+◌, ◌≤◌, [], ℕ, filter, length, not, vec_len};
ghost use Rattle.std.specs.Vec.{vec_capacity};
ghost use Rattle.evict_admit.specs.Runs.{given_up, is_one_of};
ghost use Rattle.pool_policy.specs.Pool.{pool_bytes, score_at};
ghost use Rattle.pool_policy.specs.Looks.{paid_back};
ghost use Rattle.pool_policy.specs.Admits.{left_without, pays_at_end, rows_of};
ghost use Rattle.pool_policy.specs.Scorers.{IsScorerOf};
ghost use Rattle.pool_entries.specs.Usable.{IsOwed};
ghost use Rattle.recycle_pool.specs.Placed.{HaveRoom};
ghost use Rattle.recycle_pool.specs.Usable.{IsWeighable};

use crate::entries::Entries;
use crate::lists::Lists;
use crate::room::{push_row, take_out};
use evict_admit::{Ledger, Row, plan_evictions};
use pool_entries::pay_back_if;
use pool_policy::{PoolEntry, PoolOptions, is_among};
use score_hook::Scorer;

/// Whether the entry is touched, doesn't come back, and pays its credit back then.
fn pays_dropped(entry: &PoolEntry, touched: &[u64], back: &[u64]) -> bool
    ensures { result ≡ ((is_one_of touched.now entry.now.id && not (is_one_of back.now entry.now.id)) && pays_at_end entry.now) }
{
    is_among(touched, entry.id) && !is_among(back, entry.id) && entry.pays_at_end()
}

/// Pays back the credit of what is touched and doesn't come back, where others used it.
fn pay_dropped(ledger: &mut Ledger, entries: &[PoolEntry], touched: &[u64], back: &[u64])
    requires { IsOwed ledger.old entries.now }
    ensures each { ledger.new.each ≡ paid_back ledger.old.each (filter (λ e. (is_one_of touched.now e.id && not (is_one_of back.now e.id)) && pays_at_end e) entries.now) }
    ensures start { ledger.new.start ≡ ledger.old.start }
{
    let mut rest = entries;
    'entries: while let [entry, more @ ..] = rest {
        let pays = pays_dropped(entry, touched, back);
        pay_back_if(ledger, entry, pays);
        rest = more;
    }
}

/// Removes what is touched. What comes back, by the ids that it had, pays no credit.
pub(crate) fn take_touched(
    entries: &mut Vec<PoolEntry>,
    ledger: &mut Ledger,
    touched: &[u64],
    back: &[u64],
)
    requires { IsOwed ledger.old entries.old.items }
    ensures entries { entries.new.items ≡ left_without touched.now entries.old.items }
    ensures each { ledger.new.each ≡ paid_back ledger.old.each (filter (λ e. (is_one_of touched.now e.id && not (is_one_of back.now e.id)) && pays_at_end e) entries.old.items) }
    ensures start { ledger.new.start ≡ ledger.old.start }
    ensures room { vec_capacity entries.new ≡ vec_capacity entries.old }
{
    pay_dropped(ledger, entries.as_slice(), touched, back);
    take_out(entries, touched);
}

/// Adds entries as the last ones, for which there is room.
pub(crate) fn enter_all(entries: &mut Vec<PoolEntry>, more: Vec<PoolEntry>)
    requires { vec_len entries.old + vec_len more ≤ vec_capacity entries.old }
    ensures items { entries.new.items ≡ entries.old.items ++ more.items }
    ensures room { vec_capacity entries.old ≤ vec_capacity entries.new }
{
    let mut rest = more;
    if entries.append(&mut rest).is_err() {
        unreachable!();
    }
}

/// The stated bytes of the entries, which may be more than the budget.
fn wide_bytes(entries: &[PoolEntry]) -> u128
    requires { length entries.now ≤ 1024 }
    ensures { result ≡ pool_bytes entries.now }
{
    let mut total = 0;
    'entries: for i in 0..entries.len() {
        total += u128::from(entries[i].bytes);
    }
    total
}

/// The rows of entries in the plan of evictions at the end of a write.
fn fill_rows_alone(rows: &mut Vec<Row>, entries: &[PoolEntry])
    requires { length entries.now ≤ vec_capacity rows.old }
    ensures rows { rows.new.items ≡ rows_of [] entries.now }
    ensures room { vec_capacity rows.old ≤ vec_capacity rows.new }
{
    rows.clear();
    'rows: for i in 0..entries.len() {
        push_row(rows, entries[i].row_alone());
    }
}

impl Entries {
    /// Lists which entries go until the bytes are within the budget.
    pub(crate) fn plan_last(
        &self,
        lists: &mut Lists,
        options: &PoolOptions,
        scorer: &Scorer,
        now: u64,
    )
        requires scorer { IsScorerOf scorer.now.kind scorer.now.weights.items options.now }
        requires plan { IsWeighable now self.now.all.items }
        requires room { HaveRoom (length self.now.all.items) lists.old }
        ensures gone { lists.new.gone.items ≡ (given_up (score_at options.now now) (rows_of [] self.now.all.items) (pool_bytes self.now.all.items - options.now.budget) 0).0 }
        ensures room { (places : ℕ) → HaveRoom places lists.old → HaveRoom places lists.new }
    {
        let entries = self.all.as_slice();
        fill_rows_alone(&mut lists.rows, entries);
        lists.gone.clear();
        let need = wide_bytes(entries).saturating_sub(u128::from(options.budget));
        plan_evictions(lists.rows.as_slice(), need, 0, scorer, now, &mut lists.gone);
    }
}
