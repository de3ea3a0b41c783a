//! Credits of shapes, which entries pay and pay back.
ghost use Rattle.std.specs.Prelude.{◌≡◌, ◌≢◌, ◌==◌, ◌-◌, ◌<◌, ◌≤◌, ◌∷◌, [], ◌&&◌, List, false, filter, if◌then◌else◌, length, slice_index, true};
ghost use Rattle.evict_admit.specs.Runs.{is_one_of};
ghost use Rattle.pool_policy.specs.declared.entry.PoolEntry.{PoolEntry as EntryValue};
ghost use Rattle.pool_policy.specs.Looks.{one_more, paid_back, pays_back};
ghost use Rattle.pool_policy.specs.Admits.{credit_of, one_less};
ghost use Rattle.pool_entries.specs.Usable.{HaveRisingIds, IsOwed};

use crate::by_id::place_by_id;
use evict_admit::Ledger;
use pool_policy::{PoolEntry, Who};

/// Whether the shape has no credit left.
pub fn is_spent(ledger: &Ledger, shape: u32) -> bool
    requires last { shape ≤ length ledger.now.each }
    ensures spent { 0 < shape → result ≡ (credit_of shape ledger.now.each == 0) }
    ensures none { shape ≡ 0 → result ≡ false }
{
    shape > 0 && ledger.credit(shape) == 0
}

/// Pays one credit, where shapes have credits.
pub fn pay(ledger: &mut Ledger, shape: u32)
    requires last { shape ≤ length ledger.old.each }
    requires first { 0 < length ledger.old.each → 0 < shape }
    requires some { 0 < shape → slice_index ledger.old.each (shape - 1) ≢ 0 }
    ensures each { ledger.new.each ≡ one_less ledger.old.each shape }
    ensures start { ledger.new.start ≡ ledger.old.start }
{
    if shape > 0 {
        ledger.pay(shape);
    }
}

/// Pays one credit back to a shape, where shapes have credits.
fn pay_back(ledger: &mut Ledger, shape: u32)
    requires last { shape ≤ length ledger.old.each }
    requires first { 0 < length ledger.old.each → 0 < shape }
    requires below { 0 < shape → slice_index ledger.old.each (shape - 1) < ledger.old.start }
    ensures each { ledger.new.each ≡ one_more ledger.old.each shape }
    ensures start { ledger.new.start ≡ ledger.old.start }
{
    if shape > 0 {
        ledger.back(shape);
    }
}

/// Pays the entry's credit back, if it is to be paid back.
pub fn pay_back_if(ledger: &mut Ledger, entry: &PoolEntry, pays: bool)
    requires unpaid { pays ≡ true → entry.now.is_paid ≡ false }
    requires owed { IsOwed ledger.old (entry.now ∷ []) }
    ensures each { ledger.new.each ≡ (if pays then one_more ledger.old.each entry.now.shape else ledger.old.each) }
    ensures start { ledger.new.start ≡ ledger.old.start }
    ensures owed { (rest : List EntryValue) → IsOwed ledger.old (entry.now ∷ rest) → IsOwed ledger.new rest }
{
    if pays {
        pay_back(ledger, entry.shape);
    }
}

/// Pays back the credit of the entry with this id, where this use does so.
pub fn pay_back_id(ledger: &mut Ledger, entries: &[PoolEntry], id: u64, who: Who)
    requires rising { HaveRisingIds entries.now }
    requires owed { IsOwed ledger.old entries.now }
    ensures each { ledger.new.each ≡ paid_back ledger.old.each (filter (λ e. is_one_of (id ∷ []) e.id && pays_back who e) entries.now) }
    ensures start { ledger.new.start ≡ ledger.old.start }
{
    match place_by_id(entries, id) {
        None => {}
        Some(place) => {
            let entry = &entries[place];
            pay_back_if(ledger, entry, entry.pays_back(who));
        }
    }
}
