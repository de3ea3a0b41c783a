//! What a look changes of the entries, by what it finds.
ghost use Rattle.std.specs.Prelude.{◌≡◌, ◌<◌, [], ◌∷◌, ◌&&◌, List, filter, if◌then◌else◌, map};
ghost use Rattle.std.specs.List.{AllByRecursion};
ghost use Rattle.std.specs.Option.{option_map_or};
ghost use Rattle.std.specs.Vec.{vec_capacity};
ghost use Rattle.evict_admit.specs.Runs.{is_one_of};
ghost use Rattle.pool_policy.specs.Looks.{at_ids, ids_pinned, ids_used, paid_back, pays_back, pinned, used};
ghost use Rattle.pool_entries.specs.Usable.{CanUse, HaveRisingIds, IsOwed};
ghost use Rattle.recycle_pool.specs.declared.found.CoverPiece.{CoverPiece as PartValue};
ghost use Rattle.recycle_pool.specs.Answers.{piece_in, told};

use crate::found::{CoverPiece, Found};
use evict_admit::Ledger;
use pool_entries::{pay_back_id, pay_back_if, pin_id, use_id};
use pool_policy::{PoolEntry, Who};

/// Whether a part has this id.
fn is_part(parts: &[CoverPiece], id: u64) -> bool
    ensures { result ≡ is_one_of (map (λ piece. piece.0) (map piece_in parts.now)) id }
{
    let mut rest = parts;
    'parts: while let [part, more @ ..] = rest {
        if id == part.id {
            return true;
        }
        rest = more;
    }
    false
}

/// Whether a look that finds this uses the entry with this id.
fn is_used(found: &Found, parts: &[CoverPiece], id: u64) -> bool
    ensures { result ≡ is_one_of (ids_used (told found.now parts.now)) id }
{
    match found {
        Found::Exact(only, _) | Found::Within(only, _) => id == *only,
        Found::Across(_) => is_part(parts, id),
        Found::Miss => false,
    }
}

/// Uses the entry, if a look that finds this uses it.
fn use_if(entry: &mut PoolEntry, found: &Found, parts: &[CoverPiece], who: Who, now: u64)
    requires { CanUse entry.old }
    ensures { entry.new ≡ (if is_one_of (ids_used (told found.now parts.now)) entry.old.id then used who now entry.old else entry.old) }
{
    if is_used(found, parts, entry.id) {
        entry.use_by(who, now);
    }
}

/// Uses each entry that a look uses, in one pass over all.
fn use_each(entries: &mut Vec<PoolEntry>, found: &Found, parts: &[CoverPiece], who: Who, now: u64)
    requires { AllByRecursion CanUse entries.old.items }
    ensures entries { entries.new.items ≡ at_ids (ids_used (told found.now parts.now)) (used who now) entries.old.items }
    ensures room { vec_capacity entries.new ≡ vec_capacity entries.old }
{
    'entries: for i in 0..entries.len() {
        use_if(&mut entries[i], found, parts, who, now);
    }
}

/// Uses each entry that a look uses.
pub(crate) fn use_all(
    entries: &mut Vec<PoolEntry>,
    found: &Found,
    parts: &[CoverPiece],
    who: Who,
    now: u64,
)
    requires rising { HaveRisingIds entries.old.items }
    requires usable { AllByRecursion CanUse entries.old.items }
    ensures entries { entries.new.items ≡ at_ids (ids_used (told found.now parts.now)) (used who now) entries.old.items }
    ensures room { vec_capacity entries.new ≡ vec_capacity entries.old }
{
    match found {
        Found::Exact(id, _) | Found::Within(id, _) => use_id(entries, *id, who, now),
        Found::Across(_) => use_each(entries, found, parts, who, now),
        Found::Miss => {}
    }
}

/// The id of an exact result.
fn exact_id(found: &Found) -> Option<u64>
    ensures { (parts : List PartValue) → ids_pinned (told found.now parts) ≡ option_map_or (λ id. id ∷ []) result [] }
{
    match found {
        Found::Exact(id, _) => Some(*id),
        Found::Within(_, _) | Found::Across(_) | Found::Miss => None,
    }
}

/// Lets a session hold an exact result from now on.
pub(crate) fn pin_found(entries: &mut Vec<PoolEntry>, found: &Found, who: Who)
    requires session { who.session < 17 }
    requires rising { HaveRisingIds entries.old.items }
    ensures entries { (parts : List PartValue) → entries.new.items ≡ at_ids (ids_pinned (told found.now parts)) (pinned who) entries.old.items }
    ensures room { vec_capacity entries.new ≡ vec_capacity entries.old }
{
    match exact_id(found) {
        None => {}
        Some(id) => pin_id(entries, id, who),
    }
}

/// Whether a look that finds this pays the entry's credit back.
fn pays_now(entry: &PoolEntry, found: &Found, parts: &[CoverPiece], who: Who) -> bool
    ensures { result ≡ (is_one_of (ids_used (told found.now parts.now)) entry.now.id && pays_back who entry.now) }
{
    is_used(found, parts, entry.id) && entry.pays_back(who)
}

/// Pays back the credit of each entry that a look uses, where its use does so, in one pass over
/// all.
fn pay_each(
    ledger: &mut Ledger,
    entries: &[PoolEntry],
    found: &Found,
    parts: &[CoverPiece],
    who: Who,
)
    requires { IsOwed ledger.old entries.now }
    ensures each { ledger.new.each ≡ paid_back ledger.old.each (filter (λ e. is_one_of (ids_used (told found.now parts.now)) e.id && pays_back who e) entries.now) }
    ensures start { ledger.new.start ≡ ledger.old.start }
{
    let mut rest = entries;
    'entries: while let [entry, more @ ..] = rest {
        let pays = pays_now(entry, found, parts, who);
        pay_back_if(ledger, entry, pays);
        rest = more;
    }
}

/// Pays back the credits that the uses of a look pay back.
pub(crate) fn pay_uses(
    ledger: &mut Ledger,
    entries: &[PoolEntry],
    found: &Found,
    parts: &[CoverPiece],
    who: Who,
)
    requires rising { HaveRisingIds entries.now }
    requires owed { IsOwed ledger.old entries.now }
    ensures each { ledger.new.each ≡ paid_back ledger.old.each (filter (λ e. is_one_of (ids_used (told found.now parts.now)) e.id && pays_back who e) entries.now) }
    ensures start { ledger.new.start ≡ ledger.old.start }
{
    match found {
        Found::Exact(id, _) | Found::Within(id, _) => pay_back_id(ledger, entries, *id, who),
        Found::Across(_) => pay_each(ledger, entries, found, parts, who),
        Found::Miss => {}
    }
}
