//! Entries that come back in a write.
ghost use Rattle.std.specs.Prelude.{◌≡◌, ◌<◌, ◌≤◌, [], IfOk, Some, false, length, map};
ghost use Rattle.std.specs.List.{filter_map};
ghost use Rattle.cell_core.specs.declared.operator.Value.TheVariants.{Bat as BatValue};
ghost use Rattle.cell_core.specs.declared.operator.Op.TheVariants.{Bind};
ghost use Rattle.cell_core.specs.Operators.{operate};
ghost use Rattle.cell_core.specs.SameInstr.{same_op};
ghost use Rattle.lineage_key.specs.Parents.{id_in};
ghost use Rattle.score_hook.specs.declared.stats.Evict.TheVariants.{Lru};
ghost use Rattle.pool_policy.specs.Pool.{PoolState};
ghost use Rattle.pool_policy.specs.Keeps.{IsOffer, arg_value, faces, value_in};
ghost use Rattle.recycle_pool.specs.Answers.{offer_in};

use crate::scorers::by_last_use;
use bat_algebra::{reverse, select, semijoin};
use bat_core::{Bat, BatBuilder, Shared};
use bat_join::join;
use cell_core::{Cell, Memory, Op, Sequence, Steps, word_of};
use lineage_key::{Key, KeyArg};
use pool_policy::{Admit, PoolEntry, PoolOptions, Touched, Who};
use recycle_pool::{Carried, Found, Offered, Pool};
use score_hook::Evict;
use std::alloc::Global;
use std::marker::Brand;
use std::sync::ledger::{Blank, Ledger};
use std::test::Fail;
use update_propagate::carry;

/// The session and the statement that do everything here.
const WHO: Who = Who {
    session: 1,
    statement: 1,
};

/// A column: oids from 0, paired with these numbers.
fn column(alloc: Global, numbers: &[i64]) -> Result<Shared, Memory> {
    let mut bat = BatBuilder::new(alloc);
    for (place, number) in numbers.iter().enumerate() {
        bat.append(alloc, Cell::Oid(place as u64), Cell::Int(*number))?;
    }
    Shared::new(alloc, bat.finish(alloc)?)
}

/// The table, the column and its kind, as arguments.
fn names(alloc: Global) -> Result<Vec<KeyArg>, Memory>
    ensures { IfOk result (λ args. filter_map id_in args.items ≡ []) }
{
    let mut args = Vec::new(alloc);
    args.push(KeyArg::Const(Cell::Text(word_of(alloc, "t")?)))?;
    args.push(KeyArg::Const(Cell::Text(word_of(alloc, "a")?)))?;
    args.push(KeyArg::Const(Cell::Text(word_of(alloc, "int")?)))?;
    Ok(args)
}

/// A column of the table, to be admitted.
fn offered_column(alloc: Global) -> Result<Offered, Memory>
    ensures { IfOk result (λ offered. (pool : PoolState) → IsOffer pool (offer_in offered)) }
{
    let args = names(alloc)?;
    let value = column(alloc, &[3, 1, 2])?;
    Ok(Offered {
        key: Key {
            op: Op::Bind,
            args: Sequence::from_vec(args),
            version: 0,
        },
        value,
        work: 4,
        present: 0,
    })
}

/// The value of the entry with an id.
fn value_of(entries: &[PoolEntry], id: u64) -> Result<Shared, Memory>
    ensures { IfOk result (λ value. value_in (faces entries.now) id ≡ Some value) }
{
    let mut rest = entries;
    'entries: while let [entry, more @ ..] = rest {
        if entry.id == id {
            return entry.value.share();
        }
        rest = more;
    }
    Err(Memory)
}

/// The result of an operator on entries and constants. Whatever these tests don't use counts as
/// want of memory.
fn computed<L: Ledger>(
    alloc: Global,
    entries: &[PoolEntry],
    op: Op,
    args: &[KeyArg],
    steps: &mut Steps<L>,
) -> Result<Bat, Memory>
    ensures value { IfOk result (λ out. operate op (map (arg_value (faces entries.now)) args.now) ≡ Some (BatValue out)) }
    ensures few { IfOk result (λ out. length (filter_map id_in args.now) ≤ 2) }
    ensures no_bind { IfOk result (λ out. same_op op Bind ≡ false) }
{
    match (op, args) {
        (
            Op::Select,
            [
                KeyArg::Id(b),
                KeyArg::Const(low),
                KeyArg::Const(high),
                KeyArg::Const(Cell::Bit(li)),
                KeyArg::Const(Cell::Bit(hi)),
            ],
        ) => select(
            alloc,
            value_of(entries, *b)?.bat(),
            low,
            high,
            *li,
            *hi,
            steps,
        ),
        (Op::Reverse, [KeyArg::Id(b)]) => reverse(alloc, value_of(entries, *b)?.bat(), steps),
        (Op::Semijoin, [KeyArg::Id(l), KeyArg::Id(r)]) => {
            let (l, r) = (value_of(entries, *l)?, value_of(entries, *r)?);
            semijoin(alloc, l.bat(), r.bat(), steps)
        }
        (Op::Join, [KeyArg::Id(l), KeyArg::Id(r)]) => {
            let (l, r) = (value_of(entries, *l)?, value_of(entries, *r)?);
            join(alloc, l.bat(), r.bat(), steps)
        }
        _ => Err(Memory),
    }
}

/// That result, to be admitted.
fn offered<L: Ledger>(
    alloc: Global,
    pool: &Pool,
    op: Op,
    args: Vec<KeyArg>,
    steps: &mut Steps<L>,
) -> Result<Offered, Memory>
    ensures { IfOk result (λ offered. IsOffer pool.now (offer_in offered)) }
{
    let bat = computed(alloc, pool.entries(), op, args.as_slice(), steps)?;
    Ok(Offered {
        key: Key {
            op,
            args: Sequence::from_vec(args),
            version: 0,
        },
        value: Shared::new(alloc, bat)?,
        work: 4,
        present: 0,
    })
}

/// An empty pool.
fn empty(alloc: Global) -> Result<Pool, Memory>
    ensures kind { IfOk result (λ pool. pool.options.evict ≡ Lru) }
    ensures weights { IfOk result (λ pool. pool.options.weights ≡ []) }
    ensures moment { IfOk result (λ pool. pool.moment ≡ 0) }
{
    let options = PoolOptions {
        places: 16,
        budget: 1 << 30,
        evict: Evict::Lru,
        weights: Sequence::new(alloc),
        admit: Admit::All,
        credits: 1,
    };
    Pool::new(alloc, options)
}

/// These entries, as arguments.
fn ids(alloc: Global, ids: &[u64]) -> Result<Vec<KeyArg>, Memory> {
    let mut args = Vec::with_capacity(alloc, ids.len())?;
    for id in ids {
        args.push(KeyArg::Id(*id))?;
    }
    Ok(args)
}

/// The first entry and a range from 2 to 9, as arguments.
fn range(alloc: Global) -> Result<Vec<KeyArg>, Memory> {
    let mut args = ids(alloc, &[1])?;
    args.push(KeyArg::Const(Cell::Int(2)))?;
    args.push(KeyArg::Const(Cell::Int(9)))?;
    args.push(KeyArg::Const(Cell::Bit(true)))?;
    args.push(KeyArg::Const(Cell::Bit(true)))?;
    Ok(args)
}

/// A pool with a column, the selection of its numbers from 2 to 9, the semijoin of that with the
/// column, the reverse of the selection, and the join of that with the column.
fn filled<L: Ledger>(alloc: Global, steps: &mut Steps<L>) -> Result<Pool, Memory> {
    let scorer = by_last_use(alloc)?;
    let mut pool = empty(alloc)?;
    pool.admit(&scorer, WHO, 1, offered_column(alloc)?)?;
    let selected = offered(alloc, &pool, Op::Select, range(alloc)?, steps)?;
    pool.admit(&scorer, WHO, 2, selected)?;
    let kept = offered(alloc, &pool, Op::Semijoin, ids(alloc, &[2, 1])?, steps)?;
    pool.admit(&scorer, WHO, 3, kept)?;
    let turned = offered(alloc, &pool, Op::Reverse, ids(alloc, &[2])?, steps)?;
    pool.admit(&scorer, WHO, 4, turned)?;
    let joined = offered(alloc, &pool, Op::Join, ids(alloc, &[4, 1])?, steps)?;
    pool.admit(&scorer, WHO, 5, joined)?;
    Ok(pool)
}

/// A write that adds 5 and 1 to the column.
fn longer(alloc: Global) -> Result<Touched, Memory> {
    let mut columns = Sequence::new(alloc);
    columns.push(word_of(alloc, "a")?)?;
    let mut added = Sequence::new(alloc);
    added.push((word_of(alloc, "a")?, column(alloc, &[3, 1, 2, 5, 1])?))?;
    Ok(Touched {
        table: word_of(alloc, "t")?,
        columns,
        old_rows: 3,
        added: Some(added),
    })
}

/// The entries of the pool that come back after that write.
fn brought<L: Ledger>(alloc: Global, blank: Blank) -> Result<Carried, Memory>
    requires name { blank.name ≡ L.name }
    requires parts { blank.parts ≡ L.parts }
    requires some { 0 < blank.parts }
{
    let mut steps = Steps::<L>::new(blank);
    let pool = filled(alloc, &mut steps)?;
    let touched = longer(alloc)?;
    carry(alloc, &pool, &touched, 9, &mut steps)
}

// A semijoin can't be continued, so it doesn't come back. The selection takes 3 steps, the reverse
// 2, and the join 7.
#[test]
fn a_query_goes_on(rt: HostRuntime) -> Result<(), Fail> {
    let carried = brought::<Brand>(rt.alloc(), Blank::new(1))?;
    assert_eq!(rt; carried.ids.as_slice(), [1, 2, 4, 5].as_slice());
    assert_eq!(rt; carried.entries.len(), 4);
    for (entry, want) in carried.entries.iter().zip([(6, 5), (7, 3), (8, 3), (9, 3)]) {
        assert_eq!(rt; (entry.id, entry.value.bat().len()), want);
    }
    assert_eq!(rt; carried.work, 12);
    Ok(())
}

/// The key of the column.
fn column_key(alloc: Global) -> Result<Key, Memory> {
    Ok(Key {
        op: Op::Bind,
        args: Sequence::from_vec(names(alloc)?),
        version: 0,
    })
}

// The pool is empty at first; then the column is its first entry.
#[test]
fn an_admitted_column_is_found(rt: HostRuntime) -> Result<(), Fail> {
    let alloc = rt.alloc();
    let scorer = by_last_use(alloc)?;
    let mut pool = empty(alloc)?;
    pool.reserve(3)?;
    let key = column_key(alloc)?;
    let mut parts = Vec::new(alloc);
    let before = pool.look(WHO, 1, &key, &mut parts)?;
    assert!(rt; matches!(&before, Found::Miss));
    pool.admit(&scorer, WHO, 2, offered_column(alloc)?)?;
    let mut parts = Vec::new(alloc);
    let after = pool.look(WHO, 3, &key, &mut parts)?;
    assert!(rt; matches!(&after, Found::Exact(1, value) if value.bat().len() == 3));
    Ok(())
}
