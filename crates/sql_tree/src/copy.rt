ghost use Rattle.std.specs.Prelude.{◌≡◌, map, IfOk, Ok};
ghost use Rattle.std.specs.Option.{option_copied, option_map};
ghost use Rattle.sql_tree.specs.Tree.{cond_tree, expr_tree, item_tree, query_tree, set_tree, stmt_tree};
ghost use Rattle.sql_tree.specs.Tree.StmtTree.{InsertInto, UpdateTable};

use crate::tree::{ColRef, Cond, Expr, FromItem, Item, Place, Query, SortKey, Stmt};
use cell_core::{Cell, Memory, Sequence, Word, copy_columns, copy_rows};
use std::alloc::Global;

impl Stmt {
    /// An equal statement, which shares the texts.
    pub fn copy(&self, alloc: Global) -> Result<Stmt, Memory>
        ensures { IfOk result (λ copy. stmt_tree copy ≡ stmt_tree self.now) }
    {
        match self {
            Stmt::Create { table, columns } => {
                let (table, columns) = both(
                    table.share(),
                    copy_columns(alloc, columns.as_slice()),
                )?;
                Ok(Stmt::Create { table, columns })
            }
            Stmt::Drop { table } => Ok(Stmt::Drop {
                table: table.share()?,
            }),
            Stmt::Alter { table, column } => {
                let (table, column) = both(table.share(), column.share())?;
                Ok(Stmt::Alter { table, column })
            }
            Stmt::Insert {
                table,
                columns,
                rows,
            } => copy_insert(alloc, table, columns.as_slice(), rows.as_slice()),
            Stmt::Delete { table, cond } => {
                let (table, cond) = both(table.share(), copy_cond(alloc, cond.as_ref()))?;
                Ok(Stmt::Delete { table, cond })
            }
            Stmt::Update { table, sets, cond } => {
                copy_update(alloc, table, sets.as_slice(), cond.as_ref())
            }
            Stmt::Query(query) => Ok(Stmt::Query(query.copy(alloc)?)),
            Stmt::Explain(query) => Ok(Stmt::Explain(query.copy(alloc)?)),
        }
    }
}

/// An equal INSERT.
fn copy_insert(
    alloc: Global,
    table: &Word,
    columns: &[Word],
    rows: &[Sequence<Cell>],
) -> Result<Stmt, Memory>
    ensures { IfOk result (λ copy. stmt_tree copy ≡ InsertInto table.now columns.now rows.now) }
{
    let columns = share_all(alloc, columns);
    let (columns, rows) = both(columns, copy_rows(alloc, rows))?;
    let table = table.share()?;
    Ok(Stmt::Insert {
        table,
        columns,
        rows,
    })
}

/// An equal UPDATE.
fn copy_update(
    alloc: Global,
    table: &Word,
    sets: &[(Word, Expr)],
    cond: Option<&Cond>,
) -> Result<Stmt, Memory>
    ensures { IfOk result (λ copy. stmt_tree copy ≡ UpdateTable table.now (map set_tree sets.now) (option_map cond_tree (option_copied cond.entry))) }
{
    let table = table.share();
    let (table, sets) = both(table, copy_sets(alloc, sets))?;
    let cond = copy_cond(alloc, cond)?;
    Ok(Stmt::Update { table, sets, cond })
}

impl Query {
    /// An equal query, which shares the texts.
    pub fn copy(&self, alloc: Global) -> Result<Query, Memory>
        ensures { IfOk result (λ copy. query_tree copy ≡ query_tree self.now) }
    {
        let items = copy_items(alloc, self.items.as_slice());
        let (items, froms) = both(items, share_all(alloc, self.froms.as_slice()))?;
        let cond = copy_cond(alloc, self.cond.as_ref());
        let (cond, having) = both(cond, copy_cond(alloc, self.having.as_ref()))?;
        let groups = share_all(alloc, self.groups.as_slice());
        let (groups, keys) = both(groups, share_all(alloc, self.keys.as_slice()))?;
        Ok(Query {
            distinct: self.distinct,
            items,
            froms,
            cond,
            groups,
            having,
            keys,
            limit: self.limit,
        })
    }
}

impl Cond {
    /// An equal condition, which shares the texts.
    pub fn copy(&self, alloc: Global) -> Result<Cond, Memory>
        ensures { IfOk result (λ copy. cond_tree copy ≡ cond_tree self.now) }
    {
        match self {
            Cond::Cmp { op, left, right } => {
                let (left, right) = both(left.copy(alloc), right.copy(alloc))?;
                Ok(Cond::Cmp {
                    op: *op,
                    left,
                    right,
                })
            }
            Cond::Between { of, low, high } => {
                let bounds = both(low.copy(alloc), high.copy(alloc));
                let (of, (low, high)) = both(of.copy(alloc), bounds)?;
                Ok(Cond::Between { of, low, high })
            }
            Cond::IsNull(of) => Ok(Cond::IsNull(of.copy(alloc)?)),
            Cond::Not(cond) => Ok(Cond::Not(boxed(alloc, cond.copy(alloc))?)),
            Cond::And(left, right) => {
                let (first, second) = both_boxed(alloc, left.copy(alloc), right.copy(alloc))?;
                Ok(Cond::And(first, second))
            }
            Cond::Or(left, right) => {
                let (first, second) = both_boxed(alloc, left.copy(alloc), right.copy(alloc))?;
                Ok(Cond::Or(first, second))
            }
        }
    }
}

impl Expr {
    /// An equal expression, which shares the texts.
    pub fn copy(&self, alloc: Global) -> Result<Expr, Memory>
        ensures { IfOk result (λ copy. expr_tree copy ≡ expr_tree self.now) }
    {
        match self {
            Expr::Lit(literal) => Ok(Expr::Lit(literal.share()?)),
            Expr::Col(column) => Ok(Expr::Col(column.share()?)),
            Expr::Arith { op, left, right } => {
                let (left, right) = both_boxed(alloc, left.copy(alloc), right.copy(alloc))?;
                Ok(Expr::Arith {
                    op: *op,
                    left,
                    right,
                })
            }
            Expr::Agg { f, of: None } => Ok(Expr::Agg { f: *f, of: None }),
            Expr::Agg { f, of: Some(of) } => {
                let of = boxed(alloc, of.copy(alloc))?;
                Ok(Expr::Agg {
                    f: *f,
                    of: Some(of),
                })
            }
        }
    }
}

/// Both things, where both were made.
///
/// A proof goes through all forms of a tree wherever one may be dropped. This function and those
/// below take things of any type, which have no forms to go through.
fn both<T: Drop, U: Drop>(
    left: Result<T, Memory>,
    right: Result<U, Memory>,
) -> Result<(T, U), Memory>
    ensures { IfOk result (λ both. (left ≡ Ok both.0) × (right ≡ Ok both.1)) }
{
    let left = left?;
    let right = right?;
    Ok((left, right))
}

/// A thing that was made, in a box.
fn boxed<T: Drop>(alloc: Global, thing: Result<T, Memory>) -> Result<Box<T>, Memory>
    ensures { IfOk result (λ boxed. thing ≡ Ok boxed.value) }
{
    let boxed = Box::new(alloc, thing?)?;
    Ok(boxed)
}

/// Both things, where both were made, each in a box.
fn both_boxed<T: Drop, U: Drop>(
    alloc: Global,
    left: Result<T, Memory>,
    right: Result<U, Memory>,
) -> Result<(Box<T>, Box<U>), Memory>
    ensures { IfOk result (λ both. (left ≡ Ok both.0.value) × (right ≡ Ok both.1.value)) }
{
    both(boxed(alloc, left), boxed(alloc, right))
}

fn copy_cond(alloc: Global, cond: Option<&Cond>) -> Result<Option<Cond>, Memory>
    ensures { IfOk result (λ copy. option_map cond_tree copy ≡ option_map cond_tree (option_copied cond.entry)) }
{
    match cond {
        None => Ok(None),
        Some(cond) => Ok(Some(cond.copy(alloc)?)),
    }
}

fn copy_items(alloc: Global, items: &[Item]) -> Result<Sequence<Item>, Memory>
    ensures { IfOk result (λ copy. map item_tree copy ≡ map item_tree items.now) }
{
    let mut copy = Vec::with_capacity(alloc, items.len())?;
    'items: for item in items {
        copy.push(copy_item(alloc, item)?)?;
    }
    Ok(Sequence::from_vec(copy))
}

fn copy_item(alloc: Global, item: &Item) -> Result<Item, Memory>
    ensures { IfOk result (λ copy. item_tree copy ≡ item_tree item.now) }
{
    let expr = item.expr.copy(alloc)?;
    let alias = share_alias(item.alias.as_ref())?;
    Ok(Item { expr, alias })
}

fn copy_sets(alloc: Global, sets: &[(Word, Expr)]) -> Result<Sequence<(Word, Expr)>, Memory>
    ensures { IfOk result (λ copy. map set_tree copy ≡ map set_tree sets.now) }
{
    let mut copy = Vec::with_capacity(alloc, sets.len())?;
    'sets: for set in sets {
        copy.push(copy_set(alloc, set)?)?;
    }
    Ok(Sequence::from_vec(copy))
}

fn copy_set(alloc: Global, set: &(Word, Expr)) -> Result<(Word, Expr), Memory>
    ensures { IfOk result (λ copy. set_tree copy ≡ set_tree set.now) }
{
    let column = set.0.share()?;
    let value = set.1.copy(alloc)?;
    Ok((column, value))
}

fn share_alias(alias: Option<&Word>) -> Result<Option<Word>, Memory>
    ensures { IfOk result (λ copy. copy ≡ option_copied alias.entry) }
{
    match alias {
        None => Ok(None),
        Some(alias) => Ok(Some(alias.share()?)),
    }
}

/// What has an equal value that shares its texts.
trait Share: Drop + Sized {
    /// The equal value.
    fn share(&self) -> Result<Self, Memory>
        ensures { IfOk result (λ copy. copy ≡ self.now) };
}

fn share_all<T: Share>(alloc: Global, things: &[T]) -> Result<Sequence<T>, Memory>
    ensures { IfOk result (λ copy. copy ≡ things.now) }
{
    let mut copy = Vec::with_capacity(alloc, things.len())?;
    'things: for thing in things {
        copy.push(thing.share()?)?;
    }
    Ok(Sequence::from_vec(copy))
}

impl Share for Word {
    fn share(&self) -> Result<Word, Memory> {
        Word::share(self)
    }
}

impl Share for ColRef {
    fn share(&self) -> Result<ColRef, Memory> {
        let table = share_alias(self.table.as_ref())?;
        let column = Word::share(&self.column)?;
        Ok(ColRef { table, column })
    }
}

impl Share for FromItem {
    fn share(&self) -> Result<FromItem, Memory> {
        let table = Word::share(&self.table)?;
        let alias = share_alias(self.alias.as_ref())?;
        Ok(FromItem { table, alias })
    }
}

impl Share for SortKey {
    fn share(&self) -> Result<SortKey, Memory> {
        let at = match &self.at {
            Place::Position(at) => Place::Position(*at),
            Place::Named(column) => Place::Named(column.share()?),
        };
        Ok(SortKey {
            at,
            ascending: self.ascending,
        })
    }
}
