//! A book and plain tables, to which the same changes are done.
ghost use Rattle.std.specs.Prelude.{◌≡◌, ◌<◌, [], IfOk};
ghost use Rattle.score_hook.specs.declared.stats.Evict.TheVariants.{Lru};
ghost use Rattle.score_hook.specs.Scores.{IsInRange, score_of};
ghost use Rattle.sql_grammar.specs.Formed.{IsFormed};
ghost use Rattle.sql_tree.specs.Tree.{stmt_tree};
ghost use Rattle.pool_policy.specs.Scorers.{IsScorerOf};

use bat_core::{Columns, Shared};
use bat_kernel::Kernel;
use book_core::Book;
use cell_core::{Cell, Column, Db, Memory, Sequence, Steps, Table};
use pool_policy::{Admit, PoolOptions, Who};
use score_hook::{Evict, Score, ScoreCall, Scorer, Stats, formula};
use sql_changes::change;
use sql_definitions::Reply;
use sql_parse::parse;
use sql_tree::Stmt;
use std::alloc::Global;
use std::sync::ledger::{Blank, Ledger};
use table_store::Snap;

/// The session and the statement that do everything here.
pub(crate) const WHO: Who = Who {
    session: 1,
    statement: 1,
};

/// A book and plain tables, to which the same changes are done.
pub(crate) struct Beside<L: Ledger> {
    book: Book,
    scorer: Scorer,
    steps: Steps<L>,
    /// The plain tables.
    pub(crate) db: Db,
    ghost ruled: { IsScorerOf scorer.kind scorer.weights.items book.options },
}

// By a call of its own, so that proofs needn't go through its forms where one is dropped.
impl<L: Ledger> Drop for Beside<L> {
    fn drop(self) {
        let Beside {
            book: _,
            scorer: _,
            steps: _,
            db: _,
        } = self;
    }
}

impl<L: Ledger> Beside<L> {
    /// An empty book and no tables.
    pub(crate) fn new(alloc: Global, blank: Blank) -> Result<Beside<L>, Memory>
        requires name { blank.name ≡ L.name }
        requires parts { blank.parts ≡ L.parts }
        requires some { 0 < blank.parts }
    {
        Ok(Beside {
            book: empty_book(alloc)?,
            scorer: by_last_use(alloc)?,
            steps: Steps::<L>::new(blank),
            db: Db {
                tables: Sequence::new(alloc),
            },
        })
    }

    /// The book's reply to a change. A query counts as want of memory.
    pub(crate) fn written(&mut self, alloc: Global, stmt: &Stmt) -> Result<Reply, Memory>
        requires { IsFormed (stmt_tree stmt.now) }
    {
        match stmt {
            Stmt::Query(_) | Stmt::Explain(_) => Err(Memory),
            _ => self.book.write(
                alloc,
                &self.scorer,
                WHO,
                stmt,
                &Kernel::new(),
                &mut self.steps,
            ),
        }
    }

    /// Does a change to the book, and to the plain tables where the book did it. Returns whether
    /// both reply alike. Where memory runs out in the book, nothing is done to the tables, and
    /// `may_lack` says whether that is right.
    pub(crate) fn write(
        &mut self,
        alloc: Global,
        text: &str,
        may_lack: bool,
    ) -> Result<bool, Memory> {
        let stmt = read(alloc, text)?;
        match self.written(alloc, &stmt) {
            Ok(told) => {
                let plain = change(alloc, &stmt, &mut self.db)?;
                Ok(is_same(&told, &plain))
            }
            Err(Memory) => { if may_lack { Ok(true) } else { Err(Memory) } }
        }
    }

    /// The present tables of the book, by the begin of a query.
    pub(crate) fn snapshot(&mut self, alloc: Global) -> Result<Snap, Memory> {
        let stmt = read(alloc, "SELECT a FROM t")?;
        match &stmt {
            Stmt::Query(query) => {
                let (snap, _, _) = self.book.begin(alloc, WHO, &stmt, query)?.into_parts();
                Ok(snap)
            }
            _ => Err(Memory),
        }
    }

    /// Whether the book has the plain tables.
    pub(crate) fn agrees(&mut self, alloc: Global) -> Result<bool, Memory> {
        let snap = self.snapshot(alloc)?;
        has_tables(alloc, &snap, &self.db)
    }
}

/// The scores by the moment of the last use.
fn by_last_use(alloc: Global) -> Result<Scorer, Memory>
    ensures kind { IfOk result (λ scorer. scorer.kind ≡ Lru) }
    ensures weights { IfOk result (λ scorer. scorer.weights.items ≡ []) }
{
    let call: ScoreCall = Box::new(
        alloc,
        move |stats: &Stats, now: u64| -> Score
            requires { IsInRange stats.now now }
            ensures { result ≡ score_of Lru [] stats.now now }
        { formula(Evict::Lru, stats, now) },
    )?;
    Ok(Scorer::new(alloc, Evict::Lru, call))
}

/// A book without events, whose pool evicts the least recently used entry first.
pub(crate) fn empty_book(alloc: Global) -> Result<Book, Memory>
    ensures kind { IfOk result (λ book. book.options.evict ≡ Lru) }
    ensures weights { IfOk result (λ book. book.options.weights ≡ []) }
{
    let options = PoolOptions {
        places: 16,
        budget: 1 << 30,
        evict: Evict::Lru,
        weights: Sequence::new(alloc),
        admit: Admit::All,
        credits: 1,
    };
    let book = Book::new(alloc, options)?;
    Ok(book)
}

/// A statement; a text that is none counts as want of memory.
pub(crate) fn read(alloc: Global, text: &str) -> Result<Stmt, Memory>
    ensures { IfOk result (λ stmt. IsFormed (stmt_tree stmt)) }
{
    match parse(alloc, text) {
        Ok(stmt) => Ok(stmt),
        Err(_) => Err(Memory),
    }
}

/// Whether two replies are the same.
fn is_same(one: &Reply, other: &Reply) -> bool {
    match (one, other) {
        (Reply::Done, Reply::Done) => true,
        (Reply::Rows(some), Reply::Rows(others)) => *some == *others,
        (Reply::Refused(why), Reply::Refused(cause)) => *why == *cause,
        _ => false,
    }
}

/// Whether a column has the cells of rows at a place.
fn holds(column: &Shared, rows: &[Sequence<Cell>], place: usize) -> bool {
    let cells = column.bat().tails();
    let mut at = 0;
    'cells: while at < cells.len() {
        let Some(row) = rows.get(at as usize) else {
            return false;
        };
        let Some(cell) = row.as_slice().get(place) else {
            return false;
        };
        if *cells.get(at).cell() != *cell {
            return false;
        }
        at += 1;
    }
    cells.len() == rows.len() as u64
}

/// Whether a snapshot has the column of a table at a place.
fn has_column(
    alloc: Global,
    snap: &Snap,
    table: &Table,
    column: &Column,
    place: usize,
) -> Result<bool, Memory> {
    match snap.column(alloc, &table.name, &column.name)? {
        Some(found) => Ok(holds(&found, table.rows.as_slice(), place)),
        None => Ok(false),
    }
}

/// Whether a snapshot has the table.
fn has_table(alloc: Global, snap: &Snap, table: &Table) -> Result<bool, Memory> {
    for (place, column) in table.columns.as_slice().iter().enumerate() {
        if !has_column(alloc, snap, table, column, place)? {
            return Ok(false);
        }
    }
    Ok(true)
}

/// Whether a snapshot has all these tables and no others.
pub(crate) fn has_tables(alloc: Global, snap: &Snap, db: &Db) -> Result<bool, Memory> {
    let tables = db.tables.as_slice();
    for table in tables {
        if !has_table(alloc, snap, table)? {
            return Ok(false);
        }
    }
    Ok(snap.schema().len() == tables.len())
}
