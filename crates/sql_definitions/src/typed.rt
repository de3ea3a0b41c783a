ghost use Rattle.std.specs.Prelude.{◌≡◌, [], ◌∷◌, map, Some, None, IfOk, IsSome, IsTrue};
ghost use Rattle.std.specs.Option.{option_copied};
ghost use Rattle.sql_definitions.specs.Sources.{from_name as from_name_of, called_sources, places, place_of};
ghost use Rattle.sql_definitions.specs.Found.{found_of};
ghost use Rattle.sql_definitions.specs.Small.{are_small};
ghost use Rattle.sql_grammar.specs.Formed.{IsFormed};
ghost use Rattle.sql_tree.specs.Tree.{stmt_tree};
ghost use Rattle.sql_definitions.specs.Check.{check_refusal};

use crate::called::{Called, Resolved, find_column};
use crate::source::Source;
use cell_core::{Memory, Sequence, Word};
use sql_tree::{FromItem, Stmt};

/// A statement that reading may return and the check accepts, with the tables that it names.
/// Contracts see the statement's tree as a formed one, for which the check has no refusal over
/// these tables.
pub struct Typed {
    /// The statement.
    pub stmt: Stmt,
    /// The tables: of a query those of FROM, in order, of CREATE none, and of any other its own.
    pub sources: Sequence<Source>,
    ghost small: { IsTrue (are_small sources) },
    ghost formed: { ∥ IsFormed (stmt_tree stmt) ∥₁ },
    ghost accepted: { check_refusal (stmt_tree stmt) (record { tables = sources }) ≡ None },
}

// By a call of its own, so that proofs needn't go through its forms where one is dropped.
impl Drop for Typed {
    fn drop(self) {
        let Typed {
            stmt: _,
            sources: _,
        } = self;
    }
}

/// Whether there are fewer than 2^32 tables, each of fewer than 2^32 columns.
fn is_small(sources: &[Source]) -> bool
    ensures { result ≡ are_small sources.now }
{
    let mut rest = sources;
    'sources: while let [source, more @ ..] = rest {
        if source.columns.len() >= 1 << 32 {
            return false;
        }
        rest = more;
    }
    sources.len() < 1 << 32
}

/// The name by which a query calls a table of FROM.
pub fn from_name(from: &FromItem) -> &Word
    ensures { result.now ≡ from_name_of from.now }
{
    match &from.alias {
        Some(alias) => alias,
        None => &from.table,
    }
}

/// The columns that a reference may mean, of tables under the names of FROM.
#[tactic(auto, using(crate::proofs::FoundLemmas::joined_more, crate::proofs::FoundLemmas::joined_none))]
fn find_in_from(
    froms: &[FromItem],
    sources: &[Source],
    table: Option<&Word>,
    name: &Word,
) -> Resolved
    ensures { result ≡ found_of (places (called_sources (map from_name_of froms.now) sources.now) (record { table = option_copied table.entry; column = name.now })) }
{
    let mut found = Resolved::Nowhere;
    let mut number = 0;
    let (mut names, mut rest) = (froms, sources);
    'froms: while let [from, others @ ..] = names {
        let [source, more @ ..] = rest else {
            return found;
        };
        let called = Called::new(from_name(from), &source.columns);
        found = called.find_in(found, number, table, name);
        number += 1;
        rest = more;
        names = others;
    }
    found
}

/// The columns that a reference may mean, of the first table under this name.
fn find_in_own(own: &Word, sources: &[Source], table: Option<&Word>, name: &Word) -> Resolved
    ensures { result ≡ found_of (places (called_sources (own.now ∷ []) sources.now) (record { table = option_copied table.entry; column = name.now })) }
{
    let [source, ..] = sources else {
        return Resolved::Nowhere;
    };
    let called = Called::new(own, &source.columns);
    find_column(&[called], table, name)
}

impl Typed {
    ghost use Rattle.sql_definitions.specs.Typed.{typed_sources};

    /// A formed statement with these tables, over which the check accepts it. Fails with `Memory`
    /// where the numbers of tables or columns don't fit 32 bits.
    pub fn new(stmt: Stmt, sources: Sequence<Source>) -> Result<Typed, Memory>
        requires formed { IsFormed (stmt_tree stmt) }
        requires accepted { check_refusal (stmt_tree stmt) (record { tables = sources }) ≡ None }
        ensures stmt { IfOk result (λ typed. typed.stmt ≡ stmt) }
        ensures sources { IfOk result (λ typed. typed.sources ≡ sources) }
    {
        if is_small(sources.as_slice()) {
            Ok(Typed { stmt, sources })
        } else {
            Err(Memory)
        }
    }

    /// The columns that a reference may mean.
    fn find(&self, table: Option<&Word>, name: &Word) -> Resolved
        ensures { result ≡ found_of (places (typed_sources self.now) (record { table = option_copied table.entry; column = name.now })) }
    {
        let sources = self.sources.as_slice();
        match &self.stmt {
            Stmt::Query(query) | Stmt::Explain(query) => {
                find_in_from(query.froms.as_slice(), sources, table, name)
            }
            Stmt::Create { .. } => Resolved::Nowhere,
            Stmt::Drop { table: own }
            | Stmt::Alter { table: own, .. }
            | Stmt::Insert { table: own, .. }
            | Stmt::Delete { table: own, .. }
            | Stmt::Update { table: own, .. } => find_in_own(own, sources, table, name),
        }
    }

    /// The places, from 0, of the table and of the column in it that a column reference means.
    pub fn place(&self, table: Option<&Word>, column: &Word) -> (u32, u32)
        requires { IsSome (place_of (typed_sources self.now) (record { table = option_copied table; column = column.now })) }
        ensures { place_of (typed_sources self.now) (record { table = option_copied table.entry; column = column.now }) ≡ Some result }
    {
        match self.find(table, column) {
            Resolved::At(source, column) => (source as u32, column as u32),
            Resolved::Nowhere | Resolved::Twice => unreachable!(),
        }
    }
}
