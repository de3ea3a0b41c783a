//! The statements that draws make.
ghost use Rattle.std.specs.Prelude.{◌≡◌, ◌==◌, ◌+◌, ◌*◌, ◌<◌, ◌≤◌, ◌++◌, [], codes, decimal, length, if◌then◌else◌, string_bytes, OnOk, IfOk};
ghost use Rattle.sample_scripts.specs.Scripts as told;
ghost use Rattle.sample_scripts.specs.Scripts.{draw, insert_text, inserts, queries_after, query_text, range_text, row_text};

use crate::draws::next_draw;
use cell_core::{Memory, Sequence, Word, word_of};
use itoa::Buffer;
use std::alloc::Global;

/// The number of INSERTs.
const INSERTS: u64 = 20;

/// The number of rows of each.
const ROWS: u64 = 500;

/// The number of queries.
const QUERIES: u64 = 100;

/// The statements of two scripts, without the `;` after each.
#[derive(Drop)]
pub struct SampleScripts {
    /// A table is created and filled.
    pub changes: Sequence<Word>,
    /// Ranges of it are queried.
    pub queries: Sequence<Word>,
}

/// The scripts of a number.
#[tactic(auto, using(crate::proofs::DrawLemmas::changes_few, crate::proofs::DrawLemmas::queries_few), unfolding(crate::specs::Scripts::queries))]
pub fn sample_scripts(alloc: Global, seed: u64) -> Result<SampleScripts, Memory>
    requires { seed < 2147483648 }
    ensures changes { IfOk result (λ scripts. scripts.changes ≡ told.changes seed) }
    ensures queries { IfOk result (λ scripts. scripts.queries ≡ told.queries seed) }
    ensures few { IfOk result (λ scripts. (length scripts.changes ≤ 256) × (length scripts.queries ≤ 256)) }
{
    let mut x = seed;
    let changes = changes(alloc, &mut x)?;
    let queries = queries(alloc, QUERIES, &mut x)?;
    Ok(SampleScripts { changes, queries })
}

/// The statements of the first script, by the draws after `x`, which goes on to the last of them.
#[tactic(auto, unfolding(crate::specs::Scripts::changes))]
fn changes(alloc: Global, x: &mut u64) -> Result<Sequence<Word>, Memory>
    requires { x.old < 2147483648 }
    ensures statements { IfOk result (λ statements. statements ≡ told.changes x.old) }
    ensures last { OnOk result (x.new ≡ draw x.old (500 * 20)) }
    ensures below { OnOk result (x.new < 2147483648) }
{
    let mut statements = Vec::new(alloc);
    statements.push(word_of(alloc, "CREATE TABLE g (a INT)")?)?;
    push_inserts(alloc, INSERTS, ROWS, x, &mut statements)?;
    Ok(Sequence::from_vec(statements))
}

/// Appends `count` INSERTs of `rows` rows each, by the draws after `x`, which goes on to the last
/// of them.
fn push_inserts(
    alloc: Global,
    count: u64,
    rows: u64,
    x: &mut u64,
    statements: &mut Vec<Word>,
) -> Result<(), Memory>
    requires { x.old < 2147483648 }
    ensures statements { OnOk result (statements.new.items ≡ statements.old.items ++ inserts count rows x.old) }
    ensures last { OnOk result (x.new ≡ draw x.old (rows * count)) }
    ensures below { OnOk result (x.new < 2147483648) }
{
    'inserts: for _k in 0..count {
        let insert = insert(alloc, rows, x)?;
        statements.push(insert)?;
    }
    Ok(())
}

/// An INSERT of `rows` rows, by the draws after `x`, which goes on to the last of them.
#[tactic(auto, unfolding(crate::specs::Scripts::insert_text))]
fn insert(alloc: Global, rows: u64, x: &mut u64) -> Result<Word, Memory>
    requires { x.old < 2147483648 }
    ensures text { IfOk result (λ word. word ≡ insert_text rows x.old) }
    ensures last { OnOk result (x.new ≡ draw x.old rows) }
    ensures below { OnOk result (x.new < 2147483648) }
{
    let mut text = String::from_str(alloc, "INSERT INTO g VALUES ")?;
    'rows: for i in 0..rows {
        push_listed_row(i, next_draw(x), &mut text)?;
    }
    word_of(alloc, text.as_str())
}

/// Appends the row of a draw, after a comma and a space where there are rows before it.
fn push_listed_row(before: u64, drawn: u64, text: &mut String) -> Result<(), Memory>
    ensures { OnOk result (string_bytes text.new ≡ string_bytes text.old ++ ((if before == 0 then [] else codes ", ") ++ row_text drawn)) }
{
    if before == 0 {
        return push_row(drawn, text);
    }
    text.push_str(", ")?;
    push_row(drawn, text)
}

/// Appends the row of a draw.
fn push_row(drawn: u64, text: &mut String) -> Result<(), Memory>
    ensures { OnOk result (string_bytes text.new ≡ string_bytes text.old ++ row_text drawn) }
{
    text.push_str("(")?;
    push_number(drawn % 10_000, text)?;
    text.push_str(")")?;
    Ok(())
}

/// Appends a number in decimal.
fn push_number(number: u64, text: &mut String) -> Result<(), Memory>
    ensures { OnOk result (string_bytes text.new ≡ string_bytes text.old ++ decimal number) }
{
    let mut buffer = Buffer::new();
    text.push_str(buffer.format(number))?;
    Ok(())
}

/// `count` queries, by the draws after `x`, which goes on to the last of them.
fn queries(alloc: Global, count: u64, x: &mut u64) -> Result<Sequence<Word>, Memory>
    requires { x.old < 2147483648 }
    ensures { IfOk result (λ statements. statements ≡ queries_after count x.old) }
{
    let mut statements = Vec::new(alloc);
    'queries: for _k in 0..count {
        let query = query(alloc, x)?;
        statements.push(query)?;
    }
    Ok(Sequence::from_vec(statements))
}

/// A query, by the two draws after `x`, which goes on to the second.
fn query(alloc: Global, x: &mut u64) -> Result<Word, Memory>
    requires { x.old < 2147483648 }
    ensures text { IfOk result (λ word. word ≡ query_text x.old) }
    ensures last { x.new ≡ draw x.old 2 }
    ensures below { x.new < 2147483648 }
{
    let low = next_draw(x) % 9_000;
    let width = next_draw(x) % 1_000;
    range(alloc, low, width)
}

/// The query for a range.
fn range(alloc: Global, low: u64, width: u64) -> Result<Word, Memory>
    requires { low + width < 10000 }
    ensures { IfOk result (λ word. word ≡ range_text low width) }
{
    let mut text = String::from_str(alloc, "SELECT COUNT(*), SUM(a) FROM g WHERE a BETWEEN ")?;
    push_number(low, &mut text)?;
    text.push_str(" AND ")?;
    push_number(low + width, &mut text)?;
    word_of(alloc, text.as_str())
}
