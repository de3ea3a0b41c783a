ghost use Rattle.std.specs.Prelude.{◌≡◌, ℕ, List, [], ◌++◌, map, codes, if◌then◌else◌, IfOk, OnOk};
ghost use Rattle.std.specs.Option.{option_copied, option_map};
ghost use Rattle.sql_print.specs.Canon as canon;
ghost use Rattle.sql_tree.specs.Names.{name_text};
ghost use Rattle.sql_tree.specs.Tree.{cond_tree, expr_tree, item_tree, query_tree, set_tree, stmt_tree};

use crate::print_expr::{write_cond, write_expr, write_literal, write_reference};
use crate::print_parts::{
    Listed, write_bytes, write_column, write_enclosed, write_listed, write_listed_after,
    write_number,
};
use cell_core::{Cell, Column, Memory, Sequence, Word};
use sql_tree::{Cond, Expr, FromItem, Item, Place, Query, SortKey, Stmt, write_name};
use std::alloc::Global;

/// The canonical text of a statement, for every tree: upper-case words and single spaces, names in
/// quotes where they need them, parentheses round operands that are operators.
pub fn print_stmt(alloc: Global, stmt: &Stmt) -> Result<Vec<u8>, Memory>
    ensures { IfOk result (λ text. text.items ≡ canon.canonical (stmt_tree stmt.now)) }
{
    let mut text = Vec::new(alloc);
    write_stmt(stmt, &mut text)?;
    Ok(text)
}

fn write_stmt(stmt: &Stmt, out: &mut Vec<u8>) -> Result<(), Memory>
    ensures { OnOk result (out.new.items ≡ out.old.items ++ canon.canonical (stmt_tree stmt.now)) }
{
    match stmt {
        Stmt::Create { table, columns } => write_create(table, columns.as_slice(), out),
        Stmt::Drop { table } => {
            write_bytes(b"DROP TABLE ", out)?;
            write_name(table, out)
        }
        Stmt::Alter { table, column } => write_alter(table, column, out),
        Stmt::Insert {
            table,
            columns,
            rows,
        } => write_insert(table, columns.as_slice(), rows.as_slice(), out),
        Stmt::Delete { table, cond } => write_delete(table, cond.as_ref(), out),
        Stmt::Update { table, sets, cond } => write_update(
            table,
            sets.as_slice(),
            cond.as_ref(),
            out,
        ),
        Stmt::Query(query) => write_query(query, out),
        Stmt::Explain(query) => {
            write_bytes(b"EXPLAIN ", out)?;
            write_query(query, out)
        }
    }
}

fn write_create(table: &Word, columns: &[Column], out: &mut Vec<u8>) -> Result<(), Memory>
    ensures { OnOk result (out.new.items ≡ out.old.items ++ (codes "CREATE TABLE " ++ name_text table.now ++ codes " " ++ canon.enclosed (canon.listed (map canon.column_text columns.now)))) }
{
    write_bytes(b"CREATE TABLE ", out)?;
    write_name(table, out)?;
    write_bytes(b" ", out)?;
    write_enclosed(columns, out)
}

fn write_alter(table: &Word, column: &Column, out: &mut Vec<u8>) -> Result<(), Memory>
    ensures { OnOk result (out.new.items ≡ out.old.items ++ (codes "ALTER TABLE " ++ name_text table.now ++ codes " ADD COLUMN " ++ canon.column_text column.now)) }
{
    write_bytes(b"ALTER TABLE ", out)?;
    write_name(table, out)?;
    write_bytes(b" ADD COLUMN ", out)?;
    write_column(column, out)
}

fn write_insert(
    table: &Word,
    columns: &[Word],
    rows: &[Sequence<Cell>],
    out: &mut Vec<u8>,
) -> Result<(), Memory>
    ensures { OnOk result (out.new.items ≡ out.old.items ++ (codes "INSERT INTO " ++ name_text table.now ++ canon.column_list_text columns.now ++ codes " VALUES " ++ canon.listed (map canon.row_text rows.now))) }
{
    write_bytes(b"INSERT INTO ", out)?;
    write_name(table, out)?;
    write_column_list(columns, out)?;
    write_bytes(b" VALUES ", out)?;
    write_listed(rows, out)
}

fn write_column_list(columns: &[Word], out: &mut Vec<u8>) -> Result<(), Memory>
    ensures { OnOk result (out.new.items ≡ out.old.items ++ canon.column_list_text columns.now) }
{
    if columns.is_empty() {
        return Ok(());
    }
    write_bytes(b" ", out)?;
    write_enclosed(columns, out)
}

fn write_delete(table: &Word, cond: Option<&Cond>, out: &mut Vec<u8>) -> Result<(), Memory>
    ensures { OnOk result (out.new.items ≡ out.old.items ++ (codes "DELETE FROM " ++ name_text table.now ++ canon.cond_after (codes " WHERE ") (option_map cond_tree (option_copied cond.entry)))) }
{
    write_bytes(b"DELETE FROM ", out)?;
    write_name(table, out)?;
    write_cond_after(b" WHERE ", cond, out)
}

fn write_update(
    table: &Word,
    sets: &[(Word, Expr)],
    cond: Option<&Cond>,
    out: &mut Vec<u8>,
) -> Result<(), Memory>
    ensures { OnOk result (out.new.items ≡ out.old.items ++ (codes "UPDATE " ++ name_text table.now ++ codes " SET " ++ canon.listed (map canon.set_text (map set_tree sets.now)) ++ canon.cond_after (codes " WHERE ") (option_map cond_tree (option_copied cond.entry)))) }
{
    write_sets(table, sets, out)?;
    write_cond_after(b" WHERE ", cond, out)
}

fn write_sets(table: &Word, sets: &[(Word, Expr)], out: &mut Vec<u8>) -> Result<(), Memory>
    ensures { OnOk result (out.new.items ≡ out.old.items ++ (codes "UPDATE " ++ name_text table.now ++ codes " SET " ++ canon.listed (map canon.set_text (map set_tree sets.now)))) }
{
    write_bytes(b"UPDATE ", out)?;
    write_name(table, out)?;
    write_bytes(b" SET ", out)?;
    write_set_list(sets, out)
}

fn write_set_list(sets: &[(Word, Expr)], out: &mut Vec<u8>) -> Result<(), Memory>
    ensures { OnOk result (out.new.items ≡ out.old.items ++ canon.listed (map canon.set_text (map set_tree sets.now))) }
{
    write_listed(sets, out)
}

fn write_query(query: &Query, out: &mut Vec<u8>) -> Result<(), Memory>
    ensures { OnOk result (out.new.items ≡ out.old.items ++ canon.query_text (query_tree query.now)) }
{
    write_selected(query, out)?;
    write_listed_after(b" FROM ", query.froms.as_slice(), out)?;
    write_cond_after(b" WHERE ", query.cond.as_ref(), out)?;
    write_listed_after(b" GROUP BY ", query.groups.as_slice(), out)?;
    write_cond_after(b" HAVING ", query.having.as_ref(), out)?;
    write_listed_after(b" ORDER BY ", query.keys.as_slice(), out)?;
    write_limit(query.limit, out)
}

fn write_selected(query: &Query, out: &mut Vec<u8>) -> Result<(), Memory>
    ensures { OnOk result (out.new.items ≡ out.old.items ++ canon.selected_text (query_tree query.now)) }
{
    write_bytes(b"SELECT ", out)?;
    write_distinct(query.distinct, out)?;
    write_items(query.items.as_slice(), out)
}

fn write_distinct(distinct: bool, out: &mut Vec<u8>) -> Result<(), Memory>
    ensures { OnOk result (out.new.items ≡ out.old.items ++ (if distinct then codes "DISTINCT " else [])) }
{
    if distinct {
        return write_bytes(b"DISTINCT ", out);
    }
    Ok(())
}

fn write_items(items: &[Item], out: &mut Vec<u8>) -> Result<(), Memory>
    ensures { OnOk result (out.new.items ≡ out.old.items ++ canon.items_text (map (λ item. canon.item_text (item_tree item)) items.now)) }
{
    match items {
        [] => write_bytes(b"*", out),
        [_, ..] => write_listed(items, out),
    }
}

fn write_cond_after(word: &[u8], cond: Option<&Cond>, out: &mut Vec<u8>) -> Result<(), Memory>
    ensures { OnOk result (out.new.items ≡ out.old.items ++ canon.cond_after word.now (option_map cond_tree (option_copied cond.entry))) }
{
    let Some(cond) = cond else {
        return Ok(());
    };
    write_bytes(word, out)?;
    write_cond(cond, out)
}

fn write_limit(limit: Option<u64>, out: &mut Vec<u8>) -> Result<(), Memory>
    ensures { OnOk result (out.new.items ≡ out.old.items ++ canon.limit_text limit) }
{
    let Some(limit) = limit else {
        return Ok(());
    };
    write_bytes(b" LIMIT ", out)?;
    write_number(limit, out)
}

fn write_alias(alias: Option<&Word>, out: &mut Vec<u8>) -> Result<(), Memory>
    ensures { OnOk result (out.new.items ≡ out.old.items ++ canon.alias_text (option_copied alias.entry)) }
{
    let Some(alias) = alias else {
        return Ok(());
    };
    write_bytes(b" AS ", out)?;
    write_name(alias, out)
}

impl Listed for Sequence<Cell> {
    ghost printed = { canon.row_text };

    fn write(&self, out: &mut Vec<u8>) -> Result<(), Memory> {
        write_enclosed(self.as_slice(), out)
    }
}

impl Listed for Cell {
    ghost printed = { canon.literal_text };

    fn write(&self, out: &mut Vec<u8>) -> Result<(), Memory> {
        write_literal(self, out)
    }
}

impl Listed for (Word, Expr) {
    ghost printed = { λ set. canon.set_text (set_tree set) };

    fn write(&self, out: &mut Vec<u8>) -> Result<(), Memory> {
        write_name(&self.0, out)?;
        write_bytes(b" = ", out)?;
        write_expr(&self.1, out)
    }
}

impl Listed for Item {
    ghost printed = { λ item. canon.item_text (item_tree item) };

    fn write(&self, out: &mut Vec<u8>) -> Result<(), Memory> {
        write_expr(&self.expr, out)?;
        write_alias(self.alias.as_ref(), out)
    }
}

impl Listed for FromItem {
    ghost printed = { canon.from_text };

    fn write(&self, out: &mut Vec<u8>) -> Result<(), Memory> {
        write_name(&self.table, out)?;
        write_alias(self.alias.as_ref(), out)
    }
}

impl Listed for SortKey {
    ghost printed = { canon.key_text };

    fn write(&self, out: &mut Vec<u8>) -> Result<(), Memory> {
        match &self.at {
            Place::Position(at) => write_number(*at, out)?,
            Place::Named(column) => write_reference(column, out)?,
        }
        if self.ascending {
            return Ok(());
        }
        write_bytes(b" DESC", out)
    }
}
