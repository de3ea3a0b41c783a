ghost use Rattle.std.specs.Prelude.{◌≡◌, IfOk};
ghost use Rattle.sql_print.specs.Canon.{canonical};
ghost use Rattle.sql_tree.specs.Tree.{stmt_tree};

use cell_core::Memory;
use sql_print::print_stmt;
use sql_tree::Stmt;
use std::alloc::Global;
use std::marker::Model;
use std::snapshot::Snapshot;

/// A statement as the log keeps it: its canonical text. Contracts see the statement itself.
#[derive_where(Debug)]
pub struct StmtText {
    text: Vec<u8>,
    #[derive_where(skip)]
    stmt: Snapshot<Stmt>,
}

// By a call of its own, so that proofs needn't go through its forms where one is dropped.
impl Drop for StmtText {
    fn drop(self) {
        let StmtText { text: _, stmt: _ } = self;
    }
}

impl Model for StmtText {
    ghost use Rattle.std.specs.Prelude.{◌≡◌};
    ghost use Rattle.std.specs.Coded.{codes};
    ghost use Rattle.sql_tree.specs.declared.tree.Stmt.{Stmt};
    ghost use Rattle.sql_tree.specs.contracts.tree.Cond as cond;
    ghost use Rattle.sql_tree.specs.contracts.tree.Expr as expr;
    ghost use Rattle.sql_print.specs.Canon.{canonical};
    ghost use Rattle.sql_tree.specs.Tree.{stmt_tree};

    ghost Value = { Stmt };

    ghost coded = { Prim.hlevel (codes, cond.the_row.coded, expr.the_row.coded) };

    ghost view = { λ kept. kept.stmt.value };

    ghost invariant = { λ kept. kept.text.items ≡ canonical (stmt_tree kept.stmt.value) };
}

impl StmtText {
    /// The canonical text of a statement, in no more memory than it has bytes.
    pub fn of(alloc: Global, stmt: &Stmt) -> Result<StmtText, Memory>
        ensures { IfOk result (λ kept. kept ≡ stmt.now) }
    {
        let mut text = print_stmt(alloc, stmt)?;
        text.shrink_to_fit();
        Ok(StmtText {
            text,
            stmt: Snapshot::of(stmt),
        })
    }

    /// The text.
    pub fn text(&self) -> &[u8]
        ensures { result.now ≡ canonical (stmt_tree self.now) }
    {
        self.text.as_slice()
    }
}
