ghost use Rattle.std.specs.Prelude.{◌≡◌, ◌↔◌, true};
ghost use Rattle.lineage_key.specs.Same.{same_shape};

use cell_core::{Op, Word};
use std::hash::{Hash, Hasher};

/// A lineage without its constants and versions.
pub struct Shape {
    /// The operator.
    pub op: Op,
    /// The table that a bind names; empty for other operators.
    pub table: Word,
    /// The column that a bind names; empty for other operators.
    pub column: Word,
    /// For each argument the number of its result's shape; 0 for a constant and for no argument.
    pub args: [u32; 5],
}

// By a call of its own, so that proofs needn't go through its forms where one is dropped.
impl Drop for Shape {
    fn drop(self) {
        let Shape {
            op: _,
            table: _,
            column: _,
            args: _,
        } = self;
    }
}

impl PartialEq for Shape {
    ghost use Rattle.std.specs.Cmp;
    ghost use Rattle.lineage_key.specs.Same.{same_shape_equivalence};

    ghost eq = { same_shape };

    ghost laws = { Cmp.partial_equiv_from_equiv same_shape_equivalence };

    fn eq(&self, other: &Shape) -> bool {
        self.op == other.op
            && self.table == other.table
            && self.column == other.column
            && self.args == other.args
    }
}

impl Eq for Shape {
    ghost use Rattle.lineage_key.specs.Same.{same_shape_equivalence};

    ghost laws = { same_shape_equivalence };
}

impl Hash for Shape {
    ghost use Rattle.std.specs.Prelude.{◌++◌};
    ghost use Rattle.std.specs.Hash as fed;
    ghost use Rattle.std.proofs.Common.{ap};
    ghost use Rattle.lineage_key.specs.Same.{same_shape_decides};

    ghost hash_input = { λ shape. ⟦<Op as Hash>⟧.hash_input shape.op ++ fed.str shape.table ++ fed.str shape.column ++ fed.slice fed.u32 shape.args };

    ghost respects_eq = { λ a b e. ap (λ shape. ⟦<Op as Hash>⟧.hash_input shape.op ++ fed.str shape.table ++ fed.str shape.column ++ fed.slice fed.u32 shape.args) ((same_shape_decides a b).0 e) };

    fn hash<H: Hasher>(&self, state: &mut H) {
        self.op.hash(state);
        self.table.hash(state);
        self.column.hash(state);
        self.args.hash(state);
    }
}

/// Shapes are equal exactly where they are the same.
pub fn equal_shapes_are_the_same(a: &Shape, b: &Shape)
    ensures { (same_shape a.now b.now ≡ true) ↔ (a.now ≡ b.now) }
{
    let _ = a;
    let _ = b;
}
