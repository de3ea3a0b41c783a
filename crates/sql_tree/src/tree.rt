use cell_core::{Cell, Column, Sequence, Word};

/// A statement.
pub enum Stmt {
    /// `CREATE TABLE`
    Create {
        /// The table's name.
        table: Word,
        /// Its columns, in order.
        columns: Sequence<Column>,
    },
    /// `DROP TABLE`
    Drop {
        /// The table's name.
        table: Word,
    },
    /// `ALTER TABLE .. ADD COLUMN`
    Alter {
        /// The table's name.
        table: Word,
        /// The column that is added at its end.
        column: Column,
    },
    /// `INSERT INTO`
    Insert {
        /// The table's name.
        table: Word,
        /// The columns that are listed; none where there is no list.
        columns: Sequence<Word>,
        /// The rows, in order.
        rows: Sequence<Sequence<Cell>>,
    },
    /// `DELETE FROM`
    Delete {
        /// The table's name.
        table: Word,
        /// The condition of WHERE.
        cond: Option<Cond>,
    },
    /// `UPDATE`
    Update {
        /// The table's name.
        table: Word,
        /// The columns that are set and their values, in order.
        sets: Sequence<(Word, Expr)>,
        /// The condition of WHERE.
        cond: Option<Cond>,
    },
    /// `SELECT`
    Query(Query),
    /// `EXPLAIN SELECT`
    Explain(Query),
}

// By a call of its own, so that proofs needn't go through its forms where one is dropped.
impl Drop for Stmt {
    fn drop(self) {
        match self {
            Stmt::Create {
                table: _,
                columns: _,
            }
            | Stmt::Drop { table: _ }
            | Stmt::Alter {
                table: _,
                column: _,
            }
            | Stmt::Insert {
                table: _,
                columns: _,
                rows: _,
            }
            | Stmt::Delete { table: _, cond: _ }
            | Stmt::Update {
                table: _,
                sets: _,
                cond: _,
            }
            | Stmt::Query(_)
            | Stmt::Explain(_) => {}
        }
    }
}

/// A query.
pub struct Query {
    /// Whether equal rows appear once.
    pub distinct: bool,
    /// What each row of the answer holds; none for `*`, which stands for all columns.
    pub items: Sequence<Item>,
    /// The tables, in the order of FROM.
    pub froms: Sequence<FromItem>,
    /// The conditions of ON and WHERE, joined by AND.
    pub cond: Option<Cond>,
    /// The columns of GROUP BY.
    pub groups: Sequence<ColRef>,
    /// The condition of HAVING.
    pub having: Option<Cond>,
    /// The keys of ORDER BY.
    pub keys: Sequence<SortKey>,
    /// The most rows of the answer.
    pub limit: Option<u64>,
}

// By a call of its own, so that proofs needn't go through its forms where one is dropped.
impl Drop for Query {
    fn drop(self) {
        let Query {
            distinct: _,
            items: _,
            froms: _,
            cond: _,
            groups: _,
            having: _,
            keys: _,
            limit: _,
        } = self;
    }
}

/// An item of a query.
pub struct Item {
    /// Its value.
    pub expr: Expr,
    /// Its name, where it is given one.
    pub alias: Option<Word>,
}

// By a call of its own, so that proofs needn't go through its forms where one is dropped.
impl Drop for Item {
    fn drop(self) {
        let Item { expr: _, alias: _ } = self;
    }
}

/// A table of FROM.
pub struct FromItem {
    /// The table's name.
    pub table: Word,
    /// The name by which the query calls it, where it is given one.
    pub alias: Option<Word>,
}

// By a call of its own, so that proofs needn't go through its forms where one is dropped.
impl Drop for FromItem {
    fn drop(self) {
        let FromItem { table: _, alias: _ } = self;
    }
}

/// A column as a statement names it.
pub struct ColRef {
    /// The FROM name before the dot.
    pub table: Option<Word>,
    /// The column's name.
    pub column: Word,
}

// By a call of its own, so that proofs needn't go through its forms where one is dropped.
impl Drop for ColRef {
    fn drop(self) {
        let ColRef {
            table: _,
            column: _,
        } = self;
    }
}

/// A key of ORDER BY.
pub struct SortKey {
    /// What is sorted by.
    pub at: Place,
    /// Whether low values come first.
    pub ascending: bool,
}

// By a call of its own, so that proofs needn't go through its forms where one is dropped.
impl Drop for SortKey {
    fn drop(self) {
        let SortKey {
            at: _,
            ascending: _,
        } = self;
    }
}

/// What a key of ORDER BY sorts by.
pub enum Place {
    /// The item at this position, counted from 1.
    Position(u64),
    /// An item by its alias, or by the column that it is.
    Named(ColRef),
}

// By a call of its own, so that proofs needn't go through its forms where one is dropped.
impl Drop for Place {
    fn drop(self) {
        match self {
            Place::Position(_) | Place::Named(_) => {}
        }
    }
}

/// A condition.
pub enum Cond {
    /// A comparison.
    Cmp {
        /// How it compares.
        op: CmpOp,
        /// The left side.
        left: Expr,
        /// The right side.
        right: Expr,
    },
    /// `of BETWEEN low AND high`
    Between {
        /// What is compared.
        of: Expr,
        /// The low bound, which is included.
        low: Expr,
        /// The high bound, which is included.
        high: Expr,
    },
    /// `of IS NULL`
    IsNull(Expr),
    /// `NOT`
    Not(Box<Cond>),
    /// `AND`
    And(Box<Cond>, Box<Cond>),
    /// `OR`
    Or(Box<Cond>, Box<Cond>),
}

// By a call of its own, so that proofs needn't go through its forms where one is dropped.
impl Drop for Cond {
    fn drop(self) {
        match self {
            Cond::Cmp {
                op: _,
                left: _,
                right: _,
            }
            | Cond::Between {
                of: _,
                low: _,
                high: _,
            }
            | Cond::IsNull(_)
            | Cond::Not(_)
            | Cond::And(_, _)
            | Cond::Or(_, _) => {}
        }
    }
}

/// The comparisons.
#[derive(Clone, Copy, PartialEq, Eq)]
pub enum CmpOp {
    /// `=`
    Eq,
    /// `<>`
    Ne,
    /// `<`
    Lt,
    /// `<=`
    Le,
    /// `>`
    Gt,
    /// `>=`
    Ge,
}

/// An expression.
pub enum Expr {
    /// A literal.
    Lit(Cell),
    /// A column.
    Col(ColRef),
    /// An arithmetic operator.
    Arith {
        /// The operator.
        op: ArithOp,
        /// Its left operand.
        left: Box<Expr>,
        /// Its right operand.
        right: Box<Expr>,
    },
    /// An aggregate.
    Agg {
        /// The aggregate.
        f: AggOp,
        /// Its argument; none for `COUNT(*)`.
        of: Option<Box<Expr>>,
    },
}

// By a call of its own, so that proofs needn't go through its forms where one is dropped.
impl Drop for Expr {
    fn drop(self) {
        match self {
            Expr::Lit(_)
            | Expr::Col(_)
            | Expr::Arith {
                op: _,
                left: _,
                right: _,
            }
            | Expr::Agg { f: _, of: _ } => {}
        }
    }
}

/// The arithmetic operators.
#[derive(Clone, Copy, PartialEq, Eq)]
pub enum ArithOp {
    /// `+`
    Plus,
    /// `-`
    Minus,
    /// `*`
    Times,
}

/// The aggregates.
#[derive(Clone, Copy, PartialEq, Eq)]
pub enum AggOp {
    /// `COUNT`
    Count,
    /// `SUM`
    Sum,
    /// `MIN`
    Min,
    /// `MAX`
    Max,
}
