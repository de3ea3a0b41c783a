use cell_core::{Sequence, Word};

/// An argument as it is written.
pub enum Term {
    /// A word: `true`, `false`, `nil`, or the name of a variable.
    Name(Word),
    /// A text.
    Text(Word),
    /// The text of a day.
    Date(Word),
    /// A number of 64 bits: whether `-` comes before it, and its digits.
    Int(bool, Word),
    /// A number of 128 bits: whether `-` comes before it, and its digits.
    Huge(bool, Word),
    /// The digits of an object identifier.
    Oid(Word),
}

// By a call of its own, so that proofs needn't go through its forms where one is dropped.
impl Drop for Term {
    fn drop(self) {
        match self {
            Term::Name(_)
            | Term::Text(_)
            | Term::Date(_)
            | Term::Int(_, _)
            | Term::Huge(_, _)
            | Term::Oid(_) => {}
        }
    }
}

/// An instruction as it is written.
pub struct Line {
    /// The variable that it assigns.
    pub name: Word,
    /// The module of its function.
    pub of_module: Word,
    /// The name of its function.
    pub function: Word,
    /// Its arguments, in order.
    pub args: Sequence<Term>,
}

// By a call of its own, so that proofs needn't go through its forms where one is dropped.
impl Drop for Line {
    fn drop(self) {
        let Line {
            name: _,
            of_module: _,
            function: _,
            args: _,
        } = self;
    }
}

/// A key of the order as it is written.
pub struct OrderKey {
    /// The digits of a place among the columns, counted from 1.
    pub place: Word,
    /// Whether it is ascending.
    pub ascending: bool,
}

// By a call of its own, so that proofs needn't go through its forms where one is dropped.
impl Drop for OrderKey {
    fn drop(self) {
        let OrderKey {
            place: _,
            ascending: _,
        } = self;
    }
}

/// A block as it is written.
pub struct Block {
    /// Its name.
    pub name: Word,
    /// Its instructions.
    pub lines: Sequence<Line>,
    /// The argument of `sql.keep`.
    pub keep: Option<Term>,
    /// The keys of the order.
    pub order: Sequence<OrderKey>,
    /// The digits of the limit.
    pub limit: Option<Word>,
    /// The arguments of `sql.output`.
    pub output: Option<Sequence<Term>>,
}

// By a call of its own, so that proofs needn't go through its forms where one is dropped.
impl Drop for Block {
    fn drop(self) {
        let Block {
            name: _,
            lines: _,
            keep: _,
            order: _,
            limit: _,
            output: _,
        } = self;
    }
}
