//! What a key shows of its parents, its table and its shape.
ghost use Rattle.std.specs.Prelude.{◌≡◌, ◌==◌, [], ◌∷◌, IfOk, drop, slice_index};
ghost use Rattle.std.specs.List.{filter_map, list_any};
ghost use Rattle.lineage_key.specs.Parents.{column_of, id_in, is_bind, is_named, shape_of as shape_told, table_of, text_in, two_parents};

use crate::key::{Key, KeyArg};
use crate::shape::Shape;
use cell_core::{Cell, Memory, Op, word_of};
use std::alloc::Global;

impl KeyArg {
    /// The id in this argument. None for a constant.
    pub fn id(&self) -> Option<u64>
        ensures { result ≡ id_in self.now }
    {
        match self {
            KeyArg::Const(_) => None,
            KeyArg::Id(id) => Some(*id),
        }
    }

    /// The text in this argument; empty where it is no text.
    fn text(&self) -> &str
        ensures { result.now ≡ text_in self.now }
    {
        match self {
            KeyArg::Const(Cell::Text(word)) => word.text(),
            _ => "",
        }
    }
}

impl Key {
    /// Whether it is the key of a bind.
    pub fn is_bind(&self) -> bool
        ensures { result ≡ is_bind self.now }
    {
        self.op == Op::Bind
    }

    /// The ids of its first and its second parent, 0 where there is none. An instruction that may
    /// be pooled has no more than two.
    pub fn parents(&self) -> [u64; 2]
        ensures { result ≡ two_parents self.now }
    {
        let (first, rest) = next_id(self.args.as_slice());
        let (second, _) = next_id(rest);
        [first, second]
    }

    /// Whether an id is one of its parents.
    pub fn names(&self, id: u64) -> bool
        ensures { result ≡ is_named self.now id }
    {
        let mut rest = self.args.as_slice();
        'arguments: while let [arg, more @ ..] = rest {
            if stands_in(arg, id) {
                return true;
            }
            rest = more;
        }
        false
    }

    /// The table that a bind reads; empty where its first argument is no text.
    pub fn table(&self) -> &str
        ensures { result.now ≡ table_of self.now }
    {
        match self.args.as_slice() {
            [table, ..] => table.text(),
            _ => "",
        }
    }

    /// The column that a bind reads; empty where its second argument is no text.
    pub fn column(&self) -> &str
        ensures { result.now ≡ column_of self.now }
    {
        match self.args.as_slice() {
            [_, column, ..] => column.text(),
            _ => "",
        }
    }
}

/// The shape of a key. `numbers` has the number of the shape of each argument's result, and 0 for a
/// constant and for no argument.
pub fn shape_of(alloc: Global, key: &Key, numbers: [u32; 5]) -> Result<Shape, Memory>
    ensures { IfOk result (λ shape. shape ≡ shape_told numbers key.now) }
{
    if key.is_bind() {
        let table = word_of(alloc, key.table())?;
        let column = word_of(alloc, key.column())?;
        Ok(Shape {
            op: key.op,
            table,
            column,
            args: [0; 5],
        })
    } else {
        let table = word_of(alloc, "")?;
        let column = word_of(alloc, "")?;
        Ok(Shape {
            op: key.op,
            table,
            column,
            args: numbers,
        })
    }
}

/// Whether an argument has this id.
fn stands_in(arg: &KeyArg, id: u64) -> bool
    ensures { result ≡ list_any (λ parent. parent == id) (filter_map id_in (arg.now ∷ [])) }
{
    match arg.id() {
        None => false,
        Some(parent) => parent == id,
    }
}

/// The first id among arguments, 0 where there is none, and the arguments after it.
fn next_id(args: &[KeyArg]) -> (u64, &[KeyArg])
    ensures first { result.0 ≡ slice_index (filter_map id_in args.now) 0 }
    ensures rest { filter_map id_in result.1.now ≡ drop 1 (filter_map id_in args.now) }
{
    let mut rest = args;
    'arguments: while let [arg, more @ ..] = rest {
        rest = more;
        match arg.id() {
            None => {}
            Some(id) => return (id, rest),
        }
    }
    (0, rest)
}
