ghost use Rattle.std.specs.Prelude.{◌≡◌, ◌↔◌, IfOk, true};
ghost use Rattle.cell_core.specs.SameInstr.{same_instr};

use crate::cell::Cell;
use crate::memory::Memory;
use crate::sequence::Sequence;
use std::alloc::Global;

/// The operators of plans.
#[derive(Clone, Copy, PartialEq, Eq, Hash)]
pub enum Op {
    /// The cells of a table's column.
    Bind,
    /// The pairs whose tail lies in a range.
    Select,
    /// The pairs whose head is a head of the other BAT.
    Semijoin,
    /// The pairs whose head is no head of the other BAT.
    Kdifference,
    /// All pairs, and those of the other BAT that have a new head.
    Kunion,
    /// The pairs with head and tail exchanged.
    Reverse,
    /// Each head beside itself.
    Mirror,
    /// Each head beside a count.
    MarkT,
    /// Each head beside one cell.
    Project,
    /// Each head of one BAT beside each head of the other.
    Cross,
    /// The heads of one BAT beside the tails of the other, where tail and head are the same.
    Join,
    /// Each head beside the number of its tail's group.
    GroupNew,
    /// Each head beside the number of a finer group.
    GroupDerive,
    /// The first head of each group.
    GroupHeads,
    /// How many tails there are.
    Count,
    /// The sum of the tails.
    Sum,
    /// The least tail.
    Min,
    /// The greatest tail.
    Max,
    /// How many tails each group has.
    Subcount,
    /// The sum of each group's tails.
    Subsum,
    /// The least tail of each group.
    Submin,
    /// The greatest tail of each group.
    Submax,
    /// The sum of two numbers.
    Plus,
    /// The difference of two numbers.
    Minus,
    /// The product of two numbers.
    Times,
    /// Whether two cells are equal.
    Eq,
    /// Whether two cells differ.
    Ne,
    /// Whether the first cell is below the second.
    Lt,
    /// Whether the first cell is at most the second.
    Le,
    /// Whether the first cell is above the second.
    Gt,
    /// Whether the first cell is at least the second.
    Ge,
    /// Whether both are true.
    And,
    /// Whether one of them is true.
    Or,
    /// Whether it is false.
    Not,
    /// Whether there is no value.
    IsNil,
}

/// An argument of an instruction.
pub enum Arg {
    /// A constant.
    Const(Cell),
    /// The result of the instruction with this number, counted from 0.
    Var(u32),
}

// By a call of its own, so that proofs needn't go through its forms where one is dropped.
impl Drop for Arg {
    fn drop(self) {
        match self {
            Arg::Const(_) | Arg::Var(_) => {}
        }
    }
}

/// An instruction of a plan.
pub struct Instr {
    /// The operator.
    pub op: Op,
    /// Its arguments, in order.
    pub args: Sequence<Arg>,
}

// By a call of its own, so that proofs needn't go through its forms where one is dropped.
impl Drop for Instr {
    fn drop(self) {
        let Instr { op: _, args: _ } = self;
    }
}

impl Arg {
    /// An equal argument, which shares the text.
    pub fn share(&self) -> Result<Arg, Memory>
        ensures { IfOk result (λ arg. arg ≡ self.now) }
    {
        Ok(match self {
            Arg::Const(cell) => Arg::Const(cell.share()?),
            Arg::Var(number) => Arg::Var(*number),
        })
    }
}

impl PartialEq for Arg {
    ghost use Rattle.std.specs.Cmp;
    ghost use Rattle.cell_core.specs.SameInstr.{same_arg, same_arg_equivalence};

    ghost eq = { same_arg };

    ghost laws = { Cmp.partial_equiv_from_equiv same_arg_equivalence };

    fn eq(&self, other: &Arg) -> bool {
        match (self, other) {
            (Arg::Const(a), Arg::Const(b)) => a == b,
            (Arg::Var(a), Arg::Var(b)) => a == b,
            _ => false,
        }
    }
}

impl Eq for Arg {
    ghost use Rattle.cell_core.specs.SameInstr.{same_arg_equivalence};

    ghost laws = { same_arg_equivalence };
}

impl Instr {
    /// An equal instruction, which shares the texts.
    pub fn share(&self, alloc: Global) -> Result<Instr, Memory>
        ensures { IfOk result (λ instr. instr ≡ self.now) }
    {
        let args = copy_args(alloc, self.args.as_slice())?;
        Ok(Instr { op: self.op, args })
    }
}

impl PartialEq for Instr {
    ghost use Rattle.std.specs.Cmp;
    ghost use Rattle.cell_core.specs.SameInstr.{same_instr_equivalence};

    ghost eq = { same_instr };

    ghost laws = { Cmp.partial_equiv_from_equiv same_instr_equivalence };

    fn eq(&self, other: &Instr) -> bool {
        self.op == other.op && self.args.as_slice() == other.args.as_slice()
    }
}

impl Eq for Instr {
    ghost use Rattle.cell_core.specs.SameInstr.{same_instr_equivalence};

    ghost laws = { same_instr_equivalence };
}

/// Instructions are equal exactly where they are the same: operator and arguments (an Int and a
/// Huge of one number differ).
pub fn equal_instrs_are_the_same(a: &Instr, b: &Instr)
    ensures { (same_instr a.now b.now ≡ true) ↔ (a.now ≡ b.now) }
{
    let _ = a;
    let _ = b;
}

/// Equal arguments, which share their texts.
pub fn copy_args(alloc: Global, args: &[Arg]) -> Result<Sequence<Arg>, Memory>
    ensures { IfOk result (λ copy. copy ≡ args.now) }
{
    let mut copy = Vec::with_capacity(alloc, args.len())?;
    'arguments: for arg in args {
        copy.push(arg.share()?)?;
    }
    Ok(Sequence::from_vec(copy))
}

/// What an instruction computes, held plainly.
pub enum Value {
    /// A binary association table: pairs of a head and a tail.
    Bat(Sequence<(Cell, Cell)>),
    /// A scalar.
    One(Cell),
}

// By a call of its own, so that proofs needn't go through its forms where one is dropped.
impl Drop for Value {
    fn drop(self) {
        match self {
            Value::Bat(_) | Value::One(_) => {}
        }
    }
}
