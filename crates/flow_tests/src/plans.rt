//! Plans for the tests.

use cell_core::{Arg, Cell, Instr, Memory, Op, Sequence, word_of};
use mal_meaning::{Out, Plan};
use std::alloc::Global;

fn int(number: i64) -> Arg {
    Arg::Const(Cell::Int(number))
}

fn bit(yes: bool) -> Arg {
    Arg::Const(Cell::Bit(yes))
}

fn instr(alloc: Global, op: Op, args: &[Arg]) -> Result<Instr, Memory> {
    let mut all = Sequence::new(alloc);
    for arg in args {
        all.push(arg.share()?)?;
    }
    Ok(Instr { op, args: all })
}

/// A plan that shows these results, each as a column.
fn showing(alloc: Global, instrs: Sequence<Instr>, shown: &[u32]) -> Result<Plan, Memory> {
    let mut cols = Sequence::new(alloc);
    for number in shown {
        cols.push(Arg::Var(*number))?;
    }
    let out = Out {
        cols,
        keep: None,
        order: Sequence::new(alloc),
        limit: None,
    };
    Ok(Plan { instrs, out })
}

/// A tree of sums: instruction n adds n to the result of n / 2. The last one multiplies instead, by
/// `times`. It shows all results.
pub(crate) fn tree(alloc: Global, count: u32, times: i64) -> Result<Plan, Memory> {
    let mut instrs = Sequence::new(alloc);
    let mut shown = Vec::new(alloc);
    for number in 0..count {
        let first = if number == 0 {
            int(2)
        } else {
            Arg::Var(number / 2)
        };
        let last = number + 1 == count;
        let op = if last { Op::Times } else { Op::Plus };
        let second = if last {
            int(times)
        } else {
            int(i64::from(number))
        };
        instrs.push(instr(alloc, op, &[first, second])?)?;
        shown.push(number)?;
    }
    showing(alloc, instrs, shown.as_slice())
}

/// Two columns, a range of each, and the mirror of each range. Either range may start first.
pub(crate) fn ranges(alloc: Global) -> Result<Plan, Memory> {
    let mut instrs = Sequence::new(alloc);
    for column in ["a", "b"] {
        let mut names = Sequence::new(alloc);
        for text in ["t", column, "int"] {
            names.push(Arg::Const(Cell::Text(word_of(alloc, text)?)))?;
        }
        instrs.push(Instr {
            op: Op::Bind,
            args: names,
        })?;
    }
    for of in 0..2 {
        let bounds = [Arg::Var(of), int(1), int(5), bit(true), bit(false)];
        instrs.push(instr(alloc, Op::Select, &bounds)?)?;
    }
    for of in 2..4 {
        instrs.push(instr(alloc, Op::Mirror, &[Arg::Var(of)])?)?;
    }
    showing(alloc, instrs, &[4, 5])
}
