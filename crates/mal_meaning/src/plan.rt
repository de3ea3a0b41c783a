ghost use Rattle.std.specs.Prelude.{◌≡◌, ◌↔◌, IfOk, true};
ghost use Rattle.mal_meaning.specs.SamePlan.{same_out, same_plan};

use cell_core::{Arg, Instr, Memory, Sequence, copy_args};
use std::alloc::Global;

/// The output of a plan, made of the values of its instructions.
pub struct Out {
    /// The columns: a BAT shows its tails, a scalar is in every row.
    pub cols: Sequence<Arg>,
    /// If there is one, it has to be true, or no row is shown.
    pub keep: Option<Arg>,
    /// The keys of the order: places among the columns, counted from 0, each ascending (true) or
    /// descending.
    pub order: Sequence<(u32, bool)>,
    /// The most rows.
    pub limit: Option<u64>,
}

// By a call of its own, so that proofs needn't go through its forms where one is dropped.
impl Drop for Out {
    fn drop(self) {
        let Out {
            cols: _,
            keep: _,
            order: _,
            limit: _,
        } = self;
    }
}

/// A plan: instructions in order, each of which may use the results of earlier ones, and an output.
pub struct Plan {
    /// The instructions; `Arg::Var(0)` is the result of the first one, and so on.
    pub instrs: Sequence<Instr>,
    /// The plan's output.
    pub out: Out,
}

// By a call of its own, so that proofs needn't go through its forms where one is dropped.
impl Drop for Plan {
    fn drop(self) {
        let Plan { instrs: _, out: _ } = self;
    }
}

impl Out {
    /// An equal output, which shares the texts.
    pub fn share(&self, alloc: Global) -> Result<Out, Memory>
        ensures { IfOk result (λ out. out ≡ self.now) }
    {
        let cols = copy_args(alloc, self.cols.as_slice())?;
        let order = copy_order(alloc, self.order.as_slice())?;
        let keep = share_keep(&self.keep)?;
        Ok(Out {
            cols,
            keep,
            order,
            limit: self.limit,
        })
    }
}

impl PartialEq for Out {
    ghost use Rattle.std.specs.Cmp;
    ghost use Rattle.mal_meaning.specs.SamePlan.{same_out_equivalence};

    ghost eq = { same_out };

    ghost laws = { Cmp.partial_equiv_from_equiv same_out_equivalence };

    fn eq(&self, other: &Out) -> bool {
        self.cols.as_slice() == other.cols.as_slice()
            && self.keep == other.keep
            && self.order.as_slice() == other.order.as_slice()
            && self.limit == other.limit
    }
}

impl Eq for Out {
    ghost use Rattle.mal_meaning.specs.SamePlan.{same_out_equivalence};

    ghost laws = { same_out_equivalence };
}

impl Plan {
    /// An equal plan, which shares the texts.
    pub fn share(&self, alloc: Global) -> Result<Plan, Memory>
        ensures { IfOk result (λ plan. plan ≡ self.now) }
    {
        let instrs = copy_instrs(alloc, self.instrs.as_slice())?;
        let out = self.out.share(alloc)?;
        Ok(Plan { instrs, out })
    }
}

impl PartialEq for Plan {
    ghost use Rattle.std.specs.Cmp;
    ghost use Rattle.mal_meaning.specs.SamePlan.{same_plan_equivalence};

    ghost eq = { same_plan };

    ghost laws = { Cmp.partial_equiv_from_equiv same_plan_equivalence };

    fn eq(&self, other: &Plan) -> bool {
        self.instrs.as_slice() == other.instrs.as_slice() && self.out == other.out
    }
}

impl Eq for Plan {
    ghost use Rattle.mal_meaning.specs.SamePlan.{same_plan_equivalence};

    ghost laws = { same_plan_equivalence };
}

/// Plans are equal exactly where they are the same, instruction by instruction and in their output.
pub fn equal_plans_are_the_same(a: &Plan, b: &Plan)
    ensures { (same_plan a.now b.now ≡ true) ↔ (a.now ≡ b.now) }
{
    let _ = a;
    let _ = b;
}

/// An equal argument of `keep`, if there is one.
fn share_keep(keep: &Option<Arg>) -> Result<Option<Arg>, Memory>
    ensures { IfOk result (λ copy. copy ≡ keep.now) }
{
    Ok(match keep {
        Some(arg) => Some(arg.share()?),
        None => None,
    })
}

fn copy_order(alloc: Global, order: &[(u32, bool)]) -> Result<Sequence<(u32, bool)>, Memory>
    ensures { IfOk result (λ copy. copy ≡ order.now) }
{
    let mut copy = Vec::new(alloc);
    copy.extend_from_slice(order)?;
    Ok(Sequence::from_vec(copy))
}

/// Equal instructions, which share their texts.
fn copy_instrs(alloc: Global, instrs: &[Instr]) -> Result<Sequence<Instr>, Memory>
    ensures { IfOk result (λ copy. copy ≡ instrs.now) }
{
    let mut copy = Vec::with_capacity(alloc, instrs.len())?;
    'instructions: for instr in instrs {
        copy.push(instr.share(alloc)?)?;
    }
    Ok(Sequence::from_vec(copy))
}
