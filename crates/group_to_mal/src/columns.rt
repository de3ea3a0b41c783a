//! The columns of an output, emitted as the definitions say.
ghost use Rattle.std.specs.Prelude.{◌≡◌, IfOk};
ghost use Rattle.cell_core.specs.declared.operator.Arg.TheVariants.{Var};
ghost use Rattle.group_to_mal.specs.Columns.{bats_of, finer as finer_of, groups as groups_of, heads as heads_of, gather_one, gather_bats as gather_of, keep_bats as keep_of, undoubled as undoubled_of, spread_by};
ghost use Rattle.group_to_mal.specs.ItemValues.{args_of, bats_in};

use cell_core::{Arg, Cell, Instr, Memory, Op, Sequence};
use mal_emit::{counted, emit};
use std::alloc::Global;

/// The value of an item: the argument that holds it, and whether that is a BAT.
#[derive(Drop)]
pub struct ItemValue {
    /// The argument.
    pub arg: Arg,
    /// Whether it is a BAT, and no scalar.
    pub is_bat: bool,
}

/// The columns that are BATs.
fn bats(alloc: Global, columns: &[ItemValue]) -> Result<Vec<Arg>, Memory>
    ensures { IfOk result (λ args. args.items ≡ bats_of (bats_in columns.now) (args_of columns.now)) }
{
    let mut args = Vec::new(alloc);
    for column in columns {
        if column.is_bat {
            args.push(column.arg.share()?)?;
        }
    }
    Ok(args)
}

/// Adds finer groups, by one column after another.
fn finer(
    alloc: Global,
    instrs: &mut Sequence<Instr>,
    coarse: u32,
    columns: &[Arg],
) -> Result<u32, Memory>
    ensures { IfOk result (λ number. (instrs.new, Var number) ≡ (finer_of (Var coarse) columns.now).run instrs.old) }
{
    let mut groups = coarse;
    for column in columns {
        let args = vec![in alloc; Arg::Var(groups), column.share()?]?;
        groups = emit(instrs, Op::GroupDerive, args)?;
    }
    Ok(groups)
}

/// Adds each BAT at the places in the tails of `by`; scalars stay.
pub(crate) fn gather_bats(
    alloc: Global,
    instrs: &mut Sequence<Instr>,
    by: u32,
    columns: &[ItemValue],
) -> Result<Vec<ItemValue>, Memory>
    ensures emitted { IfOk result (λ gathered. (instrs.new, args_of gathered.items) ≡ (gather_of (Var by) (bats_in columns.now) (args_of columns.now)).run instrs.old) }
    ensures bats { IfOk result (λ gathered. bats_in gathered.items ≡ bats_in columns.now) }
{
    let mut gathered = Vec::new(alloc);
    for column in columns {
        let one = gather_bat(alloc, instrs, by, column)?;
        gathered.push(one)?;
    }
    Ok(gathered)
}

/// Adds one column at these places, if it is a BAT; a scalar stays.
fn gather_bat(
    alloc: Global,
    instrs: &mut Sequence<Instr>,
    by: u32,
    column: &ItemValue,
) -> Result<ItemValue, Memory>
    ensures bat { IfOk result (λ one. one.is_bat ≡ column.now.is_bat) }
    ensures emitted { IfOk result (λ one. (instrs.new, one.arg) ≡ (gather_one (Var by) column.now.is_bat column.now.arg).run instrs.old) }
{
    let arg = column.arg.share()?;
    if column.is_bat {
        let number = emit(instrs, Op::Join, vec![in alloc; Arg::Var(by), arg]?)?;
        Ok(ItemValue {
            arg: Arg::Var(number),
            is_bat: true,
        })
    } else {
        Ok(ItemValue { arg, is_bat: false })
    }
}

/// Adds the columns at the places where a test is true.
pub(crate) fn keep_bats(
    alloc: Global,
    instrs: &mut Sequence<Instr>,
    test: Arg,
    columns: &[ItemValue],
) -> Result<Vec<ItemValue>, Memory>
    ensures emitted { IfOk result (λ kept. (instrs.new, args_of kept.items) ≡ (keep_of test (bats_in columns.now) (args_of columns.now)).run instrs.old) }
    ensures bats { IfOk result (λ kept. bats_in kept.items ≡ bats_in columns.now) }
{
    let low = Arg::Const(Cell::Bit(true));
    let high = Arg::Const(Cell::Bit(true));
    let low_included = Arg::Const(Cell::Bit(true));
    let high_included = Arg::Const(Cell::Bit(true));
    let args = vec![in alloc; test, low, high, low_included, high_included]?;
    let kept = emit(instrs, Op::Select, args)?;
    let by = counted(alloc, instrs, kept)?;
    gather_bats(alloc, instrs, by, columns)
}

/// Adds the groups of these columns, which are one at least.
pub(crate) fn groups(
    alloc: Global,
    instrs: &mut Sequence<Instr>,
    columns: &[Arg],
) -> Result<Arg, Memory>
    ensures { IfOk result (λ arg. (instrs.new, arg) ≡ (groups_of columns.now).run instrs.old) }
{
    match columns {
        [] => Ok(Arg::Const(Cell::Nil)),
        [first, more @ ..] => {
            let new = emit(instrs, Op::GroupNew, vec![in alloc; first.share()?]?)?;
            let number = finer(alloc, instrs, new, more)?;
            Ok(Arg::Var(number))
        }
    }
}

/// Adds the first row of each group.
pub(crate) fn heads(alloc: Global, instrs: &mut Sequence<Instr>, groups: Arg) -> Result<u32, Memory>
    ensures { IfOk result (λ number. (instrs.new, Var number) ≡ (heads_of groups).run instrs.old) }
{
    emit(instrs, Op::GroupHeads, vec![in alloc; groups]?)
}

/// Adds the columns without doubled rows, where that is asked for.
pub(crate) fn undoubled(
    alloc: Global,
    instrs: &mut Sequence<Instr>,
    distinct: bool,
    columns: Vec<ItemValue>,
) -> Result<Vec<ItemValue>, Memory>
    ensures emitted { IfOk result (λ single. (instrs.new, args_of single.items) ≡ (undoubled_of distinct (bats_in columns.items) (args_of columns.items)).run instrs.old) }
    ensures bats { IfOk result (λ single. bats_in single.items ≡ bats_in columns.items) }
{
    if !distinct {
        return Ok(columns);
    }
    let grouped = bats(alloc, columns.as_slice())?;
    let numbers = groups(alloc, instrs, grouped.as_slice())?;
    let firsts = heads(alloc, instrs, numbers)?;
    gather_bats(alloc, instrs, firsts, columns.as_slice())
}

/// Adds a scalar beside each head of a BAT; a BAT stays.
pub(crate) fn spread(
    alloc: Global,
    instrs: &mut Sequence<Instr>,
    heads: Arg,
    value: ItemValue,
) -> Result<Arg, Memory>
    ensures { IfOk result (λ arg. (instrs.new, arg) ≡ (spread_by heads value.is_bat value.arg).run instrs.old) }
{
    if value.is_bat {
        return Ok(value.arg);
    }
    let args = vec![in alloc; heads, value.arg]?;
    let number = emit(instrs, Op::Project, args)?;
    Ok(Arg::Var(number))
}

impl ItemValue {
    /// The same value again.
    pub(crate) fn share(&self) -> Result<ItemValue, Memory>
        ensures { IfOk result (λ same. same ≡ self.now) }
    {
        let arg = self.arg.share()?;
        Ok(ItemValue {
            arg,
            is_bat: self.is_bat,
        })
    }
}
