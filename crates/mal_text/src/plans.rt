ghost use Rattle.std.specs.Prelude.{◌≡◌, [], ◌∷◌, ◌++◌, map, Some, None, unwrap_or, true, false, IfOk, OnOk, IsErrOf, bytes_eq};
ghost use Rattle.std.specs.List.{list_any};
ghost use Rattle.mal_meaning.specs.declared.plan.Plan.{Plan as PlanSeen};
ghost use Rattle.mal_text.specs.Plans as plans;
ghost use Rattle.mal_text.specs.Plans.{StandsFor};

use crate::block::{Block, Line, OrderKey, Term};
use crate::error::BlockError;
use crate::numbers::{huge, int, small};
use cell_core::{Arg, Cell, Instr, Memory, Op, Sequence, Word};
use indexmap::IndexSet;
use mal_meaning::{Out, Plan};
use mal_tokens::operator;
use std::alloc::Global;
use text_bytes::{named_day, number_128};

/// The plan that a block stands for, if it stands for one.
pub(crate) fn plan(alloc: Global, block: &Block) -> Result<Plan, BlockError>
    ensures found { IfOk result (λ plan. StandsFor block.now plan) }
    ensures none { IsErrOf result BlockError.NoBlock → (plan : PlanSeen) → StandsFor block.now plan → ⊥ }
{
    let names = names(alloc, block.lines.as_slice())?;
    let instrs = instrs(alloc, &names, block.lines.as_slice())?;
    let keep = keep(&names, &block.keep)?;
    let order = order(alloc, block.order.as_slice())?;
    let limit = limit(&block.limit)?;
    let cols = cols(alloc, &names, &block.output)?;
    Ok(Plan {
        instrs,
        out: Out {
            cols,
            keep,
            order,
            limit,
        },
    })
}

/// The names that instructions assign, where none is assigned twice.
fn names(alloc: Global, lines: &[Line]) -> Result<IndexSet<Word>, BlockError>
    ensures names { IfOk result (λ names. names.keys ≡ plans.names_of lines.now) }
    ensures differ { OnOk result (plans.are_distinct (plans.names_of lines.now) ≡ true) }
    ensures none { IsErrOf result BlockError.NoBlock → plans.are_distinct (plans.names_of lines.now) ≡ false }
{
    let mut names = IndexSet::new(alloc);
    let mut rest = lines;
    'lines: while let [line, more @ ..] = rest {
        add_name(&mut names, &line.name)?;
        rest = more;
    }
    Ok(names)
}

/// Adds a name that isn't among them.
fn add_name(names: &mut IndexSet<Word>, name: &Word) -> Result<(), BlockError>
    ensures added { OnOk result (names.new.keys ≡ names.old.keys ++ name.now ∷ []) }
    ensures absent { OnOk result (list_any (bytes_eq name.now) names.old.keys ≡ false) }
    ensures twice { IsErrOf result BlockError.NoBlock → list_any (bytes_eq name.now) names.old.keys ≡ true }
{
    let (_, is_new) = names.insert_full(name.share()?)?;
    if !is_new {
        return Err(BlockError::NoBlock);
    }
    Ok(())
}

/// The number of the instruction that assigns a name, or the number of instructions.
fn place(names: &IndexSet<Word>, name: &Word) -> usize
    ensures { result ≡ plans.place_of names.now.keys name.now }
{
    match names.get_index_of(name) {
        Some(place) => place,
        None => names.len(),
    }
}

/// The constant that a word is.
fn constant(word: &str) -> Option<Cell>
    ensures { result ≡ plans.constant_named word.now }
{
    if word == "true" {
        Some(Cell::Bit(true))
    } else if word == "false" {
        Some(Cell::Bit(false))
    } else if word == "nil" {
        Some(Cell::Nil)
    } else {
        None
    }
}

/// The argument that a term stands for.
fn arg(names: &IndexSet<Word>, term: &Term) -> Result<Arg, BlockError>
    ensures found { IfOk result (λ arg. plans.arg_of names.now.keys term.now ≡ Some arg) }
    ensures none { IsErrOf result BlockError.NoBlock → plans.arg_of names.now.keys term.now ≡ None }
{
    let cell = match term {
        Term::Name(word) => return Ok(named(names, word)?),
        Term::Text(text) => Some(Cell::Text(text.share()?)),
        Term::Date(text) => named_day(text.text()).map(Cell::Day),
        Term::Int(negative, digits) => int(*negative, digits.text()).map(Cell::Int),
        Term::Huge(negative, digits) => huge(*negative, digits.text()).map(Cell::Huge),
        Term::Oid(digits) => small(digits.text()).map(Cell::Oid),
    };
    match cell {
        Some(cell) => Ok(Arg::Const(cell)),
        None => Err(BlockError::NoBlock),
    }
}

/// The argument that a word is.
fn named(names: &IndexSet<Word>, word: &Word) -> Result<Arg, Memory>
    ensures { IfOk result (λ arg. plans.word_arg names.now.keys word.now ≡ arg) }
{
    if let Some(cell) = constant(word.text()) {
        return Ok(Arg::Const(cell));
    }
    match u32::try_from(place(names, word)) {
        Ok(number) => Ok(Arg::Var(number)),
        Err(_) => Err(Memory),
    }
}

/// The arguments that terms stand for.
fn args(alloc: Global, names: &IndexSet<Word>, terms: &[Term]) -> Result<Sequence<Arg>, BlockError>
    ensures found { IfOk result (λ args. plans.args_of names.now.keys terms.now ≡ Some args) }
    ensures none { IsErrOf result BlockError.NoBlock → plans.args_of names.now.keys terms.now ≡ None }
{
    let mut args = Sequence::new(alloc);
    let mut rest = terms;
    'terms: while let [term, more @ ..] = rest {
        let next = arg(names, term)?;
        args.push(next)?;
        rest = more;
    }
    Ok(args)
}

/// The instruction that a line stands for.
fn instr(alloc: Global, names: &IndexSet<Word>, line: &Line) -> Result<Instr, BlockError>
    ensures found { IfOk result (λ instr. plans.instr_of names.now.keys line.now ≡ Some instr) }
    ensures none { IsErrOf result BlockError.NoBlock → plans.instr_of names.now.keys line.now ≡ None }
{
    let args = args(alloc, names, line.args.as_slice())?;
    let op = op_in(line);
    Ok(Instr { op, args })
}

/// The operator of a line; `not` where it isn't known.
fn op_in(line: &Line) -> Op
    ensures { result ≡ plans.op_in line.now }
{
    match operator(line.of_module.text(), line.function.text()) {
        Some(op) => op,
        None => Op::Not,
    }
}

/// The instructions that lines stand for.
fn instrs(
    alloc: Global,
    names: &IndexSet<Word>,
    lines: &[Line],
) -> Result<Sequence<Instr>, BlockError>
    ensures found { IfOk result (λ instrs. plans.instrs_of names.now.keys lines.now ≡ Some instrs) }
    ensures none { IsErrOf result BlockError.NoBlock → plans.instrs_of names.now.keys lines.now ≡ None }
{
    let mut instrs = Sequence::new(alloc);
    let mut rest = lines;
    'lines: while let [line, more @ ..] = rest {
        let next = instr(alloc, names, line)?;
        instrs.push(next)?;
        rest = more;
    }
    Ok(instrs)
}

/// The argument of `keep`, where there is one.
fn keep(names: &IndexSet<Word>, keep: &Option<Term>) -> Result<Option<Arg>, BlockError>
    ensures found { IfOk result (λ found. plans.keep_of names.now.keys keep.now ≡ Some found) }
    ensures none { IsErrOf result BlockError.NoBlock → plans.keep_of names.now.keys keep.now ≡ None }
{
    match keep {
        Some(term) => Ok(Some(arg(names, term)?)),
        None => Ok(None),
    }
}

/// The key that is written, its place counted from 0.
fn key(key: &OrderKey) -> Option<(u32, bool)>
    ensures { result ≡ plans.key_of key.now }
{
    match number_128(key.place.text()) {
        Some(place) if 1 <= place && place <= 1 << 32 => Some(((place - 1) as u32, key.ascending)),
        _ => None,
    }
}

/// The keys of the order.
fn order(alloc: Global, keys: &[OrderKey]) -> Result<Sequence<(u32, bool)>, BlockError>
    ensures found { IfOk result (λ order. plans.order_of keys.now ≡ Some order) }
    ensures none { IsErrOf result BlockError.NoBlock → plans.order_of keys.now ≡ None }
{
    let mut order = Sequence::new(alloc);
    let mut rest = keys;
    'keys: while let [first, more @ ..] = rest {
        let Some(next) = key(first) else {
            return Err(BlockError::NoBlock);
        };
        order.push(next)?;
        rest = more;
    }
    Ok(order)
}

/// The most rows, where a limit is written.
fn limit(limit: &Option<Word>) -> Result<Option<u64>, BlockError>
    ensures found { IfOk result (λ found. plans.limit_of limit.now ≡ Some found) }
    ensures none { IsErrOf result BlockError.NoBlock → plans.limit_of limit.now ≡ None }
{
    let Some(digits) = limit else {
        return Ok(None);
    };
    match small(digits.text()) {
        Some(number) => Ok(Some(number)),
        None => Err(BlockError::NoBlock),
    }
}

/// The columns of an output; none where it isn't written.
fn cols(
    alloc: Global,
    names: &IndexSet<Word>,
    output: &Option<Sequence<Term>>,
) -> Result<Sequence<Arg>, BlockError>
    ensures found { IfOk result (λ cols. plans.args_of names.now.keys (unwrap_or output.now []) ≡ Some cols) }
    ensures none { IsErrOf result BlockError.NoBlock → plans.args_of names.now.keys (unwrap_or output.now []) ≡ None }
{
    match output {
        Some(terms) => args(alloc, names, terms.as_slice()),
        None => Ok(Sequence::new(alloc)),
    }
}
