ghost use Rattle.std.specs.Prelude.{◌≡◌, ℕ, ◌+◌, ◌^◌, ◌<◌, List, [], ◌∷◌, ◌++◌, Some, None, length, flat_map, decimal, IfOk, OnOk};
ghost use Rattle.cell_core.specs.declared.operator.Instr.{Instr as InstrSeen};
ghost use Rattle.std.specs.Fmt.{signed_decimal};
ghost use Rattle.cell_core.specs.Day.{day_text};
ghost use Rattle.mal_check.specs.Checked.{plan_fault};
ghost use Rattle.cell_core.specs.Forms.{is_bat_result};
ghost use Rattle.mal_print.specs.Canon as canon;
ghost use Rattle.mal_tokens.specs.Tokens.{bit_word, spelled};

use cell_core::{Arg, Cell, Instr, Memory, takes_bat};
use cell_text::write_cell;
use itoa::{Buffer, Integer};
use mal_meaning::Plan;
use mal_tokens::{function_word, module_word};
use std::alloc::Global;

/// The canonical text of a plan without a fault.
pub fn print_mal(alloc: Global, plan: &Plan) -> Result<Vec<u8>, Memory>
    requires { plan_fault plan.now ≡ None }
    ensures { IfOk result (λ text. text.items ≡ canon.plan_text plan.now) }
{
    let mut out = Vec::new(alloc);
    write_bytes(b"function user.main():void;\n", &mut out)?;
    write_lines(alloc, plan.instrs.as_slice(), &mut out)?;
    write_keep(alloc, &plan.out.keep, &mut out)?;
    write_order(plan.out.order.as_slice(), &mut out)?;
    write_limit(plan.out.limit, &mut out)?;
    write_cols(alloc, plan.out.cols.as_slice(), &mut out)?;
    write_bytes(b"end user.main;\n", &mut out)?;
    Ok(out)
}

/// Appends bytes as they are.
fn write_bytes(bytes: &[u8], out: &mut Vec<u8>) -> Result<(), Memory>
    ensures { OnOk result (out.new.items ≡ out.old.items ++ bytes.now) }
{
    out.extend_from_slice(bytes)?;
    Ok(())
}

/// Appends a number in decimal.
fn write_number<I: Integer>(number: I, out: &mut Vec<u8>) -> Result<(), Memory>
    ensures { OnOk result (out.new.items ≡ out.old.items ++ I.text number) }
{
    let mut buffer = Buffer::new();
    write_bytes(buffer.format(number).as_bytes(), out)
}

/// Appends `true` or `false`.
fn write_bit(bit: bool, out: &mut Vec<u8>) -> Result<(), Memory>
    ensures { OnOk result (out.new.items ≡ out.old.items ++ bit_word bit) }
{
    if bit {
        write_bytes(b"true", out)
    } else {
        write_bytes(b"false", out)
    }
}

/// Appends a text between quotes.
fn write_quoted(text: &[u8], out: &mut Vec<u8>) -> Result<(), Memory>
    ensures { OnOk result (out.new.items ≡ out.old.items ++ canon.quoted text.now) }
{
    write_bytes(b"\"", out)?;
    write_spelled(text, out)?;
    write_bytes(b"\"", out)
}

/// Appends the bytes of a text, with a backslash before quotes and backslashes, and `\n` for LF.
fn write_spelled(text: &[u8], out: &mut Vec<u8>) -> Result<(), Memory>
    ensures { OnOk result (out.new.items ≡ out.old.items ++ flat_map spelled text.now) }
{
    let mut rest = text;
    'bytes: while let [byte, more @ ..] = rest {
        write_byte(*byte, out)?;
        rest = more;
    }
    Ok(())
}

fn write_byte(byte: u8, out: &mut Vec<u8>) -> Result<(), Memory>
    ensures { OnOk result (out.new.items ≡ out.old.items ++ spelled byte) }
{
    if byte == b'\\' {
        write_bytes(b"\\\\", out)
    } else if byte == b'"' {
        write_bytes(b"\\\"", out)
    } else if byte == b'\n' {
        write_bytes(b"\\n", out)
    } else {
        out.push(byte)?;
        Ok(())
    }
}

/// Appends a day between quotes.
fn write_day(day: i32, out: &mut Vec<u8>) -> Result<(), Memory>
    ensures { OnOk result (out.new.items ≡ out.old.items ++ day_text day) }
{
    write_cell(&Cell::Day(day), out)
}

fn write_constant(alloc: Global, cell: &Cell, out: &mut Vec<u8>) -> Result<(), Memory>
    ensures { OnOk result (out.new.items ≡ out.old.items ++ canon.constant_text cell.now) }
{
    match cell {
        Cell::Nil => write_bytes(b"nil", out),
        Cell::Int(number) => write_number(*number, out),
        Cell::Huge(number) => {
            write_number(*number, out)?;
            write_bytes(b":hge", out)
        }
        Cell::Text(text) => write_quoted(text.text().as_bytes(), out),
        Cell::Day(day) => {
            let mut text = Vec::new(alloc);
            write_day(*day, &mut text)?;
            write_quoted(&text, out)?;
            write_bytes(b":date", out)
        }
        Cell::Bit(bit) => write_bit(*bit, out),
        Cell::Oid(oid) => {
            write_number(*oid, out)?;
            write_bytes(b"@0", out)
        }
    }
}

/// Appends the variable of the instruction with this number.
fn write_variable(number: u64, out: &mut Vec<u8>) -> Result<(), Memory>
    requires { number + 1 < 2 ^ 64 }
    ensures { OnOk result (out.new.items ≡ out.old.items ++ canon.variable number) }
{
    write_bytes(b"X_", out)?;
    write_number(number + 1, out)
}

fn write_arg(alloc: Global, arg: &Arg, out: &mut Vec<u8>) -> Result<(), Memory>
    ensures { OnOk result (out.new.items ≡ out.old.items ++ canon.arg_text arg.now) }
{
    match arg {
        Arg::Const(cell) => write_constant(alloc, cell, out),
        Arg::Var(number) => write_variable(u64::from(*number), out),
    }
}

/// Appends arguments with a comma and a space between them.
fn write_args(alloc: Global, args: &[Arg], out: &mut Vec<u8>) -> Result<(), Memory>
    ensures { OnOk result (out.new.items ≡ out.old.items ++ canon.args_text args.now) }
{
    match args {
        [] => Ok(()),
        [first, rest @ ..] => {
            write_arg(alloc, first, out)?;
            write_further(alloc, rest, out)
        }
    }
}

/// Appends arguments, each after a comma and a space.
fn write_further(alloc: Global, args: &[Arg], out: &mut Vec<u8>) -> Result<(), Memory>
    ensures { OnOk result (out.new.items ≡ out.old.items ++ canon.further_text args.now) }
{
    let mut rest = args;
    'args: while let [arg, more @ ..] = rest {
        write_bytes(b", ", out)?;
        write_arg(alloc, arg, out)?;
        rest = more;
    }
    Ok(())
}

/// Appends the line of an instruction, and returns whether its result is a BAT.
fn write_line(
    alloc: Global,
    bats: &[bool],
    instr: &Instr,
    out: &mut Vec<u8>,
) -> Result<bool, Memory>
    ensures text { OnOk result (out.new.items ≡ out.old.items ++ canon.line_text bats.now instr.now) }
    ensures bat { IfOk result (λ bat. bat ≡ is_bat_result bats.now instr.now) }
{
    let takes_bat = takes_bat(bats, instr.args.as_slice());
    write_start(bats.len(), out)?;
    write_module(takes_bat, instr, out)?;
    write_bytes(b".", out)?;
    write_bytes(function_word(instr.op).as_bytes(), out)?;
    write_bytes(b"(", out)?;
    write_args(alloc, instr.args.as_slice(), out)?;
    write_bytes(b");\n", out)?;
    Ok(instr.op.form().gives_bat(takes_bat))
}

/// Appends the variable that the instruction with this number assigns.
fn write_start(number: usize, out: &mut Vec<u8>) -> Result<(), Memory>
    requires { number < 2 ^ 63 }
    ensures { OnOk result (out.new.items ≡ out.old.items ++ canon.start_text number) }
{
    write_bytes(b"    ", out)?;
    write_variable(number as u64, out)?;
    write_bytes(b" := ", out)
}

/// Appends the module of an instruction.
fn write_module(takes_bat: bool, instr: &Instr, out: &mut Vec<u8>) -> Result<(), Memory>
    ensures { OnOk result (out.new.items ≡ out.old.items ++ canon.module_of takes_bat instr.now.op) }
{
    if instr.op.is_calc() && takes_bat {
        write_bytes(b"batcalc", out)
    } else {
        write_bytes(module_word(instr.op).as_bytes(), out)
    }
}

/// Appends the lines of instructions.
fn write_lines(alloc: Global, instrs: &[Instr], out: &mut Vec<u8>) -> Result<(), Memory>
    ensures { OnOk result (out.new.items ≡ out.old.items ++ canon.lines_text [] instrs.now) }
{
    let mut bats: Vec<bool> = Vec::with_capacity(alloc, instrs.len())?;
    let mut rest = instrs;
    'lines: while let [instr, more @ ..] = rest {
        write_next(alloc, &mut bats, instr, out)?;
        rest = more;
    }
    Ok(())
}

/// Appends the line of an instruction, and notes whether its result is a BAT.
fn write_next(
    alloc: Global,
    bats: &mut Vec<bool>,
    instr: &Instr,
    out: &mut Vec<u8>,
) -> Result<(), Memory>
    ensures { OnOk result ((rest : List InstrSeen) → out.new.items ++ canon.lines_text bats.new.items rest ≡ out.old.items ++ canon.lines_text bats.old.items (instr.now ∷ rest)) }
{
    let bat = write_line(alloc, bats, instr, out)?;
    bats.push(bat)?;
    Ok(())
}

/// Appends the argument of `keep`, where there is one.
fn write_keep(alloc: Global, keep: &Option<Arg>, out: &mut Vec<u8>) -> Result<(), Memory>
    ensures { OnOk result (out.new.items ≡ out.old.items ++ canon.keep_text keep.now) }
{
    let Some(arg) = keep else {
        return Ok(());
    };
    write_bytes(b"    sql.keep(", out)?;
    write_arg(alloc, arg, out)?;
    write_bytes(b");\n", out)
}

/// Appends the keys of the order.
fn write_order(order: &[(u32, bool)], out: &mut Vec<u8>) -> Result<(), Memory>
    ensures { OnOk result (out.new.items ≡ out.old.items ++ flat_map canon.key_text order.now) }
{
    let mut rest = order;
    'keys: while let [key, more @ ..] = rest {
        write_key(*key, out)?;
        rest = more;
    }
    Ok(())
}

fn write_key(key: (u32, bool), out: &mut Vec<u8>) -> Result<(), Memory>
    ensures { OnOk result (out.new.items ≡ out.old.items ++ canon.key_text key) }
{
    write_bytes(b"    sql.order(", out)?;
    write_number(u64::from(key.0) + 1, out)?;
    write_bytes(b", ", out)?;
    write_bit(key.1, out)?;
    write_bytes(b");\n", out)
}

/// Appends the limit, where there is one.
fn write_limit(limit: Option<u64>, out: &mut Vec<u8>) -> Result<(), Memory>
    ensures { OnOk result (out.new.items ≡ out.old.items ++ canon.limit_text limit) }
{
    match limit {
        Some(number) => write_count(number, out),
        None => Ok(()),
    }
}

/// Appends a limit of this many rows.
fn write_count(number: u64, out: &mut Vec<u8>) -> Result<(), Memory>
    ensures { OnOk result (out.new.items ≡ out.old.items ++ canon.limit_text (Some number)) }
{
    write_bytes(b"    sql.limit(", out)?;
    write_number(number, out)?;
    write_bytes(b");\n", out)
}

/// Appends the columns of the output, where there are any.
fn write_cols(alloc: Global, cols: &[Arg], out: &mut Vec<u8>) -> Result<(), Memory>
    ensures { OnOk result (out.new.items ≡ out.old.items ++ canon.cols_text cols.now) }
{
    match cols {
        [] => Ok(()),
        [first, rest @ ..] => write_output(alloc, first, rest, out),
    }
}

/// Appends the columns of the output.
fn write_output(alloc: Global, first: &Arg, rest: &[Arg], out: &mut Vec<u8>) -> Result<(), Memory>
    ensures { OnOk result (out.new.items ≡ out.old.items ++ canon.cols_text (first.now ∷ rest.now)) }
{
    write_bytes(b"    sql.output(", out)?;
    write_arg(alloc, first, out)?;
    write_further(alloc, rest, out)?;
    write_bytes(b");\n", out)
}
