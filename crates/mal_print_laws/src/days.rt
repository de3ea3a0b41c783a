ghost use Rattle.std.specs.Prelude.{◌≡◌, ℕ, ◌^◌, ◌&&◌, Bool, None, nat_lt, true};
ghost use Rattle.std.specs.List.{list_all};
ghost use Rattle.std.specs.Option.{option_map_or};
ghost use Rattle.std.specs.Str.{is_utf8};
ghost use Rattle.cell_core.specs.Calc.{fits_int};
ghost use Rattle.cell_core.specs.declared.operator.Arg.TheVariants.{Const};
ghost use Rattle.cell_core.specs.declared.operator.Instr.{Instr as InstrSeen};
ghost use Rattle.mal_check.specs.Checked.{plan_fault};
ghost use Rattle.mal_print.specs.Canon.{plan_text};
ghost use Rattle.mal_print_laws.specs.PrintedReads as printed;
ghost use Rattle.mal_text.specs.Reads.{ReadsAs};

use cell_core::{Arg, Cell, Instr, Word};
use cell_text::is_printed_day;
use mal_meaning::Plan;

/// Whether each day of a plan is one from 0001-01-01 to 9999-12-31, and so has a text. If so, and
/// if the plan has no fault, its canonical text reads as that plan.
pub fn days_have_text(plan: &Plan) -> bool
    ensures days { result ≡ printed.days_have_text plan.now }
    ensures reads { result ≡ true → plan_fault plan.now ≡ None → ReadsAs (plan_text plan.now) plan.now }
{
    known_counts(plan);
    args_of_plan_have_text(plan)
}

/// Whether each argument of a plan has a text.
fn args_of_plan_have_text(plan: &Plan) -> bool
    ensures days { result ≡ printed.days_have_text plan.now }
    ensures fits { result ≡ true → printed.each_arg printed.fits_kind plan.now ≡ true }
{
    instrs_have_text(plan.instrs.as_slice())
        && keep_has_text(&plan.out.keep)
        && args_have_text(plan.out.cols.as_slice())
}

/// Whether each argument of instructions has a text.
fn instrs_have_text(instrs: &[Instr]) -> bool
    ensures days { result ≡ list_all (λ (i : InstrSeen). list_all printed.is_dated i.args) instrs.now }
    ensures fits { result ≡ true → list_all (λ (i : InstrSeen). list_all printed.fits_kind i.args) instrs.now ≡ true }
{
    let mut rest = instrs;
    'instrs: while let [instr, more @ ..] = rest {
        if !args_have_text(instr.args.as_slice()) {
            return false;
        }
        rest = more;
    }
    true
}

fn args_have_text(args: &[Arg]) -> bool
    ensures days { result ≡ list_all printed.is_dated args.now }
    ensures fits { result ≡ true → list_all printed.fits_kind args.now ≡ true }
{
    let mut rest = args;
    'args: while let [arg, more @ ..] = rest {
        if !arg_has_text(arg) {
            return false;
        }
        rest = more;
    }
    true
}

/// Whether the argument of `keep` has a text, where there is one.
fn keep_has_text(keep: &Option<Arg>) -> bool
    ensures days { result ≡ option_map_or printed.is_dated keep.now true }
    ensures fits { result ≡ true → option_map_or printed.fits_kind keep.now true ≡ true }
{
    match keep {
        Some(arg) => arg_has_text(arg),
        None => true,
    }
}

/// Whether an argument has a text. All but some days have one, since the values are of their types.
fn arg_has_text(arg: &Arg) -> bool
    ensures days { result ≡ printed.is_dated arg.now }
    ensures fits { printed.fits_kind arg.now ≡ true }
{
    match arg {
        Arg::Const(cell) => cell_has_text(cell),
        Arg::Var(_) => true,
    }
}

fn cell_has_text(cell: &Cell) -> bool
    ensures days { result ≡ printed.is_dated (Const cell.now) }
    ensures fits { printed.fits_kind (Const cell.now) ≡ true }
{
    match cell {
        Cell::Day(day) => is_printed_day(*day),
        Cell::Int(number) => {
            known_int(*number);
            true
        }
        Cell::Huge(number) => {
            known_huge(*number);
            true
        }
        Cell::Oid(oid) => {
            known_size(*oid);
            true
        }
        Cell::Text(text) => {
            known_text(text);
            true
        }
        Cell::Nil | Cell::Bit(_) => true,
    }
}

/// A text is one of characters. The calls of this kind compute nothing: they state what is known of
/// the values of a type.
fn known_text(text: &Word)
    ensures { is_utf8 text.now ≡ true }
{
    let _ = text.text();
}

fn known_int(number: i64)
    ensures { fits_int number ≡ true }
{
    let _ = number;
}

fn known_huge(number: i128)
    ensures { printed.is_below_limit (2 ^ 127) number ≡ true }
{
    let _ = number;
}

fn known_size(number: u64)
    ensures { nat_lt number (2 ^ 64) ≡ true }
{
    let _ = number;
}

fn known_place(place: u32)
    ensures { nat_lt place (2 ^ 32) ≡ true }
{
    let _ = place;
}

fn known_places(order: &[(u32, bool)])
    ensures { list_all (λ (key : ℕ × Bool). nat_lt key.0 (2 ^ 32)) order.now ≡ true }
{
    let mut rest = order;
    'keys: while let [key, more @ ..] = rest {
        known_place(key.0);
        rest = more;
    }
}

fn known_limit(limit: Option<u64>)
    ensures { option_map_or (λ n. nat_lt n (2 ^ 64)) limit true ≡ true }
{
    match limit {
        Some(number) => known_size(number),
        None => {}
    }
}

fn known_counts(plan: &Plan)
    ensures { printed.counts_fit plan.now ≡ true }
{
    known_size(plan.instrs.len() as u64);
    known_places(plan.out.order.as_slice());
    known_limit(plan.out.limit);
}

/// Where the days of a plan have a text, all its values are known.
pub(crate) fn known_values(plan: &Plan)
    requires { printed.days_have_text plan.now ≡ true }
    ensures { printed.values_fit plan.now ≡ true }
{
    known_counts(plan);
    let _ = args_of_plan_have_text(plan);
}
