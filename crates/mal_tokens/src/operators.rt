ghost use Rattle.std.specs.Prelude.{◌≡◌, length};
ghost use Rattle.std.specs.List.{find};
ghost use Rattle.cell_core.specs.Places.{operators};
ghost use Rattle.mal_tokens.specs.Operators as words;

use cell_core::Op;

/// The operators, in the order of their table.
pub const OPERATORS: [Op; 35] = [
    Op::Bind,
    Op::Select,
    Op::Semijoin,
    Op::Kdifference,
    Op::Kunion,
    Op::Reverse,
    Op::Mirror,
    Op::MarkT,
    Op::Project,
    Op::Cross,
    Op::Join,
    Op::GroupNew,
    Op::GroupDerive,
    Op::GroupHeads,
    Op::Count,
    Op::Sum,
    Op::Min,
    Op::Max,
    Op::Subcount,
    Op::Subsum,
    Op::Submin,
    Op::Submax,
    Op::Plus,
    Op::Minus,
    Op::Times,
    Op::Eq,
    Op::Ne,
    Op::Lt,
    Op::Le,
    Op::Gt,
    Op::Ge,
    Op::And,
    Op::Or,
    Op::Not,
    Op::IsNil,
];

/// The operator that a module and a function call, if they call one.
#[tactic(auto, unfolding(crate::specs::Operators::op_of))]
pub fn operator(home: &str, function: &str) -> Option<Op>
    ensures { result ≡ words.op_of home.now function.now }
{
    find_operator(&OPERATORS, home, function)
}

fn find_operator(operators: &[Op], home: &str, function: &str) -> Option<Op>
    ensures { result ≡ find (words.is_called home.now function.now) operators.now }
{
    let mut rest = operators;
    'operators: while let [op, more @ ..] = rest {
        if is_called(home, function, *op) {
            return Some(*op);
        }
        rest = more;
    }
    None
}

/// Whether the words call the operator. `calc` and `batcalc` call the same functions.
fn is_called(home: &str, function: &str, op: Op) -> bool
    ensures { result ≡ words.is_called home.now function.now op }
{
    function == function_word(op)
        && (home == module_word(op) || (op.is_calc() && home == "batcalc"))
}

/// The name of an operator's function.
pub fn function_word(op: Op) -> &'static str
    ensures { result.now ≡ words.function_word op }
{
    match op {
        Op::Bind => "bind",
        Op::Select => "select",
        Op::Semijoin => "semijoin",
        Op::Kdifference => "kdifference",
        Op::Kunion => "kunion",
        Op::Reverse => "reverse",
        Op::Mirror => "mirror",
        Op::MarkT => "markT",
        Op::Project => "project",
        Op::Cross => "cross",
        Op::Join => "join",
        Op::GroupNew => "new",
        Op::GroupDerive => "derive",
        Op::GroupHeads => "heads",
        Op::Count => "count",
        Op::Sum => "sum",
        Op::Min => "min",
        Op::Max => "max",
        Op::Subcount => "subcount",
        Op::Subsum => "subsum",
        Op::Submin => "submin",
        Op::Submax => "submax",
        Op::Plus => "plus",
        Op::Minus => "minus",
        Op::Times => "times",
        Op::Eq => "eq",
        Op::Ne => "ne",
        Op::Lt => "lt",
        Op::Le => "le",
        Op::Gt => "gt",
        Op::Ge => "ge",
        Op::And => "and",
        Op::Or => "or",
        Op::Not => "not",
        Op::IsNil => "isnil",
    }
}

/// The module of an operator, which for a function of cells is that of scalars.
pub fn module_word(op: Op) -> &'static str
    ensures { result.now ≡ words.module_word op }
{
    match op {
        Op::Bind => "sql",
        Op::Select
        | Op::Semijoin
        | Op::Kdifference
        | Op::Kunion
        | Op::Reverse
        | Op::Mirror
        | Op::MarkT
        | Op::Project
        | Op::Cross
        | Op::Join => "algebra",
        Op::GroupNew | Op::GroupDerive | Op::GroupHeads => "group",
        Op::Count
        | Op::Sum
        | Op::Min
        | Op::Max
        | Op::Subcount
        | Op::Subsum
        | Op::Submin
        | Op::Submax => "aggr",
        _ => "calc",
    }
}
