//! Laws about the translation. The calls compute nothing.
ghost use Rattle.rows_to_mal.specs.Laws.{NumbersAreChoices, StatementsKeepRows, UpdatesOverflow, WritePlansRun, WritesAreMeant};

use mal_check::checked_plans_run;

/// Over every valid database that has a checked statement's tables, the instructions of its rows
/// compute the oids of the choices that its condition keeps, in the order of the choices. They have
/// no value exactly where an operator without a column below it overflows in the condition.
pub fn statements_keep_rows()
    ensures { StatementsKeepRows }
{}

/// These choices, given by the numbers of their rows, are those that SQL keeps.
pub fn numbers_are_choices()
    ensures { NumbersAreChoices }
{}

/// Over every valid database that has its table, the plan of a checked DELETE or UPDATE returns,
/// for each row of which the condition is true, the row's oid and the cells of the values that
/// columns are set to. It overflows exactly where an operator without a column below it does in the
/// condition or in one of these values, or another operator of these values does for such a row.
pub fn writes_are_meant()
    ensures { WritesAreMeant }
{}

/// Over such a database that plan has no fault, binds columns of the kinds that it names, and can
/// be run: whatever instruction is reached has arguments that fit it.
pub fn write_plans_run()
    ensures { WritePlansRun }
{
    checked_plans_run();
}

/// Over the rows of its table, the plan of an UPDATE overflows exactly where SQL's effect of the
/// statement does.
pub fn updates_overflow()
    ensures { UpdatesOverflow }
{}
