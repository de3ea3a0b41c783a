//! Laws about the plans of queries. The calls compute nothing.
ghost use Rattle.group_to_mal.specs.Laws.{PlansMeanAnswers, QueryPlansRun};

use mal_check::checked_plans_run;

/// Over every valid database that has a checked query's tables, the meaning of the query's plan is
/// the query's answer, and the plan has none exactly where the query overflows.
pub fn plans_mean_answers()
    ensures { PlansMeanAnswers }
{}

/// Over such a database that plan has no fault, binds columns of the kinds that it names, and can
/// be run: whatever instruction is reached has arguments that fit it.
pub fn query_plans_run()
    ensures { QueryPlansRun }
{
    checked_plans_run();
}
