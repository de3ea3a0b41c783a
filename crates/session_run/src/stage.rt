use mal_meaning::Plan;
use query_run::Step;
use reply_layout::Shown;
use sql_definitions::Refusal;
use sql_tree::Stmt;

/// What a session does next.
#[derive(Drop)]
pub enum Stage {
    /// It is between two statements, or after the last one.
    Between,
    /// It begins its next statement, whose text has this reading.
    Reading(Result<Stmt, Refusal>),
    /// A query is under way.
    Querying(Step),
    /// An EXPLAIN shows this plan.
    Explaining(Plan),
    /// Its last statement has ended with this reply, which isn't written yet.
    Telling(Shown),
}
