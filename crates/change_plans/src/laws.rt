//! Laws about the plans of DELETE and UPDATE. The calls compute nothing.
ghost use Rattle.change_plans.specs.Laws.{DecisionsAreInPlace, DecisionsAreMeant, PlansGiveHits, WritesGiveHits};

use rows_to_mal::{updates_overflow, writes_are_meant};

/// Over a table, the plan of a DELETE or an UPDATE returns the rows of which the condition is true,
/// each by its oid and its new cells, in the order of the table. It overflows where the condition
/// does, or an expression for such a row.
pub fn plans_give_hits()
    ensures { PlansGiveHits }
{
    updates_overflow();
}

/// The same holds for the plan of each checked DELETE and UPDATE over every valid database that has
/// its table.
pub fn writes_give_hits()
    ensures { WritesGiveHits }
{
    writes_are_meant();
    plans_give_hits();
}

/// The rows of its plan over a table alone decide a DELETE or an UPDATE as SQL says: these rows are
/// deleted, or get these cells, or the change is refused.
pub fn decisions_are_meant()
    ensures { DecisionsAreMeant }
{}

/// This decision touches rows that exist, in the order of the table, and has one cell for each
/// column that is set.
pub fn decisions_are_in_place()
    ensures { DecisionsAreInPlace }
{}
