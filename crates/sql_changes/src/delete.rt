//! DELETE.
ghost use Rattle.std.specs.Prelude.{◌≡◌, map, IfOk};
ghost use Rattle.std.specs.Option.{option_map};
ghost use Rattle.sql_tree.specs.Tree.{cond_tree};
ghost use Rattle.sql_definitions.specs.Effect.{deleted};
ghost use Rattle.sql_changes.specs.Plans.{change_of};
ghost use Rattle.sql_changes.specs.Parts.{deleted_fate};

use crate::fate::Fate;
use crate::hits::is_true_of;
use crate::plan::{PlannedChange, Work};
use cell_core::{Memory, Sequence, Table};
use row_values::{LentRow, cond_overflows};
use sql_definitions::Refusal;
use sql_tree::Cond;
use std::alloc::Global;

/// The fate of each row, where the condition doesn't overflow.
fn fates_of_rows(
    alloc: Global,
    cond: &Option<Cond>,
    table: &Table,
) -> Result<Sequence<Fate>, Memory>
    ensures { IfOk result (λ fates. fates ≡ map (deleted_fate (option_map cond_tree cond.now) table.now) table.now.rows) }
{
    let mut fates = Sequence::new(alloc);
    let mut rest = table.rows.as_slice();
    'rows: while let [row, more @ ..] = rest {
        let goes = is_true_of(alloc, table, cond, &LentRow::new(row))?;
        fates.push(if goes { Fate::Goes } else { Fate::Stays })?;
        rest = more;
    }
    Ok(fates)
}

/// What a DELETE is to do to a table.
pub(crate) fn delete_plan(
    alloc: Global,
    cond: &Option<Cond>,
    table: &Table,
) -> Result<PlannedChange, Memory>
    ensures { IfOk result (λ plan. change_of plan table.now.rows ≡ deleted (option_map cond_tree cond.now) table.now) }
{
    if cond_overflows(cond)? {
        return Ok(PlannedChange::Refused(Refusal::Overflow));
    }
    let fates = fates_of_rows(alloc, cond, table)?;
    Ok(PlannedChange::Accepted(Work::Settles(fates)))
}
