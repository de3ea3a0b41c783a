//! Conditions over a choice of rows.
ghost use Rattle.std.specs.Prelude.{◌≡◌, IfOk};
ghost use Rattle.std.specs.List.{list_any};
ghost use Rattle.std.specs.Option.{option_map};
ghost use Rattle.sql_tree.specs.Exprs.{cond_exprs};
ghost use Rattle.sql_tree.specs.Tree.{cond_tree};
ghost use Rattle.sql_definitions.specs.Kept.{cond_overflows as cond_overflows_of, is_kept as is_kept_of};
ghost use Rattle.sql_definitions.specs.Values.{constant_overflows as constant_overflows_of};

use crate::row::LentRow;
use crate::scope::{Scope, holds};
use crate::value::constant_overflows;
use cell_core::Memory;
use sql_definitions::Called;
use sql_tree::Cond;
use std::alloc::Global;

/// Whether a condition is true of a choice, or there is no condition.
pub fn is_kept(
    alloc: Global,
    sources: &[Called<'_>],
    cond: &Option<Cond>,
    choice: &[LentRow<'_>],
) -> Result<bool, Memory>
    ensures { IfOk result (λ kept. kept ≡ is_kept_of sources.now (option_map cond_tree cond.now) choice.now) }
{
    holds(alloc, sources, &Scope::Choice(choice), cond)
}

/// Whether arithmetic over constants alone leaves the range in a condition.
#[tactic(auto, using(crate::proofs::ListLemmas::any_in_both))]
fn tree_overflows(cond: &Cond) -> Result<bool, Memory>
    ensures { IfOk result (λ overflows. overflows ≡ list_any constant_overflows_of (cond_exprs (cond_tree cond.now))) }
{
    match cond {
        Cond::Cmp { left, right, .. } => {
            Ok(constant_overflows(left)? || constant_overflows(right)?)
        }
        Cond::Between { of, low, high } => {
            Ok(constant_overflows(of)? || constant_overflows(low)? || constant_overflows(high)?)
        }
        Cond::IsNull(of) => constant_overflows(of),
        Cond::Not(cond) => tree_overflows(cond),
        Cond::And(left, right) => Ok(tree_overflows(left)? || tree_overflows(right)?),
        Cond::Or(left, right) => Ok(tree_overflows(left)? || tree_overflows(right)?),
    }
}

/// Whether arithmetic over constants alone leaves the range in a condition, where there is one.
pub fn cond_overflows(cond: &Option<Cond>) -> Result<bool, Memory>
    ensures { IfOk result (λ overflows. overflows ≡ cond_overflows_of (option_map cond_tree cond.now)) }
{
    match cond {
        Some(cond) => tree_overflows(cond),
        None => Ok(false),
    }
}
