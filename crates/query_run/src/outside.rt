//! The work of a query before its next event.
ghost use Rattle.std.specs.Prelude.{IfOk};
ghost use Rattle.query_run.specs.Steps.{Computes, Counted, IsSoundStep};

use crate::step::Step;
use bat_core::Operate;
use cell_core::{Memory, Steps};
use std::alloc::Global;
use std::sync::ledger::Ledger;

impl Step {
    /// Computes up to the next event, in the order of the plan. The counter rises by the work that
    /// is done; where the plan overflows, by at most its load more.
    pub fn outside<E: Operate, L: Ledger>(
        self,
        alloc: Global,
        kernel: &E,
        steps: &mut Steps<L>,
    ) -> Result<Step, Memory>
        requires { IsSoundStep self }
        ensures step { IfOk result (Computes self) }
        ensures counted { IfOk result (λ next. Counted self next steps.old steps.new) }
    {
        match self {
            Step::Begun(query) => query.open(alloc)?.walk(alloc, kernel, steps),
            Step::Open(query) => query.walk(alloc, kernel, steps),
            Step::Found(query, n, found, parts) => {
                query.reuse(alloc, n, found, parts, kernel, steps)
            }
            ready => Ok(ready),
        }
    }
}
