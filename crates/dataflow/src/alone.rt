//! The caller without workers: it runs the tasks itself, one after another.
ghost use Rattle.std.specs.Prelude.{◌≡◌, [], Err, OnOk, IfOk, IfSome, IfNone};
ghost use Rattle.cell_core.specs.declared.memory.RunError.TheVariants as RunError;
ghost use Rattle.dataflow.specs.Plans.{IsComplete, HasFault};
ghost use Rattle.dataflow.specs.Leads.{KnowsOut, IsPairOf};

use crate::basis::HasBasis;
use crate::jobs::Jobs;
use crate::pending::{run_here, take};
use crate::task::Pair;
use bat_core::Operate;
use cell_core::RunError;
use std::alloc::Global;
use std::sync::Wait;

/// Runs tasks until all is done.
#[tactic(auto, using(crate::proofs::LeadLemmas::without_one))]
pub(crate) fn run_alone<K: HasBasis, R: Wait, J: Jobs, E: Operate>(
    rt: &R,
    alloc: Global,
    jobs: &mut J,
    kernel: &E,
    out: &mut Vec<u32>,
) -> Result<(), RunError>
    requires named { J.basis jobs.old ≡ K.basis }
    requires known { KnowsOut (J.handed jobs.old) (J.finished jobs.old) out.old.items }
    requires sound { J.sound jobs.old }
    requires none { out.old.items ≡ [] }
    ensures basis { J.basis jobs.new ≡ J.basis jobs.old }
    ensures fixed { J.fixed jobs.new ≡ J.fixed jobs.old }
    ensures sound { OnOk result (J.sound jobs.new) }
    ensures complete { OnOk result (IsComplete (J.basis jobs.new) (J.valued jobs.new) (J.needed jobs.new) (J.handed jobs.new) (J.finished jobs.new)) }
    ensures overflow { result ≡ Err RunError.Overflow → HasFault (J.basis jobs.new) (J.handed jobs.new) }
    ensures sound_after_overflow { result ≡ Err RunError.Overflow → J.sound jobs.new }
{
    'steps: for _ in rt.forever() {
        let Some(task) = take(rt, jobs, out)? else {
            return Ok(());
        };
        run_here::<K, R, J, E>(rt, alloc, jobs, kernel, out, task)?;
    }
    unreachable!()
}

/// Runs tasks for as long as one alone is ready. Returns the first two that are ready at once, and
/// none where all is done.
#[tactic(auto, using(crate::proofs::LeadLemmas::without_one))]
pub(crate) fn run_until_two<K: HasBasis, R: Wait, J: Jobs, E: Operate>(
    rt: &R,
    alloc: Global,
    jobs: &mut J,
    kernel: &E,
    out: &mut Vec<u32>,
) -> Result<Option<Pair>, RunError>
    requires named { J.basis jobs.old ≡ K.basis }
    requires known { KnowsOut (J.handed jobs.old) (J.finished jobs.old) out.old.items }
    requires sound { J.sound jobs.old }
    requires none { out.old.items ≡ [] }
    ensures basis { J.basis jobs.new ≡ J.basis jobs.old }
    ensures fixed { J.fixed jobs.new ≡ J.fixed jobs.old }
    ensures sound { OnOk result (J.sound jobs.new) }
    ensures known { OnOk result (KnowsOut (J.handed jobs.new) (J.finished jobs.new) out.new.items) }
    ensures pair { IfOk result (λ found. IfSome found (λ pair. IsPairOf K.basis pair out.new.items)) }
    ensures complete { IfOk result (λ found. IfNone found (IsComplete (J.basis jobs.new) (J.valued jobs.new) (J.needed jobs.new) (J.handed jobs.new) (J.finished jobs.new))) }
    ensures overflow { result ≡ Err RunError.Overflow → HasFault (J.basis jobs.new) (J.handed jobs.new) }
    ensures sound_after_overflow { result ≡ Err RunError.Overflow → J.sound jobs.new }
{
    'steps: for _ in rt.forever() {
        let Some(first) = take(rt, jobs, out)? else {
            return Ok(None);
        };
        if let Some(second) = take(rt, jobs, out)? {
            return Ok(Some(Pair { first, second }));
        }
        run_here::<K, R, J, E>(rt, alloc, jobs, kernel, out, first)?;
    }
    unreachable!()
}

/// Runs two tasks that are out, and then all others.
#[tactic(auto, using(crate::proofs::LeadLemmas::without_two))]
pub(crate) fn run_pair_alone<K: HasBasis, R: Wait, J: Jobs, E: Operate>(
    rt: &R,
    alloc: Global,
    jobs: &mut J,
    kernel: &E,
    out: &mut Vec<u32>,
    pair: Pair,
) -> Result<(), RunError>
    requires named { J.basis jobs.old ≡ K.basis }
    requires known { KnowsOut (J.handed jobs.old) (J.finished jobs.old) out.old.items }
    requires sound { J.sound jobs.old }
    requires pair { IsPairOf K.basis pair out.old.items }
    ensures basis { J.basis jobs.new ≡ J.basis jobs.old }
    ensures fixed { J.fixed jobs.new ≡ J.fixed jobs.old }
    ensures sound { OnOk result (J.sound jobs.new) }
    ensures complete { OnOk result (IsComplete (J.basis jobs.new) (J.valued jobs.new) (J.needed jobs.new) (J.handed jobs.new) (J.finished jobs.new)) }
    ensures overflow { result ≡ Err RunError.Overflow → HasFault (J.basis jobs.new) (J.handed jobs.new) }
    ensures sound_after_overflow { result ≡ Err RunError.Overflow → J.sound jobs.new }
{
    let Pair { first, second } = pair;
    run_here::<K, R, J, E>(rt, alloc, jobs, kernel, out, first)?;
    run_here::<K, R, J, E>(rt, alloc, jobs, kernel, out, second)?;
    run_alone::<K, R, J, E>(rt, alloc, jobs, kernel, out)
}
