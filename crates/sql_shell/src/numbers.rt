//! Bounds of the printed numbers of a run, by their types. The calls change nothing.
ghost use Rattle.std.specs.Prelude.{◌<◌, ◌^◌};
ghost use Rattle.std.specs.List.{AllByRecursion};
ghost use Rattle.run_log.specs.Events.{EventTree, act_tree, log_tree};
ghost use Rattle.sql_shell.specs.Numbers.{AreBelow, AreShort, admitted_numbers, count_numbers, looked_numbers, pool_numbers};

use pool_policy::Admitted;
use run_log::{Act, Event, FoundLog, Totals};
use run_sessions::Run;

/// The numbers of the looks, the admissions and the totals of a run are below 2^64, and its work is below
/// 2^128.
pub(crate) fn numbers_are_short(run: &Run)
    ensures { AreShort (log_tree run.now.log.items) run.now.totals }
{
    log_is_short(run.log.as_slice());
    totals_are_short(run.totals);
}

/// The numbers of each look and each admission of a log are below 2^64.
fn log_is_short(log: &[Event])
    ensures { AllByRecursion (λ (event : EventTree). AreBelow (pool_numbers event.act)) (log_tree log.now) }
{
    'events: for event in log {
        act_is_short(&event.act);
    }
}

/// The numbers of a look or an admission are below 2^64.
fn act_is_short(act: &Act)
    ensures { AreBelow (pool_numbers (act_tree act.now)) }
{
    match act {
        Act::Look {
            instr,
            key: _,
            found,
        } => {
            let _instr = *instr;
            finding_is_short(found);
        }
        Act::Admit {
            instr,
            key: _,
            result: answer,
        } => {
            let _instr = *instr;
            answer_is_short(answer);
        }
        Act::Begin { .. } | Act::Write { .. } | Act::End { .. } => {}
    }
}

/// The number of a look's answer is below 2^64.
fn finding_is_short(found: &FoundLog)
    ensures { AreBelow (looked_numbers found.now) }
{
    match found {
        FoundLog::Exact(n) | FoundLog::Within(n) | FoundLog::Across(n) => {
            let _n = *n;
        }
        FoundLog::Miss => {}
    }
}

/// The numbers of an admission's answer are below 2^64.
fn answer_is_short(answer: &Admitted)
    ensures { AreBelow (admitted_numbers answer.now) }
{
    match answer {
        Admitted::Taken { id, bytes, gone } => {
            let _numbers = (*id, *bytes, *gone);
        }
        Admitted::There(n) | Admitted::Stale(n) | Admitted::Orphan(n) | Admitted::NoRoom(n) => {
            let _n = *n;
        }
        Admitted::NoCredit(shape) => {
            let _shape = *shape;
        }
    }
}

/// The counts of totals are below 2^64, and their work is below 2^128.
fn totals_are_short(totals: Totals)
    ensures counts { AreBelow (count_numbers totals) }
    ensures work { totals.work < 2 ^ 128 }
{}
