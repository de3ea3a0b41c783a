//! The program as one call, and its outcome.
ghost use Rattle.std.specs.Prelude.{◌≡◌, ◌≢◌, ◌≤◌, ◌⊎◌, ℕ, List, [], true, length, IfSome, None};
ghost use Rattle.std.specs.Io.KnownBytes.{Appends};
ghost use Rattle.causes.specs.Faults.{AppendsPrefix, Rose};
ghost use Rattle.run_log.specs.Events.{log_tree};
ghost use Rattle.command_line.specs.Command.{command_named, files_of};
ghost use Rattle.sql_shell.specs.Answered.{IsAnswered};
ghost use Rattle.sql_shell.specs.Failures.{status_of, at_of};
ghost use Rattle.sql_shell.specs.Inputs.{HasFailed, HasFailedAt, IsFirstWrong, IsReached, IsToldRight, IsToldWrong};
ghost use Rattle.sql_shell.specs.Ready.{AreReady, IsServedBy};
ghost use Rattle.sql_shell.specs.Served.{is_status};

use crate::begun::{ByTurns, ThreadedRun, top_by_turns};
use crate::produce::{Produced, produce};
use crate::runner::SessionRunner;
use crate::scripts::{CutScript, Failure, STATUS_SERVED, STATUS_UNWRITTEN};
use crate::threaded::serve_in_threads;
use bat_core::Operate;
use causes::{Scripts, Sink, write_all};
use cell_core::{Memory, Sequence, Steps, Word};
use command_line::RunOptions;
use run_log::Event;
use std::alloc::Global;
use std::sync::Wait;
use std::sync::ledger::Ledger;
use std::thread::Threads;

/// The outcome of the program.
#[derive(Drop)]
pub struct Served {
    /// 0: served; 1: the words are outside the grammar; 2: a file can't be read; 3: the answer can't be
    /// written; 4: a file has too many bytes or statements; 5: memory ran out; 6: a file isn't UTF-8; 7: the
    /// schedule has a bad line.
    pub status: u8,
    /// The file that the status is about, from 1 in the order of the words; the schedule is 0. With
    /// status 7 the line of the schedule, from 1. Otherwise 0.
    pub at: u64,
    /// The log of the run, with status 0 and 3; else empty.
    pub log: Sequence<Event>,
    /// The stated work of the run, with status 0 and 3; else 0.
    pub work: u128,
}

/// Does all that the program does. It reads the scripts that the words name, and the schedule of a
/// replay. It runs the scripts as sessions that share tables and a pool of results. It writes the
/// replies, the history of accepted changes, the pool's totals, and the log where it is asked for.
/// Under `run` each session has a thread, as far as threads start, and takes turns with the others
/// at the log; nothing is promised of the counter. Under `replay` the sessions do their events in
/// the order of the schedule. The counter then rises by the work, and beyond it by no more than the
/// loads of the plans that overflow. `generate` replays the sample scripts of a number without
/// turns, and writes the totals alone.
pub fn top<R: Threads + Wait + Sync, S: Scripts, K: Sink, E: Operate + Sync, L: Ledger>(
    rt: &R,
    alloc: Global,
    words: &[Word],
    scripts: &mut S,
    out: &mut K,
    kernel: &E,
    steps: &mut Steps<L>,
) -> Served
    // The headline: what is written is the meaning of the scripts, by the log of this run; for `generate` it is
    // the totals of the log.
    ensures served { result.status ≡ 0 → IfSome (command_named words.now) (λ command.
        (text : List ℕ) × Appends (K.contents out.old) (K.contents out.new) text × IsAnswered (S.bytes_of scripts.old) command text (log_tree result.log) result.work steps.old steps.new) }
    ensures prefix { result.status ≡ 3 → IfSome (command_named words.now) (λ command.
        (text : List ℕ) × AppendsPrefix (K.contents out.old) (K.contents out.new) text × IsAnswered (S.bytes_of scripts.old) command text (log_tree result.log) result.work steps.old steps.new) }

    // When each other status is returned, and what it is about.
    ensures words { command_named words.now ≡ None → (result.status ≡ 1) × (result.at ≡ 0) ⊎ (result.status ≡ 5) }
    ensures other_words { result.status ≡ 1 → command_named words.now ≡ None }
    ensures wrong { (result.status ≡ 4) ⊎ (result.status ≡ 6) ⊎ (result.status ≡ 7) → IfSome (command_named words.now) (λ command.
        IsFirstWrong (S.bytes_of scripts.old) command result.status result.at) }
    ensures found { IfSome (command_named words.now) (λ command. (status at : ℕ)
        → IsToldWrong (S.bytes_of scripts.old) command status at → ¬ HasFailed command (S.faults scripts.old) (S.faults scripts.new) (S.failed_at scripts.new)
        → ((result.status ≡ status) × (result.at ≡ at)) ⊎ (result.status ≡ 5)) }
    ensures read_fault { result.status ≡ 2 → IfSome (command_named words.now) (λ command.
        HasFailedAt command (S.faults scripts.old) (S.faults scripts.new) (S.failed_at scripts.new) result.at) }
    ensures no_fault { result.status ≢ 2 → S.faults scripts.new ≡ S.faults scripts.old }
    ensures reached { result.status ≡ 2 → IfSome (command_named words.now) (λ command. IsReached (S.bytes_of scripts.old) command result.at) }
    ensures write_fault { result.status ≡ 3 → Rose (K.faults out.old) (K.faults out.new) }
    ensures complete { IfSome (command_named words.now) (λ command. IsToldRight (S.bytes_of scripts.old) command
        → ¬ HasFailed command (S.faults scripts.old) (S.faults scripts.new) (S.failed_at scripts.new) → ¬ Rose (K.faults out.old) (K.faults out.new)
        → (result.status ≡ 0) ⊎ (result.status ≡ 5)) }
    ensures known { is_status result.status ≡ true }
    ensures at { (result.status ≡ 0) ⊎ (result.status ≡ 1) ⊎ (result.status ≡ 3) ⊎ (result.status ≡ 5) → result.at ≡ 0 }
    ensures file { IfSome (command_named words.now) (λ command. result.status ≢ 7 → result.at ≤ length (files_of command)) }

    // With another status nothing is written, and there is no log and no work.
    ensures silent { (result.status ≢ 0) → (result.status ≢ 3) → (K.contents out.new ≡ K.contents out.old) × (result.log ≡ []) × (result.work ≡ 0) }

    // No statement is run then. With status 0 and 3 the record of the run has the count.
    ensures idle { (result.status ≢ 0) → (result.status ≢ 3) → (result.status ≢ 5) → steps.new ≡ steps.old }
{
    match top_by_turns(alloc, words, scripts, out, kernel, steps) {
        ByTurns::Answered(served) => served,
        ByTurns::ToRun(run) => {
            let ThreadedRun {
                options,
                workers,
                scripts,
            } = run;
            serve_in_threads(rt, alloc, workers, options, scripts, out, kernel)
        }
    }
}

/// A run that wrote nothing.
pub(crate) fn failed(alloc: Global, failure: Failure) -> Served
    ensures status { result.status ≡ status_of failure }
    ensures at { result.at ≡ at_of failure }
    ensures log { result.log ≡ [] }
    ensures work { result.work ≡ 0 }
{
    Served {
        status: failure.status(),
        at: failure.at(),
        log: Sequence::new(alloc),
        work: 0,
    }
}

/// Runs scripts that were read, and writes what is printed of their run.
pub(crate) fn serve<C: SessionRunner, K: Sink, E: Operate + Sync, L: Ledger>(
    runner: &C,
    alloc: Global,
    options: RunOptions,
    scripts: Vec<CutScript>,
    out: &mut K,
    kernel: &E,
    steps: &mut Steps<L>,
) -> Served
    requires ready { AreReady options scripts.items (C.course runner.now) }
    ensures served { result.status ≡ 0 → (text : List ℕ) × Appends (K.contents out.old) (K.contents out.new) text
        × IsServedBy options scripts.items (C.course runner.now) text (log_tree result.log) result.work steps.old steps.new }
    ensures prefix { result.status ≡ 3 → (text : List ℕ) × AppendsPrefix (K.contents out.old) (K.contents out.new) text
        × IsServedBy options scripts.items (C.course runner.now) text (log_tree result.log) result.work steps.old steps.new }
    ensures write_fault { result.status ≡ 3 → Rose (K.faults out.old) (K.faults out.new) }
    ensures known { (result.status ≡ 0) ⊎ (result.status ≡ 3) ⊎ (result.status ≡ 5) }
    ensures silent { result.status ≡ 5 → (K.contents out.new ≡ K.contents out.old) × (result.log ≡ []) × (result.work ≡ 0) }
    ensures at { result.at ≡ 0 }
{
    match produce(runner, alloc, options, scripts, kernel, steps) {
        Err(Memory) => failed(alloc, Failure::Memory),
        Ok(produced) => hand_out(out, produced),
    }
}

/// Writes what is printed of a run, and returns its log and work.
pub(crate) fn hand_out<K: Sink>(out: &mut K, produced: Produced) -> Served
    ensures served { result.status ≡ 0 → Appends (K.contents out.old) (K.contents out.new) produced.text.items }
    ensures prefix { result.status ≡ 3 → AppendsPrefix (K.contents out.old) (K.contents out.new) produced.text.items }
    ensures write_fault { result.status ≡ 3 → Rose (K.faults out.old) (K.faults out.new) }
    ensures known { (result.status ≡ 0) ⊎ (result.status ≡ 3) }
    ensures at { result.at ≡ 0 }
    ensures log { result.log ≡ produced.log }
    ensures work { result.work ≡ produced.work }
{
    let status = match write_all(out, produced.text.as_slice()) {
        Ok(()) => STATUS_SERVED,
        Err(_) => STATUS_UNWRITTEN,
    };
    Served {
        status,
        at: 0,
        log: produced.log,
        work: produced.work,
    }
}
