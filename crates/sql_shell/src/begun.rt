//! The part of a command that needs no thread.
ghost use Rattle.std.specs.Prelude.{◌≡◌, ◌≢◌, ◌≤◌, ◌⊎◌, ℕ, List, [], true, length, IfSome, None, Some};
ghost use Rattle.std.specs.Io.KnownBytes.{Appends};
ghost use Rattle.causes.specs.Faults.{AppendsPrefix, Rose};
ghost use Rattle.run_log.specs.Events.{log_tree};
ghost use Rattle.command_line.specs.Command.{command_named, files_of};
ghost use Rattle.command_line.specs.declared.command.Command.{Command as CommandSeen};
ghost use Rattle.sql_shell.specs.declared.inputs.Course.TheVariants.{InThreads};
ghost use Rattle.sql_shell.specs.Answered.{IsAnswered};
ghost use Rattle.sql_shell.specs.Begun.{IfAnswered, IfToRun, IsToRun};
ghost use Rattle.sql_shell.specs.Inputs.{HasFailed, HasFailedAt, IsFirstWrong, IsReached, IsToldRight, IsToldWrong};
ghost use Rattle.sql_shell.specs.Ready.{AreReady};
ghost use Rattle.sql_shell.specs.Served.{is_status};

use crate::generate::serve_generated;
use crate::inputs::{Course, Inputs, options_of, read_inputs, seed_of};
use crate::runner::TurnRunner;
use crate::scripts::{CutScript, Failure};
use crate::served::{Served, failed, serve};
use bat_core::Operate;
use causes::{Scripts, Sink};
use cell_core::{Memory, Steps, Word};
use command_line::{RunOptions, command_of};
use std::alloc::Global;
use std::sync::ledger::Ledger;

/// The outcome of a command's part without a thread.
#[derive(Drop)]
pub enum ByTurns {
    /// It is answered.
    Answered(Served),
    /// It is a `run`: its scripts are read, and its sessions are still to be run, in threads.
    ToRun(ThreadedRun),
}

/// A `run` whose scripts are read.
#[derive(Drop)]
pub struct ThreadedRun {
    /// Its options.
    pub(crate) options: RunOptions,
    /// The number of workers of each query.
    pub(crate) workers: u32,
    /// The scripts of its files.
    pub(crate) scripts: Vec<CutScript>,
}

/// Does all that `top` does but a run in threads. It answers every `replay`, every `generate` and
/// every command that ends before its first statement, by the clauses of `top`. A `run` is handed
/// back once its scripts are read. The call returns if its source, its sink and its kernel do: it
/// never waits for others.
pub fn top_by_turns<S: Scripts, K: Sink, E: Operate + Sync, L: Ledger>(
    alloc: Global,
    words: &[Word],
    scripts: &mut S,
    out: &mut K,
    kernel: &E,
    steps: &mut Steps<L>,
) -> ByTurns
    // An answer is that of `top`.
    ensures served { IfAnswered result (λ answer. answer.status ≡ 0 → IfSome (command_named words.now) (λ command.
        (text : List ℕ) × Appends (K.contents out.old) (K.contents out.new) text × IsAnswered (S.bytes_of scripts.old) command text (log_tree answer.log) answer.work steps.old steps.new)) }
    ensures prefix { IfAnswered result (λ answer. answer.status ≡ 3 → IfSome (command_named words.now) (λ command.
        (text : List ℕ) × AppendsPrefix (K.contents out.old) (K.contents out.new) text × IsAnswered (S.bytes_of scripts.old) command text (log_tree answer.log) answer.work steps.old steps.new)) }

    ensures words { IfAnswered result (λ answer. command_named words.now ≡ None → (answer.status ≡ 1) × (answer.at ≡ 0) ⊎ (answer.status ≡ 5)) }
    ensures other_words { IfAnswered result (λ answer. answer.status ≡ 1 → command_named words.now ≡ None) }
    ensures wrong { IfAnswered result (λ answer. (answer.status ≡ 4) ⊎ (answer.status ≡ 6) ⊎ (answer.status ≡ 7) → IfSome (command_named words.now) (λ command.
        IsFirstWrong (S.bytes_of scripts.old) command answer.status answer.at)) }
    ensures found { IfAnswered result (λ answer. IfSome (command_named words.now) (λ command. (status at : ℕ)
        → IsToldWrong (S.bytes_of scripts.old) command status at → ¬ HasFailed command (S.faults scripts.old) (S.faults scripts.new) (S.failed_at scripts.new)
        → ((answer.status ≡ status) × (answer.at ≡ at)) ⊎ (answer.status ≡ 5))) }
    ensures read_fault { IfAnswered result (λ answer. answer.status ≡ 2 → IfSome (command_named words.now) (λ command.
        HasFailedAt command (S.faults scripts.old) (S.faults scripts.new) (S.failed_at scripts.new) answer.at)) }
    ensures no_fault { IfAnswered result (λ answer. answer.status ≢ 2 → S.faults scripts.new ≡ S.faults scripts.old) }
    ensures reached { IfAnswered result (λ answer. answer.status ≡ 2 → IfSome (command_named words.now) (λ command. IsReached (S.bytes_of scripts.old) command answer.at)) }
    ensures write_fault { IfAnswered result (λ answer. answer.status ≡ 3 → Rose (K.faults out.old) (K.faults out.new)) }
    ensures complete { IfAnswered result (λ answer. IfSome (command_named words.now) (λ command. IsToldRight (S.bytes_of scripts.old) command
        → ¬ HasFailed command (S.faults scripts.old) (S.faults scripts.new) (S.failed_at scripts.new) → ¬ Rose (K.faults out.old) (K.faults out.new)
        → (answer.status ≡ 0) ⊎ (answer.status ≡ 5))) }
    ensures known { IfAnswered result (λ answer. is_status answer.status ≡ true) }
    ensures at { IfAnswered result (λ answer. (answer.status ≡ 0) ⊎ (answer.status ≡ 1) ⊎ (answer.status ≡ 3) ⊎ (answer.status ≡ 5) → answer.at ≡ 0) }
    ensures file { IfAnswered result (λ answer. IfSome (command_named words.now) (λ command. answer.status ≢ 7 → answer.at ≤ length (files_of command))) }
    ensures silent { IfAnswered result (λ answer. (answer.status ≢ 0) → (answer.status ≢ 3) → (K.contents out.new ≡ K.contents out.old) × (answer.log ≡ []) × (answer.work ≡ 0)) }
    ensures idle { IfAnswered result (λ answer. (answer.status ≢ 0) → (answer.status ≢ 3) → (answer.status ≢ 5) → steps.new ≡ steps.old) }

    // A returned `run` is the one that the words name, and of it only the reading is done.
    ensures to_run { IfToRun result (λ run. (command : CommandSeen) × (command_named words.now ≡ Some command) × IsToRun (S.bytes_of scripts.old) command run) }
    ensures ready { IfToRun result (λ run. AreReady run.options run.scripts.items (InThreads run.workers)) }
    ensures unfailed { IfToRun result (λ run. S.faults scripts.new ≡ S.faults scripts.old) }
    ensures unwritten { IfToRun result (λ run. out.new ≡ out.old) }
    ensures uncounted { IfToRun result (λ run. steps.new ≡ steps.old) }
{
    let command = match command_of(alloc, words) {
        Ok(Some(command)) => command,
        Ok(None) => return ByTurns::Answered(failed(alloc, Failure::Words)),
        Err(Memory) => return ByTurns::Answered(failed(alloc, Failure::Memory)),
    };
    match seed_of(&command) {
        Some(seed) => ByTurns::Answered(serve_generated(alloc, seed, out, kernel, steps)),
        None => match read_inputs(alloc, scripts, &command) {
            Ok(inputs) => {
                let options = options_of(alloc, command);
                let Inputs {
                    scripts: read,
                    course,
                } = inputs;
                match course {
                    Course::ByTurns(turns) => {
                        let runner = TurnRunner { turns };
                        ByTurns::Answered(serve(&runner, alloc, options, read, out, kernel, steps))
                    }
                    Course::InThreads(workers) => ByTurns::ToRun(ThreadedRun {
                        options,
                        workers,
                        scripts: read,
                    }),
                }
            }
            Err(failure) => ByTurns::Answered(failed(alloc, failure)),
        },
    }
}
