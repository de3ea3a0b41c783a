//! Runners of sessions, and the one that runs them by turns on one thread.
ghost use Rattle.std.specs.Prelude.{◌≡◌, ◌≤◌, ◌^◌, ℕ, List, length, map, IfOk};
ghost use Rattle.std.specs.declared.vec.Vec.{Vec as VecSeen};
ghost use Rattle.std.specs.declared.alloc.Global.{Global as GlobalSeen};
ghost use Rattle.std.specs.List.{AllByRecursion};
ghost use Rattle.run_log.specs.Events.{EventTree, log_tree};
ghost use Rattle.pool_sound.specs.Sound.{IsSoundAlong};
ghost use Rattle.session_run.specs.Work.{run_totals};
ghost use Rattle.run_sessions.specs.Tables.{AreTexts};
ghost use Rattle.sql_shell.specs.declared.inputs.Course.{Course as CourseSeen};
ghost use Rattle.sql_shell.specs.declared.inputs.Course.TheVariants.{ByTurns};
ghost use Rattle.sql_shell.specs.Inputs.{AreTurnsOf};
ghost use Rattle.sql_shell.specs.Served.{IsMade};
ghost use Rattle.pool_policy.specs.Scorers.{IsScorerOf};

use bat_core::Operate;
use cell_core::{Memory, Sequence, Steps, Word};
use pool_policy::PoolOptions;
use run_sessions::{Run, play_sessions};
use score_hook::Scorer;
use std::alloc::Global;
use std::sync::ledger::Ledger;

/// A way to run sessions. A runner whose type has no handle for waiting returns if the kernel does.
pub trait SessionRunner {
    // The course that they take.
    ghost course: { Self → CourseSeen };

    /// Runs sessions, one for each script, that share a pool of these options.
    fn run_scripts<E: Operate + Sync, L: Ledger>(
        &self,
        alloc: Global,
        scripts: Vec<Sequence<Word>>,
        pool: PoolOptions,
        scorer: &Scorer,
        kernel: &E,
        steps: &mut Steps<L>,
    ) -> Result<Run, Memory>
        requires few { length scripts.items ≤ 16 }
        requires short { AllByRecursion (λ (pieces : List (List ℕ)). length pieces ≤ 256) scripts.items }
        requires turns { AreTurnsOf (length scripts.items) (course self.now) }
        requires scorer { IsScorerOf scorer.now.kind scorer.now.weights.items pool }
        requires places { pool.places ≤ 1024 }
        requires budget { pool.budget ≤ 2 ^ 40 }
        ensures made { IfOk result (λ run. IsMade pool scripts.items (course self.now) (log_tree run.log.items) steps.old steps.new) }
        ensures sessions { IfOk result (λ run. AllByRecursion (λ (event : EventTree). (1 ≤ event.session) × (event.session ≤ length scripts.items)) (log_tree run.log.items)) }
        ensures sound { IfOk result (λ run. IsSoundAlong pool (log_tree run.log.items)) }
        ensures texts { IfOk result (λ run. AreTexts (log_tree run.log.items) 1 scripts.items (map (λ (text : VecSeen ℕ GlobalSeen). text.items) run.texts.items)) }
        ensures totals { IfOk result (λ run. run.totals ≡ run_totals pool (log_tree run.log.items)) };
}

/// Runs sessions by these turns, on the calling thread.
#[derive(Drop)]
pub struct TurnRunner {
    /// The turns, each the number of a session.
    pub turns: Sequence<u32>,
}

impl SessionRunner for TurnRunner {
    ghost course = { λ s. ByTurns s.turns };

    fn run_scripts<E: Operate + Sync, L: Ledger>(
        &self,
        alloc: Global,
        scripts: Vec<Sequence<Word>>,
        pool: PoolOptions,
        scorer: &Scorer,
        kernel: &E,
        steps: &mut Steps<L>,
    ) -> Result<Run, Memory> {
        play_sessions(
            alloc,
            scripts,
            self.turns.as_slice(),
            pool,
            scorer,
            kernel,
            steps,
        )
    }
}
