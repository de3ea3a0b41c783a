//! A crew as the jobs that `flow` runs.
ghost use Rattle.std.specs.Prelude.{◌≡◌, ℕ, ◌++◌, ◌∷◌, [], true, false, IfOk, OnOk, IfSome, IfNone, Some};
ghost use Rattle.bat_core.specs.Objects.{value_of};
ghost use Rattle.dataflow.specs.Plans.{Grows, IsHandedOut, IsIdle, has};
ghost use Rattle.dataflow.specs.Rules.{value_at};
ghost use Rattle.thread_sessions.specs.Crews.{IsSound, basis_of, needed_in, valued_in};

use crate::crew::{Crew, Gone};
use crate::kept::HasOptions;
use crate::runner::Runner;
use bat_core::{Obj, Operate};
use cell_core::Memory;
use dataflow::{Jobs, Task};
use query_keys::instrs_run;
use query_run::Step;
use run_log::Event;
use session_run::{Session, Stage};
use std::snapshot::Snapshot;
use std::sync::Wait;
use std::sync::ledger::Ledger;
use turn_hall::{Hall, Logged};

impl<
    'h,
    'k,
    's,
    V: Logged<Entry = Event>,
    K: HasOptions,
    F: Fn(&mut Runner<V>) -> Result<(), Memory>,
    E: Operate,
    L: Ledger,
> Crew<'h, 'k, 's, V, K, F, E, L> {
    /// The next task that is ready, if any.
    fn next_task<R: Wait>(&mut self, rt: &R) -> Result<Option<Task>, Memory>
        requires { IsSound F.Fn K.options self.old.tools.hall.now self.old.tools.event self.old.runner self.old.tools.began.value self.old.handed.items self.old.finished.items }
        ensures tools { self.new.tools ≡ self.old.tools }
        ensures sound { OnOk result (IsSound F.Fn K.options self.new.tools.hall.now self.new.tools.event self.new.runner self.new.tools.began.value self.new.handed.items self.new.finished.items) }
        ensures grows { OnOk result (Grows (valued_in self.old.runner.session.stage) (valued_in self.new.runner.session.stage)) }
        ensures finished { OnOk result (self.new.finished.items ≡ self.old.finished.items) }
        ensures some { IfOk result (λ found. IfSome found (λ task. IsHandedOut (basis_of self.old.tools.began.value.stage) (valued_in self.new.runner.session.stage) (needed_in self.new.runner.session.stage) self.old.handed.items self.new.handed.items self.new.finished.items task)) }
        ensures none { IfOk result (λ found. IfNone found (self.new.handed.items ≡ self.old.handed.items)) }
        ensures idle { IfOk result (λ found. IfNone found (IsIdle (basis_of self.old.tools.began.value.stage) (valued_in self.new.runner.session.stage) (needed_in self.new.runner.session.stage) self.new.handed.items self.new.finished.items)) }
    {
        instrs_run();
        let mut query = self.runner.take_query();
        'ready: for _ in rt.forever() {
            let Some(n) = query.first_ready() else {
                self.runner.session.stage = Stage::Querying(Step::Open(query));
                return Ok(None);
            };
            match self.tools.go_on(
                &mut self.runner,
                self.steps,
                &mut self.handed,
                self.finished.as_slice(),
                query,
                n,
            )? {
                Gone::On(next) => query = next,
                Gone::Out(next, task) => {
                    self.runner.session.stage = Stage::Querying(Step::Open(next));
                    return Ok(Some(task));
                }
            }
        }
        unreachable!()
    }

    /// Takes in the value of an instruction that was handed out.
    fn take_value(&mut self, instr: u32, value: Obj) -> Result<(), Memory>
        requires sound { IsSound F.Fn K.options self.old.tools.hall.now self.old.tools.event self.old.runner self.old.tools.began.value self.old.handed.items self.old.finished.items }
        requires out { has self.old.handed.items instr ≡ true }
        requires due { has self.old.finished.items instr ≡ false }
        requires value { value_at (basis_of self.old.tools.began.value.stage) instr ≡ Some (value_of value) }
        ensures tools { self.new.tools ≡ self.old.tools }
        ensures sound { OnOk result (IsSound F.Fn K.options self.new.tools.hall.now self.new.tools.event self.new.runner self.new.tools.began.value self.new.handed.items self.new.finished.items) }
        ensures grows { OnOk result (Grows (valued_in self.old.runner.session.stage) (valued_in self.new.runner.session.stage)) }
        ensures valued { OnOk result (valued_in self.new.runner.session.stage instr ≡ true) }
        ensures handed { OnOk result (self.new.handed.items ≡ self.old.handed.items) }
        ensures finished { OnOk result (self.new.finished.items ≡ self.old.finished.items ++ instr ∷ []) }
    {
        let query = self.runner.take_query();
        let query = self
            .tools
            .give(&mut self.runner, query, instr as usize, value)?;
        self.finished.push(instr)?;
        self.runner.session.stage = Stage::Querying(Step::Open(query));
        Ok(())
    }
}

impl<
    'h,
    'k,
    's,
    V: Logged<Entry = Event>,
    K: HasOptions,
    F: Fn(&mut Runner<V>) -> Result<(), Memory>,
    E: Operate,
    L: Ledger,
> Jobs for Crew<'h, 'k, 's, V, K, F, E, L> {
    type Fixed = (Snapshot<Session>, &'h Hall<V>);

    ghost basis = { λ c. basis_of c.tools.began.value.stage };

    ghost fixed = { λ c. (c.tools.began, c.tools.hall) };

    ghost valued = { λ c. valued_in c.runner.session.stage };

    ghost needed = { λ c. needed_in c.runner.session.stage };

    ghost handed = { λ c. c.handed.items };

    ghost finished = { λ c. c.finished.items };

    ghost sound = { λ c. IsSound F.Fn K.options c.tools.hall.now c.tools.event c.runner c.tools.began.value c.handed.items c.finished.items };

    fn instrs(&self) -> u32 {
        self.instrs
    }

    fn next<R: Wait>(&mut self, rt: &R) -> Result<Option<Task>, Memory> {
        self.next_task(rt)
    }

    fn done<R: Wait>(&mut self, rt: &R, instr: u32, value: Obj) -> Result<(), Memory> {
        self.take_value(instr, value)
    }
}
