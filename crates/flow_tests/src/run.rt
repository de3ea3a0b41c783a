//! The run of a plan over a database without tables.
ghost use Rattle.std.specs.Prelude.{◌≡◌, [], ◌∷◌, ◌++◌, true, map, Some, None, IfOk, OnOk, IfSome, IsTrue};
ghost use Rattle.std.specs.Option.{option_map};
ghost use Rattle.bat_core.specs.Objects.{value_of};
ghost use Rattle.dataflow.specs.Rules.{value_at};
ghost use Rattle.dataflow.specs.Plans.{has, Grows};
ghost use Rattle.flow_tests.specs.Ready.{ArePassed};
ghost use Rattle.flow_tests.specs.Sound as sound;
ghost use Rattle.mal_exec.specs.Results.{known_of};
ghost use Rattle.flow_tests.specs.Sound.{is_there, is_job, over_nothing, OnlyDone, IsSound, IsRunnable};

use crate::args::{first_left, is_bind, ready};
use bat_core::{Bat, Obj, Shared};
use cell_core::{Arg, Cell, Instr, Memory};
use dataflow::{Jobs, Task};
use mal_check::check_plan;
use mal_meaning::Plan;
use std::alloc::Global;
use std::sync::Wait;

/// The most instructions of a plan that is run here.
const MOST_INSTRS: usize = 1_000_000;

/// A plan that is being run: the values of its instructions so far, the instructions that were
/// handed out, those that are done, and a number before which none is left to hand out.
pub struct PlanRun {
    alloc: Global,
    plan: Plan,
    values: Vec<Option<Obj>>,
    handed: Vec<u32>,
    finished: Vec<u32>,
    first: usize,
    ghost passed: { ArePassed plan.instrs handed.items first },
    ghost sound: { IsSound plan values.items handed.items finished.items },
}

// By a call of its own, so that proofs needn't go through its forms where one is dropped.
impl Drop for PlanRun {
    fn drop(self) {
        let PlanRun {
            alloc: _,
            plan: _,
            values: _,
            handed: _,
            finished: _,
            first: _,
        } = self;
    }
}

/// Whether the arguments are three texts, like those of a bind.
fn is_column(args: &[Arg]) -> bool
    ensures { result ≡ sound.is_column args.now }
{
    matches!(
        args,
        [
            Arg::Const(Cell::Text(_table)),
            Arg::Const(Cell::Text(_column)),
            Arg::Const(Cell::Text(_kind)),
        ]
    )
}

/// Whether an instruction is no bind, or one that names a column.
fn is_known(instr: &Instr) -> bool
    ensures { result ≡ sound.is_known instr.now }
{
    !is_bind(instr.op) || is_column(instr.args.as_slice())
}

/// Whether each bind names a column.
fn are_known(instrs: &[Instr]) -> bool
    ensures { IsTrue result → sound.are_known instrs.now ≡ true }
{
    'instrs: for i in 0..instrs.len() {
        if !is_known(&instrs[i]) {
            return false;
        }
    }
    true
}

/// The value with which an instruction begins.
fn start_value(alloc: Global, instr: &Instr) -> Result<Option<Obj>, Memory>
    ensures { IfOk result (λ value. option_map value_of value ≡ sound.start_value instr.now) }
{
    if !is_bind(instr.op) {
        return Ok(None);
    }
    let column = Shared::new(alloc, Bat::new(alloc))?;
    Ok(Some(Obj::Bat(column)))
}

/// The values with which a plan begins.
fn start_values(alloc: Global, instrs: &[Instr]) -> Result<Vec<Option<Obj>>, Memory>
    ensures { IfOk result (λ values. known_of values.items ≡ map sound.start_value instrs.now) }
{
    let mut values = Vec::with_capacity(alloc, instrs.len())?;
    let mut rest = instrs;
    'rest: while let [instr, more @ ..] = rest {
        values.push(start_value(alloc, instr)?)?;
        rest = more;
    }
    Ok(values)
}

/// A run of a plan that hasn't begun.
fn begin(alloc: Global, plan: Plan, values: Vec<Option<Obj>>) -> PlanRun
    requires runnable { IsRunnable plan }
    requires begun { known_of values.items ≡ map sound.start_value plan.instrs }
    ensures plan { result.plan ≡ plan }
    ensures handed { result.handed.items ≡ [] }
    ensures finished { result.finished.items ≡ [] }
    ensures only_done { OnlyDone result.plan.instrs result.values.items result.finished.items }
{
    PlanRun {
        alloc,
        plan,
        values,
        handed: Vec::new(alloc),
        finished: Vec::new(alloc),
        first: 0,
    }
}

impl PlanRun {
    ghost use Rattle.dataflow.specs.Plans.{NoneOut};

    /// A run of a plan that hasn't begun; none where the plan has a fault.
    pub fn new(alloc: Global, plan: Plan) -> Result<Option<PlanRun>, Memory>
        ensures none_out { IfOk result (λ found. IfSome found (λ run. NoneOut run.handed.items run.finished.items)) }
        ensures only_done { IfOk result (λ found. IfSome found (λ run. OnlyDone run.plan.instrs run.values.items run.finished.items)) }
    {
        if plan.instrs.len() > MOST_INSTRS || !are_known(plan.instrs.as_slice()) {
            return Ok(None);
        }
        if check_plan(alloc, &plan).is_err() {
            return Ok(None);
        }
        let values = start_values(alloc, plan.instrs.as_slice())?;
        Ok(Some(begin(alloc, plan, values)))
    }

    /// The values so far, instruction by instruction.
    pub fn values(&self) -> &[Option<Obj>] {
        self.values.as_slice()
    }

    /// Keeps a value.
    fn put(&mut self, instr: u32, value: Obj) -> Result<(), Memory>
        requires out { has self.old.handed.items instr ≡ true }
        requires value { value_at (over_nothing self.old.plan) instr ≡ Some (value_of value) }
        requires only_done { OnlyDone self.old.plan.instrs self.old.values.items self.old.finished.items }
        ensures plan { self.new.plan ≡ self.old.plan }
        ensures handed { self.new.handed.items ≡ self.old.handed.items }
        ensures finished { OnOk result (self.new.finished.items ≡ self.old.finished.items ++ instr ∷ []) }
        ensures grows { Grows (is_there self.old.values.items) (is_there self.new.values.items) }
        ensures there { OnOk result (is_there self.new.values.items instr ≡ true) }
        ensures only_done { OnOk result (OnlyDone self.new.plan.instrs self.new.values.items self.new.finished.items) }
    {
        if instr as usize >= self.values.len() {
            return Err(Memory);
        }
        self.finished.push(instr)?;
        self.values[instr as usize] = Some(value);
        Ok(())
    }
}

impl Jobs for PlanRun {
    type Fixed = ();

    ghost basis = { λ r. over_nothing r.plan };

    ghost fixed = { λ r. tt };

    ghost valued = { λ r. is_there r.values.items };

    ghost needed = { λ r. is_job r.plan.instrs };

    ghost handed = { λ r. r.handed.items };

    ghost finished = { λ r. r.finished.items };

    ghost sound = { λ r. OnlyDone r.plan.instrs r.values.items r.finished.items };

    fn instrs(&self) -> u32 {
        self.plan.instrs.len() as u32
    }

    fn next<R: Wait>(&mut self, _rt: &R) -> Result<Option<Task>, Memory> {
        let instrs = self.plan.instrs.as_slice();
        self.first = first_left(instrs, self.handed.as_slice(), self.first);
        let Some(task) = ready(
            self.alloc,
            instrs,
            self.values.as_slice(),
            self.handed.as_slice(),
            self.first,
        )?
        else {
            return Ok(None);
        };
        self.handed.push(task.instr)?;
        Ok(Some(task))
    }

    fn done<R: Wait>(&mut self, _rt: &R, instr: u32, value: Obj) -> Result<(), Memory> {
        self.put(instr, value)
    }
}
