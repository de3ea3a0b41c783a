//! Tasks and answers, which go through the queues.

use crate::ready::Job;
use bat_core::Obj;
use cell_core::RunError;

/// An instruction of a plan, by its number, as a job.
pub struct Task {
    pub instr: u32,
    pub job: Job,
}

// By a call of its own, so that proofs needn't go through its forms where one is dropped.
impl Drop for Task {
    fn drop(self) {
        let Task { instr: _, job: _ } = self;
    }
}

/// Two tasks that are ready at once.
#[derive(Drop)]
pub(crate) struct Pair {
    pub first: Task,
    pub second: Task,
}

/// The answer to a task: the value of its instruction, or why there is none.
#[derive(Drop)]
pub(crate) struct Answer {
    pub instr: u32,
    pub result: Result<Obj, RunError>,
}
