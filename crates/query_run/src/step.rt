ghost use Rattle.std.specs.Prelude.{◌≡◌};

use bat_core::{Obj, Shared};
use lineage_key::Key;
use mal_meaning::Plan;
use recycle_pool::{CoverPiece, Found};
use reply_layout::Shown;
use table_store::Snap;

/// A query under way. Its results come in any order in which each has its arguments.
pub struct RunningQuery {
    /// The tables that it sees.
    pub snap: Snap,
    /// The plan by which it is run.
    pub plan: Plan,
    /// Whether each instruction is marked.
    pub marks: Vec<bool>,
    /// The id of each instruction's result, 0 for none.
    pub ids: Vec<u64>,
    /// The result of each instruction, if it has one yet.
    pub values: Vec<Option<Obj>>,
    /// Whether the pool was asked for each instruction's result in vain.
    pub asked: Vec<bool>,
    /// The stated work of those results that aren't marked.
    pub work: u128,
}

// By a call of its own, so that proofs needn't go through its forms where one is dropped.
impl Drop for RunningQuery {
    fn drop(self) {
        let RunningQuery {
            snap: _,
            plan: _,
            marks: _,
            ids: _,
            values: _,
            asked: _,
            work: _,
        } = self;
    }
}

impl RunningQuery {
    /// Its tables, its plan and its marks. The rest is dropped.
    pub(crate) fn into_begun(self) -> (Snap, Plan, Vec<bool>)
        ensures { result ≡ (self.snap, self.plan, self.marks) }
    {
        let RunningQuery {
            snap,
            plan,
            marks,
            ids: _,
            values: _,
            asked: _,
            work: _,
        } = self;
        (snap, plan, marks)
    }

    /// Its plan, its results and its work. The rest is dropped.
    pub(crate) fn into_results(self) -> (Plan, Vec<Option<Obj>>, u128)
        ensures { result ≡ (self.plan, self.values, self.work) }
    {
        let RunningQuery {
            snap: _,
            plan,
            marks: _,
            ids: _,
            values,
            asked: _,
            work,
        } = self;
        (plan, values, work)
    }
}

/// A result that is offered.
#[derive(Drop)]
pub struct Offer {
    /// Its key.
    pub key: Key,
    /// The result.
    pub value: Shared,
    /// The stated work of its instruction.
    pub work: u64,
    /// The stated work by which it was computed. It is less where something was reused.
    pub done: u128,
}

/// The state of a query; instructions are numbered from 0. The query computes in the steps `Begun`,
/// `Open` and `Found`. Each other step has its next event.
#[derive(Drop)]
pub enum Step {
    /// It has begun, and no room is made for its results yet.
    Begun(RunningQuery),
    /// It goes on.
    Open(RunningQuery),
    /// It asks the pool for the result of an instruction, by this key.
    Asking(RunningQuery, usize, Key),
    /// The pool's answer: the entries from which that result can be computed, if any.
    Found(RunningQuery, usize, Found, Vec<CoverPiece>),
    /// It offers the result of an instruction.
    Offering(RunningQuery, usize, Offer),
    /// It ends with this reply; its unmarked instructions took this work.
    Ending(Shown, u128),
}
