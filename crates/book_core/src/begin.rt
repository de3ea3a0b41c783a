ghost use Rattle.std.specs.Prelude.{◌≡◌, ◌<◌, [], ◌∷◌, ◌++◌, Some, None, IfOk, OnErr};
ghost use Rattle.mal_check.specs.Checked.{plan_fault};
ghost use Rattle.mal_check.specs.Runnable.{FitsDb};
ghost use Rattle.mal_meaning.specs.Meaning.{plan_rows};
ghost use Rattle.mal_meaning.specs.Runs.{Runs};
ghost use Rattle.plan_queries.specs.Plans.{plan_over, refusal_over};
ghost use Rattle.sql_grammar.specs.Formed.{IsFormed};
ghost use Rattle.sql_definitions.specs.Answer.{answer_of_stmt, query_of};
ghost use Rattle.sql_tree.specs.Tree.{query_tree, stmt_tree};
ghost use Rattle.book_core.specs.Begins.{begin_act, marks_in, unless_refused};
ghost use Rattle.book_core.specs.BookView.{event_of, now_of, state_of};
ghost use Rattle.book_core.specs.Versions.{HasVersions};

use crate::book::Book;
use crate::events::{count_event, event, make_room, push_event};
use crate::planning::{code_of, marks_of_outcome, plan_or_refusal, plan_to_log};
use cell_core::Memory;
use mal_meaning::Plan;
use pool_policy::Who;
use run_log::Act;
use sql_definitions::Refusal;
use sql_tree::{Query, Stmt};
use std::alloc::Global;
use table_store::Snap;

/// What a query begins with.
pub struct Begun {
    /// The position of its Begin, from 1.
    pub at: u64,
    /// The tables that it sees.
    pub snap: Snap,
    /// Its plan, or its refusal by the tables.
    pub plan: Result<Plan, Refusal>,
    /// Whether each instruction of the plan is marked; none where it is refused.
    pub marks: Vec<bool>,
}

// By a call of its own, so that proofs needn't go through its forms where one is dropped.
impl Drop for Begun {
    fn drop(self) {
        let Begun {
            at: _,
            snap: _,
            plan: _,
            marks: _,
        } = self;
    }
}

impl Begun {
    /// Its plan or refusal. The rest is dropped.
    pub fn into_plan(self) -> Result<Plan, Refusal>
        ensures { result ≡ self.plan }
    {
        let Begun {
            at: _,
            snap: _,
            plan,
            marks: _,
        } = self;
        plan
    }

    /// Its tables, its plan or refusal, and its marks.
    pub fn into_parts(self) -> (Snap, Result<Plan, Refusal>, Vec<bool>)
        ensures { result ≡ (self.snap, self.plan, self.marks) }
    {
        let Begun {
            at: _,
            snap,
            plan,
            marks,
        } = self;
        (snap, plan, marks)
    }
}

impl Book {
    /// Begins a query: it is checked, translated and optimised over the present tables, and gets a
    /// snapshot of them. The plan fits these tables, and its meaning over them is the query's
    /// answer. From then on there is room for its End; there is room for its looks and admissions,
    /// too, until other sessions' events use it. `stmt` is its statement.
    pub fn begin(
        &mut self,
        alloc: Global,
        who: Who,
        stmt: &Stmt,
        query: &Query,
    ) -> Result<Begun, Memory>
        requires session { who.session < 17 }
        requires query { query_of (stmt_tree stmt.now) ≡ Some (query_tree query.now) }
        requires formed { IsFormed (stmt_tree stmt.now) }
        ensures options { self.new.options ≡ self.old.options }
        ensures plan { IfOk result (λ begun. begun.plan ≡ unless_refused (refusal_over (state_of self.old).db (stmt_tree stmt.now)) (plan_over (state_of self.old).db (query_tree query.now))) }
        ensures logged { IfOk result (λ begun. self.new.log ≡ self.old.log ++ event_of who (begin_act (stmt_tree stmt.now) begun.plan) ∷ []) }
        ensures at { IfOk result (λ begun. begun.at ≡ now_of self.old) }
        ensures tables { IfOk result (λ begun. begun.snap.db ≡ (state_of self.old).db) }
        ensures versions { IfOk result (λ begun. HasVersions (state_of self.old).versions begun.snap) }
        ensures marks { IfOk result (λ begun. begun.marks.items ≡ marks_in begun.plan) }
        ensures checked { IfOk result (λ begun. IfOk begun.plan (λ plan. plan_fault plan ≡ None)) }
        ensures fits { IfOk result (λ begun. IfOk begun.plan (λ plan. FitsDb plan (state_of self.old).db)) }
        ensures runs { IfOk result (λ begun. IfOk begun.plan (λ plan. Runs plan (state_of self.old).db)) }
        ensures meaning { IfOk result (λ begun. IfOk begun.plan (λ plan. plan_rows plan (state_of self.old).db ≡ answer_of_stmt (stmt_tree stmt.now) (state_of self.old).db)) }
        ensures same { OnErr result (self.new ≡ self.old) }
    {
        let snap = self.store.snapshot(alloc)?;
        let plan = plan_or_refusal(alloc, &self.store, stmt, query)?;
        let marks = marks_of_outcome(alloc, &plan)?;
        let act = Act::Begin {
            code: code_of(&plan),
            plan: plan_to_log(alloc, stmt, &plan)?,
        };
        // Each marked instruction may add a look, an admission and a shape.
        let marked = u32::try_from(marks.len()).map_err(|_| Memory)?;
        self.pool.reserve(u64::from(marked))?;
        make_room(&mut self.log, marked)?;
        let at = self.log.len() as u64 + 1;
        count_event(&mut self.totals, &self.pool);
        self.begun[who.session as usize] = true;
        let _ = push_event(&mut self.log, event(who, act));
        Ok(Begun {
            at,
            snap,
            plan,
            marks,
        })
    }
}
