//! The events of a query: looks and admissions in the book.
ghost use Rattle.std.specs.Prelude.{◌≡◌, ◌+◌, ◌<◌, [], ◌∷◌, ◌++◌, length, IfOk, OnOk, OnErr};
ghost use Rattle.bat_core.specs.declared.shared.Obj.TheVariants as obj;
ghost use Rattle.pool_policy.specs.Admits.{admit_of};
ghost use Rattle.pool_policy.specs.Looks.{look_of};
ghost use Rattle.pool_policy.specs.Scorers.{IsScorerOf};
ghost use Rattle.run_log.specs.declared.event.Act.TheVariants as act;
ghost use Rattle.run_log.specs.Events.{looked_of};
ghost use Rattle.run_log.specs.Fold.{key_offer};
ghost use Rattle.query_keys.specs.Laws.{id_given as given_by};
ghost use Rattle.book_core.specs.BookView.{event_of, now_of, state_of};
ghost use Rattle.book_core.specs.Offers.{CanOffer};
ghost use Rattle.query_run.specs.Queries.{HasGained, IsLooked, IsUnderWay};
ghost use Rattle.query_run.specs.declared.step.RunningQuery.{RunningQuery as QuerySeen};
ghost use Rattle.query_run.specs.declared.step.Step.TheVariants as step;

use crate::query::id_given;
use crate::step::{Offer, RunningQuery, Step};
use bat_core::Obj;
use book_core::Book;
use cell_core::Memory;
use lineage_key::Key;
use pool_policy::Who;
use recycle_pool::Found;
use score_hook::Scorer;
use std::alloc::Global;

impl RunningQuery {
    /// Asks the pool for the result of an instruction, by its key.
    pub fn ask(
        mut self,
        alloc: Global,
        book: &mut Book,
        who: Who,
        n: usize,
        key: Key,
    ) -> Result<Step, Memory>
        requires session { who.session < 17 }
        requires under { IsUnderWay self }
        requires inside { n < length self.plan.instrs }
        ensures options { book.new.options ≡ book.old.options }
        ensures logged { OnOk result (book.new.log ≡ book.old.log ++ event_of who (act.Look (n + 1) key (looked_of (look_of (state_of book.old).pool key))) ∷ []) }
        ensures step { IfOk result (IsLooked self n (state_of book.old).pool key) }
        ensures same { OnErr result (book.new ≡ book.old) }
    {
        let mut parts = Vec::new(alloc);
        match book.look(who, n as u32 + 1, key, &mut parts)? {
            Found::Exact(id, value) => {
                self.take_in(n, Obj::Bat(value), id);
                Ok(Step::Open(self))
            }
            found => {
                self.asked[n] = true;
                Ok(Step::Found(self, n, found, parts))
            }
        }
    }

    /// Offers the result of an instruction to the pool.
    pub fn offer(
        mut self,
        alloc: Global,
        book: &mut Book,
        scorer: &Scorer,
        who: Who,
        n: usize,
        offer: Offer,
    ) -> Result<Step, Memory>
        requires scorer { IsScorerOf scorer.now.kind scorer.now.weights.items book.old.options }
        requires session { who.session < 17 }
        requires under { IsUnderWay self }
        requires inside { n < length self.plan.instrs }
        requires offer { CanOffer offer.key offer.value offer.work (state_of book.old) }
        ensures options { book.new.options ≡ book.old.options }
        ensures logged { OnOk result (book.new.log ≡ book.old.log ++ event_of who (act.Admit (n + 1) offer.key (admit_of who (now_of book.old) (key_offer offer.key (state_of book.old)) (state_of book.old).pool).0) ∷ []) }
        ensures step { IfOk result (λ next. (to : QuerySeen) × (next ≡ step.Open to) × HasGained self n (obj.Bat offer.value) (given_by (admit_of who (now_of book.old) (key_offer offer.key (state_of book.old)) (state_of book.old).pool).0) self.work to) }
        ensures same { OnErr result (book.new ≡ book.old) }
    {
        let value = offer.value.share()?;
        let said = book.admit(
            alloc,
            scorer,
            who,
            n as u32 + 1,
            offer.key,
            offer.value,
            offer.work,
        )?;
        self.take_in(n, Obj::Bat(value), id_given(said));
        Ok(Step::Open(self))
    }
}
