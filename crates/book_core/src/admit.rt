ghost use Rattle.std.specs.Prelude.{◌≡◌, ◌<◌, ◌^◌, [], ◌∷◌, ◌++◌, if◌then◌else◌, true, IfOk, OnOk, OnErr};
ghost use Rattle.lineage_key.specs.Parents.{column_of, is_bind, table_of};
ghost use Rattle.table_store.specs.Content.{version_of};
ghost use Rattle.pool_policy.specs.Admits.{admit_of};
ghost use Rattle.pool_policy.specs.Scorers.{IsScorerOf};
ghost use Rattle.run_log.specs.declared.event.Act.TheVariants as act;
ghost use Rattle.run_log.specs.Fold.{key_offer};
ghost use Rattle.book_core.specs.BookView.{event_of, now_of, state_of};
ghost use Rattle.book_core.specs.Offers.{CanOffer, NamesColumn};

use crate::book::Book;
use crate::events::{count_event, event, make_room, push_event};
use bat_core::Shared;
use cell_core::{Cell, Memory};
use lineage_key::{Key, KeyArg};
use pool_policy::{Admitted, Who};
use recycle_pool::Offered;
use run_log::Act;
use score_hook::Scorer;
use std::alloc::Global;
use table_store::Store;

/// The present version of the column that a key binds; 0 for any other key.
fn present_of(store: &Store, key: &Key) -> u64
    requires { is_bind key.now ≡ true → NamesColumn key.now }
    ensures { result ≡ (if is_bind key.now then version_of (table_of key.now) (column_of key.now) store.now else 0) }
{
    if !key.is_bind() {
        return 0;
    }
    match key.args.as_slice() {
        [
            KeyArg::Const(Cell::Text(table)),
            KeyArg::Const(Cell::Text(column)),
            ..
        ] => { store.version(table, column) }
        _ => unreachable!(),
    }
}

impl Book {
    /// Offers a result to the pool, which admits it by the policy. `scorer` scores what is evicted
    /// to make room; it has the policy and the weights of the options.
    pub fn admit(
        &mut self,
        alloc: Global,
        scorer: &Scorer,
        who: Who,
        instr: u32,
        key: Key,
        value: Shared,
        work: u64,
    ) -> Result<Admitted, Memory>
        requires scorer { IsScorerOf scorer.now.kind scorer.now.weights.items self.old.options }
        requires session { who.session < 17 }
        requires offer { CanOffer key value work (state_of self.old) }
        ensures options { self.new.options ≡ self.old.options }
        ensures answer { IfOk result (λ said. said ≡ (admit_of who (now_of self.old) (key_offer key (state_of self.old)) (state_of self.old).pool).0) }
        ensures logged { IfOk result (λ said. self.new.log ≡ self.old.log ++ event_of who (act.Admit instr key said) ∷ []) }
        ensures same { OnErr result (self.new ≡ self.old) }
    {
        make_room(&mut self.log, 0)?;
        let now = self.log.len() as u64 + 1;
        let present = present_of(&self.store, &key);
        let named = key.share(alloc)?;
        let offered = Offered {
            key,
            value,
            work,
            present,
        };
        // Fewer than 1,025 entries can be evicted.
        let _ = self.pool.entries();
        let result = self.pool.admit(scorer, who, now, offered)?;
        self.totals.note_admission(result);
        count_event(&mut self.totals, &self.pool);
        let act = Act::Admit {
            instr,
            key: named,
            result,
        };
        let _ = push_event(&mut self.log, event(who, act));
        Ok(result)
    }
}
