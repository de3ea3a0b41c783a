ghost use Rattle.std.specs.Prelude.{◌≡◌, ◌<◌, ◌^◌};
ghost use Rattle.pool_policy.specs.Writes.{forget_of, write_of};
ghost use Rattle.pool_policy.specs.WriteLaws.{IsWrite};
ghost use Rattle.pool_policy.specs.Scorers.{IsScorerOf};
ghost use Rattle.recycle_pool.specs.Carries.{IsCarried};

use crate::carried::Carried;
use crate::pool::Pool;
use cell_core::Word;
use pool_entries::total_bytes;
use pool_policy::{Touched, note_touched};
use score_hook::Scorer;

impl Pool {
    /// Removes all that was computed from one of these columns of a table, held or not. Takes no
    /// memory.
    pub fn forget(&mut self, table: &Word, columns: &[Word])
        ensures { self.new ≡ forget_of table.now columns.now self.old }
    {
        note_touched(
            &mut self.lists.touched,
            self.entries.all.as_slice(),
            table,
            columns,
        );
        self.entries.give_up(self.lists.touched.as_slice());
        self.entries.bytes = total_bytes(self.entries.all.as_slice());
    }

    /// Applies an accepted write: what it touches leaves, what `carry` made of it comes back, and
    /// then entries are evicted until the bytes are within the budget. Returns how many were
    /// dropped, which are touched and don't come back, and how many were evicted at the end. Takes
    /// no memory.
    pub fn put_carried(
        &mut self,
        scorer: &Scorer,
        touched: &Touched,
        carried: Carried,
        now: u64,
    ) -> (u64, u64)
        requires scorer { IsScorerOf scorer.now.kind scorer.now.weights.items self.old.options }
        requires later { self.old.moment < now }
        requires early { now < 2 ^ 30 }
        requires write { IsWrite touched.now now self.old }
        requires carried { IsCarried touched.now now self.old carried }
        ensures pool { self.new ≡ (write_of touched.now now self.old).pool }
        ensures dropped { result.0 ≡ (write_of touched.now now self.old).dropped }
        ensures evicted { result.1 ≡ (write_of touched.now now self.old).evicted }
        ensures options { self.new.options ≡ self.old.options }
        ensures moment { self.new.moment ≡ now }
    {
        note_touched(
            &mut self.lists.touched,
            self.entries.all.as_slice(),
            &touched.table,
            touched.columns.as_slice(),
        );
        let back = carried.ids.len() as u64;
        let dropped = (self.lists.touched.len() as u64).saturating_sub(back);
        self.entries
            .bring_back(self.lists.touched.as_slice(), carried);
        self.next += back;
        self.moment = now;
        self.entries
            .plan_last(&mut self.lists, &self.options, scorer, now);
        self.entries.give_up(self.lists.gone.as_slice());
        self.entries.bytes = total_bytes(self.entries.all.as_slice());
        (dropped, self.lists.gone.len() as u64)
    }
}
