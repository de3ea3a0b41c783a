ghost use Rattle.std.specs.Prelude.{◌≡◌, ◌<◌, ◌^◌, [], IfOk, OnErr, OnOk};
ghost use Rattle.pool_policy.specs.Looks.{after_look, look_of};
ghost use Rattle.recycle_pool.specs.Answers.{HandsOut, told};

use crate::found::{CoverPiece, Found};
use crate::pool::Pool;
use crate::uses::{pay_uses, pin_found, use_all};
use cell_core::Memory;
use lineage_key::Key;
use pool_policy::Who;

impl Pool {
    /// What is pooled for a key: an equal result, which the session uses and holds; or a selection
    /// whose range contains that of the key, or the pieces of the cheapest cover of it, each of
    /// which is used. `parts` gets the pieces. Where memory runs out, all is as it was.
    pub fn look(
        &mut self,
        who: Who,
        now: u64,
        key: &Key,
        parts: &mut Vec<CoverPiece>,
    ) -> Result<Found, Memory>
        requires session { who.session < 17 }
        requires later { self.old.moment < now }
        requires early { now < 2 ^ 30 }
        requires empty { parts.old.items ≡ [] }
        ensures found { IfOk result (λ found. told found parts.new.items ≡ look_of self.old key.now) }
        ensures values { IfOk result (λ found. HandsOut self.old.entries found parts.new.items) }
        ensures pool { OnOk result (self.new ≡ after_look who now key.now self.old) }
        ensures options { self.new.options ≡ self.old.options }
        ensures moment { OnOk result (self.new.moment ≡ now) }
        ensures err { OnErr result (self.new ≡ self.old) }
        ensures none { OnErr result (parts.new.items ≡ []) }
    {
        let found = self.entries.find_whole(key, parts)?;
        let used = parts.as_slice();
        pay_uses(
            &mut self.entries.ledger,
            self.entries.all.as_slice(),
            &found,
            used,
            who,
        );
        use_all(&mut self.entries.all, &found, used, who, now);
        pin_found(&mut self.entries.all, &found, who);
        self.moment = now;
        Ok(found)
    }
}
