ghost use Rattle.std.specs.Prelude.{◌≡◌, ◌<◌, ◌^◌, IfNone, IfOk, IfSome, None, OnErr, OnOk};
ghost use Rattle.pool_policy.specs.declared.entry.Who.{Who as WhoValue};
ghost use Rattle.pool_policy.specs.Keyed.{entry_of_key};
ghost use Rattle.pool_policy.specs.Admits.{admit_of};
ghost use Rattle.pool_policy.specs.Keeps.{IsOffer};
ghost use Rattle.pool_policy.specs.Scorers.{IsScorerOf};
ghost use Rattle.recycle_pool.specs.Answers.{offer_in};
ghost use Rattle.recycle_pool.specs.Usable.{IsNew};

use crate::offer::{Offered, bytes_of, is_stale, new_entry};
use crate::pool::Pool;
use cell_core::Memory;
use pool_entries::{first_missing, give_number, is_spent, pin_id};
use pool_policy::{Admitted, Who};
use score_hook::Scorer;

impl Pool {
    /// Makes room for at least so many further shapes. Nothing else changes.
    pub fn reserve(&mut self, shapes: u64) -> Result<(), Memory>
        ensures { self.new ≡ self.old }
    {
        self.shapes.reserve(shapes as usize)?;
        self.entries.ledger.reserve(shapes)?;
        Ok(())
    }

    /// Keeps a result, where the policy admits it. Evictions are scored by the scorer that is lent,
    /// which is of the kind of the options. Where memory runs out, all is as it was.
    pub fn admit(
        &mut self,
        scorer: &Scorer,
        who: Who,
        now: u64,
        offered: Offered,
    ) -> Result<Admitted, Memory>
        requires scorer { IsScorerOf scorer.now.kind scorer.now.weights.items self.old.options }
        requires session { who.session < 17 }
        requires later { self.old.moment < now }
        requires early { now < 2 ^ 30 }
        requires fits { IsOffer self.old (offer_in offered) }
        ensures done { IfOk result (λ said. (said, self.new) ≡ admit_of who now (offer_in offered) self.old) }
        ensures options { self.new.options ≡ self.old.options }
        ensures moment { OnOk result (self.new.moment ≡ now) }
        ensures err { OnErr result (self.new ≡ self.old) }
    {
        match self.answer_known(who, now, &offered) {
            Some(said) => Ok(said),
            None => self.admit_new(scorer, who, now, offered),
        }
    }

    /// The answer to an offer that is pooled already, or that can't be pooled.
    fn answer_known(&mut self, who: Who, now: u64, offered: &Offered) -> Option<Admitted>
        requires session { who.session < 17 }
        requires later { self.old.moment < now }
        requires early { now < 2 ^ 30 }
        ensures some { IfSome result (λ said. (said, self.new) ≡ admit_of who now (offer_in offered.now) self.old) }
        ensures options { self.new.options ≡ self.old.options }
        ensures moment { IfSome result (λ said. self.new.moment ≡ now) }
        ensures none { IfNone result (IsNew (offer_in offered.now) self.old) }
        ensures same { IfNone result (self.new ≡ self.old) }
    {
        match self
            .entries
            .keys
            .place(self.entries.all.as_slice(), &offered.key)
        {
            None => self.refuse(now, offered),
            Some(place) => {
                let id = self.entries.all[place].id;
                pin_id(&mut self.entries.all, id, who);
                self.moment = now;
                Some(Admitted::There(id))
            }
        }
    }

    /// The answer to an offer that can't be pooled.
    fn refuse(&mut self, now: u64, offered: &Offered) -> Option<Admitted>
        requires later { self.old.moment < now }
        requires early { now < 2 ^ 30 }
        requires fresh { None ≡ entry_of_key offered.now.key self.old.entries }
        ensures some { IfSome result (λ said. (who : WhoValue) → (said, self.new) ≡ admit_of who now (offer_in offered.now) self.old) }
        ensures options { self.new.options ≡ self.old.options }
        ensures moment { IfSome result (λ said. self.new.moment ≡ now) }
        ensures none { IfNone result (IsNew (offer_in offered.now) self.old) }
        ensures same { IfNone result (self.new ≡ self.old) }
    {
        if is_stale(&offered.key, offered.present) {
            self.moment = now;
            return Some(Admitted::Stale(offered.present));
        }
        match first_missing(self.entries.all.as_slice(), &offered.key) {
            None => None,
            Some(id) => {
                self.moment = now;
                Some(Admitted::Orphan(id))
            }
        }
    }

    /// Keeps a result that can be pooled, where its shape has a credit and there is room.
    fn admit_new(
        &mut self,
        scorer: &Scorer,
        who: Who,
        now: u64,
        offered: Offered,
    ) -> Result<Admitted, Memory>
        requires scorer { IsScorerOf scorer.now.kind scorer.now.weights.items self.old.options }
        requires session { who.session < 17 }
        requires later { self.old.moment < now }
        requires early { now < 2 ^ 30 }
        requires fits { IsOffer self.old (offer_in offered) }
        requires new { IsNew (offer_in offered) self.old }
        ensures done { IfOk result (λ said. (said, self.new) ≡ admit_of who now (offer_in offered) self.old) }
        ensures options { self.new.options ≡ self.old.options }
        ensures moment { OnOk result (self.new.moment ≡ now) }
        ensures err { OnErr result (self.new ≡ self.old) }
    {
        let shape = give_number(
            &mut self.shapes,
            &mut self.entries.ledger,
            &self.options,
            self.entries.all.as_slice(),
            &offered.key,
        )?;
        self.moment = now;
        if is_spent(&self.entries.ledger, shape) {
            return Ok(Admitted::NoCredit(shape));
        }
        let bytes = bytes_of(&offered.key, &offered.value);
        let (enough, left) = self.entries.make_room(
            &mut self.lists,
            &self.options,
            scorer,
            now,
            &offered.key,
            bytes,
        );
        if !enough {
            return Ok(Admitted::NoRoom(left));
        }
        let id = self.next;
        let entry = new_entry(id, shape, offered, bytes, who, now);
        self.entries.exchange(self.lists.gone.as_slice(), entry);
        self.entries.bytes = left + bytes;
        self.next = id + 1;
        let gone = self.lists.gone.len() as u64;
        Ok(Admitted::Taken { id, bytes, gone })
    }
}
