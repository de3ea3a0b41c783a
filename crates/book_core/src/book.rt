ghost use Rattle.std.specs.Prelude.{◌≡◌, ◌<◌, ◌≤◌, ◌^◌, [], ◌∷◌, ◌++◌, length, true, None, Some, IfOk, OnOk, OnErr};
ghost use Rattle.pool_policy.specs.Looks.{look_of};
ghost use Rattle.recycle_pool.specs.Answers.{HandsOut, told};
ghost use Rattle.sql_definitions.specs.Refusals.{refusal_number};
ghost use Rattle.run_log.specs.declared.event.Act.TheVariants as act;
ghost use Rattle.run_log.specs.Events.{log_tree, looked_of};
ghost use Rattle.book_core.specs.BookView.{event_of, is_open, state_of};
ghost use Rattle.book_core.specs.Lawful.{IsLawful};
ghost use Rattle.book_core.specs.Writes.{IsUntouched};

use crate::events::{SESSIONS, count_event, event, looked, make_room, push_event};
use cell_core::Memory;
use lineage_key::Key;
use pool_policy::{PoolOptions, Who};
use recycle_pool::{CoverPiece, Found, Pool};
use run_log::{Act, Event, Totals};
use sql_definitions::Refusal;
use std::alloc::Global;
use std::marker::Model;
use table_store::Store;

/// What the sessions of a run share, and the log of what they did.
pub struct Book {
    pub(crate) store: Store,
    pub(crate) pool: Pool,
    pub(crate) log: Vec<Event>,
    pub(crate) totals: Totals,
    pub(crate) begun: [bool; 17],
}

// By a call of its own, so that proofs needn't go through its forms where one is dropped.
impl Drop for Book {
    fn drop(self) {
        let Book {
            store: _,
            pool: _,
            log: _,
            totals: _,
            begun: _,
        } = self;
    }
}

impl Model for Book {
    ghost use Rattle.book_core.specs.BookView.{BookView};

    ghost Value = { BookView };

    ghost use Rattle.sql_tree.specs.contracts.tree.Cond as cond;
    ghost use Rattle.sql_tree.specs.contracts.tree.Expr as expr;
    ghost use Rattle.std.specs.Coded.{codes};

    ghost coded = { Prim.hlevel (codes, cond.the_row.coded, expr.the_row.coded) };

    ghost use Rattle.book_core.specs.Kept.{book_shown, IsBook};

    ghost view = { book_shown };

    ghost invariant = { IsBook };
}

impl Book {
    /// A book without events.
    pub fn new(alloc: Global, options: PoolOptions) -> Result<Book, Memory>
        requires places { options.places ≤ 1024 }
        requires budget { options.budget ≤ 2 ^ 40 }
        ensures { IfOk result (λ book. book ≡ record { options = options; log = [] }) }
    {
        let pool = Pool::new(alloc, options)?;
        Ok(Book {
            store: Store::new(alloc),
            pool,
            log: Vec::new(alloc),
            totals: Totals::new(),
            begun: [false; SESSIONS],
        })
    }

    /// Looks a key up in the pool, by the policy. `parts` gets the pieces of a cover.
    pub fn look(
        &mut self,
        who: Who,
        instr: u32,
        key: Key,
        parts: &mut Vec<CoverPiece>,
    ) -> Result<Found, Memory>
        requires session { who.session < 17 }
        requires empty { parts.old.items ≡ [] }
        ensures options { self.new.options ≡ self.old.options }
        ensures logged { OnOk result (self.new.log ≡ self.old.log ++ event_of who (act.Look instr key (looked_of (look_of (state_of self.old).pool key))) ∷ []) }
        ensures found { IfOk result (λ found. told found parts.new.items ≡ look_of (state_of self.old).pool key) }
        ensures values { IfOk result (λ found. HandsOut (state_of self.old).pool.entries found parts.new.items) }
        ensures same { OnErr result (self.new ≡ self.old) }
        ensures none { OnErr result (parts.new.items ≡ []) }
    {
        make_room(&mut self.log, 0)?;
        let now = self.log.len() as u64 + 1;
        let found = self.pool.look(who, now, &key, parts)?;
        let looked = looked(&found);
        self.totals.note_look(looked);
        count_event(&mut self.totals, &self.pool);
        let act = Act::Look {
            instr,
            key,
            found: looked,
        };
        let _ = push_event(&mut self.log, event(who, act));
        Ok(found)
    }

    /// Ends a query that has begun, and releases what its session holds. Takes no memory.
    pub fn end(&mut self, who: Who, code: u8)
        requires session { who.session < 17 }
        requires open { is_open who.session self.old ≡ true }
        ensures options { self.new.options ≡ self.old.options }
        ensures logged { self.new.log ≡ self.old.log ++ event_of who (act.End code) ∷ [] }
    {
        self.pool.release(who.session);
        count_event(&mut self.totals, &self.pool);
        self.begun[who.session as usize] = false;
        let _ = push_event(&mut self.log, event(who, Act::End { code }));
    }

    /// Logs a refused text. Tables, versions and pool stay as they were.
    pub fn refuse(&mut self, who: Who, refusal: &Refusal) -> Result<(), Memory>
        requires { who.session < 17 }
        ensures options { self.new.options ≡ self.old.options }
        ensures logged { OnOk result (self.new.log ≡ self.old.log ++ event_of who (act.Write None (refusal_number refusal.now) 0) ∷ []) }
        ensures refused { OnOk result (IsUntouched (state_of self.old) (state_of self.new)) }
        ensures same { OnErr result (self.new ≡ self.old) }
    {
        make_room(&mut self.log, 0)?;
        count_event(&mut self.totals, &self.pool);
        let act = Act::Write {
            stmt: None,
            code: refusal.number(),
            count: 0,
        };
        let _ = push_event(&mut self.log, event(who, act));
        Ok(())
    }

    /// The totals. Their work is that of writes alone. Takes no memory.
    pub fn totals(&self) -> Totals
        ensures { result ≡ (state_of self.now).totals }
    {
        self.totals
    }

    /// The log, of which each event may follow those before it (`run_log`). Takes no memory.
    pub fn log(&self) -> &[Event]
        ensures log { result.now ≡ self.now.log }
        ensures lawful { IsLawful self.now.options (log_tree self.now.log) }
    {
        self.log.as_slice()
    }

    /// The law that the log is lawful: each event may follow those before it. Runs nothing.
    pub fn log_is_lawful(&self)
        ensures lawful { IsLawful self.now.options (log_tree self.now.log) }
    {
        let _ = &self.log;
    }

    /// The log and the totals. Takes no memory.
    pub fn finish(self) -> (Vec<Event>, Totals)
        ensures log { result.0.items ≡ self.log }
        ensures totals { result.1 ≡ (state_of self).totals }
    {
        let Book {
            store: _,
            pool: _,
            log,
            totals,
            begun: _,
        } = self;
        (log, totals)
    }
}
