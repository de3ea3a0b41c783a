//! The book of a run in threads.
ghost use Rattle.std.specs.Prelude.{◌≡◌, ◌<◌, ◌≤◌, ◌^◌, [], length, IfOk, OnOk, OnErr};
ghost use Rattle.run_log.specs.declared.event.Event.{Event as EventSeen};
ghost use Rattle.run_log.specs.Events.{log_tree};
ghost use Rattle.book_core.specs.Lawful.{IsLawful};
ghost use Rattle.pool_sound.specs.Sound.{IsSoundAlong};
ghost use Rattle.session_run.specs.Stages.{Follows, IsReady, IsSameSession};
ghost use Rattle.thread_sessions.specs.Runners.{AddsEvent, HasSeen, IsAt, session_of};
ghost use Rattle.pool_policy.specs.Scorers.{IsScorerOf};

use bat_core::Operate;
use book_core::Book;
use cell_core::{Memory, Steps};
use pool_policy::PoolOptions;
use run_log::Event;
use score_hook::Scorer;
use session_run::Session;
use sql_parse::one_reading;
use std::alloc::Global;
use std::marker::{Brand, PhantomData};
use std::sync::ledger::Ledger;
use turn_hall::Logged;

/// The options of a run as a type, by which each turn knows them. They are chosen where the book is
/// made.
pub trait HasOptions {
    ghost use Rattle.pool_policy.specs.declared.options.PoolOptions.{PoolOptions};

    ghost options: { PoolOptions };
}

impl HasOptions for Brand {
    ghost use Rattle.std.specs.Prelude.{[]};
    ghost use Rattle.score_hook.specs.declared.stats.Evict.TheVariants.{Lru};
    ghost use Rattle.pool_policy.specs.declared.options.Admit.TheVariants.{All};

    ghost options = { record { places = 0; budget = 0; evict = Lru; weights = []; admit = All; credits = 0 } };
}

/// A book, in a type that names its options.
#[derive(Drop)]
pub struct SharedBook<K: HasOptions> {
    pub(crate) book: Book,
    of: PhantomData<K>,
    ghost optioned: { book.options ≡ K.options },
}

impl<K: HasOptions> Logged for SharedBook<K> {
    type Entry = Event;

    ghost entries = { λ kept. kept.book.log };

    ghost author = { session_of };

    fn count(&self) -> u64 {
        self.book.count()
    }
}

impl<K: HasOptions> SharedBook<K> {
    /// A book without events.
    pub fn new(alloc: Global, options: PoolOptions) -> Result<SharedBook<K>, Memory>
        requires options { options ≡ K.options }
        requires places { options.places ≤ 1024 }
        requires budget { options.budget ≤ 2 ^ 40 }
        ensures { IfOk result (λ kept. kept.book.log ≡ []) }
    {
        let book = Book::new(alloc, options)?;
        Ok(SharedBook {
            book,
            of: PhantomData,
        })
    }

    /// Shows that a session agrees with the present log: the events after those that it has seen
    /// are of other sessions.
    pub fn catch_up(&self, session: &Session)
        requires { HasSeen K.options self.now.book.log session.now }
        ensures { IsAt K.options (log_tree self.now.book.log) session.now }
    {
        self.book.log_is_lawful();
    }

    /// Does the next event of a session. Where memory runs out, the book stays as it was.
    pub fn next<E: Operate, L: Ledger>(
        &mut self,
        alloc: Global,
        session: &mut Session,
        scorer: &Scorer,
        kernel: &E,
        steps: &mut Steps<L>,
    ) -> Result<(), Memory>
        requires scorer { IsScorerOf scorer.now.kind scorer.now.weights.items K.options }
        requires at { IsAt K.options (log_tree self.old.book.log) session.old }
        requires more { session.old.ended < length session.old.pieces }
        requires ready { IsReady session.old.stage }
        ensures session { OnOk result (IsSameSession session.old session.new) }
        ensures follows { OnOk result (Follows session.old.stage session.new.stage) }
        ensures added { OnOk result (AddsEvent self.old.book.log session.old.number self.new.book.log) }
        ensures at { OnOk result (IsAt K.options (log_tree self.new.book.log) session.new) }
        ensures same { OnErr result (self.new.book ≡ self.old.book) }
    {
        one_reading();
        session.inside(alloc, &mut self.book, scorer, kernel, steps)?;
        Ok(())
    }

    /// Shows that the log is lawful under the options. The pool, which is that of the log's fold,
    /// is therefore sound after each event.
    pub fn tell_law(&self)
        ensures lawful { IsLawful K.options (log_tree self.now.book.log) }
        ensures sound { IsSoundAlong K.options (log_tree self.now.book.log) }
    {
        self.book.log_is_lawful();
    }

    /// The book.
    pub fn into_book(self) -> Book
        ensures options { result.options ≡ K.options }
        ensures log { result.log ≡ self.book.log }
    {
        let SharedBook { book, of: _ } = self;
        book
    }
}
