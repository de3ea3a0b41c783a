//! Counts the events of a run.
ghost use Rattle.std.specs.Prelude.{◌≡◌, ◌+◌, ◌<◌, ◌^◌};
ghost use Rattle.run_log.specs.Totals.{AreSmall, gone_in, holding, no_totals, with_admission, with_look, with_work, with_written};

use crate::event::{FoundLog, Totals};
use pool_policy::Admitted;

impl Totals {
    /// Totals before any event.
    pub fn new() -> Totals
        ensures { result ≡ no_totals }
    {
        Totals {
            entries: 0,
            bytes: 0,
            peak: 0,
            looks: 0,
            exact: 0,
            within: 0,
            across: 0,
            miss: 0,
            taken: 0,
            there: 0,
            stale: 0,
            orphan: 0,
            nocredit: 0,
            noroom: 0,
            evicted: 0,
            dropped: 0,
            carried: 0,
            work: 0,
            events: 0,
        }
    }

    /// Counts a look.
    pub fn note_look(&mut self, found: FoundLog)
        requires { AreSmall self.old }
        ensures { self.new ≡ with_look found self.old }
    {
        match found {
            FoundLog::Exact(_) => self.exact += 1,
            FoundLog::Within(_) => self.within += 1,
            FoundLog::Across(_) => self.across += 1,
            FoundLog::Miss => self.miss += 1,
        }
        self.looks += 1;
    }

    /// Counts an admission.
    pub fn note_admission(&mut self, answer: Admitted)
        requires small { AreSmall self.old }
        requires gone { gone_in answer < 2 ^ 62 }
        ensures { self.new ≡ with_admission answer self.old }
    {
        match answer {
            Admitted::Taken { gone, .. } => {
                self.taken += 1;
                self.evicted += gone;
            }
            Admitted::There(_) => self.there += 1,
            Admitted::Stale(_) => self.stale += 1,
            Admitted::Orphan(_) => self.orphan += 1,
            Admitted::NoCredit(_) => self.nocredit += 1,
            Admitted::NoRoom(_) => self.noroom += 1,
        }
    }

    /// Counts what a write did to the pool.
    pub fn note_write(&mut self, dropped: u64, carried: u64, evicted: u64)
        requires small { AreSmall self.old }
        requires dropped { dropped < 2 ^ 62 }
        requires carried { carried < 2 ^ 62 }
        requires evicted { evicted < 2 ^ 62 }
        ensures { self.new ≡ with_written dropped carried evicted self.old }
    {
        self.dropped += dropped;
        self.carried += carried;
        self.evicted += evicted;
    }

    /// Counts work.
    pub fn note_work(&mut self, work: u128)
        requires { self.old.work + work < 2 ^ 128 }
        ensures { self.new ≡ with_work work self.old }
    {
        self.work += work;
    }

    /// Counts an event, after which the pool holds so many entries and bytes.
    pub fn note_event(&mut self, entries: u64, bytes: u64)
        requires { AreSmall self.old }
        ensures { self.new ≡ holding entries bytes self.old }
    {
        self.entries = entries;
        self.bytes = bytes;
        self.peak = self.peak.max(bytes);
        self.events += 1;
    }
}
