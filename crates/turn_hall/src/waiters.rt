//! The passes that wait for a turn.

use crossbeam_utils::Backoff;
use std::sync::atomic::{AtomicU64, Ordering};

/// How many passes wait for a turn. This is no part of the rule. It shows when a call to wake a
/// sleeping pass is worth its time; a sleeping pass looks again in time whether it is woken or not.
#[derive(Drop)]
pub(crate) struct Waiters {
    /// How many look again and again.
    awake: AtomicU64,
    /// How many sleep without a ticket, or are about to.
    asleep: AtomicU64,
    /// How many sleep with a ticket, or are about to.
    queued: AtomicU64,
    /// Whether a sleeping pass has been called and isn't up yet.
    called: AtomicU64,
}

/// How often a pass goes through its backoff before it sleeps: to sleep and to be woken takes
/// longer than most waits.
const ROUNDS: u32 = 4;

/// After so many sleeps a pass draws its ticket, though the hall isn't free: from then on no other
/// pass can go before it again and again.
const PATIENCE: u32 = 8;

/// The state of a waiting pass.
#[derive(Clone, Copy)]
enum WaitStage {
    /// It has looked once.
    New,
    /// It looks again and again.
    Awake,
    /// It has noted that it sleeps, and looks once more before it does.
    Lying,
    /// It has a ticket, has noted that it sleeps, and looks once more before each sleep.
    Queued,
}

/// The sleeping passes that are to be woken.
#[derive(Clone, Copy)]
pub(crate) enum Call {
    Nobody,
    One,
    All,
}

/// The wait of one pass.
#[derive(Drop)]
pub(crate) struct Wake {
    backoff: Backoff,
    /// How often it has gone through its backoff.
    rounds: u32,
    /// How often it has slept, up to `PATIENCE`.
    sleeps: u32,
    place: WaitStage,
}

impl Wake {
    /// A wait that begins.
    pub fn new() -> Wake {
        Wake {
            backoff: Backoff::new(),
            rounds: 0,
            sleeps: 0,
            place: WaitStage::New,
        }
    }

    /// Whether it has lasted so long that the pass draws its ticket.
    pub fn is_long(&self) -> bool {
        self.sleeps >= PATIENCE
    }

    /// Looks again soon. Returns whether it has done so for long.
    fn snoozes(&mut self) -> bool {
        if !self.backoff.is_completed() {
            self.backoff.snooze();
            return false;
        }
        if self.rounds < ROUNDS {
            self.rounds += 1;
            self.backoff.reset();
            return false;
        }
        true
    }
}

impl Waiters {
    /// No pass waits yet.
    pub fn new() -> Waiters {
        Waiters {
            awake: AtomicU64::new(0),
            asleep: AtomicU64::new(0),
            queued: AtomicU64::new(0),
            called: AtomicU64::new(0),
        }
    }

    /// Notes that a pass without a ticket has looked in vain. Returns whether it is to sleep now: it
    /// has waited for long, has noted that it sleeps, and has looked once more since.
    pub fn looked(&self, wake: &mut Wake) -> bool {
        match wake.place {
            WaitStage::New => {
                self.awake.fetch_add(1, Ordering::SeqCst);
                wake.place = WaitStage::Awake;
                wake.backoff.snooze();
                false
            }
            WaitStage::Awake => {
                if wake.snoozes() {
                    self.asleep.fetch_add(1, Ordering::SeqCst);
                    self.leaves(wake);
                    // A call that was made before doesn't count for this pass.
                    self.called.store(0, Ordering::SeqCst);
                    wake.place = WaitStage::Lying;
                }
                false
            }
            WaitStage::Lying | WaitStage::Queued => true,
        }
    }

    /// The same of a pass with its ticket.
    pub fn watched(&self, wake: &mut Wake) -> bool {
        match wake.place {
            WaitStage::Queued => true,
            _ => {
                if wake.snoozes() {
                    self.queued.fetch_add(1, Ordering::SeqCst);
                    self.leaves(wake);
                    wake.place = WaitStage::Queued;
                }
                false
            }
        }
    }

    /// Notes that a pass without a ticket has slept.
    pub fn slept(&self, wake: &mut Wake) {
        self.awake.fetch_add(1, Ordering::SeqCst);
        self.leaves(wake);
        wake.place = WaitStage::Awake;
        wake.rounds = 0;
        wake.backoff.reset();
        if wake.sleeps < PATIENCE {
            wake.sleeps += 1;
        }
    }

    /// Notes that the pass waits no longer as it did. One that had noted that it sleeps may have
    /// been called, so the next one can be called again.
    pub fn leaves(&self, wake: &Wake) {
        match wake.place {
            WaitStage::New => {}
            WaitStage::Awake => {
                self.awake.fetch_sub(1, Ordering::SeqCst);
            }
            WaitStage::Lying => {
                self.asleep.fetch_sub(1, Ordering::SeqCst);
                self.called.store(0, Ordering::SeqCst);
            }
            WaitStage::Queued => {
                self.queued.fetch_sub(1, Ordering::SeqCst);
                self.called.store(0, Ordering::SeqCst);
            }
        }
    }

    /// Which sleeping passes are to be called when the turn is passed on: all where some have a
    /// ticket, since one of these may be the next; else one where none is awake and none has been
    /// called.
    pub fn to_call(&self) -> Call {
        if self.queued.load(Ordering::SeqCst) > 0 {
            Call::All
        } else if self.asleep.load(Ordering::SeqCst) > 0
            && self.awake.load(Ordering::SeqCst) == 0
            && self.called.swap(1, Ordering::SeqCst) == 0
        {
            Call::One
        } else {
            Call::Nobody
        }
    }
}
