//! What the caller and its workers share.
ghost use Rattle.std.specs.Prelude.{◌≡◌};

use crate::basis::HasBasis;
use crate::bells::Bells;
use crate::queues::Queues;
use std::sync::atomic::{AtomicBool, Ordering};

/// The queues, the bells of those that wait, and whether the work is to end.
#[derive(Drop)]
pub(crate) struct Team<K: HasBasis> {
    pub queues: Queues<K>,
    pub bells: Bells,
    ended: AtomicBool,
}

impl<K: HasBasis> Team<K> {
    /// A team whose work goes on.
    pub fn new(queues: Queues<K>, bells: Bells) -> Team<K>
        ensures { result.queues ≡ queues }
    {
        Team {
            queues,
            bells,
            ended: AtomicBool::new(false),
        }
    }

    /// Asks the workers to end.
    pub fn end(&self) {
        self.ended.store(true, Ordering::SeqCst);
        self.bells.ring_all();
    }

    /// Whether the work is to end.
    pub fn has_ended(&self) -> bool {
        self.ended.load(Ordering::SeqCst)
    }
}
