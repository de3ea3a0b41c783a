//! What wakes those that wait: the caller for an answer, and each worker for a task.

use cell_core::Memory;
use std::alloc::Global;
use std::sync::Wait;
use std::sync::atomic::{AtomicBool, Ordering};
use std::thread::Parker;

/// What wakes one worker.
#[derive(Drop)]
pub(crate) struct Bell {
    parker: Parker,
    // Set before the worker's last look, so that a thread which pushes a task after that look sees
    // it.
    asleep: AtomicBool,
}

impl Bell {
    fn new() -> Bell {
        Bell {
            parker: Parker::new(),
            asleep: AtomicBool::new(false),
        }
    }

    /// Notes that the worker is about to sleep. Returns whether that is new, and it has to look
    /// once more.
    pub fn lies_down(&self) -> bool {
        !self.asleep.swap(true, Ordering::SeqCst)
    }

    /// Sleeps until someone rings.
    pub fn sleep<R: Wait>(&self, rt: &R) {
        self.parker.park(rt);
        self.gets_up();
    }

    /// Notes that the worker is awake.
    pub fn gets_up(&self) {
        self.asleep.store(false, Ordering::SeqCst);
    }

    /// Wakes the worker if it sleeps or is about to. Returns whether it did.
    fn wakes(&self) -> bool {
        let asleep = self.asleep.swap(false, Ordering::SeqCst);
        if asleep {
            self.parker.unpark();
        }
        asleep
    }
}

/// A bell for the caller, and one for each worker.
#[derive(Drop)]
pub(crate) struct Bells {
    pub answer: Parker,
    pub tasks: Vec<Bell>,
}

impl Bells {
    /// The bells of a caller with so many workers.
    pub fn new(alloc: Global, workers: u32) -> Result<Bells, Memory> {
        let mut tasks = Vec::with_capacity(alloc, workers as usize)?;
        'workers: for _ in 0..workers {
            tasks.push(Bell::new())?;
        }
        Ok(Bells {
            answer: Parker::new(),
            tasks,
        })
    }

    /// Wakes one worker that sleeps, for one task more. Where none sleeps, each looks again by
    /// itself.
    pub fn ring(&self) {
        'workers: for bell in self.tasks.as_slice() {
            if bell.wakes() {
                return;
            }
        }
    }

    /// Wakes all workers.
    pub fn ring_all(&self) {
        'workers: for bell in self.tasks.as_slice() {
            bell.parker.unpark();
        }
    }
}
