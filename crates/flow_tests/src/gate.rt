//! A kernel that shows whether two operators run side by side.

use bat_core::{Obj, Operate};
use bat_kernel::Kernel;
use cell_core::{Op, RunError, Steps};
use std::alloc::Global;
use std::sync::atomic::{AtomicBool, AtomicU32, Ordering};
use std::sync::ledger::Ledger;
use std::thread;

/// The most looks of a gate at whether the other operator has started.
const MOST_LOOKS: u32 = 1_000_000;

/// A kernel that holds the first use of an operator until another operator has started.
#[derive(Drop)]
pub(crate) struct Gate {
    kernel: Kernel,
    holds: Op,
    until: Op,
    held: AtomicU32,
    started: AtomicBool,
    passed: AtomicBool,
}

impl Gate {
    /// A gate that no operator has met yet.
    pub fn new(holds: Op, until: Op) -> Gate {
        Gate {
            kernel: Kernel::new(),
            holds,
            until,
            held: AtomicU32::new(0),
            started: AtomicBool::new(false),
            passed: AtomicBool::new(false),
        }
    }

    /// Whether the other operator started while the first was held.
    pub fn has_passed(&self) -> bool {
        self.passed.load(Ordering::SeqCst)
    }

    /// Waits for the other operator to start, and notes whether it did.
    fn hold(&self) {
        'looks: for _ in 0..MOST_LOOKS {
            if self.started.load(Ordering::SeqCst) {
                self.passed.store(true, Ordering::SeqCst);
                return;
            }
            thread::yield_now();
        }
    }
}

impl Operate for Gate {
    fn run<L: Ledger>(
        &self,
        alloc: Global,
        op: Op,
        args: &[Obj],
        steps: &mut Steps<L>,
    ) -> Result<Obj, RunError> {
        if op == self.until {
            self.started.store(true, Ordering::SeqCst);
        }
        if op == self.holds && self.held.fetch_add(1, Ordering::SeqCst) == 0 {
            self.hold();
        }
        self.kernel.run(alloc, op, args, steps)
    }
}
