//! The entries that are evicted to make room, and the credits of shapes.
use crate::scorers::{by_age, by_counted_age, by_last_use};
use evict_admit::{Ledger, Row, one_order, plan_evictions};
use score_hook::{Scorer, Stats};
use std::alloc::{AllocError, Global};
use std::sync::Arc;
use std::sync::atomic::{AtomicU64, Ordering};
use std::test::Fail;

// 2 was made from 1, and 3 is pinned. By their last use 4 is evicted before 2, and 1 only after 2.
const ROWS: [Row; 4] = [
    Row {
        id: 1,
        bytes: 10,
        free: true,
        parents: [0, 0],
        stats: Stats {
            class: 0,
            work: 9,
            reuses: 2,
            others: 0,
            admitted_at: 1,
            used_at: 1,
        },
    },
    Row {
        id: 2,
        bytes: 10,
        free: true,
        parents: [1, 0],
        stats: Stats {
            class: 0,
            work: 3,
            reuses: 1,
            others: 1,
            admitted_at: 2,
            used_at: 6,
        },
    },
    Row {
        id: 3,
        bytes: 10,
        free: false,
        parents: [0, 0],
        stats: Stats {
            class: 0,
            work: 1,
            reuses: 0,
            others: 0,
            admitted_at: 3,
            used_at: 0,
        },
    },
    Row {
        id: 4,
        bytes: 10,
        free: true,
        parents: [0, 0],
        stats: Stats {
            class: 0,
            work: 40,
            reuses: 0,
            others: 0,
            admitted_at: 4,
            used_at: 5,
        },
    },
];

/// Whether enough can be evicted of the four rows at moment 7, and the ids that are evicted.
fn plan(
    alloc: Global,
    scorer: &Scorer,
    need: u128,
    slots: u64,
) -> Result<(bool, Vec<u64>), AllocError> {
    let mut out = Vec::with_capacity(alloc, 4)?;
    let enough = plan_evictions(&ROWS, need, slots, scorer, 7, &mut out);
    Ok((enough, out))
}

/// The bytes and places that are needed, whether evictions by last use free them, and the evicted
/// ids.
const NEEDS: [(u128, u64, bool, &[u64]); 5] = [
    (25, 0, true, &[4, 2, 1]),
    (15, 1, true, &[4, 2]),
    (10, 1, true, &[4]),
    (31, 0, false, &[4, 2, 1]),
    (0, 0, true, &[]),
];

#[test]
fn parents_go_after_their_children(rt: HostRuntime) -> Result<(), Fail> {
    let alloc = rt.alloc();
    let scorer = by_last_use(alloc)?;
    one_order();
    for (need, slots, is_enough, gone) in NEEDS {
        let (enough, out) = plan(alloc, &scorer, need, slots)?;
        assert_eq!(rt; enough, is_enough, "{need}");
        assert_eq!(rt; out.as_slice(), gone, "{need}");
    }
    Ok(())
}

// The counting closure evicts the same rows as the plain formula: 2 scores 30 / 5, 4 scores 40 / 3,
// 1 scores 9 / 6.
#[test]
fn another_closure_gives_up_the_same(rt: HostRuntime) -> Result<(), Fail> {
    let alloc = rt.alloc();
    let calls = Arc::new(alloc, AtomicU64::new(0))?;
    let (enough, out) = plan(alloc, &by_age(alloc)?, 30, 0)?;
    assert!(rt; enough);
    assert_eq!(rt; out.as_slice(), [2, 1, 4].as_slice());
    let (_, same) = plan(alloc, &by_counted_age(alloc, &calls)?, 30, 0)?;
    assert_eq!(rt; same.as_slice(), out.as_slice());
    assert!(rt; calls.load(Ordering::SeqCst) != 0);
    Ok(())
}

#[test]
fn credits_are_paid_and_come_back(rt: HostRuntime) -> Result<(), Fail> {
    let mut ledger = Ledger::new(rt.alloc(), 5);
    ledger.reserve(2)?;
    let first = ledger.add();
    let second = ledger.add();
    assert!(rt; first == 1 && second == 2);
    ledger.pay(second);
    assert!(rt; ledger.credit(first) == 5 && ledger.credit(second) == 4);
    ledger.back(second);
    assert!(rt; ledger.credit(second) == 5);
    Ok(())
}
