//! What four threads build in one heap.
use super::*;
use crate::list_stores::new_devices;
use std::alloc::Global;
use std::process::Abort;
use std::sync::Wait;
use std::test::Fail;
use std::thread::Threads;

/// How many transactions each thread has.
const TIMES: u16 = 12;

/// What four threads did in a new store, and the objects of the plain graph's lists after the same.
fn tried<R: Threads + Wait + Sync>(
    rt: &R,
    alloc: Global,
    seed: u64,
) -> Result<(Told, Vec<Node>), Fail> {
    let Some((pages, journal)) = new_devices(alloc) else {
        return Err(Fail::new("no store"));
    };
    let share = Share {
        seed,
        thread: 0,
        times: TIMES,
    };
    let Some(told) = build_lists(rt, alloc, pages, journal, share) else {
        return Err(Fail::new("no lists"));
    };
    let nodes = plain_nodes(alloc, &told)?;
    Ok((told, nodes))
}

/// Whether a thread committed all its transactions.
fn is_whole(trail: &Trail) -> bool {
    trail.end == None && trail.deeds.len() == usize::from(TIMES)
}

/// Whether the numbers of a receipt can be those of the deed: an object stays where a number names its page, and only objects
/// that are made are moved.
fn is_told(deed: &Deed) -> bool {
    let pushes = deed.plan.kind == Kind::Push;
    if pushes && deed.plan.near == 0 {
        deed.pinned > 0 && deed.moved == 0
    } else if pushes {
        deed.moved <= 1
    } else {
        deed.moved == 0
    }
}

/// How many pages were pinned in all commits, and how many objects moved.
fn sums(told: &Told) -> (u32, u32) {
    let mut sums = (0u32, 0u32);
    for trail in told.trails.iter() {
        for deed in trail.deeds.iter() {
            sums.0 = sums.0.saturating_add(deed.pinned);
            sums.1 = sums.1.saturating_add(deed.moved);
        }
    }
    sums
}

/// Each thread committed all its transactions, and the receipts are theirs.
fn assert_whole(rt: &impl Abort, told: &Told, seed: u64) {
    for trail in told.trails.iter() {
        assert!(rt; is_whole(trail), "seed {seed}: {trail:?}");
        for deed in trail.deeds.iter() {
            assert!(rt; is_told(deed), "seed {seed}: {deed:?}");
        }
    }
    let (pinned, moved) = sums(told);
    assert!(rt; 0 < pinned && 0 < moved, "seed {seed}");
}

#[test]
fn four_threads_leave_the_lists_that_the_journal_tells(rt: HostRuntime) -> Result<(), Fail> {
    let alloc = rt.alloc();
    for seed in 1..4u64 {
        let (told, nodes) = tried(&rt, alloc, seed)?;
        assert_whole(&rt, &told, seed);
        assert_eq!(rt; told.nodes, nodes, "seed {seed}");
    }
    Ok(())
}
