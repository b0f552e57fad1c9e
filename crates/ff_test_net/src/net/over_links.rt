//! Tests of a chain in threads, over links of several sizes.
use crate::net::run::{Outcome, run_chain};
use ff_test_machines::one_over;
use std::alloc::Global;
use std::sync::Wait;
use std::thread::Threads;

// A run of a source of 10,000 packets and a relay that ends after so many, over links of this size.
fn outcome<R: Threads + Wait + Sync>(
    rt: &R,
    alloc: Global,
    size: usize,
    limit: usize,
) -> Option<Outcome> {
    let tb = one_over(8000)?;
    run_chain(rt, alloc, tb, size.clamp(1, 1024), 10_000, limit)
}

// Whether the sink was fed so many packets, and at most six more were sent.
fn is_spent(got: Option<Outcome>, limit: usize, taken: u32) -> bool {
    let Some(got) = got else {
        return false;
    };
    let want = Outcome {
        taken,
        in_order: true,
        ended: true,
        sound: true,
        ..got
    };
    (got == want) & (got.sent <= limit.saturating_add(6))
}

// A relay that ends early stops the source. At most six packets more are on their way, one at each port, wire, end
// and link between them.
#[test]
fn spent(rt: HostRuntime) {
    for (limit, taken) in [(0usize, 0u32), (1, 1), (2, 2), (3, 3)] {
        let got = outcome(&rt, rt.alloc(), 1, limit);
        assert!(rt; is_spent(got, limit, taken), "limit {limit}: {got:?}");
    }
}

#[test]
fn streams(rt: HostRuntime) {
    let want = Outcome {
        sent: 10_000,
        taken: 10_000,
        in_order: true,
        ended: true,
        sound: true,
    };
    for size in [1usize, 2, 8, 1_024] {
        let got = outcome(&rt, rt.alloc(), size, usize::MAX);
        assert_eq!(rt; got, Some(want), "size {size}");
    }
}
