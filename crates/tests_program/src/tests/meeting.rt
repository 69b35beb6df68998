use crate::tests::{THREE_ITEMS, run_between, says, source_of};
use disk::MemDisk;
use search_workers::{Gate, Step};
use std::alloc::Global;
use std::process::Abort;
use std::sync::Wait;
use std::sync::atomic::{AtomicU32, AtomicU64, Ordering};
use std::thread::Threads;
use streams::MemSink;

/// How often a held worker looks for the other one.
const TURNS: u32 = 10_000_000;

/// A gate that holds the worker that passes it second with a subproblem taken, until another one has finished something since.
#[derive(Debug, Drop)]
struct Meeting {
    taken: AtomicU32,
    // Each worker's finishes, the first one's in the lower half.
    finished: AtomicU64,
    met: AtomicU32,
}

impl Meeting {
    fn new() -> Meeting {
        Meeting {
            taken: AtomicU32::new(0),
            finished: AtomicU64::new(0),
            met: AtomicU32::new(0),
        }
    }

    /// How many finishes the other of two workers has passed.
    fn finished_by_other(&self, worker: u32) -> u64 {
        let all = self.finished.load(Ordering::SeqCst);
        if worker == 0 {
            all >> 32
        } else {
            all & 0xFFFF_FFFF
        }
    }

    /// Waits for the other worker.
    fn hold(&self, worker: u32) {
        let before = self.finished_by_other(worker);
        for _ in 0..TURNS {
            if self.finished_by_other(worker) != before {
                self.met.store(1, Ordering::SeqCst);
                return;
            }
        }
    }
}

impl Gate for Meeting {
    fn pass(&self, worker: u32, at: Step) {
        match at {
            Step::Taken => {
                if self.taken.fetch_add(1, Ordering::SeqCst) == 1 {
                    self.hold(worker);
                }
            }
            Step::Finished => {
                let one = if worker == 0 { 1 } else { 1 << 32 };
                self.finished.fetch_add(one, Ordering::SeqCst);
            }
            _ => {}
        }
    }
}

/// A gate that holds the worker that takes first until the other one has found nothing open, and from then on whenever it takes until
/// the other one has taken something.
#[derive(Debug, Drop)]
struct Staying {
    // The number of the worker that took first, once one did.
    first: AtomicU32,
    waited: AtomicU32,
    stayed: AtomicU32,
}

impl Staying {
    fn new() -> Staying {
        Staying {
            first: AtomicU32::new(u32::MAX),
            waited: AtomicU32::new(0),
            stayed: AtomicU32::new(0),
        }
    }

    /// Waits until the other worker has raised the flag.
    fn hold(flag: &AtomicU32) {
        for _ in 0..TURNS {
            if flag.load(Ordering::SeqCst) == 1 {
                return;
            }
        }
    }

    /// The worker took something.
    fn took(&self, worker: u32) {
        let first = self.first.load(Ordering::SeqCst);
        if first == u32::MAX {
            self.first.store(worker, Ordering::SeqCst);
            Staying::hold(&self.waited);
        } else if first == worker {
            Staying::hold(&self.stayed);
        } else {
            self.stayed.store(1, Ordering::SeqCst);
        }
    }
}

impl Gate for Staying {
    fn pass(&self, worker: u32, at: Step) {
        match at {
            Step::Taken => self.took(worker),
            Step::Waiting => self.waited.store(1, Ordering::SeqCst),
            _ => {}
        }
    }
}

/// Whether two workers at this gate tell what row `knapsack-first` has.
fn tells_first<R: Abort + Threads + Wait + Sync, G: Gate + Sync>(
    rt: &R,
    alloc: Global,
    gate: &G,
) -> bool {
    let told = run_between(
        rt,
        alloc,
        "solve knapsack --width 1 --workers 2",
        source_of(rt, alloc, THREE_ITEMS.as_bytes(), &[]),
        MemSink::new(alloc, Vec::new(alloc)),
        MemDisk::new(Vec::new(alloc), Vec::new(alloc)),
        gate,
    );
    says(&told, "proved\nvalue 120\nassignment 0 1 1\n", 0)
}

#[test]
fn two_workers_meet(rt: HostRuntime) {
    let gate = Meeting::new();
    let right = tells_first(&rt, rt.alloc(), &gate);
    assert_eq!(rt; (right, gate.met.load(Ordering::SeqCst)), (true, 1));
}

/// A worker that found nothing open while the other was at work takes again.
#[test]
fn a_worker_that_waited_stays(rt: HostRuntime) {
    let gate = Staying::new();
    let right = tells_first(&rt, rt.alloc(), &gate);
    let passed = (
        gate.waited.load(Ordering::SeqCst),
        gate.stayed.load(Ordering::SeqCst),
    );
    assert_eq!(rt; (right, passed), (true, (1, 1)));
}
