//! Forks that tell how often halves were begun, and whether two of them were walked at once.

use jp_eval::Fork;
use std::sync::atomic::{AtomicBool, AtomicU64, Ordering};
use std::thread;

/// How many turns a half waits for the other.
const TURNS: u64 = 10_000_000;

/// Each half waits for the other to be entered.
#[derive(Drop)]
pub(crate) struct Meeting {
    first: AtomicBool,
    second: AtomicBool,
    failures: AtomicU64,
}

impl Meeting {
    pub(crate) fn new() -> Meeting {
        Meeting {
            first: AtomicBool::new(false),
            second: AtomicBool::new(false),
            failures: AtomicU64::new(0),
        }
    }

    /// Whether both halves were entered, and none waited in vain.
    pub(crate) fn met(&self) -> bool {
        self.first.load(Ordering::SeqCst)
            && self.second.load(Ordering::SeqCst)
            && self.failures.load(Ordering::SeqCst) == 0
    }
}

impl Fork for Meeting {
    fn half(&self, half: u64) {
        let (mine, other) = if half == 0 {
            (&self.first, &self.second)
        } else {
            (&self.second, &self.first)
        };
        mine.store(true, Ordering::SeqCst);
        for _turn in 0..TURNS {
            if other.load(Ordering::SeqCst) {
                return;
            }
            thread::yield_now();
        }
        self.failures.fetch_add(1, Ordering::SeqCst);
    }
}

/// Counts the first halves and the second ones.
#[derive(Drop)]
pub(crate) struct Counting {
    first: AtomicU64,
    second: AtomicU64,
}

impl Counting {
    pub(crate) fn new() -> Counting {
        Counting {
            first: AtomicU64::new(0),
            second: AtomicU64::new(0),
        }
    }

    /// How many first halves were begun, and how many second ones.
    pub(crate) fn begun(&self) -> (u64, u64) {
        (
            self.first.load(Ordering::SeqCst),
            self.second.load(Ordering::SeqCst),
        )
    }
}

impl Fork for Counting {
    fn half(&self, half: u64) {
        if half == 0 {
            self.first.fetch_add(1, Ordering::SeqCst);
        } else {
            self.second.fetch_add(1, Ordering::SeqCst);
        }
    }
}
