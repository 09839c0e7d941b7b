//! Gates that tell which pieces were worked on, and whether two of them were at once.

use jp_answer::Gate;
use std::sync::atomic::{AtomicBool, AtomicU64, Ordering};
use std::thread;

/// How many turns a gate waits for another piece.
const TURNS: u64 = 10_000_000;

/// Which of the first three pieces have entered, and how often one of them waited in vain.
#[derive(Drop)]
pub(crate) struct Entered {
    pieces: [AtomicBool; 3],
    failures: AtomicU64,
}

impl Entered {
    pub(crate) fn new() -> Entered {
        Entered {
            pieces: [
                AtomicBool::new(false),
                AtomicBool::new(false),
                AtomicBool::new(false),
            ],
            failures: AtomicU64::new(0),
        }
    }

    /// Which pieces have entered.
    pub(crate) fn seen(&self) -> [bool; 3] {
        [
            self.pieces[0].load(Ordering::SeqCst),
            self.pieces[1].load(Ordering::SeqCst),
            self.pieces[2].load(Ordering::SeqCst),
        ]
    }

    /// How often a piece waited in vain.
    pub(crate) fn failures(&self) -> u64 {
        self.failures.load(Ordering::SeqCst)
    }

    fn enter(&self, piece: u64) {
        if let Some(mine) = self.pieces.get(piece as usize) {
            mine.store(true, Ordering::SeqCst);
        }
    }

    fn wait_for(&self, piece: usize) {
        let Some(other) = self.pieces.get(piece) else {
            return;
        };
        for _turn in 0..TURNS {
            if other.load(Ordering::SeqCst) {
                return;
            }
            thread::yield_now();
        }
        self.failures.fetch_add(1, Ordering::SeqCst);
    }
}

/// The first two pieces wait for each other.
#[derive(Drop)]
pub(crate) struct Pair(pub(crate) Entered);

impl Gate for Pair {
    fn pass(&self, piece: u64) {
        self.0.enter(piece);
        match piece {
            0 => self.0.wait_for(1),
            1 => self.0.wait_for(0),
            _ => (),
        }
    }
}

/// The first piece waits for the third.
#[derive(Drop)]
pub(crate) struct FirstWaits(pub(crate) Entered);

impl Gate for FirstWaits {
    fn pass(&self, piece: u64) {
        self.0.enter(piece);
        if piece == 0 {
            self.0.wait_for(2);
        }
    }
}

/// The sum of 10^piece over all pieces below 16 that have passed: how often each did, a digit each.
#[derive(Drop)]
pub(crate) struct Recorder(pub(crate) AtomicU64);

impl Gate for Recorder {
    fn pass(&self, piece: u64) {
        let mut digit = 1u64;
        for _place in 0..piece.min(16) {
            digit = digit.wrapping_mul(10);
        }
        self.0.fetch_add(digit, Ordering::SeqCst);
    }
}
