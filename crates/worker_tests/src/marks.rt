//! Marks by which two threads meet.

use std::sync::atomic::{AtomicU64, Ordering};
use tree_shared::Gate;

/// For how many rounds one waits for the other.
const ROUNDS: u32 = 200_000_000;

/// A mark of each of two threads, and how often one of them did not come.
#[derive(Drop)]
pub(crate) struct Marks {
    first: AtomicU64,
    second: AtomicU64,
    missed: AtomicU64,
}

// Raises a mark, and answers whether the other is up within the rounds.
fn meets(own: &AtomicU64, other: &AtomicU64) -> bool {
    own.store(1, Ordering::SeqCst);
    for _ in 0..ROUNDS {
        if other.load(Ordering::SeqCst) != 0 {
            return true;
        }
    }
    false
}

impl Marks {
    /// Neither is up.
    pub(crate) fn new() -> Marks {
        Marks {
            first: AtomicU64::new(0),
            second: AtomicU64::new(0),
            missed: AtomicU64::new(0),
        }
    }

    /// Raises the mark of 1 or of 2 and waits for the other's; where it does not come, that is counted.
    pub(crate) fn meet(&self, number: u32) {
        let has_met = match number {
            1 => meets(&self.first, &self.second),
            2 => meets(&self.second, &self.first),
            _ => true,
        };
        if !has_met {
            self.missed.fetch_add(1, Ordering::SeqCst);
        }
    }

    /// How often the other did not come.
    pub(crate) fn missed(&self) -> u64 {
        self.missed.load(Ordering::SeqCst)
    }
}

/// A gate at which the turns 1 and 2 wait for each other.
impl Gate for Marks {
    fn between(&self, _seat: u32, turn: u32) {
        self.meet(turn);
    }
}
