//! Gates of workers.

use std::sync::atomic::{AtomicBool, AtomicU64, Ordering};
use tree_shared::Gate;

/// The most rounds in which something is waited for.
const ROUNDS: u32 = 200_000_000;

/// The turn from which on four seats are waited for.
const LATE_TURN: u32 = 200;

/// A gate that does nothing.
pub(crate) struct OpenGate;

impl Gate for OpenGate {
    fn between(&self, _seat: u32, _turn: u32) {}
}

/// What is counted at a gate, and who waits there.
#[derive(Clone, Copy)]
pub(crate) enum Watched {
    /// The turns. Turns 1 and 2 each wait until the other has come.
    Turns,
    /// The seats. Late turns wait until the seats 0 to 3 have come.
    Seats,
}

/// A gate that counts how often each number came, those from 4 on together. A wait that is given up is told.
#[derive(Drop)]
pub(crate) struct Watch {
    watched: Watched,
    counts: [AtomicU64; 5],
    is_given_up: AtomicBool,
}

impl Watch {
    /// A gate at which nothing came.
    pub(crate) fn new(watched: Watched) -> Watch {
        Watch {
            watched,
            counts: [
                AtomicU64::new(0),
                AtomicU64::new(0),
                AtomicU64::new(0),
                AtomicU64::new(0),
                AtomicU64::new(0),
            ],
            is_given_up: AtomicBool::new(false),
        }
    }

    /// How often a number came.
    pub(crate) fn count(&self, number: u32) -> u64 {
        match self.counts.get(number.min(4) as usize) {
            Some(count) => count.load(Ordering::SeqCst),
            None => 0,
        }
    }

    /// Whether a wait was given up.
    pub(crate) fn is_given_up(&self) -> bool {
        self.is_given_up.load(Ordering::SeqCst)
    }

    /// Whether all have come who are waited for.
    pub(crate) fn have_come(&self) -> bool {
        let waited = match self.watched {
            Watched::Turns => 1..3,
            Watched::Seats => 0..4,
        };
        for number in waited {
            if self.count(number) == 0 {
                return false;
            }
        }
        true
    }

    fn note(&self, number: u32) {
        match self.counts.get(number.min(4) as usize) {
            Some(count) => {
                count.fetch_add(1, Ordering::SeqCst);
            }
            None => {}
        }
    }

    // Nobody waits any more once a wait was given up.
    fn wait(&self) {
        for _ in 0..ROUNDS {
            if self.have_come() || self.is_given_up() {
                return;
            }
        }
        self.is_given_up.store(true, Ordering::SeqCst);
    }
}

impl Gate for Watch {
    fn between(&self, seat: u32, turn: u32) {
        let (number, waits) = match self.watched {
            Watched::Turns => (turn, turn == 1 || turn == 2),
            Watched::Seats => (seat, turn >= LATE_TURN),
        };
        self.note(number);
        if waits {
            self.wait();
        }
    }
}
