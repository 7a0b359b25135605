//! A gate at which CPU 0's calls are held.
use cpu_threads::Gate;
use std::sync::atomic::{AtomicU64, Ordering};

/// The turns that are waited at most.
pub(crate) const TURNS: u64 = 50_000_000;

/// CPU 0's calls hold their parts until a call of CPU 1's was answered.
#[derive(Drop)]
pub(crate) struct Held {
    taken: AtomicU64,
    answered: AtomicU64,
    late: AtomicU64,
}

impl Held {
    pub(crate) fn new() -> Held {
        Held {
            taken: AtomicU64::new(0),
            answered: AtomicU64::new(0),
            late: AtomicU64::new(0),
        }
    }

    /// Waits until CPU 0's call holds its parts, for `TURNS` turns at most, and answers whether it does.
    pub(crate) fn is_taken(&self) -> bool {
        is_set_in_time(&self.taken)
    }

    /// Whether CPU 0 has waited in vain.
    pub(crate) fn was_late(&self) -> bool {
        self.late.load(Ordering::SeqCst) != 0
    }
}

/// Waits until a word is set, for `TURNS` turns at most, and answers whether it was set.
fn is_set_in_time(word: &AtomicU64) -> bool {
    for _ in 0..TURNS {
        if word.load(Ordering::SeqCst) != 0 {
            return true;
        }
    }
    false
}

impl Gate for Held {
    ghost heard_taken = { λ gate cpu number. Unit {0} };

    ghost heard_answered = { λ gate cpu number. Unit {0} };

    fn taken(&self, cpu: u64, _number: u64) {
        if cpu != 0 {
            return;
        }
        self.taken.store(1, Ordering::SeqCst);
        if !is_set_in_time(&self.answered) {
            self.late.store(1, Ordering::SeqCst);
        }
    }

    fn answered(&self, cpu: u64, _number: u64) {
        if cpu == 1 {
            self.answered.store(1, Ordering::SeqCst);
        }
    }
}
