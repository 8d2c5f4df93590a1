//! Where a line comes, so that another can wait for it.
use std::sync::atomic::{AtomicBool, Ordering};

/// How often a line looks for the other at most: some seconds.
const MOST_LOOKS: u64 = 5_000_000_000;

/// Where one of the two lines comes.
#[derive(Drop)]
pub(super) struct Place {
    pub(super) come: AtomicBool,
    pub(super) met: AtomicBool,
}

impl Place {
    pub(super) fn new() -> Place {
        Place {
            come: AtomicBool::new(false),
            met: AtomicBool::new(false),
        }
    }

    /// Comes, and waits for the other.
    pub(super) fn wait_for(&self, other: &Place) {
        self.come.store(true, Ordering::SeqCst);
        for _ in 0..MOST_LOOKS {
            if other.come.load(Ordering::SeqCst) {
                self.met.store(true, Ordering::SeqCst);
                return;
            }
        }
    }
}
