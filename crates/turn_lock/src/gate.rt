//! The gate before the ticket: who may draw next. No clause speaks of it.
use std::hint::spin_loop;
use std::sync::Wait;
use std::sync::atomic::AtomicU64;
use std::sync::atomic::Ordering::SeqCst;

// Nobody is inside.
const OPEN: u64 = 0;
// One thread is inside.
const INSIDE: u64 = 1;
// One thread is inside, and others may sleep.
const CROWDED: u64 = 2;
// How often a thread looks before it sleeps.
const LOOKS: u32 = 100;

/// One thread at a time is between `enter` and `leave`.
///
/// A ticket hands the turn to one certain thread. Where that thread does not run just then, all others would wait for
/// it. So tickets are drawn one at a time, and a thread that has none is not waited for.
#[derive(Drop)]
pub struct Gate {
    word: AtomicU64,
}

impl Gate {
    /// A gate that stands open. No clause says anything of a gate: who is behind it decides no turn.
    pub fn new() -> Gate {
        Gate {
            word: AtomicU64::new(OPEN),
        }
    }

    /// Waits until the gate is open, and shuts it. No clause: that a thread was let in tells nothing of the table.
    pub fn enter<R: Wait>(&self, rt: &R) {
        if !self.slips_in() {
            self.wait(rt);
        }
    }

    fn slips_in(&self) -> bool {
        self.word
            .compare_exchange(OPEN, INSIDE, SeqCst, SeqCst)
            .is_ok()
    }

    #[inline(never)]
    fn wait<R: Wait>(&self, rt: &R) {
        for _ in 0..LOOKS {
            if self.word.load(SeqCst) == OPEN && self.slips_in() {
                return;
            }
            spin_loop();
        }
        for _ in rt.forever() {
            if self.word.swap(CROWDED, SeqCst) == OPEN {
                return;
            }
            self.word.park(rt, CROWDED as u32);
        }
        unreachable!()
    }

    /// Opens the gate, and wakes one thread that waits for it, where one may. No clause, as for `enter`.
    pub fn leave(&self) {
        if self.word.swap(OPEN, SeqCst) == CROWDED {
            self.word.wake_one();
        }
    }
}
