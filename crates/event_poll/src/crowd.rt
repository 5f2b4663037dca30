//! How many connections each of several event workers has.

use std::alloc::{AllocError, Global};
use std::sync::Arc;
use std::sync::atomic::{AtomicU64, Ordering};

/// The most workers whose connections are counted.
pub(crate) const MOST_WORKERS: usize = 4096;

/// The count of a place that no worker has.
const NOBODY: u64 = u64::MAX;

/// The counts of all workers, and the place of one. Places are given from the first on.
#[derive(Drop)]
pub(crate) struct Crowd {
    counts: Arc<Vec<AtomicU64>>,
    place: usize,
}

impl Crowd {
    /// The counts of workers that are still to come, none of which has a place.
    pub(crate) fn new(alloc: Global) -> Result<Crowd, AllocError> {
        let mut counts = Vec::with_capacity(alloc, MOST_WORKERS)?;
        for _ in 0..MOST_WORKERS {
            counts.push(AtomicU64::new(NOBODY))?;
        }
        Ok(Crowd {
            counts: Arc::new(alloc, counts)?,
            place: MOST_WORKERS,
        })
    }

    /// The same counts, for one more worker, at this place: the next one. It has no connection yet. Beyond 4,096 workers its
    /// connections are not counted.
    pub(crate) fn of(&self, place: usize) -> Result<Crowd, AllocError> {
        let counts = Arc::try_clone(&self.counts)?;
        if let Some(count) = self.counts.get(place) {
            count.store(0, Ordering::SeqCst);
        }
        Ok(Crowd { counts, place })
    }

    /// Whether no other worker has fewer connections.
    pub(crate) fn is_least(&self) -> bool {
        let Some(own) = self.counts.get(self.place) else {
            return true;
        };
        let mine = own.load(Ordering::SeqCst);
        for count in self.counts.iter() {
            let theirs = count.load(Ordering::SeqCst);
            if theirs == NOBODY {
                return true;
            }
            if theirs < mine {
                return false;
            }
        }
        true
    }

    /// This worker has one connection more.
    pub(crate) fn come(&self) {
        if let Some(count) = self.counts.get(self.place) {
            count.fetch_add(1, Ordering::SeqCst);
        }
    }

    /// This worker has one connection fewer.
    pub(crate) fn go(&self) {
        if let Some(count) = self.counts.get(self.place) {
            count.fetch_sub(1, Ordering::SeqCst);
        }
    }
}
