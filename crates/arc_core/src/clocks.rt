//! A clock that tells a list of seconds.
ghost use Rattle.std.specs.Prelude.{◌≡◌, ◌<◌, ◌≤◌, Some, drop, take, length};

use crate::Clock;

/// The most seconds that a `ListClock` holds.
const MOST_SECONDS: usize = 64;

/// A clock that answers 1 to 64 seconds in their order, and then the last of them for ever.
#[derive(Drop)]
pub struct ListClock {
    seconds: [u32; MOST_SECONDS],
    len: usize,
    at: usize,
    ghost held: { at < len },
    ghost fits: { len ≤ 64 },
}

impl ListClock {
    /// A clock of these seconds, of which there are 1 to 64. Takes no memory.
    pub fn new(seconds: &[u32]) -> ListClock
        requires some { 0 < length seconds.now }
        requires fits { length seconds.now ≤ 64 }
        ensures { ⟦<ListClock as Clock>⟧.coming result ≡ Some seconds.now }
    {
        let mut held = [0; MOST_SECONDS];
        let len = seconds.len();
        held[..len].copy_from_slice(seconds);
        ListClock {
            seconds: held,
            len,
            at: 0,
        }
    }
}

impl Clock for ListClock {
    ghost coming = { λ clock. Some (drop clock.at (take clock.len clock.seconds)) };

    fn second(&mut self) -> u32 {
        let second = self.seconds[self.at];
        if self.at + 1 < self.len {
            self.at += 1;
        }
        second
    }

    fn twin(&self) -> ListClock {
        ListClock {
            seconds: self.seconds,
            len: self.len,
            at: self.at,
        }
    }
}
