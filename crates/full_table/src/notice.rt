//! The notice that connections have to wait.
ghost use Rattle.std.specs.Prelude.{◌≡◌};
ghost use Rattle.std.specs.IoError.{raw_os_error};
ghost use Rattle.full_table.specs.Numbers.{is_full_number};

use std::alloc::{AllocError, Global};
use std::io;
use std::sync::Arc;
use std::sync::atomic::{AtomicBool, Ordering};

/// Whether an accept failed because the system has no room for a further connection now, and may have it later: this process
/// or the machine has no descriptor left, or the kernel has no memory for the socket.
pub fn is_full(error: &io::Error) -> bool
    ensures { result ≡ is_full_number (raw_os_error error.now) }
{
    match error.raw_os_error() {
        Some(number) => number == 24 || number == 23 || number == 12 || number == 105,
        None => false,
    }
}

/// Says on standard error that connections have to wait: once, however many share it. (No clause can say what was printed.)
#[derive(Drop)]
pub struct Notice {
    told: Arc<AtomicBool>,
}

impl Notice {
    /// A notice that was not given yet.
    pub fn new(alloc: Global) -> Result<Notice, AllocError> {
        Ok(Notice {
            told: Arc::new(alloc, AtomicBool::new(false))?,
        })
    }

    /// The same notice for another worker: who gives it first gives it for all.
    pub fn share(&self) -> Result<Notice, AllocError> {
        Ok(Notice {
            told: Arc::try_clone(&self.told)?,
        })
    }

    /// Gives the notice with the system's reason, unless it was given before. Where standard error takes nothing, it is not
    /// given at all.
    pub fn give<R: Eprint>(&self, rt: &R, error: &io::Error) {
        if !self.told.swap(true, Ordering::SeqCst) {
            let _given = eprintln!(rt; "arcus: connections wait: {error}");
        }
    }
}
