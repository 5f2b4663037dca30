//! The run of piped commands that is open.
ghost use Rattle.std.specs.Prelude.{◌≡◌, ◌≤◌, length, true, if◌then◌else◌, IfOk};
ghost use Rattle.pipe_session.specs.Runs.{no_run, is_fine, takes_one, with_status, passed_over, broken_off};

use arc_core::{NoMemory, PipeFault, PipeStatus};
use reply_print::status_fails;
use std::alloc::Global;
use std::marker::Model;

/// The most statuses of a run. (ARCUS's limit of piped commands.)
const MAX_STATUSES: usize = 500;

/// The statuses of the run of piped commands that is open, 500 at most, and why its next units are not executed. Contracts
/// see what is kept of the run.
#[derive(Drop)]
pub struct Run {
    // Never more than its memory, which is taken once.
    statuses: Vec<PipeStatus>,
    fault: PipeFault,
    is_open: bool,
}

impl Model for Run {
    ghost use Rattle.std.specs.Prelude.{◌≤◌, vec_len, vec_capacity};
    ghost use Rattle.pipe_session.specs.Runs.{Kept};

    ghost Value = { Kept };

    ghost view = { λ run. record { is_open = run.is_open; statuses = run.statuses.items; fault = run.fault } };

    ghost invariant = { λ run. (vec_len run.statuses ≤ 500) × (500 ≤ vec_capacity run.statuses) };
}

impl Run {
    /// No run is open. It takes memory for 500 statuses, and none later. `NoMemory` comes for want of memory alone.
    pub fn new(alloc: Global) -> Result<Run, NoMemory>
        ensures { IfOk result (λ run. run ≡ no_run) }
    {
        let statuses = Vec::with_capacity(alloc, MAX_STATUSES)?;
        Ok(Run {
            statuses,
            fault: PipeFault::Nothing,
            is_open: false,
        })
    }

    /// Whether a run is open.
    pub fn is_open(&self) -> bool
        ensures { result ≡ self.now.is_open }
    {
        self.is_open
    }

    /// The statuses.
    pub fn statuses(&self) -> &[PipeStatus]
        ensures statuses { result.now ≡ self.now.statuses }
        ensures few { length result.now ≤ 500 }
    {
        &self.statuses
    }

    /// Why the run is answered so that its last unit has ended.
    pub fn fault(&self) -> PipeFault
        ensures { result ≡ self.now.fault }
    {
        self.fault
    }

    /// Why the run is answered so that is broken off.
    pub fn broken_off(&self) -> PipeFault
        ensures { result ≡ broken_off self.now.fault }
    {
        match self.fault {
            PipeFault::Nothing => PipeFault::BadError,
            PipeFault::BadError => PipeFault::BadError,
            PipeFault::Overflow => PipeFault::Overflow,
        }
    }

    /// Whether the next unit is to be executed: its status comes next. Else it is passed over.
    pub fn takes_one(&mut self) -> bool
        ensures takes { result ≡ takes_one self.old }
        ensures kept { self.new ≡ (if result then self.old else passed_over self.old) }
    {
        let fine = is_fine(self.fault);
        if fine && self.statuses.len() < MAX_STATUSES {
            return true;
        }
        if fine {
            self.fault = PipeFault::Overflow;
        }
        self.is_open = true;
        false
    }

    /// Puts the status of a unit that is executed.
    pub fn put(&mut self, status: PipeStatus)
        requires { takes_one self.old ≡ true }
        ensures { self.new ≡ with_status self.old status }
    {
        self.statuses.push_reserved(status);
        self.fault = if status_fails(status) {
            PipeFault::BadError
        } else {
            PipeFault::Nothing
        };
        self.is_open = true;
    }

    /// No run is open any more.
    pub fn clear(&mut self)
        ensures { self.new ≡ no_run }
    {
        self.statuses.clear();
        self.fault = PipeFault::Nothing;
        self.is_open = false;
    }
}

// Whether nothing has gone wrong.
fn is_fine(fault: PipeFault) -> bool
    ensures { result ≡ is_fine fault }
{
    matches!(fault, PipeFault::Nothing)
}
