//! The ports that came back, with room for those that are out.
ghost use Rattle.std.specs.Prelude.{◌≡◌, ◌<◌, ◌+◌, ◌∷◌, ◌++◌, [], OnOk, OnErr};
ghost use Rattle.worker_ports.specs.Returns.{kept};

use arc_core::NoMemory;
use std::alloc::Global;
use std::marker::Model;

/// The ports that came back, with room for those that are out. Contracts see both.
#[derive(Drop)]
pub struct Returns<P> {
    ports: Vec<P>,
    out: usize,
}

impl<P> Model for Returns<P> {
    ghost use Rattle.std.specs.Prelude.{◌+◌, ◌≤◌, vec_len, vec_capacity};
    ghost use Rattle.worker_ports.specs.Returns.{Kept, kept};

    ghost Value = { Kept P };

    ghost view = { λ returns. kept returns.ports.items returns.out };

    ghost invariant = { λ returns. vec_len returns.ports + returns.out ≤ vec_capacity returns.ports };
}

impl<P> Returns<P> {
    /// None came back, and none is out. Takes no memory.
    pub fn new(alloc: Global) -> Returns<P>
        ensures { result ≡ kept [] 0 }
    {
        Returns {
            ports: Vec::new(alloc),
            out: 0,
        }
    }

    /// The ports that came back.
    pub fn ports(&self) -> &[P]
        ensures { result.now ≡ self.now.returned }
    {
        &self.ports
    }

    /// Makes room for one more, which is out from now on. `NoMemory` comes for want of memory alone, and nothing has changed
    /// then.
    pub fn lend(&mut self) -> Result<(), NoMemory>
        ensures lent { OnOk result (self.new ≡ kept self.old.returned (self.old.out + 1)) }
        ensures refused { OnErr result (self.new ≡ self.old) }
    {
        if self.out >= usize::MAX >> 1 || self.ports.reserve(self.out + 1).is_err() {
            return Err(NoMemory);
        }
        self.out += 1;
        Ok(())
    }

    /// Takes one back, behind the others. Takes no memory.
    pub fn take(&mut self, port: P)
        requires { 0 < self.old.out }
        ensures back { self.new.returned ≡ self.old.returned ++ port ∷ [] }
        ensures out { self.old.out ≡ self.new.out + 1 }
    {
        self.ports.push_reserved(port);
        self.out -= 1;
    }
}
