//! All ports of a server.
ghost use Rattle.std.specs.Prelude.{◌<◌, List, ℕ, Option};
ghost use Rattle.worker_ports.specs.Hands.{ports_state, Binds, Hands, TakesPort};
ghost use Rattle.worker_server.specs.Ports.{port_state};

use arc_core::Failed;
use worker_server::Port;

/// The answer of ports that were asked for a worker's port.
pub enum Handed<P> {
    /// The port.
    Port(P),
    /// The call failed, and was counted. The ports are as before.
    Failed,
    /// Memory was refused, and the refusal was counted. The ports are as before.
    NoMemory,
}

/// Where the ports of workers come from, and where they go back to.
///
/// They count their faults, and their refusals for want of memory. A count never falls, and a call raises it only where it
/// answers that, or where a port comes back that has failed. They tell the ports that are to be handed out and those that were
/// taken back, as ports in memory do, or they tell nothing, as those over sockets; whether they tell is the same before and
/// after each call.
pub trait Ports {
    type Port: Port;

    /// The ports that are to be handed out, where they are told.
    ghost waiting: { Self → Option (List Self.Port) };

    /// The ports that were taken back, where they are told.
    ghost taken_back: { Self → Option (List Self.Port) };

    /// How many ports are out.
    ghost out: { Self → ℕ };

    /// How often a call has failed.
    ghost faults: { Self → ℕ };

    /// How often memory was refused.
    ghost refusals: { Self → ℕ };

    /// Has connections to this number come to the ports, where that means something: 1 to 65,535.
    fn bind(&mut self, number: u16) -> Result<(), Failed>
        ensures { Binds (ports_state (waiting self.old) (taken_back self.old) (out self.old) (faults self.old) (refusals self.old))
            (ports_state (waiting self.new) (taken_back self.new) (out self.new) (faults self.new) (refusals self.new)) result };

    /// A port for one more worker. It makes the room that this port will need when it comes back.
    fn hand(&mut self) -> Handed<Self::Port>
        ensures { Hands (λ port. port_state (Self.Port.links port) (Self.Port.returned port) (Self.Port.faults port) (Self.Port.refusals port))
            (ports_state (waiting self.old) (taken_back self.old) (out self.old) (faults self.old) (refusals self.old))
            (ports_state (waiting self.new) (taken_back self.new) (out self.new) (faults self.new) (refusals self.new)) result };

    /// Takes a port back. Takes no memory: a port that is out has its room.
    fn back(&mut self, port: Self::Port)
        requires { 0 < out self.old }
        ensures { TakesPort (ports_state (waiting self.old) (taken_back self.old) (out self.old) (faults self.old) (refusals self.old))
            port (port_state (Self.Port.links port) (Self.Port.returned port) (Self.Port.faults port) (Self.Port.refusals port))
            (ports_state (waiting self.new) (taken_back self.new) (out self.new) (faults self.new) (refusals self.new)) };
}
