//! All pollers of a server.
ghost use Rattle.std.specs.Prelude.{◌<◌, List, ℕ, Option};
ghost use Rattle.worker_ports.specs.Hands.{ports_state, Binds, Hands, TakesPort};
ghost use Rattle.worker_server.specs.Ports.{port_state};

use arc_core::Failed;
use event_port::Poller;
use worker_ports::{Handed, Ports};

/// Where the pollers of event workers come from, and where they go back to, beside the ports of workers that block.
///
/// Pollers are handed out and taken back as ports are, and their calls are counted with those of the ports: there is one count
/// of faults, and one of refusals for want of memory. They tell the pollers that are to be handed out and those that were taken
/// back, as pollers in memory do, or they tell nothing, as those over sockets; whether they tell is the same before and after
/// each call.
pub trait EventPorts: Ports {
    type Poller: Poller;

    /// The pollers that are to be handed out, where they are told.
    ghost pollers_waiting: { Self → Option (List Self.Poller) };

    /// The pollers that were taken back, where they are told.
    ghost pollers_back: { Self → Option (List Self.Poller) };

    /// How many pollers are out.
    ghost pollers_out: { Self → ℕ };

    /// Has connections to this number come to the pollers, where that means something: 1 to 65,535.
    fn bind_pollers(&mut self, number: u16) -> Result<(), Failed>
        ensures { Binds (ports_state (pollers_waiting self.old) (pollers_back self.old) (pollers_out self.old) (Self.faults self.old) (Self.refusals self.old))
            (ports_state (pollers_waiting self.new) (pollers_back self.new) (pollers_out self.new) (Self.faults self.new) (Self.refusals self.new)) result };

    /// A poller for one more worker. It makes the room that this poller will need when it comes back.
    fn hand_poller(&mut self) -> Handed<Self::Poller>
        ensures { Hands (λ poller. port_state (Self.Poller.links poller) (Self.Poller.returned poller) (Self.Poller.faults poller) (Self.Poller.refusals poller))
            (ports_state (pollers_waiting self.old) (pollers_back self.old) (pollers_out self.old) (Self.faults self.old) (Self.refusals self.old))
            (ports_state (pollers_waiting self.new) (pollers_back self.new) (pollers_out self.new) (Self.faults self.new) (Self.refusals self.new)) result };

    /// Takes a poller back. Takes no memory: a poller that is out has its room.
    fn back_poller(&mut self, poller: Self::Poller)
        requires { 0 < pollers_out self.old }
        ensures { TakesPort (ports_state (pollers_waiting self.old) (pollers_back self.old) (pollers_out self.old) (Self.faults self.old) (Self.refusals self.old))
            poller (port_state (Self.Poller.links poller) (Self.Poller.returned poller) (Self.Poller.faults poller) (Self.Poller.refusals poller))
            (ports_state (pollers_waiting self.new) (pollers_back self.new) (pollers_out self.new) (Self.faults self.new) (Self.refusals self.new)) };
}
