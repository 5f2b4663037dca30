//! Where a worker's links come from and go back to.
ghost use Rattle.std.specs.Prelude.{List, ℕ, Option};
ghost use Rattle.arc_core.specs.declared.ends.End.{End};
ghost use Rattle.worker_server.specs.Ports.{port_state, Offers, IfLink, TakesBack};

use arc_core::{End, Link};

/// The answer of a port that was asked for the next session's link.
pub enum Next<L> {
    /// The link.
    Link(L),
    /// No link is left.
    Closed,
    /// The port failed, and counted it. The links are as before.
    Failed,
    /// Memory was refused to the port, and it counted the refusal. The links are as before.
    NoMemory,
}

/// Where the links of one worker come from, and where they go back to.
///
/// A port counts its faults, and its refusals for want of memory. A count never falls, and `next` raises it only where it
/// answers that. A port tells its links, as one in memory does, or it tells nothing, as one over sockets; whether it tells
/// is the same before and after each call.
pub trait Port {
    type Link: Link;

    /// The links that are to come, where the port tells them.
    ghost links: { Self → Option (List Self.Link) };

    /// The links that came back, each with the end of its session, where the port tells them.
    ghost returned: { Self → Option (List (Self.Link × End)) };

    /// How often the port has failed.
    ghost faults: { Self → ℕ };

    /// How often it was refused memory.
    ghost refusals: { Self → ℕ };

    /// Whether it has room for a link that comes back.
    ghost has_room: { Self → Type 0 };

    /// The link of the next session. It makes the room that this link will need when it comes back.
    fn next(&mut self) -> Next<Self::Link>
        ensures offers { Offers (port_state (links self.old) (returned self.old) (faults self.old) (refusals self.old))
            (port_state (links self.new) (returned self.new) (faults self.new) (refusals self.new)) result }
        ensures room { IfLink result (has_room self.new) };

    /// Takes a link back, with the end of its session. Takes no memory: the port has room for it.
    fn done(&mut self, link: Self::Link, end: End)
        requires { has_room self.old }
        ensures { TakesBack (port_state (links self.old) (returned self.old) (faults self.old) (refusals self.old)) link end
            (port_state (links self.new) (returned self.new) (faults self.new) (refusals self.new)) };
}
