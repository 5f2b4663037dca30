//! Where the links of an event worker come from and go back to, and what tells which of them are ready.
ghost use Rattle.std.specs.Prelude.{◌≡◌, ◌<◌, List, ℕ, Option, OnOk, OnErr};
ghost use Rattle.arc_core.specs.declared.ends.End.{End};
ghost use Rattle.arc_core.specs.Outside.{linked};
ghost use Rattle.worker_server.specs.Ports.{port_state};
ghost use Rattle.event_port.specs.Pollers.{poller_state, Wakes, FailsOnce, TakesIn};

use arc_core::{End, Failed, Link};

/// The answer of a poller that was asked for what comes next.
pub enum Wake<L> {
    /// A further link.
    Fresh(L),
    /// The link that is watched under this token may be ready. This is a hint: nothing has to be ready, and no link has to
    /// be watched under the token.
    Ready(usize),
    /// No link is left.
    Closed,
    /// The poller failed, and counted it. The links are as before.
    Failed,
    /// Memory was refused to the poller, and it counted the refusal. The links are as before.
    NoMemory,
}

/// Where the links of an event worker come from, and where they go back to. Many of them may be out at once.
///
/// A poller counts its faults, and its refusals for want of memory. A count never falls, and a call raises it only where it
/// answers that. A poller tells its links, as one in memory does, or it tells nothing, as one over sockets; whether it tells
/// is the same before and after each call.
pub trait Poller {
    type Link: Link + Drop;

    /// The links that are to come, where the poller tells them.
    ghost links: { Self → Option (List Self.Link) };

    /// The links that came back, each with the end of its session, where the poller tells them.
    ghost returned: { Self → Option (List (Self.Link × End)) };

    /// How often the poller has failed.
    ghost faults: { Self → ℕ };

    /// How often it was refused memory.
    ghost refusals: { Self → ℕ };

    /// How many links it gave out that have not come back. It has room for them.
    ghost held: { Self → ℕ };

    /// The next link, or a watched one that may be ready. It may wait. It makes the room that a link will need when it comes
    /// back.
    fn wait(&mut self) -> Wake<Self::Link>
        ensures { Wakes (poller_state (port_state (links self.old) (returned self.old) (faults self.old) (refusals self.old)) (held self.old))
            (poller_state (port_state (links self.new) (returned self.new) (faults self.new) (refusals self.new)) (held self.new)) result };

    /// Has `wait` tell this token when the link may be ready again. The link is left as it is.
    fn watch(&mut self, token: usize, link: &mut Self::Link) -> Result<(), Failed>
        ensures watched { OnOk result (poller_state (port_state (links self.new) (returned self.new) (faults self.new) (refusals self.new)) (held self.new)
            ≡ poller_state (port_state (links self.old) (returned self.old) (faults self.old) (refusals self.old)) (held self.old)) }
        ensures failed { OnErr result (FailsOnce (poller_state (port_state (links self.old) (returned self.old) (faults self.old) (refusals self.old)) (held self.old))
            (poller_state (port_state (links self.new) (returned self.new) (faults self.new) (refusals self.new)) (held self.new))) }
        ensures link { linked (Self.Link.left link.new) (Self.Link.read_faults link.new) (Self.Link.sent link.new) (Self.Link.write_faults link.new) (Self.Link.refusals link.new) (Self.Link.agains link.new)
            ≡ linked (Self.Link.left link.old) (Self.Link.read_faults link.old) (Self.Link.sent link.old) (Self.Link.write_faults link.old) (Self.Link.refusals link.old) (Self.Link.agains link.old) };

    /// Takes a link back, with the end of its session. Takes no memory: the poller has room for each link that is out.
    fn done(&mut self, link: Self::Link, end: End)
        requires { 0 < held self.old }
        ensures { TakesIn (poller_state (port_state (links self.old) (returned self.old) (faults self.old) (refusals self.old)) (held self.old)) link end
            (poller_state (port_state (links self.new) (returned self.new) (faults self.new) (refusals self.new)) (held self.new)) };
}
