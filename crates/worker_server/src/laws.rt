//! What the contracts' words imply, for callers' contracts.
ghost use Rattle.arc_core.specs.Outside.{linked};
ghost use Rattle.worker_server.specs.Apart.{SessionsAreApart};

use arc_core::Link;

/// Does nothing, and tells contracts that of a worker's calls each session's are those with its number.
pub fn sessions_are_apart<L: Link>()
    ensures { SessionsAreApart
        (λ link. linked (L.left link) (L.read_faults link) (L.sent link) (L.write_faults link) (L.refusals link) (L.agains link)) }
{}
