//! How the workers ended, all together.
ghost use Rattle.std.specs.Prelude.{◌≡◌, ◌≤◌, length};
ghost use Rattle.serve_runs.specs.Verdicts.{Tells, has_failed, was_refused};

use worker_server::WorkerEnd;
use worker_team::Member;

/// How all workers ended.
#[derive(Clone, Copy, Debug, PartialEq, Eq)]
pub enum Verdict {
    /// Each since no link was left or it had served as many as it may; so many links were served in all.
    Well(u128),
    /// A port failed.
    PortFault,
    /// No port failed, and one was refused memory.
    NoMemory,
}

/// How these workers, 4,096 at most, ended.
pub fn verdict_on<P>(members: &[Member<P>]) -> Verdict
    requires { length members.now ≤ 4096 }
    ensures { Tells members.now result }
{
    let mut total = 0;
    let mut failed = false;
    let mut refused = false;
    for member in members {
        total += u128::from(member.served);
        failed |= has_failed(member.end);
        refused |= was_refused(member.end);
    }
    match (failed, refused) {
        (true, _) => Verdict::PortFault,
        (false, true) => Verdict::NoMemory,
        (false, false) => Verdict::Well(total),
    }
}

// Whether a worker's port failed.
fn has_failed(end: WorkerEnd) -> bool
    ensures { result ≡ has_failed end }
{
    matches!(end, WorkerEnd::PortFault)
}

// Whether a worker's port was refused memory.
fn was_refused(end: WorkerEnd) -> bool
    ensures { result ≡ was_refused end }
{
    matches!(end, WorkerEnd::NoMemory)
}
