//! The sessions of a script, by several workers.
ghost use Rattle.std.specs.Prelude.{◌≡◌, ◌≤◌};
ghost use Rattle.arc_core.specs.Outside.{incoming, outgoing};
ghost use Rattle.pipe_session.specs.Outside.{outside};
ghost use Rattle.arcus_tool.specs.Running.{RunsScript};

use crate::sessions::cache_of;
use crate::status::{Status, run_status};
use arc_core::{Clock, Sink, Source};
use script_runs::run_script;
use std::alloc::Global;
use std::sync::Wait;
use std::thread::Threads;

/// Reads a script from the source, serves its sessions by `workers` workers, 1 to 4,096, over one cache of `limit` mebibytes, 1
/// to 4,096, of which the sticky items may take `share` percent, 0 to 100, and writes what came of each session, in the
/// script's order.
///
/// How it ends is as `run_script` says: `BadScript` where the input is no script, `LongInput` where it has more than 2^28 bytes.
/// How a single session ends is told in the output. It may wait. (This server's own.)
pub fn many<R: Threads + Wait + Sync, S: Source, K: Sink, C: Clock + Drop + Send>(
    rt: &R,
    alloc: Global,
    workers: u32,
    limit: u32,
    share: u32,
    source: &mut S,
    sink: &mut K,
    clock: &C,
) -> Status
    requires some { 1 ≤ workers }
    requires few { workers ≤ 4096 }
    requires at_least { 1 ≤ limit }
    requires at_most { limit ≤ 4096 }
    requires percent { share ≤ 100 }
    ensures { RunsScript workers limit share
        (outside (incoming (S.left source.old) (S.read_faults source.old))
        (outgoing (K.sent sink.old) (K.write_faults sink.old) (K.refusals sink.old)) (C.coming clock.now))
        (outside (incoming (S.left source.new) (S.read_faults source.new))
        (outgoing (K.sent sink.new) (K.write_faults sink.new) (K.refusals sink.new)) (C.coming clock.now))
        result }
{
    match cache_of(alloc, limit, share) {
        Ok(cache) => run_status(run_script(rt, alloc, cache, workers, source, sink, clock)),
        Err(_) => Status::NoMemory,
    }
}
