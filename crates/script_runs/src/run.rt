//! A run of a script.
ghost use Rattle.std.specs.Prelude.{◌≡◌, ◌≤◌, ◌^◌, length};
ghost use Rattle.arc_core.specs.Outside.{incoming, outgoing};
ghost use Rattle.pipe_session.specs.Outside.{outside};
ghost use Rattle.script_runs.specs.Runs.{IsRun, IsComplete};
ghost use Rattle.script_runs.specs.Serving.{EndsText};

use crate::input::{Input, read_whole};
use crate::script::{ScriptFault, read_script};
use crate::serving::serve_sessions;
use arc_core::{Clock, Executor, Sink, Source};
use std::alloc::Global;
use std::sync::Wait;
use std::thread::Threads;

/// How a run of a script ends.
#[derive(Clone, Copy, Debug, PartialEq, Eq)]
pub enum RunEnd {
    /// All sessions were served, and all output was written.
    Done,
    /// The source failed. Nothing was served.
    ReadFault,
    /// The sink failed. All sessions were served, and a front of the output was written.
    WriteFault,
    /// More than 2^28 bytes were taken. Nothing was served.
    LongInput,
    /// What was read is no script: the first part that is none begins at this offset. Nothing was served.
    BadScript(usize),
    /// Memory was refused.
    NoMemory,
}

/// Reads a script from the source to its end, serves its sessions by so many workers, 1 to 4,096, over one cache, and writes
/// what came of each session, in the order of the script.
///
/// Session i is served by worker i modulo the number of workers; the workers run side by side, each serves its sessions one
/// after another, and has a clock that goes on as this one. Nothing is written before all workers have ended.
///
/// `ReadFault` and `WriteFault` come only where the source or the sink has counted a fault. `LongInput` comes where more than
/// 2^28 bytes were taken, and `BadScript` exactly where the bytes are no script, at the offset of the first part that is none;
/// nothing was served then. `NoMemory` comes where memory was refused; nothing was written then, or a front of the output of a
/// script that was served whole. A session that ends early is told in the output, and is no end of the run. It may wait. (This
/// server's own.)
pub fn run_script<
    R: Threads + Wait + Sync,
    E: Executor + Drop + Send,
    S: Source,
    K: Sink,
    C: Clock + Drop + Send,
>(
    rt: &R,
    alloc: Global,
    executor: E,
    workers: u32,
    source: &mut S,
    sink: &mut K,
    clock: &C,
) -> RunEnd
    requires at_least { 1 ≤ workers }
    requires at_most { workers ≤ 4096 }
    ensures run { IsRun (E.state executor) workers
        (outside (incoming (S.left source.old) (S.read_faults source.old))
        (outgoing (K.sent sink.old) (K.write_faults sink.old) (K.refusals sink.old)) (C.coming clock.now))
        (outside (incoming (S.left source.new) (S.read_faults source.new))
        (outgoing (K.sent sink.new) (K.write_faults sink.new) (K.refusals sink.new)) (C.coming clock.now))
        result }
    ensures complete { IsComplete
        (outside (incoming (S.left source.old) (S.read_faults source.old))
        (outgoing (K.sent sink.old) (K.write_faults sink.old) (K.refusals sink.old)) (C.coming clock.now))
        (outside (incoming (S.left source.new) (S.read_faults source.new))
        (outgoing (K.sent sink.new) (K.write_faults sink.new) (K.refusals sink.new)) (C.coming clock.now))
        result }
{
    match read_whole(alloc, source) {
        Input::Whole(text) => run_text(rt, alloc, executor, workers, text, sink, clock),
        Input::Failed => RunEnd::ReadFault,
        Input::Long => RunEnd::LongInput,
        Input::NoMemory => RunEnd::NoMemory,
    }
}

// Reads this text as a script, serves its sessions and writes what came of them.
fn run_text<R: Threads + Wait + Sync, E: Executor + Drop + Send, K: Sink, C: Clock + Drop + Send>(
    rt: &R,
    alloc: Global,
    executor: E,
    workers: u32,
    text: Vec<u8>,
    sink: &mut K,
    clock: &C,
) -> RunEnd
    requires at_least { 1 ≤ workers }
    requires at_most { workers ≤ 4096 }
    requires few { length text.items ≤ 2 ^ 28 }
    ensures { EndsText (E.state executor) workers (C.coming clock.now) text.items
        (outgoing (K.sent sink.old) (K.write_faults sink.old) (K.refusals sink.old))
        (outgoing (K.sent sink.new) (K.write_faults sink.new) (K.refusals sink.new)) result }
{
    let read = read_script(alloc, &text);
    // The sessions have bytes of their own.
    drop(text);
    match read {
        Ok(links) => serve_sessions(rt, alloc, executor, workers, links, sink, clock),
        Err(ScriptFault::Bad(offset)) => RunEnd::BadScript(offset),
        Err(ScriptFault::NoMemory) => RunEnd::NoMemory,
    }
}
