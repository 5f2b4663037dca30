//! Writes how many sessions were served.
ghost use Rattle.std.specs.Prelude.{◌≡◌, IfOk};
ghost use Rattle.arc_core.specs.Outside.{outgoing};
ghost use Rattle.serve_runs.specs.Ending.{WritesTotal};
ghost use Rattle.serve_runs.specs.Serving.{sessions_line};

use crate::serve::ServeEnd;
use arc_core::{NoMemory, Sink};
use itoa::Buffer;
use sink_writes::{Unwritten, write_all};
use std::alloc::Global;

/// Writes the line `sessions=<total>`, with LF, and tells how the run ends: `Done`; `WriteFault` where the sink failed, and
/// `NoMemory` where memory was refused for the line or to the sink: a front of the line was written then.
pub fn write_total<K: Sink>(alloc: Global, total: u128, sink: &mut K) -> ServeEnd
    ensures { WritesTotal (outgoing (K.sent sink.old) (K.write_faults sink.old) (K.refusals sink.old)) total
        (outgoing (K.sent sink.new) (K.write_faults sink.new) (K.refusals sink.new)) result }
{
    let Ok(line) = total_line(alloc, total) else {
        return ServeEnd::NoMemory;
    };
    match write_all(&line, sink) {
        Ok(()) => ServeEnd::Done,
        Err(Unwritten::Failed) => ServeEnd::WriteFault,
        Err(Unwritten::NoMemory) => ServeEnd::NoMemory,
    }
}

// The line `sessions=<total>`, with LF.
fn total_line(alloc: Global, total: u128) -> Result<Vec<u8>, NoMemory>
    ensures { IfOk result (λ line. line.items ≡ sessions_line total) }
{
    let mut buffer = Buffer::new();
    let mut line = Vec::from_slice(alloc, b"sessions=")?;
    line.extend_from_slice(buffer.format(total).as_bytes())?;
    line.extend_from_slice(b"\n")?;
    Ok(line)
}
