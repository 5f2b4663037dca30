//! Writes all of a text to a sink.
ghost use Rattle.std.specs.Prelude.{◌≤◌, length, drop, ◌≡◌};
ghost use Rattle.arc_core.specs.Outside.{outgoing};
ghost use Rattle.sink_writes.specs.Writing.{Writes};

use arc_core::{Push, Sink};

/// Why a text was not written whole.
#[derive(Clone, Copy, Debug, PartialEq, Eq)]
pub enum Unwritten {
    /// The sink failed, and counted it.
    Failed,
    /// Memory was refused.
    NoMemory,
}

// What stands behind the first so many bytes.
fn behind(text: &[u8], count: usize) -> &[u8]
    requires { count ≤ length text.now }
    ensures { result.now ≡ drop count text.now }
{
    &text[count..]
}

/// Writes all of a text, by as many pushes as that takes. `Failed` and `NoMemory` come only where a push has answered so; a
/// front of the text was sent then.
pub fn write_all<K: Sink>(text: &[u8], sink: &mut K) -> Result<(), Unwritten>
    ensures { Writes (outgoing (K.sent sink.old) (K.write_faults sink.old) (K.refusals sink.old)) text.now
        (outgoing (K.sent sink.new) (K.write_faults sink.new) (K.refusals sink.new)) result }
{
    let mut left = text;
    while !left.is_empty() {
        match sink.push(left) {
            Push::Took(count) => left = behind(left, count),
            Push::Failed => return Err(Unwritten::Failed),
            Push::NoMemory => return Err(Unwritten::NoMemory),
            // A sink never has to be asked again.
            Push::Again => unreachable!(),
        }
    }
    Ok(())
}
