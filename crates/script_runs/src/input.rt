//! Reads a source to its end.
ghost use Rattle.std.specs.Prelude.{◌≡◌, ◌<◌, length, IfOk, vec_len};
ghost use Rattle.arc_core.specs.Outside.{incoming};
ghost use Rattle.script_runs.specs.Reading.{Gathered};

use arc_core::{NoMemory, Pull, Source};
use std::alloc::Global;

/// The most bytes that are taken as a script.
const MOST_BYTES: usize = 1 << 28;

/// The most bytes that one pull asks for.
const AT_ONCE: usize = 16384;

/// What came of reading a source to its end.
#[derive(Drop)]
pub enum Input {
    /// All bytes that were left, at most 2^28.
    Whole(Vec<u8>),
    /// The source failed.
    Failed,
    /// More than 2^28 bytes were taken.
    Long,
    /// Memory was refused.
    NoMemory,
}

// So many zeros.
fn zeros(alloc: Global, len: usize) -> Result<Vec<u8>, NoMemory>
    ensures { IfOk result (λ v. vec_len v ≡ len) }
{
    Ok(vec![in alloc; 0; len]?)
}

/// Takes all bytes that the source has left.
pub fn read_whole<S: Source>(alloc: Global, source: &mut S) -> Input
    ensures { Gathered (incoming (S.left source.old) (S.read_faults source.old)) (incoming (S.left source.new) (S.read_faults source.new)) result }
{
    match zeros(alloc, AT_ONCE) {
        Ok(mut buffer) => gather(alloc, source, &mut buffer),
        Err(_) => Input::NoMemory,
    }
}

// Takes all bytes that the source has left, by pulls into this buffer.
fn gather<S: Source>(alloc: Global, source: &mut S, buffer: &mut [u8]) -> Input
    requires { 0 < length buffer.old }
    ensures { Gathered (incoming (S.left source.old) (S.read_faults source.old)) (incoming (S.left source.new) (S.read_faults source.new)) result }
{
    let mut bytes = Vec::new(alloc);
    loop {
        match source.pull(buffer) {
            Pull::Got(count) => {
                if count > MOST_BYTES - bytes.len() {
                    return Input::Long;
                }
                if bytes.extend_from_slice(&buffer[..count]).is_err() {
                    return Input::NoMemory;
                }
            }
            Pull::End => return Input::Whole(bytes),
            Pull::Failed => return Input::Failed,
            // A source never has to be asked again.
            Pull::Again => unreachable!(),
        }
    }
}
