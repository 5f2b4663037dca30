//! Sends bytes to a link, which may take a part of them at each push.
ghost use Rattle.std.specs.Prelude.{◌≡◌, ◌++◌, ℕ, List};
ghost use Rattle.arc_core.specs.Outside.{Linked, linked};
ghost use Rattle.reply_print.specs.Reaching.{Reached, Sends, wrote_of};

use crate::Wrote;
use arc_core::{Link, Push};

/// Why a text was not sent whole, and the offset up to which it was sent.
#[derive(Clone, Copy)]
pub(crate) enum Unsent {
    /// The link failed, and counted it.
    Failed(u64),
    /// The link was refused memory, and counted the refusal.
    NoMemory(u64),
    /// The link has to be asked again, and counted that.
    Again(u64),
}

impl Unsent {
    /// The answer of a writing that stopped so.
    pub fn wrote(self) -> Wrote
        ensures { result ≡ wrote_of self }
    {
        match self {
            Unsent::Failed(at) => Wrote::Failed(at),
            Unsent::NoMemory(at) => Wrote::NoMemory(at),
            Unsent::Again(at) => Wrote::Again(at),
        }
    }
}

/// Sends all bytes of the piece, in order, which stands at the offset `at` of a text, and tells the offset behind it.
pub(crate) fn send<L: Link>(piece: &[u8], at: u64, link: &mut L) -> Result<u64, Unsent>
    ensures { (start : Linked) (from : ℕ) (text rest : List ℕ)
        → Reached start (linked (L.left link.old) (L.read_faults link.old) (L.sent link.old) (L.write_faults link.old)
        (L.refusals link.old) (L.agains link.old)) from at text (piece.now ++ rest)
        → Sends start (linked (L.left link.new) (L.read_faults link.new) (L.sent link.new) (L.write_faults link.new)
        (L.refusals link.new) (L.agains link.new)) from text rest result }
{
    let mut unsent = piece;
    let mut at = at;
    while !unsent.is_empty() {
        match link.push(unsent) {
            Push::Took(count) => {
                unsent = &unsent[count..];
                // A text has fewer than 2^64 bytes.
                at = at.saturating_add(count as u64);
            }
            Push::Failed => return Err(Unsent::Failed(at)),
            Push::NoMemory => return Err(Unsent::NoMemory(at)),
            Push::Again => return Err(Unsent::Again(at)),
        }
    }
    Ok(at)
}
