//! Puts a text out piece by piece: small pieces are gathered, so that a reply goes out in few pushes.
ghost use Rattle.std.specs.Prelude.{◌≡◌, ℕ, List, [], ◌++◌, OnOk};
ghost use Rattle.arc_core.specs.Outside.{Linked, linked};
ghost use Rattle.reply_print.specs.Reaching.{Holds, Keeps, PutsOut};

use crate::buffer::Buffer;
use crate::sending::{Unsent, send};
use arc_core::Link;

/// The most bytes that are gathered.
const GATHERED_BYTES: usize = 1024;

/// A text on its way to a link, from an offset on.
#[derive(Drop)]
pub(crate) struct Gatherer {
    // So many bytes of the text are still to be passed over.
    skip: u64,
    // The text was sent up to this offset.
    at: u64,
    // What stands there in the text, and was not sent yet.
    waiting: Buffer<GATHERED_BYTES>,
}

impl Gatherer {
    /// A text of which nothing was put out, and the first `from` bytes are to be passed over.
    pub fn new(from: u64) -> Gatherer
        ensures skip { result.skip ≡ from }
        ensures at { result.at ≡ from }
        ensures empty { result.waiting ≡ [] }
    {
        Gatherer {
            skip: from,
            at: from,
            waiting: Buffer::new(),
        }
    }

    /// Puts a piece out, behind all that was put out: it waits where it has room, and else it is sent.
    pub fn put<L: Link>(&mut self, piece: &[u8], link: &mut L) -> Result<(), Unsent>
        ensures { PutsOut
            (linked (L.left link.old) (L.read_faults link.old) (L.sent link.old) (L.write_faults link.old)
            (L.refusals link.old) (L.agains link.old))
            (linked (L.left link.new) (L.read_faults link.new) (L.sent link.new) (L.write_faults link.new)
            (L.refusals link.new) (L.agains link.new))
            self.old self.new piece.now result }
    {
        let len = piece.len() as u64;
        if self.skip >= len {
            self.skip -= len;
            return Ok(());
        }
        let passed = self.skip as usize;
        self.skip = 0;
        self.add(&piece[passed..], link)
    }

    /// Sends all that waits.
    pub fn flush<L: Link>(&mut self, link: &mut L) -> Result<(), Unsent>
        ensures keeps { (start : Linked) (from : ℕ) (text rest : List ℕ) → Holds start
            (linked (L.left link.old) (L.read_faults link.old) (L.sent link.old) (L.write_faults link.old)
            (L.refusals link.old) (L.agains link.old))
            from text rest self.old → Keeps start
            (linked (L.left link.new) (L.read_faults link.new) (L.sent link.new) (L.write_faults link.new)
            (L.refusals link.new) (L.agains link.new))
            from text rest self.new result }
        ensures skip { self.new.skip ≡ self.old.skip }
        ensures empty { OnOk result (self.new.waiting ≡ []) }
    {
        self.at = send(self.waiting.bytes(), self.at, link)?;
        self.waiting.clear();
        Ok(())
    }

    // Puts a piece out of which nothing is passed over.
    fn add<L: Link>(&mut self, piece: &[u8], link: &mut L) -> Result<(), Unsent>
        ensures keeps { (start : Linked) (from : ℕ) (text rest : List ℕ) → Holds start
            (linked (L.left link.old) (L.read_faults link.old) (L.sent link.old) (L.write_faults link.old)
            (L.refusals link.old) (L.agains link.old))
            from text (piece.now ++ rest) self.old → Keeps start
            (linked (L.left link.new) (L.read_faults link.new) (L.sent link.new) (L.write_faults link.new)
            (L.refusals link.new) (L.agains link.new))
            from text rest self.new result }
        ensures skip { self.new.skip ≡ self.old.skip }
    {
        if piece.len() <= self.waiting.room() {
            self.waiting.add(piece);
            return Ok(());
        }
        self.flush(link)?;
        if piece.len() <= GATHERED_BYTES {
            self.waiting.add(piece);
        } else {
            self.at = send(piece, self.at, link)?;
        }
        Ok(())
    }
}
