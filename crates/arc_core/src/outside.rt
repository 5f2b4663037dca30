//! The traits of the outside: where bytes come from and go to, and what second it is.
//!
//! Each object counts its faults, and its refusals for want of memory; a link also how often it had to be asked again. A
//! count never falls, and a call raises it only where it answers that. An object tells what it has left or was sent, as one in memory
//! does, or it tells nothing, as a socket; whether it tells is the same before and after each call. The clauses on
//! content hold where it tells.
ghost use Rattle.std.specs.Prelude.{◌≡◌, ◌<◌, ◌≤◌, List, ℕ, length, Option};
ghost use Rattle.arc_core.specs.declared.outside.Need.{Need};
ghost use Rattle.arc_core.specs.Outside.{incoming, outgoing, Pulled, Pushed, LinkPulled, LinkPushed, Ticks};

/// The answer of a pull.
#[derive(Clone, Copy, Debug, PartialEq, Eq)]
pub enum Pull {
    /// So many bytes came, at least one, and stand at the front of the buffer.
    Got(usize),
    /// Nothing is left.
    End,
    /// The object failed, and counted it. What is left is as before.
    Failed,
    /// Nothing can be had without waiting, and the object counted that. What is left is as before. Links alone answer it.
    Again,
}

/// The answer of a push.
#[derive(Clone, Copy, Debug, PartialEq, Eq)]
pub enum Push {
    /// The first so many bytes of the piece were sent, at least one.
    Took(usize),
    /// The object failed, and counted it. Nothing was sent.
    Failed,
    /// Memory was refused to the object, and it counted the refusal. Nothing was sent.
    NoMemory,
    /// Nothing can be sent without waiting, and the object counted that. Nothing was sent. Links alone answer it.
    Again,
}

/// Which block a line of the protocol asks for.
#[derive(Clone, Copy, Debug, PartialEq, Eq)]
pub enum Need {
    /// The line is a unit by itself.
    Nothing,
    /// A block of `len` bytes and its CR LF follow; `limit` is the most bytes that a block may have there.
    Block { len: u32, limit: u32 },
}

/// What knows which lines ask for a block.
pub trait Heads {
    /// Which block each line asks for.
    ghost needs: { List ℕ → Need };

    /// Which block the line asks for, given without its line end.
    fn need(&self, line: &[u8]) -> Need
        ensures { result ≡ needs line.now };
}

/// Where bytes come from. A pull may wait for them, so it never answers `Again`.
pub trait Source {
    /// The bytes that are still to come, where the object tells them.
    ghost left: { Self → Option (List ℕ) };

    /// How often a pull has failed.
    ghost read_faults: { Self → ℕ };

    /// Fills the front of the buffer with the next bytes that are left. The buffer may not be empty.
    fn pull(&mut self, buf: &mut [u8]) -> Pull
        requires { 0 < length buf.old }
        ensures { Pulled (incoming (left self.old) (read_faults self.old)) (incoming (left self.new) (read_faults self.new))
            buf.new result };
}

/// Where bytes go to. A push may wait, so it never answers `Again`.
pub trait Sink {
    /// The bytes that were sent, where the object tells them.
    ghost sent: { Self → Option (List ℕ) };

    /// How often a push has failed.
    ghost write_faults: { Self → ℕ };

    /// How often a push was refused for want of memory.
    ghost refusals: { Self → ℕ };

    /// Sends bytes from the front of the piece, which may not be empty.
    fn push(&mut self, piece: &[u8]) -> Push
        requires { 0 < length piece.now }
        ensures { Pushed (outgoing (sent self.old) (write_faults self.old) (refusals self.old))
            (outgoing (sent self.new) (write_faults self.new) (refusals self.new)) piece.now result };
}

/// A connection: bytes come from it and go to it. It never waits, and answers `Again` where it would have to.
pub trait Link {
    /// The bytes that are still to come, where the object tells them.
    ghost left: { Self → Option (List ℕ) };

    /// How often a pull has failed.
    ghost read_faults: { Self → ℕ };

    /// The bytes that were sent, where the object tells them.
    ghost sent: { Self → Option (List ℕ) };

    /// How often a push has failed.
    ghost write_faults: { Self → ℕ };

    /// How often a push was refused for want of memory.
    ghost refusals: { Self → ℕ };

    /// How often a pull or a push was answered `Again`.
    ghost agains: { Self → ℕ };

    /// Fills the front of the buffer with the next bytes that are left. The buffer may not be empty.
    fn pull(&mut self, buf: &mut [u8]) -> Pull
        requires { 0 < length buf.old }
        ensures pulled { LinkPulled (incoming (left self.old) (read_faults self.old)) (incoming (left self.new) (read_faults self.new))
            (agains self.old) (agains self.new) buf.new result }
        // A pull sends nothing.
        ensures outgoing { outgoing (sent self.new) (write_faults self.new) (refusals self.new)
            ≡ outgoing (sent self.old) (write_faults self.old) (refusals self.old) };

    /// Sends bytes from the front of the piece, which may not be empty.
    fn push(&mut self, piece: &[u8]) -> Push
        requires { 0 < length piece.now }
        ensures pushed { LinkPushed (outgoing (sent self.old) (write_faults self.old) (refusals self.old))
            (outgoing (sent self.new) (write_faults self.new) (refusals self.new)) (agains self.old) (agains self.new) piece.now result }
        // A push takes nothing.
        ensures incoming { incoming (left self.new) (read_faults self.new) ≡ incoming (left self.old) (read_faults self.old) };
}

/// What tells the second. It has no faults.
pub trait Clock {
    /// The seconds to come, where the clock tells them: at least one, and the last one stays.
    ghost coming: { Self → Option (List ℕ) };

    /// The second now, counted from an origin of the clock's own.
    fn second(&mut self) -> u32
        ensures { Ticks (coming self.old) result (coming self.new) };

    /// A clock that goes on from the same place. Takes no memory.
    fn twin(&self) -> Self
        ensures { coming result ≡ coming self.now };
}
