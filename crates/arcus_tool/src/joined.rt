//! A source and a sink, joined to one link.
//!
//! A session works on a link. What runs it is generic in the link, and knows no more of it than the clauses of its
//! calls: they say what the link tells, and not that it still borrows the same source and the same sink. So a joined
//! link has a parameter that fixes which two these are.
ghost use Rattle.std.specs.Prelude.{◌≡◌, ℕ};

use arc_core::{Link, Pull, Push, Sink, Source};
use std::marker::{Brand, PhantomData};

/// Which borrows a link joins, by the names that proofs have of them. No value at run time has these.
pub trait Joins {
    /// The name of the borrow of the source.
    ghost source: { ℕ };

    /// The name of the borrow of the sink.
    ghost sink: { ℕ };
}

// A call that passes `Brand` picks its own two.
impl Joins for Brand {
    ghost source = { 0 };

    ghost sink = { 0 };
}

/// A source and a sink, borrowed.
#[derive(Drop)]
pub struct Pair<'a, 'b, S, K> {
    pub source: &'a mut S,
    pub sink: &'b mut K,
}

/// A source and a sink as one link. It may wait, so it never has to be asked again.
#[derive(Drop)]
pub struct JoinedLink<'a, 'b, S, K, J: Joins> {
    pub(crate) source: &'a mut S,
    pub(crate) sink: &'b mut K,
    joins: PhantomData<J>,
    ghost same_source: { source.ghost_name ≡ J.source },
    ghost same_sink: { sink.ghost_name ≡ J.sink },
}

impl<'a, 'b, S, K, J: Joins> JoinedLink<'a, 'b, S, K, J> {
    /// Joins a source and a sink.
    pub fn of(pair: Pair<'a, 'b, S, K>) -> JoinedLink<'a, 'b, S, K, J>
        requires same_source { pair.source.ghost_name ≡ J.source }
        requires same_sink { pair.sink.ghost_name ≡ J.sink }
        ensures source { result.source.now ≡ pair.entry.source.now }
        ensures sink { result.sink.now ≡ pair.entry.sink.now }
    {
        let Pair { source, sink } = pair;
        JoinedLink {
            source,
            sink,
            joins: PhantomData,
        }
    }

    /// The source and the sink, which are those that were joined.
    pub fn parts(self) -> Pair<'a, 'b, S, K>
        ensures source { result.source.now ≡ self.entry.source.now }
        ensures sink { result.sink.now ≡ self.entry.sink.now }
        ensures same_source { result.source.ghost_name ≡ J.source }
        ensures same_sink { result.sink.ghost_name ≡ J.sink }
    {
        let JoinedLink {
            source,
            sink,
            joins: _,
        } = self;
        Pair { source, sink }
    }
}

impl<'a, 'b, S: Source, K: Sink, J: Joins> Link for JoinedLink<'a, 'b, S, K, J> {
    ghost left = { λ link. S.left link.source.now };

    ghost read_faults = { λ link. S.read_faults link.source.now };

    ghost sent = { λ link. K.sent link.sink.now };

    ghost write_faults = { λ link. K.write_faults link.sink.now };

    ghost refusals = { λ link. K.refusals link.sink.now };

    ghost agains = { λ _. 0 };

    fn pull(&mut self, buf: &mut [u8]) -> Pull {
        self.source.pull(buf)
    }

    fn push(&mut self, piece: &[u8]) -> Push {
        self.sink.push(piece)
    }
}
