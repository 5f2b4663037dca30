//! The moves, each with what it tells.
ghost use Rattle.arc_core.specs.History.{Entry};
ghost use Rattle.arc_core.specs.PlainRequest.{version};
ghost use Rattle.arc_core.specs.declared.requests.Answer.TheVariants as answer;
ghost use Rattle.arc_core.specs.declared.replies.Reply.TheVariants as reply;
ghost use Rattle.arc_core.specs.declared.replies.Word.TheVariants as word;
ghost use Rattle.turn_lock.specs.View.{spent_view};
ghost use Rattle.turn_lock.specs.Moves.{drawn, looked, passed, recalled, split_left, split_right, copied, joined_with};

use crate::view::Known;
use arc_core::Executor;
use atomic_table::{Join, Play, Split};
use std::marker::{Brand, PhantomData};

/// A ticket is drawn.
pub struct Draw;

impl<E> Play<E, Known> for Draw {
    ghost then = { drawn };
}

/// The seat looks at the ticket that is served. Where that is its own, it has the turn.
pub struct Look;

impl<E: Executor> Play<E, Known> for Look {
    ghost then = { looked E.state };
}

/// The entry that a pass adds to the history. It exists in proofs alone, so each call of `pass` picks it.
pub trait Noted {
    ghost entry: { Entry };
}

impl Noted for Brand {
    ghost entry = { record { seat = 0; session = 0; second = 0; request = record { act = version; answer = answer.Plain }; reply = reply.Word word.NoMemory } };
}

/// The turn is given on, after one call.
pub struct Pass<N> {
    noted: PhantomData<N>,
}

impl<E, N: Noted> Play<E, Known> for Pass<N> {
    ghost then = { passed N.entry };
}

/// Nothing changes.
pub struct Recall;

impl<E> Play<E, Known> for Recall {
    ghost then = { recalled };
}

/// A new seat gets the next number.
pub struct NewNumber;

impl Split<Known> for NewNumber {
    ghost left = { split_left };

    ghost right = { split_right };
}

/// What a seat has seen, for another one.
pub struct Copied;

impl Split<Known> for Copied {
    ghost left = { λ view. view };

    ghost right = { copied };
}

/// A view is taken in.
pub struct Joined;

impl Join<Known> for Joined {
    ghost both = { joined_with };

    ghost spent = { spent_view };
}
