//! What a session's requests go to.
ghost use Rattle.std.specs.Prelude.{◌≡◌, ◌^◌, ◌<◌, true, length, is_some, ⊤};
ghost use Rattle.arc_core.specs.CollectionLines.{CanBeSpelled};
ghost use Rattle.arc_core.specs.History.{Entry};
ghost use Rattle.arc_core.specs.PlainRequest.{plain};
ghost use Rattle.arc_core.specs.ReplyText.{reply_text};
ghost use Rattle.pipe_session.specs.Desks.{Answered, ExecutesAlone};
ghost use Rattle.pipe_session.specs.SessionText.{act_may_be_piped};
ghost use Rattle.reply_print.specs.PipeText.{status_of};

use arc_core::{Executor, Reply, Request};

/// What a session's requests go to: an executor, or one that many sessions share.
pub trait Desk {
    /// Whether it can be asked.
    ghost ready: { Self → Type 0 };

    /// An entry leads from the one state of the desk to the other: its request was executed, with its reply.
    ghost answers: { Self → Entry → Self → Type 0 };

    /// Has a request executed at this second. The request is one that some line and block spell, and the desk is ready. The
    /// reply to a request that may be piped is a word or a number.
    fn answer(&mut self, now: u32, request: &Request<'_>) -> Reply
        requires spelled { CanBeSpelled (plain request.now) }
        requires ready { ready self.old }
        ensures answered { Answered answers self.old now (plain request.now) result self.new }
        ensures text { length (reply_text result) < 2 ^ 64 }
        ensures status { act_may_be_piped (plain request.now).act ≡ true → is_some (status_of result) ≡ true };
}

/// A desk over an executor of its own: the session is the only one. It is always ready. The entries have seat 0 and
/// session 0.
#[derive(Drop)]
pub struct Direct<E> {
    pub executor: E,
}

impl<E: Executor> Desk for Direct<E> {
    ghost ready = { λ _. ⊤ };

    ghost answers = { λ from entry to. ExecutesAlone (E.state from.executor) entry (E.state to.executor) };

    fn answer(&mut self, now: u32, request: &Request<'_>) -> Reply {
        self.executor.execute(now, request)
    }
}
