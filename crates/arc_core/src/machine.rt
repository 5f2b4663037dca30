//! The machine as its users see it.
ghost use Rattle.std.specs.Prelude.{◌^◌, ◌<◌, length};
ghost use Rattle.arc_core.specs.CacheState.{CacheState, IsState};
ghost use Rattle.arc_core.specs.PlainRequest.{plain};
ghost use Rattle.arc_core.specs.CollectionLines.{CanBeSpelled};
ghost use Rattle.arc_core.specs.History.{Executes};
ghost use Rattle.arc_core.specs.ReplyText.{reply_text};

use crate::{Reply, Request};

/// What executes requests, one at a time, on one state.
pub trait Executor {
    /// The state that it stands for.
    ghost state: { Self → CacheState };

    /// Executes a request at this second. The request is one that some line and block spell.
    ///
    /// The reply and the new state are those of the machine's step. Or the reply is `NoMemory`, where the request may
    /// want memory, and the state is as before.
    fn execute(&mut self, now: u32, request: &Request<'_>) -> Reply
        requires { CanBeSpelled (plain request.now) }
        ensures executed { Executes (state self.old) now (plain request.now) result (state self.new) }
        ensures text { length (reply_text result) < 2 ^ 64 };

    /// Does nothing, and tells contracts that the state keeps its rules: accounted bytes are within the limit, those of
    /// the sticky items within their share, and each item is where it belongs.
    fn keeps_the_rules(&self)
        ensures { IsState (state self.now) };
}
