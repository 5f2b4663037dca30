//! The moves of one call: draw, look until the turn comes, execute, pass on.
ghost use Rattle.std.specs.Prelude.{◌≡◌, ℕ, ◌<◌, ◌^◌, [], ◌∷◌, ◌++◌, length};
ghost use Rattle.arc_core.specs.CollectionLines.{CanBeSpelled};
ghost use Rattle.arc_core.specs.PlainRequest.{plain};
ghost use Rattle.arc_core.specs.ReplyText.{reply_text};
ghost use Rattle.turn_lock.specs.Calls.{calls_of};
ghost use Rattle.turn_lock.specs.View.{numbered, served};
ghost use Rattle.turn_lock.specs.Moves.{passed_as, HasTurn, HoldsAfter};
ghost use Rattle.turn_lock.specs.Seats.{IsSeatOf, IsAtRest, entry_by};

use crate::moves::{Draw, Look, Noted, Pass};
use crate::view::{Place, SERVING, SLOT, Steps, TICKET};
use arc_core::{Executor, Reply, Request};
use std::sync::Wait;
use std::thread::yield_now;

/// Draws a ticket, and looks until it is served. Then the seat holds the executor.
pub fn take_turn<E: Executor, R: Wait>(rt: &R, steps: &Steps<E>, place: &mut Place<E>)
    requires own { IsSeatOf steps.now.table_id place.old.table_id }
    requires rest { IsAtRest place.old.me }
    ensures own { place.new.table_id ≡ place.old.table_id }
    ensures turn { HasTurn E.state place.old.me.0 place.new.me }
{
    let ticket = steps.fetch_add::<Draw>(place, TICKET, 1);
    for _ in rt.forever() {
        if steps.load::<Look>(place, SERVING) == ticket {
            return;
        }
        yield_now();
    }
    unreachable!()
}

/// Executes the request, with the executor where it lies.
pub fn step<E: Executor>(
    steps: &Steps<E>,
    place: &mut Place<E>,
    _session: u64,
    now: u32,
    request: &Request<'_>,
) -> Reply
    requires own { IsSeatOf steps.now.table_id place.old.table_id }
    requires held { HoldsAfter E.state place.old.me.0.seen place.old.me }
    requires request { CanBeSpelled (plain request.now) }
    ensures own { place.new.table_id ≡ place.old.table_id }
    ensures view { place.new.me.0 ≡ place.old.me.0 }
    ensures held { HoldsAfter E.state (place.old.me.0.seen ++ entry_by place.old.me.0 _session now (plain request.now) result ∷ []) place.new.me }
    ensures text { length (reply_text result) < 2 ^ 64 }
{
    let executor = place.slot_mut(steps, SLOT);
    let reply = executor.execute(now, request);
    executor.keeps_the_rules();
    reply
}

/// Gives the executor back and the turn on. The history has one entry more.
pub fn pass<E: Executor, N: Noted>(
    steps: &Steps<E>,
    place: &mut Place<E>,
    _session: u64,
    _now: u32,
    _request: &Request<'_>,
    _reply: &Reply,
)
    requires own { IsSeatOf steps.now.table_id place.old.table_id }
    requires entry { N.entry ≡ entry_by place.old.me.0 _session _now (plain _request.now) _reply.now }
    requires turn { (place.old.me.0.kind ≡ numbered) × ((ticket : ℕ) × (place.old.me.0.turn ≡ served ticket)) }
    requires held { HoldsAfter E.state (place.old.me.0.seen ++ N.entry ∷ []) place.old.me }
    ensures own { place.new.table_id ≡ place.old.table_id }
    ensures passed { place.new.me ≡ (passed_as place.old.me.0 N.entry, []) }
    ensures calls { calls_of place.old.me.0.number (place.old.me.0.seen ++ N.entry ∷ []) ≡ place.old.me.0.mine ++ N.entry ∷ [] }
{
    steps.fetch_add::<Pass<N>>(place, SERVING, 1);
}
