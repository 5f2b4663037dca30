//! One session, from a source to a sink.
ghost use Rattle.std.specs.Prelude.{◌≡◌, ◌≢◌, ◌≤◌, List, ℕ, IfOk};
ghost use Rattle.arc_core.specs.declared.ends.End.TheVariants as end;
ghost use Rattle.arc_core.specs.Outside.{incoming, outgoing};
ghost use Rattle.pipe_session.specs.Outside.{outside};
ghost use Rattle.pipe_session.specs.Turns.{IsFresh};
ghost use Rattle.arcus_tool.specs.Session.{IsSession, IsComplete, IsStatusOf};
ghost use Rattle.arcus_tool.specs.Running.{opening_of};

use crate::joined::{JoinedLink, Joins, Pair};
use crate::status::Status;
use arc_core::{Clock, End, Executor, NoMemory, Sink, Source};
use cache_engine::{Cache, Settings};
use frame_reader::{beginnings_agree, rest_begins_with_no_unit, units_stay};
use pipe_session::{Direct, Session, Turn, fresh_sessions_have_done_nothing};
use std::alloc::Global;
use std::marker::Brand;

/// Runs one session from the source to the sink, on a cache of `limit` mebibytes, 1 to 4,096, of which the sticky items may
/// take `share` percent, 0 to 100.
///
/// It always returns. `Done` comes where the source has ended behind a unit, or behind a line that is `quit`, and all
/// text was sent; `CutInput` where the source has ended within a unit; `LineTooLong`, `LongInput`, `ReadFault` and
/// `WriteFault` as `Status` says; `NoMemory` where no byte was taken, or where the sink was refused memory.
///
/// Input of whole units, to its end or to `quit`, of fewer than 2^40 bytes and without a line that is too long, is
/// answered whole, where no pull and no push failed and memory was not refused. (That `quit` ends a session without an
/// answer is memcached's rule. That a line that is too long does is this server's own.)
pub fn session<S: Source, K: Sink, C: Clock>(
    alloc: Global,
    limit: u32,
    share: u32,
    source: &mut S,
    sink: &mut K,
    clock: &mut C,
) -> Status
    requires at_least { 1 ≤ limit }
    requires at_most { limit ≤ 4096 }
    requires percent { share ≤ 100 }
    ensures session { IsSession (opening_of limit share)
        (outside (incoming (S.left source.old) (S.read_faults source.old))
        (outgoing (K.sent sink.old) (K.write_faults sink.old) (K.refusals sink.old)) (C.coming clock.old))
        (outside (incoming (S.left source.new) (S.read_faults source.new))
        (outgoing (K.sent sink.new) (K.write_faults sink.new) (K.refusals sink.new)) (C.coming clock.new))
        result }
    ensures complete { IsComplete
        (outside (incoming (S.left source.old) (S.read_faults source.old))
        (outgoing (K.sent sink.old) (K.write_faults sink.old) (K.refusals sink.old)) (C.coming clock.old))
        (outside (incoming (S.left source.new) (S.read_faults source.new))
        (outgoing (K.sent sink.new) (K.write_faults sink.new) (K.refusals sink.new)) (C.coming clock.new))
        result }
{
    beginnings_agree();
    rest_begins_with_no_unit();
    units_stay();
    match cache_of(alloc, limit, share) {
        Ok(executor) => run_session(alloc, executor, source, sink, clock),
        Err(_) => Status::NoMemory,
    }
}

// An empty cache of so many mebibytes, of which the sticky items may take such a share.
pub(crate) fn cache_of(alloc: Global, limit: u32, share: u32) -> Result<Cache, NoMemory>
    requires at_least { 1 ≤ limit }
    requires at_most { limit ≤ 4096 }
    requires percent { share ≤ 100 }
    ensures { IfOk result (λ cache. ⟦<Cache as Executor>⟧.state cache ≡ opening_of limit share) }
{
    let Some(settings) = Settings::of_shares(limit, share) else {
        unreachable!();
    };
    Cache::new(alloc, settings)
}

// Takes the memory of a session, and runs it.
fn run_session<S: Source, K: Sink, C: Clock, E: Executor + Drop>(
    alloc: Global,
    executor: E,
    source: &mut S,
    sink: &mut K,
    clock: &mut C,
) -> Status
    ensures { IsSession (E.state executor)
        (outside (incoming (S.left source.old) (S.read_faults source.old))
        (outgoing (K.sent sink.old) (K.write_faults sink.old) (K.refusals sink.old)) (C.coming clock.old))
        (outside (incoming (S.left source.new) (S.read_faults source.new))
        (outgoing (K.sent sink.new) (K.write_faults sink.new) (K.refusals sink.new)) (C.coming clock.new))
        result }
{
    let Ok(mut session) = Session::new(alloc) else {
        executor.keeps_the_rules();
        return Status::NoMemory;
    };
    let mut desk = Direct { executor };
    let pair = Pair { source, sink };
    let (_, status) = serve_pair::<S, K, C, E, Brand>(pair, clock, &mut desk, &mut session);
    status
}

// Runs a fresh session on a source and a sink, which are given back, to its end.
fn serve_pair<'a, 'b, S: Source, K: Sink, C: Clock, E: Executor, J: Joins>(
    pair: Pair<'a, 'b, S, K>,
    clock: &mut C,
    desk: &mut Direct<E>,
    session: &mut Session,
) -> (Pair<'a, 'b, S, K>, Status)
    requires fresh { IsFresh session.old }
    requires same_source { pair.source.ghost_name ≡ J.source }
    requires same_sink { pair.sink.ghost_name ≡ J.sink }
    ensures session { IsSession (E.state desk.old.executor)
        (outside (incoming (S.left pair.entry.source.now) (S.read_faults pair.entry.source.now))
        (outgoing (K.sent pair.entry.sink.now) (K.write_faults pair.entry.sink.now) (K.refusals pair.entry.sink.now)) (C.coming clock.old))
        (outside (incoming (S.left result.0.source.now) (S.read_faults result.0.source.now))
        (outgoing (K.sent result.0.sink.now) (K.write_faults result.0.sink.now) (K.refusals result.0.sink.now)) (C.coming clock.new))
        result.1 }
    ensures same_source { result.0.source.ghost_name ≡ J.source }
    ensures same_sink { result.0.sink.ghost_name ≡ J.sink }
{
    let mut link = JoinedLink::<'a, 'b, S, K, J>::of(pair);
    let status = serve(desk, clock, &mut link, session);
    (link.parts(), status)
}

// Runs a fresh session on a link to its end.
fn serve<'a, 'b, S: Source, K: Sink, C: Clock, E: Executor, J: Joins>(
    desk: &mut Direct<E>,
    clock: &mut C,
    link: &mut JoinedLink<'a, 'b, S, K, J>,
    session: &mut Session,
) -> Status
    requires { IsFresh session.old }
    ensures { IsSession (E.state desk.old.executor)
        (outside (incoming (S.left link.old.source.now) (S.read_faults link.old.source.now))
        (outgoing (K.sent link.old.sink.now) (K.write_faults link.old.sink.now) (K.refusals link.old.sink.now)) (C.coming clock.old))
        (outside (incoming (S.left link.new.source.now) (S.read_faults link.new.source.now))
        (outgoing (K.sent link.new.sink.now) (K.write_faults link.new.sink.now) (K.refusals link.new.sink.now)) (C.coming clock.new))
        result }
{
    fresh_sessions_have_done_nothing::<Direct<E>>();
    loop {
        match session.turn(desk, link, clock) {
            Turn::More => session.keeps_its_limits(),
            Turn::Over(ended) => {
                desk.executor.keeps_the_rules();
                return status_of(ended);
            }
            // A source and a sink never have to be asked again.
            Turn::Again => unreachable!(),
        }
    }
}

// The status of a session that ended so.
fn status_of(ended: End) -> Status
    requires { ended ≢ end.Crowded }
    ensures { IsStatusOf ended result }
{
    match ended {
        End::Ended | End::Quit => Status::Done,
        End::Cut(rest) => Status::CutInput(rest),
        End::LineTooLong => Status::LineTooLong,
        End::LongInput => Status::LongInput,
        End::ReadFault => Status::ReadFault,
        End::WriteFault => Status::WriteFault,
        End::NoMemory => Status::NoMemory,
        // A session does not count the others.
        End::Crowded => unreachable!(),
    }
}
