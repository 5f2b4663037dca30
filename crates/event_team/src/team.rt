//! The team.
ghost use Rattle.std.specs.Prelude.{◌≡◌, ◌<◌, ◌≤◌, ◌==◌, ◌-◌, ◌^◌, ◌+◌, ◌∷◌, ◌++◌, [], length, map, vec_capacity, if◌then◌else◌, IfOk};
ghost use Rattle.std.specs.List.{AllByRecursion};
ghost use Rattle.arc_core.specs.Outside.{linked};
ghost use Rattle.worker_server.specs.Ports.{port_state};
ghost use Rattle.worker_team.specs.Team.{hired, left, HasNotRun, TeamHasWorked};
ghost use Rattle.event_port.specs.Pollers.{poller_state};
ghost use Rattle.event_team.specs.Served.{HasServedPoller};

use arc_core::{Clock, Executor, NoMemory};
use event_port::{EventWorker, Poller, serve_events};
use std::alloc::Global;
use std::marker::Model;
use std::sync::Wait;
use std::thread::Threads;
use turn_lock::{Seat, TurnLock};
use worker_server::WorkerEnd;
use worker_team::{Member, close_joined};

/// Event workers at one lock that have not run yet, in the order in which they were hired.
#[derive(Drop)]
pub struct EventTeam<E: Executor + Drop, Q, C> {
    alloc: Global,
    lock: TurnLock<E>,
    seat: Seat<E>,
    workers: Vec<EventWorker<E, Q, C>>,
    // Room for what is left of each.
    seats: Vec<Seat<E>>,
    members: Vec<Member<Q>>,
}

impl<E: Executor + Drop, Q, C> Model for EventTeam<E, Q, C> {
    ghost use Rattle.std.specs.FinMap as finite;
    ghost use Rattle.std.specs.Coded.{codes};
    ghost use Rattle.std.specs.Prelude.{◌≡◌, ◌≤◌, [], length, map, vec_capacity};
    ghost use Rattle.event_port.specs.Teams.{limit_of};
    ghost use Rattle.worker_team.specs.Team.{TeamView, hired};
    ghost use Rattle.worker_team.specs.Disbanding.{main_seat, post, AreFresh};

    ghost Value = { TeamView Q C };

    ghost coded = { Prim.hlevel (codes, finite.code) };

    ghost view = { λ team. record {
      opening = team.seat.opening;
      workers = map (λ w. hired w.poller w.clock (limit_of w.sessions)) team.workers.items;
      room = vec_capacity team.workers;
    } };

    ghost invariant = { λ team. (team.seat ≡ main_seat team.lock team.seat.opening (length team.workers.items))
        × AreFresh team.lock team.seat.opening 1 (map (λ w. post w.seat w.served w.end) team.workers.items)
        × (team.seats.items ≡ []) × (vec_capacity team.workers ≤ vec_capacity team.seats)
        × (team.members.items ≡ []) × (vec_capacity team.workers ≤ vec_capacity team.members) };
}

impl<E: Executor + Drop, Q: Drop, C: Drop> EventTeam<E, Q, C> {
    /// A team without workers at a lock round this executor, with room for so many. `NoMemory` comes for want of memory alone,
    /// and the executor is dropped then.
    pub fn new(alloc: Global, executor: E, room: usize) -> Result<EventTeam<E, Q, C>, NoMemory>
        ensures opening { IfOk result (λ team. team.opening ≡ E.state executor) }
        ensures workers { IfOk result (λ team. team.workers ≡ []) }
        ensures room { IfOk result (λ team. room ≤ team.room) }
    {
        let workers = Vec::with_capacity(alloc, room)?;
        let seats = Vec::with_capacity(alloc, workers.capacity())?;
        let members = Vec::with_capacity(alloc, workers.capacity())?;
        let (lock, seat) = TurnLock::new(alloc, executor)?;
        Ok(EventTeam {
            alloc,
            lock,
            seat,
            workers,
            seats,
            members,
        })
    }

    /// Hires a worker that takes on links of this poller, at most so many; 0 means 2^64 - 1. There has to be room for it, and a
    /// team has 4,096 workers at most. It takes no memory.
    pub fn hire(&mut self, poller: Q, clock: C, sessions: u64)
        requires room { length self.old.workers < self.old.room }
        requires few { length self.old.workers < 4096 }
        ensures { self.new ≡ record self.old { workers = self.old.workers ++ hired poller clock (if sessions == 0 then 2 ^ 64 - 1 else sessions) ∷ [] } }
    {
        let seat = self.lock.split(&mut self.seat);
        self.workers.push_reserved(EventWorker {
            poller,
            clock,
            seat,
            sessions,
            served: 0,
            end: WorkerEnd::NotRun,
        });
    }
}

impl<E: Executor + Drop, Q: Drop, C: Drop> EventTeam<E, Q, C> {
    /// Sends all workers away before they have run, and hands out what is left of each, in order: the poller as it was, and that
    /// the worker has not run.
    pub fn dismiss(self) -> Vec<Member<Q>>
        ensures ports { map (λ m. m.port) result.items ≡ map (λ w. w.port) self.workers }
        ensures not_run { AllByRecursion HasNotRun result.items }
    {
        let EventTeam {
            alloc: _,
            lock: _,
            seat: _,
            workers,
            seats,
            members,
        } = self;
        let (_seats, members) = part(workers, seats, members);
        members
    }
}

impl<E: Executor + Drop + Send, Q: Poller + Send + Drop, C: Clock + Send + Drop> EventTeam<E, Q, C>
where
    Q::Link: Send,
{
    /// Runs all workers side by side, until each has ended, and hands out the executor, and what is left of each worker, in
    /// order.
    pub fn serve<R: Threads + Wait + Sync>(self, rt: &R) -> (E, Vec<Member<Q>>)
        ensures { TeamHasWorked (HasServedPoller
            (λ link. linked (Q.Link.left link) (Q.Link.read_faults link) (Q.Link.sent link) (Q.Link.write_faults link) (Q.Link.refusals link) (Q.Link.agains link))
            (λ poller. poller_state (port_state (Q.links poller) (Q.returned poller) (Q.faults poller) (Q.refusals poller)) (Q.held poller)) C.coming)
            self.opening self.workers (E.state result.0) result.1.items }
    {
        let EventTeam {
            alloc,
            lock,
            seat,
            mut workers,
            seats,
            members,
        } = self;
        serve_events(rt, alloc, &lock, &mut workers);
        let (seats, members) = part(workers, seats, members);
        (close_joined(lock, seat, seats), members)
    }
}

// Parts these workers into their seats and what else is left of them, each in order. Both lists are empty, and have room for all.
fn part<E: Executor + Drop, Q: Drop, C: Drop>(
    workers: Vec<EventWorker<E, Q, C>>,
    seats: Vec<Seat<E>>,
    members: Vec<Member<Q>>,
) -> (Vec<Seat<E>>, Vec<Member<Q>>)
    requires no_seats { seats.items ≡ [] }
    requires no_members { members.items ≡ [] }
    requires room { (length workers.items ≤ vec_capacity seats) × (length workers.items ≤ vec_capacity members) }
    ensures seats { result.0.items ≡ map (λ w. w.seat) workers.items }
    ensures members { map (λ m. left m.port m.served m.end) result.1.items ≡ map (λ w. left w.poller w.served w.end) workers.items }
{
    let mut seats = seats;
    let mut members = members;
    for worker in workers {
        let EventWorker {
            poller,
            clock: _,
            seat,
            sessions: _,
            served,
            end,
        } = worker;
        seats.push_reserved(seat);
        members.push_reserved(Member {
            port: poller,
            served,
            end,
        });
    }
    (seats, members)
}
