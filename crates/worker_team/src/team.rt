//! The team.
ghost use Rattle.std.specs.Prelude.{◌≡◌, ◌<◌, ◌≤◌, ◌==◌, ◌-◌, ◌^◌, ◌+◌, ◌∷◌, ◌++◌, [], length, map, vec_len, vec_capacity, if◌then◌else◌, IfOk, OnOk, OnErr, IfErr, MatchResult, ℕ};
ghost use Rattle.arc_core.specs.CacheState.{CacheState};
ghost use Rattle.std.specs.List.{AllByRecursion};
ghost use Rattle.arc_core.specs.Outside.{linked};
ghost use Rattle.worker_server.specs.declared.worker.WorkerEnd.TheVariants as worker_end;
ghost use Rattle.worker_server.specs.Ports.{port_state};
ghost use Rattle.worker_team.specs.Team.{hired, left, HasNotRun, HasServedPort, TeamHasWorked};
ghost use Rattle.worker_team.specs.Disbanding.{main_seat};

use crate::closing::close_joined;
use arc_core::{Clock, Executor, NoMemory};
use pipe_session::Session;
use std::alloc::Global;
use std::marker::Model;
use std::sync::Wait;
use std::thread::Threads;
use turn_lock::{Seat, TurnLock};
use worker_server::{Port, Worker, WorkerEnd, serve_all};

/// What is left of a worker when the team is disbanded.
#[derive(Drop)]
pub struct Member<P> {
    pub port: P,
    /// How many links it handed back to its port.
    pub served: u64,
    pub end: WorkerEnd,
}

/// Workers at one lock that have not run yet, in the order in which they were hired.
#[derive(Drop)]
pub struct Team<E: Executor + Drop, P, C> {
    alloc: Global,
    lock: TurnLock<E>,
    seat: Seat<E>,
    workers: Vec<Worker<E, P, C>>,
    // Room for what is left of each.
    seats: Vec<Seat<E>>,
    members: Vec<Member<P>>,
}

impl<E: Executor + Drop, P, C> Model for Team<E, P, C> {
    ghost use Rattle.std.specs.FinMap as finite;
    ghost use Rattle.std.specs.Coded.{codes};
    ghost use Rattle.std.specs.Prelude.{◌≡◌, ◌≤◌, [], length, map, vec_capacity};
    ghost use Rattle.worker_team.specs.Team.{TeamView, hired};
    ghost use Rattle.worker_team.specs.Disbanding.{main_seat, post, AreFresh};

    ghost Value = { TeamView P C };

    ghost coded = { Prim.hlevel (codes, finite.code) };

    ghost view = { λ team. record {
      opening = team.seat.opening;
      workers = map (λ w. hired w.port w.clock w.sessions) team.workers.items;
      room = vec_capacity team.workers;
    } };

    ghost invariant = { λ team. (team.seat ≡ main_seat team.lock team.seat.opening (length team.workers.items))
        × AreFresh team.lock team.seat.opening 1 (map (λ w. post w.seat w.next w.end) team.workers.items)
        × (team.seats.items ≡ []) × (vec_capacity team.workers ≤ vec_capacity team.seats)
        × (team.members.items ≡ []) × (vec_capacity team.workers ≤ vec_capacity team.members) };
}

impl<E: Executor + Drop, P: Drop, C: Drop> Team<E, P, C> {
    /// A team without workers at a lock round this executor, with room for so many. `NoMemory` comes for want of memory alone,
    /// and the executor is dropped then.
    pub fn new(alloc: Global, executor: E, room: usize) -> Result<Team<E, P, C>, NoMemory>
        ensures opening { IfOk result (λ team. team.opening ≡ E.state executor) }
        ensures workers { IfOk result (λ team. team.workers ≡ []) }
        ensures room { IfOk result (λ team. room ≤ team.room) }
    {
        let workers = Vec::with_capacity(alloc, room)?;
        let seats = Vec::with_capacity(alloc, workers.capacity())?;
        let members = Vec::with_capacity(alloc, workers.capacity())?;
        let (lock, seat) = TurnLock::new(alloc, executor)?;
        Ok(Team {
            alloc,
            lock,
            seat,
            workers,
            seats,
            members,
        })
    }

    /// Hires a worker that serves the links of this port, at most so many; 0 means 2^64 - 1. There has to be room for it, and
    /// a team has 4,096 workers at most. It takes memory for one session. Where that is refused the port is handed back, and the
    /// team is as it was.
    pub fn hire(&mut self, port: P, clock: C, sessions: u64) -> Result<(), P>
        requires room { length self.old.workers < self.old.room }
        requires few { length self.old.workers < 4096 }
        ensures hired { OnOk result (self.new ≡ record self.old { workers = self.old.workers ++ hired port clock (if sessions == 0 then 2 ^ 64 - 1 else sessions) ∷ [] }) }
        ensures refused { OnErr result (self.new ≡ self.old) }
        ensures back { IfErr result (λ back. back ≡ port) }
    {
        let Ok(state) = Session::new(self.alloc) else {
            return Err(port);
        };
        let seat = self.lock.split(&mut self.seat);
        self.workers.push_reserved(Worker {
            port,
            clock,
            seat,
            state,
            next: 0,
            sessions: if sessions == 0 { u64::MAX } else { sessions },
            end: WorkerEnd::NotRun,
        });
        Ok(())
    }
}

impl<E: Executor + Drop, P: Drop, C: Drop> Team<E, P, C> {
    /// Sends all workers away before they have run, and hands out what is left of each, in order: the port as it was, and that
    /// the worker has not run.
    pub fn dismiss(self) -> Vec<Member<P>>
        ensures ports { map (λ m. m.port) result.items ≡ map (λ w. w.port) self.workers }
        ensures not_run { AllByRecursion HasNotRun result.items }
    {
        let Team {
            alloc: _,
            lock: _,
            seat: _,
            workers,
            seats,
            members,
        } = self;
        let (_seats, members) = part(workers, seats, members);
        members
    }
}

impl<E: Executor + Drop + Send, P: Port + Send + Drop, C: Clock + Send + Drop> Team<E, P, C>
where
    P::Link: Send,
{
    /// Runs all workers side by side, until each has ended, and hands out the executor, and what is left of each worker, in
    /// order.
    pub fn serve<R: Threads + Wait + Sync>(self, rt: &R) -> (E, Vec<Member<P>>)
        ensures { TeamHasWorked (HasServedPort
            (λ link. linked (P.Link.left link) (P.Link.read_faults link) (P.Link.sent link) (P.Link.write_faults link) (P.Link.refusals link) (P.Link.agains link))
            (λ port. port_state (P.links port) (P.returned port) (P.faults port) (P.refusals port)) C.coming)
            self.opening self.workers (E.state result.0) result.1.items }
    {
        let Team {
            alloc: _,
            lock,
            seat,
            mut workers,
            seats,
            members,
        } = self;
        serve_all(rt, &lock, &mut workers);
        let (seats, members) = part(workers, seats, members);
        (close_joined(lock, seat, seats), members)
    }
}

// Parts these workers into their seats and what else is left of them, each in order. Both lists are empty, and have room for all.
fn part<E: Executor + Drop, P: Drop, C: Drop>(
    workers: Vec<Worker<E, P, C>>,
    seats: Vec<Seat<E>>,
    members: Vec<Member<P>>,
) -> (Vec<Seat<E>>, Vec<Member<P>>)
    requires no_seats { seats.items ≡ [] }
    requires no_members { members.items ≡ [] }
    requires room { (length workers.items ≤ vec_capacity seats) × (length workers.items ≤ vec_capacity members) }
    ensures seats { result.0.items ≡ map (λ w. w.seat) workers.items }
    ensures members { map (λ m. left m.port m.served m.end) result.1.items ≡ map (λ w. left w.port w.next w.end) workers.items }
{
    let mut seats = seats;
    let mut members = members;
    for worker in workers {
        let Worker {
            port,
            clock: _,
            seat,
            state: _,
            next,
            sessions: _,
            end,
        } = worker;
        seats.push_reserved(seat);
        members.push_reserved(Member {
            port,
            served: next,
            end,
        });
    }
    (seats, members)
}
