//! A caller's seat.
use crate::view::Place;
use arc_core::Executor;
use std::marker::Model;

/// A caller's seat at a lock: its right to execute requests, one at a time, in whatever thread it is.
///
/// It has no bytes. Contracts see what it has seen of the history, its own calls in it, and those of the seats that were
/// joined into it. A seat that is dropped stays out, and its lock is never closed.
#[derive(Drop)]
pub struct Seat<E> {
    pub(crate) place: Place<E>,
}

impl<E> Model for Seat<E> {
    ghost use Rattle.std.specs.FinMap as finite;
    ghost use Rattle.std.specs.Coded.{codes};
    ghost use Rattle.turn_lock.specs.Seats.{SeatView, seat_view, IsAtRest};

    ghost Value = { SeatView };

    ghost coded = { Prim.hlevel (codes, finite.code) };

    ghost view = { λ s. seat_view s.place.table_id s.place.me.0 };

    ghost invariant = { λ s. IsAtRest s.place.me };
}
