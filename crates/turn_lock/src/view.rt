//! What a seat knows, and the rule of the lock's table.
ghost use Rattle.turn_lock.specs.View.{first_view};
ghost use Rattle.turn_lock.specs.Rule.{IsKept};

use arc_core::Executor;
use atomic_table::{Shared, Table, TableRule};
use std::alloc::Global;
use std::marker::Model;
use std::snapshot::Snapshot;

/// What a seat knows. Contracts see it as a view; no value of it is made.
pub struct Known {}

impl Model for Known {
    ghost use Rattle.std.specs.FinMap as finite;
    ghost use Rattle.std.specs.Coded.{codes};
    ghost use Rattle.turn_lock.specs.View.{View, spent_view};

    ghost Value = { View };

    ghost coded = { Prim.hlevel (codes, finite.code) };

    ghost view = { λ _. spent_view };
}

/// The rule: there is one legal history, of which each seat has seen a beginning.
pub struct OneHistory;

impl<E: Executor> TableRule<E, Known, Snapshot<E>> for OneHistory {
    ghost holds = { λ _. IsKept E.state };

    ghost first = { λ key. first_view (E.state key.value) };
}

/// The word that has the next ticket.
pub const TICKET: usize = 0;

/// The word that has the ticket that is served.
pub const SERVING: usize = 1;

/// The slot that has the executor.
pub const SLOT: usize = 0;

pub type Board<E> = Table<E, Known, Snapshot<E>, OneHistory, Global>;

pub type Steps<E> = Shared<E, Known, Snapshot<E>, OneHistory>;

pub type Place<E> = atomic_table::Seat<E, Known>;
