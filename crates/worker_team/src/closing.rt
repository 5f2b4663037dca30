//! Joins all seats of a lock, and closes it.
ghost use Rattle.std.specs.Prelude.{◌≡◌, length};
ghost use Rattle.worker_team.specs.Disbanding.{main_seat, AreOut, Closes};

use arc_core::Executor;
use turn_lock::{Seat, TurnLock};

/// Joins all seats that were split from this one into it, closes the lock, and hands out the executor. The seats stand in the
/// order in which they were split. Then there is one history, which has the calls of each of them and no others.
pub fn close_joined<E: Executor + Drop>(lock: TurnLock<E>, seat: Seat<E>, seats: Vec<Seat<E>>) -> E
    requires seat { seat ≡ main_seat lock seat.opening (length seats.items) }
    requires out { AreOut lock 1 seats.items }
    ensures { Closes seat.opening seats.items (E.state result) }
{
    let mut seat = seat;
    for other in seats {
        lock.join(&mut seat, other);
    }
    lock.close(seat)
}
