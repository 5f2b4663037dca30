//! Gives items on the shelf another expiry.
ghost use Rattle.std.specs.Prelude.{◌≡◌, ◌≤◌, ◌<◌, ◌^◌, ◌-ℤ◌, pos, length, if◌then◌else◌};
ghost use Rattle.arc_core.specs.Places.{HasEachKeyOnce, total_of, sticky_total_of};
ghost use Rattle.byte_account.specs.Weight.{place_weight};
ghost use Rattle.cache_engine.specs.Stored.{Holds};
ghost use Rattle.cache_engine.specs.Putting.{weigh};
ghost use Rattle.cache_engine.specs.SettingExpiry.{IsHeld, Crosses, HasExpiryThere, SetsExpiryOnShelf};

use crate::stored::{Stored, is_sticky};
use arc_core::Expiry;
use byte_account::{Put, Room, Shelf, Weighs};

/// Gives the item that is held under the key another expiry. Where it gets to be sticky, or is no longer so, its place
/// moves to the other side.
///
/// `NoRoom` comes exactly where the sticky items would pass their share, and `NoMemory` only where the place would move;
/// then nothing has changed.
pub fn set_expiry(shelf: &mut Shelf<Stored>, key: &[u8], expiry: Expiry) -> Put
    requires holds { Holds shelf.old }
    requires key { length key.now ≤ 16000 }
    requires held { IsHeld key.now shelf.old }
    ensures { SetsExpiryOnShelf key.now expiry shelf.old shelf.new result }
{
    let Some(item) = shelf.look(key) else {
        return Put::NoRoom;
    };
    let size = item.weight(key);
    let sticky = is_sticky(expiry);
    if item.is_sticky() != sticky {
        return set_expiry_across(shelf, key, expiry, crossing(size, sticky));
    }
    // (Both totals are within their limits, and stay as they are.)
    let _ = (shelf.total(), shelf.sticky_total());
    set_expiry_there(shelf, key, expiry);
    Put::Done
}

// How many bytes get to be sticky where an item of this size does, or is no longer so.
fn crossing(size: u64, sticky: bool) -> i64
    requires { size < 2 ^ 63 }
    ensures { result ≡ pos (if sticky then size else 0) -ℤ pos (if sticky then 0 else size) }
{
    if sticky { size as i64 } else { -(size as i64) }
}

// Gives the item that is held under the key an expiry by which its place moves to the other side, and so many bytes more
// are sticky.
fn set_expiry_across(
    shelf: &mut Shelf<Stored>,
    key: &[u8],
    expiry: Expiry,
    sticky_extra: i64,
) -> Put
    requires holds { Holds shelf.old }
    requires crosses { Crosses expiry key.now shelf.old sticky_extra }
    ensures { SetsExpiryOnShelf key.now expiry shelf.old shelf.new result }
{
    let Room::Fits(_) = shelf.room(key, 0, sticky_extra) else {
        return Put::NoRoom;
    };
    let Ok(()) = shelf.restick(key, is_sticky(expiry)) else {
        return Put::NoMemory;
    };
    // (So are they after a move.)
    let _ = (shelf.total(), shelf.sticky_total());
    set_expiry_there(shelf, key, expiry);
    Put::Done
}

// Takes the item out of its place, and lays it there again with another expiry.
fn set_expiry_there(shelf: &mut Shelf<Stored>, key: &[u8], expiry: Expiry)
    requires held { IsHeld key.now shelf.old }
    requires once { HasEachKeyOnce shelf.old }
    requires within { total_of (place_weight weigh) shelf.old ≤ shelf.old.limit }
    requires share { sticky_total_of (place_weight weigh) shelf.old ≤ shelf.old.share }
    ensures { HasExpiryThere key.now expiry shelf.old shelf.new }
{
    if let Some(item) = shelf.lift(key) {
        shelf.lay(key, item.with_expiry(expiry));
    }
}
