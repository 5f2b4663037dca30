//! How a key stands at the start of a step, and what is done to its place then and at the end.
ghost use Rattle.std.specs.Prelude.{◌≡◌, ◌∷◌, []};
ghost use Rattle.arc_core.specs.Places.{found};
ghost use Rattle.arc_core.specs.CacheState.{ArePlaced};
ghost use Rattle.arc_core.specs.Step.{unexpired, used};
ghost use Rattle.cache_engine.specs.Stored.{held_item, item_of};
ghost use Rattle.cache_engine.specs.Starting.{key_state_of, is_held, live_of, moves, IsLiveUnder, PutsInStep, SetsExpiryInStep, InsertsInStep, RemovesInStep};
ghost use Rattle.cache_engine.specs.Changes.{FitsUnder, IsUnder, SuitsUnder};

use crate::expiring::has_expired;
use crate::items::Items;
use crate::stored::Stored;
use arc_core::{Expiry, KeyRef};
use byte_account::Put;
use coll_items::{Insertion, Removal};

/// How a key stands at the start of a step.
#[derive(Clone, Copy, Debug, PartialEq, Eq)]
pub enum KeyState {
    /// No item is held under it.
    Absent,
    /// The item under it has expired.
    Expired,
    /// The item under it has not expired.
    Live,
}

/// How the key of this item stands at the latest second.
pub fn key_state_of(latest: u32, held: Option<&Stored>) -> KeyState
    ensures { result ≡ key_state_of latest (held_item held.entry) }
{
    match held {
        None => KeyState::Absent,
        Some(stored) if has_expired(latest, stored.expiry()) => KeyState::Expired,
        Some(_) => KeyState::Live,
    }
}

/// The item, where it has not expired at the latest second.
pub fn live<'a>(latest: u32, held: Option<&'a Stored>) -> Option<&'a Stored>
    ensures { held_item result ≡ live_of latest (held_item held.entry) }
{
    let item = held?;
    if has_expired(latest, item.expiry()) {
        None
    } else {
        Some(item)
    }
}

/// Takes the key's item away where it has expired: the start of a step that names the key alone.
pub fn drop_expired(items: &mut Items, latest: u32, key: &[u8], key_state: KeyState)
    requires { key_state ≡ key_state_of latest (found key.now items.old) }
    ensures { items.new ≡ unexpired latest (key.now ∷ []) items.old }
{
    if key_state == KeyState::Expired {
        items.remove(key);
    }
}

/// Puts an item under a key in this state, where there is room behind evictions: a step that names the key alone
/// and stores the item there. Where there is no room, the key's item is taken away where it has expired.
pub fn put_and_use(
    items: &mut Items,
    latest: u32,
    key: &KeyRef<'_>,
    key_state: KeyState,
    item: Stored,
) -> Put
    requires key_state { key_state ≡ key_state_of latest (found key.now items.old) }
    requires placed { ArePlaced items.old }
    ensures { PutsInStep latest key.now (item_of item) items.old items.new result }
{
    let moves = moves_to_front(latest, key_state, item.expiry());
    let put = items.put(key, item, is_held(key_state));
    match put {
        Put::Done if moves => items.mark_used(key.bytes()),
        Put::NoRoom => drop_expired(items, latest, key.bytes(), key_state),
        Put::Done | Put::NoMemory => {}
    }
    put
}

/// Gives the item under the key, which has not expired, another expiry: a step that names the key alone.
///
/// `NoRoom` comes exactly where the sticky items would pass their share, and `NoMemory` only where the item gets to be
/// sticky or is no longer so; then nothing has changed.
pub fn set_expiry_and_use(items: &mut Items, latest: u32, key: &KeyRef<'_>, expiry: Expiry) -> Put
    requires { IsUnder key.now items.old }
    ensures { SetsExpiryInStep latest key.now expiry items.old items.new result }
{
    match items.set_expiry(key, expiry) {
        Put::Done => {
            if !has_expired(latest, expiry) {
                items.mark_used(key.bytes());
            }
            Put::Done
        }
        answer => answer,
    }
}

/// Puts an element into the collection under the key, which has not expired, behind as few evictions as make room: a step
/// that names the key alone. Where there is no room, or memory was refused, nothing has changed.
pub fn insert_and_use(items: &mut Items, latest: u32, key: &KeyRef<'_>, insertion: Insertion) -> Put
    requires live { IsLiveUnder latest key.now items.old }
    requires suits { SuitsUnder key.now insertion items.old }
    requires placed { ArePlaced items.old }
    ensures { InsertsInStep latest key.now insertion items.old items.new result }
{
    match items.insert(key, insertion) {
        Put::Done => {
            items.mark_used(key.bytes());
            Put::Done
        }
        Put::NoRoom => Put::NoRoom,
        Put::NoMemory => Put::NoMemory,
    }
}

/// Takes elements out of the collection under the key, which has not expired; where it is empty then and `drop_empty` says
/// so, it goes too: a step that names the key alone. Tells whether it has gone.
pub fn remove_and_use(
    items: &mut Items,
    latest: u32,
    key: &KeyRef<'_>,
    removal: &Removal<'_>,
    drop_empty: bool,
) -> bool
    requires live { IsLiveUnder latest key.now items.old }
    requires fits { FitsUnder key.now removal.now items.old }
    requires placed { ArePlaced items.old }
    ensures { RemovesInStep latest key.now removal.now drop_empty items.old items.new result }
{
    let dropped = items.remove_from(key, removal, drop_empty);
    if !dropped {
        items.mark_used(key.bytes());
    }
    dropped
}

// Whether an item is held under a key in this state, if only one that has expired.
fn is_held(key_state: KeyState) -> bool
    ensures { result ≡ is_held key_state }
{
    match key_state {
        KeyState::Absent => false,
        KeyState::Expired | KeyState::Live => true,
    }
}

// Whether an item that was put under a key in this state moves to the front of the shelf. (In a new place it
// stands there, and in that of an item that had expired it comes as a new one.)
fn moves_to_front(latest: u32, key_state: KeyState, expiry: Expiry) -> bool
    ensures { result ≡ moves latest key_state expiry }
{
    match key_state {
        KeyState::Absent => false,
        KeyState::Expired => true,
        KeyState::Live => !has_expired(latest, expiry),
    }
}

/// Takes the key's item away where it has expired, and marks the key as used where it has not: a step that names the key
/// alone and leaves its item as it is.
pub fn use_key(items: &mut Items, latest: u32, key: &[u8], key_state: KeyState)
    requires { key_state ≡ key_state_of latest (found key.now items.old) }
    ensures { items.new ≡ used latest (key.now ∷ []) (unexpired latest (key.now ∷ []) items.old) }
{
    match key_state {
        KeyState::Absent => {}
        KeyState::Expired => items.remove(key),
        KeyState::Live => items.mark_used(key),
    }
}
