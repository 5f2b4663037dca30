//! Changes collections on the shelf, each in its place: no element but those that are put in or taken out is touched.
ghost use Rattle.std.specs.Prelude.{◌≡◌, ◌&&◌, Some, pos, ◌-ℤ◌, if◌then◌else◌};
ghost use Rattle.arc_core.specs.CollectionRows.{is_empty};
ghost use Rattle.arc_core.specs.Item.{IsItem, contents_size};
ghost use Rattle.arc_core.specs.Places.{refilled};
ghost use Rattle.coll_items.specs.Changing.{inserted, SuitsInsertion};
ghost use Rattle.cache_engine.specs.Stored.{Holds, item_of};
ghost use Rattle.cache_engine.specs.Changing.{SuitsOnShelf, HasRoomFor, HasPlaceFor, FitsOnShelf, InsertsOnShelf, RemovesOnShelf};

use crate::stored::{Stored, is_sticky};
use byte_account::{Put, Room, Shelf};
use coll_items::{Collection, Insertion, Removal};

/// Puts an element into the collection that is held under the key, behind as few evictions as make room. All memory is
/// taken before anything is evicted.
///
/// `NoRoom` comes only where there is no room, and `NoMemory` for want of memory alone. Then nothing has changed but that,
/// after `NoMemory`, the collection may have room for more elements.
pub fn insert_under(shelf: &mut Shelf<Stored>, key: &[u8], insertion: Insertion) -> Put
    requires holds { Holds shelf.old }
    requires suits { SuitsOnShelf key.now insertion shelf.old }
    ensures { InsertsOnShelf key.now insertion shelf.old shelf.new result }
{
    let Some(Stored::Collection(collection)) = shelf.look(key) else {
        return Put::NoRoom;
    };
    let extra = growth(collection, &insertion);
    let sticky_extra = sticky_part(extra, is_sticky(collection.attrs().expiry));
    let Room::Fits(evictions) = shelf.room(key, extra, sticky_extra) else {
        return Put::NoRoom;
    };
    insert_behind(shelf, key, insertion, evictions)
}

// By how many bytes an insertion raises the stated size of a collection.
fn growth(collection: &Collection, insertion: &Insertion) -> i64
    requires { SuitsInsertion insertion.now collection.now.attrs collection.now.contents }
    ensures { result ≡ pos (contents_size (inserted insertion.now collection.now.contents)) -ℤ pos (contents_size collection.now.contents) }
{
    collection.size_with(insertion) as i64 - collection.size() as i64
}

// What of that is among the sticky items.
fn sticky_part(extra: i64, sticky: bool) -> i64
    ensures { result ≡ (if sticky then extra else pos 0) }
{
    if sticky { extra } else { 0 }
}

// Puts an element into the collection that is held under the key, behind so many evictions, which make room for it.
fn insert_behind(shelf: &mut Shelf<Stored>, key: &[u8], insertion: Insertion, evictions: u64) -> Put
    requires holds { Holds shelf.old }
    requires room { HasRoomFor key.now insertion shelf.old evictions }
    ensures { InsertsOnShelf key.now insertion shelf.old shelf.new result }
{
    // (Both totals are within their limits.)
    let _ = (shelf.total(), shelf.sticky_total());
    let Some(Stored::Collection(mut collection)) = shelf.lift(key) else {
        return Put::NoRoom;
    };
    let Ok(()) = collection.reserve_for(&insertion) else {
        lay_item(shelf, key, Stored::Collection(collection));
        return Put::NoMemory;
    };
    shelf.evict(key, evictions);
    collection.insert(insertion);
    lay_item(shelf, key, Stored::Collection(collection));
    Put::Done
}

/// Takes elements out of the collection that is held under the key, which keeps its place; where it is empty then and
/// `drop_empty` says so, it goes too. Tells whether it has gone. Takes no memory.
pub fn remove_under(
    shelf: &mut Shelf<Stored>,
    key: &[u8],
    removal: &Removal<'_>,
    drop_empty: bool,
) -> bool
    requires holds { Holds shelf.old }
    requires fits { FitsOnShelf key.now removal.now shelf.old }
    ensures { RemovesOnShelf key.now removal.now drop_empty shelf.old shelf.new result }
{
    // (Both totals are within their limits.)
    let _ = (shelf.total(), shelf.sticky_total());
    let Some(Stored::Collection(mut collection)) = shelf.lift(key) else {
        return false;
    };
    collection.remove(removal);
    if is_dropped(&collection, drop_empty) {
        shelf.cancel(key);
        return true;
    }
    lay_item(shelf, key, Stored::Collection(collection));
    false
}

// Whether a collection that elements were taken out of goes.
fn is_dropped(collection: &Collection, drop_empty: bool) -> bool
    ensures { result ≡ (drop_empty && is_empty collection.now.contents) }
{
    drop_empty && collection.elements().count() == 0
}

// Lays an item in the key's place, and tells contracts the rules that it keeps.
fn lay_item(shelf: &mut Shelf<Stored>, key: &[u8], item: Stored)
    requires { HasPlaceFor key.now item shelf.old }
    ensures laid { shelf.new ≡ refilled key.now (Some item) shelf.old }
    ensures keeps { IsItem (item_of item) }
{
    item.keep_the_rules();
    shelf.lay(key, item);
}
