//! Puts an item on the shelf.
ghost use Rattle.std.specs.Prelude.{◌≡◌, is_some};
ghost use Rattle.byte_account.specs.ShelfWords.{item_at};
ghost use Rattle.cache_engine.specs.Stored.{Holds};
ghost use Rattle.cache_engine.specs.Putting.{PutsOnShelf};

use crate::stored::Stored;
use arc_core::KeyRef;
use byte_account::{Put, Shelf};
use std::alloc::Global;

/// Puts an item under the key, under which one is held or not: in the place of that one, or in a new place in front. All
/// memory is taken before anything is evicted.
pub fn put_item(
    shelf: &mut Shelf<Stored>,
    alloc: Global,
    key: &KeyRef<'_>,
    item: Stored,
    held: bool,
) -> Put
    requires holds { Holds shelf.old }
    requires held { held ≡ is_some (item_at key.now shelf.old) }
    ensures { PutsOnShelf key.now item shelf.old shelf.new result }
{
    let sticky = item.is_sticky();
    if !held {
        return shelf.put_new(alloc, key, item, sticky);
    }
    shelf.replace(key.bytes(), item, sticky)
}
