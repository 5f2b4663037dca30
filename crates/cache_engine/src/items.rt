//! The held items in their places.
ghost use Rattle.std.specs.Prelude.{◌≡◌, ◌≤◌, IfOk, is_some};
ghost use Rattle.std.specs.Option.{option_map};
ghost use Rattle.arc_core.specs.Item.{size_of, with_expiry};
ghost use Rattle.arc_core.specs.Places.{empty_places, found, count_of, total_of, sticky_total_of, brought_to_front, without};
ghost use Rattle.arc_core.specs.CacheState.{ArePlaced};
ghost use Rattle.cache_engine.specs.Stored.{item_of};
ghost use Rattle.cache_engine.specs.Changes.{Puts, IsUnder, SetsExpiry, SuitsUnder, Inserts, FitsUnder, Removes};

use crate::changes::{insert_under, remove_under};
use crate::puts::put_item;
use crate::set_expiry::set_expiry;
use crate::stored::Stored;
use arc_core::{Expiry, KeyRef, NoMemory};
use byte_account::{Put, Shelf};
use coll_items::{Insertion, Removal};
use std::alloc::Global;
use std::marker::Model;

/// The held items. Contracts see them in their places; they keep the rules on items, and no key has two.
#[derive(Drop)]
pub struct Items {
    alloc: Global,
    shelf: Shelf<Stored>,
}

impl Model for Items {
    ghost use Rattle.arc_core.specs.Item.{Item};
    ghost use Rattle.arc_core.specs.Places.{Places};
    ghost use Rattle.cache_engine.specs.Stored.{items_in, Holds};
    ghost use Rattle.std.specs.FinMap as finite;
    ghost use Rattle.std.specs.Coded.{codes};

    ghost Value = { Places Item };

    ghost coded = { Prim.hlevel (codes, finite.code) };

    ghost view = { λ items. items_in items.shelf };

    ghost invariant = { λ items. Holds items.shelf };
}

impl Items {
    /// No items, within this limit in bytes, of which sticky items may take this share. `NoMemory` comes for want of memory
    /// alone.
    pub fn new(alloc: Global, limit: u64, share: u64) -> Result<Items, NoMemory>
        ensures { IfOk result (λ items. items ≡ empty_places limit share) }
    {
        let shelf = Shelf::new(alloc, limit, share)?;
        Ok(Items { alloc, shelf })
    }

    /// The stated sizes of all items, in bytes, which are within the limit.
    pub fn total(&self) -> u64
        ensures sum { result ≡ total_of size_of self.now }
        ensures within { result ≤ self.now.limit }
        ensures placed { ArePlaced self.now }
    {
        self.shelf.total()
    }

    /// The stated sizes of the sticky items, in bytes, which are within the share.
    pub fn sticky_total(&self) -> u64
        ensures sum { result ≡ sticky_total_of size_of self.now }
        ensures within { result ≤ self.now.share }
    {
        self.shelf.sticky_total()
    }

    /// Does nothing, and tells contracts the rules that the items keep.
    pub fn keep_the_rules(&self)
        ensures placed { ArePlaced self.now }
        ensures within { total_of size_of self.now ≤ self.now.limit }
        ensures share { sticky_total_of size_of self.now ≤ self.now.share }
    {
        let _ = (self.total(), self.sticky_total());
    }

    /// How many items there are.
    pub fn count(&self) -> u64
        ensures { result ≡ count_of self.now }
    {
        self.shelf.count()
    }

    /// The item under the key.
    pub fn look(&self, key: &[u8]) -> Option<&Stored>
        ensures item { found key.now self.now ≡ option_map (λ stored. item_of stored.now) result }
        ensures placed { ArePlaced self.now }
    {
        self.shelf.look(key)
    }

    /// Marks the key as used: where it has a place on the shelf, that moves to the front.
    pub fn mark_used(&mut self, key: &[u8])
        ensures { self.new ≡ brought_to_front key.now self.old }
    {
        self.shelf.touch(key);
    }

    /// Takes the item under the key away, if there is one.
    pub fn remove(&mut self, key: &[u8])
        ensures { self.new ≡ without key.now self.old }
    {
        self.shelf.remove(key);
    }

    /// Takes all items away.
    pub fn clear(&mut self)
        ensures { self.new ≡ empty_places self.old.limit self.old.share }
    {
        self.shelf.clear();
    }

    /// Puts an item under the key, under which one is held or not, behind as few evictions as make room for it.
    pub fn put(&mut self, key: &KeyRef<'_>, item: Stored, held: bool) -> Put
        requires { held ≡ is_some (found key.now self.old) }
        ensures { Puts key.now (item_of item) self.old self.new result }
    {
        item.keep_the_rules();
        put_item(&mut self.shelf, self.alloc, key, item, held)
    }

    /// Gives the item that is held under the key another expiry, and its place on the side where it belongs then.
    ///
    /// `NoRoom` comes exactly where the sticky items would pass their share, and `NoMemory` only where the item gets to be
    /// sticky or is no longer so; then nothing has changed.
    pub fn set_expiry(&mut self, key: &KeyRef<'_>, expiry: Expiry) -> Put
        requires { IsUnder key.now self.old }
        ensures { SetsExpiry key.now expiry self.old self.new result }
    {
        set_expiry(&mut self.shelf, key.bytes(), expiry)
    }

    /// Puts an element into the collection under the key, behind as few evictions as make room. All memory is taken before
    /// anything is evicted.
    ///
    /// `NoRoom` comes only where there is no room, and `NoMemory` for want of memory alone; then nothing has changed.
    pub fn insert(&mut self, key: &KeyRef<'_>, insertion: Insertion) -> Put
        requires { SuitsUnder key.now insertion self.old }
        ensures { Inserts key.now insertion self.old self.new result }
    {
        insert_under(&mut self.shelf, key.bytes(), insertion)
    }

    /// Takes elements out of the collection under the key, in place; where it is empty then and `drop_empty` says so, it
    /// goes too. Tells whether it has gone. Takes no memory.
    pub fn remove_from(&mut self, key: &KeyRef<'_>, removal: &Removal<'_>, drop_empty: bool) -> bool
        requires { FitsUnder key.now removal.now self.old }
        ensures { Removes key.now removal.now drop_empty self.old self.new result }
    {
        remove_under(&mut self.shelf, key.bytes(), removal, drop_empty)
    }
}
