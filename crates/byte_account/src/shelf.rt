//! The shelf: items under their keys, their bytes accounted, and room found by the least eviction.
ghost use Rattle.std.specs.Prelude.{◌≡◌, ◌+◌, ◌≤◌, ◌≤ℤ◌, ◌∷◌, ℤ, pos, not, bytes_eq, Option, Some, None, length, option_map, option_copied, if◌then◌else◌, IfOk, OnOk, OnErr, IsSome, is_some};
ghost use Rattle.std.specs.Option.{option_or, option_flatten};
ghost use Rattle.std.specs.List.{IsDistinct};
ghost use Rattle.std.specs.Map.{keys_of, lookup, set_value};
ghost use Rattle.std.specs.FinMap as finite;
ghost use Rattle.arc_core.specs.Places.{Places, HasEachKeyOnce, empty_places, found, others, count_of, total_of, sticky_total_of, brought_to_front, placed, refilled, without};
ghost use Rattle.arc_core.specs.Room.{room, share_fits, evicted};
ghost use Rattle.byte_account.specs.Accounting.{HasShareFor};
ghost use Rattle.byte_account.specs.LeastEviction.{IsLeastEviction};
ghost use Rattle.byte_account.specs.Putting.{Puts, room_for};
ghost use Rattle.byte_account.specs.ShelfWords.{added_by, item_at, weight_at, IsHeld, listed_at, stuck_at, on_side, restuck, cancelled, room_answer};
ghost use Rattle.byte_account.specs.Weight.{place_weight};

use crate::Weighs;
use crate::put::Put;
use crate::recency_list::{RecencyList, weigh_place};
use crate::room::Room;
use crate::sticky_table::StickyTable;
use arc_core::{Key, KeyRef, NoMemory};
use std::alloc::Global;
use std::marker::Model;

/// Items under their keys. An item is sticky, or it stands on the list of those that may be evicted, most recently
/// used first.
///
/// A place may be hollow: the key has it, and its item, which weighs nothing, is still to come. Contracts see the
/// shelf as its places on both sides, where a hollow one has no item, its limit and its share, both in bytes. The total
/// of all weights is at most the limit, that of the sticky items' at most the share, and no key has two places.
#[derive(Drop)]
pub struct Shelf<T: Weighs> {
    list: RecencyList<T>,
    sticky: StickyTable<T>,
    limit: u64,
    // Of the limit, what the sticky items may weigh.
    share: u64,
    total: u64,
    sticky_total: u64,
}

impl<T: Weighs> Model for Shelf<T> {
    ghost use Rattle.std.specs.Prelude.{Option};
    ghost use Rattle.std.specs.Coded.{coded_option};
    ghost use Rattle.arc_core.specs.Places.{Places};
    ghost use Rattle.byte_account.specs.PlacesCode.{places_code};
    ghost use Rattle.byte_account.specs.Weight.{place_weight};
    ghost use Rattle.byte_account.specs.Accounting.{IsAccounted, IsWithinShare};

    ghost Value = { Places (Option T) };

    ghost coded = { places_code (coded_option T.code) };

    ghost view = { λ s. record { shelf = s.list; sticky = s.sticky; limit = s.limit; share = s.share } };

    ghost invariant = { λ s. IsAccounted (place_weight T.weigh) (record { shelf = s.list; sticky = s.sticky; limit = s.limit; share = s.share }) s.total
        × IsWithinShare (place_weight T.weigh) (record { shelf = s.list; sticky = s.sticky; limit = s.limit; share = s.share }) s.sticky_total };
}

impl<T: Weighs> Shelf<T> {
    /// An empty shelf with this limit in bytes, of which sticky items may take this share. `NoMemory` comes for want of
    /// memory alone.
    pub fn new(alloc: Global, limit: u64, share: u64) -> Result<Shelf<T>, NoMemory>
        ensures { IfOk result (λ shelf. shelf ≡ empty_places limit share) }
    {
        let list = RecencyList::new(alloc)?;
        Ok(Shelf {
            list,
            sticky: StickyTable::new(alloc),
            limit,
            share,
            total: 0,
            sticky_total: 0,
        })
    }

    /// The bytes that all items weigh together, which are at most the limit.
    pub fn total(&self) -> u64
        ensures sum { result ≡ total_of (place_weight T.weigh) self.now }
        ensures within { result ≤ self.now.limit }
        ensures once { HasEachKeyOnce self.now }
    {
        self.total
    }

    /// The bytes that the sticky items weigh together, which are at most the share.
    pub fn sticky_total(&self) -> u64
        ensures sum { result ≡ sticky_total_of (place_weight T.weigh) self.now }
        ensures within { result ≤ self.now.share }
    {
        self.sticky_total
    }

    /// The number of places, hollow ones among them.
    pub fn count(&self) -> u64
        ensures { result ≡ count_of self.now }
    {
        self.list.len() as u64 + self.sticky.len() as u64
    }

    /// The item under the key; `None` where there is none, also where the place is hollow.
    pub fn look(&self, key: &[u8]) -> Option<&T>
        ensures { option_copied result ≡ item_at key.now self.now }
    {
        self.place(key)?.as_ref()
    }

    /// Marks the key as used: where it has a place that is not sticky, that moves to the front. Else nothing changes.
    pub fn touch(&mut self, key: &[u8])
        ensures places { self.new ≡ brought_to_front key.now self.old }
        ensures absent { found key.now self.old ≡ None → self.new ≡ self.old }
    {
        self.list.promote(key);
    }

    /// Makes a hollow place for a key that has none, which is the condition: a sticky one, or one in front of the list.
    ///
    /// `NoMemory` comes for want of memory alone, and then nothing has changed.
    pub fn reserve_new(&mut self, key: Key, sticky: bool) -> Result<(), NoMemory>
        requires { found key self.old ≡ None }
        ensures ok { OnOk result (self.new ≡ placed sticky key None self.old) }
        ensures err { OnErr result (self.new ≡ self.old) }
    {
        let alloc = self.list.allocator();
        make_place(
            &mut self.list,
            &mut self.sticky,
            alloc,
            key.bytes(),
            None,
            sticky,
        )?;
        Ok(())
    }

    /// Takes the key's place away if it is hollow. Any other place stays.
    pub fn cancel(&mut self, key: &[u8])
        ensures { self.new ≡ cancelled key.now self.old }
    {
        if let Some(None) = self.place(key) {
            take_away(&mut self.list, &mut self.sticky, key);
        }
    }

    /// Whether `extra` bytes more fit under the key, `sticky_extra` of them among the sticky items, and after how many
    /// evictions of the least recently used places but the key's own. `extra` is what the total rises by, or falls by where
    /// it is negative, and `sticky_extra` what the sticky total does.
    ///
    /// `Fits` has the least number of evictions, 0 where `extra` is not above 0. `Nothing` comes exactly where the sticky
    /// total would pass the share, in which no eviction makes room, or where not even evicting all of these places makes
    /// room. (This server's own rule.)
    pub fn room(&self, key: &[u8], extra: i64, sticky_extra: i64) -> Room
        ensures room { result ≡ room_answer (room (place_weight T.weigh) self.now key.now extra sticky_extra) }
        ensures least { IsLeastEviction (place_weight T.weigh) self.now key.now extra sticky_extra result }
        ensures nothing_added { extra ≤ℤ pos 0 → result ≡ (if share_fits (place_weight T.weigh) self.now sticky_extra then Room.Fits 0 else Room.Nothing) }
    {
        match self.evictions_for(key, rise(extra), rise(sticky_extra)) {
            Some(evictions) => Room::Fits(evictions),
            None => Room::Nothing,
        }
    }

    // The fewest evictions that make room where the total rises by so many bytes and the sticky total by so many, or `None`
    // where there is no room.
    fn evictions_for(&self, key: &[u8], more: u64, sticky_more: u64) -> Option<u64>
        ensures room { (extra sticky_extra : ℤ) → more ≡ added_by extra → sticky_more ≡ added_by sticky_extra
            → result ≡ option_map length (room (place_weight T.weigh) self.now key.now extra sticky_extra) }
        ensures within { total_of (place_weight T.weigh) self.now ≤ self.now.limit }
    {
        if sticky_more > self.share - self.sticky_total {
            return None;
        }
        let spare = self.limit - self.total;
        self.list.fewest_to_free(key, more.saturating_sub(spare))
    }

    /// Puts an item under a key that has no place, which is the condition: among the sticky ones, or in front of the list.
    /// Room for it is made by the least eviction.
    ///
    /// All memory is taken before anything is evicted. `NoMemory` comes for want of memory alone, `NoRoom` only where
    /// there is no room; then nothing has changed. (This server's own rule.)
    pub fn put_new(&mut self, alloc: Global, key: &KeyRef<'_>, item: T, sticky: bool) -> Put
        requires { found key.now self.old ≡ None }
        ensures { Puts (place_weight T.weigh) sticky key.now (Some item) self.old self.new result }
    {
        let name = key.bytes();
        let weight = item.weight(name);
        let sticky_weight = sticky_part(weight, sticky);
        let Some(evictions) = self.evictions_for(name, weight, sticky_weight) else {
            return Put::NoRoom;
        };
        let made = make_place(
            &mut self.list,
            &mut self.sticky,
            alloc,
            name,
            Some(item),
            sticky,
        );
        let Ok(()) = made else {
            return Put::NoMemory;
        };
        let freed = self.list.pop_many(evictions as usize);
        self.total = self.total - freed + weight;
        self.sticky_total += sticky_weight;
        Put::Done
    }

    /// Puts an item in the place that the key has, which is the condition, and moves the place to the other side where it
    /// is not on the one that is named. Room for it is made by the least eviction.
    ///
    /// All memory is taken before anything is evicted, and none where the place stays on its side. `NoMemory` comes for
    /// want of memory alone, `NoRoom` only where there is no room; then nothing has changed. (This server's own rule.)
    pub fn replace(&mut self, key: &[u8], item: T, sticky: bool) -> Put
        requires { IsSome (found key.now self.old) }
        ensures { Puts (place_weight T.weigh) sticky key.now (Some item) self.old self.new result }
    {
        let weight = item.weight(key);
        let held = self.held(key);
        let more = weight.saturating_sub(held.weight);
        let held_sticky = sticky_part(held.weight, held.sticky);
        let sticky_more = sticky_part(weight, sticky).saturating_sub(held_sticky);
        let Some(evictions) = self.evictions_for(key, more, sticky_more) else {
            return Put::NoRoom;
        };
        if held.sticky == sticky {
            self.put_there(key, item, held, evictions);
            return Put::Done;
        }
        match self.put_across(key, item, held, evictions) {
            Ok(()) => Put::Done,
            Err(NoMemory) => Put::NoMemory,
        }
    }

    // Puts an item in the key's place on the side where that is, behind so many evictions, which make room for it.
    fn put_there(&mut self, key: &[u8], item: T, held: Held, evictions: u64)
        requires held { IsHeld (place_weight T.weigh) key.now self.old held }
        requires room { Some evictions ≡ option_map length (room_for (place_weight T.weigh) held.sticky key.now (Some item) self.old) }
        ensures { self.new ≡ placed held.sticky key.now (Some item) (evicted key.now evictions self.old) }
    {
        let weight = item.weight(key);
        let freed = self.list.evict(key, evictions as usize);
        refill(&mut self.list, &mut self.sticky, key, Some(item));
        self.total = self.total - freed - held.weight + weight;
        self.sticky_total = self.sticky_total - sticky_part(held.weight, held.sticky)
            + sticky_part(weight, held.sticky);
    }

    // Takes the key's place away and puts an item in a new one on the other side, behind so many evictions, which make room
    // for it. A refusal changes nothing.
    fn put_across(
        &mut self,
        key: &[u8],
        item: T,
        held: Held,
        evictions: u64,
    ) -> Result<(), NoMemory>
        requires held { IsHeld (place_weight T.weigh) key.now self.old held }
        requires room { Some evictions ≡ option_map length (room_for (place_weight T.weigh) (not held.sticky) key.now (Some item) self.old) }
        ensures ok { OnOk result (self.new ≡ placed (not held.sticky) key.now (Some item) (evicted key.now evictions self.old)) }
        ensures err { OnErr result (self.new ≡ self.old) }
    {
        let weight = item.weight(key);
        change_side(
            &mut self.list,
            &mut self.sticky,
            key,
            Some(item),
            !held.sticky,
        )?;
        let freed = self.list.pop_many(evictions as usize);
        self.total = self.total - freed - held.weight + weight;
        self.sticky_total = self.sticky_total - sticky_part(held.weight, held.sticky)
            + sticky_part(weight, !held.sticky);
        Ok(())
    }

    // What is known of the key's place.
    fn held(&self, key: &[u8]) -> Held
        requires { IsSome (found key.now self.now) }
        ensures held { IsHeld (place_weight T.weigh) key.now self.now result }
        ensures once { HasEachKeyOnce self.now }
    {
        match self.list.get(key) {
            Some(place) => Held {
                weight: weigh_place(key, place),
                sticky: false,
            },
            None => Held {
                weight: self.sticky.weight(key),
                sticky: true,
            },
        }
    }

    /// Evicts the `n` least recently used places but the key's, of which there have to be so many. The key's place and
    /// the others keep their order.
    pub fn evict(&mut self, key: &[u8], n: u64)
        requires { n ≤ length (others key.now self.old.shelf) }
        ensures { self.new ≡ evicted key.now n self.old }
    {
        self.total -= self.list.evict(key, n as usize);
    }

    /// Takes the item out from under the key, whose place stays, hollow. `None` where there is no item; then nothing
    /// has changed.
    pub fn lift(&mut self, key: &[u8]) -> Option<T>
        ensures item { result ≡ item_at key.now self.old }
        ensures places { self.new ≡ refilled key.now None self.old }
        ensures absent { found key.now self.old ≡ None → self.new ≡ self.old }
    {
        let taken = refill(&mut self.list, &mut self.sticky, key, None);
        let item = taken.item?;
        let weight = item.weight(key);
        self.total -= weight;
        self.sticky_total -= sticky_part(weight, taken.sticky);
        Some(item)
    }

    /// Puts the item into the key's place, which has to be hollow. The total and the item's weight together have to be
    /// at most the limit; where the place is sticky, the sticky total and the item's weight at most the share.
    pub fn lay(&mut self, key: &[u8], item: T)
        requires hollow { found key.now self.old ≡ Some None }
        requires room { total_of (place_weight T.weigh) self.old + T.weigh key.now item ≤ self.old.limit }
        requires share { HasShareFor (finite.contains_key self.old.sticky key.now) (place_weight T.weigh) self.old (T.weigh key.now item) }
        ensures { self.new ≡ refilled key.now (Some item) self.old }
    {
        let weight = item.weight(key);
        let taken = refill(&mut self.list, &mut self.sticky, key, Some(item));
        self.total += weight;
        self.sticky_total += sticky_part(weight, taken.sticky);
    }

    /// Moves the key's place to the other side: among the sticky ones, or to the front of the list. The key has to have
    /// a place there where it is taken from. Where it gets to be sticky, the sticky total and the place's weight together
    /// have to be at most the share.
    ///
    /// `NoMemory` comes for want of memory alone, and then nothing has changed.
    pub fn restick(&mut self, key: &[u8], sticky: bool) -> Result<(), NoMemory>
        requires place { IsSome (on_side (not sticky) key.now self.old) }
        requires share { HasShareFor sticky (place_weight T.weigh) self.old (weight_at (place_weight T.weigh) key.now self.old) }
        ensures ok { OnOk result (self.new ≡ restuck sticky key.now self.old) }
        ensures err { OnErr result (self.new ≡ self.old) }
    {
        if sticky {
            self.sticky_total += self.sticky.take_from(&mut self.list, key)?;
        } else {
            self.sticky_total -= self.sticky.give_to(&mut self.list, key)?;
        }
        Ok(())
    }

    /// Takes the key's place away and hands out its item. `None` where there is no item: the key has no place, or a
    /// hollow one, which goes.
    pub fn remove(&mut self, key: &[u8]) -> Option<T>
        ensures item { result ≡ item_at key.now self.old }
        ensures places { self.new ≡ without key.now self.old }
        ensures absent { found key.now self.old ≡ None → self.new ≡ self.old }
    {
        let taken = take_away(&mut self.list, &mut self.sticky, key);
        let item = taken.item?;
        let weight = item.weight(key);
        self.total -= weight;
        self.sticky_total -= sticky_part(weight, taken.sticky);
        Some(item)
    }

    /// Takes all places away.
    pub fn clear(&mut self)
        ensures { self.new ≡ empty_places self.old.limit self.old.share }
    {
        self.list.clear();
        self.sticky.clear();
        self.total = 0;
        self.sticky_total = 0;
    }

    // The key's place, on whichever side.
    fn place(&self, key: &[u8]) -> Option<&Option<T>>
        ensures { option_copied result ≡ found key.now self.now }
    {
        match self.list.get(key) {
            Some(place) => Some(place),
            None => self.sticky.get(key),
        }
    }
}

// What `extra` adds to a total: nothing where it is negative.
fn rise(extra: i64) -> u64
    ensures { result ≡ added_by extra }
{
    if extra > 0 { extra as u64 } else { 0 }
}

// What stood in a key's place, on whichever side.
#[derive(Drop)]
struct Taken<T: Weighs> {
    // None where the key had no place, or a hollow one.
    item: Option<T>,
    sticky: bool,
}

// What of a weight is among the sticky items.
fn sticky_part(weight: u64, sticky: bool) -> u64
    ensures { result ≡ (if sticky then weight else 0) }
{
    if sticky { weight } else { 0 }
}

// What a key's place weighs, and on which side it is.
#[derive(Clone, Copy)]
struct Held {
    weight: u64,
    sticky: bool,
}

// Makes a place with this in it for a key that has none. A refusal changes nothing.
fn make_place<T: Weighs>(
    list: &mut RecencyList<T>,
    table: &mut StickyTable<T>,
    alloc: Global,
    key: &[u8],
    place: Option<T>,
    sticky: bool,
) -> Result<(), NoMemory>
    requires list { lookup (bytes_eq key.now) list.old ≡ None }
    requires table { finite.get table.old key.now ≡ None }
    ensures list { OnOk result (list.new ≡ listed_at sticky key.now place list.old) }
    ensures table { OnOk result (table.new ≡ stuck_at sticky key.now place table.old) }
    ensures err { OnErr result ((list.new ≡ list.old) × (table.new ≡ table.old)) }
{
    if sticky {
        table.insert(alloc, key, place)?;
        return Ok(());
    }
    let Err(_) = list.put_first(alloc, key, place) else {
        return Ok(());
    };
    Err(NoMemory)
}

// Takes the key's place away and makes one on the other side, with this in it. A refusal changes nothing.
fn change_side<T: Weighs>(
    list: &mut RecencyList<T>,
    table: &mut StickyTable<T>,
    key: &[u8],
    place: Option<T>,
    sticky: bool,
) -> Result<(), NoMemory>
    requires apart { IsDistinct bytes_eq (keys_of list.old) }
    requires list { is_some (lookup (bytes_eq key.now) list.old) ≡ sticky }
    requires table { finite.contains_key table.old key.now ≡ not sticky }
    ensures list { OnOk result (list.new ≡ listed_at sticky key.now place list.old) }
    ensures table { OnOk result (table.new ≡ stuck_at sticky key.now place table.old) }
    ensures err { OnErr result ((list.new ≡ list.old) × (table.new ≡ table.old)) }
{
    if sticky {
        table.replace_from(list, key, place)?;
    } else {
        table.replace_onto(list, key, place)?;
    }
    Ok(())
}

// Puts something else into the key's place, on whichever side. Answers what was there.
#[inline(always)]
fn refill<T: Weighs>(
    list: &mut RecencyList<T>,
    sticky: &mut StickyTable<T>,
    key: &[u8],
    place: Option<T>,
) -> Taken<T>
    requires { IsSome (lookup (bytes_eq key.now) list.old) → finite.get sticky.old key.now ≡ None }
    ensures item { result.item ≡ option_flatten (option_or (lookup (bytes_eq key.now) list.old) (finite.get sticky.old key.now)) }
    ensures side { result.sticky ≡ finite.contains_key sticky.old key.now }
    ensures list { list.new ≡ set_value (bytes_eq key.now) list.old place }
    ensures sticky { sticky.new ≡ (if finite.contains_key sticky.old key.now then finite.insert sticky.old key.now place else sticky.old) }
{
    match list.replace(key, place) {
        Ok(item) => Taken {
            item,
            sticky: false,
        },
        Err(place) => taken_from_sticky(sticky.replace(key, place)),
    }
}

// Takes the key's place away, on whichever side. Answers what was there.
fn take_away<T: Weighs>(
    list: &mut RecencyList<T>,
    sticky: &mut StickyTable<T>,
    key: &[u8],
) -> Taken<T>
    requires apart { IsDistinct bytes_eq (keys_of list.old) }
    requires once { IsSome (lookup (bytes_eq key.now) list.old) → finite.get sticky.old key.now ≡ None }
    ensures item { result.item ≡ option_flatten (option_or (lookup (bytes_eq key.now) list.old) (finite.get sticky.old key.now)) }
    ensures side { result.sticky ≡ finite.contains_key sticky.old key.now }
    ensures list { list.new ≡ others key.now list.old }
    ensures sticky { sticky.new ≡ finite.remove sticky.old key.now }
{
    match list.remove(key) {
        Some(item) => Taken {
            item,
            sticky: false,
        },
        None => taken_from_sticky(sticky.remove(key)),
    }
}

// What was taken from the sticky places, of which the key had one or none.
fn taken_from_sticky<T: Weighs>(place: Option<Option<T>>) -> Taken<T>
    ensures item { result.item ≡ option_flatten place }
    ensures side { result.sticky ≡ is_some place }
{
    let sticky = place.is_some();
    match place {
        Some(item) => Taken { item, sticky },
        None => Taken { item: None, sticky },
    }
}
