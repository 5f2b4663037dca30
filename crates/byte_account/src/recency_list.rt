//! The list of the places that may be evicted, most recently used first.
ghost use Rattle.std.specs.Prelude.{◌≡◌, ◌+◌, ◌-◌, ◌^◌, ◌<◌, ◌≤◌, List, ℕ, [], ◌∷◌, Option, Some, None, length, bytes_eq, option_map, option_copied, take, nat_eq, nat_le, IfOk, IfErr, IfSome, OnOk, OnErr, MatchResult};
ghost use Rattle.std.specs.List.{IsDistinct};
ghost use Rattle.std.specs.Map.{keys_of, lookup, set_value};
ghost use Rattle.arc_core.specs.Places.{others, to_front, weight_of};
ghost use Rattle.arc_core.specs.Room.{shortest_suffix, survivors};
ghost use Rattle.byte_account.specs.Eviction.{is_last, to_back, PopsDownTo};
ghost use Rattle.byte_account.specs.LeastEviction.{last_of};
ghost use Rattle.byte_account.specs.Numbers.{by_names, IsNumbered};
ghost use Rattle.byte_account.specs.Weight.{place_weight};

use crate::Weighs;
use crate::numbers::{Name, Named, find, free, hash_of};
use arc_core::NoMemory;
use lru::LruCache;
use std::alloc::Global;
use std::marker::Model;
use std::mem;

/// The places that may be evicted, by their keys. Contracts see the list of them, most recently used first.
#[derive(Drop)]
pub(crate) struct RecencyList<T: Weighs> {
    // The places by the numbers of their keys. Unbounded, so that it drops nothing by itself.
    cache: LruCache<u64, Named<T>>,
    // A key's number is its hash and some k below this.
    tries: u64,
}

impl<T: Weighs> Model for RecencyList<T> {
    ghost Value = { List (List ℕ × Option T) };

    ghost view = { λ list. by_names (λ named. named.name.items) (λ named. named.place) list.cache.entries };

    ghost invariant = { λ list. (list.cache.cap ≡ 2 ^ 64 - 1) × IsNumbered (λ named. named.name.items) (λ named. named.place) list.tries list.cache.entries };
}

impl<T: Weighs> RecencyList<T> {
    /// An empty list.
    pub(crate) fn new(alloc: Global) -> Result<RecencyList<T>, NoMemory>
        ensures { IfOk result (λ list. list ≡ []) }
    {
        let cache = LruCache::unbounded(alloc)?;
        Ok(RecencyList { cache, tries: 0 })
    }

    /// Where the places have their memory from.
    pub(crate) fn allocator(&self) -> Global {
        *self.cache.allocator()
    }

    /// The number of places.
    pub(crate) fn len(&self) -> usize
        ensures len { result ≡ length self.now }
        ensures small { result < 2 ^ 63 }
    {
        self.cache.len()
    }

    /// The key's place.
    pub(crate) fn get(&self, key: &[u8]) -> Option<&Option<T>>
        ensures { option_copied result ≡ lookup (bytes_eq key.now) self.now }
    {
        let (_, named) = find(&self.cache, self.tries, key)?;
        Some(&named.place)
    }

    /// Puts something else into the key's place and hands out what stood there. Where the key has no place, hands back
    /// what it was given.
    #[inline(always)]
    pub(crate) fn replace(&mut self, key: &[u8], place: Option<T>) -> Result<Option<T>, Option<T>>
        ensures old { MatchResult result (λ old. lookup (bytes_eq key.now) self.old ≡ Some old) (λ refused. (lookup (bytes_eq key.now) self.old ≡ None) × (refused ≡ place)) }
        ensures new { self.new ≡ set_value (bytes_eq key.now) self.old place }
    {
        match find(&self.cache, self.tries, key) {
            Some((number, _)) => Ok(replace_at(&mut self.cache, number, place)),
            None => Err(place),
        }
    }

    /// Makes a place in front, for a key that has none. A refusal hands back what it was given and changes nothing.
    #[inline(always)]
    pub(crate) fn put_first(
        &mut self,
        alloc: Global,
        key: &[u8],
        place: Option<T>,
    ) -> Result<(), Option<T>>
        requires { lookup (bytes_eq key.now) self.old ≡ None }
        ensures ok { OnOk result (self.new ≡ (key.now, place) ∷ self.old) }
        ensures err { OnErr result (self.new ≡ self.old) }
        ensures returned { IfErr result (λ refused. refused ≡ place) }
    {
        // The cache holds fewer than 2^63 places, so that some number is free, and a new place pushes none out.
        let _count = self.cache.len();
        let hash = hash_of(key);
        let Some(k) = free(&self.cache, hash) else {
            return Err(place);
        };
        let Ok(name) = Name::from_slice(alloc, key) else {
            return Err(place);
        };
        let named = Named { name, place };
        match self.cache.put(hash.wrapping_add(k), named) {
            Ok(_) => {
                self.tries = self.tries.max(k + 1);
                Ok(())
            }
            Err(refused) => Err(refused.value.1.place),
        }
    }

    /// Takes the key's place away, and hands out what stood there.
    pub(crate) fn remove(&mut self, key: &[u8]) -> Option<Option<T>>
        requires { IsDistinct bytes_eq (keys_of self.old) }
        ensures place { result ≡ lookup (bytes_eq key.now) self.old }
        ensures rest { self.new ≡ others key.now self.old }
    {
        let (number, _) = find(&self.cache, self.tries, key)?;
        Some(self.cache.pop(&number)?.place)
    }

    /// Moves the key's place to the front, where it has one.
    pub(crate) fn promote(&mut self, key: &[u8])
        requires { IsDistinct bytes_eq (keys_of self.old) }
        ensures { self.new ≡ to_front key.now self.old }
    {
        if let Some((number, _)) = find(&self.cache, self.tries, key) {
            self.cache.promote(&number);
        }
    }

    /// The fewest of the last places but the key's that weigh at least `need` bytes together, or `None` where not even
    /// all of them do.
    pub(crate) fn fewest_to_free(&self, key: &[u8], need: u64) -> Option<u64>
        requires { weight_of (place_weight T.weigh) self.now < 2 ^ 64 }
        ensures { result ≡ option_map length (shortest_suffix (λ suffix. nat_le need (weight_of (place_weight T.weigh) suffix)) (others key.now self.now)) }
    {
        // Fewer than 2^63 places, so that their number fits.
        let _places = self.cache.len();
        let mut freed = 0;
        let mut count = 0;
        for (_, named) in self.cache.iter().rev() {
            if freed >= need {
                return Some(count);
            }
            if key != named.name.as_slice() {
                freed += weigh_place(named.name.as_slice(), &named.place);
                count += 1;
            }
        }
        if freed >= need { Some(count) } else { None }
    }

    /// Takes the last `n` places but the key's away. Answers how many bytes they weighed.
    pub(crate) fn evict(&mut self, key: &[u8], n: usize) -> u64
        requires apart { IsDistinct bytes_eq (keys_of self.old) }
        requires count { n ≤ length (others key.now self.old) }
        requires small { weight_of (place_weight T.weigh) self.old < 2 ^ 64 }
        ensures places { self.new ≡ survivors key.now n self.old }
        ensures freed { weight_of (place_weight T.weigh) self.new + result ≡ weight_of (place_weight T.weigh) self.old }
    {
        let (freed, left) = self.pop_down_to(key, n);
        if left == 0 {
            return freed;
        }
        // The key's place is the last one now. It steps aside to the front while those before it go.
        self.promote(key);
        let more = self.pop_many(left);
        self.demote(key);
        freed + more
    }

    // Takes at most `n` places from the end away, down to the key's. Answers how many bytes they weighed, and how many
    // of the `n` are left.
    fn pop_down_to(&mut self, key: &[u8], n: usize) -> (u64, usize)
        requires count { n ≤ length self.old }
        requires small { weight_of (place_weight T.weigh) self.old < 2 ^ 64 }
        ensures { PopsDownTo (place_weight T.weigh) key.now n self.old self.new result.0 result.1 }
    {
        let mut freed = 0;
        let mut left = n;
        while left > 0 && !self.is_last(key) {
            freed += self.pop_last();
            left -= 1;
        }
        (freed, left)
    }

    /// Takes the last `n` places away. Answers how many bytes they weighed.
    pub(crate) fn pop_many(&mut self, n: usize) -> u64
        requires { weight_of (place_weight T.weigh) (last_of n self.old) < 2 ^ 64 }
        ensures places { self.new ≡ take (length self.old - n) self.old }
        ensures freed { weight_of (place_weight T.weigh) self.new + result ≡ weight_of (place_weight T.weigh) self.old }
    {
        let mut freed = 0;
        for _ in 0..n {
            freed += self.pop_last();
        }
        freed
    }

    // Takes the last place away, if there is one. Answers how many bytes it weighed.
    fn pop_last(&mut self) -> u64
        ensures places { self.new ≡ take (length self.old - 1) self.old }
        ensures freed { weight_of (place_weight T.weigh) self.new + result ≡ weight_of (place_weight T.weigh) self.old }
    {
        let Some((_, named)) = self.cache.pop_lru() else {
            return 0;
        };
        weigh_place(named.name.as_slice(), &named.place)
    }

    // Whether the key's place is the last.
    fn is_last(&self, key: &[u8]) -> bool
        ensures { result ≡ is_last key.now self.now }
    {
        match self.cache.peek_lru() {
            Some((_, named)) => key == named.name.as_slice(),
            None => false,
        }
    }

    // Moves the key's place to the end, where it has one.
    fn demote(&mut self, key: &[u8])
        requires { IsDistinct bytes_eq (keys_of self.old) }
        ensures { self.new ≡ to_back key.now self.old }
    {
        if let Some((number, _)) = find(&self.cache, self.tries, key) {
            self.cache.demote(&number);
        }
    }

    /// Takes all places away.
    pub(crate) fn clear(&mut self)
        ensures { self.new ≡ [] }
    {
        self.cache.clear();
        self.tries = 0;
    }
}

// Puts something else into the place that has this number and key, and hands out what stood there.
fn replace_at<T: Weighs>(
    cache: &mut LruCache<u64, Named<T>>,
    number: u64,
    place: Option<T>,
) -> Option<T>
    ensures old { IfSome (lookup (nat_eq number) cache.old.entries) (λ named. result ≡ named.place) }
    ensures new { IfSome (lookup (nat_eq number) cache.old.entries) (λ named. cache.new.entries ≡ set_value (nat_eq number) cache.old.entries (record named { place = place })) }
    ensures cap { cache.new.cap ≡ cache.old.cap }
{
    match cache.peek_mut(&number) {
        Some(named) => mem::replace(&mut named.place, place),
        None => place,
    }
}

/// The bytes that a place weighs.
pub(crate) fn weigh_place<T: Weighs>(name: &[u8], place: &Option<T>) -> u64
    ensures { result ≡ place_weight T.weigh name.now place.now }
{
    match place {
        Some(item) => item.weight(name),
        None => 0,
    }
}
