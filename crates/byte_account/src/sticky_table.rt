//! The table of the sticky places, which are never evicted.
ghost use Rattle.std.specs.Prelude.{◌≡◌, ◌<◌, ◌^◌, List, ℕ, Option, Some, None, bytes_eq, option_map, option_copied, if◌then◌else◌, IfOk, IfSome, OnOk, OnErr, IsSome, ◌∷◌};
ghost use Rattle.std.specs.Ordering.{nat_cmp};
ghost use Rattle.std.specs.List.{IsDistinct};
ghost use Rattle.std.specs.Map.{keys_of, lookup, set_value};
ghost use Rattle.std.specs.Coded.{coded_list, coded_ℕ, coded_option};
ghost use Rattle.std.specs.Cmp.Lexicographic.{slice_cmp};
ghost use Rattle.std.specs.FinMap as finite;
ghost use Rattle.std.specs.HashMap.{spare};
ghost use Rattle.arc_core.specs.Places.{others};
ghost use Rattle.byte_account.specs.ByBytes.{map_by_bytes};
ghost use Rattle.byte_account.specs.Weight.{place_weight, weight_under};

use crate::Weighs;
use crate::recency_list::{RecencyList, weigh_place};
use arc_core::NoMemory;
use std::alloc::Global;
use std::collections::HashMap;
use std::marker::Model;
use std::mem;

/// The sticky places, by their keys. Contracts see the finite map of them.
#[derive(Drop)]
pub(crate) struct StickyTable<T: Weighs> {
    table: HashMap<Vec<u8>, Option<T>>,
}

impl<T: Weighs> Model for StickyTable<T> {
    ghost Value = { finite.FinMap (slice_cmp nat_cmp) (Option T) };

    ghost coded = { finite.code (coded_list coded_ℕ) (coded_option T.code) };

    ghost view = { λ places. map_by_bytes (λ key. key.items) places.table.entries };
}

impl<T: Weighs> StickyTable<T> {
    /// An empty table. Takes no memory.
    pub(crate) fn new(alloc: Global) -> StickyTable<T>
        ensures { result ≡ finite.empty }
    {
        StickyTable {
            table: HashMap::new(alloc),
        }
    }

    /// The number of places.
    pub(crate) fn len(&self) -> usize
        ensures len { result ≡ finite.len self.now }
        ensures small { result < 2 ^ 63 }
    {
        self.table.len()
    }

    /// The key's place.
    pub(crate) fn get(&self, key: &[u8]) -> Option<&Option<T>>
        ensures { option_copied result ≡ finite.get self.now key.now }
    {
        // Where no item is sticky, as is common, no key is hashed.
        if self.len() == 0 {
            return None;
        }
        self.table.get(key)
    }

    /// What the key's place weighs; 0 where it has none.
    pub(crate) fn weight(&self, key: &[u8]) -> u64
        ensures { result ≡ weight_under (place_weight T.weigh) key.now (finite.get self.now key.now) }
    {
        match self.get(key) {
            Some(place) => weigh_place(key, place),
            None => 0,
        }
    }

    /// Puts something else into the key's place, where it has one, and hands out what stood there.
    pub(crate) fn replace(&mut self, key: &[u8], place: Option<T>) -> Option<Option<T>>
        ensures old { result ≡ finite.get self.old key.now }
        ensures new { self.new ≡ (if finite.contains_key self.old key.now then finite.insert self.old key.now place else self.old) }
    {
        replace_in(&mut self.table, key, place)
    }

    /// Makes a place for the key. A refusal changes nothing.
    pub(crate) fn insert(
        &mut self,
        alloc: Global,
        key: &[u8],
        place: Option<T>,
    ) -> Result<(), NoMemory>
        ensures ok { OnOk result (self.new ≡ finite.insert self.old key.now place) }
        ensures err { OnErr result (self.new ≡ self.old) }
    {
        let key = Vec::from_slice(alloc, key)?;
        self.table.insert(key, place)?;
        Ok(())
    }

    /// Takes the key's place away, and hands out what stood there.
    pub(crate) fn remove(&mut self, key: &[u8]) -> Option<Option<T>>
        ensures place { result ≡ finite.get self.old key.now }
        ensures rest { self.new ≡ finite.remove self.old key.now }
    {
        self.table.remove(key)
    }

    /// Takes all places away.
    pub(crate) fn clear(&mut self)
        ensures { self.new ≡ finite.empty }
    {
        self.table.clear();
    }

    /// Moves the key's place here from the list, where it has one. Answers what the place weighs. A refusal changes
    /// neither.
    pub(crate) fn take_from(
        &mut self,
        list: &mut RecencyList<T>,
        key: &[u8],
    ) -> Result<u64, NoMemory>
        requires { IsDistinct bytes_eq (keys_of list.old) }
        ensures weight { IfOk result (λ weight. weight ≡ weight_under (place_weight T.weigh) key.now (lookup (bytes_eq key.now) list.old)) }
        ensures list { OnOk result (list.new ≡ others key.now list.old) }
        ensures table { OnOk result ((place : Option T) → lookup (bytes_eq key.now) list.old ≡ Some place → self.new ≡ finite.insert self.old key.now place) }
        ensures err { OnErr result ((list.new ≡ list.old) × (self.new ≡ self.old)) }
    {
        let name = Vec::from_slice(list.allocator(), key)?;
        self.table.reserve(1)?;
        let Some(place) = list.remove(key) else {
            return Ok(0);
        };
        let weight = weigh_place(key, &place);
        insert_spare(&mut self.table, name, place);
        Ok(weight)
    }

    /// Moves the key's place to the front of the list, where it has one. Answers what the place weighs. A refusal changes
    /// neither.
    pub(crate) fn give_to(&mut self, list: &mut RecencyList<T>, key: &[u8]) -> Result<u64, NoMemory>
        requires { lookup (bytes_eq key.now) list.old ≡ None }
        ensures weight { IfOk result (λ weight. weight ≡ weight_under (place_weight T.weigh) key.now (finite.get self.old key.now)) }
        ensures list { OnOk result ((place : Option T) → finite.get self.old key.now ≡ Some place → list.new ≡ (key.now, place) ∷ list.old) }
        ensures table { OnOk result (self.new ≡ finite.remove self.old key.now) }
        ensures err { OnErr result ((list.new ≡ list.old) × (self.new ≡ self.old)) }
    {
        let alloc = list.allocator();
        // So that the place can come back where the list is refused memory.
        self.table.reserve(1)?;
        let Some((name, place)) = self.table.remove_entry(key) else {
            return Ok(0);
        };
        let weight = weigh_place(key, &place);
        match list.put_first(alloc, key, place) {
            Ok(()) => Ok(weight),
            Err(place) => {
                insert_spare(&mut self.table, name, place);
                Err(NoMemory)
            }
        }
    }

    /// Takes the key's place away from the list, where it has one, and makes one here with this in it. A refusal changes
    /// neither.
    pub(crate) fn replace_from(
        &mut self,
        list: &mut RecencyList<T>,
        key: &[u8],
        place: Option<T>,
    ) -> Result<(), NoMemory>
        requires { IsDistinct bytes_eq (keys_of list.old) }
        ensures list { OnOk result (list.new ≡ others key.now list.old) }
        ensures table { OnOk result (IsSome (lookup (bytes_eq key.now) list.old) → self.new ≡ finite.insert self.old key.now place) }
        ensures err { OnErr result ((list.new ≡ list.old) × (self.new ≡ self.old)) }
    {
        let name = Vec::from_slice(list.allocator(), key)?;
        self.table.reserve(1)?;
        let Some(_) = list.remove(key) else {
            return Ok(());
        };
        insert_spare(&mut self.table, name, place);
        Ok(())
    }

    /// Takes the key's place away, where it has one, and makes one in front of the list with this in it. Hands out what
    /// stood there. A refusal changes neither.
    pub(crate) fn replace_onto(
        &mut self,
        list: &mut RecencyList<T>,
        key: &[u8],
        place: Option<T>,
    ) -> Result<Option<T>, NoMemory>
        requires { lookup (bytes_eq key.now) list.old ≡ None }
        ensures list { OnOk result (IsSome (finite.get self.old key.now) → list.new ≡ (key.now, place) ∷ list.old) }
        ensures table { OnOk result (self.new ≡ finite.remove self.old key.now) }
        ensures err { OnErr result ((list.new ≡ list.old) × (self.new ≡ self.old)) }
    {
        let alloc = list.allocator();
        // So that the place can come back where the list is refused memory.
        self.table.reserve(1)?;
        let Some((name, old)) = self.table.remove_entry(key) else {
            return Ok(None);
        };
        match list.put_first(alloc, key, place) {
            Ok(()) => Ok(old),
            Err(refused) => {
                mem::drop(refused);
                insert_spare(&mut self.table, name, old);
                Err(NoMemory)
            }
        }
    }
}

fn replace_in<T: Weighs>(
    table: &mut HashMap<Vec<u8>, Option<T>>,
    key: &[u8],
    place: Option<T>,
) -> Option<Option<T>>
    ensures old { result ≡ lookup (λ name. bytes_eq key.now name.items) table.old.entries }
    ensures new { table.new.entries ≡ set_value (λ name. bytes_eq key.now name.items) table.old.entries place }
{
    match table.get_mut(key) {
        Some(old) => Some(mem::replace(old, place)),
        None => None,
    }
}

// Makes a place for the key, for which there is room.
fn insert_spare<T: Weighs>(table: &mut HashMap<Vec<u8>, Option<T>>, key: Vec<u8>, place: Option<T>)
    requires { 0 < spare table.old }
    ensures { map_by_bytes (λ name. name.items) table.new.entries ≡ finite.insert (map_by_bytes (λ name. name.items) table.old.entries) key.items place }
{
    match table.insert(key, place) {
        Ok(_) => {}
        Err(_) => unreachable!(),
    }
}
