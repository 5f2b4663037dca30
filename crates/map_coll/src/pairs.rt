//! The pairs of a map.
ghost use Rattle.std.specs.Prelude.{true, false, not, if◌then◌else◌, All, ◌≡◌, ◌+◌, ◌%◌, ◌^◌, ◌≤◌, ◌<◌, [], ◌∷◌, ◌++◌, length, get_or, filter, remove, take, drop, slice_get, slice_set, IfSome, IfOk, OnOk, OnErr};
ghost use Rattle.std.specs.Option.{option_map};
ghost use Rattle.arc_core.specs.CollectionSize.{pair_size, pairs_size};
ghost use Rattle.arc_core.specs.MapReading.{place_of, chosen, with_value_at, is_named, without, HaveDistinctFields};
ghost use Rattle.map_coll.specs.TableEntries.{held_pairs};
ghost use Rattle.indexmap.specs.IndexMap.{spare};

use arc_core::{Key, KeyRef, KeyWords, NoMemory, Seq, Value};
use indexmap::IndexMap;
use std::alloc::Global;
use std::marker::Model;
use std::mem;

// The most pairs of a map, so that its count and its places are numbers of 32 bits.
const MAX_PAIRS: usize = 4_294_967_295;

/// The pairs of a map.
///
/// Contracts see it as the list of its pairs of a field and a value, with distinct fields, in the order of insertion, and
/// `spare`, the number of further pairs for which it has room. It has room for at most 2^32 - 1 pairs in all, far above
/// what a map may be made to hold.
#[derive(Drop)]
pub struct MapColl {
    // Fields are kept as vectors of bytes, so that a look-up by a slice takes no memory.
    table: IndexMap<Vec<u8>, Held>,
    // The stated sizes of the pairs together, modulo 2^64.
    size: u64,
}

// A value, and whether it is marked to go: while fields are removed, and at no other time.
#[derive(Drop)]
struct Held {
    value: Value,
    marked: bool,
}

impl Model for MapColl {
    ghost use Rattle.std.specs.Prelude.{◌≡◌, ◌%◌, ◌^◌, ◌≤◌, length};
    ghost use Rattle.indexmap.specs.IndexMap.{spare};
    ghost use Rattle.arc_core.specs.CollectionSize.{pairs_size};
    ghost use Rattle.map_coll.specs.MapContents.{MapContents, most_pairs, room_of};
    ghost use Rattle.map_coll.specs.TableEntries.{held_pairs, AreAtRest};

    ghost Value = { MapContents };

    ghost view = { λ it. record {
      pairs = held_pairs it.table.entries;
      spare = room_of (length it.table.entries) (spare it.table);
    } };

    ghost invariant = { λ it. (length it.table.entries ≤ most_pairs) × AreAtRest it.table.entries
        × (it.size ≡ pairs_size (held_pairs it.table.entries) % 2 ^ 64) };
}

impl MapColl {
    /// The empty map. Takes no memory.
    pub fn new(alloc: Global) -> MapColl
        ensures { result.pairs ≡ [] }
    {
        MapColl {
            table: IndexMap::new(alloc),
            size: 0,
        }
    }

    /// The number of pairs, whose fields are distinct.
    pub fn count(&self) -> u32
        ensures count { result ≡ length self.now.pairs }
        ensures distinct { HaveDistinctFields self.now.pairs }
    {
        self.table.len() as u32
    }

    /// The stated sizes of the pairs together, in bytes and modulo 2^64: 32 and the bytes of its field and its value for
    /// each (this server's own). It is a number that each change keeps right, so that no pair is looked at.
    pub fn size(&self) -> u64
        ensures { result ≡ pairs_size self.now.pairs % 2 ^ 64 }
    {
        self.size
    }

    /// Makes room for one more pair.
    ///
    /// `NoMemory` comes for want of memory, and in a map of 2^32 - 1 pairs. It never comes where there is room.
    pub fn reserve(&mut self) -> Result<(), NoMemory>
        ensures pairs { self.new.pairs ≡ self.old.pairs }
        ensures room { OnOk result (1 ≤ self.new.spare) }
        ensures spare { self.old.spare ≤ self.new.spare }
        ensures refused { OnErr result (self.old.spare ≡ 0) }
    {
        if self.table.len() == MAX_PAIRS {
            return Err(NoMemory);
        }
        self.table.reserve(1)?;
        Ok(())
    }

    /// The place of a field's pair, counted from 0 in the order of insertion. Takes no memory.
    pub fn place_of(&self, field: &[u8]) -> Option<u32>
        ensures place { result ≡ place_of field.now self.now.pairs }
        ensures within { IfSome result (λ place. place < length self.now.pairs) }
    {
        let place = self.table.get_index_of(field)?;
        Some(place as u32)
    }

    /// The places of the named fields that are there, in the order of naming (ARCUS's `mop get`). A field that is named
    /// twice counts at its first place alone.
    ///
    /// `NoMemory` comes for want of memory alone. Where one field is named, nothing is taken beside the place itself.
    pub fn chosen(&self, alloc: Global, fields: &KeyWords<'_>) -> Result<Seq<u32>, NoMemory>
        ensures { IfOk result (λ places. places ≡ chosen fields.now self.now.pairs) }
    {
        if fields.count() == 1 {
            return self.chosen_alone(alloc, fields);
        }
        let mut places = Seq::new(alloc);
        let mut seen = vec![in alloc; false; self.count() as usize]?;
        for field in fields.iter() {
            if let Some(place) = self.place_of(field.bytes()) {
                put_new(&mut places, &mut seen, place)?;
            }
        }
        Ok(places)
    }

    // The place of the only field that is named, if it is there.
    fn chosen_alone(&self, alloc: Global, fields: &KeyWords<'_>) -> Result<Seq<u32>, NoMemory>
        requires { length fields.now ≡ 1 }
        ensures { IfOk result (λ places. places ≡ chosen fields.now self.now.pairs) }
    {
        let mut places = Seq::new(alloc);
        if let Some(field) = fields.iter().next() {
            if let Some(place) = self.place_of(field.bytes()) {
                put_last(&mut places, place)?;
            }
        }
        Ok(places)
    }

    /// Puts a pair with a new field last. Takes no memory.
    pub fn insert_spare(&mut self, field: Key, value: Value)
        requires spare { 1 ≤ self.old.spare }
        requires absent { place_of field self.old.pairs ≡ None }
        ensures pairs { self.new.pairs ≡ self.old.pairs ++ (field, value) ∷ [] }
        ensures spare { self.old.spare ≤ self.new.spare + 1 }
    {
        self.size = self.size.wrapping_add(pair_size(field.bytes(), &value));
        let held = Held {
            value,
            marked: false,
        };
        self.table.insert(field.into_bytes(), held).unwrap();
    }

    /// The pair at a place.
    pub fn at(&self, place: u32) -> (KeyRef<'_>, &Value)
        requires { place < length self.now.pairs }
        ensures { slice_get self.now.pairs place ≡ Some (result.0, result.1.now) }
    {
        let (field, held) = self.table.get_index(place as usize).unwrap();
        (KeyRef::of(field), &held.value)
    }

    /// Gives the field at a place another value, and hands the old value back. Takes no memory.
    pub fn replace(&mut self, place: u32, value: Value) -> Value
        requires { place < length self.old.pairs }
        ensures old { option_map (λ pair. pair.1) (slice_get self.old.pairs place) ≡ Some result }
        ensures pairs { self.new.pairs ≡ with_value_at self.old.pairs place value }
        ensures spare { self.new.spare ≡ self.old.spare }
    {
        let gained = value_len(&value);
        let old = mem::replace(&mut self.table[place as usize].value, value);
        let lost = value_len(&old);
        self.size = self.size.wrapping_add(gained).wrapping_sub(lost);
        old
    }

    /// Removes the pair at a place. The others keep their order, which costs a move of each that is behind it.
    pub fn remove(&mut self, place: u32)
        requires { place < length self.old.pairs }
        ensures pairs { self.new.pairs ≡ remove self.old.pairs place }
        ensures spare { self.old.spare ≤ self.new.spare }
    {
        let (field, value) = self.at(place);
        let gone = pair_size(field.bytes(), value);
        self.size = self.size.wrapping_sub(gone);
        self.table.shift_remove_index(place as usize);
    }

    /// Removes the first `n` pairs, or all where there are fewer, in one step. The others keep their order.
    pub fn remove_first(&mut self, n: u32)
        ensures pairs { self.new.pairs ≡ drop n self.old.pairs }
        ensures spare { self.old.spare ≤ self.new.spare }
    {
        let n = self.count().min(n);
        let gone = self.size_of_first(n);
        self.size = self.size.wrapping_sub(gone);
        self.table.drain(..n as usize);
    }

    /// Removes the pairs of the named fields in one step. The others keep their order, and a field without a pair, or one
    /// that is named twice, changes nothing more. Takes no memory. Where one field is named, the map is not walked, and
    /// its pair is removed as by `remove`.
    pub fn remove_fields(&mut self, fields: &KeyWords<'_>)
        ensures pairs { self.new.pairs ≡ without fields.now self.old.pairs }
        ensures spare { self.old.spare ≤ self.new.spare }
    {
        if fields.count() == 1 {
            return self.remove_alone(fields);
        }
        let gone = mark_fields(&mut self.table, fields);
        self.size = self.size.wrapping_sub(gone);
        self.table.retain(
            |_: &Vec<u8>, held: &mut Held| -> bool
                ensures { (result ≡ not held.old.marked) × (held.new ≡ held.old) }
            { !held.marked },
        );
    }

    // Removes the pair of the only field that is named, if it is there. No other pair is looked at, and those behind it
    // are moved.
    fn remove_alone(&mut self, fields: &KeyWords<'_>)
        requires { length fields.now ≡ 1 }
        ensures pairs { self.new.pairs ≡ without fields.now self.old.pairs }
        ensures spare { self.old.spare ≤ self.new.spare }
    {
        // `count` says too that the fields are distinct, which is why no other pair has to go.
        let count = self.count();
        if let Some(field) = fields.iter().next() {
            if let Some(place) = self.place_of(field.bytes()) {
                prove!(place < count);
                self.remove(place);
            }
        }
    }

    /// Removes all pairs in one step.
    pub fn remove_all(&mut self)
        ensures pairs { self.new.pairs ≡ [] }
        ensures spare { self.old.spare ≤ self.new.spare }
    {
        self.size = 0;
        self.table.clear();
    }

    // The stated sizes of the first `n` pairs together, modulo 2^64.
    fn size_of_first(&self, n: u32) -> u64
        requires { n ≤ length self.now.pairs }
        ensures { result ≡ pairs_size (take n self.now.pairs) % 2 ^ 64 }
    {
        let mut size = 0u64;
        for place in 0..n {
            let (field, value) = self.at(place);
            size = size.wrapping_add(pair_size(field.bytes(), value));
        }
        size
    }
}

// The stated size of a pair, in bytes and modulo 2^64.
fn pair_size(field: &[u8], value: &Value) -> u64
    ensures { result ≡ pair_size (field.now, value.now) % 2 ^ 64 }
{
    (32 + field.len() as u64).wrapping_add(value_len(value))
}

// The bytes of a value.
fn value_len(value: &Value) -> u64
    ensures { result ≡ length value.now }
{
    value.bytes().len() as u64
}

// Puts a place last if it was not seen before, and notes that it is seen.
fn put_new(places: &mut Seq<u32>, seen: &mut Vec<bool>, place: u32) -> Result<(), NoMemory>
    requires { place < length seen.old.items }
    ensures places { OnOk result (places.new ≡ places.old ++ (if get_or seen.old.items place false then [] else place ∷ [])) }
    ensures seen { OnOk result (seen.new.items ≡ slice_set seen.old.items place true) }
{
    if mem::replace(&mut seen[place as usize], true) {
        Ok(())
    } else {
        put_last(places, place)
    }
}

// Puts a place last.
fn put_last(places: &mut Seq<u32>, place: u32) -> Result<(), NoMemory>
    ensures { OnOk result (places.new ≡ places.old ++ place ∷ []) }
{
    match places.push(place) {
        Ok(()) => Ok(()),
        Err(_) => Err(NoMemory),
    }
}

// Marks the entries of the named fields, and answers the stated sizes of their pairs together, modulo 2^64.
fn mark_fields(table: &mut IndexMap<Vec<u8>, Held>, fields: &KeyWords<'_>) -> u64
    requires { All (λ e. e.1.marked ≡ false) table.old.entries }
    ensures marks { All (λ e. e.1.marked ≡ is_named fields.now e.0.items) table.new.entries }
    ensures pairs { held_pairs table.new.entries ≡ held_pairs table.old.entries }
    ensures room { spare table.new ≡ spare table.old }
    ensures size { result ≡ pairs_size (held_pairs (filter (λ e. e.1.marked) table.new.entries)) % 2 ^ 64 }
{
    let mut size = 0u64;
    for field in fields.iter() {
        let name = field.bytes();
        if let Some(place) = table.get_index_of(name) {
            size = size.wrapping_add(mark(&mut table[place], name));
        }
    }
    size
}

// Marks what is held under a field, and answers the stated size of the pair, or 0 where it is marked already.
fn mark(held: &mut Held, field: &[u8]) -> u64
    ensures held { (held.new.value ≡ held.old.value) × (held.new.marked ≡ true) }
    ensures size { result ≡ (if held.old.marked then 0 else pair_size (field.now, held.old.value) % 2 ^ 64) }
{
    if held.marked {
        0
    } else {
        held.marked = true;
        pair_size(field, &held.value)
    }
}
