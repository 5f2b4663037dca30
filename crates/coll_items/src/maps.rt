//! What requests want done with a map. (`mop` of the ARCUS protocol; `mop upsert` is this server's own.)
ghost use Rattle.std.specs.Prelude.{◌≡◌, ◌≤◌, ◌<◌, ◌==◌, ◌^◌, ℕ, true, false, not, List, [], ◌∷◌, ◌++◌, length, map, get_or, IfOk, OnOk};
ghost use Rattle.arc_core.specs.CollectionRows.{field_row};
ghost use Rattle.arc_core.specs.CollectionStep.{on_map};
ghost use Rattle.arc_core.specs.Item.{IsField, map as map_of};
ghost use Rattle.arc_core.specs.MapReading.{named_pairs};
ghost use Rattle.arc_core.specs.MapRows.{map_insert, map_update, map_upsert, map_delete, map_get, pairs_asked, pairs_left};
ghost use Rattle.coll_items.specs.Changing.{taken_out, FitsOut};
ghost use Rattle.coll_items.specs.Planning.{IsShort, Plans, SuitsPlan, TakesNoMemory, TakesNothingOut, are_some};

use crate::planned::{answered, put_row, taken};
use crate::{Collection, Elements, Insertion, Planned, Removal, Removed};
use arc_core::{Key, KeyRef, KeyWords, NoMemory, Reply, Row, RowName, Seq, Take, Value, Word};
use map_coll::MapColl;
use std::alloc::Global;

/// `mop insert`: puts a new field with its value, of at most 32,768 bytes, last into a map. `ELEMENT_EXISTS` where the
/// field is there, `OVERFLOWED` where the map is full. Takes memory for field and value.
pub fn insert_into_map<'a>(
    collection: &Collection,
    alloc: Global,
    field: &KeyRef<'_>,
    value: &[u8],
) -> Planned<'a>
    requires field { IsField field.now }
    requires value { length value.now ≤ 32768 }
    ensures plans { Plans false (on_map (map_insert field.now value.now)) collection.now result }
    ensures suits { SuitsPlan collection.now result }
    ensures short { IsShort result }
    ensures puts { TakesNothingOut result }
{
    let attrs = collection.attrs();
    let Elements::Map(map) = collection.elements() else {
        return answered(Word::TypeMismatch);
    };
    if map.place_of(field.bytes()).is_some() {
        return answered(Word::ElementExists);
    }
    if map.count() == attrs.maxcount {
        return answered(Word::Overflowed);
    }
    let Ok(value) = Value::copy(alloc, value) else {
        return Planned::NoMemory;
    };
    let Ok(field) = Key::copy(alloc, KeyRef::of(field.bytes())) else {
        return Planned::NoMemory;
    };
    Planned::Puts(
        Insertion::IntoMap { field, value },
        Reply::Word(Word::Stored),
    )
}

/// `mop update`: gives a field another value, of at most 32,768 bytes; `NOT_FOUND_ELEMENT` where it is not there. Takes
/// memory for the value.
pub fn update_map<'a>(
    collection: &Collection,
    alloc: Global,
    field: &KeyRef<'_>,
    value: &[u8],
) -> Planned<'a>
    requires value { length value.now ≤ 32768 }
    ensures plans { Plans false (on_map (map_update field.now value.now)) collection.now result }
    ensures suits { SuitsPlan collection.now result }
    ensures short { IsShort result }
    ensures puts { TakesNothingOut result }
{
    let Elements::Map(map) = collection.elements() else {
        return answered(Word::TypeMismatch);
    };
    let Some(place) = map.place_of(field.bytes()) else {
        return answered(Word::NotFoundElement);
    };
    let Ok(value) = Value::copy(alloc, value) else {
        return Planned::NoMemory;
    };
    Planned::Puts(
        Insertion::OfField { place, value },
        Reply::Word(Word::Updated),
    )
}

/// `mop upsert`: gives a field another value, of at most 32,768 bytes, and answers `REPLACED`; where it is not there it is
/// put last, as `mop insert` does. Takes memory for field and value.
pub fn upsert_map<'a>(
    collection: &Collection,
    alloc: Global,
    field: &KeyRef<'_>,
    value: &[u8],
) -> Planned<'a>
    requires field { IsField field.now }
    requires value { length value.now ≤ 32768 }
    ensures plans { Plans false (on_map (map_upsert field.now value.now)) collection.now result }
    ensures suits { SuitsPlan collection.now result }
    ensures short { IsShort result }
    ensures puts { TakesNothingOut result }
{
    let Elements::Map(map) = collection.elements() else {
        return answered(Word::TypeMismatch);
    };
    let Some(place) = map.place_of(field.bytes()) else {
        return insert_into_map(collection, alloc, field, value);
    };
    let Ok(value) = Value::copy(alloc, value) else {
        return Planned::NoMemory;
    };
    Planned::Puts(
        Insertion::OfField { place, value },
        Reply::Word(Word::Replaced),
    )
}

/// `mop delete`: removes the pairs of these fields, or all where none is named; `NOT_FOUND_ELEMENT` where none of them is
/// there. Takes no memory.
///
/// `drop_empty` says that a map which is left empty goes too, and is answered with `DELETED_DROPPED`.
pub fn delete_from_map<'a>(
    collection: &Collection,
    fields: &'a KeyWords<'a>,
    drop_empty: bool,
) -> Planned<'a>
    ensures plans { Plans false (on_map (map_delete fields.now drop_empty)) collection.now result }
    ensures suits { SuitsPlan collection.now result }
    ensures short { IsShort result }
    ensures memory { TakesNoMemory result }
{
    let Elements::Map(map) = collection.elements() else {
        return answered(Word::TypeMismatch);
    };
    if !has_some(map, fields) {
        return answered(Word::NotFoundElement);
    }
    Planned::Removes {
        removal: removal_of(fields),
        drop_empty,
        removed: Removed::Told,
    }
}

/// `mop get`: reads the pairs of these fields in their order, each once, or all in the order of insertion where none is
/// named, and takes them out where `take` says so; `NOT_FOUND_ELEMENT` where none of them is there. Takes memory for the
/// answer.
pub fn read_map<'a>(
    collection: &Collection,
    alloc: Global,
    fields: &'a KeyWords<'a>,
    take: Take,
) -> Planned<'a>
    ensures plans { Plans true (on_map (map_get fields.now take)) collection.now result }
    ensures suits { SuitsPlan collection.now result }
    ensures short { IsShort result }
{
    let attrs = collection.attrs();
    let Elements::Map(map) = collection.elements() else {
        return answered(Word::TypeMismatch);
    };
    if !attrs.readable {
        return answered(Word::Unreadable);
    }
    if !has_some(map, fields) {
        return answered(Word::NotFoundElement);
    }
    let Ok(rows) = rows_of(alloc, map, fields) else {
        return Planned::NoMemory;
    };
    taken(attrs.flags, rows, take, removal_of(fields))
}

// Whether some of these fields are there, or any where none is named.
fn has_some(held: &MapColl, fields: &KeyWords<'_>) -> bool
    ensures { result ≡ not (length (pairs_asked fields.now held.now.pairs) == 0) }
{
    if fields.count() == 0 {
        return held.count() > 0;
    }
    any_named(held, fields)
}

// Whether some of these fields are there.
fn any_named(held: &MapColl, fields: &KeyWords<'_>) -> bool
    ensures { result ≡ are_some fields.now held.now.pairs }
{
    let mut found = false;
    for field in fields.iter() {
        if held.place_of(field.bytes()).is_some() {
            found = true;
        }
    }
    found
}

// The removal of the pairs of these fields, or of all where none is named.
fn removal_of<'a>(fields: &'a KeyWords<'a>) -> Removal<'a>
    ensures fits { (pairs : List (List ℕ × List ℕ)) → FitsOut result (map_of pairs) }
    ensures left { (pairs : List (List ℕ × List ℕ)) → taken_out result (map_of pairs) ≡ map_of (pairs_left fields.now pairs) }
{
    if fields.count() == 0 {
        Removal::AllOfMap
    } else {
        Removal::FromMap { fields }
    }
}

// The pairs of these fields as rows in their order, each once, or all where none is named.
fn rows_of(alloc: Global, held: &MapColl, fields: &KeyWords<'_>) -> Result<Seq<Row>, NoMemory>
    ensures rows { IfOk result (λ rows. rows ≡ map field_row (pairs_asked fields.now held.now.pairs)) }
    ensures few { length fields.now < 2 ^ 32 }
{
    if fields.count() == 0 {
        return all_rows(alloc, held);
    }
    named_rows(alloc, held, fields)
}

// All pairs as rows.
fn all_rows(alloc: Global, held: &MapColl) -> Result<Seq<Row>, NoMemory>
    ensures { IfOk result (λ rows. rows ≡ map field_row held.now.pairs) }
{
    let mut rows = Seq::with_capacity(alloc, held.count() as usize)?;
    for place in 0..held.count() {
        put_pair(&mut rows, alloc, held, place)?;
    }
    Ok(rows)
}

// The pairs of these fields as rows in their order, each once.
fn named_rows(alloc: Global, held: &MapColl, fields: &KeyWords<'_>) -> Result<Seq<Row>, NoMemory>
    ensures { IfOk result (λ rows. rows ≡ map field_row (named_pairs fields.now held.now.pairs)) }
{
    let places = held.chosen(alloc, fields)?;
    let places = places.as_slice();
    let mut rows = Seq::with_capacity(alloc, places.len())?;
    for index in 0..places.len() {
        put_pair(&mut rows, alloc, held, places[index])?;
    }
    Ok(rows)
}

// Puts the pair at a place last into an answer.
fn put_pair(rows: &mut Seq<Row>, alloc: Global, held: &MapColl, place: u32) -> Result<(), NoMemory>
    requires { place < length held.now.pairs }
    ensures { OnOk result (rows.new ≡ rows.old ++ field_row (get_or held.now.pairs place ([], [])) ∷ []) }
{
    let (field, value) = held.at(place);
    let name = RowName::Field(Key::copy(alloc, field)?);
    put_row(rows, name, value.share()?)
}
