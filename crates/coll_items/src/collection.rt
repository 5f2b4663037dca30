//! A collection: its attributes and what it holds.
ghost use Rattle.std.specs.Prelude.{◌≡◌, ◌<◌, ◌≤◌, ◌^◌, length, insert, OnOk};
ghost use Rattle.arc_core.specs.CollectionRequests.{empty_of};
ghost use Rattle.arc_core.specs.CollectionSize.{value_size};
ghost use Rattle.arc_core.specs.Item.{IsCollection, contents_size};
ghost use Rattle.coll_items.specs.Changing.{inserted, taken_out, perhaps_trimmed, end_size, room_asked, HasEnd, IsPlaceIn, FitsInto, SuitsInsertion, FitsOut};
ghost use Rattle.coll_items.specs.Holding.{contents_of, spare_of};

use crate::{Elements, Insertion, Removal};
use arc_core::{Attrs, Expiry, Kind, NoMemory, Side, Value};
use list_coll::ListColl;
use map_coll::MapColl;
use set_coll::SetColl;
use std::alloc::Global;
use std::marker::Model;

// What the stated size of an element counts beside its bytes.
const ELEMENT_BYTES: u64 = 32;

/// A collection. Contracts see its attributes, what it holds, and for how many further elements it has room.
///
/// It keeps the rules of a collection: at most `maxcount` elements, which is 1 to 1,000,000, of 32,768 bytes at most each;
/// the values of a set and the fields of a map distinct; an action of its kind.
#[derive(Drop)]
pub struct Collection {
    attrs: Attrs,
    elements: Elements,
}

impl Model for Collection {
    ghost use Rattle.arc_core.specs.Item.{IsCollection};
    ghost use Rattle.coll_items.specs.Holding.{Held, contents_of, spare_of};

    ghost Value = { Held };

    ghost view = { λ it. record { attrs = it.attrs; contents = contents_of it.elements; spare = spare_of it.elements } };

    ghost invariant = { λ it. IsCollection it.attrs (contents_of it.elements) };
}

impl Collection {
    /// The empty collection of this kind, with these attributes. Takes no memory.
    ///
    /// The attributes have to keep the rules: an action of the kind, a maxcount of 1 to 1,000,000, no maxbkeyrange.
    pub fn new(alloc: Global, kind: Kind, attrs: Attrs) -> Collection
        requires kept { IsCollection attrs (empty_of kind) }
        ensures attrs { result.attrs ≡ attrs }
        ensures contents { result.contents ≡ empty_of kind }
    {
        let elements = match kind {
            Kind::Set => Elements::Set(SetColl::new(alloc)),
            Kind::Map => Elements::Map(MapColl::new(alloc)),
            Kind::List | Kind::Kv | Kind::Tree => Elements::List(ListColl::new(alloc)),
        };
        Collection { attrs, elements }
    }

    /// The attributes.
    pub fn attrs(&self) -> &Attrs
        ensures attrs { result.now ≡ self.now.attrs }
        ensures rules { IsCollection self.now.attrs self.now.contents }
    {
        &self.attrs
    }

    /// What it holds.
    pub fn elements(&self) -> &Elements
        ensures elements { contents_of result.now ≡ self.now.contents }
        ensures rules { IsCollection self.now.attrs self.now.contents }
    {
        &self.elements
    }

    /// The stated sizes of its elements together, in bytes, which are fewer than 2^40. It is kept as a running number.
    pub fn size(&self) -> u64
        ensures size { result ≡ contents_size self.now.contents }
        ensures small { result < 2 ^ 40 }
    {
        match &self.elements {
            Elements::List(list) => list.size(),
            Elements::Set(set) => set.size(),
            Elements::Map(map) => map.size(),
        }
    }

    /// The same collection with another expiry.
    pub fn set_expiry(&mut self, expiry: Expiry)
        ensures attrs { self.new.attrs ≡ record self.old.attrs { expiry = expiry } }
        ensures contents { self.new.contents ≡ self.old.contents }
    {
        self.attrs.expiry = expiry;
    }

    /// The stated sizes of its elements together after an insertion, in bytes, which are fewer than 2^41.
    pub fn size_with(&self, insertion: &Insertion) -> u64
        requires suits { SuitsInsertion insertion.now self.now.attrs self.now.contents }
        ensures size { result ≡ contents_size (inserted insertion.now self.now.contents) }
        ensures small { result < 2 ^ 41 }
    {
        size_after(&self.elements, self.size(), insertion)
    }

    /// Takes the room for which an insertion asks. `NoMemory` comes for want of memory alone; then nothing has changed but
    /// that there may be more room.
    pub fn reserve_for(&mut self, insertion: &Insertion) -> Result<(), NoMemory>
        requires suits { SuitsInsertion insertion.now self.old.attrs self.old.contents }
        ensures attrs { self.new.attrs ≡ self.old.attrs }
        ensures contents { self.new.contents ≡ self.old.contents }
        ensures room { OnOk result (room_asked insertion.now ≤ self.new.spare) }
    {
        if let Insertion::OfField { .. } = insertion {
            return Ok(());
        }
        match &mut self.elements {
            Elements::List(list) => list.reserve(),
            Elements::Set(set) => set.reserve(),
            Elements::Map(map) => map.reserve(),
        }
    }

    /// Puts an element in, for which there has to be room. Takes no memory.
    pub fn insert(&mut self, insertion: Insertion)
        requires suits { SuitsInsertion insertion self.old.attrs self.old.contents }
        requires room { room_asked insertion ≤ self.old.spare }
        ensures attrs { self.new.attrs ≡ self.old.attrs }
        ensures contents { self.new.contents ≡ inserted insertion self.old.contents }
    {
        put_into(&mut self.elements, insertion);
        // (They are distinct still.)
        let _ = self.elements.count();
    }

    /// Takes elements out, in one step. What is left is no larger. Takes no memory.
    pub fn remove(&mut self, removal: &Removal<'_>)
        requires fits { FitsOut removal.now self.old.contents }
        ensures attrs { self.new.attrs ≡ self.old.attrs }
        ensures contents { self.new.contents ≡ taken_out removal.now self.old.contents }
        ensures size { contents_size self.new.contents ≤ contents_size self.old.contents }
    {
        take_out_of(&mut self.elements, removal);
        // (They are distinct still.)
        let _ = self.elements.count();
    }
}

// The stated sizes of the elements together after an insertion, by those of the elements now.
#[tactic(auto, using(crate::proofs::SizeLemmas::list_grown, crate::proofs::SizeLemmas::has_end, crate::proofs::SizeLemmas::set_grown, crate::proofs::SizeLemmas::map_grown, crate::proofs::SizeLemmas::field_changed, crate::proofs::SizeLemmas::field_within))]
fn size_after(elements: &Elements, size: u64, insertion: &Insertion) -> u64
    requires fits { FitsInto insertion.now (contents_of elements.now) }
    requires size { size ≡ contents_size (contents_of elements.now) }
    requires small { size < 2 ^ 40 }
    ensures size { result ≡ contents_size (inserted insertion.now (contents_of elements.now)) }
    ensures small { result < 2 ^ 41 }
{
    match (elements, insertion) {
        (
            Elements::List(list),
            Insertion::IntoList {
                place: _,
                trim,
                value,
            },
        ) => { size + element_size(value.bytes()) - trimmed_size(list, *trim) }
        (Elements::Set(_), Insertion::IntoSet { value }) => size + element_size(value),
        (Elements::Map(_), Insertion::IntoMap { field, value }) => {
            size + field.bytes().len() as u64 + element_size(value.bytes())
        }
        (Elements::Map(map), Insertion::OfField { place, value }) => {
            let (_, old) = map.at(*place);
            size - element_size(old.bytes()) + element_size(value.bytes())
        }
        _ => unreachable!(),
    }
}

// Puts an element in, for which there has to be room.
fn put_into(elements: &mut Elements, insertion: Insertion)
    requires fits { FitsInto insertion (contents_of elements.old) }
    requires room { room_asked insertion ≤ spare_of elements.old }
    ensures { contents_of elements.new ≡ inserted insertion (contents_of elements.old) }
{
    match (elements, insertion) {
        (Elements::List(list), Insertion::IntoList { place, trim, value }) => {
            put_into_list(list, place, trim, value);
        }
        (Elements::Set(set), Insertion::IntoSet { value }) => set.insert_spare(value),
        (Elements::Map(map), Insertion::IntoMap { field, value }) => {
            map.insert_spare(field, value);
        }
        (Elements::Map(map), Insertion::OfField { place, value }) => {
            map.replace(place, value);
        }
        _ => unreachable!(),
    }
}

// Takes elements out.
fn take_out_of(elements: &mut Elements, removal: &Removal<'_>)
    requires { FitsOut removal.now (contents_of elements.old) }
    ensures { contents_of elements.new ≡ taken_out removal.now (contents_of elements.old) }
{
    match (elements, removal) {
        (Elements::List(list), Removal::FromList { low, high }) => list.remove(*low, *high),
        (Elements::Set(set), Removal::FromSet { place }) => set.remove(*place),
        (Elements::Set(set), Removal::FirstOfSet { number }) => set.remove_first(*number),
        (Elements::Map(map), Removal::FromMap { fields }) => map.remove_fields(fields),
        (Elements::Map(map), Removal::AllOfMap) => map.remove_all(),
        _ => unreachable!(),
    }
}

// The stated size of an element without a field, in bytes.
fn element_size(value: &[u8]) -> u64
    ensures { result ≡ value_size value.now }
{
    ELEMENT_BYTES + value.len() as u64
}

// The stated size of the element at an end of a list, or 0 where none is named.
fn trimmed_size(list: &ListColl, trim: Option<Side>) -> u64
    requires { HasEnd trim list.now.values }
    ensures { result ≡ end_size trim list.now.values }
{
    let place = match trim {
        None => return 0,
        Some(Side::Low) => 0,
        Some(Side::High) => list.count() - 1,
    };
    element_size(list.at(place).bytes())
}

// Puts a value into a list at a place, and then trims the element at an end, where one is named.
fn put_into_list(list: &mut ListColl, place: u32, trim: Option<Side>, value: Value)
    requires place { IsPlaceIn place (length list.old.values) trim }
    requires room { 1 ≤ list.old.spare }
    ensures { list.new.values ≡ perhaps_trimmed trim (insert list.old.values place value) }
{
    list.insert_spare(place, value);
    match trim {
        None => {}
        Some(Side::Low) => list.remove(0, 0),
        Some(Side::High) => {
            let last = list.count() - 1;
            list.remove(last, last);
        }
    }
}
