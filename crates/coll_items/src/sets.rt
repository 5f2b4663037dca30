//! What requests want done with a set. (`sop` of the ARCUS protocol.)
ghost use Rattle.std.specs.Prelude.{◌≡◌, ◌≤◌, true, false, length, map, take, IfOk};
ghost use Rattle.arc_core.specs.CollectionRows.{plain_row};
ghost use Rattle.arc_core.specs.CollectionStep.{on_set};
ghost use Rattle.arc_core.specs.SetRows.{set_insert, set_delete, set_exist, set_get};
ghost use Rattle.coll_items.specs.Planning.{IsShort, Plans, SuitsPlan, TakesNoMemory, TakesNothingOut};

use crate::planned::{answered, put_row, taken};
use crate::{Collection, Elements, Insertion, Planned, Removal, Removed};
use arc_core::{NoMemory, Reply, Row, RowName, Seq, Take, Value, Word};
use set_coll::SetColl;
use std::alloc::Global;

/// `sop insert`: puts a value of at most 32,768 bytes last into a set. `ELEMENT_EXISTS` where it is there, `OVERFLOWED`
/// where the set is full. Takes memory for the value.
pub fn insert_into_set<'a>(collection: &Collection, alloc: Global, value: &[u8]) -> Planned<'a>
    requires { length value.now ≤ 32768 }
    ensures plans { Plans false (on_set (set_insert value.now)) collection.now result }
    ensures suits { SuitsPlan collection.now result }
    ensures short { IsShort result }
    ensures puts { TakesNothingOut result }
{
    let attrs = collection.attrs();
    let Elements::Set(set) = collection.elements() else {
        return answered(Word::TypeMismatch);
    };
    if set.place_of(value).is_some() {
        return answered(Word::ElementExists);
    }
    if set.count() == attrs.maxcount {
        return answered(Word::Overflowed);
    }
    let Ok(value) = Vec::from_slice(alloc, value) else {
        return Planned::NoMemory;
    };
    Planned::Puts(Insertion::IntoSet { value }, Reply::Word(Word::Stored))
}

/// `sop delete`: removes a value; `NOT_FOUND_ELEMENT` where it is not there. Takes no memory.
///
/// `drop_empty` says that a set which is left empty goes too, and is answered with `DELETED_DROPPED`.
pub fn delete_from_set<'a>(collection: &Collection, value: &[u8], drop_empty: bool) -> Planned<'a>
    ensures plans { Plans false (on_set (set_delete value.now drop_empty)) collection.now result }
    ensures suits { SuitsPlan collection.now result }
    ensures short { IsShort result }
    ensures memory { TakesNoMemory result }
{
    let Elements::Set(set) = collection.elements() else {
        return answered(Word::TypeMismatch);
    };
    let Some(place) = set.place_of(value) else {
        return answered(Word::NotFoundElement);
    };
    Planned::Removes {
        removal: Removal::FromSet { place },
        drop_empty,
        removed: Removed::Told,
    }
}

/// `sop exist`: `EXIST` where the value is in the set, `NOT_EXIST` where it is not. Takes no memory.
pub fn find_in_set<'a>(collection: &Collection, value: &[u8]) -> Planned<'a>
    ensures plans { Plans true (on_set (set_exist value.now)) collection.now result }
    ensures suits { SuitsPlan collection.now result }
    ensures short { IsShort result }
    ensures memory { TakesNoMemory result }
{
    let attrs = collection.attrs();
    let Elements::Set(set) = collection.elements() else {
        return answered(Word::TypeMismatch);
    };
    if !attrs.readable {
        return answered(Word::Unreadable);
    }
    if set.place_of(value).is_some() {
        answered(Word::Exist)
    } else {
        answered(Word::NotExist)
    }
}

/// `sop get`: reads so many of the first values, all for 0, and takes them out where `take` says so; `NOT_FOUND_ELEMENT`
/// where the set is empty. Takes memory for the answer.
pub fn read_set<'a>(collection: &Collection, alloc: Global, count: u32, take: Take) -> Planned<'a>
    ensures plans { Plans true (on_set (set_get count take)) collection.now result }
    ensures suits { SuitsPlan collection.now result }
    ensures short { IsShort result }
{
    let attrs = collection.attrs();
    let Elements::Set(set) = collection.elements() else {
        return answered(Word::TypeMismatch);
    };
    if !attrs.readable {
        return answered(Word::Unreadable);
    }
    let held = set.count();
    if held == 0 {
        return answered(Word::NotFoundElement);
    }
    let number = if count == 0 { held } else { count };
    let Ok(rows) = rows_of(alloc, set, number) else {
        return Planned::NoMemory;
    };
    taken(attrs.flags, rows, take, Removal::FirstOfSet { number })
}

// So many of the first values as rows, or all where there are fewer.
fn rows_of(alloc: Global, set: &SetColl, number: u32) -> Result<Seq<Row>, NoMemory>
    ensures { IfOk result (λ rows. rows ≡ map plain_row (take number set.now.values)) }
{
    let number = set.count().min(number);
    let mut rows = Seq::with_capacity(alloc, number as usize)?;
    for place in 0..number {
        let value = Value::copy(alloc, set.at(place))?;
        put_row(&mut rows, RowName::Plain, value)?;
    }
    Ok(rows)
}
