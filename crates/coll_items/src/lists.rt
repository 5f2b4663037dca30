//! What requests want done with a list. (`lop` of the ARCUS protocol.)
ghost use Rattle.std.specs.Prelude.{◌≡◌, ◌≤◌, ◌<◌, ◌-◌, true, false, [], length, map, get_or, IfOk};
ghost use Rattle.arc_core.specs.CollectionRows.{plain_row};
ghost use Rattle.arc_core.specs.CollectionStep.{on_list};
ghost use Rattle.arc_core.specs.ListRows.{list_insert, list_delete, list_get, values_of};
ghost use Rattle.coll_items.specs.Planning.{IsShort, Plans, SuitsPlan, TakesNoMemory, TakesNothingOut};

use crate::planned::{answered, put_row, taken};
use crate::{Collection, Elements, Insertion, Planned, Removal, Removed};
use arc_core::{IndexRange, ListPlan, NoMemory, Part, Reply, Row, RowName, Seq, Take, Value, Word};
use list_coll::ListColl;
use std::alloc::Global;

/// `lop insert`: puts a value of at most 32,768 bytes into a list, at an index.
///
/// An index at or above 0 is that place, up to the count; index -k is the place k - 1 before the end, so that -1 puts
/// last. `OUT_OF_RANGE` is answered for any other index. A full list answers `OVERFLOWED` where its action is `error`. Else
/// index 0 trims the tail, index -1 the head, and any other index the end that the action names, with `OUT_OF_RANGE`
/// where the trimmed element would be the new one. Takes memory for the value.
pub fn insert_into_list<'a>(
    collection: &Collection,
    alloc: Global,
    index: i32,
    value: &[u8],
) -> Planned<'a>
    requires { length value.now ≤ 32768 }
    ensures plans { Plans false (on_list (list_insert index value.now)) collection.now result }
    ensures suits { SuitsPlan collection.now result }
    ensures short { IsShort result }
    ensures puts { TakesNothingOut result }
{
    let attrs = collection.attrs();
    let Elements::List(list) = collection.elements() else {
        return answered(Word::TypeMismatch);
    };
    let (place, trim) = match list.plan(index, attrs.maxcount, attrs.action) {
        ListPlan::Store(place) => (place, None),
        ListPlan::StoreAndTrim(place, side) => (place, Some(side)),
        ListPlan::OutOfRange(_, _) => return answered(Word::OutOfRange),
        ListPlan::Overflowed => return answered(Word::Overflowed),
    };
    let Ok(value) = Value::copy(alloc, value) else {
        return Planned::NoMemory;
    };
    Planned::Puts(
        Insertion::IntoList { place, trim, value },
        Reply::Word(Word::Stored),
    )
}

/// `lop delete`: removes the elements of a range; `NOT_FOUND_ELEMENT` where it has none. Takes no memory.
///
/// `drop_empty` says that a list which is left empty goes too, and is answered with `DELETED_DROPPED`.
pub fn delete_from_list<'a>(
    collection: &Collection,
    range: IndexRange,
    drop_empty: bool,
) -> Planned<'a>
    ensures plans { Plans false (on_list (list_delete range drop_empty)) collection.now result }
    ensures suits { SuitsPlan collection.now result }
    ensures short { IsShort result }
    ensures memory { TakesNoMemory result }
{
    let Elements::List(list) = collection.elements() else {
        return answered(Word::TypeMismatch);
    };
    let Some(part) = list.span(range) else {
        return answered(Word::NotFoundElement);
    };
    Planned::Removes {
        removal: removal_of(part),
        drop_empty,
        removed: Removed::Told,
    }
}

/// `lop get`: reads the elements of a range in its direction, and takes them out where `take` says so;
/// `NOT_FOUND_ELEMENT` where it has none. Takes memory for the answer.
pub fn read_list<'a>(
    collection: &Collection,
    alloc: Global,
    range: IndexRange,
    take: Take,
) -> Planned<'a>
    ensures plans { Plans true (on_list (list_get range take)) collection.now result }
    ensures suits { SuitsPlan collection.now result }
    ensures short { IsShort result }
{
    let attrs = collection.attrs();
    let Elements::List(list) = collection.elements() else {
        return answered(Word::TypeMismatch);
    };
    if !attrs.readable {
        return answered(Word::Unreadable);
    }
    let Some(part) = list.span(range) else {
        return answered(Word::NotFoundElement);
    };
    let Ok(rows) = rows_of(alloc, list, part) else {
        return Planned::NoMemory;
    };
    taken(attrs.flags, rows, take, removal_of(part))
}

// The removal of a part.
fn removal_of<'a>(part: Part) -> Removal<'a>
    ensures { result ≡ Removal.FromList part.low part.high }
{
    Removal::FromList {
        low: part.low,
        high: part.high,
    }
}

// The elements of a part as rows, in its direction.
fn rows_of(alloc: Global, list: &ListColl, part: Part) -> Result<Seq<Row>, NoMemory>
    requires order { part.low ≤ part.high }
    requires within { part.high < length list.now.values }
    ensures { IfOk result (λ rows. rows ≡ map plain_row (values_of part list.now.values)) }
{
    let number = list.count().min(part.high + 1) - part.low;
    let mut rows = Seq::with_capacity(alloc, number as usize)?;
    for offset in 0..number {
        let value = value_at(list, part, offset).share()?;
        put_row(&mut rows, RowName::Plain, value)?;
    }
    Ok(rows)
}

// The element of a part that comes behind so many others, in its direction.
fn value_at<'a>(list: &'a ListColl, part: Part, offset: u32) -> &'a Value
    requires order { part.low ≤ part.high }
    requires within { part.high < length list.now.values }
    requires offset { offset ≤ part.high - part.low }
    ensures { get_or (values_of part list.now.values) offset [] ≡ result.now }
{
    if part.down {
        list.at(part.high - offset)
    } else {
        list.at(part.low + offset)
    }
}
