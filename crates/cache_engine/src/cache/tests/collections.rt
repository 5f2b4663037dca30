//! Sessions with collections, worked by hand: how many items are held after each request, and what they take.
ghost use Rattle.std.specs.Prelude.{◌≡◌};

use super::Asked::{Delete, Fill, Store, Touch};
use super::Expected::Says;
use super::{Asked, execute, is_expected, opened, shared};
use crate::cache::Cache;
use Does::{AddToSet, Erase, MakeList, MakeMap, MakeSet, Plain, Pull, Push, TakeFromSet, Upsert};
use Word::{
    Created, Deleted, DeletedDropped, ElementExists, NotFound, OutOfMemory, OutOfRange, Replaced,
    Stored, Touched, TypeMismatch,
};
use arc_core::{
    Act, Action, CreateArgs, IndexRange, KeyRef, KeyWords, Kind, Reply, StoreVerb, Word,
};
use std::process::Abort;
use std::test::Fail;

// What is asked of the cache.
#[derive(Clone, Copy, Debug)]
enum Does {
    // A request that knows no collections.
    Plain(Asked),
    // An empty collection is made under a key, with an exptime and a maxcount. A full list trims its tail.
    MakeList(&'static [u8], i64, u32),
    MakeSet(&'static [u8], i64, u32),
    MakeMap(&'static [u8], i64, u32),
    // At an index of a list so many equal bytes are put in.
    Push(&'static [u8], i32, usize),
    // From one index of a list to another all is taken out, with `drop` or without.
    Pull(&'static [u8], i32, i32, bool),
    AddToSet(&'static [u8], &'static [u8]),
    TakeFromSet(&'static [u8], &'static [u8], bool),
    // Under a field of a map so many equal bytes are put.
    Upsert(&'static [u8], &'static [u8], usize),
    Erase(&'static [u8], &'static [u8], bool),
}

// What is asked, the word that is answered, and then the number of items, their bytes and those of the sticky ones.
type Session = &'static [(Does, Word, (u64, u64, u64))];

fn args_of(exptime: i64, maxcount: u32, action: Action) -> CreateArgs
    ensures { result.action ≡ action }
{
    CreateArgs {
        flags: 0,
        exptime,
        maxcount,
        action,
        readable: true,
    }
}

fn push(cache: &mut Cache, key: &[u8], index: i32, value: &[u8]) -> Option<Reply> {
    let key = KeyRef::read(key).ok()?;
    if value.len() > 32_768 {
        return None;
    }
    let act = Act::ListInsert {
        key: KeyRef::of(key.bytes()),
        index,
        value,
        create: None,
    };
    Some(cache.ask(0, &key, &act))
}

fn pull(cache: &mut Cache, key: &[u8], first: i32, last: i32, drop_empty: bool) -> Option<Reply> {
    let key = KeyRef::read(key).ok()?;
    let range = IndexRange {
        first,
        last,
        single: false,
    };
    let act = Act::ListDelete {
        key: KeyRef::of(key.bytes()),
        range,
        drop_empty,
    };
    Some(cache.ask(0, &key, &act))
}

fn add_to_set(cache: &mut Cache, key: &[u8], value: &[u8]) -> Option<Reply> {
    let key = KeyRef::read(key).ok()?;
    if value.len() > 32_768 {
        return None;
    }
    let act = Act::SetInsert {
        key: KeyRef::of(key.bytes()),
        value,
        create: None,
    };
    Some(cache.ask(0, &key, &act))
}

fn take_from_set(cache: &mut Cache, key: &[u8], value: &[u8], drop_empty: bool) -> Option<Reply> {
    let key = KeyRef::read(key).ok()?;
    let act = Act::SetDelete {
        key: KeyRef::of(key.bytes()),
        value,
        drop_empty,
    };
    Some(cache.ask(0, &key, &act))
}

fn upsert(cache: &mut Cache, key: &[u8], field: &[u8], value: &[u8]) -> Option<Reply> {
    let key = KeyRef::read(key).ok()?;
    let field = KeyRef::read(field).ok()?;
    if field.bytes().len() > 250 || value.len() > 32_768 {
        return None;
    }
    let act = Act::MapUpsert {
        key: KeyRef::of(key.bytes()),
        field,
        value,
        create: None,
    };
    Some(cache.ask(0, &key, &act))
}

fn erase(cache: &mut Cache, key: &[u8], field: &[u8], drop_empty: bool) -> Option<Reply> {
    let key = KeyRef::read(key).ok()?;
    let fields = KeyWords::fields(field, 1)?;
    let act = Act::MapDelete {
        key: KeyRef::of(key.bytes()),
        fields,
        drop_empty,
    };
    Some(cache.ask(0, &key, &act))
}

// The reply, where the request can be made.
fn change(cache: &mut Cache, filler: &[u8], does: Does) -> Option<Reply> {
    match does {
        Plain(asked) => execute(cache, filler, 0, asked),
        MakeList(key, exptime, maxcount) => {
            let args = args_of(exptime, maxcount, Action::TailTrim);
            Some(cache.make(0, Kind::List, &KeyRef::read(key).ok()?, args))
        }
        MakeSet(key, exptime, maxcount) => {
            let args = args_of(exptime, maxcount, Action::Error);
            Some(cache.make(0, Kind::Set, &KeyRef::read(key).ok()?, args))
        }
        MakeMap(key, exptime, maxcount) => {
            let args = args_of(exptime, maxcount, Action::Error);
            Some(cache.make(0, Kind::Map, &KeyRef::read(key).ok()?, args))
        }
        Push(key, index, len) => push(cache, key, index, filler.get(..len)?),
        Pull(key, first, last, drop_empty) => pull(cache, key, first, last, drop_empty),
        AddToSet(key, value) => add_to_set(cache, key, value),
        TakeFromSet(key, value, drop_empty) => take_from_set(cache, key, value, drop_empty),
        Upsert(key, field, len) => upsert(cache, key, field, filler.get(..len)?),
        Erase(key, field, drop_empty) => erase(cache, key, field, drop_empty),
    }
}

// Works a session on this cache.
fn follow(rt: &impl Abort, cache: &mut Cache, filler: &[u8], session: Session) {
    for (place, (does, word, held)) in session.iter().enumerate() {
        let reply = change(cache, filler, *does);
        assert!(rt; is_expected(reply, Says(*word)), "request {place}");
        let holds = (cache.items(), cache.accounted(), cache.sticky());
        assert_eq!(rt; holds, *held, "request {place}");
    }
}

// A collection takes 128 bytes and its key, an element 32 and its own, a pair 32, its field and its value.
const SIZES: Session = &[
    (MakeList(b"l", 0, 2), Created, (1, 129, 0)),
    (Push(b"l", 0, 10), Stored, (1, 171, 0)),
    (Push(b"l", -1, 20), Stored, (1, 223, 0)),
    // The list is full: of 100, 10 and 20 the last goes, then of 100, 5 and 10.
    (Push(b"l", 0, 100), Stored, (1, 303, 0)),
    (Push(b"l", 1, 5), Stored, (1, 298, 0)),
    (Push(b"l", 2, 7), OutOfRange, (1, 298, 0)),
    (MakeSet(b"s", 0, 0), Created, (2, 427, 0)),
    (AddToSet(b"s", b"abc"), Stored, (2, 462, 0)),
    (AddToSet(b"s", b"abc"), ElementExists, (2, 462, 0)),
    (MakeMap(b"m", 0, 0), Created, (3, 591, 0)),
    (Upsert(b"m", b"ff", 8), Stored, (3, 633, 0)),
    (Upsert(b"m", b"ff", 3), Replaced, (3, 628, 0)),
];

// What is emptied stays, but with `drop`.
const REMOVALS: Session = &[
    (Pull(b"l", 0, 0, false), Deleted, (3, 496, 0)),
    (Pull(b"l", 0, -1, false), Deleted, (3, 459, 0)),
    (Push(b"l", 0, 0), Stored, (3, 491, 0)),
    (Pull(b"l", 0, 0, true), DeletedDropped, (2, 330, 0)),
    (TakeFromSet(b"s", b"abc", true), DeletedDropped, (1, 166, 0)),
    (Erase(b"m", b"ff", false), Deleted, (1, 129, 0)),
    // A value comes where the map was, and a map where the value was.
    (
        Plain(Store(StoreVerb::Set, b"m", 0, 0, b"xyz")),
        TypeMismatch,
        (1, 129, 0),
    ),
    (Plain(Delete(b"m")), Deleted, (0, 0, 0)),
    (
        Plain(Store(StoreVerb::Set, b"m", 0, 0, b"xyz")),
        Stored,
        (1, 68, 0),
    ),
    (Upsert(b"m", b"f", 1), TypeMismatch, (1, 68, 0)),
    (Plain(Delete(b"m")), Deleted, (0, 0, 0)),
    (MakeMap(b"m", 0, 0), Created, (1, 129, 0)),
];

// Of 1,048,576 bytes 36 are left beside a, b and two elements of 32,800. The list is never evicted for itself.
const GROWTH: Session = &[
    (
        Plain(Fill(StoreVerb::Set, b"a", 0, 500_000)),
        Stored,
        (1, 500_065, 0),
    ),
    (
        Plain(Fill(StoreVerb::Set, b"b", 0, 482_681)),
        Stored,
        (2, 982_811, 0),
    ),
    (MakeList(b"l", 0, 0), Created, (3, 982_940, 0)),
    (Push(b"l", 0, 32_768), Stored, (3, 1_015_740, 0)),
    (Push(b"l", 0, 32_768), Stored, (3, 1_048_540, 0)),
    (Push(b"l", 0, 4), Stored, (3, 1_048_576, 0)),
    (Plain(Touch(b"a", 0)), Touched, (3, 1_048_576, 0)),
    // b goes.
    (Push(b"l", 0, 0), Stored, (2, 565_862, 0)),
    (
        Plain(Fill(StoreVerb::Set, b"c", 0, 450_000)),
        Stored,
        (3, 1_015_927, 0),
    ),
    // a goes.
    (Push(b"l", -1, 32_768), Stored, (2, 548_662, 0)),
    (Plain(Touch(b"c", 0)), Touched, (2, 548_662, 0)),
    // The list goes, of 98,597 bytes.
    (
        Plain(Fill(StoreVerb::Set, b"d", 0, 500_000)),
        Stored,
        (2, 950_130, 0),
    ),
    (Push(b"l", 0, 0), NotFound, (2, 950_130, 0)),
];

// One of a hundred parts is for sticky items: 10,485 bytes. What has no room leaves all as it was.
const SHARE: Session = &[
    (MakeList(b"l", -1, 0), Created, (1, 129, 129)),
    (Push(b"l", 0, 10_000), Stored, (1, 10_161, 10_161)),
    (Push(b"l", 0, 293), OutOfMemory, (1, 10_161, 10_161)),
    (Push(b"l", 0, 292), Stored, (1, 10_485, 10_485)),
    (MakeSet(b"s", -1, 0), OutOfMemory, (1, 10_485, 10_485)),
    (MakeSet(b"s", 0, 0), Created, (2, 10_614, 10_485)),
    (AddToSet(b"s", b"abc"), Stored, (2, 10_649, 10_485)),
    (Plain(Touch(b"s", -1)), OutOfMemory, (2, 10_649, 10_485)),
    (Pull(b"l", 0, 0, false), Deleted, (2, 10_325, 10_161)),
    (Plain(Touch(b"s", -1)), Touched, (2, 10_325, 10_325)),
    (Plain(Touch(b"l", 0)), Touched, (2, 10_325, 164)),
    (AddToSet(b"s", b"d"), Stored, (2, 10_358, 197)),
];

#[test]
fn accounts_collections(rt: HostRuntime) -> Result<(), Fail> {
    let filler = vec![in rt.alloc(); b'v'; 500_000]?;
    let mut cache = opened(rt.alloc(), 1)?;
    follow(&rt, &mut cache, &filler, SIZES);
    follow(&rt, &mut cache, &filler, REMOVALS);

    let mut cache = opened(rt.alloc(), 1)?;
    follow(&rt, &mut cache, &filler, GROWTH);

    let mut cache = shared(rt.alloc(), 1, 1)?;
    follow(&rt, &mut cache, &filler, SHARE);
    Ok(())
}
