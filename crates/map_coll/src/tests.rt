//! A map as its commands use it, and what its removals leave.
use crate::MapColl;
use arc_core::{Key, KeyRef, KeyWords, NoMemory, Value};
use std::alloc::Global;
use std::process::Abort;
use std::test::Fail;

#[test]
fn replaces_a_value_in_its_place(rt: HostRuntime) -> Result<(), Fail> {
    let alloc = rt.alloc();
    let mut map = MapColl::new(alloc);
    add(&rt, alloc, &mut map, b"f1", b"a")?;
    add(&rt, alloc, &mut map, b"f2", b"b")?;
    assert_eq!(rt; map.place_of(b"f1"), Some(0));
    assert_eq!(rt; map.size(), 2 * (32 + 2 + 1));
    assert!(rt; 0 < map.count());
    let old = map.replace(0, Value::copy(alloc, b"cc")?);
    assert_eq!(rt; map.size(), (32 + 2 + 2) + (32 + 2 + 1));
    assert_eq!(rt; old.bytes(), b"a".as_slice());
    assert_eq!(rt; map.place_of(b"f2"), Some(1));
    assert_eq!(rt; map.place_of(b"f1"), Some(0));
    assert_eq!(rt; map.place_of(b"f"), None);
    assert_eq!(rt; text(alloc, &map)?.as_slice(), b"f1=cc f2=b ".as_slice());
    Ok(())
}

#[test]
fn keeps_the_order_of_what_is_left(rt: HostRuntime) -> Result<(), Fail> {
    let alloc = rt.alloc();
    let mut map = MapColl::new(alloc);
    for field in [b"a", b"b", b"c", b"d", b"e"] {
        add(&rt, alloc, &mut map, field, b"1")?;
    }
    assert!(rt; 1 < map.count());
    map.remove(1);
    assert_eq!(rt; map.size(), 4 * 34);
    assert_eq!(rt;
        text(alloc, &map)?.as_slice(),
        b"a=1 c=1 d=1 e=1 ".as_slice()
    );
    add(&rt, alloc, &mut map, b"b", b"2")?;
    map.remove_first(2);
    assert_eq!(rt; text(alloc, &map)?.as_slice(), b"d=1 e=1 b=2 ".as_slice());
    assert_eq!(rt; map.size(), 3 * 34);
    map.remove_first(9);
    assert_eq!(rt; map.count(), 0);
    assert_eq!(rt; map.size(), 0);
    add(&rt, alloc, &mut map, b"f", b"3")?;
    map.remove_all();
    assert_eq!(rt; map.size(), 0);
    assert_eq!(rt; map.place_of(b"f"), None);
    Ok(())
}

#[test]
fn removes_named_fields_at_once(rt: HostRuntime) -> Result<(), Fail> {
    let alloc = rt.alloc();
    let mut map = MapColl::new(alloc);
    for field in [b"a", b"b", b"c", b"d", b"e"] {
        add(&rt, alloc, &mut map, field, b"1")?;
    }
    let fields = KeyWords::read(b"d x a d", 4).ok_or("words")?;
    map.remove_fields(&fields);
    assert_eq!(rt; text(alloc, &map)?.as_slice(), b"b=1 c=1 e=1 ".as_slice());
    assert_eq!(rt; map.size(), 3 * 34);
    assert_eq!(rt; map.place_of(b"e"), Some(2));
    assert_eq!(rt; map.place_of(b"d"), None);
    add(&rt, alloc, &mut map, b"d", b"2")?;
    assert_eq!(rt;
        text(alloc, &map)?.as_slice(),
        b"b=1 c=1 e=1 d=2 ".as_slice()
    );
    Ok(())
}

#[test]
fn removes_the_only_named_field(rt: HostRuntime) -> Result<(), Fail> {
    let alloc = rt.alloc();
    let mut map = MapColl::new(alloc);
    for field in [b"a", b"b", b"c", b"d"] {
        add(&rt, alloc, &mut map, field, b"1")?;
    }
    for (name, pairs, size) in REMOVALS {
        let fields = KeyWords::read(name, 1).ok_or("words")?;
        map.remove_fields(&fields);
        assert_eq!(rt; text(alloc, &map)?.as_slice(), pairs);
        assert_eq!(rt; map.size(), size);
    }
    Ok(())
}

// The only named field of each removal, and the pairs that are left of those of `a` to `d`, with their size.
const REMOVALS: [(&[u8], &[u8], u64); 4] = [
    (b"x", b"a=1 b=1 c=1 d=1 ", 4 * 34),
    (b"b", b"a=1 c=1 d=1 ", 3 * 34),
    (b"b", b"a=1 c=1 d=1 ", 3 * 34),
    (b"d", b"a=1 c=1 ", 2 * 34),
];

#[test]
fn chooses_named_fields_in_the_order_of_naming(rt: HostRuntime) -> Result<(), Fail> {
    let alloc = rt.alloc();
    let mut map = MapColl::new(alloc);
    for field in [b"a", b"b", b"c"] {
        add(&rt, alloc, &mut map, field, b"1")?;
    }
    for (names, count, places) in CHOICES {
        let fields = KeyWords::read(names, count).ok_or("words")?;
        assert_eq!(rt; map.chosen(alloc, &fields)?.as_slice(), places);
    }
    Ok(())
}

// The named fields, how many they are, and which of the places of `a`, `b` and `c` are chosen.
const CHOICES: [(&[u8], u32, &[u32]); 6] = [
    (b"b", 1, &[1]),
    (b"x", 1, &[]),
    (b"c a", 2, &[2, 0]),
    (b"c x a c b a", 6, &[2, 0, 1]),
    (b"x y", 2, &[]),
    (b"b b", 2, &[1]),
];

// Puts a pair last whose field is not there.
fn add(
    rt: &impl Abort,
    alloc: Global,
    map: &mut MapColl,
    field: &[u8],
    value: &[u8],
) -> Result<(), NoMemory> {
    let Ok(field) = KeyRef::read(field) else {
        return Ok(());
    };
    let key = Key::copy(alloc, field)?;
    let value = Value::copy(alloc, value)?;
    map.reserve()?;
    assert!(rt; map.place_of(key.bytes()).is_none());
    map.insert_spare(key, value);
    Ok(())
}

// The pairs, one after another.
fn text(alloc: Global, map: &MapColl) -> Result<Vec<u8>, NoMemory> {
    let mut text = Vec::new(alloc);
    for place in 0..map.count() {
        let (field, value) = map.at(place);
        text.extend_from_slice(field.bytes())?;
        text.extend_from_slice(b"=")?;
        text.extend_from_slice(value.bytes())?;
        text.extend_from_slice(b" ")?;
    }
    Ok(text)
}
