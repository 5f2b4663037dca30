//! A set as its commands use it, and what its removals leave.
use crate::SetColl;
use arc_core::NoMemory;
use std::alloc::Global;
use std::process::Abort;
use std::test::Fail;

#[test]
fn finds_values_and_takes_the_first(rt: HostRuntime) -> Result<(), Fail> {
    let alloc = rt.alloc();
    let mut set = SetColl::new(alloc);
    add(&rt, alloc, &mut set, b"a")?;
    add(&rt, alloc, &mut set, b"b")?;
    assert_eq!(rt; set.place_of(b"a"), Some(0));
    assert_eq!(rt; set.place_of(b"b"), Some(1));
    assert_eq!(rt; set.place_of(b"c"), None);
    assert_eq!(rt; set.place_of(b""), None);
    assert_eq!(rt; set.count(), 2);
    assert_eq!(rt; set.size(), 2 * 33);
    set.remove_first(1);
    assert_eq!(rt; values(alloc, &set)?.as_slice(), b"b".as_slice());
    assert_eq!(rt; set.place_of(b"a"), None);
    set.remove_first(1);
    assert_eq!(rt; set.count(), 0);
    assert_eq!(rt; set.size(), 0);
    Ok(())
}

#[test]
fn keeps_the_order_of_what_is_left(rt: HostRuntime) -> Result<(), Fail> {
    let alloc = rt.alloc();
    let mut set = SetColl::new(alloc);
    for value in [b"a", b"b", b"c", b"d", b"e"] {
        add(&rt, alloc, &mut set, value)?;
    }
    assert!(rt; 1 < set.count());
    set.remove(1);
    assert_eq!(rt; values(alloc, &set)?.as_slice(), b"acde".as_slice());
    assert_eq!(rt; set.place_of(b"e"), Some(3));
    assert_eq!(rt; set.size(), 4 * 33);
    add(&rt, alloc, &mut set, b"b")?;
    set.remove_first(2);
    assert_eq!(rt; values(alloc, &set)?.as_slice(), b"deb".as_slice());
    add(&rt, alloc, &mut set, b"twelve bytes")?;
    assert_eq!(rt; set.size(), 3 * 33 + 44);
    set.remove_first(9);
    assert_eq!(rt; values(alloc, &set)?.as_slice(), b"".as_slice());
    assert_eq!(rt; set.size(), 0);
    add(&rt, alloc, &mut set, b"f")?;
    set.remove_all();
    assert_eq!(rt; set.size(), 0);
    assert_eq!(rt; set.place_of(b"f"), None);
    assert_eq!(rt; set.count(), 0);
    Ok(())
}

// Puts a value last that is not there.
fn add(rt: &impl Abort, alloc: Global, set: &mut SetColl, value: &[u8]) -> Result<(), NoMemory> {
    let owned = Vec::from_slice(alloc, value)?;
    set.reserve()?;
    assert!(rt; set.place_of(value).is_none());
    set.insert_spare(owned);
    Ok(())
}

// The values, one after another.
fn values(alloc: Global, set: &SetColl) -> Result<Vec<u8>, NoMemory> {
    let mut values = Vec::new(alloc);
    for place in 0..set.count() {
        values.extend_from_slice(set.at(place))?;
    }
    Ok(values)
}
