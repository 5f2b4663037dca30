//! The rule for inserts at each index of short lists, and a list as its commands use it.
use crate::ListPlan::{OutOfRange, Overflowed, Store, StoreAndTrim};
use crate::{ListColl, ListPlan};
use arc_core::Side::{High, Low};
use arc_core::{Action, IndexRange, NoMemory, Side, Value};
use std::alloc::Global;
use std::process::Abort;
use std::test::Fail;

// The count, the index, and the place that the index names, if it names one. Then what an insert into a list that is
// full does under `head_trim`, and under `tail_trim`: the place and the end that is trimmed, or a refusal.
type PlanRow = (
    u32,
    i32,
    Option<u32>,
    Option<(u32, Side)>,
    Option<(u32, Side)>,
);

const PLANS: [PlanRow; 40] = [
    (0, -2, None, None, None),
    (0, -1, Some(0), None, None),
    (0, 0, Some(0), None, None),
    (0, 1, None, None, None),
    (1, -3, None, None, None),
    (1, -2, Some(0), None, Some((0, High))),
    (1, -1, Some(1), Some((1, Low)), Some((1, Low))),
    (1, 0, Some(0), Some((0, High)), Some((0, High))),
    (1, 1, Some(1), Some((1, Low)), None),
    (1, 2, None, None, None),
    (2, -4, None, None, None),
    (2, -3, Some(0), None, Some((0, High))),
    (2, -2, Some(1), Some((1, Low)), Some((1, High))),
    (2, -1, Some(2), Some((2, Low)), Some((2, Low))),
    (2, 0, Some(0), Some((0, High)), Some((0, High))),
    (2, 1, Some(1), Some((1, Low)), Some((1, High))),
    (2, 2, Some(2), Some((2, Low)), None),
    (2, 3, None, None, None),
    (3, -5, None, None, None),
    (3, -4, Some(0), None, Some((0, High))),
    (3, -3, Some(1), Some((1, Low)), Some((1, High))),
    (3, -2, Some(2), Some((2, Low)), Some((2, High))),
    (3, -1, Some(3), Some((3, Low)), Some((3, Low))),
    (3, 0, Some(0), Some((0, High)), Some((0, High))),
    (3, 1, Some(1), Some((1, Low)), Some((1, High))),
    (3, 2, Some(2), Some((2, Low)), Some((2, High))),
    (3, 3, Some(3), Some((3, Low)), None),
    (3, 4, None, None, None),
    (4, -6, None, None, None),
    (4, -5, Some(0), None, Some((0, High))),
    (4, -4, Some(1), Some((1, Low)), Some((1, High))),
    (4, -3, Some(2), Some((2, Low)), Some((2, High))),
    (4, -2, Some(3), Some((3, Low)), Some((3, High))),
    (4, -1, Some(4), Some((4, Low)), Some((4, Low))),
    (4, 0, Some(0), Some((0, High)), Some((0, High))),
    (4, 1, Some(1), Some((1, Low)), Some((1, High))),
    (4, 2, Some(2), Some((2, Low)), Some((2, High))),
    (4, 3, Some(3), Some((3, Low)), Some((3, High))),
    (4, 4, Some(4), Some((4, Low)), None),
    (4, 5, None, None, None),
];

#[test]
fn plans_each_insert_into_short_lists(rt: HostRuntime) -> Result<(), Fail> {
    for row in PLANS {
        check_plans(&rt, rt.alloc(), row)?;
    }
    Ok(())
}

// Checks the plans of a list with room and, where there can be one, of a full list.
fn check_plans(rt: &impl Abort, alloc: Global, row: PlanRow) -> Result<(), NoMemory> {
    let (count, index, place, head_trim, tail_trim) = row;
    let list = list_of(alloc, count)?;
    assert!(rt; list.count() == count && count < 5);
    let refused = OutOfRange(index, count);
    let stored = place.map_or(refused, Store);
    assert_eq!(rt; list.plan(index, count + 1, Action::Error), stored);
    assert_eq!(rt; list.plan(index, count + 1, Action::HeadTrim), stored);
    assert_eq!(rt; list.plan(index, count + 1, Action::TailTrim), stored);
    if count > 0 {
        let full = place.map_or(refused, |_| Overflowed);
        let head = head_trim.map_or(refused, |(place, side)| StoreAndTrim(place, side));
        let tail = tail_trim.map_or(refused, |(place, side)| StoreAndTrim(place, side));
        assert_eq!(rt; list.plan(index, count, Action::Error), full);
        assert_eq!(rt; list.plan(index, count, Action::HeadTrim), head);
        assert_eq!(rt; list.plan(index, count, Action::TailTrim), tail);
    }
    Ok(())
}

// A list of so many elements.
fn list_of(alloc: Global, count: u32) -> Result<ListColl, NoMemory> {
    let mut list = ListColl::new(alloc);
    for _ in 0..count {
        list.reserve()?;
        list.insert_spare(0, Value::copy(alloc, b"x")?);
    }
    Ok(list)
}

#[test]
fn keeps_five_elements_and_reads_both_ways(rt: HostRuntime) -> Result<(), Fail> {
    let alloc = rt.alloc();
    let mut list = ListColl::new(alloc);
    for (place, value) in [b"a", b"b", b"c", b"d", b"e"].into_iter().enumerate() {
        assert_eq!(rt;
            insert(&rt, alloc, &mut list, -1, value)?,
            Store(place as u32)
        );
    }
    assert_eq!(rt;
        read(&rt, alloc, &list, -1, -3)?.as_slice(),
        b"edc".as_slice()
    );
    assert_eq!(rt; read(&rt, alloc, &list, 3, 9)?.as_slice(), b"de".as_slice());
    assert_eq!(rt; insert(&rt, alloc, &mut list, 6, b"f")?, OutOfRange(6, 5));
    assert_eq!(rt;
        insert(&rt, alloc, &mut list, 0, b"f")?,
        StoreAndTrim(0, High)
    );
    assert_eq!(rt; insert(&rt, alloc, &mut list, 5, b"g")?, OutOfRange(5, 5));
    assert_eq!(rt;
        read(&rt, alloc, &list, 0, -1)?.as_slice(),
        b"fabcd".as_slice()
    );
    assert_eq!(rt; read(&rt, alloc, &list, 5, 9)?.as_slice(), b"".as_slice());
    assert_eq!(rt; list.size(), 5 * 33);
    assert!(rt; list.count() == 5);
    list.remove(1, 3);
    assert_eq!(rt;
        read(&rt, alloc, &list, 0, -1)?.as_slice(),
        b"fd".as_slice()
    );
    assert_eq!(rt; list.size(), 2 * 33);
    insert(&rt, alloc, &mut list, 1, b"twelve bytes")?;
    assert_eq!(rt; list.size(), 2 * 33 + 44);
    assert!(rt; list.count() == 3);
    list.remove(0, 2);
    assert_eq!(rt; list.size(), 0);
    Ok(())
}

// Inserts a value at an index of a list that holds five elements and trims its tail.
fn insert(
    rt: &impl Abort,
    alloc: Global,
    list: &mut ListColl,
    index: i32,
    value: &[u8],
) -> Result<ListPlan, NoMemory> {
    let value = Value::copy(alloc, value)?;
    list.reserve()?;
    assert!(rt; list.count() <= 5);
    let plan = list.plan(index, 5, Action::TailTrim);
    match plan {
        Store(place) => {
            assert!(rt; place <= list.count());
            list.insert_spare(place, value);
        }
        StoreAndTrim(place, side) => {
            assert!(rt; place <= list.count());
            list.insert_spare(place, value);
            let trimmed = match side {
                Low => 0,
                High => list.count() - 1,
            };
            list.remove(trimmed, trimmed);
        }
        OutOfRange(_, _) | Overflowed => {}
    }
    Ok(plan)
}

// The values that a range of indices names, one after another.
fn read(
    rt: &impl Abort,
    alloc: Global,
    list: &ListColl,
    first: i32,
    last: i32,
) -> Result<Vec<u8>, NoMemory> {
    let mut values = Vec::new(alloc);
    if let Some(part) = list.span(IndexRange {
        first,
        last,
        single: false,
    }) {
        assert!(rt; part.high < list.count());
        for offset in 0..part.high + 1 - part.low {
            let place = if part.down {
                part.high - offset
            } else {
                part.low + offset
            };
            values.extend_from_slice(list.at(place).bytes())?;
        }
    }
    Ok(values)
}
