//! Shelves of parcels, worked by hand: a parcel weighs its size and a byte for each byte of its key behind the first.
ghost use Rattle.std.specs.Prelude.{◌≡◌, ◌+◌, ◌-◌, Some, None, length, min};
ghost use Rattle.arc_core.specs.Places.{found};

use crate::{Room, Shelf, Weighs};
use arc_core::{Key, KeyRef, NoMemory};
use std::alloc::Global;
use std::test::Fail;

#[derive(Debug, PartialEq, Drop)]
struct Parcel {
    size: u32,
}

impl Weighs for Parcel {
    ghost weigh = { λ key parcel. parcel.size + (min (length key) 16000 - 1) };

    fn weight(&self, key: &[u8]) -> u64 {
        u64::from(self.size) + (key.len().min(16_000) as u64).saturating_sub(1)
    }
}

// Puts a new item under the key, by a place that is made on the other side first.
fn put<T: Weighs>(
    shelf: &mut Shelf<T>,
    alloc: Global,
    key: KeyRef<'_>,
    item: T,
    sticky: bool,
) -> Result<Room, NoMemory> {
    let name = key.bytes();
    let key = Key::copy(alloc, key)?;
    shelf.remove(name);
    shelf.reserve_new(key, !sticky)?;
    // (The sticky total is within the share, so that a hollow place may be sticky.)
    let _ = shelf.sticky_total();
    shelf.restick(name, sticky)?;
    Ok(fill(shelf, name, item))
}

// Replaces the item under the key, where there is one.
fn replace<T: Weighs>(shelf: &mut Shelf<T>, name: &[u8], item: T) -> Option<T> {
    let old = shelf.lift(name)?;
    fill(shelf, name, item);
    Some(old)
}

// Lays the item into the hollow place where there is room for it at once, on either side, and else takes the place away.
// Answers what room was.
fn fill<T: Weighs>(shelf: &mut Shelf<T>, name: &[u8], item: T) -> Room
    requires { found name.now shelf.old ≡ Some None }
{
    let Ok(extra) = i64::try_from(item.weight(name)) else {
        return Room::Nothing;
    };
    let room = shelf.room(name, extra, extra);
    match room {
        Room::Fits(0) => shelf.lay(name, item),
        _ => shelf.cancel(name),
    }
    room
}

// Evicts what room asks for, and answers what it was.
fn make_room<T: Weighs>(shelf: &mut Shelf<T>, name: &[u8], extra: i64) -> Room {
    let room = shelf.room(name, extra, 0);
    if let Room::Fits(evictions) = room {
        shelf.evict(name, evictions);
    }
    room
}

fn sizes(shelf: &Shelf<Parcel>) -> [Option<u32>; 3] {
    let size = |key| shelf.look(key).map(|parcel: &Parcel| parcel.size);
    [size(b"a"), size(b"b"), size(b"c")]
}

// What stands on a shelf: keys with their sizes and sides, the least recently used first.
type Standing = &'static [(&'static [u8; 1], u32, bool)];

// What room is under a key for so many bytes more.
type Asked = &'static [(&'static [u8; 1], i64, Room)];

// Shelves of 0 to 4 items with a limit of 100 bytes, every key on them and one that is not, and the bytes around each
// place where the answer changes. A key's own place makes no room for it, and a sticky item makes none for any.
const ROOMS: [(Standing, Asked); 5] = [
    (
        &[],
        &[
            (b"a", -1, Room::Fits(0)),
            (b"a", 0, Room::Fits(0)),
            (b"a", 100, Room::Fits(0)),
            (b"a", 101, Room::Nothing),
        ],
    ),
    // 90 bytes are spare.
    (
        &[(b"a", 10, false)],
        &[
            (b"b", 90, Room::Fits(0)),
            (b"b", 91, Room::Fits(1)),
            (b"b", 100, Room::Fits(1)),
            (b"b", 101, Room::Nothing),
            (b"a", 90, Room::Fits(0)),
            (b"a", 91, Room::Nothing),
        ],
    ),
    // 70 bytes are spare.
    (
        &[(b"a", 10, false), (b"b", 20, false)],
        &[
            (b"c", 70, Room::Fits(0)),
            (b"c", 71, Room::Fits(1)),
            (b"c", 80, Room::Fits(1)),
            (b"c", 81, Room::Fits(2)),
            (b"c", 100, Room::Fits(2)),
            (b"c", 101, Room::Nothing),
            (b"a", 70, Room::Fits(0)),
            (b"a", 71, Room::Fits(1)),
            (b"a", 90, Room::Fits(1)),
            (b"a", 91, Room::Nothing),
            (b"b", 70, Room::Fits(0)),
            (b"b", 71, Room::Fits(1)),
            (b"b", 80, Room::Fits(1)),
            (b"b", 81, Room::Nothing),
        ],
    ),
    // 70 bytes are spare; the newest item has no weight.
    (
        &[(b"a", 10, false), (b"b", 20, false), (b"c", 0, false)],
        &[
            (b"d", 70, Room::Fits(0)),
            (b"d", 71, Room::Fits(1)),
            (b"d", 80, Room::Fits(1)),
            (b"d", 81, Room::Fits(2)),
            (b"d", 100, Room::Fits(2)),
            (b"d", 101, Room::Nothing),
            (b"a", 71, Room::Fits(1)),
            (b"a", 90, Room::Fits(1)),
            (b"a", 91, Room::Nothing),
            (b"b", 71, Room::Fits(1)),
            (b"b", 80, Room::Fits(1)),
            (b"b", 81, Room::Nothing),
            (b"c", 71, Room::Fits(1)),
            (b"c", 81, Room::Fits(2)),
            (b"c", 100, Room::Fits(2)),
            (b"c", 101, Room::Nothing),
        ],
    ),
    // 15 bytes are spare; s is sticky.
    (
        &[
            (b"a", 10, false),
            (b"b", 20, false),
            (b"s", 25, true),
            (b"c", 30, false),
        ],
        &[
            (b"d", 15, Room::Fits(0)),
            (b"d", 16, Room::Fits(1)),
            (b"d", 25, Room::Fits(1)),
            (b"d", 26, Room::Fits(2)),
            (b"d", 45, Room::Fits(2)),
            (b"d", 46, Room::Fits(3)),
            (b"d", 75, Room::Fits(3)),
            (b"d", 76, Room::Nothing),
            (b"a", 15, Room::Fits(0)),
            (b"a", 35, Room::Fits(1)),
            (b"a", 36, Room::Fits(2)),
            (b"a", 65, Room::Fits(2)),
            (b"a", 66, Room::Nothing),
            (b"b", 25, Room::Fits(1)),
            (b"b", 26, Room::Fits(2)),
            (b"b", 55, Room::Fits(2)),
            (b"b", 56, Room::Nothing),
            (b"c", 25, Room::Fits(1)),
            (b"c", 26, Room::Fits(2)),
            (b"c", 45, Room::Fits(2)),
            (b"c", 46, Room::Nothing),
            (b"s", 15, Room::Fits(0)),
            (b"s", 46, Room::Fits(3)),
            (b"s", 75, Room::Fits(3)),
            (b"s", 76, Room::Nothing),
        ],
    ),
];

// What room is under a key for so many bytes more, so many of them among the sticky items. The limit is 100 bytes, of
// which sticky items may take 40; a weighs 10, and s, which is sticky, 25.
const SHARES: [(&[u8; 1], i64, i64, Room); 13] = [
    (b"d", 15, 15, Room::Fits(0)),
    (b"d", 16, 16, Room::Nothing),
    (b"d", 65, 15, Room::Fits(0)),
    (b"d", 75, 15, Room::Fits(1)),
    (b"d", 76, 15, Room::Nothing),
    (b"d", 65, 16, Room::Nothing),
    (b"d", 75, 0, Room::Fits(1)),
    (b"a", 0, 10, Room::Fits(0)),
    (b"a", 5, 15, Room::Fits(0)),
    (b"a", 6, 16, Room::Nothing),
    (b"s", 15, 15, Room::Fits(0)),
    (b"s", -5, 16, Room::Nothing),
    (b"s", 66, -25, Room::Fits(1)),
];

#[test]
fn makes_no_room_in_the_share(rt: HostRuntime) -> Result<(), Fail> {
    let mut shelf = Shelf::new(rt.alloc(), 100, 40)?;
    for (key, size, sticky) in [(b"a", 10, false), (b"s", 25, true)] {
        let key = KeyRef::of(key);
        let room = put(&mut shelf, rt.alloc(), key, Parcel { size }, sticky)?;
        assert_eq!(rt; room, Room::Fits(0));
    }
    assert_eq!(rt; (shelf.total(), shelf.sticky_total()), (35, 25));
    for (key, extra, sticky_extra, room) in SHARES {
        assert_eq!(rt; shelf.room(key, extra, sticky_extra), room, "for {extra}");
    }
    assert_eq!(rt; shelf.remove(b"s"), Some(Parcel { size: 25 }));
    assert_eq!(rt; (shelf.total(), shelf.sticky_total()), (10, 0));
    Ok(())
}

#[test]
fn tells_room_for_every_key(rt: HostRuntime) -> Result<(), Fail> {
    for (standing, asked) in ROOMS {
        let mut shelf = Shelf::new(rt.alloc(), 100, 100)?;
        for (key, size, sticky) in standing {
            let parcel = Parcel { size: *size };
            let room = put(&mut shelf, rt.alloc(), KeyRef::read(*key)?, parcel, *sticky)?;
            assert_eq!(rt; room, Room::Fits(0));
        }
        for (key, extra, room) in asked {
            assert_eq!(rt; shelf.room(*key, *extra, 0), *room, "for {extra}");
        }
    }
    Ok(())
}

#[test]
fn accounts_and_evicts(rt: HostRuntime) -> Result<(), Fail> {
    let mut shelf = Shelf::new(rt.alloc(), 100, 100)?;
    // Weights 10, 20 and 30; c is the most recently used.
    for (key, size) in [(b"a", 10), (b"b", 20), (b"c", 30)] {
        assert_eq!(rt;
            put(
                &mut shelf,
                rt.alloc(),
                KeyRef::of(key),
                Parcel { size },
                false
            )?,
            Room::Fits(0)
        );
    }
    assert_eq!(rt; (shelf.total(), shelf.count()), (60, 3));
    shelf.touch(b"a");

    // 40 bytes are spare. The oldest is b; a key's own place makes no room for it.
    let rooms = [
        (b"d", 40, Room::Fits(0)),
        (b"d", -5, Room::Fits(0)),
        (b"d", 41, Room::Fits(1)),
        (b"d", 61, Room::Fits(2)),
        (b"d", 100, Room::Fits(3)),
        (b"d", 101, Room::Nothing),
        (b"b", 80, Room::Fits(2)),
        (b"b", 81, Room::Nothing),
    ];
    for (key, extra, room) in rooms {
        assert_eq!(rt; shelf.room(key, extra, 0), room, "for {extra}");
    }
    assert_eq!(rt; make_room(&mut shelf, b"b", 41), Room::Fits(1));
    assert_eq!(rt; sizes(&shelf), [Some(10), Some(20), None]);
    assert_eq!(rt; (shelf.total(), shelf.count()), (30, 2));

    // The item under a becomes heavier, and then sticky: it is not evicted any more.
    assert_eq!(rt;
        replace(&mut shelf, b"a", Parcel { size: 40 }),
        Some(Parcel { size: 10 })
    );
    assert_eq!(rt; shelf.total(), 60);
    assert_eq!(rt;
        put(
            &mut shelf,
            rt.alloc(),
            KeyRef::of(b"a"),
            Parcel { size: 40 },
            true
        )?,
        Room::Fits(0)
    );
    assert_eq!(rt;
        (shelf.total(), shelf.room(b"d", 60, 0)),
        (60, Room::Fits(1))
    );
    assert_eq!(rt; shelf.room(b"d", 61, 0), Room::Nothing);
    assert_eq!(rt;
        put(
            &mut shelf,
            rt.alloc(),
            KeyRef::of(b"d"),
            Parcel { size: 41 },
            false
        )?,
        Room::Fits(1)
    );
    assert_eq!(rt; shelf.count(), 2);

    assert_eq!(rt; shelf.remove(b"b"), Some(Parcel { size: 20 }));
    assert_eq!(rt; (shelf.total(), shelf.count()), (40, 1));
    shelf.clear();
    assert_eq!(rt; (shelf.total(), shelf.count()), (0, 0));
    Ok(())
}
