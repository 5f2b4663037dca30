//! Attributes of items of each kind, worked by hand.
ghost use Rattle.std.specs.Prelude.{◌≡◌, IsTrue, not};
ghost use Rattle.arc_core.specs.Item.{has_expired};
ghost use Rattle.item_attrs.specs.Attributes.{AreEnds};

use crate::{AttrFault, AttrUnknown, attr_names, read_attr, set_attr};
use arc_core::{
    Action, AttrName, AttrNumber, AttrValue, AttrView, Attrs, Bkey, Expiry, Kind, ShortBytes,
};
use std::process::Abort;

// The items of these tests, all of them at second 100.
#[derive(Clone, Copy, Debug)]
enum Held {
    // A key-value item that never expires.
    Value,
    // A sticky list of 10 elements.
    List,
    // A set of no element that expires at second 101.
    Set,
    // A readable map of 4,000 elements that expires at second 130.
    Map,
    // A tree of 2 elements, 10 and 16, of which others were trimmed.
    Tree,
    // A tree without elements.
    EmptyTree,
    // A tree of 2 elements, the least and the greatest number of 64 bits.
    WideTree,
    // A tree of one element, whose bkey is a byte string.
    BytesTree,
    // A tree without elements that takes byte strings.
    EmptyBytesTree,
}

const LIST_ATTRS: Attrs = Attrs {
    flags: 7,
    expiry: Expiry::Sticky,
    maxcount: 50,
    action: Action::TailTrim,
    readable: false,
    maxbkeyrange: 0,
};

const TREE_ATTRS: Attrs = Attrs {
    flags: u32::MAX,
    expiry: Expiry::At(4_294_967_295),
    maxcount: 1_000_000,
    action: Action::SmallestSilentTrim,
    readable: true,
    maxbkeyrange: u64::MAX,
};

fn list() -> AttrView {
    AttrView {
        kind: Kind::List,
        attrs: LIST_ATTRS,
        latest: 100,
        count: 10,
        least: None,
        greatest: None,
        trimmed: false,
        bytes: false,
    }
}

fn tree(count: u32, least: Option<Bkey>, greatest: Option<Bkey>) -> AttrView {
    AttrView {
        kind: Kind::Tree,
        attrs: TREE_ATTRS,
        count,
        least,
        greatest,
        ..list()
    }
}

fn other(kind: Kind, count: u32, expiry: Expiry) -> AttrView {
    let attrs = Attrs {
        expiry,
        action: Action::Error,
        readable: kind == Kind::Map,
        ..LIST_ATTRS
    };
    AttrView {
        kind,
        attrs,
        count,
        ..list()
    }
}

fn bytes() -> Bkey {
    Bkey::Bytes(ShortBytes::of(&[0xab, 0xcd]))
}

fn view(held: Held) -> AttrView {
    match held {
        Held::Value => other(Kind::Kv, 0, Expiry::Never),
        Held::List => list(),
        Held::Set => other(Kind::Set, 0, Expiry::At(101)),
        Held::Map => other(Kind::Map, 4_000, Expiry::At(130)),
        Held::Tree => AttrView {
            trimmed: true,
            ..tree(2, Some(Bkey::Number(10)), Some(Bkey::Number(16)))
        },
        Held::EmptyTree => tree(0, None, None),
        Held::WideTree => tree(2, Some(Bkey::Number(0)), Some(Bkey::Number(u64::MAX))),
        Held::BytesTree => AttrView {
            bytes: true,
            ..tree(1, Some(bytes()), Some(bytes()))
        },
        Held::EmptyBytesTree => AttrView {
            bytes: true,
            ..tree(0, None, None)
        },
    }
}

// Whether the item has not expired.
fn is_held(view: &AttrView) -> bool
    ensures { result ≡ not (has_expired view.now.latest view.now.attrs.expiry) }
{
    match view.attrs.expiry {
        Expiry::Never | Expiry::Sticky => true,
        Expiry::At(second) => second > view.latest,
    }
}

// Whether the least and the greatest bkey are as a tree has them.
fn has_ends(view: &AttrView) -> bool
    ensures { IsTrue result → AreEnds view.now.bytes view.now.least view.now.greatest }
{
    match (view.least, view.greatest) {
        (None, None) => true,
        (Some(Bkey::Number(least)), Some(Bkey::Number(greatest))) => {
            !view.bytes && least <= greatest
        }
        (Some(_), Some(_)) => view.bytes,
        _ => false,
    }
}

fn read(rt: &impl Abort, name: &[u8], held: Held) -> Result<AttrValue, AttrUnknown> {
    let view = view(held);
    assert!(rt; view.latest < 1 << 32);
    assert!(rt; is_held(&view));
    read_attr(name, &view)
}

fn set(rt: &impl Abort, name: &[u8], value: &[u8], held: Held) -> Result<Attrs, AttrFault> {
    let view = view(held);
    assert!(rt; view.latest < 1 << 32);
    assert!(rt; has_ends(&view));
    set_attr(name, value, &view)
}

const NAMES: [(&[u8], AttrName); 11] = [
    (b"flags", AttrName::Flags),
    (b"expiretime", AttrName::ExpireTime),
    (b"type", AttrName::KindName),
    (b"count", AttrName::Count),
    (b"maxcount", AttrName::MaxCount),
    (b"overflowaction", AttrName::OverflowAction),
    (b"readable", AttrName::Readable),
    (b"maxbkeyrange", AttrName::MaxBkeyRange),
    (b"minbkey", AttrName::MinBkey),
    (b"maxbkey", AttrName::MaxBkey),
    (b"trimmed", AttrName::Trimmed),
];

// A value as these tables write it.
#[derive(Clone, Copy)]
enum Told {
    Plain(u64),
    Sticky,
    Kind(Kind),
    Action(Action),
    OnOff(bool),
    Bkey(u64),
    NoBkey,
}

fn value(told: Told) -> AttrNumber {
    match told {
        Told::Plain(number) => AttrNumber::Plain(number),
        Told::Sticky => AttrNumber::Sticky,
        Told::Kind(kind) => AttrNumber::Kind(kind),
        Told::Action(action) => AttrNumber::Action(action),
        Told::OnOff(on) => AttrNumber::OnOff(on),
        Told::Bkey(number) => AttrNumber::Bkey(Some(Bkey::Number(number))),
        Told::NoBkey => AttrNumber::Bkey(None),
    }
}

// The values of these names in their order, as far as the item has them.
const VALUES: [(Held, &[Told]); 7] = [
    (
        Held::Value,
        &[Told::Plain(7), Told::Plain(0), Told::Kind(Kind::Kv)],
    ),
    (
        Held::List,
        &[
            Told::Plain(7),
            Told::Sticky,
            Told::Kind(Kind::List),
            Told::Plain(10),
            Told::Plain(50),
            Told::Action(Action::TailTrim),
            Told::OnOff(false),
        ],
    ),
    (
        Held::Set,
        &[
            Told::Plain(7),
            Told::Plain(1),
            Told::Kind(Kind::Set),
            Told::Plain(0),
            Told::Plain(50),
            Told::Action(Action::Error),
            Told::OnOff(false),
        ],
    ),
    (
        Held::Map,
        &[
            Told::Plain(7),
            Told::Plain(30),
            Told::Kind(Kind::Map),
            Told::Plain(4_000),
            Told::Plain(50),
            Told::Action(Action::Error),
            Told::OnOff(true),
        ],
    ),
    (
        Held::Tree,
        &[
            Told::Plain(4_294_967_295),
            Told::Plain(4_294_967_195),
            Told::Kind(Kind::Tree),
            Told::Plain(2),
            Told::Plain(1_000_000),
            Told::Action(Action::SmallestSilentTrim),
            Told::OnOff(true),
            Told::Plain(18_446_744_073_709_551_615),
            Told::Bkey(10),
            Told::Bkey(16),
            Told::Plain(1),
        ],
    ),
    (
        Held::EmptyTree,
        &[
            Told::Plain(4_294_967_295),
            Told::Plain(4_294_967_195),
            Told::Kind(Kind::Tree),
            Told::Plain(0),
            Told::Plain(1_000_000),
            Told::Action(Action::SmallestSilentTrim),
            Told::OnOff(true),
            Told::Plain(18_446_744_073_709_551_615),
            Told::NoBkey,
            Told::NoBkey,
            Told::Plain(0),
        ],
    ),
    (
        Held::WideTree,
        &[
            Told::Plain(4_294_967_295),
            Told::Plain(4_294_967_195),
            Told::Kind(Kind::Tree),
            Told::Plain(2),
            Told::Plain(1_000_000),
            Told::Action(Action::SmallestSilentTrim),
            Told::OnOff(true),
            Told::Plain(18_446_744_073_709_551_615),
            Told::Bkey(0),
            Told::Bkey(18_446_744_073_709_551_615),
            Told::Plain(0),
        ],
    ),
];

#[test]
fn reads_what_each_kind_has(rt: HostRuntime) {
    for (held, values) in VALUES {
        for (place, (word, name)) in NAMES.iter().enumerate() {
            let expected = match values.get(place) {
                Some(told) => Ok(AttrValue {
                    name: *name,
                    value: value(*told),
                }),
                None => Err(AttrUnknown),
            };
            assert_eq!(rt; read(&rt, word, held), expected, "{name:?} of {held:?}");
        }
    }
}

#[test]
fn reads_byte_bkeys(rt: HostRuntime) {
    for (word, name) in [
        (b"minbkey", AttrName::MinBkey),
        (b"maxbkey", AttrName::MaxBkey),
    ] {
        let expected = AttrValue {
            name,
            value: AttrNumber::Bkey(Some(bytes())),
        };
        assert_eq!(rt; read(&rt, word, Held::BytesTree), Ok(expected));
    }
}

#[test]
fn knows_no_other_names(rt: HostRuntime) {
    let words: [&[u8]; 9] = [
        b"",
        b"flag",
        b"flagss",
        b"Flags",
        b"kind",
        b"exptime",
        b"max_count",
        b"min bkey",
        b"trimmed\r",
    ];
    for word in words {
        assert_eq!(rt; read(&rt, word, Held::Tree), Err(AttrUnknown));
        assert_eq!(rt; set(&rt, word, b"0", Held::Tree), Err(AttrFault::Unknown));
    }
}

#[test]
fn tells_the_names_of_each_kind(rt: HostRuntime) {
    for (kind, number) in [
        (Kind::Kv, 3),
        (Kind::List, 7),
        (Kind::Set, 7),
        (Kind::Map, 7),
        (Kind::Tree, 11),
    ] {
        let names = attr_names(kind);
        assert_eq!(rt; names.len(), number, "{kind:?}");
        for (name, (_, expected)) in names.iter().zip(NAMES.iter()) {
            assert_eq!(rt; name, expected, "{kind:?}");
        }
    }
}

// What an item's attributes have where a value was taken.
#[derive(Clone, Copy)]
enum Now {
    Expiry(Expiry),
    MaxCount(u32),
    Action(Action),
    Readable,
    Range(u64),
}

fn with(attrs: Attrs, now: Now) -> Attrs {
    match now {
        Now::Expiry(expiry) => Attrs { expiry, ..attrs },
        Now::MaxCount(maxcount) => Attrs { maxcount, ..attrs },
        Now::Action(action) => Attrs { action, ..attrs },
        Now::Readable => Attrs {
            readable: true,
            ..attrs
        },
        Now::Range(maxbkeyrange) => Attrs {
            maxbkeyrange,
            ..attrs
        },
    }
}

// Values at and one past their limits. None where the value is refused.
const EXPTIMES: [(&[u8], Option<Expiry>); 19] = [
    (b"0", Some(Expiry::Never)),
    (b"-0", Some(Expiry::Never)),
    (b"-1", Some(Expiry::Sticky)),
    (b"-2", Some(Expiry::At(0))),
    (b"-2147483648", Some(Expiry::At(0))),
    (b"-2147483649", None),
    (b"1", Some(Expiry::At(101))),
    (b"030", Some(Expiry::At(130))),
    (b"2592000", Some(Expiry::At(2_592_100))),
    (b"2592001", Some(Expiry::At(2_592_001))),
    (b"4294967295", Some(Expiry::At(4_294_967_295))),
    (b"4294967296", None),
    (b"00000000000000000001", Some(Expiry::At(101))),
    (b"000000000000000000001", None),
    (b"", None),
    (b"-", None),
    (b"--1", None),
    (b"+1", None),
    (b"1 ", None),
];

#[test]
fn sets_expiretime(rt: HostRuntime) {
    for (word, expiry) in EXPTIMES {
        for held in [Held::Value, Held::List, Held::Set, Held::Map, Held::Tree] {
            let expected = expiry
                .map(|expiry| with(view(held).attrs, Now::Expiry(expiry)))
                .ok_or(AttrFault::BadValue);
            assert_eq!(rt; set(&rt, b"expiretime", word, held), expected, "{expiry:?}");
        }
    }
}

const MAXCOUNTS: [(Held, &[u8], Option<u32>); 22] = [
    (Held::List, b"0", Some(4_000)),
    (Held::List, b"00", Some(4_000)),
    (Held::List, b"1", Some(10)),
    (Held::List, b"3", Some(10)),
    (Held::List, b"9", Some(10)),
    (Held::List, b"10", Some(10)),
    (Held::List, b"11", Some(11)),
    (Held::List, b"999999", Some(999_999)),
    (Held::List, b"1000000", Some(1_000_000)),
    (Held::List, b"1000001", Some(1_000_000)),
    (Held::List, b"2000000", Some(1_000_000)),
    (Held::List, b"4294967295", Some(1_000_000)),
    (Held::List, b"4294967296", None),
    (Held::List, b"-1", None),
    (Held::List, b"", None),
    (Held::List, b"ten", None),
    (Held::Set, b"1", Some(1)),
    (Held::Map, b"0", Some(4_000)),
    (Held::Map, b"3999", Some(4_000)),
    (Held::Map, b"4001", Some(4_001)),
    (Held::Tree, b"1", Some(2)),
    (Held::EmptyTree, b"1", Some(1)),
];

#[test]
fn sets_maxcount(rt: HostRuntime) {
    for (held, word, maxcount) in MAXCOUNTS {
        let expected = maxcount
            .map(|maxcount| with(view(held).attrs, Now::MaxCount(maxcount)))
            .ok_or(AttrFault::BadValue);
        assert_eq!(rt;
            set(&rt, b"maxcount", word, held),
            expected,
            "{held:?}, {maxcount:?}"
        );
    }
}

const RANGES: [(Held, &[u8], Option<u64>); 17] = [
    (Held::Tree, b"0", Some(0)),
    (Held::Tree, b"1", None),
    (Held::Tree, b"5", None),
    (Held::Tree, b"6", Some(6)),
    (Held::Tree, b"7", Some(7)),
    (Held::Tree, b"18446744073709551615", Some(u64::MAX)),
    (Held::Tree, b"18446744073709551616", None),
    (Held::Tree, b"0x06", None),
    (Held::Tree, b"", None),
    (Held::EmptyTree, b"1", Some(1)),
    (Held::WideTree, b"18446744073709551614", None),
    (Held::WideTree, b"18446744073709551615", Some(u64::MAX)),
    (Held::BytesTree, b"0", Some(0)),
    (Held::BytesTree, b"1", None),
    (Held::BytesTree, b"18446744073709551615", None),
    (Held::EmptyBytesTree, b"0", Some(0)),
    (Held::EmptyBytesTree, b"1", None),
];

#[test]
fn sets_maxbkeyrange(rt: HostRuntime) {
    for (held, word, range) in RANGES {
        let expected = range
            .map(|range| with(view(held).attrs, Now::Range(range)))
            .ok_or(AttrFault::BadValue);
        assert_eq!(rt;
            set(&rt, b"maxbkeyrange", word, held),
            expected,
            "{held:?}, {range:?}"
        );
    }
}

const COLLECTIONS: [Held; 4] = [Held::List, Held::Set, Held::Map, Held::Tree];

// Words, each with the action that it is to a list, a set, a map and a tree.
const ACTIONS: [(&[u8], [Option<Action>; 4]); 10] = [
    (b"error", [Some(Action::Error); 4]),
    (b"head_trim", [Some(Action::HeadTrim), None, None, None]),
    (b"tail_trim", [Some(Action::TailTrim), None, None, None]),
    (
        b"smallest_trim",
        [None, None, None, Some(Action::SmallestTrim)],
    ),
    (
        b"largest_trim",
        [None, None, None, Some(Action::LargestTrim)],
    ),
    (
        b"smallest_silent_trim",
        [None, None, None, Some(Action::SmallestSilentTrim)],
    ),
    (
        b"largest_silent_trim",
        [None, None, None, Some(Action::LargestSilentTrim)],
    ),
    (b"", [None; 4]),
    (b"Error", [None; 4]),
    (b"trim", [None; 4]),
];

#[test]
fn sets_actions_of_the_kind(rt: HostRuntime) {
    for (word, actions) in ACTIONS {
        for (held, action) in COLLECTIONS.iter().zip(actions) {
            let expected = action
                .map(|action| with(view(*held).attrs, Now::Action(action)))
                .ok_or(AttrFault::BadValue);
            assert_eq!(rt;
                set(&rt, b"overflowaction", word, *held),
                expected,
                "{action:?} of {held:?}"
            );
        }
    }
}

#[test]
fn sets_readable_to_on_alone(rt: HostRuntime) {
    for held in COLLECTIONS {
        let on = with(view(held).attrs, Now::Readable);
        assert_eq!(rt; set(&rt, b"readable", b"on", held), Ok(on));
        let words: [&[u8]; 5] = [b"off", b"ON", b"", b"1", b"on "];
        for word in words {
            assert_eq!(rt; set(&rt, b"readable", word, held), Err(AttrFault::BadValue));
        }
    }
}

// Names that cannot be set, and names that the kind does not have, whatever the value.
const UNKNOWN: [(Held, &[u8], &[u8]); 14] = [
    (Held::List, b"flags", b"7"),
    (Held::List, b"type", b"list"),
    (Held::List, b"count", b"10"),
    (Held::Tree, b"minbkey", b"10"),
    (Held::Tree, b"maxbkey", b"16"),
    (Held::Tree, b"trimmed", b"1"),
    (Held::List, b"trimmed", b"0"),
    (Held::List, b"maxbkeyrange", b"0"),
    (Held::Set, b"maxbkeyrange", b"0"),
    (Held::Map, b"maxbkeyrange", b"x"),
    (Held::Value, b"flags", b"7"),
    (Held::Value, b"maxcount", b"4000"),
    (Held::Value, b"overflowaction", b"error"),
    (Held::Value, b"readable", b"on"),
];

#[test]
fn sets_nothing_else(rt: HostRuntime) {
    for (held, name, value) in UNKNOWN {
        assert_eq!(rt;
            set(&rt, name, value, held),
            Err(AttrFault::Unknown),
            "{held:?}"
        );
    }
}
