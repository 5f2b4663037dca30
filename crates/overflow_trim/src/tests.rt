//! Plans of inserts into small trees, number by number.
ghost use Rattle.std.specs.Prelude.{◌≡◌, false};
ghost use Rattle.btree_nodes.specs.Ways.{FitsKind, has_bkey};

use crate::TrimPlan::{OutOfRange, Overflowed, Store, StoreAndTrim};
use crate::{Limits, TrimPlan, plan};
use arc_core::Action::{Error, LargestSilentTrim, LargestTrim, SmallestSilentTrim, SmallestTrim};
use arc_core::Side::{High, Low};
use arc_core::{Action, Bkey, Elem, NoMemory, Value};
use btree_nodes::{Steps, Tree};
use btree_scan::{Position, at_position, position_of};
use std::alloc::Global;
use std::marker::Brand;
use std::process::Abort;
use std::sync::ledger::{Blank, Ledger};
use std::test::Fail;

// The most elements, the action, maxbkeyrange, the bkeys that are there and the new one, and what the insert does.
type Row = (u32, Action, u64, &'static [u64], u64, TrimPlan);

const ROWS: [Row; 19] = [
    // Four inserts into a tree of three at most, the last deleted again, and then the first one anew.
    (3, SmallestTrim, 0, &[], 1, Store),
    (3, SmallestTrim, 0, &[1], 2, Store),
    (3, SmallestTrim, 0, &[1, 2], 3, Store),
    (3, SmallestTrim, 0, &[1, 2, 3], 4, StoreAndTrim(1, Low)),
    (3, SmallestTrim, 0, &[2, 3], 1, Store),
    // Bkeys that differ by 10 at most.
    (4000, SmallestTrim, 10, &[0, 5], 10, Store),
    (
        4000,
        SmallestTrim,
        10,
        &[0, 5, 10],
        16,
        StoreAndTrim(2, Low),
    ),
    (4000, SmallestTrim, 10, &[10, 16], 3, OutOfRange(Low)),
    (4000, LargestTrim, 10, &[0, 5, 10], 16, OutOfRange(High)),
    (
        4000,
        LargestTrim,
        10,
        &[10, 15, 16],
        5,
        StoreAndTrim(1, High),
    ),
    (4000, Error, 10, &[0, 5, 10], 11, OutOfRange(High)),
    (4000, Error, 10, &[0, 5, 10], 7, Store),
    // The range comes before the count.
    (3, SmallestTrim, 10, &[0, 5, 10], 16, StoreAndTrim(2, Low)),
    // One element at most.
    (1, SmallestSilentTrim, 0, &[1], 2, StoreAndTrim(1, Low)),
    (1, LargestTrim, 0, &[5], 3, StoreAndTrim(1, High)),
    (1, LargestTrim, 0, &[3], 4, OutOfRange(High)),
    (1, LargestSilentTrim, 0, &[5], 3, StoreAndTrim(1, High)),
    (1, SmallestSilentTrim, 0, &[2], 1, OutOfRange(Low)),
    (1, Error, 0, &[2], 1, Overflowed),
];

#[test]
fn plans_inserts_as_commands_ask_for_them(rt: HostRuntime) -> Result<(), Fail> {
    for row in ROWS {
        check_row::<Brand, HostRuntime>(&rt, rt.alloc(), row, Blank::new(1))?;
    }
    Ok(())
}

// Checks the plan of one insert.
fn check_row<L: Ledger, R: Abort>(
    rt: &R,
    alloc: Global,
    row: Row,
    blank: Blank,
) -> Result<(), NoMemory>
    requires name { blank.name ≡ L.name }
    requires parts { blank.parts ≡ L.parts }
    requires one { blank.parts ≡ 1 }
{
    let (maxcount, action, maxbkeyrange, bkeys, new, expected) = row;
    let mut steps = Steps::<L>::new(blank);
    let mut tree = Tree::new(alloc);
    for bkey in bkeys {
        let elem = elem_of(alloc, *bkey)?;
        tree.reserve()?;
        check_absent(rt, &tree, &elem.bkey, &mut steps);
        check_kind(rt, &tree, &elem.bkey, &mut steps);
        tree.insert_spare(elem);
    }
    let elem = elem_of(alloc, new)?;
    check_absent(rt, &tree, &elem.bkey, &mut steps);
    let limits = Limits {
        maxcount,
        action,
        maxbkeyrange,
    };
    assert_eq!(rt; plan(&tree, &elem, &limits), expected);
    Ok(())
}

fn elem_of(alloc: Global, number: u64) -> Result<Elem, NoMemory> {
    Ok(Elem {
        bkey: Bkey::Number(number),
        eflag: None,
        value: Value::copy(alloc, b"v")?,
    })
}

// Ends the test where the bkey is there.
fn check_absent<L: Ledger, R: Abort>(rt: &R, tree: &Tree, bkey: &Bkey, steps: &mut Steps<L>)
    ensures { has_bkey bkey.now tree.now.elements ≡ false }
{
    let Position::Before(_) = position_of(tree, bkey, steps) else {
        panic!(rt; "the bkey is there")
    };
}

// Ends the test where the bkey or the first one of the tree is no number.
fn check_kind<L: Ledger, R: Abort>(rt: &R, tree: &Tree, bkey: &Bkey, steps: &mut Steps<L>)
    ensures { FitsKind bkey.now tree.now.elements }
{
    if tree.count() == 0 {
        return;
    }
    let Bkey::Number(_) = at_position(tree, 0, steps).bkey else {
        panic!(rt; "the first bkey is no number")
    };
    let Bkey::Number(_) = bkey else {
        panic!(rt; "the bkey is no number")
    };
}
