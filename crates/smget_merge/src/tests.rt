//! Merged reads of small trees, row by row, and of a hundred trees.
ghost use Rattle.std.specs.Prelude.{◌≡◌, ◌+◌, ◌*◌, ◌<◌, ◌≤◌, false, length, All, IfOk};
ghost use Rattle.arc_core.specs.TreeContents.{IsRising};
ghost use Rattle.btree_nodes.specs.Ways.{FitsKind, has_bkey};
ghost use Rattle.smget_merge.specs.Hundreds.{IsTreeOfHundred};

use crate::Merge;
use arc_core::{Bkey, BkeyRange, CompOp, Eflag, Elem, Filter, FlagWords, NoMemory, Value};
use btree_nodes::{Steps, Tree};
use btree_scan::{Position, at_position, position_of};
use std::alloc::Global;
use std::marker::Brand;
use std::process::Abort;
use std::sync::ledger::{Blank, Ledger};
use std::test::Fail;

// The bkeys of the trees. Each element has a flag of one byte, the place of its tree in this list.
const TREES: [&[u64]; 5] = [&[1, 3], &[3, 5], &[], &[2, 3, 4], &[3]];

// A merged read: the places of its trees, the ends of the range, the flags that are asked for (or any where there are none),
// whether rows are unique, and the rows: the number of the tree, which is counted from 0, and the bkey.
type Read = (
    &'static [usize],
    (u64, u64),
    &'static str,
    bool,
    &'static [(u32, u64)],
);

const READS: [Read; 22] = [
    // Two trees that share a bkey, in both directions and both modes.
    (
        &[0, 1],
        (5, 1),
        "",
        false,
        &[(1, 5), (0, 3), (1, 3), (0, 1)],
    ),
    (&[0, 1], (5, 1), "", true, &[(1, 5), (0, 3), (0, 1)]),
    (
        &[0, 1],
        (1, 5),
        "",
        false,
        &[(0, 1), (0, 3), (1, 3), (1, 5)],
    ),
    (&[0, 1], (1, 5), "", true, &[(0, 1), (0, 3), (1, 5)]),
    // One tree under two numbers.
    (
        &[0, 0],
        (1, 5),
        "",
        false,
        &[(0, 1), (1, 1), (0, 3), (1, 3)],
    ),
    (
        &[0, 0],
        (5, 1),
        "",
        false,
        &[(0, 3), (1, 3), (0, 1), (1, 1)],
    ),
    (&[0, 0], (1, 5), "", true, &[(0, 1), (0, 3)]),
    // No tree, and trees without elements.
    (&[], (0, 9), "", false, &[]),
    (&[2], (0, 9), "", true, &[]),
    (
        &[2, 0, 2, 1],
        (5, 1),
        "",
        false,
        &[(3, 5), (1, 3), (3, 3), (1, 1)],
    ),
    // Ranges that meet nothing, one bkey, and all of one tree.
    (&[0, 1], (6, 9), "", false, &[]),
    (&[0, 1, 4], (4, 4), "", false, &[]),
    (&[0, 1], (2, 0), "", true, &[(0, 1)]),
    (&[3], (0, 9), "", false, &[(0, 2), (0, 3), (0, 4)]),
    // Filters: the later tree's row is the first that passes; some pass, and none.
    (&[0, 1], (1, 5), "0x01", true, &[(1, 3), (1, 5)]),
    (
        &[3, 1, 0],
        (9, 0),
        "0x00,0x03",
        true,
        &[(0, 4), (0, 3), (0, 2), (2, 1)],
    ),
    (&[0, 1], (1, 5), "0x09", false, &[]),
    // Many trees with one bkey.
    (
        &[4, 3, 1, 0, 4],
        (3, 3),
        "",
        false,
        &[(0, 3), (1, 3), (2, 3), (3, 3), (4, 3)],
    ),
    (&[4, 3, 1, 0, 4], (3, 3), "", true, &[(0, 3)]),
    (
        &[1, 3, 0],
        (0, 9),
        "",
        false,
        &[(2, 1), (1, 2), (0, 3), (1, 3), (2, 3), (1, 4), (0, 5)],
    ),
    (
        &[1, 3, 0],
        (9, 0),
        "",
        false,
        &[(0, 5), (1, 4), (0, 3), (1, 3), (2, 3), (1, 2), (2, 1)],
    ),
    (
        &[1, 3, 0],
        (9, 0),
        "",
        true,
        &[(0, 5), (1, 4), (0, 3), (1, 2), (2, 1)],
    ),
];

#[test]
fn merges_small_trees(rt: HostRuntime) -> Result<(), Fail> {
    for read in READS {
        check_read::<Brand, HostRuntime>(&rt, rt.alloc(), read, Blank::new(1))?;
    }
    Ok(())
}

// Checks one merged read.
fn check_read<L: Ledger, R: Abort>(
    rt: &R,
    alloc: Global,
    read: Read,
    blank: Blank,
) -> Result<(), NoMemory>
    requires name { blank.name ≡ L.name }
    requires parts { blank.parts ≡ L.parts }
    requires one { blank.parts ≡ 1 }
{
    let mut steps = Steps::<L>::new(blank);
    let trees = small_trees(rt, alloc, &mut steps)?;
    let (places, (first, last), flags, unique, rows) = read;
    let filter = filter_of(rt, flags);
    assert!(rt; places.len() < 100);
    let mut merge = Merge::new(alloc, places.len() as u32, &range_of(first, last))?;
    for i in 0..places.len() {
        let place = places[i];
        assert!(rt; place < trees.len());
        let tree = &trees[place];
        know_rising(tree, &mut steps);
        merge.add(i as u32, tree, &mut steps);
    }
    for (number, bkey) in rows {
        let Some((found, element)) = merge.next(&filter, unique, &mut steps) else {
            panic!(rt; "a row is missing")
        };
        assert_eq!(rt; found, *number);
        assert!(rt; element.bkey == Bkey::Number(*bkey));
    }
    assert!(rt; merge.next(&filter, unique, &mut steps).is_none());
    Ok(())
}

// The trees of the list.
fn small_trees<L: Ledger, R: Abort>(
    rt: &R,
    alloc: Global,
    steps: &mut Steps<L>,
) -> Result<Vec<Tree>, NoMemory> {
    let mut trees = Vec::new(alloc);
    for (place, bkeys) in (0..u8::MAX).zip(&TREES) {
        let mut tree = Tree::new(alloc);
        for bkey in *bkeys {
            put(rt, alloc, &mut tree, *bkey, Eflag::of(&[place]), steps)?;
        }
        trees.push(tree)?;
    }
    Ok(trees)
}

// The filter for one of these flags, or none where there are none.
fn filter_of<'a, R: Abort>(rt: &R, flags: &'a str) -> Option<Filter<'a>> {
    if flags.is_empty() {
        return None;
    }
    let Some(values) = FlagWords::read(flags.as_bytes()) else {
        panic!(rt; "the flags are no list of values")
    };
    Some(Filter {
        fwhere: 0,
        bits: None,
        comp: CompOp::Eq,
        values,
    })
}

#[test]
fn merges_100_trees_in_few_steps(rt: HostRuntime) -> Result<(), Fail> {
    check_hundred::<Brand, HostRuntime>(&rt, rt.alloc(), Blank::new(1))?;
    Ok(())
}

// Tree j of 100 has the bkeys j, j + 100, and so on up to j + 9,900.
fn check_hundred<L: Ledger, R: Abort>(rt: &R, alloc: Global, blank: Blank) -> Result<(), NoMemory>
    requires name { blank.name ≡ L.name }
    requires parts { blank.parts ≡ L.parts }
    requires one { blank.parts ≡ 1 }
{
    let mut steps = Steps::<L>::new(blank);
    let mut trees = Vec::new(alloc);
    for j in 0..100 {
        trees.push(tree_of_hundred(rt, alloc, j, &mut steps)?)?;
    }
    first_thousand_in_537(rt, alloc, &trees, &mut steps)
}

fn tree_of_hundred<L: Ledger, R: Abort>(
    rt: &R,
    alloc: Global,
    least: u64,
    steps: &mut Steps<L>,
) -> Result<Tree, NoMemory>
    requires { least < 100 }
    ensures { IfOk result (λ tree. IsTreeOfHundred tree) }
{
    let mut tree = Tree::new(alloc);
    for m in 0..100 {
        put(
            rt,
            alloc,
            &mut tree,
            least + 100 * m,
            Eflag::of(&[0]),
            steps,
        )?;
    }
    know_rising(&tree, steps);
    assert_eq!(rt; tree.count(), 100);
    Ok(tree)
}

// Checks the first 1,000 rows of 100 trees of 100 elements, which are the bkeys below 1,000.
fn first_thousand_in_537<L: Ledger, R: Abort>(
    rt: &R,
    alloc: Global,
    trees: &[Tree],
    steps: &mut Steps<L>,
) -> Result<(), NoMemory>
    requires count { length trees.now ≡ 100 }
    requires each { All IsTreeOfHundred trees.now }
    ensures { steps.new ≤ steps.old + 537 }
{
    let mut merge = Merge::new(alloc, 100, &range_of(0, u64::MAX))?;
    add_all(&mut merge, trees, steps);
    for bkey in 0..1000 {
        let Some((number, element)) = merge.next(&None, false, steps) else {
            panic!(rt; "a row is missing")
        };
        assert!(rt; u64::from(number) == bkey % 100);
        assert!(rt; element.bkey == Bkey::Number(bkey));
    }
    Ok(())
}

// Puts 100 trees of 100 elements in.
fn add_all<'t, L: Ledger>(merge: &mut Merge<'t>, trees: &'t [Tree], steps: &mut Steps<L>)
    requires count { length trees.now ≡ 100 }
    requires each { All IsTreeOfHundred trees.now }
    requires room { merge.old.room ≡ 100 }
    ensures { 8 * steps.new + merge.new.credit ≤ 8 * steps.old + merge.old.credit + 3300 }
{
    for i in 0..trees.len() {
        merge.add(i as u32, &trees[i], steps);
    }
}

fn range_of(first: u64, last: u64) -> BkeyRange {
    BkeyRange {
        first: Bkey::Number(first),
        last: Bkey::Number(last),
    }
}

// What a look-up tells of a tree.
fn know_rising<L: Ledger>(tree: &Tree, steps: &mut Steps<L>)
    ensures { IsRising tree.now.elements }
{
    position_of(tree, &Bkey::Number(0), steps);
}

// Inserts a number that is not there.
fn put<L: Ledger, R: Abort>(
    rt: &R,
    alloc: Global,
    tree: &mut Tree,
    number: u64,
    flag: Eflag,
    steps: &mut Steps<L>,
) -> Result<(), NoMemory> {
    let elem = Elem {
        bkey: Bkey::Number(number),
        eflag: Some(flag),
        value: Value::copy(alloc, b"v")?,
    };
    tree.reserve()?;
    check_absent(rt, tree, &elem.bkey, steps);
    check_kind(rt, tree, &elem.bkey, steps);
    tree.insert_spare(elem);
    Ok(())
}

// Ends the test where the bkey is there.
fn check_absent<L: Ledger, R: Abort>(rt: &R, tree: &Tree, bkey: &Bkey, steps: &mut Steps<L>)
    ensures { has_bkey bkey.now tree.now.elements ≡ false }
{
    let Position::Before(_) = position_of(tree, bkey, steps) else {
        panic!(rt; "the bkey is there")
    };
}

// Ends the test where the bkey or the first one of the tree is no number.
fn check_kind<L: Ledger, R: Abort>(rt: &R, tree: &Tree, bkey: &Bkey, steps: &mut Steps<L>)
    ensures { FitsKind bkey.now tree.now.elements }
{
    if tree.count() == 0 {
        return;
    }
    let Bkey::Number(_) = at_position(tree, 0, steps).bkey else {
        panic!(rt; "the first bkey is no number")
    };
    let Bkey::Number(_) = bkey else {
        panic!(rt; "the bkey is no number")
    };
}
