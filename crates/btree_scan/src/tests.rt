//! Trees of numbers against plain lists of them: inserts, removals, positions and ranges.
ghost use Rattle.std.specs.Prelude.{◌≡◌, ◌+◌, ◌≤◌, false, length};
ghost use Rattle.btree_nodes.specs.Ways.{FitsKind, has_bkey};

use crate::{Cursor, Position, at_position, count_in, position_of};
use arc_core::{Bkey, BkeyRange, Elem, NoMemory, Value};
use btree_nodes::{Steps, Tree};
use std::alloc::Global;
use std::marker::Brand;
use std::process::Abort;
use std::sync::ledger::{Blank, Ledger};
use std::test::Fail;

#[test]
fn inserts_and_removes_at_each_place(rt: HostRuntime) -> Result<(), Fail> {
    for count in 0..71 {
        check_places::<Brand, HostRuntime>(&rt, rt.alloc(), count, Blank::new(1))?;
    }
    Ok(())
}

// Inserts in each place of a tree of so many elements, and removes each of them, all before it and all from it on.
fn check_places<L: Ledger, R: Abort>(
    rt: &R,
    alloc: Global,
    count: u8,
    blank: Blank,
) -> Result<(), NoMemory>
    requires name { blank.name ≡ L.name }
    requires parts { blank.parts ≡ L.parts }
    requires one { blank.parts ≡ 1 }
{
    let mut steps = Steps::<L>::new(blank);
    for place in 0..=count {
        check_insert(rt, alloc, count, place, &mut steps)?;
        check_removal(
            rt,
            alloc,
            count,
            place,
            place.saturating_add(1).min(count),
            &mut steps,
        )?;
        check_removal(rt, alloc, count, 0, place, &mut steps)?;
        check_removal(rt, alloc, count, place, count, &mut steps)?;
    }
    Ok(())
}

fn check_insert<L: Ledger, R: Abort>(
    rt: &R,
    alloc: Global,
    count: u8,
    place: u8,
    steps: &mut Steps<L>,
) -> Result<(), NoMemory> {
    let mut list = odd_numbers(alloc, u16::from(count))?;
    let mut tree = tree_of(rt, alloc, &list, steps)?;
    let number = 2 * u64::from(place);
    put(rt, alloc, &mut tree, number, steps)?;
    assert!(rt; usize::from(place) <= list.len());
    list.insert(usize::from(place), number)?;
    check_bkeys(rt, alloc, &tree, &list, steps)
}

fn check_removal<L: Ledger, R: Abort>(
    rt: &R,
    alloc: Global,
    count: u8,
    low: u8,
    high: u8,
    steps: &mut Steps<L>,
) -> Result<(), NoMemory> {
    let mut list = odd_numbers(alloc, u16::from(count))?;
    let mut tree = tree_of(rt, alloc, &list, steps)?;
    assert!(rt; low <= high && u32::from(high) <= tree.count() && usize::from(high) <= list.len());
    tree.remove_range(u32::from(low), u32::from(high));
    list.drain(usize::from(low)..usize::from(high));
    check_bkeys(rt, alloc, &tree, &list, steps)
}

// Checks that the tree has these bkeys, by a walk and by their places.
fn check_bkeys<L: Ledger, R: Abort>(
    rt: &R,
    alloc: Global,
    tree: &Tree,
    list: &[u64],
    steps: &mut Steps<L>,
) -> Result<(), NoMemory> {
    let walked = numbers_in(alloc, tree, 0, u64::MAX, steps)?;
    assert!(rt; walked.as_slice() == list);
    for (place, number) in (0..u32::MAX).zip(list) {
        assert_eq!(rt;
            position_of(tree, &Bkey::Number(*number), steps),
            Position::At(place)
        );
        assert!(rt; place < tree.count());
        assert!(rt; at_position(tree, place, steps).bkey == Bkey::Number(*number));
    }
    Ok(())
}

#[test]
fn finds_both_ends_of_50000_in_four_steps(rt: HostRuntime) -> Result<(), Fail> {
    check_mixed::<Brand, HostRuntime>(&rt, rt.alloc(), Blank::new(1))?;
    Ok(())
}

// Inserts the numbers below 50,000, each the one before and 3 more, modulo 50,000.
fn check_mixed<L: Ledger, R: Abort>(rt: &R, alloc: Global, blank: Blank) -> Result<(), NoMemory>
    requires name { blank.name ≡ L.name }
    requires parts { blank.parts ≡ L.parts }
    requires one { blank.parts ≡ 1 }
{
    let mut steps = Steps::<L>::new(blank);
    let mut tree = Tree::new(alloc);
    for i in 0..50_000u64 {
        put(rt, alloc, &mut tree, 3 * i % 50_000, &mut steps)?;
    }
    assert_eq!(rt; tree.count(), 50_000);
    assert_eq!(rt;
        position_in_four(&tree, 49_999, &mut steps),
        Position::At(49_999)
    );
    assert_eq!(rt; position_in_four(&tree, 0, &mut steps), Position::At(0));
    Ok(())
}

// Where a number stands in a tree of 50,000, in four steps.
fn position_in_four<L: Ledger>(tree: &Tree, number: u64, steps: &mut Steps<L>) -> Position
    requires { length tree.now.elements ≡ 50000 }
    ensures { steps.new ≤ steps.old + 4 }
{
    position_of(tree, &Bkey::Number(number), steps)
}

// From the first end to the last one, in a tree of the odd numbers below twice as many.
const RANGES: [(u64, u64); 12] = [
    (0, u64::MAX),
    (u64::MAX, 0),
    (3, 41),
    (41, 3),
    (1, 1),
    (33, 33),
    (34, 34),
    (2, 2),
    (1990, 3000),
    (3000, 1990),
    (0, 0),
    (5000, 4000),
];

#[test]
fn reads_each_kind_of_range(rt: HostRuntime) -> Result<(), Fail> {
    for count in [0, 1, 31, 32, 33, 1000] {
        check_ranges::<Brand, HostRuntime>(&rt, rt.alloc(), count, Blank::new(1))?;
    }
    Ok(())
}

fn check_ranges<L: Ledger, R: Abort>(
    rt: &R,
    alloc: Global,
    count: u16,
    blank: Blank,
) -> Result<(), NoMemory>
    requires name { blank.name ≡ L.name }
    requires parts { blank.parts ≡ L.parts }
    requires one { blank.parts ≡ 1 }
{
    let mut steps = Steps::<L>::new(blank);
    let list = odd_numbers(alloc, count)?;
    let tree = tree_of(rt, alloc, &list, &mut steps)?;
    for (first, last) in RANGES {
        let mut expected = Vec::new(alloc);
        for number in &list {
            if first.min(last) <= *number && *number <= first.max(last) {
                expected.push(*number)?;
            }
        }
        if last < first {
            expected.reverse();
        }
        let range = range_of(first, last);
        assert_eq!(rt;
            count_in(&tree, &range, &None, &mut steps) as usize,
            expected.len()
        );
        let walked = numbers_in(alloc, &tree, first, last, &mut steps)?;
        assert!(rt; walked.as_slice() == expected.as_slice());
    }
    Ok(())
}

#[test]
fn walks_2000_both_ways_in_few_steps(rt: HostRuntime) -> Result<(), Fail> {
    check_walks::<Brand, HostRuntime>(&rt, rt.alloc(), Blank::new(1))?;
    Ok(())
}

// Walks along the whole of a tree of the odd numbers below 4,000, upwards and downwards.
fn check_walks<L: Ledger, R: Abort>(rt: &R, alloc: Global, blank: Blank) -> Result<(), NoMemory>
    requires name { blank.name ≡ L.name }
    requires parts { blank.parts ≡ L.parts }
    requires one { blank.parts ≡ 1 }
{
    let mut steps = Steps::<L>::new(blank);
    let list = odd_numbers(alloc, 2_000)?;
    let tree = tree_of(rt, alloc, &list, &mut steps)?;
    assert_eq!(rt; tree.count(), 2_000);
    assert_eq!(rt;
        sum_in_258(&tree, &range_of(0, u64::MAX), &mut steps),
        4_000_000
    );
    assert_eq!(rt;
        sum_in_258(&tree, &range_of(u64::MAX, 0), &mut steps),
        4_000_000
    );
    Ok(())
}

// The sum of the numbers of a range in a tree of 2,000, modulo 2^64, in 258 steps.
fn sum_in_258<L: Ledger>(tree: &Tree, range: &BkeyRange, steps: &mut Steps<L>) -> u64
    requires { length tree.now.elements ≡ 2000 }
    ensures { steps.new ≤ steps.old + 258 }
{
    let mut sum = 0u64;
    let mut cursor = Cursor::new(tree, range, steps);
    while let Some(element) = cursor.next(steps) {
        if let Bkey::Number(number) = element.bkey {
            sum = sum.wrapping_add(number);
        }
    }
    sum
}

fn range_of(first: u64, last: u64) -> BkeyRange {
    BkeyRange {
        first: Bkey::Number(first),
        last: Bkey::Number(last),
    }
}

// The numbers of a range, as a cursor hands them out.
fn numbers_in<L: Ledger>(
    alloc: Global,
    tree: &Tree,
    first: u64,
    last: u64,
    steps: &mut Steps<L>,
) -> Result<Vec<u64>, NoMemory> {
    let mut numbers = Vec::new(alloc);
    let mut cursor = Cursor::new(tree, &range_of(first, last), steps);
    while let Some(element) = cursor.next(steps) {
        if let Bkey::Number(number) = element.bkey {
            numbers.push(number)?;
        }
    }
    Ok(numbers)
}

fn odd_numbers(alloc: Global, count: u16) -> Result<Vec<u64>, NoMemory> {
    let mut numbers = Vec::new(alloc);
    for i in 0..count {
        numbers.push(2 * u64::from(i) + 1)?;
    }
    Ok(numbers)
}

fn tree_of<L: Ledger, R: Abort>(
    rt: &R,
    alloc: Global,
    numbers: &[u64],
    steps: &mut Steps<L>,
) -> Result<Tree, NoMemory> {
    let mut tree = Tree::new(alloc);
    for number in numbers {
        put(rt, alloc, &mut tree, *number, steps)?;
    }
    Ok(tree)
}

// Inserts a number that is not there.
fn put<L: Ledger, R: Abort>(
    rt: &R,
    alloc: Global,
    tree: &mut Tree,
    number: u64,
    steps: &mut Steps<L>,
) -> Result<(), NoMemory> {
    let elem = Elem {
        bkey: Bkey::Number(number),
        eflag: None,
        value: Value::copy(alloc, b"p")?,
    };
    tree.reserve()?;
    check_absent(rt, tree, &elem.bkey, steps);
    check_kind(rt, tree, &elem.bkey, steps);
    tree.insert_spare(elem);
    Ok(())
}

// Ends the test where the bkey is there.
fn check_absent<L: Ledger, R: Abort>(rt: &R, tree: &Tree, bkey: &Bkey, steps: &mut Steps<L>)
    ensures { has_bkey bkey.now tree.now.elements ≡ false }
{
    let Position::Before(_) = position_of(tree, bkey, steps) else {
        panic!(rt; "the bkey is there")
    };
}

// Ends the test where the bkey or the first one of the tree is no number.
fn check_kind<L: Ledger, R: Abort>(rt: &R, tree: &Tree, bkey: &Bkey, steps: &mut Steps<L>)
    ensures { FitsKind bkey.now tree.now.elements }
{
    if tree.count() == 0 {
        return;
    }
    let Bkey::Number(_) = at_position(tree, 0, steps).bkey else {
        panic!(rt; "the first bkey is no number")
    };
    let Bkey::Number(_) = bkey else {
        panic!(rt; "the bkey is no number")
    };
}
