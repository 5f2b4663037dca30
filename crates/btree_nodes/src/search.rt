//! Searches by bkey.
ghost use Rattle.std.specs.Prelude.{◌≡◌, ◌≤◌, ◌<◌, length, slice_index_or, take};
ghost use Rattle.std.specs.Ordering.{is_le};
ghost use Rattle.arc_core.specs.declared.bkeys.Bkey.TheVariants.{Number};
ghost use Rattle.arc_core.specs.declared.trees.Elem.{Elem};
ghost use Rattle.arc_core.specs.BkeyOrder.{bkey_cmp};
ghost use Rattle.arc_core.specs.TreeContents.{IsRising, is_below, place_of};
ghost use Rattle.btree_nodes.specs.Subtree.{all_elements};
ghost use Rattle.btree_nodes.specs.Ways.{IsWayTo, HasEach};

use crate::child::{Child, count_below};
use arc_core::{Bkey, Elem};

/// Whether an element's bkey is below a number.
fn is_below_number(elem: &Elem, number: u64) -> bool
    ensures { result ≡ is_below (Number number) elem.now }
{
    match &elem.bkey {
        Bkey::Number(own) => *own < number,
        Bkey::Bytes(_) => false,
    }
}

/// How many of the elements have bkeys below a number. The elements are by rising bkeys.
///
/// The last element is looked at first. It is a function of its own, since a tight loop is quicker than compares of whole
/// bkeys.
fn below_number(elements: &[Elem], number: u64) -> usize
    requires { IsRising elements.now }
    ensures place { result ≡ place_of (Number number) elements.now }
    ensures within { result ≤ length elements.now }
{
    let mut low = 0;
    let mut size = elements.len();
    if size == 0 {
        return 0;
    }
    if is_below_number(&elements[size - 1], number) {
        return size;
    }
    while size > 1 {
        let half = size / 2;
        if is_below_number(&elements[low + half - 1], number) {
            low += half;
        }
        size -= half;
    }
    low
}

/// How many of the elements have smaller bkeys. The elements are by rising bkeys.
///
/// The last element is looked at first, since a timeline asks for places behind it.
pub fn number_below(elements: &[Elem], bkey: &Bkey) -> usize
    requires { IsRising elements.now }
    ensures place { result ≡ place_of bkey.now elements.now }
    ensures within { result ≤ length elements.now }
{
    if let Bkey::Number(number) = bkey {
        return below_number(elements, *number);
    }
    let mut low = 0;
    let mut high = elements.len();
    let mut middle = high.saturating_sub(1);
    while low < high {
        if elements[middle].bkey.cmp(bkey).is_lt() {
            low = middle + 1;
        } else {
            high = middle;
        }
        middle = low + (high - low) / 2;
    }
    low
}

/// How many elements there are below the children before `index`, of the `total` below all.
pub fn count_before(children: &[Child], total: u32, index: usize) -> u32
    requires total { total ≡ length (all_elements children.now) }
    requires within { index ≤ length children.now }
    ensures { result ≡ length (all_elements (take index children.now)) }
{
    if index <= children.len() / 2 {
        return count_below(&children[..index]);
    }
    total - count_below(&children[index..])
}

/// Whether the least bkey below a child is at most a number.
fn is_up_to_number(child: &Child, number: u64) -> bool
    requires { 0 < length child.now.elements }
    ensures { (d : Elem) → result ≡ is_le (bkey_cmp (slice_index_or child.now.elements 0 d).bkey (Number number)) }
{
    match child.least() {
        Bkey::Number(least) => *least <= number,
        Bkey::Bytes(_) => false,
    }
}

/// The child below which a number stands, or would stand. The last child is looked at first.
fn child_with_number(children: &[Child], number: u64) -> usize
    requires some { 1 ≤ length children.now }
    requires each { HasEach children.now }
    requires rising { IsRising (all_elements children.now) }
    ensures { IsWayTo (Number number) children.now result }
{
    let mut low = 0;
    let mut size = children.len() - 1;
    if is_up_to_number(&children[size], number) {
        return size;
    }
    while size > 1 {
        let half = size / 2;
        if is_up_to_number(&children[low + half], number) {
            low += half;
            size -= half;
        } else {
            size = half;
        }
    }
    low
}

/// The child below which a bkey stands, or would stand. The elements below the children are by rising bkeys, and there is
/// one below each.
///
/// The last child is looked at first.
pub fn child_with(children: &[Child], bkey: &Bkey) -> usize
    requires some { 1 ≤ length children.now }
    requires each { HasEach children.now }
    requires rising { IsRising (all_elements children.now) }
    ensures { IsWayTo bkey.now children.now result }
{
    if let Bkey::Number(number) = bkey {
        return child_with_number(children, *number);
    }
    let mut low = 0;
    let mut high = children.len();
    let mut middle = high - 1;
    while low + 1 < high {
        if children[middle].least().cmp(bkey).is_le() {
            low = middle;
        } else {
            high = middle;
        }
        middle = low + (high - low) / 2;
    }
    low
}
