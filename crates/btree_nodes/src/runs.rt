//! Elements that stand next to each other in a leaf.
ghost use Rattle.std.specs.Prelude.{◌≡◌, ◌%◌, ◌^◌, ◌≤◌, ◌<◌, ◌-◌, length, slice_index_or, vec_capacity};
ghost use Rattle.std.specs.List.{remove_range};
ghost use Rattle.arc_core.specs.TreeContents.{bkey_size, elem_size, elem_sizes};
ghost use Rattle.btree_nodes.specs.Removal.{IsRun};

use arc_core::{Bkey, Elem};

/// Elements that were removed: how many, their stated sizes together modulo 2^64, and the last of them.
///
/// What removes elements writes it in its place, since an element is too large to be handed up from node to node.
#[derive(Drop)]
pub(crate) struct Run {
    pub(crate) count: usize,
    pub(crate) size: u64,
    pub(crate) last: Option<Elem>,
}

impl Run {
    /// Nothing was removed yet.
    pub(crate) fn new() -> Run {
        Run {
            count: 0,
            size: 0,
            last: None,
        }
    }
}

/// The bytes that a bkey counts.
fn bkey_size(bkey: &Bkey) -> usize
    ensures size { result ≡ bkey_size bkey.now }
    ensures most { result ≤ 31 }
{
    match bkey {
        Bkey::Number(_) => 8,
        Bkey::Bytes(bytes) => bytes.bytes().len(),
    }
}

/// The stated size of an element, in bytes.
fn elem_size(elem: &Elem) -> u64
    ensures { result ≡ elem_size elem.now }
{
    let eflag = elem.eflag.as_ref().map_or(0, |eflag| eflag.bytes().len());
    48 + bkey_size(&elem.bkey) as u64 + eflag as u64 + elem.value.bytes().len() as u64
}

/// The stated sizes of these elements together, modulo 2^64.
fn elem_sizes(elements: &[Elem]) -> u64
    ensures { result ≡ elem_sizes elements.now % 2 ^ 64 }
{
    let mut size = 0u64;
    for elem in elements {
        size = size.wrapping_add(elem_size(elem));
    }
    size
}

/// Drops the elements from place `low` to before place `high`, of which there are some.
#[inline(never)]
fn drain_range(elements: &mut Vec<Elem>, low: usize, high: usize)
    requires order { low < high }
    requires within { high ≤ length elements.old.items }
    ensures items { elements.new.items ≡ remove_range elements.old.items low high }
    ensures capacity { vec_capacity elements.new ≡ vec_capacity elements.old }
{
    elements.drain(low..high);
}

/// Drops the elements from place `low` to before place `high`.
fn drop_range(elements: &mut Vec<Elem>, low: usize, high: usize)
    requires order { low ≤ high }
    requires within { high ≤ length elements.old.items }
    ensures items { elements.new.items ≡ remove_range elements.old.items low high }
    ensures capacity { vec_capacity elements.new ≡ vec_capacity elements.old }
{
    if low < high {
        drain_range(elements, low, high);
    }
}

/// Removes the elements from a place to before `end`, and gives the last of them.
fn take_out(elements: &mut Vec<Elem>, place: usize, end: usize) -> Elem
    requires some { place < end }
    requires within { end ≤ length elements.old.items }
    ensures items { elements.new.items ≡ remove_range elements.old.items place end }
    ensures last { result ≡ slice_index_or elements.old.items (end - 1) result }
    ensures capacity { vec_capacity elements.new ≡ vec_capacity elements.old }
{
    if end == elements.len() {
        let last = elements.pop().unwrap();
        elements.truncate(place);
        return last;
    }
    drop_range(elements, place, end - 1);
    elements.remove(place)
}

/// Removes at most `most` elements from a place on.
pub(crate) fn take_run(elements: &mut Vec<Elem>, place: usize, most: usize, run: &mut Run)
    requires place { place < length elements.old.items }
    requires most { 1 ≤ most }
    ensures run { IsRun elements.old.items place most elements.new.items run.new }
    ensures capacity { vec_capacity elements.new ≡ vec_capacity elements.old }
{
    let count = most.min(elements.len() - place);
    let end = place + count;
    run.count = count;
    run.size = elem_sizes(&elements[place..end]);
    run.last = Some(take_out(elements, place, end));
}
