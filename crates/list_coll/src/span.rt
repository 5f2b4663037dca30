//! Which places of a list a range of indices names.
ghost use Rattle.std.specs.Prelude.{◌≡◌, ◌<◌, ◌≤◌, IfSome};
ghost use Rattle.arc_core.specs.Span.{place_of, clipped, span};

use arc_core::{IndexRange, Part};

// The part of a list of `count` elements that a range of indices names.
pub(crate) fn part_of(range: IndexRange, count: u32) -> Option<Part>
    ensures part { result ≡ span range count }
    ensures within { IfSome result (λ part. (part.low ≤ part.high) × (part.high < count)) }
{
    let first = place_at(range.first, count);
    let last = place_at(range.last, count);
    if first <= last {
        clip(first, last, count, false)
    } else {
        clip(last, first, count, true)
    }
}

// The place of an index in a list of `count` elements. It may lie outside the list.
fn place_at(index: i32, count: u32) -> i64
    ensures { result ≡ place_of index count }
{
    if index >= 0 {
        i64::from(index)
    } else {
        i64::from(count) + i64::from(index)
    }
}

// Those places from `low` to `high` that a list of `count` elements has.
fn clip(low: i64, high: i64, count: u32, down: bool) -> Option<Part>
    ensures part { result ≡ clipped low high count down }
    ensures within { IfSome result (λ part. (part.low ≤ part.high) × (part.high < count)) }
{
    let first = low.max(0);
    let last = high.min(i64::from(count) - 1);
    if first <= last {
        Some(Part {
            low: first as u32,
            high: last as u32,
            down,
        })
    } else {
        None
    }
}
