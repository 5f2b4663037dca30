//! Where an insert at an index of a list puts its element, and what it trims.
ghost use Rattle.std.specs.Prelude.{◌≡◌, ◌≤◌, IfSome};
ghost use Rattle.arc_core.specs.declared.collections.Action.{Action};
ghost use Rattle.arc_core.specs.InsertPlan.{IsListAction, KeepsLimit, insert_place, insert_plan, trimmed_side, full_plan};

use arc_core::{Action, ListPlan, Side};

// What an insert at an index does in a list of `count` elements.
pub(crate) fn plan_of(index: i32, count: u32, maxcount: u32, action: Action) -> ListPlan
    requires list { IsListAction action }
    requires maxcount { 1 ≤ maxcount }
    requires within { count ≤ maxcount }
    ensures plan { result ≡ insert_plan index count maxcount action }
    ensures limit { KeepsLimit count maxcount result }
{
    let Some(place) = place_for(index, count) else {
        return ListPlan::OutOfRange(index, count);
    };
    if count < maxcount {
        return ListPlan::Store(place);
    }
    plan_full(index, count, place, action)
}

// The place that an index names for a new element beside `count` others.
fn place_for(index: i32, count: u32) -> Option<u32>
    ensures place { result ≡ insert_place index count }
    ensures within { IfSome result (λ place. place ≤ count) }
{
    if index >= 0 {
        let place = index as u32;
        (place <= count).then_some(place)
    } else {
        count.checked_sub(index.unsigned_abs() - 1)
    }
}

// What an insert at a place of a full list of `count` elements does.
fn plan_full(index: i32, count: u32, place: u32, action: Action) -> ListPlan
    requires list { IsListAction action }
    requires full { 1 ≤ count }
    requires within { place ≤ count }
    ensures plan { result ≡ full_plan index count place action }
    ensures limit { KeepsLimit count count result }
{
    if action == Action::Error {
        return ListPlan::Overflowed;
    }
    let side = side_trimmed(index, action);
    let is_new_trimmed = match side {
        Side::Low => place == 0,
        Side::High => place == count,
    };
    if is_new_trimmed {
        ListPlan::OutOfRange(index, count)
    } else {
        ListPlan::StoreAndTrim(place, side)
    }
}

// The end that an insert at an index of a full list trims.
fn side_trimmed(index: i32, action: Action) -> Side
    ensures { result ≡ trimmed_side index action }
{
    match (index, action) {
        (0, _) => Side::High,
        (-1, _) => Side::Low,
        (_, Action::HeadTrim) => Side::Low,
        _ => Side::High,
    }
}
