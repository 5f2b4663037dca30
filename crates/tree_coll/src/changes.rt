//! Changes of an element in its place, and counts.
ghost use Rattle.std.specs.Prelude.{◌≡◌, ℕ, Option, Some, None, List, decimal, IfOk};
ghost use Rattle.std.specs.Option.{option_map_or};
ghost use Rattle.arc_core.specs.TreeContents.{IsRising};
ghost use Rattle.btree_scan.specs.Positions.{position_in};
ghost use Rattle.btree_scan.specs.declared.positions.Position.TheVariants.{At};
ghost use Rattle.tree_coll.specs.TreeOutcomes.{found};
ghost use Rattle.tree_coll.specs.TreePlanning.{IsNewFor, KeepsCount, Plans, SuitsPlan, TakesNothingOut};
ghost use Rattle.tree_coll.specs.TreeRows.{first_counted, found_counted, found_updated, is_nothing, may_count, tree_arith, tree_update};

use crate::inserts::{Settlement, beyond, may_get, settle};
use crate::planned::answered;
use crate::{TreeChange, TreeColl, TreePlanned, TreeReply, TreeWord, is_of_kind};
use arc_core::{Attrs, Bkey, Eflag, EflagChange, Elem, NoMemory, Value};
use btree_nodes::Steps;
use btree_scan::{Position, at_position, position_of};
use eflag_filter::changed;
use kv_items::counted;
use std::alloc::Global;
use std::sync::ledger::Ledger;

// Whether an update gives neither another flag nor another value.
fn is_nothing(change: &EflagChange, value: &Option<Value>) -> bool
    ensures { result ≡ is_nothing change.now value.now }
{
    matches!((change, value), (EflagChange::Keep, None))
}

// The other value where there is one, and else the old one.
fn value_after(value: Option<Value>, old: &Value) -> Result<Value, NoMemory>
    ensures { IfOk result (λ after. after ≡ option_map_or (λ new. new) value old.now) }
{
    match value {
        Some(new) => Ok(new),
        None => old.share(),
    }
}

/// `bop update`: the element with this bkey gets another flag, another value, or both.
///
/// `BKEY_MISMATCH` comes for a bkey of another kind than the tree's, `NOT_FOUND_ELEMENT` where it is not there,
/// `NOTHING_TO_UPDATE` where neither a flag nor a value is given, and `EFLAG_MISMATCH` where a bitwise change does not fit the
/// flag. A value that is given, of at most 32,768 bytes, has its memory already; where none is given the old one is shared, and
/// `NoMemory` comes for want of memory alone. (ARCUS's.)
pub fn update_tree<'a, L: Ledger>(
    held: &TreeColl,
    attrs: &Attrs,
    bkey: &Bkey,
    change: &EflagChange,
    value: Option<Value>,
    steps: &mut Steps<L>,
) -> Result<TreePlanned<'a>, NoMemory>
    ensures plans { IfOk result (λ plan. Plans (tree_update bkey.now change.now value attrs.now held.now.contents) held.now.contents plan) }
    ensures suits { IfOk result (λ plan. SuitsPlan held.now.contents plan) }
    ensures puts { IfOk result TakesNothingOut }
    ensures count { IfOk result (λ plan. KeepsCount attrs.now.maxcount held.now.contents plan) }
{
    if !is_of_kind(bkey, held.tree(), held.edges(), steps) {
        return Ok(answered(TreeWord::BkeyMismatch));
    }
    let Position::At(place) = position_of(held.tree(), bkey, steps) else {
        return Ok(answered(TreeWord::NotFoundElement));
    };
    update_at(held, attrs, place, bkey, change, value, steps)
}

// What an update comes to with the element that is there.
fn update_at<'a, L: Ledger>(
    held: &TreeColl,
    attrs: &Attrs,
    place: u32,
    bkey: &Bkey,
    change: &EflagChange,
    value: Option<Value>,
    steps: &mut Steps<L>,
) -> Result<TreePlanned<'a>, NoMemory>
    requires rising { IsRising held.now.contents.elements }
    requires place { At place ≡ position_in bkey.now held.now.contents.elements }
    ensures plans { IfOk result (λ plan. Plans (found_updated change.now value held.now.contents (found bkey.now held.now.contents.elements)) held.now.contents plan) }
    ensures suits { IfOk result (λ plan. SuitsPlan held.now.contents plan) }
    ensures puts { IfOk result TakesNothingOut }
    ensures count { IfOk result (λ plan. KeepsCount attrs.now.maxcount held.now.contents plan) }
{
    let element = at_position(held.tree(), place, steps);
    if is_nothing(change, &value) {
        return Ok(answered(TreeWord::NothingToUpdate));
    }
    let Ok(eflag) = changed(change, &element.eflag) else {
        return Ok(answered(TreeWord::EflagMismatch));
    };
    let value = value_after(value, &element.value)?;
    let elem = Elem {
        bkey: *bkey,
        eflag,
        value,
    };
    Ok(TreePlanned::Changes(
        TreeChange::Replace { place, elem },
        TreeReply::Word(TreeWord::Updated),
    ))
}

// A number in decimal digits.
fn number_value(alloc: Global, number: u64) -> Result<Value, NoMemory>
    ensures { IfOk result (λ value. value ≡ decimal number) }
{
    let mut digits = itoa::Buffer::new();
    Value::copy(alloc, digits.format(number).as_bytes())
}

/// `bop incr` and `bop decr`: the number that the element's value spells, after a count by `delta`: up, where it begins again
/// at 0 after 2^64 - 1, or down, where it ends at 0. The element keeps its flag. Where the bkey is not there and `initial` is
/// given, an element with that number and the flag is put in as `bop insert` does, and the number is answered.
///
/// `BKEY_MISMATCH` comes for a bkey of another kind than the tree's, and with `initial` for a byte bkey where maxbkeyrange is a
/// bound; `NOT_FOUND_ELEMENT` where the bkey is not there and nothing is given; `NOT_NUMERIC` where the value spells no number
/// of 64 bits; `OUT_OF_RANGE` and `OVERFLOWED` as for an insert. `NoMemory` comes for want of memory for the value alone.
/// (ARCUS's.)
pub fn arith_tree<'a, L: Ledger>(
    held: &TreeColl,
    attrs: &Attrs,
    alloc: Global,
    up: bool,
    bkey: &Bkey,
    delta: u64,
    initial: Option<u64>,
    eflag: Option<Eflag>,
    steps: &mut Steps<L>,
) -> Result<TreePlanned<'a>, NoMemory>
    ensures plans { IfOk result (λ plan. Plans (tree_arith up bkey.now delta initial eflag attrs.now held.now.contents) held.now.contents plan) }
    ensures suits { IfOk result (λ plan. SuitsPlan held.now.contents plan) }
    ensures puts { IfOk result TakesNothingOut }
    ensures count { IfOk result (λ plan. KeepsCount attrs.now.maxcount held.now.contents plan) }
{
    if !may_count(held, attrs, bkey, initial, steps) {
        return Ok(answered(TreeWord::BkeyMismatch));
    }
    if let Position::At(place) = position_of(held.tree(), bkey, steps) {
        return count_at(held, attrs, alloc, place, up, bkey, delta, steps);
    }
    let Some(number) = initial else {
        return Ok(answered(TreeWord::NotFoundElement));
    };
    plan_first(held, attrs, alloc, bkey, eflag, number, steps)
}

// Whether a bkey may be counted at: with an initial number, whether the tree may get it.
fn may_count<L: Ledger>(
    held: &TreeColl,
    attrs: &Attrs,
    bkey: &Bkey,
    initial: Option<u64>,
    steps: &mut Steps<L>,
) -> bool
    ensures { result ≡ may_count bkey.now initial attrs.now held.now.contents }
{
    match initial {
        None => is_of_kind(bkey, held.tree(), held.edges(), steps),
        Some(_) => may_get(held, attrs, bkey, steps),
    }
}

// What a count comes to with the element that is there.
fn count_at<'a, L: Ledger>(
    held: &TreeColl,
    attrs: &Attrs,
    alloc: Global,
    place: u32,
    up: bool,
    bkey: &Bkey,
    delta: u64,
    steps: &mut Steps<L>,
) -> Result<TreePlanned<'a>, NoMemory>
    requires rising { IsRising held.now.contents.elements }
    requires place { At place ≡ position_in bkey.now held.now.contents.elements }
    ensures plans { IfOk result (λ plan. (initial : Option ℕ) (eflag : Option (List ℕ)) → Plans (found_counted up bkey.now delta initial eflag attrs.now held.now.contents (found bkey.now held.now.contents.elements)) held.now.contents plan) }
    ensures suits { IfOk result (λ plan. SuitsPlan held.now.contents plan) }
    ensures puts { IfOk result TakesNothingOut }
    ensures count { IfOk result (λ plan. KeepsCount attrs.now.maxcount held.now.contents plan) }
{
    let element = at_position(held.tree(), place, steps);
    let Ok(number) = counted(element.value.bytes(), up, delta) else {
        return Ok(answered(TreeWord::NotNumeric));
    };
    let eflag = element.eflag;
    let value = number_value(alloc, number)?;
    let elem = Elem {
        bkey: *bkey,
        eflag,
        value,
    };
    Ok(TreePlanned::Changes(
        TreeChange::Replace { place, elem },
        TreeReply::Number(number),
    ))
}

// What a count comes to where the bkey is not there and an initial number is given.
fn plan_first<'a, L: Ledger>(
    held: &TreeColl,
    attrs: &Attrs,
    alloc: Global,
    bkey: &Bkey,
    eflag: Option<Eflag>,
    number: u64,
    steps: &mut Steps<L>,
) -> Result<TreePlanned<'a>, NoMemory>
    requires { IsNewFor bkey.now held.now.contents.elements }
    ensures plans { IfOk result (λ plan. Plans (first_counted bkey.now (Some number) eflag attrs.now held.now.contents) held.now.contents plan) }
    ensures suits { IfOk result (λ plan. SuitsPlan held.now.contents plan) }
    ensures puts { IfOk result TakesNothingOut }
    ensures count { IfOk result (λ plan. KeepsCount attrs.now.maxcount held.now.contents plan) }
{
    let value = number_value(alloc, number)?;
    let elem = Elem {
        bkey: *bkey,
        eflag,
        value,
    };
    match settle(held, attrs, &elem, steps) {
        Settlement::Stored { low, high, edges } => {
            let change = TreeChange::Store {
                low,
                high,
                edges,
                elem,
            };
            Ok(TreePlanned::Changes(change, TreeReply::Number(number)))
        }
        Settlement::Refused(edges) => Ok(beyond(edges)),
        Settlement::Full => Ok(answered(TreeWord::Overflowed)),
    }
}
