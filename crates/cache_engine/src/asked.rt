//! What a request wants done with the collection under its key, and which collection it makes where there is none.
ghost use Rattle.std.specs.Prelude.{◌≡◌, ◌⊎◌, IfSome, is_some, option_map, true};
ghost use Rattle.arc_core.specs.CollectionRequests.{asked_of, empty_of};
ghost use Rattle.arc_core.specs.CollectionRows.{attrs_of, maxcount_of};
ghost use Rattle.arc_core.specs.History.{CollMayWantMemory};
ghost use Rattle.arc_core.specs.PlainRequest.{plain_act};
ghost use Rattle.arc_core.specs.RequestLimits.{KeepsLimits, MayBeMade};
ghost use Rattle.coll_items.specs.Planning.{IsShort, Plans, SuitsPlan, TakesNoMemory, TakesNothingOut};
ghost use Rattle.cache_engine.specs.Asking.{asked_by, makes_of};

use crate::expiring::expiry_at;
use arc_core::{Act, Attrs, CreateArgs, Kind};
use coll_items::{
    Collection, Planned, delete_from_list, delete_from_map, delete_from_set, find_in_set,
    insert_into_list, insert_into_map, insert_into_set, read_list, read_map, read_set, update_map,
    upsert_map,
};
use std::alloc::Global;

/// The most elements of a collection whose line writes 0 for it.
const DEFAULT_MAXCOUNT: u32 = 4_000;

/// The most elements that a collection may be made to hold.
const MAX_MAXCOUNT: u32 = 1_000_000;

/// What an act, which has to be one on a collection, wants done with this one.
///
/// Memory is taken only where the act may want it, and an act that can make a collection takes nothing out of one.
pub fn plan_asked<'a>(alloc: Global, act: &'a Act<'a>, collection: &Collection) -> Planned<'a>
    requires asked { is_some (asked_by (plain_act act.now)) ≡ true }
    requires limits { KeepsLimits (plain_act act.now) }
    ensures plans { IfSome (asked_by (plain_act act.now)) (λ asked. Plans (asked_of asked).reads (asked_of asked).row collection.now result) }
    ensures suits { SuitsPlan collection.now result }
    ensures short { IsShort result }
    ensures memory { IfSome (asked_by (plain_act act.now)) (λ asked. CollMayWantMemory asked ⊎ TakesNoMemory result) }
    ensures puts { IfSome (asked_by (plain_act act.now)) (λ asked. is_some (asked_of asked).makes ≡ true → TakesNothingOut result) }
{
    match act {
        Act::ListInsert { index, value, .. } => insert_into_list(collection, alloc, *index, value),
        Act::ListDelete {
            range,
            drop_empty,
            ..
        } => delete_from_list(collection, *range, *drop_empty),
        Act::ListGet { range, take, .. } => read_list(collection, alloc, *range, *take),
        Act::SetInsert { value, .. } => insert_into_set(collection, alloc, value),
        Act::SetDelete {
            value,
            drop_empty,
            ..
        } => delete_from_set(collection, value, *drop_empty),
        Act::SetExist { value, .. } => find_in_set(collection, value),
        Act::SetGet { count, take, .. } => read_set(collection, alloc, *count, *take),
        Act::MapInsert { field, value, .. } => insert_into_map(collection, alloc, field, value),
        Act::MapUpdate { field, value, .. } => update_map(collection, alloc, field, value),
        Act::MapUpsert { field, value, .. } => upsert_map(collection, alloc, field, value),
        Act::MapDelete {
            fields,
            drop_empty,
            ..
        } => delete_from_map(collection, fields, *drop_empty),
        Act::MapGet { fields, take, .. } => read_map(collection, alloc, fields, *take),
        _ => unreachable!(),
    }
}

/// The kind and the attributes of the collection that an act makes where no item is held, if it makes one. It has to be an
/// act on a collection.
pub fn making(act: &Act<'_>) -> Option<(Kind, CreateArgs)>
    requires asked { is_some (asked_by (plain_act act.now)) ≡ true }
    requires limits { KeepsLimits (plain_act act.now) }
    ensures makes { IfSome (asked_by (plain_act act.now)) (λ asked. (asked_of asked).makes ≡ makes_of result) }
    ensures may { IfSome result (λ made. MayBeMade made.0 made.1) }
{
    match act {
        Act::ListInsert { create, .. } => with_kind(Kind::List, *create),
        Act::SetInsert { create, .. } => with_kind(Kind::Set, *create),
        Act::MapInsert { create, .. } | Act::MapUpsert { create, .. } => {
            with_kind(Kind::Map, *create)
        }
        _ => None,
    }
}

// The attributes with the kind of their collection, where there are some.
fn with_kind(kind: Kind, create: Option<CreateArgs>) -> Option<(Kind, CreateArgs)>
    ensures { result ≡ option_map (λ args. (kind, args)) create }
{
    Some((kind, create?))
}

/// An empty collection of this kind that is made now. Takes no memory.
pub fn empty_collection(alloc: Global, latest: u32, kind: Kind, args: CreateArgs) -> Collection
    requires { MayBeMade kind args }
    ensures attrs { result.attrs ≡ attrs_of latest args }
    ensures contents { result.contents ≡ empty_of kind }
{
    Collection::new(alloc, kind, attrs_of(latest, args))
}

// The attributes of a collection that is made now.
fn attrs_of(latest: u32, args: CreateArgs) -> Attrs
    ensures { result ≡ attrs_of latest args }
{
    Attrs {
        flags: args.flags,
        expiry: expiry_at(latest, args.exptime),
        maxcount: maxcount_of(args.maxcount),
        action: args.action,
        readable: args.readable,
        maxbkeyrange: 0,
    }
}

// The most elements that a collection may hold, by the number that a line writes for it.
fn maxcount_of(written: u32) -> u32
    ensures { result ≡ maxcount_of written }
{
    if written == 0 {
        DEFAULT_MAXCOUNT
    } else {
        written.min(MAX_MAXCOUNT)
    }
}
