//! Laws of the machine, each the contract of a function that does nothing.
ghost use Rattle.std.specs.Prelude.{◌≡◌, ◌<◌, ◌^◌, ◌≤ℤ◌, ℕ, List, Some, None, pos};
ghost use Rattle.arc_core.specs.declared.replies.Reply.{Reply};
ghost use Rattle.arc_core.specs.declared.replies.Reply.TheVariants as reply;
ghost use Rattle.arc_core.specs.declared.replies.Word.TheVariants as word;
ghost use Rattle.arc_core.specs.Item.{Item};
ghost use Rattle.arc_core.specs.PlainRequest.{PlainRequest};
ghost use Rattle.arc_core.specs.CollectionLines.{CanBeSpelled};
ghost use Rattle.arc_core.specs.CacheState.{CacheState, IsState};
ghost use Rattle.arc_core.specs.Step.{extra_of, carried_out, named_keys, started, step};
ghost use Rattle.arc_core.specs.Plan.{answer_only, put};
ghost use Rattle.byte_account.specs.declared.room.Room.TheVariants.{Nothing};
ghost use Rattle.cache_engine.specs.Evicting.{MakesRoom, EvictsLeast, EvictsNothing};

/// A law: the machine evicts as few items as can be, and for nothing but an item that it puts.
///
/// Where an item is put, the sticky items are within their share, the last places of the shelf but its key's are evicted,
/// and any fewer would leave it without room; where it is not put, the sticky items would pass their share, in which no
/// eviction makes room, or evicting all of them would not make room either. Where the item adds no bytes, nothing is
/// evicted. A plan that only answers leaves all places as they are, and a step that answers `out of memory` leaves the
/// state at its start, where the latest second was raised and the named items that have expired are gone.
pub fn eviction_is_least()
    ensures put { (state new : CacheState) (key : List ℕ) (item : Item) (counter : ℕ) (reply answer : Reply)
        → carried_out state (put key item counter reply) ≡ Some (new, answer) → EvictsLeast state key item new }
    ensures refused { (state : CacheState) (key : List ℕ) (item : Item) (counter : ℕ) (reply : Reply)
        → carried_out state (put key item counter reply) ≡ None → MakesRoom state key item Nothing }
    ensures no_more { (state : CacheState) (key : List ℕ) (item : Item) (counter : ℕ) (reply : Reply)
        → IsState state → extra_of state key item ≤ℤ pos 0 → EvictsNothing state key item counter reply }
    ensures answered { (state new : CacheState) (reply answer : Reply)
        → carried_out state (answer_only reply) ≡ Some (new, answer) → new.places ≡ state.places }
    ensures out_of_memory { (state : CacheState) (now : ℕ) (request : PlainRequest)
        → (step state now request).1 ≡ reply.Word word.OutOfMemory → (step state now request).0 ≡ started state now (named_keys request.act) }
{}

/// A law: a step keeps the rules of a state, for a request that some line and block spell. So the accounted bytes stay
/// within the limit and those of the sticky items within their share, each item keeps its rules, and no key has two places.
pub fn step_keeps_the_rules()
    ensures { (old : CacheState) (now : ℕ) (request : PlainRequest)
        → IsState old → now < 2 ^ 32 → CanBeSpelled request → IsState (step old now request).0 }
{}
