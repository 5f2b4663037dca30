//! What the commands on one key want done, by the item that is held there.
ghost use Rattle.std.specs.Prelude.{◌≡◌, ◌≤◌, ◌^◌, List, ℕ, length, option_map, decimal, IfOk};
ghost use Rattle.arc_core.specs.Item.{Item, key_value};
ghost use Rattle.arc_core.specs.Places.{Places};
ghost use Rattle.arc_core.specs.Step.{next_unique, plan_of_store, plan_of_count};
ghost use Rattle.kv_items.specs.PlainItem.{plain_item};
ghost use Rattle.cache_engine.specs.Planning.{Plans, IsShort, IsJoinedPlan, state_at};
ghost use Rattle.cache_engine.specs.Stored.{held_item};

use crate::expiring::expiry_at;
use crate::stored::Stored;
use arc_core::{Expiry, NoMemory, Reply, StoreVerb, Word};
use kv_items::{JoinFault, KvItem, counted};
use std::alloc::Global;

/// What a command on one key wants done.
#[derive(Drop)]
pub enum Planned {
    /// To answer, and leave the item as it is.
    Answer(Word),
    /// To put this item under the key, let the cas counter be its unique, and answer.
    Put(KvItem, Reply),
    /// Memory was refused.
    NoMemory,
}

/// The value of the cas counter after this one: it begins again at 1.
pub fn next_unique(counter: u64) -> u64
    ensures { result ≡ next_unique counter }
{
    if counter == u64::MAX { 1 } else { counter + 1 }
}

/// What a storing command wants done, by the item that is held under its key.
pub fn plan_store(
    alloc: Global,
    latest: u32,
    counter: u64,
    verb: StoreVerb,
    flags: u32,
    exptime: i64,
    value: &[u8],
    held: Option<&Stored>,
) -> Planned
    requires { length value.now ≤ 1048576 }
    ensures plans { (key : List ℕ) (places : Places Item) →
        Plans key (plan_of_store (state_at latest counter places) verb key flags exptime value.now (held_item held.entry)) result }
    ensures short { IsShort result }
{
    let held = match held {
        Some(Stored::Collection(_)) => return Planned::Answer(Word::TypeMismatch),
        Some(Stored::KeyValue(item)) => Some(item),
        None => None,
    };
    let unique = next_unique(counter);
    match (verb, held) {
        (StoreVerb::Set, _) | (StoreVerb::Add, None) | (StoreVerb::Replace, Some(_)) => {}
        (StoreVerb::Add, Some(_)) => return Planned::Answer(Word::NotStored),
        (StoreVerb::Replace | StoreVerb::Append | StoreVerb::Prepend, None) => {
            return Planned::Answer(Word::NotStored);
        }
        (StoreVerb::Append, Some(item)) => return plan_joined(item.joined(b"", value, unique)),
        (StoreVerb::Prepend, Some(item)) => return plan_joined(item.joined(value, b"", unique)),
        (StoreVerb::Cas(_), None) => return Planned::Answer(Word::NotFound),
        (StoreVerb::Cas(asked), Some(item)) => {
            if item.unique != asked {
                return Planned::Answer(Word::Exists);
            }
        }
    }
    match KvItem::new(alloc, flags, expiry_at(latest, exptime), unique, value) {
        Ok(item) => Planned::Put(item, Reply::Word(Word::Stored)),
        Err(NoMemory) => Planned::NoMemory,
    }
}

// What is wanted with a value that was joined, or was not.
fn plan_joined(joined: Result<KvItem, JoinFault>) -> Planned
    ensures plan { IsJoinedPlan joined result }
    ensures short { IsShort result }
{
    match joined {
        Ok(item) => Planned::Put(item, Reply::Word(Word::Stored)),
        Err(JoinFault::TooLong(_)) => Planned::Answer(Word::TooLarge),
        Err(JoinFault::NoMemory) => Planned::NoMemory,
    }
}

/// What a counting command wants done, by the item that is held under its key.
pub fn plan_count(
    alloc: Global,
    latest: u32,
    counter: u64,
    up: bool,
    delta: u64,
    initial: Option<(u32, i64, u64)>,
    held: Option<&Stored>,
) -> Planned
    ensures plans { (key : List ℕ) (places : Places Item) →
        Plans key (plan_of_count (state_at latest counter places) up key delta initial (held_item held.entry)) result }
    ensures short { IsShort result }
{
    let (flags, expiry, number) = match (held, initial) {
        (Some(Stored::Collection(_)), _) => return Planned::Answer(Word::TypeMismatch),
        (Some(Stored::KeyValue(item)), _) => match counted(item.value.bytes(), up, delta) {
            Ok(number) => (item.flags, item.expiry, number),
            Err(_) => return Planned::Answer(Word::NotNumeric),
        },
        (None, Some((flags, exptime, number))) => (flags, expiry_at(latest, exptime), number),
        (None, None) => return Planned::Answer(Word::NotFound),
    };
    match number_item(alloc, flags, expiry, next_unique(counter), number) {
        Ok(item) => Planned::Put(item, Reply::Number(number)),
        Err(NoMemory) => Planned::NoMemory,
    }
}

// An item whose value is a number in decimal digits.
fn number_item(
    alloc: Global,
    flags: u32,
    expiry: Expiry,
    unique: u64,
    number: u64,
) -> Result<KvItem, NoMemory>
    ensures { IfOk result (λ item. plain_item item ≡ key_value flags expiry unique (decimal number)) }
{
    let mut digits = itoa::Buffer::new();
    let text = digits.format(number).as_bytes();
    KvItem::new(alloc, flags, expiry, unique, text)
}
