//! What a retrieval answers, and what it leaves.
ghost use Rattle.std.specs.Prelude.{◌≡◌, ◌<◌, ◌^◌, ◌∷◌, [], ℕ, length, IfOk, OnOk};
ghost use Rattle.arc_core.specs.Item.{Item};
ghost use Rattle.arc_core.specs.Step.{rows_of_item, unexpired, used};
ghost use Rattle.arc_core.specs.Words.{AreKeys};
ghost use Rattle.arc_core.specs.CacheState.{ArePlaced};
ghost use Rattle.kv_items.specs.PlainItem.{plain_item};
ghost use Rattle.cache_engine.specs.Retrieving.{live_rows, some_late, AreLive, ReadsKey};

use crate::items::Items;
use crate::key_state::{drop_expired, key_state_of, live};
use crate::stored::Stored;
use arc_core::{Key, KeyRef, KeyWords, NoMemory, Seq, ValueRow};
use kv_items::KvItem;
use std::alloc::Global;

/// What is read for a retrieval.
#[derive(Drop)]
pub struct Found {
    /// A row for each key under which a key-value item is held that has not expired, in the keys' order.
    pub rows: Seq<ValueRow>,
    /// Whether the item under one of the keys has expired.
    pub late: bool,
}

/// Reads the items under the keys. Nothing changes. `NoMemory` comes for want of memory alone.
pub fn rows_under(
    alloc: Global,
    items: &Items,
    latest: u32,
    keys: &KeyWords<'_>,
    unique: bool,
) -> Result<Found, NoMemory>
    ensures rows { IfOk result (λ read. read.rows ≡ live_rows unique latest items.now keys.now) }
    ensures late { IfOk result (λ read. read.late ≡ some_late latest items.now keys.now) }
    ensures keys { OnOk result (AreKeys keys.now × (length keys.now < 2 ^ 32)) }
{
    let mut rows = Seq::with_capacity(alloc, keys.count() as usize)?;
    let mut late = false;
    for key in keys.iter() {
        let expired = read_key(alloc, &mut rows, items, latest, &key, unique)?;
        late = late || expired;
    }
    Ok(Found { rows, late })
}

// Puts the row of the item under the key last, if one is held that has not expired. Tells whether it has.
fn read_key(
    alloc: Global,
    rows: &mut Seq<ValueRow>,
    items: &Items,
    latest: u32,
    key: &KeyRef<'_>,
    unique: bool,
) -> Result<bool, NoMemory>
    ensures { ReadsKey unique latest items.now key.now rows.old rows.new result }
{
    let held = items.look(key.bytes());
    let Some(item) = live(latest, held) else {
        return Ok(held.is_some());
    };
    let Stored::KeyValue(item) = item else {
        return Ok(false);
    };
    let row = row_of(alloc, key, item, unique)?;
    match rows.push(row) {
        Ok(()) => Ok(false),
        Err(_) => Err(NoMemory),
    }
}

// The row of an item under its key, with its cas unique where that was asked for.
fn row_of(
    alloc: Global,
    key: &KeyRef<'_>,
    item: &KvItem,
    unique: bool,
) -> Result<ValueRow, NoMemory>
    ensures { IfOk result (λ row. rows_of_item unique key.now (plain_item item.now) ≡ row ∷ []) }
{
    let value = item.value.share()?;
    let key = Key::copy(alloc, KeyRef::of(key.bytes()))?;
    Ok(ValueRow {
        key,
        flags: item.flags,
        unique: if unique { Some(item.unique) } else { None },
        value,
    })
}

/// Takes the items under the keys away that have expired, of which there are some where `late` says so, and then marks the
/// keys as used: a step that names these keys and leaves their items as they are.
pub fn read_and_use(items: &mut Items, latest: u32, keys: &KeyWords<'_>, late: bool)
    requires { late ≡ some_late latest items.old keys.now }
    ensures { items.new ≡ used latest keys.now (unexpired latest keys.now items.old) }
{
    drop_expired_keys(items, latest, keys, late);
    use_keys(items, latest, keys);
}

// Takes the items under the keys away that have expired, of which there are some where `late` says so.
fn drop_expired_keys(items: &mut Items, latest: u32, keys: &KeyWords<'_>, late: bool)
    requires { late ≡ some_late latest items.old keys.now }
    ensures { items.new ≡ unexpired latest keys.now items.old }
{
    if !late {
        return;
    }
    for key in keys.iter() {
        let key_state = key_state_of(latest, items.look(key.bytes()));
        drop_expired(items, latest, key.bytes(), key_state);
    }
}

// Marks the keys as used, one after another. No item under one of them has expired.
fn use_keys(items: &mut Items, latest: u32, keys: &KeyWords<'_>)
    requires { AreLive latest keys.now items.old }
    ensures { items.new ≡ used latest keys.now items.old }
{
    for key in keys.iter() {
        items.mark_used(key.bytes());
    }
}
