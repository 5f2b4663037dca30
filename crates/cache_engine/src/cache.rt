//! The cache: the machine's state in memory.
ghost use Rattle.std.specs.Prelude.{◌≡◌, ◌≤◌, ◌<◌, ◌^◌, max, ℤ, length, IfOk};
ghost use Rattle.arc_core.specs.declared.replies.Reply.TheVariants as reply;
ghost use Rattle.arc_core.specs.PlainRequest as act;
ghost use Rattle.arc_core.specs.Places.{count_of, found};
ghost use Rattle.arc_core.specs.CacheState.{ArePlaced, opening_state, accounted, accounted_sticky, IsState};
ghost use Rattle.arc_core.specs.Plan.{Plan, put};
ghost use Rattle.arc_core.specs.ReplyText.{reply_text};
ghost use Rattle.cache_engine.specs.Planning.{Plans, IsShort};
ghost use Rattle.cache_engine.specs.Starting.{key_state_of};
ghost use Rattle.cache_engine.specs.Stored.{item_of};
ghost use Rattle.cache_engine.specs.Acting.{Acts, Finishes, Answers};

use crate::expiring::expiry_at;
use crate::items::Items;
use crate::key_state::{KeyState, key_state_of, live, put_and_use, set_expiry_and_use, use_key};
use crate::plans::{Planned, plan_count, plan_store};
use crate::retrieval::{read_and_use, rows_under};
use crate::settings::Settings;
use crate::stored::Stored;
use arc_core::{
    Act, Executor, KeyRef, KeyWords, NoMemory, Reply, Request, StoreVerb, Word,
    spelled_requests_keep_limits,
};
use byte_account::Put;
use std::alloc::Global;
use std::marker::Model;

mod collections;
#[cfg(test)]
mod tests;

/// A cache. Contracts see the state of the machine that it stands for.
#[derive(Drop)]
pub struct Cache {
    alloc: Global,
    items: Items,
    // The latest second that an executed request came with.
    latest: u32,
    // The cas counter.
    counter: u64,
}

impl Model for Cache {
    ghost use Rattle.std.specs.Prelude.{◌<◌, ◌^◌};
    ghost use Rattle.arc_core.specs.CacheState.{CacheState};
    ghost use Rattle.std.specs.FinMap as finite;
    ghost use Rattle.std.specs.Coded.{codes};

    ghost Value = { CacheState };

    ghost coded = { Prim.hlevel (codes, finite.code) };

    ghost view = { λ cache. record { latest = cache.latest; counter = cache.counter; places = cache.items } };

    ghost invariant = { λ cache. cache.latest < 2 ^ 32 };
}

impl Cache {
    /// An empty cache of the limit and the share that the settings say. `NoMemory` comes for want of memory alone.
    pub fn new(alloc: Global, settings: Settings) -> Result<Cache, NoMemory>
        ensures { IfOk result (λ cache. cache ≡ opening_state settings.limit settings.share) }
    {
        let items = Items::new(alloc, settings.limit, settings.share)?;
        Ok(Cache {
            alloc,
            items,
            latest: 0,
            counter: 0,
        })
    }

    /// The accounted bytes: the stated sizes of all held items, which are within the limit.
    pub fn accounted(&self) -> u64
        ensures sum { result ≡ accounted self.now }
        ensures within { result ≤ self.now.places.limit }
        // The held items keep their rules, and no key is held twice.
        ensures rules { IsState self.now }
    {
        self.items.keep_the_rules();
        self.items.total()
    }

    /// The accounted bytes of the sticky items, which are within their share.
    pub fn sticky(&self) -> u64
        ensures sum { result ≡ accounted_sticky self.now }
        ensures within { result ≤ self.now.places.share }
    {
        self.items.sticky_total()
    }

    /// How many items are held.
    pub fn items(&self) -> u64
        ensures { result ≡ count_of self.now.places }
    {
        self.items.count()
    }

    // Answers with a word, and leaves the item as it is under a key in this state.
    fn answer(&mut self, now: u32, key: &KeyRef<'_>, key_state: KeyState, word: Word) -> Reply
        requires { key_state ≡ key_state_of (max self.old.latest now) (found key.now self.old.places) }
        ensures answers { Answers self.old now key.now (reply.Word word) result self.new }
        ensures text { length (reply_text result) < 2 ^ 64 }
    {
        self.reply(now, key, key_state, Reply::Word(word))
    }

    // Answers so, and leaves the item as it is under a key in this state.
    fn reply(&mut self, now: u32, key: &KeyRef<'_>, key_state: KeyState, answer: Reply) -> Reply
        requires key_state { key_state ≡ key_state_of (max self.old.latest now) (found key.now self.old.places) }
        requires short { length (reply_text answer) < 2 ^ 64 }
        ensures answers { Answers self.old now key.now answer result self.new }
        ensures text { length (reply_text result) < 2 ^ 64 }
    {
        self.latest = self.latest.max(now);
        use_key(&mut self.items, self.latest, key.bytes(), key_state);
        answer
    }

    // Carries out what was planned for a key in this state.
    #[inline(always)]
    fn carry_out(
        &mut self,
        now: u32,
        key: &KeyRef<'_>,
        key_state: KeyState,
        planned: Planned,
    ) -> Reply
        requires key_state { key_state ≡ key_state_of (max self.old.latest now) (found key.now self.old.places) }
        requires placed { ArePlaced self.old.places }
        requires short { IsShort planned }
        ensures finishes { (plan : Plan) → Plans key.now plan planned → Finishes self.old now key.now plan result self.new }
        ensures text { length (reply_text result) < 2 ^ 64 }
    {
        match planned {
            Planned::NoMemory => Reply::Word(Word::NoMemory),
            Planned::Answer(word) => self.answer(now, key, key_state, word),
            Planned::Put(item, answer) => {
                let unique = item.unique;
                self.put(now, key, key_state, Stored::KeyValue(item), unique, answer)
            }
        }
    }

    // Puts an item under a key in this state, where there is room, and lets the cas counter be this.
    #[inline(always)]
    fn put(
        &mut self,
        now: u32,
        key: &KeyRef<'_>,
        key_state: KeyState,
        item: Stored,
        counter: u64,
        answer: Reply,
    ) -> Reply
        requires key_state { key_state ≡ key_state_of (max self.old.latest now) (found key.now self.old.places) }
        requires placed { ArePlaced self.old.places }
        requires short { length (reply_text answer) < 2 ^ 64 }
        ensures finishes { Finishes self.old now key.now (put key.now (item_of item) counter answer) result self.new }
        ensures text { length (reply_text result) < 2 ^ 64 }
    {
        let latest = self.latest.max(now);
        match put_and_use(&mut self.items, latest, key, key_state, item) {
            Put::Done => {
                self.latest = latest;
                self.counter = counter;
                answer
            }
            Put::NoRoom => {
                self.latest = latest;
                Reply::Word(Word::OutOfMemory)
            }
            Put::NoMemory => Reply::Word(Word::NoMemory),
        }
    }

    // Stores a value under the key, where the verb's condition holds.
    fn store(
        &mut self,
        now: u32,
        verb: StoreVerb,
        key: &KeyRef<'_>,
        flags: u32,
        exptime: i64,
        value: &[u8],
    ) -> Reply
        requires { length value.now ≤ 1048576 }
        ensures acts { Acts self.old now (act.store verb key.now flags exptime value.now) result self.new }
        ensures text { length (reply_text result) < 2 ^ 64 }
    {
        let latest = self.latest.max(now);
        let held = self.items.look(key.bytes());
        let key_state = key_state_of(latest, held);
        let held = live(latest, held);
        let planned = plan_store(
            self.alloc,
            latest,
            self.counter,
            verb,
            flags,
            exptime,
            value,
            held,
        );
        self.carry_out(now, key, key_state, planned)
    }

    // Counts up or down the number that the value under the key spells.
    fn count(
        &mut self,
        now: u32,
        up: bool,
        key: &KeyRef<'_>,
        delta: u64,
        initial: Option<(u32, i64, u64)>,
    ) -> Reply
        ensures acts { Acts self.old now (act.count up key.now delta initial) result self.new }
        ensures text { length (reply_text result) < 2 ^ 64 }
    {
        let latest = self.latest.max(now);
        let held = self.items.look(key.bytes());
        let key_state = key_state_of(latest, held);
        let held = live(latest, held);
        let planned = plan_count(self.alloc, latest, self.counter, up, delta, initial, held);
        self.carry_out(now, key, key_state, planned)
    }

    // Drops the item under the key.
    fn delete(&mut self, now: u32, key: &KeyRef<'_>) -> Reply
        ensures acts { Acts self.old now (act.delete key.now) result self.new }
        ensures text { length (reply_text result) < 2 ^ 64 }
    {
        let latest = self.latest.max(now);
        let key_state = key_state_of(latest, self.items.look(key.bytes()));
        let KeyState::Live = key_state else {
            return self.answer(now, key, key_state, Word::NotFound);
        };
        self.latest = latest;
        self.items.remove(key.bytes());
        Reply::Word(Word::Deleted)
    }

    // Gives the item under the key another expiry.
    fn touch(&mut self, now: u32, key: &KeyRef<'_>, exptime: i64) -> Reply
        ensures acts { Acts self.old now (act.touch key.now exptime) result self.new }
        ensures text { length (reply_text result) < 2 ^ 64 }
    {
        let latest = self.latest.max(now);
        let key_state = key_state_of(latest, self.items.look(key.bytes()));
        let KeyState::Live = key_state else {
            return self.answer(now, key, key_state, Word::NotFound);
        };
        let expiry = expiry_at(latest, exptime);
        match set_expiry_and_use(&mut self.items, latest, key, expiry) {
            Put::Done => {
                self.latest = latest;
                Reply::Word(Word::Touched)
            }
            Put::NoRoom => {
                self.latest = latest;
                Reply::Word(Word::OutOfMemory)
            }
            Put::NoMemory => Reply::Word(Word::NoMemory),
        }
    }

    // Drops all items.
    fn flush_all(&mut self, now: u32) -> Reply
        ensures { Acts self.old now act.flush_all result self.new }
    {
        self.latest = self.latest.max(now);
        self.items.clear();
        Reply::Word(Word::Ok)
    }

    // Tells the server's version.
    fn version(&mut self, now: u32) -> Reply
        ensures { Acts self.old now act.version result self.new }
    {
        self.latest = self.latest.max(now);
        Reply::Word(Word::Version)
    }

    // Answers the items under the keys.
    fn retrieve(&mut self, now: u32, keys: &KeyWords<'_>, unique: bool) -> Reply
        ensures acts { Acts self.old now (act.get keys.now unique) result self.new }
        ensures text { length (reply_text result) < 2 ^ 64 }
    {
        self.items.keep_the_rules();
        let latest = self.latest.max(now);
        let Ok(found) = rows_under(self.alloc, &self.items, latest, keys, unique) else {
            return Reply::Word(Word::NoMemory);
        };
        self.latest = latest;
        read_and_use(&mut self.items, latest, keys, found.late);
        Reply::Values(found.rows)
    }
}

impl Executor for Cache {
    ghost state = { λ cache. cache };

    fn execute(&mut self, now: u32, request: &Request<'_>) -> Reply {
        spelled_requests_keep_limits();

        match &request.act {
            Act::Store {
                verb,
                key,
                flags,
                exptime,
                value,
            } => self.store(now, *verb, key, *flags, *exptime, value),
            Act::Get { keys, unique } => self.retrieve(now, keys, *unique),
            Act::Count {
                up,
                key,
                delta,
                initial,
            } => self.count(now, *up, key, *delta, *initial),
            Act::Delete { key } => self.delete(now, key),
            Act::Touch { key, exptime } => self.touch(now, key, *exptime),
            Act::FlushAll => self.flush_all(now),
            Act::Version => self.version(now),
            Act::Create { kind, key, args } => self.make(now, *kind, key, *args),
            Act::ListInsert { key, .. }
            | Act::ListDelete { key, .. }
            | Act::ListGet { key, .. }
            | Act::SetInsert { key, .. }
            | Act::SetDelete { key, .. }
            | Act::SetExist { key, .. }
            | Act::SetGet { key, .. }
            | Act::MapInsert { key, .. }
            | Act::MapUpdate { key, .. }
            | Act::MapUpsert { key, .. }
            | Act::MapDelete { key, .. }
            | Act::MapGet { key, .. } => self.ask(now, key, &request.act),
        }
    }

    fn keeps_the_rules(&self) {
        self.items.keep_the_rules();
    }
}
