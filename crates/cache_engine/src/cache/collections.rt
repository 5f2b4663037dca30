//! Executes requests on collections.
ghost use Rattle.std.specs.Prelude.{◌≡◌, ◌<◌, ◌^◌, max, length, Some, None};
ghost use Rattle.arc_core.specs.CacheState.{ArePlaced};
ghost use Rattle.arc_core.specs.Item.{collection};
ghost use Rattle.arc_core.specs.Places.{found};
ghost use Rattle.arc_core.specs.Plan.{Plan, put};
ghost use Rattle.arc_core.specs.PlainRequest as act;
ghost use Rattle.arc_core.specs.PlainRequest.{plain_act};
ghost use Rattle.arc_core.specs.ReplyText.{reply_text};
ghost use Rattle.arc_core.specs.RequestLimits.{KeepsLimits, MayBeMade};
ghost use Rattle.coll_items.specs.Holding.{Held};
ghost use Rattle.coll_items.specs.Planning.{IsPlan, IsShort};
ghost use Rattle.cache_engine.specs.Acting.{Acts, Finishes};
ghost use Rattle.cache_engine.specs.Asking.{CarriesOut, IsOn, SuitsHeld, WantsMemory};
ghost use Rattle.cache_engine.specs.Starting.{key_state_of, live_of, IsLiveUnder};

use super::Cache;
use crate::asked::{empty_collection, making, plan_asked};
use crate::key_state::{KeyState, insert_and_use, key_state_of, live, remove_and_use};
use crate::stored::Stored;
use arc_core::{Act, CreateArgs, KeyRef, Kind, Reply, Word};
use byte_account::Put;
use coll_items::{Collection, Planned};

impl Cache {
    /// Makes an empty collection under the key, where no item is held.
    pub(crate) fn make(&mut self, now: u32, kind: Kind, key: &KeyRef<'_>, args: CreateArgs) -> Reply
        requires { MayBeMade kind args }
        ensures acts { Acts self.old now (act.make kind key.now args) result self.new }
        ensures text { length (reply_text result) < 2 ^ 64 }
    {
        let latest = self.latest.max(now);
        let key_state = key_state_of(latest, self.items.look(key.bytes()));
        if let KeyState::Live = key_state {
            return self.answer(now, key, key_state, Word::Exists);
        }
        let made = empty_collection(self.alloc, latest, kind, args);
        self.put_collection(now, key, key_state, made, Reply::Word(Word::Created))
    }

    /// Does what an act asks of the collection under its key.
    pub(crate) fn ask(&mut self, now: u32, key: &KeyRef<'_>, act: &Act<'_>) -> Reply
        requires on { IsOn key.now (plain_act act.now) }
        requires limits { KeepsLimits (plain_act act.now) }
        ensures acts { Acts self.old now (plain_act act.now) result self.new }
        ensures text { length (reply_text result) < 2 ^ 64 }
    {
        let latest = self.latest.max(now);
        let held = self.items.look(key.bytes());
        let key_state = key_state_of(latest, held);
        match live(latest, held) {
            None => self.ask_for_new(now, key, key_state, act),
            Some(Stored::KeyValue(_)) => self.answer(now, key, key_state, Word::TypeMismatch),
            Some(Stored::Collection(held)) => {
                let planned = plan_asked(self.alloc, act, held);
                self.change(now, key, planned)
            }
        }
    }

    // Does what an act asks where no item is held under its key: it may make a collection.
    fn ask_for_new(
        &mut self,
        now: u32,
        key: &KeyRef<'_>,
        key_state: KeyState,
        act: &Act<'_>,
    ) -> Reply
        requires key_state { key_state ≡ key_state_of (max self.old.latest now) (found key.now self.old.places) }
        requires placed { ArePlaced self.old.places }
        requires absent { live_of (max self.old.latest now) (found key.now self.old.places) ≡ None }
        requires on { IsOn key.now (plain_act act.now) }
        requires limits { KeepsLimits (plain_act act.now) }
        ensures acts { Acts self.old now (plain_act act.now) result self.new }
        ensures text { length (reply_text result) < 2 ^ 64 }
    {
        let Some((kind, args)) = making(act) else {
            return self.answer(now, key, key_state, Word::NotFound);
        };
        let mut made = empty_collection(self.alloc, self.latest.max(now), kind, args);
        match plan_asked(self.alloc, act, &made) {
            Planned::NoMemory => Reply::Word(Word::NoMemory),
            Planned::Stays(answer) => self.reply(now, key, key_state, answer),
            Planned::Puts(insertion, _) => {
                let Ok(()) = made.reserve_for(&insertion) else {
                    return Reply::Word(Word::NoMemory);
                };
                made.insert(insertion);
                self.put_collection(now, key, key_state, made, Reply::Word(Word::CreatedStored))
            }
            Planned::Removes { .. } => unreachable!(),
        }
    }

    // Puts a collection that was made under a key in this state, where there is room.
    fn put_collection(
        &mut self,
        now: u32,
        key: &KeyRef<'_>,
        key_state: KeyState,
        made: Collection,
        answer: Reply,
    ) -> Reply
        requires key_state { key_state ≡ key_state_of (max self.old.latest now) (found key.now self.old.places) }
        requires placed { ArePlaced self.old.places }
        requires short { length (reply_text answer) < 2 ^ 64 }
        ensures finishes { Finishes self.old now key.now (put key.now (collection made.attrs made.contents) self.old.counter answer) result self.new }
        ensures text { length (reply_text result) < 2 ^ 64 }
    {
        let Ok(made) = Box::new(self.alloc, made) else {
            return Reply::Word(Word::NoMemory);
        };
        let counter = self.counter;
        self.put(
            now,
            key,
            key_state,
            Stored::Collection(made),
            counter,
            answer,
        )
    }

    // Carries out what was planned with the collection under the key, which has not expired.
    fn change(&mut self, now: u32, key: &KeyRef<'_>, planned: Planned<'_>) -> Reply
        requires live { IsLiveUnder (max self.old.latest now) key.now self.old.places }
        requires suits { SuitsHeld key.now planned self.old.places }
        requires short { IsShort planned }
        requires placed { ArePlaced self.old.places }
        ensures carries_out { (held : Held) (plan : Plan) → found key.now self.old.places ≡ Some (collection held.attrs held.contents)
            → IsPlan self.old.counter key.now held plan planned.entry → CarriesOut (WantsMemory planned.entry) self.old now key.now plan result self.new }
        ensures text { length (reply_text result) < 2 ^ 64 }
    {
        let latest = self.latest.max(now);
        match planned {
            Planned::NoMemory => Reply::Word(Word::NoMemory),
            Planned::Stays(answer) => self.reply(now, key, KeyState::Live, answer),
            Planned::Puts(insertion, answer) => {
                match insert_and_use(&mut self.items, latest, key, insertion) {
                    Put::Done => {
                        self.latest = latest;
                        answer
                    }
                    Put::NoRoom => {
                        self.latest = latest;
                        Reply::Word(Word::OutOfMemory)
                    }
                    Put::NoMemory => Reply::Word(Word::NoMemory),
                }
            }
            Planned::Removes {
                removal,
                drop_empty,
                removed,
            } => {
                self.latest = latest;
                let dropped = remove_and_use(&mut self.items, latest, key, &removal, drop_empty);
                removed.reply(dropped)
            }
        }
    }
}
