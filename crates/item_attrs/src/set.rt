//! Setting attributes.
ghost use Rattle.std.specs.Prelude.{◌≡◌, ◌<◌, ◌^◌};
ghost use Rattle.arc_core.specs.CollectionGrammar.{action_word, list_action_word, plain_action_word};
ghost use Rattle.arc_core.specs.CollectionRows.{maxcount_of};
ghost use Rattle.arc_core.specs.Item.{expiry_at};
ghost use Rattle.arc_core.specs.Words.{exptime_word};
ghost use Rattle.item_attrs.specs.Attributes.{AreEnds, attr_set, attr_action_word, can_be_set, maxcount_word, may_have_range, on_word, range_word, set_value, tree_action_word};

use crate::names::name_for;
use arc_core::{Action, AttrName, AttrView, Attrs, Bkey, Expiry, Kind, read_number};

/// Why an attribute was not set.
#[derive(Clone, Copy, Debug, PartialEq, Eq)]
pub enum AttrFault {
    /// The word names no attribute of the item, or one that cannot be set.
    Unknown,
    /// The value is refused.
    BadValue,
}

// The greatest exptime below 0, less its sign.
const MAX_NEGATIVE: u64 = 2_147_483_648;

// An exptime of up to so many seconds, 30 days, counts from now. (memcached's rule.)
const MAX_SECONDS_FROM_NOW: i64 = 2_592_000;

// The most elements of a collection for which none are said, and of any.
const DEFAULT_MAXCOUNT: u32 = 4_000;

const MOST_MAXCOUNT: u32 = 1_000_000;

/// The attributes of the item, with the one that a word names set to what another word spells.
///
/// The latest second is below 2^32. The least and the greatest bkey are there or not there together; where bkeys are no
/// byte strings, they are numbers, of which the least is at most the greatest.
///
/// - `expiretime` takes an exptime, from -2^31 to 2^32 - 1.
/// - `maxcount` takes a number below 2^32: 0 is 4,000, and what is above 1,000,000 is 1,000,000. Where there are more
///   elements than that, it is their number.
/// - `overflowaction` takes an action of the kind.
/// - `readable` takes `on` alone.
/// - `maxbkeyrange` takes a number below 2^64: 0, or, where bkeys are no byte strings, one that the elements keep.
///
/// `Unknown` comes exactly where the word names no attribute that items of this kind have and that can be set,
/// `BadValue` exactly where it does and the value is refused. Takes no memory.
pub fn set_attr(name: &[u8], value: &[u8], view: &AttrView) -> Result<Attrs, AttrFault>
    requires latest { view.now.latest < 2 ^ 32 }
    requires ends { AreEnds view.now.bytes view.now.least view.now.greatest }
    ensures { result ≡ attr_set name.now value.now view.now }
{
    let name = name_for(view.kind, name).ok_or(AttrFault::Unknown)?;
    if !can_be_set(name) {
        return Err(AttrFault::Unknown);
    }
    with_value(name, value, view).ok_or(AttrFault::BadValue)
}

// Whether an attribute can be set.
fn can_be_set(name: AttrName) -> bool
    ensures { result ≡ can_be_set name }
{
    matches!(
        name,
        AttrName::ExpireTime
            | AttrName::MaxCount
            | AttrName::OverflowAction
            | AttrName::Readable
            | AttrName::MaxBkeyRange
    )
}

// The attributes with this one set to what a word spells; none where that is refused.
fn with_value(name: AttrName, value: &[u8], view: &AttrView) -> Option<Attrs>
    requires latest { view.now.latest < 2 ^ 32 }
    requires ends { AreEnds view.now.bytes view.now.least view.now.greatest }
    ensures { result ≡ set_value view.now name value.now }
{
    let mut attrs = view.attrs;
    match name {
        AttrName::ExpireTime => attrs.expiry = expiry_at(view.latest, exptime(value)?),
        AttrName::MaxCount => attrs.maxcount = maxcount(value, view.count)?,
        AttrName::OverflowAction => attrs.action = action(view.kind, value)?,
        AttrName::Readable => attrs.readable = on(value)?,
        AttrName::MaxBkeyRange => attrs.maxbkeyrange = range(value, view)?,
        _ => return None,
    }
    Some(attrs)
}

// Reads a word as an exptime.
#[tactic(auto, unfolding(arc_core::specs::Words::exptime_word))]
fn exptime(word: &[u8]) -> Option<i64>
    ensures { result ≡ exptime_word word.now }
{
    if let [b'-', digits @ ..] = word {
        let number = read_number(digits, MAX_NEGATIVE)?;
        return Some(-(number as i64));
    }
    let number = read_number(word, u64::from(u32::MAX))?;
    Some(number as i64)
}

// When an item expires that is given this exptime at the latest second.
fn expiry_at(latest: u64, exptime: i64) -> Expiry
    requires { latest < 2 ^ 32 }
    ensures { result ≡ expiry_at latest exptime }
{
    if exptime == 0 {
        return Expiry::Never;
    }
    if exptime == -1 {
        return Expiry::Sticky;
    }
    if exptime < 0 {
        return Expiry::At(0);
    }
    let seconds = exptime as u64;
    if exptime <= MAX_SECONDS_FROM_NOW {
        Expiry::At(latest + seconds)
    } else {
        Expiry::At(seconds)
    }
}

// Reads a word as a maxcount, which is never below the number of elements.
fn maxcount(word: &[u8], count: u32) -> Option<u32>
    ensures { result ≡ maxcount_word count word.now }
{
    let written = read_number(word, u64::from(u32::MAX))? as u32;
    Some(limited(written).max(count))
}

// The most elements of a collection, where this is written.
fn limited(written: u32) -> u32
    ensures { result ≡ maxcount_of written }
{
    if written == 0 {
        return DEFAULT_MAXCOUNT;
    }
    written.min(MOST_MAXCOUNT)
}

// Reads a word as an action that a collection of this kind may have.
#[tactic(auto, unfolding(arc_core::specs::CollectionGrammar::action_word))]
fn action(kind: Kind, word: &[u8]) -> Option<Action>
    ensures { result ≡ attr_action_word kind word.now }
{
    match kind {
        Kind::List => list_action(word),
        Kind::Set | Kind::Map => plain_action(word),
        Kind::Tree => tree_action(word),
        Kind::Kv => None,
    }
}

// The action of a list.
fn list_action(word: &[u8]) -> Option<Action>
    ensures { result ≡ list_action_word word.now }
{
    if word == b"error".as_slice() {
        return Some(Action::Error);
    }
    if word == b"head_trim".as_slice() {
        return Some(Action::HeadTrim);
    }
    if word == b"tail_trim".as_slice() {
        return Some(Action::TailTrim);
    }
    None
}

// The one action of sets and maps.
fn plain_action(word: &[u8]) -> Option<Action>
    ensures { result ≡ plain_action_word word.now }
{
    if word == b"error".as_slice() {
        return Some(Action::Error);
    }
    None
}

// The action of a tree.
fn tree_action(word: &[u8]) -> Option<Action>
    ensures { result ≡ tree_action_word word.now }
{
    if word == b"error".as_slice() {
        return Some(Action::Error);
    }
    if word == b"smallest_trim".as_slice() {
        return Some(Action::SmallestTrim);
    }
    if word == b"largest_trim".as_slice() {
        return Some(Action::LargestTrim);
    }
    if word == b"smallest_silent_trim".as_slice() {
        return Some(Action::SmallestSilentTrim);
    }
    if word == b"largest_silent_trim".as_slice() {
        return Some(Action::LargestSilentTrim);
    }
    None
}

// Reads the word `on`.
#[tactic(auto, unfolding(crate::specs::Attributes::on_word))]
fn on(word: &[u8]) -> Option<bool>
    ensures { result ≡ on_word word.now }
{
    if word == b"on".as_slice() {
        return Some(true);
    }
    None
}

// Reads a word as a maxbkeyrange that the tree may have.
fn range(word: &[u8], view: &AttrView) -> Option<u64>
    requires { AreEnds view.now.bytes view.now.least view.now.greatest }
    ensures { result ≡ range_word view.now word.now }
{
    let range = read_number(word, u64::MAX)?;
    if may_have_range(view, range) {
        Some(range)
    } else {
        None
    }
}

// Whether a tree may have this maxbkeyrange.
fn may_have_range(view: &AttrView, range: u64) -> bool
    requires { AreEnds view.now.bytes view.now.least view.now.greatest }
    ensures { result ≡ may_have_range view.now range }
{
    if range == 0 {
        return true;
    }
    if view.bytes {
        return false;
    }
    match (view.least, view.greatest) {
        (Some(Bkey::Number(least)), Some(Bkey::Number(greatest))) => greatest - least <= range,
        _ => true,
    }
}
