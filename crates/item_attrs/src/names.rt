//! The names of attributes.
ghost use Rattle.std.specs.Prelude.{◌≡◌};
ghost use Rattle.item_attrs.specs.Attributes.{attr_name_of, has_attr, named_attr, names_of, is_collection, is_tree};

use arc_core::{AttrName, Kind};

// All names, those of fewer kinds behind those of more.
static NAMES: [AttrName; 11] = [
    AttrName::Flags,
    AttrName::ExpireTime,
    AttrName::KindName,
    AttrName::Count,
    AttrName::MaxCount,
    AttrName::OverflowAction,
    AttrName::Readable,
    AttrName::MaxBkeyRange,
    AttrName::MinBkey,
    AttrName::MaxBkey,
    AttrName::Trimmed,
];

/// The names that items of this kind have, in the order in which they are answered: flags, expiretime and type; of
/// collections also count, maxcount, overflowaction and readable; of trees also maxbkeyrange, minbkey, maxbkey and
/// trimmed. Takes no memory.
pub fn attr_names(kind: Kind) -> &'static [AttrName]
    ensures { result.now ≡ names_of kind }
{
    match kind {
        Kind::Kv => &NAMES[..3],
        Kind::List | Kind::Set | Kind::Map => &NAMES[..7],
        Kind::Tree => &NAMES,
    }
}

// The attribute of items of this kind that a word names.
pub fn name_for(kind: Kind, word: &[u8]) -> Option<AttrName>
    ensures { result ≡ named_attr kind word.now }
{
    let name = name_of(word)?;
    if has(kind, name) { Some(name) } else { None }
}

// The attribute that a word names.
#[tactic(auto, unfolding(crate::specs::Attributes::attr_name_of))]
fn name_of(word: &[u8]) -> Option<AttrName>
    ensures { result ≡ attr_name_of word.now }
{
    if word == b"flags".as_slice() {
        return Some(AttrName::Flags);
    }
    if word == b"expiretime".as_slice() {
        return Some(AttrName::ExpireTime);
    }
    if word == b"type".as_slice() {
        return Some(AttrName::KindName);
    }
    if word == b"count".as_slice() {
        return Some(AttrName::Count);
    }
    if word == b"maxcount".as_slice() {
        return Some(AttrName::MaxCount);
    }
    if word == b"overflowaction".as_slice() {
        return Some(AttrName::OverflowAction);
    }
    if word == b"readable".as_slice() {
        return Some(AttrName::Readable);
    }
    if word == b"maxbkeyrange".as_slice() {
        return Some(AttrName::MaxBkeyRange);
    }
    if word == b"minbkey".as_slice() {
        return Some(AttrName::MinBkey);
    }
    if word == b"maxbkey".as_slice() {
        return Some(AttrName::MaxBkey);
    }
    if word == b"trimmed".as_slice() {
        return Some(AttrName::Trimmed);
    }
    None
}

// Whether items of this kind have the attribute.
fn has(kind: Kind, name: AttrName) -> bool
    ensures { result ≡ has_attr kind name }
{
    match name {
        AttrName::Flags | AttrName::ExpireTime | AttrName::KindName => true,
        AttrName::Count | AttrName::MaxCount | AttrName::OverflowAction | AttrName::Readable => {
            is_collection(kind)
        }
        AttrName::MaxBkeyRange | AttrName::MinBkey | AttrName::MaxBkey | AttrName::Trimmed => {
            is_tree(kind)
        }
    }
}

fn is_collection(kind: Kind) -> bool
    ensures { result ≡ is_collection kind }
{
    !matches!(kind, Kind::Kv)
}

fn is_tree(kind: Kind) -> bool
    ensures { result ≡ is_tree kind }
{
    matches!(kind, Kind::Tree)
}
