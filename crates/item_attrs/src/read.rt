//! Reading attributes.
ghost use Rattle.std.specs.Prelude.{◌≡◌, ◌<◌, ◌^◌, false};
ghost use Rattle.arc_core.specs.Item.{has_expired};
ghost use Rattle.item_attrs.specs.Attributes.{attr_read, attr_value, or_unknown, time_left};

use crate::names::name_for;
use arc_core::{AttrName, AttrNumber, AttrValue, AttrView, Expiry};

/// The word names no attribute of the item.
#[derive(Clone, Copy, Debug, PartialEq, Eq)]
pub struct AttrUnknown;

/// The attribute of the item that a word names, with its value.
///
/// The latest second is below 2^32, and the item has not expired by then. `AttrUnknown` comes exactly where the word is
/// no name, or one that items of this kind do not have. Takes no memory.
pub fn read_attr(name: &[u8], view: &AttrView) -> Result<AttrValue, AttrUnknown>
    requires latest { view.now.latest < 2 ^ 32 }
    requires held { has_expired view.now.latest view.now.attrs.expiry ≡ false }
    ensures { result ≡ or_unknown (attr_read name.now view.now) }
{
    let name = name_for(view.kind, name).ok_or(AttrUnknown)?;
    Ok(AttrValue {
        name,
        value: value_of(view, name),
    })
}

// The value of an attribute.
fn value_of(view: &AttrView, name: AttrName) -> AttrNumber
    requires { has_expired view.now.latest view.now.attrs.expiry ≡ false }
    ensures { result ≡ attr_value view.now name }
{
    match name {
        AttrName::Flags => AttrNumber::Plain(u64::from(view.attrs.flags)),
        AttrName::ExpireTime => time_left(view.latest, view.attrs.expiry),
        AttrName::KindName => AttrNumber::Kind(view.kind),
        AttrName::Count => AttrNumber::Plain(u64::from(view.count)),
        AttrName::MaxCount => AttrNumber::Plain(u64::from(view.attrs.maxcount)),
        AttrName::OverflowAction => AttrNumber::Action(view.attrs.action),
        AttrName::Readable => AttrNumber::OnOff(view.attrs.readable),
        AttrName::MaxBkeyRange => AttrNumber::Plain(view.attrs.maxbkeyrange),
        AttrName::MinBkey => AttrNumber::Bkey(view.least),
        AttrName::MaxBkey => AttrNumber::Bkey(view.greatest),
        AttrName::Trimmed => AttrNumber::Plain(u64::from(view.trimmed)),
    }
}

// How many seconds what expires then has left: 0 where it never expires, sticky where it is not evicted either.
fn time_left(latest: u64, expiry: Expiry) -> AttrNumber
    requires { has_expired latest expiry ≡ false }
    ensures { result ≡ time_left latest expiry }
{
    match expiry {
        Expiry::Never => AttrNumber::Plain(0),
        Expiry::Sticky => AttrNumber::Sticky,
        Expiry::At(second) => AttrNumber::Plain(second - latest),
    }
}
