//! What a collection carries beside its elements, and what a client asks of it.
ghost use Rattle.std.specs.Prelude.{◌≡◌, ◌<◌, ◌≤◌, List, [], ◌∷◌, ◌++◌, length};

use crate::{Action, Bkey, Expiry, Kind};
use std::marker::Model;

/// The attributes of an item. Key-value items have client flags and expiry alone.
#[derive(Clone, Copy, Debug, PartialEq, Eq)]
pub struct Attrs {
    /// The client's own number.
    pub flags: u32,
    pub expiry: Expiry,
    /// The most elements, 1 to 1,000,000.
    pub maxcount: u32,
    /// What an insert does where there are so many already.
    pub action: Action,
    /// Whether element reads are answered.
    pub readable: bool,
    /// The most that a tree's greatest number may be above its least; 0 is no bound.
    pub maxbkeyrange: u64,
}

/// What `create` asks for: the attributes as a line spells them.
///
/// `exptime` is the protocol's, from -2^31 to 2^32 - 1. `maxcount` is the written number, 0 for the default.
#[derive(Clone, Copy, Debug, PartialEq, Eq)]
pub struct CreateArgs {
    pub flags: u32,
    pub exptime: i64,
    pub maxcount: u32,
    pub action: Action,
    pub readable: bool,
}

/// An item as its attributes are read and set: what it is, its attributes, the latest second, and what its elements tell.
#[derive(Clone, Copy, Debug, PartialEq, Eq)]
pub struct AttrView {
    pub kind: Kind,
    pub attrs: Attrs,
    /// The latest second of the machine.
    pub latest: u64,
    /// The number of elements.
    pub count: u32,
    /// The least and the greatest bkey of a tree; `None` where it is empty.
    pub least: Option<Bkey>,
    pub greatest: Option<Bkey>,
    /// Whether a tree keeps an edge of what was trimmed.
    pub trimmed: bool,
    /// Whether a tree's bkeys are byte strings.
    pub bytes: bool,
}

/// The name of an attribute.
#[derive(Clone, Copy, Debug, PartialEq, Eq)]
pub enum AttrName {
    Flags,
    ExpireTime,
    /// `type`.
    KindName,
    Count,
    MaxCount,
    OverflowAction,
    Readable,
    MaxBkeyRange,
    MinBkey,
    MaxBkey,
    Trimmed,
}

/// The value of an attribute, by how it is printed.
#[derive(Clone, Copy, Debug, PartialEq, Eq)]
pub enum AttrNumber {
    /// A number.
    Plain(u64),
    /// -1, the expiry of an item that is never evicted.
    Sticky,
    /// The name of a kind.
    Kind(Kind),
    /// The name of an overflow action.
    Action(Action),
    /// `on` or `off`.
    OnOff(bool),
    /// A bkey, or -1 where there is none.
    Bkey(Option<Bkey>),
}

/// An attribute with its value.
#[derive(Clone, Copy, Debug, PartialEq, Eq)]
pub struct AttrValue {
    pub name: AttrName,
    pub value: AttrNumber,
}

/// The most attributes of an answer.
pub const MAX_ATTRIBUTES: usize = 16;

/// Up to 16 attributes with their values, in the order in which they are answered. Contracts see the list of them.
#[derive(Drop)]
pub struct AttrList {
    // Blanks from `held` on.
    places: [AttrValue; MAX_ATTRIBUTES],
    held: usize,
}

impl Model for AttrList {
    ghost use Rattle.std.specs.Prelude.{◌≡◌, ◌≤◌, List, take, length};
    ghost use Rattle.arc_core.specs.declared.attributes.AttrValue.{AttrValue};

    ghost Value = { List AttrValue };

    ghost view = { λ list. take list.held list.places };

    ghost invariant = { λ list. (list.held ≤ 16) × (length list.places ≡ 16) };
}

impl AttrList {
    /// The empty list. Takes no memory.
    pub fn new() -> AttrList
        ensures { result ≡ [] }
    {
        let blank = AttrValue {
            name: AttrName::Flags,
            value: AttrNumber::Plain(0),
        };
        AttrList {
            places: [blank; MAX_ATTRIBUTES],
            held: 0,
        }
    }

    /// Puts a value last. There have to be fewer than 16. Takes no memory.
    pub fn push(&mut self, value: AttrValue)
        requires { length self.old < 16 }
        ensures { self.new ≡ self.old ++ value ∷ [] }
    {
        self.places[self.held] = value;
        self.held += 1;
    }

    /// The values in order.
    pub fn as_slice(&self) -> &[AttrValue]
        ensures { result.now ≡ self.now }
    {
        &self.places[..self.held]
    }
}
