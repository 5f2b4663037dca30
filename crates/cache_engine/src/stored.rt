//! What is held under a key.
ghost use Rattle.std.specs.Prelude.{◌≡◌};
ghost use Rattle.arc_core.specs.Item.{IsItem, size_of, is_sticky, expiry_of, with_expiry};
ghost use Rattle.cache_engine.specs.Stored.{item_of};

use arc_core::Expiry;
use byte_account::Weighs;
use coll_items::Collection;
use kv_items::KvItem;

/// What the stated size of a key-value item counts beside its key and value, in bytes.
const ITEM_BYTES: u64 = 64;
/// What the stated size of a collection counts beside its key and elements, in bytes.
const COLLECTION_BYTES: u64 = 128;

/// An item, of whichever kind.
#[derive(Drop)]
pub enum Stored {
    /// A key-value item.
    KeyValue(KvItem),
    /// A collection, behind a pointer: so it takes no more room in a place than a key-value item does.
    Collection(Box<Collection>),
}

impl Weighs for Stored {
    ghost weigh = { λ key stored. size_of key (item_of stored) };

    fn weight(&self, key: &[u8]) -> u64 {
        match self {
            Stored::KeyValue(item) => {
                ITEM_BYTES + key.len() as u64 + item.value.bytes().len() as u64
            }
            Stored::Collection(collection) => {
                COLLECTION_BYTES + key.len() as u64 + collection.size()
            }
        }
    }
}

impl Stored {
    /// When the item expires.
    pub fn expiry(&self) -> Expiry
        ensures { result ≡ expiry_of (item_of self.now) }
    {
        match self {
            Stored::KeyValue(item) => item.expiry,
            Stored::Collection(collection) => collection.attrs().expiry,
        }
    }

    /// The item with another expiry.
    pub fn with_expiry(self, expiry: Expiry) -> Stored
        ensures { item_of result ≡ with_expiry expiry (item_of self) }
    {
        match self {
            Stored::KeyValue(mut item) => {
                item.expiry = expiry;
                Stored::KeyValue(item)
            }
            Stored::Collection(mut collection) => {
                collection.set_expiry(expiry);
                Stored::Collection(collection)
            }
        }
    }

    /// Does nothing, and tells contracts the rules that the item keeps.
    pub fn keep_the_rules(&self)
        ensures { IsItem (item_of self.now) }
    {
        if let Stored::Collection(collection) = self {
            let _ = collection.attrs();
        }
    }

    /// Whether the item is never evicted.
    pub fn is_sticky(&self) -> bool
        ensures { result ≡ is_sticky (expiry_of (item_of self.now)) }
    {
        is_sticky(self.expiry())
    }
}

/// Whether what expires then is never evicted.
pub fn is_sticky(expiry: Expiry) -> bool
    ensures { result ≡ is_sticky expiry }
{
    expiry == Expiry::Sticky
}
