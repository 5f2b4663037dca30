//! Places by the numbers of their names, which are quicker to look for than the names.
ghost use Rattle.std.specs.Prelude.{◌≡◌, ◌-◌, ◌^◌, ◌<◌, false, None, bytes_eq, nat_eq, IfSome, IfNone};
ghost use Rattle.std.specs.Map.{lookup};
ghost use Rattle.byte_account.specs.Numbers.{name_hash, nth_number, by_names, IsNumbered, IsUnder};

use lru::LruCache;
use smallvec::SmallVec;
use std::hash::{FoldHasher, Hasher};

/// The bytes of a key, which take memory of their own where there are more than 30.
pub(crate) type Name = SmallVec<u8, 30>;

/// What stands in a place, with the key that has the place.
#[derive(Drop)]
pub(crate) struct Named<T> {
    pub(crate) name: Name,
    pub(crate) place: Option<T>,
}

/// The name's place and its number, where it has one.
pub(crate) fn find<'a, T>(
    table: &'a LruCache<u64, Named<T>>,
    tries: u64,
    name: &[u8],
) -> Option<(u64, &'a Named<T>)>
    requires { IsNumbered (λ named. named.name.items) (λ named. named.place) tries table.now.entries }
    ensures found { IfSome result (λ found. IsUnder (λ named. named.name.items) found.0 name.now found.1.now table.now.entries) }
    ensures absent { IfNone result (lookup (bytes_eq name.now) (by_names (λ named. named.name.items) (λ named. named.place) table.now.entries) ≡ None) }
{
    // No number has two places.
    let _places = table.len();
    let hash = hash_of(name);
    for k in 0..tries {
        let number = hash.wrapping_add(k);
        if let Some(named) = named_at(table, number, name) {
            return Some((number, named));
        }
    }
    None
}

// The place under the number, where it is the name's.
fn named_at<'a, T>(
    table: &'a LruCache<u64, Named<T>>,
    number: u64,
    name: &[u8],
) -> Option<&'a Named<T>>
    ensures here { IfSome result (λ named. (lookup (nat_eq number) table.now.entries ≡ Some named.now) × (named.now.name.items ≡ name.now)) }
    ensures elsewhere { IfNone result (IfSome (lookup (nat_eq number) table.now.entries) (λ named. bytes_eq name.now named.name.items ≡ false)) }
{
    let named = table.peek(&number)?;
    if name != named.name.as_slice() {
        return None;
    }
    Some(named)
}

/// The least k for which the k-th number of the names with this hash has no place.
pub(crate) fn free<T>(table: &LruCache<u64, Named<T>>, hash: u64) -> Option<u64>
    ensures free { IfSome result (λ k. lookup (nat_eq (nth_number hash k)) table.now.entries ≡ None) }
    ensures small { IfSome result (λ k. k < 2 ^ 64 - 1) }
{
    for k in 0..u64::MAX {
        if !table.contains(&hash.wrapping_add(k)) {
            return Some(k);
        }
    }
    None
}

/// The hash of a name, which its numbers begin with.
#[tactic(auto, unfolding(crate::specs::Numbers::name_hash))]
pub(crate) fn hash_of(name: &[u8]) -> u64
    ensures { result ≡ name_hash name.now }
{
    let mut hasher = FoldHasher::default();
    hasher.write(name);
    hasher.finish()
}
