//! Keys of items: a borrowed one, and one that owns its bytes.
ghost use Rattle.std.specs.Prelude.{◌≡◌, ◌≤◌, List, ℕ, IfOk, length, not, position};
ghost use Rattle.std.specs.List.{position_or_len};
ghost use Rattle.arc_core.specs.Key.{IsKey, is_key_byte, key_fault, key_read};

use crate::NoMemory;
use std::alloc::Global;
use std::marker::Model;

/// The most bytes of a key.
pub const MAX_KEY_BYTES: usize = 16_000;

/// The most bytes of a field of a map.
pub const MAX_FIELD_BYTES: usize = 250;

/// What is wrong with the bytes of a key.
#[derive(Clone, Copy, Debug, PartialEq, Eq)]
pub enum KeyFault {
    /// There is no byte.
    Empty,
    /// There are more than 16,000 bytes; so many.
    TooLong(usize),
    /// The byte at this place, counted from 0, is none that a key has; it is the first such byte.
    BadByte(usize),
}

/// A key that borrows its 1 to 16,000 bytes, each from 33 to 126 or from 128 to 255.
///
/// Contracts see it as the list of its bytes. The rule is this server's own.
#[derive(Drop)]
pub struct KeyRef<'a> {
    bytes: &'a [u8],
}

impl<'a> Model for KeyRef<'a> {
    ghost Value = { List ℕ };

    ghost view = { λ key. key.bytes.now };

    ghost invariant = { λ key. IsKey key.bytes.now };
}

impl<'a> KeyRef<'a> {
    /// Reads the bytes as a key.
    ///
    /// The fault is the first that there is of `Empty`, `TooLong` and `BadByte`, the last with the first bad place.
    pub fn read(bytes: &'a [u8]) -> Result<KeyRef<'a>, KeyFault>
        ensures { result ≡ key_read bytes.now (key_fault bytes.now) }
    {
        if bytes.is_empty() {
            return Err(KeyFault::Empty);
        }
        if bytes.len() > MAX_KEY_BYTES {
            return Err(KeyFault::TooLong(bytes.len()));
        }
        match first_bad_place(bytes) {
            Some(place) => Err(KeyFault::BadByte(place)),
            None => Ok(KeyRef { bytes }),
        }
    }

    /// The key of bytes that are known to keep the rule on keys.
    pub fn of(bytes: &'a [u8]) -> KeyRef<'a>
        requires { IsKey bytes.now }
        ensures { result ≡ bytes.now }
    {
        KeyRef { bytes }
    }

    /// The key's bytes.
    pub fn bytes(&self) -> &'a [u8]
        ensures bytes { result.now ≡ self.now }
        ensures key { IsKey result.now }
        ensures fits { length result.now ≤ 16000 }
    {
        self.bytes
    }
}

/// How many bytes in front are those of keys. (A short loop of its own is tighter than one that is folded into its callers.)
#[inline(never)]
pub(crate) fn key_len(bytes: &[u8]) -> usize
    ensures { result ≡ position_or_len (λ b. not (is_key_byte b)) bytes.now }
{
    first_bad_place(bytes).unwrap_or(bytes.len())
}

// The place of the first byte that no key has.
fn first_bad_place(bytes: &[u8]) -> Option<usize>
    ensures { result ≡ position (λ b. not (is_key_byte b)) bytes.now }
{
    bytes.iter().position(|byte| !is_allowed(*byte))
}

// Whether a key may have this byte.
fn is_allowed(byte: u8) -> bool
    ensures { result ≡ is_key_byte byte }
{
    KEY_BYTES[byte as usize]
}

// Whether a key may have each byte, from 0 to 255. (A look-up takes fewer instructions than two compares.)
static KEY_BYTES: [bool; 256] = [
    false, false, false, false, false, false, false, false, false, false, false, false, false,
    false, false, false, false, false, false, false, false, false, false, false, false, false,
    false, false, false, false, false, false, false, true, true, true, true, true, true, true,
    true, true, true, true, true, true, true, true, true, true, true, true, true, true, true, true,
    true, true, true, true, true, true, true, true, true, true, true, true, true, true, true, true,
    true, true, true, true, true, true, true, true, true, true, true, true, true, true, true, true,
    true, true, true, true, true, true, true, true, true, true, true, true, true, true, true, true,
    true, true, true, true, true, true, true, true, true, true, true, true, true, true, true, true,
    true, true, true, true, true, true, true, false, true, true, true, true, true, true, true,
    true, true, true, true, true, true, true, true, true, true, true, true, true, true, true, true,
    true, true, true, true, true, true, true, true, true, true, true, true, true, true, true, true,
    true, true, true, true, true, true, true, true, true, true, true, true, true, true, true, true,
    true, true, true, true, true, true, true, true, true, true, true, true, true, true, true, true,
    true, true, true, true, true, true, true, true, true, true, true, true, true, true, true, true,
    true, true, true, true, true, true, true, true, true, true, true, true, true, true, true, true,
    true, true, true, true, true, true, true, true, true, true, true, true, true, true, true, true,
    true, true, true, true, true, true, true, true, true,
];

/// A key that owns its bytes, which keep the rule on keys. Contracts see it as the list of its bytes.
#[derive(Drop)]
pub struct Key {
    bytes: Vec<u8>,
}

impl Model for Key {
    ghost Value = { List ℕ };

    ghost view = { λ key. key.bytes.items };

    ghost invariant = { λ key. IsKey key.bytes.items };
}

impl Key {
    /// Copies a key. `NoMemory` comes for want of memory alone.
    pub fn copy(alloc: Global, key: KeyRef<'_>) -> Result<Key, NoMemory>
        ensures { IfOk result (λ copy. copy ≡ key.entry) }
    {
        let bytes = Vec::from_slice(alloc, key.bytes)?;
        Ok(Key { bytes })
    }

    /// The key's bytes.
    pub fn bytes(&self) -> &[u8]
        ensures bytes { result.now ≡ self.now }
        ensures key { IsKey result.now }
        ensures fits { length result.now ≤ 16000 }
    {
        &self.bytes
    }

    /// Gives the key's bytes up. Takes no memory.
    pub fn into_bytes(self) -> Vec<u8>
        ensures bytes { result.items ≡ self }
        ensures key { IsKey result.items }
    {
        self.bytes
    }
}
