//! Short byte strings that are kept in place.
ghost use Rattle.std.specs.Prelude.{◌≡◌, nat_eq, refl};
ghost use Rattle.std.specs.Option.{option_copied};
ghost use Rattle.std.specs.Ordering.{nat_cmp, as_partial_cmp};
ghost use Rattle.std.specs.Hash as fed;
ghost use Rattle.std.specs.Cmp.{partial_equiv_from_equiv};
ghost use Rattle.std.specs.Cmp.Lexicographic.{pointwise, slice_cmp, nat_list_cmp_total, nat_list_eq_equiv, texts_ties, texts_po};
ghost use Rattle.std.specs.Cmp.Rules.{hashing};
ghost use Rattle.std.proofs.Common.{rules};
ghost use Rattle.arc_core.specs.ShortBytes.{IsShort};
ghost use Rattle.arc_core.specs.HexText.{short_bytes, hex_digits_of};

use std::cmp::Ordering;
use std::hash::{Hash, Hasher};
use std::marker::Model;

/// The most bytes that are kept in place.
pub const MAX_SHORT_BYTES: usize = 31;

/// 1 to 31 bytes that are kept in place.
///
/// Contracts see it as the list of its bytes. It is ordered byte by byte, and a proper prefix is smaller.
#[derive(Clone, Copy, Debug)]
pub struct ShortBytes {
    // Zeros from `len` on.
    bytes: [u8; MAX_SHORT_BYTES],
    len: u8,
}

impl Model for ShortBytes {
    ghost use Rattle.std.specs.Prelude.{List, ℕ, take, length};
    ghost use Rattle.std.proofs.Common.{sym};
    ghost use Rattle.arc_core.specs.ShortBytes.{IsInPlace, in_place};

    ghost Value = { List ℕ };

    ghost view = { λ short. take short.len short.bytes };

    ghost invariant = { λ short. IsInPlace short.bytes short.len };

    ghost inverse = { λ list. record { bytes = in_place list; len = length list } };

    ghost inverse_ok = { λ short h i. record { bytes = (sym h.padded) i; len = (sym h.len_is) i } };
}

impl ShortBytes {
    /// The bytes, of which there are 1 to 31, copied into place.
    pub fn of(bytes: &[u8]) -> ShortBytes
        requires { IsShort bytes.now }
        ensures { result ≡ bytes.now }
    {
        let mut place = [0; MAX_SHORT_BYTES];
        place[..bytes.len()].copy_from_slice(bytes);
        ShortBytes {
            bytes: place,
            len: bytes.len() as u8,
        }
    }

    /// Reads hexadecimal digits of either case, two for each byte.
    ///
    /// `None` comes exactly where there is no digit, an odd number of them, more than 62, or a byte that is no digit.
    #[tactic(auto, unfolding(crate::specs::HexText::short_bytes))]
    pub fn from_hex(digits: &[u8]) -> Option<ShortBytes>
        ensures { result ≡ short_bytes digits.now }
    {
        if digits.is_empty() || digits.len() > 2 * MAX_SHORT_BYTES {
            return None;
        }
        let len = digits.len() / 2;
        let mut place = [0; MAX_SHORT_BYTES];
        hex::decode_to_slice(digits, &mut place[..len]).ok()?;
        Some(ShortBytes {
            bytes: place,
            len: len as u8,
        })
    }

    /// The bytes.
    pub fn bytes(&self) -> &[u8]
        ensures bytes { result.now ≡ self.now }
        ensures short { IsShort result.now }
    {
        &self.bytes[..self.len as usize]
    }
}

/// What stands behind `0x`, where a word begins with it. (`0X` is no such beginning.)
pub fn hex_digits(word: &[u8]) -> Option<&[u8]>
    ensures { option_copied result ≡ hex_digits_of word.now }
{
    word.strip_prefix(b"0x")
}

impl PartialEq for ShortBytes {
    ghost eq = { pointwise nat_eq };

    ghost laws = { partial_equiv_from_equiv nat_list_eq_equiv };

    fn eq(&self, other: &ShortBytes) -> bool {
        self.bytes() == other.bytes()
    }
}

impl Eq for ShortBytes {
    ghost laws = { nat_list_eq_equiv };
}

impl Ord for ShortBytes {
    ghost cmp = { slice_cmp nat_cmp };

    ghost total = { nat_list_cmp_total };

    ghost matches_partial_cmp = { λ a b. refl };

    ghost matches_eq = { texts_ties };

    fn cmp(&self, other: &ShortBytes) -> Ordering {
        self.bytes().cmp(other.bytes())
    }
}

impl PartialOrd for ShortBytes {
    ghost partial_cmp = { as_partial_cmp (slice_cmp nat_cmp) };

    ghost laws = { texts_po };

    fn partial_cmp(&self, other: &ShortBytes) -> Option<Ordering> {
        Some(self.cmp(other))
    }
}

impl Hash for ShortBytes {
    ghost hash_input = { fed.slice fed.u8 };

    ghost respects_eq = { Prim.search (hashing, rules) };

    fn hash<H: Hasher>(&self, state: &mut H) {
        self.bytes().hash(state);
    }
}
