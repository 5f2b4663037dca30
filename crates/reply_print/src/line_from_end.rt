//! Short texts with numbers, written from their end to their front, as digits come.
ghost use Rattle.std.specs.Prelude.{◌≡◌, ◌+◌, ◌*◌, ◌≤◌, [], ◌++◌, length, codes, decimal};
ghost use Rattle.hex.specs.Hex.{encode_lower};
ghost use Rattle.arc_core.specs.BkeyText.{hex_text};

use std::marker::Model;

/// What stands before hexadecimal digits.
const HEX_PREFIX: &[u8] = b"0x";

/// The end of a text of at most `N` bytes, in places of its own. Contracts see the list of its bytes.
#[derive(Drop)]
pub(crate) struct LineFromEnd<const N: usize> {
    places: [u8; N],
    start: usize,
}

impl<const N: usize> Model for LineFromEnd<N> {
    ghost use Rattle.std.specs.Prelude.{◌≡◌, ◌≤◌, List, ℕ, drop, length};

    ghost Value = { List ℕ };

    ghost view = { λ line. drop line.start line.places };

    ghost invariant = { λ line. (line.start ≤ N) × (length line.places ≡ N) };
}

impl<const N: usize> LineFromEnd<N> {
    /// The text of which nothing is written.
    pub fn new() -> LineFromEnd<N>
        ensures { result ≡ [] }
    {
        LineFromEnd {
            places: [0; N],
            start: N,
        }
    }

    /// The bytes that are written.
    pub fn bytes(&self) -> &[u8]
        ensures bytes { result.now ≡ self.now }
        ensures fits { length result.now ≤ N }
    {
        let places = &self.places[..];
        &places[self.start..]
    }

    /// Drops all bytes.
    pub fn clear(&mut self)
        ensures { self.new ≡ [] }
    {
        self.start = N;
    }

    /// Puts bytes in front, for which there is room.
    pub fn put(&mut self, bytes: &[u8])
        requires { length self.old + length bytes.now ≤ N }
        ensures { self.new ≡ bytes.now ++ self.old }
    {
        let end = self.start;
        let start = end - bytes.len();
        let places = &mut self.places[..];
        places[start..end].copy_from_slice(bytes);
        self.start = start;
    }

    /// Puts a number in front, for which there has to be room for 20 digits.
    pub fn put_number(&mut self, number: u64)
        requires { length self.old + 20 ≤ N }
        ensures line { self.new ≡ decimal number ++ self.old }
        ensures len { length self.new ≤ length self.old + 20 }
    {
        let places = &mut self.places[..];
        self.start = itoa::write_digits(number, places, self.start);
    }

    /// Puts `0x` and two hexadecimal digits for each of the bytes in front, for which there is room.
    pub fn put_hex(&mut self, bytes: &[u8])
        requires { length self.old + 2 * length bytes.now + 2 ≤ N }
        ensures line { self.new ≡ hex_text bytes.now ++ self.old }
        ensures len { length self.new ≡ length self.old + 2 * length bytes.now + 2 }
    {
        self.put_digits(bytes);
        self.put(HEX_PREFIX);
    }

    // Puts two hexadecimal digits for each of the bytes in front, for which there is room.
    fn put_digits(&mut self, bytes: &[u8])
        requires { length self.old + 2 * length bytes.now ≤ N }
        ensures line { self.new ≡ encode_lower bytes.now ++ self.old }
        ensures len { length self.new ≡ length self.old + 2 * length bytes.now }
    {
        let end = self.start;
        let start = end - 2 * bytes.len();
        let places = &mut self.places[..];
        hex::encode_to_slice(bytes, &mut places[start..end]).unwrap();
        self.start = start;
    }
}
