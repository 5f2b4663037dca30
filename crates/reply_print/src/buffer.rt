//! Bytes that wait in a place of a fixed size.
ghost use Rattle.std.specs.Prelude.{◌≡◌, ◌+◌, ◌≤◌, ℕ, List, [], ◌++◌, length};

use std::marker::Model;

/// Up to `N` bytes, which lie in the value itself. Contracts see the list of them.
#[derive(Drop)]
pub(crate) struct Buffer<const N: usize> {
    held: usize,
    places: [u8; N],
}

impl<const N: usize> Model for Buffer<N> {
    ghost use Rattle.std.specs.Prelude.{◌≡◌, ◌≤◌, List, ℕ, take, length};

    ghost Value = { List ℕ };

    ghost view = { λ buffer. take buffer.held buffer.places };

    ghost invariant = { λ buffer. (buffer.held ≤ N) × (length buffer.places ≡ N) };
}

impl<const N: usize> Buffer<N> {
    /// A buffer in which nothing waits.
    pub fn new() -> Buffer<N>
        ensures { result ≡ [] }
    {
        Buffer {
            held: 0,
            places: [0; N],
        }
    }

    /// The bytes that wait.
    pub fn bytes(&self) -> &[u8]
        ensures bytes { result.now ≡ self.now }
        ensures fits { length result.now ≤ N }
    {
        let places = &self.places[..];
        &places[..self.held]
    }

    /// How many more bytes have room.
    pub fn room(&self) -> usize
        ensures { result + length self.now ≡ N }
    {
        N - self.held
    }

    /// Puts bytes last, for which there is room.
    pub fn add(&mut self, bytes: &[u8])
        requires { length self.old + length bytes.now ≤ N }
        ensures { self.new ≡ self.old ++ bytes.now }
    {
        let held = self.held;
        let end = held + bytes.len();
        let places = &mut self.places[..];
        places[held..end].copy_from_slice(bytes);
        self.held = end;
    }

    /// Drops all bytes.
    pub fn clear(&mut self)
        ensures { self.new ≡ [] }
    {
        self.held = 0;
    }
}
