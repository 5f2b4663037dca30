//! What the shelf asks of an item.
ghost use Rattle.std.specs.Prelude.{◌≡◌, List, ℕ};

/// An item whose bytes the shelf accounts.
pub trait Weighs: Drop {
    // The item's weight where it stands under the key.
    ghost weigh: { List ℕ → Self → ℕ };

    /// The bytes that are accounted for the item where it stands under this key.
    fn weight(&self, key: &[u8]) -> u64
        ensures { result ≡ weigh key.now self.now };
}
